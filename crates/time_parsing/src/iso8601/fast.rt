//! The commonest texts of ISO 8601, parsed without a record.
//!
//! `date_time`, `moment` and `front` return the value that a parse over an empty record returns, or `None`. After `None`
//! the text is parsed over a record, and may still be accepted.
ghost use Rattle.std.specs.Prelude.{◌≡◌, [], IfSome, Some, Ok};
ghost use Rattle.time_values.specs.Moments.{plain_date, plain_time};
ghost use Rattle.time_values.specs.Calendar.{greatest_year};
ghost use Rattle.time_readers.specs.IsoDates.{iso_date};
ghost use Rattle.time_readers.specs.IsoTimes.{ReturnsDateAndTime};
ghost use Rattle.time_readers.specs.IsoOffsets.{offset_found};
ghost use Rattle.time_readers.specs.declared.iso8601.OffsetNumbers.{OffsetNumbers as OffsetNumbers_};
ghost use Rattle.time_record.specs.Record.{empty};
ghost use Rattle.time_record.specs.Resolution.{IsMoment, IsPlain};
ghost use Rattle.time_parsing.specs.Iso8601.{Reads, ReadsMoment, Refuses, iso_date_of, time_numbers_of, IsOffsetOfNumbers};
ghost use Rattle.time_parsing.specs.Outcome.{IsOutcome};

use time_readers::iso8601::{
    DateAndTime, DateNumbers, ExtendedKind, OffsetNumbers, TimeNumbers, date_and_time, offset,
};
use time_values::{Date, OffsetDateTime, PlainDateTime, Time, UtcOffset};

// The date and time of a whole text, which may have an offset after them; the offset is ignored. `None` if the text
// doesn't begin with a date by month and day that `parts` parses and a time with `T`, or if bytes after these aren't an
// offset, or if the date doesn't exist, or the second is 60.
#[inline(always)]
pub(super) fn date_time(input: &[u8]) -> Option<PlainDateTime>
    ensures { IfSome result (λ p. IsOutcome (IsPlain greatest_year) (Reads greatest_year)
        (Refuses greatest_year) input.now empty (Ok p)) }
{
    let found = parts(input)?;
    let time = found.time?;
    let plain = date_time_of(found.date.value, time.value)?;
    if !time.rest.is_empty() {
        offset_to_the_end(time.rest, time.kind)?;
    }
    Some(plain)
}

/// Parses a date `YYYY-MM-DD` or `YYYYMMDD`, any time with `T` and an offset at the start of a text. Returns the moment
/// and the rest. `None` for any other text, a date that doesn't exist or a second of 60. `Iso8601` may still accept it.
#[inline(always)]
pub fn front(input: &[u8]) -> Option<(OffsetDateTime, &[u8])>
    ensures { IfSome result (λ p. ReadsMoment greatest_year input.now p.0 p.1.now) }
{
    let found = parts(input)?;
    let time = found.time?;
    let after = offset(time.rest, time.kind)?;
    let offset = offset_of(after.value)?;
    let plain = date_time_of(found.date.value, time.value)?;
    let moment = OffsetDateTime::new_in_offset(plain.date(), plain.time(), offset);
    Some((moment, after.rest))
}

// The moment of a whole text that `front` parses. `None` if `front` returns `None`, or if bytes follow the offset.
#[inline(always)]
pub(super) fn moment(input: &[u8]) -> Option<OffsetDateTime>
    ensures { IfSome result (λ v. IsOutcome (IsMoment greatest_year) (Reads greatest_year)
        (Refuses greatest_year) input.now empty (Ok v)) }
{
    let (moment, rest) = front(input)?;
    if !rest.is_empty() {
        return None;
    }
    Some(moment)
}

/// The date and time of these numbers. `None` if the date is by the day of the year or by the week, or doesn't exist,
/// or if a number of the time is out of its range, as a second of 60.
#[inline(always)]
pub fn date_time_of(date: DateNumbers, time: TimeNumbers) -> Option<PlainDateTime>
    ensures { IfSome result (λ p. (iso_date date ≡ iso_date_of (plain_date p)) × (time ≡ time_numbers_of (plain_time p))) }
{
    let DateNumbers::Calendar(year, month, day) = date else {
        return None;
    };
    let date = Date::from_calendar_date(year, month, day.get());
    let time = Time::from_hms_nano(time.hour, time.minute, time.second, time.subsecond);
    match (date, time) {
        (Ok(date), Ok(time)) => Some(PlainDateTime::new(date, time)),
        _ => None,
    }
}

// The offset of these numbers: UTC for `Z`, or else the hour and the minute with 0 seconds. `None` if the hour isn't
// -25 to 25, or the minute isn't -59 to 59.
#[inline(always)]
fn offset_of(numbers: OffsetNumbers) -> Option<UtcOffset>
    ensures { IfSome result (IsOffsetOfNumbers numbers) }
{
    match numbers {
        OffsetNumbers::Zulu => Some(UtcOffset::UTC),
        OffsetNumbers::Numeric(hour, minute) => UtcOffset::from_hms(hour, minute, 0).ok(),
    }
}

// The date at the start of a text, and the time after it if there is one. `None` if the text has neither both `-` of
// `YYYY-MM-DD`, nor the `T` of `YYYYMMDDT` and a month that begins with 0 or 1, or if `date_and_time` returns an error.
#[inline(always)]
fn parts(input: &[u8]) -> Option<DateAndTime<'_>>
    ensures { IfSome result (λ p. ReturnsDateAndTime input.now (Ok p)) }
{
    match input {
        [_, _, _, _, b'-', _, _, b'-', _, ..] | [_, _, _, _, b'0'..=b'1', _, _, _, b'T', ..] =>
            date_and_time(input).ok(),
        _ => None,
    }
}

/// The ISO 8601 offset that is the whole input: `Z`, or a sign, an hour and an optional minute. `kind` is the kind of
/// the text before it: a basic text allows no colon. `None` for other input, an hour above 25 or a minute above 59.
#[inline(always)]
pub fn offset_to_the_end(input: &[u8], kind: ExtendedKind) -> Option<UtcOffset>
    ensures { IfSome result (λ o. (n : OffsetNumbers_) × (offset_found kind input.now ≡ Some ([], n)) × IsOffsetOfNumbers n o) }
{
    let found = offset(input, kind)?;
    if !found.rest.is_empty() {
        return None;
    }
    offset_of(found.value)
}
