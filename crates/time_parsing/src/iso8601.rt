//! The format of ISO 8601, parsed over a record.
//!
//! For a `PlainDateTime` or an `OffsetDateTime` without defaults, `fast` is tried first: it makes the value directly
//! from the numbers of a whole text. A text that `fast` doesn't parse is parsed over an empty record.
ghost use Rattle.std.specs.Prelude.{◌≡◌, MatchOption, MatchResult, Some, None, false, true, Ok, Err};
ghost use Rattle.time_values.specs.Calendar.{greatest_year};
ghost use Rattle.time_values.specs.Refusal.{refusal_of_description};
ghost use Rattle.time_readers.specs.IsoDates.{iso_date};
ghost use Rattle.time_readers.specs.declared.iso8601.ExtendedKind.TheVariants.{Unknown};
ghost use Rattle.time_record.specs.Record.{put_all};
ghost use Rattle.time_record.specs.Resolution.{IsMoment};
ghost use Rattle.time_parsing.specs.Iso8601 as spec;
ghost use Rattle.time_parsing.specs.IsoSteps as steps;
ghost use Rattle.time_parsing.specs.Outcome.{IsOutcome, begun, over_record, seen};
ghost use Rattle.time_parsing.specs.Rfc3339.{without_offset_sign};

pub mod fast;

use crate::Parsable;
use crate::parsable::{begin, moment_before, value_before};
use time_readers::iso8601::{
    DateNumbers, ExtendedKind, OffsetNumbers, TimeNumbers, date, offset, time,
};
use time_record::Parsed;
use time_values::error::{Parse, ParseFromDescription};
use time_values::{OffsetDateTime, PlainDateTime};

/// The format of ISO 8601, as `2021-01-02T03:04:05Z` or `20210102T030405Z`.
///
/// A text is an optional date, an optional time and an optional offset, and at least one of them. A date begins with a
/// year of four digits, or of a sign and six digits. It is of the calendar, as `2021-01-02`, by the day of the year, as
/// `2021-002`, or by the week, as `2020-W53-6`. A time has an hour, and may have a minute and a second, of two digits
/// each. The last of them may have a fraction of one or more digits, after `.` or `,`, which determines the omitted
/// parts; without a fraction they are 0. A fraction of a second is rounded half up to nanoseconds, and must not round
/// to 1 second; any other is truncated to nanoseconds. After a date a time must begin with `T`, and else it may. An
/// offset is `Z`, or a sign, an hour 00 to 25 and an optional minute, as `-05`; a numeric one keeps the second of the
/// defaults' offset. After a date an offset requires a time between them. `T`, `W` and `Z` are uppercase.
///
/// A second of 60 is a leap second. As `OffsetDateTime`, `UtcDateTime` or `Timestamp` it is the last nanosecond before,
/// which must end a month in UTC. [`Parsable::parse_time`] and [`Parsable::parse_plain_date_time`] reject it.
///
/// A text is basic, without `-` and `:` between numbers, or extended, with them. The first part that shows which kind
/// the text has determines the kind of the later parts: in a basic text no colon is read, and in an extended one the
/// colon before a minute is optional. A part that can't be parsed determines nothing, and leaves the record unchanged.
///
/// If neither date, time nor offset can be parsed, the error is the date's: an invalid component `year`, `month`,
/// `day`, `ordinal`, `week` or `weekday`, or an invalid literal if a `-` is missing. A day above 31, an ordinal above
/// 366 or a week above 53 rejects the date. Then no other form of a date is tried, but a time and an offset still are.
#[derive(Clone, Copy, Debug, PartialEq, Eq)]
pub struct Iso8601;

// Stores a date's numbers in turn until one is out of its range. Returns the error of that number, an invalid component
// `year`, `day`, `ordinal` or `week`. After an error the record may have changed.
#[inline(always)]
fn store_date(numbers: DateNumbers, parsed: &mut Parsed) -> Result<(), ParseFromDescription>
    ensures { MatchResult result
        (λ _. spec.put_or_fault greatest_year (spec.date_entries (iso_date numbers)) parsed.old ≡ Ok parsed.new)
        (λ e. spec.put_or_fault greatest_year (spec.date_entries (iso_date numbers)) parsed.old
        ≡ Err (refusal_of_description e)) }
{
    match numbers {
        DateNumbers::Calendar(year, month, day) => {
            if parsed.set_year(year).is_none() {
                return Err(ParseFromDescription::InvalidComponent("year"));
            }
            parsed.set_month(month);
            if parsed.set_day(day).is_none() {
                return Err(ParseFromDescription::InvalidComponent("day"));
            }
        }
        DateNumbers::Ordinal(year, ordinal) => {
            if parsed.set_year(year).is_none() {
                return Err(ParseFromDescription::InvalidComponent("year"));
            }
            if parsed.set_ordinal(ordinal).is_none() {
                return Err(ParseFromDescription::InvalidComponent("ordinal"));
            }
        }
        DateNumbers::Week(year, week, weekday) => {
            if parsed.set_iso_year(year).is_none() {
                return Err(ParseFromDescription::InvalidComponent("year"));
            }
            if parsed.set_iso_week_number(week).is_none() {
                return Err(ParseFromDescription::InvalidComponent("week"));
            }
            parsed.set_weekday(weekday);
        }
    }
    Ok(())
}

// Stores a date's numbers. If one is out of its range, stores nothing, and returns the error of the first such number,
// an invalid component `year`, `day`, `ordinal` or `week`.
#[inline(always)]
fn put_date(numbers: DateNumbers, parsed: &mut Parsed) -> Result<(), ParseFromDescription>
    ensures { MatchResult result
        (λ _. spec.put_or_fault greatest_year (spec.date_entries (iso_date numbers)) parsed.old ≡ Ok parsed.new)
        (λ e. (spec.put_or_fault greatest_year (spec.date_entries (iso_date numbers)) parsed.old
        ≡ Err (refusal_of_description e)) × (parsed.new ≡ parsed.old)) }
{
    let before = *parsed;
    let stored = store_date(numbers, parsed);
    if stored.is_err() {
        *parsed = before;
    }
    stored
}

// Stores a time's numbers. If the hour is above 23, the minute above 59, the second above 60 or the nanoseconds above
// 999,999,999, returns `None` and stores nothing.
#[inline(always)]
fn put_time(numbers: TimeNumbers, parsed: &mut Parsed) -> Option<()>
    ensures { MatchOption result
        ((put_all greatest_year (spec.time_entries numbers) parsed.old ≡ None) × (parsed.new ≡ parsed.old))
        (λ _. put_all greatest_year (spec.time_entries numbers) parsed.old ≡ Some parsed.new) }
{
    if numbers.hour > 23
        || numbers.minute > 59
        || numbers.second > 60
        || numbers.subsecond > 999_999_999
    {
        return None;
    }
    parsed.set_hour_24(numbers.hour);
    parsed.set_minute(numbers.minute);
    parsed.set_second(numbers.second);
    parsed.set_subsecond(numbers.subsecond);
    Some(())
}

// Stores an offset's hour and minute, or for `Z` 0 as hour, minute and second. Clears the flag of a negative offset. If
// the hour isn't -25 to 25 or the minute isn't -59 to 59, returns `None` and changes nothing.
#[inline(always)]
fn put_offset(numbers: OffsetNumbers, parsed: &mut Parsed) -> Option<()>
    ensures { MatchOption result
        ((put_all greatest_year (spec.offset_entries numbers) (without_offset_sign parsed.old) ≡ None)
        × (parsed.new ≡ parsed.old))
        (λ _. put_all greatest_year (spec.offset_entries numbers) (without_offset_sign parsed.old)
        ≡ Some parsed.new) }
{
    match numbers {
        OffsetNumbers::Zulu => {
            parsed.forget_offset_sign();
            parsed.set_offset_hour(0);
            parsed.set_offset_minute_signed(0);
            parsed.set_offset_second_signed(0);
        }
        OffsetNumbers::Numeric(hour, minute) => {
            if hour < -25 || hour > 25 || minute < -59 || minute > 59 {
                return None;
            }
            parsed.forget_offset_sign();
            parsed.set_offset_hour(hour);
            parsed.set_offset_minute_signed(minute);
        }
    }
    Some(())
}

// Parses a date at the start of the input over the record, and returns the rest and the kind after the date. If no date
// matches, or one of its numbers is out of range, returns the date's error; the record is then unchanged.
#[inline(always)]
fn date_over<'a>(
    input: &'a [u8],
    parsed: &mut Parsed,
) -> Result<(&'a [u8], ExtendedKind), ParseFromDescription>
    ensures { MatchResult result
        (λ p. spec.date_over greatest_year input.now parsed.old
        ≡ Ok (record { rest = p.0.now; value = parsed.new; kind = p.1 }))
        (λ e. (spec.date_over greatest_year input.now parsed.old ≡ Err (refusal_of_description e))
        × (parsed.new ≡ parsed.old)) }
{
    match date(input) {
        Ok(found) => match put_date(found.value, parsed) {
            Ok(()) => Ok((found.rest, found.kind)),
            Err(fault) => Err(fault),
        },
        Err(fault) => Err(fault),
    }
}

// Parses a time at the start of the input over the record, and returns the rest and the kind after the time. `kind` is
// the kind before the time. The time must begin with `T` if `needs_t`, and else may. `None` if no time matches, or one
// of its numbers is out of range; the record is then unchanged.
#[inline(always)]
fn time_over<'a>(
    input: &'a [u8],
    parsed: &mut Parsed,
    kind: ExtendedKind,
    needs_t: bool,
) -> Option<(&'a [u8], ExtendedKind)>
    ensures { MatchOption result
        ((spec.time_over greatest_year needs_t kind input.now parsed.old ≡ None) × (parsed.new ≡ parsed.old))
        (λ p. spec.time_over greatest_year needs_t kind input.now parsed.old
        ≡ Some (record { rest = p.0.now; value = parsed.new; kind = p.1 })) }
{
    let found = time(input, kind, needs_t)?;
    put_time(found.value, parsed)?;
    Some((found.rest, found.kind))
}

// Parses an offset at the start of the input over the record, and returns the rest, without the kind after it, since no
// part follows. `kind` is the kind before the offset. `None` if no offset matches; the record is then unchanged.
#[inline(always)]
fn offset_over<'a>(input: &'a [u8], parsed: &mut Parsed, kind: ExtendedKind) -> Option<&'a [u8]>
    ensures { MatchOption result
        ((spec.offset_over greatest_year kind input.now parsed.old ≡ None) × (parsed.new ≡ parsed.old))
        (λ rest. steps.after_offset greatest_year kind input.now parsed.old ≡ Some (rest.now, parsed.new)) }
{
    let found = offset(input, kind)?;
    put_offset(found.value, parsed)?;
    Some(found.rest)
}

// Parses an optional offset after a time over the record, and returns the rest. `kind` is the kind after the time. If
// no offset matches, the rest is all of the input, and the record is unchanged.
#[inline(always)]
fn after_time<'a>(input: &'a [u8], parsed: &mut Parsed, kind: ExtendedKind) -> &'a [u8]
    ensures { steps.after_time greatest_year kind input.now parsed.old ≡ (result.now, parsed.new) }
{
    match offset_over(input, parsed, kind) {
        Some(rest) => rest,
        None => input,
    }
}

// Parses a text without a date over the record, and returns the rest after it: a time, whose `T` is optional, with an
// optional offset, or else an offset alone. If neither matches, returns `fault`, the error of the date that was tried
// before.
#[inline(never)]
fn without_date<'a>(
    input: &'a [u8],
    parsed: &mut Parsed,
    fault: ParseFromDescription,
) -> Result<&'a [u8], ParseFromDescription>
    ensures { MatchResult result
        (λ rest. steps.without_date greatest_year (refusal_of_description fault) input.now parsed.old
        (spec.time_over greatest_year false Unknown input.now parsed.old) ≡ Ok (rest.now, parsed.new))
        (λ e. steps.without_date greatest_year (refusal_of_description fault) input.now parsed.old
        (spec.time_over greatest_year false Unknown input.now parsed.old) ≡ Err (refusal_of_description e)) }
{
    if let Some(time) = time_over(input, parsed, ExtendedKind::Unknown, false) {
        return Ok(after_time(time.0, parsed, time.1));
    }
    match offset_over(input, parsed, ExtendedKind::Unknown) {
        Some(rest) => Ok(rest),
        None => Err(fault),
    }
}

// Parses the date, time and offset at the start of the input, as far as they match, over the record. Returns the rest
// after them. If none of the three matches, returns the date's error.
#[inline(always)]
fn read<'a>(input: &'a [u8], parsed: &mut Parsed) -> Result<&'a [u8], ParseFromDescription>
    ensures { MatchResult result
        (λ rest. spec.reading greatest_year input.now parsed.old ≡ Some (rest.now, parsed.new))
        (λ e. (spec.reading greatest_year input.now parsed.old ≡ None)
        × (spec.date_over greatest_year input.now parsed.old ≡ Err (refusal_of_description e))) }
{
    match date_over(input, parsed) {
        Ok(date) => match time_over(date.0, parsed, date.1, true) {
            Some(time) => Ok(after_time(time.0, parsed, time.1)),
            None => Ok(date.0),
        },
        Err(fault) => without_date(input, parsed, fault),
    }
}

// The moment of a whole text, parsed over the defaults (`None`: over an empty record), with the errors of
// `parse_offset_date_time`. The record is created in this function, so that a fast path before it doesn't pay for one.
#[inline(always)]
fn moment_over(input: &[u8], defaults: Option<Parsed>) -> Result<OffsetDateTime, Parse>
    ensures { IsOutcome (IsMoment greatest_year) (spec.Reads greatest_year) (spec.Refuses greatest_year) input.now
        (begun defaults) (seen result) }
{
    let mut parsed = begin(defaults);
    let rest = Iso8601.parse_into(input, &mut parsed)?;
    moment_before(rest, &parsed)
}

impl Parsable for Iso8601 {
    ghost use Rattle.time_parsing.specs.Iso8601.{Reads, Refuses};

    ghost reads = { λ _. Reads greatest_year };

    ghost refuses = { λ _. Refuses greatest_year };

    ghost path = { λ _. over_record };

    #[inline(always)]
    fn parse_into<'a>(&self, input: &'a [u8], parsed: &mut Parsed) -> Result<&'a [u8], Parse> {
        let before = *parsed;
        parsed.allow_leap_second();
        match read(input, parsed) {
            Ok(rest) => Ok(rest),
            Err(fault) => {
                *parsed = before;
                Err(fault.into())
            }
        }
    }

    #[inline(always)]
    fn parse_plain_date_time(
        &self,
        input: &[u8],
        defaults: Option<Parsed>,
    ) -> Result<PlainDateTime, Parse> {
        if defaults.is_none() {
            if let Some(plain) = fast::date_time(input) {
                return Ok(plain);
            }
        }
        let mut record = begin(defaults);
        let rest = self.parse_into(input, &mut record)?;
        Ok(value_before::<PlainDateTime>(rest, &record)?)
    }

    #[inline(always)]
    fn parse_offset_date_time(
        &self,
        input: &[u8],
        defaults: Option<Parsed>,
    ) -> Result<OffsetDateTime, Parse> {
        if defaults.is_none() {
            if let Some(moment) = fast::moment(input) {
                return Ok(moment);
            }
        }
        Ok(moment_over(input, defaults)?)
    }

    ghost use Rattle.time_parsing.specs.exact.Laws.{iso8601_exact};

    ghost exact = { λ _. iso8601_exact greatest_year };

    ghost exact_path = { λ _. tt };
}
