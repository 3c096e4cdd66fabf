//! The date and time of a record, its moment in UTC, and its instant.
ghost use Rattle.std.specs.Prelude.{◌≤◌, IsOkAnd, IsTrue};
ghost use Rattle.std.specs.Option.{ForSome};
ghost use Rattle.time_values.specs.Instants.{instant, is_instant};
ghost use Rattle.time_values.specs.Moments.{utc_date, utc_time};
ghost use Rattle.time_values.specs.Calendar.{greatest_year};
ghost use Rattle.time_record.specs.Resolution.{IsInUtc, IsOffsetOrUtc, IsStamped, IsUtcMoment, IsUtcMomentOfParts, erased_conversion, IsPlain, IsTimestamp};

use crate::Parsed;
use crate::parsed::try_from::date_of;
use crate::parsed::try_from::time::{
    is_leap_second, misplaced, offset_of, replace_leap_second, time_of, time_with,
};
use std::convert::TryFrom;
use time_values::error::{ComponentRange, TryFromParsed};
use time_values::{OffsetDateTime, PlainDateTime, Timestamp, UtcDateTime, UtcOffset};

/// The moment of the timestamp; the record's subsecond, if set, replaces its nanosecond of the second. Without a
/// timestamp, the moment of the record's date, time and offset, or the first error of these, in that order. Without an
/// offset's hour the offset is 0.
///
/// If the moment has no date in UTC, an error names `year` as conditional on other components. Without a timestamp, a
/// leap second that is allowed counts as the last nanosecond before it. If that isn't a month's end in UTC, an error
/// names `second` as conditional on other components.
impl TryFrom<Parsed> for UtcDateTime {
    type Error = TryFromParsed;

    ghost try_from_gives = { λ p r. IsUtcMoment greatest_year p (erased_conversion r) };

    #[inline]
    #[tactic(auto, unfolding(crate::specs::Resolution::IsUtcMoment))]
    fn try_from(parsed: Parsed) -> Result<UtcDateTime, TryFromParsed> {
        match parsed.unix_timestamp_nanos() {
            Some(nanos) => moment_at(nanos, parsed.subsecond()),
            None => moment_of_parts(&parsed),
        }
    }
}

// The moment at `nanos` nanoseconds since 1970-01-01T00:00:00Z. If `subsecond` is given, it replaces the nanoseconds of
// the moment's second. Never an error, since the caller's numbers are in range.
#[inline]
fn moment_at(nanos: i128, subsecond: Option<u32>) -> Result<UtcDateTime, TryFromParsed>
    requires nanos { IsTrue (is_instant greatest_year nanos) }
    requires subsecond { ForSome subsecond (λ n. n ≤ 999_999_999) }
    ensures { IsOkAnd (erased_conversion result)
        (λ v. IsStamped greatest_year nanos subsecond (utc_date v) (utc_time v)) }
{
    let moment = UtcDateTime::from_unix_timestamp_nanos(nanos)?;
    match subsecond {
        Some(nanosecond) => Ok(moment.replace_nanosecond(nanosecond)?),
        None => Ok(moment),
    }
}

// The moment in UTC of a record's date, time and offset, or the first error of these, in that order. Without an
// offset's hour the offset is 0. An error names `year` if the moment has no date in UTC. A leap second that is allowed
// counts as the last nanosecond before it; if that isn't a month's end in UTC, an error names `second`.
#[inline]
#[tactic(auto, unfolding(crate::specs::Resolution::IsUtcMomentOfParts))]
pub(super) fn moment_of_parts(parsed: &Parsed) -> Result<UtcDateTime, TryFromParsed>
    ensures { IsUtcMomentOfParts greatest_year parsed.now (erased_conversion result) }
{
    let date = date_of(parsed)?;
    let (second, subsecond) = replace_leap_second(parsed);
    let time = time_with(parsed, second, subsecond)?;
    let offset = offset_or_utc(parsed)?;
    let moment = in_utc(OffsetDateTime::new_in_offset(date, time, offset))?;
    if is_leap_second(parsed) && !moment.is_valid_leap_second_stand_in() {
        return Err(misplaced());
    }
    Ok(moment)
}

// The offset of a record, or 0 without an offset's hour; never an error.
#[inline]
#[tactic(auto, unfolding(crate::specs::Resolution::IsOffset, crate::specs::Resolution::IsOffsetOrUtc))]
fn offset_or_utc(parsed: &Parsed) -> Result<UtcOffset, TryFromParsed>
    ensures { IsOffsetOrUtc parsed.now (erased_conversion result) }
{
    match parsed.offset_hour() {
        Some(_) => offset_of(parsed),
        None => Ok(UtcOffset::UTC),
    }
}

// Converts the moment to UTC. If it has no date in UTC, an error names `year` as conditional on other components.
#[inline]
fn in_utc(moment: OffsetDateTime) -> Result<UtcDateTime, TryFromParsed>
    ensures { IsInUtc greatest_year (instant greatest_year moment.date moment.time moment.offset)
        (erased_conversion result) }
{
    match moment.checked_to_utc() {
        Some(moment) => Ok(moment),
        None => Err(TryFromParsed::ComponentRange(ComponentRange {
            name: "year",
            conditional: true,
        })),
    }
}

// The date and the time of a record, or the first error of the two, the date's first.
#[inline(always)]
#[tactic(auto, unfolding(crate::specs::Resolution::IsPlain))]
pub(super) fn date_and_time(parsed: &Parsed) -> Result<PlainDateTime, TryFromParsed>
    ensures { IsPlain greatest_year parsed.now (erased_conversion result) }
{
    let date = date_of(parsed)?;
    let time = time_of(parsed)?;
    Ok(PlainDateTime::new(date, time))
}

/// The instant of the timestamp, which ignores the subsecond. Without a timestamp, the instant of the `UtcDateTime` of
/// the record; each of its errors is replaced by `InsufficientInformation`.
impl TryFrom<Parsed> for Timestamp {
    type Error = TryFromParsed;

    ghost try_from_gives = { λ p r. IsTimestamp greatest_year p (erased_conversion r) };

    #[inline]
    #[tactic(auto, unfolding(crate::specs::Resolution::IsTimestamp, crate::specs::Resolution::IsInstantOfParts))]
    fn try_from(parsed: Parsed) -> Result<Timestamp, TryFromParsed> {
        if let Some(nanos) = parsed.unix_timestamp_nanos() {
            return Ok(Timestamp::from_nanoseconds(nanos)?);
        }
        match moment_of_parts(&parsed) {
            Ok(moment) => Ok(Timestamp::from(moment)),
            Err(_) => Err(TryFromParsed::InsufficientInformation),
        }
    }
}
