//! The moment of a record with its offset from UTC.
ghost use Rattle.std.specs.Prelude.{◌≡◌, ◌≤◌, false, IsOkAnd, IsTrue};
ghost use Rattle.std.specs.Option.{ForSome};
ghost use Rattle.time_values.specs.Instants.{is_instant, IsLeapSecondMoment};
ghost use Rattle.time_values.specs.Moments as Moments;
ghost use Rattle.time_values.specs.Offsets.{IsUtc};
ghost use Rattle.time_values.specs.Calendar.{greatest_year};
ghost use Rattle.time_record.specs.Resolution.{IsMoment, IsMomentOfParts, IsStamped, is_leap_second, erased_conversion};

use crate::Parsed;
use crate::parsed::cells::{DAY, HOUR_24, MINUTE, MONTH, SECOND, YEAR};
use crate::parsed::try_from::date_of;
use crate::parsed::try_from::time::{
    is_leap_second, misplaced, offset_of, replace_leap_second, time_with,
};
use time_values::OffsetDateTime;
use time_values::error::TryFromParsed;

// The moment of a record, or its error, as `OffsetDateTime::try_from` returns them. A record with the usual components
// is converted inline, so that it needs no memory if the compiler knows what is set. `moment_of` converts the others.
#[inline(always)]
#[tactic(auto, unfolding(crate::specs::Resolution::IsMoment))]
pub(super) fn moment_or_refusal(parsed: &Parsed) -> Result<OffsetDateTime, TryFromParsed>
    ensures { IsMoment greatest_year parsed.now (erased_conversion result) }
{
    let is_usual = parsed.has(YEAR, MONTH, DAY) && parsed.has(HOUR_24, MINUTE, SECOND);
    if !is_usual || parsed.unix_timestamp_nanos().is_some() {
        return moment_of(parsed);
    }
    moment_of_parts(parsed)
}

// The moment of a record with any components, or its error, as `OffsetDateTime::try_from` returns them. Not inlined.
#[inline(never)]
#[tactic(auto, unfolding(crate::specs::Resolution::IsMoment))]
fn moment_of(parsed: &Parsed) -> Result<OffsetDateTime, TryFromParsed>
    ensures { IsMoment greatest_year parsed.now (erased_conversion result) }
{
    match parsed.unix_timestamp_nanos() {
        Some(nanos) => moment_at(nanos, parsed.subsecond()),
        None => moment_of_parts(parsed),
    }
}

// The moment at `nanos` nanoseconds since 1970-01-01T00:00:00Z, at offset 0. If `subsecond` is given, it replaces the
// nanoseconds of the moment's second. Never an error, since the caller's numbers are in range.
#[inline]
fn moment_at(nanos: i128, subsecond: Option<u32>) -> Result<OffsetDateTime, TryFromParsed>
    requires nanos { IsTrue (is_instant greatest_year nanos) }
    requires subsecond { ForSome subsecond (λ n. n ≤ 999_999_999) }
    ensures { IsOkAnd (erased_conversion result)
        (λ v. IsStamped greatest_year nanos subsecond (Moments.offset_date v) (Moments.offset_time v)
        × IsUtc (Moments.offset_of v)) }
{
    let moment = OffsetDateTime::from_unix_timestamp_nanos(nanos)?;
    match subsecond {
        Some(nanosecond) => Ok(moment.replace_nanosecond(nanosecond)?),
        None => Ok(moment),
    }
}

// The moment of a record's date, time and offset, or the first error of these, in that order. A leap second that is
// allowed counts as the last nanosecond before it; if that isn't a month's end in UTC, an error names `second`.
#[inline(always)]
#[tactic(auto, unfolding(crate::specs::Resolution::IsMomentOfParts))]
fn moment_of_parts(parsed: &Parsed) -> Result<OffsetDateTime, TryFromParsed>
    ensures { IsMomentOfParts greatest_year parsed.now (erased_conversion result) }
{
    let date = date_of(parsed)?;
    let (second, subsecond) = replace_leap_second(parsed);
    let time = time_with(parsed, second, subsecond)?;
    let offset = offset_of(parsed)?;
    let moment = OffsetDateTime::new_in_offset(date, time, offset);
    if !is_leap_second_valid(parsed, moment) {
        return Err(misplaced());
    }
    Ok(moment)
}

// Whether the record has no allowed leap second, or the moment is the last nanosecond of a month in UTC. The moment is
// passed by value, so that it stays in registers if the record has no leap second.
#[inline(always)]
fn is_leap_second_valid(parsed: &Parsed, moment: OffsetDateTime) -> bool
    ensures stands { IsTrue result → IsTrue (is_leap_second parsed.now)
        → IsLeapSecondMoment greatest_year (Moments.offset_instant greatest_year moment) }
    ensures misplaced { result ≡ false → IsTrue (is_leap_second parsed.now)
        × (IsLeapSecondMoment greatest_year (Moments.offset_instant greatest_year moment) → ⊥) }
{
    !is_leap_second(parsed) || moment.is_valid_leap_second_stand_in()
}
