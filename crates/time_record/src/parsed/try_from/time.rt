//! The time of a record, its offset from UTC, and leap seconds, which resolve to the last nanosecond before them.
ghost use Rattle.std.specs.Prelude.{◌≡◌, Some, codes, true};
ghost use Rattle.time_record.specs.Resolution.{IsTimed, hour_of, erased_conversion, IsOffset, offset_seconds_of};
ghost use Rattle.time_values.specs.Refusal.{range, refusal_of_parsed};
ghost use Rattle.time_record.specs.Resolution as Resolution;

use crate::Parsed;
use std::convert::TryFrom;
use std::num::NonZero;
use time_values::error::{ComponentRange, TryFromParsed};
use time_values::{Time, UtcOffset};

/// The time of the hour, minute, second and subsecond; an unknown one of the last three is 0. The hour is that of the
/// day, or else that of the half day with its half, AM or PM. A timestamp and an offset are ignored.
///
/// `InsufficientInformation` if no hour is known (an hour of the half day needs its half), or a second without a
/// minute, or a subsecond without a second.
/// Otherwise an error names `second` for a second of 60, even if leap seconds are allowed.
impl TryFrom<Parsed> for Time {
    type Error = TryFromParsed;

    ghost try_from_gives = { λ p r. IsTimed p (erased_conversion r) };

    #[inline(always)]
    fn try_from(parsed: Parsed) -> Result<Time, TryFromParsed> {
        time_of(&parsed)
    }
}

// The time of a record, or its error, as `Time::try_from` returns them.
#[inline(always)]
pub(super) fn time_of(parsed: &Parsed) -> Result<Time, TryFromParsed>
    ensures { IsTimed parsed.now (erased_conversion result) }
{
    time_with(parsed, parsed.second(), parsed.subsecond())
}

// The time of a record with that second and subsecond instead of its own, with the errors of `Time::try_from`.
#[inline(always)]
#[tactic(auto, unfolding(crate::specs::Resolution::IsTimed))]
pub(super) fn time_with(
    parsed: &Parsed,
    second: Option<u8>,
    subsecond: Option<u32>,
) -> Result<Time, TryFromParsed>
    ensures { IsTimed (record parsed.now { second = second; subsecond = subsecond })
        (erased_conversion result) }
{
    let Some(hour) = hour_of_day(parsed) else {
        return Err(TryFromParsed::InsufficientInformation);
    };
    match (parsed.minute(), second, subsecond) {
        (None, None, None) => Ok(Time::from_hms_nano(hour, 0, 0, 0)?),
        (Some(minute), None, None) => Ok(Time::from_hms_nano(hour, minute, 0, 0)?),
        (Some(minute), Some(second), None) => { Ok(Time::from_hms_nano(hour, minute, second, 0)?) }
        (Some(minute), Some(second), Some(subsecond)) => {
            Ok(Time::from_hms_nano(hour, minute, second, subsecond)?)
        }
        _ => Err(TryFromParsed::InsufficientInformation),
    }
}

// The hour of the day, 0 to 23: as set, or else computed from the hour of the half day and its half, AM or PM. `None`
// if it isn't set and these two aren't both set.
#[inline(always)]
fn hour_of_day(parsed: &Parsed) -> Option<u8>
    ensures { result ≡ hour_of parsed.now }
{
    if let Some(hour) = parsed.hour_24() {
        return Some(hour);
    }
    let hour = parsed.hour_12()?.get() % 12;
    Some(if parsed.hour_12_is_pm()? {
        hour + 12
    } else {
        hour
    })
}

/// The offset of the hour, minute and second, by their signed getters; each gets the sign of the first that isn't 0. An
/// unknown minute or second is 0, and a second without a minute counts as 0.
///
/// `InsufficientInformation` if no hour is known. There is no other error.
impl TryFrom<Parsed> for UtcOffset {
    type Error = TryFromParsed;

    ghost try_from_gives = { λ p r. IsOffset p (erased_conversion r) };

    #[inline(always)]
    fn try_from(parsed: Parsed) -> Result<UtcOffset, TryFromParsed> {
        offset_of(&parsed)
    }
}

// The offset of a record, or `InsufficientInformation` if no offset hour is set.
#[inline(always)]
#[tactic(auto, unfolding(crate::specs::Resolution::IsOffset))]
pub(super) fn offset_of(parsed: &Parsed) -> Result<UtcOffset, TryFromParsed>
    ensures { IsOffset parsed.now (erased_conversion result) }
{
    match parsed.offset_hour() {
        Some(hour) => offset_of_hour(hour, parsed),
        None => Err(TryFromParsed::InsufficientInformation),
    }
}

// The offset of a record whose offset hour is `hour`, with its minutes and seconds; never an error.
#[inline(always)]
#[tactic(auto, unfolding(crate::specs::Resolution::IsOffset))]
fn offset_of_hour(hour: i8, parsed: &Parsed) -> Result<UtcOffset, TryFromParsed>
    requires { parsed.now.offset_hour ≡ Some hour }
    ensures { IsOffset parsed.now (erased_conversion result) }
{
    let minute = parsed.offset_minute_signed().unwrap_or(0);
    Ok(UtcOffset::from_hms(hour, minute, second_below(parsed))?)
}

// The seconds of the offset, as the signed getter returns them, or 0 if they or the offset's minutes aren't set.
#[inline(always)]
fn second_below(parsed: &Parsed) -> i8
    ensures { result ≡ offset_seconds_of parsed.now }
{
    match parsed.offset_minute_signed() {
        Some(_) => parsed.offset_second_signed().unwrap_or(0),
        None => 0,
    }
}

// Whether the record's second is 60 and leap seconds are allowed.
#[inline(always)]
pub(super) fn is_leap_second(parsed: &Parsed) -> bool
    ensures { result ≡ Resolution.is_leap_second parsed.now }
{
    parsed.is_leap_second_allowed() && parsed.second() == Some(60)
}

// The second and the subsecond of a record, or 59 and 999999999 if the second is a leap second that is allowed.
#[inline(always)]
pub(super) fn replace_leap_second(parsed: &Parsed) -> (Option<u8>, Option<u32>)
    ensures { record parsed.now { second = result.0; subsecond = result.1 }
        ≡ Resolution.replace_leap_second parsed.now }
{
    if is_leap_second(parsed) {
        (Some(59), Some(999_999_999))
    } else {
        (parsed.second(), parsed.subsecond())
    }
}

// The error of a leap second that isn't at a month's end in UTC: it names `second` as conditional on other components.
pub(super) fn misplaced() -> TryFromParsed
    ensures { refusal_of_parsed result ≡ range (codes "second") true }
{
    TryFromParsed::ComponentRange(ComponentRange {
        name: "second",
        conditional: true,
    })
}
