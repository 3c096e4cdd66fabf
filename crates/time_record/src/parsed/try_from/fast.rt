//! Converts a record with the usual components: a year, month and day without an ordinal; an hour of the day, a minute,
//! and a second that is no leap second.
//!
//! Each function returns the value that the general conversion returns, or `None` if these components don't determine
//! the value or the conversion fails. The caller then uses the general conversion, which also returns the error.
ghost use Rattle.std.specs.Prelude.{◌≡◌, Some, Ok, IfSome, IsTrue};
ghost use Rattle.std.specs.Int.NonZero.{non_zero_u8_get};
ghost use Rattle.time_values.specs.Dates.{is_year};
ghost use Rattle.time_values.specs.Calendar.{greatest_year};
ghost use Rattle.time_record.specs.Resolution.{IsDated, IsMoment, IsMomentOfParts, IsOffset, IsPlain, IsTimed, by_month_and_day, first_row};

use crate::Parsed;
use crate::parsed::cells::{DAY, HOUR_24, MINUTE, MONTH, ORDINAL, SECOND, YEAR};
use crate::parsed::try_from::date::calendar_date;
use crate::parsed::try_from::time::{is_leap_second, offset_of};
use std::num::NonZero;
use time_values::{Date, Month, OffsetDateTime, PlainDateTime, Time, UtcOffset};

// The date of the record's year, month and day. `None` if one isn't set, an ordinal is set, or no such date exists.
#[inline(always)]
#[tactic(auto, unfolding(crate::specs::Resolution::IsDated))]
fn date(parsed: &Parsed) -> Option<Date>
    ensures { IfSome result (λ d. IsDated greatest_year parsed.now (Ok d)) }
{
    let (year, month, day) = year_month_day(parsed)?;
    match calendar_date(year, month, day) {
        Ok(date) => Some(date),
        Err(_) => None,
    }
}

/// The year, month and day, if they determine the date of a record: one test of the mask shows that all three are set,
/// and no ordinal is. Otherwise `None`.
#[inline(always)]
pub(super) fn year_month_day(parsed: &Parsed) -> Option<(i32, Month, NonZero<u8>)>
    ensures row { IfSome result (λ p. first_row parsed.now
        ≡ Some (by_month_and_day p.0 p.1 (non_zero_u8_get p.2))) }
    ensures in_range { IfSome result (λ p. IsTrue (is_year greatest_year p.0)) }
{
    if !parsed.has(YEAR, MONTH, DAY) || parsed.flag(ORDINAL) {
        return None;
    }
    Some((parsed.year()?, parsed.month()?, parsed.day()?))
}

// The time of the record's hour of the day, minute, second and subsecond, where a missing subsecond is 0. `None` if one
// of the first three isn't set, or the second is 60.
#[inline(always)]
#[tactic(auto, unfolding(crate::specs::Resolution::IsTimed))]
fn time(parsed: &Parsed) -> Option<Time>
    ensures { IfSome result (λ t. IsTimed parsed.now (Ok t)) }
{
    let (hour, minute, second) = hour_minute_second(parsed)?;
    if second == 60 {
        return None;
    }
    let nanosecond = parsed.subsecond().unwrap_or(0);
    match Time::from_hms_nano(hour, minute, second, nanosecond) {
        Ok(time) => Some(time),
        Err(_) => None,
    }
}

// The hour of the day, the minute and the second, if one test of the mask shows that all three are set. Otherwise
// `None`.
#[inline(always)]
fn hour_minute_second(parsed: &Parsed) -> Option<(u8, u8, u8)>
    ensures hour { IfSome result (λ t. parsed.now.hour_24 ≡ Some t.0) }
    ensures minute { IfSome result (λ t. parsed.now.minute ≡ Some t.1) }
    ensures second { IfSome result (λ t. parsed.now.second ≡ Some t.2) }
{
    if !parsed.has(HOUR_24, MINUTE, SECOND) {
        return None;
    }
    Some((parsed.hour_24()?, parsed.minute()?, parsed.second()?))
}

/// The date of a year, month and day, and the time of an hour, minute, second, and subsecond or 0. `None`: `date` or
/// `time` returns `None`, and the general conversion decides.
#[inline(always)]
#[tactic(auto, unfolding(crate::specs::Resolution::IsPlain))]
pub(super) fn date_and_time(parsed: &Parsed) -> Option<PlainDateTime>
    ensures { IfSome result (λ p. IsPlain greatest_year parsed.now (Ok p)) }
{
    let date = date(parsed)?;
    let time = time(parsed)?;
    Some(PlainDateTime::new(date, time))
}

/// The moment of a date, a time and an offset. `None`: a timestamp is set, or `date`, `time` or `offset` returns
/// `None`, and the general conversion decides.
#[inline(always)]
#[tactic(auto, unfolding(crate::specs::Resolution::IsMoment))]
pub(super) fn moment(parsed: &Parsed) -> Option<OffsetDateTime>
    ensures { IfSome result (λ v. IsMoment greatest_year parsed.now (Ok v)) }
{
    if parsed.unix_timestamp_nanos().is_some() {
        return None;
    }
    moment_of_parts(parsed)
}

// The moment by `date`, `time` and `offset`; a timestamp is ignored. `None` if one of these functions returns `None`.
#[inline(always)]
#[tactic(auto, unfolding(crate::specs::Resolution::IsMomentOfParts))]
fn moment_of_parts(parsed: &Parsed) -> Option<OffsetDateTime>
    ensures { IfSome result (λ v. IsMomentOfParts greatest_year parsed.now (Ok v)) }
{
    let date = date(parsed)?;
    let time = time(parsed)?;
    if is_leap_second(parsed) {
        return None;
    }
    let offset = offset(parsed)?;
    Some(OffsetDateTime::new_in_offset(date, time, offset))
}

// The offset of a record, or `None` if no offset hour is set.
#[inline(always)]
fn offset(parsed: &Parsed) -> Option<UtcOffset>
    ensures { IfSome result (λ o. IsOffset parsed.now (Ok o)) }
{
    match offset_of(parsed) {
        Ok(offset) => Some(offset),
        Err(_) => None,
    }
}
