//! The date of a record.
ghost use Rattle.std.specs.Prelude.{◌≡◌, ◌+◌, ◌-◌, ◌/◌, ◌%◌, ◌≤◌, Some, None, IfSome, IsTrue, MatchResult, unsigned_abs, codes, true};
ghost use Rattle.std.specs.Int.NonZero.{non_zero_u8_get, non_zero_u16_get};
ghost use Rattle.time_values.specs.Dates.{is_year};
ghost use Rattle.time_values.specs.Calendar.{greatest_year};
ghost use Rattle.time_values.specs.Refusal.{range};
ghost use Rattle.time_values.specs.Names.{days_from_monday};
ghost use Rattle.time_values.specs.declared.date.Date.{Date};
ghost use Rattle.time_record.specs.Resolution.{year_of, full_year, full_iso_year, by_ordinal, by_month_and_day, by_iso_week, IsRowDate, IsWeekDate, IsDated, erased_conversion};

use crate::Parsed;
use crate::parsed::try_from::date_of;
use std::convert::TryFrom;
use std::num::NonZero;
use time_values::error::{ComponentRange, TryFromParsed};
use time_values::{Date, Month, Weekday};

/// The date of the first of these whose components are all known: year and ordinal; year, month and day; ISO year, ISO
/// week and weekday; year, Sunday week and weekday; year, Monday week and weekday. A missing year is computed from its
/// century and last two digits. All other components are ignored, even if they contradict the date.
///
/// If no date has these numbers, an error names `ordinal`, `day`, or for an ISO week `week` (the ISO year has no such
/// week) or `weekday` (the day is outside the range of dates), as conditional on other components; for a Sunday or
/// Monday week it names `ordinal`. `InsufficientInformation` if none of the five is complete.
impl TryFrom<Parsed> for Date {
    type Error = TryFromParsed;

    ghost try_from_gives = { λ p r. IsDated greatest_year p (erased_conversion r) };

    #[inline(always)]
    fn try_from(parsed: Parsed) -> Result<Date, TryFromParsed> {
        date_of(&parsed)
    }
}

// The date of the first of these sets that is complete: year and ordinal; year, month and day; ISO year, week and
// weekday; year, Sunday week and weekday; year, Monday week and weekday. The errors are those of `Date::try_from`.
#[inline(never)]
#[tactic(auto, unfolding(crate::specs::Resolution::IsDated))]
pub(super) fn date_of_rows(parsed: &Parsed) -> Result<Date, TryFromParsed>
    ensures { IsDated greatest_year parsed.now (erased_conversion result) }
{
    let year = calendar_year(parsed);
    if let (Some(year), Some(ordinal)) = (year, parsed.ordinal()) {
        return ordinal_date(year, ordinal);
    }
    if let (Some(year), Some(month), Some(day)) = (year, parsed.month(), parsed.day()) {
        return calendar_date(year, month, day);
    }
    let weekday = parsed.weekday();
    if let (Some(year), Some(week), Some(weekday)) = (
        iso_year(parsed),
        parsed.iso_week_number(),
        weekday,
    ) {
        return iso_week_date(year, week, weekday);
    }
    if let (Some(year), Some(week), Some(weekday)) = (year, parsed.sunday_week_number(), weekday) {
        return week_date(year, week, weekday, Weekday::Sunday);
    }
    if let (Some(year), Some(week), Some(weekday)) = (year, parsed.monday_week_number(), weekday) {
        return week_date(year, week, weekday, Weekday::Monday);
    }
    Err(TryFromParsed::InsufficientInformation)
}

// The calendar year, if set, or else the year of its century and last two digits; `None` if one of these isn't set.
#[inline]
fn calendar_year(parsed: &Parsed) -> Option<i32>
    ensures value { result ≡ full_year parsed.now }
    ensures in_range { IfSome result (λ y. IsTrue (is_year greatest_year y)) }
{
    if let Some(year) = parsed.year() {
        return Some(year);
    }
    let century = parsed.year_century()?;
    let is_negative = parsed.year_century_is_negative()?;
    Some(joined_year(century, is_negative, parsed.year_last_two()?))
}

// The ISO 8601 week-based year, or, if it isn't set, the year of its century and last two digits. `None` if one of
// these isn't set either.
#[inline]
fn iso_year(parsed: &Parsed) -> Option<i32>
    ensures value { result ≡ full_iso_year parsed.now }
    ensures in_range { IfSome result (λ y. IsTrue (is_year greatest_year y)) }
{
    if let Some(year) = parsed.iso_year() {
        return Some(year);
    }
    let century = parsed.iso_year_century()?;
    let is_negative = parsed.iso_year_century_is_negative()?;
    Some(joined_year(century, is_negative, parsed.iso_year_last_two()?))
}

// The year of a century and the last two digits: -19 and 50 make -1950. `is_negative` is the sign of the century, which
// may be -0: -0 and 50 make -50.
#[inline]
fn joined_year(century: i16, is_negative: bool, last_two: u8) -> i32
    requires century { unsigned_abs century ≤ greatest_year / 100 }
    requires last_two { last_two ≤ 99 }
    ensures value { Some result ≡ year_of None (Some century) is_negative (Some last_two) }
    ensures in_range { IsTrue (is_year greatest_year result) }
{
    let start = 100 * century as i32;
    let rest = last_two as i32;
    if is_negative {
        start - rest
    } else {
        start + rest
    }
}

// The date of a year and a day of the year, or an error that names `ordinal` if the year has no such day.
#[inline]
fn ordinal_date(year: i32, ordinal: NonZero<u16>) -> Result<Date, TryFromParsed>
    requires { IsTrue (is_year greatest_year year) }
    ensures { IsRowDate greatest_year (by_ordinal year (non_zero_u16_get ordinal))
        (erased_conversion result) }
{
    Ok(Date::from_ordinal_date(year, ordinal.get())?)
}

// The date of a year, a month and a day, or an error that names `day` if the month has no such day.
#[inline]
pub(super) fn calendar_date(
    year: i32,
    month: Month,
    day: NonZero<u8>,
) -> Result<Date, TryFromParsed>
    requires { IsTrue (is_year greatest_year year) }
    ensures { IsRowDate greatest_year (by_month_and_day year month (non_zero_u8_get day))
        (erased_conversion result) }
{
    Ok(Date::from_calendar_date(year, month, day.get())?)
}

// The date of an ISO 8601 year, week and weekday. An error names `week` if the year has no such week, or `weekday` if
// the day is outside the range of dates.
#[inline]
fn iso_week_date(year: i32, week: NonZero<u8>, weekday: Weekday) -> Result<Date, TryFromParsed>
    requires { IsTrue (is_year greatest_year year) }
    ensures { IsRowDate greatest_year (by_iso_week year (non_zero_u8_get week) weekday)
        (erased_conversion result) }
{
    Ok(Date::from_iso_week_date(year, week.get(), weekday)?)
}

// The date of a year, week and weekday, where week 1 begins on the year's first day of the weekday `start`, and week 0
// is the days before. An error names `ordinal` if the year has no such day.
#[inline]
fn week_date(year: i32, week: u8, weekday: Weekday, start: Weekday) -> Result<Date, TryFromParsed>
    requires { IsTrue (is_year greatest_year year) }
    ensures { MatchResult (erased_conversion result)
        (IsWeekDate greatest_year (days_from_monday start) year week (days_from_monday weekday))
        (λ e. ((d : Date) → IsWeekDate greatest_year (days_from_monday start) year week
        (days_from_monday weekday) d → ⊥) × (e ≡ range (codes "ordinal") true)) }
{
    let first = Date::from_ordinal_date(year, 1)?.weekday();
    // The day of the year plus 7, so that 1 January is 8, and week 0 needs no negative number: the first day of week 1,
    // 7 days for each week, and the days from `start` to the weekday.
    let shifted = days_since(start, first) + 1 + 7 * week as u16 + days_since(weekday, start);
    if shifted <= 7 {
        return Err(TryFromParsed::ComponentRange(ComponentRange {
            name: "ordinal",
            conditional: true,
        }));
    }
    Ok(Date::from_ordinal_date(year, shifted - 7)?)
}

// The number of days, 0 to 6, from the weekday `start` to the next `weekday`; 0 if they are equal.
#[inline]
fn days_since(weekday: Weekday, start: Weekday) -> u16
    ensures { result ≡ (days_from_monday weekday + 7 - days_from_monday start) % 7 }
{
    (weekday.number_days_from_monday() as u16 + 7 - start.number_days_from_monday() as u16) % 7
}
