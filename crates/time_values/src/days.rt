//! Lengths of years, and day numbers, which count from the first day in range.
ghost use Rattle.std.specs.Prelude.{IfNone, IfSome, ◌-◌, ◌/◌, ◌%◌, ◌≡◌, ◌+◌, ◌*◌, ◌<◌, ◌≤◌};
ghost use Rattle.std.specs.Int.{IsInRange};
ghost use Rattle.time_values.specs.Calendar as Calendar;
ghost use Rattle.time_values.specs.Calendar.{greatest_year};

/// The greatest year of a [`Date`](crate::Date); the least one is its negative.
pub const MAX_YEAR: i32 = 999_999;

/// The number of days in the range of dates.
pub const DAY_LIMIT: u32 = 365 * YEARS + YEARS / 4 - YEARS / 100 + YEARS / 400;

const YEARS: u32 = 2 * MAX_YEAR as u32 + 1;

/// The day number of 1970-01-01: the days since -999999-01-01.
pub const EPOCH_DAY: u32 = 365 * YEARS_BEFORE_1970 + YEARS_BEFORE_1970 / 4 - YEARS_BEFORE_1970 / 100
    + YEARS_BEFORE_1970 / 400;

const YEARS_BEFORE_1970: u32 = 1970 + MAX_YEAR as u32;

/// Whether the year has a 29 February.
#[inline]
pub fn is_leap_year(year: i32) -> bool
    ensures { result ≡ Calendar.is_leap_year year }
{
    let year = year.unsigned_abs();
    year % 4 == 0 && (year % 100 != 0 || year % 400 == 0)
}

/// The number of days of a year, 366 for a leap year and else 365.
#[inline]
pub fn year_length(year: i32) -> u16
    ensures { result ≡ Calendar.year_length year }
{
    if is_leap_year(year) { 366 } else { 365 }
}

/// 1 for a leap year, and else 0.
#[inline]
pub fn leap_day(year: i32) -> u16
    ensures value { result ≡ Calendar.leap_day year }
    ensures bound { result ≤ 1 }
{
    if is_leap_year(year) { 1 } else { 0 }
}

fn years_before(year: i32) -> u32
    requires { Calendar.IsYear greatest_year year }
    ensures value { result ≡ Calendar.years_before greatest_year year }
    ensures bound { result ≤ 2 * greatest_year }
{
    (year + MAX_YEAR) as u32
}

/// The day number of 1 January of the year: the days since -999999-01-01.
#[tactic(auto, using(crate::proofs::YearLemmas::days_of_years_closed))]
pub fn year_start(year: i32) -> u32
    requires { Calendar.IsYear greatest_year year }
    ensures value { result ≡ Calendar.year_start greatest_year year }
    ensures bound { result < 1_000_000_000 }
{
    let years = years_before(year);
    365 * years + years / 4 - years / 100 + years / 400
}

/// The year and the day of the year, from 1, of the day `shifted - 8` days after 1 January of `year`, or before it if
/// that is negative. `None` after `Date::MAX`. `shifted` must be 1 to 500, and the day not before `Date::MIN`.
pub fn at_place(year: i32, shifted: u16) -> Option<(i32, u16)>
    requires year_in { Calendar.IsYear greatest_year year }
    requires low { 7 < Calendar.year_start greatest_year year + shifted }
    requires high { IsInRange 1 500 shifted }
    ensures value { IfSome result (λ p.
        Calendar.year_start greatest_year p.0 + p.1 + 7
        ≡ Calendar.year_start greatest_year year + shifted) }
    ensures year { IfSome result (λ p. Calendar.IsYear greatest_year p.0) }
    ensures place { IfSome result (λ p. IsInRange 1 (Calendar.year_length p.0) p.1) }
    ensures none { IfNone result (Calendar.day_limit greatest_year + 7
        < Calendar.year_start greatest_year year + shifted) }
{
    let length = year_length(year);
    if shifted <= 7 {
        return Some((year - 1, shifted + year_length(year - 1) - 7));
    }
    let place = shifted - 7;
    if place <= length {
        return Some((year, place));
    }
    if year == MAX_YEAR {
        return None;
    }
    Some((year + 1, place - length))
}

/// The day of the year of the year's first Thursday, 1 to 7.
pub fn first_thursday(year: i32) -> u16
    requires { Calendar.IsYear greatest_year year }
    ensures value { (Calendar.year_start greatest_year year + result + 6) % 7 ≡ 3 }
    ensures bound { IsInRange 1 7 result }
{
    let from_monday = year_start(year) % 7;
    ((10 - from_monday) % 7 + 1) as u16
}

/// The year and the day of the year, from 1, of the date that is `day` days after -999999-01-01.
pub fn year_and_place(day: u32) -> (i32, u16)
    requires { day < Calendar.day_limit greatest_year }
    ensures value { Calendar.year_start greatest_year result.0 + result.1 ≡ day + 1 }
    ensures year { Calendar.IsYear greatest_year result.0 }
    ensures place { IsInRange 1 (Calendar.year_length result.0) result.1 }
{
    let (years, rest) = split_years(day);
    (years as i32 - MAX_YEAR, rest as u16 + 1)
}

// The whole years from -999999-01-01 to the date `day` days later, and the days since 1 January of that date's year.
fn split_years(day: u32) -> (u32, u32)
    requires { day < 1_000_000_000 }
    ensures value { 365 * result.0 + result.0 / 4 - result.0 / 100 + result.0 / 400 + result.1 ≡ day }
    ensures within { day < 365 * (result.0 + 1) + (result.0 + 1) / 4 - (result.0 + 1) / 100
        + (result.0 + 1) / 400 }
    ensures bound { result.1 < 366 }
{
    let scaled = 4 * day + 3;
    let century = scaled / 146_097;
    let in_century = scaled % 146_097 / 4 * 4 + 3;
    (100 * century + in_century / 1461, in_century % 1461 / 4)
}
