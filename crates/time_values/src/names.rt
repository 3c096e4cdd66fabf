//! The names of months and weekdays.
ghost use Rattle.std.specs.Prelude.{◌≡◌, ◌≤◌, Some, length};
ghost use Rattle.time_values.specs.Names as spec;

use crate::{Month, Weekday};
use std::fmt;

/// The English name of the month, such as `January`.
pub fn month_name(month: Month) -> &'static str
    ensures name { result.now ≡ spec.month_name month }
    ensures least { 3 ≤ length result.now }
    ensures most { length result.now ≤ 9 }
{
    match month {
        Month::January => "January",
        Month::February => "February",
        Month::March => "March",
        Month::April => "April",
        Month::May => "May",
        Month::June => "June",
        Month::July => "July",
        Month::August => "August",
        Month::September => "September",
        Month::October => "October",
        Month::November => "November",
        Month::December => "December",
    }
}

/// The English name of the weekday, such as `Monday`.
pub fn weekday_name(weekday: Weekday) -> &'static str
    ensures name { result.now ≡ spec.weekday_name weekday }
    ensures least { 3 ≤ length result.now }
    ensures most { length result.now ≤ 9 }
{
    match weekday {
        Weekday::Monday => "Monday",
        Weekday::Tuesday => "Tuesday",
        Weekday::Wednesday => "Wednesday",
        Weekday::Thursday => "Thursday",
        Weekday::Friday => "Friday",
        Weekday::Saturday => "Saturday",
        Weekday::Sunday => "Sunday",
    }
}

/// Prints the English name, such as `January`.
impl fmt::Display for Month {
    ghost output = { λ m. Some (spec.month_name m) };

    fn fmt<W: fmt::Write>(&self, f: &mut fmt::Formatter<W>) -> fmt::Result {
        f.write_str(month_name(*self))
    }
}

/// Prints the English name, such as `Monday`.
impl fmt::Display for Weekday {
    ghost output = { λ w. Some (spec.weekday_name w) };

    fn fmt<W: fmt::Write>(&self, f: &mut fmt::Formatter<W>) -> fmt::Result {
        f.write_str(weekday_name(*self))
    }
}
