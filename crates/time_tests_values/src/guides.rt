//! The callers that the pages `CALLING.md` of values and digits show, and their contracts.
ghost use Rattle.std.specs.Prelude.{ℕ, List, IfSome};
ghost use Rattle.time_values.specs.Dates.{calendar_date_refusal};
ghost use Rattle.time_values.specs.Dates as Dates;
ghost use Rattle.time_values.specs.Moments.{plain_date, plain_time};
ghost use Rattle.time_values.specs.Names.{month_number};
ghost use Rattle.time_values.specs.Calendar.{greatest_year};
ghost use Rattle.time_values.specs.Refusal.{Constructs};
ghost use Rattle.time_values.specs.Times.{HasClock};
ghost use Rattle.time_digits.specs.Digits.{Cut, IsDigitRun};

use time_digits::ParsedItem;
use time_digits::combinator::exactly_n_digits;
use time_values::error::ComponentRange;
use time_values::{Date, Month, PlainDateTime, Time};

// Noon of the day with these parts.
fn noon(year: i32, month: Month, day: u8) -> Result<PlainDateTime, ComponentRange>
    ensures { Constructs (calendar_date_refusal greatest_year year (month_number month) day)
        (λ p. Dates.HasParts year month day (plain_date p) × HasClock 12 0 0 0 (plain_time p)) result }
{
    let date = Date::from_calendar_date(year, month, day)?;
    let time = Time::from_hms_nano(12, 0, 0, 0)?;
    Ok(PlainDateTime::new(date, time))
}

// The day of the year of a 29 February, and the hour of its noon.
fn noon_of_leap_day(year: i32) -> Result<(u16, u8), ComponentRange> {
    let found = noon(year, Month::February, 29)?;
    Ok((found.date().ordinal(), found.time().hour()))
}

const NO_DAY: ComponentRange = ComponentRange {
    name: "day",
    conditional: true,
};

#[test]
fn callers_of_values(rt: HostRuntime) {
    for (year, expected) in [(2024, Ok((60, 12))), (2023, Err(NO_DAY))] {
        assert!(rt; noon_of_leap_day(year) == expected, "{year}");
    }
}

// The hour and the minute at the start of a text, as `0930`, and the unread rest. This is not a fast path.
fn hour_and_minute(input: &[u8]) -> Option<ParsedItem<'_, (u32, u32)>>
    ensures { IfSome result (λ p. (mid : List ℕ) × Cut (IsDigitRun 2 2) input.now mid p.1.0
        × Cut (IsDigitRun 2 2) mid p.0.now p.1.1) }
{
    let hour = exactly_n_digits::<2>(input)?;
    let minute = exactly_n_digits::<2>(hour.0)?;
    Some(ParsedItem(minute.0, (hour.1, minute.1)))
}

// A text, and the hour, the minute and the rest that are parsed from it.
static HOURS: [(&[u8], Option<((u32, u32), &[u8])>); 2] = [
    (b"0930x", Some(((9, 30), b"x"))),
    (b"093", None),
];

fn hour_minute_and_rest(input: &[u8]) -> Option<((u32, u32), &[u8])> {
    let found = hour_and_minute(input)?;
    Some((found.1, found.0))
}

#[test]
fn callers_of_digits(rt: HostRuntime) {
    for (text, expected) in &HOURS {
        assert!(rt; hour_minute_and_rest(text) == *expected);
    }
}
