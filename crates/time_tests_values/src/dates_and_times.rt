//! Months, weekdays, dates, times of day and offsets, and the errors of their ranges.
use crate::numbers::{Clock, Day, Offset};
use std::num::NonZero;
use time_values::error::ComponentRange;
use time_values::{Date, Month, Time, UtcOffset, Weekday};

// The error of a component whose range is independent of others.
macro_rules! out {
    ($name:literal) => {
        ComponentRange {
            name: $name,
            conditional: false,
        }
    };
}

// The error of a component whose range depends on others.
macro_rules! out_for_others {
    ($name:literal) => {
        ComponentRange {
            name: $name,
            conditional: true,
        }
    };
}

// The numbers of months, years, and the lengths of the months in them, or the error of a month's number.
static MONTHS: [(u8, i32, Result<(Month, u8), ComponentRange>); 20] = [
    (1, 2023, Ok((Month::January, 31))),
    (2, 2023, Ok((Month::February, 28))),
    (3, 2023, Ok((Month::March, 31))),
    (4, 2023, Ok((Month::April, 30))),
    (5, 2023, Ok((Month::May, 31))),
    (6, 2023, Ok((Month::June, 30))),
    (7, 2023, Ok((Month::July, 31))),
    (8, 2023, Ok((Month::August, 31))),
    (9, 2023, Ok((Month::September, 30))),
    (10, 2023, Ok((Month::October, 31))),
    (11, 2023, Ok((Month::November, 30))),
    (12, 2023, Ok((Month::December, 31))),
    (2, 0, Ok((Month::February, 29))),
    (2, -4, Ok((Month::February, 29))),
    (2, -100, Ok((Month::February, 28))),
    (2, -400, Ok((Month::February, 29))),
    (2, 1900, Ok((Month::February, 28))),
    (2, 2000, Ok((Month::February, 29))),
    (13, 2023, Err(out!("month"))),
    (255, 2023, Err(out!("month"))),
];

// The month with that number, which has the number again, and its length in that year.
fn month_of(number: u8, year: i32) -> Option<Result<(Month, u8), ComponentRange>> {
    match Month::from_number(NonZero::<u8>::new(number)?) {
        Ok(month) if (month.number(), u8::from(month)) == (number, number) => {
            Some(Ok((month, month.length(year))))
        }
        Ok(_) => None,
        Err(refusal) => Some(Err(refusal)),
    }
}

#[test]
fn months(rt: HostRuntime) {
    for (number, year, expected) in &MONTHS {
        assert!(rt;
            month_of(*number, *year) == Some(*expected),
            "{number} in {year}"
        );
    }
}

// Weekdays and their numbers from Monday and from Sunday.
static WEEKDAYS: [(Weekday, u8, u8); 3] = [
    (Weekday::Monday, 0, 1),
    (Weekday::Saturday, 5, 6),
    (Weekday::Sunday, 6, 0),
];

// Whether the weekday has these numbers.
fn has_numbers(weekday: Weekday, from_monday: u8, from_sunday: u8) -> bool {
    weekday.number_days_from_monday() == from_monday
        && weekday.number_days_from_sunday() == from_sunday
}

#[test]
fn weekdays(rt: HostRuntime) {
    for (weekday, from_monday, from_sunday) in &WEEKDAYS {
        assert!(rt; has_numbers(*weekday, *from_monday, *from_sunday));
    }
}

// Whether the date of these parts has them again.
fn keeps_its_parts((year, month, day): Day) -> Result<bool, ComponentRange> {
    let date = Date::from_calendar_date(year, month, day)?;
    Ok((date.year(), date.month(), date.day()) == (year, month, day))
}

static CALENDAR_DATES: [(Day, Result<bool, ComponentRange>); 12] = [
    ((-999_999, Month::January, 1), Ok(true)),
    ((999_999, Month::December, 31), Ok(true)),
    ((2020, Month::February, 29), Ok(true)),
    ((0, Month::February, 29), Ok(true)),
    ((2021, Month::April, 30), Ok(true)),
    ((-1_000_000, Month::January, 1), Err(out!("year"))),
    ((1_000_000, Month::January, 32), Err(out!("year"))),
    ((2021, Month::February, 29), Err(out_for_others!("day"))),
    ((1900, Month::February, 29), Err(out_for_others!("day"))),
    ((2021, Month::April, 31), Err(out_for_others!("day"))),
    ((2021, Month::January, 0), Err(out_for_others!("day"))),
    ((2021, Month::January, 32), Err(out_for_others!("day"))),
];

#[test]
fn calendar_dates(rt: HostRuntime) {
    for (day, expected) in &CALENDAR_DATES {
        assert!(rt; keeps_its_parts(*day) == *expected);
    }
}

// A date's year, month, day of the month and day of the year.
type Parts = (i32, Month, u8, u16);

// The parts of that day of a year.
fn parts_of_day(year: i32, ordinal: u16) -> Result<Parts, ComponentRange> {
    let date = Date::from_ordinal_date(year, ordinal)?;
    Ok((date.year(), date.month(), date.day(), date.ordinal()))
}

static ORDINAL_DATES: [(i32, u16, Result<Parts, ComponentRange>); 10] = [
    (-999_999, 1, Ok((-999_999, Month::January, 1, 1))),
    (999_999, 365, Ok((999_999, Month::December, 31, 365))),
    (2020, 366, Ok((2020, Month::December, 31, 366))),
    (2020, 60, Ok((2020, Month::February, 29, 60))),
    (2021, 60, Ok((2021, Month::March, 1, 60))),
    (-1_000_000, 1, Err(out!("year"))),
    (1_000_000, 0, Err(out!("year"))),
    (2021, 0, Err(out_for_others!("ordinal"))),
    (2021, 366, Err(out_for_others!("ordinal"))),
    (2020, 367, Err(out_for_others!("ordinal"))),
];

#[test]
fn ordinal_dates(rt: HostRuntime) {
    for (year, ordinal, expected) in &ORDINAL_DATES {
        assert!(rt; parts_of_day(*year, *ordinal) == *expected);
    }
}

// An ISO 8601 year, a week of it and a weekday.
type WeekDate = (i32, u8, Weekday);

// Whether the week has the date of these parts as its weekday.
fn is_in_week((year, month, day): Day, week_date: WeekDate) -> bool {
    match Date::from_calendar_date(year, month, day) {
        Ok(date) => {
            Date::from_iso_week_date(week_date.0, week_date.1, week_date.2) == Ok(date)
                && date.to_iso_week_date() == week_date
                && date.iso_week() == week_date.1
        }
        Err(_) => false,
    }
}

static WEEK_DATES: [(Day, WeekDate); 4] = [
    ((2021, Month::January, 2), (2020, 53, Weekday::Saturday)),
    ((2018, Month::December, 31), (2019, 1, Weekday::Monday)),
    (
        (-999_999, Month::January, 1),
        (-999_999, 1, Weekday::Monday),
    ),
    (
        (999_999, Month::December, 31),
        (999_999, 52, Weekday::Friday),
    ),
];

#[test]
fn iso_week_dates(rt: HostRuntime) {
    for (day, week_date) in &WEEK_DATES {
        assert!(rt; is_in_week(*day, *week_date));
    }
}

static WEEK_DATES_REFUSED: [(i32, u8, Weekday, ComponentRange); 7] = [
    (-1_000_000, 1, Weekday::Monday, out!("year")),
    (1_000_000, 0, Weekday::Monday, out!("year")),
    (2021, 0, Weekday::Monday, out_for_others!("week")),
    (2021, 53, Weekday::Monday, out_for_others!("week")),
    (2020, 54, Weekday::Monday, out_for_others!("week")),
    (999_999, 53, Weekday::Monday, out_for_others!("week")),
    (999_999, 52, Weekday::Saturday, out_for_others!("weekday")),
];

#[test]
fn iso_week_dates_refused(rt: HostRuntime) {
    for (year, week, weekday, refusal) in &WEEK_DATES_REFUSED {
        assert!(rt; Date::from_iso_week_date(*year, *week, *weekday) == Err(*refusal));
    }
}

// The parts of the time that is built from them.
fn time_of((hour, minute, second, nanosecond): Clock) -> Result<Clock, ComponentRange> {
    let time = Time::from_hms_nano(hour, minute, second, nanosecond)?;
    Ok((time.hour(), time.minute(), time.second(), time.nanosecond()))
}

static TIMES: [(Clock, Result<Clock, ComponentRange>); 6] = [
    ((0, 0, 0, 0), Ok((0, 0, 0, 0))),
    ((23, 59, 59, 999_999_999), Ok((23, 59, 59, 999_999_999))),
    ((24, 60, 60, 1_000_000_000), Err(out!("hour"))),
    ((23, 60, 60, 1_000_000_000), Err(out!("minute"))),
    ((23, 59, 60, 1_000_000_000), Err(out!("second"))),
    ((23, 59, 59, 1_000_000_000), Err(out!("nanosecond"))),
];

#[test]
fn times(rt: HostRuntime) {
    for (numbers, expected) in &TIMES {
        assert!(rt; time_of(*numbers) == *expected);
    }
}

// The parts of the offset that is built from these numbers.
fn offset_of((hours, minutes, seconds): Offset) -> Result<Offset, ComponentRange> {
    Ok(UtcOffset::from_hms(hours, minutes, seconds)?.as_hms())
}

static OFFSETS: [(Offset, Result<Offset, ComponentRange>); 13] = [
    ((25, 59, 59), Ok((25, 59, 59))),
    ((-25, -59, -59), Ok((-25, -59, -59))),
    ((-25, 59, 59), Ok((-25, -59, -59))),
    ((5, -30, -10), Ok((5, 30, 10))),
    ((0, -30, 10), Ok((0, -30, -10))),
    ((0, 0, -10), Ok((0, 0, -10))),
    ((0, 0, 0), Ok((0, 0, 0))),
    ((26, 60, 60), Err(out!("hours"))),
    ((-26, -60, -60), Err(out!("hours"))),
    ((25, 60, 60), Err(out!("minutes"))),
    ((25, -60, -60), Err(out!("minutes"))),
    ((25, 59, 60), Err(out!("seconds"))),
    ((-25, 59, -60), Err(out!("seconds"))),
];

#[test]
fn offsets(rt: HostRuntime) {
    for (numbers, expected) in &OFFSETS {
        assert!(rt; offset_of(*numbers) == *expected);
    }
}

// Whether the first date, the last one and the offset of UTC are built from their parts, and the dates have their
// weekdays.
fn constants_are_made() -> bool {
    Date::from_calendar_date(-999_999, Month::January, 1) == Ok(Date::MIN)
        && Date::from_calendar_date(999_999, Month::December, 31) == Ok(Date::MAX)
        && (Date::MIN.weekday(), Date::MAX.weekday()) == (Weekday::Monday, Weekday::Friday)
        && UtcOffset::from_hms(0, 0, 0) == Ok(UtcOffset::UTC)
}

#[test]
fn constants(rt: HostRuntime) {
    assert!(rt; constants_are_made());
}
