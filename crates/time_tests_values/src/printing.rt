//! The display of values.
use crate::numbers::{FIRST, IN_1937, IN_1985, Numbers, in_utc, moment, plain};
use std::alloc::Global;
use std::fmt::Display;
use time_values::error::ComponentRange;
use time_values::{Date, Month, Time, Timestamp, UtcOffset, Weekday};

// Whether the value displays as that text.
fn prints(alloc: Global, value: impl Display + Drop, text: &str) -> bool {
    match format!(in alloc; "{value}") {
        Ok(printed) => printed.as_str() == text,
        Err(_) => false,
    }
}

// A value, by its numbers.
#[derive(Clone, Copy)]
enum Value {
    Date(i32),
    Time(u8, u32),
    Offset(i8, i8, i8),
    Timestamp(i128),
    Month(Month),
    Weekday(Weekday),
}

// Dates by their year, 2 January in each, times by hour and nanosecond, at minute 5 and second 9, and other
// values.
static VALUES: [(Value, &str); 17] = [
    (Value::Date(2021), "2021-01-02"),
    (Value::Date(0), "0000-01-02"),
    (Value::Date(-1), "-0001-01-02"),
    (Value::Date(9999), "9999-01-02"),
    (Value::Date(10_000), "+10000-01-02"),
    (Value::Date(-999_999), "-999999-01-02"),
    (Value::Time(0, 0), "0:05:09.0"),
    (Value::Time(1, 250_000_000), "1:05:09.25"),
    (Value::Time(23, 1), "23:05:09.000000001"),
    (Value::Time(10, 123_456_789), "10:05:09.123456789"),
    (Value::Time(9, 1000), "9:05:09.000001"),
    (Value::Offset(5, 30, 0), "+05:30:00"),
    (Value::Offset(0, 0, -7), "-00:00:07"),
    (Value::Offset(0, 0, 0), "+00:00:00"),
    (Value::Timestamp(-1_500_000_000), "-1500000000"),
    (Value::Month(Month::September), "September"),
    (Value::Weekday(Weekday::Wednesday), "Wednesday"),
];

// Whether the value of these numbers displays as that text.
fn is_printed(alloc: Global, value: Value, text: &str) -> Result<bool, ComponentRange> {
    let is_printed = match value {
        Value::Date(year) => prints(
            alloc,
            Date::from_calendar_date(year, Month::January, 2)?,
            text,
        ),
        Value::Time(hour, nanosecond) => {
            prints(alloc, Time::from_hms_nano(hour, 5, 9, nanosecond)?, text)
        }
        Value::Offset(hours, minutes, seconds) => {
            prints(alloc, UtcOffset::from_hms(hours, minutes, seconds)?, text)
        }
        Value::Timestamp(nanoseconds) => {
            prints(alloc, Timestamp::from_nanoseconds(nanoseconds)?, text)
        }
        Value::Month(month) => prints(alloc, month, text),
        Value::Weekday(weekday) => prints(alloc, weekday, text),
    };
    Ok(is_printed)
}

#[test]
fn values(rt: HostRuntime) {
    for (value, text) in &VALUES {
        assert!(rt; is_printed(rt.alloc(), *value, text) == Ok(true), "{text}");
    }
}

// Moments, and their display without an offset, in UTC and with their offset.
static MOMENTS: [(Numbers, &str, &str, &str); 3] = [
    (
        IN_1985,
        "1985-04-12 23:20:50.52",
        "1985-04-12 23:20:50.52 +00",
        "1985-04-12 23:20:50.52 +00:00:00",
    ),
    (
        IN_1937,
        "1937-01-01 12:00:27.87",
        "1937-01-01 12:00:27.87 +00",
        "1937-01-01 12:00:27.87 +00:20:00",
    ),
    (
        FIRST,
        "-999999-01-01 0:00:00.0",
        "-999999-01-01 0:00:00.0 +00",
        "-999999-01-01 0:00:00.0 +00:00:00",
    ),
];

// Whether the moment displays as these texts.
fn is_moment_printed(
    alloc: Global,
    numbers: Numbers,
    [without, utc, with]: [&str; 3],
) -> Result<bool, ComponentRange> {
    let value = moment(numbers)?;
    Ok(
        prints(alloc, plain(value), without)
            && prints(alloc, in_utc(value), utc)
            && prints(alloc, value, with),
    )
}

#[test]
fn moments(rt: HostRuntime) {
    for (numbers, without, utc, with) in &MOMENTS {
        assert!(rt; is_moment_printed(rt.alloc(), *numbers, [*without, *utc, *with]) == Ok(true));
    }
}
