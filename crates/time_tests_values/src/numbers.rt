//! Moments by their numbers, which the tests share.
use time_values::error::ComponentRange;
use time_values::{Date, Month, OffsetDateTime, PlainDateTime, Time, UtcDateTime, UtcOffset};

/// A year, a month and a day of it.
pub type Day = (i32, Month, u8);

/// The hour, minute, second and nanosecond of a time of day.
pub type Clock = (u8, u8, u8, u32);

/// The hours, minutes and seconds of an offset.
pub type Offset = (i8, i8, i8);

/// The numbers of a moment's date, of its time, and of its offset.
pub type Numbers = (Day, Clock, Offset);

/// These three are the examples of RFC 3339, section 5.8, that are no leap seconds.
pub const IN_1985: Numbers = (
    (1985, Month::April, 12),
    (23, 20, 50, 520_000_000),
    (0, 0, 0),
);

pub const IN_1996: Numbers = ((1996, Month::December, 19), (16, 39, 57, 0), (-8, 0, 0));

pub const IN_1937: Numbers = (
    (1937, Month::January, 1),
    (12, 0, 27, 870_000_000),
    (0, 20, 0),
);

/// The moment in 1996 in UTC, as the RFC gives it.
pub const IN_1996_AT_ZERO: Numbers = ((1996, Month::December, 20), (0, 39, 57, 0), (0, 0, 0));

/// The first moment that has a date.
pub const FIRST: Numbers = ((-999_999, Month::January, 1), (0, 0, 0, 0), (0, 0, 0));

/// The last one.
pub const LAST: Numbers = (
    (999_999, Month::December, 31),
    (23, 59, 59, 999_999_999),
    (0, 0, 0),
);

/// The moment of these numbers.
pub fn moment((date, time, offset): Numbers) -> Result<OffsetDateTime, ComponentRange> {
    let date = Date::from_calendar_date(date.0, date.1, date.2)?;
    let time = Time::from_hms_nano(time.0, time.1, time.2, time.3)?;
    let offset = UtcOffset::from_hms(offset.0, offset.1, offset.2)?;
    Ok(OffsetDateTime::new_in_offset(date, time, offset))
}

/// The date and time of the moment, without its offset.
pub fn plain(value: OffsetDateTime) -> PlainDateTime {
    PlainDateTime::new(value.date(), value.time())
}

/// That date and time, taken as UTC.
pub fn in_utc(value: OffsetDateTime) -> UtcDateTime {
    UtcDateTime::new(value.date(), value.time())
}
