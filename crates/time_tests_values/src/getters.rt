//! Parts of values, the seconds since 1970, and the names of errors.
use crate::numbers::{IN_1937, IN_1985, IN_1996, Numbers, in_utc, moment, plain};
use time_values::error::{ComponentRange, ParseFromDescription};
use time_values::{
    Month, OffsetDateTime, PlainDateTime, Time, Timestamp, UtcDateTime, UtcOffset, Weekday,
};

// The date of the moment in 1985, and its days of the year and of the week: 12 April is day 31 + 28 + 31 + 12 = 102 of
// 1985, a Friday.
const DATE: (i32, Month, u8) = (1985, Month::April, 12);

const DAYS: (u16, Weekday) = (102, Weekday::Friday);

// Its time.
const TIME: (u8, u8, u8, u32) = (23, 20, 50, 520_000_000);

// Whether the value has that date and time.
macro_rules! has_parts {
    ($value:ident) => {
        ($value.to_calendar_date(), $value.to_ordinal_date()) == (DATE, (1985, 102))
            && ($value.year(), $value.month(), $value.day()) == DATE
            && ($value.ordinal(), $value.weekday()) == DAYS
            && ($value.hour(), $value.minute(), $value.second(), $value.nanosecond()) == TIME
    };
}

fn has_parts(value: OffsetDateTime) -> bool {
    has_parts!(value) && (value.to_hms_nano(), value.to_hms()) == (TIME, (23, 20, 50))
}

fn has_parts_plain(value: PlainDateTime) -> bool {
    has_parts!(value) && (value.as_hms_nano(), value.as_hms()) == (TIME, (23, 20, 50))
}

fn has_parts_in_utc(value: UtcDateTime) -> bool {
    has_parts!(value) && (value.as_hms_nano(), value.as_hms()) == (TIME, (23, 20, 50))
}

// Whether the moment in 1985 has its parts, without its offset and in UTC too.
fn moments_have_parts() -> Result<bool, ComponentRange> {
    let value = moment(IN_1985)?;
    Ok(has_parts(value) && has_parts_plain(plain(value)) && has_parts_in_utc(in_utc(value)))
}

// Whether a time has its parts down to each unit.
fn time_has_parts() -> Result<bool, ComponentRange> {
    let time = Time::from_hms_nano(1, 2, 3, 123_456_789)?;
    Ok(
        (time.millisecond(), time.microsecond()) == (123, 123_456)
            && (time.as_hms(), time.as_hms_milli()) == ((1, 2, 3), (1, 2, 3, 123))
            && time.as_hms_micro() == (1, 2, 3, 123_456)
            && time.as_hms_nano() == (1, 2, 3, 123_456_789),
    )
}

#[test]
fn dates_and_times(rt: HostRuntime) {
    assert!(rt; moments_have_parts() == Ok(true));
    assert!(rt; time_has_parts() == Ok(true));
}

// Moments and their seconds since 1970: 5580 days of 86400 seconds lie before 1985-04-12, and 84050 seconds before
// 23:20:50. In 1937 it is 33 years of 365 days, 8 leap days, and 12:00:27.87 less 20 minutes. Half a second before 1970
// is the second before it.
static SECONDS: [(Numbers, i64); 5] = [
    (IN_1985, 5580 * 86_400 + 84_050),
    (IN_1985, 482_196_050),
    (IN_1937, (-33 * 365 - 8) * 86_400 + 42_027),
    (IN_1996, 851_042_397),
    (
        (
            (1969, Month::December, 31),
            (23, 59, 59, 500_000_000),
            (0, 0, 0),
        ),
        -1,
    ),
];

// The seconds since 1970 of the moment, and of its date and time taken as UTC.
fn seconds_of(numbers: Numbers) -> Option<(i64, i64)> {
    let value = moment(numbers).ok()?;
    Some((
        value.unix_timestamp(),
        value.checked_to_utc()?.unix_timestamp(),
    ))
}

#[test]
fn seconds_since_1970(rt: HostRuntime) {
    for (numbers, seconds) in &SECONDS {
        assert!(rt; seconds_of(*numbers) == Some((*seconds, *seconds)));
    }
}

// The seconds, milliseconds and microseconds of a timestamp of that many nanoseconds.
fn units(nanoseconds: i128) -> Option<(i64, i64, i128)> {
    let timestamp = Timestamp::from_nanoseconds(nanoseconds).ok()?;
    Some((
        timestamp.as_seconds(),
        timestamp.as_milliseconds(),
        timestamp.as_microseconds(),
    ))
}

// Nanoseconds, and the whole units of them. All are rounded down.
static UNITS: [(i128, (i64, i64, i128)); 4] = [
    (
        1_234_567_890_987_654_321,
        (1_234_567_890, 1_234_567_890_987, 1_234_567_890_987_654),
    ),
    (-1, (-1, -1, -1)),
    (
        -31_619_087_596_800_000_000_000,
        (
            -31_619_087_596_800,
            -31_619_087_596_800_000,
            -31_619_087_596_800_000_000,
        ),
    ),
    (
        31_494_784_780_799_999_999_999,
        (
            31_494_784_780_799,
            31_494_784_780_799_999,
            31_494_784_780_799_999_999,
        ),
    ),
];

#[test]
fn units_of_a_timestamp(rt: HostRuntime) {
    for (nanoseconds, expected) in &UNITS {
        assert!(rt; units(*nanoseconds) == Some(*expected));
    }
}

// Whether that many seconds are the offset of these numbers.
fn is_offset(
    whole_seconds: i32,
    (hours, minutes, seconds): (i8, i8, i8),
) -> Result<bool, ComponentRange> {
    let offset = UtcOffset::from_whole_seconds(whole_seconds)?;
    Ok(
        UtcOffset::from_hms(hours, minutes, seconds)? == offset
            && offset.whole_seconds() == whole_seconds
            && offset.as_hms() == (hours, minutes, seconds)
            && offset.is_utc() == (whole_seconds == 0),
    )
}

const REFUSAL: ComponentRange = ComponentRange {
    name: "seconds",
    conditional: false,
};

static OFFSETS: [(i32, (i8, i8, i8), Result<bool, ComponentRange>); 6] = [
    (-12_600, (-3, -30, 0), Ok(true)),
    (93_599, (25, 59, 59), Ok(true)),
    (0, (0, 0, 0), Ok(true)),
    (-1, (0, 0, -1), Ok(true)),
    (93_600, (26, 0, 0), Err(REFUSAL)),
    (-93_600, (-26, 0, 0), Err(REFUSAL)),
];

#[test]
fn whole_offsets(rt: HostRuntime) {
    for (seconds, numbers, expected) in &OFFSETS {
        assert!(rt; is_offset(*seconds, *numbers) == *expected);
    }
}

static NAMES: [(ParseFromDescription, Option<&str>); 3] = [
    (ParseFromDescription::InvalidComponent("day"), Some("day")),
    (ParseFromDescription::InvalidLiteral, None),
    (ParseFromDescription::UnexpectedTrailingCharacters, None),
];

// Whether the error of an hour names its component.
fn hour_is_named() -> bool {
    match Time::from_hms_nano(24, 0, 0, 0) {
        Ok(_) => false,
        Err(refusal) => (refusal.name(), refusal.is_conditional()) == ("hour", false),
    }
}

#[test]
fn names_of_refusals(rt: HostRuntime) {
    for (refusal, name) in &NAMES {
        assert!(rt; refusal.component_name() == *name);
    }
    assert!(rt; hour_is_named());
}
