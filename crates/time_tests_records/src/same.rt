//! Whether two records are equal, since they have no `==`.
use std::convert::TryFrom;
use std::num::NonZero;
use time_record::Parsed;
use time_values::error::TryFromParsed;
use time_values::{Month, OffsetDateTime, Weekday};

type DateParts = (
    Option<i32>,
    Option<Month>,
    Option<NonZero<u8>>,
    Option<NonZero<u16>>,
    Option<Weekday>,
);

fn date_parts(record: &Parsed) -> DateParts {
    (
        record.year(),
        record.month(),
        record.day(),
        record.ordinal(),
        record.weekday(),
    )
}

type TimeParts = (
    Option<u8>,
    Option<NonZero<u8>>,
    Option<bool>,
    Option<u8>,
    Option<u8>,
    Option<u32>,
);

fn time_parts(record: &Parsed) -> TimeParts {
    (
        record.hour_24(),
        record.hour_12(),
        record.hour_12_is_pm(),
        record.minute(),
        record.second(),
        record.subsecond(),
    )
}

type OffsetParts = (Option<i8>, Option<i8>, Option<i8>);

fn offset_parts(record: &Parsed) -> OffsetParts {
    (
        record.offset_hour(),
        record.offset_minute_signed(),
        record.offset_second_signed(),
    )
}

type YearParts = (
    Option<i16>,
    Option<bool>,
    Option<u8>,
    Option<i32>,
    Option<i16>,
    Option<bool>,
    Option<u8>,
);

// Centuries with their flags, the last two digits of years, and the ISO year.
fn year_parts(record: &Parsed) -> YearParts {
    (
        record.year_century(),
        record.year_century_is_negative(),
        record.year_last_two(),
        record.iso_year(),
        record.iso_year_century(),
        record.iso_year_century_is_negative(),
        record.iso_year_last_two(),
    )
}

type WeekParts = (Option<u8>, Option<u8>, Option<NonZero<u8>>, Option<i128>);

// Numbers of weeks, and the timestamp.
fn week_parts(record: &Parsed) -> WeekParts {
    (
        record.sunday_week_number(),
        record.monday_week_number(),
        record.iso_week_number(),
        record.unix_timestamp_nanos(),
    )
}

// The record with the end of 2016 at a second of 60: the minute of its offset, which shows the flag of a negative
// offset, and the moment, which shows whether leap seconds are allowed.
fn flags(record: &Parsed) -> Option<(Option<i8>, Result<OffsetDateTime, TryFromParsed>)> {
    let mut leap = *record;
    leap.set_year(2016)?;
    leap.set_ordinal(NonZero::<u16>::new(366)?)?;
    leap.set_hour_24(23)?;
    leap.set_minute(59)?;
    leap.set_second(60)?;
    leap.set_offset_hour(0)?;
    leap.set_offset_second_signed(0)?;
    leap.set_offset_minute_signed(1)?;
    let minute = leap.offset_minute_signed();
    leap.set_offset_minute_signed(0)?;
    Some((minute, OffsetDateTime::try_from(leap)))
}

/// Whether two records have equal parts and equal flags.
pub fn same_record(a: &Parsed, b: &Parsed) -> bool {
    date_parts(a) == date_parts(b)
        && time_parts(a) == time_parts(b)
        && offset_parts(a) == offset_parts(b)
        && year_parts(a) == year_parts(b)
        && week_parts(a) == week_parts(b)
        && flags(a) == flags(b)
}
