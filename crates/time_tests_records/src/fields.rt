//! The fields of a record by name, and their values as numbers.
pub use puts::{set, with};
use std::num::NonZero;
use time_components::{Component, Padding, modifier};
use time_record::Parsed;

/// The fields of a record.
#[derive(Clone, Copy)]
pub enum Field {
    Year,
    YearCentury,
    YearLastTwo,
    IsoYear,
    IsoYearCentury,
    IsoYearLastTwo,
    Month,
    SundayWeekNumber,
    MondayWeekNumber,
    IsoWeekNumber,
    Weekday,
    Ordinal,
    Day,
    Hour24,
    Hour12,
    Hour12IsPm,
    Minute,
    Second,
    Subsecond,
    OffsetHour,
    OffsetMinute,
    OffsetMinuteSigned,
    OffsetSecond,
    OffsetSecondSigned,
    UnixTimestampNanos,
}

/// Each field, with the least and the greatest number of its range.
pub const RANGES: [(Field, i128, i128); 25] = [
    (Field::Year, -999_999, 999_999),
    (Field::YearCentury, -9_999, 9_999),
    (Field::YearLastTwo, 0, 99),
    (Field::IsoYear, -999_999, 999_999),
    (Field::IsoYearCentury, -9_999, 9_999),
    (Field::IsoYearLastTwo, 0, 99),
    (Field::Month, 1, 12),
    (Field::SundayWeekNumber, 0, 53),
    (Field::MondayWeekNumber, 0, 53),
    (Field::IsoWeekNumber, 1, 53),
    (Field::Weekday, 0, 6),
    (Field::Ordinal, 1, 366),
    (Field::Day, 1, 31),
    (Field::Hour24, 0, 23),
    (Field::Hour12, 1, 12),
    (Field::Hour12IsPm, 0, 1),
    (Field::Minute, 0, 59),
    (Field::Second, 0, 60),
    (Field::Subsecond, 0, 999_999_999),
    (Field::OffsetHour, -25, 25),
    (Field::OffsetMinute, 0, 59),
    (Field::OffsetMinuteSigned, -59, 59),
    (Field::OffsetSecond, 0, 59),
    (Field::OffsetSecondSigned, -59, 59),
    (
        Field::UnixTimestampNanos,
        -31_619_087_596_800_000_000_000,
        31_494_784_780_799_999_999_999,
    ),
];

// The number of a field whose values are named.
fn get_named(parsed: &Parsed, field: Field) -> Option<u8> {
    match field {
        Field::Month => Some(parsed.month()?.number()),
        Field::Weekday => Some(parsed.weekday()?.number_days_from_monday()),
        Field::Hour12IsPm => Some(u8::from(parsed.hour_12_is_pm()?)),
        _ => None,
    }
}

// The value of a field that is never 0.
fn get_positive(parsed: &Parsed, field: Field) -> Option<NonZero<u8>> {
    match field {
        Field::IsoWeekNumber => parsed.iso_week_number(),
        Field::Day => parsed.day(),
        Field::Hour12 => parsed.hour_12(),
        _ => None,
    }
}

// The value of an offset's field, with its sign.
fn get_signed(parsed: &Parsed, field: Field) -> Option<i8> {
    match field {
        Field::OffsetHour => parsed.offset_hour(),
        Field::OffsetMinuteSigned => parsed.offset_minute_signed(),
        Field::OffsetSecondSigned => parsed.offset_second_signed(),
        _ => None,
    }
}

// The value of a field of two digits.
fn get_small(parsed: &Parsed, field: Field) -> Option<u8> {
    match field {
        Field::YearLastTwo => parsed.year_last_two(),
        Field::IsoYearLastTwo => parsed.iso_year_last_two(),
        Field::SundayWeekNumber => parsed.sunday_week_number(),
        Field::MondayWeekNumber => parsed.monday_week_number(),
        Field::Hour24 => parsed.hour_24(),
        Field::Minute => parsed.minute(),
        Field::Second => parsed.second(),
        Field::OffsetMinute => parsed.offset_minute(),
        Field::OffsetSecond => parsed.offset_second(),
        _ => None,
    }
}

// The value of a field of years, of the day of a year, or of nanoseconds.
fn get_wide(parsed: &Parsed, field: Field) -> Option<i128> {
    Some(match field {
        Field::Year => parsed.year()? as i128,
        Field::YearCentury => parsed.year_century()? as i128,
        Field::IsoYear => parsed.iso_year()? as i128,
        Field::IsoYearCentury => parsed.iso_year_century()? as i128,
        Field::Ordinal => parsed.ordinal()?.get() as i128,
        Field::Subsecond => parsed.subsecond()? as i128,
        Field::UnixTimestampNanos => parsed.unix_timestamp_nanos()?,
        _ => return None,
    })
}

/// The value of the field.
pub fn get(parsed: &Parsed, field: Field) -> Option<i128> {
    Some(match field {
        Field::OffsetHour | Field::OffsetMinuteSigned | Field::OffsetSecondSigned => get_signed(
            parsed, field,
        )? as i128,
        Field::IsoWeekNumber | Field::Day | Field::Hour12 => get_positive(
            parsed, field,
        )?.get() as i128,
        Field::Month | Field::Weekday | Field::Hour12IsPm => get_named(parsed, field)? as i128,
        Field::YearLastTwo
        | Field::IsoYearLastTwo
        | Field::SundayWeekNumber
        | Field::MondayWeekNumber
        | Field::Hour24
        | Field::Minute
        | Field::Second
        | Field::OffsetMinute
        | Field::OffsetSecond => get_small(parsed, field)? as i128,
        _ => get_wide(parsed, field)?,
    })
}

/// A record of these numbers, or `None` where one is out of range.
pub fn record_of(numbers: &[(Field, i128)]) -> Option<Parsed> {
    let mut parsed = Parsed::new();
    for (field, n) in numbers {
        set(&mut parsed, *field, *n)?;
    }
    Some(parsed)
}

/// A record of the offset hour -05 alone. Its minus sets the flag of a negative offset.
pub fn negative_hour() -> Option<Parsed> {
    let mut parsed = Parsed::new();
    let hour = Component::OffsetHour(modifier::OffsetHour {
        padding: Padding::Zero,
        sign_is_mandatory: false,
    });
    parsed.parse_component(b"-05", hour).ok()?;
    Some(parsed)
}

/// A record with the greatest number of each field but the timestamp, and with each flag but the one that allows leap
/// seconds.
pub fn full_record() -> Option<Parsed> {
    let mut parsed = negative_hour()?;
    for (field, _, high) in RANGES {
        if !matches!(field, Field::UnixTimestampNanos) {
            set(&mut parsed, field, high)?;
        }
    }
    parsed.set_year_century(0, true)?;
    parsed.set_iso_year_century(0, true)?;
    Some(parsed)
}

// The setters and builders of a record by a field's name.
mod puts {
    use super::Field;
    use std::num::NonZero;
    use time_record::Parsed;
    use time_values::{Month, Weekday};

    fn month_of(n: u8) -> Option<Month> {
        Month::from_number(NonZero::<u8>::new(n)?).ok()
    }

    const WEEKDAYS: [Weekday; 7] = [
        Weekday::Monday,
        Weekday::Tuesday,
        Weekday::Wednesday,
        Weekday::Thursday,
        Weekday::Friday,
        Weekday::Saturday,
        Weekday::Sunday,
    ];

    fn weekday_of(n: u8) -> Option<Weekday> {
        WEEKDAYS.get(usize::from(n)).copied()
    }

    fn half_of(n: u8) -> Option<bool> {
        match n {
            0 => Some(false),
            1 => Some(true),
            _ => None,
        }
    }

    // Sets a field whose values are named, by its number.
    fn set_named(parsed: &mut Parsed, field: Field, n: u8) -> Option<()> {
        match field {
            Field::Month => parsed.set_month(month_of(n)?),
            Field::Weekday => parsed.set_weekday(weekday_of(n)?),
            Field::Hour12IsPm => parsed.set_hour_12_is_pm(half_of(n)?),
            _ => None,
        }
    }

    // Sets a field that is never 0.
    fn set_positive(parsed: &mut Parsed, field: Field, n: NonZero<u8>) -> Option<()> {
        match field {
            Field::IsoWeekNumber => parsed.set_iso_week_number(n),
            Field::Day => parsed.set_day(n),
            Field::Hour12 => parsed.set_hour_12(n),
            _ => None,
        }
    }

    // Sets an offset's field, with its sign.
    fn set_signed(parsed: &mut Parsed, field: Field, n: i8) -> Option<()> {
        match field {
            Field::OffsetHour => parsed.set_offset_hour(n),
            Field::OffsetMinuteSigned => parsed.set_offset_minute_signed(n),
            Field::OffsetSecondSigned => parsed.set_offset_second_signed(n),
            _ => None,
        }
    }

    // Sets a field of two digits.
    fn set_small(parsed: &mut Parsed, field: Field, n: u8) -> Option<()> {
        match field {
            Field::YearLastTwo => parsed.set_year_last_two(n),
            Field::IsoYearLastTwo => parsed.set_iso_year_last_two(n),
            Field::SundayWeekNumber => parsed.set_sunday_week_number(n),
            Field::MondayWeekNumber => parsed.set_monday_week_number(n),
            Field::Hour24 => parsed.set_hour_24(n),
            Field::Minute => parsed.set_minute(n),
            Field::Second => parsed.set_second(n),
            Field::OffsetMinute => parsed.set_offset_minute(n),
            Field::OffsetSecond => parsed.set_offset_second(n),
            _ => None,
        }
    }

    // Sets a field of years, of the day of a year, or of nanoseconds.
    fn set_wide(parsed: &mut Parsed, field: Field, n: i128) -> Option<()> {
        match field {
            Field::Year => parsed.set_year(i32::try_from(n).ok()?),
            Field::YearCentury => parsed.set_year_century(i16::try_from(n).ok()?, false),
            Field::IsoYear => parsed.set_iso_year(i32::try_from(n).ok()?),
            Field::IsoYearCentury => parsed.set_iso_year_century(i16::try_from(n).ok()?, false),
            Field::Ordinal => parsed.set_ordinal(NonZero::<u16>::new(u16::try_from(n).ok()?)?),
            Field::Subsecond => parsed.set_subsecond(u32::try_from(n).ok()?),
            Field::UnixTimestampNanos => parsed.set_unix_timestamp_nanos(n),
            _ => None,
        }
    }

    /// Sets the field to the number. `None`: its type has no such value.
    pub fn set(parsed: &mut Parsed, field: Field, n: i128) -> Option<()> {
        match field {
            Field::OffsetHour | Field::OffsetMinuteSigned | Field::OffsetSecondSigned => {
                set_signed(parsed, field, i8::try_from(n).ok()?)
            }
            Field::IsoWeekNumber | Field::Day | Field::Hour12 => {
                set_positive(parsed, field, NonZero::<u8>::new(u8::try_from(n).ok()?)?)
            }
            Field::Month | Field::Weekday | Field::Hour12IsPm => set_named(
                parsed,
                field,
                u8::try_from(n).ok()?,
            ),
            Field::YearLastTwo
            | Field::IsoYearLastTwo
            | Field::SundayWeekNumber
            | Field::MondayWeekNumber
            | Field::Hour24
            | Field::Minute
            | Field::Second
            | Field::OffsetMinute
            | Field::OffsetSecond => set_small(parsed, field, u8::try_from(n).ok()?),
            _ => set_wide(parsed, field, n),
        }
    }

    // Builds a record with a field whose values are named, by its number.
    fn with_named(parsed: Parsed, field: Field, n: u8) -> Option<Parsed> {
        match field {
            Field::Month => parsed.with_month(month_of(n)?),
            Field::Weekday => parsed.with_weekday(weekday_of(n)?),
            Field::Hour12IsPm => parsed.with_hour_12_is_pm(half_of(n)?),
            _ => None,
        }
    }

    // Builds a record with a field that is never 0.
    fn with_positive(parsed: Parsed, field: Field, n: NonZero<u8>) -> Option<Parsed> {
        match field {
            Field::IsoWeekNumber => parsed.with_iso_week_number(n),
            Field::Day => parsed.with_day(n),
            Field::Hour12 => parsed.with_hour_12(n),
            _ => None,
        }
    }

    // Builds a record with an offset's field, with its sign.
    fn with_signed(parsed: Parsed, field: Field, n: i8) -> Option<Parsed> {
        match field {
            Field::OffsetHour => parsed.with_offset_hour(n),
            Field::OffsetMinuteSigned => parsed.with_offset_minute_signed(n),
            Field::OffsetSecondSigned => parsed.with_offset_second_signed(n),
            _ => None,
        }
    }

    // Builds a record with a field of two digits.
    fn with_small(parsed: Parsed, field: Field, n: u8) -> Option<Parsed> {
        match field {
            Field::YearLastTwo => parsed.with_year_last_two(n),
            Field::IsoYearLastTwo => parsed.with_iso_year_last_two(n),
            Field::SundayWeekNumber => parsed.with_sunday_week_number(n),
            Field::MondayWeekNumber => parsed.with_monday_week_number(n),
            Field::Hour24 => parsed.with_hour_24(n),
            Field::Minute => parsed.with_minute(n),
            Field::Second => parsed.with_second(n),
            Field::OffsetMinute => parsed.with_offset_minute(n),
            Field::OffsetSecond => parsed.with_offset_second(n),
            _ => None,
        }
    }

    // Builds a record with a field of years, of the day of a year, or of nanoseconds.
    fn with_wide(parsed: Parsed, field: Field, n: i128) -> Option<Parsed> {
        match field {
            Field::Year => parsed.with_year(i32::try_from(n).ok()?),
            Field::YearCentury => parsed.with_year_century(i16::try_from(n).ok()?, false),
            Field::IsoYear => parsed.with_iso_year(i32::try_from(n).ok()?),
            Field::IsoYearCentury => parsed.with_iso_year_century(i16::try_from(n).ok()?, false),
            Field::Ordinal => parsed.with_ordinal(NonZero::<u16>::new(u16::try_from(n).ok()?)?),
            Field::Subsecond => parsed.with_subsecond(u32::try_from(n).ok()?),
            Field::UnixTimestampNanos => parsed.with_unix_timestamp_nanos(n),
            _ => None,
        }
    }

    /// Builds a record with the field set to the number. `None`: its type has no such value.
    pub fn with(parsed: Parsed, field: Field, n: i128) -> Option<Parsed> {
        match field {
            Field::OffsetHour | Field::OffsetMinuteSigned | Field::OffsetSecondSigned => {
                with_signed(parsed, field, i8::try_from(n).ok()?)
            }
            Field::IsoWeekNumber | Field::Day | Field::Hour12 => {
                with_positive(parsed, field, NonZero::<u8>::new(u8::try_from(n).ok()?)?)
            }
            Field::Month | Field::Weekday | Field::Hour12IsPm => with_named(
                parsed,
                field,
                u8::try_from(n).ok()?,
            ),
            Field::YearLastTwo
            | Field::IsoYearLastTwo
            | Field::SundayWeekNumber
            | Field::MondayWeekNumber
            | Field::Hour24
            | Field::Minute
            | Field::Second
            | Field::OffsetMinute
            | Field::OffsetSecond => with_small(parsed, field, u8::try_from(n).ok()?),
            _ => with_wide(parsed, field, n),
        }
    }
}
