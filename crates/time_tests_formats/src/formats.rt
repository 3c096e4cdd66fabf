//! The formats of the tables, and the results of their texts in plain numbers.
use crate::errors::DESCRIPTION;
use time_descriptions::{Description, parse_borrowed};
use time_parsing::{Iso8601, Parsable, Rfc2822, Rfc3339};
use time_readers::{BorrowedFormatItem, Component, Padding, modifier};
use time_record::Parsed;
use time_values::error::{ComponentRange, Parse};
use time_values::{Date, Month, OffsetDateTime, Time, UtcOffset};

/// The format of a text.
#[derive(Clone, Copy)]
pub enum Format {
    /// RFC 3339.
    Stamp,
    /// RFC 3339 by a reference to the format, which has no direct path.
    StampByReference,
    /// RFC 2822.
    Mail,
    /// ISO 8601.
    Iso,
    /// A description of version 2.
    Described(&'static [u8]),
}

/// The value that a text is parsed for.
#[derive(Clone, Copy)]
pub enum Part {
    Date,
    Time,
    Offset,
    /// A date and a time without an offset.
    Plain,
    /// A date and a time in UTC.
    Utc,
    /// A date and a time with an offset.
    Moment,
}

/// Year, month and day, then hour, minute, second and nanosecond, then the offset's hours, minutes and seconds.
pub type Numbers = ((i32, Month, u8), (u8, u8, u8, u32), (i8, i8, i8));

/// The date in the row of a part without one.
pub const NO_DATE: (i32, Month, u8) = (0, Month::January, 1);

/// The time in the row of a part without one.
pub const NO_TIME: (u8, u8, u8, u32) = (0, 0, 0, 0);

/// The offset in the row of a part without one.
pub const NO_OFFSET: (i8, i8, i8) = (0, 0, 0);

/// The numbers of a moment.
pub fn numbers(moment: OffsetDateTime) -> Numbers {
    (
        moment.to_calendar_date(),
        moment.to_hms_nano(),
        moment.offset().as_hms(),
    )
}

/// The moment of these numbers, or the error of a number that is out of its range.
pub fn moment((date, time, offset): Numbers) -> Result<OffsetDateTime, ComponentRange> {
    let date = Date::from_calendar_date(date.0, date.1, date.2)?;
    let time = Time::from_hms_nano(time.0, time.1, time.2, time.3)?;
    let offset = UtcOffset::from_hms(offset.0, offset.1, offset.2)?;
    Ok(OffsetDateTime::new_in_offset(date, time, offset))
}

/// The parsed description, of version 2 and of at most 80 steps; `None` if it is invalid.
pub fn described(text: &[u8]) -> Option<Description<80>> {
    parse_borrowed::<2, 80>(text).ok()
}

/// The numbers of a part of the text over the defaults, or the error. The rest of the numbers are those of `NO_DATE`,
/// `NO_TIME` and `NO_OFFSET`.
pub fn parse_part_by<F: Parsable>(
    format: &F,
    part: Part,
    text: &[u8],
    defaults: Option<Parsed>,
) -> Result<Numbers, Parse> {
    match part {
        Part::Date => {
            let date = format.parse_date(text, defaults)?;
            Ok((date.to_calendar_date(), NO_TIME, NO_OFFSET))
        }
        Part::Time => {
            let time = format.parse_time(text, defaults)?;
            Ok((NO_DATE, time.as_hms_nano(), NO_OFFSET))
        }
        Part::Offset => {
            let offset = format.parse_offset(text, defaults)?;
            Ok((NO_DATE, NO_TIME, offset.as_hms()))
        }
        Part::Plain => {
            let plain = format.parse_plain_date_time(text, defaults)?;
            Ok(numbers(plain.assume_utc()))
        }
        Part::Utc => {
            let utc = format.parse_utc_date_time(text, defaults)?;
            Ok((utc.to_calendar_date(), utc.as_hms_nano(), NO_OFFSET))
        }
        Part::Moment => Ok(numbers(format.parse_offset_date_time(text, defaults)?)),
    }
}

// The numbers of a part of the text by a description of version 2, over the defaults, or the error. It is `DESCRIPTION`
// if the description is invalid.
fn parse_part_as_described(
    description: &[u8],
    part: Part,
    text: &[u8],
    defaults: Option<Parsed>,
) -> Result<Numbers, Parse> {
    match described(description) {
        Some(description) => parse_part_by(&description, part, text, defaults),
        None => Err(DESCRIPTION),
    }
}

/// The numbers of a part of the text by one of the formats, over the defaults, or the error.
pub fn parse_part(
    format: Format,
    part: Part,
    text: &[u8],
    defaults: Option<Parsed>,
) -> Result<Numbers, Parse> {
    match format {
        Format::Stamp => parse_part_by(&Rfc3339, part, text, defaults),
        Format::StampByReference => parse_part_by(&&Rfc3339, part, text, defaults),
        Format::Mail => parse_part_by(&Rfc2822, part, text, defaults),
        Format::Iso => parse_part_by(&Iso8601, part, text, defaults),
        Format::Described(description) => parse_part_as_described(
            description,
            part,
            text,
            defaults,
        ),
    }
}

/// The items of a year by that component, a month and a day, with that literal before the day.
pub fn date_items(
    year: Component,
    hyphen: BorrowedFormatItem<'static>,
) -> [BorrowedFormatItem<'static>; 5] {
    let month = Component::MonthNumerical(modifier::MonthNumerical {
        padding: Padding::Zero,
    });
    let day = Component::Day(modifier::Day {
        padding: Padding::Zero,
    });
    [
        BorrowedFormatItem::Component(year),
        BorrowedFormatItem::Literal(b"-"),
        BorrowedFormatItem::Component(month),
        hyphen,
        BorrowedFormatItem::Component(day),
    ]
}
