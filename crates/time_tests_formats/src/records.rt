//! The components that texts store in records.
use crate::errors::{DAY, DESCRIPTION, LITERAL, OFFSET_MINUTE, YEAR};
use crate::formats::{Format, described};
use std::num::NonZero;
use time_parsing::{Iso8601, Parsable, Rfc2822, Rfc3339};
use time_record::Parsed;
use time_tests_records::fields::{full_record, negative_hour};
use time_tests_records::same::same_record;
use time_values::Month::{self, January, July, March};
use time_values::Weekday;
use time_values::error::Parse;

/// The year, the month, the day, and the ordinal, with 0 for none.
type DateCells = (Option<i32>, Option<Month>, u8, u16);

/// The ISO year, the week, with 0 for none, and the weekday.
type WeekCells = (Option<i32>, u8, Option<Weekday>);

/// The hour, the minute, the second and the nanosecond.
pub type TimeCells = (Option<u8>, Option<u8>, Option<u8>, Option<u32>);

/// The hour and the minute of the offset, each with its sign.
pub type OffsetCells = (Option<i8>, Option<i8>);

/// The cells of a record.
pub type Cells = (DateCells, WeekCells, TimeCells, OffsetCells);

// A date without components.
const NO_DATE: DateCells = (None, None, 0, 0);

// A week without components.
const NO_WEEK: WeekCells = (None, 0, None);

/// A time without components.
pub const NO_TIME: TimeCells = (None, None, None, None);

/// An offset without components.
pub const NO_OFFSET: OffsetCells = (None, None);

// The number, or 0 without one.
fn number(cell: Option<NonZero<u8>>) -> u8 {
    match cell {
        Some(number) => number.get(),
        None => 0,
    }
}

// The date of the record.
fn date_cells(record: &Parsed) -> DateCells {
    let ordinal = match record.ordinal() {
        Some(ordinal) => ordinal.get(),
        None => 0,
    };
    (record.year(), record.month(), number(record.day()), ordinal)
}

// The ISO year, the week and the weekday of the record.
fn week_cells(record: &Parsed) -> WeekCells {
    (
        record.iso_year(),
        number(record.iso_week_number()),
        record.weekday(),
    )
}

// The time of the record.
fn time_cells(record: &Parsed) -> TimeCells {
    (
        record.hour_24(),
        record.minute(),
        record.second(),
        record.subsecond(),
    )
}

/// Parses the start of the text into the record. Returns the unread rest or the error, and the cells of the record
/// after the parse.
pub fn parse_cells_by<'a, F: Parsable>(
    format: &F,
    text: &'a [u8],
    record: &mut Parsed,
) -> (Result<&'a [u8], Parse>, Cells) {
    let left = format.parse_into(text, record);
    let offset = (record.offset_hour(), record.offset_minute_signed());
    let cells = (
        date_cells(record),
        week_cells(record),
        time_cells(record),
        offset,
    );
    (left, cells)
}

// Parses the start of the text by one of the formats into the record. Returns the unread rest or the error, and the
// cells of the record after the parse.
fn parse_cells<'a>(
    format: Format,
    text: &'a [u8],
    record: &mut Parsed,
) -> (Result<&'a [u8], Parse>, Cells) {
    match format {
        Format::Stamp => parse_cells_by(&Rfc3339, text, record),
        Format::Mail => parse_cells_by(&Rfc2822, text, record),
        Format::Iso => parse_cells_by(&Iso8601, text, record),
        Format::Described(description) => match described(description) {
            Some(description) => parse_cells_by(&description, text, record),
            None => (Err(DESCRIPTION), NOTHING),
        },
        _ => (Err(DESCRIPTION), NOTHING),
    }
}

// The cells of an empty record.
const NOTHING: Cells = (NO_DATE, NO_WEEK, NO_TIME, NO_OFFSET);

// The month alone.
const MARCH: DateCells = (None, Some(March), 0, 0);

const SECOND_OF_JANUARY: DateCells = (Some(2021), Some(January), 2, 0);

// The weekday alone.
const MONDAY: WeekCells = (None, 0, Some(Weekday::Monday));

const CLOCK: Format = Format::Described(b"[hour]:[minute][optional [:[second]]]");

const OFFSET: Format = Format::Described(b"[offset_hour]:[offset_minute]");

const YEAR_OR_MONTH: Format = Format::Described(b"[first [[year]] [[month]]]");

// The cells after the mail date `Mon, 02 Jan 2021 03:04 GMT`.
const MAILED: Cells = (
    SECOND_OF_JANUARY,
    MONDAY,
    (Some(3), Some(4), None, None),
    (Some(0), Some(0)),
);

/// A format, the month that a record starts with, the text that is parsed into it before (empty: none), the text, its
/// rest or its error, and the cells after it.
type Row = (
    Format,
    Option<Month>,
    &'static [u8],
    &'static [u8],
    Result<&'static [u8], Parse>,
    Cells,
);

static RECORDS: [Row; 17] = [
    // Of two forms the first that matches counts.
    (
        Format::Iso,
        None,
        b"",
        b"20210102",
        Ok(b""),
        (SECOND_OF_JANUARY, NO_WEEK, NO_TIME, NO_OFFSET),
    ),
    (
        Format::Iso,
        None,
        b"",
        b"2021-010-",
        Ok(b"-"),
        ((Some(2021), None, 0, 10), NO_WEEK, NO_TIME, NO_OFFSET),
    ),
    (
        Format::Iso,
        None,
        b"",
        b"-000044-03-15",
        Ok(b""),
        ((Some(-44), Some(March), 15, 0), NO_WEEK, NO_TIME, NO_OFFSET),
    ),
    (
        Format::Iso,
        None,
        b"",
        b"+009999W017",
        Ok(b""),
        (
            NO_DATE,
            (Some(9999), 1, Some(Weekday::Sunday)),
            NO_TIME,
            NO_OFFSET,
        ),
    ),
    // A rejected text, and a part that can't be parsed, leave the record unchanged.
    (
        Format::Iso,
        Some(March),
        b"",
        b"9999-12-32",
        Err(DAY),
        (MARCH, NO_WEEK, NO_TIME, NO_OFFSET),
    ),
    (
        Format::Iso,
        Some(March),
        b"9999-12-32",
        b"2021-01-02T03:04:61+26",
        Ok(b"T03:04:61+26"),
        (SECOND_OF_JANUARY, NO_WEEK, NO_TIME, NO_OFFSET),
    ),
    // No offset is parsed after a date alone.
    (
        Format::Iso,
        None,
        b"",
        b"2021-01-02+05",
        Ok(b"+05"),
        (SECOND_OF_JANUARY, NO_WEEK, NO_TIME, NO_OFFSET),
    ),
    (
        Format::Iso,
        None,
        b"2021-01-02+05",
        b"2021-01-02T03+05",
        Ok(b""),
        (
            SECOND_OF_JANUARY,
            NO_WEEK,
            (Some(3), Some(0), Some(0), Some(0)),
            (Some(5), Some(0)),
        ),
    ),
    // A date that doesn't parse stores nothing.
    (
        Format::Iso,
        None,
        b"",
        b"1234-05:30",
        Ok(b":30"),
        (
            NO_DATE,
            NO_WEEK,
            (Some(12), Some(34), Some(0), Some(0)),
            (Some(-5), Some(0)),
        ),
    ),
    (
        Format::Mail,
        None,
        b"",
        b"Mon, 02 Jan 2021 03:04 GMT",
        Ok(b""),
        MAILED,
    ),
    (
        Format::Mail,
        None,
        b"Mon, 02 Jan 2021 03:04 GMT",
        b"1 Jun 2021 03:04 +0060",
        Err(OFFSET_MINUTE),
        MAILED,
    ),
    (
        Format::Stamp,
        Some(March),
        b"",
        b"2021-05x",
        Err(LITERAL),
        (MARCH, NO_WEEK, NO_TIME, NO_OFFSET),
    ),
    // A second out of range leaves the whole part unread and not stored.
    (
        CLOCK,
        None,
        b"",
        b"03:04:61",
        Ok(b":61"),
        (NO_DATE, NO_WEEK, (Some(3), Some(4), None, None), NO_OFFSET),
    ),
    // The minus of a rejected offset isn't stored.
    (OFFSET, None, b"", b"-05:x", Err(OFFSET_MINUTE), NOTHING),
    (
        YEAR_OR_MONTH,
        None,
        b"",
        b"2021",
        Ok(b""),
        ((Some(2021), None, 0, 0), NO_WEEK, NO_TIME, NO_OFFSET),
    ),
    (
        YEAR_OR_MONTH,
        None,
        b"",
        b"07",
        Ok(b""),
        ((None, Some(July), 0, 0), NO_WEEK, NO_TIME, NO_OFFSET),
    ),
    // The error is that of the first list.
    (
        YEAR_OR_MONTH,
        None,
        b"07",
        b"x",
        Err(YEAR),
        ((None, Some(July), 0, 0), NO_WEEK, NO_TIME, NO_OFFSET),
    ),
];

// The record before the row's text is parsed into it.
fn record_before(row: &Row) -> Option<Parsed> {
    let (format, month, before, _, _, _) = *row;
    let mut record = Parsed::new();
    if let Some(month) = month {
        record.set_month(month)?;
    }
    // The empty text is rejected, and leaves the record unchanged.
    let _ = parse_cells(format, before, &mut record);
    Some(record)
}

// Whether the text is rejected, and leaves the record unchanged.
fn is_kept(format: Format, text: &[u8], before: Parsed) -> bool {
    let mut record = before;
    parse_cells(format, text, &mut record).0.is_err() && same_record(&record, &before)
}

// Whether the text is rejected, and leaves two records unchanged. Both have the flag of a negative offset, but no
// timestamp, and allow no leap second: one has all other numbers, and one the hour of the offset alone.
fn are_kept(format: Format, text: &[u8]) -> bool {
    match (full_record(), negative_hour()) {
        (Some(full), Some(hour)) => is_kept(format, text, full) && is_kept(format, text, hour),
        _ => false,
    }
}

// Whether the row's text stores these cells, or is rejected and stores nothing.
fn is_stored(row: &Row) -> bool {
    let (format, _, _, text, left, cells) = *row;
    let Some(before) = record_before(row) else {
        return false;
    };
    let mut record = before;
    let is_right = parse_cells(format, text, &mut record) == (left, cells);
    is_right && (left.is_ok() || (same_record(&record, &before) && are_kept(format, text)))
}

#[test]
fn records(rt: HostRuntime) {
    for row in &RECORDS {
        assert!(rt; is_stored(row), "{:?}", row.3);
    }
}
