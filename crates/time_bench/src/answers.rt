//! The types of value that a text is parsed for, and what one adds to a sum.

use time_parsing::Parsable;
use time_record::Parsed;
use time_values::error::Parse;
use time_values::{Date, OffsetDateTime, PlainDateTime, Time, Timestamp, UtcDateTime, UtcOffset};

/// A type of value that a text is parsed for, and the number that such a value adds to the sum over many parses.
pub trait Answer: Copy {
    /// Parses a whole text for such a value, without defaults (for `Staged` with an empty record as defaults).
    fn parse<F: Parsable>(format: &F, text: &[u8]) -> Result<Self, Parse>;

    /// What the value adds to a sum: the sum of its parts (year, month, day, hour, minute, second, nanosecond, and the
    /// signed hours, minutes and seconds of an offset), or for a timestamp its nanoseconds `% 1_000_000_007`: at most 0
    /// before 1970.
    fn weight(self) -> i64;
}

impl Answer for Date {
    fn parse<F: Parsable>(format: &F, text: &[u8]) -> Result<Date, Parse> {
        format.parse_date(text, None)
    }

    #[inline]
    fn weight(self) -> i64 {
        i64::from(self.year()) + i64::from(self.month().number()) + i64::from(self.day())
    }
}

impl Answer for Time {
    fn parse<F: Parsable>(format: &F, text: &[u8]) -> Result<Time, Parse> {
        format.parse_time(text, None)
    }

    #[inline]
    fn weight(self) -> i64 {
        i64::from(self.hour())
            + i64::from(self.minute())
            + i64::from(self.second())
            + i64::from(self.nanosecond())
    }
}

impl Answer for UtcOffset {
    fn parse<F: Parsable>(format: &F, text: &[u8]) -> Result<UtcOffset, Parse> {
        format.parse_offset(text, None)
    }

    #[inline]
    fn weight(self) -> i64 {
        let (hours, minutes, seconds) = self.as_hms();
        i64::from(hours)
            .wrapping_add(i64::from(minutes))
            .wrapping_add(i64::from(seconds))
    }
}

impl Answer for PlainDateTime {
    fn parse<F: Parsable>(format: &F, text: &[u8]) -> Result<PlainDateTime, Parse> {
        format.parse_plain_date_time(text, None)
    }

    #[inline]
    fn weight(self) -> i64 {
        self.date().weight().wrapping_add(self.time().weight())
    }
}

impl Answer for UtcDateTime {
    fn parse<F: Parsable>(format: &F, text: &[u8]) -> Result<UtcDateTime, Parse> {
        format.parse_utc_date_time(text, None)
    }

    #[inline]
    fn weight(self) -> i64 {
        self.date().weight().wrapping_add(self.time().weight())
    }
}

impl Answer for OffsetDateTime {
    fn parse<F: Parsable>(format: &F, text: &[u8]) -> Result<OffsetDateTime, Parse> {
        format.parse_offset_date_time(text, None)
    }

    #[inline]
    fn weight(self) -> i64 {
        self.date()
            .weight()
            .wrapping_add(self.time().weight())
            .wrapping_add(self.offset().weight())
    }
}

impl Answer for Timestamp {
    fn parse<F: Parsable>(format: &F, text: &[u8]) -> Result<Timestamp, Parse> {
        format.parse_timestamp(text, None)
    }

    #[inline]
    fn weight(self) -> i64 {
        (self.nanoseconds() % 1_000_000_007) as i64
    }
}

/// A date, time and offset, always parsed over a record: with an empty one as defaults, instead of without defaults.
#[derive(Clone, Copy)]
pub struct Staged(OffsetDateTime);

impl Answer for Staged {
    fn parse<F: Parsable>(format: &F, text: &[u8]) -> Result<Staged, Parse> {
        match format.parse_offset_date_time(text, Some(Parsed::new())) {
            Ok(moment) => Ok(Staged(moment)),
            Err(e) => Err(e),
        }
    }

    #[inline]
    fn weight(self) -> i64 {
        self.0.weight()
    }
}
