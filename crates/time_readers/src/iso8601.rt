//! The texts of ISO 8601: their pieces, and the date, the time and the offset of a text.
//!
//! A text is extended, with separators, as `2021-01-02T03:04:05+06:07`, or basic, without, as `20210102T030405+0607`.
//! [`ExtendedKind`] is its kind, as far as that is known. The parser of a date determines the kind. The parsers of a
//! time and of an offset are passed the kind before the part, and return the kind after it.
//!
//! `grammar` parses any text, piece by piece. `fast` is tried first, and parses the commonest dates and times many
//! bytes at once. Where it returns `None`, `grammar` decides: without `fast` the results are equal, and take more
//! steps.
ghost use Rattle.std.specs.Prelude.{◌≡◌, true, false, MatchOption};
ghost use Rattle.time_readers.specs.IsoPieces.{ReturnsPart, ReturnsPartOrFault};
ghost use Rattle.time_readers.specs.IsoDates.{iso_date, date_text};
ghost use Rattle.time_readers.specs.IsoTimes.{ReturnsDateAndTime, not_basic, is_extended, basic_where_unknown, extended_where_unknown, time_text};

pub mod fast;
mod grammar;

pub use grammar::pieces::{day, dayk, dayo, float, hour, min, month, week, year};
pub use grammar::{floor_fraction, offset, round_fraction};
use std::num::NonZero;
use time_values::error::ParseFromDescription;
use time_values::{Month, Weekday};

/// Whether an ISO 8601 text is extended (with `-` and `:` between its numbers), basic (without), or not known yet.
#[derive(Clone, Copy, Debug, PartialEq, Eq)]
pub enum ExtendedKind {
    /// It is basic, without separators.
    Basic,
    /// It is extended, with separators.
    Extended,
    /// The kind isn't known yet.
    Unknown,
}

impl ExtendedKind {
    /// Whether the kind is extended or unknown.
    #[inline]
    pub fn maybe_extended(self) -> bool
        ensures { result ≡ not_basic self }
    {
        matches!(self, ExtendedKind::Extended | ExtendedKind::Unknown)
    }

    /// Whether the kind is extended.
    #[inline]
    pub fn is_extended(self) -> bool
        ensures { result ≡ is_extended self }
    {
        matches!(self, ExtendedKind::Extended)
    }

    /// Makes an unknown kind basic. Returns `None` if the kind is extended, which is then unchanged, and else `Some`.
    #[inline]
    pub fn coerce_basic(&mut self) -> Option<()>
        ensures kind { self.new ≡ basic_where_unknown self.old }
        ensures answer { MatchOption result
            (is_extended self.old ≡ true)
            (λ _. is_extended self.old ≡ false) }
    {
        match self {
            ExtendedKind::Basic => Some(()),
            ExtendedKind::Extended => None,
            ExtendedKind::Unknown => {
                *self = ExtendedKind::Basic;
                Some(())
            }
        }
    }

    /// Makes an unknown kind extended. Returns `None` if the kind is basic, which is then unchanged, and else `Some`.
    #[inline]
    pub fn coerce_extended(&mut self) -> Option<()>
        ensures kind { self.new ≡ extended_where_unknown self.old }
        ensures answer { MatchOption result
            (not_basic self.old ≡ false)
            (λ _. not_basic self.old ≡ true) }
    {
        match self {
            ExtendedKind::Basic => None,
            ExtendedKind::Extended => Some(()),
            ExtendedKind::Unknown => {
                *self = ExtendedKind::Extended;
                Some(())
            }
        }
    }
}

/// A parsed date, time or offset of ISO 8601: the unparsed rest, the value, and the text's [`ExtendedKind`] after it.
#[derive(Clone, Copy, Debug)]
pub struct Part<'a, V> {
    /// The unparsed rest.
    pub rest: &'a [u8],
    /// The value of the part.
    pub value: V,
    /// The kind after the part.
    pub kind: ExtendedKind,
}

/// The numbers of an ISO 8601 date: by month and day, by the day of the year, or by week and weekday.
///
/// They are those of the text, and the calendar may not have that date: a year is -999999 to 999999, a day of the month
/// or a week 1 to 99, and a day of the year 1 to 999.
#[derive(Clone, Copy, Debug)]
pub enum DateNumbers {
    /// A year, a month and a day.
    Calendar(i32, Month, NonZero<u8>),
    /// A year and a day of the year.
    Ordinal(i32, NonZero<u16>),
    /// An ISO year, a week of that year and a weekday.
    Week(i32, NonZero<u8>, Weekday),
}

/// The numbers of an ISO 8601 time. One that is missing in the text is 0 if no fraction of a larger unit determines it.
#[derive(Clone, Copy, Debug)]
pub struct TimeNumbers {
    /// The hour, 0 to 23.
    pub hour: u8,
    /// The minute, 0 to 59.
    pub minute: u8,
    /// The second, 0 to 60, where 60 is a leap second.
    pub second: u8,
    /// The fraction of the second, in nanoseconds, 0 to 999999999.
    pub subsecond: u32,
}

/// The date of an ISO 8601 text, and the time after it, if a `T` and a valid time follow. An offset isn't included.
#[derive(Clone, Copy, Debug)]
pub struct DateAndTime<'a> {
    /// The date, with all bytes after it as the rest.
    pub date: Part<'a, DateNumbers>,
    /// The time after the date, or `None` if no `T` with a valid time follows the date.
    pub time: Option<Part<'a, TimeNumbers>>,
}

/// The numbers of an ISO 8601 offset: `Z`, or an hour and a minute, both with the offset's sign.
#[derive(Clone, Copy, Debug)]
pub enum OffsetNumbers {
    /// `Z`, for UTC.
    Zulu,
    /// The hour, -25 to 25, and the minute, -59 to 59, both with the offset's sign. A missing minute is 0.
    Numeric(i8, i8),
}

/// Parses the date of a text, which determines the kind of the text.
///
/// A date begins with a year: four digits, or a sign and six digits. If `-` follows the year, the text is extended, and
/// else it is basic. After that the first of these forms that matches is parsed: two digits of a month, 01 to 12, and
/// two of a day, not `00`, with `-` between them in an extended text; three digits of a day of the year, not `000`; or
/// `W`, two digits of a week, not `00`, and one of a weekday, 1 to 7, with `-` between them in an extended text.
///
/// # Errors
///
/// An invalid component `year`, `month`, `day`, `week` or `weekday`, or an invalid literal if `-` is missing. If no
/// form matches after the year, the error is the third form's if its `W` is there, and else the first form's.
#[inline(always)]
pub fn date(input: &[u8]) -> Result<Part<'_, DateNumbers>, ParseFromDescription>
    ensures { ReturnsPartOrFault iso_date (date_text input.now) result }
{
    match fast::date(input) {
        Some(found) => Ok(found),
        None => grammar::date(input),
    }
}

/// Parses the time of a text of that kind.
///
/// A time is `T`, which is optional unless `needs_t`, and an hour, a minute and a second of two digits each: 0 to 23, 0
/// to 59 and 0 to 60. The second is optional, and without it also the minute. The last of these numbers may have a
/// fraction: `.` or `,` and one or more digits. A fraction of an hour or a minute determines the smaller units,
/// truncated to whole nanoseconds. A fraction of a second is rounded half up to nanoseconds.
///
/// A basic text has no `:`. An extended text needs `:` before the second, while `:` before the minute is optional. A
/// `:` after the hour makes an unknown kind extended, and a minute without `:` makes it basic.
///
/// All bytes after the time are the rest. A number counts as missing if a `.` or `,` without a digit follows it.
///
/// Returns `None` if a required `T` or the hour is missing; for a `:` after a whole hour if the text is basic or no
/// minute follows; for a `:` after an extended text's whole minute if no second follows; for a number out of its range;
/// and for a fraction of a second that rounds to 1.
#[inline(always)]
pub fn time<'a>(input: &'a [u8], kind: ExtendedKind, needs_t: bool) -> Option<Part<'a, TimeNumbers>>
    ensures { ReturnsPart (time_text needs_t kind input.now) result }
{
    match fast::time(input, kind) {
        Some(found) => Some(found),
        None => grammar::times::time(input, kind, needs_t),
    }
}

/// Parses the date of a text, and then `T` and a time if they follow.
///
/// The date, or its error, is that of [`date`]. The time, or `None`, is that of [`time`] for the rest and the kind
/// after the date, with its `T` required.
#[inline(always)]
pub fn date_and_time(input: &[u8]) -> Result<DateAndTime<'_>, ParseFromDescription>
    ensures { ReturnsDateAndTime input.now result }
{
    // Each of the two fast results is returned at once. Joined into one result first, they would cost the parse of a
    // moment some fifty instructions more.
    if let Some(found) = fast::extended_date_and_time(input) {
        return Ok(found);
    }
    match fast::basic_date_and_time(input) {
        Some(found) => Ok(found),
        None => grammar::date_and_time(input),
    }
}
