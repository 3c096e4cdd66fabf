//! The errors of the tables.
use time_values::error::{ComponentRange, Parse, ParseFromDescription, TryFromParsed};

// The error of a component with that name that can't be parsed.
macro_rules! invalid {
    ($name:literal) => {
        Parse::ParseFromDescription(ParseFromDescription::InvalidComponent($name))
    };
}

// The error of a component with that name that is out of its range. The range depends on other components if
// `conditional` is true.
macro_rules! out {
    ($name:literal, $conditional:literal) => {
        Parse::TryFromParsed(TryFromParsed::ComponentRange(ComponentRange {
            name: $name,
            conditional: $conditional,
        }))
    };
}

/// A literal is missing.
pub const LITERAL: Parse = Parse::ParseFromDescription(ParseFromDescription::InvalidLiteral);

/// Bytes remain after the value.
pub const TRAILING: Parse = Parse::ParseFromDescription(
    ParseFromDescription::UnexpectedTrailingCharacters,
);

/// The text has too few components for the value.
pub const MISSING: Parse = Parse::TryFromParsed(TryFromParsed::InsufficientInformation);

// The year can't be parsed.
pub const YEAR: Parse = invalid!("year");

// The month can't be parsed.
pub const MONTH: Parse = invalid!("month");

// The day can't be parsed.
pub const DAY: Parse = invalid!("day");

// The ordinal can't be parsed.
pub const ORDINAL: Parse = invalid!("ordinal");

// The week can't be parsed.
pub const WEEK: Parse = invalid!("week");

// The weekday can't be parsed.
pub const WEEKDAY: Parse = invalid!("weekday");

// The hour can't be parsed.
pub const HOUR: Parse = invalid!("hour");

// The minute can't be parsed.
pub const MINUTE: Parse = invalid!("minute");

// The second can't be parsed.
pub const SECOND: Parse = invalid!("second");

// The hour of the offset can't be parsed.
pub const OFFSET_HOUR: Parse = invalid!("offset hour");

// The minute of the offset can't be parsed.
pub const OFFSET_MINUTE: Parse = invalid!("offset minute");

// The description itself is invalid. No parse returns this error.
pub const DESCRIPTION: Parse = invalid!("description");

// The month is out of its range.
pub const NO_MONTH: Parse = out!("month", false);

// The day is out of the range of its month.
pub const NO_DAY: Parse = out!("day", true);

// The ordinal is out of the range of its year.
pub const NO_ORDINAL: Parse = out!("ordinal", true);

// The week is out of the range of its year.
pub const NO_WEEK: Parse = out!("week", true);

// The weekday is out of the range of its week: the date is after the last one.
pub const NO_WEEKDAY: Parse = out!("weekday", true);

// The hour is out of its range.
pub const NO_HOUR: Parse = out!("hour", false);

// The minute is out of its range.
pub const NO_MINUTE: Parse = out!("minute", false);

// The second is out of its range.
pub const NO_SECOND: Parse = out!("second", false);

// A second of 60 that isn't at the end of a month in UTC.
pub const NO_LEAP_SECOND: Parse = out!("second", true);

// The hours of an offset are out of their range.
pub const NO_HOURS: Parse = out!("hours", false);

// The minutes of an offset are out of their range.
pub const NO_MINUTES: Parse = out!("minutes", false);
