//! The numbers of statuses and of formats.
ghost use Rattle.std.specs.Prelude.{◌≡◌};
ghost use Rattle.time_values.specs.Refusal.{refusal_of, refusal_of_description, refusal_of_range};
ghost use Rattle.pelzaune_ffi.specs.Status as Status;
ghost use Rattle.pelzaune_ffi.specs.Results as Formats;
ghost use Rattle.pelzaune_ffi.specs.Status.{HaveErrorTexts};

use time_values::error::{ComponentRange, Parse, ParseFromDescription, TryFromParsed};

/// The status of an instant whose nanoseconds from 1970-01-01T00:00:00Z don't fit an `i64`.
pub const TOO_WIDE: u32 = 7;

/// The status of a call with a number that no format has.
pub const UNKNOWN_FORMAT: u32 = 8;

/// The status of a description with more than 64 steps.
pub const TOO_LONG: u32 = 16;

/// The status of a call with a number that no syntax has.
pub const UNKNOWN_SYNTAX: u32 = 17;

/// The status of a moment whose text by a description has more than 1024 bytes.
pub const TEXT_TOO_LONG: u32 = 19;

// The number of a component's name, 1 to 23, or 0 for any other name.
fn component_number(name: &str) -> u32
    ensures { result ≡ Status.component_number name.now }
{
    match name {
        "year" => 1,
        "month" => 2,
        "day" => 3,
        "ordinal" => 4,
        "weekday" => 5,
        "week" => 6,
        "week number" => 7,
        "hour" => 8,
        "minute" => 9,
        "second" => 10,
        "nanosecond" => 11,
        "subsecond" => 12,
        "period" => 13,
        "offset hour" => 14,
        "offset minute" => 15,
        "offset second" => 16,
        "hours" => 17,
        "minutes" => 18,
        "seconds" => 19,
        "timestamp" => 20,
        "unix_timestamp" => 21,
        "separator" => 22,
        "ignore" => 23,
        _ => 0,
    }
}

/// The status of a text that doesn't match: 1 for a literal, 3 for trailing bytes, or 2 plus 256 times its number for a
/// component, where the number of an unknown name is 0.
pub fn status_of_description(error: ParseFromDescription) -> u32
    ensures { result ≡ Status.status_of (refusal_of_description error) }
{
    match error {
        ParseFromDescription::InvalidLiteral => 1,
        ParseFromDescription::InvalidComponent(name) => 2 + 256 * component_number(name),
        ParseFromDescription::UnexpectedTrailingCharacters => 3,
    }
}

/// The status of a component that is out of range: 256 times its number, plus 6 if its range depends on other
/// components, else plus 5. The number of an unknown name is 0.
pub fn status_of_range(error: ComponentRange) -> u32
    ensures { result ≡ Status.status_of (refusal_of_range error) }
{
    let component = 256 * component_number(error.name);
    if error.conditional {
        6 + component
    } else {
        5 + component
    }
}

/// The status of any error of a parse: that of [`status_of_description`] or [`status_of_range`], or 4 if the text has
/// too few components for the value.
#[cold]
#[inline(never)]
pub fn status_of(error: Parse) -> u32
    ensures { result ≡ Status.status_of (refusal_of error) }
{
    match error {
        Parse::ParseFromDescription(error) => status_of_description(error),
        Parse::TryFromParsed(TryFromParsed::InsufficientInformation) => 4,
        Parse::TryFromParsed(TryFromParsed::ComponentRange(error)) => status_of_range(error),
    }
}

/// A format that has a number: RFC 3339, RFC 2822, ISO 8601, or RFC 3339 with only `T`, `t` or a space as separator.
#[derive(Clone, Copy)]
pub enum Format {
    /// RFC 3339, section 5.6, with any byte between the date and the time.
    Rfc3339,
    /// Mail dates, RFC 2822, section 3.3.
    Rfc2822,
    /// ISO 8601.
    Iso8601,
    /// RFC 3339 with only `T`, `t` or a space between the date and the time.
    Rfc3339Strict,
}

/// The format with this number: 1 is `Rfc3339`, 2 is `Rfc2822`, 3 is `Iso8601` and 4 is `Rfc3339Strict`. `None`: any
/// other number.
#[inline]
pub fn format_of(number: u32) -> Option<Format>
    ensures { result ≡ Formats.format_of number }
{
    match number {
        1 => Some(Format::Rfc3339),
        2 => Some(Format::Rfc2822),
        3 => Some(Format::Iso8601),
        4 => Some(Format::Rfc3339Strict),
        _ => None,
    }
}

/// The text of a parse error's status is the error's text, if the error names no component, or one that has a number.
pub fn law_status_texts()
    ensures { HaveErrorTexts }
{}
