//! Finds formats by their names, and by descriptions.
ghost use Rattle.std.specs.Prelude.{◌≡◌};
ghost use Rattle.restamp_formats.specs.Common.{MatchResult, shape, version_of, Describes, DescribesStrftime};
ghost use Rattle.restamp_formats.specs.Naming as spec;

use crate::form::{Named, Unit, Writing};
use crate::reading::{MOST_STEPS, Reading};
use std::fmt;
use time_descriptions::{Description, InvalidFormatDescription, parse_borrowed, parse_strftime};
use time_preparing::Prepared;

/// Why a text names no format: it is neither a name nor a description, or its description is invalid or too long.
#[derive(Clone, Copy, Debug)]
pub enum FormatFault<'a> {
    /// The text is none of the names, and has neither a `[` nor a `%`.
    Unknown,
    /// The description is invalid, or has more than [`MOST_STEPS`] steps.
    Description(InvalidFormatDescription<'a>),
}

impl fmt::Display for FormatFault<'_> {
    ghost output = { λ fault. spec.fault_text (spec.fault_of fault) };

    fn fmt<W: fmt::Write>(&self, f: &mut fmt::Formatter<W>) -> fmt::Result {
        match self {
            FormatFault::Unknown => {
                write!(
                    f,
                    "no format has this name, and a description has a `[` or a `%`"
                )
            }
            FormatFault::Description(error) => write!(f, "{error}"),
        }
    }
}

// How a text names an input format.
#[derive(Clone, Copy)]
enum FormatName<'a> {
    Rfc3339,
    Rfc2822,
    Iso8601,
    // The name `unix`: this description in brackets, whose texts are numbers of seconds.
    Counted(&'a [u8]),
    // The name `common`: this description in brackets, whose texts are parsed without defaults.
    Complete(&'a [u8]),
    // This description in brackets: the text itself, or that of `unix-ms`, `unix-us`, `unix-ns` or `syslog`.
    Brackets(&'a [u8]),
    // The text itself, a description as in strftime.
    Strftime(&'a [u8]),
    // Neither a name nor a description.
    Unknown,
}

// The kind of a description: `Brackets` if the text has a `[`, otherwise `Strftime` if it has a `%`, otherwise
// `Unknown`. The description may still be invalid.
fn description_name(name: &[u8]) -> FormatName<'_>
    ensures { spec.erased_format_name result ≡ spec.description_name name.now }
{
    if name.contains(&b'[') {
        FormatName::Brackets(name)
    } else if name.contains(&b'%') {
        FormatName::Strftime(name)
    } else {
        FormatName::Unknown
    }
}

// The value beside the name that equals the bytes, or the last value if none does.
macro_rules! value_named {
    ($bytes:expr, $($name:literal => $value:expr,)+ _ => $otherwise:expr) => {
        $(if $bytes == $name.as_slice() { $value } else)+ { $otherwise }
    };
}

// How the text names an input format: by one of nine names, by a description, which may be invalid, or not at all.
fn find_format_name(name: &[u8]) -> FormatName<'_>
    ensures { spec.erased_format_name result ≡ spec.format_name_of name.now }
{
    value_named!(
        name,
        b"rfc3339" => FormatName::Rfc3339,
        b"rfc2822" => FormatName::Rfc2822,
        b"iso8601" => FormatName::Iso8601,
        b"unix" => FormatName::Counted(b"[unix_timestamp][optional [.[subsecond]]]"),
        b"unix-ms" => FormatName::Brackets(b"[unix_timestamp precision:millisecond]"),
        b"unix-us" => FormatName::Brackets(b"[unix_timestamp precision:microsecond]"),
        b"unix-ns" => FormatName::Brackets(b"[unix_timestamp precision:nanosecond]"),
        b"common" => FormatName::Complete(
            b"[day]/[month repr:short]/[year]:[hour]:[minute]:[second] [offset_hour sign:mandatory][offset_minute]",
        ),
        b"syslog" => FormatName::Brackets(
            b"[month repr:short] [day padding:space] [hour]:[minute]:[second]",
        ),
        _ => description_name(name)
    )
}

// Parses a description in brackets, of version 2. An invalid one, or one of more than `MOST_STEPS` steps, is an error.
fn bracketed(text: &[u8]) -> Result<Description<MOST_STEPS>, FormatFault<'_>>
    ensures { MatchResult result (λ description. Describes (version_of 2) text.now (shape description))
        (λ fault. spec.IsFault (spec.brackets text.now) (spec.fault_of fault)) }
{
    parse_borrowed::<2, MOST_STEPS>(text).map_err(FormatFault::Description)
}

// Parses a description as in strftime. An invalid one, or one of more than `MOST_STEPS` steps, is an error.
fn lettered(text: &[u8]) -> Result<Description<MOST_STEPS>, FormatFault<'_>>
    ensures { MatchResult result (λ description. DescribesStrftime text.now (shape description))
        (λ fault. spec.IsFault (spec.strftime text.now) (spec.fault_of fault)) }
{
    parse_strftime::<MOST_STEPS>(text).map_err(FormatFault::Description)
}

/// The input format of that name: `rfc3339`, `rfc2822`, `iso8601`, `common`, `syslog`, `unix`, `unix-ms`, `unix-us` or
/// `unix-ns`; or that of a description: in brackets (version 2) if it has a `[`, otherwise as in strftime if it has a
/// `%`. The error is `Description` if that is invalid or has over 256 steps, `Unknown` for any other text.
pub fn find_reading(name: &[u8]) -> Result<Reading, FormatFault<'_>>
    ensures { MatchResult result
        (λ reading. spec.Means (spec.format_name_of name.now) (spec.meaning_of reading))
        (λ fault. spec.IsFault (spec.format_name_of name.now) (spec.fault_of fault)) }
{
    match find_format_name(name) {
        FormatName::Rfc3339 => Ok(Reading::Rfc3339),
        FormatName::Rfc2822 => Ok(Reading::Rfc2822),
        FormatName::Iso8601 => Ok(Reading::Iso8601),
        FormatName::Counted(text) => Ok(Reading::Counted(Prepared::new(&bracketed(text)?))),
        FormatName::Complete(text) => Ok(Reading::Complete(Prepared::new(&bracketed(text)?))),
        FormatName::Brackets(text) => Ok(Reading::Described(Prepared::new(&bracketed(text)?))),
        FormatName::Strftime(text) => Ok(Reading::Described(Prepared::new(&lettered(text)?))),
        FormatName::Unknown => Err(FormatFault::Unknown),
    }
}

// The output format `rfc3339`, `rfc2822`, `iso8601`, `unix`, `unix-ms`, `unix-us` or `unix-ns`; `None` for other names.
fn find_named(name: &[u8]) -> Option<Named>
    ensures { result ≡ spec.writing_named name.now }
{
    value_named!(
        name,
        b"rfc3339" => Some(Named::Rfc3339),
        b"rfc2822" => Some(Named::Rfc2822),
        b"iso8601" => Some(Named::Iso8601),
        b"unix" => Some(Named::Count(Unit::Seconds)),
        b"unix-ms" => Some(Named::Count(Unit::Milliseconds)),
        b"unix-us" => Some(Named::Count(Unit::Microseconds)),
        b"unix-ns" => Some(Named::Count(Unit::Nanoseconds)),
        _ => None
    )
}

// Parses a description: in brackets if it has a `[`, otherwise as in strftime if it has a `%`. An error if it has
// neither, is invalid, or has more than `MOST_STEPS` steps.
fn find_description(text: &[u8]) -> Result<Description<MOST_STEPS>, FormatFault<'_>>
    ensures { MatchResult result (λ description. spec.Means (spec.description_name text.now) (spec.as_tree (shape description)))
        (λ fault. spec.IsFault (spec.description_name text.now) (spec.fault_of fault)) }
{
    match description_name(text) {
        FormatName::Brackets(text) => bracketed(text),
        FormatName::Strftime(text) => lettered(text),
        _ => Err(FormatFault::Unknown),
    }
}

/// The output format of that name: `rfc3339`, `rfc2822`, `iso8601`, `unix`, `unix-ms`, `unix-us` or `unix-ns`; or that
/// of a description: in brackets (version 2) if it has a `[`, otherwise as in strftime if it has a `%`. The error is
/// `Description` if that is invalid or has over 256 steps, `Unknown` for any other text.
pub fn find_writing(name: &[u8]) -> Result<Writing, FormatFault<'_>>
    ensures { MatchResult result (λ writing. spec.MeansWriting name.now writing)
        (λ fault. spec.IsWritingFault name.now (spec.fault_of fault)) }
{
    match find_named(name) {
        Some(named) => Ok(Writing::Named(named)),
        None => Ok(Writing::Described(find_description(name)?)),
    }
}
