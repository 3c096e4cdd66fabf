//! Descriptions that C passes as text.
ghost use Rattle.std.specs.Prelude.{◌≡◌, Ok, Err, IfOk, IfErr};
ghost use Rattle.time_descriptions.specs.Description.{shape};
ghost use Rattle.time_descriptions.specs.Refusal.{refusal_of};
ghost use Rattle.pelzaune_ffi.specs.Described as Described;
ghost use Rattle.pelzaune_ffi.specs.Described.{Checks, IsDescribed};

use crate::status::{TOO_LONG, UNKNOWN_SYNTAX};
use time_descriptions::{Description, InvalidFormatDescription, parse_borrowed, parse_strftime};

/// The most steps of a description that a call from C accepts: a byte of a literal, a component or the start of a group
/// is a step. A description in brackets of at most this many bytes fits.
pub const MOST_STEPS: usize = 64;

/// A syntax of descriptions: in brackets, version 1 or 2, or that of strftime.
#[derive(Clone, Copy)]
pub enum Syntax {
    /// In brackets, version 1, in which `[[` is a literal bracket.
    One,
    /// In brackets, version 2, in which `\[` is a literal bracket.
    Two,
    /// With a `%` before each conversion, as in strftime.
    Strftime,
}

/// The syntax with this number: 1 is `One`, 2 is `Two` and 3 is `Strftime`. `None`: any other number.
pub fn syntax_of(number: u32) -> Option<Syntax>
    ensures { result ≡ Described.syntax_of number }
{
    match number {
        1 => Some(Syntax::One),
        2 => Some(Syntax::Two),
        3 => Some(Syntax::Strftime),
        _ => None,
    }
}

/// Parses the text of a description in a syntax, or returns the error of its first fault. The error is `TooLong` if
/// more than [`MOST_STEPS`] steps start before that fault or the end.
pub fn read_description(
    syntax: Syntax,
    text: &[u8],
) -> Result<Description<MOST_STEPS>, InvalidFormatDescription<'_>>
    ensures ok { IfOk result (λ d. IsDescribed syntax text.now (Ok (shape d))) }
    ensures err { IfErr result (λ e. IsDescribed syntax text.now (Err (refusal_of e))) }
{
    match syntax {
        Syntax::One => parse_borrowed::<1, MOST_STEPS>(text),
        Syntax::Two => parse_borrowed::<2, MOST_STEPS>(text),
        Syntax::Strftime => parse_strftime::<MOST_STEPS>(text),
    }
}

/// The status of a malformed description: 9 to 16, by the kind of its error.
#[cold]
pub fn fault_status(error: InvalidFormatDescription<'_>) -> u32
    ensures { result ≡ Described.fault_status (refusal_of error.entry) }
{
    match error {
        InvalidFormatDescription::UnclosedOpeningBracket { .. } => 9,
        InvalidFormatDescription::InvalidComponentName { .. } => 10,
        InvalidFormatDescription::InvalidModifier { .. } => 11,
        InvalidFormatDescription::MissingComponentName { .. } => 12,
        InvalidFormatDescription::MissingRequiredModifier { .. } => 13,
        InvalidFormatDescription::Expected { .. } => 14,
        InvalidFormatDescription::NotSupported { .. } => 15,
        InvalidFormatDescription::TooLong => TOO_LONG,
    }
}

/// Checks a description in the syntax with this number. Returns 0; or the status of its first fault, and stores that
/// fault's byte index in `index`. With the status 0, [`TOO_LONG`], or [`UNKNOWN_SYNTAX`] for an unknown syntax, `index`
/// is unchanged.
pub fn check(syntax: u32, description: &[u8], index: &mut usize) -> u32
    ensures { Checks (Described.syntax_of syntax) description.now result index.old index.new }
{
    match syntax_of(syntax) {
        Some(syntax) => match read_description(syntax, description) {
            Ok(_description) => 0,
            Err(error) => {
                *index = error.index().unwrap_or(*index);
                fault_status(error)
            }
        },
        None => UNKNOWN_SYNTAX,
    }
}
