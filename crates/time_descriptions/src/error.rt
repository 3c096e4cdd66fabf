//! The errors of texts that aren't descriptions.
ghost use Rattle.std.specs.Prelude.{◌≡◌, ◌-◌, ◌≤◌, ◌++◌, length, take, drop, codes, Some};
ghost use Rattle.std.specs.Fmt.{DisplaysOnOk, decimal};
ghost use Rattle.time_descriptions.specs.Refusal as refusal;
ghost use Rattle.time_descriptions.specs.Refusal.{refusal_at, refusal_of, refusal_text};

use crate::names::{after, front};
use std::fmt;

/// Why a text isn't parsed as a description. All errors but `TooLong` have a byte index in the text, counted from 0; it
/// equals the text's length if the error is at the text's end.
#[derive(Clone, Copy, Debug, PartialEq, Eq)]
pub enum InvalidFormatDescription<'a> {
    /// An opening bracket is never closed, or something else is found instead of its closing bracket.
    UnclosedOpeningBracket {
        /// The index of the bracket; for a list inside `optional` or `first`, that of the bracket before this word.
        index: usize,
    },
    /// No component has the name; or in strftime's syntax, the letter of a conversion is unknown or missing.
    InvalidComponentName {
        /// The name, or the letter, which is empty if it is missing.
        name: &'a [u8],
        /// The index of the name or the letter; the text's length if the letter is missing.
        index: usize,
    },
    /// A modifier has no colon, an unknown key or an invalid value; or in strftime's syntax, a letter can't have its
    /// flag.
    InvalidModifier {
        /// The modifier without a colon, the unknown key, the invalid value or the flag.
        value: &'a [u8],
        /// The index of these bytes.
        index: usize,
    },
    /// No name follows an opening bracket.
    MissingComponentName {
        /// The index of the bracket; if white space follows it, the index of this white space.
        index: usize,
    },
    /// A modifier that the component requires is missing: the `count` of `ignore`.
    MissingRequiredModifier {
        /// The name of the modifier.
        name: &'static str,
        /// The index of the component's name.
        index: usize,
    },
    /// Something else is expected here: an escaped byte, white space or a list after `optional` or `first`, or a
    /// modifier or a closing bracket.
    Expected {
        /// What is expected here, in English.
        what: &'static str,
        /// The index where it is expected.
        index: usize,
    },
    /// A list is in more than seven others; or in strftime's syntax, the letter of a conversion is `E`, `O` or `Z`.
    NotSupported {
        /// What isn't supported, in English.
        what: &'static str,
        /// The kind of description that doesn't support it, in English: `a description` or `a strftime description`.
        context: &'static str,
        /// The index of the bracket before the list's `optional` or `first`, or of the conversion's `%`.
        index: usize,
    },
    /// The text, up to its first fault or its end, starts more steps than there is room for.
    TooLong,
}

impl InvalidFormatDescription<'_> {
    /// The byte index of the first fault in the text, or `None` for [`TooLong`](Self::TooLong).
    pub fn index(self) -> Option<usize>
        ensures { result ≡ refusal.index_of (refusal_of self.entry) }
    {
        match self {
            Self::UnclosedOpeningBracket { index }
            | Self::InvalidComponentName { index, .. }
            | Self::InvalidModifier { index, .. }
            | Self::MissingComponentName { index }
            | Self::MissingRequiredModifier { index, .. }
            | Self::Expected { index, .. }
            | Self::NotSupported { index, .. } => Some(index),
            Self::TooLong => None,
        }
    }
}

// Writes an error, ` at byte index `, and the index.
fn write_at<W: fmt::Write>(f: &mut fmt::Formatter<W>, what: &str, index: usize) -> fmt::Result
    ensures { DisplaysOnOk W.write_str_gives f.old result (Some (what.now ++ (codes " at byte index " ++ decimal index))) f.new }
{
    write!(f, "{what} at byte index {index}")
}

// Writes what kind of word is invalid, the word with bytes escaped as in Rust's byte strings, and its index.
fn write_invalid<W: fmt::Write>(
    f: &mut fmt::Formatter<W>,
    what: &str,
    word: &[u8],
    index: usize,
) -> fmt::Result {
    write!(
        f,
        "invalid {what} `{}` at byte index {index}",
        word.escape_ascii()
    )
}

// Writes that a component's required modifier is missing, with the modifier's name and the component name's index.
fn write_missing<W: fmt::Write>(f: &mut fmt::Formatter<W>, name: &str, index: usize) -> fmt::Result
    ensures { DisplaysOnOk W.write_str_gives f.old result (refusal_text (refusal.missing_modifier name.now index)) f.new }
{
    write!(
        f,
        "missing required modifier `{name}` for component at byte index {index}"
    )
}

// Writes that `what` isn't supported in `context`, such as `a strftime description`, and the index.
fn write_not_supported<W: fmt::Write>(
    f: &mut fmt::Formatter<W>,
    what: &str,
    context: &str,
    index: usize,
) -> fmt::Result
    ensures { DisplaysOnOk W.write_str_gives f.old result (refusal_text (refusal.not_supported what.now context.now index)) f.new }
{
    write!(
        f,
        "{what} is not supported in {context} at byte index {index}"
    )
}

impl fmt::Display for InvalidFormatDescription<'_> {
    ghost output = { λ e. refusal_text (refusal_of e) };

    fn fmt<W: fmt::Write>(&self, f: &mut fmt::Formatter<W>) -> fmt::Result {
        match *self {
            Self::UnclosedOpeningBracket { index } => {
                write_at(f, "unclosed opening bracket", index)
            }
            Self::InvalidComponentName { name, index } => {
                write_invalid(f, "component name", name, index)
            }
            Self::InvalidModifier { value, index } => write_invalid(f, "modifier", value, index),
            Self::MissingComponentName { index } => write_at(f, "missing component name", index),
            Self::MissingRequiredModifier { name, index } => write_missing(f, name, index),
            Self::Expected { what, index } => write!(f, "expected {what} at byte index {index}"),
            Self::NotSupported {
                what,
                context,
                index,
            } => write_not_supported(f, what, context, index),
            Self::TooLong => write!(f, "the description is too long"),
        }
    }
}

impl std::error::Error for InvalidFormatDescription<'_> {}

// The index from which `left` bytes of the text remain, or 0 if the text has fewer bytes.
fn index_of(text: &[u8], left: usize) -> usize
    ensures value { result ≡ length text.now - left }
    ensures within { result ≤ length text.now }
{
    text.len().saturating_sub(left)
}

// The bytes from the index on, `len` of them or all that remain. The index must not exceed the text's length.
fn word_at(text: &[u8], index: usize, len: usize) -> &[u8]
    requires { index ≤ length text.now }
    ensures { result.now ≡ take len (drop index text.now) }
{
    let tail = after(text, index);
    if len < tail.len() {
        front(tail, len)
    } else {
        tail
    }
}

// The words that name what is expected.
fn expectation_text(what: Expectation) -> &'static str
    ensures { result.now ≡ refusal.expectation_text what }
{
    match what {
        Expectation::EscapedByte => "an escaped `[`, `]` or `\\`",
        Expectation::SpaceAfterOptional => "whitespace after `optional`",
        Expectation::SpaceAfterFirst => "whitespace after `first`",
        Expectation::OpeningBracket => "an opening bracket",
        Expectation::Modifier => "a modifier or a closing bracket",
    }
}

// The words that name what isn't supported.
fn unsupported_text(what: Unsupported) -> &'static str
    ensures { result.now ≡ refusal.unsupported_text what }
{
    match what {
        Unsupported::DeepList => "a list in more than seven others",
        Unsupported::Conversion => "this conversion",
    }
}

// The words for the kind of description that doesn't support `what`: `a description` or `a strftime description`.
fn context_text(what: Unsupported) -> &'static str
    ensures { result.now ≡ refusal.context_text what }
{
    match what {
        Unsupported::DeepList => "a description",
        Unsupported::Conversion => "a strftime description",
    }
}

impl<'a> InvalidFormatDescription<'a> {
    // The error of a fault in the text: its index replaces the number of bytes left. For `NoRoom` it is `TooLong`.
    pub(crate) fn at(text: &'a [u8], fault: Fault) -> InvalidFormatDescription<'a>
        ensures { refusal_of result ≡ refusal_at text.now fault }
    {
        match fault {
            Fault::UnclosedOpeningBracket { left } => {
                InvalidFormatDescription::UnclosedOpeningBracket {
                    index: index_of(text, left),
                }
            }
            Fault::InvalidComponentName { left, len } => {
                let index = index_of(text, left);
                InvalidFormatDescription::InvalidComponentName {
                    name: word_at(text, index, len),
                    index,
                }
            }
            Fault::InvalidModifier { left, len } => {
                let index = index_of(text, left);
                InvalidFormatDescription::InvalidModifier {
                    value: word_at(text, index, len),
                    index,
                }
            }
            Fault::MissingComponentName { left } => InvalidFormatDescription::MissingComponentName {
                index: index_of(text, left),
            },
            Fault::MissingCount { left } => InvalidFormatDescription::MissingRequiredModifier {
                name: "count",
                index: index_of(text, left),
            },
            Fault::Expected { what, left } => InvalidFormatDescription::Expected {
                what: expectation_text(what),
                index: index_of(text, left),
            },
            Fault::NotSupported { what, left } => InvalidFormatDescription::NotSupported {
                what: unsupported_text(what),
                context: context_text(what),
                index: index_of(text, left),
            },
            Fault::NoRoom => InvalidFormatDescription::TooLong,
        }
    }
}

/// What is expected where the text has something else, or ends: an escaped byte, white space, a bracket or a modifier.
#[derive(Clone, Copy)]
pub enum Expectation {
    /// A bracket or a backslash after a backslash, in version 2.
    EscapedByte,
    /// White space after `optional`.
    SpaceAfterOptional,
    /// White space after `first`.
    SpaceAfterFirst,
    /// The opening bracket of a list, after `optional` or `first` and white space.
    OpeningBracket,
    /// A modifier or the closing bracket of a component, instead of an opening bracket.
    Modifier,
}

/// What isn't supported, although its syntax is known: a list nested too deep, or strftime's `%E`, `%O` or `%Z`.
#[derive(Clone, Copy)]
pub enum Unsupported {
    /// A list in more than seven others.
    DeepList,
    /// A conversion of strftime with the letter `E`, `O` or `Z`.
    Conversion,
}

/// The fault that parsing meets first, with `left`, the number of bytes from its place to the end of the whole text,
/// which gives its index; or `NoRoom` for too many steps. A parser that sees only the remaining text knows `left`.
#[derive(Clone, Copy)]
pub enum Fault {
    /// An opening bracket is never closed, or something else is found instead of its closing bracket.
    UnclosedOpeningBracket {
        /// Bytes from the bracket to the end of the text; for a list of a group, from the group's bracket.
        left: usize,
    },
    /// No component has the name; or in strftime's syntax, the letter is unknown or missing.
    InvalidComponentName {
        /// Bytes from the name or the letter to the end of the text, 0 if the letter is missing.
        left: usize,
        /// The length of the name or the letter in bytes, 0 if the letter is missing.
        len: usize,
    },
    /// A modifier has no colon, an unknown key or an invalid value; or in strftime's syntax, a letter can't have its
    /// flag.
    InvalidModifier {
        /// Bytes from the modifier without a colon, the key, the value or the flag to the end of the text.
        left: usize,
        /// The length of this modifier, key, value or flag in bytes.
        len: usize,
    },
    /// No name follows an opening bracket.
    MissingComponentName {
        /// Bytes from the bracket or, if white space follows it, from this white space to the end of the text.
        left: usize,
    },
    /// `ignore` without its `count`.
    MissingCount {
        /// Bytes from the component's name to the end of the text.
        left: usize,
    },
    /// Something else is expected here.
    Expected {
        /// What is expected.
        what: Expectation,
        /// Bytes from where it is expected to the end of the text.
        left: usize,
    },
    /// This is not supported.
    NotSupported {
        /// What isn't supported.
        what: Unsupported,
        /// Bytes from the opening bracket of the list's group, or from the conversion's `%`, to the end of the text.
        left: usize,
    },
    /// There is no room for one more step.
    NoRoom,
}
