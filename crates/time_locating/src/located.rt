//! The place at which a text is rejected.
ghost use Rattle.std.specs.Prelude.{◌≡◌, ◌≤◌, ◌++◌, ℕ, List, Some, length};
ghost use Rattle.std.specs.Option.{option_copied};
ghost use Rattle.time_locating.specs.Located.{end_of, erased_located, expected_text};

use std::fmt;

/// What was expected at the place of an error: bytes of a literal, a component, or the end of the text.
#[derive(Clone, Copy, Debug, PartialEq, Eq)]
pub enum Expected<'a> {
    /// These bytes: the rest of a literal, from its first byte that doesn't match. For a literal of a `Description` or
    /// `Prepared`, which store each byte by itself, it is that byte alone. For missing blanks in RFC 2822 it is one
    /// space.
    Literal(&'a [u8]),
    /// The component with this name, as errors name it: for example `day`.
    Component(&'static str),
    /// The end of the text.
    End,
}

/// Prints `expected`, and then the bytes in single quotes, the component's name, or `the end`. The bytes are escaped as
/// by `escape_ascii`: for example as `\x00`.
impl fmt::Display for Expected<'_> {
    ghost output = { expected_text };

    fn fmt<W: fmt::Write>(&self, f: &mut fmt::Formatter<W>) -> fmt::Result {
        match self {
            Expected::Literal(bytes) => write!(f, "expected '{}'", bytes.escape_ascii()),
            Expected::Component(name) => write!(f, "expected {name}"),
            Expected::End => write!(f, "expected the end"),
        }
    }
}

/// The place of the error in a rejected text: its byte index, and what was expected there.
#[derive(Clone, Copy, Debug, PartialEq, Eq)]
pub struct Located<'a> {
    /// The byte index at which `expected` was expected: the start of a component, the first byte of a literal that
    /// doesn't match, or for [`Expected::End`] the first byte too many. It is the text's length if the text ends there.
    pub index: usize,
    /// What was expected at `index`.
    pub expected: Expected<'a>,
}

/// The error of an input whose unread end is `rest`: the end was expected where `rest` begins. `None` if `rest` is
/// empty.
pub(crate) fn after_all<'a>(rest: &[u8], input: &[u8]) -> Option<Located<'a>>
    requires { length rest.now ≤ length input.now }
    ensures { erased_located result ≡ end_of (length input.now) rest.now }
{
    if rest.is_empty() {
        return None;
    }
    Some(Located {
        index: input.len() - rest.len(),
        expected: Expected::End,
    })
}

/// The rest after `count` bytes, or `None` if the input is shorter.
pub(crate) fn past_bytes(input: &[u8], count: usize) -> Option<&[u8]>
    ensures { (text rest : List ℕ) → input.now ≡ text ++ rest → length text ≡ count → option_copied result ≡ Some rest }
{
    input.get(count..)
}
