//! Parsers of digits, signs and single bytes.
//!
//! A parser takes bytes and returns a [`ParsedItem`]: the unread bytes, and a value.
#![tactic(auto)]

ghost use Rattle.std.specs.Prelude.{◌≡◌};
ghost use Rattle.time_digits.specs.Digits.{is_negative};

pub mod combinator;
pub mod laws;
mod shim;

pub use shim::Integer;

/// The result of a parser: the unread rest of its input, and the value.
#[derive(Clone, Copy, Debug)]
pub struct ParsedItem<'a, T>(pub &'a [u8], pub T);

/// What fills a number of too few digits up to its width, in front of the digits: spaces, zeros or nothing.
#[derive(Clone, Copy, Debug, Default, PartialEq, Eq)]
pub enum Padding {
    /// ASCII spaces before the digits.
    Space,
    /// Zeros before the digits.
    #[default]
    Zero,
    /// Nothing before the digits.
    None,
}

/// The sign of a number.
#[derive(Clone, Copy, Debug)]
pub enum Sign {
    /// `-`.
    Negative,
    /// `+`.
    Positive,
}

impl Sign {
    /// Whether the sign is `-`.
    #[inline]
    pub fn is_negative(self) -> bool
        ensures { result ≡ is_negative self }
    {
        matches!(self, Sign::Negative)
    }
}
