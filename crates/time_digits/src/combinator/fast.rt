//! Fast paths for the commonest fractions of a second.
//!
//! Each parser returns what `grammar::fraction` returns, or `None` if the input has another number of digits.
ghost use Rattle.std.specs.Prelude.{IfSome};
ghost use Rattle.time_digits.specs.Digits.{Cut, IsFraction};

use crate::ParsedItem;
use crate::combinator::grammar::without_digits;
use crate::combinator::{any_digit, nine_digits, three_digits};

// Parses a fraction of a second of nine or more digits, or of exactly six or three, in nanoseconds. Digits after the
// ninth are read and ignored. Returns `None` for another number of digits.
#[inline(always)]
pub(super) fn fraction(input: &[u8]) -> Option<ParsedItem<'_, u32>>
    ensures { IfSome result (λ found. Cut IsFraction input.now found.0.now found.1) }
{
    // One length test covers all nine digits.
    if input.len() > 8 {
        if let Some(nine) = nine_digits(input) {
            return Some(ParsedItem(without_digits(nine.0), nine.1));
        }
    }
    fraction_by_threes(input)
}

// Parses a fraction of a second of exactly six or three digits, in nanoseconds. Returns `None` for another number of
// digits.
#[inline(always)]
fn fraction_by_threes(input: &[u8]) -> Option<ParsedItem<'_, u32>>
    ensures { IfSome result (λ found. Cut IsFraction input.now found.0.now found.1) }
{
    let first = three_digits(input)?;
    let Some(second) = three_digits(first.0) else {
        return match any_digit(first.0) {
            Some(_) => None,
            None => Some(ParsedItem(first.0, 1_000_000 * first.1)),
        };
    };
    match any_digit(second.0) {
        Some(_) => None,
        None => Some(ParsedItem(second.0, 1_000_000 * first.1 + 1_000 * second.1)),
    }
}
