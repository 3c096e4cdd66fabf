//! Parsers of signs, digits and single bytes.
//!
//! Each parser returns the unread rest and the value if its input begins with a text that it accepts, and `None`
//! otherwise. Digits are ASCII. A run of digits is as long as its greatest length allows, and no parser backtracks.
ghost use Rattle.std.specs.Prelude.{◌≤◌};
ghost use Rattle.time_digits.specs.Digits.{Finds, IsDigitRun, IsDigitRunUpTo, IsPaddedRunUpTo, IsFraction, IsByte, IsByteIgnoringCase, IsDigitByte, IsSign};

mod fast;
mod grammar;
mod words;

use crate::{Integer, Padding, ParsedItem, Sign};
pub use grammar::leading_digits;
use grammar::{digit_run, leading_spaces};
pub use words::nine_digits;

/// Parses a sign, `-` or `+`. Returns `None` if the input begins with neither.
#[inline]
pub fn sign(input: &[u8]) -> Option<ParsedItem<'_, Sign>>
    ensures { Finds IsSign (λ v. v) input.now result }
{
    match input {
        [b'-', rest @ ..] => Some(ParsedItem(rest, Sign::Negative)),
        [b'+', rest @ ..] => Some(ParsedItem(rest, Sign::Positive)),
        _ => None,
    }
}

/// Parses all leading ASCII digits up to `M`, as their decimal value. Returns `None` if the input begins with fewer
/// than `N` digits, or if the value exceeds the greatest number of `T`.
#[inline]
pub fn n_to_m_digits<const N: u8, const M: u8, T: Integer>(
    input: &[u8],
) -> Option<ParsedItem<'_, T>>
    requires least { 1 ≤ N }
    requires ordered { N ≤ M }
    requires most { M ≤ T.MAX_NUM_DIGITS }
    ensures { Finds (IsDigitRunUpTo T.greatest N M) T.value input.now result }
{
    digit_run(input, usize::from(N), usize::from(M))
}

/// Parses one ASCII digit, or two if a second one follows, as their decimal value, 0 to 99. Returns `None` if the input
/// doesn't begin with a digit.
#[inline(always)]
pub fn one_or_two_digits(input: &[u8]) -> Option<ParsedItem<'_, u8>>
    ensures { Finds (IsDigitRun 1 2) (λ v. v) input.now result }
{
    match input {
        [a @ b'0'..=b'9', b @ b'0'..=b'9', rest @ ..] => {
            Some(ParsedItem(rest, 10 * (*a - b'0') + (*b - b'0')))
        }
        [a @ b'0'..=b'9', rest @ ..] => Some(ParsedItem(rest, *a - b'0')),
        _ => None,
    }
}

/// Parses the first two ASCII digits, as their decimal value, 0 to 99. Returns `None` if the input begins with fewer. A
/// third digit is left in the rest.
#[inline(always)]
pub fn two_digits(input: &[u8]) -> Option<ParsedItem<'_, u8>>
    ensures { Finds (IsDigitRun 2 2) (λ v. v) input.now result }
{
    match input {
        [a @ b'0'..=b'9', b @ b'0'..=b'9', rest @ ..] => {
            Some(ParsedItem(rest, 10 * (*a - b'0') + (*b - b'0')))
        }
        _ => None,
    }
}

// Parses the first three ASCII digits, as their decimal value. Returns `None` if the input begins with fewer.
#[inline(always)]
fn three_digits(input: &[u8]) -> Option<ParsedItem<'_, u32>>
    ensures { Finds (IsDigitRun 3 3) (λ v. v) input.now result }
{
    match input {
        [a @ b'0'..=b'9', b @ b'0'..=b'9', c @ b'0'..=b'9', rest @ ..] => {
            let low = u32::from(10 * (*b - b'0') + (*c - b'0'));
            Some(ParsedItem(rest, 100 * u32::from(*a - b'0') + low))
        }
        _ => None,
    }
}

/// Parses the first `N` ASCII digits, as their decimal value. `N` is 1 to 9. Returns `None` if the input begins with
/// fewer. Later digits are left in the rest.
#[inline(always)]
pub fn exactly_n_digits<const N: u8>(input: &[u8]) -> Option<ParsedItem<'_, u32>>
    requires least { 1 ≤ N }
    requires most { N ≤ 9 }
    ensures { Finds (IsDigitRun N N) (λ v. v) input.now result }
{
    match N {
        2 => match two_digits(input) {
            Some(found) => Some(ParsedItem(found.0, u32::from(found.1))),
            None => None,
        },
        3 => three_digits(input),
        4..=8 => words::digits::<N>(input),
        9 => nine_digits(input),
        _ => grammar::exact_run(input, N),
    }
}

/// Parses a number of width `N` with the given padding, as its decimal value.
///
/// With [`Padding::None`], it reads all leading ASCII digits up to `N`, at least 1; with [`Padding::Zero`], exactly `N`
/// digits; with [`Padding::Space`], all leading spaces up to `N - 1`, and then digits, exactly `N` bytes in all.
/// Returns `None` if the input has too few digits there, or if the value exceeds the greatest number of `T`.
#[inline]
pub fn exactly_n_digits_padded<const N: u8, T: Integer>(
    input: &[u8],
    padding: Padding,
) -> Option<ParsedItem<'_, T>>
    requires least { 1 ≤ N }
    requires most { N ≤ T.MAX_NUM_DIGITS }
    ensures { Finds (IsPaddedRunUpTo T.greatest padding N N) T.value input.now result }
{
    n_to_m_digits_padded::<N, N, T>(input, padding)
}

/// Parses a number of width `N` to `M` with the given padding, as its decimal value.
///
/// With [`Padding::None`], it reads all leading ASCII digits up to `M`, at least 1; with [`Padding::Zero`], at least
/// `N`; with [`Padding::Space`], all leading spaces up to `N - 1`, and then all digits, at least `N` and at most `M`
/// bytes in all. Returns `None` if the input has too few digits there, or if the value exceeds the greatest number of
/// `T`.
#[inline]
pub fn n_to_m_digits_padded<const N: u8, const M: u8, T: Integer>(
    input: &[u8],
    padding: Padding,
) -> Option<ParsedItem<'_, T>>
    requires least { 1 ≤ N }
    requires ordered { N ≤ M }
    requires most { M ≤ T.MAX_NUM_DIGITS }
    ensures { Finds (IsPaddedRunUpTo T.greatest padding N M) T.value input.now result }
{
    let least = usize::from(N);
    let most = usize::from(M);
    match padding {
        Padding::None => digit_run(input, 1, most),
        Padding::Space => {
            let spaces = leading_spaces(input, least - 1);
            digit_run(&input[spaces..], least - spaces, most - spaces)
        }
        Padding::Zero => digit_run(input, least, most),
    }
}

/// Parses one ASCII digit, and returns its byte, `b'0'` to `b'9'`, or `None` if the input doesn't begin with a digit.
#[inline]
pub fn any_digit(input: &[u8]) -> Option<ParsedItem<'_, u8>>
    ensures { Finds IsDigitByte (λ v. v) input.now result }
{
    match input {
        [digit @ b'0'..=b'9', rest @ ..] => Some(ParsedItem(rest, *digit)),
        _ => None,
    }
}

/// Parses the byte `C`. Returns `None` if the input doesn't begin with it.
#[inline]
pub fn ascii_char<const C: u8>(input: &[u8]) -> Option<ParsedItem<'_, ()>>
    ensures { Finds (IsByte C) (λ v. v) input.now result }
{
    match input {
        [first, rest @ ..] if *first == C => Some(ParsedItem(rest, ())),
        _ => None,
    }
}

/// Parses the byte `C`, in either case if it is an ASCII letter. Returns `None` if the input doesn't begin with it.
#[inline]
pub fn ascii_char_ignore_case<const C: u8>(input: &[u8]) -> Option<ParsedItem<'_, ()>>
    ensures { Finds (IsByteIgnoringCase C) (λ v. v) input.now result }
{
    match input {
        [first, rest @ ..] if first.eq_ignore_ascii_case(&C) => Some(ParsedItem(rest, ())),
        _ => None,
    }
}

/// Parses all leading ASCII digits as those after the decimal point of a second, and returns nanoseconds, 0 to
/// 999999999. Digits after the ninth are read and ignored. Returns `None` if the input doesn't begin with a digit.
#[inline(always)]
pub fn fraction(input: &[u8]) -> Option<ParsedItem<'_, u32>>
    ensures { Finds IsFraction (λ v. v) input.now result }
{
    match fast::fraction(input) {
        Some(found) => Some(found),
        None => grammar::fraction(input),
    }
}
