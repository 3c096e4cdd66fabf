//! Runs of digits and of spaces, parsed byte by byte.
ghost use Rattle.std.specs.Prelude.{◌≡◌, ◌-◌, ◌^◌, ◌<◌, ◌≤◌, ◌⊎◌, ℕ, List, ◌++◌, MatchOption, IsTrue, ◌↔◌, length, take, drop, replicate};
ghost use Rattle.time_digits.specs.Digits.{Finds, IsDigit, AllDigits, digits_value, NoDigitFirst, NoSpaceFirst, IsDigitRun, IsDigitRunUpTo, IsFraction};

use crate::combinator::n_to_m_digits;
use crate::{Integer, ParsedItem};

// The nanoseconds in one unit of the n-th decimal place after the point of a second, at index n: 10^(9 - n).
const NANOSECONDS_OF_PLACE: [u32; 10] = [
    1_000_000_000,
    100_000_000,
    10_000_000,
    1_000_000,
    100_000,
    10_000,
    1_000,
    100,
    10,
    1,
];

// Parses the first `n` digits, as their decimal value, or returns `None` if the input begins with fewer.
#[inline]
pub(super) fn exact_run(input: &[u8], n: u8) -> Option<ParsedItem<'_, u32>>
    requires { n ≤ 9 }
    ensures { Finds (IsDigitRun n n) (λ v. v) input.now result }
{
    digit_run(input, usize::from(n), usize::from(n))
}

// Parses all leading digits, at most `most`. Returns `None` if fewer than `least`, or if the value doesn't fit `T`.
#[inline]
pub(super) fn digit_run<T: Integer>(
    input: &[u8],
    least: usize,
    most: usize,
) -> Option<ParsedItem<'_, T>>
    requires { most ≤ T.MAX_NUM_DIGITS }
    ensures { Finds (IsDigitRunUpTo T.greatest least most) T.value input.now result }
{
    let count = leading_digits(input, most);
    if count < least {
        return None;
    }
    let value = value_of_digits(&input[..count])?;
    Some(ParsedItem(&input[count..], value))
}

/// The number of ASCII digits that the input begins with, or `most` if there are more.
#[inline]
pub fn leading_digits(input: &[u8], most: usize) -> usize
    ensures in_range { result ≤ length input.now }
    ensures within { result ≤ most }
    ensures digits { AllDigits (take result input.now) }
    ensures all { (result ≡ most) ⊎ NoDigitFirst (drop result input.now) }
{
    let mut count = 0;
    while count < most && count < input.len() && is_digit(input[count]) {
        count += 1;
    }
    count
}

#[inline]
fn is_digit(byte: u8) -> bool
    ensures { IsTrue result ↔ IsDigit byte }
{
    byte >= b'0' && byte <= b'9'
}

// The decimal value of the digits, or `None` if it doesn't fit `T`. The value moves at each digit, so `T` need not be
// `Copy`.
#[inline]
fn value_of_digits<T: Integer>(digits: &[u8]) -> Option<T>
    requires all { AllDigits digits.now }
    requires most { length digits.now ≤ T.MAX_NUM_DIGITS }
    ensures { MatchOption result
        (T.greatest < digits_value digits.now)
        (λ v. (T.value v ≡ digits_value digits.now) × (digits_value digits.now ≤ T.greatest)) }
{
    let mut value = T::ZERO;
    let mut count = 0;
    while count < digits.len() {
        let digit = digits[count] - b'0';
        count += 1;
        if count < usize::from(T::MAX_NUM_DIGITS) {
            value = value.push_digit(digit);
        } else {
            value = value.checked_push_digit(digit)?;
        }
    }
    Some(value)
}

// The number of spaces that the input begins with, or `most` if there are more.
#[inline]
pub(super) fn leading_spaces(input: &[u8], most: usize) -> usize
    ensures in_range { result ≤ length input.now }
    ensures within { result ≤ most }
    ensures spaces { input.now ≡ replicate result 32 ++ drop result input.now }
    ensures all { (result ≡ most) ⊎ NoSpaceFirst (drop result input.now) }
{
    let mut count = 0;
    while count < most && count < input.len() && input[count] == b' ' {
        count += 1;
    }
    count
}

// Parses all leading digits as the digits of a second after its decimal point, in nanoseconds. Digits after the ninth
// are read and ignored. Returns `None` if the input doesn't begin with a digit.
pub(super) fn fraction(input: &[u8]) -> Option<ParsedItem<'_, u32>>
    ensures { Finds IsFraction (λ v. v) input.now result }
{
    let Some(found) = n_to_m_digits::<1, 9, u32>(input) else {
        return None;
    };
    let count = input.len() - found.0.len();
    let nanoseconds = found.1 * nanoseconds_of_place(count);
    Some(ParsedItem(without_digits(found.0), nanoseconds))
}

// The input after all its leading ASCII digits.
#[inline(always)]
pub(super) fn without_digits(input: &[u8]) -> &[u8]
    ensures { (digits : List ℕ) × (input.now ≡ digits ++ result.now) × AllDigits digits × NoDigitFirst result.now }
{
    let mut rest = input;
    while let [b'0'..=b'9', tail @ ..] = rest {
        rest = tail;
    }
    rest
}

// The nanoseconds that a 1 represents as the last of that many digits after the point of a second: 10^(9 - digits).
#[inline]
fn nanoseconds_of_place(digits: usize) -> u32
    requires { digits ≤ 9 }
    ensures { result ≡ 10 ^ (9 - digits) }
{
    NANOSECONDS_OF_PLACE[digits]
}
