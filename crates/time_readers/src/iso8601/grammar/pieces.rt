//! The pieces of ISO 8601 texts. Each parses a fixed form, or returns `None`.
ghost use Rattle.std.specs.Prelude.{◌≡◌, ◌≤◌, ◌<◌, ◌^◌, ℕ, IfSome, List, Some};
ghost use Rattle.std.specs.Int.NonZero.{non_zero_u8_get, non_zero_u16_get};
ghost use Rattle.time_digits.specs.Digits.{Finds, AllDigits, IsDigitRun};
ghost use Rattle.time_readers.specs.IsoPieces.{Returns, ReturnsAs, number_of};
ghost use Rattle.time_readers.specs.IsoGrammar.{Leaves};
ghost use Rattle.time_readers.specs.IsoPieces as spec;

use crate::combinator::{self, ascii_char, exactly_n_digits, leading_digits};
use crate::{ParsedItem, Sign};
use std::num::NonZero;
use time_values::{Month, Weekday};

/// Parses a year, -999999 to 999999: `+` or `-` and six digits, or four digits. Later digits are left in the rest.
#[inline(always)]
#[tactic(auto, unfolding(crate::specs::IsoPieces::year))]
pub fn year(input: &[u8]) -> Option<ParsedItem<'_, i32>>
    ensures { Returns (spec.year input.now) result }
{
    match sign(input) {
        Some(found) => year_after_sign(found.0, found.1),
        None => {
            let number = exactly::<4>(input)?;
            Some(ParsedItem(number.0, with_sign(Sign::Positive, number.1)))
        }
    }
}

// Parses the six digits of a year after its sign. Not inlined, since few years have a sign, and callers that grow too
// large aren't inlined themselves.
#[inline(never)]
fn year_after_sign(input: &[u8], sign: Sign) -> Option<ParsedItem<'_, i32>>
    ensures { (bytes : List ℕ) → Returns (spec.year_after bytes (Some (input.now, sign))) result }
{
    let number = exactly::<6>(input)?;
    Some(ParsedItem(number.0, with_sign(sign, number.1)))
}

// The number, negated if the sign is negative.
#[inline]
fn with_sign(sign: Sign, number: u32) -> i32
    requires { number < 1_000_000 }
    ensures { result ≡ spec.with_sign sign number }
{
    let value = number as i32;
    match sign {
        Sign::Negative => -value,
        Sign::Positive => value,
    }
}

/// Parses a month: two digits from 01 to 12.
#[inline(always)]
#[tactic(auto, unfolding(crate::specs::IsoPieces::month))]
pub fn month(input: &[u8]) -> Option<ParsedItem<'_, Month>>
    ensures { Returns (spec.month input.now) result }
{
    let number = two_digits(input)?;
    match Month::from_number(NonZero::<u8>::new(number.1)?) {
        Ok(month) => Some(ParsedItem(number.0, month)),
        Err(_) => None,
    }
}

/// Parses a week of the year: two digits, 01 to 99.
#[inline(always)]
#[tactic(auto, unfolding(crate::specs::IsoPieces::positive))]
pub fn week(input: &[u8]) -> Option<ParsedItem<'_, NonZero<u8>>>
    ensures { ReturnsAs non_zero_u8_get (spec.positive 2 input.now) result }
{
    let number = two_digits(input)?;
    Some(ParsedItem(number.0, NonZero::<u8>::new(number.1)?))
}

/// Parses a day of the month: two digits, 01 to 99.
#[inline(always)]
pub fn day(input: &[u8]) -> Option<ParsedItem<'_, NonZero<u8>>>
    ensures { ReturnsAs non_zero_u8_get (spec.positive 2 input.now) result }
{
    week(input)
}

/// Parses a day of the week: one digit from 1 for Monday to 7 for Sunday.
#[inline(always)]
#[tactic(auto, unfolding(crate::specs::IsoPieces::weekday))]
pub fn dayk(input: &[u8]) -> Option<ParsedItem<'_, Weekday>>
    ensures { Returns (spec.weekday input.now) result }
{
    let number = one_digit(input)?;
    Some(ParsedItem(number.0, numbered_weekday(number.1)?))
}

// The weekday of a number, 1 for Monday to 7 for Sunday. `None` for any other number.
fn numbered_weekday(number: u8) -> Option<Weekday>
    ensures { result ≡ spec.numbered spec.weekdays number }
{
    match number {
        1 => Some(Weekday::Monday),
        2 => Some(Weekday::Tuesday),
        3 => Some(Weekday::Wednesday),
        4 => Some(Weekday::Thursday),
        5 => Some(Weekday::Friday),
        6 => Some(Weekday::Saturday),
        7 => Some(Weekday::Sunday),
        _ => None,
    }
}

/// Parses a day of the year: three digits, 001 to 999.
#[inline(always)]
#[tactic(auto, unfolding(crate::specs::IsoPieces::positive))]
pub fn dayo(input: &[u8]) -> Option<ParsedItem<'_, NonZero<u16>>>
    ensures { ReturnsAs non_zero_u16_get (spec.positive 3 input.now) result }
{
    let number = exactly::<3>(input)?;
    Some(ParsedItem(number.0, NonZero::<u16>::new(number.1 as u16)?))
}

/// Parses an hour: two digits of any value, 0 to 99.
#[inline(always)]
pub fn hour(input: &[u8]) -> Option<ParsedItem<'_, u8>>
    ensures { Returns (spec.digits 2 input.now) result }
{
    two_digits(input)
}

/// Parses a minute: two digits of any value, 0 to 99.
#[inline(always)]
pub fn min(input: &[u8]) -> Option<ParsedItem<'_, u8>>
    ensures { Returns (spec.digits 2 input.now) result }
{
    hour(input)
}

/// Parses two digits of any value, 0 to 99, and the digits of a fraction if `.` or `,` follows.
///
/// The value is the number of the two digits, and the fraction: `None` without `.` or `,`, and else all digits after
/// it, one or more, as ASCII bytes. Returns `None` if the input doesn't begin with two digits, or if no digit follows
/// `.` or `,`.
#[inline(always)]
pub fn float(input: &[u8]) -> Option<ParsedItem<'_, (u8, Option<&[u8]>)>>
    ensures is { ReturnsAs (λ n. number_of n.0 n.1) (spec.number input.now) result }
    ensures digits { IfSome result (λ p. IfSome p.1.1 (λ d. AllDigits d.now)) }
{
    let whole = two_digits(input)?;
    let Some(after) = point(whole.0) else {
        return Some(ParsedItem(whole.0, (whole.1, None)));
    };
    let count = leading_digits(after, after.len());
    if count == 0 {
        return None;
    }
    let digits = &after[..count];
    Some(ParsedItem(&after[count..], (whole.1, Some(digits))))
}

// Parses the byte `C`, and returns the rest. `None` for any other input.
#[inline(always)]
pub(in crate::iso8601) fn byte<const C: u8>(input: &[u8]) -> Option<&[u8]>
    ensures { Leaves (spec.byte C input.now) result }
{
    match ascii_char::<C>(input) {
        Some(found) => Some(found.0),
        None => None,
    }
}

// Parses `.` or `,`, and returns the rest. `None` for any other input.
#[inline(always)]
#[tactic(auto, unfolding(crate::specs::IsoPieces::point))]
pub(in crate::iso8601) fn point(input: &[u8]) -> Option<&[u8]>
    ensures { Leaves (spec.point input.now) result }
{
    match byte::<b'.'>(input) {
        Some(after) => Some(after),
        None => byte::<b','>(input),
    }
}

// Parses `+` or `-`, as a sign. `None` for any other input.
#[inline(always)]
pub(super) fn sign(input: &[u8]) -> Option<ParsedItem<'_, Sign>>
    ensures { Returns (spec.sign input.now) result }
{
    combinator::sign(input)
}

// Parses the first `N` digits as their number. Returns `None` if the input begins with fewer.
#[inline(always)]
fn exactly<const N: u8>(input: &[u8]) -> Option<ParsedItem<'_, u32>>
    requires least { 1 ≤ N }
    requires most { N ≤ 9 }
    ensures is { Returns (spec.digits N input.now) result }
    ensures below { IfSome result (λ p. p.1 < 10 ^ N) }
{
    exactly_n_digits::<N>(input)
}

// Parses the first two digits as their number, 0 to 99. Returns `None` if the input begins with fewer.
#[inline(always)]
pub(in crate::iso8601) fn two_digits(input: &[u8]) -> Option<ParsedItem<'_, u8>>
    ensures { Returns (spec.digits 2 input.now) result }
{
    combinator::two_digits(input)
}

// Parses one digit as its number, 0 to 9.
#[inline(always)]
fn one_digit(input: &[u8]) -> Option<ParsedItem<'_, u8>>
    ensures { Returns (spec.digits 1 input.now) result }
{
    run_of_one(input)
}

// Parses one digit as its number, 0 to 9. `None` for any other input. The contract is stated over digit runs.
#[inline(always)]
#[tactic(auto, using(crate::proofs::IsoPieces::run_one))]
fn run_of_one(input: &[u8]) -> Option<ParsedItem<'_, u8>>
    ensures { Finds (IsDigitRun 1 1) (λ v. v) input.now result }
{
    match input {
        [a @ b'0'..=b'9', rest @ ..] => Some(ParsedItem(rest, *a - b'0')),
        _ => None,
    }
}

// Parses the first two digits as their number, 0 to `GREATEST`. Returns `None` for a greater number or fewer digits.
#[inline(always)]
#[tactic(auto, unfolding(crate::specs::IsoPieces::up_to))]
pub(super) fn up_to<const GREATEST: u8>(input: &[u8]) -> Option<ParsedItem<'_, u8>>
    ensures is { Returns (spec.up_to GREATEST 2 input.now) result }
    ensures within { IfSome result (λ p. p.1 ≤ GREATEST) }
{
    let found = two_digits(input)?;
    if found.1 <= GREATEST {
        Some(found)
    } else {
        None
    }
}
