//! Numbers with a padding, numbers with a sign, and fractions of a second.
ghost use Rattle.std.specs.Prelude.{◌≡◌, ◌+◌, ◌*◌, ◌^◌, ◌<◌, ◌≤◌, pos};
ghost use Rattle.time_values.specs.Sign.{signed_by};
ghost use Rattle.time_digits.specs.Digits.{is_negative, Finds, NoCut, IsDigitRun, IsPaddedRun};
ghost use Rattle.time_digits.specs.declared.Padding.TheVariants.{Space};
ghost use Rattle.time_components.specs.Spelling.{IsPositiveRun, HasMappedValue, SpellsYear, SpellsCentury, SpellsTimestamp, SpellsOffsetHour, IsSigned, number, signed, flagged, positive, IsFractionRun};

use crate::combinator::{
    self, exactly_n_digits, leading_digits, n_to_m_digits, n_to_m_digits_padded, one_or_two_digits,
    sign,
};
use crate::{Integer, Padding, ParsedItem, Sign};
use std::num::NonZero;

// Parses a decimal number of `N` to `M` bytes with the given padding; `Padding::None` allows 1 to `M` digits. The type
// must hold every number of `M` digits. Returns `None` if the input doesn't begin with such a number.
#[inline(always)]
fn run<const N: u8, const M: u8, T: Integer>(
    input: &[u8],
    padding: Padding,
) -> Option<ParsedItem<'_, T>>
    requires least { 1 ≤ N }
    requires ordered { N ≤ M }
    requires most { M ≤ T.MAX_NUM_DIGITS }
    requires fits { 10 ^ M ≤ T.greatest + 1 }
    ensures { Finds (IsPaddedRun padding N M) T.value input.now result }
{
    n_to_m_digits_padded::<N, M, T>(input, padding)
}

// Parses a number, 0 to 99: two digits, whatever the padding; otherwise one digit with `Padding::None`, or a space and
// a digit with `Padding::Space`. Returns `None` for another text.
#[inline(always)]
pub(super) fn two_digits(input: &[u8], padding: Padding) -> Option<ParsedItem<'_, u8>>
    ensures { Finds (IsPaddedRun padding 2 2) (λ v. v) input.now result }
{
    if let Some(found) = combinator::two_digits(input) {
        return Some(found);
    }
    match padding {
        Padding::Zero => None,
        Padding::None => one_or_two_digits(input),
        Padding::Space => spaced_digit(input),
    }
}

// Parses a space and a digit, as that digit, 0 to 9. Otherwise `None`. The input must not begin with two digits.
#[inline(always)]
#[tactic(auto, using(time_digits::proofs::Runs::no_spaced_digit))]
fn spaced_digit(input: &[u8]) -> Option<ParsedItem<'_, u8>>
    requires { NoCut (IsDigitRun 2 2) input.now }
    ensures { Finds (IsPaddedRun Space 2 2) (λ v. v) input.now result }
{
    let [space, digit, rest @ ..] = input else {
        return None;
    };
    if *space == b' ' && b'0' <= *digit && *digit <= b'9' {
        Some(ParsedItem(rest, *digit - b'0'))
    } else {
        None
    }
}

// Parses a number in two places, as `two_digits` does, with a contract in terms of a component's value.
#[inline(always)]
pub(super) fn two_places(input: &[u8], padding: Padding) -> Option<ParsedItem<'_, u8>>
    ensures { Finds (HasMappedValue number (IsPaddedRun padding 2 2)) number input.now result }
{
    two_digits(input, padding)
}

// Parses a day of the year in three places with the padding, 1 to 999. Returns `None` for 0 or another text.
#[inline]
pub(super) fn ordinal(input: &[u8], padding: Padding) -> Option<ParsedItem<'_, NonZero<u16>>>
    ensures { Finds (HasMappedValue number (IsPositiveRun padding 3)) (λ n. number n.value) input.now result }
{
    let ordinal = run::<3, 3, u16>(input, padding)?;
    Some(ParsedItem(ordinal.0, NonZero::<u16>::new(ordinal.1)?))
}

// Parses a sign and a number as `run` does, with `N`, `M` and `padding`; or, if the sign is missing and not mandatory,
// with `A`, `B` and `padding_alone`. Returns the sign, positive if it is missing, and the number without it.
#[inline]
fn sign_and_run<const N: u8, const M: u8, const A: u8, const B: u8, T: Integer>(
    input: &[u8],
    sign_is_mandatory: bool,
    padding: Padding,
    padding_alone: Padding,
) -> Option<ParsedItem<'_, (Sign, T)>>
    requires least { 1 ≤ N }
    requires ordered { N ≤ M }
    requires most { M ≤ T.MAX_NUM_DIGITS }
    requires fits { 10 ^ M ≤ T.greatest + 1 }
    requires least_alone { 1 ≤ A }
    requires ordered_alone { A ≤ B }
    requires most_alone { B ≤ T.MAX_NUM_DIGITS }
    requires fits_alone { 10 ^ B ≤ T.greatest + 1 }
    ensures { Finds (IsSigned sign_is_mandatory (IsPaddedRun padding N M) (IsPaddedRun padding_alone A B))
        (λ v. (v.0, T.value v.1)) input.now result }
{
    match sign(input) {
        Some(found) => {
            let number = run::<N, M, T>(found.0, padding)?;
            Some(ParsedItem(number.0, (found.1, number.1)))
        }
        None if sign_is_mandatory => None,
        None => {
            let number = run::<A, B, T>(input, padding_alone)?;
            Some(ParsedItem(number.0, (Sign::Positive, number.1)))
        }
    }
}

// Parses a signed year: a sign and 4 to `MOST` padded digits, or 4 if none is required; `Padding::None` allows fewer.
#[cold]
#[inline(never)]
pub(super) fn full_year<const MOST: u8>(
    input: &[u8],
    padding: Padding,
    sign_is_mandatory: bool,
) -> Option<ParsedItem<'_, i32>>
    requires least { 4 ≤ MOST }
    requires most { MOST ≤ 6 }
    ensures { Finds (SpellsYear sign_is_mandatory padding MOST) signed input.now result }
{
    let found = sign_and_run::<4, MOST, 4, 4, u32>(input, sign_is_mandatory, padding, padding)?;
    Some(ParsedItem(found.0, signed_year(found.1.0, found.1.1)))
}

// Parses a century, negative after `-`: a sign and two to `MOST` padded digits (`Padding::None` allows one), or, if no
// sign is there or required, one or two digits whatever the padding. The bool is whether the sign is `-`, also for 0.
#[inline]
pub(super) fn century<const MOST: u8>(
    input: &[u8],
    padding: Padding,
    sign_is_mandatory: bool,
) -> Option<ParsedItem<'_, (i16, bool)>>
    requires least { 2 ≤ MOST }
    requires most { MOST ≤ 4 }
    ensures { Finds (SpellsCentury sign_is_mandatory padding MOST) (λ v. flagged v.0 v.1) input.now result }
{
    let found = sign_and_run::<2, MOST, 1, 2, u16>(
        input,
        sign_is_mandatory,
        padding,
        Padding::Zero,
    )?;
    Some(ParsedItem(found.0, signed_century(found.1.0, found.1.1)))
}

// Parses a count of units of `unit` nanoseconds since 1970-01-01T00:00:00Z, in 1 to `MOST` digits with an optional or
// mandatory sign, and returns it in nanoseconds, negative after `-`.
#[inline]
pub(super) fn timestamp<const MOST: u8>(
    input: &[u8],
    unit: u128,
    sign_is_mandatory: bool,
) -> Option<ParsedItem<'_, i128>>
    requires least { 1 ≤ MOST }
    requires most { MOST ≤ 23 }
    requires fits { 10 ^ MOST * unit ≤ 10 ^ 23 }
    ensures { Finds (SpellsTimestamp unit sign_is_mandatory MOST) signed input.now result }
{
    let found = sign_and_run::<1, MOST, 1, MOST, u128>(
        input,
        sign_is_mandatory,
        Padding::Zero,
        Padding::Zero,
    )?;
    Some(ParsedItem(found.0, signed_nanoseconds(found.1.0, found.1.1 * unit)))
}

// Parses the hours of an offset: an optional or mandatory sign, and two digits with the padding; `Padding::None` allows
// one. The hours are negative after `-`. The bool is whether the sign is `-`, also for 0 hours.
#[cold]
#[inline(never)]
pub(super) fn offset_hour(
    input: &[u8],
    padding: Padding,
    sign_is_mandatory: bool,
) -> Option<ParsedItem<'_, (i8, bool)>>
    ensures { Finds (SpellsOffsetHour sign_is_mandatory padding) (λ v. flagged v.0 v.1) input.now result }
{
    let found = sign_and_run::<2, 2, 2, 2, u8>(input, sign_is_mandatory, padding, padding)?;
    Some(ParsedItem(found.0, signed_hour(found.1.0, found.1.1)))
}

// Parses an offset's minutes or seconds, 0 to 99, without a sign: two padded digits; `Padding::None` allows one.
#[inline]
pub(super) fn offset_part(input: &[u8], padding: Padding) -> Option<ParsedItem<'_, i8>>
    ensures { Finds (HasMappedValue positive (IsPaddedRun padding 2 2)) signed input.now result }
{
    let part = two_digits(input, padding)?;
    Some(ParsedItem(part.0, part.1 as i8))
}

// The year, below 1000000, with that sign.
fn signed_year(sign: Sign, year: u32) -> i32
    requires { year < 10 ^ 6 }
    ensures { result ≡ signed_by (is_negative sign) (pos year) }
{
    match sign {
        Sign::Negative => -(year as i32),
        Sign::Positive => year as i32,
    }
}

// The century, below 10000, with that sign, and whether the sign is `-`.
fn signed_century(sign: Sign, century: u16) -> (i16, bool)
    requires { century < 10 ^ 4 }
    ensures number { result.0 ≡ signed_by (is_negative sign) (pos century) }
    ensures minus { result.1 ≡ is_negative sign }
{
    match sign {
        Sign::Negative => (-(century as i16), true),
        Sign::Positive => (century as i16, false),
    }
}

// The hours, below 100, with that sign, and whether the sign is `-`.
pub(super) fn signed_hour(sign: Sign, hour: u8) -> (i8, bool)
    requires { hour < 10 ^ 2 }
    ensures number { result.0 ≡ signed_by (is_negative sign) (pos hour) }
    ensures minus { result.1 ≡ is_negative sign }
{
    let is_negative = sign.is_negative();
    (time_values::sign::signed(is_negative, hour), is_negative)
}

// The nanoseconds, at most 10 to the power of 23, with that sign.
fn signed_nanoseconds(sign: Sign, nanoseconds: u128) -> i128
    requires { nanoseconds ≤ 10 ^ 23 }
    ensures { result ≡ signed_by (is_negative sign) (pos nanoseconds) }
{
    match sign {
        Sign::Negative => -(nanoseconds as i128),
        Sign::Positive => nanoseconds as i128,
    }
}

// Parses exactly `N` digits of a fraction of a second, as nanoseconds. `N` is 1 to 9. Further digits begin the rest.
#[inline]
pub(super) fn fraction<const N: u8>(input: &[u8]) -> Option<ParsedItem<'_, u32>>
    requires least { 1 ≤ N }
    requires most { N ≤ 9 }
    ensures { Finds (HasMappedValue number (IsFractionRun N N)) number input.now result }
{
    let digits = exactly_n_digits::<N>(input)?;
    Some(ParsedItem(digits.0, digits.1 * power_of_ten(9 - usize::from(N))))
}

// Parses 1 to 32 digits of a fraction of a second, as nanoseconds. Those after the ninth don't change the value.
#[inline]
pub(super) fn long_fraction(input: &[u8]) -> Option<ParsedItem<'_, u32>>
    ensures { Finds (HasMappedValue number (IsFractionRun 1 32)) number input.now result }
{
    let digits = n_to_m_digits::<1, 9, u32>(input)?;
    let count = input.len() - digits.0.len();
    let dropped = leading_digits(digits.0, 23);
    Some(ParsedItem(&digits.0[dropped..], digits.1 * power_of_ten(9 - count)))
}

// Ten to the power of `exponent`, which must be below nine.
#[inline]
fn power_of_ten(exponent: usize) -> u32
    requires { exponent < 9 }
    ensures { result ≡ 10 ^ exponent }
{
    const POWERS: [u32; 9] = [
        1,
        10,
        100,
        1_000,
        10_000,
        100_000,
        1_000_000,
        10_000_000,
        100_000_000,
    ];
    POWERS[exponent]
}
