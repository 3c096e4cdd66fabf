//! Fast paths for the commonest texts of components, parsed without function calls.
//!
//! Each parser returns what the component's plain parser returns, with any padding, or `None` for other texts. After
//! `None`, call the plain parser.
ghost use Rattle.std.specs.Prelude.{◌≡◌, IfSome, take, true};
ghost use Rattle.std.specs.Int.NonZero.{non_zero_u16_get};
ghost use Rattle.time_digits.specs.Digits.{Cut};
ghost use Rattle.time_values.specs.Names as Names;
ghost use Rattle.time_components.specs.Spelling.{period_name, IsFractionRun, IsNameOf, IsPositiveRun, IsShortOf, HasMappedValue, SpellsOffsetHour, SpellsYear, flagged, least_digits, month, most_digits, number, signed, weekday};
ghost use Rattle.time_components.specs.Spelling as Spelling;

use crate::combinator::{exactly_n_digits, sign, two_digits};
use crate::component::numbers::signed_hour;
use crate::{Padding, ParsedItem, Period, SubsecondDigits, modifier};
use std::num::NonZero;
use time_values::{Month, Weekday};

/// Parses a year of four ASCII digits without a sign, 0 to 9999. Neither `MOST`, the greatest number of digits after a
/// sign, nor the padding changes the result. Returns `None` for another text, or if a sign is mandatory.
#[inline(always)]
pub fn year<const MOST: u8>(
    input: &[u8],
    padding: Padding,
    sign_is_mandatory: bool,
) -> Option<ParsedItem<'_, i32>>
    ensures { IfSome result (λ found. Cut (SpellsYear sign_is_mandatory padding MOST)
        input.now found.0.now (signed found.1)) }
{
    if sign_is_mandatory {
        return None;
    }
    let year = exactly_n_digits::<4>(input)?;
    Some(ParsedItem(year.0, year.1 as i32))
}

/// Parses a day of the year of three ASCII digits, 1 to 999, whatever the padding. Returns `None` for another text.
#[inline(always)]
pub fn ordinal(input: &[u8], padding: Padding) -> Option<ParsedItem<'_, NonZero<u16>>>
    ensures { IfSome result (λ found. Cut (HasMappedValue number (IsPositiveRun padding 3))
        input.now found.0.now (number (non_zero_u16_get found.1))) }
{
    let ordinal = exactly_n_digits::<3>(input)?;
    Some(ParsedItem(ordinal.0, NonZero::<u16>::new(ordinal.1 as u16)?))
}

/// Parses a sign and two ASCII digits of an offset's hours, -99 to 99, negative after `-`. The bool is whether the sign
/// is `-`. The padding and `sign_is_mandatory` don't change the result. Returns `None` for another text.
#[inline(always)]
pub fn offset_hour(
    input: &[u8],
    padding: Padding,
    sign_is_mandatory: bool,
) -> Option<ParsedItem<'_, (i8, bool)>>
    ensures { IfSome result (λ found. Cut (SpellsOffsetHour sign_is_mandatory padding)
        input.now found.0.now (flagged found.1.0 found.1.1)) }
{
    let sign = sign(input)?;
    let hour = two_digits(sign.0)?;
    Some(ParsedItem(hour.0, signed_hour(sign.1, hour.1)))
}

/// Parses one to nine ASCII digits of a fraction of a second, as nanoseconds, if `digits` is `OneOrMore`. Returns
/// `None` for other `digits`, without a digit, or if a tenth digit follows.
#[inline(always)]
pub fn subsecond(input: &[u8], digits: SubsecondDigits) -> Option<ParsedItem<'_, u32>>
    ensures { IfSome result (λ found. Cut (HasMappedValue number (IsFractionRun (least_digits digits) (most_digits digits)))
        input.now found.0.now (number found.1)) }
{
    match digits {
        SubsecondDigits::OneOrMore => short_fraction(input),
        _ => None,
    }
}

// Parses one to nine digits of a fraction of a second, as nanoseconds. Returns `None` without a digit, or if a tenth
// digit follows.
#[inline(always)]
fn short_fraction(input: &[u8]) -> Option<ParsedItem<'_, u32>>
    ensures { IfSome result (λ found. Cut (HasMappedValue number (IsFractionRun 1 32))
        input.now found.0.now (number found.1)) }
{
    let mut nanoseconds = 0;
    // The nanoseconds that one unit of the last digit read so far counts; a whole second before the first digit.
    let mut unit = 1_000_000_000;
    let mut rest = input;
    while let [digit @ b'0'..=b'9', tail @ ..] = rest {
        unit /= 10;
        if unit == 0 {
            return None;
        }
        nanoseconds += unit * u32::from(*digit - b'0');
        rest = tail;
    }
    if unit == 1_000_000_000 {
        return None;
    }
    Some(ParsedItem(rest, nanoseconds))
}

// Parses the first three letters of a month's English name, only as a capital and two small letters (`Jan`), whatever
// `case_sensitive` is. Returns `None` for another text.
#[inline(always)]
pub(super) fn month_short(input: &[u8], case_sensitive: bool) -> Option<ParsedItem<'_, Month>>
    ensures { IfSome result (λ found. Cut (HasMappedValue month (IsShortOf case_sensitive Names.month_name))
        input.now found.0.now (month found.1)) }
{
    let [first, second, third, rest @ ..] = input else {
        return None;
    };
    let month = month_name([*first, *second, *third])?;
    Some(ParsedItem(rest, month))
}

// Parses the first three letters of a weekday's English name, only as a capital and two small letters (`Mon`),
// whatever `case_sensitive` is. Returns `None` for another text.
#[inline(always)]
pub(super) fn weekday_short(input: &[u8], case_sensitive: bool) -> Option<ParsedItem<'_, Weekday>>
    ensures { IfSome result (λ found. Cut (HasMappedValue weekday (IsShortOf case_sensitive Names.weekday_name))
        input.now found.0.now (weekday found.1)) }
{
    let [first, second, third, rest @ ..] = input else {
        return None;
    };
    let weekday = weekday_name([*first, *second, *third])?;
    Some(ParsedItem(rest, weekday))
}

/// The month whose English name begins with exactly these letters, such as `Jan` but not `jan`; otherwise `None`.
#[inline(always)]
pub fn month_name(letters: [u8; 3]) -> Option<Month>
    ensures { IfSome result (λ v. letters ≡ take 3 (Names.month_name v)) }
{
    match &letters {
        b"Jan" => Some(Month::January),
        b"Feb" => Some(Month::February),
        b"Mar" => Some(Month::March),
        b"Apr" => Some(Month::April),
        b"May" => Some(Month::May),
        b"Jun" => Some(Month::June),
        b"Jul" => Some(Month::July),
        b"Aug" => Some(Month::August),
        b"Sep" => Some(Month::September),
        b"Oct" => Some(Month::October),
        b"Nov" => Some(Month::November),
        b"Dec" => Some(Month::December),
        _ => None,
    }
}

/// The weekday whose English name begins with exactly these letters, such as `Mon` but not `mon`; otherwise `None`.
#[inline(always)]
pub fn weekday_name(letters: [u8; 3]) -> Option<Weekday>
    ensures { IfSome result (λ v. letters ≡ take 3 (Names.weekday_name v)) }
{
    match &letters {
        b"Mon" => Some(Weekday::Monday),
        b"Tue" => Some(Weekday::Tuesday),
        b"Wed" => Some(Weekday::Wednesday),
        b"Thu" => Some(Weekday::Thursday),
        b"Fri" => Some(Weekday::Friday),
        b"Sat" => Some(Weekday::Saturday),
        b"Sun" => Some(Weekday::Sunday),
        _ => None,
    }
}

// Parses `AM` or `PM`, if the modifiers accept capitals: with `is_uppercase`, or without `case_sensitive`. Otherwise
// returns `None`, also for `am` and `pm`.
#[inline(always)]
pub(super) fn period(input: &[u8], modifiers: modifier::Period) -> Option<ParsedItem<'_, Period>>
    ensures { IfSome result (λ found. Cut (HasMappedValue Spelling.period (IsNameOf modifiers.case_sensitive (period_name modifiers.is_uppercase)))
        input.now found.0.now (Spelling.period found.1)) }
{
    match capitals(input) {
        Some(found) if modifiers.is_uppercase || !modifiers.case_sensitive => Some(found),
        _ => None,
    }
}

// Parses `AM` or `PM`. Returns `None` for another text.
#[inline(always)]
fn capitals(input: &[u8]) -> Option<ParsedItem<'_, Period>>
    ensures { IfSome result (λ found. Cut (λ text rest v. text ≡ period_name true v) input.now found.0.now found.1) }
{
    match input {
        [b'A', b'M', rest @ ..] => Some(ParsedItem(rest, Period::Am)),
        [b'P', b'M', rest @ ..] => Some(ParsedItem(rest, Period::Pm)),
        _ => None,
    }
}
