//! The commonest parts of mail dates, and the commonest blanks between them.
//!
//! Each parser returns what `grammar`'s parser of that name returns, or `None` for any other form. No blank and no
//! comment begins with a byte above `(`.
ghost use Rattle.std.specs.Prelude.{IfSome, IsTrue, MatchOption, Some, ◌≡◌, ◌≢◌, ◌<◌, ◌∷◌, [], map, false, unwrap_or};
ghost use Rattle.time_readers.specs.Block.{AllWithin, pair_at};
ghost use Rattle.time_digits.specs.Digits.{Cut};
ghost use Rattle.time_readers.specs.MailBlanks as spec;
ghost use Rattle.time_readers.specs.Readers.{MatchesPlaces};
ghost use Rattle.time_readers.specs.Rfc2822.{PlaceSyntax, to_offset_places, offset_places};
ghost use Rattle.time_readers.specs.declared.rfc2822.Place.TheVariants as place;

use crate::block::two_digits;
use crate::combinator::sign;
use crate::ranges::is_in_range;
use crate::rfc2822::{Numbers, grammar};
use crate::{ParsedItem, block, component};
use std::simd::prelude::*;
use time_values::sign::signed;

// The least value of each of the sixteen bytes after the day, as of ` Jan 2021 03:04:`. The month's name, the least
// year, 1900, and the greatest hour are checked later.
const LEAST: [u8; 16] = *b" A\x00\x00 0000 00:00:";

// The greatest value of each of the sixteen bytes after the day.
const GREATEST: [u8; 16] = *b" \xff\xff\xff 9999 29:59:";

// Whether the byte isn't a blank or a carriage return, so that no blank and no fold begins with it.
#[inline(always)]
fn ends_blanks(byte: u8) -> bool
    ensures { IsTrue result → (byte ≢ 32) × (byte ≢ 9) × (byte ≢ 13) }
{
    !matches!(byte, b' ' | b'\t' | b'\r')
}

// Parses one blank: a space before a byte above a space, or a space or tab before a byte that isn't a blank or a
// carriage return. `None` for any other form.
#[inline(always)]
pub(super) fn fws(input: &[u8]) -> Option<ParsedItem<'_, ()>>
    ensures { IfSome result (λ p. spec.fws input.now ≡ Some p.0.now) }
{
    match input {
        [b' ', b'!'..=u8::MAX, ..] => Some(ParsedItem(&input[1..], ())),
        [b' ', next, ..] if ends_blanks(*next) => Some(ParsedItem(&input[1..], ())),
        [b'\t', next, ..] if ends_blanks(*next) => Some(ParsedItem(&input[1..], ())),
        _ => None,
    }
}

// Whether the byte ends blanks and doesn't begin a comment, as `(` does.
#[inline(always)]
fn ends_comments(byte: u8) -> bool
    ensures { IsTrue result → (byte ≢ 32) × (byte ≢ 9) × (byte ≢ 13) × (byte ≢ 40) }
{
    !matches!(byte, b' ' | b'\t' | b'\r' | b'(')
}

// Parses one blank: a space before a byte above `(`, or a space or tab before a byte that isn't a blank, a carriage
// return or `(`. `None` for any other form.
#[inline(always)]
pub(super) fn cfws(input: &[u8]) -> Option<ParsedItem<'_, ()>>
    ensures { IfSome result (λ p. spec.cfws input.now ≡ Some p.0.now) }
{
    match input {
        [b' ', b')'..=u8::MAX, ..] => Some(ParsedItem(&input[1..], ())),
        [b' ', next, ..] if ends_comments(*next) => Some(ParsedItem(&input[1..], ())),
        [b'\t', next, ..] if ends_comments(*next) => Some(ParsedItem(&input[1..], ())),
        _ => None,
    }
}

// Parses nothing before a byte above `(` or at the end, or one space before such a byte. `None` for any other form.
#[inline(always)]
pub(super) fn opt_cfws(input: &[u8]) -> Option<ParsedItem<'_, ()>>
    ensures { IfSome result (λ p. spec.opt_cfws input.now ≡ Some p.0.now) }
{
    if input.is_empty() {
        return Some(ParsedItem(input, ()));
    }
    if let [b')'..=u8::MAX, ..] = input {
        return Some(ParsedItem(input, ()));
    }
    let [b' ', b')'..=u8::MAX, ..] = input else {
        return None;
    };
    Some(ParsedItem(&input[1..], ()))
}

// Parses a colon before a byte above `(`. `None` for any other form.
#[inline(always)]
pub(super) fn opt_cfws_colon_opt_cfws(input: &[u8]) -> Option<ParsedItem<'_, ()>>
    ensures { IfSome result (λ p. spec.opt_cfws_colon_opt_cfws input.now ≡ Some p.0.now) }
{
    match input {
        [b':', b')'..=u8::MAX, ..] => Some(ParsedItem(&input[1..], ())),
        _ => None,
    }
}

/// Parses a weekday's name of a capital and two small letters, a comma and one space, before a byte above `(`.
///
/// Stores the weekday. Returns the rest after the space, or `None` for any other form, with the numbers unchanged.
#[inline(always)]
pub fn weekday_name<'a>(input: &'a [u8], numbers: &mut Numbers) -> Option<&'a [u8]>
    ensures { MatchOption result
        (numbers.new ≡ numbers.old)
        (λ rest. Cut (PlaceSyntax false place.WeekdayName numbers.old) input.now rest.now numbers.new) }
{
    let [first, second, third, b',', b' ', b')'..=u8::MAX, ..] = input else {
        return None;
    };
    let weekday = component::fast::weekday_name([*first, *second, *third])?;
    numbers.weekday = Some(weekday);
    Some(&input[5..])
}

// The numbers of the pairs of digits of bytes such as ` Jan 2021 03:04:`: the two of the year, the hour and the minute.
#[inline(always)]
fn pairs(bytes: &[u8; 16]) -> [u8; 4]
    ensures { AllWithin LEAST GREATEST bytes.now → result ≡ map (pair_at bytes.now) (5 ∷ 7 ∷ 10 ∷ 13 ∷ []) }
{
    let digits = u8x16::from_slice(bytes) - u8x16::splat(b'0');
    let tens: u8x4 = digits.swizzle([5, 7, 10, 13]);
    let ones: u8x4 = digits.swizzle([6, 8, 11, 14]);
    (tens * u8x4::splat(10) + ones).to_array()
}

/// Parses the places from the blanks after the day to those after the second, if each of these blanks is one space.
///
/// These are nineteen bytes, the first sixteen tested at once: a month's name of a capital and two small letters, a
/// year of four digits, 1900 or later, an hour, a minute and a second. A byte above `(` must follow them. Stores their
/// numbers. Returns the rest, or `None` for any other form, with the numbers unchanged. The minute and the second are
/// at most 59. With `CHECK_RANGES` the hour is at most 23, and else at most 29.
#[inline(always)]
pub fn to_offset<'a, const CHECK_RANGES: bool>(
    text: &'a [u8],
    numbers: &mut Numbers,
) -> Option<&'a [u8]>
    ensures stands { MatchOption result
        (numbers.new ≡ numbers.old)
        (λ rest. MatchesPlaces (PlaceSyntax CHECK_RANGES) to_offset_places numbers.old text.now rest.now numbers.new) }
    ensures second { IfSome result (λ _. unwrap_or numbers.new.second 0 < 60) }
{
    let (first, rest) = text.split_first_chunk::<16>()?;
    if !block::is_within(first, LEAST, GREATEST) {
        return None;
    }
    let [
        tens @ b'0'..=b'5',
        ones @ b'0'..=b'9',
        b' ',
        b')'..=u8::MAX,
        ..
    ] = rest
    else {
        return None;
    };
    let second = two_digits(*tens, *ones);
    let month = component::fast::month_name([first[1], first[2], first[3]])?;
    let [century, in_century, hour, minute] = pairs(first);
    if century < 19 || !is_in_range::<CHECK_RANGES>(hour, 0, 23) {
        return None;
    }
    numbers.month = month;
    numbers.year = u16::from(century) * 100 + u16::from(in_century);
    numbers.year_is_full = true;
    numbers.hour = hour;
    numbers.minute = minute;
    numbers.second = Some(second);
    Some(&rest[3..])
}

/// Parses a sign and four digits that are the whole input. With `CHECK_RANGES` the hour is at most 25, the minute 59.
///
/// Stores the sign, and the hour and the minute with that sign. Returns the empty rest, or `None` for any other form,
/// with the numbers unchanged.
#[inline(always)]
pub fn offset<'a, const CHECK_RANGES: bool>(
    input: &'a [u8],
    numbers: &mut Numbers,
) -> Option<&'a [u8]>
    ensures stands { MatchOption result
        (numbers.new ≡ numbers.old)
        (λ rest. MatchesPlaces (PlaceSyntax CHECK_RANGES) offset_places numbers.old input.now rest.now numbers.new) }
    ensures end { IfSome result (λ rest. rest.now ≡ []) }
    ensures second { numbers.new.second ≡ numbers.old.second }
{
    let found = sign(input)?;
    let [
        a @ b'0'..=b'9',
        b @ b'0'..=b'9',
        c @ b'0'..=b'9',
        d @ b'0'..=b'9',
    ] = found.0
    else {
        return None;
    };
    let hour = two_digits(*a, *b);
    let minute = two_digits(*c, *d);
    if !is_in_range::<CHECK_RANGES>(hour, 0, 25) || !is_in_range::<CHECK_RANGES>(minute, 0, 59) {
        return None;
    }
    numbers.offset_sign = Some(found.1);
    numbers.offset_hour = signed(found.1.is_negative(), hour);
    numbers.offset_minute = signed(found.1.is_negative(), minute);
    Some(&[])
}
