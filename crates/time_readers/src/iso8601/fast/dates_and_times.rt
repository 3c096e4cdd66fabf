//! A calendar date and a time up to the second, the first sixteen bytes at once.
ghost use Rattle.std.specs.Prelude.{◌≡◌, ℕ, List, [], ◌∷◌, map, IfSome, Ok};
ghost use Rattle.time_readers.specs.Block.{AllWithin, pair_at};
ghost use Rattle.time_readers.specs.IsoTimes.{ReturnsDateAndTime};
ghost use Rattle.time_readers.specs.IsoGrammar.{IsFirstSixteen};

use crate::block;
use crate::iso8601::fast::{CalendarDigits, date_of, second};
use crate::iso8601::grammar::pieces::byte;
use crate::iso8601::{DateAndTime, ExtendedKind, Part, TimeNumbers};
use std::simd::prelude::*;

// The least value of each of the first sixteen bytes of a text with separators. These ranges also admit numbers that
// are checked later: months of 00 and 13 to 19, days of 00 and hours of 24 to 29.
const LEAST: [u8; 16] = *b"0000-00-00T00:00";

// The greatest value of each of the first sixteen bytes of a text with separators.
const GREATEST: [u8; 16] = *b"9999-19-39T29:59";

// The least value of each of the first sixteen bytes of a text without separators. The last may be any byte.
const BASIC_LEAST: [u8; 16] = *b"00000000T000000\x00";

// The greatest value of each of the first sixteen bytes of a text without separators.
const BASIC_GREATEST: [u8; 16] = *b"99991939T295959\xff";

// The two-digit numbers of a date, of the hour after it, 0 to 29, and of the minute, 0 to 59. `after` is the input
// after the minute and, in an extended text, the colon.
#[derive(Clone, Copy)]
struct FirstSixteen<'a> {
    date: CalendarDigits<'a>,
    hour: u8,
    minute: u8,
    after: &'a [u8],
}

// Parses `YYYY-MM-DDThh:mm:ss` and a fraction, if any. `None` for any other form, a day of 0 or above 39, another
// number out of its range, and a fraction that rounds to 1.
#[inline(always)]
pub(in crate::iso8601) fn extended_date_and_time(input: &[u8]) -> Option<DateAndTime<'_>>
    ensures { IfSome result (λ p. ReturnsDateAndTime input.now (Ok p)) }
{
    date_and_time_of(extended_first_sixteen(input)?)
}

// Parses `YYYYMMDDThhmmss` and a fraction, if any. `None` for any other form, a day of 0 or above 39, a second of 60,
// another number out of its range, a fraction that rounds to 1, and a text of under sixteen bytes.
#[inline(always)]
pub(in crate::iso8601) fn basic_date_and_time(input: &[u8]) -> Option<DateAndTime<'_>>
    ensures { IfSome result (λ p. ReturnsDateAndTime input.now (Ok p)) }
{
    date_and_time_of(basic_first_sixteen(input)?)
}

// Parses `YYYY-MM-DDThh:mm:`, MM to 19, DD to 39, hh to 29, mm to 59. `None` for any other form.
#[inline(always)]
fn extended_first_sixteen(input: &[u8]) -> Option<FirstSixteen<'_>>
    ensures { IfSome result (IsFirstSixteen input.now) }
{
    let (first, rest) = input.split_first_chunk::<16>()?;
    if !block::is_within(first, LEAST, GREATEST) {
        return None;
    }
    let after = byte::<b':'>(rest)?;
    let [century, in_century, month, day, hour, minute, _, _] = extended_pairs(first);
    let date = CalendarDigits {
        century,
        in_century,
        month,
        day,
        rest: &input[10..],
        kind: ExtendedKind::Extended,
    };
    Some(FirstSixteen {
        date,
        hour,
        minute,
        after,
    })
}

// Parses `YYYYMMDDThhmm`, MM to 19, DD to 39, hh to 29, mm to 59, if a second 00 to 59 and a byte follow; else `None`.
#[inline(always)]
fn basic_first_sixteen(input: &[u8]) -> Option<FirstSixteen<'_>>
    ensures { IfSome result (IsFirstSixteen input.now) }
{
    let (first, _) = input.split_first_chunk::<16>()?;
    if !block::is_within(first, BASIC_LEAST, BASIC_GREATEST) {
        return None;
    }
    let [century, in_century, month, day, hour, minute, _, _] = basic_pairs(first);
    let date = CalendarDigits {
        century,
        in_century,
        month,
        day,
        rest: &input[8..],
        kind: ExtendedKind::Basic,
    };
    Some(FirstSixteen {
        date,
        hour,
        minute,
        after: &input[13..],
    })
}

// The numbers of the pairs of digits of bytes such as `2025-01-31T08:42`: the two of the year, the month, the day, the
// hour, and the minute three times.
#[inline(always)]
fn extended_pairs(bytes: &[u8; 16]) -> [u8; 8]
    ensures { AllWithin LEAST GREATEST bytes.now
        → result ≡ map (pair_at bytes.now) (0 ∷ 2 ∷ 5 ∷ 8 ∷ 11 ∷ 14 ∷ 14 ∷ 14 ∷ []) }
{
    let digits = u8x16::from_slice(bytes) - u8x16::splat(b'0');
    let tens: u8x8 = digits.swizzle([0, 2, 5, 8, 11, 14, 14, 14]);
    let ones: u8x8 = digits.swizzle([1, 3, 6, 9, 12, 15, 15, 15]);
    (tens * u8x8::splat(10) + ones).to_array()
}

// The numbers of the pairs of digits of bytes such as `20250131T084259Z`: the two of the year, the month, the day, the
// hour, and the minute three times.
#[inline(always)]
fn basic_pairs(bytes: &[u8; 16]) -> [u8; 8]
    ensures { AllWithin BASIC_LEAST BASIC_GREATEST bytes.now
        → result ≡ map (pair_at bytes.now) (0 ∷ 2 ∷ 4 ∷ 6 ∷ 9 ∷ 11 ∷ 11 ∷ 11 ∷ []) }
{
    let digits = u8x16::from_slice(bytes) - u8x16::splat(b'0');
    let tens: u8x8 = digits.swizzle([0, 2, 4, 6, 9, 11, 11, 11]);
    let ones: u8x8 = digits.swizzle([1, 3, 5, 7, 10, 12, 12, 12]);
    (tens * u8x8::splat(10) + ones).to_array()
}

// The date and the time of these digits, with the second and its fraction, if any, parsed after them. `None` for a
// month that isn't 1 to 12, a day of 0, an hour above 23, and for bytes that `second` doesn't parse.
#[inline(always)]
fn date_and_time_of(first: FirstSixteen<'_>) -> Option<DateAndTime<'_>>
    ensures { (text : List ℕ) → IsFirstSixteen text first.entry → IfSome result (λ p. ReturnsDateAndTime text (Ok p)) }
{
    if first.hour > 23 {
        return None;
    }
    let digits = first.date;
    let date = date_of(digits)?;
    let second = second(first.after)?;
    Some(DateAndTime {
        date: Part {
            rest: digits.rest,
            value: date,
            kind: digits.kind,
        },
        time: Some(Part {
            rest: second.0,
            value: TimeNumbers {
                hour: first.hour,
                minute: first.minute,
                second: second.1.0,
                subsecond: second.1.1,
            },
            kind: digits.kind,
        }),
    })
}
