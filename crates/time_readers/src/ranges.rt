//! Numbers of places, with or without range checks, and years of four digits.
ghost use Rattle.std.specs.Prelude.{IsTrue, ◌↔◌};
ghost use Rattle.time_digits.specs.Digits.{Finds, IsDigitRun};
ghost use Rattle.time_readers.specs.Readers.{IsTwoDigits, IsWithin};

use crate::ParsedItem;
use crate::combinator::{exactly_n_digits, two_digits};

// Whether the number is from `least` to `most`, inclusive. Always true without `CHECK_RANGES`.
#[inline(always)]
pub(crate) fn is_in_range<const CHECK_RANGES: bool>(value: u8, least: u8, most: u8) -> bool
    ensures { IsTrue result ↔ IsWithin CHECK_RANGES least most value }
{
    !CHECK_RANGES || (least <= value && value <= most)
}

// Parses two ASCII digits as their number, which with `CHECK_RANGES` must be from `least` to `most`, inclusive. Returns
// `None` for any other input.
#[inline(always)]
pub(crate) fn two_digits_in<const CHECK_RANGES: bool>(
    input: &[u8],
    least: u8,
    most: u8,
) -> Option<ParsedItem<'_, u8>>
    ensures { Finds (IsTwoDigits CHECK_RANGES least most) (λ v. v) input.now result }
{
    let found = two_digits(input)?;
    if is_in_range::<CHECK_RANGES>(found.1, least, most) {
        Some(found)
    } else {
        None
    }
}

// Parses the first four ASCII digits as a year, 0 to 9999. Returns `None` if the input begins with fewer.
#[inline(always)]
pub(crate) fn four_digit_year(input: &[u8]) -> Option<ParsedItem<'_, u16>>
    ensures { Finds (IsDigitRun 4 4) (λ v. v) input.now result }
{
    let found = exactly_n_digits::<4>(input)?;
    Some(ParsedItem(found.0, found.1 as u16))
}
