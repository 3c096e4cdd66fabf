//! The commonest dates and times of ISO 8601, parsed many bytes at once.
//!
//! `date`, `time` and `*_date_and_time` return what the parent module's parsers return, or `None` for any other form.
ghost use Rattle.std.specs.Prelude.{◌≡◌, ℕ, List, IfSome, Ok, ◌≤◌, ◌<◌, Bool, Some, None};
ghost use Rattle.time_readers.specs.IsoPieces.{ReturnsPartOrFault, ReturnsPart, Number, number, byte, plain, fraction};
ghost use Rattle.time_readers.specs.IsoDates.{AreCalendarDigits, date_text, iso_date};
ghost use Rattle.time_readers.specs.declared.iso8601.ExtendedKind.TheVariants.{Basic, Extended};
ghost use Rattle.time_readers.specs.IsoGrammar.{IsSecondOfTime};
ghost use Rattle.time_readers.specs.IsoTimes.{round_of};
ghost use Rattle.time_readers.specs.IsoTimes as spec;

mod dates_and_times;

use crate::combinator::{leading_digits, nine_digits};
use crate::iso8601::grammar::pieces::{byte, float, point, two_digits};
use crate::iso8601::grammar::round_fraction;
use crate::iso8601::{DateNumbers, ExtendedKind, Part, TimeNumbers};
use crate::{ParsedItem, block};
pub(super) use dates_and_times::{basic_date_and_time, extended_date_and_time};
use std::num::NonZero;
use time_values::Month;

/// The numbers, 0 to 99, of each two digits of `YYYYMMDD` or `YYYY-MM-DD`, the bytes after the date, and its kind.
#[derive(Clone, Copy)]
pub struct CalendarDigits<'a> {
    /// The first two digits of the year.
    pub century: u8,
    /// The last two digits of the year.
    pub in_century: u8,
    /// The digits of the month.
    pub month: u8,
    /// The digits of the day.
    pub day: u8,
    /// The bytes after the date.
    pub rest: &'a [u8],
    /// Whether the date has separators.
    pub kind: ExtendedKind,
}

// Parses a calendar date with a year of four digits, a month of 01 to 12 and a day of 01 to 99, with separators or
// without. `None` for any other form.
#[inline(always)]
pub(in crate::iso8601) fn date(input: &[u8]) -> Option<Part<'_, DateNumbers>>
    ensures { IfSome result (λ p. ReturnsPartOrFault iso_date (date_text input.now) (Ok p)) }
{
    // A `-` after a year of four digits distinguishes the form with separators from the one without.
    let digits = match input {
        [_, _, _, _, b'-', ..] => extended_date(input)?,
        _ => basic_date(input)?,
    };
    Some(Part {
        rest: digits.rest,
        value: date_of(digits)?,
        kind: digits.kind,
    })
}

/// Parses a calendar date as `2021-01-02`, with a month and a day of any two digits. `None` for any other form.
#[inline(always)]
pub fn extended_date(input: &[u8]) -> Option<CalendarDigits<'_>>
    ensures digits { IfSome result (AreCalendarDigits input.now) }
    ensures kind { IfSome result (λ d. d.kind ≡ Extended) }
{
    let [
        y0 @ b'0'..=b'9',
        y1 @ b'0'..=b'9',
        y2 @ b'0'..=b'9',
        y3 @ b'0'..=b'9',
        b'-',
        m0 @ b'0'..=b'9',
        m1 @ b'0'..=b'9',
        b'-',
        d0 @ b'0'..=b'9',
        d1 @ b'0'..=b'9',
        rest @ ..,
    ] = input
    else {
        return None;
    };
    let kind = ExtendedKind::Extended;
    Some(CalendarDigits {
        century: block::two_digits(*y0, *y1),
        in_century: block::two_digits(*y2, *y3),
        month: block::two_digits(*m0, *m1),
        day: block::two_digits(*d0, *d1),
        rest,
        kind,
    })
}

/// Parses a calendar date as `20210102`, with a month and a day of any two digits. `None` for any other form.
#[inline(always)]
pub fn basic_date(input: &[u8]) -> Option<CalendarDigits<'_>>
    ensures digits { IfSome result (AreCalendarDigits input.now) }
    ensures kind { IfSome result (λ d. d.kind ≡ Basic) }
{
    let [
        y0 @ b'0'..=b'9',
        y1 @ b'0'..=b'9',
        y2 @ b'0'..=b'9',
        y3 @ b'0'..=b'9',
        m0 @ b'0'..=b'9',
        m1 @ b'0'..=b'9',
        d0 @ b'0'..=b'9',
        d1 @ b'0'..=b'9',
        rest @ ..,
    ] = input
    else {
        return None;
    };
    let kind = ExtendedKind::Basic;
    Some(CalendarDigits {
        century: block::two_digits(*y0, *y1),
        in_century: block::two_digits(*y2, *y3),
        month: block::two_digits(*m0, *m1),
        day: block::two_digits(*d0, *d1),
        rest,
        kind,
    })
}

/// The date of these digits, or `None` if the month isn't 1 to 12 or the day is 0. Other days, up to 99, are accepted.
#[inline(always)]
pub fn date_of(digits: CalendarDigits<'_>) -> Option<DateNumbers>
    ensures { (text : List ℕ) → AreCalendarDigits text digits.entry → IfSome result (λ d. date_text text
        ≡ Ok (record { rest = digits.entry.rest.now; value = iso_date d; kind = digits.entry.kind })) }
{
    let CalendarDigits {
        century,
        in_century,
        month,
        day,
        ..
    } = digits;
    let year = u16::from(century) * 100 + u16::from(in_century);
    let (Some(month), Some(day)) = (NonZero::<u8>::new(month), NonZero::<u8>::new(day)) else {
        return None;
    };
    match Month::from_number(month) {
        Ok(month) => Some(DateNumbers::Calendar(i32::from(year), month, day)),
        Err(_) => None,
    }
}

// Parses `T`, an hour and a minute without fractions, and a second, with separators or without. `None` for any other
// form, for a number out of its range, for a fraction that rounds to 1, and for a form that the kind doesn't allow.
#[inline(always)]
pub(in crate::iso8601) fn time<'a>(
    input: &'a [u8],
    kind: ExtendedKind,
) -> Option<Part<'a, TimeNumbers>>
    ensures { (needed : Bool) → IfSome result (λ p. ReturnsPart (spec.time_text needed kind input.now) (Some p)) }
{
    after_t(byte::<b'T'>(input)?, kind)
}

// Parses an hour and a minute without fractions, and a second, with separators or without. `None` for any other form,
// for a number out of its range, for a fraction that rounds to 1, and for a form that the kind doesn't allow.
#[inline(always)]
fn after_t<'a>(input: &'a [u8], kind: ExtendedKind) -> Option<Part<'a, TimeNumbers>>
    ensures { IfSome result (λ p. ReturnsPart (spec.time_after kind input.now) (Some p)) }
{
    let hour = whole_number(input)?;
    if hour.1 > 23 {
        return None;
    }
    match byte::<b':'>(hour.0) {
        Some(after) => extended_time(after, kind, hour.1),
        None => basic_time(hour.0, kind, hour.1),
    }
}

// Parses a minute without a fraction and a second, which follow a whole `hour`, as a time with that hour. `None` for an
// extended kind, any other form, a number out of its range, and a fraction that rounds to 1.
#[inline(always)]
fn basic_time<'a>(input: &'a [u8], kind: ExtendedKind, hour: u8) -> Option<Part<'a, TimeNumbers>>
    requires hour { hour ≤ 23 }
    requires no_colon { byte 58 input.now ≡ None }
    ensures { (bytes : List ℕ) → number bytes ≡ Some (input.now, plain hour)
        → IfSome result (λ p. ReturnsPart (spec.time_after kind bytes) (Some p)) }
{
    if kind.is_extended() {
        return None;
    }
    let minute = whole_number(input)?;
    if minute.1 > 59 {
        return None;
    }
    let found = second(minute.0)?;
    Some(Part {
        rest: found.0,
        value: TimeNumbers {
            hour,
            minute: minute.1,
            second: found.1.0,
            subsecond: found.1.1,
        },
        kind: ExtendedKind::Basic,
    })
}

// Parses a minute without a fraction, a colon and a second, which follow a whole `hour` and a colon, as a time with
// that hour. `None` for a basic kind, any other form, a number out of its range, and a fraction that rounds to 1.
#[inline(always)]
fn extended_time<'a>(input: &'a [u8], kind: ExtendedKind, hour: u8) -> Option<Part<'a, TimeNumbers>>
    requires { hour ≤ 23 }
    ensures { (bytes mid : List ℕ) → number bytes ≡ Some (mid, plain hour) → byte 58 mid ≡ Some input.now
        → IfSome result (λ p. ReturnsPart (spec.time_after kind bytes) (Some p)) }
{
    if !kind.maybe_extended() {
        return None;
    }
    let minute = whole_number(input)?;
    if minute.1 > 59 {
        return None;
    }
    let after = byte::<b':'>(minute.0)?;
    let found = second(after)?;
    Some(Part {
        rest: found.0,
        value: TimeNumbers {
            hour,
            minute: minute.1,
            second: found.1.0,
            subsecond: found.1.1,
        },
        kind: ExtendedKind::Extended,
    })
}

// Parses a second of 0 to 60 and its fraction, if any, as the second and the nanoseconds, rounded half up. `None` for
// any other form, and if the fraction rounds to 1.
#[inline(always)]
pub(super) fn second(input: &[u8]) -> Option<ParsedItem<'_, (u8, u32)>>
    ensures { IfSome result (λ p. (n : Number) × (number input.now ≡ Some (p.0.now, n))
        × IsSecondOfTime n p.1.0 p.1.1) }
{
    if let Some(found) = whole_number(input) {
        if found.1 > 60 {
            return None;
        }
        return Some(ParsedItem(found.0, (found.1, 0)));
    }
    if let Some(found) = nanoseconds(input) {
        if found.1.0 > 60 {
            return None;
        }
        return Some(found);
    }
    rounded_second(input)
}

// Parses a second of 0 to 60 and a fraction, as the second and the nanoseconds, rounded half up. `None` for any other
// form, and if the fraction rounds to 1.
#[inline(never)]
fn rounded_second(input: &[u8]) -> Option<ParsedItem<'_, (u8, u32)>>
    ensures { IfSome result (λ p. (n : Number) × (number input.now ≡ Some (p.0.now, n))
        × IsSecondOfTime n p.1.0 p.1.1) }
{
    let found = float(input)?;
    let digits = found.1.1?;
    let nanoseconds = round_fraction(digits, 1_000_000_000);
    if found.1.0 > 60 || nanoseconds >= 1_000_000_000 {
        return None;
    }
    Some(ParsedItem(found.0, (found.1.0, nanoseconds as u32)))
}

// Parses two digits, 0 to 99, with neither `.` nor `,` after them. `None` for any other form.
#[inline(always)]
fn whole_number(input: &[u8]) -> Option<ParsedItem<'_, u8>>
    ensures { IfSome result (λ p. number input.now ≡ Some (p.0.now, plain p.1)) }
{
    let found = two_digits(input)?;
    match point(found.0) {
        Some(_) => None,
        None => Some(found),
    }
}

// Parses two digits, 0 to 99, and a fraction of exactly nine digits, as the number and the nanoseconds. `None` for any
// other form.
#[inline(always)]
fn nanoseconds(input: &[u8]) -> Option<ParsedItem<'_, (u8, u32)>>
    ensures { IfSome result (λ p. (digits : List ℕ) × (number input.now ≡ Some (p.0.now, fraction p.1.0 digits))
        × (round_of digits 1_000_000_000 ≡ p.1.1) × (p.1.1 < 1_000_000_000)) }
{
    let whole = two_digits(input)?;
    let after = point(whole.0)?;
    let found = nine_digits(after)?;
    if leading_digits(found.0, 1) > 0 {
        return None;
    }
    Some(ParsedItem(found.0, (whole.1, found.1)))
}
