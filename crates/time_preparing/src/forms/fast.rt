//! Parsers of the commonest texts of the forms.
//!
//! Each returns the numbers and the rest that the form's steps parse one after the other, or `None`. After `None` the
//! steps may still match. The parsers of dates, times and offsets check the ranges of their numbers.
ghost use Rattle.std.specs.Prelude.{◌≡◌, ◌∷◌, ◌++◌, ◌≤◌, IfSome, ℕ, List, false, true, nat_le, pos, unsigned_abs, FitsSigned};
ghost use Rattle.std.specs.Int.{w8, w32};
ghost use Rattle.time_values.specs.Calendar.{greatest_year};
ghost use Rattle.time_digits.specs.Digits.{Cut, IsPaddedRun};
ghost use Rattle.time_digits.specs.declared.Padding.TheVariants.{Space, Zero};
ghost use Rattle.time_components.specs.Spelling.{HasMappedValue, Spells, month as month_, number, signed};
ghost use Rattle.time_components.specs.declared.format_description.Component.TheVariants as component;
ghost use Rattle.time_components.specs.Tree.{more, none as none_};
ghost use Rattle.time_record.specs.Record.{Record};
ghost use Rattle.time_record.specs.Reading.{Reads, ReadsAll};
ghost use Rattle.time_preparing.specs.Forms.{bytes_of, date_parts, day_first_parts, dated_parts, offset_parts, standard_date_parts, time_parts, with_clock, with_date, with_offset, with_second, with_subsecond};
ghost use Rattle.time_preparing.specs.Walk.{fraction_tree, leaves, seconds_tree};

use super::{
    ClockNumbers, DAY, DateNumbers, Dated, MONTH, MONTH_NAME, OFFSET_HOUR, OFFSET_MINUTE,
    OffsetNumbers, YEAR,
};
use std::num::NonZero;
use time_components::combinator::{exactly_n_digits, one_or_two_digits, two_digits};
use time_components::component::fast;
use time_components::{Padding, ParsedItem, SubsecondDigits, modifier};
use time_values::Month;

/// The rest of the input after its first byte, if that is `byte`. `None`: the input is empty or begins with another.
#[inline(always)]
pub(crate) fn after(input: &[u8], byte: u8) -> Option<&[u8]>
    ensures { IfSome result (λ rest. input.now ≡ byte ∷ rest.now) }
{
    match input {
        [first, rest @ ..] if *first == byte => Some(rest),
        _ => None,
    }
}

/// Reads the value of the first two ASCII digits, 0 to 99. If there are fewer, reads one digit if the padding is
/// `None`, or a space and a digit if it is `Space`. Returns the rest after them too, or `None` if the input begins
/// otherwise.
#[inline(always)]
pub(crate) fn places(input: &[u8], padding: Padding) -> Option<ParsedItem<'_, u8>>
    ensures { IfSome result (λ found. Cut (IsPaddedRun padding 2 2) input.now found.0.now found.1) }
{
    if let Some(found) = two_digits(input) {
        return Some(found);
    }
    match padding {
        Padding::Zero => None,
        Padding::None => one_or_two_digits(input),
        Padding::Space => spaced_digit(input),
    }
}

// Reads a space and an ASCII digit, as the digit's value. `None` if the input begins otherwise.
#[inline(always)]
fn spaced_digit(input: &[u8]) -> Option<ParsedItem<'_, u8>>
    ensures { IfSome result (λ found. Cut (IsPaddedRun Space 2 2) input.now found.0.now found.1) }
{
    match input {
        [b' ', digit @ b'0'..=b'9', rest @ ..] => Some(ParsedItem(rest, *digit - b'0')),
        _ => None,
    }
}

/// Reads a year of four ASCII digits without a sign, 0 to 9999, whatever the padding. A fifth digit is left in the
/// rest. Components of both ranges of years parse it equally. `None` if there are fewer digits, or if the sign is
/// mandatory.
#[inline(always)]
pub(crate) fn year(
    input: &[u8],
    modifiers: modifier::CalendarYearFullExtendedRange,
) -> Option<ParsedItem<'_, i32>>
    ensures cut { IfSome result (λ found. Cut (Spells false (component.CalendarYearFullExtendedRange modifiers))
        input.now found.0.now (signed found.1)) }
    ensures standard { IfSome result (λ found. Cut (Spells false (component.CalendarYearFullStandardRange
        (record { padding = modifiers.padding; sign_is_mandatory = modifiers.sign_is_mandatory })))
        input.now found.0.now (signed found.1)) }
    ensures within { IfSome result (λ found. nat_le (unsigned_abs found.1) greatest_year ≡ true) }
    ensures fits { IfSome result (λ found. FitsSigned w32 found.1) }
{
    if modifiers.sign_is_mandatory {
        return None;
    }
    let year = exactly_n_digits::<4>(input)?;
    Some(ParsedItem(year.0, year.1 as i32))
}

/// Reads a month by its number: two ASCII digits, or what else `places` accepts with this padding. `None` if there is
/// no number, or if it isn't 1 to 12.
#[inline(always)]
pub(crate) fn month_number(
    input: &[u8],
    modifiers: modifier::MonthNumerical,
) -> Option<ParsedItem<'_, Month>>
    ensures { IfSome result (λ found. Cut (Spells false (component.MonthNumerical modifiers))
        input.now found.0.now (month_ found.1)) }
{
    let number = places(input, modifiers.padding)?;
    match Month::from_number(NonZero::<u8>::new(number.1)?) {
        Ok(month) => Some(ParsedItem(number.0, month)),
        Err(_) => None,
    }
}

/// Reads the first three letters of a month's English name, a capital and two small ones, whatever the modifiers.
/// `None`: the input doesn't begin with them.
#[inline(always)]
pub(crate) fn month_name(
    input: &[u8],
    modifiers: modifier::MonthShort,
) -> Option<ParsedItem<'_, Month>>
    ensures { IfSome result (λ found. Cut (Spells false (component.MonthShort modifiers))
        input.now found.0.now (month_ found.1)) }
{
    let [first, second, third, rest @ ..] = input else {
        return None;
    };
    let month = fast::month_name([*first, *second, *third])?;
    Some(ParsedItem(rest, month))
}

/// Reads a day's number, 1 to 99: two ASCII digits, or what else `places` accepts with this padding. It isn't checked
/// against 31. `None` if there is no number, or if it is 0.
#[inline(always)]
pub(crate) fn day(input: &[u8], modifiers: modifier::Day) -> Option<ParsedItem<'_, NonZero<u8>>>
    ensures { IfSome result (λ found. Cut (Spells false (component.Day modifiers))
        input.now found.0.now (number found.1.value)) }
{
    let day = places(input, modifiers.padding)?;
    Some(ParsedItem(day.0, NonZero::<u8>::new(day.1)?))
}

/// Reads a number, 0 to 99: two ASCII digits, or what else `places` accepts with this padding. `None` if there is none.
#[inline(always)]
pub(crate) fn two_places(input: &[u8], padding: Padding) -> Option<ParsedItem<'_, u8>>
    ensures { IfSome result (λ found. Cut (HasMappedValue number (IsPaddedRun padding 2 2))
        input.now found.0.now (number found.1)) }
{
    let found = places(input, padding)?;
    Some(found)
}

/// Reads the minute of an offset, without a sign: two ASCII digits, or what else `places` accepts with this padding.
/// `None` if there is no number, or if it is above 59.
#[inline(always)]
pub(crate) fn offset_minute(
    input: &[u8],
    modifiers: modifier::OffsetMinute,
) -> Option<ParsedItem<'_, i8>>
    ensures cut { IfSome result (λ found. Cut (Spells false (component.OffsetMinute modifiers))
        input.now found.0.now (signed found.1)) }
    ensures within { IfSome result (λ found. (n : ℕ) × (n ≤ 59) × (found.1 ≡ pos n)) }
    ensures fits { IfSome result (λ found. FitsSigned w8 found.1) }
{
    let minute = places(input, modifiers.padding)?;
    if minute.1 > 59 {
        return None;
    }
    Some(ParsedItem(minute.0, minute.1 as i8))
}

/// Reads a date of that form with a year of four digits without a sign, and returns the rest. `None` if the input
/// doesn't begin with one. The day is 1 to 31, and isn't checked against the month.
#[inline(always)]
pub(crate) fn date<'a>(form: &Dated, input: &'a [u8]) -> Option<(DateNumbers, &'a [u8])>
    ensures { IfSome result (λ f. (r : Record) → ReadsAll greatest_year (leaves (dated_parts form.now))
        input.now r f.1.now (with_date f.0 r)) }
{
    match form {
        Dated::YearFirst(between) | Dated::StandardYearFirst(between) => {
            year_first(input, *between)
        }
        Dated::DayFirst(between) => day_first(input, *between),
    }
}

/// Reads `YYYY MM DD` with the byte `between` for each space, and returns the rest. Components of both ranges of years
/// parse it equally. `None` if the input begins otherwise, or if the month isn't 1 to 12 or the day isn't 1 to 31.
#[inline(always)]
pub(crate) fn year_first(input: &[u8], between: u8) -> Option<(DateNumbers, &[u8])>
    ensures extended { IfSome result (λ f. (r : Record) → ReadsAll greatest_year (leaves (date_parts between))
        input.now r f.1.now (with_date f.0 r)) }
    ensures standard { IfSome result (λ f. (r : Record) → ReadsAll greatest_year (leaves (standard_date_parts between))
        input.now r f.1.now (with_date f.0 r)) }
{
    let year = year(input, YEAR)?;
    let month = month_number(after(year.0, between)?, MONTH)?;
    let day = day(after(month.0, between)?, DAY)?;
    if day.1.get() > 31 {
        return None;
    }
    let numbers = DateNumbers {
        year: year.1,
        month: month.1,
        day: day.1,
    };
    Some((numbers, day.0))
}

/// Reads `DD Mmm YYYY` with the byte `between` for each space, and returns the rest. `Mmm` is the short English name of
/// a month, such as `Mar`. `None` if the input begins otherwise, or if the day isn't 1 to 31.
#[inline(always)]
pub(crate) fn day_first(input: &[u8], between: u8) -> Option<(DateNumbers, &[u8])>
    ensures { IfSome result (λ f. (r : Record) → ReadsAll greatest_year (leaves (day_first_parts between))
        input.now r f.1.now (with_date f.0 r)) }
{
    let day = day(input, DAY)?;
    let month = month_name(after(day.0, between)?, MONTH_NAME)?;
    let year = year(after(month.0, between)?, YEAR)?;
    if day.1.get() > 31 {
        return None;
    }
    let numbers = DateNumbers {
        year: year.1,
        month: month.1,
        day: day.1,
    };
    Some((numbers, year.0))
}

/// Reads `HH MM SS` with the byte `between` for each space, and returns the rest. `None` if the input begins otherwise,
/// or if the hour is above 23, the minute above 59 or the second above 60.
#[inline(always)]
pub(crate) fn clock(between: u8, input: &[u8]) -> Option<(ClockNumbers, &[u8])>
    ensures { IfSome result (λ f. (r : Record) → ReadsAll greatest_year (leaves (time_parts between))
        input.now r f.1.now (with_clock f.0 r)) }
{
    let hour = two_places(input, Padding::Zero)?;
    let minute = two_places(after(hour.0, between)?, Padding::Zero)?;
    let second = two_places(after(minute.0, between)?, Padding::Zero)?;
    if hour.1 > 23 || minute.1 > 59 || second.1 > 60 {
        return None;
    }
    let numbers = ClockNumbers {
        hour: hour.1,
        minute: minute.1,
        second: second.1,
    };
    Some((numbers, second.0))
}

/// The rest of the input after a given byte, or all of the input if none is given. `None`: the input begins otherwise.
#[inline(always)]
pub(crate) fn after_byte(input: &[u8], byte: Option<u8>) -> Option<&[u8]>
    ensures { IfSome result (λ rest. input.now ≡ bytes_of byte ++ rest.now) }
{
    match byte {
        Some(byte) => after(input, byte),
        None => Some(input),
    }
}

/// Reads an offset: `+` or `-`, two digits of the hour, the byte `between` if it is given, and two digits of the
/// minute. Returns the rest too. `None` if the input begins otherwise, or if the hour is above 25 or the minute above
/// 59.
#[inline(always)]
pub(crate) fn offset(between: Option<u8>, input: &[u8]) -> Option<(OffsetNumbers, &[u8])>
    ensures reads { IfSome result (λ f. (r : Record) → ReadsAll greatest_year (leaves (offset_parts between))
        input.now r f.1.now (with_offset f.0 r)) }
    ensures within { IfSome result (λ f. (n : ℕ) × (n ≤ 59) × (f.0.minute ≡ pos n)) }
    ensures fits { IfSome result (λ f. FitsSigned w8 f.0.hour) }
{
    let hour = fast::offset_hour(input, OFFSET_HOUR.padding, OFFSET_HOUR.sign_is_mandatory)?;
    let minute = offset_minute(after_byte(hour.0, between)?, OFFSET_MINUTE)?;
    if hour.1.0 < -25 || hour.1.0 > 25 {
        return None;
    }
    let numbers = OffsetNumbers {
        hour: hour.1.0,
        is_negative: hour.1.1,
        minute: minute.1,
    };
    Some((numbers, minute.0))
}

// Whether the input begins with this byte.
#[inline(always)]
fn begins_with(input: &[u8], byte: u8) -> bool
    ensures { result ≡ false → (rest : List ℕ) → input.now ≡ byte ∷ rest → ⊥ }
{
    match input {
        [first, ..] => *first == byte,
        _ => false,
    }
}

/// The nanoseconds of a fraction of one to nine digits after the byte `point`, and the rest. If the input doesn't begin
/// with that byte, there is no fraction, and the rest is the input. `None` if no digit or more than nine follow the
/// byte.
#[inline(always)]
pub(crate) fn fraction(input: &[u8], point: u8) -> Option<(Option<u32>, &[u8])>
    ensures reads { IfSome result (λ f. (r : Record) → Reads greatest_year (fraction_tree point)
        input.now r f.1.now (with_subsecond f.0 r)) }
    ensures within { IfSome result (λ f. IfSome f.0 (λ n. n ≤ 999_999_999)) }
{
    if !begins_with(input, point) {
        return Some((None, input));
    }
    let fraction = fast::subsecond(after(input, point)?, SubsecondDigits::OneOrMore)?;
    if fraction.1 > 999_999_999 {
        return None;
    }
    Some((Some(fraction.1), fraction.0))
}

/// A second of two digits, 0 to 60, after the byte `between`, with the nanoseconds of its optional fraction after
/// `point`, and the rest. If the input doesn't begin with `between`, there is no second, and the rest is the input.
/// `None` if no such second follows `between`, or if no digit or more than nine follow the byte `point`.
#[inline(always)]
pub(crate) fn second(
    input: &[u8],
    between: u8,
    point: u8,
) -> Option<(Option<(u8, Option<u32>)>, &[u8])>
    ensures reads { IfSome result (λ f. (r : Record) → ReadsAll greatest_year (more (seconds_tree between point) none_)
        input.now r f.1.now (with_second f.0 r)) }
    ensures within { IfSome result (λ f. IfSome f.0 (λ s. (s.0 ≤ 60) × IfSome s.1 (λ n. n ≤ 999_999_999))) }
{
    if !begins_with(input, between) {
        return Some((None, input));
    }
    let second = two_places(after(input, between)?, Padding::Zero)?;
    let fraction = fraction(second.0, point)?;
    if second.1 > 60 {
        return None;
    }
    Some((Some((second.1, fraction.0)), fraction.1))
}
