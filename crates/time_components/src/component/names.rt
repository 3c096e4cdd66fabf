//! Names of months and weekdays, single digits and pairs of letters.
ghost use Rattle.std.specs.Prelude.{◌≡◌, ◌↔◌, drop, IsTrue, ◌≢◌, ◌≤◌, MatchOption};
ghost use Rattle.time_digits.specs.Digits.{Finds};
ghost use Rattle.time_values.specs.Names.{month_name, weekday_name};
ghost use Rattle.time_components.specs.Spelling.{IsNamed, IsShortOf, HasMappedValue, month, weekday, IsNameOf, period_name};
ghost use Rattle.time_components.specs.ShortNames as ShortNames;
ghost use Rattle.time_components.specs.ShortNames.{IsTitleCase, IsWithLetters, IsEnding, IsDayDigit, IsLetters};
ghost use Rattle.time_components.specs.Spelling as Spelling;

use crate::{ParsedItem, Period, modifier};
use time_values::{Month, Weekday, names};

// Parses the first three letters of a month's English name: `Jan`, or any ASCII case of it unless `case_sensitive`.
#[inline(always)]
pub(super) fn month_short(input: &[u8], case_sensitive: bool) -> Option<ParsedItem<'_, Month>>
    ensures { Finds (HasMappedValue month (IsShortOf case_sensitive month_name)) month input.now result }
{
    let letters = three_letters(input, case_sensitive)?;
    let month = month_of(letters.1)?;
    Some(ParsedItem(letters.0, month))
}

// Parses the first three letters of a weekday's English name: `Mon`, or any ASCII case of it unless `case_sensitive`.
#[inline(always)]
pub(super) fn weekday_short(input: &[u8], case_sensitive: bool) -> Option<ParsedItem<'_, Weekday>>
    ensures { Finds (HasMappedValue weekday (IsShortOf case_sensitive weekday_name)) weekday input.now result }
{
    let letters = three_letters(input, case_sensitive)?;
    let weekday = weekday_of(letters.1)?;
    Some(ParsedItem(letters.0, weekday))
}

// Parses any three bytes, and returns them in ASCII lower case. With `case_sensitive` they must be a capital and two
// small ASCII letters; otherwise they need not be letters. Returns `None` for other or fewer bytes.
#[inline(always)]
fn three_letters(input: &[u8], case_sensitive: bool) -> Option<ParsedItem<'_, [u8; 3]>>
    ensures { Finds (IsTitleCase case_sensitive) (λ v. v) input.now result }
{
    let [first, second, third, rest @ ..] = input else {
        return None;
    };
    if case_sensitive && !is_title_case([*first, *second, *third]) {
        return None;
    }
    let small = [
        first.to_ascii_lowercase(),
        second.to_ascii_lowercase(),
        third.to_ascii_lowercase(),
    ];
    Some(ParsedItem(rest, small))
}

// Whether the bytes are an ASCII capital and two small ASCII letters.
#[inline]
fn is_title_case(letters: [u8; 3]) -> bool
    ensures { result ≡ ShortNames.is_title_case letters }
{
    let [first, second, third] = letters;
    first.is_ascii_uppercase() && second.is_ascii_lowercase() && third.is_ascii_lowercase()
}

// The month whose name, in lower case, begins with exactly these letters. Returns `None` if no month's name does.
#[inline(always)]
fn month_of(letters: [u8; 3]) -> Option<Month>
    ensures { IsWithLetters month_name letters result }
{
    match &letters {
        b"jan" => Some(Month::January),
        b"feb" => Some(Month::February),
        b"mar" => Some(Month::March),
        b"apr" => Some(Month::April),
        b"may" => Some(Month::May),
        b"jun" => Some(Month::June),
        b"jul" => Some(Month::July),
        b"aug" => Some(Month::August),
        b"sep" => Some(Month::September),
        b"oct" => Some(Month::October),
        b"nov" => Some(Month::November),
        b"dec" => Some(Month::December),
        _ => None,
    }
}

// The weekday whose name, in lower case, begins with exactly these letters. Returns `None` if no weekday's name does.
#[inline(always)]
fn weekday_of(letters: [u8; 3]) -> Option<Weekday>
    ensures { IsWithLetters weekday_name letters result }
{
    match &letters {
        b"mon" => Some(Weekday::Monday),
        b"tue" => Some(Weekday::Tuesday),
        b"wed" => Some(Weekday::Wednesday),
        b"thu" => Some(Weekday::Thursday),
        b"fri" => Some(Weekday::Friday),
        b"sat" => Some(Weekday::Saturday),
        b"sun" => Some(Weekday::Sunday),
        _ => None,
    }
}

// The month's English name after its first three letters: empty for May.
pub(super) fn month_ending(month: Month) -> &'static [u8]
    ensures { result.now ≡ drop 3 (month_name month) }
{
    &names::month_name(month).as_bytes()[3..]
}

// The weekday's English name after its first three letters.
pub(super) fn weekday_ending(weekday: Weekday) -> &'static [u8]
    ensures { result.now ≡ drop 3 (weekday_name weekday) }
{
    &names::weekday_name(weekday).as_bytes()[3..]
}

// Parses the bytes of `ending`, in any ASCII case unless `case_sensitive`. Returns `None` for other bytes.
pub(super) fn ending_of<'a>(
    input: &'a [u8],
    ending: &[u8],
    case_sensitive: bool,
) -> Option<ParsedItem<'a, ()>>
    ensures { Finds (IsEnding ending.now case_sensitive) (λ v. v) input.now result }
{
    match input.split_at_checked(ending.len()) {
        Some(parts) if is_named(parts.0, ending, case_sensitive) => {
            Some(ParsedItem(parts.1, ()))
        }
        _ => None,
    }
}

// Whether the text is the whole name, in any ASCII case unless `case_sensitive`.
fn is_named(text: &[u8], name: &[u8], case_sensitive: bool) -> bool
    ensures { IsTrue result ↔ IsNamed case_sensitive name.now text.now }
{
    if case_sensitive {
        text == name
    } else {
        text.eq_ignore_ascii_case(name)
    }
}

// Parses one digit, `0` to `6`, or `1` to `7` with `one_indexed`, and returns 0 to 6. `None` for any other input.
#[inline]
pub(super) fn weekday_digit(input: &[u8], one_indexed: bool) -> Option<ParsedItem<'_, u8>>
    ensures { Finds (IsDayDigit one_indexed) (λ v. v) input.now result }
{
    let [digit, rest @ ..] = input else {
        return None;
    };
    let first = first_digit(one_indexed);
    if first <= *digit && *digit < first + 7 {
        Some(ParsedItem(rest, *digit - first))
    } else {
        None
    }
}

// The byte of the digit for the first day of the week: `1` with `one_indexed`, and otherwise `0`.
#[inline]
fn first_digit(one_indexed: bool) -> u8
    ensures value { result ≡ Spelling.first_digit one_indexed }
    ensures most { result ≤ 49 }
{
    if one_indexed { b'1' } else { b'0' }
}

// Parses any two bytes, and returns them unchanged with `case_sensitive`, and otherwise in ASCII lower case.
#[inline]
fn two_letters(input: &[u8], case_sensitive: bool) -> Option<ParsedItem<'_, [u8; 2]>>
    ensures { Finds (IsLetters case_sensitive) (λ v. v) input.now result }
{
    let [first, second, rest @ ..] = input else {
        return None;
    };
    Some(ParsedItem(rest, folded([*first, *second], case_sensitive)))
}

// The letters, unchanged with `case_sensitive`, and otherwise in ASCII lower case.
#[inline]
fn folded(letters: [u8; 2], case_sensitive: bool) -> [u8; 2]
    ensures { result ≡ ShortNames.folded case_sensitive letters }
{
    if case_sensitive {
        letters
    } else {
        let [first, second] = letters;
        [first.to_ascii_lowercase(), second.to_ascii_lowercase()]
    }
}

// Parses the half of the day. With `case_sensitive`, the text is `AM` or `PM` if `is_uppercase`, and else `am` or `pm`;
// without it, either in any ASCII case.
#[inline(always)]
pub(super) fn period(input: &[u8], modifiers: modifier::Period) -> Option<ParsedItem<'_, Period>>
    ensures { Finds (HasMappedValue Spelling.period (IsNameOf modifiers.case_sensitive (period_name modifiers.is_uppercase)))
        Spelling.period input.now result }
{
    let modifier::Period {
        is_uppercase,
        case_sensitive,
    } = modifiers;
    let upper = is_uppercase && case_sensitive;
    let letters = two_letters(input, case_sensitive)?;
    Some(ParsedItem(letters.0, period_of(letters.1, upper)?))
}

// The half of the day that the letters name: `AM` or `PM` if `upper`, otherwise `am` or `pm`. Else returns `None`.
#[inline]
fn period_of(letters: [u8; 2], upper: bool) -> Option<Period>
    ensures { MatchOption result
        ((period : Period) → letters ≢ period_name upper period)
        (λ period. letters ≡ period_name upper period) }
{
    match letters {
        [b'A', b'M'] if upper => Some(Period::Am),
        [b'P', b'M'] if upper => Some(Period::Pm),
        [b'a', b'm'] if !upper => Some(Period::Am),
        [b'p', b'm'] if !upper => Some(Period::Pm),
        _ => None,
    }
}
