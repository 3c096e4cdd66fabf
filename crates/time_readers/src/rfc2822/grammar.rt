//! The places of a mail date, parsed one after another, each with its form and its number.
ghost use Rattle.std.specs.Prelude.{◌≡◌, false, option_map};
ghost use Rattle.std.specs.Option.{option_copied};
ghost use Rattle.time_readers.specs.MailBlanks as spec;
ghost use Rattle.time_readers.specs.PlaceAnswers.{Reads, Walks};
ghost use Rattle.time_readers.specs.Rfc2822 as Rfc2822;
ghost use Rattle.time_readers.specs.Rfc2822.{PlaceSyntax, IsSilent, month_places, time_places, to_offset_places, offset_places};
ghost use Rattle.time_readers.specs.declared.rfc2822.Numbers.{Numbers};
ghost use Rattle.time_readers.specs.declared.rfc2822.Place.TheVariants as place;

pub(super) mod blanks;

use crate::combinator::{ascii_char, one_or_two_digits, sign, two_digits};
use crate::component::{parse_month_short, parse_weekday_short};
use crate::ranges::{four_digit_year, is_in_range, two_digits_in};
use crate::rfc2822::{Numbers, Place, cfws, fws, opt_cfws, opt_cfws_colon_opt_cfws, zone_literal};
use crate::{ParsedItem, modifier};
use time_values::sign::signed;

// Parses optional blanks and comments, and then nothing, or a weekday's first three letters in any case, a comma and
// optional blanks and comments. Stores the weekday, or `None`. Returns `None` for a name without a comma.
#[inline(always)]
pub(super) fn weekday_name<'a>(input: &'a [u8], numbers: &mut Numbers) -> Option<&'a [u8]>
    ensures { Reads (PlaceSyntax false place.WeekdayName numbers.old) input.now result numbers.new }
{
    let rest = opt_cfws(input).0;
    let any_case = modifier::WeekdayShort {
        case_sensitive: false,
    };
    let Some(name) = parse_weekday_short(rest, any_case) else {
        numbers.weekday = None;
        return Some(rest);
    };
    let comma = ascii_char::<b','>(name.0)?;
    numbers.weekday = Some(name.1);
    Some(opt_cfws(comma.0).0)
}

// Parses and stores a day of one or two digits: 1 to 31 with range checks, else 0 to 99.
#[inline(always)]
pub(super) fn day<'a, const CHECK_RANGES: bool>(
    input: &'a [u8],
    numbers: &mut Numbers,
) -> Option<&'a [u8]>
    ensures { Reads (PlaceSyntax CHECK_RANGES place.Day numbers.old) input.now result numbers.new }
{
    let found = one_or_two_digits(input)?;
    if !is_in_range::<CHECK_RANGES>(found.1, 1, 31) {
        return None;
    }
    numbers.day = found.1;
    Some(found.0)
}

// Parses the places after the day and before the offset, and stores their numbers. Returns the rest, or the first place
// that doesn't match.
#[inline(always)]
pub(super) fn to_offset<'a, const CHECK_RANGES: bool>(
    input: &'a [u8],
    numbers: &mut Numbers,
) -> Result<&'a [u8], Place>
    ensures { Walks (PlaceSyntax CHECK_RANGES) to_offset_places numbers.old input.now result numbers.new }
{
    let rest = month_and_year::<CHECK_RANGES>(input, numbers)?;
    time::<CHECK_RANGES>(rest, numbers)
}

// Parses the places of the month and the year, with the blanks beside them, and stores their numbers.
#[inline(always)]
fn month_and_year<'a, const CHECK_RANGES: bool>(
    input: &'a [u8],
    numbers: &mut Numbers,
) -> Result<&'a [u8], Place>
    ensures { Walks (PlaceSyntax CHECK_RANGES) month_places numbers.old input.now result numbers.new }
{
    let rest = blanks_with_comments(input).ok_or(Place::DayBlanks)?;
    let rest = month_name(rest, numbers).ok_or(Place::MonthName)?;
    let rest = blanks_with_comments(rest).ok_or(Place::MonthBlanks)?;
    let rest = year(rest, numbers).ok_or(Place::Year)?;
    year_blanks(rest, numbers.year_is_full).ok_or(Place::YearBlanks)
}

// Parses the places of the time and the blanks after it, and stores their numbers.
#[inline(always)]
fn time<'a, const CHECK_RANGES: bool>(
    input: &'a [u8],
    numbers: &mut Numbers,
) -> Result<&'a [u8], Place>
    ensures { Walks (PlaceSyntax CHECK_RANGES) time_places numbers.old input.now result numbers.new }
{
    let rest = hour::<CHECK_RANGES>(input, numbers).ok_or(Place::Hour)?;
    let rest = hour_colon(rest).ok_or(Place::HourColon)?;
    let rest = minute::<CHECK_RANGES>(rest, numbers).ok_or(Place::Minute)?;
    let rest = second::<CHECK_RANGES>(rest, numbers).ok_or(Place::Second)?;
    blanks_with_comments(rest).ok_or(Place::TimeBlanks)
}

// Parses the places of the offset and the blanks after it, and stores its numbers. Returns the rest, or the first place
// that doesn't match.
#[inline]
pub(super) fn offset<'a, const CHECK_RANGES: bool>(
    input: &'a [u8],
    numbers: &mut Numbers,
) -> Result<&'a [u8], Place>
    ensures { Walks (PlaceSyntax CHECK_RANGES) offset_places numbers.old input.now result numbers.new }
{
    let rest = offset_hour::<CHECK_RANGES>(input, numbers).ok_or(Place::OffsetHour)?;
    let rest = offset_minute::<CHECK_RANGES>(rest, numbers).ok_or(Place::OffsetMinute)?;
    end_blanks(rest).ok_or(Place::EndBlanks)
}

// The rest of a parsed item, without its empty value. `None` for `None`.
#[inline(always)]
fn rest_of(answer: Option<ParsedItem<'_, ()>>) -> Option<&[u8]>
    ensures { option_copied result ≡ option_map (λ p. p.0.now) answer.entry }
{
    match answer {
        Some(found) => Some(found.0),
        None => None,
    }
}

// Parses blanks and comments, one or more of them.
#[inline(always)]
fn blanks_with_comments(input: &[u8]) -> Option<&[u8]>
    ensures { (n : Numbers) → Reads (IsSilent spec.cfws n) input.now result n }
{
    rest_of(cfws(input))
}

// Parses the first three letters of a month's name, in any case, and stores the month.
#[inline(always)]
fn month_name<'a>(input: &'a [u8], numbers: &mut Numbers) -> Option<&'a [u8]>
    ensures { Reads (PlaceSyntax false place.MonthName numbers.old) input.now result numbers.new }
{
    let any_case = modifier::MonthShort {
        case_sensitive: false,
    };
    let found = parse_month_short(input, any_case)?;
    numbers.month = found.1;
    Some(found.0)
}

// Parses and stores a year: four digits of 1900 or later; or, without four digits, two: 00 to 49 as 2000 to 2049, and
// 50 to 99 as 1950 to 1999. Stores also whether it has four digits.
#[inline(always)]
fn year<'a>(input: &'a [u8], numbers: &mut Numbers) -> Option<&'a [u8]>
    ensures { Reads (PlaceSyntax false place.Year numbers.old) input.now result numbers.new }
{
    if let Some(full) = four_digit_year(input) {
        if full.1 < 1900 {
            return None;
        }
        numbers.year = full.1;
        numbers.year_is_full = true;
        return Some(full.0);
    }
    let short = two_digits(input)?;
    let century = if short.1 < 50 { 2000 } else { 1900 };
    numbers.year = century + u16::from(short.1);
    numbers.year_is_full = false;
    Some(short.0)
}

// Parses blanks and comments, one or more of them, after a year of two digits, and one `fws` after a year of four.
#[inline(always)]
fn year_blanks(input: &[u8], year_is_full: bool) -> Option<&[u8]>
    ensures { (n : Numbers) → Reads (IsSilent (Rfc2822.year_blanks year_is_full) n) input.now result n }
{
    if year_is_full {
        rest_of(fws(input))
    } else {
        rest_of(cfws(input))
    }
}

// Parses and stores an hour of two digits: 0 to 23 with range checks, else 0 to 99.
#[inline(always)]
fn hour<'a, const CHECK_RANGES: bool>(input: &'a [u8], numbers: &mut Numbers) -> Option<&'a [u8]>
    ensures { Reads (PlaceSyntax CHECK_RANGES place.Hour numbers.old) input.now result numbers.new }
{
    let found = two_digits_in::<CHECK_RANGES>(input, 0, 23)?;
    numbers.hour = found.1;
    Some(found.0)
}

// Parses a colon between optional blanks and comments.
#[inline(always)]
fn hour_colon(input: &[u8]) -> Option<&[u8]>
    ensures { (n : Numbers) → Reads (IsSilent spec.opt_cfws_colon_opt_cfws n) input.now result n }
{
    rest_of(opt_cfws_colon_opt_cfws(input))
}

// Parses two digits and stores them as the minute: 0 to 59 with range checks, else 0 to 99.
#[inline(always)]
fn minute<'a, const CHECK_RANGES: bool>(input: &'a [u8], numbers: &mut Numbers) -> Option<&'a [u8]>
    ensures { Reads (PlaceSyntax CHECK_RANGES place.Minute numbers.old) input.now result numbers.new }
{
    let found = two_digits_in::<CHECK_RANGES>(input, 0, 59)?;
    numbers.minute = found.1;
    Some(found.0)
}

// Parses nothing if there is no colon, and stores `None`; or a colon between optional blanks and comments, and two
// digits, and stores the second: 0 to 60 with range checks, else 0 to 99. `None` for a colon without such digits.
#[inline(always)]
fn second<'a, const CHECK_RANGES: bool>(input: &'a [u8], numbers: &mut Numbers) -> Option<&'a [u8]>
    ensures { Reads (PlaceSyntax CHECK_RANGES place.Second numbers.old) input.now result numbers.new }
{
    let Some(colon) = opt_cfws_colon_opt_cfws(input) else {
        numbers.second = None;
        return Some(input);
    };
    let found = two_digits_in::<CHECK_RANGES>(colon.0, 0, 60)?;
    numbers.second = Some(found.1);
    Some(found.0)
}

// Parses a sign and two digits, 0 to 25 with range checks, else 0 to 99; or a zone name. Stores the sign, or `None` for
// a zone name, and the hour with its sign. No zone name begins with a sign.
#[inline(always)]
fn offset_hour<'a, const CHECK_RANGES: bool>(
    input: &'a [u8],
    numbers: &mut Numbers,
) -> Option<&'a [u8]>
    ensures { Reads (PlaceSyntax CHECK_RANGES place.OffsetHour numbers.old) input.now result numbers.new }
{
    let Some(first) = sign(input) else {
        let zone = zone_literal(input)?;
        numbers.offset_sign = None;
        numbers.offset_hour = zone.1;
        return Some(zone.0);
    };
    let found = two_digits_in::<CHECK_RANGES>(first.0, 0, 25)?;
    numbers.offset_sign = Some(first.1);
    numbers.offset_hour = signed(first.1.is_negative(), found.1);
    Some(found.0)
}

// Parses two digits after a signed hour, 0 to 59 with range checks, else 0 to 99, and stores the minute with that sign.
// Parses nothing after a zone name, and leaves the minute unchanged.
#[inline(always)]
fn offset_minute<'a, const CHECK_RANGES: bool>(
    input: &'a [u8],
    numbers: &mut Numbers,
) -> Option<&'a [u8]>
    ensures { Reads (PlaceSyntax CHECK_RANGES place.OffsetMinute numbers.old) input.now result numbers.new }
{
    let Some(sign) = numbers.offset_sign else {
        return Some(input);
    };
    let found = two_digits_in::<CHECK_RANGES>(input, 0, 59)?;
    numbers.offset_minute = signed(sign.is_negative(), found.1);
    Some(found.0)
}

// Parses blanks and comments, or nothing.
#[inline(always)]
fn end_blanks(input: &[u8]) -> Option<&[u8]>
    ensures { (n : Numbers) → Reads (IsSilent spec.opt_cfws n) input.now result n }
{
    let rest = opt_cfws(input);
    Some(rest.0)
}
