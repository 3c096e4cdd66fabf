//! Locates the errors of RFC 2822 texts.
ghost use Rattle.std.specs.Prelude.{◌≡◌, ℕ, ◌++◌, Bool, true, List, length, Option, Some, is_some, option_map};
ghost use Rattle.std.specs.Option.{option_copied};
ghost use Rattle.time_values.specs.declared.weekday.Weekday.{Weekday};
ghost use Rattle.time_digits.specs.Digits.{Cut, IsDigitRun};
ghost use Rattle.time_readers.specs.Rfc2822.{PlaceSyntax, FailsAt, HasForm, IsSecond, IsWeekdayPart, IsYear, fault, nothing_read, places};
ghost use Rattle.time_readers.specs.declared.rfc2822.Numbers.{Numbers};
ghost use Rattle.time_readers.specs.declared.rfc2822.Place.TheVariants as place;
ghost use Rattle.time_locating.specs.Marks.{MarksPlaces};
ghost use Rattle.time_locating.specs.MailPlaces.{Agrees, rank};
ghost use Rattle.time_locating.specs.Located.{wants};
ghost use Rattle.time_locating.specs.Rfc2822 as spec;
ghost use Rattle.time_locating.specs.Rfc2822.{expected_at};

use crate::located::{after_all, past_bytes};
use crate::mark::{expected_of, index_of, is_place_of};
use crate::{Expected, Locate, Located};
use time_parsing::Rfc2822;
use time_readers::combinator::{ascii_char, exactly_n_digits, one_or_two_digits};
use time_readers::component::parse_weekday_short;
use time_readers::rfc2822::{
    Place, cfws, fws, opt_cfws, opt_cfws_colon_opt_cfws, place_fault, read, zone_literal,
};
use time_readers::{ParsedItem, modifier};
use time_record::Parsed;

// How many letters a weekday's abbreviated name has.
const WEEKDAY_LETTERS: usize = 3;

// All fifteen places (parts) of an RFC 2822 text, in order.
const PLACES: [Place; 15] = [
    Place::WeekdayName,
    Place::Day,
    Place::DayBlanks,
    Place::MonthName,
    Place::MonthBlanks,
    Place::Year,
    Place::YearBlanks,
    Place::Hour,
    Place::HourColon,
    Place::Minute,
    Place::Second,
    Place::TimeBlanks,
    Place::OffsetHour,
    Place::OffsetMinute,
    Place::EndBlanks,
];

// What is reported as expected at a place: `,` at the weekday, a space at required blanks, `:` after the hour, or else
// the component that the place's error names. The blanks at the end always match.
fn expected_at(place: Place) -> Expected<'static>
    ensures { wants result ≡ expected_at place }
{
    match place {
        Place::WeekdayName => Expected::Literal(b","),
        Place::DayBlanks | Place::MonthBlanks | Place::YearBlanks | Place::TimeBlanks => {
            Expected::Literal(b" ")
        }
        Place::HourColon => Expected::Literal(b":"),
        _ => expected_of(place_fault(place)),
    }
}

// The bytes that are left where the expected text should begin, given those that are left at the place's start. At the
// weekday they begin after its blanks and three letters (none if fewer are left), at the hour's colon after the blanks
// before it, and at a second after its colon and the blanks beside it. Otherwise, or if a second has no colon, they are
// the input.
fn expected_from(place: Place, input: &[u8]) -> &[u8]
    ensures { result.now ≡ spec.expected_from place input.now }
{
    match place {
        Place::WeekdayName => opt_cfws(input).0.get(WEEKDAY_LETTERS..).unwrap_or(&[]),
        Place::HourColon => opt_cfws(input).0,
        Place::Second => past_blanks(opt_cfws_colon_opt_cfws(input)).unwrap_or(input),
        _ => input,
    }
}

// What the places of a text that were parsed so far determine for those after them.
#[derive(Clone, Copy)]
struct Passed {
    // Whether the year has four digits.
    year_is_full: bool,
    // Whether the offset has a sign, and isn't a zone name.
    offset_has_sign: bool,
}

// The rest after blanks that were parsed, or `None` if they weren't.
fn past_blanks(found: Option<ParsedItem<'_, ()>>) -> Option<&[u8]>
    ensures { option_copied result ≡ option_map (λ p. p.0.now) found.entry }
{
    Some(found?.0)
}

// The rest after optional blanks and, if the first three letters of a weekday's name follow in any case, these, a comma
// and optional blanks. `None` if that comma is missing, which the contract doesn't cover.
fn past_weekday(input: &[u8]) -> Option<&[u8]>
    ensures { (rest : List ℕ) (v : Option Weekday) → Cut IsWeekdayPart input.now rest v → option_copied result ≡ Some rest }
{
    let rest = opt_cfws(input).0;
    let any_case = modifier::WeekdayShort {
        case_sensitive: false,
    };
    match parse_weekday_short(rest, any_case) {
        Some(name) => {
            let comma = ascii_char::<b','>(name.0)?;
            Some(opt_cfws(comma.0).0)
        }
        None => Some(rest),
    }
}

// The rest after the one or two digits of a day, or `None` without a digit.
fn past_day(input: &[u8]) -> Option<&[u8]>
    ensures { (rest : List ℕ) (v : ℕ) → Cut (IsDigitRun 1 2) input.now rest v → option_copied result ≡ Some rest }
{
    let found = one_or_two_digits(input)?;
    Some(found.0)
}

// The rest after a year, and whether the year has four digits. Otherwise it has two bytes, and the rest is `None` if
// fewer are left.
fn past_year(input: &[u8]) -> (Option<&[u8]>, bool)
    ensures { (full : Bool) (rest : List ℕ) (v : ℕ) → Cut (IsYear full) input.now rest v
        → (option_copied result.0 ≡ Some rest) × (result.1 ≡ full) }
{
    match exactly_n_digits::<4>(input) {
        Some(found) => (Some(found.0), true),
        None => (past_bytes(input, 2), false),
    }
}

// The rest after a colon, with optional blanks and comments beside it, and a second's two bytes (`None` if fewer are
// left). Without a colon the rest is the input.
fn past_second(input: &[u8]) -> Option<&[u8]>
    ensures { (rest : List ℕ) (v : Option ℕ) → Cut (IsSecond true) input.now rest v → option_copied result ≡ Some rest }
{
    match opt_cfws_colon_opt_cfws(input) {
        Some(colon) => past_bytes(colon.0, 2),
        None => Some(input),
    }
}

// The rest after a zone name, and `false`; or else after the three bytes of a sign and an hour, which aren't checked
// (`None` if fewer are left), and `true`.
fn past_offset_hour(input: &[u8]) -> (Option<&[u8]>, bool)
    ensures { (n m : Numbers) (rest : List ℕ) → Cut (PlaceSyntax true place.OffsetHour n) input.now rest m
        → (option_copied result.0 ≡ Some rest) × (result.1 ≡ is_some m.offset_sign) }
{
    match zone_literal(input) {
        Some(zone) => (Some(zone.0), false),
        None => (past_bytes(input, 3), true),
    }
}

// The rest after a place that matches. The year and the hour of the offset set their fields of `passed`, on which the
// blanks after the year and the minute of the offset depend. Whether the place matches isn't fully checked, so the
// result is only meant for one that does.
fn past<'a>(place: Place, input: &'a [u8], passed: &mut Passed) -> Option<&'a [u8]>
    ensures { (n m : Numbers) (rest : List ℕ) → Agrees n passed.old → Cut (PlaceSyntax true place n) input.now rest m
        → (option_copied result ≡ Some rest) × Agrees m passed.new }
{
    match place {
        Place::WeekdayName => past_weekday(input),
        Place::Day => past_day(input),
        Place::DayBlanks | Place::MonthBlanks | Place::TimeBlanks => past_blanks(cfws(input)),
        Place::MonthName => past_bytes(input, 3),
        Place::Year => {
            let (rest, is_full) = past_year(input);
            passed.year_is_full = is_full;
            rest
        }
        Place::YearBlanks => {
            if passed.year_is_full {
                past_blanks(fws(input))
            } else {
                past_blanks(cfws(input))
            }
        }
        Place::Hour | Place::Minute => past_bytes(input, 2),
        Place::HourColon => past_blanks(opt_cfws_colon_opt_cfws(input)),
        Place::Second => past_second(input),
        Place::OffsetHour => {
            let (rest, has_sign) = past_offset_hour(input);
            passed.offset_has_sign = has_sign;
            rest
        }
        Place::OffsetMinute => past_bytes(input, if passed.offset_has_sign { 2 } else { 0 }),
        Place::EndBlanks => Some(opt_cfws(input).0),
    }
}

// How many of the fifteen places precede this one.
fn places_before(place: Place) -> usize
    ensures { result ≡ rank place }
{
    place as usize
}

// The bytes from the start of this place on. The result is only meant for a text whose places before this one match.
fn rest_before<'a>(place: Place, input: &'a [u8]) -> Option<&'a [u8]>
    ensures { (stop : FailsAt true input.now place) → option_copied result ≡ Some stop.mid }
{
    let mut rest = input;
    let mut passed = Passed {
        year_is_full: false,
        offset_has_sign: false,
    };
    for before in &PLACES[..places_before(place)] {
        rest = past(*before, rest, &mut passed)?;
    }
    Some(rest)
}

// How many bytes are left at the start of the component of this name, in a text whose places all match. `None` if no
// place's error has the name (as for `weekday`), or if that place's text is empty.
fn mark_of_place(input: &[u8], name: &str) -> Option<usize>
    ensures { (rest : List ℕ) (n : Numbers) → HasForm true input.now rest n
        → MarksPlaces (PlaceSyntax true) spec.expected_from fault name.now places nothing_read input.now result }
{
    let mut rest = input;
    let mut passed = Passed {
        year_is_full: false,
        offset_has_sign: false,
    };
    for place in &PLACES {
        let after = past(*place, rest, &mut passed)?;
        if is_place_of(place_fault(*place), name, rest, after) {
            return Some(expected_from(*place, rest).len());
        }
        rest = after;
    }
    None
}

/// The error is in the first of the fifteen places of RFC 2822 that doesn't match or whose number is out of range. If
/// all match, it is at the first byte after them. A missing comma is located right after the three letters of the
/// weekday, a missing colon after the hour and the blanks that follow it, and a second after its colon and the blanks
/// beside it. Any other place is located at its start. The defaults have no effect.
impl Locate for Rfc2822 {
    ghost use Rattle.time_locating.specs.Rfc2822.{Locates};

    ghost locates = { λ _. Locates };

    fn locate<'a>(&'a self, input: &[u8], _defaults: Option<Parsed>) -> Option<Located<'a>> {
        match read::<true>(input) {
            Ok(found) => after_all(found.0, input),
            Err(place) => {
                let rest = rest_before(place, input)?;
                Some(Located {
                    index: input.len() - expected_from(place, rest).len(),
                    expected: expected_at(place),
                })
            }
        }
    }

    ghost use Rattle.time_locating.specs.exact.PlaceLaws.{rfc2822_exact_place};

    ghost exact_place = { λ _. rfc2822_exact_place };

    ghost use Rattle.time_locating.specs.Rfc2822.{Marks};

    ghost marks = { λ _. Marks };

    fn locate_component(
        &self,
        input: &[u8],
        _defaults: Option<Parsed>,
        name: &str,
    ) -> Option<usize> {
        match read::<true>(input) {
            Ok(_) => index_of(mark_of_place(input, name), input),
            Err(_) => None,
        }
    }

    ghost use Rattle.time_locating.specs.exact.PlaceLaws.{rfc2822_exact_mark};

    ghost exact_mark = { λ _. rfc2822_exact_mark };
}
