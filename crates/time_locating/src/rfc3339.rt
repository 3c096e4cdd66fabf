//! Locates the errors of RFC 3339 texts.
ghost use Rattle.std.specs.Prelude.{◌≡◌, ◌≤◌, ℕ, ◌+◌, ◌++◌, true, length, List, Option, Some};
ghost use Rattle.std.specs.Option.{option_copied};
ghost use Rattle.time_digits.specs.Digits.{Cut};
ghost use Rattle.time_readers.specs.Rfc3339.{PlaceSyntax, FailsAt, HasForm, IsSubsecond, fault, nothing_read, places};
ghost use Rattle.time_readers.specs.declared.rfc3339.Numbers.{Numbers};
ghost use Rattle.time_readers.specs.declared.rfc3339.Place.TheVariants as place;
ghost use Rattle.time_values.specs.Calendar.{greatest_year};
ghost use Rattle.time_locating.specs.Marks.{MarksPlaces, at_once};
ghost use Rattle.time_record.specs.Record.{Record};
ghost use Rattle.time_parsing.specs.Rfc3339.{Reads};
ghost use Rattle.time_locating.specs.Located.{IsLocated, wants};
ghost use Rattle.time_locating.specs.Rfc3339.{expected_at, Locates};

use crate::located::{after_all, past_bytes};
use crate::mark::{expected_of, index_of as index_of_mark, is_place_of};
use crate::{Expected, Locate, Located};
use time_parsing::Rfc3339;
use time_readers::combinator::{ascii_char_ignore_case, leading_digits};
use time_readers::rfc3339::{Place, place_fault, read};
use time_record::Parsed;

// How many bytes the places from the year to the second have.
const TO_SECOND: usize = 19;

// All fifteen places (parts) of an RFC 3339 text, in order.
const PLACES: [Place; 15] = [
    Place::Year,
    Place::YearDash,
    Place::Month,
    Place::MonthDash,
    Place::Day,
    Place::Separator,
    Place::Hour,
    Place::HourColon,
    Place::Minute,
    Place::MinuteColon,
    Place::Second,
    Place::Subsecond,
    Place::OffsetHour,
    Place::OffsetColon,
    Place::OffsetMinute,
];

// What is reported as expected at a place: its fixed byte, `-` or `:`, or else the component that its error names.
fn expected_at(place: Place) -> Expected<'static>
    ensures { wants result ≡ expected_at place }
{
    match place {
        Place::YearDash | Place::MonthDash => Expected::Literal(b"-"),
        Place::HourColon | Place::MinuteColon | Place::OffsetColon => Expected::Literal(b":"),
        _ => expected_of(place_fault(place)),
    }
}

// How many bytes a second's fraction has with its point, or 0 if the input doesn't begin with a point. For a point
// without digits the contract only states that the result is at most the input's length.
fn fraction_len(input: &[u8]) -> usize
    ensures within { result ≤ length input.now }
    ensures is { (text rest : List ℕ) (v : Option ℕ) → input.now ≡ text ++ rest → IsSubsecond text rest v
        → result ≡ length text }
{
    match input {
        [b'.', digits @ ..] => 1 + leading_digits(digits, digits.len()),
        _ => 0,
    }
}

// The index at which this place begins, if the places before it match and this one doesn't.
fn index_of(place: Place, input: &[u8]) -> usize
    ensures { (stop : FailsAt true input.now place) → result + length stop.mid ≡ length input.now }
{
    let past_fraction = match place {
        Place::Year => return 0,
        Place::YearDash => return 4,
        Place::Month => return 5,
        Place::MonthDash => return 7,
        Place::Day => return 8,
        Place::Separator => return 10,
        Place::Hour => return 11,
        Place::HourColon => return 13,
        Place::Minute => return 14,
        Place::MinuteColon => return 16,
        Place::Second => return 17,
        Place::Subsecond => return TO_SECOND,
        Place::OffsetHour => 0,
        // `Z` has no colon and no minute after it, so a sign and two digits precede these.
        Place::OffsetColon => 3,
        Place::OffsetMinute => 4,
    };
    let fraction = match input.get(TO_SECOND..) {
        Some(rest) => fraction_len(rest),
        None => 0,
    };
    (TO_SECOND + fraction).saturating_add(past_fraction)
}

// The rest after an offset's `Z`, in either case, or else after the three bytes of its sign and hour, which aren't
// checked (`None` if fewer are left). The `bool` is true after `Z`, and else `is_utc`.
fn past_offset_hour(input: &[u8], is_utc: bool) -> (Option<&[u8]>, bool)
    ensures { (n m : Numbers) (rest : List ℕ) → n.is_utc ≡ is_utc → Cut (PlaceSyntax true place.OffsetHour n) input.now rest m
        → (option_copied result.0 ≡ Some rest) × (m.is_utc ≡ result.1) }
{
    match ascii_char_ignore_case::<b'Z'>(input) {
        Some(zulu) => (Some(zulu.0), true),
        None => (past_bytes(input, 3), is_utc),
    }
}

// The rest after a place that matches. `Z` sets `is_utc`, and the colon and the minute of the offset are then empty.
// Whether the place matches isn't checked, so the result is only meant for one that does.
fn past<'a>(place: Place, input: &'a [u8], is_utc: &mut bool) -> Option<&'a [u8]>
    ensures { (n m : Numbers) (rest : List ℕ) → n.is_utc ≡ is_utc.old → Cut (PlaceSyntax true place n) input.now rest m
        → (option_copied result ≡ Some rest) × (m.is_utc ≡ is_utc.new) }
{
    match place {
        Place::Year => past_bytes(input, 4),
        Place::YearDash
        | Place::MonthDash
        | Place::Separator
        | Place::HourColon
        | Place::MinuteColon => past_bytes(input, 1),
        Place::Month | Place::Day | Place::Hour | Place::Minute | Place::Second => past_bytes(
            input, 2,
        ),
        Place::Subsecond => past_bytes(input, fraction_len(input)),
        Place::OffsetHour => {
            let (rest, is_zulu) = past_offset_hour(input, *is_utc);
            *is_utc = is_zulu;
            rest
        }
        Place::OffsetColon => past_bytes(input, if *is_utc { 0 } else { 1 }),
        Place::OffsetMinute => past_bytes(input, if *is_utc { 0 } else { 2 }),
    }
}

// How many bytes are left at the start of the place of this name, in a text whose places all match. `None` if no place
// has the name, or if that place's text is empty.
fn mark_of_place(input: &[u8], name: &str) -> Option<usize>
    ensures { (rest : List ℕ) (n : Numbers) → HasForm true input.now rest n
        → MarksPlaces (PlaceSyntax true) at_once fault name.now places nothing_read input.now result }
{
    let mut rest = input;
    let mut is_utc = false;
    for place in &PLACES {
        let after = past(*place, rest, &mut is_utc)?;
        if is_place_of(place_fault(*place), name, rest, after) {
            return Some(rest.len());
        }
        rest = after;
    }
    None
}

// The place of the error in a text, or `None` if the text is read whole.
pub(crate) fn error_place(input: &[u8]) -> Option<Located<'static>>
    ensures { (begin : Record) → IsLocated (Reads greatest_year) Locates input.now begin result }
{
    match read::<true>(input) {
        Ok(found) => after_all(found.0, input),
        Err(place) => Some(Located {
            index: index_of(place, input),
            expected: expected_at(place),
        }),
    }
}

/// The error is at the start of the first of the fifteen places of RFC 3339 that doesn't match or whose number is out
/// of range. If all match, it is at the first byte after them. The defaults have no effect.
impl Locate for Rfc3339 {
    ghost use Rattle.time_locating.specs.Rfc3339.{Locates};

    ghost locates = { λ _. Locates };

    fn locate<'a>(&'a self, input: &[u8], _defaults: Option<Parsed>) -> Option<Located<'a>> {
        error_place(input)
    }

    ghost use Rattle.time_locating.specs.exact.PlaceLaws.{rfc3339_exact_place};

    ghost exact_place = { λ _. rfc3339_exact_place };

    ghost use Rattle.time_locating.specs.Rfc3339.{Marks};

    ghost marks = { λ _. Marks };

    fn locate_component(
        &self,
        input: &[u8],
        _defaults: Option<Parsed>,
        name: &str,
    ) -> Option<usize> {
        match read::<true>(input) {
            Ok(_) => index_of_mark(mark_of_place(input, name), input),
            Err(_) => None,
        }
    }

    ghost use Rattle.time_locating.specs.exact.PlaceLaws.{rfc3339_exact_mark};

    ghost exact_mark = { λ _. rfc3339_exact_mark };
}
