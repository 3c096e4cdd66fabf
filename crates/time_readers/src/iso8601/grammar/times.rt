//! The time of an ISO 8601 text, as `T03`, `0304`, `03:04:05` or `03:04,5`.
ghost use Rattle.std.specs.Prelude.{◌≡◌, ◌≤◌, ℕ, List, IfSome, Some, None, true, option_map};
ghost use Rattle.time_digits.specs.Digits.{AllDigits};
ghost use Rattle.time_readers.specs.IsoPieces.{ReturnsPart, number_of, number, byte, plain};
ghost use Rattle.time_readers.specs.IsoTimes.{floor_of, not_basic};
ghost use Rattle.time_readers.specs.IsoGrammar as pieces;
ghost use Rattle.time_readers.specs.IsoTimes as spec;

use crate::ParsedItem;
use crate::iso8601::grammar::pieces::{byte, float};
use crate::iso8601::grammar::{floor_fraction, round_fraction};
use crate::iso8601::{ExtendedKind, Part, TimeNumbers};

// Parses a time after a part of that kind, `hhmm` even after an extended one; its `T` is optional unless `needs_t`.
#[inline(never)]
pub(in crate::iso8601) fn time<'a>(
    input: &'a [u8],
    kind: ExtendedKind,
    needs_t: bool,
) -> Option<Part<'a, TimeNumbers>>
    ensures { ReturnsPart (spec.time_text needs_t kind input.now) result }
{
    match byte::<b'T'>(input) {
        Some(after) => after_t(after, kind),
        None if needs_t => None,
        None => after_t(input, kind),
    }
}

// Parses a time after its `T`, if any. `None` for an invalid hour, minute or second, or for `hh:` in a basic text.
#[inline(always)]
fn after_t<'a>(input: &'a [u8], kind: ExtendedKind) -> Option<Part<'a, TimeNumbers>>
    ensures { ReturnsPart (spec.time_after kind input.now) result }
{
    let found = float(input)?;
    let hour = found.1.0;
    if hour > 23 {
        return None;
    }
    match found.1.1 {
        Some(digits) => Some(Part {
            rest: found.0,
            value: past_hour(hour, digits),
            kind,
        }),
        None => after_hour(found.0, kind, hour),
    }
}

// Parses the rest of a time after a whole hour. `None` for `hh:` in a basic text, or an invalid minute or second.
#[inline(always)]
fn after_hour<'a>(input: &'a [u8], kind: ExtendedKind, hour: u8) -> Option<Part<'a, TimeNumbers>>
    requires { hour ≤ 23 }
    ensures { (bytes : List ℕ) → number bytes ≡ Some (input.now, plain hour)
        → ReturnsPart (spec.time_after kind bytes) result }
{
    match byte::<b':'>(input) {
        Some(after) => {
            if kind.maybe_extended() {
                minute_after_colon(after, kind, hour)
            } else {
                None
            }
        }
        None => minute_without_colon(input, kind, hour),
    }
}

// Parses the rest of a time after a whole hour that no colon follows: nothing; or a minute and, unless that has a
// fraction, an optional second, with a colon before it in an extended text. `None` for an invalid minute or second.
#[inline(always)]
fn minute_without_colon<'a>(
    input: &'a [u8],
    kind: ExtendedKind,
    hour: u8,
) -> Option<Part<'a, TimeNumbers>>
    requires hour { hour ≤ 23 }
    requires no_colon { byte 58 input.now ≡ None }
    ensures { (bytes : List ℕ) → number bytes ≡ Some (input.now, plain hour)
        → ReturnsPart (spec.time_after kind bytes) result }
{
    let Some(found) = float(input) else {
        return Some(Part {
            rest: input,
            value: hour_and_minute(hour, 0),
            kind,
        });
    };
    let minute = found.1.0;
    if minute > 59 {
        return None;
    }
    if let Some(digits) = found.1.1 {
        let mut kind_after = kind;
        kind_after.coerce_basic();
        return Some(Part {
            rest: found.0,
            value: past_minute(hour, minute, digits),
            kind: kind_after,
        });
    }
    if kind.is_extended() {
        extended_second(found.0, hour_and_minute(hour, minute))
    } else {
        basic_second(found.0, hour_and_minute(hour, minute))
    }
}

// Parses the rest of a time after a whole hour and a colon: a minute; and unless that has a fraction, nothing, or
// another colon and a second. `None` if the minute, or the second after a colon, is missing or invalid.
#[inline(always)]
fn minute_after_colon<'a>(
    input: &'a [u8],
    kind: ExtendedKind,
    hour: u8,
) -> Option<Part<'a, TimeNumbers>>
    requires hour { hour ≤ 23 }
    requires kind { not_basic kind ≡ true }
    ensures { (bytes mid : List ℕ) → number bytes ≡ Some (mid, plain hour) → byte 58 mid ≡ Some input.now
        → ReturnsPart (spec.time_after kind bytes) result }
{
    let found = float(input)?;
    let minute = found.1.0;
    if minute > 59 {
        return None;
    }
    match found.1.1 {
        Some(digits) => Some(Part {
            rest: found.0,
            value: past_minute(hour, minute, digits),
            kind: ExtendedKind::Extended,
        }),
        None => extended_second(found.0, hour_and_minute(hour, minute)),
    }
}

// Parses a second after the hour and the minute of `numbers`, without separators, if there is one. `None` for a second
// above 60 and for a fraction that rounds to 1.
#[inline(always)]
fn basic_second(input: &[u8], numbers: TimeNumbers) -> Option<Part<'_, TimeNumbers>>
    ensures { ReturnsPart (pieces.basic_second numbers input.now (number input.now)) result }
{
    match float(input) {
        Some(second) => with_second(second, numbers, ExtendedKind::Basic),
        None => Some(Part {
            rest: input,
            value: numbers,
            kind: ExtendedKind::Basic,
        }),
    }
}

// Parses a colon and a second after the hour and the minute of `numbers`, if there is a colon. `None` if no second of 0
// to 60 follows the colon, or if its fraction rounds to 1.
#[inline(always)]
fn extended_second(input: &[u8], numbers: TimeNumbers) -> Option<Part<'_, TimeNumbers>>
    ensures { ReturnsPart (pieces.extended_second numbers input.now (byte 58 input.now)) result }
{
    match byte::<b':'>(input) {
        Some(after) => with_second(float(after)?, numbers, ExtendedKind::Extended),
        None => Some(Part {
            rest: input,
            value: numbers,
            kind: ExtendedKind::Extended,
        }),
    }
}

// The time of `numbers` with that second and its fraction, rounded half up to nanoseconds, and that kind. `None` if the
// second is above 60 or its fraction rounds to 1.
#[inline(always)]
fn with_second<'a>(
    second: ParsedItem<'a, (u8, Option<&'a [u8]>)>,
    numbers: TimeNumbers,
    kind: ExtendedKind,
) -> Option<Part<'a, TimeNumbers>>
    requires { IfSome second.1.1 (λ d. AllDigits d.now) }
    ensures { ReturnsPart
        (pieces.second_found numbers kind (second.entry.0.now, number_of second.entry.1.0 second.entry.1.1)) result }
{
    if second.1.0 > 60 {
        return None;
    }
    let subsecond = match second.1.1 {
        Some(digits) => {
            let nanoseconds = round_fraction(digits, 1_000_000_000);
            if nanoseconds >= 1_000_000_000 {
                return None;
            }
            nanoseconds as u32
        }
        None => numbers.subsecond,
    };
    Some(Part {
        rest: second.0,
        value: TimeNumbers {
            hour: numbers.hour,
            minute: numbers.minute,
            second: second.1.0,
            subsecond,
        },
        kind,
    })
}

// The time of a whole hour and a whole minute, with a second and a nanosecond of 0.
#[inline(always)]
fn hour_and_minute(hour: u8, minute: u8) -> TimeNumbers
    ensures { result ≡ pieces.hour_and_minute hour minute }
{
    TimeNumbers {
        hour,
        minute,
        second: 0,
        subsecond: 0,
    }
}

// The time of an hour and the digits of its fraction, truncated to whole nanoseconds.
fn past_hour(hour: u8, digits: &[u8]) -> TimeNumbers
    requires { AllDigits digits.now }
    ensures { result ≡ spec.past_hour (floor_of digits.now 3_600_000_000_000) (pieces.hour_and_minute hour 0) }
{
    let nanoseconds = floor_fraction(digits, 3_600_000_000_000);
    TimeNumbers {
        hour,
        minute: (nanoseconds / 60_000_000_000) as u8,
        second: (nanoseconds % 60_000_000_000 / 1_000_000_000) as u8,
        subsecond: (nanoseconds % 1_000_000_000) as u32,
    }
}

// The time of a whole hour, a minute and the digits of the minute's fraction, truncated to whole nanoseconds.
fn past_minute(hour: u8, minute: u8, digits: &[u8]) -> TimeNumbers
    requires { AllDigits digits.now }
    ensures { result ≡ spec.past_minute (floor_of digits.now 60_000_000_000) (pieces.hour_and_minute hour minute) }
{
    let nanoseconds = floor_fraction(digits, 60_000_000_000);
    TimeNumbers {
        hour,
        minute,
        second: (nanoseconds / 1_000_000_000) as u8,
        subsecond: (nanoseconds % 1_000_000_000) as u32,
    }
}
