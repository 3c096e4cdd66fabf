//! The pieces of ISO 8601: the rest after each, and what each expects.
ghost use Rattle.std.specs.Prelude.{◌≡◌, ◌<◌, option_map, option_and_then};
ghost use Rattle.std.specs.Option.{option_copied};
ghost use Rattle.time_readers.specs.IsoPieces.{byte, number, up_to};
ghost use Rattle.time_locating.specs.Iso8601 as spec;
ghost use Rattle.time_locating.specs.IsoNumbers.{part_up_to, second_up_to, whole_up_to};
ghost use Rattle.time_locating.specs.Located.{wants};

use crate::Expected;
use crate::iso8601::Piece;
use time_readers::ParsedItem;
use time_readers::combinator::{ascii_char, sign};
use time_readers::iso8601::{day, dayk, dayo, float, hour, month, round_fraction, week, year};

// What is reported as expected where a piece doesn't match: its byte, or the name of its component, which for a sign is
// `offset hour`.
pub(crate) fn expected_at(piece: Piece) -> Expected<'static>
    ensures { wants result ≡ spec.expected_at piece }
{
    match piece {
        Piece::Year => Expected::Component("year"),
        Piece::Dash => Expected::Literal(b"-"),
        Piece::Month => Expected::Component("month"),
        Piece::Day => Expected::Component("day"),
        Piece::Ordinal => Expected::Component("ordinal"),
        Piece::WeekLetter => Expected::Literal(b"W"),
        Piece::Week => Expected::Component("week"),
        Piece::Weekday => Expected::Component("weekday"),
        Piece::WholeHour | Piece::HourAndFraction => Expected::Component("hour"),
        Piece::WholeMinute | Piece::MinuteAndFraction => Expected::Component("minute"),
        Piece::Second => Expected::Component("second"),
        Piece::Colon => Expected::Literal(b":"),
        Piece::Zulu => Expected::Literal(b"Z"),
        Piece::Sign | Piece::OffsetHour => Expected::Component("offset hour"),
        Piece::OffsetMinute => Expected::Component("offset minute"),
    }
}

// The rest after a piece as [`Piece`] defines it, with its range, or `None` if the input doesn't begin with the piece.
#[tactic(auto, using(crate::proofs::IsoLengths::signed))]
pub(crate) fn past(piece: Piece, input: &[u8]) -> Option<&[u8]>
    ensures { option_copied result ≡ spec.after piece input.now }
{
    match piece {
        Piece::Year => past_value(year(input)),
        Piece::Dash => past_byte::<b'-'>(input),
        Piece::Month => past_value(month(input)),
        Piece::Day => past_value(day(input)),
        Piece::Ordinal => past_value(dayo(input)),
        Piece::WeekLetter => past_byte::<b'W'>(input),
        Piece::Week => past_value(week(input)),
        Piece::Weekday => past_value(dayk(input)),
        Piece::WholeHour => past_whole(23, input),
        Piece::HourAndFraction => past_part(23, input),
        Piece::WholeMinute => past_whole(59, input),
        Piece::MinuteAndFraction => past_part(59, input),
        Piece::Second => past_second(input),
        Piece::Colon => past_byte::<b':'>(input),
        Piece::Zulu => past_byte::<b'Z'>(input),
        Piece::Sign => past_value(sign(input)),
        Piece::OffsetHour => past_digits(25, input),
        Piece::OffsetMinute => past_digits(59, input),
    }
}

// The rest after a parsed value, or `None` if none was parsed.
fn past_value<V: Copy>(found: Option<ParsedItem<'_, V>>) -> Option<&[u8]>
    ensures { option_copied result ≡ option_map (λ p. p.0.now) found.entry }
{
    Some(found?.0)
}

// The rest after the byte `C`, or `None` if the input doesn't begin with it.
#[tactic(auto, using(crate::proofs::IsoLengths::finds_byte))]
pub(crate) fn past_byte<const C: u8>(input: &[u8]) -> Option<&[u8]>
    ensures { option_copied result ≡ byte C input.now }
{
    past_value(ascii_char::<C>(input))
}

// The rest after two digits whose number is at most `greatest`, or `None` for any other input.
fn past_digits(greatest: u8, input: &[u8]) -> Option<&[u8]>
    ensures { option_copied result ≡ spec.rest_of (up_to greatest 2 input.now) }
{
    let found = hour(input)?;
    if found.1 > greatest {
        return None;
    }
    Some(found.0)
}

// The rest after two digits whose number is at most `greatest`. `None` for any other input, or if `.` or `,` follows.
fn past_whole(greatest: u8, input: &[u8]) -> Option<&[u8]>
    ensures { option_copied result ≡ option_and_then (whole_up_to greatest) (number input.now) }
{
    let found = float(input)?;
    if found.1.0 > greatest || found.1.1.is_some() {
        return None;
    }
    Some(found.0)
}

// The rest after two digits, whose number is at most `greatest`, and a fraction: `.` or `,` and one or more digits.
// `None` for any other input.
fn past_part(greatest: u8, input: &[u8]) -> Option<&[u8]>
    ensures { option_copied result ≡ option_and_then (part_up_to greatest) (number input.now) }
{
    let found = float(input)?;
    if found.1.0 > greatest || found.1.1.is_none() {
        return None;
    }
    Some(found.0)
}

// The rest after two digits, 00 to 60, and after a fraction, `.` or `,` and one or more digits, if `.` or `,` follows.
// `None` for any other input, or if the fraction rounds up to 1 in nanoseconds.
fn past_second(input: &[u8]) -> Option<&[u8]>
    ensures { option_copied result ≡ option_and_then second_up_to (number input.now) }
{
    let found = float(input)?;
    if found.1.0 > 60 {
        return None;
    }
    match found.1.1 {
        Some(digits) if round_fraction(digits, 1_000_000_000) >= 1_000_000_000 => None,
        _ => Some(found.0),
    }
}
