//! Locates the errors of ISO 8601 texts.
mod marks;
mod pieces;

ghost use Rattle.std.specs.Prelude.{◌≡◌, map};
ghost use Rattle.time_record.specs.Record.{Record};
ghost use Rattle.time_readers.specs.IsoDates.{iso_date};
ghost use Rattle.time_readers.specs.IsoOffsets.{offset_rows};
ghost use Rattle.time_readers.specs.IsoPieces.{byte};
ghost use Rattle.time_readers.specs.IsoTimes.{time_rows};
ghost use Rattle.time_locating.specs.Iso8601 as spec;
ghost use Rattle.time_locating.specs.IsoNumbers.{IsTooGreat, IsYearInRange};
ghost use Rattle.time_locating.specs.Located.{erased_miss};
ghost use Rattle.time_locating.specs.Misses.{furthest};

use crate::iso8601::marks::text_mark;
use crate::iso8601::pieces::{expected_at, past, past_byte};
use crate::mark::{Miss, further, index_of, missed_at, place};
use crate::{Expected, Locate, Located};
use time_parsing::{Iso8601, Parsable, begin};
use time_readers::iso8601::{DateNumbers, ExtendedKind, date, time};
use time_record::Parsed;

/// A piece of an ISO 8601 text: a number (of a year with its sign, of a time with its fraction, if any) or a character.
#[derive(Clone, Copy)]
pub enum Piece {
    /// Four digits, or a sign (`-` or `+`) and six digits.
    Year,
    /// `-`.
    Dash,
    /// Two digits, 01 to 12.
    Month,
    /// Two digits, but not `00`.
    Day,
    /// Three digits, but not `000`.
    Ordinal,
    /// `W`.
    WeekLetter,
    /// Two digits, but not `00`.
    Week,
    /// One digit, 1 to 7.
    Weekday,
    /// Two digits, 00 to 23, without `.` or `,` after them.
    WholeHour,
    /// Two digits, 00 to 23, and a fraction: `.` or `,` and one or more digits.
    HourAndFraction,
    /// Two digits, 00 to 59, without `.` or `,` after them.
    WholeMinute,
    /// Two digits, 00 to 59, and a fraction: `.` or `,` and one or more digits.
    MinuteAndFraction,
    /// Two digits, 00 to 60, alone or with a fraction: `.` or `,` and one or more digits. Rounded to nanoseconds, the
    /// fraction must be below 1 second. The piece doesn't match if `.` or `,` follows without a digit.
    Second,
    /// `:`.
    Colon,
    /// `Z`.
    Zulu,
    /// `-` or `+`.
    Sign,
    /// Two digits, 00 to 25.
    OffsetHour,
    /// Two digits, 00 to 59.
    OffsetMinute,
}

// The forms of a date, each a row of pieces.
const DATES: [&[Piece]; 6] = [
    &[Piece::Year, Piece::Month, Piece::Day],
    &[Piece::Year, Piece::Ordinal],
    &[Piece::Year, Piece::WeekLetter, Piece::Week, Piece::Weekday],
    &[
        Piece::Year,
        Piece::Dash,
        Piece::Month,
        Piece::Dash,
        Piece::Day,
    ],
    &[Piece::Year, Piece::Dash, Piece::Ordinal],
    &[
        Piece::Year,
        Piece::Dash,
        Piece::WeekLetter,
        Piece::Week,
        Piece::Dash,
        Piece::Weekday,
    ],
];

// The forms of a time, each a row of pieces. This one is an hour with a fraction.
const PART_OF_HOUR: &[Piece] = &[Piece::HourAndFraction];

const HOUR: &[Piece] = &[Piece::WholeHour];

const PART_OF_MINUTE: &[Piece] = &[Piece::WholeHour, Piece::MinuteAndFraction];

const COLON_PART_OF_MINUTE: &[Piece] = &[Piece::WholeHour, Piece::Colon, Piece::MinuteAndFraction];

const MINUTE: &[Piece] = &[Piece::WholeHour, Piece::WholeMinute];

const COLON_MINUTE: &[Piece] = &[Piece::WholeHour, Piece::Colon, Piece::WholeMinute];

const SECOND: &[Piece] = &[Piece::WholeHour, Piece::WholeMinute, Piece::Second];

const MINUTE_COLON_SECOND: &[Piece] = &[
    Piece::WholeHour,
    Piece::WholeMinute,
    Piece::Colon,
    Piece::Second,
];

const COLON_SECOND: &[Piece] = &[
    Piece::WholeHour,
    Piece::Colon,
    Piece::WholeMinute,
    Piece::Colon,
    Piece::Second,
];

// The rows of pieces of a time in a text of the basic format, without separators.
const BASIC_TIMES: [&[Piece]; 5] = [PART_OF_HOUR, HOUR, PART_OF_MINUTE, MINUTE, SECOND];

// The rows of pieces of a time in a text of the extended format. The colon before a minute is optional.
const EXTENDED_TIMES: [&[Piece]; 8] = [
    PART_OF_HOUR,
    HOUR,
    PART_OF_MINUTE,
    COLON_PART_OF_MINUTE,
    MINUTE,
    COLON_MINUTE,
    MINUTE_COLON_SECOND,
    COLON_SECOND,
];

// The rows of pieces of a time in a text that isn't known yet to be of the basic or of the extended format.
const ANY_TIMES: [&[Piece]; 8] = [
    PART_OF_HOUR,
    HOUR,
    PART_OF_MINUTE,
    COLON_PART_OF_MINUTE,
    MINUTE,
    COLON_MINUTE,
    SECOND,
    COLON_SECOND,
];

// The forms of an offset, each a row of pieces. This one is `Z`.
const UTC: &[Piece] = &[Piece::Zulu];

const OFFSET_HOUR: &[Piece] = &[Piece::Sign, Piece::OffsetHour];

const OFFSET_MINUTE: &[Piece] = &[Piece::Sign, Piece::OffsetHour, Piece::OffsetMinute];

const OFFSET_COLON_MINUTE: &[Piece] = &[
    Piece::Sign,
    Piece::OffsetHour,
    Piece::Colon,
    Piece::OffsetMinute,
];

// The rows of pieces of an offset in a text of the basic format, without separators.
const BASIC_OFFSETS: [&[Piece]; 3] = [UTC, OFFSET_HOUR, OFFSET_MINUTE];

// The rows of pieces of an offset in a text of the extended format, or one not known yet to be of either format.
const OFFSETS: [&[Piece]; 4] = [UTC, OFFSET_HOUR, OFFSET_MINUTE, OFFSET_COLON_MINUTE];

// The miss at the first piece of a row that doesn't match, or `None` if all match.
fn row_missed(row: &[Piece], input: &[u8]) -> Option<Miss<'static>>
    ensures { erased_miss result ≡ furthest (spec.row_misses row.now input.now) }
{
    let mut rest = input;
    for piece in row {
        match past(*piece, rest) {
            Some(after) => rest = after,
            None => return missed_at(expected_at(*piece), rest),
        }
    }
    None
}

// The furthest of the misses of the rows, each tried at the front of the input; of several at one index, the first
// row's. `None` if each row matches.
#[tactic(auto, using(crate::proofs::IsoLengths::rows_next))]
fn rows_missed(rows: &[&[Piece]], input: &[u8]) -> Option<Miss<'static>>
    ensures { erased_miss result ≡ furthest (spec.rows_misses (map (λ row. row.now) rows.now) input.now) }
{
    let mut missed = None;
    for row in rows {
        missed = further(missed, row_missed(row, input));
    }
    missed
}

// The rows of pieces of a time in a text of that kind. Unless it is basic, the colon before the minute is optional.
fn times_of(kind: ExtendedKind) -> &'static [&'static [Piece]]
    ensures { map (λ row. row.now) result.now ≡ spec.rows_after spec.time_piece time_rows kind }
{
    match kind {
        ExtendedKind::Basic => &BASIC_TIMES,
        ExtendedKind::Extended => &EXTENDED_TIMES,
        ExtendedKind::Unknown => &ANY_TIMES,
    }
}

// The rows of pieces of an offset in a text of that kind. Unless it is basic, the colon before the minute is optional.
fn offsets_of(kind: ExtendedKind) -> &'static [&'static [Piece]]
    ensures { map (λ row. row.now) result.now ≡ spec.rows_after spec.offset_piece offset_rows kind }
{
    match kind {
        ExtendedKind::Basic => &BASIC_OFFSETS,
        ExtendedKind::Extended | ExtendedKind::Unknown => &OFFSETS,
    }
}

// The furthest miss of the rows of a time of that kind; the input begins after the `T`, if there is one. Never `None`:
// an hour with a fraction and one without exclude each other, so a valid time has a miss, too, that of another row.
fn time_missed(kind: ExtendedKind, input: &[u8]) -> Option<Miss<'static>>
    ensures { erased_miss result ≡ furthest (spec.time_misses kind input.now) }
{
    rows_missed(times_of(kind), input)
}

// The furthest miss of the rows of an offset of that kind. Never `None`: `Z` and a sign exclude each other, so a valid
// offset has a miss, too, that of another row.
fn offset_missed(kind: ExtendedKind, input: &[u8]) -> Option<Miss<'static>>
    ensures { erased_miss result ≡ furthest (spec.offset_misses kind input.now) }
{
    rows_missed(offsets_of(kind), input)
}

// The miss of `T` if `needs_t` and there is no `T`. Otherwise the furthest miss of a time of that kind, after its `T`
// if it has one. Never `None`.
fn letter_missed(needs_t: bool, kind: ExtendedKind, input: &[u8]) -> Option<Miss<'static>>
    ensures { erased_miss result ≡ furthest (spec.after_t needs_t kind input.now (byte 84 input.now)) }
{
    match past_byte::<b'T'>(input) {
        Some(after) => time_missed(kind, after),
        None if needs_t => missed_at(Expected::Literal(b"T"), input),
        None => time_missed(kind, input),
    }
}

// The furthest miss of a time of that kind, whose `T` is required if `needs_t`, and if the time matches, of an offset
// after it. At one index, the offset's precedes the time's. Never `None`: a valid text has a miss, too.
fn missed_from_time(needs_t: bool, kind: ExtendedKind, input: &[u8]) -> Option<Miss<'static>>
    ensures { erased_miss result ≡ furthest (spec.from_time needs_t kind input.now) }
{
    let missed = letter_missed(needs_t, kind, input);
    match time(input, kind, needs_t) {
        Some(found) => further(offset_missed(found.kind, found.rest), missed),
        None => missed,
    }
}

// The furthest miss of a text that is parsed without a date: as a time, perhaps with an offset, or as an offset alone.
// At one index, that of the first form precedes that of the second. Never `None`: a valid text has a miss, too.
fn missed_without_date(input: &[u8]) -> Option<Miss<'static>>
    ensures { erased_miss result ≡ furthest (spec.without_date input.now) }
{
    further(
        missed_from_time(false, ExtendedKind::Unknown, input),
        offset_missed(ExtendedKind::Unknown, input),
    )
}

// The number of a date that is greater than a record allows, a day over 31, an ordinal over 366 or a week over 53: how
// many bytes before the date's end the number begins, and the name of its component. `None` if there is none.
fn too_great(numbers: DateNumbers, kind: ExtendedKind) -> Option<(usize, &'static str)>
    ensures { (r : Record) → IsYearInRange (iso_date numbers) → IsTooGreat (iso_date numbers) kind r result }
{
    match numbers {
        DateNumbers::Calendar(_, _, day) if day.get() > 31 => Some((2, "day")),
        DateNumbers::Ordinal(_, ordinal) if ordinal.get() > 366 => Some((3, "ordinal")),
        DateNumbers::Week(_, week, _) if week.get() > 53 => {
            Some((if kind.is_extended() { 4 } else { 3 }, "week"))
        }
        _ => None,
    }
}

// The furthest miss after the date. If none matches, or its day, ordinal or week is too great, the furthest in the date
// or in a text without one. Never `None`: a valid text has a miss, too, that of a form that it doesn't have.
fn missed(input: &[u8]) -> Option<Miss<'static>>
    ensures { (r : Record) → erased_miss result ≡ furthest (spec.misses input.now r) }
{
    let Ok(date) = date(input) else {
        return further(rows_missed(&DATES, input), missed_without_date(input));
    };
    match too_great(date.value, date.kind) {
        Some((len, name)) => {
            let number = Miss {
                left: len + date.rest.len(),
                expected: Expected::Component(name),
            };
            further(Some(number), missed_without_date(input))
        }
        None => missed_from_time(true, date.kind, date.rest),
    }
}

/// A date, a time and an offset each have several forms. The furthest mismatch is that of all forms that are tried:
/// those of a date only if none matches, and those of a time or an offset that may follow. If no date matches, or the
/// day is above 31, the ordinal above 366 or the week above 53, the text is also tried without a date. An error in a
/// fraction is at the start of its hour, minute or second.
impl Locate for Iso8601 {
    ghost use Rattle.time_locating.specs.Iso8601.{Locates};

    ghost locates = { λ _. Locates };

    fn locate<'a>(&'a self, input: &[u8], defaults: Option<Parsed>) -> Option<Located<'a>> {
        let mut parsed = begin(defaults);
        let unread = self.parse_into(input, &mut parsed).ok();
        place(unread, missed(input), input)
    }

    ghost use Rattle.time_locating.specs.exact.PlaceLaws.{iso8601_exact_place};

    ghost exact_place = { λ _. iso8601_exact_place };

    ghost use Rattle.time_locating.specs.IsoMarks.{Marks};

    ghost marks = { λ _. Marks };

    fn locate_component(
        &self,
        input: &[u8],
        defaults: Option<Parsed>,
        name: &str,
    ) -> Option<usize> {
        let mut parsed = begin(defaults);
        let Ok(rest) = self.parse_into(input, &mut parsed) else {
            return None;
        };
        index_of(text_mark(rest.len(), input, name), input)
    }

    ghost use Rattle.time_locating.specs.exact.PlaceLaws.{iso8601_exact_mark};

    ghost exact_mark = { λ _. iso8601_exact_mark };
}
