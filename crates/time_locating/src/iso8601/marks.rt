//! Where the components of an ISO 8601 text begin.
ghost use Rattle.std.specs.Prelude.{◌≡◌, map};
ghost use Rattle.std.specs.Option.{option_copied};
ghost use Rattle.time_readers.specs.IsoTimes.{time_text};
ghost use Rattle.time_record.specs.Record.{Record};
ghost use Rattle.time_locating.specs.IsoMarks as spec;
ghost use Rattle.time_locating.specs.Located.{wants};

use crate::Expected;
use crate::iso8601::pieces::{expected_at, past, past_byte};
use crate::iso8601::{DATES, Piece, offsets_of, times_of, too_great};
use time_readers::iso8601::{ExtendedKind, date, time};

// Whether a component of this name is expected.
fn expects(expected: Expected<'_>, name: &str) -> bool
    ensures { result ≡ spec.expects_name name.now (wants expected.entry) }
{
    match expected {
        Expected::Component(own) => name == own,
        Expected::Literal(_) | Expected::End => false,
    }
}

// Whether the piece belongs to the component of this name. `Z` and a sign belong to `offset hour`.
#[tactic(auto, using(crate::proofs::IsoDates::other_piece))]
fn is_piece_of(piece: Piece, name: &str) -> bool
    ensures { result ≡ spec.is_piece_of name.now piece }
{
    match piece {
        Piece::Zulu => name == "offset hour",
        _ => expects(expected_at(piece), name),
    }
}

// The rest after the pieces of a row, or `None` if one doesn't match.
fn past_row<'a>(row: &[Piece], input: &'a [u8]) -> Option<&'a [u8]>
    ensures { option_copied result ≡ spec.after_row row.now input.now }
{
    let mut rest = input;
    for piece in row {
        rest = past(*piece, rest)?;
    }
    Some(rest)
}

// How many bytes are left at the start of the row's first piece of this name. `None` if the row has no such piece, or
// if a piece before it doesn't match.
fn row_mark(row: &[Piece], input: &[u8], name: &str) -> Option<usize>
    ensures { result ≡ spec.row_mark name.now row.now input.now }
{
    let mut rest = input;
    for piece in row {
        if is_piece_of(*piece, name) {
            return Some(rest.len());
        }
        rest = past(*piece, rest)?;
    }
    None
}

// Whether the row matches and leaves exactly `left` bytes unread.
fn leaves(left: usize, row: &[Piece], input: &[u8]) -> bool
    ensures { result ≡ spec.leaves left (spec.after_row row.now input.now) }
{
    match past_row(row, input) {
        Some(rest) => rest.len() == left,
        None => false,
    }
}

// How many bytes are left where this name begins in the first row that matches and leaves `left` bytes, or `None`.
fn rows_mark(rows: &[&[Piece]], left: usize, input: &[u8], name: &str) -> Option<usize>
    ensures { result ≡ spec.rows_mark name.now left (map (λ row. row.now) rows.now) input.now }
{
    for row in rows {
        if leaves(left, row, input) {
            return row_mark(row, input, name);
        }
    }
    None
}

// How many bytes are left at the start of the component of this name, in an offset of that kind that leaves exactly
// `left` bytes. `None` if there is no such offset or component.
fn offset_mark(kind: ExtendedKind, left: usize, input: &[u8], name: &str) -> Option<usize>
    ensures { result ≡ spec.offset_mark name.now left kind input.now }
{
    rows_mark(offsets_of(kind), left, input, name)
}

// How many bytes are left at the start of the component of this name, in a time of that kind that may begin with `T`
// and leaves exactly `left` bytes. `None` if there is no such time or component.
fn time_mark(kind: ExtendedKind, left: usize, input: &[u8], name: &str) -> Option<usize>
    ensures { result ≡ spec.time_mark name.now left kind input.now }
{
    let after = past_byte::<b'T'>(input).unwrap_or(input);
    rows_mark(times_of(kind), left, after, name)
}

// The mark (how many bytes are left at its start) of the component of this name, in an offset that follows a time and
// leaves `left` bytes, or else in the time. `None` if neither has the component. `otherwise` if no time of that kind,
// whose `T` is required if `needs_t`, matches.
fn mark_from_time(
    needs_t: bool,
    kind: ExtendedKind,
    left: usize,
    input: &[u8],
    name: &str,
    otherwise: Option<usize>,
) -> Option<usize>
    ensures { result ≡ spec.from_time name.now left kind input.now (time_text needs_t kind input.now) otherwise }
{
    match time(input, kind, needs_t) {
        Some(found) => offset_mark(found.kind, left, found.rest, name).or(time_mark(
            kind,
            found.rest.len(),
            input,
            name,
        )),
        None => otherwise,
    }
}

// The mark (how many bytes are left at its start) of the component of this name, in a text that is parsed without a
// date and leaves `left` bytes: as a time, perhaps with an offset, or if no time matches, as an offset alone. `None` if
// there is no such component.
fn mark_without_date(left: usize, input: &[u8], name: &str) -> Option<usize>
    ensures { result ≡ spec.without_date name.now left input.now }
{
    let offset = offset_mark(ExtendedKind::Unknown, left, input, name);
    mark_from_time(false, ExtendedKind::Unknown, left, input, name, offset)
}

/// How many bytes are left at the start of the component of this name, in a text that leaves `left` bytes unread.
/// `None` if the text has no such component.
pub(crate) fn text_mark(left: usize, input: &[u8], name: &str) -> Option<usize>
    ensures { (r : Record) → result ≡ spec.text_mark name.now left input.now r }
{
    let Ok(date) = date(input) else {
        return mark_without_date(left, input, name);
    };
    match too_great(date.value, date.kind) {
        Some(_) => mark_without_date(left, input, name),
        None => mark_from_time(true, date.kind, left, date.rest, name, None).or(rows_mark(
            &DATES,
            date.rest.len(),
            input,
            name,
        )),
    }
}
