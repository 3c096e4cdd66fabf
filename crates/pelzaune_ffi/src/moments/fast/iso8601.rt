//! Fast paths for the commonest texts of ISO 8601: a calendar date, a time without a fraction, and an optional offset.
//!
//! Each returns what the library's parser does, or `None` if the fast path doesn't apply.
ghost use Rattle.std.specs.Prelude.{◌≡◌, List, ℕ, IfSome, IsTrue, Ok, Some, None, true};
ghost use Rattle.time_values.specs.Calendar.{greatest_year};
ghost use Rattle.time_readers.specs.IsoPieces.{point};
ghost use Rattle.time_readers.specs.IsoTimes.{time_text};
ghost use Rattle.time_readers.specs.declared.iso8601.ExtendedKind.TheVariants.{Basic, Extended};
ghost use Rattle.time_record.specs.Record.{empty};
ghost use Rattle.time_record.specs.Resolution.{IsPlain};
ghost use Rattle.time_parsing.specs.Iso8601.{Reads, Refuses};
ghost use Rattle.time_parsing.specs.Outcome.{IsOutcome, over_record};
ghost use Rattle.pelzaune_ffi.specs.Results.{of_moment};
ghost use Rattle.pelzaune_ffi.specs.IsoFronts.{IsFront};

use time_parsing::iso8601::fast::{date_time_of, offset_to_the_end};
use time_readers::block::two_digits;
use time_readers::iso8601::fast::{basic_date, date_of, extended_date};
use time_readers::iso8601::{DateNumbers, ExtendedKind, TimeNumbers};
use time_values::{OffsetDateTime, PlainDateTime};

// The date and the time at the start of a text, the bytes after them, and whether the date and time have separators.
#[derive(Clone, Copy)]
struct Front<'a> {
    date: DateNumbers,
    time: TimeNumbers,
    rest: &'a [u8],
    kind: ExtendedKind,
}

// Whether there are no bytes or the first is `+`, `-` or `Z`, so that they don't start with a fraction.
#[inline(always)]
fn has_no_fraction(bytes: &[u8]) -> bool
    ensures { IsTrue result → point bytes.now ≡ None }
{
    match bytes {
        [] => true,
        [b'+' | b'-' | b'Z', ..] => true,
        _ => false,
    }
}

// The numbers of a time as `T03:04:05` at the start of a text, and the bytes after it. `None`: another form, an hour
// above 23, a minute or second above 59, or bytes after it that don't start with `+`, `-` or `Z`.
#[inline(always)]
fn extended_time(text: &[u8]) -> Option<(TimeNumbers, &[u8])>
    ensures { IfSome result (λ p. time_text true Extended text.now
        ≡ Some (record { rest = p.1.now; value = p.0; kind = Extended })) }
{
    let [
        b'T',
        h0 @ b'0'..=b'9',
        h1 @ b'0'..=b'9',
        b':',
        n0 @ b'0'..=b'5',
        n1 @ b'0'..=b'9',
        b':',
        s0 @ b'0'..=b'5',
        s1 @ b'0'..=b'9',
        after @ ..,
    ] = text
    else {
        return None;
    };
    let hour = two_digits(*h0, *h1);
    if hour > 23 || !has_no_fraction(after) {
        return None;
    }
    let time = TimeNumbers {
        hour,
        minute: two_digits(*n0, *n1),
        second: two_digits(*s0, *s1),
        subsecond: 0,
    };
    Some((time, after))
}

// The numbers of a time as `T030405` at the start of a text, and the bytes after it. `None`: another form, an hour
// above 23, a minute or second above 59, or bytes after it that don't start with `+`, `-` or `Z`.
#[inline(always)]
fn basic_time(text: &[u8]) -> Option<(TimeNumbers, &[u8])>
    ensures { IfSome result (λ p. time_text true Basic text.now
        ≡ Some (record { rest = p.1.now; value = p.0; kind = Basic })) }
{
    let [
        b'T',
        h0 @ b'0'..=b'9',
        h1 @ b'0'..=b'9',
        n0 @ b'0'..=b'5',
        n1 @ b'0'..=b'9',
        s0 @ b'0'..=b'5',
        s1 @ b'0'..=b'9',
        rest @ ..,
    ] = text
    else {
        return None;
    };
    let hour = two_digits(*h0, *h1);
    if hour > 23 || !has_no_fraction(rest) {
        return None;
    }
    let time = TimeNumbers {
        hour,
        minute: two_digits(*n0, *n1),
        second: two_digits(*s0, *s1),
        subsecond: 0,
    };
    Some((time, rest))
}

// The date and time as `2021-01-02T03:04:05` at the start of a text. `None`: the fast path doesn't apply, as to a time
// with a fraction, which is ruled out before parsing.
#[inline(always)]
fn extended(text: &[u8]) -> Option<Front<'_>>
    ensures { IfSome result (IsFront text.now) }
{
    if text.len() < 19 || !has_no_fraction(&text[19..]) {
        return None;
    }
    let digits = extended_date(text)?;
    let date = date_of(digits)?;
    let time = extended_time(digits.rest)?;
    Some(Front {
        date,
        time: time.0,
        rest: time.1,
        kind: ExtendedKind::Extended,
    })
}

// The date and time as `20210102T030405` at the start of a text. `None`: the fast path doesn't apply, as to a time with
// a fraction, which is ruled out before parsing.
#[inline(always)]
fn basic(text: &[u8]) -> Option<Front<'_>>
    ensures { IfSome result (IsFront text.now) }
{
    if text.len() < 15 || !has_no_fraction(&text[15..]) {
        return None;
    }
    let digits = basic_date(text)?;
    let date = date_of(digits)?;
    let time = basic_time(digits.rest)?;
    Some(Front {
        date,
        time: time.0,
        rest: time.1,
        kind: ExtendedKind::Basic,
    })
}

// The moment of a text that is just this date and time and an offset. `None`: anything else or nothing follows the
// time, the offset is out of range, or the calendar has no such date.
#[inline(always)]
fn moment_of(front: Front<'_>) -> Option<OffsetDateTime>
    ensures { (text : List ℕ) → IsFront text front.entry → IfSome result (λ v. of_moment over_record (Reads greatest_year)
        (Refuses greatest_year) text (Ok v)) }
{
    let offset = offset_to_the_end(front.rest, front.kind)?;
    let plain = date_time_of(front.date, front.time)?;
    Some(OffsetDateTime::new_in_offset(plain.date(), plain.time(), offset))
}

// The date and time of a text that is just this date and time. `None`: a byte follows them, or the calendar has no such
// date.
#[inline(always)]
fn local_of(front: Front<'_>) -> Option<PlainDateTime>
    ensures { (text : List ℕ) → IsFront text front.entry → IfSome result (λ p. IsOutcome (IsPlain greatest_year)
        (Reads greatest_year) (Refuses greatest_year) text empty (Ok p)) }
{
    if !front.rest.is_empty() {
        return None;
    }
    let plain = date_time_of(front.date, front.time)?;
    Some(plain)
}

// Whether the fifth byte is `-`, as in a date with separators. `false` for a shorter text.
#[inline(always)]
fn has_separators(text: &[u8]) -> bool {
    matches!(text, [_, _, _, _, b'-', ..])
}

// The date and time at the start of a text, with or without separators. `None`: the fast path doesn't apply.
#[inline(always)]
fn front_of(text: &[u8]) -> Option<Front<'_>>
    ensures { IfSome result (IsFront text.now) }
{
    if has_separators(text) {
        extended(text)
    } else {
        basic(text)
    }
}

// The moment of a whole text of ISO 8601. `None`: the fast path doesn't apply, as to a leap second or a rejected text.
#[inline(always)]
pub(in crate::moments) fn moment(text: &[u8]) -> Option<OffsetDateTime>
    ensures { IfSome result (λ v. of_moment over_record (Reads greatest_year) (Refuses greatest_year) text.now (Ok v)) }
{
    moment_of(front_of(text)?)
}

// The date and time of a whole text of ISO 8601 without an offset. `None`: the fast path doesn't apply, as to a
// rejected text.
#[inline(always)]
pub(in crate::moments) fn local(text: &[u8]) -> Option<PlainDateTime>
    ensures { IfSome result (λ p. IsOutcome (IsPlain greatest_year) (Reads greatest_year) (Refuses greatest_year)
        text.now empty (Ok p)) }
{
    if has_separators(text) {
        return local_of(extended(text)?);
    }
    local_of(basic(text)?)
}
