//! The place of the timestamp in a line.
ghost use Rattle.std.specs.Prelude.{◌≡◌, ◌≤◌, length, IfSome};
ghost use Rattle.restamp_place.specs.Places.{body_length, body_of, after_of, span_of, is_prefix};
ghost use Rattle.restamp_place.specs.Fields.{IsPart};

use crate::fields::{Fields, Span, nth_field};
use crate::texts::find_text;

/// Where the timestamp is in a line without its LF. A CR at the line's end is ignored, but `Between` may match it.
#[derive(Clone, Copy, Debug)]
pub enum Place<'a> {
    /// The whole line, without a CR at its end.
    Whole,
    /// The start of the line. The format decides where the timestamp ends.
    Front,
    /// The content of the field with that number, counted from 1. There is no field 0.
    Field(Fields, usize),
    /// The bytes after the first occurrence of the first text, up to the next occurrence of the second text.
    Between(&'a [u8], &'a [u8]),
    /// The bytes after the first occurrence of the text. The format decides where the timestamp ends.
    After(&'a [u8]),
}

impl Place<'_> {
    /// Whether the format decides where the timestamp ends: true for `Front` and `After`. Then [`find_span`] returns
    /// all bytes from the timestamp's start to the end of the line, without a CR there.
    pub fn is_prefix(self) -> bool
        ensures { result ≡ is_prefix self.entry }
    {
        matches!(self, Place::Front | Place::After(_))
    }
}

// The length of the line without a CR at its end.
#[inline(always)]
fn body_length(line: &[u8]) -> usize
    ensures value { result ≡ body_length line.now }
    ensures within { result ≤ length line.now }
{
    if line.is_empty() || line[line.len() - 1] != b'\r' {
        line.len()
    } else {
        line.len() - 1
    }
}

/// The line without a CR at its end.
#[inline(always)]
pub fn body_of(line: &[u8]) -> &[u8]
    ensures value { result.now ≡ body_of line.now }
    ensures within { length result.now ≤ length line.now }
{
    &line[..body_length(line)]
}

// The part of the line from after the first `begin` up to the next `close`; `None` if one of them isn't found.
fn find_between(begin: &[u8], close: &[u8], line: &[u8]) -> Option<Span>
    ensures value { result ≡ span_of (Place.Between begin.entry close.entry) line.now }
    ensures within { IfSome result (IsPart (length line.now)) }
{
    let start = find_text(begin, line)? + begin.len();
    let length = find_text(close, &line[start..])?;
    Some(Span {
        start,
        stop: start + length,
    })
}

// The part of the line from after the first `key` to the end; `None` if `key` doesn't occur.
fn find_after(key: &[u8], line: &[u8]) -> Option<Span>
    ensures value { result ≡ after_of key.now line.now }
    ensures within { IfSome result (IsPart (length line.now)) }
{
    let start = find_text(key, line)? + key.len();
    Some(Span {
        start,
        stop: line.len(),
    })
}

/// The part of the line that is its timestamp, or that starts with it if [`Place::is_prefix`].
///
/// `None` for field 0, too few fields, or a text that doesn't occur (the second of `Between`: after the first); for
/// `Quoted` also if the closing quote of a field up to that one is missing, or neither delimiter nor end follows it.
#[inline(always)]
pub fn find_span(place: Place<'_>, line: &[u8]) -> Option<Span>
    ensures value { result ≡ span_of place.entry line.now }
    ensures within { IfSome result (IsPart (length line.now)) }
{
    match place {
        Place::Whole | Place::Front => Some(Span {
            start: 0,
            stop: body_length(line),
        }),
        Place::Field(_, 0) => None,
        Place::Field(kind, number) => nth_field(kind, number - 1, body_of(line)),
        Place::Between(begin, close) => find_between(begin, close, line),
        Place::After(key) => find_after(key, body_of(line)),
    }
}
