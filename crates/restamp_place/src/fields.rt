//! Splits a line into fields.
ghost use Rattle.std.specs.Prelude.{◌≡◌, ◌≤◌, length, drop, IfSome};
ghost use Rattle.std.specs.Option.{option_map};
ghost use Rattle.restamp_place.specs.Fields as fields;

mod fast;

use crate::texts::{blanks_length, closing_quote, length_before, word_length};

/// How a line is split into fields.
#[derive(Clone, Copy, Debug, PartialEq, Eq)]
pub enum Fields {
    /// Fields are separated by that byte. A field may be empty, and an empty line is one empty field.
    Delimited(u8),
    /// Each field is a run of bytes other than space and TAB, as in `awk`.
    Blank,
    /// Fields are separated by that byte. A field that starts with `"` ends with the next `"` that isn't doubled; its
    /// content is the bytes between the two, in which `""` stays doubled (RFC 4180, section 2).
    Quoted(u8),
}

/// A part of a line: its bytes from index `start`, counted from 0, to before index `stop`.
#[derive(Clone, Copy, Debug, PartialEq, Eq)]
pub struct Span {
    /// How many bytes of the line come before the part.
    pub start: usize,
    /// How many bytes of the line come before the end of the part.
    pub stop: usize,
}

/// A field: its content, and where it ends, after a closing quote.
#[derive(Clone, Copy)]
pub(crate) struct Field {
    /// The content, without quotes around it.
    pub(crate) said: Span,
    /// How many bytes come before the field's end, which is after a closing quote.
    pub(crate) edge: usize,
}

// The first field of a line: the bytes before the first `delimiter`, or all bytes if there is none.
fn first_delimited(delimiter: u8, line: &[u8]) -> Field
    ensures value { result ≡ fields.first_delimited delimiter line.now }
    ensures within { fields.IsWithin (length line.now) result }
{
    let stop = length_before(delimiter, line);
    Field {
        said: Span { start: 0, stop },
        edge: stop,
    }
}

// The first run of bytes other than space and TAB; `None` if the line has no such byte.
fn first_word(line: &[u8]) -> Option<Field>
    ensures value { result ≡ fields.first_word line.now }
    ensures within { IfSome result (fields.IsWithin (length line.now)) }
{
    let start = blanks_length(line);
    if start == line.len() {
        return None;
    }
    let stop = start + word_length(&line[start..]);
    Some(Field {
        said: Span { start, stop },
        edge: stop,
    })
}

// The first field, in quotes or not. `None` if a closing quote is missing, or not followed by `delimiter` or the end.
fn first_quoted(delimiter: u8, line: &[u8]) -> Option<Field>
    ensures value { result ≡ fields.first_quoted delimiter line.now }
    ensures within { IfSome result (fields.IsWithin (length line.now)) }
{
    if line.is_empty() || line[0] != b'"' {
        return Some(first_delimited(delimiter, line));
    }
    let length = closing_quote(&line[1..])?;
    let edge = length + 2;
    if edge != line.len() && line[edge] != delimiter {
        return None;
    }
    Some(Field {
        said: Span {
            start: 1,
            stop: length + 1,
        },
        edge,
    })
}

// The first field of a line by that kind. `None` if `Blank` finds no word, or `first_quoted` rejects the quotes.
fn first_field(kind: Fields, line: &[u8]) -> Option<Field>
    ensures value { result ≡ fields.first_field kind line.now }
    ensures within { IfSome result (fields.IsWithin (length line.now)) }
{
    match kind {
        Fields::Delimited(delimiter) => Some(first_delimited(delimiter, line)),
        Fields::Blank => first_word(line),
        Fields::Quoted(delimiter) => first_quoted(delimiter, line),
    }
}

impl Fields {
    // The number of bytes between two fields: 1, the delimiter; 0 for `Blank`, where the next search skips any blanks.
    fn gap(self) -> usize
        ensures value { result ≡ fields.gap self }
        ensures least { result ≤ 1 }
    {
        match self {
            Fields::Delimited(_) | Fields::Quoted(_) => 1,
            Fields::Blank => 0,
        }
    }
}

// Skips bytes that come before the field with index n, from 0. Returns how many bytes are skipped, and how many fields
// still have to be skipped after them.
#[inline(always)]
fn passed(kind: Fields, n: usize, line: &[u8]) -> (usize, usize)
    ensures value { fields.nth_field kind n line.now
        ≡ option_map (fields.moved result.0) (fields.nth_field kind result.1 (drop result.0 line.now)) }
    ensures within { result.0 ≤ length line.now }
{
    if let Fields::Blank = kind {
        if let Some(passed) = fast::pass_words(n, line) {
            return (passed.start, passed.left);
        }
    }
    (0, n)
}

/// The content of the field with index n, from 0. `None` if the line has too few fields; for `Quoted` also if a field
/// up to it starts with a quote whose closing quote is missing or isn't followed by the delimiter or the end.
pub(crate) fn nth_field(kind: Fields, n: usize, line: &[u8]) -> Option<Span>
    ensures value { result ≡ fields.nth_field kind n line.now }
    ensures within { IfSome result (fields.IsPart (length line.now)) }
{
    let (mut start, mut left) = passed(kind, n, line);
    while left > 0 {
        let rest = &line[start..];
        let field = first_field(kind, rest)?;
        let gap = kind.gap();
        if rest.len() - field.edge < gap {
            return None;
        }
        start += field.edge + gap;
        left -= 1;
    }
    let said = first_field(kind, &line[start..])?.said;
    Some(Span {
        start: start + said.start,
        stop: start + said.stop,
    })
}
