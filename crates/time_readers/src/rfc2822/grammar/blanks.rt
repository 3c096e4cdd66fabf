//! The blanks between the parts of a mail date, folded over lines or not, its comments and its zone names: RFC 2822,
//! sections 3.2.2, 3.2.3 and 4.3.
//!
//! Alternatives are tried in order, repetitions are greedy, and nothing backtracks.
ghost use Rattle.std.specs.Prelude.{◌≡◌, ◌==◌, option_map};
ghost use Rattle.std.specs.Option.{option_copied};
ghost use Rattle.time_readers.specs.Readers.{one_of, ◌or◌};
ghost use Rattle.time_readers.specs.MailBlanks as spec;
ghost use Rattle.std.specs.Char.{to_ascii_lowercase};
ghost use Rattle.time_readers.specs.MailBlanks.{beside, hours_of, is_military, short_zone, zone_hours, zone_literal};

use crate::{ParsedItem, rfc2822};

// How deep comments may be nested, counting the outermost.
const MOST_COMMENTS: u8 = 31;

// Parses blanks, folded over lines or not: one fold; or blanks, and then any number of folds. Returns `None` for any
// other input, and, in the second form, if a CR LF without a blank after it comes next.
pub(crate) fn fws(input: &[u8]) -> Option<ParsedItem<'_, ()>>
    ensures { option_map (λ p. p.0.now) result ≡ spec.fws input.now }
{
    if let Some(rest) = line_fold(input) {
        return Some(ParsedItem(rest, ()));
    }
    let mut rest = blanks(input)?;
    while let Some(line) = crlf(rest) {
        rest = blanks(line)?;
    }
    Some(ParsedItem(rest, ()))
}

// Parses a space or a tab.
#[inline]
fn blank(input: &[u8]) -> Option<&[u8]>
    ensures { option_copied result ≡ one_of spec.is_blank input.now }
{
    match input {
        [b' ' | b'\t', rest @ ..] => Some(rest),
        _ => None,
    }
}

// Parses one or more spaces and tabs. Returns `None` if the input doesn't begin with one.
#[inline]
fn blanks(input: &[u8]) -> Option<&[u8]>
    ensures { option_copied result ≡ spec.blanks input.now }
{
    let mut rest = blank(input)?;
    while let Some(more) = blank(rest) {
        rest = more;
    }
    Some(rest)
}

// Parses the end of a line: CR LF.
#[inline]
fn crlf(input: &[u8]) -> Option<&[u8]>
    ensures { option_copied result ≡ spec.crlf input.now }
{
    match input {
        [b'\r', b'\n', rest @ ..] => Some(rest),
        _ => None,
    }
}

// Parses the end of a line, and the blanks at the start of the next.
#[inline]
fn line_fold(input: &[u8]) -> Option<&[u8]>
    ensures { option_copied result ≡ spec.line_fold input.now }
{
    blanks(crlf(input)?)
}

// Parses one part of a comment's text: an ASCII byte other than NUL, a tab, LF, CR, a space, a parenthesis and a
// backslash; or a backslash and an ASCII byte other than NUL, LF and CR.
#[inline]
fn text(input: &[u8]) -> Option<&[u8]>
    ensures { option_copied result ≡ (one_of spec.is_text or spec.quoted_pair) input.now }
{
    match input {
        [
            1..=8 | 11 | 12 | 14..=31 | 33..=39 | 42..=91 | 93..=127,
            rest @ ..,
        ] => Some(rest),
        [b'\\', 1..=9 | 11 | 12 | 14..=127, rest @ ..] => Some(rest),
        _ => None,
    }
}

// Parses the byte `C`, and returns the rest. `None` for any other input.
#[inline]
fn one<const C: u8>(input: &[u8]) -> Option<&[u8]>
    ensures { option_copied result ≡ one_of (λ c. c == C) input.now }
{
    match input {
        [first, rest @ ..] if *first == C => Some(rest),
        _ => None,
    }
}

// Parses a comment, with the comments in it. Returns `None` if they are nested more than 31 deep, counting the
// outermost, or if the input ends or has bytes of another form before the outermost comment is closed.
fn comment(input: &[u8]) -> Option<&[u8]>
    ensures { option_copied result ≡ spec.comment 31 input.now }
{
    let mut rest = one::<b'('>(input)?;
    let mut open = 1;
    while open > 0 {
        if let Some(found) = fws(rest) {
            rest = found.0;
        } else if let Some(found) = text(rest) {
            rest = found;
        } else if let Some(inner) = one::<b'('>(rest) {
            if open == MOST_COMMENTS {
                return None;
            }
            rest = inner;
            open += 1;
        } else {
            rest = one::<b')'>(rest)?;
            open -= 1;
        }
    }
    Some(rest)
}

// Parses blanks, folded over lines or not, or else a comment.
#[inline]
fn blanks_or_comment(input: &[u8]) -> Option<&[u8]>
    ensures { option_copied result ≡ (spec.fws or spec.comment 31) input.now }
{
    match fws(input) {
        Some(found) => Some(found.0),
        None => comment(input),
    }
}

// Parses blanks and comments, one or more of them.
pub(crate) fn cfws(input: &[u8]) -> Option<ParsedItem<'_, ()>>
    ensures { option_map (λ p. p.0.now) result ≡ spec.cfws input.now }
{
    let mut rest = blanks_or_comment(input)?;
    while let Some(more) = blanks_or_comment(rest) {
        rest = more;
    }
    Some(ParsedItem(rest, ()))
}

// Parses blanks and comments, or nothing.
#[inline]
pub(crate) fn opt_cfws(input: &[u8]) -> ParsedItem<'_, ()>
    ensures { Some result.0.now ≡ spec.opt_cfws input.now }
{
    match cfws(input) {
        Some(found) => found,
        None => ParsedItem(input, ()),
    }
}

// Parses a colon, with the blanks and comments before and after it.
pub(crate) fn opt_cfws_colon_opt_cfws(input: &[u8]) -> Option<ParsedItem<'_, ()>>
    ensures { option_map (λ p. p.0.now) result ≡ spec.opt_cfws_colon_opt_cfws input.now }
{
    let rest = rfc2822::opt_cfws(input).0;
    let rest = one::<b':'>(rest)?;
    Some(rfc2822::opt_cfws(rest))
}

// Parses a zone name in any case, as its hours from UTC. An input of three or more bytes must begin with a name that
// `hours_of` knows, as `EST`. A shorter one must be `UT`, or begin with a letter except J. Otherwise returns `None`.
pub(crate) fn zone_literal(input: &[u8]) -> Option<ParsedItem<'_, i8>>
    ensures { option_map (λ p. (p.1, p.0.now)) result ≡ zone_literal input.now }
{
    if let [first, second, third, rest @ ..] = input {
        let hours = hours_of([*first, *second, *third])?;
        return Some(ParsedItem(rest, hours));
    }
    short_zone(input)
}

// Parses `UT` if it is the whole input, or else one letter other than J. Both are 0 hours from UTC. The case is
// ignored.
#[inline]
fn short_zone(input: &[u8]) -> Option<ParsedItem<'_, i8>>
    ensures { option_map (λ p. (p.1, p.0.now)) result ≡ short_zone input.now }
{
    if input.eq_ignore_ascii_case(b"ut") {
        return Some(ParsedItem(&[], 0));
    }
    match input {
        [letter, rest @ ..] if is_military(*letter) => Some(ParsedItem(rest, 0)),
        _ => None,
    }
}

// The hours from UTC of a name of three letters in any case, -8 to 0. `None` for any other name.
#[inline]
#[tactic(auto, unfolding(crate::specs::MailBlanks::hours_of))]
fn hours_of(name: [u8; 3]) -> Option<i8>
    ensures { result ≡ hours_of name }
{
    hours_beside(name.map(|c| c.to_ascii_lowercase()))
}

// The hours from UTC of a name of three small letters, -8 to 0. `None` for any other name.
#[inline]
fn hours_beside(name: [u8; 3]) -> Option<i8>
    ensures { result ≡ beside name zone_hours }
{
    match &name {
        b"est" | b"cdt" => Some(-5),
        b"edt" => Some(-4),
        b"cst" | b"mdt" => Some(-6),
        b"mst" | b"pdt" => Some(-7),
        b"pst" => Some(-8),
        b"gmt" => Some(0),
        _ => None,
    }
}

// Whether the byte is an ASCII letter other than J, in either case.
#[inline]
fn is_military(byte: u8) -> bool
    ensures { result ≡ is_military (to_ascii_lowercase byte) }
{
    byte.is_ascii_alphabetic() && byte != b'j' && byte != b'J'
}
