//! Parses a prefix by RFC 3339, and a prefix or a whole text by ISO 8601, without a record.
ghost use Rattle.std.specs.Prelude.{◌≤◌, ◌+◌};
ghost use Rattle.restamp_formats.specs.Common.{length, IfSome, Ok, Defaults, greatest_year};
ghost use Rattle.time_parsing.specs.Iso8601.{Reads, Refuses};
ghost use Rattle.restamp_formats.specs.Reading as spec;

use crate::reading::{Match, match_before};
use time_parsing::iso8601::fast::front;
use time_parsing::{Parsable, Rfc3339Strict};

// How many bytes come before the fraction in RFC 3339: those of `YYYY-MM-DDTHH:MM:SS`.
const SECOND: usize = 19;

// The index after the run of ASCII digits that starts at `from`: `from` itself if there is no digit.
#[inline(always)]
fn digits_end(text: &[u8], from: usize) -> usize
    requires { from ≤ length text.now }
    ensures { result ≤ length text.now }
{
    for at in from..text.len() {
        if !text[at].is_ascii_digit() {
            return at;
        }
    }
    text.len()
}

// The index after an offset that follows the first 19 bytes, or a point and digits after them; `None` if neither `Z`
// nor `z` is there, nor a sign with a colon three bytes after it and two more bytes. No other byte is checked.
#[inline(always)]
fn moment_end(text: &[u8]) -> Option<usize>
    ensures { IfSome result (λ end. end ≤ length text.now) }
{
    if text.len() <= SECOND {
        return None;
    }
    let offset = if text[SECOND] == b'.' {
        digits_end(text, SECOND + 1)
    } else {
        SECOND
    };
    let rest = &text[offset..];
    match rest {
        [b'Z' | b'z', ..] => Some(offset + 1),
        [b'+' | b'-', _, _, b':', _, _, ..] => Some(offset + 6),
        _ => None,
    }
}

/// Parses a prefix of the text by RFC 3339. `None` means unknown, not rejected: the text must be parsed over a record.
#[tactic(auto, using(crate::proofs::FrontLemmas::front_said))]
#[inline(always)]
pub(super) fn front_3339(text: &[u8]) -> Option<Match>
    ensures said { IfSome result (λ said. spec.IsReadInFront text.now (Ok said)) }
    ensures within { IfSome result (λ said. said.start + said.length ≤ length text.now) }
{
    let end = moment_end(text)?;
    let Ok(moment) = Rfc3339Strict.parse_offset_date_time(&text[..end], None) else {
        return None;
    };
    Some(Match {
        moment,
        start: 0,
        length: end,
    })
}

/// Parses a prefix of the text by ISO 8601 if `is_prefix` is true, otherwise the whole text. Defaults have no effect on a
/// match, which has a year and an offset. `None` means unknown, not rejected: the text must be parsed over a record.
#[inline(always)]
pub(super) fn read_8601(is_prefix: bool, text: &[u8]) -> Option<Match>
    ensures said { (defaults : Defaults) → IfSome result (λ said. spec.IsReadWith is_prefix (Reads greatest_year)
        (Refuses greatest_year) text.now defaults (Ok said)) }
    ensures within { IfSome result (λ said. said.start + said.length ≤ length text.now) }
{
    let (moment, rest) = front(text)?;
    if !is_prefix && !rest.is_empty() {
        return None;
    }
    Some(match_before(rest, text, moment))
}
