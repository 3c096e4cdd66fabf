//! Skips bytes of a line that no timestamp starts with, sixteen at a time.
//!
//! Each function compares a few bytes, without a parse. `None` means unknown: the formats have to be tried.
ghost use Rattle.std.specs.Prelude.{◌≡◌, ◌≤◌, ◌<◌, ◌+◌, ℕ, length, slice_index, true, false, None, IfSome, IsTrue};
ghost use Rattle.std.specs.Char.{is_ascii_alphanumeric};
ghost use Rattle.restamp_lines.specs.Begins as begins;
ghost use Rattle.restamp_lines.specs.Job.{MatchesAlone, is_inside};

use super::firsts::{Firsts, is_digit, is_gap, is_in, is_weekday, is_weekday_second, steps_firsts};
use crate::job::Job;
use restamp_formats::Reading;

// How many bytes of a line are tested at once.
const BLOCK: usize = 16;

// Whether the byte is an ASCII letter or digit.
#[inline(always)]
fn is_alphanumeric(byte: u8) -> bool
    ensures { result ≡ is_ascii_alphanumeric byte }
{
    is_digit(byte) | ((b'A' <= byte) & (byte <= b'Z')) | ((b'a' <= byte) & (byte <= b'z'))
}

// Whether a timestamp may start at index `place`, not 0: its byte is in `firsts` and continues no word or number.
#[inline(always)]
fn may_begin(firsts: Firsts, line: &[u8], place: usize) -> bool
    requires some { 0 < place }
    requires within { place < length line.now }
    ensures { result ≡ begins.may_begin firsts line.now place }
{
    !(is_alphanumeric(line[place - 1]) & is_alphanumeric(line[place])) & is_in(firsts, line[place])
}

// How many of the 16 bytes from `from` on come before the first at which a timestamp may start; 16 if there is none.
#[inline(always)]
fn first_within(firsts: Firsts, line: &[u8], from: usize) -> u8
    requires some { 0 < from }
    requires within { from + 16 ≤ length line.now }
    ensures most { result ≤ 16 }
    ensures passed { (k : ℕ) → from ≤ k → k < from + result → begins.may_begin firsts line.now k ≡ false }
{
    let mut first = BLOCK as u8;
    for k in 0..BLOCK {
        let here = if may_begin(firsts, line, from + k) {
            k as u8
        } else {
            BLOCK as u8
        };
        first = if here < first { here } else { first };
    }
    first
}

// The first index from `from` to before `to` at which a timestamp may start; `to` if there is none.
#[inline(always)]
fn find_within(firsts: Firsts, line: &[u8], from: usize, to: usize) -> usize
    requires some { 0 < from }
    requires ordered { from ≤ to }
    requires within { to ≤ length line.now }
    ensures low { from ≤ result }
    ensures high { result ≤ to }
    ensures passed { (k : ℕ) → from ≤ k → k < result → begins.may_begin firsts line.now k ≡ false }
{
    for place in from..to {
        if may_begin(firsts, line, place) {
            return place;
        }
    }
    to
}

/// The first index from `from` on at which a timestamp may start, by its byte and the one before it; the line's length
/// if there is none. `None` would mean unknown, but isn't returned.
#[inline(always)]
pub(super) fn next_start(firsts: Firsts, line: &[u8], from: usize) -> Option<usize>
    requires some { 0 < from }
    requires within { from ≤ length line.now }
    ensures within { IfSome result (λ next. (from ≤ next) × (next ≤ length line.now)) }
    ensures passed { IfSome result (λ next. (k : ℕ) → from ≤ k → k < next → begins.may_begin firsts line.now k ≡ false) }
{
    let mut at = from;
    while BLOCK <= line.len() - at {
        let first = usize::from(first_within(firsts, line, at));
        if first < BLOCK {
            return Some(at + first);
        }
        at += BLOCK;
    }
    Some(find_within(firsts, line, at, line.len()))
}

// Whether the bytes start with four ASCII digits; `false` for fewer than four bytes.
#[inline(always)]
fn has_year(bytes: &[u8]) -> bool
    ensures { result ≡ begins.has_year bytes.now }
{
    if bytes.len() < 4 {
        return false;
    }
    is_digit(bytes[0]) & is_digit(bytes[1]) & is_digit(bytes[2]) & is_digit(bytes[3])
}

// Whether a day or a weekday, a comment, or white space may start with the two bytes.
#[inline(always)]
fn begins_day(first: u8, second: u8) -> bool
    ensures { result ≡ begins.begins_day first second }
{
    is_digit(first) | is_gap(first) | (is_weekday(first) & is_weekday_second(second))
}

// Whether the bytes may start with a mail date, judged by the first two, or by the two after a space; `true` for fewer
// than three bytes.
#[inline(always)]
fn may_be_mail(bytes: &[u8]) -> bool
    ensures { result ≡ false → begins.may_be_mail bytes.now ≡ false }
{
    if bytes.len() < 3 {
        return true;
    }
    if bytes[0] == b' ' {
        begins_day(bytes[1], bytes[2])
    } else {
        begins_day(bytes[0], bytes[1])
    }
}

// Whether the bytes may start with a text of the format, judged by at most the first four.
#[inline(always)]
fn may_be_of(reading: &Reading, bytes: &[u8]) -> bool
    requires { 0 < length bytes.now }
    ensures { result ≡ false → begins.may_be_of reading.now bytes.now ≡ false }
{
    match reading {
        Reading::Rfc3339 | Reading::Zoned(_) => has_year(bytes),
        Reading::Rfc2822 => may_be_mail(bytes),
        Reading::Iso8601 => true,
        Reading::Described(description)
        | Reading::Complete(description)
        | Reading::Counted(description) => is_in(steps_firsts(description.steps()), bytes[0]),
    }
}

/// Returns `Some` if the first bytes from `start` on show that no prefix of the rest of the line parses by that format;
/// `None` if unknown.
#[inline(always)]
pub(super) fn matches_nothing(
    job: &Job<'_>,
    line: &[u8],
    start: usize,
    reading: &Reading,
) -> Option<()>
    requires { start ≤ length line.now }
    ensures { IfSome result (λ _. MatchesAlone job.now line.now start reading.now None) }
{
    if start == line.len() || may_be_of(reading, &line[start..]) {
        return None;
    }
    Some(())
}
