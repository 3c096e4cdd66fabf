//! Timestamps at any place of a line.
//!
//! `fast` skips bytes that no timestamp starts with.
ghost use Rattle.std.specs.Prelude.{◌≡◌, ◌≤◌, ◌<◌, ◌+◌, ◌∷◌, ℕ, length, false, None, IfSome};
ghost use Rattle.restamp_lines.specs.Begins as begins;
ghost use Rattle.restamp_lines.specs.Job as spec;

mod fast;
mod firsts;

use crate::job::{Job, REACH, Refusal};
use firsts::{Firsts, all_firsts};
use restamp_formats::{Brief, FromReason, Match, Reading, parse_dated};
use restamp_place::body_of;
use restamp_stream::LineAction;
use time_values::text::Text;

// Whether the bytes of the line at the indices `place` - 1 and `place` are both ASCII letters or digits; `false` at 0
// and from the line's end on.
fn is_inside(line: &[u8], place: usize) -> bool
    ensures { result ≡ spec.is_inside line.now place }
{
    0 < place
        && place < line.len()
        && line[place - 1].is_ascii_alphanumeric()
        && line[place].is_ascii_alphanumeric()
}

impl Job<'_> {
    // Parses the line from `start` on by the format, a prefix of at most `REACH` bytes; `None` if that doesn't match,
    // or if the match ends inside a word or a number. The match counts its start from `start`.
    fn match_alone(&self, line: &[u8], start: usize, reading: &Reading) -> Option<Match>
        requires { start ≤ length line.now }
        ensures matched { spec.MatchesAlone self.now line.now start reading.now result }
        ensures within { IfSome result (λ matched. start + matched.start + matched.length ≤ length line.now) }
    {
        let rest = &line[start..];
        let near = &rest[..REACH.min(rest.len())];
        let Ok(matched) = parse_dated::<Brief>(reading, true, near, &self.defaults) else {
            return None;
        };
        if is_inside(line, start + matched.start + matched.length) {
            return None;
        }
        Some(matched)
    }

    // The result of `match_alone`, without a parse if the first bytes from `start` on rule out a text of the format.
    #[inline(always)]
    fn try_alone(&self, line: &[u8], start: usize, reading: &Reading) -> Option<Match>
        requires { start ≤ length line.now }
        ensures matched { spec.MatchesAlone self.now line.now start reading.now result }
        ensures within { IfSome result (λ matched. start + matched.start + matched.length ≤ length line.now) }
    {
        match fast::matches_nothing(self, line, start, reading) {
            Some(()) => None,
            None => self.match_alone(line, start, reading),
        }
    }

    // The match by `match_alone` of the first of `self.others` that has one from `start` on; `None` if none has.
    fn read_others(&self, line: &[u8], start: usize) -> Option<Match>
        requires { start ≤ length line.now }
        ensures matched { spec.AreTriedAlone self.now line.now start self.now.others.now result }
        ensures within { IfSome result (λ matched. start + matched.start + matched.length ≤ length line.now) }
    {
        for reading in self.others {
            if let Some(matched) = self.try_alone(line, start, reading) {
                return Some(matched);
            }
        }
        None
    }

    // Parses the line from `start` on as `match_alone`, by the first of all formats that matches; `None` if none does,
    // or if the byte at `start` continues a word or a number.
    fn match_from(&self, line: &[u8], start: usize) -> Option<Match>
        requires { start ≤ length line.now }
        ensures matched { spec.MatchesFrom self.now line.now start result }
        ensures within { IfSome result (λ matched. start + matched.start + matched.length ≤ length line.now) }
    {
        if is_inside(line, start) {
            return None;
        }
        match self.try_alone(line, start, self.first) {
            Some(matched) => Some(matched),
            None => self.read_others(line, start),
        }
    }

    // The next index to try, from `from` to the line's length. No format matches from an index in `from..result`.
    // Bytes that aren't in `firsts`, or that continue a word or a number, may be skipped.
    fn next_start(&self, firsts: Firsts, line: &[u8], from: usize) -> usize
        requires some { 0 < from }
        requires within { from ≤ length line.now }
        requires firsts { (x : ℕ) → begins.is_in firsts x ≡ false
            → begins.IsInNone x (self.now.first.now ∷ self.now.others.now) }
        ensures low { from ≤ result }
        ensures high { result ≤ length line.now }
        ensures passed { (k : ℕ) → from ≤ k → k < result → spec.MatchesFrom self.now line.now k None }
    {
        match fast::next_start(firsts, line, from) {
            Some(next) => next,
            None => from,
        }
    }

    // The first index of the line from which on a format matches, and the match, which counts its start from there;
    // `None` if no format matches anywhere.
    pub(crate) fn find_first(&self, line: &[u8]) -> Option<(usize, Match)>
        ensures first { spec.IsFirst self.now line.now result }
        ensures within { IfSome result (λ found. found.0 + found.1.start + found.1.length ≤ length line.now) }
    {
        let firsts = all_firsts(self.first, self.others);
        let mut start = 0;
        while start < line.len() {
            if let Some(matched) = self.match_from(line, start) {
                return Some((start, matched));
            }
            start = self.next_start(firsts, line, start + 1);
        }
        None
    }

    // The verdict on a line whose timestamp may be anywhere but in a CR at its end. A new time is stored in `text`.
    #[inline(never)]
    pub(crate) fn judge_anywhere<E: FromReason>(
        &self,
        line: &[u8],
        text: &mut Text,
    ) -> LineAction<Refusal<E>>
        ensures verdict { spec.SatisfiesWithText E.is_of (spec.IsJudgedAnywhere self.now line.now) result text.new }
        ensures within { spec.EndsWithin (length line.now) result }
    {
        match self.find_first(body_of(line)) {
            Some((start, matched)) => self.put(start, matched, text),
            None => self.miss(),
        }
    }
}
