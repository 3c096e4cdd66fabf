//! The verdict on a line: its action, and the new time if it is rewritten.
//!
//! `fast` parses a timestamp without the reason of an error.
ghost use Rattle.std.specs.Prelude.{◌≡◌, ◌≤◌, ◌<◌, ◌+◌, ◌^◌, ℕ, length, IfSome, Some};
ghost use Rattle.std.specs.Option.{option_map};
ghost use Rattle.time_values.specs.DisplayTexts.{Items};
ghost use Rattle.restamp_lines.specs.Job as spec;

mod fast;

use crate::part::Part;
use byte_streams::{LINE_LIMIT, LOOKAHEAD};
use restamp_formats::{
    Defaults, Form, FromReason, Match, Reading, Reason, parse_in_turn, write_to,
};
use restamp_place::{Place, find_span};
use restamp_stream::LineAction;
use std::cmp::Ordering;
use time_values::OffsetDateTime;
use time_values::text::Text;

/// The most bytes that a timestamp may have if the job has no place: 256.
pub const REACH: usize = LOOKAHEAD;

/// The most bytes from a line's start to its timestamp's end: 262144. A line whose timestamp ends later is rejected.
pub const LIMIT: usize = LINE_LIMIT;

/// How each line is judged: where its timestamp is, how that is parsed and written, and which lines are dropped.
#[derive(Clone, Copy)]
pub struct Job<'a> {
    /// The place of the timestamp in the line; `None` means the first byte from which on a format matches.
    pub place: Option<Place<'a>>,
    /// The format that is tried first. If no format matches at `place`, its error is the reason.
    pub first: &'a Reading,
    /// The formats that are tried next, in turn.
    pub others: &'a [Reading],
    /// Defaults for what a timestamp omits.
    pub defaults: Defaults<'a>,
    /// How the moment is written.
    pub form: Form<'a>,
    /// Drops lines with an earlier moment; `None` drops none.
    pub since: Option<OffsetDateTime>,
    /// Drops lines with this moment or a later one; `None` drops none.
    pub until: Option<OffsetDateTime>,
    /// Whether lines without a timestamp are rejected; otherwise they are [`LineAction::Without`].
    pub requires_timestamp: bool,
}

/// Why a line is rejected, and at which of its bytes.
#[derive(Clone, Copy, Debug)]
pub struct Refusal<E> {
    /// The number of a byte in the line, from 1: the timestamp's first byte, or if it doesn't parse, the first byte of
    /// its part of the line; 1 for a line without a timestamp.
    pub column: usize,
    /// The reason; or what the caller keeps of it, such as a [`Brief`](restamp_formats::Brief).
    pub reason: E,
}

// Whether the moment is before the bound; `otherwise` if there is no bound.
#[inline(always)]
fn is_before(moment: OffsetDateTime, bound: Option<OffsetDateTime>, otherwise: bool) -> bool
    ensures { result ≡ spec.is_before moment bound otherwise }
{
    match bound {
        None => otherwise,
        Some(bound) => moment.cmp_instant(bound) == Ordering::Less,
    }
}

impl Job<'_> {
    // Whether the moment isn't before `since`, and is before `until`. A bound that is `None` excludes no moment.
    #[inline(always)]
    pub(crate) fn keeps(&self, moment: OffsetDateTime) -> bool
        ensures { result ≡ spec.is_kept self.now moment }
    {
        !is_before(moment, self.since, false) && is_before(moment, self.until, true)
    }

    // The verdict on a line with a match in the part that starts at `start`: rejected if the match ends after the first
    // `LIMIT` bytes, dropped if its moment is outside the bounds, otherwise rewritten, with the new time in `text`, or
    // rejected if the moment has no text in the job's form.
    #[inline(always)]
    pub(crate) fn put<E: FromReason>(
        &self,
        start: usize,
        matched: Match,
        text: &mut Text,
    ) -> LineAction<Refusal<E>>
        requires { start + matched.start + matched.length + 1 < 2 ^ 64 }
        ensures put { spec.SatisfiesWithText E.is_of (spec.IsPut self.now start matched) result text.new }
        ensures within { spec.EndsWithin (start + matched.start + matched.length) result }
    {
        let begin = start + matched.start;
        let end = begin + matched.length;
        if LIMIT < end {
            return LineAction::Refused(Refusal {
                column: begin + 1,
                reason: E::from_reason(Reason::TooFar),
            });
        }
        if !self.keeps(matched.moment) {
            return LineAction::Dropped;
        }
        match write_to(matched.moment, &self.form, text) {
            Ok(()) => LineAction::Rewritten { begin, end },
            Err(reason) => LineAction::Refused(Refusal {
                column: begin + 1,
                reason,
            }),
        }
    }

    // The verdict on a line without a timestamp: `Without`, or rejected at column 1 if a timestamp is required.
    #[inline(always)]
    pub(crate) fn miss<E: FromReason>(&self) -> LineAction<Refusal<E>>
        ensures verdict { (text : Items) → spec.SatisfiesWithText E.is_of (λ verdict. verdict ≡ spec.missed self.now) result text }
        ensures within { (n : ℕ) → spec.EndsWithin n result }
    {
        if !self.requires_timestamp {
            return LineAction::Without;
        }
        LineAction::Refused(Refusal {
            column: 1,
            reason: E::from_reason(Reason::Missing),
        })
    }

    // The verdict on a line whose timestamp lies in that part, by the first of the formats that matches. If none does,
    // the line is rejected at the part's start for the first format's reason. A new time is stored in `text`.
    // Not inlined, so that lines that the fast path matches need no stack for it.
    #[inline(never)]
    fn judge_in_turn<E: FromReason>(
        &self,
        part: Part<'_>,
        text: &mut Text,
    ) -> LineAction<Refusal<E>>
        ensures verdict { spec.SatisfiesWithText E.is_of (spec.IsJudgedIn self.now (Some (spec.erased_part part.entry))) result text.new }
        ensures within { spec.EndsWithin (part.entry.start + length part.entry.text.now) result }
    {
        let (is_prefix, bytes) = (part.is_prefix, part.text);
        match parse_in_turn(self.first, self.others, is_prefix, bytes, &self.defaults) {
            Ok(matched) => self.put(part.start, matched, text),
            Err(reason) => LineAction::Refused(Refusal {
                column: part.start + 1,
                reason,
            }),
        }
    }

    // The verdict of `judge_in_turn`. Unless `tries_more`, the fast path tries the first format, without error reasons.
    #[inline(always)]
    fn judge_part<E: FromReason>(&self, part: Part<'_>, text: &mut Text) -> LineAction<Refusal<E>>
        ensures verdict { spec.SatisfiesWithText E.is_of (spec.IsJudgedIn self.now (Some (spec.erased_part part.entry))) result text.new }
        ensures within { spec.EndsWithin (part.entry.start + length part.entry.text.now) result }
    {
        match fast::parse(self.first, part.is_prefix, part.text, &self.defaults) {
            Some(matched) => self.put(part.start, matched, text),
            None => self.judge_in_turn(part, text),
        }
    }

    // The part of the line in which its timestamp lies; `None` if the job has no place, or the line has no part there.
    #[inline(always)]
    pub(crate) fn find_part<'l>(&self, line: &'l [u8]) -> Option<Part<'l>>
        ensures part { option_map spec.erased_part result ≡ spec.part_of self.now.place line.now }
        ensures within { IfSome result (λ part. part.start + length part.text.now ≤ length line.now) }
    {
        let place = self.place?;
        let span = find_span(place, line)?;
        Some(Part {
            start: span.start,
            is_prefix: place.is_prefix(),
            text: &line[span.start..span.stop],
        })
    }

    /// The verdict on a line without its LF. The line is rejected if no format matches its timestamp, if this ends
    /// after the first [`LIMIT`] bytes, if its moment is from `since` on and before `until` but has no text in the
    /// job's form, or if there is no timestamp and one is required. Otherwise it is `Without` if there is no timestamp,
    /// dropped if the moment is before `since`, or is `until` or later, and else rewritten. Of a line with more than
    /// `LIMIT` + [`REACH`] bytes, the caller may pass only that many first bytes. The verdict is then the one on these.
    ///
    /// Without a place, the timestamp starts at the first byte from which on a format matches, and has at most
    /// [`REACH`] bytes. It neither starts nor ends inside a word or a number: between two bytes that are both ASCII
    /// letters or digits. A line without such a text has no timestamp. With a place, a line has no timestamp if it has
    /// no part at the place. White space around a mail date stays if the format decides where the timestamp ends, and
    /// is replaced if the place does. Comments around a mail date are replaced.
    ///
    /// If the line is rewritten, the new time is stored in `text`; otherwise the content of `text` is unspecified. For
    /// a rejected line, the type `E` decides how much of the reason is returned: [`Reason`] is all of it.
    #[inline(always)]
    pub fn judge<E: FromReason>(&self, line: &[u8], text: &mut Text) -> LineAction<Refusal<E>>
        ensures verdict { spec.SatisfiesWithText E.is_of (spec.IsJudged self.now line.now) result text.new }
        ensures within { spec.EndsWithin (length line.now) result }
    {
        if self.place.is_none() {
            return self.judge_anywhere(line, text);
        }
        match self.find_part(line) {
            Some(part) => self.judge_part(part, text),
            None => self.miss(),
        }
    }
}
