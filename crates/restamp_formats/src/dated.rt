//! Parses a text, which may omit its year, by the first of several formats that matches.
//!
//! `fast` parses local times in a zone only once.
ghost use Rattle.std.specs.Prelude.{◌≡◌, ◌+◌, ◌≤◌, ◌≤ℤ◌, ◌-ℤ◌};
ghost use Rattle.restamp_formats.specs.Common.{neg_ℤ, pos, length, Err, IfOk};
ghost use Rattle.restamp_formats.specs.Reading as spec;
ghost use Rattle.restamp_formats.specs.Reason.{Satisfies, Reason as Reason_, erased};

mod fast;

use crate::brief::{Brief, FromReason};
use crate::local::{Clocks, read_local, read_unplaced};
use crate::reading::{Defaults, Match, Reading, parse, parse_outlined};
use crate::reason::Reason;
use std::cmp::Ordering;
use time_values::{OffsetDateTime, UtcOffset};

// Whether the moment is later than another, at whatever offsets. Whole seconds, which are cheaper, mostly decide it.
fn is_after(moment: OffsetDateTime, other: OffsetDateTime) -> bool
    ensures { result ≡ spec.is_after moment other }
{
    let seconds = moment.unix_timestamp();
    let others = other.unix_timestamp();
    if seconds != others {
        return others < seconds;
    }
    moment.cmp_instant(other) == Ordering::Greater
}

// A text, which may omit its year, with its format, the default offset and zone, and the latest moment that it may
// mean. If `is_prefix` is true, a prefix of the text is parsed, otherwise the whole text.
#[derive(Clone, Copy)]
struct Undated<'a, 'z> {
    reading: &'a Reading,
    is_prefix: bool,
    text: &'a [u8],
    offset: Option<UtcOffset>,
    clocks: Option<Clocks<'z>>,
    latest: OffsetDateTime,
}

impl<'z> Undated<'_, 'z> {
    // The defaults with that year, and the offset and the zone of `self`; without a latest moment.
    fn in_year(&self, year: i32) -> Defaults<'z>
        ensures { result ≡ spec.in_year year self.now.offset self.now.clocks }
    {
        Defaults {
            year: Some(year),
            offset: self.offset,
            clocks: self.clocks,
            latest: None,
        }
    }

    // Parses the text with that default year; if the format rejects it, as a local time in the zone, if there is one.
    #[inline(always)]
    fn read_in_year<E: FromReason>(&self, year: i32) -> Result<Match, E>
        ensures said { Satisfies E.is_of (spec.IsReadInYear (spec.erased_undated self.now) year) result }
        ensures within { IfOk result (λ said. said.start + said.length ≤ length self.now.text.now) }
    {
        read_local(self.reading, self.is_prefix, self.text, &self.in_year(year))
    }

    // Whether the text, with that default year and with the latest moment's offset as the default offset, is a moment
    // that isn't after the latest one; false if the format rejects it.
    fn is_early(&self, year: i32) -> bool
        ensures { spec.IsEarly (spec.erased_undated self.now) year result }
    {
        let defaults = self.in_year(year).at(self.latest.offset());
        match parse_outlined::<Brief>(self.reading, self.is_prefix, self.text, &defaults) {
            Ok(said) => !is_after(said.moment, self.latest),
            Err(_) => false,
        }
    }

    // Whether the error of that year ends the search: the local time is nonexistent or ambiguous in the zone, and, at
    // the offset of the latest moment, isn't after that moment.
    fn is_final<E: FromReason>(&self, year: i32, why: E) -> bool
        ensures { (reason : Reason_) → E.is_of reason why
            → spec.IsFinal (spec.erased_undated self.now) year reason result }
    {
        if why.is_local_time_error() {
            return self.is_early(year);
        }
        false
    }

    // Tries `count` years from `year` down, until a match isn't after the latest moment or `is_final` is true for an
    // error; returns that match or error. Otherwise returns the last error of a year, or `reason` if no year has one.
    #[inline(never)]
    fn read_years<E: FromReason>(&self, year: i32, count: u8, reason: E) -> Result<Match, E>
        requires { neg_ℤ (pos 2_000_000) ≤ℤ (year -ℤ pos count) }
        ensures said { (why : Reason_) → E.is_of why reason
            → Satisfies E.is_of (spec.AreYearsTried (spec.erased_undated self.now) count year why) result }
        ensures within { IfOk result (λ said. said.start + said.length ≤ length self.now.text.now) }
    {
        if count == 0 {
            return Err(reason);
        }
        let before = year - 1;
        match self.read_in_year::<E>(year) {
            Ok(said) => {
                if is_after(said.moment, self.latest) {
                    return self.read_years(before, count - 1, reason);
                }
                Ok(said)
            }
            Err(why) => {
                if self.is_final(year, why) {
                    return Err(why);
                }
                self.read_years(before, count - 1, why)
            }
        }
    }
}

// Parses a text that the format rejects for that reason: as a local time in the zone of the defaults, then, if they
// have a latest moment, with ten default years, from the one after its year down, for a moment that isn't after it. The
// error is that of the last attempt that fails. Not inlined, so that it needs no stack beside accepted texts.
#[inline(never)]
fn parse_by_defaults<E: FromReason>(
    reading: &Reading,
    is_prefix: bool,
    text: &[u8],
    defaults: &Defaults<'_>,
    reason: E,
) -> Result<Match, E>
    requires { (why : Reason_) × E.is_of why reason
        × spec.ParsesAs reading.now is_prefix text.now defaults.now (Err why) }
    ensures said { Satisfies E.is_of (spec.IsDated reading.now is_prefix text.now defaults.now) result }
    ensures within { IfOk result (λ said. said.start + said.length ≤ length text.now) }
{
    match read_unplaced(reading, is_prefix, text, defaults, reason) {
        Ok(said) => Ok(said),
        Err(why) => {
            let Some(latest) = defaults.latest else {
                return Err(why);
            };
            let undated = Undated {
                reading,
                is_prefix,
                text,
                offset: defaults.offset,
                clocks: defaults.clocks,
                latest,
            };
            undated.read_years(latest.year() + 1, 10, why)
        }
    }
}

/// Parses a text (a prefix of it if `is_prefix` is true) by the format or, if that fails, as a local time in the zone
/// of the defaults, if any. If both fail and the defaults have a `latest`, tries both with ten default years, from the
/// one after its year down, for a moment that isn't after it. Ten suffice for month and day: up to seven years in a row
/// have no 29 February. A nonexistent or ambiguous local time ends the search if it isn't after `latest` at the offset
/// of `latest`. The error, as an `E`, is that of the last failed attempt. Not inlined: fast paths need no stack for it.
#[tactic(auto, using(crate::proofs::ParseLemmas::dated_at_once))]
#[inline(never)]
pub fn parse_dated<E: FromReason>(
    reading: &Reading,
    is_prefix: bool,
    text: &[u8],
    defaults: &Defaults<'_>,
) -> Result<Match, E>
    ensures said { Satisfies E.is_of (spec.IsDated reading.now is_prefix text.now defaults.now) result }
    ensures within { IfOk result (λ said. said.start + said.length ≤ length text.now) }
{
    match parse(reading, is_prefix, text, defaults) {
        Ok(said) => Ok(said),
        Err(reason) => {
            if !defaults.tries_more() {
                return Err(reason);
            }
            parse_by_defaults(reading, is_prefix, text, defaults, reason)
        }
    }
}

// Parses a text by the first of the formats that matches, as `parse_dated` does; otherwise returns `reason`.
fn read_others<E: FromReason>(
    readings: &[Reading],
    is_prefix: bool,
    text: &[u8],
    defaults: &Defaults<'_>,
    reason: E,
) -> Result<Match, E>
    ensures said { (why : Reason_) → E.is_of why reason
        → Satisfies E.is_of (spec.AreTried readings.now is_prefix text.now defaults.now why) result }
    ensures within { IfOk result (λ said. said.start + said.length ≤ length text.now) }
{
    for reading in readings {
        if let Ok(said) = parse_dated::<Brief>(reading, is_prefix, text, defaults) {
            return Ok(said);
        }
    }
    Err(reason)
}

/// Parses a text (a prefix of it if `is_prefix` is true) by `first` or, if that fails, by the first of `others` that
/// matches, each as [`parse_dated`] does. If none matches, the error is that of `first`, as an `E`.
#[tactic(auto, using(crate::proofs::ParseLemmas::in_turn_at_once))]
pub fn parse_in_turn<E: FromReason>(
    first: &Reading,
    others: &[Reading],
    is_prefix: bool,
    text: &[u8],
    defaults: &Defaults<'_>,
) -> Result<Match, E>
    ensures said { Satisfies E.is_of (spec.IsReadInTurn first.now others.now is_prefix text.now defaults.now) result }
    ensures within { IfOk result (λ said. said.start + said.length ≤ length text.now) }
{
    if let Some(said) = fast::read_once(first, is_prefix, text, defaults) {
        return Ok(said);
    }
    match parse_dated(first, is_prefix, text, defaults) {
        Ok(said) => Ok(said),
        Err(why) => read_others(others, is_prefix, text, defaults, why),
    }
}

/// Parses a text as [`parse_in_turn`] does. If no format matches, the error is the whole [`Reason`] of `first`.
pub fn read_in_turn(
    first: &Reading,
    others: &[Reading],
    is_prefix: bool,
    text: &[u8],
    defaults: &Defaults<'_>,
) -> Result<Match, Reason>
    ensures said { spec.IsReadInTurn first.now others.now is_prefix text.now defaults.now (erased result) }
    ensures within { IfOk result (λ said. said.start + said.length ≤ length text.now) }
{
    parse_in_turn(first, others, is_prefix, text, defaults)
}
