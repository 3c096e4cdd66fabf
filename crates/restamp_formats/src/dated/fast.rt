//! A fast path for local times in a zone.
ghost use Rattle.time_parsing.specs.Iso8601 as iso8601;
ghost use Rattle.std.specs.Prelude.{◌≡◌, ◌+◌, ◌≤◌};
ghost use Rattle.restamp_formats.specs.Common.{false, length, None, Some, Ok, IfSome, greatest_year, is_leap_second};
ghost use Rattle.restamp_formats.specs.{Reading.ReadsRecord, Reading.ParsesLocally, Zoned.IsMomentWhen};

use crate::local::{Clocks, clock_of};
use crate::reading::{Defaults, Match, Reading, match_before, put_year};
use std::convert::TryFrom;
use time_parsing::{Iso8601, Parsable};
use time_record::Parsed;
use time_values::{OffsetDateTime, PlainDateTime};
use time_zones::assume_zone;

// Whether the record has the hour of an offset, a count from 1970 or a second of 60.
#[inline(always)]
fn is_placed(parsed: &Parsed) -> bool
    ensures { result ≡ false → (parsed.now.offset_hour ≡ None) × (parsed.now.unix_timestamp_nanos ≡ None)
        × (is_leap_second parsed.now ≡ false) }
{
    parsed.offset_hour().is_some()
        || parsed.unix_timestamp_nanos().is_some()
        || parsed.second() == Some(60)
}

// Parses a prefix of the text by ISO 8601 into the record, and returns the rest; `None` if it doesn't match. Not
// inlined, so that it needs no stack beside descriptions.
#[inline(never)]
fn parse_8601<'a>(text: &'a [u8], parsed: &mut Parsed) -> Option<&'a [u8]>
    ensures { IfSome result (λ rest. iso8601.Reads greatest_year text.now parsed.old rest.now parsed.new) }
{
    Iso8601.parse_into(text, parsed).ok()
}

// Parses a prefix of the text by `Described` or `Iso8601` into the record, and returns the rest; `None` if it doesn't
// match, or for another format.
#[inline(always)]
fn parse<'a>(reading: &Reading, text: &'a [u8], parsed: &mut Parsed) -> Option<&'a [u8]>
    ensures { IfSome result (λ rest. ReadsRecord reading.now text.now parsed.old rest.now parsed.new) }
{
    match reading {
        Reading::Described(described) => described.parse_into(text, parsed).ok(),
        Reading::Iso8601 => parse_8601(text, parsed),
        _ => None,
    }
}

// The only moment that the zone has for the local date and time of `shown`; `None` if that is nonexistent, ambiguous
// (whatever `fold` is) or `OutsideZoneRange`. A reason in the result would cost a line a third of the search's cost.
#[inline(always)]
fn only_moment(clocks: &Clocks<'_>, shown: OffsetDateTime) -> Option<OffsetDateTime>
    ensures { IfSome result (λ moment. IsMomentWhen clocks.now shown (Ok moment)) }
{
    assume_zone(clock_of(shown), &clocks.zone).ok()
}

// Parses a text as a local time in that zone. `None` means unknown, not rejected: as for a text with an offset or a
// second of 60, or an ambiguous time. Not inlined, so that lines that need no zone need no stack for it.
#[inline(never)]
fn read_on(
    clocks: Clocks<'_>,
    reading: &Reading,
    is_prefix: bool,
    text: &[u8],
    defaults: &Defaults<'_>,
) -> Option<Match>
    requires clocks { defaults.now.clocks ≡ Some clocks }
    requires offset { defaults.now.offset ≡ None }
    ensures said { IfSome result (λ said. ParsesLocally reading.now is_prefix text.now defaults.now (Ok said)) }
    ensures within { IfSome result (λ said. said.start + said.length ≤ length text.now) }
{
    let mut parsed = Parsed::new();
    let rest = parse(reading, text, &mut parsed)?;
    if !is_prefix && !rest.is_empty() {
        return None;
    }
    put_year(defaults.year, &mut parsed);
    if is_placed(&parsed) {
        return None;
    }
    let Ok(clock) = PlainDateTime::try_from(parsed) else {
        return None;
    };
    let moment = only_moment(&clocks, clock.assume_utc())?;
    Some(match_before(rest, text, clock.assume_offset(moment.offset())))
}

/// Parses a text without an offset as a local time in the zone of the defaults. `None` means unknown, not rejected: as
/// for a text with an offset or a leap second, or defaults with an offset or without a zone. It parses the text once,
/// instead of three times: as it is, in UTC and at the zone's offset.
#[inline(always)]
pub(super) fn read_once(
    reading: &Reading,
    is_prefix: bool,
    text: &[u8],
    defaults: &Defaults<'_>,
) -> Option<Match>
    ensures said { IfSome result (λ said. ParsesLocally reading.now is_prefix text.now defaults.now (Ok said)) }
    ensures within { IfSome result (λ said. said.start + said.length ≤ length text.now) }
{
    let (Some(clocks), None) = (defaults.clocks, defaults.offset) else {
        return None;
    };
    read_on(clocks, reading, is_prefix, text, defaults)
}
