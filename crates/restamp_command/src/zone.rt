//! The zones that options name.
ghost use Rattle.std.specs.Prelude.{◌≡◌, MatchResult, option_map};
ghost use Rattle.time_zones.specs.Suffix.{zone_of};
ghost use Rattle.restamp_command.specs.Zones as spec;

use crate::values::find_offset;
use restamp_formats::{Clock, Clocks, Defaults, Fold};
use std::rt::{Env, Files};
use time_values::{OffsetDateTime, UtcOffset};
use time_zones::{NamedZone, ZoneFault, ZoneText, find_zone};

/// The zone that moments are converted to before they are written, or `Keep` for each moment's own offset.
#[derive(Drop)]
pub enum Zone {
    /// Each moment keeps its offset.
    Keep,
    /// One offset.
    Fixed(UtcOffset),
    /// A named zone.
    Named(NamedZone),
}

impl Zone {
    /// The zone in a suffix of RFC 9557, by its offset or its name; `None` for `Keep`, and for a named zone without a
    /// name, such as one by a rule in `TZ`.
    pub(crate) fn text(&self) -> Option<ZoneText<'_>>
        ensures { option_map zone_of result ≡ spec.suffix_zone self.now }
    {
        match self {
            Zone::Keep => None,
            Zone::Fixed(offset) => Some(ZoneText::Offset(*offset)),
            Zone::Named(named) => Some(ZoneText::Name(named.name()?.as_bytes())),
        }
    }

    /// The [`Clock`] that converts moments to this zone. For `Keep` it leaves each moment at its own offset.
    pub fn clock(&self) -> Clock<'_>
        ensures { spec.IsClockOf self.now result }
    {
        match self {
            Zone::Keep => Clock::Own,
            Zone::Fixed(offset) => Clock::Fixed(*offset),
            Zone::Named(named) => Clock::Zone(named.time_zone()),
        }
    }
}

/// The default for the offset that a timestamp omits: an offset, or a zone that decides the offset by the local time.
#[derive(Drop)]
pub enum Local<'a> {
    /// An offset.
    Offset(UtcOffset),
    /// A named zone, its name in reports, and which moment an ambiguous local time means.
    Zone(NamedZone, &'a str, Fold),
}

/// Defaults for the year and the offset that a timestamp omits. They own the zone, if there is one, but not its name.
#[derive(Drop)]
pub struct OwnedDefaults<'a> {
    /// The year, if the timestamp has no part of one.
    pub year: Option<i32>,
    /// The offset, or the zone of local times.
    pub local: Local<'a>,
    /// If `year` is `None`, an omitted year is one of ten up to the next: the latest whose moment isn't after this one.
    pub latest: Option<OffsetDateTime>,
}

impl Local<'_> {
    /// The name that reports give the default zone: `its zone` if the default is an offset.
    pub fn zone_name(&self) -> &str
        ensures { result.now ≡ spec.zone_name self.now }
    {
        match self {
            Local::Offset(_) => "its zone",
            Local::Zone(_, name, _) => name,
        }
    }
}

impl OwnedDefaults<'_> {
    /// These defaults, borrowed: a default offset in `offset`, or a default zone in `clocks`. The other one is `None`.
    pub fn defaults(&self) -> Defaults<'_>
        ensures { spec.AreDefaultsOf self.now result }
    {
        let (offset, clocks) = match &self.local {
            Local::Offset(offset) => (Some(*offset), None),
            Local::Zone(named, _, fold) => (
                None,
                Some(Clocks {
                    zone: named.time_zone(),
                    fold: *fold,
                }),
            ),
        };
        Defaults {
            year: self.year,
            offset,
            clocks,
            latest: self.latest,
        }
    }
}

/// Parses the value of `--zone`: `keep`, `utc`, an offset such as `+05:30`, or the name of a zone, such as `local`. It
/// loads a named zone from its file, and returns an error if the text is no such name or the zone can't be loaded.
pub(crate) fn parse_zone<R: Env + Files + AllocGlobal>(
    rt: &R,
    text: &str,
) -> Result<Zone, ZoneFault>
    ensures { MatchResult result (spec.IsZone text.now) (spec.IsNoZone text.now) }
{
    if text == "keep" {
        return Ok(Zone::Keep);
    }
    if text == "utc" {
        return Ok(Zone::Fixed(UtcOffset::UTC));
    }
    if let Some(offset) = find_offset(text) {
        return Ok(Zone::Fixed(offset));
    }
    Ok(Zone::Named(find_zone(rt, text)?))
}
