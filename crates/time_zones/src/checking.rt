//! Checks whether a suffix agrees with the moment in front of it.
ghost use Rattle.std.specs.Prelude.{◌≡◌, option_map};
ghost use Rattle.time_values.specs.Moments.{offset_of};
ghost use Rattle.time_values.specs.Offsets.{offset_seconds};
ghost use Rattle.jiff_tz.specs.Zone as Zone;
ghost use Rattle.time_zones.specs.Suffix.{compared, HasItsOffset, AgreesWithZone, AgreesWith, zone_of, zone_tag_of};

use crate::clocks::{has_zone_offset, is_same};
use crate::suffix::{Suffixed, ZoneText};
use crate::zones::Zones;
use jiff_tz::TimeZone;
use std::fmt;
use time_values::{OffsetDateTime, UtcOffset};

/// Why a suffix of RFC 9557, such as `[Europe/Berlin]`, is rejected after a given moment (a date, time and offset).
#[derive(Clone, Copy, Debug, PartialEq, Eq)]
pub enum SuffixFault {
    /// The suffix has a critical tag, such as `[!u-ca=gregory]`. This crate knows no keys, so it rejects each such tag.
    CriticalKey,
    /// The suffix names a zone that the map of zones doesn't contain.
    UnknownZone,
    /// The moment's offset differs from the offset of the suffix's zone at that instant.
    OtherOffset,
    /// The moment is before -9999-01-02T01:59:59Z or after 9999-12-30T22:00:00.999999999Z, so its offset can't be
    /// compared with that of the zone that the suffix names.
    OutsideZoneRange,
}

impl fmt::Display for SuffixFault {
    ghost use Rattle.std.specs.Prelude.{Some};
    ghost use Rattle.time_zones.specs.Zones.{suffix_fault_text};

    ghost output = { λ fault. Some (suffix_fault_text fault) };

    fn fmt<W: fmt::Write>(&self, f: &mut fmt::Formatter<W>) -> fmt::Result {
        f.write_str(match self {
            SuffixFault::CriticalKey => "a key of its suffix is critical, and not known",
            SuffixFault::UnknownZone => "there is no time zone of the name in its suffix",
            SuffixFault::OtherOffset => "the time zone in its suffix has another offset then",
            SuffixFault::OutsideZoneRange => "the time is outside the range of time zones",
        })
    }
}

impl std::error::Error for SuffixFault {}

// Checks that the moment's offset equals that offset, in seconds. `OtherOffset` if it doesn't.
fn check_fixed(moment: OffsetDateTime, offset: UtcOffset) -> Result<(), SuffixFault>
    ensures { result ≡ compared (offset_seconds (offset_of moment)) (offset_seconds offset) }
{
    if is_same(moment.offset(), offset) {
        return Ok(());
    }
    Err(SuffixFault::OtherOffset)
}

// Checks that the moment's offset equals the zone's offset at that instant, in seconds. `OutsideZoneRange` if the
// moment is outside the range of zones, and `OtherOffset` if the offsets differ.
fn check_zone(moment: OffsetDateTime, zone: &TimeZone<'_>) -> Result<(), SuffixFault>
    ensures { HasItsOffset moment (Zone.offset_at zone.now) result }
{
    match has_zone_offset(moment, zone) {
        Some(true) => Ok(()),
        Some(false) => Err(SuffixFault::OtherOffset),
        None => Err(SuffixFault::OutsideZoneRange),
    }
}

// Checks that `zones` has the zone, if it is named, and, if `has_local_offset`, that the moment's offset is the zone's.
fn check_zone_text(
    zone: ZoneText<'_>,
    moment: OffsetDateTime,
    has_local_offset: bool,
    zones: &Zones,
) -> Result<(), SuffixFault>
    ensures { AgreesWithZone zones.now has_local_offset moment (zone_of zone.entry) result }
{
    match zone {
        ZoneText::Name(name) => match zones.get(name) {
            Some(zone) if has_local_offset => check_zone(moment, &zone),
            Some(_) => Ok(()),
            None => Err(SuffixFault::UnknownZone),
        },
        ZoneText::Offset(offset) if has_local_offset => check_fixed(moment, offset),
        ZoneText::Offset(_) => Ok(()),
    }
}

/// Checks the moment's suffix by RFC 9557, sections 3.3, 3.4 and 4.1. A zone's flag `!` changes nothing. Returns the
/// first error that applies: `CriticalKey` for a critical tag, since no key is known; `UnknownZone` for a zone's name
/// that `zones` doesn't have; and, if `has_local_offset` (pass false for `Z` and `-00:00`), `OutsideZoneRange` for a
/// name and a moment outside the range of zones, or `OtherOffset` if the zone, a name or an offset, has another offset.
pub fn check_suffix(
    suffix: &Suffixed<'_>,
    moment: OffsetDateTime,
    has_local_offset: bool,
    zones: &Zones,
) -> Result<(), SuffixFault>
    ensures { AgreesWith zones.now has_local_offset moment (option_map zone_tag_of suffix.now.zone)
        (option_map (λ key. key.now) suffix.now.critical_key) result }
{
    if suffix.critical_key.is_some() {
        return Err(SuffixFault::CriticalKey);
    }
    match suffix.zone {
        Some(tag) => check_zone_text(tag.zone, moment, has_local_offset, zones),
        None => Ok(()),
    }
}
