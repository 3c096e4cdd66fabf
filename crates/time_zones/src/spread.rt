//! The offsets at which a local date and time occurs in a zone.
ghost use Rattle.std.specs.Prelude.{◌≡◌, ◌↔◌, ◌⊎◌, ℤ, IsTrue, IfSome, option_map};
ghost use Rattle.std.specs.Option.{ForSome};
ghost use Rattle.jiff_core.specs.DateTime.{civil_nanos};
ghost use Rattle.jiff_tz.specs.PosixText.{tz_view};
ghost use Rattle.jiff_tz.specs.Zone as Zone;
ghost use Rattle.time_zones.specs.Spread.{HasOffset, IsSpread, Covers, IsSide, rule_text};

use jiff_core::Offset;
use jiff_core::civil::DateTime;
use jiff_tz::{AmbiguousOffset, TimeZone, posix};

/// The greatest and the least offset at which a local date and time occurs in a zone. The greatest is that of the first
/// moment.
#[derive(Clone, Copy)]
pub(crate) struct Spread {
    pub(crate) greatest: Offset,
    pub(crate) least: Offset,
}

// The offset before a gap or a fold and the offset after it, or the only offset twice.
fn sides(offsets: AmbiguousOffset) -> (Offset, Offset)
    ensures { (s : ℤ) → IsSide offsets s → (s ≡ result.0.seconds) ⊎ (s ≡ result.1.seconds) }
{
    match offsets {
        AmbiguousOffset::Unambiguous { offset } => (offset, offset),
        AmbiguousOffset::Gap { before, after } => (before, after),
        AmbiguousOffset::Fold { before, after } => (before, after),
    }
}

// The POSIX rule of the zone, alone or after its table. `None` if there is none.
fn rule_of(zone: &TimeZone<'_>) -> Option<posix::TimeZone>
    ensures { option_map tz_view result ≡ rule_text zone.now }
{
    match *zone {
        TimeZone::UTC | TimeZone::Unknown | TimeZone::Fixed(_) => None,
        TimeZone::Posix(rule) => Some(rule),
        TimeZone::Tzif(table) => table.posix_tz(),
    }
}

// Whether the date and time, read at the offset, is an instant in the range of zones at which the zone has the offset.
fn has_offset(zone: &TimeZone<'_>, civil: DateTime, offset: Offset) -> bool
    ensures { IsTrue result ↔ HasOffset zone.now (civil_nanos civil) offset.seconds }
{
    match offset.to_timestamp(civil) {
        Ok(moment) => zone.to_offset(moment).seconds == offset.seconds,
        Err(_) => false,
    }
}

// Whether the offset is from the least to the greatest of the spread, inclusive. False without a spread.
fn covers(spread: Option<Spread>, offset: Offset) -> bool
    ensures { IsTrue result ↔ Covers spread offset.seconds }
{
    match spread {
        Some(found) => found.least.seconds <= offset.seconds
            && offset.seconds <= found.greatest.seconds,
        None => false,
    }
}

// The spread extended by the offset, if the zone has it at the date and time, and else the given spread. `None` is an
// empty spread. An offset in the spread needs no look-up.
fn widened(
    spread: Option<Spread>,
    zone: &TimeZone<'_>,
    civil: DateTime,
    offset: Offset,
) -> Option<Spread>
    requires { ForSome spread (IsSpread zone.now (civil_nanos civil)) }
    ensures ends { IfSome result (IsSpread zone.now (civil_nanos civil)) }
    ensures kept { (s : ℤ) → Covers spread s → Covers result s }
    ensures covered { HasOffset zone.now (civil_nanos civil) offset.seconds → Covers result offset.seconds }
{
    if covers(spread, offset) {
        return spread;
    }
    if !has_offset(zone, civil, offset) {
        return spread;
    }
    let Some(found) = spread else {
        return Some(Spread {
            greatest: offset,
            least: offset,
        });
    };
    if found.greatest.seconds < offset.seconds {
        return Some(Spread {
            greatest: offset,
            least: found.least,
        });
    }
    if offset.seconds < found.least.seconds {
        return Some(Spread {
            greatest: found.greatest,
            least: offset,
        });
    }
    spread
}

/// The greatest and the least offset at which the date and time occurs in the zone. `None` if it occurs at no instant
/// in the range of zones.
pub(crate) fn spread_at(zone: &TimeZone<'_>, civil: DateTime) -> Option<Spread>
    ensures ends { IfSome result (IsSpread zone.now (civil_nanos civil)) }
    ensures each { (s : ℤ) → HasOffset zone.now (civil_nanos civil) s → Covers result s }
{
    let (before, after) = sides(zone.to_ambiguous_offset(civil));
    let first = widened(None, zone, civil, before);
    let second = widened(first, zone, civil, after);
    let Some(rule) = rule_of(zone) else {
        return second;
    };
    let third = widened(second, zone, civil, rule.std_offset);
    match rule.dst {
        Some(dst) => widened(third, zone, civil, dst.offset),
        None => third,
    }
}
