//! Moments in the local time of a zone.
//!
//! The calls try `fast` first, which finds the offset of most moments in the rows of a table.
ghost use Rattle.std.specs.Prelude.{◌≡◌, ◌↔◌, ℤ, ◌-ℤ◌, IsTrue, IsSome, IfSome, IfNone, IfOk, IfErr};
ghost use Rattle.jiff_core.specs.DateTime.{civil_nanos, IsCivilNanos};
ghost use Rattle.jiff_core.specs.Timestamp.{IsTimestampNanos, IsOffsetSeconds, nanos_of_seconds};
ghost use Rattle.jiff_tz.specs.Zone as Zone;
ghost use Rattle.time_values.specs.Moments.{offset_instant, plain_instant};
ghost use Rattle.time_values.specs.Offsets.{offset_seconds};
ghost use Rattle.time_values.specs.Calendar.{greatest_year};
ghost use Rattle.time_zones.specs.Zones.{HasClock, IsInZoneRange, HasZoneOffset, IsOnlyMoment, IsNotOne, HasOneSource, HasNoThird};

mod fast;

use crate::spread::spread_at;
use jiff_core::civil::DateTime;
use jiff_core::{Offset, Timestamp};
use jiff_tz::TimeZone;
use std::fmt;
use time_values::{OffsetDateTime, PlainDateTime, UtcOffset};

// Converts an offset of `jiff_core` to a `UtcOffset` of as many seconds.
fn offset_from(offset: Offset) -> UtcOffset
    ensures { offset_seconds result ≡ offset.seconds }
{
    match UtcOffset::from_whole_seconds(offset.seconds) {
        Ok(offset) => offset,
        Err(_) => unreachable!(),
    }
}

/// The offset of the zone at the moment. `None` for any zone if the moment is outside the range of zones: before
/// -9999-01-02T01:59:59Z or after 9999-12-30T22:00:00.999999999Z.
pub fn offset_at(zone: &TimeZone<'_>, moment: OffsetDateTime) -> Option<UtcOffset>
    ensures told { IsSome result ↔ IsInZoneRange moment }
    ensures value { IfSome result (λ o. offset_seconds o ≡ Zone.offset_at zone.now (offset_instant greatest_year moment)) }
{
    let second = moment.unix_timestamp();
    if let Some(offset) = fast::offset_within(zone, second, second) {
        return Some(offset_from(offset));
    }
    let Ok(stamp) = Timestamp::from_nanosecond(moment.unix_timestamp_nanos()) else {
        return None;
    };
    Some(offset_from(zone.to_offset(stamp)))
}

/// Converts the moment to the zone's offset at its own instant. `None` outside the range of zones: see [`offset_at`].
pub fn checked_to_zone(moment: OffsetDateTime, zone: &TimeZone<'_>) -> Option<OffsetDateTime>
    ensures told { IsSome result ↔ IsInZoneRange moment }
    ensures instant { IfSome result (λ v. offset_instant greatest_year v ≡ offset_instant greatest_year moment) }
    ensures offset { IfSome result (HasZoneOffset zone.now) }
{
    let offset = offset_at(zone, moment)?;
    Some(moment.to_offset(offset))
}

/// Whether the offsets are equal.
pub(crate) fn is_same(a: UtcOffset, b: UtcOffset) -> bool
    ensures { IsTrue result ↔ (offset_seconds a ≡ offset_seconds b) }
{
    a.whole_seconds() == b.whole_seconds()
}

/// Whether the moment's offset equals the zone's offset at that instant, as +01:00 equals that of Europe/Berlin in
/// winter. `None` if the moment is outside the range of zones: see [`offset_at`]. Offsets are compared in seconds: one
/// of whole minutes doesn't equal one with seconds, as many zones had before 1920.
pub fn has_zone_offset(moment: OffsetDateTime, zone: &TimeZone<'_>) -> Option<bool>
    ensures told { IsSome result ↔ IsInZoneRange moment }
    ensures value { IfSome result (λ same. IsTrue same ↔ HasZoneOffset zone.now moment) }
{
    let shown = offset_at(zone, moment)?;
    Some(is_same(moment.offset(), shown))
}

/// Why a local date and time isn't exactly one moment in a zone: it is nonexistent, ambiguous or out of range.
#[derive(Clone, Copy, Debug, PartialEq, Eq)]
pub enum NotOne {
    /// The local time is nonexistent: the zone's clocks never show it, since they skip it.
    Gap,
    /// The local time is ambiguous: it occurs more than once.
    Fold {
        /// The first moment in the range of zones that has this local time.
        earlier: OffsetDateTime,
        /// The last moment in the range of zones that has this local time.
        later: OffsetDateTime,
    },
    /// The local time occurs at no moment in the range of zones, and is before -9999-01-03T03:59:58 or after
    /// 9999-12-29T20:00:01.999999999.
    OutsideZoneRange,
}

impl fmt::Display for NotOne {
    ghost use Rattle.std.specs.Prelude.{Some};
    ghost use Rattle.time_zones.specs.Zones.{not_one_text};

    ghost output = { λ why. Some (not_one_text why) };

    fn fmt<W: fmt::Write>(&self, f: &mut fmt::Formatter<W>) -> fmt::Result {
        f.write_str(match self {
            NotOne::Gap => "clocks of the time zone leave out this date and time",
            NotOne::Fold { .. } => "clocks of the time zone show this date and time more than once",
            NotOne::OutsideZoneRange => "the date and time are outside the range of time zones",
        })
    }
}

impl std::error::Error for NotOne {}

// Whether the date and time, read at each offset from -25:59:59 to +25:59:59, is in the range of zones.
fn is_in_zone_range_at_each_offset(civil: DateTime) -> bool
    ensures { IsTrue result ↔ ((s : ℤ) → IsOffsetSeconds s → IsTimestampNanos (civil_nanos civil -ℤ nanos_of_seconds s)) }
{
    Offset::MIN.to_timestamp(civil).is_ok() && Offset::MAX.to_timestamp(civil).is_ok()
}

// Converts the date and time to `jiff_core`'s type. `None` outside the years -9999 to 9999.
fn civil_from(clock: PlainDateTime) -> Option<DateTime>
    ensures value { IfSome result (λ civil. civil_nanos civil ≡ plain_instant greatest_year clock) }
    ensures none { IfNone result (¬ (IsCivilNanos (plain_instant greatest_year clock))) }
{
    DateTime::from_nanosecond(clock.as_utc().unix_timestamp_nanos()).ok()
}

// The moment with that date, time and offset.
#[tactic(auto, using(time_values::proofs::InstantLemmas::instant_is))]
fn moment_with(clock: PlainDateTime, offset: Offset) -> OffsetDateTime
    ensures { HasClock clock offset.seconds result }
{
    clock.assume_offset(offset_from(offset))
}

// Computes the result of `assume_zone` by trying each offset that the zone can have near the date and time. Not
// inlined, so that the fast path needs no stack space for it.
#[inline(never)]
fn assume_by_offsets(clock: PlainDateTime, zone: &TimeZone<'_>) -> Result<OffsetDateTime, NotOne>
    ensures ok { IfOk result (IsOnlyMoment zone.now clock) }
    ensures err { IfErr result (IsNotOne zone.now clock) }
    ensures two { HasOneSource zone.now → IfErr result (HasNoThird zone.now clock) }
{
    let Some(civil) = civil_from(clock) else {
        return Err(NotOne::OutsideZoneRange);
    };
    let Some(spread) = spread_at(zone, civil) else {
        if is_in_zone_range_at_each_offset(civil) {
            return Err(NotOne::Gap);
        }
        return Err(NotOne::OutsideZoneRange);
    };
    let earlier = moment_with(clock, spread.greatest);
    if spread.least.seconds < spread.greatest.seconds {
        let later = moment_with(clock, spread.least);
        return Err(NotOne::Fold { earlier, later });
    }
    Ok(earlier)
}

/// The only moment in the range of zones at which clocks of the zone show the date and time, with the zone's offset. If
/// there are more, the error is `Fold`; if there is none, `Gap`, or `OutsideZoneRange` near the range's ends or beyond.
#[inline(always)]
pub fn assume_zone(clock: PlainDateTime, zone: &TimeZone<'_>) -> Result<OffsetDateTime, NotOne>
    ensures ok { IfOk result (IsOnlyMoment zone.now clock) }
    ensures err { IfErr result (IsNotOne zone.now clock) }

    // If clocks go back by the last row of a table and again by its rule within hours, there may be more than two
    // moments.
    ensures two { HasOneSource zone.now → IfErr result (HasNoThird zone.now clock) }
{
    match fast::only_moment(clock, zone) {
        Some(moment) => Ok(moment),
        None => assume_by_offsets(clock, zone),
    }
}
