//! Short cuts to the offset of a zone, by the rows of its table or by a rule with a single offset. Comparing whole
//! seconds takes far less time than comparing nanoseconds.
ghost use Rattle.std.specs.Prelude.{◌≡◌, ◌≤ℤ◌, ◌<ℤ◌, ℤ, pos, neg_ℤ, IfSome, vec_len};
ghost use Rattle.jiff_core.specs.Calendar.{IsBetween};
ghost use Rattle.jiff_core.specs.Timestamp.{IsTimestampNanos};
ghost use Rattle.jiff_tz.specs.Tzif as Table;
ghost use Rattle.jiff_tz.specs.Tzif.{count_at, floor_second};
ghost use Rattle.jiff_tz.specs.Zone as Zone;
ghost use Rattle.time_zones.specs.Spread.{HasOneOffset, IsRowOffset};
ghost use Rattle.time_zones.specs.Zones.{IsOnlyMoment};

use super::moment_with;
use jiff_core::Offset;
use jiff_tz::tzif::Transition;
use jiff_tz::{TimeZone, Tzif, posix};
use time_values::{OffsetDateTime, PlainDateTime};

// The first second of the range of zones, -9999-01-02T01:59:59Z, in seconds since 1970-01-01T00:00:00Z.
const FIRST_SECOND: i64 = -377_705_023_201;

// The last second of the range of zones, 9999-12-30T22:00:00Z, in seconds since 1970-01-01T00:00:00Z.
const LAST_SECOND: i64 = 253_402_207_200;

// Half a mean Gregorian year, in seconds: where clocks change twice a year, rows are about so far apart.
const HALF_YEAR: i64 = 15_778_476;

// The greatest number of seconds that an offset is ahead of UTC or behind it: 25:59:59.
const FURTHEST: i64 = 93_599;

// The offset that row `place - 1` sets, if that row isn't after `begin` and row `place` is after `end`; else `None`.
#[inline(always)]
fn offset_before(rows: &[Transition], place: usize, begin: i64, end: i64) -> Option<Offset>
    ensures { IfSome result (IsRowOffset rows.now begin end) }
{
    if place == 0 || rows.len() <= place {
        return None;
    }
    let (last, next) = (&rows[place - 1], &rows[place]);
    if begin < last.second || next.second <= end {
        return None;
    }
    Some(last.after.offset)
}

// The offset of the latest row up to `end`. `None` if there is no such row or `begin` is before it. `last` is the Unix
// second of the table's last row. Before a binary search, tries the two indexes that two rows a year would give.
#[inline(always)]
fn offset_between(rows: &[Transition], last: i64, begin: i64, end: i64) -> Option<Offset>
    requires near { (neg_ℤ (pos 377_705_023_201) ≤ℤ end) × (end <ℤ last) × (last ≤ℤ pos 253_402_207_200) }
    ensures { IfSome result (IsRowOffset rows.now begin end) }
{
    let behind = ((last - end) / HALF_YEAR) as usize;
    let place = rows.len().saturating_sub(behind + 1);
    if let Some(offset) = offset_before(rows, place, begin, end) {
        return Some(offset);
    }
    if let Some(offset) = offset_before(rows, place + 1, begin, end) {
        return Some(offset);
    }
    let place = rows.partition_point(|row: &Transition| -> bool { row.second <= end });
    offset_before(rows, place, begin, end)
}

// The offset of a rule without daylight saving time. `None` for any other rule.
fn rule_offset(rule: &posix::TimeZone) -> Option<Offset>
    ensures { IfSome result (HasOneOffset rule.now) }
{
    match rule.dst {
        None => Some(rule.std_offset),
        Some(_) => None,
    }
}

// The offset of a table after all of its rows. `None` if a rule with daylight saving time follows. With neither rows
// nor a rule it is the table's first offset.
#[tactic(auto, using(crate::proofs::ZoneLemmas::behind_rows, crate::proofs::ZoneLemmas::if_some))]
fn offset_behind(table: &Tzif) -> Option<Offset>
    ensures { IfSome result (λ o. (n : ℤ) → count_at table.now (floor_second n) ≡ vec_len table.now.transitions
        → o.seconds ≡ (Table.offset_at table.now n).seconds) }
{
    if let Some(rule) = table.posix_tz() {
        return rule_offset(&rule);
    }
    match table.transitions() {
        [.., last] => Some(last.after.offset),
        [] => Some(table.first().offset),
    }
}

// The offset of a table in all Unix seconds from `begin` to `end`. `end` must be in the range of zones. `None` means
// only that no short cut applies. Inlined, so that a caller with `begin` equal to `end` does less work.
#[inline(always)]
fn offset_by_rows(table: &Tzif, begin: i64, end: i64) -> Option<Offset>
    requires { (neg_ℤ (pos 377_705_023_201) ≤ℤ end) × (end ≤ℤ pos 253_402_207_200) }
    ensures { IfSome result (λ o. (n : ℤ) → IsBetween begin end (floor_second n)
        → o.seconds ≡ (Table.offset_at table.now n).seconds) }
{
    let rows = table.transitions();
    let [.., last] = rows else {
        return offset_behind(table);
    };
    if end < last.second {
        return offset_between(rows, last.second, begin, end);
    }
    if begin < last.second {
        return None;
    }
    offset_behind(table)
}

/// The offset of the zone in all Unix seconds from `begin` to `end`, if they lie between two rows of its table or after
/// all rows with no rule of two offsets, or the zone is a rule with one. `None` means only that no short cut applies.
#[inline(always)]
pub(super) fn offset_within(zone: &TimeZone<'_>, begin: i64, end: i64) -> Option<Offset>
    requires { begin ≤ℤ end }
    ensures { IfSome result (λ o. (n : ℤ) → IsBetween begin end (floor_second n) →
        IsTimestampNanos n × (o.seconds ≡ Zone.offset_at zone.now n)) }
{
    if begin < FIRST_SECOND || LAST_SECOND < end {
        return None;
    }
    match *zone {
        TimeZone::Tzif(table) => offset_by_rows(table, begin, end),
        TimeZone::Posix(rule) => rule_offset(&rule),
        TimeZone::UTC | TimeZone::Unknown | TimeZone::Fixed(_) => None,
    }
}

/// The only moment of the local date and time in the zone, if `offset_within` finds one offset from 25:59:59 before to
/// 25:59:59 after the date and time, read as UTC. `None` means only that no short cut applies.
#[inline(always)]
pub(super) fn only_moment(clock: PlainDateTime, zone: &TimeZone<'_>) -> Option<OffsetDateTime>
    ensures { IfSome result (IsOnlyMoment zone.now clock) }
{
    let second = clock.as_utc().unix_timestamp();
    if second < FIRST_SECOND || LAST_SECOND < second {
        return None;
    }
    let offset = offset_within(zone, second - FURTHEST, second + FURTHEST)?;
    Some(moment_with(clock, offset))
}
