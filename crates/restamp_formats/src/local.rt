//! Timestamps that omit their offset, parsed as local times in a zone.
ghost use Rattle.std.specs.Prelude.{◌≡◌, ◌+◌, ◌≤◌};
ghost use Rattle.restamp_formats.specs.Common.{false, length, Err, IfOk, None};
ghost use Rattle.restamp_formats.specs.Zoned as spec;
ghost use Rattle.restamp_formats.specs.Reading.{ParsesAs, ParsesInZone, ParsesLocally, at_offset};
ghost use Rattle.restamp_formats.specs.Reason.{Satisfies, Reason as Reason_, erased};

use crate::brief::FromReason;
use crate::reading::{Defaults, Match, Reading, parse, parse_outlined};
use crate::reason::{OffsetParts, Reason, TwoOffsets};
use time_values::{OffsetDateTime, PlainDateTime, UtcOffset};
use time_zones::{NotOne, TimeZone, assume_zone};

/// Which of its two moments an ambiguous local time means (the clocks moved back): neither, the earlier or the later.
#[derive(Clone, Copy, Debug, PartialEq, Eq)]
pub enum Fold {
    /// Neither of the two: the local time is rejected as [`Reason::Ambiguous`].
    Refuse,
    /// The earlier one.
    Earlier,
    /// The later one.
    Later,
}

/// A time zone for local times, and the choice between the two moments of an ambiguous local time.
#[derive(Clone, Copy)]
pub struct Clocks<'a> {
    /// The zone.
    pub zone: TimeZone<'a>,
    /// Which moment an ambiguous local time means.
    pub fold: Fold,
}

// The local date and time of a moment at its own offset.
pub(crate) fn clock_of(moment: OffsetDateTime) -> PlainDateTime
    ensures { result ≡ spec.clock_of moment }
{
    PlainDateTime::new(moment.date(), moment.time())
}

impl Fold {
    // Which of the two moments an ambiguous local time means; for `Refuse` the reason `Ambiguous` with their offsets.
    fn of_two(
        self,
        earlier: OffsetDateTime,
        later: OffsetDateTime,
    ) -> Result<OffsetDateTime, Reason>
        ensures { erased result ≡ spec.of_two self earlier later }
    {
        match self {
            Fold::Refuse => Err(Reason::Ambiguous(TwoOffsets {
                earlier: OffsetParts::of(earlier.offset().whole_seconds()),
                later: OffsetParts::of(later.offset().whole_seconds()),
            })),
            Fold::Earlier => Ok(earlier),
            Fold::Later => Ok(later),
        }
    }
}

impl Clocks<'_> {
    /// The moment with the local date and time of `shown`, whose offset is ignored, in the zone; `fold` chooses one of
    /// two. The error is `Nonexistent` (none), `Ambiguous` (two; `fold` is `Refuse`) or `OutsideZoneRange`.
    pub fn moment_when(&self, shown: OffsetDateTime) -> Result<OffsetDateTime, Reason>
        ensures { spec.IsMomentWhen self.now shown (erased result) }
    {
        match assume_zone(clock_of(shown), &self.zone) {
            Ok(moment) => Ok(moment),
            Err(NotOne::Gap) => Err(Reason::Nonexistent),
            Err(NotOne::Fold { earlier, later }) => self.fold.of_two(earlier, later),
            Err(NotOne::OutsideZoneRange) => Err(Reason::OutsideZoneRange),
        }
    }

    // Parses a text with UTC as the default offset, and again with the offset that the zone has at the local date and
    // time of the first match. The error is that of either parse, or that of `moment_when` for the zone. Not inlined,
    // so that lines that need no zone need no stack for it.
    #[inline(never)]
    fn read<E: FromReason>(
        &self,
        reading: &Reading,
        is_prefix: bool,
        text: &[u8],
        defaults: &Defaults<'_>,
    ) -> Result<Match, E>
        ensures said { Satisfies E.is_of (ParsesInZone self.now reading.now is_prefix text.now defaults.now) result }
        ensures within { IfOk result (λ said. said.start + said.length ≤ length text.now) }
    {
        let shown = match parse_outlined(reading, is_prefix, text, &defaults.at(UtcOffset::UTC)) {
            Ok(said) => said.moment,
            Err(why) => return Err(why),
        };
        match self.moment_when(shown) {
            Ok(moment) => parse_outlined(reading, is_prefix, text, &defaults.at(moment.offset())),
            Err(why) => Err(E::from_reason(why)),
        }
    }
}

impl Defaults<'_> {
    /// Whether the defaults have a zone for local times, or a latest moment for texts without a year. If not,
    /// [`parse_dated`](crate::parse_dated) rejects each text that [`parse`] rejects.
    #[inline(always)]
    pub fn tries_more(&self) -> bool
        ensures { result ≡ false → (self.now.clocks ≡ None) × (self.now.latest ≡ None) }
    {
        self.clocks.is_some() || self.latest.is_some()
    }

    // These defaults with that offset, and without `clocks` and `latest`.
    pub(crate) fn at(&self, offset: UtcOffset) -> Defaults<'static>
        ensures { result ≡ at_offset offset self.now }
    {
        Defaults {
            year: self.year,
            offset: Some(offset),
            clocks: None,
            latest: None,
        }
    }
}

/// Parses a text, which the format rejects for that reason, as a local time in the zone of the defaults; returns the
/// reason if they have no zone.
#[inline(always)]
pub(crate) fn read_unplaced<E: FromReason>(
    reading: &Reading,
    is_prefix: bool,
    text: &[u8],
    defaults: &Defaults<'_>,
    reason: E,
) -> Result<Match, E>
    requires { (why : Reason_) × E.is_of why reason × ParsesAs reading.now is_prefix text.now defaults.now (Err why) }
    ensures said { Satisfies E.is_of (ParsesLocally reading.now is_prefix text.now defaults.now) result }
    ensures within { IfOk result (λ said. said.start + said.length ≤ length text.now) }
{
    match defaults.clocks {
        Some(clocks) => clocks.read(reading, is_prefix, text, defaults),
        None => Err(reason),
    }
}

/// Parses a text by the format; if that rejects it, as a local time in the zone of the defaults, if they have one.
#[inline(always)]
pub(crate) fn read_local<E: FromReason>(
    reading: &Reading,
    is_prefix: bool,
    text: &[u8],
    defaults: &Defaults<'_>,
) -> Result<Match, E>
    ensures said { Satisfies E.is_of (ParsesLocally reading.now is_prefix text.now defaults.now) result }
    ensures within { IfOk result (λ said. said.start + said.length ≤ length text.now) }
{
    match parse(reading, is_prefix, text, defaults) {
        Ok(said) => Ok(said),
        Err(reason) => read_unplaced(reading, is_prefix, text, defaults, reason),
    }
}
