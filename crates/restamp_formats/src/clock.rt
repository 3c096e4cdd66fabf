//! The offset or zone that a moment is written in, and timestamps with a suffix of RFC 9557, section 4.1.
ghost use Rattle.std.specs.Prelude.{◌≡◌, ◌≤◌, ◌+◌};
ghost use Rattle.restamp_formats.specs.Common.{length, IfOk, Clock};
ghost use Rattle.restamp_formats.specs.Zoned as spec;
ghost use Rattle.restamp_formats.specs.{Reading.ParsesZoned, Reason.Satisfies, Reason.seen};

use crate::brief::FromReason;
use crate::reading::{Match, read_front_3339};
use crate::reason::Reason;
use time_values::error::{Parse, ParseFromDescription};
use time_values::{OffsetDateTime, UtcOffset};
use time_zones::{TimeZone, Zones, check_suffix, checked_to_zone, read_suffix};

/// The offset that a moment is converted to before it is written: its own, a fixed one, or that of a time zone.
#[derive(Clone, Copy)]
pub enum Clock<'a> {
    /// The moment's own offset: the moment is unchanged.
    Own,
    /// This offset.
    Fixed(UtcOffset),
    /// The offset that a time zone has at the moment.
    Zone(TimeZone<'a>),
}

// Converts the moment to the offset; `None` if its year there is outside -999999 to 999999.
#[inline(always)]
fn convert_to_offset(moment: OffsetDateTime, offset: UtcOffset) -> Option<OffsetDateTime>
    ensures { spec.IsConverted (Clock.Fixed offset) moment result }
{
    if moment.offset() == offset {
        return Some(moment);
    }
    moment.checked_to_offset(offset)
}

// Converts the moment to the zone's offset at that moment; `None` if the moment is before -9999-01-02T01:59:59Z or
// after 9999-12-30T22:00:00.999999999Z. Not inlined, so that `Own` and `Fixed` need no stack for it.
#[inline(never)]
fn converted_in(moment: OffsetDateTime, zone: &TimeZone<'_>) -> Option<OffsetDateTime>
    ensures { spec.IsConverted (Clock.Zone zone.now) moment result }
{
    checked_to_zone(moment, zone)
}

impl Clock<'_> {
    /// The moment at this clock's offset; unchanged for `Own`. `None` for `Fixed` if its year there is outside -999999
    /// to 999999; for `Zone` if it is before -9999-01-02T01:59:59Z or after 9999-12-30T22:00:00.999999999Z.
    #[inline(always)]
    pub fn show(&self, moment: OffsetDateTime) -> Option<OffsetDateTime>
        ensures { spec.IsConverted self.now moment result }
    {
        match self {
            Clock::Own => Some(moment),
            Clock::Fixed(offset) => convert_to_offset(moment, *offset),
            Clock::Zone(zone) => converted_in(moment, zone),
        }
    }

    /// The reason why a moment can't be converted to this clock: `OutsideZoneRange` for a zone, otherwise `OutOfRange`.
    #[inline(always)]
    pub(crate) fn conversion_error(&self) -> Reason
        ensures { seen result ≡ spec.conversion_error self.now }
    {
        match self {
            Clock::Own | Clock::Fixed(_) => Reason::OutOfRange,
            Clock::Zone(_) => Reason::OutsideZoneRange,
        }
    }
}

// The error for bytes after a timestamp and its suffix, where the whole text must match and not only a prefix.
const TRAILING: Parse = Parse::ParseFromDescription(
    ParseFromDescription::UnexpectedTrailingCharacters,
);

// Whether a text of RFC 3339 has a local offset: false for `Z`, `z` and `-00:00`, which leave it unknown.
fn has_local_offset(front: &[u8]) -> bool
    ensures { result ≡ spec.has_local_offset front.now }
{
    !(front.ends_with(b"Z") || front.ends_with(b"z") || front.ends_with(b"-00:00"))
}

// Whether `text` has bytes from index `end` on that aren't allowed: false if `is_prefix` is true.
fn has_tail(is_prefix: bool, text: &[u8], end: usize) -> bool
    ensures { result ≡ spec.has_tail is_prefix text.now end }
{
    !is_prefix && end < text.len()
}

// Extends the match `front`, which starts at byte 0, by the longest suffix after it, which may be empty. Returns, as an
// `E`, the reason `Unread` if more bytes follow and `is_prefix` is false, or else `Suffix` if `check_suffix` fails.
fn with_suffix<E: FromReason>(
    zones: &Zones,
    is_prefix: bool,
    text: &[u8],
    front: Match,
) -> Result<Match, E>
    requires { front.length ≤ length text.now }
    ensures said { Satisfies E.is_of (spec.IsSuffixed zones.now is_prefix text.now front) result }
    ensures within { IfOk result (λ said. said.start + said.length ≤ length text.now) }
{
    let suffix = read_suffix(&text[front.length..]);
    let end = front.length + suffix.len;
    if has_tail(is_prefix, text, end) {
        return Err(E::from_reason(Reason::Unread(TRAILING)));
    }
    let has_local_offset = has_local_offset(&text[..front.length]);
    match check_suffix(&suffix, front.moment, has_local_offset, zones) {
        Ok(()) => Ok(Match {
            moment: front.moment,
            start: 0,
            length: end,
        }),
        Err(fault) => Err(E::from_reason(Reason::Suffix(fault))),
    }
}

/// Parses a text by RFC 3339 and the longest suffix after it, which may be empty: a prefix of the text if `is_prefix`
/// is true, otherwise the whole text. The error, as an `E`, is `Unread` or `Suffix`. Not inlined, so that timestamps
/// without a suffix need no stack for it.
#[inline(never)]
pub(crate) fn read_zoned<E: FromReason>(
    zones: &Zones,
    is_prefix: bool,
    text: &[u8],
) -> Result<Match, E>
    ensures said { Satisfies E.is_of (ParsesZoned zones.now is_prefix text.now) result }
    ensures within { IfOk result (λ said. said.start + said.length ≤ length text.now) }
{
    match read_front_3339(text) {
        Ok(front) => with_suffix(zones, is_prefix, text, front),
        Err(error) => Err(E::from_reason(Reason::Unread(error))),
    }
}
