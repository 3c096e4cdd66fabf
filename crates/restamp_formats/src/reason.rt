//! Why a timestamp isn't rewritten.
ghost use Rattle.std.specs.Prelude.{◌≡◌};
ghost use Rattle.restamp_formats.specs.Common.{Some, fixed};
ghost use Rattle.restamp_formats.specs.Reason.{seen, offset_text, offsets_text, parts_of, reason_text, text_with};

use std::{fmt, str};
use time_formatting::{Unformattable, Unwritable};
use time_values::error::Parse;
use time_zones::SuffixFault;

/// The offsets of the two moments that an ambiguous local time may mean.
#[derive(Clone, Copy, Debug, PartialEq, Eq)]
pub struct TwoOffsets {
    /// The offset of the earlier moment.
    pub earlier: OffsetParts,
    /// The offset of the later moment.
    pub later: OffsetParts,
}

/// The sign and the size of an offset from UTC. `seconds` is a `u64`, so that a [`Reason`] is copied by words.
#[derive(Clone, Copy, Debug, PartialEq, Eq)]
pub struct OffsetParts {
    /// Whether local time is behind UTC.
    pub is_behind: bool,
    /// The seconds between local time and UTC, 0 to 93599.
    pub seconds: u64,
}

/// Why a timestamp isn't rewritten.
#[derive(Clone, Copy, Debug)]
pub enum Reason {
    /// The format doesn't match it, with this error; if there are several formats, none matches, and the error is the
    /// first one's.
    Unread(Parse),
    /// It is a number of seconds that starts with `-` and contains a `.`. Programs disagree whether that fraction
    /// counts forwards.
    NegativeFraction,
    /// The local time is nonexistent in its zone: the clocks moved forward.
    Nonexistent,
    /// The local time is ambiguous in its zone, since the clocks moved back, and [`Fold::Refuse`](crate::Fold::Refuse)
    /// rejects it. It may have these offsets.
    Ambiguous(TwoOffsets),
    /// Its year at the output's offset, or in UTC for an output that counts from 1970, is outside -999999 to 999999.
    OutOfRange,
    /// It is outside the range of time zones: before -9999-01-02T01:59:59Z or after 9999-12-30T22:00:00.999999999Z; or
    /// it is a local time near or beyond these limits that no moment in that range has.
    OutsideZoneRange,
    /// Its suffix has a critical tag or an unknown zone; or its offset, unless it is `Z`, `z` or `-00:00`, differs from
    /// that of the suffix's zone, or can't be compared outside the range of time zones.
    Suffix(SuffixFault),
    /// RFC 3339, RFC 2822 or ISO 8601 has no text for it.
    Unwritable(Unwritable),
    /// The output's description has no text for it.
    Unformattable(Unformattable),
    /// It ends after the first 262144 bytes of its line.
    TooFar,
    /// The line has no timestamp, but must have one.
    Missing,
}

// The last two decimal digits of a number, in ASCII.
fn pair(number: u64) -> [u8; 2]
    ensures { result ≡ fixed 2 number }
{
    [b'0' + (number / 10 % 10) as u8, b'0' + (number % 10) as u8]
}

impl OffsetParts {
    // The parts of an offset in seconds, which is negative behind UTC.
    pub(crate) fn of(seconds: i32) -> OffsetParts
        ensures { result ≡ parts_of seconds }
    {
        OffsetParts {
            is_behind: seconds < 0,
            seconds: u64::from(seconds.unsigned_abs()),
        }
    }

    // The nine bytes `+HH:MM:SS`, or `-HH:MM:SS` if local time is behind UTC.
    fn text(self) -> [u8; 9]
        ensures { result ≡ offset_text self }
    {
        let sign = if self.is_behind { b'-' } else { b'+' };
        let [h1, h2] = pair(self.seconds / 3600);
        let [m1, m2] = pair(self.seconds / 60 % 60);
        let [s1, s2] = pair(self.seconds % 60);
        [sign, h1, h2, b':', m1, m2, b':', s1, s2]
    }
}

impl fmt::Display for OffsetParts {
    ghost output = { λ offset. Some (offset_text offset) };

    fn fmt<W: fmt::Write>(&self, f: &mut fmt::Formatter<W>) -> fmt::Result {
        let text = self.text();
        f.write_str(str::from_utf8(&text).map_err(|_| fmt::Error)?)
    }
}

impl fmt::Display for TwoOffsets {
    ghost output = { λ offsets. Some (offsets_text offsets) };

    fn fmt<W: fmt::Write>(&self, f: &mut fmt::Formatter<W>) -> fmt::Result {
        let (earlier, later) = (self.earlier, self.later);
        write!(f, "{earlier} and {later}")
    }
}

// The words that replace the name of the zone if a [`Reason`] is displayed without it.
const ITS_ZONE: &str = "its zone";

/// Displays a reason. Only `Nonexistent` and `Ambiguous` include the name of the time zone.
#[derive(Clone, Copy)]
pub struct ReasonDisplay<'a> {
    /// The reason.
    pub reason: Reason,
    /// The name of the time zone of local times.
    pub zone: &'a str,
}

impl fmt::Display for ReasonDisplay<'_> {
    ghost output = { λ told. Some (text_with told.zone.now (seen told.reason)) };

    fn fmt<W: fmt::Write>(&self, f: &mut fmt::Formatter<W>) -> fmt::Result {
        let zone = self.zone;
        match self.reason {
            Reason::Unread(error) => write!(f, "{error}"),
            Reason::NegativeFraction => {
                write!(f, "a fraction after a minus is read in two ways")
            }
            Reason::Nonexistent => write!(f, "the clocks of {zone} leave it out"),
            Reason::Ambiguous(offsets) => {
                write!(f, "the clocks of {zone} show it twice, at {offsets}")
            }
            Reason::OutOfRange => write!(f, "the time has no date at that offset"),
            Reason::OutsideZoneRange => write!(f, "the time is outside the range of time zones"),
            Reason::Suffix(fault) => write!(f, "{fault}"),
            Reason::Unwritable(why) => write!(f, "{why}"),
            Reason::Unformattable(why) => write!(f, "{why}"),
            Reason::TooFar => write!(f, "the time extends past byte 262144 of its line"),
            Reason::Missing => write!(f, "the line has no place for a time"),
        }
    }
}

impl fmt::Display for Reason {
    ghost output = { λ reason. Some (reason_text (seen reason)) };

    fn fmt<W: fmt::Write>(&self, f: &mut fmt::Formatter<W>) -> fmt::Result {
        let told = ReasonDisplay {
            reason: *self,
            zone: ITS_ZONE,
        };
        write!(f, "{told}")
    }
}
