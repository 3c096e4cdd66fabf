ghost use Rattle.std.specs.Prelude.{◌≡◌, ◌<◌, ◌↔◌, ◌+◌, ◌*◌, IsTrue, pos, neg_ℤ, ◌+ℤ◌, ◌-ℤ◌, ◌*ℤ◌};
ghost use Rattle.time_values.specs.Calendar.{IsBetween};
ghost use Rattle.time_values.specs.Offsets.{offset_seconds};

use crate::UtcOffset;
use crate::aligned::Aligned;
use crate::error::ComponentRange;
use std::fmt;

/// A time of day, 00:00:00 to 23:59:59.999999999.
#[derive(Clone, Copy, PartialEq, Eq, Hash)]
pub struct Time {
    hour: u8,
    minute: u8,
    second: u8,
    nanosecond: u32,
    aligned: Aligned,
    pub ghost hour_in: { hour < 24 },
    pub ghost minute_in: { minute < 60 },
    pub ghost second_in: { second < 60 },
    pub ghost nanosecond_in: { nanosecond < 1_000_000_000 },
}

impl Time {
    ghost use Rattle.time_values.specs.Refusal.{Constructs};
    ghost use Rattle.time_values.specs.Times as Times;
    ghost use Rattle.time_values.specs.Times.{HasClock, nanosecond_refusal, time_refusal, nanos_of_day};

    /// The time with these parts. An error names the first one that is out of range: `hour` above 23, `minute` above
    /// 59, `second` above 59, `nanosecond` above 999999999.
    #[inline(always)]
    pub fn from_hms_nano(
        hour: u8,
        minute: u8,
        second: u8,
        nanosecond: u32,
    ) -> Result<Time, ComponentRange>
        ensures { Constructs (time_refusal hour minute second nanosecond)
            (HasClock hour minute second nanosecond) result }
    {
        let name = if hour > 23 {
            "hour"
        } else if minute > 59 {
            "minute"
        } else if second > 59 {
            "second"
        } else if nanosecond > 999_999_999 {
            "nanosecond"
        } else {
            return Ok(Time {
                hour,
                minute,
                second,
                nanosecond,
                aligned: Aligned::TO_WORDS,
            });
        };
        Err(ComponentRange {
            name,
            conditional: false,
        })
    }

    /// The hour, 0 to 23.
    #[inline]
    pub fn hour(self) -> u8
        ensures { result ≡ Times.hour self }
    {
        self.hour
    }

    /// The minute, 0 to 59.
    #[inline]
    pub fn minute(self) -> u8
        ensures { result ≡ Times.minute self }
    {
        self.minute
    }

    /// The second, 0 to 59.
    #[inline]
    pub fn second(self) -> u8
        ensures { result ≡ Times.second self }
    {
        self.second
    }

    /// The nanosecond of the second, 0 to 999999999.
    #[inline]
    pub fn nanosecond(self) -> u32
        ensures { result ≡ Times.nanosecond self }
    {
        self.nanosecond
    }

    // The time with its nanosecond of the second replaced. An error names `nanosecond` above 999999999.
    #[inline]
    pub(crate) fn replace_nanosecond(self, nanosecond: u32) -> Result<Time, ComponentRange>
        ensures { Constructs (nanosecond_refusal nanosecond)
            (Times.HasSecond self nanosecond) result }
    {
        Time::from_hms_nano(self.hour, self.minute, self.second, nanosecond)
    }

    // The time `second` seconds after midnight, with the nanosecond of the second of `self`.
    #[inline]
    pub(crate) fn at_second_of_day(self, second: u32) -> Time
        requires { second < 86_400 }
        ensures { nanos_of_day result ≡ second * 1_000_000_000 + Times.nanosecond self }
    {
        Time {
            hour: (second / 3600) as u8,
            minute: (second % 3600 / 60) as u8,
            second: (second % 60) as u8,
            nanosecond: self.nanosecond,
            aligned: Aligned::TO_WORDS,
        }
    }

    // The time `nanos` nanoseconds after midnight.
    pub(crate) fn from_nanos_of_day(nanos: u64) -> Time
        requires { nanos < 86_400_000_000_000 }
        ensures { nanos_of_day result ≡ nanos }
    {
        let second = (nanos / 1_000_000_000) as u32;
        Time {
            hour: (second / 3600) as u8,
            minute: (second % 3600 / 60) as u8,
            second: (second % 60) as u8,
            nanosecond: (nanos % 1_000_000_000) as u32,
            aligned: Aligned::TO_WORDS,
        }
    }

    // The whole seconds since midnight.
    #[inline]
    pub(crate) fn seconds_of_day(self) -> u32
        ensures value { result ≡ Times.hour self * 3600 + Times.minute self * 60 + Times.second self }
        ensures bound { result < 86_400 }
    {
        self.hour as u32 * 3600 + self.minute as u32 * 60 + self.second as u32
    }

    // The whole seconds from 00:00 UTC of the local date to this local time at `offset`, negative if that is earlier.
    // Each part of the offset is subtracted first, so that the difference of the hours is multiplied once.
    #[inline(always)]
    pub(crate) fn seconds_in_utc(&self, offset: &UtcOffset) -> i64
        ensures value { result ≡ pos (Times.hour self.now * 3600 + Times.minute self.now * 60 + Times.second self.now)
            -ℤ offset_seconds offset.now }
        ensures bound { IsBetween (neg_ℤ (pos 100_000)) (pos 200_000) result }
    {
        let (hours, minutes, seconds) = offset.parts();
        seconds_of(
            self.hour as i64 - hours,
            self.minute as i64 - minutes,
            self.second as i64 - seconds,
        )
    }

    // The nanoseconds since midnight.
    #[inline]
    pub(crate) fn nanos_of_day(self) -> u64
        ensures value { result ≡ nanos_of_day self }
        ensures bound { result < 86_400_000_000_000 }
    {
        let seconds = self.seconds_of_day() as u64;
        seconds * 1_000_000_000 + self.nanosecond as u64
    }

    // Whether this is the last nanosecond of a day.
    #[inline]
    pub(crate) fn is_last_nanosecond(self) -> bool
        ensures { IsTrue result ↔ (nanos_of_day self + 1 ≡ 86_400_000_000_000) }
    {
        self.nanos_of_day() == 86_399_999_999_999
    }
}

// Prints what a derived `Debug` would, without the field `aligned`, which has no bytes and only sets the alignment.
impl fmt::Debug for Time {
    fn fmt<W: fmt::Write>(&self, f: &mut fmt::Formatter<W>) -> fmt::Result {
        f.debug_struct("Time")
            .field("hour", &self.hour)
            .field("minute", &self.minute)
            .field("second", &self.second)
            .field("nanosecond", &self.nanosecond)
            .finish()
    }
}

// The total seconds of these hours, minutes and seconds, each of either sign.
#[inline(always)]
fn seconds_of(hours: i64, minutes: i64, seconds: i64) -> i64
    requires hours { IsBetween (neg_ℤ (pos 25)) (pos 48) hours }
    requires minutes { IsBetween (neg_ℤ (pos 59)) (pos 118) minutes }
    requires seconds { IsBetween (neg_ℤ (pos 59)) (pos 118) seconds }
    ensures value { result ≡ hours *ℤ pos 3600 +ℤ minutes *ℤ pos 60 +ℤ seconds }
    ensures bound { IsBetween (neg_ℤ (pos 100_000)) (pos 200_000) result }
{
    hours * 3600 + minutes * 60 + seconds
}
