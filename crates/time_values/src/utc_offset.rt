ghost use Rattle.std.specs.Prelude.{◌≡◌, ◌<◌, ◌↔◌, IsTrue, pos, neg_ℤ};
ghost use Rattle.time_values.specs.Calendar.{IsBetween};
ghost use Rattle.time_values.specs.Sign as Sign;

use crate::error::ComponentRange;

/// How far local time is ahead of UTC, in hours, minutes and seconds of one sign: negative if it is behind.
#[derive(Clone, Copy, Debug, PartialEq, Eq, PartialOrd, Ord, Hash)]
pub struct UtcOffset {
    hours: i8,
    minutes: i8,
    seconds: i8,
    pub ghost hours_in: { IsBetween (neg_ℤ (pos 25)) (pos 25) hours },
    pub ghost minutes_in: { IsBetween (neg_ℤ (pos 59)) (pos 59) minutes },
    pub ghost seconds_in: { IsBetween (neg_ℤ (pos 59)) (pos 59) seconds },
    pub ghost one_sign: { Sign.HasOneSign hours minutes seconds },
}

impl UtcOffset {
    ghost use Rattle.time_values.specs.Refusal.{Constructs};
    ghost use Rattle.time_values.specs.Offsets as Offsets;
    ghost use Rattle.time_values.specs.Offsets.{HasOffset, offset_refusal, offset_seconds, whole_offset_refusal};

    /// UTC itself, an offset of 0.
    pub const UTC: UtcOffset = UtcOffset {
        hours: 0,
        minutes: 0,
        seconds: 0,
    };

    /// The offset of these parts, each stored with the sign of the first that is not 0. An error names the first part
    /// that is out of range: `hours` outside -25 to 25, `minutes` outside -59 to 59, `seconds` outside -59 to 59.
    #[inline(always)]
    pub fn from_hms(hours: i8, minutes: i8, seconds: i8) -> Result<UtcOffset, ComponentRange>
        ensures { Constructs (offset_refusal hours minutes seconds) (HasOffset hours minutes seconds)
            result }
    {
        if hours < -25 || hours > 25 {
            return Err(ComponentRange {
                name: "hours",
                conditional: false,
            });
        }
        if minutes < -59 || minutes > 59 {
            return Err(ComponentRange {
                name: "minutes",
                conditional: false,
            });
        }
        if seconds < -59 || seconds > 59 {
            return Err(ComponentRange {
                name: "seconds",
                conditional: false,
            });
        }
        Ok(UtcOffset {
            hours,
            minutes: same_sign(hours, minutes),
            seconds: same_sign(hours, same_sign(minutes, seconds)),
        })
    }

    /// The hours (-25 to 25), minutes and seconds (-59 to 59). No two of them have opposite signs.
    #[inline]
    pub fn as_hms(self) -> (i8, i8, i8)
        ensures hours { result.0 ≡ Offsets.hours self }
        ensures minutes { result.1 ≡ Offsets.minutes self }
        ensures seconds { result.2 ≡ Offsets.seconds self }
    {
        (self.hours, self.minutes, self.seconds)
    }

    // The hours, minutes and seconds, read through a reference: LLVM would move a copy of them as one word.
    #[inline(always)]
    pub(crate) fn parts(&self) -> (i64, i64, i64)
        ensures hours { result.0 ≡ Offsets.hours self.now }
        ensures minutes { result.1 ≡ Offsets.minutes self.now }
        ensures seconds { result.2 ≡ Offsets.seconds self.now }
    {
        (self.hours as i64, self.minutes as i64, self.seconds as i64)
    }

    /// The offset `seconds` seconds ahead of UTC, or behind if negative. An error names `seconds` outside ±93599.
    pub fn from_whole_seconds(seconds: i32) -> Result<UtcOffset, ComponentRange>
        ensures { Constructs (whole_offset_refusal seconds)
            (λ o. offset_seconds o ≡ seconds) result }
    {
        if seconds < -93_599 || seconds > 93_599 {
            return Err(ComponentRange {
                name: "seconds",
                conditional: false,
            });
        }
        Ok(UtcOffset::at_seconds(seconds))
    }

    // The offset `seconds` seconds ahead of UTC, or behind it if negative.
    fn at_seconds(seconds: i32) -> UtcOffset
        requires { IsBetween (neg_ℤ (pos 93_599)) (pos 93_599) seconds }
        ensures { offset_seconds result ≡ seconds }
    {
        let magnitude = seconds.unsigned_abs();
        let hours = (magnitude / 3600) as i8;
        let minutes = (magnitude % 3600 / 60) as i8;
        let rest = (magnitude % 60) as i8;
        if seconds < 0 {
            return UtcOffset {
                hours: -hours,
                minutes: -minutes,
                seconds: -rest,
            };
        }
        UtcOffset {
            hours,
            minutes,
            seconds: rest,
        }
    }

    /// Whether the offset is 0.
    #[inline]
    pub fn is_utc(self) -> bool
        ensures { IsTrue result ↔ Offsets.IsUtc self }
    {
        self.hours == 0 && self.minutes == 0 && self.seconds == 0
    }

    /// The whole offset in seconds, -93599 to 93599.
    pub fn whole_seconds(self) -> i32
        ensures value { result ≡ offset_seconds self }
        ensures bound { IsBetween (neg_ℤ (pos 93_599)) (pos 93_599) result }
    {
        self.hours as i32 * 3600 + self.minutes as i32 * 60 + self.seconds as i32
    }
}

// x with the sign of `sign`, or x itself if `sign` is 0.
#[inline(always)]
fn same_sign(sign: i8, x: i8) -> i8
    requires { IsBetween (neg_ℤ (pos 59)) (pos 59) x }
    ensures value { result ≡ Sign.same_sign sign x }
    ensures bound { IsBetween (neg_ℤ (pos 59)) (pos 59) result }
{
    // The product of two numbers is below 0 if their signs differ.
    if i16::from(sign) * i16::from(x) < 0 {
        -x
    } else {
        x
    }
}
