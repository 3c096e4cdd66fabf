ghost use Rattle.std.specs.Prelude.{◌≡◌, ◌↔◌, IsTrue, IfSome, IfNone, pos, ◌*ℤ◌};
ghost use Rattle.time_values.specs.Moments.{local_time_at, offset_date, offset_time, offset_of, offset_instant, utc_instant};
ghost use Rattle.time_values.specs.Instants as Instants;
ghost use Rattle.time_values.specs.Offsets.{IsUtc};
ghost use Rattle.time_values.specs.Calendar.{greatest_year};
ghost use Rattle.time_values.specs.Refusal.{Constructs};
ghost use Rattle.time_values.specs.Times.{HasSecond, nanosecond_refusal};

use crate::arithmetic::clock_with;
use crate::days::DAY_LIMIT;
use crate::error::ComponentRange;
use crate::{Date, Time, UtcDateTime, UtcOffset};

/// A local date and time of day, and their offset from UTC. `==` compares all three, and not the instants.
#[derive(Clone, Copy, Debug, PartialEq, Eq, Hash)]
pub struct OffsetDateTime {
    date: Date,
    time: Time,
    offset: UtcOffset,
}

impl OffsetDateTime {
    /// The moment of that date and time at the offset. It stores all three parts even if the moment is outside the
    /// range of dates in UTC.
    #[inline]
    pub fn new_in_offset(date: Date, time: Time, offset: UtcOffset) -> OffsetDateTime
        ensures date { offset_date result ≡ date }
        ensures time { offset_time result ≡ time }
        ensures offset { offset_of result ≡ offset }
    {
        OffsetDateTime { date, time, offset }
    }

    /// The moment that many nanoseconds after 1970-01-01T00:00:00Z, at offset 0. A number outside
    /// -31619087596800000000000 to 31494784780799999999999 is an error, which names `timestamp`.
    pub fn from_unix_timestamp_nanos(nanos: i128) -> Result<OffsetDateTime, ComponentRange>
        ensures { Constructs (Instants.timestamp_refusal greatest_year nanos)
            (λ o. (offset_instant greatest_year o ≡ nanos)
            × IsUtc (offset_of o))
            result }
    {
        let utc = UtcDateTime::from_unix_timestamp_nanos(nanos)?;
        Ok(OffsetDateTime {
            date: utc.date(),
            time: utc.time(),
            offset: UtcOffset::UTC,
        })
    }

    /// The local date.
    #[inline]
    pub fn date(self) -> Date
        ensures { result ≡ offset_date self }
    {
        self.date
    }

    /// The local time of day.
    #[inline]
    pub fn time(self) -> Time
        ensures { result ≡ offset_time self }
    {
        self.time
    }

    /// The offset of the local time from UTC.
    #[inline]
    pub fn offset(self) -> UtcOffset
        ensures { result ≡ offset_of self }
    {
        self.offset
    }

    /// The nanoseconds since 1970-01-01T00:00:00Z, even if the moment's date in UTC is out of range.
    pub fn unix_timestamp_nanos(self) -> i128
        ensures { result ≡ offset_instant greatest_year self }
    {
        let clock = UtcDateTime::new(self.date, self.time).unix_timestamp_nanos();
        clock - self.offset.whole_seconds() as i128 * 1_000_000_000
    }

    /// The moment with its nanosecond of the second replaced. An error names `nanosecond` above 999999999.
    pub fn replace_nanosecond(self, nanosecond: u32) -> Result<OffsetDateTime, ComponentRange>
        ensures { Constructs (nanosecond_refusal nanosecond) (λ o. (offset_date o ≡ offset_date self)
            × HasSecond (offset_time self) nanosecond (offset_time o)
            × (offset_of o ≡ offset_of self)) result }
    {
        let time = self.time.replace_nanosecond(nanosecond)?;
        Ok(OffsetDateTime {
            date: self.date,
            time,
            offset: self.offset,
        })
    }

    /// The moment in UTC, or `None` if its year there is outside -999999 to 999999.
    #[tactic(auto, using(crate::proofs::InstantLemmas::instant_facts))]
    pub fn checked_to_utc(self) -> Option<UtcDateTime>
        ensures value { IfSome result (λ u. utc_instant greatest_year u ≡ offset_instant greatest_year self) }
        ensures none { IfNone result (¬ (Instants.IsInstant greatest_year (offset_instant greatest_year self))) }
    {
        // An offset moves a time by less than two days. With two days (172800 seconds) added, `seconds` isn't negative.
        let seconds = self.time.seconds_of_day() as i32 - self.offset.whole_seconds() + 172_800;
        let days = seconds as u32 / 86_400;
        let time = self.time.at_second_of_day(seconds as u32 % 86_400);
        if days == 2 {
            return Some(UtcDateTime::new(self.date, time));
        }
        let day = self.date.day_number() + days;
        if day < 2 || day >= DAY_LIMIT + 2 {
            return None;
        }
        Some(UtcDateTime::new(Date::from_day_number(day - 2), time))
    }

    /// The whole seconds since 1970-01-01T00:00:00Z, rounded down, even if the moment's date in UTC is out of range.
    #[tactic(auto, using(crate::proofs::InstantLemmas::instant_facts))]
    #[inline]
    pub fn unix_timestamp(self) -> i64
        ensures { Instants.IsWhole 1_000_000_000 (offset_instant greatest_year self) result }
    {
        self.date.days_since_1970() * 86_400 + self.time.seconds_in_utc(&self.offset)
    }

    /// The moment that many seconds after 1970-01-01T00:00:00Z, at offset 0. A number outside -31619087596800 to
    /// 31494784780799 is an error, which names `timestamp`.
    pub fn from_unix_timestamp(timestamp: i64) -> Result<OffsetDateTime, ComponentRange>
        ensures { Constructs (Instants.timestamp_refusal greatest_year (timestamp *ℤ pos 1_000_000_000))
            (λ o. (offset_instant greatest_year o ≡ timestamp *ℤ pos 1_000_000_000) × IsUtc (offset_of o)) result }
    {
        OffsetDateTime::from_unix_timestamp_nanos(timestamp as i128 * 1_000_000_000)
    }

    /// The moment at another offset, or `None` if its year there is outside -999999 to 999999.
    pub fn checked_to_offset(self, offset: UtcOffset) -> Option<OffsetDateTime>
        ensures instant { IfSome result (λ v. offset_instant greatest_year v ≡ offset_instant greatest_year self) }
        ensures offset { IfSome result (λ v. offset_of v ≡ offset) }
        ensures none { IfNone result (¬ (Instants.IsInstant greatest_year
            (local_time_at (offset_instant greatest_year self) offset))) }
    {
        let clock = clock_with(self.date, self.time, self.offset, offset)?;
        Some(OffsetDateTime {
            date: clock.date(),
            time: clock.time(),
            offset,
        })
    }

    /// The moment at another offset, at which its year must be -999999 to 999999. If this isn't known, call
    /// [`checked_to_offset`](OffsetDateTime::checked_to_offset).
    pub fn to_offset(self, offset: UtcOffset) -> OffsetDateTime
        requires { Instants.IsInstant greatest_year (local_time_at (offset_instant greatest_year self) offset) }
        ensures instant { offset_instant greatest_year result ≡ offset_instant greatest_year self }
        ensures offset { offset_of result ≡ offset }
    {
        match self.checked_to_offset(offset) {
            Some(moved) => moved,
            None => unreachable!(),
        }
    }

    /// The moment in UTC, in which its year must be -999999 to 999999. If this isn't known, call
    /// [`checked_to_utc`](OffsetDateTime::checked_to_utc).
    pub fn to_utc(self) -> UtcDateTime
        requires { Instants.IsInstant greatest_year (offset_instant greatest_year self) }
        ensures { utc_instant greatest_year result ≡ offset_instant greatest_year self }
    {
        match self.checked_to_utc() {
            Some(utc) => utc,
            None => unreachable!(),
        }
    }

    /// Whether this moment may represent a leap second: in UTC it is the last nanosecond of a month. `false` if its
    /// date in UTC is out of range.
    pub fn is_valid_leap_second_stand_in(self) -> bool
        ensures { IsTrue result ↔ Instants.IsLeapSecondMoment greatest_year (offset_instant greatest_year self) }
    {
        match self.checked_to_utc() {
            Some(utc) => utc.is_valid_leap_second_stand_in(),
            None => false,
        }
    }
}

/// A moment in UTC, at offset 0.
impl From<UtcDateTime> for OffsetDateTime {
    ghost use Rattle.std.specs.Prelude.{◌≡◌};
    ghost use Rattle.time_values.specs.Moments.{offset_instant, offset_of, utc_instant};
    ghost use Rattle.time_values.specs.Offsets.{IsUtc};
    ghost use Rattle.time_values.specs.Calendar.{greatest_year};

    ghost from_gives = { λ u v. (offset_instant greatest_year v ≡ utc_instant greatest_year u) × IsUtc (offset_of v) };

    #[tactic(auto, using(crate::proofs::InstantLemmas::instant_is))]
    fn from(date_time: UtcDateTime) -> OffsetDateTime {
        OffsetDateTime {
            date: date_time.date(),
            time: date_time.time(),
            offset: UtcOffset::UTC,
        }
    }
}
