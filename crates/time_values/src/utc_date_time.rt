ghost use Rattle.std.specs.Prelude.{◌≡◌, ◌↔◌, IsTrue, IfSome, IfNone, pos, ◌*ℤ◌};
ghost use Rattle.time_values.specs.Moments.{local_time_at, utc_date, utc_time, utc_instant, offset_of, offset_instant};
ghost use Rattle.time_values.specs.Instants as Instants;
ghost use Rattle.time_values.specs.Calendar.{greatest_year};
ghost use Rattle.time_values.specs.Refusal.{Constructs};
ghost use Rattle.time_values.specs.Times.{HasSecond, nanosecond_refusal};

use crate::days::{DAY_LIMIT, EPOCH_DAY};
use crate::error::ComponentRange;
use crate::{Date, OffsetDateTime, Time, UtcOffset};

// The number of nanoseconds in a day.
const NANOS_PER_DAY: u128 = 86_400_000_000_000;

// The first instant of the year -999999 in UTC, in nanoseconds since 1970-01-01T00:00:00Z.
pub(crate) const MIN_NANOS: i128 = -(EPOCH_DAY as i128) * NANOS_PER_DAY as i128;

// The last instant of the year 999999 in UTC, in nanoseconds since 1970-01-01T00:00:00Z.
pub(crate) const MAX_NANOS: i128 = (DAY_LIMIT - EPOCH_DAY) as i128 * NANOS_PER_DAY as i128 - 1;

/// A date and a time of day in UTC.
#[derive(Clone, Copy, Debug, PartialEq, Eq, PartialOrd, Ord, Hash)]
pub struct UtcDateTime {
    date: Date,
    time: Time,
}

impl UtcDateTime {
    /// The moment of that date and time in UTC.
    #[inline]
    pub fn new(date: Date, time: Time) -> UtcDateTime
        ensures date { utc_date result ≡ date }
        ensures time { utc_time result ≡ time }
    {
        UtcDateTime { date, time }
    }

    /// The moment that many nanoseconds after 1970-01-01T00:00:00Z. A number outside -31619087596800000000000 to
    /// 31494784780799999999999 is an error, which names `timestamp`.
    pub fn from_unix_timestamp_nanos(nanos: i128) -> Result<UtcDateTime, ComponentRange>
        ensures { Constructs (Instants.timestamp_refusal greatest_year nanos)
            (λ u. utc_instant greatest_year u ≡ nanos) result }
    {
        if !is_instant(nanos) {
            return Err(ComponentRange {
                name: "timestamp",
                conditional: false,
            });
        }
        Ok(UtcDateTime::at_instant(nanos))
    }

    // The date and time in UTC `nanos` nanoseconds after 1970-01-01T00:00:00Z. The year must be -999999 to 999999.
    #[tactic(auto, using(crate::proofs::InstantLemmas::instant_facts))]
    pub(crate) fn at_instant(nanos: i128) -> UtcDateTime
        requires { Instants.IsInstant greatest_year nanos }
        ensures { utc_instant greatest_year result ≡ nanos }
    {
        let since_first = (nanos - MIN_NANOS) as u128;
        let days = since_first / NANOS_PER_DAY;
        let nanos_of_day = since_first - days * NANOS_PER_DAY;
        UtcDateTime {
            date: Date::from_day_number(days as u32),
            time: Time::from_nanos_of_day(nanos_of_day as u64),
        }
    }

    /// The date in UTC.
    #[inline]
    pub fn date(self) -> Date
        ensures { result ≡ utc_date self }
    {
        self.date
    }

    /// The time of day in UTC.
    #[inline]
    pub fn time(self) -> Time
        ensures { result ≡ utc_time self }
    {
        self.time
    }

    /// The nanoseconds since 1970-01-01T00:00:00Z.
    pub fn unix_timestamp_nanos(self) -> i128
        ensures value { result ≡ utc_instant greatest_year self }
        ensures range { Instants.IsInstant greatest_year result }
    {
        let days = self.date.day_number() as i128 - EPOCH_DAY as i128;
        days * NANOS_PER_DAY as i128 + self.time.nanos_of_day() as i128
    }

    /// The whole seconds since 1970-01-01T00:00:00Z, rounded down.
    #[tactic(auto, using(crate::proofs::InstantLemmas::instant_facts))]
    #[inline]
    pub fn unix_timestamp(self) -> i64
        ensures { Instants.IsWhole 1_000_000_000 (utc_instant greatest_year self) result }
    {
        self.date.days_since_1970() * 86_400 + self.time.seconds_of_day() as i64
    }

    /// The moment that many seconds after 1970-01-01T00:00:00Z. A number outside -31619087596800 to 31494784780799 is
    /// an error, which names `timestamp`.
    pub fn from_unix_timestamp(timestamp: i64) -> Result<UtcDateTime, ComponentRange>
        ensures { Constructs (Instants.timestamp_refusal greatest_year (timestamp *ℤ pos 1_000_000_000))
            (λ u. utc_instant greatest_year u ≡ timestamp *ℤ pos 1_000_000_000) result }
    {
        UtcDateTime::from_unix_timestamp_nanos(timestamp as i128 * 1_000_000_000)
    }

    /// The moment at another offset, or `None` if its year there is outside -999999 to 999999.
    pub fn checked_to_offset(self, offset: UtcOffset) -> Option<OffsetDateTime>
        ensures instant { IfSome result (λ v. offset_instant greatest_year v ≡ utc_instant greatest_year self) }
        ensures offset { IfSome result (λ v. offset_of v ≡ offset) }
        ensures none { IfNone result (¬ (Instants.IsInstant greatest_year
            (local_time_at (utc_instant greatest_year self) offset))) }
    {
        OffsetDateTime::from(self).checked_to_offset(offset)
    }

    /// The moment at another offset, at which its year must be -999999 to 999999. If this isn't known, call
    /// [`checked_to_offset`](UtcDateTime::checked_to_offset).
    pub fn to_offset(self, offset: UtcOffset) -> OffsetDateTime
        requires { Instants.IsInstant greatest_year (local_time_at (utc_instant greatest_year self) offset) }
        ensures instant { offset_instant greatest_year result ≡ utc_instant greatest_year self }
        ensures offset { offset_of result ≡ offset }
    {
        OffsetDateTime::from(self).to_offset(offset)
    }

    /// The moment with its nanosecond of the second replaced. An error names `nanosecond` above 999999999.
    pub fn replace_nanosecond(self, nanosecond: u32) -> Result<UtcDateTime, ComponentRange>
        ensures { Constructs (nanosecond_refusal nanosecond) (λ u. (utc_date u ≡ utc_date self)
            × HasSecond (utc_time self) nanosecond (utc_time u)) result }
    {
        let time = self.time.replace_nanosecond(nanosecond)?;
        Ok(UtcDateTime {
            date: self.date,
            time,
        })
    }

    /// Whether this moment may represent a leap second: it is the last nanosecond of a month.
    pub fn is_valid_leap_second_stand_in(self) -> bool
        ensures { IsTrue result ↔ Instants.IsLastNanosecondOfMonth (utc_date self) (utc_time self) }
    {
        self.time.is_last_nanosecond()
            && self.date.day() == self.date.month().length(self.date.year())
    }
}

/// Whether the moment `nanos` nanoseconds after 1970-01-01T00:00:00Z is in the years -999999 to 999999 in UTC.
#[inline]
#[tactic(auto, using(crate::proofs::InstantLemmas::instant_facts))]
pub fn is_instant(nanos: i128) -> bool
    ensures { result ≡ Instants.is_instant greatest_year nanos }
{
    nanos >= MIN_NANOS && nanos <= MAX_NANOS
}
