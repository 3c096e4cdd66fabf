ghost use Rattle.std.specs.Prelude.{◌≡◌};
ghost use Rattle.time_values.specs.Moments.{plain_date, plain_time, utc_date, utc_time, offset_date, offset_time, offset_of};
ghost use Rattle.time_values.specs.Offsets.{IsUtc};

use crate::{Date, OffsetDateTime, Time, UtcDateTime, UtcOffset};

/// A date and a time of day, with no offset.
#[derive(Clone, Copy, Debug, PartialEq, Eq, PartialOrd, Ord, Hash)]
pub struct PlainDateTime {
    date: Date,
    time: Time,
}

impl PlainDateTime {
    /// The date-time of that date and time.
    #[inline]
    pub fn new(date: Date, time: Time) -> PlainDateTime
        ensures date { plain_date result ≡ date }
        ensures time { plain_time result ≡ time }
    {
        PlainDateTime { date, time }
    }

    /// The date.
    #[inline]
    pub fn date(self) -> Date
        ensures { result ≡ plain_date self }
    {
        self.date
    }

    /// The time of day.
    #[inline]
    pub fn time(self) -> Time
        ensures { result ≡ plain_time self }
    {
        self.time
    }

    /// The moment of this date and time at the offset.
    #[inline]
    pub fn assume_offset(self, offset: UtcOffset) -> OffsetDateTime
        ensures date { offset_date result ≡ plain_date self }
        ensures time { offset_time result ≡ plain_time self }
        ensures offset { offset_of result ≡ offset }
    {
        OffsetDateTime::new_in_offset(self.date, self.time, offset)
    }

    /// The moment of this date and time at an offset of 0.
    #[inline]
    pub fn assume_utc(self) -> OffsetDateTime
        ensures date { offset_date result ≡ plain_date self }
        ensures time { offset_time result ≡ plain_time self }
        ensures offset { IsUtc (offset_of result) }
    {
        OffsetDateTime::new_in_offset(self.date, self.time, UtcOffset::UTC)
    }

    /// The moment of this date and time in UTC.
    #[inline]
    pub fn as_utc(self) -> UtcDateTime
        ensures date { utc_date result ≡ plain_date self }
        ensures time { utc_time result ≡ plain_time self }
    {
        UtcDateTime::new(self.date, self.time)
    }
}
