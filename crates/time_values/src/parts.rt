//! Parts of a date, of a time of day and of a timestamp.
ghost use Rattle.std.specs.Prelude.{◌≡◌, ◌/◌, ◌<◌, pos, neg_ℤ, ◌+ℤ◌, ◌*ℤ◌};
ghost use Rattle.time_values.specs.Calendar.{IsBetween};
ghost use Rattle.time_values.specs.Dates as Dates;
ghost use Rattle.time_values.specs.Instants.{IsWhole};
ghost use Rattle.time_values.specs.Moments.{nanoseconds};
ghost use Rattle.time_values.specs.Times as Times;

use crate::utc_date_time::MIN_NANOS;
use crate::{Date, Month, Time, Timestamp};

impl Date {
    /// The year, month and day of the month.
    #[inline]
    pub fn to_calendar_date(self) -> (i32, Month, u8)
        ensures { Dates.HasParts result.0 result.1 result.2 self }
    {
        (self.year(), self.month(), self.day())
    }

    /// The year and the day of the year, from 1.
    pub fn to_ordinal_date(self) -> (i32, u16)
        ensures year { result.0 ≡ Dates.year self }
        ensures ordinal { result.1 ≡ Dates.ordinal self }
    {
        (self.year(), self.ordinal())
    }
}

impl Time {
    /// The millisecond of the second, 0 to 999.
    pub fn millisecond(self) -> u16
        ensures { result ≡ Times.nanosecond self / 1_000_000 }
    {
        (self.nanosecond() / 1_000_000) as u16
    }

    /// The microsecond of the second, 0 to 999999.
    pub fn microsecond(self) -> u32
        ensures { result ≡ Times.nanosecond self / 1000 }
    {
        self.nanosecond() / 1000
    }

    /// The hour, minute and second.
    #[inline]
    pub fn as_hms(self) -> (u8, u8, u8)
        ensures { Times.HasClock result.0 result.1 result.2 (Times.nanosecond self) self }
    {
        (self.hour(), self.minute(), self.second())
    }

    /// The hour, minute, second and millisecond.
    pub fn as_hms_milli(self) -> (u8, u8, u8, u16)
        ensures clock { Times.HasClock result.0 result.1 result.2 (Times.nanosecond self) self }
        ensures millisecond { result.3 ≡ Times.nanosecond self / 1_000_000 }
    {
        (
            self.hour(),
            self.minute(),
            self.second(),
            self.millisecond(),
        )
    }

    /// The hour, minute, second and microsecond.
    pub fn as_hms_micro(self) -> (u8, u8, u8, u32)
        ensures clock { Times.HasClock result.0 result.1 result.2 (Times.nanosecond self) self }
        ensures microsecond { result.3 ≡ Times.nanosecond self / 1000 }
    {
        (
            self.hour(),
            self.minute(),
            self.second(),
            self.microsecond(),
        )
    }

    /// The hour, minute, second and nanosecond.
    #[inline]
    pub fn as_hms_nano(self) -> (u8, u8, u8, u32)
        ensures { Times.HasClock result.0 result.1 result.2 result.3 self }
    {
        (self.hour(), self.minute(), self.second(), self.nanosecond())
    }
}

impl Timestamp {
    // The seconds since 1970-01-01T00:00:00Z, rounded down, and the nanoseconds after that second.
    //
    // The nanoseconds since -999999-01-01T00:00:00Z have up to 76 bits. Split at bit 32, they need no 128-bit division.
    #[inline]
    #[tactic(auto, using(crate::proofs::InstantLemmas::instant_facts))]
    fn seconds_and_nanosecond(self) -> (i64, u32)
        ensures value { (result.0 *ℤ pos 1_000_000_000) +ℤ pos result.1 ≡ nanoseconds self }
        ensures seconds { IsBetween (neg_ℤ (pos 31_619_087_596_800)) (pos 31_494_784_780_799) result.0 }
        ensures nanosecond { result.1 < 1_000_000_000 }
    {
        let since_first = (self.nanoseconds() - MIN_NANOS) as u128;
        let high = (since_first / 4_294_967_296) as u64;
        let low = (since_first % 4_294_967_296) as u64;
        let rest = high % 1_000_000_000 * 4_294_967_296 + low;
        let seconds = high / 1_000_000_000 * 4_294_967_296 + rest / 1_000_000_000;
        (
            seconds as i64 - 31_619_087_596_800,
            (rest % 1_000_000_000) as u32,
        )
    }

    /// The whole seconds since 1970-01-01T00:00:00Z, rounded down.
    pub fn as_seconds(self) -> i64
        ensures { IsWhole 1_000_000_000 (nanoseconds self) result }
    {
        self.seconds_and_nanosecond().0
    }

    /// The whole milliseconds since 1970-01-01T00:00:00Z, rounded down.
    pub fn as_milliseconds(self) -> i64
        ensures { IsWhole 1_000_000 (nanoseconds self) result }
    {
        let (seconds, nanosecond) = self.seconds_and_nanosecond();
        seconds * 1000 + (nanosecond / 1_000_000) as i64
    }

    /// The whole microseconds since 1970-01-01T00:00:00Z, rounded down. More than about 292000 years from 1970, they
    /// don't fit in an `i64`.
    pub fn as_microseconds(self) -> i128
        ensures { IsWhole 1000 (nanoseconds self) result }
    {
        let (seconds, nanosecond) = self.seconds_and_nanosecond();
        seconds as i128 * 1_000_000 + (nanosecond / 1000) as i128
    }
}
