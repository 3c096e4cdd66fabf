//! Builders: each returns the record with one component set, in place of an earlier value, or `None` if the value is
//! out of range.
ghost use Rattle.std.specs.Prelude.{◌≡◌, pos};
ghost use Rattle.std.specs.Int.NonZero.{non_zero_u8_get, non_zero_u16_get};
ghost use Rattle.time_values.specs.Calendar.{greatest_year};
ghost use Rattle.time_record.specs.Record.{put, year_is, year_century_is, year_last_two_is, iso_year_is, iso_year_century_is, iso_year_last_two_is, month_is, sunday_week_number_is, monday_week_number_is, iso_week_number_is, weekday_is, ordinal_is, day_is, hour_24_is, hour_12_is, hour_12_is_pm_is, minute_is, second_is, subsecond_is, offset_hour_is, offset_minute_is, offset_second_is, unix_timestamp_nanos_is};

use crate::Parsed;
use std::num::NonZero;
use time_values::{Month, Weekday};

impl Parsed {
    /// Sets the calendar year, from -999999 to 999999. `None` if out of range.
    #[inline]
    pub fn with_year(mut self, value: i32) -> Option<Parsed>
        ensures { result ≡ put greatest_year (year_is value) self }
    {
        self.set_year(value)?;
        Some(self)
    }

    /// Sets the calendar year without its last two digits, from -9999 to 9999, and whether it is negative: by the
    /// value's sign, or for 0 by `is_negative`. `None` if out of range.
    #[inline]
    pub fn with_year_century(mut self, value: i16, is_negative: bool) -> Option<Parsed>
        ensures { result ≡ put greatest_year (year_century_is value is_negative) self }
    {
        self.set_year_century(value, is_negative)?;
        Some(self)
    }

    /// Sets the last two digits of the calendar year, from 0 to 99. `None` if out of range.
    #[inline]
    pub fn with_year_last_two(mut self, value: u8) -> Option<Parsed>
        ensures { result ≡ put greatest_year (year_last_two_is value) self }
    {
        self.set_year_last_two(value)?;
        Some(self)
    }

    /// Sets the year of the ISO 8601 week date, from -999999 to 999999. `None` if out of range.
    #[inline]
    pub fn with_iso_year(mut self, value: i32) -> Option<Parsed>
        ensures { result ≡ put greatest_year (iso_year_is value) self }
    {
        self.set_iso_year(value)?;
        Some(self)
    }

    /// Sets the year of the ISO 8601 week date without its last two digits, from -9999 to 9999, and whether it is
    /// negative: by the value's sign, or for 0 by `is_negative`. `None` if out of range.
    #[inline]
    pub fn with_iso_year_century(mut self, value: i16, is_negative: bool) -> Option<Parsed>
        ensures { result ≡ put greatest_year (iso_year_century_is value is_negative) self }
    {
        self.set_iso_year_century(value, is_negative)?;
        Some(self)
    }

    /// Sets the last two digits of the year of the ISO 8601 week date, from 0 to 99. `None` if out of range.
    #[inline]
    pub fn with_iso_year_last_two(mut self, value: u8) -> Option<Parsed>
        ensures { result ≡ put greatest_year (iso_year_last_two_is value) self }
    {
        self.set_iso_year_last_two(value)?;
        Some(self)
    }

    /// Sets the month of the year; never returns `None`.
    #[inline]
    pub fn with_month(mut self, value: Month) -> Option<Parsed>
        ensures { result ≡ put greatest_year (month_is value) self }
    {
        self.set_month(value)?;
        Some(self)
    }

    /// Sets the week of the year, from 0 to 53, where week 1 begins on the first Sunday and week 0 is the days before.
    /// `None` if out of range.
    #[inline]
    pub fn with_sunday_week_number(mut self, value: u8) -> Option<Parsed>
        ensures { result ≡ put greatest_year (sunday_week_number_is value) self }
    {
        self.set_sunday_week_number(value)?;
        Some(self)
    }

    /// Sets the week of the year, from 0 to 53, where week 1 begins on the first Monday and week 0 is the days before.
    /// `None` if out of range.
    #[inline]
    pub fn with_monday_week_number(mut self, value: u8) -> Option<Parsed>
        ensures { result ≡ put greatest_year (monday_week_number_is value) self }
    {
        self.set_monday_week_number(value)?;
        Some(self)
    }

    /// Sets the week of the ISO 8601 week date, from 1 to 53, where week 1 contains 4 January. `None` if out of range.
    #[inline]
    pub fn with_iso_week_number(mut self, value: NonZero<u8>) -> Option<Parsed>
        ensures { result ≡ put greatest_year (iso_week_number_is (non_zero_u8_get value)) self }
    {
        self.set_iso_week_number(value)?;
        Some(self)
    }

    /// Sets the day of the week; never returns `None`.
    #[inline]
    pub fn with_weekday(mut self, value: Weekday) -> Option<Parsed>
        ensures { result ≡ put greatest_year (weekday_is value) self }
    {
        self.set_weekday(value)?;
        Some(self)
    }

    /// Sets the day of the year, from 1 to 366. `None` if out of range.
    #[inline]
    pub fn with_ordinal(mut self, value: NonZero<u16>) -> Option<Parsed>
        ensures { result ≡ put greatest_year (ordinal_is (non_zero_u16_get value)) self }
    {
        self.set_ordinal(value)?;
        Some(self)
    }

    /// Sets the day of the month, from 1 to 31. `None` if out of range.
    #[inline]
    pub fn with_day(mut self, value: NonZero<u8>) -> Option<Parsed>
        ensures { result ≡ put greatest_year (day_is (non_zero_u8_get value)) self }
    {
        self.set_day(value)?;
        Some(self)
    }

    /// Sets the hour of the day, from 0 to 23. `None` if out of range.
    #[inline]
    pub fn with_hour_24(mut self, value: u8) -> Option<Parsed>
        ensures { result ≡ put greatest_year (hour_24_is value) self }
    {
        self.set_hour_24(value)?;
        Some(self)
    }

    /// Sets the hour of the half day, from 1 to 12, where 12 comes before 1. `None` if out of range.
    #[inline]
    pub fn with_hour_12(mut self, value: NonZero<u8>) -> Option<Parsed>
        ensures { result ≡ put greatest_year (hour_12_is (non_zero_u8_get value)) self }
    {
        self.set_hour_12(value)?;
        Some(self)
    }

    /// Sets whether `hour_12` lies in the second half of the day: `true` for PM. Never returns `None`.
    #[inline]
    pub fn with_hour_12_is_pm(mut self, value: bool) -> Option<Parsed>
        ensures { result ≡ put greatest_year (hour_12_is_pm_is value) self }
    {
        self.set_hour_12_is_pm(value)?;
        Some(self)
    }

    /// Sets the minute of the hour, from 0 to 59. `None` if out of range.
    #[inline]
    pub fn with_minute(mut self, value: u8) -> Option<Parsed>
        ensures { result ≡ put greatest_year (minute_is value) self }
    {
        self.set_minute(value)?;
        Some(self)
    }

    /// Sets the second of the minute, from 0 to 60, where 60 is a leap second. `None` if out of range.
    #[inline]
    pub fn with_second(mut self, value: u8) -> Option<Parsed>
        ensures { result ≡ put greatest_year (second_is value) self }
    {
        self.set_second(value)?;
        Some(self)
    }

    /// Sets the nanoseconds of the second, from 0 to 999999999. `None` if out of range.
    #[inline]
    pub fn with_subsecond(mut self, value: u32) -> Option<Parsed>
        ensures { result ≡ put greatest_year (subsecond_is value) self }
    {
        self.set_subsecond(value)?;
        Some(self)
    }

    /// Sets the whole hours of the offset from UTC, from -25 to 25. `None` if out of range.
    ///
    /// Doesn't change the flag of a negative offset, which parsing an `OffsetHour` with a minus sets. While it is set,
    /// `offset_minute_signed` and `offset_second_signed` return the stored numbers negated, whatever the sign of this
    /// value; `forget_offset_sign` clears the flag.
    #[inline]
    pub fn with_offset_hour(mut self, value: i8) -> Option<Parsed>
        ensures { result ≡ put greatest_year (offset_hour_is value) self }
    {
        self.set_offset_hour(value)?;
        Some(self)
    }

    /// Sets the minutes of the offset from UTC to a number from 0 to 59. `None` if out of range. While the flag of a
    /// negative offset (`OffsetHour`'s minus) is set, `offset_minute_signed` returns the number negated.
    #[deprecated(note = "`with_offset_minute_signed` takes a sign")]
    #[inline]
    pub fn with_offset_minute(mut self, value: u8) -> Option<Parsed>
        ensures { result ≡ put greatest_year (offset_minute_is (pos value)) self }
    {
        self.set_offset_minute(value)?;
        Some(self)
    }

    /// Sets the minutes of the offset from UTC, from -59 to 59. `None` if out of range. While the flag of a negative
    /// offset (`OffsetHour`'s minus) is set, `offset_minute_signed` returns the number negated.
    #[inline]
    pub fn with_offset_minute_signed(mut self, value: i8) -> Option<Parsed>
        ensures { result ≡ put greatest_year (offset_minute_is value) self }
    {
        self.set_offset_minute_signed(value)?;
        Some(self)
    }

    /// Sets the seconds of the offset from UTC to a number from 0 to 59. `None` if out of range. While the flag of a
    /// negative offset (`OffsetHour`'s minus) is set, `offset_second_signed` returns the number negated.
    #[deprecated(note = "`with_offset_second_signed` takes a sign")]
    #[inline]
    pub fn with_offset_second(mut self, value: u8) -> Option<Parsed>
        ensures { result ≡ put greatest_year (offset_second_is (pos value)) self }
    {
        self.set_offset_second(value)?;
        Some(self)
    }

    /// Sets the seconds of the offset from UTC, from -59 to 59. `None` if out of range. While the flag of a negative
    /// offset (`OffsetHour`'s minus) is set, `offset_second_signed` returns the number negated.
    #[inline]
    pub fn with_offset_second_signed(mut self, value: i8) -> Option<Parsed>
        ensures { result ≡ put greatest_year (offset_second_is value) self }
    {
        self.set_offset_second_signed(value)?;
        Some(self)
    }

    /// Sets the nanoseconds since 1970-01-01T00:00:00Z, from -31619087596800000000000 to 31494784780799999999999: years
    /// -999999 to 999999 in UTC. `None` if out of range.
    #[inline]
    pub fn with_unix_timestamp_nanos(mut self, value: i128) -> Option<Parsed>
        ensures { result ≡ put greatest_year (unix_timestamp_nanos_is value) self }
    {
        self.set_unix_timestamp_nanos(value)?;
        Some(self)
    }
}
