//! Getters: each returns a component, or `None` if it isn't set.
ghost use Rattle.std.specs.Prelude.{◌≡◌, ◌≤◌, ◌≤ℤ◌, pos, false, IfSome, unsigned_abs};
ghost use Rattle.std.specs.Option.{option_map};
ghost use Rattle.std.specs.Int.NonZero.{non_zero_u8_get, non_zero_u16_get};
ghost use Rattle.time_values.specs.Calendar.{greatest_year};
ghost use Rattle.time_values.specs.Sign.{signed_by};
ghost use Rattle.time_record.specs.Record.{InRange, year_is, year_century_is, year_last_two_is, iso_year_is, iso_year_century_is, iso_year_last_two_is, sunday_week_number_is, monday_week_number_is, iso_week_number_is, ordinal_is, day_is, hour_24_is, hour_12_is, minute_is, second_is, subsecond_is, offset_hour_is, offset_minute_is, offset_second_is, unix_timestamp_nanos_is};
ghost use Rattle.time_record.specs.Cells.{month_in, weekday_in};

use crate::Parsed;
use crate::parsed::cells::{
    DAY, HOUR_12, HOUR_12_IS_PM, HOUR_24, ISO_WEEK_NUMBER, ISO_YEAR, ISO_YEAR_CENTURY,
    ISO_YEAR_CENTURY_IS_NEGATIVE, ISO_YEAR_LAST_TWO, MINUTE, MONDAY_WEEK_NUMBER, MONTH,
    OFFSET_HOUR, OFFSET_IS_NEGATIVE, OFFSET_MINUTE, OFFSET_SECOND, ORDINAL, SECOND, SUBSECOND,
    SUNDAY_WEEK_NUMBER, WEEKDAY, YEAR, YEAR_CENTURY, YEAR_CENTURY_IS_NEGATIVE, YEAR_LAST_TWO,
};
use std::num::NonZero;
use time_values::{Month, Weekday};

impl Parsed {
    /// The calendar year, from -999999 to 999999. `None` if not set.
    #[inline]
    pub fn year(&self) -> Option<i32>
        ensures value { result ≡ self.now.year }
        ensures in_range { IfSome result (λ v. InRange greatest_year (year_is v)) }
    {
        self.word(YEAR)
    }

    /// The calendar year without its last two digits, from -9999 to 9999. `None` if not set.
    ///
    /// A 0 has no sign here: `year_century_is_negative` returns it.
    #[inline]
    pub fn year_century(&self) -> Option<i16>
        ensures value { result ≡ self.now.year_century }
        ensures in_range { IfSome result (λ v. InRange greatest_year (year_century_is v false)) }
    {
        self.short(YEAR_CENTURY)
    }

    /// Whether the century of the calendar year is negative, -0 included; `None` if no century is set.
    #[inline]
    pub fn year_century_is_negative(&self) -> Option<bool>
        ensures { result ≡ option_map (λ _. self.now.year_century_is_negative)
            self.now.year_century }
    {
        self.short(YEAR_CENTURY)?;
        Some(self.flag(YEAR_CENTURY_IS_NEGATIVE))
    }

    /// The last two digits of the calendar year, from 0 to 99. `None` if not set.
    #[inline]
    pub fn year_last_two(&self) -> Option<u8>
        ensures value { result ≡ self.now.year_last_two }
        ensures in_range { IfSome result (λ v. InRange greatest_year (year_last_two_is v)) }
    {
        Some(self.byte(YEAR_LAST_TWO)? as u8)
    }

    /// The year of the ISO 8601 week date, from -999999 to 999999. `None` if not set.
    #[inline]
    pub fn iso_year(&self) -> Option<i32>
        ensures value { result ≡ self.now.iso_year }
        ensures in_range { IfSome result (λ v. InRange greatest_year (iso_year_is v)) }
    {
        self.word(ISO_YEAR)
    }

    /// The year of the ISO 8601 week date without its last two digits, from -9999 to 9999. `None` if not set.
    ///
    /// A 0 has no sign here: `iso_year_century_is_negative` returns it.
    #[inline]
    pub fn iso_year_century(&self) -> Option<i16>
        ensures value { result ≡ self.now.iso_year_century }
        ensures in_range { IfSome result
            (λ v. InRange greatest_year (iso_year_century_is v false)) }
    {
        self.short(ISO_YEAR_CENTURY)
    }

    /// Whether the century of the ISO 8601 year is negative, -0 included; `None` if no ISO century is set.
    #[inline]
    pub fn iso_year_century_is_negative(&self) -> Option<bool>
        ensures { result ≡ option_map (λ _. self.now.iso_year_century_is_negative)
            self.now.iso_year_century }
    {
        self.short(ISO_YEAR_CENTURY)?;
        Some(self.flag(ISO_YEAR_CENTURY_IS_NEGATIVE))
    }

    /// The last two digits of the year of the ISO 8601 week date, from 0 to 99. `None` if not set.
    #[inline]
    pub fn iso_year_last_two(&self) -> Option<u8>
        ensures value { result ≡ self.now.iso_year_last_two }
        ensures in_range { IfSome result (λ v. InRange greatest_year (iso_year_last_two_is v)) }
    {
        Some(self.byte(ISO_YEAR_LAST_TWO)? as u8)
    }

    /// The month of the year. `None` if not set.
    #[inline]
    pub fn month(&self) -> Option<Month>
        ensures { result ≡ self.now.month }
    {
        Some(Month::at(self.byte(MONTH)? as u8))
    }

    /// The week of the year, from 0 to 53, where week 1 begins on the first Sunday and week 0 is the days before.
    /// `None` if not set.
    #[inline]
    pub fn sunday_week_number(&self) -> Option<u8>
        ensures value { result ≡ self.now.sunday_week_number }
        ensures in_range { IfSome result (λ v. InRange greatest_year (sunday_week_number_is v)) }
    {
        Some(self.byte(SUNDAY_WEEK_NUMBER)? as u8)
    }

    /// The week of the year, from 0 to 53, where week 1 begins on the first Monday and week 0 is the days before.
    /// `None` if not set.
    #[inline]
    pub fn monday_week_number(&self) -> Option<u8>
        ensures value { result ≡ self.now.monday_week_number }
        ensures in_range { IfSome result (λ v. InRange greatest_year (monday_week_number_is v)) }
    {
        Some(self.byte(MONDAY_WEEK_NUMBER)? as u8)
    }

    /// The week of the ISO 8601 week date, from 1 to 53, where week 1 contains 4 January. `None` if not set.
    #[inline]
    pub fn iso_week_number(&self) -> Option<NonZero<u8>>
        ensures value { option_map non_zero_u8_get result ≡ self.now.iso_week_number }
        ensures in_range { IfSome result
            (λ v. InRange greatest_year (iso_week_number_is (non_zero_u8_get v))) }
    {
        NonZero::<u8>::new(self.byte(ISO_WEEK_NUMBER)? as u8)
    }

    /// The day of the week. `None` if not set.
    #[inline]
    pub fn weekday(&self) -> Option<Weekday>
        ensures { result ≡ self.now.weekday }
    {
        Some(Weekday::from_days_from_monday(self.byte(WEEKDAY)? as u8))
    }

    /// The day of the year, from 1 to 366. `None` if not set.
    #[inline]
    pub fn ordinal(&self) -> Option<NonZero<u16>>
        ensures value { option_map non_zero_u16_get result ≡ self.now.ordinal }
        ensures in_range { IfSome result
            (λ v. InRange greatest_year (ordinal_is (non_zero_u16_get v))) }
    {
        NonZero::<u16>::new(self.short(ORDINAL)? as u16)
    }

    /// The day of the month, from 1 to 31. `None` if not set.
    #[inline]
    pub fn day(&self) -> Option<NonZero<u8>>
        ensures value { option_map non_zero_u8_get result ≡ self.now.day }
        ensures in_range { IfSome result (λ v. InRange greatest_year (day_is (non_zero_u8_get v))) }
    {
        NonZero::<u8>::new(self.byte(DAY)? as u8)
    }

    /// The hour of the day, from 0 to 23. `None` if not set.
    #[inline]
    pub fn hour_24(&self) -> Option<u8>
        ensures value { result ≡ self.now.hour_24 }
        ensures in_range { IfSome result (λ v. InRange greatest_year (hour_24_is v)) }
    {
        Some(self.byte(HOUR_24)? as u8)
    }

    /// The hour of the half day, from 1 to 12, where 12 comes before 1. `None` if not set.
    #[inline]
    pub fn hour_12(&self) -> Option<NonZero<u8>>
        ensures value { option_map non_zero_u8_get result ≡ self.now.hour_12 }
        ensures in_range { IfSome result
            (λ v. InRange greatest_year (hour_12_is (non_zero_u8_get v))) }
    {
        NonZero::<u8>::new(self.byte(HOUR_12)? as u8)
    }

    /// Whether `hour_12` lies in the second half of the day: `true` for PM. `None` if not set.
    #[inline]
    pub fn hour_12_is_pm(&self) -> Option<bool>
        ensures { result ≡ self.now.hour_12_is_pm }
    {
        Some(self.byte(HOUR_12_IS_PM)? == 1)
    }

    /// The minute of the hour, from 0 to 59. `None` if not set.
    #[inline]
    pub fn minute(&self) -> Option<u8>
        ensures value { result ≡ self.now.minute }
        ensures in_range { IfSome result (λ v. InRange greatest_year (minute_is v)) }
    {
        Some(self.byte(MINUTE)? as u8)
    }

    /// The second of the minute, from 0 to 60, where 60 is a leap second. `None` if not set.
    #[inline]
    pub fn second(&self) -> Option<u8>
        ensures value { result ≡ self.now.second }
        ensures in_range { IfSome result (λ v. InRange greatest_year (second_is v)) }
    {
        Some(self.byte(SECOND)? as u8)
    }

    /// The nanoseconds of the second, from 0 to 999999999. `None` if not set.
    #[inline]
    pub fn subsecond(&self) -> Option<u32>
        ensures value { result ≡ self.now.subsecond }
        ensures in_range { IfSome result (λ v. InRange greatest_year (subsecond_is v)) }
    {
        Some(self.word(SUBSECOND)? as u32)
    }

    /// The whole hours of the offset from UTC, from -25 to 25. `None` if not set. A parsed `-00` is 0
    /// here, and its minus only negates the minutes and seconds.
    #[inline]
    pub fn offset_hour(&self) -> Option<i8>
        ensures value { result ≡ self.now.offset_hour }
        ensures in_range { IfSome result (λ v. InRange greatest_year (offset_hour_is v)) }
    {
        self.byte(OFFSET_HOUR)
    }

    /// The absolute value of the minutes of the offset from UTC, from 0 to 59. `None` if not set.
    #[deprecated(note = "`offset_minute_signed` keeps the sign")]
    #[inline]
    pub fn offset_minute(&self) -> Option<u8>
        ensures value { result ≡ option_map unsigned_abs self.now.offset_minute }
        ensures in_range { IfSome result (λ v. v ≤ 59) }
    {
        match self.offset_minute_signed() {
            Some(value) => Some(value.unsigned_abs()),
            None => None,
        }
    }

    /// The minutes of the offset from UTC, from -59 to 59: the stored number, negated while the flag of a negative
    /// offset is set (see `forget_offset_sign`). `None` if the offset's minutes aren't set.
    #[inline]
    pub fn offset_minute_signed(&self) -> Option<i8>
        ensures value { result ≡ option_map (signed_by self.now.offset_is_negative)
            self.now.offset_minute }
        ensures in_range { IfSome result (λ v. InRange greatest_year (offset_minute_is v)) }
    {
        let value = self.byte(OFFSET_MINUTE)?;
        Some(if self.flag(OFFSET_IS_NEGATIVE) {
            -value
        } else {
            value
        })
    }

    /// The absolute value of the seconds of the offset from UTC, from 0 to 59. `None` if not set.
    #[deprecated(note = "`offset_second_signed` keeps the sign")]
    #[inline]
    pub fn offset_second(&self) -> Option<u8>
        ensures value { result ≡ option_map unsigned_abs self.now.offset_second }
        ensures in_range { IfSome result (λ v. v ≤ 59) }
    {
        match self.offset_second_signed() {
            Some(value) => Some(value.unsigned_abs()),
            None => None,
        }
    }

    /// The seconds of the offset from UTC, from -59 to 59: the stored number, negated while the flag of a negative
    /// offset is set (see `forget_offset_sign`). `None` if the offset's seconds aren't set.
    #[inline]
    pub fn offset_second_signed(&self) -> Option<i8>
        ensures value { result ≡ option_map (signed_by self.now.offset_is_negative)
            self.now.offset_second }
        ensures in_range { IfSome result (λ v. InRange greatest_year (offset_second_is v)) }
    {
        let value = self.byte(OFFSET_SECOND)?;
        Some(if self.flag(OFFSET_IS_NEGATIVE) {
            -value
        } else {
            value
        })
    }

    /// The nanoseconds since 1970-01-01T00:00:00Z, from -31619087596800000000000 to 31494784780799999999999: years
    /// -999999 to 999999 in UTC. `None` if not set.
    #[inline]
    pub fn unix_timestamp_nanos(&self) -> Option<i128>
        ensures value { result ≡ self.now.unix_timestamp_nanos }
        ensures in_range { IfSome result (λ v. InRange greatest_year (unix_timestamp_nanos_is v)) }
    {
        self.stamp()
    }
}
