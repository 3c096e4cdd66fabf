//! Setters: each stores one component and returns `Some`, or returns `None` and changes nothing if the value is out of
//! range.
ghost use Rattle.std.specs.Prelude.{◌≡◌, pos};
ghost use Rattle.std.specs.Int.NonZero.{non_zero_u8_get, non_zero_u16_get};
ghost use Rattle.time_values.specs.Calendar.{greatest_year};
ghost use Rattle.time_record.specs.Record.{put, Sets, year_is, year_century_is, year_last_two_is, iso_year_is, iso_year_century_is, iso_year_last_two_is, month_is, sunday_week_number_is, monday_week_number_is, iso_week_number_is, weekday_is, ordinal_is, day_is, hour_24_is, hour_12_is, hour_12_is_pm_is, minute_is, second_is, subsecond_is, offset_hour_is, offset_minute_is, offset_second_is, unix_timestamp_nanos_is};

use crate::Parsed;
use crate::parsed::cells::{
    DAY, HOUR_12, HOUR_12_IS_PM, HOUR_24, ISO_WEEK_NUMBER, ISO_YEAR, ISO_YEAR_CENTURY,
    ISO_YEAR_CENTURY_IS_NEGATIVE, ISO_YEAR_LAST_TWO, MINUTE, MONDAY_WEEK_NUMBER, MONTH,
    OFFSET_HOUR, OFFSET_MINUTE, OFFSET_SECOND, ORDINAL, SECOND, SUBSECOND, SUNDAY_WEEK_NUMBER,
    WEEKDAY, YEAR, YEAR_CENTURY, YEAR_CENTURY_IS_NEGATIVE, YEAR_LAST_TWO,
};
use std::num::NonZero;
use time_values::{MAX_YEAR, Month, Timestamp, Weekday};

impl Parsed {
    /// Sets the calendar year, from -999999 to 999999. If out of range, returns `None` and changes nothing.
    #[inline]
    pub fn set_year(&mut self, value: i32) -> Option<()>
        ensures { Sets (put greatest_year (year_is value) self.old) self.old result self.new }
    {
        if value < -MAX_YEAR || value > MAX_YEAR {
            return None;
        }
        self.put_word(YEAR, value);
        Some(())
    }

    /// Sets the calendar year without its last two digits, from -9999 to 9999, and whether it is negative: by the
    /// value's sign, or for 0 by `is_negative`. If out of range, returns `None` and changes nothing.
    #[inline]
    pub fn set_year_century(&mut self, value: i16, is_negative: bool) -> Option<()>
        ensures { Sets (put greatest_year (year_century_is value is_negative) self.old)
            self.old result self.new }
    {
        if i32::from(value) < -MAX_YEAR / 100 || i32::from(value) > MAX_YEAR / 100 {
            return None;
        }
        let negative = value < 0 || value == 0 && is_negative;
        self.put_short(YEAR_CENTURY, value);
        self.set_flag(YEAR_CENTURY_IS_NEGATIVE, negative);
        Some(())
    }

    /// Sets the last two digits of the calendar year, from 0 to 99. If out of range, returns `None` and changes
    /// nothing.
    #[inline]
    pub fn set_year_last_two(&mut self, value: u8) -> Option<()>
        ensures { Sets (put greatest_year (year_last_two_is value) self.old)
            self.old result self.new }
    {
        if value > 99 {
            return None;
        }
        self.put_byte(YEAR_LAST_TWO, value as i8);
        Some(())
    }

    /// Sets the year of the ISO 8601 week date, from -999999 to 999999. If out of range, returns `None` and changes
    /// nothing.
    #[inline]
    pub fn set_iso_year(&mut self, value: i32) -> Option<()>
        ensures { Sets (put greatest_year (iso_year_is value) self.old) self.old result self.new }
    {
        if value < -MAX_YEAR || value > MAX_YEAR {
            return None;
        }
        self.put_word(ISO_YEAR, value);
        Some(())
    }

    /// Sets the year of the ISO 8601 week date without its last two digits, from -9999 to 9999, and whether it is
    /// negative: by the value's sign, or for 0 by `is_negative`. If out of range, returns `None` and changes nothing.
    #[inline]
    pub fn set_iso_year_century(&mut self, value: i16, is_negative: bool) -> Option<()>
        ensures { Sets (put greatest_year (iso_year_century_is value is_negative) self.old)
            self.old result self.new }
    {
        if i32::from(value) < -MAX_YEAR / 100 || i32::from(value) > MAX_YEAR / 100 {
            return None;
        }
        let negative = value < 0 || value == 0 && is_negative;
        self.put_short(ISO_YEAR_CENTURY, value);
        self.set_flag(ISO_YEAR_CENTURY_IS_NEGATIVE, negative);
        Some(())
    }

    /// Sets the last two digits of the year of the ISO 8601 week date, from 0 to 99. If out of range, returns `None`
    /// and changes nothing.
    #[inline]
    pub fn set_iso_year_last_two(&mut self, value: u8) -> Option<()>
        ensures { Sets (put greatest_year (iso_year_last_two_is value) self.old)
            self.old result self.new }
    {
        if value > 99 {
            return None;
        }
        self.put_byte(ISO_YEAR_LAST_TWO, value as i8);
        Some(())
    }

    /// Sets the month of the year; never returns `None`.
    #[inline]
    pub fn set_month(&mut self, value: Month) -> Option<()>
        ensures { Sets (put greatest_year (month_is value) self.old) self.old result self.new }
    {
        self.put_byte(MONTH, value.number() as i8);
        Some(())
    }

    /// Sets the week of the year, from 0 to 53, where week 1 begins on the first Sunday and week 0 is the days before.
    /// If out of range, returns `None` and changes nothing.
    #[inline]
    pub fn set_sunday_week_number(&mut self, value: u8) -> Option<()>
        ensures { Sets (put greatest_year (sunday_week_number_is value) self.old)
            self.old result self.new }
    {
        if value > 53 {
            return None;
        }
        self.put_byte(SUNDAY_WEEK_NUMBER, value as i8);
        Some(())
    }

    /// Sets the week of the year, from 0 to 53, where week 1 begins on the first Monday and week 0 is the days before.
    /// If out of range, returns `None` and changes nothing.
    #[inline]
    pub fn set_monday_week_number(&mut self, value: u8) -> Option<()>
        ensures { Sets (put greatest_year (monday_week_number_is value) self.old)
            self.old result self.new }
    {
        if value > 53 {
            return None;
        }
        self.put_byte(MONDAY_WEEK_NUMBER, value as i8);
        Some(())
    }

    /// Sets the week of the ISO 8601 week date, from 1 to 53, where week 1 contains 4 January. If out of range, returns
    /// `None` and changes nothing.
    #[inline]
    pub fn set_iso_week_number(&mut self, value: NonZero<u8>) -> Option<()>
        ensures { Sets (put greatest_year (iso_week_number_is (non_zero_u8_get value)) self.old)
            self.old result self.new }
    {
        if value.get() > 53 {
            return None;
        }
        self.put_byte(ISO_WEEK_NUMBER, value.get() as i8);
        Some(())
    }

    /// Sets the day of the week; never returns `None`.
    #[inline]
    pub fn set_weekday(&mut self, value: Weekday) -> Option<()>
        ensures { Sets (put greatest_year (weekday_is value) self.old) self.old result self.new }
    {
        self.put_byte(WEEKDAY, value.number_days_from_monday() as i8);
        Some(())
    }

    /// Sets the day of the year, from 1 to 366. If out of range, returns `None` and changes nothing.
    #[inline]
    pub fn set_ordinal(&mut self, value: NonZero<u16>) -> Option<()>
        ensures { Sets (put greatest_year (ordinal_is (non_zero_u16_get value)) self.old)
            self.old result self.new }
    {
        if value.get() > 366 {
            return None;
        }
        self.put_short(ORDINAL, value.get() as i16);
        Some(())
    }

    /// Sets the day of the month, from 1 to 31. If out of range, returns `None` and changes nothing.
    #[inline]
    pub fn set_day(&mut self, value: NonZero<u8>) -> Option<()>
        ensures { Sets (put greatest_year (day_is (non_zero_u8_get value)) self.old)
            self.old result self.new }
    {
        if value.get() > 31 {
            return None;
        }
        self.put_byte(DAY, value.get() as i8);
        Some(())
    }

    /// Sets the hour of the day, from 0 to 23. If out of range, returns `None` and changes nothing.
    #[inline]
    pub fn set_hour_24(&mut self, value: u8) -> Option<()>
        ensures { Sets (put greatest_year (hour_24_is value) self.old) self.old result self.new }
    {
        if value > 23 {
            return None;
        }
        self.put_byte(HOUR_24, value as i8);
        Some(())
    }

    /// Sets the hour of the half day, from 1 to 12, where 12 comes before 1. If out of range, returns `None` and
    /// changes nothing.
    #[inline]
    pub fn set_hour_12(&mut self, value: NonZero<u8>) -> Option<()>
        ensures { Sets (put greatest_year (hour_12_is (non_zero_u8_get value)) self.old)
            self.old result self.new }
    {
        if value.get() > 12 {
            return None;
        }
        self.put_byte(HOUR_12, value.get() as i8);
        Some(())
    }

    /// Sets whether `hour_12` lies in the second half of the day: `true` for PM. Never returns `None`.
    #[inline]
    pub fn set_hour_12_is_pm(&mut self, value: bool) -> Option<()>
        ensures { Sets (put greatest_year (hour_12_is_pm_is value) self.old)
            self.old result self.new }
    {
        self.put_byte(HOUR_12_IS_PM, value as i8);
        Some(())
    }

    /// Sets the minute of the hour, from 0 to 59. If out of range, returns `None` and changes nothing.
    #[inline]
    pub fn set_minute(&mut self, value: u8) -> Option<()>
        ensures { Sets (put greatest_year (minute_is value) self.old) self.old result self.new }
    {
        if value > 59 {
            return None;
        }
        self.put_byte(MINUTE, value as i8);
        Some(())
    }

    /// Sets the second of the minute, from 0 to 60, where 60 is a leap second. If out of range, returns `None` and
    /// changes nothing.
    #[inline]
    pub fn set_second(&mut self, value: u8) -> Option<()>
        ensures { Sets (put greatest_year (second_is value) self.old) self.old result self.new }
    {
        if value > 60 {
            return None;
        }
        self.put_byte(SECOND, value as i8);
        Some(())
    }

    /// Sets the nanoseconds of the second, from 0 to 999999999. If out of range, returns `None` and changes nothing.
    #[inline]
    pub fn set_subsecond(&mut self, value: u32) -> Option<()>
        ensures { Sets (put greatest_year (subsecond_is value) self.old) self.old result self.new }
    {
        if value > 999_999_999 {
            return None;
        }
        self.put_word(SUBSECOND, value as i32);
        Some(())
    }

    /// Sets the whole hours of the offset from UTC, from -25 to 25. If out of range, returns `None` and changes
    /// nothing.
    ///
    /// Doesn't change the flag of a negative offset, which parsing an `OffsetHour` with a minus sets. While it is set,
    /// `offset_minute_signed` and `offset_second_signed` return the stored numbers negated, whatever the sign of this
    /// value; `forget_offset_sign` clears the flag.
    #[inline]
    pub fn set_offset_hour(&mut self, value: i8) -> Option<()>
        ensures { Sets (put greatest_year (offset_hour_is value) self.old)
            self.old result self.new }
    {
        if value < -25 || value > 25 {
            return None;
        }
        self.put_byte(OFFSET_HOUR, value);
        Some(())
    }

    /// Sets the minutes of the offset from UTC, from 0 to 59. If out of range, returns `None` and changes nothing.
    /// While the flag of a negative offset (`OffsetHour`'s minus) is set, `offset_minute_signed` returns them negated.
    #[deprecated(note = "`set_offset_minute_signed` takes a sign")]
    #[inline]
    pub fn set_offset_minute(&mut self, value: u8) -> Option<()>
        ensures { Sets (put greatest_year (offset_minute_is (pos value)) self.old)
            self.old result self.new }
    {
        if value > 59 {
            return None;
        }
        self.set_offset_minute_signed(value as i8)
    }

    /// Sets the minutes of the offset from UTC, from -59 to 59. If out of range, returns `None` and changes nothing.
    /// While the flag of a negative offset (`OffsetHour`'s minus) is set, `offset_minute_signed` returns them negated.
    #[inline]
    pub fn set_offset_minute_signed(&mut self, value: i8) -> Option<()>
        ensures { Sets (put greatest_year (offset_minute_is value) self.old)
            self.old result self.new }
    {
        if value < -59 || value > 59 {
            return None;
        }
        self.put_byte(OFFSET_MINUTE, value);
        Some(())
    }

    /// Sets the seconds of the offset from UTC, from 0 to 59. If out of range, returns `None` and changes nothing.
    /// While the flag of a negative offset (`OffsetHour`'s minus) is set, `offset_second_signed` returns them negated.
    #[deprecated(note = "`set_offset_second_signed` takes a sign")]
    #[inline]
    pub fn set_offset_second(&mut self, value: u8) -> Option<()>
        ensures { Sets (put greatest_year (offset_second_is (pos value)) self.old)
            self.old result self.new }
    {
        if value > 59 {
            return None;
        }
        self.set_offset_second_signed(value as i8)
    }

    /// Sets the seconds of the offset from UTC, from -59 to 59. If out of range, returns `None` and changes nothing.
    /// While the flag of a negative offset (`OffsetHour`'s minus) is set, `offset_second_signed` returns them negated.
    #[inline]
    pub fn set_offset_second_signed(&mut self, value: i8) -> Option<()>
        ensures { Sets (put greatest_year (offset_second_is value) self.old)
            self.old result self.new }
    {
        if value < -59 || value > 59 {
            return None;
        }
        self.put_byte(OFFSET_SECOND, value);
        Some(())
    }

    /// Sets the nanoseconds since 1970-01-01T00:00:00Z, from -31619087596800000000000 to 31494784780799999999999: years
    /// -999999 to 999999 in UTC. If out of range, returns `None` and changes nothing.
    #[inline]
    pub fn set_unix_timestamp_nanos(&mut self, value: i128) -> Option<()>
        ensures { Sets (put greatest_year (unix_timestamp_nanos_is value) self.old)
            self.old result self.new }
    {
        if Timestamp::from_nanoseconds(value).is_err() {
            return None;
        }
        self.put_stamp(value);
        Some(())
    }
}
