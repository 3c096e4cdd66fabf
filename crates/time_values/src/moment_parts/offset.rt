//! Parts of a date-time with an offset.
ghost use Rattle.std.specs.Prelude.{◌≡◌};
ghost use Rattle.time_values.specs.Dates as Dates;
ghost use Rattle.time_values.specs.Moments.{offset_date, offset_time};
ghost use Rattle.time_values.specs.Calendar.{greatest_year};
ghost use Rattle.time_values.specs.Times as Times;
ghost use Rattle.time_values.specs.Names.{days_from_monday};

use crate::{Month, OffsetDateTime, Weekday};

impl OffsetDateTime {
    /// The year in local time, -999999 to 999999.
    pub fn year(self) -> i32
        ensures { result ≡ Dates.year (offset_date self) }
    {
        self.date().year()
    }

    /// The month in local time.
    pub fn month(self) -> Month
        ensures { result ≡ Dates.month (offset_date self) }
    {
        self.date().month()
    }

    /// The day of the month in local time, 1 to 31.
    pub fn day(self) -> u8
        ensures { result ≡ Dates.day (offset_date self) }
    {
        self.date().day()
    }

    /// The day of the year in local time, 1 to 366.
    pub fn ordinal(self) -> u16
        ensures { result ≡ Dates.ordinal (offset_date self) }
    {
        self.date().ordinal()
    }

    /// The day of the week in local time.
    pub fn weekday(self) -> Weekday
        ensures { days_from_monday result ≡ Dates.weekday greatest_year (offset_date self) }
    {
        self.date().weekday()
    }

    /// The year, month and day of the month in local time.
    pub fn to_calendar_date(self) -> (i32, Month, u8)
        ensures { Dates.HasParts result.0 result.1 result.2 (offset_date self) }
    {
        self.date().to_calendar_date()
    }

    /// The year and the day of the year in local time.
    pub fn to_ordinal_date(self) -> (i32, u16)
        ensures year { result.0 ≡ Dates.year (offset_date self) }
        ensures ordinal { result.1 ≡ Dates.ordinal (offset_date self) }
    {
        self.date().to_ordinal_date()
    }

    /// The hour in local time, 0 to 23.
    pub fn hour(self) -> u8
        ensures { result ≡ Times.hour (offset_time self) }
    {
        self.time().hour()
    }

    /// The minute in local time, 0 to 59.
    pub fn minute(self) -> u8
        ensures { result ≡ Times.minute (offset_time self) }
    {
        self.time().minute()
    }

    /// The second in local time, 0 to 59.
    pub fn second(self) -> u8
        ensures { result ≡ Times.second (offset_time self) }
    {
        self.time().second()
    }

    /// The nanosecond of the second, 0 to 999999999.
    pub fn nanosecond(self) -> u32
        ensures { result ≡ Times.nanosecond (offset_time self) }
    {
        self.time().nanosecond()
    }

    /// The hour, minute and second in local time.
    pub fn to_hms(self) -> (u8, u8, u8)
        ensures { Times.HasClock result.0 result.1 result.2 (Times.nanosecond (offset_time self)) (offset_time self) }
    {
        self.time().as_hms()
    }

    /// The hour, minute, second and nanosecond in local time.
    pub fn to_hms_nano(self) -> (u8, u8, u8, u32)
        ensures { Times.HasClock result.0 result.1 result.2 result.3 (offset_time self) }
    {
        self.time().as_hms_nano()
    }
}
