//! Parts of a date-time without an offset.
ghost use Rattle.std.specs.Prelude.{◌≡◌};
ghost use Rattle.time_values.specs.Dates as Dates;
ghost use Rattle.time_values.specs.Moments.{plain_date, plain_time};
ghost use Rattle.time_values.specs.Calendar.{greatest_year};
ghost use Rattle.time_values.specs.Times as Times;
ghost use Rattle.time_values.specs.Names.{days_from_monday};

use crate::{Month, PlainDateTime, Weekday};

impl PlainDateTime {
    /// The year, -999999 to 999999.
    pub fn year(self) -> i32
        ensures { result ≡ Dates.year (plain_date self) }
    {
        self.date().year()
    }

    /// The month.
    pub fn month(self) -> Month
        ensures { result ≡ Dates.month (plain_date self) }
    {
        self.date().month()
    }

    /// The day of the month, 1 to 31.
    pub fn day(self) -> u8
        ensures { result ≡ Dates.day (plain_date self) }
    {
        self.date().day()
    }

    /// The day of the year, 1 to 366.
    pub fn ordinal(self) -> u16
        ensures { result ≡ Dates.ordinal (plain_date self) }
    {
        self.date().ordinal()
    }

    /// The day of the week.
    pub fn weekday(self) -> Weekday
        ensures { days_from_monday result ≡ Dates.weekday greatest_year (plain_date self) }
    {
        self.date().weekday()
    }

    /// The year, month and day of the month.
    pub fn to_calendar_date(self) -> (i32, Month, u8)
        ensures { Dates.HasParts result.0 result.1 result.2 (plain_date self) }
    {
        self.date().to_calendar_date()
    }

    /// The year and the day of the year.
    pub fn to_ordinal_date(self) -> (i32, u16)
        ensures year { result.0 ≡ Dates.year (plain_date self) }
        ensures ordinal { result.1 ≡ Dates.ordinal (plain_date self) }
    {
        self.date().to_ordinal_date()
    }

    /// The hour, 0 to 23.
    pub fn hour(self) -> u8
        ensures { result ≡ Times.hour (plain_time self) }
    {
        self.time().hour()
    }

    /// The minute, 0 to 59.
    pub fn minute(self) -> u8
        ensures { result ≡ Times.minute (plain_time self) }
    {
        self.time().minute()
    }

    /// The second, 0 to 59.
    pub fn second(self) -> u8
        ensures { result ≡ Times.second (plain_time self) }
    {
        self.time().second()
    }

    /// The nanosecond of the second, 0 to 999999999.
    pub fn nanosecond(self) -> u32
        ensures { result ≡ Times.nanosecond (plain_time self) }
    {
        self.time().nanosecond()
    }

    /// The hour, minute and second.
    pub fn as_hms(self) -> (u8, u8, u8)
        ensures { Times.HasClock result.0 result.1 result.2 (Times.nanosecond (plain_time self)) (plain_time self) }
    {
        self.time().as_hms()
    }

    /// The hour, minute, second and nanosecond.
    pub fn as_hms_nano(self) -> (u8, u8, u8, u32)
        ensures { Times.HasClock result.0 result.1 result.2 result.3 (plain_time self) }
    {
        self.time().as_hms_nano()
    }
}
