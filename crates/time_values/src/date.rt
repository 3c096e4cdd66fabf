ghost use Rattle.std.specs.Prelude.{◌≡◌, ℤ, pos, neg_ℤ, ◌+◌, ◌-◌, ◌*◌, ◌<◌, ◌≤◌, ◌-ℤ◌};
ghost use Rattle.std.specs.Int.{IsInRange};
ghost use Rattle.time_values.specs.Calendar as Calendar;
ghost use Rattle.time_values.specs.March.{march_year};
ghost use Rattle.time_values.specs.Names.{month_number, days_from_monday};
ghost use Rattle.time_values.specs.Calendar.{greatest_year};

use crate::aligned::Aligned;
use crate::days::{MAX_YEAR, leap_day, year_length};
use crate::error::ComponentRange;
use crate::{Month, Weekday, days};
use std::fmt;

/// A day of the proleptic Gregorian calendar, in the years -999999 to 999999. Earlier dates compare as less.
#[derive(Clone, Copy, PartialEq, Eq, PartialOrd, Ord, Hash)]
pub struct Date {
    year: i32,
    month: Month,
    day: u8,
    aligned: Aligned,
    pub ghost year_in: { Calendar.IsYear greatest_year year },
    pub ghost day_in: { IsInRange 1 (Calendar.month_length year (month_number month)) day },
}

impl Date {
    ghost use Rattle.time_values.specs.Dates as Dates;
    ghost use Rattle.time_values.specs.Dates.{calendar_date_refusal, ordinal_date_refusal};
    ghost use Rattle.time_values.specs.Refusal.{Constructs};

    /// The first date, -999999-01-01, a Monday.
    pub const MIN: Date = Date {
        year: -MAX_YEAR,
        month: Month::January,
        day: 1,
        aligned: Aligned::TO_WORDS,
    };

    /// The last date, 999999-12-31, a Friday.
    pub const MAX: Date = Date {
        year: MAX_YEAR,
        month: Month::December,
        day: 31,
        aligned: Aligned::TO_WORDS,
    };

    /// The date with this year, month and day of the month, from 1. An error names `year` outside -999999 to 999999, or
    /// else `day` (conditional: its range depends on the year and month) if the month has no such day in that year.
    #[inline(always)]
    pub fn from_calendar_date(year: i32, month: Month, day: u8) -> Result<Date, ComponentRange>
        ensures { Constructs (calendar_date_refusal greatest_year year (month_number month) day)
            (Dates.HasParts year month day) result }
    {
        if year < -MAX_YEAR || year > MAX_YEAR {
            return Err(ComponentRange {
                name: "year",
                conditional: false,
            });
        }
        // Every month has at least 28 days.
        if day == 0 || day > 28 && day > month.length(year) {
            return Err(ComponentRange {
                name: "day",
                conditional: true,
            });
        }
        Ok(Date {
            year,
            month,
            day,
            aligned: Aligned::TO_WORDS,
        })
    }

    /// The date of that year and day of the year, from 1. An error names `year` outside -999999 to 999999, or else
    /// `ordinal` (conditional: its range depends on the year) if the year has no such day.
    pub fn from_ordinal_date(year: i32, ordinal: u16) -> Result<Date, ComponentRange>
        ensures { Constructs (ordinal_date_refusal greatest_year year ordinal)
            (λ d. (Dates.year d ≡ year) × (Dates.ordinal d ≡ ordinal)) result }
    {
        if year < -MAX_YEAR || year > MAX_YEAR {
            return Err(ComponentRange {
                name: "year",
                conditional: false,
            });
        }
        if ordinal == 0 || ordinal > year_length(year) {
            return Err(ComponentRange {
                name: "ordinal",
                conditional: true,
            });
        }
        Ok(Date::at_ordinal(year, ordinal))
    }

    // The date of day `ordinal` of the year, from 1. The year must be -999999 to 999999 and have that day.
    fn at_ordinal(year: i32, ordinal: u16) -> Date
        requires year_in { Calendar.IsYear greatest_year year }
        requires ordinal_in { IsInRange 1 (Calendar.year_length year) ordinal }
        ensures year { Dates.year result ≡ year }
        ensures ordinal { Dates.ordinal result ≡ ordinal }
    {
        let (month, day) = month_and_day(year, ordinal);
        Date {
            year,
            month: Month::at(month),
            day,
            aligned: Aligned::TO_WORDS,
        }
    }

    /// The year, -999999 to 999999.
    #[inline]
    pub fn year(self) -> i32
        ensures { result ≡ Dates.year self }
    {
        self.year
    }

    /// The month.
    #[inline]
    pub fn month(self) -> Month
        ensures { result ≡ Dates.month self }
    {
        self.month
    }

    /// The day of the month, 1 to 31.
    #[inline]
    pub fn day(self) -> u8
        ensures { result ≡ Dates.day self }
    {
        self.day
    }

    /// The day of the year, 1 to 366.
    pub fn ordinal(self) -> u16
        ensures value { result ≡ Dates.ordinal self }
        ensures within { IsInRange 1 (Calendar.year_length (Dates.year self)) result }
    {
        let month = self.month.number() as u16;
        days_before_month(self.year, month) + self.day as u16
    }

    // The date that many days after the first date, -999999-01-01.
    pub(crate) fn from_day_number(day: u32) -> Date
        requires { day < Calendar.day_limit greatest_year }
        ensures { Dates.day_number greatest_year result ≡ day }
    {
        let (year, place) = days::year_and_place(day);
        Date::at_ordinal(year, place)
    }

    // The number of days since the first date, -999999-01-01.
    pub(crate) fn day_number(self) -> u32
        ensures value { result ≡ Dates.day_number greatest_year self }
        ensures bound { result < 2_000_000_000 }
    {
        days::year_start(self.year) + (self.ordinal() as u32 - 1)
    }

    // The number of whole years from 1 March of the year -1000000 to this day, plus 100.
    #[inline(always)]
    fn march_years(&self) -> u32
        ensures value { result ≡ Calendar.years_before greatest_year (Dates.year self.now)
            + march_year (month_number (Dates.month self.now)) + 100 }
        ensures bound { result ≤ 2_000_100 }
    {
        (self.year as i64 + self.month.march_years()) as u32
    }

    // The days since 1970-01-01. Years that begin in March end with their leap day, so no leap year is tested. With 100
    // years added, three quarters of the full centuries, rounded down, end without a leap day. `self` is a reference:
    // LLVM would move a copy of the date as one word and then extract its parts.
    #[inline(always)]
    pub(crate) fn days_since_1970(&self) -> i64
        ensures value { result ≡ pos (Dates.day_number greatest_year self.now) -ℤ pos 365_961_662 }
        ensures bound { Calendar.IsBetween (neg_ℤ (pos 1_000_000_000)) (pos 3_000_000_000) result }
    {
        let years = self.march_years();
        let days = 1461 * years / 4 - 3 * (years / 100) / 4;
        days as i64 + self.month.days_from_march() + self.day as i64
    }

    /// The day of the week.
    pub fn weekday(self) -> Weekday
        ensures { days_from_monday result ≡ Dates.weekday greatest_year self }
    {
        Weekday::from_days_from_monday((self.day_number() % 7) as u8)
    }
}

impl Date {
    ghost use Rattle.time_values.specs.Dates as Dates;
    ghost use Rattle.time_values.specs.Dates.{ConstructsIsoDate};

    /// The week of the year, 0 to 53. Week 1 begins on the year's first Sunday, and the days before are week 0.
    pub fn sunday_based_week(self) -> u8
        ensures { result ≡ Dates.weekdays_so_far greatest_year 6 self }
    {
        ((self.ordinal() + 6 - self.weekday().number_days_from_sunday() as u16) / 7) as u8
    }

    /// The week of the year, 0 to 53. Week 1 begins on the year's first Monday, and the days before are week 0.
    pub fn monday_based_week(self) -> u8
        ensures { result ≡ Dates.weekdays_so_far greatest_year 0 self }
    {
        ((self.ordinal() + 6 - self.weekday().number_days_from_monday() as u16) / 7) as u8
    }

    /// The year, week (1 to 53) and weekday by ISO 8601: a week begins on Monday, and belongs to the year of its
    /// Thursday.
    pub fn to_iso_week_date(self) -> (i32, u8, Weekday)
        ensures week { Calendar.IsIsoWeek greatest_year (Dates.day_number greatest_year self)
            result.0 result.1 }
        ensures weekday { days_from_monday result.2 ≡ Dates.weekday greatest_year self }
    {
        let weekday = self.weekday();
        // The days from 1 January of this year to the week's Thursday, plus 8.
        let shifted = self.ordinal() + 10 - weekday.number_days_from_monday() as u16;
        let Some((year, place)) = days::at_place(self.year, shifted) else {
            unreachable!()
        };
        (year, ((place + 6) / 7) as u8, weekday)
    }

    /// The week number by ISO 8601, 1 to 53, in the year of the week's Thursday.
    pub fn iso_week(self) -> u8
        ensures { (year : ℤ) × Calendar.IsIsoWeek greatest_year
            (Dates.day_number greatest_year self) year result }
    {
        let (_year, week, _weekday) = self.to_iso_week_date();
        week
    }

    /// The date of that year, week and weekday by ISO 8601. An error names `year` outside -999999 to 999999, or else
    /// `week` (conditional: its range depends on the year) if the year has no such week, or else `weekday` (conditional
    /// too) if the day is after `Date::MAX`, 999999-12-31.
    pub fn from_iso_week_date(year: i32, week: u8, weekday: Weekday) -> Result<Date, ComponentRange>
        ensures { ConstructsIsoDate greatest_year year week (days_from_monday weekday) result }
    {
        if year < -MAX_YEAR || year > MAX_YEAR {
            return Err(ComponentRange {
                name: "year",
                conditional: false,
            });
        }
        // The day of the year of the year's first Thursday, from 1.
        let thursday = days::first_thursday(year);
        if week == 0 || week as u16 > (year_length(year) + 7 - thursday) / 7 {
            return Err(ComponentRange {
                name: "week",
                conditional: true,
            });
        }
        // The days from 1 January of `year` to the returned date, plus 8.
        let shifted = thursday
            + 7 * (week as u16 - 1)
            + 4
            + weekday.number_days_from_monday() as u16;
        let Some((year, place)) = days::at_place(year, shifted) else {
            return Err(ComponentRange {
                name: "weekday",
                conditional: true,
            });
        };
        Ok(Date::at_ordinal(year, place))
    }
}

// Prints what a derived `Debug` would, without the field `aligned`, which has no bytes and only sets the alignment.
impl fmt::Debug for Date {
    fn fmt<W: fmt::Write>(&self, f: &mut fmt::Formatter<W>) -> fmt::Result {
        f.debug_struct("Date")
            .field("year", &self.year)
            .field("month", &self.month)
            .field("day", &self.day)
            .finish()
    }
}

// The number of days of the year before the month of that number.
#[tactic(auto, using(crate::proofs::YearLemmas::days_of_months_closed))]
fn days_before_month(year: i32, month: u16) -> u16
    requires { IsInRange 1 12 month }
    ensures value { result ≡ Calendar.days_of_months year (month - 1) }
    ensures bound { result ≤ 335 }
{
    if month <= 2 {
        31 * (month - 1)
    } else {
        // From March to December, any five months in a row have 153 days.
        (153 * month - 457) / 5 + 59 + leap_day(year)
    }
}

// The month, 1 for January, and the day of the month of a day of the year.
#[tactic(auto, using(crate::proofs::YearLemmas::month_and_day_facts))]
fn month_and_day(year: i32, ordinal: u16) -> (u8, u8)
    requires { IsInRange 1 (Calendar.year_length year) ordinal }
    ensures ordinal { Calendar.ordinal_of year result.0 result.1 ≡ ordinal }
    ensures month { IsInRange 1 12 result.0 }
    ensures day { IsInRange 1 (Calendar.month_length year result.0) result.1 }
{
    let leap_day = leap_day(year);
    if ordinal <= 31 {
        return (1, ordinal as u8);
    }
    if ordinal <= 59 + leap_day {
        return (2, (ordinal - 31) as u8);
    }
    let scaled = 5 * (ordinal - 60 - leap_day) + 461;
    ((scaled / 153) as u8, (scaled % 153 / 5 + 1) as u8)
}
