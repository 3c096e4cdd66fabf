//! Each day of 400 years, from four starting days, against a count from day to day.
use std::num::NonZero;
use time_values::{Date, Month, Time, UtcDateTime};

// The numbers of a day, counted from day to day.
#[derive(Clone, Copy)]
struct Counted {
    year: i32,
    month: u8,
    day: u8,
    ordinal: u16,
    weekday: u8,
    sunday_week: u8,
    monday_week: u8,
    iso_year: i32,
    iso_week: u8,
    nanos: i128,
}

const NANOS_PER_DAY: i128 = 86_400_000_000_000;

impl Counted {
    // 1 January 1900, a Monday, which is 25,567 days before 1 January 1970.
    const IN_1900: Counted = Counted {
        year: 1900,
        month: 1,
        day: 1,
        ordinal: 1,
        weekday: 0,
        sunday_week: 0,
        monday_week: 1,
        iso_year: 1900,
        iso_week: 1,
        nanos: -25_567 * NANOS_PER_DAY,
    };

    // 1 January -999999, a Monday, 365,961,662 days before.
    const FIRST: Counted = Counted {
        year: -999_999,
        iso_year: -999_999,
        nanos: -365_961_662 * NANOS_PER_DAY,
        ..Counted::IN_1900
    };

    // 1 January -200, a Wednesday, 792,576 days before.
    const BEFORE_0: Counted = Counted {
        year: -200,
        weekday: 2,
        monday_week: 0,
        iso_year: -200,
        nanos: -792_576 * NANOS_PER_DAY,
        ..Counted::IN_1900
    };

    // 1 January 999600, a Saturday, 364,376,875 days after.
    const IN_999600: Counted = Counted {
        year: 999_600,
        weekday: 5,
        monday_week: 0,
        iso_year: 999_599,
        iso_week: 52,
        nanos: 364_376_875 * NANOS_PER_DAY,
        ..Counted::IN_1900
    };

    fn days_in_month(&self) -> u8 {
        match self.month {
            4 | 6 | 9 | 11 => 30,
            2 => {
                let leap = self.year.rem_euclid(4) == 0
                    && (self.year.rem_euclid(100) != 0 || self.year.rem_euclid(400) == 0);
                if leap { 29 } else { 28 }
            }
            _ => 31,
        }
    }

    // Counts one day further.
    fn step(&mut self) {
        self.weekday = self.weekday.wrapping_add(1) % 7;
        self.nanos = self.nanos.wrapping_add(NANOS_PER_DAY);
        self.ordinal = self.ordinal.wrapping_add(1);
        if self.day < self.days_in_month() {
            self.day = self.day.wrapping_add(1);
        } else if self.month < 12 {
            self.day = 1;
            self.month = self.month.wrapping_add(1);
        } else {
            self.start_year();
        }
        self.count_weeks();
    }

    fn start_year(&mut self) {
        self.year = self.year.wrapping_add(1);
        self.month = 1;
        self.day = 1;
        self.ordinal = 1;
        self.sunday_week = 0;
        self.monday_week = 0;
    }

    fn count_weeks(&mut self) {
        if self.weekday == 6 {
            self.sunday_week = self.sunday_week.wrapping_add(1);
        }
        if self.weekday == 0 {
            self.monday_week = self.monday_week.wrapping_add(1);
            // A Thursday in the last week of December can be in the next year's week 1 if its week starts on one of the
            // last three days.
            let next = self.month == 12 && self.day >= 29;
            let year = if next {
                self.year.wrapping_add(1)
            } else {
                self.year
            };
            self.iso_week = if year == self.iso_year {
                self.iso_week.wrapping_add(1)
            } else {
                1
            };
            self.iso_year = year;
        }
    }
}

// Whether the getters agree with the count.
fn has_its_numbers(date: Date, counted: &Counted) -> bool {
    date.ordinal() == counted.ordinal
        && date.weekday().number_days_from_monday() == counted.weekday
        && date.sunday_based_week() == counted.sunday_week
        && date.monday_based_week() == counted.monday_week
        && date.iso_week() == counted.iso_week
}

// Whether the constructors build the date from its numbers.
fn is_made_of_its_numbers(date: Date, counted: &Counted) -> bool {
    let weekday = date.weekday();
    date.to_iso_week_date() == (counted.iso_year, counted.iso_week, weekday)
        && Date::from_ordinal_date(counted.year, counted.ordinal) == Ok(date)
        && Date::from_iso_week_date(counted.iso_year, counted.iso_week, weekday) == Ok(date)
}

// Whether midnight at the date's start is this many nanoseconds after 1970-01-01.
fn begins_at(date: Date, nanos: i128) -> bool {
    match Time::from_hms_nano(0, 0, 0, 0) {
        Ok(midnight) => {
            let midnight = UtcDateTime::new(date, midnight);
            midnight.unix_timestamp_nanos() == nanos
                && UtcDateTime::from_unix_timestamp_nanos(nanos) == Ok(midnight)
        }
        Err(_) => false,
    }
}

// The date of the count's year, month and day.
fn date_of(counted: &Counted) -> Option<Date> {
    let month = Month::from_number(NonZero::<u8>::new(counted.month)?).ok()?;
    Date::from_calendar_date(counted.year, month, counted.day).ok()
}

// Whether the count's date agrees with it.
fn agrees(counted: &Counted) -> bool {
    match date_of(counted) {
        Some(date) => {
            has_its_numbers(date, counted)
                && is_made_of_its_numbers(date, counted)
                && begins_at(date, counted.nanos)
        }
        None => false,
    }
}

// The day after this many days, or the first one whose date disagrees with the count.
fn count(start: Counted, days: u32) -> Counted {
    let mut counted = start;
    for _ in 0..days {
        if !agrees(&counted) {
            return counted;
        }
        counted.step();
    }
    counted
}

// The first day of a count, its number of days, and the year and the weekday that follow the last of them.
static COUNTS: [(Counted, u32, i32, u8); 4] = [
    (Counted::IN_1900, 146_097, 2300, 0),
    (Counted::FIRST, 146_097, -999_599, 0),
    (Counted::BEFORE_0, 146_462, 201, 3),
    (Counted::IN_999600, 146_097, 1_000_000, 5),
];

#[test]
fn days_of_400_years(rt: HostRuntime) {
    for (start, days, year, weekday) in &COUNTS {
        let end = count(*start, *days);
        assert!(rt; (end.year, end.month, end.day, end.weekday) == (*year, 1, 1, *weekday));
    }
}
