ghost use Rattle.std.specs.Prelude.{◌≡◌, ◌==◌, ◌≤◌, ◌+◌, pos, neg_ℤ, ◌-ℤ◌};
ghost use Rattle.std.proofs.Common.{rules};
ghost use Rattle.std.specs.Cmp.Rules.{comparing};
ghost use Rattle.std.specs.Ordering.{on};
ghost use Rattle.time_values.specs.Calendar as Calendar;
ghost use Rattle.time_values.specs.March.{march_days, march_year};
ghost use Rattle.time_values.specs.Names.{month_number, month_refusal};
ghost use Rattle.time_values.specs.Refusal.{Constructs};

use crate::days::is_leap_year;
use crate::error::ComponentRange;
use std::num::NonZero;

// The days of `days_from_march` for each month from January on, and then what `march_years` returns: in one table, so
// that its address is loaded once. 365998494 is subtracted from the days, so that `days_since_1970` is 0 on 1970-01-01.
static MARCH: [i64; 24] = [
    -365_998_188,
    -365_998_157,
    -365_998_494,
    -365_998_463,
    -365_998_433,
    -365_998_402,
    -365_998_372,
    -365_998_341,
    -365_998_310,
    -365_998_280,
    -365_998_249,
    -365_998_219,
    1_000_099,
    1_000_099,
    1_000_100,
    1_000_100,
    1_000_100,
    1_000_100,
    1_000_100,
    1_000_100,
    1_000_100,
    1_000_100,
    1_000_100,
    1_000_100,
];

/// A month of the year.
#[derive(Clone, Copy, Debug)]
pub enum Month {
    January = 1,
    February,
    March,
    April,
    May,
    June,
    July,
    August,
    September,
    October,
    November,
    December,
}

impl Month {
    /// The month of that number, 1 for January to 12 for December. An error names `month` for a greater number.
    pub fn from_number(number: NonZero<u8>) -> Result<Month, ComponentRange>
        ensures { Constructs (month_refusal number.value) (λ m. month_number m ≡ number.value) result }
    {
        match number.get() {
            number @ 1..=12 => Ok(Month::at(number)),
            _ => Err(ComponentRange {
                name: "month",
                conditional: false,
            }),
        }
    }

    /// The month of a number that must be valid: 1 for January to 12 for December.
    #[inline]
    pub fn at(number: u8) -> Month
        requires low { 1 ≤ number }
        requires high { number ≤ 12 }
        ensures { month_number result ≡ number }
    {
        match number {
            1 => Month::January,
            2 => Month::February,
            3 => Month::March,
            4 => Month::April,
            5 => Month::May,
            6 => Month::June,
            7 => Month::July,
            8 => Month::August,
            9 => Month::September,
            10 => Month::October,
            11 => Month::November,
            12 => Month::December,
            _ => unreachable!(),
        }
    }

    /// The number of the month, 1 for January to 12 for December.
    #[inline]
    pub fn number(self) -> u8
        ensures value { result ≡ month_number self }
        ensures low { 1 ≤ result }
        ensures high { result ≤ 12 }
    {
        self as u8
    }

    // The days from a 1 March to the next first of this month (0 for March), less 365998494.
    #[inline(always)]
    #[tactic(auto, using(crate::proofs::NumberLemmas::march_days_at, crate::proofs::NumberLemmas::march_days_in))]
    pub(crate) fn days_from_march(self) -> i64
        ensures value { result ≡ pos (march_days (month_number self)) -ℤ pos 365_998_494 }
        ensures bound { Calendar.IsBetween (neg_ℤ (pos 365_998_494)) (pos 0) result }
    {
        MARCH[(self.number() - 1) as usize]
    }

    // What `Date::march_years` adds to the year of a day in this month: 1000099, or 1000100 from March on.
    #[inline(always)]
    #[tactic(auto, using(crate::proofs::NumberLemmas::march_years_at))]
    pub(crate) fn march_years(self) -> i64
        ensures value { result ≡ pos (1_000_099 + march_year (month_number self)) }
        ensures bound { Calendar.IsBetween (pos 1_000_099) (pos 1_000_100) result }
    {
        MARCH[(self.number() - 1) as usize + 12]
    }

    /// The number of days that the month has in that year, 28 to 31.
    pub fn length(self, year: i32) -> u8
        ensures { result ≡ Calendar.month_length year (month_number self) }
    {
        match self {
            Month::February => { if is_leap_year(year) { 29 } else { 28 } }
            Month::April | Month::June | Month::September | Month::November => 30,
            _ => 31,
        }
    }
}

impl PartialEq for Month {
    ghost eq = { on month_number ◌==◌ };

    ghost laws = { Prim.search (comparing, rules) };

    #[inline]
    fn eq(&self, other: &Month) -> bool {
        self.number() == other.number()
    }
}

impl Eq for Month {
    ghost laws = { Prim.search (comparing, rules) };
}

impl From<Month> for u8 {
    ghost from_gives = { λ m n. n ≡ month_number m };

    #[inline]
    fn from(month: Month) -> u8 {
        month as u8
    }
}
