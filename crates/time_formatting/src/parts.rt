//! Dates, times, fractions and offsets in the forms of texts, and errors of moments without a text.
ghost use Rattle.std.specs.Prelude.{◌≡◌, ◌<◌, [], ◌∷◌, ◌++◌, codes, pos, neg_ℤ, unsigned_abs, ◌≤◌, Some};
ghost use Rattle.time_values.specs.Calendar.{IsBetween};
ghost use Rattle.time_values.specs.Dates as Dates;
ghost use Rattle.time_values.specs.DisplayTexts.{fixed};
ghost use Rattle.time_formatting.specs.WellKnown as Texts;
ghost use Rattle.time_formatting.specs.WellKnown.{count_of, unwritable_text};

use std::fmt;
use time_values::digits::{count_significant, four, pair};
use time_values::{Date, Month, Time, UtcOffset, Weekday};

// The text `YYYY-MM-DD` of a date whose year is 0 to 9999.
#[inline(always)]
pub(crate) fn date(date: &Date) -> [u8; 10]
    requires { IsBetween (pos 0) (pos 9999) (Dates.year date.now) }
    ensures { result ≡ Texts.date_text date.now }
{
    let [y1, y2, y3, y4] = four(date.year().unsigned_abs());
    let [m1, m2] = pair(date.month().number());
    let [d1, d2] = pair(date.day());
    [y1, y2, y3, y4, b'-', m1, m2, b'-', d1, d2]
}

// The byte `mark` and a time as `HH:MM:SS`, without its fraction. The array has `mark` too, since LLVM would join the
// eight bytes alone to one number before it stores them.
#[inline(always)]
pub(crate) fn clock(mark: u8, time: &Time) -> [u8; 9]
    ensures { result ≡ (mark ∷ []) ++ Texts.clock_text time.now }
{
    let [h1, h2] = pair(time.hour());
    let [m1, m2] = pair(time.minute());
    let [s1, s2] = pair(time.second());
    [mark, h1, h2, b':', m1, m2, b':', s1, s2]
}

// `-` if the hours or the minutes of the offset are below 0, and otherwise `+`.
#[inline]
pub(crate) fn sign_of(offset: UtcOffset) -> u8
    ensures { result ≡ Texts.offset_sign offset }
{
    let (hours, minutes, _) = offset.as_hms();
    if hours < 0 || minutes < 0 { b'-' } else { b'+' }
}

// Whether the hours and the minutes of the offset are 0. Its seconds may be anything.
#[inline]
pub(crate) fn is_none(offset: UtcOffset) -> bool
    ensures { result ≡ Texts.is_none offset }
{
    let (hours, minutes, _) = offset.as_hms();
    hours == 0 && minutes == 0
}

// The magnitude of hours or minutes from -59 to 0, by negation: `unsigned_abs` would test their sign.
#[inline(always)]
pub(crate) fn magnitude(part: i8) -> u8
    requires { IsBetween (neg_ℤ (pos 59)) (pos 0) part }
    ensures { result ≡ unsigned_abs part }
{
    (-part) as u8
}

// The byte `sign`, and the hours and the minutes as `HH:MM`, each in two digits.
#[inline(always)]
pub(crate) fn hours_and_minutes(sign: u8, hours: u8, minutes: u8) -> [u8; 6]
    requires hours { hours < 100 }
    requires minutes { minutes < 100 }
    ensures { result ≡ sign ∷ fixed 2 hours ++ codes ":" ++ fixed 2 minutes }
{
    let [h1, h2] = pair(hours);
    let [m1, m2] = pair(minutes);
    [sign, h1, h2, b':', m1, m2]
}

// The hours and minutes of an offset as `-HHMM` if either is below 0, and otherwise as `+HHMM`. Omits its seconds.
#[inline(always)]
#[tactic(auto, using(time_values::proofs::NumberLemmas::two))]
pub(crate) fn offset_without_colon(offset: UtcOffset) -> [u8; 5]
    ensures { result ≡ Texts.zone_text offset }
{
    let (hours, minutes, _) = offset.as_hms();
    let [h1, h2] = pair(hours.unsigned_abs());
    let [m1, m2] = pair(minutes.unsigned_abs());
    [sign_of(offset), h1, h2, m1, m2]
}

// The first three letters of a weekday's English name.
pub(crate) fn weekday_letters(weekday: Weekday) -> [u8; 3]
    ensures { result ≡ Texts.short_weekday weekday }
{
    match weekday {
        Weekday::Monday => *b"Mon",
        Weekday::Tuesday => *b"Tue",
        Weekday::Wednesday => *b"Wed",
        Weekday::Thursday => *b"Thu",
        Weekday::Friday => *b"Fri",
        Weekday::Saturday => *b"Sat",
        Weekday::Sunday => *b"Sun",
    }
}

// The first three letters of a month's English name.
pub(crate) fn month_letters(month: Month) -> [u8; 3]
    ensures { result ≡ Texts.short_month month }
{
    match month {
        Month::January => *b"Jan",
        Month::February => *b"Feb",
        Month::March => *b"Mar",
        Month::April => *b"Apr",
        Month::May => *b"May",
        Month::June => *b"Jun",
        Month::July => *b"Jul",
        Month::August => *b"Aug",
        Month::September => *b"Sep",
        Month::October => *b"Oct",
        Month::November => *b"Nov",
        Month::December => *b"Dec",
    }
}

/// The number of digits of a second's fraction: as few as needed, or a fixed number. If it is 0, the point is omitted.
#[derive(Clone, Copy, Debug, PartialEq, Eq)]
pub enum FractionDigits {
    /// Those of the nine digits up to the last that isn't 0, so none for a whole second.
    Auto,
    /// That many digits, or nine for a greater number. The fraction is truncated, not rounded.
    Exactly(u8),
}

impl FractionDigits {
    // How many digits `self` selects for a fraction of that many nanoseconds, 0 to 9. `Exactly` ignores the fraction.
    #[inline(always)]
    pub(crate) fn count(self, nanosecond: u32) -> usize
        ensures count { result ≡ count_of self nanosecond }
        ensures bound { result ≤ 9 }
    {
        match self {
            FractionDigits::Auto => count_significant(nanosecond),
            FractionDigits::Exactly(count) => usize::from(count).min(9),
        }
    }
}

/// Why a moment has no text by RFC 3339, RFC 2822 or ISO 8601: its year, its offset's hours or its offset's seconds.
#[derive(Clone, Copy, Debug, PartialEq, Eq)]
pub enum Unwritable {
    /// The year is outside 0 to 9999, or for RFC 2822 outside 1900 to 9999.
    Year,
    /// The hours of the offset are outside -23 to 23. `text_2822` never returns this error.
    OffsetHour,
    /// The seconds of the offset aren't 0.
    OffsetSecond,
}

impl fmt::Display for Unwritable {
    ghost output = { λ e. Some (unwritable_text e) };

    fn fmt<W: fmt::Write>(&self, f: &mut fmt::Formatter<W>) -> fmt::Result {
        let component = match self {
            Unwritable::Year => "year",
            Unwritable::OffsetHour => "offset_hour",
            Unwritable::OffsetSecond => "offset_second",
        };
        write!(
            f,
            "The {component} component cannot be formatted into the requested format."
        )
    }
}

impl std::error::Error for Unwritable {}
