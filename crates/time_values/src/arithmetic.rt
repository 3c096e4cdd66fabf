//! Adds durations to days and moments, subtracts moments, and converts local times between offsets.
ghost use Rattle.std.specs.Prelude.{◌≡◌, ◌+◌, IfSome, IfNone, ◌+ℤ◌, ◌-ℤ◌, pos, neg_ℤ};
ghost use Rattle.time_values.specs.Calendar as Calendar;
ghost use Rattle.time_values.specs.Dates as Dates;
ghost use Rattle.time_values.specs.Moments.{length, nearest_instant, plain_instant, utc_instant, offset_clock, offset_of, offset_instant};
ghost use Rattle.time_values.specs.Instants.{IsInstant};
ghost use Rattle.time_values.specs.Calendar.{greatest_year, IsBetween};
ghost use Rattle.time_values.specs.MovedClocks.{moved_clock, other_clock};

use crate::days::DAY_LIMIT;
use crate::utc_date_time::{MAX_NANOS, MIN_NANOS, is_instant};
use crate::{Date, Duration, OffsetDateTime, PlainDateTime, Time, UtcDateTime, UtcOffset};
use std::ops::Sub;

impl Date {
    /// The next day, or `None` for `Date::MAX`, 999999-12-31.
    #[tactic(auto, using(crate::proofs::InstantLemmas::instant_facts))]
    pub fn next_day(self) -> Option<Date>
        ensures value { IfSome result (λ d. Dates.day_number greatest_year d ≡ Dates.day_number greatest_year self + 1) }
        ensures none { IfNone result (Dates.day_number greatest_year self + 1 ≡ Calendar.day_limit greatest_year) }
    {
        let day = self.day_number() + 1;
        if day == DAY_LIMIT {
            return None;
        }
        Some(Date::from_day_number(day))
    }

    /// The day before, or `None` for `Date::MIN`, -999999-01-01.
    #[tactic(auto, using(crate::proofs::InstantLemmas::instant_facts))]
    pub fn previous_day(self) -> Option<Date>
        ensures value { IfSome result (λ d. Dates.day_number greatest_year d + 1 ≡ Dates.day_number greatest_year self) }
        ensures none { IfNone result (Dates.day_number greatest_year self ≡ 0) }
    {
        let day = self.day_number();
        if day == 0 {
            return None;
        }
        Some(Date::from_day_number(day - 1))
    }
}

// The date and time in UTC `nanos` nanoseconds after 1970-01-01T00:00:00Z, or `None` if the year is beyond ±999999.
fn checked(nanos: i128) -> Option<UtcDateTime>
    ensures value { IfSome result (λ u. utc_instant greatest_year u ≡ nanos) }
    ensures none { IfNone result (¬ (IsInstant greatest_year nanos)) }
{
    if !is_instant(nanos) {
        return None;
    }
    Some(UtcDateTime::at_instant(nanos))
}

// The date and time in UTC `nanos` nanoseconds after 1970-01-01T00:00:00Z, or the nearest with a year within ±999999.
#[tactic(auto, using(crate::proofs::InstantLemmas::instant_facts))]
fn nearest(nanos: i128) -> UtcDateTime
    ensures { utc_instant greatest_year result ≡ nearest_instant greatest_year nanos }
{
    if nanos < MIN_NANOS {
        return UtcDateTime::at_instant(MIN_NANOS);
    }
    if nanos > MAX_NANOS {
        return UtcDateTime::at_instant(MAX_NANOS);
    }
    UtcDateTime::at_instant(nanos)
}

impl UtcDateTime {
    // The nanoseconds from 1970-01-01T00:00:00Z to the moment `duration` later, which may be out of range.
    fn nanos_after(self, duration: Duration) -> i128
        ensures { result ≡ utc_instant greatest_year self +ℤ length duration }
    {
        self.unix_timestamp_nanos() + duration.whole_nanoseconds()
    }

    // The nanoseconds from 1970-01-01T00:00:00Z to the moment `duration` earlier, which may be out of range.
    fn nanos_before(self, duration: Duration) -> i128
        ensures { result ≡ utc_instant greatest_year self -ℤ length duration }
    {
        self.unix_timestamp_nanos() - duration.whole_nanoseconds()
    }

    /// The moment `duration` later (earlier if negative), or `None` if its year in UTC is outside -999999 to 999999.
    pub fn checked_add(self, duration: Duration) -> Option<UtcDateTime>
        ensures value { IfSome result (λ u.
            utc_instant greatest_year u ≡ utc_instant greatest_year self +ℤ length duration) }
        ensures none { IfNone result (¬ (IsInstant greatest_year
            (utc_instant greatest_year self +ℤ length duration))) }
    {
        checked(self.nanos_after(duration))
    }

    /// The moment `duration` earlier (later if negative), or `None` if its year in UTC is outside -999999 to 999999.
    pub fn checked_sub(self, duration: Duration) -> Option<UtcDateTime>
        ensures value { IfSome result (λ u.
            utc_instant greatest_year u ≡ utc_instant greatest_year self -ℤ length duration) }
        ensures none { IfNone result (¬ (IsInstant greatest_year
            (utc_instant greatest_year self -ℤ length duration))) }
    {
        checked(self.nanos_before(duration))
    }

    /// The moment `duration` later (earlier if negative), or the nearest one in the years -999999 to 999999 in UTC.
    pub fn saturating_add(self, duration: Duration) -> UtcDateTime
        ensures { utc_instant greatest_year result
            ≡ nearest_instant greatest_year (utc_instant greatest_year self +ℤ length duration) }
    {
        nearest(self.nanos_after(duration))
    }

    /// The moment `duration` earlier (later if negative), or the nearest one in the years -999999 to 999999 in UTC.
    pub fn saturating_sub(self, duration: Duration) -> UtcDateTime
        ensures { utc_instant greatest_year result
            ≡ nearest_instant greatest_year (utc_instant greatest_year self -ℤ length duration) }
    {
        nearest(self.nanos_before(duration))
    }
}

impl PlainDateTime {
    /// The date and time `duration` later (earlier if negative), or `None` if the year is outside -999999 to 999999.
    pub fn checked_add(self, duration: Duration) -> Option<PlainDateTime>
        ensures value { IfSome result (λ p.
            plain_instant greatest_year p ≡ plain_instant greatest_year self +ℤ length duration) }
        ensures none { IfNone result (¬ (IsInstant greatest_year
            (plain_instant greatest_year self +ℤ length duration))) }
    {
        let clock = self.as_utc().checked_add(duration)?;
        Some(PlainDateTime::new(clock.date(), clock.time()))
    }

    /// The date and time `duration` earlier (later if negative), or `None` if the year is outside -999999 to 999999.
    pub fn checked_sub(self, duration: Duration) -> Option<PlainDateTime>
        ensures value { IfSome result (λ p.
            plain_instant greatest_year p ≡ plain_instant greatest_year self -ℤ length duration) }
        ensures none { IfNone result (¬ (IsInstant greatest_year
            (plain_instant greatest_year self -ℤ length duration))) }
    {
        let clock = self.as_utc().checked_sub(duration)?;
        Some(PlainDateTime::new(clock.date(), clock.time()))
    }

    /// The date and time `duration` later (earlier if negative), or the nearest one in the years -999999 to 999999.
    pub fn saturating_add(self, duration: Duration) -> PlainDateTime
        ensures { plain_instant greatest_year result
            ≡ nearest_instant greatest_year (plain_instant greatest_year self +ℤ length duration) }
    {
        let clock = self.as_utc().saturating_add(duration);
        PlainDateTime::new(clock.date(), clock.time())
    }

    /// The date and time `duration` earlier (later if negative), or the nearest one in the years -999999 to 999999.
    pub fn saturating_sub(self, duration: Duration) -> PlainDateTime
        ensures { plain_instant greatest_year result
            ≡ nearest_instant greatest_year (plain_instant greatest_year self -ℤ length duration) }
    {
        let clock = self.as_utc().saturating_sub(duration);
        PlainDateTime::new(clock.date(), clock.time())
    }
}

impl OffsetDateTime {
    /// The moment `duration` later (earlier if negative) at this offset. `None` if its local year is beyond ±999999.
    pub fn checked_add(self, duration: Duration) -> Option<OffsetDateTime>
        ensures value { IfSome result (λ v.
            offset_clock greatest_year v ≡ offset_clock greatest_year self +ℤ length duration) }
        ensures offset { IfSome result (λ v. offset_of v ≡ offset_of self) }
        ensures none { IfNone result (¬ (IsInstant greatest_year
            (offset_clock greatest_year self +ℤ length duration))) }
    {
        let clock = UtcDateTime::new(self.date(), self.time()).checked_add(duration)?;
        Some(OffsetDateTime::new_in_offset(clock.date(), clock.time(), self.offset()))
    }

    /// The moment `duration` earlier (later if negative) at this offset. `None` if its local year is beyond ±999999.
    pub fn checked_sub(self, duration: Duration) -> Option<OffsetDateTime>
        ensures value { IfSome result (λ v.
            offset_clock greatest_year v ≡ offset_clock greatest_year self -ℤ length duration) }
        ensures offset { IfSome result (λ v. offset_of v ≡ offset_of self) }
        ensures none { IfNone result (¬ (IsInstant greatest_year
            (offset_clock greatest_year self -ℤ length duration))) }
    {
        let clock = UtcDateTime::new(self.date(), self.time()).checked_sub(duration)?;
        Some(OffsetDateTime::new_in_offset(clock.date(), clock.time(), self.offset()))
    }

    /// The moment `duration` later (earlier if negative) at this offset, or the nearest in local years up to ±999999.
    pub fn saturating_add(self, duration: Duration) -> OffsetDateTime
        ensures value { offset_clock greatest_year result
            ≡ nearest_instant greatest_year (offset_clock greatest_year self +ℤ length duration) }
        ensures offset { offset_of result ≡ offset_of self }
    {
        let clock = UtcDateTime::new(self.date(), self.time()).saturating_add(duration);
        OffsetDateTime::new_in_offset(clock.date(), clock.time(), self.offset())
    }

    /// The moment `duration` earlier (later if negative) at this offset, or the nearest in local years up to ±999999.
    pub fn saturating_sub(self, duration: Duration) -> OffsetDateTime
        ensures value { offset_clock greatest_year result
            ≡ nearest_instant greatest_year (offset_clock greatest_year self -ℤ length duration) }
        ensures offset { offset_of result ≡ offset_of self }
    {
        let clock = UtcDateTime::new(self.date(), self.time()).saturating_sub(duration);
        OffsetDateTime::new_in_offset(clock.date(), clock.time(), self.offset())
    }
}

/// The time between the instants of two moments: negative if the first moment is the earlier one.
impl Sub<UtcDateTime> for UtcDateTime {
    type Output = Duration;

    ghost sub_gives = { λ a b d. length d ≡ utc_instant greatest_year a -ℤ utc_instant greatest_year b };

    fn sub(self, rhs: UtcDateTime) -> Duration {
        Duration::between(self.unix_timestamp_nanos(), rhs.unix_timestamp_nanos())
    }
}

/// The time between two local dates and times at one offset: negative if the first is the earlier one.
impl Sub<PlainDateTime> for PlainDateTime {
    type Output = Duration;

    ghost sub_gives = { λ a b d. length d ≡ plain_instant greatest_year a -ℤ plain_instant greatest_year b };

    fn sub(self, rhs: PlainDateTime) -> Duration {
        self.as_utc() - rhs.as_utc()
    }
}

/// The time between the instants of two moments, whatever their offsets: negative if the first is the earlier one.
impl Sub<OffsetDateTime> for OffsetDateTime {
    type Output = Duration;

    ghost sub_gives = { λ a b d. length d ≡ offset_instant greatest_year a -ℤ offset_instant greatest_year b };

    fn sub(self, rhs: OffsetDateTime) -> Duration {
        Duration::between(self.unix_timestamp_nanos(), rhs.unix_timestamp_nanos())
    }
}

// The local time at offset `to` of a date and time at `from`, as a `UtcDateTime`. `None` if its year is beyond ±999999.
pub(crate) fn clock_with(
    date: Date,
    time: Time,
    from: UtcOffset,
    to: UtcOffset,
) -> Option<UtcDateTime>
    ensures value { IfSome result (λ u. utc_instant greatest_year u ≡ other_clock date time from to) }
    ensures none { IfNone result (¬ (IsInstant greatest_year (other_clock date time from to))) }
{
    moved(date, time, to.whole_seconds() - from.whole_seconds())
}

// The date and time `seconds` later, or earlier if negative, or `None` if its year is outside -999999 to 999999.
// `seconds` must be less than three days: -259199 to 259199.
#[tactic(auto, using(crate::proofs::InstantLemmas::instant_facts))]
fn moved(date: Date, time: Time, seconds: i32) -> Option<UtcDateTime>
    requires { IsBetween (neg_ℤ (pos 259_199)) (pos 259_199) seconds }
    ensures value { IfSome result (λ u. utc_instant greatest_year u ≡ moved_clock date time seconds) }
    ensures none { IfNone result (¬ (IsInstant greatest_year (moved_clock date time seconds))) }
{
    let seconds = time.seconds_of_day() as i32 + seconds + 259_200;
    let days = seconds as u32 / 86_400;
    let time = time.at_second_of_day(seconds as u32 % 86_400);
    let day = date.day_number() + days;
    if day < 3 || day >= DAY_LIMIT + 3 {
        return None;
    }
    Some(UtcDateTime::new(Date::from_day_number(day - 3), time))
}
