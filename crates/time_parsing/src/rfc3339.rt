//! The format of RFC 3339, section 5.6, and the canonical text of a moment.
ghost use Rattle.std.specs.Prelude.{◌≡◌, ◌<◌, ◌≤◌, Some, pos, neg_ℤ};
ghost use Rattle.std.specs.Option.{ForSome};
ghost use Rattle.std.specs.Int.{IsInRange};
ghost use Rattle.time_values.specs.Names.{month_number};
ghost use Rattle.time_values.specs.Calendar.{greatest_year, IsBetween};
ghost use Rattle.time_values.specs.declared.month.Month.{Month as Month_};
ghost use Rattle.time_record.specs.Record.{put_all};
ghost use Rattle.time_readers.specs.Direct.{RefusesRfc3339};
ghost use Rattle.time_parsing.specs.Outcome.{direct};
ghost use Rattle.time_parsing.specs.Rfc3339.{date_entries, time_entries, offset_entries, without_offset_sign};
ghost use Rattle.time_values.specs.Dates as Dates;
ghost use Rattle.time_values.specs.Moments.{offset_date, offset_of};
ghost use Rattle.time_values.specs.Offsets as Offsets;
ghost use Rattle.time_formatting.specs.WellKnown.{date_text, clock_text, offset_sign, numeric_text};
ghost use Rattle.time_parsing.specs.Written.{canonical_text};

use crate::Parsable;
use crate::parsable::moment_before;
use std::num::NonZero;
use time_readers::direct;
use time_readers::rfc3339::{Numbers, place_fault, read};
use time_record::Parsed;
use time_values::digits::{four, nine, pair};
use time_values::error::Parse;
use time_values::sign::signed;
use time_values::{Date, Month, OffsetDateTime, Time, UtcOffset};

/// The format of RFC 3339, as `1985-04-12T23:20:50.52Z`.
///
/// A text needs the date, the time and the offset, whatever value it is parsed as. One byte of any value must separate
/// date and time, and `Z` may be lowercase. The year has four digits. Month, day, hour, minute and second have two, and
/// so have the hour and the minute of a numeric offset, which is -23:59 to +23:59. The fraction of the second, a point
/// and one or more digits, may be missing, and its digits after the ninth are dropped. A missing fraction and the
/// second of a numeric offset are those of the defaults, or else 0.
///
/// A second of 60 is a leap second. As `OffsetDateTime`, `UtcDateTime` or `Timestamp` it is the last nanosecond before,
/// which must end a month in UTC. [`Parsable::parse_time`] and [`Parsable::parse_plain_date_time`] reject it.
///
/// [`Parsable::parse_into`] returns the error of [`place_fault`] for the first of the fifteen places that doesn't match
/// or whose number is out of its range. But [`Parsable::parse_offset_date_time`] without defaults is
/// [`direct::rfc3339`]. It first checks the places, with no ranges but month not 00 and offset hour up to 23. Then it
/// rejects an offset's minute above 59, as `minutes`, then bytes that remain, then the first of `month`, `day`, `hour`,
/// `minute` and `second` that is out of range, and a leap second that isn't the last second of a month in UTC.
#[derive(Clone, Copy, Debug, PartialEq, Eq)]
pub struct Rfc3339;

// Stores year, month and day in the record.
#[inline(always)]
fn put_date(numbers: Numbers, parsed: &mut Parsed)
    requires year { numbers.year ≤ greatest_year }
    requires month { IsInRange 1 12 numbers.month }
    requires day { IsInRange 1 31 numbers.day }
    ensures { (m : Month_) × (month_number m ≡ numbers.month)
        × (put_all greatest_year (date_entries numbers m) parsed.old ≡ Some parsed.new) }
{
    let month = Month::at(numbers.month);
    let Some(day) = NonZero::<u8>::new(numbers.day) else {
        unreachable!()
    };
    put!(parsed.set_year(i32::from(numbers.year)));
    put!(parsed.set_month(month));
    put!(parsed.set_day(day));
}

// Stores hour, minute and second in the record, and the fraction of the second if the text has one. Otherwise the
// record's fraction is unchanged.
#[inline(always)]
fn put_time(numbers: Numbers, parsed: &mut Parsed)
    requires hour { numbers.hour ≤ 23 }
    requires minute { numbers.minute ≤ 59 }
    requires second { numbers.second ≤ 60 }
    requires subsecond { ForSome numbers.subsecond (λ v. v < 1_000_000_000) }
    ensures { put_all greatest_year (time_entries numbers) parsed.old ≡ Some parsed.new }
{
    put!(parsed.set_hour_24(numbers.hour));
    put!(parsed.set_minute(numbers.minute));
    put!(parsed.set_second(numbers.second));
    if let Some(subsecond) = numbers.subsecond {
        put!(parsed.set_subsecond(subsecond));
    }
}

// Stores the hour and the minute of the offset in the record, both with the offset's sign. For `Z` these are 0, and the
// offset's second is set to 0, too; a numeric offset leaves it unchanged. Clears the flag of a negative offset, which
// only a description's offset hour sets.
#[inline(always)]
fn put_offset(numbers: Numbers, parsed: &mut Parsed)
    requires hour { numbers.offset_hour ≤ 23 }
    requires minute { numbers.offset_minute ≤ 59 }
    ensures { put_all greatest_year (offset_entries numbers) (without_offset_sign parsed.old) ≡ Some parsed.new }
{
    let is_negative = numbers.offset_is_negative;
    parsed.forget_offset_sign();
    put!(parsed.set_offset_hour(signed(is_negative, numbers.offset_hour)));
    put!(parsed.set_offset_minute_signed(signed(is_negative, numbers.offset_minute)));
    if numbers.is_utc {
        put!(parsed.set_offset_second_signed(0));
    }
}

impl Parsable for Rfc3339 {
    ghost use Rattle.time_parsing.specs.Rfc3339.{Reads, Refuses};

    ghost reads = { λ _. Reads greatest_year };

    ghost refuses = { λ _. Refuses greatest_year };

    ghost path = { λ _. direct (RefusesRfc3339 greatest_year) };

    #[inline(always)]
    fn parse_into<'a>(&self, input: &'a [u8], parsed: &mut Parsed) -> Result<&'a [u8], Parse> {
        match read::<true>(input) {
            Ok(found) => {
                put_date(found.1, parsed);
                put_time(found.1, parsed);
                put_offset(found.1, parsed);
                parsed.allow_leap_second();
                Ok(found.0)
            }
            Err(place) => Err(place_fault(place).into()),
        }
    }

    #[inline(always)]
    fn parse_offset_date_time(
        &self,
        input: &[u8],
        defaults: Option<Parsed>,
    ) -> Result<OffsetDateTime, Parse> {
        match defaults {
            None => direct::rfc3339(input),
            Some(defaults) => {
                let mut parsed = defaults;
                let rest = self.parse_into(input, &mut parsed)?;
                moment_before(rest, &parsed)
            }
        }
    }

    ghost use Rattle.time_parsing.specs.exact.Laws.{rfc3339_exact};

    ghost exact = { λ _. rfc3339_exact greatest_year };

    ghost use Rattle.time_parsing.specs.exact.Laws.{rfc3339_exact_path};

    ghost exact_path = { λ _. rfc3339_exact_path };
}

// The text of a date whose year is 0 to 9999: `YYYY-MM-DD`, with leading zeros.
fn date_of(date: &Date) -> [u8; 10]
    requires { IsBetween (pos 0) (pos 9999) (Dates.year date.now) }
    ensures { result ≡ date_text date.now }
{
    let [y1, y2, y3, y4] = four(date.year().unsigned_abs());
    let [m1, m2] = pair(date.month().number());
    let [d1, d2] = pair(date.day());
    [y1, y2, y3, y4, b'-', m1, m2, b'-', d1, d2]
}

// The text of a time, with leading zeros and without its fraction: `HH:MM:SS`.
fn clock_of(time: &Time) -> [u8; 8]
    ensures { result ≡ clock_text time.now }
{
    let [h1, h2] = pair(time.hour());
    let [m1, m2] = pair(time.minute());
    let [s1, s2] = pair(time.second());
    [h1, h2, b':', m1, m2, b':', s1, s2]
}

// The ASCII sign of an offset: `-` if its hours or its minutes are negative, and else `+`. Its seconds don't count.
fn sign_of(offset: UtcOffset) -> u8
    ensures { result ≡ offset_sign offset }
{
    let (hours, minutes, _) = offset.as_hms();
    if hours < 0 || minutes < 0 { b'-' } else { b'+' }
}

// The text of an offset, with the sign of `sign_of` and without its seconds: `+HH:MM` or `-HH:MM`.
#[tactic(auto, using(time_values::proofs::NumberLemmas::two))]
fn offset_with_colon(offset: UtcOffset) -> [u8; 6]
    ensures { result ≡ numeric_text offset }
{
    let (hours, minutes, _) = offset.as_hms();
    let [h1, h2] = pair(hours.unsigned_abs());
    let [m1, m2] = pair(minutes.unsigned_abs());
    [sign_of(offset), h1, h2, b':', m1, m2]
}

/// The canonical text of a moment by RFC 3339, section 5.6: `2021-01-02T03:04:05.500000000-00:30`, always with nine
/// digits of a fraction, and with `+00:00` in UTC. Its date and time are local, at the moment's offset.
///
/// The caller must ensure that the local year is 0 to 9999, and that the offset is whole minutes, -23:59 to +23:59.
/// [`time_formatting::text_3339`] returns an error instead.
pub fn text_3339(value: OffsetDateTime) -> [u8; 35]
    requires year { IsBetween (pos 0) (pos 9999) (Dates.year (offset_date value)) }
    requires hours { IsBetween (neg_ℤ (pos 23)) (pos 23) (Offsets.hours (offset_of value)) }
    requires whole_minutes { Offsets.seconds (offset_of value) ≡ pos 0 }
    ensures { result ≡ canonical_text value }
{
    let [y1, y2, y3, y4, y5, m1, m2, m3, d1, d2] = date_of(&value.date());
    let [h1, h2, h3, t1, t2, t3, s1, s2] = clock_of(&value.time());
    let [n1, n2, n3, n4, n5, n6, n7, n8, n9] = nine(value.time().nanosecond());
    let [o1, o2, o3, o4, o5, o6] = offset_with_colon(value.offset());
    [
        y1, y2, y3, y4, y5, m1, m2, m3, d1, d2, b'T', h1, h2, h3, t1, t2, t3, s1, s2, b'.', n1, n2,
        n3, n4, n5, n6, n7, n8, n9, o1, o2, o3, o4, o5, o6,
    ]
}
