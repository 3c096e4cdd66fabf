//! Sums over the texts, or the seconds or days, of four moments in turn.
//!
//! The day is an argument, and the moments are in an array, so that the compiler can't hoist a part of a text out of
//! the loop.

use time_formatting::{FractionDigits, Text, Unwritable, text_2822, text_3339};
use time_values::{Date, Month, OffsetDateTime, Time, UtcOffset};

// The moment on that day of March 2021, at 4 minutes, 5 seconds and these nanoseconds past the hour `day`, with an
// offset of these minutes. `None` if a number is out of range.
fn moment(day: u8, nanosecond: u32, minutes: i8) -> Option<OffsetDateTime> {
    let Ok(date) = Date::from_calendar_date(2021, Month::March, day) else {
        return None;
    };
    let Ok(time) = Time::from_hms_nano(day, 4, 5, nanosecond) else {
        return None;
    };
    let Ok(offset) = UtcOffset::from_hms(0, minutes, 0) else {
        return None;
    };
    Some(OffsetDateTime::new_in_offset(date, time, offset))
}

// Four moments as by `moment`, from `day` on: each is a day and an hour after the one before, or equal to it if that is
// on day 20 or later. `None` if a number is out of range.
fn moments(day: u8, nanosecond: u32, minutes: i8) -> Option<[OffsetDateTime; 4]> {
    let second = if day < 20 { day + 1 } else { day };
    let third = if second < 20 { second + 1 } else { second };
    let fourth = if third < 20 { third + 1 } else { third };
    Some([
        moment(day, nanosecond, minutes)?,
        moment(second, nanosecond, minutes)?,
        moment(third, nanosecond, minutes)?,
        moment(fourth, nanosecond, minutes)?,
    ])
}

// What a text adds to the sum: the value of its last byte, 0 for an empty text, or 1 for an error. It isn't inlined, so
// that the whole text is written.
#[inline(never)]
fn weight(text: Result<Text, Unwritable>) -> i64 {
    match text {
        Ok(text) => i64::from(text.as_bytes().last().copied().unwrap_or(0)),
        Err(_) => 1,
    }
}

// The sum of the weights of this many RFC 3339 texts with these digits of the fraction, of the moments in turn. It
// wraps.
#[inline(never)]
fn sum(times: u64, values: &[OffsetDateTime; 4], digits: FractionDigits) -> i64 {
    let mut sum = 0i64;
    for time in 0..times {
        let value = values[(time % 4) as usize];
        sum = sum.wrapping_add(weight(text_3339(value, digits)));
    }
    sum
}

// The sum of the weights of this many RFC 2822 texts, of the moments in turn. It wraps.
#[inline(never)]
fn mail_sum(times: u64, values: &[OffsetDateTime; 4]) -> i64 {
    let mut sum = 0i64;
    for time in 0..times {
        let value = values[(time % 4) as usize];
        sum = sum.wrapping_add(weight(text_2822(value)));
    }
    sum
}

// The sum of the whole seconds since 1970-01-01T00:00:00Z of this many moments in turn. It wraps.
#[inline(never)]
fn second_sum(times: u64, values: &[OffsetDateTime; 4]) -> i64 {
    let mut sum = 0i64;
    for time in 0..times {
        let value = values[(time % 4) as usize];
        sum = sum.wrapping_add(value.unix_timestamp());
    }
    sum
}

// The sum of the days of the month of this many moments in turn. It costs what the loop and the moments alone cost.
#[inline(never)]
fn day_sum(times: u64, values: &[OffsetDateTime; 4]) -> i64 {
    let mut sum = 0i64;
    for time in 0..times {
        let value = values[(time % 4) as usize];
        sum = sum.wrapping_add(i64::from(value.date().day()));
    }
    sum
}

// The sum for the case of this name, over `times` moments. `mail` writes RFC 2822, `none` adds days and `unix` seconds,
// and the others write RFC 3339 with various fractions and offsets. `None`: there is no such case, or `day` isn't from
// 1 to 23.
fn sum_by_name(name: &[u8], times: u64, day: u8) -> Option<i64> {
    match name {
        b"none" => Some(day_sum(times, &moments(day, 0, 0)?)),
        b"mail" => Some(mail_sum(times, &moments(day, 0, 59)?)),
        b"z" => Some(sum(times, &moments(day, 0, 0)?, FractionDigits::Auto)),
        b"auto" => Some(sum(times, &moments(day, 520_000_000, 0)?, FractionDigits::Auto)),
        b"nine" => Some(sum(
            times,
            &moments(day, 123_456_789, 59)?,
            FractionDigits::Exactly(9),
        )),
        b"micro" => Some(sum(
            times,
            &moments(day, 123_456_789, 59)?,
            FractionDigits::Exactly(6),
        )),
        b"behind" => Some(sum(
            times,
            &moments(day, 123_456_789, -59)?,
            FractionDigits::Exactly(0),
        )),
        b"unix" => Some(second_sum(times, &moments(day, 123_456_789, 59)?)),
        b"exact0" => Some(sum(
            times,
            &moments(day, 123_456_789, 59)?,
            FractionDigits::Exactly(0),
        )),
        _ => None,
    }
}

/// The wrapping sum over `times` moments: four, from `day` of March 2021 on, in turn (each a day and an hour after the
/// one before, or equal to it if that is on day 20 or later). It adds Unix seconds for `unix`, days of the month for
/// `none`, and else the last bytes of texts (1 for an error): of RFC 2822 for `mail`, of RFC 3339 for `z`, `auto`,
/// `nine`, `micro`, `behind` and `exact0`. `None`: no such case, `times` is no `u64`, or `day` isn't from 1 to 23.
pub fn sum_of(case: &str, times: &str, day: &str) -> Option<i64> {
    let times = times.parse::<u64>().ok()?;
    let day = day.parse::<u8>().ok()?;
    sum_by_name(case.as_bytes(), times, day)
}
