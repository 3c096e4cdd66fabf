//! Moments and times of the system's clock.
use crate::numbers::{Clock, Day, moment};
use std::convert::TryFrom;
use std::time::{Duration, SystemTime, UNIX_EPOCH};
use time_values::error::ComponentRange;
use time_values::{Month, OffsetDateTime, UtcDateTime};

// 2000-02-29 is 10957 + 59 days after 1970-01-01: 30 years with 7 leap days, and 31 + 28 days.
const SECONDS: u64 = (10_957 + 59) * 86_400 + 12 * 3600 + 34 * 60 + 56;

// The error of a moment that the other type can't represent.
const OUT: ComponentRange = ComponentRange {
    name: "timestamp",
    conditional: false,
};

// Whether the moment is that time of the system's clock, with its offset and in UTC.
fn is_on_the_clock(value: OffsetDateTime, time: SystemTime) -> bool {
    match value.checked_to_utc() {
        Some(utc) => {
            SystemTime::try_from(value) == Ok(time)
                && SystemTime::try_from(utc) == Ok(time)
                && UtcDateTime::try_from(time) == Ok(utc)
                && OffsetDateTime::try_from(time) == Ok(OffsetDateTime::from(utc))
        }
        None => false,
    }
}

// The numbers of a moment, the hours of its offset, and the seconds from 1970-01-01 in UTC to it.
static MOMENTS: [(Day, Clock, i8, u64); 3] = [
    ((1970, Month::January, 1), (0, 0, 0, 0), 0, 0),
    ((2000, Month::February, 29), (12, 34, 56, 789), 0, SECONDS),
    (
        (2000, Month::February, 29),
        (12, 34, 56, 789),
        -1,
        SECONDS + 3600,
    ),
];

// Whether the moment of these numbers is this many seconds after 1970-01-01 on the system's clock.
fn is_after(day: Day, clock: Clock, hours: i8, seconds: u64) -> Option<bool> {
    let time = UNIX_EPOCH
        .checked_add(Duration::from_secs(seconds))?
        .checked_add(Duration::from_nanos(u64::from(clock.3)))?;
    let value = moment((day, clock, (hours, 0, 0))).ok()?;
    Some(is_on_the_clock(value, time))
}

#[test]
fn moments_both_ways(rt: HostRuntime) {
    for (day, clock, hours, seconds) in &MOMENTS {
        assert!(rt; is_after(*day, *clock, *hours, *seconds) == Some(true));
    }
}

// Whether the nanosecond before 1970-01-01 is out of the clock's range.
fn starts_at_the_epoch() -> bool {
    match UtcDateTime::from_unix_timestamp_nanos(-1) {
        Ok(before) => {
            SystemTime::try_from(before) == Err(OUT)
                && SystemTime::try_from(OffsetDateTime::from(before)) == Err(OUT)
        }
        Err(_) => false,
    }
}

// Whether the clock's second after 999999-12-31T23:59:59 is out of the range of moments.
fn rejects_time_past_last_moment() -> bool {
    match UNIX_EPOCH.checked_add(Duration::new(31_494_784_780_800, 0)) {
        Some(past) => {
            UtcDateTime::try_from(past) == Err(OUT) && OffsetDateTime::try_from(past) == Err(OUT)
        }
        None => false,
    }
}

#[test]
fn the_ends(rt: HostRuntime) {
    assert!(rt; starts_at_the_epoch());
    assert!(rt; rejects_time_past_last_moment());
}
