//! The order of values, and moments at one instant.
use crate::numbers::{FIRST, IN_1937, IN_1985, IN_1996, IN_1996_AT_ZERO, LAST, Numbers, moment};
use std::cmp::Ordering;
use time_values::error::ComponentRange;
use time_values::{Date, Month, PlainDateTime, Time, Timestamp, UtcDateTime, UtcOffset};

// Whether the days around the start of the year 0, times, and moments of these are in order.
fn dates_and_times_rise() -> Result<bool, ComponentRange> {
    let early = Date::from_calendar_date(-1, Month::December, 31)?;
    let late = Date::from_calendar_date(0, Month::January, 1)?;
    let before = Time::from_hms_nano(11, 59, 59, 999_999_999)?;
    let noon = Time::from_hms_nano(12, 0, 0, 0)?;
    Ok(
        Date::MIN < early
            && early < late
            && late < Date::MAX
            && before < noon
            && PlainDateTime::new(early, noon) < PlainDateTime::new(late, before)
            && UtcDateTime::new(late, before) < UtcDateTime::new(late, noon),
    )
}

fn offsets_and_timestamps_rise() -> Result<bool, ComponentRange> {
    let west = UtcOffset::from_hms(-1, 0, 0)?;
    let east = UtcOffset::from_hms(0, 30, 0)?;
    let farther = UtcOffset::from_hms(0, 31, 0)?;
    let timestamp = Timestamp::from_nanoseconds(-2)?;
    let later = Timestamp::from_nanoseconds(1)?;
    Ok(
        west < UtcOffset::UTC
            && east < farther
            && timestamp < later
            && Month::January < Month::February,
    )
}

#[test]
fn values_from_the_least(rt: HostRuntime) {
    assert!(rt; dates_and_times_rise() == Ok(true));
    assert!(rt; offsets_and_timestamps_rise() == Ok(true));
}

// Different moments, and the order of their instants: 16:39:57 at -08:00 is 00:39:57 of the next day in UTC (RFC 3339,
// section 5.8).
static ORDERS: [(Numbers, Numbers, Ordering); 4] = [
    (IN_1937, IN_1985, Ordering::Less),
    (IN_1985, IN_1996_AT_ZERO, Ordering::Less),
    (IN_1996, IN_1996_AT_ZERO, Ordering::Equal),
    (LAST, FIRST, Ordering::Greater),
];

// Whether the moments differ, and are equal instants only if their order is `Equal`.
fn differ(numbers: Numbers, others: Numbers, order: Ordering) -> Result<bool, ComponentRange> {
    let (value, other) = (moment(numbers)?, moment(others)?);
    Ok(
        value != other
            && value.cmp_instant(other) == order
            && value.is_same_instant(other) == (order == Ordering::Equal),
    )
}

#[test]
fn moments_by_their_instants(rt: HostRuntime) {
    for (numbers, others, order) in &ORDERS {
        assert!(rt; differ(*numbers, *others, *order) == Ok(true));
    }
}
