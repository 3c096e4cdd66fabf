//! Moments: their timestamps, their ends, leap seconds, and nanoseconds that are replaced.
use crate::numbers::{Clock, Day, Offset, in_utc, moment};
use time_values::error::ComponentRange;
use time_values::{Date, Month, OffsetDateTime, Time, Timestamp, UtcDateTime};

const FIRST: i128 = -31_619_087_596_800_000_000_000;

const LAST: i128 = 31_494_784_780_799_999_999_999;

// Whether the moment in UTC after these nanoseconds has that date and time, and returns the nanoseconds.
fn is_utc_after(nanos: i128, date: Date, time: Time) -> bool {
    match UtcDateTime::from_unix_timestamp_nanos(nanos) {
        Ok(utc) => {
            utc == UtcDateTime::new(date, time)
                && utc.date() == date
                && utc.time() == time
                && utc.unix_timestamp_nanos() == nanos
        }
        Err(_) => false,
    }
}

// Whether the moment in UTC converts to the timestamp of these nanoseconds.
fn is_timestamp_after(nanos: i128, utc: UtcDateTime) -> bool {
    let stamp = Timestamp::from(utc);
    stamp.nanoseconds() == nanos && Timestamp::from_nanoseconds(nanos) == Ok(stamp)
}

// Whether the moment with the offset of UTC is the one after these nanoseconds, returns them, and converts to that in
// UTC.
fn is_moment_after(nanos: i128, moment: OffsetDateTime, utc: UtcDateTime) -> bool {
    OffsetDateTime::from_unix_timestamp_nanos(nanos) == Ok(moment)
        && moment.unix_timestamp_nanos() == nanos
        && moment.checked_to_utc() == Some(utc)
}

// Whether all three types agree on the moment after these nanoseconds.
fn is_after(nanos: i128, day: Day, clock: Clock) -> bool {
    match moment((day, clock, (0, 0, 0))) {
        Ok(moment) => {
            let utc = in_utc(moment);
            is_utc_after(nanos, moment.date(), moment.time())
                && is_timestamp_after(nanos, utc)
                && is_moment_after(nanos, moment, utc)
        }
        Err(_) => false,
    }
}

static MOMENTS: [(i128, Day, Clock); 4] = [
    (FIRST, (-999_999, Month::January, 1), (0, 0, 0, 0)),
    (
        LAST,
        (999_999, Month::December, 31),
        (23, 59, 59, 999_999_999),
    ),
    (0, (1970, Month::January, 1), (0, 0, 0, 0)),
    (-1, (1969, Month::December, 31), (23, 59, 59, 999_999_999)),
];

#[test]
fn moments(rt: HostRuntime) {
    for (nanos, day, clock) in &MOMENTS {
        assert!(rt; is_after(*nanos, *day, *clock), "{nanos}");
    }
}

const OUT_OF_MOMENTS: ComponentRange = ComponentRange {
    name: "timestamp",
    conditional: false,
};

// Whether each of the three types rejects these nanoseconds.
fn is_after_none(nanos: i128) -> bool {
    UtcDateTime::from_unix_timestamp_nanos(nanos) == Err(OUT_OF_MOMENTS)
        && OffsetDateTime::from_unix_timestamp_nanos(nanos) == Err(OUT_OF_MOMENTS)
        && Timestamp::from_nanoseconds(nanos) == Err(OUT_OF_MOMENTS)
}

#[test]
fn moments_refused(rt: HostRuntime) {
    for nanos in [FIRST - 1, LAST + 1, i128::MIN, i128::MAX] {
        assert!(rt; is_after_none(nanos), "{nanos}");
    }
}

// The numbers of a moment, the nanoseconds from 1970-01-01 in UTC to it, and its date and time in UTC if it has one.
// 1 March 2021 is 51 years of 365 days, 13 leap days, 31 and 28 days after 1970-01-01.
type OffsetMoment = (Day, Clock, Offset, i128, Option<(Day, Clock)>);

const IN_2021: i128 = (51 * 365 + 13 + 31 + 28) * 86_400_000_000_000;

const OFFSET: i128 = 93_599_000_000_000;

static OFFSET_MOMENTS: [OffsetMoment; 4] = [
    (
        (-999_999, Month::January, 1),
        (0, 0, 0, 0),
        (25, 59, 59),
        FIRST - OFFSET,
        None,
    ),
    (
        (999_999, Month::December, 31),
        (23, 59, 59, 999_999_999),
        (-25, -59, -59),
        LAST + OFFSET,
        None,
    ),
    (
        (2021, Month::March, 1),
        (0, 0, 0, 0),
        (25, 59, 59),
        IN_2021 - OFFSET,
        Some(((2021, Month::February, 27), (22, 0, 1, 0))),
    ),
    (
        (2021, Month::March, 1),
        (23, 59, 59, 999_999_999),
        (-25, -59, -59),
        IN_2021 + 86_399_999_999_999 + OFFSET,
        Some(((2021, Month::March, 3), (1, 59, 58, 999_999_999))),
    ),
];

// The date, time and offset of the moment, and the nanoseconds from 1970-01-01 in UTC to it.
fn kept(moment: OffsetDateTime) -> (Day, Clock, Offset, i128) {
    (
        moment.date().to_calendar_date(),
        moment.time().as_hms_nano(),
        moment.offset().as_hms(),
        moment.unix_timestamp_nanos(),
    )
}

// The date and time of the moment in UTC.
fn parts_in_utc(moment: OffsetDateTime) -> Option<(Day, Clock)> {
    let utc = moment.checked_to_utc()?;
    Some((utc.date().to_calendar_date(), utc.time().as_hms_nano()))
}

// Whether the moment has its numbers, and that date and time in UTC.
fn is_offset_moment((day, clock, offset, nanos, utc): OffsetMoment) -> bool {
    match moment((day, clock, offset)) {
        Ok(value) => kept(value) == (day, clock, offset, nanos) && parts_in_utc(value) == utc,
        Err(_) => false,
    }
}

#[test]
fn offset_moments(rt: HostRuntime) {
    for row in &OFFSET_MOMENTS {
        assert!(rt; is_offset_moment(*row));
    }
}

// Whether the moment may be a leap second, by itself and in UTC.
fn may_be_leap_second(day: Day, clock: Clock, offset: Offset) -> Option<bool> {
    let moment = moment((day, clock, offset)).ok()?;
    let valid = moment.is_valid_leap_second_stand_in();
    match moment.checked_to_utc() {
        Some(utc) if utc.is_valid_leap_second_stand_in() != valid => None,
        _ => Some(valid),
    }
}

// Only the last nanosecond of a month in UTC may be a leap second, as at the ends of 2016 and of 1990 (RFC 3339,
// section 5.8).
static LEAP_SECONDS: [(Day, Clock, Offset, bool); 7] = [
    (
        (2016, Month::December, 31),
        (23, 59, 59, 999_999_999),
        (0, 0, 0),
        true,
    ),
    (
        (2016, Month::December, 30),
        (23, 59, 59, 999_999_999),
        (0, 0, 0),
        false,
    ),
    (
        (2016, Month::December, 31),
        (23, 59, 59, 999_999_998),
        (0, 0, 0),
        false,
    ),
    (
        (2016, Month::December, 31),
        (23, 59, 58, 999_999_999),
        (0, 0, 0),
        false,
    ),
    (
        (1990, Month::December, 31),
        (15, 59, 59, 999_999_999),
        (-8, 0, 0),
        true,
    ),
    (
        (1990, Month::December, 30),
        (15, 59, 59, 999_999_999),
        (-8, 0, 0),
        false,
    ),
    (
        (999_999, Month::December, 31),
        (23, 59, 59, 999_999_999),
        (-25, -59, -59),
        false,
    ),
];

#[test]
fn leap_seconds(rt: HostRuntime) {
    for (day, clock, offset, valid) in &LEAP_SECONDS {
        assert!(rt; may_be_leap_second(*day, *clock, *offset) == Some(*valid));
    }
}

// The last date at 1:02:03 and that nanosecond, at +01:00.
fn with_nanosecond(nanosecond: u32) -> Option<OffsetDateTime> {
    moment((
        (999_999, Month::December, 31),
        (1, 2, 3, nanosecond),
        (1, 0, 0),
    ))
    .ok()
}

// Whether the nanosecond replaces another one, in UTC too.
fn replaces(nanosecond: u32) -> Option<bool> {
    let (before, after) = (with_nanosecond(4)?, with_nanosecond(nanosecond)?);
    let utc = in_utc(before);
    Some(
        before.replace_nanosecond(nanosecond) == Ok(after)
            && utc.replace_nanosecond(nanosecond) == Ok(in_utc(after)),
    )
}

// Whether a nanosecond out of range is rejected.
fn is_refused() -> Option<bool> {
    let refusal = ComponentRange {
        name: "nanosecond",
        conditional: false,
    };
    let moment = with_nanosecond(4)?;
    let utc = in_utc(moment);
    Some(
        moment.replace_nanosecond(1_000_000_000) == Err(refusal)
            && utc.replace_nanosecond(1_000_000_000) == Err(refusal),
    )
}

#[test]
fn nanoseconds_replaced(rt: HostRuntime) {
    for nanosecond in [0, 999_999_999] {
        assert!(rt; replaces(nanosecond) == Some(true));
    }
    assert!(rt; is_refused() == Some(true));
}
