//! Earlier and later days and moments, and durations.
use crate::numbers::{FIRST, IN_1985, IN_1996, LAST, Numbers, in_utc, moment, plain};
use time_values::error::ComponentRange;
use time_values::{Date, Duration, Month, OffsetDateTime, PlainDateTime, UtcDateTime};

// Whether the first day of 2020 is the day before the second one.
fn follow(day: (Month, u8), next: (Month, u8)) -> Result<bool, ComponentRange> {
    let day = Date::from_calendar_date(2020, day.0, day.1)?;
    let next = Date::from_calendar_date(2020, next.0, next.1)?;
    Ok(day.next_day() == Some(next) && next.previous_day() == Some(day))
}

static DAYS: [((Month, u8), (Month, u8)); 2] = [
    ((Month::February, 28), (Month::February, 29)),
    ((Month::February, 29), (Month::March, 1)),
];

#[test]
fn days_before_and_after(rt: HostRuntime) {
    for (day, next) in &DAYS {
        assert!(rt; follow(*day, *next) == Ok(true));
    }
    assert!(rt; [Date::MAX.next_day(), Date::MIN.previous_day()] == [None; 2]);
}

// Whether the duration is the distance between the two moments.
macro_rules! lies_between {
    ($duration:ident, $earlier:ident, $later:ident) => {
        $earlier.checked_add($duration) == Some($later)
            && $later.checked_sub($duration) == Some($earlier)
            && $earlier.saturating_add($duration) == $later
            && $later.saturating_sub($duration) == $earlier
            && $later - $earlier == $duration
    };
}

fn lies_between(duration: Duration, earlier: OffsetDateTime, later: OffsetDateTime) -> bool {
    lies_between!(duration, earlier, later)
}

// Whether it is the distance between moments without an offset.
fn lies_between_plain(duration: Duration, earlier: PlainDateTime, later: PlainDateTime) -> bool {
    lies_between!(duration, earlier, later)
}

// Whether it is the distance between moments in UTC.
fn lies_between_in_utc(duration: Duration, earlier: UtcDateTime, later: UtcDateTime) -> bool {
    lies_between!(duration, earlier, later)
}

// Whether it is the distance between the moments of these numbers, without an offset and in UTC too.
fn are_apart(duration: Duration, earlier: Numbers, later: Numbers) -> Result<bool, ComponentRange> {
    let (earlier, later) = (moment(earlier)?, moment(later)?);
    Ok(
        lies_between(duration, earlier, later)
            && lies_between_plain(duration, plain(earlier), plain(later))
            && lies_between_in_utc(duration, in_utc(earlier), in_utc(later)),
    )
}

const MIDNIGHT: Numbers = ((1985, Month::April, 13), (0, 0, 0, 0), (0, 0, 0));

// Moments, and the seconds and nanoseconds between them: from 1985-04-12T23:20:50.52Z to midnight they are 39
// minutes and 9.48 seconds, and to the next second 0.48 seconds.
static DISTANCES: [(Numbers, Numbers, i64, i32); 2] = [
    (IN_1985, MIDNIGHT, 39 * 60 + 9, 480_000_000),
    (
        IN_1985,
        ((1985, Month::April, 12), (23, 20, 51, 0), (0, 0, 0)),
        0,
        480_000_000,
    ),
];

#[test]
fn moments_before_and_after(rt: HostRuntime) {
    for (earlier, later, seconds, nanoseconds) in &DISTANCES {
        let duration = Duration::new(*seconds, *nanoseconds);
        assert!(rt; are_apart(duration, *earlier, *later) == Ok(true));
    }
    assert!(rt; Duration::nanoseconds(480_000_000) == Duration::new(0, 480_000_000));
}

// The whole nanoseconds and seconds from the second moment to the first, and whether they are negative.
fn difference(value: Numbers, other: Numbers) -> Result<(i128, i64, bool), ComponentRange> {
    let duration = moment(value)? - moment(other)?;
    Ok((
        duration.whole_nanoseconds(),
        duration.whole_seconds(),
        duration.is_negative(),
    ))
}

// The seconds since 1970 of the moments in 1996 and 1985 are 851042397 and 482196050.52.
static DIFFERENCES: [(Numbers, Numbers, (i128, i64, bool)); 2] = [
    (IN_1985, MIDNIGHT, (-2_349_480_000_000, -2349, true)),
    (
        IN_1996,
        IN_1985,
        (
            (851_042_397 - 482_196_051) * 1_000_000_000 + 480_000_000,
            851_042_397 - 482_196_051,
            false,
        ),
    ),
];

#[test]
fn differences(rt: HostRuntime) {
    for (value, other, expected) in &DIFFERENCES {
        assert!(rt; difference(*value, *other) == Ok(*expected));
    }
}

// Whether additions stop at the first moment and at the last one.
fn ends_are_kept() -> Result<bool, ComponentRange> {
    let (first, last) = (moment(FIRST)?, moment(LAST)?);
    let short = Duration::nanoseconds(1);
    Ok(
        last.checked_add(short) == None
            && first.checked_sub(short) == None
            && last.saturating_add(short) == last
            && first.saturating_sub(short) == first
            && last.saturating_sub(Duration::seconds(i64::MAX)) == first
            && last.checked_add(Duration::ZERO) == Some(last),
    )
}

#[test]
fn moments_at_the_ends(rt: HostRuntime) {
    assert!(rt; ends_are_kept() == Ok(true));
}
