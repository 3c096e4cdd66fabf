//! Moments at other offsets, and of seconds.
use crate::numbers::{
    FIRST, IN_1985, IN_1996, IN_1996_AT_ZERO, LAST, Numbers, in_utc, moment, plain,
};
use std::convert::TryFrom;
use std::time::{Duration, UNIX_EPOCH};
use time_values::error::ComponentRange;
use time_values::{Month, OffsetDateTime, Timestamp, UtcDateTime, UtcOffset};

// Whether there is no date a minute before the first moment, and none after the last one.
fn has_no_date_past_the_ends() -> Result<bool, ComponentRange> {
    let west = moment(FIRST)?.checked_to_offset(UtcOffset::from_hms(0, -1, 0)?);
    let east = moment(LAST)?.checked_to_offset(UtcOffset::from_hms(0, 1, 0)?);
    Ok(west == None && east == None)
}

// Whether 1996-12-19T16:39:57-08:00 is 1996-12-20T00:39:57Z (RFC 3339, section 5.8).
fn is_the_same_in_utc() -> Result<bool, ComponentRange> {
    let (value, at_zero) = (moment(IN_1996)?, moment(IN_1996_AT_ZERO)?);
    let utc = in_utc(at_zero);
    Ok(
        value.checked_to_utc() == Some(utc)
            && value.checked_to_offset(UtcOffset::UTC) == Some(at_zero)
            && at_zero.checked_to_offset(value.offset()) == Some(value)
            && utc.checked_to_offset(value.offset()) == Some(value)
            && OffsetDateTime::from(utc) == at_zero,
    )
}

// Whether the moment is built from its date and time and its offset.
fn is_made_with_its_offset() -> Result<bool, ComponentRange> {
    let (value, (date, time, _)) = (moment(IN_1996)?, IN_1996);
    Ok(
        plain(value).assume_offset(UtcOffset::from_hms(-8, 0, 0)?) == value
            && plain(value).assume_utc() == moment((date, time, (0, 0, 0)))?
            && plain(value).as_utc() == in_utc(value),
    )
}

#[test]
fn offsets(rt: HostRuntime) {
    assert!(rt; has_no_date_past_the_ends() == Ok(true));
    assert!(rt; is_the_same_in_utc() == Ok(true));
    assert!(rt; is_made_with_its_offset() == Ok(true));
}

// Seconds since 1970, and the moment after them.
static SECONDS: [(i64, Numbers); 3] = [
    (
        482_196_050,
        ((1985, Month::April, 12), (23, 20, 50, 0), (0, 0, 0)),
    ),
    (
        482_196_051,
        ((1985, Month::April, 12), (23, 20, 51, 0), (0, 0, 0)),
    ),
    (-31_619_087_596_800, FIRST),
];

// Whether the moment is after this many seconds, by way of UTC too.
fn is_after(seconds: i64, numbers: Numbers) -> Result<bool, ComponentRange> {
    let value = OffsetDateTime::from_unix_timestamp(seconds)?;
    let utc = UtcDateTime::from_unix_timestamp(seconds)?;
    Ok([value, OffsetDateTime::from(utc)] == [moment(numbers)?; 2])
}

// Whether there is no moment after this many seconds.
fn is_after_none(seconds: i64) -> bool {
    let refusal = ComponentRange {
        name: "timestamp",
        conditional: false,
    };
    OffsetDateTime::from_unix_timestamp(seconds) == Err(refusal)
        && UtcDateTime::from_unix_timestamp(seconds) == Err(refusal)
}

#[test]
fn of_seconds(rt: HostRuntime) {
    for (seconds, numbers) in &SECONDS {
        assert!(rt; is_after(*seconds, *numbers) == Ok(true));
    }
    assert!(rt; is_after_none(31_494_784_780_800));
    assert!(rt; is_after_none(-31_619_087_596_801));
}

// Whether the moment in 1985 is that of its nanoseconds.
fn is_of_a_timestamp() -> Result<bool, ComponentRange> {
    let timestamp = Timestamp::from_nanoseconds(482_196_050_520_000_000)?;
    Ok(OffsetDateTime::from(UtcDateTime::from(timestamp)) == moment(IN_1985)?)
}

// Whether it is that of its time on the system's clock, whose range extends past the last moment.
fn is_of_the_systems_clock() -> Result<bool, ComponentRange> {
    let time = UNIX_EPOCH + Duration::new(482_196_050, 520_000_000);
    let late = UNIX_EPOCH + Duration::from_secs(31_494_784_780_800);
    Ok(
        OffsetDateTime::from(UtcDateTime::try_from(time)?) == moment(IN_1985)?
            && UtcDateTime::try_from(late).is_err(),
    )
}

#[test]
fn of_timestamps_and_clocks(rt: HostRuntime) {
    assert!(rt; is_of_a_timestamp() == Ok(true));
    assert!(rt; is_of_the_systems_clock() == Ok(true));
}
