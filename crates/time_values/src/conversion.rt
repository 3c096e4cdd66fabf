//! Conversions between moments, timestamps and times of the system's clock.
ghost use Rattle.std.specs.Prelude.{◌≡◌, ◌+ℤ◌, ◌*ℤ◌, ◌<◌, pos};
ghost use Rattle.std.specs.Time.{system_time_nanos};
ghost use Rattle.time_values.specs.Instants.{timestamp_refusal};
ghost use Rattle.time_values.specs.Moments.{nanoseconds, offset_instant, offset_of, utc_instant, ConstructsSystemTime};
ghost use Rattle.time_values.specs.Offsets.{IsUtc};
ghost use Rattle.time_values.specs.Calendar.{greatest_year};
ghost use Rattle.time_values.specs.Refusal.{Constructs};

use crate::error::ComponentRange;
use crate::{OffsetDateTime, Timestamp, UtcDateTime};
use std::convert::TryFrom;
use std::time::{Duration, SystemTime, UNIX_EPOCH};

/// The moment of a timestamp, which always has a date in UTC.
impl From<Timestamp> for UtcDateTime {
    ghost from_gives = { λ t u. utc_instant greatest_year u ≡ nanoseconds t };

    fn from(timestamp: Timestamp) -> UtcDateTime {
        UtcDateTime::at_instant(timestamp.nanoseconds())
    }
}

/// The moment of a time of the system's clock. An error names `timestamp` after the year 999999.
impl TryFrom<SystemTime> for UtcDateTime {
    type Error = ComponentRange;

    ghost try_from_gives = { λ t r. Constructs (timestamp_refusal greatest_year (pos (system_time_nanos t)))
        (λ u. utc_instant greatest_year u ≡ pos (system_time_nanos t)) r };

    fn try_from(time: SystemTime) -> Result<UtcDateTime, ComponentRange> {
        match time.duration_since(UNIX_EPOCH) {
            Ok(since) => UtcDateTime::from_unix_timestamp_nanos(since.as_nanos() as i128),
            Err(_) => unreachable!(),
        }
    }
}

/// The moment of a time of the system's clock, at offset 0. An error names `timestamp` after the year 999999.
impl TryFrom<SystemTime> for OffsetDateTime {
    type Error = ComponentRange;

    ghost try_from_gives = { λ t r. Constructs (timestamp_refusal greatest_year (pos (system_time_nanos t)))
        (λ o. (offset_instant greatest_year o ≡ pos (system_time_nanos t)) × IsUtc (offset_of o)) r };

    fn try_from(time: SystemTime) -> Result<OffsetDateTime, ComponentRange> {
        match time.duration_since(UNIX_EPOCH) {
            Ok(since) => OffsetDateTime::from_unix_timestamp_nanos(since.as_nanos() as i128),
            Err(_) => unreachable!(),
        }
    }
}

// The time of the system's clock that many seconds and nanoseconds after 1970-01-01T00:00:00Z. Only a negative number
// of seconds is an error, which names `timestamp`.
fn system_time(seconds: i64, nanosecond: u32) -> Result<SystemTime, ComponentRange>
    requires { nanosecond < 1_000_000_000 }
    ensures { ConstructsSystemTime ((seconds *ℤ pos 1_000_000_000) +ℤ pos nanosecond) result }
{
    if seconds < 0 {
        return Err(ComponentRange {
            name: "timestamp",
            conditional: false,
        });
    }
    let since = Duration::new(seconds as u64, nanosecond);
    match UNIX_EPOCH.checked_add(since) {
        Some(time) => Ok(time),
        None => unreachable!(),
    }
}

/// The time of the system's clock at that moment. An error names `timestamp` before 1970, when the clock has no times.
impl TryFrom<UtcDateTime> for SystemTime {
    type Error = ComponentRange;

    ghost try_from_gives = { λ u r. ConstructsSystemTime (utc_instant greatest_year u) r };

    fn try_from(utc: UtcDateTime) -> Result<SystemTime, ComponentRange> {
        system_time(utc.unix_timestamp(), utc.time().nanosecond())
    }
}

/// The time of the system's clock at that moment. An error names `timestamp` before 1970, when the clock has no times.
impl TryFrom<OffsetDateTime> for SystemTime {
    type Error = ComponentRange;

    ghost try_from_gives = { λ v r. ConstructsSystemTime (offset_instant greatest_year v) r };

    fn try_from(moment: OffsetDateTime) -> Result<SystemTime, ComponentRange> {
        system_time(moment.unix_timestamp(), moment.time().nanosecond())
    }
}
