//! Plain structs with the parts of values, in the layout of C.
ghost use Rattle.std.specs.Prelude.{MatchOption};
ghost use Rattle.time_values.specs.Moments.{offset_instant};
ghost use Rattle.time_values.specs.Calendar.{greatest_year};
ghost use Rattle.pelzaune_ffi.specs.Results as Results;

use time_values::{Date, OffsetDateTime, PlainDateTime, Time, UtcDateTime, UtcOffset};

/// The year, month and day of a date, in the layout of C.
#[repr(C)]
#[derive(Clone, Copy)]
pub struct DateParts {
    /// -999999 to 999999.
    pub year: i32,
    /// 1 to 12.
    pub month: u8,
    /// 1 to 31.
    pub day: u8,
}

/// The hour, minute, second and nanosecond of a time of day, in the layout of C.
#[repr(C)]
#[derive(Clone, Copy)]
pub struct TimeParts {
    /// 0 to 999999999.
    pub nanosecond: u32,
    /// 0 to 23.
    pub hour: u8,
    /// 0 to 59.
    pub minute: u8,
    /// 0 to 59.
    pub second: u8,
}

/// An offset from UTC in seconds, positive ahead of UTC, in the layout of C.
#[repr(C)]
#[derive(Clone, Copy)]
pub struct OffsetParts {
    /// Seconds ahead of UTC, -93599 to 93599.
    pub seconds: i32,
}

/// The parts of a date and a time without an offset, down to the nanosecond, in the layout of C.
#[repr(C)]
#[derive(Clone, Copy)]
pub struct LocalParts {
    /// -999999 to 999999.
    pub year: i32,
    /// 0 to 999999999.
    pub nanosecond: u32,
    /// 1 to 12.
    pub month: u8,
    /// 1 to 31.
    pub day: u8,
    /// 0 to 23.
    pub hour: u8,
    /// 0 to 59.
    pub minute: u8,
    /// 0 to 59.
    pub second: u8,
}

/// The parts of a local date and time, and their offset in seconds ahead of UTC, in the layout of C.
#[repr(C)]
#[derive(Clone, Copy)]
pub struct MomentParts {
    /// -999999 to 999999.
    pub year: i32,
    /// 0 to 999999999.
    pub nanosecond: u32,
    /// Seconds ahead of UTC, -93599 to 93599.
    pub offset: i32,
    /// 1 to 12.
    pub month: u8,
    /// 1 to 31.
    pub day: u8,
    /// 0 to 23.
    pub hour: u8,
    /// 0 to 59.
    pub minute: u8,
    /// 0 to 59.
    pub second: u8,
}

/// An instant, as the seconds and nanoseconds since 1970-01-01T00:00:00Z, in the layout of C.
#[repr(C)]
#[derive(Clone, Copy)]
pub struct Instant {
    /// Whole seconds, rounded down.
    pub seconds: i64,
    /// The nanoseconds after them, 0 to 999999999.
    pub nanoseconds: u32,
}

/// An instant, as the nanoseconds since 1970-01-01T00:00:00Z in 64 bits, in the layout of C.
#[repr(C)]
#[derive(Clone, Copy)]
pub struct Nanoseconds {
    /// The nanoseconds, negative before 1970.
    pub count: i64,
}

/// The date, the time and the offset of a text, each with a status. A parse sets a part only if its status is 0.
#[repr(C)]
#[derive(Clone, Copy)]
pub struct Parts {
    /// The date.
    pub date: DateParts,
    /// The time.
    pub time: TimeParts,
    /// The offset.
    pub offset: OffsetParts,
    /// 0, or the status of the error with which the date is rejected.
    pub date_status: u32,
    /// 0, or the status of the error with which the time is rejected.
    pub time_status: u32,
    /// 0, or the status of the error with which the offset is rejected.
    pub offset_status: u32,
}

impl From<Date> for DateParts {
    ghost from_gives = { Results.HasDate };

    #[inline]
    fn from(date: Date) -> DateParts {
        DateParts {
            year: date.year(),
            month: date.month().number(),
            day: date.day(),
        }
    }
}

impl From<Time> for TimeParts {
    ghost from_gives = { Results.HasTime };

    #[inline]
    fn from(time: Time) -> TimeParts {
        TimeParts {
            nanosecond: time.nanosecond(),
            hour: time.hour(),
            minute: time.minute(),
            second: time.second(),
        }
    }
}

impl From<UtcOffset> for OffsetParts {
    ghost from_gives = { Results.HasOffset };

    #[inline]
    fn from(offset: UtcOffset) -> OffsetParts {
        OffsetParts {
            seconds: offset.whole_seconds(),
        }
    }
}

// The parts of a date and a time.
#[inline]
fn local_parts(date: Date, time: Time) -> LocalParts
    ensures { Results.HasLocal date time result }
{
    LocalParts {
        year: date.year(),
        nanosecond: time.nanosecond(),
        month: date.month().number(),
        day: date.day(),
        hour: time.hour(),
        minute: time.minute(),
        second: time.second(),
    }
}

impl From<PlainDateTime> for LocalParts {
    ghost from_gives = { Results.HasPlain };

    #[inline]
    fn from(value: PlainDateTime) -> LocalParts {
        local_parts(value.date(), value.time())
    }
}

impl From<UtcDateTime> for LocalParts {
    ghost from_gives = { Results.HasUtc };

    #[inline]
    fn from(value: UtcDateTime) -> LocalParts {
        local_parts(value.date(), value.time())
    }
}

impl From<OffsetDateTime> for MomentParts {
    ghost from_gives = { Results.HasMoment };

    #[inline]
    fn from(value: OffsetDateTime) -> MomentParts {
        let local = local_parts(value.date(), value.time());
        MomentParts {
            year: local.year,
            nanosecond: local.nanosecond,
            offset: value.offset().whole_seconds(),
            month: local.month,
            day: local.day,
            hour: local.hour,
            minute: local.minute,
            second: local.second,
        }
    }
}

impl From<OffsetDateTime> for Instant {
    ghost from_gives = { Results.HasInstant };

    // An offset is a whole number of seconds, so the nanosecond of the local time is also that of the instant.
    #[inline]
    fn from(value: OffsetDateTime) -> Instant {
        Instant {
            seconds: value.unix_timestamp(),
            nanoseconds: value.time().nanosecond(),
        }
    }
}

/// The nanoseconds from 1970-01-01T00:00:00Z to a moment's instant, negative before it. `None`: an `i64` can't hold
/// them.
#[inline]
pub fn nanoseconds_of(value: OffsetDateTime) -> Option<Nanoseconds>
    ensures { MatchOption result (¬ (Results.FitsI64 (offset_instant greatest_year value)))
        (λ n. Results.HasCount value n) }
{
    let instant = Instant::from(value);
    let nanos = instant.seconds as i128 * 1_000_000_000 + instant.nanoseconds as i128;
    if nanos < i64::MIN as i128 {
        return None;
    }
    if nanos > i64::MAX as i128 {
        return None;
    }
    Some(Nanoseconds {
        count: nanos as i64,
    })
}
