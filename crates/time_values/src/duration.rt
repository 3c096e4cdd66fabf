ghost use Rattle.std.specs.Prelude.{◌≡◌, ◌↔◌, IsTrue, pos, ◌+ℤ◌, ◌-ℤ◌, ◌*ℤ◌, ◌<ℤ◌};
ghost use Rattle.time_values.specs.Calendar.{IsLength};
ghost use Rattle.time_values.specs.MovedClocks.{IsNear};

/// A length of time, in nanoseconds of either sign. Its whole seconds, rounded towards 0, fit in an `i64`.
#[derive(Clone, Copy, Debug, PartialEq, Eq, PartialOrd, Ord, Hash)]
pub struct Duration {
    nanoseconds: i128,
    pub ghost in_range: { IsLength nanoseconds },
}

impl Duration {
    ghost use Rattle.time_values.specs.Moments as Durations;

    /// A duration of 0.
    pub const ZERO: Duration = Duration { nanoseconds: 0 };

    /// The duration of that many seconds and nanoseconds together, each of either sign. The whole seconds of the sum
    /// must fit in an `i64`, as they always do for nanoseconds of -999999999 to 999999999.
    pub fn new(seconds: i64, nanoseconds: i32) -> Duration
        requires { IsLength ((seconds *ℤ pos 1_000_000_000) +ℤ nanoseconds) }
        ensures { Durations.length result ≡ (seconds *ℤ pos 1_000_000_000) +ℤ nanoseconds }
    {
        Duration {
            nanoseconds: seconds as i128 * 1_000_000_000 + nanoseconds as i128,
        }
    }

    /// The duration of that many seconds.
    pub fn seconds(seconds: i64) -> Duration
        ensures { Durations.length result ≡ seconds *ℤ pos 1_000_000_000 }
    {
        Duration::new(seconds, 0)
    }

    /// The duration of that many nanoseconds.
    pub fn nanoseconds(nanoseconds: i64) -> Duration
        ensures { Durations.length result ≡ nanoseconds }
    {
        Duration {
            nanoseconds: nanoseconds as i128,
        }
    }

    // The time from the moment `earlier` to `later`, both in nanoseconds since 1970. It can be negative.
    pub(crate) fn between(later: i128, earlier: i128) -> Duration
        requires { IsNear later × IsNear earlier }
        ensures { Durations.length result ≡ later -ℤ earlier }
    {
        Duration {
            nanoseconds: later - earlier,
        }
    }

    /// The duration in nanoseconds, of either sign.
    #[inline]
    pub fn whole_nanoseconds(self) -> i128
        ensures value { result ≡ Durations.length self }
        ensures range { IsLength result }
    {
        self.nanoseconds
    }

    /// The whole seconds, rounded towards 0.
    pub fn whole_seconds(self) -> i64
        ensures { Durations.IsTowardsZero 1_000_000_000 (Durations.length self) result }
    {
        let magnitude = (self.nanoseconds.unsigned_abs() / 1_000_000_000) as i128;
        if self.nanoseconds < 0 {
            return -magnitude as i64;
        }
        magnitude as i64
    }

    /// Whether the duration is below 0.
    pub fn is_negative(self) -> bool
        ensures { IsTrue result ↔ (Durations.length self <ℤ pos 0) }
    {
        self.nanoseconds < 0
    }
}
