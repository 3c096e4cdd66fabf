ghost use Rattle.std.specs.Prelude.{◌≡◌};
ghost use Rattle.time_values.specs.Instants.{IsInstant, timestamp_refusal};
ghost use Rattle.time_values.specs.Calendar.{greatest_year};

use crate::UtcDateTime;
use crate::error::ComponentRange;
use crate::utc_date_time::is_instant;

/// A moment in the years -999999 to 999999 in UTC, stored as nanoseconds since 1970-01-01T00:00:00Z.
#[derive(Clone, Copy, Debug, PartialEq, Eq, Hash)]
pub struct Timestamp {
    nanoseconds: i128,
    pub ghost in_range: { IsInstant greatest_year nanoseconds },
}

impl Timestamp {
    ghost use Rattle.time_values.specs.Moments as Moments;
    ghost use Rattle.time_values.specs.Refusal.{Constructs};

    /// The moment that many nanoseconds after 1970-01-01T00:00:00Z. A number outside -31619087596800000000000 to
    /// 31494784780799999999999 is an error, which names `timestamp`.
    pub fn from_nanoseconds(nanoseconds: i128) -> Result<Timestamp, ComponentRange>
        ensures { Constructs (timestamp_refusal greatest_year nanoseconds)
            (λ t. Moments.nanoseconds t ≡ nanoseconds) result }
    {
        if !is_instant(nanoseconds) {
            return Err(ComponentRange {
                name: "timestamp",
                conditional: false,
            });
        }
        Ok(Timestamp { nanoseconds })
    }

    /// The nanoseconds since 1970-01-01T00:00:00Z, negative before then.
    #[inline]
    pub fn nanoseconds(self) -> i128
        ensures { result ≡ Moments.nanoseconds self }
    {
        self.nanoseconds
    }
}

impl From<UtcDateTime> for Timestamp {
    ghost use Rattle.std.specs.Prelude.{◌≡◌};
    ghost use Rattle.time_values.specs.Moments.{nanoseconds, utc_instant};
    ghost use Rattle.time_values.specs.Calendar.{greatest_year};

    ghost from_gives = { λ u t. nanoseconds t ≡ utc_instant greatest_year u };

    fn from(date_time: UtcDateTime) -> Timestamp {
        Timestamp {
            nanoseconds: date_time.unix_timestamp_nanos(),
        }
    }
}
