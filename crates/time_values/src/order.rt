//! Orders of values, and hashes of values whose equality is written by hand.
//!
//! The orders of dates, offsets, and date-times without an offset or in UTC are derived: their fields are declared from
//! the greatest unit to the least.
ghost use Rattle.std.specs.Prelude.{◌≡◌, ◌↔◌, IsTrue};
ghost use Rattle.std.proofs.Common.{rules};
ghost use Rattle.std.specs.Cmp.{partial_order_from_own_ties};
ghost use Rattle.std.specs.Cmp.Rules.{comparing, hashing};
ghost use Rattle.std.specs.Hash as fed;
ghost use Rattle.std.specs.Ordering.{on, nat_cmp, int_cmp, as_partial_cmp};
ghost use Rattle.time_values.specs.Moments.{offset_instant};
ghost use Rattle.time_values.specs.Calendar.{greatest_year};

use crate::{Month, OffsetDateTime, Time, Timestamp, Weekday};
use std::cmp::Ordering;
use std::hash::{Hash, Hasher};

/// Ordered by the nanoseconds since midnight.
impl Ord for Time {
    ghost use Rattle.time_values.specs.Times.{nanos_of_day};

    ghost cmp = { on nanos_of_day nat_cmp };

    ghost total = { Prim.search (comparing, rules) };

    ghost matches_partial_cmp = { Prim.search (comparing, rules) };

    ghost matches_eq = { Prim.search (comparing, rules) };

    fn cmp(&self, other: &Time) -> Ordering {
        self.nanos_of_day().cmp(&other.nanos_of_day())
    }
}

impl PartialOrd for Time {
    ghost use Rattle.time_values.specs.Times.{nanos_of_day};

    ghost partial_cmp = { as_partial_cmp (on nanos_of_day nat_cmp) };

    ghost laws = { partial_order_from_own_ties (Prim.search (comparing, rules)) (Prim.search (comparing, rules)) };

    fn partial_cmp(&self, other: &Time) -> Option<Ordering> {
        Some(self.cmp(other))
    }
}

/// Ordered by the nanoseconds since 1970-01-01T00:00:00Z.
impl Ord for Timestamp {
    ghost use Rattle.time_values.specs.Moments.{nanoseconds};

    ghost cmp = { on nanoseconds int_cmp };

    ghost total = { Prim.search (comparing, rules) };

    ghost matches_partial_cmp = { Prim.search (comparing, rules) };

    ghost matches_eq = { Prim.search (comparing, rules) };

    fn cmp(&self, other: &Timestamp) -> Ordering {
        self.nanoseconds().cmp(&other.nanoseconds())
    }
}

impl PartialOrd for Timestamp {
    ghost use Rattle.time_values.specs.Moments.{nanoseconds};

    ghost partial_cmp = { as_partial_cmp (on nanoseconds int_cmp) };

    ghost laws = { partial_order_from_own_ties (Prim.search (comparing, rules)) (Prim.search (comparing, rules)) };

    fn partial_cmp(&self, other: &Timestamp) -> Option<Ordering> {
        Some(self.cmp(other))
    }
}

/// Ordered by the number of the month.
impl Ord for Month {
    ghost use Rattle.time_values.specs.Names.{month_number};

    ghost cmp = { on month_number nat_cmp };

    ghost total = { Prim.search (comparing, rules) };

    ghost matches_partial_cmp = { Prim.search (comparing, rules) };

    ghost matches_eq = { Prim.search (comparing, rules) };

    fn cmp(&self, other: &Month) -> Ordering {
        self.number().cmp(&other.number())
    }
}

impl PartialOrd for Month {
    ghost use Rattle.time_values.specs.Names.{month_number};

    ghost partial_cmp = { as_partial_cmp (on month_number nat_cmp) };

    ghost laws = { partial_order_from_own_ties (Prim.search (comparing, rules)) (Prim.search (comparing, rules)) };

    fn partial_cmp(&self, other: &Month) -> Option<Ordering> {
        Some(self.cmp(other))
    }
}

impl Hash for Month {
    ghost use Rattle.time_values.specs.Names.{month_number};

    ghost hash_input = { λ m. fed.u8 (month_number m) };

    ghost respects_eq = { Prim.search (hashing, rules) };

    fn hash<H: Hasher>(&self, state: &mut H) {
        self.number().hash(state);
    }
}

impl Hash for Weekday {
    ghost use Rattle.time_values.specs.Names.{days_from_monday};

    ghost hash_input = { λ w. fed.u8 (days_from_monday w) };

    ghost respects_eq = { Prim.search (hashing, rules) };

    fn hash<H: Hasher>(&self, state: &mut H) {
        self.number_days_from_monday().hash(state);
    }
}

impl OffsetDateTime {
    /// Compares the instants of two moments, whatever their offsets.
    pub fn cmp_instant(self, other: OffsetDateTime) -> Ordering
        ensures { result ≡ on (offset_instant greatest_year) int_cmp self other }
    {
        self.unix_timestamp_nanos()
            .cmp(&other.unix_timestamp_nanos())
    }

    /// Whether the instants of two moments are equal, whatever their offsets.
    pub fn is_same_instant(self, other: OffsetDateTime) -> bool
        ensures { IsTrue result ↔ (offset_instant greatest_year self ≡ offset_instant greatest_year other) }
    {
        self.cmp_instant(other).is_eq()
    }
}
