//! Every public call of records by its name and type, so that removing one fails to compile.
mod items;
mod records;

use std::convert::TryFrom;
use std::fmt::Debug;
use time_record::Parsed;
use time_values::error::TryFromParsed;
use time_values::{Date, OffsetDateTime, PlainDateTime, Time, Timestamp, UtcDateTime, UtcOffset};

// A type that is copied and printed for debugging.
trait Copied: Copy + Debug {}

impl<T: Copy + Debug> Copied for T {}

// Types that are copied.
fn are_copied<A: Copied, B: Copied, C: Copied, D: Copied>() {}

// Types that are printed for debugging.
fn are_printed<A: Debug, B: Debug, C: Debug>() {}

// A type that a record converts to.
trait Value: TryFrom<Parsed, Error = TryFromParsed> {}

impl<T: TryFrom<Parsed, Error = TryFromParsed>> Value for T {}

// Types that a record converts to.
fn are_values<A: Value, B: Value, C: Value, D: Value, E: Value, F: Value, G: Value>() {}

#[test]
fn values(rt: HostRuntime) {
    are_values::<Date, Time, UtcOffset, PlainDateTime, OffsetDateTime, UtcDateTime, Timestamp>();
    let date: Result<Date, TryFromParsed> = Date::try_from(Parsed::new());
    assert!(rt; date == Err(TryFromParsed::InsufficientInformation));
}
