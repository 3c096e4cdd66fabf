//! Dates, times of day, offsets from UTC and moments, in the proleptic Gregorian calendar, and
//! the errors of their constructors and of parsing.
#![tactic(auto)]

mod aligned;
mod arithmetic;
mod conversion;
mod date;
mod days;
pub mod digits;
mod display;
mod duration;
pub mod error;
pub mod laws;
mod moment_parts;
mod month;
pub mod names;
mod offset_date_time;
mod order;
mod parts;
mod plain_date_time;
pub mod sign;
pub mod text;
mod time;
mod timestamp;
mod utc_date_time;
mod utc_offset;
mod weekday;

pub use date::Date;
pub use days::MAX_YEAR;
pub use duration::Duration;
pub use month::Month;
pub use offset_date_time::OffsetDateTime;
pub use plain_date_time::PlainDateTime;
pub use time::Time;
pub use timestamp::Timestamp;
pub use utc_date_time::UtcDateTime;
pub use utc_offset::UtcOffset;
pub use weekday::Weekday;
