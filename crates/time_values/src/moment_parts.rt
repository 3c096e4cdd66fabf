//! Parts of the date and of the time of a date-time.

mod offset;
mod plain;
mod utc;
