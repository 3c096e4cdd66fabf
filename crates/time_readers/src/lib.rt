//! Parsers of the well-known date-time formats, and of the parts that they share with format descriptions.
//!
//! The parsers of components and the types of format descriptions are reexported from `time_components`, the parsers of
//! digits from `time_digits`.
#![tactic(auto)]

pub mod block;
pub mod direct;
pub mod iso8601;
pub mod laws;
mod ranges;
pub mod rfc2822;
pub mod rfc3339;

pub use time_components::{
    BorrowedFormatItem, Component, FormatDescriptionV3, FormatDescriptionV3Inner, Group,
    OwnedFormatItem, Period, Step, SubsecondDigits, TrailingInput, component, format_description,
    modifier,
};
pub use time_digits::{Integer, Padding, ParsedItem, Sign, combinator};
