//! Parsers of the components of date-time texts, and the descriptions that name them.
//!
//! The parsers of digits, and the result type of a parser, are those of `time_digits`.
#![tactic(auto)]

pub mod component;
pub mod format_description;
mod inspect;
pub mod laws;
pub mod modifier;

pub use format_description::{
    BorrowedFormatItem, Component, FormatDescriptionV3, FormatDescriptionV3Inner, OwnedFormatItem,
    Period,
};
pub use inspect::{Group, Inspect, Node, Step, item_len, steps_after};
pub use modifier::{SubsecondDigits, TrailingInput};
pub use time_digits::{Integer, Padding, ParsedItem, Sign, combinator};
