//! Formats items as texts of descriptions, which [`parse_borrowed`](crate::parse_borrowed) parses in version 2.
mod component;
mod described;
mod writing;

pub use described::{NoText, description_of, is_described, text_of};
pub use writing::DescriptionText;
