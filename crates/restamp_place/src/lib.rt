//! Finds the timestamp of a line by its place.
#![tactic(auto)]

mod fields;
mod place;
mod texts;

pub use fields::{Fields, Span};
pub use place::{Place, body_of, find_span};
