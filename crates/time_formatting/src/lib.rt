//! Formats moments by RFC 3339, RFC 2822, ISO 8601 and descriptions. No call allocates, since a text is an array and a
//! length.
#![tactic(auto)]

mod component;
mod iso8601;
pub mod laws;
mod numbers;
mod parts;
mod rfc2822;
mod rfc3339;
mod walk;
mod years;

pub use iso8601::{text_8601, text_8601_basic};
pub use parts::{FractionDigits, Unwritable};
pub use rfc2822::text_2822;
pub use rfc3339::text_3339;
pub use time_values::text::Text;
pub use walk::{Unformattable, format};
