//! Locates the error in a text that a format rejects: its index, and what was expected there.
#![tactic(auto)]

mod completeness;
mod description;
mod iso8601;
pub mod laws;
mod locate;
mod located;
mod mark;
mod rfc2822;
mod rfc3339;
mod rfc3339_strict;
mod walk;

pub use completeness::{has_day, has_full_date, has_hour, has_iso_day, skips_minute, skips_second};
pub use locate::{Locate, locate_error};
pub use located::{Expected, Located};
