//! The verdict on a line: its timestamp is parsed by one format and written by another; or the line is unchanged,
//! dropped, or rejected for a reason.
#![tactic(auto)]

mod anywhere;
mod error_location;
mod job;
pub mod laws;
mod missing;
mod part;

pub use error_location::{ErrorLocation, law_one_error_location};
pub use job::{Job, LIMIT, REACH, Refusal};
pub use missing::{Why, law_one_missing_field};
