//! Answers to texts: finds formats and targets by name, prints values, and answers whole inputs line by line.
#![tactic(auto)]

mod answers;
pub mod formats;
mod laws;
mod layout;
mod named;
mod serving;

pub use answers::{write_outcome, write_value};
pub use laws::law_done;
pub use layout::Layout;
pub use named::Named;
pub use serving::{LineHandler, Stop, run, serve};
