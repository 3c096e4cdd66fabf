//! Descriptions that are prepared once and then parse many texts.
#![tactic(auto)]

mod forms;
mod items;
mod joined;
pub mod laws;
mod parsable;
mod prepared;
mod walk;
pub mod whole;

pub use items::Unprepared;
pub use prepared::Prepared;
