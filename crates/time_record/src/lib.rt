//! The components that were parsed of a date and time, and the value that they make.
#![tactic(auto)]

mod format_item;
pub mod laws;
mod parsed;
mod walk;

pub use format_item::AnyFormatItem;
pub use parsed::Parsed;
pub use parsed::component::fault;
pub use walk::Tries;
