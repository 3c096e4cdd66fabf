//! The options of `restamp`, what they request, and how files are processed.
#![tactic(auto)]

mod bounds;
mod command;
mod fault;
mod formats;
mod options;
mod pointing;
mod request;
mod rewriting;
mod style;
mod table;
mod uses;
mod values;
mod zone;

pub use command::make_command;
pub use fault::{Fault, TimeArgError};
pub use options::Options;
pub use request::Request;
pub use rewriting::{Restamping, replace, serve};
pub use style::Style;
pub use zone::{Local, OwnedDefaults, Zone};
