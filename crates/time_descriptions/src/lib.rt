//! Parsers of descriptions of dates, times and offsets, such as `[year]-[month]-[day]`, and the texts of descriptions.
#![tactic(auto)]

mod component;
mod describing;
mod description;
mod error;
mod items;
pub mod laws;
mod leaf;
mod letters;
mod modifiers;
mod names;
mod owned;
mod strftime;
mod values;

pub use describing::{DescriptionText, NoText, description_of, is_described, text_of};
pub use description::{Description, parse_borrowed};
pub use error::InvalidFormatDescription;
pub use leaf::{Group, Step};
pub use owned::{OwnedError, parse_owned};
pub use strftime::parse_strftime;
