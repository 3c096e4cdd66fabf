//! Parses texts and formats moments for C, which gets plain structs and the numbers of statuses.
//!
//! The crate `pelzaune` exports these functions. A caller in Rattle gets from them what C gets.
#![tactic(auto)]

// Parses `$text` as a description in the syntax with the number `$syntax`, and evaluates `$made`, where `$description`
// is the parsed description. For a malformed description, the value is its fault's status instead, and for an unknown
// syntax `UNKNOWN_SYNTAX`.
macro_rules! by_description {
    ($syntax:ident, $text:ident, $description:ident => $made:expr) => {
        match syntax_of($syntax) {
            Some(syntax) => match read_description(syntax, $text) {
                Ok($description) => $made,
                Err(error) => fault_status(error),
            },
            None => UNKNOWN_SYNTAX,
        }
    };
}

pub mod columns;
pub mod descriptions;
pub mod formatting;
mod lines;
pub mod locating;
pub mod missing;
pub mod moments;
pub mod parts;
pub mod results;
pub mod status;
pub mod steps;
pub mod stored;
pub mod text;
pub mod writing;
