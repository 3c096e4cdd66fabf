//! Parses texts into date-time values: whole texts, or a moment at the start of a text.
#![tactic(auto)]

// Evaluates `$set`, a call of a record's setter. The value must be in the setter's range, so that the call returns
// `Some(())`. `unreachable!` shows the compiler that the call never returns `None`.
macro_rules! put {
    ($set:expr) => {
        let Some(()) = $set else { unreachable!() };
    };
}

mod description;
pub mod iso8601;
pub mod laws;
mod parsable;
mod rfc2822;
mod rfc3339;
mod rfc3339_strict;
mod target;

pub use description::Items;
pub use iso8601::Iso8601;
pub use parsable::{Parsable, begin, value_before};
pub use rfc2822::Rfc2822;
pub use rfc3339::Rfc3339;
pub use rfc3339_strict::{Rfc3339Strict, has_separator, strict_text};
pub use target::Target;
