//! Formats of timestamps: what a text parses as, with defaults and zones for what it omits, and how moments are
//! written.
#![tactic(auto)]

mod brief;
mod clock;
mod dated;
mod form;
mod guard;
pub mod laws;
mod local;
mod missing_field;
mod naming;
mod reading;
mod reason;

pub use brief::{Brief, FromReason};
pub use clock::Clock;
pub use dated::{parse_dated, parse_in_turn, read_in_turn};
pub use form::{Form, Named, Unit, Writing, write_to};
pub use local::{Clocks, Fold};
pub use missing_field::{MissingField, Part};
pub use naming::{FormatFault, find_reading, find_writing};
pub use reading::{
    Defaults, MOST_STEPS, Match, Reading, complete, has_year, parse, read, read_front_3339,
};
pub use reason::{OffsetParts, Reason, ReasonDisplay, TwoOffsets};
