//! Rewrites a stream line by line in a fixed amount of memory, with a log of rejected lines, and a tally.
#![tactic(auto)]

mod action;
mod block;
mod ending;
mod files;
mod laws;
mod names;
mod rewriting;
mod serving;
mod settings;
mod stream;
mod tally;

pub use action::LineAction;
pub use block::{Block, LIMIT};
pub use ending::{Stop, status};
pub use files::Opening;
pub use laws::{law_done, law_kept, law_one_result};
pub use names::{write_escaped, write_name};
pub use rewriting::Rewriting;
pub use settings::{Output, Reports, Settings};
pub use stream::Stream;
pub use tally::Tally;
