//! Readers and writers that count their failed calls, buffers, and functions that split bytes into lines.
#![tactic(auto)]

mod buffer;
mod buffered;
mod counted;
mod lent;
mod lines;
mod opener;
mod sink;
mod source;

pub use buffer::ArrayBuf;
pub use buffered::BufferedSink;
pub use counted::Counted;
pub use lent::Lent;
pub use lines::{LINE_LIMIT, LOOKAHEAD, first_line, whole_line};
pub use opener::Opener;
pub use sink::{Sink, Unwritten};
pub use source::{Bytes, Source};
