//! How much of a line is read before it is processed.
use byte_streams::{ArrayBuf, LINE_LIMIT, LOOKAHEAD};

/// The greatest length of a line's front: 262400 bytes. A program searches the first 262144 bytes for the time, so that
/// the front contains at least 256 bytes after the time, or the rest of the line.
pub const LIMIT: usize = LINE_LIMIT + LOOKAHEAD;

/// Bytes that were read and aren't processed yet: at most [`LIMIT`].
pub type Block = ArrayBuf<LIMIT>;
