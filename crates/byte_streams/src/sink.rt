//! Writers.
ghost use Rattle.std.specs.Io.KnownBytes.{Appends, Keeps};
ghost use Rattle.std.specs.Prelude.{◌≡◌, ℕ, List, IfSome, OnOk, Option};
ghost use Rattle.byte_streams.specs.Faults.{HasCause};

use std::fmt::Display;

/// The error of a failed write or flush. The type has no fields, so that a `Result` that contains it is small.
#[derive(Clone, Copy, Debug, PartialEq, Eq)]
pub struct Unwritten;

/// A writer. A method returns an error if and only if a call that it made to the underlying writer failed.
pub trait Sink {
    // The bytes that the sink contains, including buffered ones, if they are known.
    ghost contents: { Self → Option (List ℕ) };

    // How many calls to the underlying writer have failed. The count may stop at 18446744073709551615.
    ghost faults: { Self → ℕ };

    // Identifies the mutable reference through which the sink writes, if it writes through one. 0 by default.
    ghost through: { Self → ℕ } = { λ _. 0 };

    /// Writes all of the bytes. After an error, some of them may have been written.
    fn write_all(&mut self, bytes: &[u8]) -> Result<(), Unwritten>
        ensures bytes { OnOk result (Appends (contents self.old) (contents self.new) bytes.now) }
        ensures cause { HasCause result (faults self.old) (faults self.new) }
        ensures through { through self.new ≡ through self.old };

    /// Writes what `Display` prints of a value. `write!` calls this method. After an error, some of it may have been
    /// written.
    fn write_fmt<D: Display>(&mut self, text: D) -> Result<(), Unwritten>
    where
        D: Drop,
        ensures bytes { OnOk result (IfSome (D.output text) (Appends (contents self.old) (contents self.new))) }
        ensures cause { HasCause result (faults self.old) (faults self.new) }
        ensures through { through self.new ≡ through self.old };

    /// Flushes the writer. Its contents are unchanged, also after an error.
    fn flush(&mut self) -> Result<(), Unwritten>
        ensures bytes { Keeps (contents self.old) (contents self.new) }
        ensures cause { HasCause result (faults self.old) (faults self.new) }
        ensures through { through self.new ≡ through self.old };
}
