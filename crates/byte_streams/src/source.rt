//! Readers.
ghost use Rattle.std.specs.Io.{ReadsAtMost};
ghost use Rattle.std.specs.Io.KnownBytes.{ReadConsumes};
ghost use Rattle.std.specs.Prelude.{◌≡◌, ℕ, List, Option};
ghost use Rattle.byte_streams.specs.Faults.{HasCause, HasGiven};

use std::io;
use std::io::Read;

/// A reader. `read` returns an error if and only if a call that it made to the underlying reader failed.
pub trait Source {
    // The unread bytes, if they are known.
    ghost remaining: { Self → Option (List ℕ) };

    // How many calls to the underlying reader have failed. The count may stop at 18446744073709551615.
    ghost faults: { Self → ℕ };

    // How many bytes its reads have returned, up to 18446744073709551615.
    ghost given: { Self → ℕ };

    /// Reads some bytes into the start of a buffer. Returns how many: 0 at the end of the input, or if the buffer has
    /// length 0. A failed read consumes no bytes.
    fn read(&mut self, buffer: &mut [u8]) -> io::Result<usize>
        ensures bound { ReadsAtMost result buffer.new }
        ensures bytes { ReadConsumes (remaining self.old) (remaining self.new) result buffer.new }
        ensures given { HasGiven result (given self.old) (given self.new) }
        ensures cause { HasCause result (faults self.old) (faults self.new) };
}

/// Bytes in memory. Reading them never fails.
#[derive(Clone, Copy)]
pub struct Bytes<'a> {
    rest: &'a [u8],
    given: u64,
}

impl<'a> Bytes<'a> {
    /// A source of these bytes, all unread.
    pub fn new(bytes: &'a [u8]) -> Bytes<'a>
        ensures rest { result.rest.now ≡ bytes.now }
        ensures given { result.given ≡ 0 }
    {
        Bytes {
            rest: bytes,
            given: 0,
        }
    }
}

impl Source for Bytes<'_> {
    ghost use Rattle.std.specs.Prelude.{Some};

    ghost remaining = { λ bytes. Some bytes.rest.now };

    ghost faults = { λ _. 0 };

    ghost given = { λ bytes. bytes.given };

    fn read(&mut self, buffer: &mut [u8]) -> io::Result<usize> {
        let n = Read::read(&mut self.rest, buffer)?;
        self.given = self.given.saturating_add(n as u64);
        Ok(n)
    }
}
