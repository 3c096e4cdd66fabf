//! A buffer in an array.
ghost use Rattle.std.specs.Io.KnownBytes.{Consumes, IsAtEnd, Keeps};
ghost use Rattle.std.specs.IoError.{error_kind};
ghost use Rattle.std.specs.Prelude.{◌≡◌, ◌≢◌, ◌+◌, ◌-◌, ◌<◌, ◌≤◌, ◌↔◌, ℕ, List, [], ◌++◌, length, take, drop, Some, IsTrue, false, MatchResult};
ghost use Rattle.byte_streams.specs.Buffer.{Contents};
ghost use Rattle.byte_streams.specs.Faults.{HasCause, HasProgressed, HasGiven, Rises};

use crate::source::Source;
use std::io;
use std::io::{ErrorKind, Write};
use std::marker::Model;

/// A buffer of at most `N` bytes in an array. It allocates nothing, and clearing it costs nothing. Its `write`
/// appends as many of the bytes as fit after the buffered ones, and returns how many it appended.
#[derive(Drop)]
pub struct ArrayBuf<const N: usize> {
    /// The array. Its bytes from `start` to before `end` are buffered.
    pub(crate) array: [u8; N],
    /// The index of the first buffered byte.
    pub(crate) start: usize,
    /// The index after the last buffered byte. Appended bytes are stored from this index on.
    pub(crate) end: usize,
}

impl<const N: usize> Model for ArrayBuf<N> {
    ghost Value = { Contents };

    ghost view = { λ buffer.
        record { items = take (buffer.end - buffer.start) (drop buffer.start buffer.array); room = N - buffer.end } };

    ghost invariant = { λ buffer. (buffer.start ≤ buffer.end) × (buffer.end ≤ N) };
}

impl<const N: usize> ArrayBuf<N> {
    /// An empty buffer.
    #[inline(always)]
    pub fn new() -> ArrayBuf<N>
        ensures items { result.items ≡ [] }
        ensures room { result.room ≡ N }
    {
        ArrayBuf {
            array: [0; N],
            start: 0,
            end: 0,
        }
    }

    /// Whether no byte is buffered.
    #[inline(always)]
    pub fn is_empty(&self) -> bool
        ensures empty { IsTrue result → length self.now.items ≡ 0 }
        ensures some { result ≡ false → 0 < length self.now.items }
    {
        self.start == self.end
    }

    /// The buffered bytes.
    #[inline(always)]
    pub fn as_slice(&self) -> &[u8]
        ensures bytes { result.now ≡ self.now.items }
        ensures most { length result.now ≤ N }
    {
        let array = &self.array[..];
        &array[self.start..self.end]
    }

    /// Removes all bytes.
    #[inline(always)]
    pub fn clear(&mut self)
        ensures items { self.new.items ≡ [] }
        ensures room { self.new.room ≡ N }
    {
        self.start = 0;
        self.end = 0;
    }

    /// Removes all bytes but the last `n`, and frees no room for `append`. The buffer must contain at least `n` bytes.
    pub fn keep_last(&mut self, n: usize)
        requires { n ≤ length self.old.items }
        ensures { self.new.items ≡ drop (length self.old.items - n) self.old.items }
    {
        self.start = self.end - n;
    }

    /// Whether these bytes fit between the buffered ones and the end of the array.
    #[inline(always)]
    pub fn has_room(&self, bytes: &[u8]) -> bool
        ensures { IsTrue result ↔ (length bytes.now ≤ self.now.room) }
    {
        bytes.len() <= N - self.end
    }

    /// Appends bytes, which must fit (see [`has_room`](ArrayBuf::has_room)).
    #[inline(always)]
    pub fn append(&mut self, bytes: &[u8])
        requires { length bytes.now ≤ self.old.room }
        ensures items { self.new.items ≡ self.old.items ++ bytes.now }
        ensures room { self.new.room ≡ self.old.room - length bytes.now }
    {
        if bytes.is_empty() {
            return;
        }
        let end = self.end + bytes.len();
        let array = &mut self.array[..];
        array[self.end..end].copy_from_slice(bytes);
        self.end = end;
    }

    // Moves the bytes to the start of the array, so that all free bytes come after them.
    fn move_to_start(&mut self)
        ensures items { self.new.items ≡ self.old.items }
        ensures room { self.new.room ≡ N - length self.old.items }
    {
        self.array.copy_within(self.start..self.end, 0);
        self.end -= self.start;
        self.start = 0;
    }

    // Reads once, into the free bytes at the end of the array, of which there must be some. Returns how many bytes were
    // read: 0 at the end of the input.
    fn read_behind<R: Source>(&mut self, input: &mut R) -> io::Result<usize>
        requires { 0 < self.old.room }
        ensures read { MatchResult result
            (λ n. (more : List ℕ) × (self.new.items ≡ self.old.items ++ more) × (length more ≡ n)
            × Consumes (R.remaining input.old) (R.remaining input.new) more
            × (n ≡ 0 → IsAtEnd (R.remaining input.new)))
            (λ _. Keeps (R.remaining input.old) (R.remaining input.new) × (self.new.items ≡ self.old.items)) }
        ensures given { HasGiven result (R.given input.old) (R.given input.new) }
        ensures cause { HasCause result (R.faults input.old) (R.faults input.new) }
    {
        let array = &mut self.array[..];
        match input.read(&mut array[self.end..]) {
            Ok(n) => {
                self.end += n;
                Ok(n)
            }
            Err(e) => Err(e),
        }
    }

    /// Reads from `input` once, and appends the bytes read. Returns `false` at the end of the input, and otherwise
    /// `true`, also for an interrupted read, which appends nothing. Returns the error of any other failed read, and
    /// leaves the buffered bytes unchanged. The buffer must contain fewer than `N` bytes.
    pub fn fill<R: Source>(&mut self, input: &mut R) -> io::Result<bool>
        requires { length self.old.items < N }
        ensures read { MatchResult result
            (λ goes_on. (more : List ℕ) × (self.new.items ≡ self.old.items ++ more)
            × Consumes (R.remaining input.old) (R.remaining input.new) more
            × (goes_on ≡ false → (more ≡ []) × IsAtEnd (R.remaining input.new)))
            (λ e. Keeps (R.remaining input.old) (R.remaining input.new) × (self.new.items ≡ self.old.items)
            × (error_kind e ≢ ErrorKind.Interrupted)) }
        ensures cause { MatchResult result
            (λ goes_on. IsTrue goes_on → HasProgressed (R.faults input.old) (R.faults input.new) (R.given input.old) (R.given input.new))
            (λ _. Rises (R.faults input.old) (R.faults input.new)) }
    {
        self.move_to_start();
        match self.read_behind(input) {
            Ok(0) => Ok(false),
            Ok(_) => Ok(true),
            Err(e) => {
                if e.kind() == ErrorKind::Interrupted {
                    Ok(true)
                } else {
                    Err(e)
                }
            }
        }
    }
}

impl<const N: usize> Write for ArrayBuf<N> {
    ghost contents = { λ buffer. Some buffer.items };

    // Appends as many of the bytes as fit.
    fn write(&mut self, buf: &[u8]) -> io::Result<usize> {
        let n = buf.len().min(N - self.end);
        self.append(&buf[..n]);
        Ok(n)
    }

    // Does nothing, and never fails.
    fn flush(&mut self) -> io::Result<()> {
        Ok(())
    }

    // Appends the bytes. If they don't all fit, appends those that fit, and returns an error of the kind `WriteZero`.
    #[inline(always)]
    fn write_all(&mut self, buf: &[u8]) -> io::Result<()> {
        if self.has_room(buf) {
            self.append(buf);
            return Ok(());
        }
        self.write(buf)?;
        Err(io::Error::from(ErrorKind::WriteZero))
    }
}
