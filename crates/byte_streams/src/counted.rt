//! Counts the errors of readers and writers of std.
ghost use Rattle.std.specs.Prelude.{◌≡◌, ◌≤◌, ◌↔◌, IsTrue, None};
ghost use Rattle.byte_streams.specs.Faults.{Rises, IsCutOff};

use crate::sink::{Sink, Unwritten};
use crate::source::Source;
use std::fmt::Display;
use std::io;
use std::io::{Read, Write};

/// Wraps a reader or a writer of std. It counts the failed calls (also interrupted reads) and the bytes that reads
/// returned, each up to 18446744073709551615, and keeps the error of the last failed write or flush.
///
/// A write to a `Vec` fails if no memory can be allocated.
#[derive(Drop)]
pub struct Counted<T> {
    inner: T,
    faults: u64,
    given: u64,
    error: Option<io::Error>,
}

impl<T> Counted<T> {
    /// Wraps a reader or writer, with counts of 0 and no error.
    pub fn new(inner: T) -> Counted<T>
        ensures inner { result.inner ≡ inner }
        ensures faults { result.faults ≡ 0 }
        ensures given { result.given ≡ 0 }
        ensures error { result.error ≡ None }
    {
        Counted {
            inner,
            faults: 0,
            given: 0,
            error: None,
        }
    }

    /// The wrapped reader or writer.
    pub fn get_ref(&self) -> &T
        ensures { result.now ≡ self.now.inner }
    {
        &self.inner
    }

    /// The wrapped reader or writer, and the error of the last failed write or flush, or `None` if none failed.
    pub fn into_parts(self) -> (T, Option<io::Error>)
        ensures inner { result.0 ≡ self.inner }
        ensures error { result.1 ≡ self.error }
    {
        let Counted {
            inner,
            faults: _,
            given: _,
            error,
        } = self;
        (inner, error)
    }

    // Whether it counts as cut off: a call failed (also an interrupted read), or reads returned 2^64 - 1 bytes or more.
    fn is_cut_off(&self) -> bool
        ensures { IsTrue result ↔ IsCutOff 0 self.now.faults self.now.given }
    {
        self.faults > 0 || self.given == u64::MAX
    }

    /// `count` (of readers that were cut off), plus 1 if this one was: if a call failed (also an interrupted read), or
    /// if its reads have returned 18446744073709551615 bytes or more. The result is at most 18446744073709551615.
    pub fn count_cut_off(&self, count: u64) -> u64
        ensures cut_off { IsCutOff 0 self.now.faults self.now.given → Rises count result }
        ensures whole { ¬ IsCutOff 0 self.now.faults self.now.given → result ≡ count }
        ensures later { count ≤ result }
    {
        if self.is_cut_off() {
            count.saturating_add(1)
        } else {
            count
        }
    }

    // Counts a failed call.
    fn count_fault(&mut self)
        ensures inner { self.new.inner ≡ self.old.inner }
        ensures faults { Rises self.old.faults self.new.faults }
        ensures given { self.new.given ≡ self.old.given }
    {
        self.faults = self.faults.saturating_add(1);
    }

    // Counts a failed call, and keeps its error in place of an earlier one.
    #[cold]
    #[inline(never)]
    fn fail(&mut self, error: io::Error) -> Unwritten
        ensures inner { self.new.inner ≡ self.old.inner }
        ensures faults { Rises self.old.faults self.new.faults }
    {
        self.count_fault();
        self.error = Some(error);
        Unwritten
    }
}

impl<W: Write> Sink for Counted<W> {
    ghost contents = { λ counted. W.contents counted.inner };

    ghost faults = { λ counted. counted.faults };

    fn write_all(&mut self, bytes: &[u8]) -> Result<(), Unwritten> {
        match self.inner.write_all(bytes) {
            Ok(()) => Ok(()),
            Err(error) => Err(self.fail(error)),
        }
    }

    fn write_fmt<D: Display>(&mut self, text: D) -> Result<(), Unwritten>
    where
        D: Drop,
    {
        match self.inner.write_fmt(text) {
            Ok(()) => Ok(()),
            Err(error) => Err(self.fail(error)),
        }
    }

    fn flush(&mut self) -> Result<(), Unwritten> {
        match self.inner.flush() {
            Ok(()) => Ok(()),
            Err(error) => Err(self.fail(error)),
        }
    }
}

impl<R: Read> Source for Counted<R> {
    ghost remaining = { λ counted. R.remaining counted.inner };

    ghost faults = { λ counted. counted.faults };

    ghost given = { λ counted. counted.given };

    #[inline(always)]
    fn read(&mut self, buffer: &mut [u8]) -> io::Result<usize> {
        match self.inner.read(buffer) {
            Ok(n) => {
                self.given = self.given.saturating_add(n as u64);
                Ok(n)
            }
            Err(error) => {
                self.count_fault();
                Err(error)
            }
        }
    }
}

#[cfg(test)]
mod tests {
    //! Tests of reads, writes and failed calls.
    use crate::{Bytes, Counted, Lent, Sink, Source, Unwritten};
    use std::io;
    use std::io::{ErrorKind, Read, Write};

    // Writes a number between brackets, and flushes the sink.
    fn write_number<S: Sink>(n: u64, out: &mut S) -> Result<(), Unwritten> {
        out.write_all(b"[")?;
        write!(out, "{n}")?;
        out.write_all(b"]")?;
        out.flush()
    }

    // A reader and writer whose calls all fail.
    #[derive(Drop)]
    struct Broken;

    impl Write for Broken {
        fn write(&mut self, _buf: &[u8]) -> io::Result<usize> {
            Err(io::Error::from(ErrorKind::BrokenPipe))
        }

        fn flush(&mut self) -> io::Result<()> {
            Err(io::Error::from(ErrorKind::TimedOut))
        }
    }

    impl Read for Broken {
        fn read(&mut self, _buf: &mut [u8]) -> io::Result<usize> {
            Err(io::Error::from(ErrorKind::BrokenPipe))
        }
    }

    #[test]
    fn a_vector_is_written(rt: HostRuntime) {
        let mut out = Counted::new(Vec::new(rt.alloc()));
        let written = write_number(25, &mut out);
        let (text, error) = out.into_parts();
        assert!(rt; written == Ok(()) && error.is_none());
        assert!(rt; text.as_slice() == b"[25]".as_slice());
    }

    #[test]
    fn each_failed_call_is_counted(rt: HostRuntime) {
        let mut out = Counted::new(Broken);
        assert!(rt; out.write_all(b"a") == Err(Unwritten) && out.faults == 1);
        let n = 7u8;
        assert!(rt; write!(&mut out, "{n}") == Err(Unwritten) && out.faults == 2);
        assert!(rt; out.flush() == Err(Unwritten) && out.faults == 3);
        assert!(rt; Source::read(&mut out, &mut [0; 4]).is_err() && out.faults == 4);
        let (_, error) = out.into_parts();
        assert!(rt; error.is_some_and(|e| e.kind() == ErrorKind::TimedOut));
    }

    #[test]
    fn what_is_lent_is_written(rt: HostRuntime) {
        let mut text = Vec::new(rt.alloc());
        let written = write_number(25, &mut Lent::new(&mut text));
        assert!(rt; written == Ok(()) && text.as_slice() == b"[25]".as_slice());
        let mut broken = Broken;
        let mut out = Lent::new(&mut broken);
        let n = 7u8;
        assert!(rt;
            out.write_all(b"a") == Err(Unwritten) && write!(&mut out, "{n}") == Err(Unwritten)
        );
        assert!(rt; out.flush() == Err(Unwritten));
        assert!(rt; out.into_error().kind() == ErrorKind::TimedOut);
    }

    #[test]
    fn a_slice_is_read_to_its_end(rt: HostRuntime) {
        let mut rest = Bytes::new(b"abcde");
        let mut buffer = [0; 3];
        let first = Source::read(&mut rest, &mut buffer);
        assert!(rt; first.is_ok_and(|n| n == 3) && buffer == *b"abc");
        let second = Source::read(&mut rest, &mut buffer);
        assert!(rt; second.is_ok_and(|n| n == 2) && buffer == *b"dec");
        let third = Source::read(&mut rest, &mut buffer);
        assert!(rt; third.is_ok_and(|n| n == 0));
    }
}
