//! Counts the errors of a borrowed writer of std.
ghost use Rattle.std.specs.Prelude.{◌≡◌, None, IfSome};
ghost use Rattle.byte_streams.specs.Faults.{Rises};

use crate::sink::{Sink, Unwritten};
use std::fmt::Display;
use std::io;
use std::io::{ErrorKind, Write};

/// Wraps a borrowed writer of std. It counts the failed calls, up to 18446744073709551615, and keeps the last error.
/// The bytes go directly to that writer, which still contains them when the borrow has ended.
#[derive(Drop)]
pub struct Lent<'a, W> {
    inner: &'a mut W,
    faults: u64,
    error: Option<io::Error>,
}

impl<'a, W> Lent<'a, W> {
    /// Borrows a writer, with a count of 0 and no error.
    pub fn new(inner: &'a mut W) -> Lent<'a, W>
        ensures inner { result.inner.now ≡ inner.old }
        ensures through { result.inner.ghost_name ≡ inner.entry.ghost_name }
        ensures faults { result.faults ≡ 0 }
        ensures error { result.error ≡ None }
    {
        Lent {
            inner,
            faults: 0,
            error: None,
        }
    }

    /// The error of the last failed write or flush, or an error of the kind `Other` if none failed.
    pub fn into_error(self) -> io::Error
        ensures { IfSome self.entry.error (λ error. result ≡ error) }
    {
        let Lent {
            inner: _,
            faults: _,
            error,
        } = self;
        match error {
            Some(error) => error,
            None => io::Error::from(ErrorKind::Other),
        }
    }

    // Counts a failed call, and keeps its error in place of an earlier one.
    #[cold]
    #[inline(never)]
    fn fail(&mut self, error: io::Error) -> Unwritten
        ensures inner { self.new.inner.now ≡ self.old.inner.now }
        ensures through { self.new.inner.ghost_name ≡ self.old.inner.ghost_name }
        ensures faults { Rises self.old.faults self.new.faults }
    {
        self.faults = self.faults.saturating_add(1);
        self.error = Some(error);
        Unwritten
    }
}

impl<W: Write> Sink for Lent<'_, W> {
    ghost contents = { λ lent. W.contents lent.inner.now };

    ghost faults = { λ lent. lent.faults };

    ghost through = { λ lent. lent.inner.ghost_name };

    fn write_all(&mut self, bytes: &[u8]) -> Result<(), Unwritten> {
        match self.inner.write_all(bytes) {
            Ok(()) => Ok(()),
            Err(error) => Err(self.fail(error)),
        }
    }

    fn write_fmt<D: Display>(&mut self, text: D) -> Result<(), Unwritten>
    where
        D: Drop,
    {
        match self.inner.write_fmt(text) {
            Ok(()) => Ok(()),
            Err(error) => Err(self.fail(error)),
        }
    }

    fn flush(&mut self) -> Result<(), Unwritten> {
        match self.inner.flush() {
            Ok(()) => Ok(()),
            Err(error) => Err(self.fail(error)),
        }
    }
}
