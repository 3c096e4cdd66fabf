//! Standard error, with the progress line erased before each write.
ghost use Rattle.std.specs.Prelude.{◌≡◌};

use crate::progress::Progress;
use std::io;
use std::io::Write;
use std::time::Clock;

/// A writer that erases the progress line of the terminal before each write, but not before a flush.
#[derive(Drop)]
pub(crate) struct Erasing<'a, R, W: Drop> {
    out: W,
    progress: &'a Progress<'a, R>,
}

impl<'a, R, W: Drop> Erasing<'a, R, W> {
    /// A writer to `out` that erases the progress line before each write.
    pub(crate) fn new(out: W, progress: &'a Progress<'a, R>) -> Erasing<'a, R, W>
        ensures { result.out ≡ out }
    {
        Erasing { out, progress }
    }
}

impl<R: Clock + Eprint, W: Write + Drop> Write for Erasing<'_, R, W> {
    ghost contents = { λ erasing. W.contents erasing.out };

    #[inline(never)]
    fn write(&mut self, buf: &[u8]) -> io::Result<usize> {
        self.progress.erase();
        self.out.write(buf)
    }

    fn flush(&mut self) -> io::Result<()> {
        self.out.flush()
    }
}
