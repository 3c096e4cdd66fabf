//! Files and standard input, by their names.
ghost use Rattle.std.specs.Prelude.{◌≡◌, ◌≤◌};
ghost use Rattle.byte_streams.specs.Faults.{IsCutOff, Rises};
ghost use Rattle.restamp.specs.Progress.{faults_of, given_of};

use crate::progress::{Meter, Progress};
use byte_streams::{Counted, Opener, Source};
use restamp_stream::Opening;
use std::fs::{Metadata, OpenFile};
use std::rt::Files;
use std::time::Clock;
use std::{fs, io};

/// The files of the system. The name `-` is standard input.
#[derive(Drop)]
pub(crate) struct Disk<'a, R> {
    rt: &'a R,
    opener: Opener<'a, R>,
    progress: &'a Progress<'a, R>,
    // How many closed inputs were cut off: a read failed or was interrupted, or reads returned at least 2^64 - 1 bytes.
    cut_off: u64,
}

/// An input: a file or standard input.
#[derive(Drop)]
pub(crate) enum Origin<F: Drop, I: Drop> {
    /// A file.
    File(F),
    /// Standard input.
    Input(I),
}

impl<F: Source + Drop, I: Source + Drop> Source for Origin<F, I> {
    ghost use Rattle.restamp.specs.Progress.{of_either};

    ghost remaining = { of_either F.remaining I.remaining };

    ghost faults = { of_either F.faults I.faults };

    ghost given = { of_either F.given I.given };

    fn read(&mut self, buffer: &mut [u8]) -> io::Result<usize> {
        match self {
            Origin::File(file) => file.read(buffer),
            Origin::Input(input) => input.read(buffer),
        }
    }
}

impl<F: Drop, I: Drop> Origin<Counted<F>, Counted<I>> {
    // `count`, a number of inputs that were cut off, plus one if this input was; at most 2^64 - 1.
    fn count_cut_off(&self, count: u64) -> u64
        ensures cut_off { IsCutOff 0 (faults_of self.now) (given_of self.now) → Rises count result }
        ensures whole { ¬ IsCutOff 0 (faults_of self.now) (given_of self.now) → result ≡ count }
        ensures later { count ≤ result }
    {
        match self {
            Origin::File(file) => file.count_cut_off(count),
            Origin::Input(input) => input.count_cut_off(count),
        }
    }
}

/// A source that reports its progress; without a meter it reports nothing.
#[derive(Drop)]
pub(crate) struct Metered<'a, R, S: Drop> {
    source: S,
    meter: Option<Meter>,
    progress: &'a Progress<'a, R>,
}

impl<'a, R, S: Drop> Metered<'a, R, S> {
    /// The source, which reports its progress by the meter; for `None` it reports nothing.
    pub(crate) fn new(
        source: S,
        meter: Option<Meter>,
        progress: &'a Progress<'a, R>,
    ) -> Metered<'a, R, S>
        ensures { result.source ≡ source }
    {
        Metered {
            source,
            meter,
            progress,
        }
    }
}

impl<R: Clock + Eprint, S: Source + Drop> Source for Metered<'_, R, S> {
    ghost remaining = { λ metered. S.remaining metered.source };

    ghost faults = { λ metered. S.faults metered.source };

    ghost given = { λ metered. S.given metered.source };

    // Progress is reported before a read, since then all earlier whole lines are processed and their reports are
    // complete. Not inlined, since the compiler decides by size how to compile the loop that calls it.
    #[inline(never)]
    fn read(&mut self, buffer: &mut [u8]) -> io::Result<usize> {
        let Some(meter) = &mut self.meter else {
            return self.source.read(buffer);
        };
        self.progress.report(meter);
        let n = self.source.read(buffer)?;
        meter.count(n);
        Ok(n)
    }
}

// The size of a file in bytes; `None` if it is unknown or 0.
fn size_of(metadata: io::Result<Metadata>) -> Option<u64> {
    match metadata.ok()?.len() {
        0 => None,
        size => Some(size),
    }
}

impl<'a, R: Files + Input + Clock + Eprint + AllocGlobal> Disk<'a, R> {
    /// The files of the system, of which none has been opened.
    pub(crate) fn new(rt: &'a R, progress: &'a Progress<'a, R>) -> Disk<'a, R> {
        Disk {
            rt,
            opener: Opener::new(rt),
            progress,
            cut_off: 0,
        }
    }

    // The source, which reports its progress if that is enabled and `begin` returns a meter of that name and size.
    fn metered<S: Drop>(&self, name: &[u8], source: S, size: Option<u64>) -> Metered<'a, R, S>
        ensures { result.source ≡ source }
    {
        let meter = if self.progress.is_enabled() {
            self.progress.begin(self.rt.alloc(), name, size)
        } else {
            None
        };
        Metered::new(source, meter, self.progress)
    }
}

impl<'a, R: Files + Input + Clock + Eprint + AllocGlobal> Opening for Disk<'a, R> {
    type Input = Metered<'a, R, Origin<Counted<R::File>, Counted<R::Reader>>>;

    ghost use Rattle.std.specs.Prelude.{None, ◌+◌};

    // No contract describes the bytes of files.
    ghost bytes_of = { λ _ _. None };

    ghost faults = { λ disk. disk.opener.faults + disk.cut_off };

    #[inline(never)]
    fn open(
        &mut self,
        name: &[u8],
    ) -> io::Result<Metered<'a, R, Origin<Counted<R::File>, Counted<R::Reader>>>> {
        self.progress.erase();
        if name == b"-".as_slice() {
            let size = size_of(fs::metadata(self.rt, "/dev/stdin"));
            let input = Counted::new(self.rt.reader());
            return Ok(self.metered(name, Origin::Input(input), size));
        }
        let file = self.opener.open(name)?;
        let size = size_of(file.get_ref().metadata());
        Ok(self.metered(name, Origin::File(file), size))
    }

    fn close(&mut self, input: Metered<'a, R, Origin<Counted<R::File>, Counted<R::Reader>>>) {
        self.cut_off = input.source.count_cut_off(self.cut_off);
    }
}
