//! Opens files, and counts the failures to open them.
ghost use Rattle.std.specs.Prelude.{◌≡◌, IfOk};
ghost use Rattle.byte_streams.specs.Faults.{HasCause, Rises};

use crate::counted::Counted;
use std::io::ErrorKind;
use std::rt::Files;
use std::{fs, io, str};

/// Opens files by name, and counts the failures to open them, up to 18446744073709551615.
#[derive(Drop)]
pub struct Opener<'a, R> {
    rt: &'a R,
    faults: u64,
}

impl<'a, R> Opener<'a, R> {
    /// Makes an opener that opens files through the runtime `rt`, with a count of 0 failures.
    pub fn new(rt: &'a R) -> Opener<'a, R>
        ensures { result.faults ≡ 0 }
    {
        Opener { rt, faults: 0 }
    }

    // Counts a failure to open a file.
    fn count_fault(&mut self)
        ensures { Rises self.old.faults self.new.faults }
    {
        self.faults = self.faults.saturating_add(1);
    }
}

impl<R: Files> Opener<'_, R> {
    /// Opens a file for reading, by its name in UTF-8. The counts of the returned file are 0. Returns an error, and
    /// counts a failure, if the file can't be opened, or if the name isn't UTF-8 (`InvalidInput`).
    pub fn open(&mut self, name: &[u8]) -> io::Result<Counted<R::File>>
        ensures begun { IfOk result (λ file. file.faults ≡ 0) }
        ensures cause { HasCause result self.old.faults self.new.faults }
    {
        let file = match str::from_utf8(name) {
            Ok(path) => fs::open(self.rt, path),
            Err(_) => Err(io::Error::from(ErrorKind::InvalidInput)),
        };
        match file {
            Ok(file) => Ok(Counted::new(file)),
            Err(error) => {
                self.count_fault();
                Err(error)
            }
        }
    }
}
