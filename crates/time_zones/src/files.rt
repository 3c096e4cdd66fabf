//! Reads the files of zones.
ghost use Rattle.std.specs.Prelude.{ℕ, List, Result, Ok, Err, IfOk, IfErr};
ghost use Rattle.time_zones.specs.declared.files.ReadFault.{ReadFault as Fault};

use std::io::{ErrorKind, Read};
use std::rt::Files;
use std::{fs, io};

// The length of the longest file that is read as a zone, in bytes: 1 MiB. Those of the database have a few kilobytes.
const MOST_BYTES: u64 = 1 << 20;

/// Why a file wasn't read: it is missing, it is a folder, it can't be read, or memory ran out.
#[derive(Clone, Copy, Debug, PartialEq, Eq)]
pub enum ReadFault {
    /// There is no such file.
    Missing,
    /// The path is a folder.
    Folder,
    /// The file can't be read, or, on disk, isn't a regular file (`InvalidInput`) or exceeds 1 MiB (`FileTooLarge`).
    Unreadable(ErrorKind),
    /// Memory ran out.
    OutOfMemory,
}

/// Reads the files of zones by their paths, from the disk or from any other source.
pub trait ZoneFiles {
    // The possible results of reading the file at a path.
    ghost gives: { Self → List ℕ → Result (List ℕ) Fault → Type 0 };

    /// All bytes of the file at the path, or why they can't be read.
    fn read(&self, path: &str) -> Result<Vec<u8>, ReadFault>
        ensures ok { IfOk result (λ bytes. gives self.now path.now (Ok bytes.items)) }
        ensures err { IfErr result (λ fault. gives self.now path.now (Err fault)) };
}

/// The files of the system.
#[derive(Drop)]
pub(crate) struct Disk<'a, R> {
    pub(crate) rt: &'a R,
}

// Converts an error of the system: `NotFound` to `Missing`, `OutOfMemory` to `OutOfMemory`, and others to `Unreadable`.
fn fault_from(error: io::Error) -> ReadFault {
    match error.kind() {
        ErrorKind::NotFound => ReadFault::Missing,
        ErrorKind::OutOfMemory => ReadFault::OutOfMemory,
        kind => ReadFault::Unreadable(kind),
    }
}

// The bytes of the file, or `FileTooLarge` above `MOST_BYTES`. Reads at most one byte more, however long the file is.
fn read_whole<R: Files + AllocGlobal>(rt: &R, path: &str) -> io::Result<Vec<u8>> {
    let mut bytes = Vec::new(rt.alloc());
    let mut file = fs::open(rt, path)?.take(MOST_BYTES + 1);
    file.read_to_end(&mut bytes)?;
    if bytes.len() as u64 > MOST_BYTES {
        return Err(io::Error::from(ErrorKind::FileTooLarge));
    }
    Ok(bytes)
}

// The contract permits any result, since the contents of files are unknown beforehand.
impl<R: Files + AllocGlobal> ZoneFiles for Disk<'_, R> {
    ghost gives = { λ _ _ _. Unit {0} };

    fn read(&self, path: &str) -> Result<Vec<u8>, ReadFault> {
        let metadata = fs::metadata(self.rt, path).map_err(fault_from)?;
        if metadata.is_dir() {
            return Err(ReadFault::Folder);
        }
        if !metadata.is_file() {
            return Err(ReadFault::Unreadable(ErrorKind::InvalidInput));
        }
        read_whole(self.rt, path).map_err(fault_from)
    }
}
