//! The calls to a folder that the replacement of a file needs.
ghost use Rattle.std.specs.Prelude.{◌≡◌, ℕ, List, [], Option, Some, IfErr, IfOk, IfSome, true};
ghost use Rattle.std.specs.IoError.{error_kind};
ghost use Rattle.std.specs.declared.io.Error.{Error};
ghost use Rattle.restamp_in_place.specs.Replacing.{Event, leads, stored, Tries, Creates, Stores, Links, Renames, Removes, Syncs};

use byte_streams::{Counted, Sink, Source};
use std::io;
use std::io::ErrorKind;

/// The state of a file when it was opened: which file it is, its length, time of the last write, mode, owner and group.
#[derive(Clone, Copy, Debug, PartialEq, Eq)]
pub struct Original {
    /// The file's number in its file system (its inode number).
    pub number: u64,
    /// The number of the file system.
    pub device: u64,
    /// The length in bytes.
    pub length: u64,
    /// The time of the last write: the seconds since 1970-01-01T00:00:00Z, and the nanoseconds after them.
    pub written: (i64, i64),
    /// The permission bits of its mode, without the file's type.
    pub mode: u32,
    /// The owner's number.
    pub owner: u32,
    /// The group's number.
    pub group: u32,
}

/// A writer that keeps the error of the last write or flush that failed.
pub trait Failing {
    // The error of the last failed write or flush; `None` if none failed.
    ghost failure: { Self → Option Error };

    /// Returns the error of the last failed write or flush, `None` if none failed, and drops the writer.
    fn into_failure(self) -> Option<io::Error>
        ensures { result ≡ failure self };
}

impl<W: Drop> Failing for Counted<W> {
    ghost failure = { λ counted. counted.error };

    fn into_failure(self) -> Option<io::Error> {
        let (_, error) = self.into_parts();
        error
    }
}

/// A folder. Each call but `open` and `is_at` makes one change in it. A failed call has made its whole change, or none.
///
/// `events` lists what was done in the folder, the last event first. For files on a disk it is `None`, so that nothing
/// is proved about them: the contracts then state only what is assumed.
pub trait Folder {
    /// A file that is read.
    type Old: Source + Drop;

    /// A new file, which is written. A crash may leave any bytes in it until it is stored.
    type New: Sink + Failing + Drop;

    // What was done in the folder, the last event first, if it is known.
    ghost events: { Self → Option (List Event) };

    /// Opens a file to be replaced. Returns its reader and its state. Rejects all but regular files with a single name.
    fn open(&self, name: &str) -> io::Result<(Self::Old, Original)>
        ensures { IfOk result (λ opened. IfSome (events self.now) (λ done.
            (leads done name.now ≡ Some opened.1.number)
            × ((read : List ℕ) × (Self.Old.remaining opened.0 ≡ Some read)
            × IfSome (stored done opened.1.number) (λ bytes. bytes ≡ read)))) };

    /// Whether the name still points to the file that had the state `original`, and the file still has that state.
    fn is_at(&self, name: &str, original: &Original) -> io::Result<bool>
        ensures { IfOk result (λ is. IfSome (events self.now) (λ done.
            is ≡ true → leads done name.now ≡ Some original.now.number)) };

    /// Creates an empty file under an unused name, readable by no other user. After an error of the kind
    /// `AlreadyExists` nothing was created.
    fn create(&mut self, name: &str) -> io::Result<Self::New>
        ensures made { Tries (events self.old) (events self.new) result (Creates name.now) }
        ensures taken { IfErr result (λ e. error_kind e ≡ ErrorKind.AlreadyExists → events self.new ≡ events self.old) }
        ensures empty { IfOk result (λ new. IfSome (events self.old) (λ _. Self.New.contents new ≡ Some [])) };

    /// Closes the new file of that name, and writes its bytes to the disk. The file gets the mode of the old one, and
    /// where permitted, the owner and group of the old one.
    fn store(&mut self, name: &str, new: Self::New, original: &Original) -> io::Result<()>
        ensures { Tries (events self.old) (events self.new) result (Stores name.now (Self.New.contents new)) };

    /// Adds a second name to a file (a hard link). An error if that name is in use.
    fn link(&mut self, name: &str, second: &str) -> io::Result<()>
        ensures { Tries (events self.old) (events self.new) result (Links name.now second.now) };

    /// Renames a file to `onto`. If `onto` was in use, it no longer points to its old file.
    fn rename(&mut self, name: &str, onto: &str) -> io::Result<()>
        ensures { Tries (events self.old) (events self.new) result (Renames name.now onto.now) };

    /// Removes a name. The bytes of its file remain if the file has another name.
    fn remove(&mut self, name: &str) -> io::Result<()>
        ensures { Tries (events self.old) (events self.new) result (Removes name.now) };

    /// Writes the names of the folder to the disk.
    fn sync(&mut self) -> io::Result<()>
        ensures { Tries (events self.old) (events self.new) result Syncs };
}
