//! Folders on a disk.
use crate::opening::Metered;
use crate::progress::{Meter, Progress};
use byte_streams::Counted;
use restamp_in_place::{Folder, Original};
use std::fs::{Metadata, OpenFile, OpenOptions, Permissions};
use std::io::ErrorKind;
use std::os::unix::fs::{FileTypeExt, MetadataExt, OpenOptionsExt, PermissionsExt, lchown};
use std::path::PathBuf;
use std::rt::Files;
use std::time::Clock;
use std::{fs, io};

// The permission bits of a mode, with set-user-ID, set-group-ID and sticky.
const MODE: u32 = 0o7777;

/// A folder of the file system, in which one file is replaced.
#[derive(Drop)]
pub(crate) struct DiskFolder<'a, R> {
    rt: &'a R,
    progress: &'a Progress<'a, R>,
    // The folder's absolute path, without symbolic links.
    path: PathBuf,
    // The path of the file as the command line has it.
    shown: &'a str,
}

// Why a file can't be replaced; `None` for a regular file with a single name, which can.
fn refusal_of(metadata: &Metadata) -> Option<&'static str> {
    let kind = metadata.file_type();
    if kind.is_file() {
        return (metadata.nlink() > 1).then_some("it has more than one name (hard links)");
    }
    Some(if kind.is_dir() {
        "it is a folder"
    } else if kind.is_fifo() {
        "it is a pipe"
    } else if kind.is_socket() {
        "it is a socket"
    } else {
        "it is a device"
    })
}

// The state of a file when its metadata was read.
fn state_of(metadata: &Metadata) -> Original {
    Original {
        number: metadata.ino(),
        device: metadata.dev(),
        length: metadata.len(),
        written: (metadata.mtime(), metadata.mtime_nsec()),
        mode: metadata.mode() & MODE,
        owner: metadata.uid(),
        group: metadata.gid(),
    }
}

// The state of a file, or the error `InvalidInput` if it isn't a regular file with a single name.
fn original_of(metadata: &Metadata) -> io::Result<Original> {
    match refusal_of(metadata) {
        Some(why) => Err(io::Error::new(ErrorKind::InvalidInput, why)),
        None => Ok(state_of(metadata)),
    }
}

/// The folder that contains the file of a path, and the file's name there. Symbolic links are followed. An error if
/// there is no such file, or the path is that of the root folder.
pub(crate) fn find<'a, R: Files + AllocGlobal>(
    rt: &'a R,
    progress: &'a Progress<'a, R>,
    path: &'a str,
) -> io::Result<(DiskFolder<'a, R>, String)> {
    let mut whole = fs::canonicalize(rt, path)?;
    let name = match whole.file_name() {
        Some(name) => String::from_str(rt.alloc(), name)?,
        None => return Err(io::Error::new(ErrorKind::InvalidInput, "it is a folder")),
    };
    whole.pop();
    let folder = DiskFolder {
        rt,
        progress,
        path: whole,
        shown: path,
    };
    Ok((folder, name))
}

impl<'a, R: Files + Clock + Eprint + AllocGlobal> DiskFolder<'a, R> {
    // The path of a name in the folder. The error is that memory is short.
    fn path_of(&self, name: &str) -> io::Result<PathBuf> {
        Ok(self.path.join(self.rt.alloc(), name)?)
    }

    // The meter of a file of that size in bytes (0: unknown); `None` without reports, memory or a clock.
    fn meter(&self, size: u64) -> Option<Meter> {
        if !self.progress.is_enabled() {
            return None;
        }
        let size = (size > 0).then_some(size);
        self.progress
            .begin(self.rt.alloc(), self.shown.as_bytes(), size)
    }

    // Tries to set a file's group and owner to the original's. An error only if memory or its metadata is unavailable.
    fn keep_owner(&self, name: &str, original: &Original) -> io::Result<()> {
        let path = self.path_of(name)?;
        let made = fs::symlink_metadata(self.rt, path.as_path())?;
        if made.gid() != original.group {
            let _ = lchown(self.rt, path.as_path(), None, Some(original.group));
        }
        if made.uid() != original.owner {
            let _ = lchown(self.rt, path.as_path(), Some(original.owner), None);
        }
        Ok(())
    }
}

impl<'a, R: Files + Clock + Eprint + AllocGlobal> Folder for DiskFolder<'a, R> {
    ghost use Rattle.std.specs.Prelude.{None};

    type Old = Metered<'a, R, Counted<R::File>>;

    type New = Counted<R::File>;

    ghost events = { λ _. None };

    fn open(&self, name: &str) -> io::Result<(Self::Old, Original)> {
        self.progress.erase();
        let path = self.path_of(name)?;
        let seen = original_of(&fs::symlink_metadata(self.rt, path.as_path())?)?;
        let file = fs::open(self.rt, path.as_path())?;
        let original = original_of(&file.metadata()?)?;
        if original != seen {
            return Err(io::Error::new(ErrorKind::Other, "another program changed it meanwhile"));
        }
        let meter = self.meter(original.length);
        Ok((
            Metered::new(Counted::new(file), meter, self.progress),
            original,
        ))
    }

    // Whether the file of that name is in the original's state. It may have a second name, as after `link`.
    fn is_at(&self, name: &str, original: &Original) -> io::Result<bool> {
        let path = self.path_of(name)?;
        Ok(state_of(&fs::symlink_metadata(self.rt, path.as_path())?) == *original)
    }

    fn create(&mut self, name: &str) -> io::Result<Self::New> {
        let path = self.path_of(name)?;
        let file = OpenOptions::new()
            .write(true)
            .create_new(true)
            .mode(0o600)
            .open(self.rt, path.as_path())?;
        Ok(Counted::new(file))
    }

    fn store(&mut self, name: &str, new: Self::New, original: &Original) -> io::Result<()> {
        self.keep_owner(name, original)?;
        let (file, _) = new.into_parts();
        file.set_permissions(Permissions::from_mode(original.mode))?;
        file.sync_all()
    }

    fn link(&mut self, name: &str, second: &str) -> io::Result<()> {
        fs::hard_link(self.rt, self.path_of(name)?, self.path_of(second)?)
    }

    fn rename(&mut self, name: &str, onto: &str) -> io::Result<()> {
        fs::rename(self.rt, self.path_of(name)?, self.path_of(onto)?)
    }

    fn remove(&mut self, name: &str) -> io::Result<()> {
        fs::remove_file(self.rt, self.path_of(name)?)
    }

    fn sync(&mut self) -> io::Result<()> {
        fs::open(self.rt, self.path.as_path())?.sync_all()
    }
}
