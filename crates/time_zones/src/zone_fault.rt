//! Errors of finding a zone.
use jiff_core::Error;
use jiff_core::error::TzifFault;
use std::alloc::AllocError;
use std::{fmt, io};

/// Why a zone wasn't found: a fault in its name, an environment variable, its file or the folder, or memory ran out.
#[derive(Debug, Drop, PartialEq, Eq)]
pub enum ZoneFault {
    /// A part of the name, or of the name in `TZ`, is empty, `.` or `..`. Slashes separate the parts.
    NotAName,
    /// The variable `TZ` or `TZDIR` isn't UTF-8.
    NotText,
    /// The zone's file, or the folder of zones, doesn't exist.
    Unknown {
        /// The path of the missing file or folder.
        path: String,
    },
    /// The path of the zone's file is that of a folder.
    Folder,
    /// The zone's file or the folder of zones can't be read, or the file isn't regular (`InvalidInput`) or exceeds
    /// 1 MiB (`FileTooLarge`).
    Unreadable(io::ErrorKind),
    /// The file isn't a valid TZif file.
    Malformed(TzifFault),
    /// Memory ran out.
    OutOfMemory,
}

impl From<AllocError> for ZoneFault {
    ghost use Rattle.std.specs.Prelude.{◌≡◌};
    ghost use Rattle.time_zones.specs.declared.zone_fault.ZoneFault.TheVariants.{OutOfMemory};

    ghost from_gives = { λ _ fault. fault ≡ OutOfMemory };

    fn from(_error: AllocError) -> ZoneFault {
        ZoneFault::OutOfMemory
    }
}

impl fmt::Display for ZoneFault {
    ghost use Rattle.time_zones.specs.Zones.{fault_text};

    ghost output = { fault_text };

    fn fmt<W: fmt::Write>(&self, f: &mut fmt::Formatter<W>) -> fmt::Result {
        match self {
            ZoneFault::NotAName => f.write_str(
                "a part of the name of a time zone is empty, `.` or `..`",
            ),
            ZoneFault::NotText => f.write_str("the variable `TZ` or `TZDIR` is not UTF-8"),
            ZoneFault::Unknown { path } => write!(f, "there is no time zone file {path}"),
            ZoneFault::Folder => f.write_str("the name is that of a folder of time zones"),
            ZoneFault::Unreadable(kind) => write!(f, "the time zone file cannot be read: {kind}"),
            ZoneFault::Malformed(fault) => write!(f, "{}", Error::Tzif(*fault)),
            ZoneFault::OutOfMemory => f.write_str("out of memory"),
        }
    }
}

impl std::error::Error for ZoneFault {}
