//! Finds zones by their names, each in its own file.
ghost use Rattle.std.specs.Prelude.{◌≡◌, ◌≢◌, ◌↔◌, Ok, Err, Some, None, option_map, string_bytes, codes, IfOk, IfErr, ◌++◌, ◌∷◌};
ghost use Rattle.time_zones.specs.Finding.{IsZoneOf, ReadsTo, IsFoundAt, IsFound, IsVariableFault, name_of, IsZoneName};

use crate::files::{Disk, ReadFault, ZoneFiles};
use crate::place::{Place, requested_place};
use crate::zone_fault::ZoneFault;
use jiff_core::Error;
use jiff_tz::{TimeZone, Tzif, posix};
use std::alloc::{AllocError, Global};
use std::env;
use std::rt::{Env, Files};

// The folder of zones on most systems.
const FOLDER: &str = "/usr/share/zoneinfo";

/// An owned zone, which may have no name: UTC, a POSIX rule, or the table of a TZif file.
#[derive(Debug, Drop)]
pub enum NamedZone {
    /// UTC.
    Utc,
    /// A POSIX rule, from `TZ`.
    Rule(posix::TimeZone),
    /// The transitions of a TZif file, and the rule after them if it has one.
    Table(Tzif),
}

impl NamedZone {
    /// The zone as a `TimeZone`. For a table it borrows the table.
    pub fn time_zone(&self) -> TimeZone<'_>
        ensures { IsZoneOf self.now result }
    {
        match self {
            NamedZone::Utc => TimeZone::UTC,
            NamedZone::Rule(rule) => TimeZone::Posix(*rule),
            NamedZone::Table(table) => TimeZone::Tzif(table),
        }
    }

    /// `UTC`, or the name by which the table was found in a folder of zones. `None` for a rule, and for a file that was
    /// read by its path.
    pub fn name(&self) -> Option<&str>
        ensures { option_map (λ name. name.now) result ≡ name_of self.now }
    {
        match self {
            NamedZone::Utc => Some("UTC"),
            NamedZone::Rule(_) => None,
            NamedZone::Table(table) => table.name(),
        }
    }
}

// Reads the zone file at the path, as a table with the name `name`. A missing file is the error `Unknown` of its path.
fn table_at<F: ZoneFiles>(
    alloc: Global,
    files: &F,
    path: String,
    name: Option<&str>,
) -> Result<NamedZone, ZoneFault>
    ensures { ReadsTo (F.gives files.now) (string_bytes path) (option_map (λ s. s.now) name.entry) result }
{
    let bytes = match files.read(path.as_str()) {
        Ok(bytes) => bytes,
        Err(ReadFault::Missing) => return Err(ZoneFault::Unknown { path }),
        Err(ReadFault::Folder) => return Err(ZoneFault::Folder),
        Err(ReadFault::Unreadable(kind)) => return Err(ZoneFault::Unreadable(kind)),
        Err(ReadFault::OutOfMemory) => return Err(ZoneFault::OutOfMemory),
    };
    match Tzif::parse(alloc, name, bytes.as_slice()) {
        Ok(table) => Ok(NamedZone::Table(table)),
        Err(Error::Tzif(fault)) => Err(ZoneFault::Malformed(fault)),
        Err(_) => Err(ZoneFault::OutOfMemory),
    }
}

// The path `folder/name`. Fails only if memory runs out.
fn path_below(alloc: Global, folder: &str, name: &str) -> Result<String, AllocError>
    ensures { IfOk result (λ path. string_bytes path ≡ folder.now ++ 47 ∷ name.now) }
{
    let mut path = String::from_str(alloc, folder)?;
    path.push_str("/")?;
    path.push_str(name)?;
    Ok(path)
}

/// Finds the zone at the place. `folder` is the path of the folder of zones. The error is `NotAName` if and only if
/// `place` is `None`.
pub(crate) fn find_at<F: ZoneFiles>(
    alloc: Global,
    files: &F,
    folder: &str,
    place: Option<Place<'_>>,
) -> Result<NamedZone, ZoneFault>
    ensures { IsFoundAt (F.gives files.now) folder.now place.entry result }
{
    match place {
        None => Err(ZoneFault::NotAName),
        Some(Place::Utc) => Ok(NamedZone::Utc),
        Some(Place::Rule(rule)) => Ok(NamedZone::Rule(rule)),
        Some(Place::InFolder(name)) => {
            let Ok(path) = path_below(alloc, folder, name) else {
                return Err(ZoneFault::OutOfMemory);
            };
            table_at(alloc, files, path, Some(name))
        }
        Some(Place::AtPath(path)) => {
            let Ok(path) = String::from_str(alloc, path) else {
                return Err(ZoneFault::OutOfMemory);
            };
            table_at(alloc, files, path, None)
        }
    }
}

/// Finds a zone by its name: UTC for `UTC`; for `local`, the zone that `setting`, a value of `TZ`, specifies, or the
/// file /etc/localtime if `setting` is `None`; and else the file of that name below `folder`. Reads at most one file.
/// [`find_zone`] describes the values of `TZ`, and [`ZoneFault`] the errors.
pub fn find_zone_in<F: ZoneFiles>(
    alloc: Global,
    files: &F,
    folder: &str,
    setting: Option<&str>,
    name: &str,
) -> Result<NamedZone, ZoneFault>
    ensures { IsFound (F.gives files.now) folder.now (option_map (λ s. s.now) setting.entry) name.now result }
{
    find_at(alloc, files, folder, requested_place(setting, name))
}

// The value of an environment variable, or `None` if it isn't set. An error if it isn't UTF-8, or memory runs out.
fn variable<R: Env + AllocGlobal>(rt: &R, name: &str) -> Result<Option<String>, ZoneFault>
    ensures { IfErr result IsVariableFault }
{
    match env::var(rt, name) {
        Ok(value) => Ok(Some(value)),
        Err(env::VarError::NotPresent) => Ok(None),
        Err(env::VarError::NotUnicode) => Err(ZoneFault::NotText),
        Err(env::VarError::OutOfMemory) => Err(ZoneFault::OutOfMemory),
    }
}

// The value of `TZ`, if the name is `local` and `TZ` is set. `None` otherwise. An error if the name is `local`, and
// `TZ` isn't UTF-8 or memory runs out.
fn setting_for<R: Env + AllocGlobal>(rt: &R, name: &str) -> Result<Option<String>, ZoneFault>
    ensures { name.now ≢ codes "local" → result ≡ Ok None }
{
    if name == "local" {
        variable(rt, "TZ")
    } else {
        Ok(None)
    }
}

/// The folder that `TZDIR` names, or /usr/share/zoneinfo if `TZDIR` isn't set or is empty. An error if `TZDIR` isn't
/// UTF-8, or memory runs out.
pub(crate) fn folder<R: Env + AllocGlobal>(rt: &R) -> Result<String, ZoneFault>
    ensures { IfErr result IsVariableFault }
{
    match variable(rt, "TZDIR")? {
        Some(folder) if !folder.is_empty() => Ok(folder),
        _ => Ok(String::from_str(rt.alloc(), FOLDER)?),
    }
}

// Finds the zone at a place in the system's files. Reads `TZDIR` only for a file in the folder of zones. The error is
// `NotAName` if and only if `place` is `None`.
fn find_on_disk<R: Env + Files + AllocGlobal>(
    rt: &R,
    place: Option<Place<'_>>,
) -> Result<NamedZone, ZoneFault>
    ensures utc { place.entry ≡ Some Place.Utc → result ≡ Ok NamedZone.Utc }
    ensures refused { (result ≡ Err ZoneFault.NotAName) ↔ (place.entry ≡ None) }
{
    let folder = match place {
        Some(Place::InFolder(_)) => folder(rt)?,
        _ => String::new(rt.alloc()),
    };
    find_at(rt.alloc(), &Disk { rt }, folder.as_str(), place)
}

/// The zone of that name: an IANA name such as `Europe/Berlin` in the folder that `TZDIR` names, or in
/// /usr/share/zoneinfo if it is unset or empty; `UTC`; or `local`, which is the zone that `TZ` specifies, or
/// /etc/localtime if it is unset. `TZ` has a name or an absolute path, with or without a colon before it, or a rule
/// such as `CET-1CEST,M3.5.0,M10.5.0/3`, which precedes a file of that name; an empty `TZ` is UTC. Reads at most one
/// file, `TZ` only for `local`, and `TZDIR` only for a name in the folder. [`ZoneFault`] describes the errors.
pub fn find_zone<R: Env + Files + AllocGlobal>(rt: &R, name: &str) -> Result<NamedZone, ZoneFault>
    ensures utc { name.now ≡ codes "UTC" → result ≡ Ok NamedZone.Utc }
    ensures refused { name.now ≢ codes "local" → ((result ≡ Err ZoneFault.NotAName)
        ↔ ((name.now ≢ codes "UTC") × (¬ (IsZoneName name.now)))) }
{
    let setting = setting_for(rt, name)?;
    let setting = match &setting {
        Some(setting) => Some(setting.as_str()),
        None => None,
    };
    find_on_disk(rt, requested_place(setting, name))
}
