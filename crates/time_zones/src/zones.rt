//! A map from names to zones, and calls that fill it from the files of a folder.
ghost use Rattle.std.specs.Prelude.{◌≡◌, ℕ, List, map, Some, None, codes, IfOk, IfErr, OnOk, OnErr, IsOkUnless};
ghost use Rattle.time_zones.specs.Finding.{zone_named, SameNamed, IsInserted, IsZoneIfAny, AddsFound, AreZonesOf, IsFolderFault};
ghost use Rattle.time_zones.specs.declared.finding.NamedZone.TheVariants as Named;

use crate::files::{Disk, ZoneFiles};
use crate::finding::{NamedZone, find_at, folder};
use crate::place::named;
use crate::zone_fault::ZoneFault;
use jiff_core::Error;
use jiff_tz::{TimeZone, TimeZoneDatabase};
use std::alloc::{AllocError, Global};
use std::collections::BTreeMap;
use std::io::ErrorKind;
use std::rt::{Env, Files};
use std::str;

/// A map from names to zones. The case of a name matters: `europe/berlin` isn't `Europe/Berlin`.
#[derive(Debug, Drop)]
pub struct Zones {
    alloc: Global,
    zones: BTreeMap<String, NamedZone>,
}

impl Zones {
    /// The empty map, which doesn't even have `UTC`.
    pub fn new(alloc: Global) -> Zones
        ensures { (name : List ℕ) → zone_named result name ≡ None }
    {
        Zones {
            alloc,
            zones: BTreeMap::new(alloc),
        }
    }

    /// Sets the zone of that name, and replaces an earlier one. If memory runs out, the map is unchanged.
    pub fn insert(&mut self, name: &str, zone: NamedZone) -> Result<(), AllocError>
        ensures ok { OnOk result (IsInserted self.old self.new name.now zone) }
        ensures err { OnErr result ((other : List ℕ) → SameNamed self.old self.new other) }
    {
        let key = String::from_str(self.alloc, name)?;
        match self.zones.insert(key, zone) {
            Ok(old) => {
                drop(old);
                Ok(())
            }
            Err(failed) => {
                drop(failed);
                Err(AllocError)
            }
        }
    }

    /// The zone of exactly that name. `None` if the map has none, or the name isn't UTF-8.
    pub fn get(&self, name: &[u8]) -> Option<TimeZone<'_>>
        ensures { IsZoneIfAny (zone_named self.now name.now) result }
    {
        let Ok(name) = str::from_utf8(name) else {
            return None;
        };
        match self.zones.get(name) {
            Some(zone) => Some(zone.time_zone()),
            None => None,
        }
    }
}

// Converts an error of listing the folder at the path: `NotFound` to `Unknown` with the path, another error of the
// system to `Unreadable` with its kind, and any other to `OutOfMemory`.
fn fault_from(error: Error, path: String) -> ZoneFault
    ensures { IsFolderFault result }
{
    match error {
        Error::Io(ErrorKind::NotFound) => ZoneFault::Unknown { path },
        Error::Io(kind) => ZoneFault::Unreadable(kind),
        _ => ZoneFault::OutOfMemory,
    }
}

// Sets the zone of that name if `find_at` finds it; else the map is unchanged. Only `OutOfMemory` is an error.
fn add<F: ZoneFiles>(
    alloc: Global,
    files: &F,
    folder: &str,
    name: &str,
    zones: &mut Zones,
) -> Result<(), ZoneFault>
    ensures ok { OnOk result (AddsFound (F.gives files.now) folder.now name.now zones.old zones.new) }
    ensures err { IsOkUnless result ZoneFault.OutOfMemory }
    ensures kept { OnErr result ((other : List ℕ) → SameNamed zones.old zones.new other) }
{
    match find_at(alloc, files, folder, named(name)) {
        Ok(zone) => Ok(zones.insert(name, zone)?),
        Err(ZoneFault::OutOfMemory) => Err(ZoneFault::OutOfMemory),
        Err(_) => Ok(()),
    }
}

/// `UTC`, and the zones in the files of a folder that have these names. Skips a name that is invalid, or whose file is
/// missing, unreadable or not a zone file. If a name occurs twice, its file is read twice, and the last zone that was
/// read remains. An error only if memory runs out.
pub fn find_zones_in<F: ZoneFiles>(
    alloc: Global,
    files: &F,
    folder: &str,
    names: &[&str],
) -> Result<Zones, ZoneFault>
    ensures ok { IfOk result (AreZonesOf (F.gives files.now) folder.now (map (λ name. name.now) names.now)) }
    ensures err { IsOkUnless result ZoneFault.OutOfMemory }
{
    let mut zones = Zones::new(alloc);
    zones.insert("UTC", NamedZone::Utc)?;
    for name in names {
        add(alloc, files, folder, name, &mut zones)?;
    }
    Ok(zones)
}

/// `UTC`, and all zones of the folder that `TZDIR` names, or of /usr/share/zoneinfo if it is unset or empty, by their
/// exact paths below it, such as `Europe/Berlin`. Skips the folders `posix` and `right` directly in it, symbolic links
/// to folders, what can't be read, and files that aren't zone files or exceed 1 MiB. Of paths equal but for ASCII case,
/// the map has only one. An error if the folder is missing or unreadable, `TZDIR` isn't UTF-8, or memory runs out.
pub fn find_zones<R: Env + Files + AllocGlobal + Clone + Drop>(rt: &R) -> Result<Zones, ZoneFault>
    ensures utc { IfOk result (λ zones. zone_named zones (codes "UTC") ≡ Some Named.Utc) }
    ensures err { IfErr result IsFolderFault }
{
    let path = folder(rt)?;
    let database = match TimeZoneDatabase::from_dir(rt, path.as_str()) {
        Ok(database) => database,
        Err(error) => return Err(fault_from(error, path)),
    };
    let names: Vec<&str> = database.available().collect(rt.alloc())?;
    find_zones_in(rt.alloc(), &Disk { rt }, path.as_str(), names.as_slice())
}
