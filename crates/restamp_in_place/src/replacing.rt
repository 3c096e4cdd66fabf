//! Replaces a file by the bytes that a `FileTransform` makes of it.
ghost use Rattle.std.specs.Option.{option_map};
ghost use Rattle.std.specs.Prelude.{◌≡◌, ◌⊎◌, ◌∷◌, ℕ, List, [], Some, Ok, IfOk, IfSome, OnErr, MatchResult, string_bytes};
ghost use Rattle.restamp_in_place.specs.Replacing.{Event, Performs, Creates, Replaces};
ghost use Rattle.restamp_in_place.specs.Phases.{Replacement, IsPlanOf, IsWritten, Kept, Ready, Linked, Backed, TempRemovable, BackupRemovable, Put, Installed, Reached, IsMade, IsEndOf, Runs, Transitions};

use crate::folder::{Failing, Folder, Original};
use crate::lines::{FileTransform, Made};
use crate::replace_errors::{Step, Unreplaced};
use std::alloc::Global;
use std::io;
use std::io::ErrorKind;

// How many names are tried for a new file.
const TRIES: u32 = 1000;

// A file that is to be replaced, the names of the new file and of the backup, and the file's state when it was opened.
#[derive(Clone, Copy)]
pub(crate) struct Plan<'a> {
    name: &'a str,
    temporary: &'a str,
    backup: Option<&'a str>,
    original: Original,
}

// Creates an empty file under the first unused name of `.NAME.restamp-0` to `.NAME.restamp-999`. Returns that name and
// the file's writer. If all are in use, the error is of the kind `AlreadyExists`; after any other, a file may remain.
fn create_beside<F: Folder>(
    folder: &mut F,
    alloc: Global,
    name: &str,
) -> io::Result<(String, F::New)>
    ensures made { IfOk result (λ made. Performs (F.events folder.old) (F.events folder.new) (Creates (string_bytes made.0))) }
    ensures empty { IfOk result (λ made. IfSome (F.events folder.old) (λ _. F.New.contents made.1 ≡ Some [])) }
    ensures failed { OnErr result (Performs (F.events folder.old) (F.events folder.new) (λ done more.
        (more ≡ []) ⊎ ((temporary : List ℕ) × Creates temporary done more))) }
{
    for number in 0..TRIES {
        let temporary = format!(in alloc; ".{name}.restamp-{number}")?;
        match folder.create(temporary.as_str()) {
            Ok(new) => return Ok((temporary, new)),
            Err(e) if e.kind() == ErrorKind::AlreadyExists => {}
            Err(e) => return Err(e),
        }
    }
    Err(io::Error::from(ErrorKind::AlreadyExists))
}

// Success if the old file is unchanged; an error if another program changed or replaced it, or the check failed.
fn unchanged<S: Drop>(is_there: io::Result<bool>) -> Result<(), Unreplaced<S>> {
    match is_there {
        Ok(true) => Ok(()),
        Ok(false) => Err(Unreplaced::Changed),
        Err(e) => Err(Unreplaced::Failed(Step::Look, e)),
    }
}

// Writes the new file to the disk, then checks that the old one is `unchanged`. An error if either fails.
fn prepare<F: Folder, S: Drop>(
    folder: &mut F,
    plan: &Plan<'_>,
    new: F::New,
) -> Result<(), Unreplaced<S>>
    ensures { (aim : Replacement) → IsPlanOf aim plan.now → IsWritten aim (F.New.contents new)
        → Transitions (F.events folder.old) (F.events folder.new) result (Kept aim) (Ready aim) (TempRemovable aim) }
{
    let stored = folder.store(plan.temporary, new, &plan.original);
    stored.map_err(|e| Unreplaced::Failed(Step::Store, e))?;
    unchanged(folder.is_at(plan.name, &plan.original))
}

// Renames the new file to the old one's name.
fn rename<F: Folder, S: Drop>(folder: &mut F, plan: &Plan<'_>) -> Result<(), Unreplaced<S>>
    ensures { (aim : Replacement) → IsPlanOf aim plan.now
        → Transitions (F.events folder.old) (F.events folder.new) result (Backed aim) (Put aim) (BackupRemovable aim) }
{
    let renamed = folder.rename(plan.temporary, plan.name);
    renamed.map_err(|e| Unreplaced::Failed(Step::Rename, e))
}

// Writes the second name of the old file to the disk, then renames the new file.
fn rename_linked<F: Folder, S: Drop>(folder: &mut F, plan: &Plan<'_>) -> Result<(), Unreplaced<S>>
    ensures { (aim : Replacement) → IsPlanOf aim plan.now
        → Transitions (F.events folder.old) (F.events folder.new) result (Linked aim) (Put aim) (BackupRemovable aim) }
{
    let synced = folder.sync();
    synced.map_err(|e| Unreplaced::Failed(Step::BackUp, e))?;
    rename(folder, plan)
}

// Removes the backup again, if the file's own name still points to the unchanged old file. Ignores any failure.
fn remove_backup<F: Folder>(folder: &mut F, plan: &Plan<'_>, backup: &str)
    ensures { (aim : Replacement) → IsPlanOf aim plan.now → aim.backup ≡ Some backup.now
        → Runs (F.events folder.old) (F.events folder.new) (BackupRemovable aim) (TempRemovable aim) }
{
    let Ok(true) = folder.is_at(plan.name, &plan.original) else {
        return;
    };
    let _ = folder.remove(backup);
}

// Gives the old file its second name, then calls `rename_linked`. If that fails, tries to remove the second name again.
fn rename_backed<F: Folder, S: Drop>(
    folder: &mut F,
    plan: &Plan<'_>,
    backup: &str,
) -> Result<(), Unreplaced<S>>
    ensures { (aim : Replacement) → IsPlanOf aim plan.now → aim.backup ≡ Some backup.now
        → Transitions (F.events folder.old) (F.events folder.new) result (Ready aim) (Put aim) (TempRemovable aim) }
{
    let linked = folder.link(plan.name, backup);
    linked.map_err(|e| Unreplaced::Failed(Step::BackUp, e))?;
    match rename_linked(folder, plan) {
        Ok(()) => Ok(()),
        Err(why) => {
            remove_backup(folder, plan, backup);
            Err(why)
        }
    }
}

// Stores the new file, checks the old one for changes, backs it up if requested, and renames the new one to its name.
fn install<F: Folder, S: Drop>(
    folder: &mut F,
    plan: &Plan<'_>,
    new: F::New,
) -> Result<(), Unreplaced<S>>
    ensures { (aim : Replacement) → IsPlanOf aim plan.now → IsWritten aim (F.New.contents new)
        → Transitions (F.events folder.old) (F.events folder.new) result (Kept aim) (Put aim) (TempRemovable aim) }
{
    prepare(folder, plan, new)?;
    match plan.backup {
        Some(backup) => rename_backed(folder, plan, backup),
        None => rename(folder, plan),
    }
}

// Installs the new file and syncs the folder. Removes the new file if it can't be installed. If only the sync fails,
// the new file is in place, and the result is an error.
fn install_or_remove<F: Folder, S: Drop>(
    folder: &mut F,
    plan: &Plan<'_>,
    new: F::New,
) -> Result<(), Unreplaced<S>>
    ensures { (aim : Replacement) → IsPlanOf aim plan.now → IsWritten aim (F.New.contents new)
        → Transitions (F.events folder.old) (F.events folder.new) result (Kept aim) (Installed aim) (Reached aim) }
{
    match install(folder, plan, new) {
        Ok(()) => folder.sync().map_err(|e| Unreplaced::Failed(Step::Sync, e)),
        Err(why) => {
            // If the removal fails, too, the new file remains.
            let _ = folder.remove(plan.temporary);
            Err(why)
        }
    }
}

// Installs the new file for `Changed`, else removes it. If `made` is an error, that of a failed write takes precedence.
fn finish<F: Folder, S: Drop>(
    folder: &mut F,
    plan: &Plan<'_>,
    new: F::New,
    made: Result<Made, S>,
) -> Result<Made, Unreplaced<S>>
    ensures ends { (aim : Replacement) → IsPlanOf aim plan.now
        → IfOk made (λ how. how ≡ Made.Changed → IsWritten aim (F.New.contents new))
        → Runs (F.events folder.old) (F.events folder.new) (IsMade aim)
        (λ now. MatchResult result (λ how. IsEndOf aim how now) (λ _. Reached aim now)) }
    ensures how { IfOk result (λ how. made ≡ Ok how) }
{
    match made {
        Ok(Made::Changed) => {
            install_or_remove(folder, plan, new)?;
            Ok(Made::Changed)
        }
        Ok(Made::Same) => {
            drop(new);
            let removed = folder.remove(plan.temporary);
            removed.map_err(|e| Unreplaced::Failed(Step::Remove, e))?;
            Ok(Made::Same)
        }
        Err(stop) => {
            let failure = new.into_failure();
            let _ = folder.remove(plan.temporary);
            Err(match failure {
                Some(error) => Unreplaced::Failed(Step::Write, error),
                None => Unreplaced::Stopped(stop),
            })
        }
    }
}

/// Replaces the file of that name by what `maker` makes of its bytes. Returns the maker, and whether the file was
/// replaced, or the error.
///
/// It writes the new bytes to a new file beside the old one, stores that on the disk, and renames it. The old file then
/// has the backup's name, if one is given, which must be unused; after an error it may have it, too. It isn't replaced
/// if the maker returns `Same` or an error, if a check finds that another program changed or replaced it, or if a step
/// fails. Then the new file is removed, unless this or its creation fails. But if a rename fails after it was made, or
/// if only the last write of the folder to the disk fails, the new file is in place, and the result is an error.
///
/// Under the name, a crash at any moment leaves what a crash before the call could leave, or the whole new file.
pub fn replace<F: Folder, M: FileTransform>(
    folder: &mut F,
    alloc: Global,
    name: &str,
    backup: Option<&str>,
    maker: M,
) -> (M, Result<Made, Unreplaced<M::Stop>>)
    ensures { IfSome (F.events folder.old) (λ before. Replaces (M.makes maker result.0) before (F.events folder.new)
        name.now (option_map (λ second. second.now) backup.entry) result.1) }
{
    let (mut input, original) = match folder.open(name) {
        Ok(opened) => opened,
        Err(e) => return (maker, Err(Unreplaced::Failed(Step::Open, e))),
    };
    let (temporary, out) = match create_beside(folder, alloc, name) {
        Ok(made) => made,
        Err(e) => return (maker, Err(Unreplaced::Failed(Step::Create, e))),
    };
    let plan = Plan {
        name,
        temporary: temporary.as_str(),
        backup,
        original,
    };
    let (maker, new, made) = maker.make(&mut input, out);
    let ended = finish(folder, &plan, new, made);
    (maker, ended)
}
