//! Reports why replacing a file failed.
ghost use Rattle.std.specs.Io.KnownBytes.{Appends};
ghost use Rattle.std.specs.Prelude.{ℕ, List, ◌++◌, OnOk, codes};
ghost use Rattle.byte_streams.specs.Faults.{HasCause};
ghost use Rattle.restamp_in_place.specs.ReplaceErrors.{step_text, IsWhy};
ghost use Rattle.restamp_stream.specs.Reports.{unread_text};

use byte_streams::{Sink, Unwritten};
use restamp_stream::{Stop, write_name};
use std::alloc::Global;
use std::{fmt, io};

// Writes a line to the log: the escaped name of a file, and why it wasn't replaced.
fn write_why<L: Sink>(name: &[u8], why: &[u8], log: &mut L) -> Result<(), Unwritten>
    ensures reported { OnOk result (Appends (L.contents log.old) (L.contents log.new) (unread_text name.now why.now)) }
    ensures cause { HasCause result (L.faults log.old) (L.faults log.new) }
{
    write_name(name, log)?;
    log.write_all(b": ")?;
    log.write_all(why)?;
    log.write_all(b"\n")
}

// Writes a line to the log: the escaped name of a file, the step that failed, and the text of its error.
fn write_failed<L: Sink>(
    name: &[u8],
    step: Step,
    error: &[u8],
    log: &mut L,
) -> Result<(), Unwritten>
    ensures reported { OnOk result (Appends (L.contents log.old) (L.contents log.new)
        (unread_text name.now (step_text step ++ (codes ": " ++ error.now)))) }
    ensures cause { HasCause result (L.faults log.old) (L.faults log.new) }
{
    write_name(name, log)?;
    write!(log, ": {step}: ")?;
    log.write_all(error)?;
    log.write_all(b"\n")
}

/// Writes a line to the log: the escaped name of a file, and why replacing it failed. For `Failed` that is the step,
/// and the error's text, or in place of the text `out of memory` if no memory can be allocated for it.
pub fn write_unreplaced<L: Sink>(
    alloc: Global,
    name: &[u8],
    why: &Unreplaced<Stop>,
    log: &mut L,
) -> Result<(), Unwritten>
    ensures reported { OnOk result ((text : List ℕ) × IsWhy why.now text
        × Appends (L.contents log.old) (L.contents log.new) (unread_text name.now text)) }
    ensures cause { HasCause result (L.faults log.old) (L.faults log.new) }
{
    match why {
        Unreplaced::Stopped(_) => write_why(name, b"its lines were not rewritten", log),
        Unreplaced::Changed => write_why(name, b"another program changed it meanwhile", log),
        Unreplaced::Failed(step, error) => match format!(in alloc; "{error}") {
            Ok(text) => write_failed(name, *step, text.as_bytes(), log),
            Err(_) => write_failed(name, *step, b"out of memory", log),
        },
    }
}

/// A step of a file's replacement.
#[derive(Clone, Copy, Debug, PartialEq, Eq)]
pub enum Step {
    /// Opening the file.
    Open,
    /// Creating a new file beside it.
    Create,
    /// Writing the new file.
    Write,
    /// Storing the new file on the disk.
    Store,
    /// Checking that the old file is unchanged.
    Look,
    /// Adding the backup's name to the old file, and writing that name to the disk.
    BackUp,
    /// Renaming the new file to the old one's name.
    Rename,
    /// Removing the new file, which wasn't needed.
    Remove,
    /// Writing the folder to the disk, after the new file replaced the old one.
    Sync,
}

impl fmt::Display for Step {
    ghost use Rattle.std.specs.Prelude.{Some};
    ghost use Rattle.restamp_in_place.specs.ReplaceErrors.{step_text};

    ghost output = { λ step. Some (step_text step) };

    fn fmt<W: fmt::Write>(&self, f: &mut fmt::Formatter<W>) -> fmt::Result {
        f.write_str(match self {
            Step::Open => "it was not opened",
            Step::Create => "no new file was made beside it",
            Step::Write | Step::Store => "the new file was not written",
            Step::Look => "it was not checked for changes",
            Step::BackUp => "it was not backed up",
            Step::Rename => "the new file did not take its place",
            Step::Remove => "the new file was not removed",
            Step::Sync => "the new file took its place, but its folder was not synced",
        })
    }
}

/// Why replacing a file failed. If `Rename` did, it may be replaced; if `Sync` did, it is, but a crash may undo that.
#[derive(Debug, Drop)]
pub enum Unreplaced<S: Drop> {
    /// No new bytes could be made, for this reason.
    Stopped(S),
    /// Another program replaced or changed the file meanwhile.
    Changed,
    /// That step failed, with that error.
    Failed(Step, io::Error),
}
