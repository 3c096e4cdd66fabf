//! Replaces a file by its processed lines.
ghost use Rattle.std.specs.Option.{option_map};
ghost use Rattle.std.specs.Prelude.{IfSome};
ghost use Rattle.restamp_in_place.specs.Replacing.{Makes, Replaces};
ghost use Rattle.restamp_stream.specs.Streams.{job_of};

use crate::folder::Folder;
use crate::lines::{Lines, Made};
use crate::replace_errors::Unreplaced;
use crate::replacing::replace;
use byte_streams::Sink;
use restamp_stream::{Block, Rewriting, Settings, Stop, Tally};
use std::alloc::Global;

/// A file that is to be replaced: its name, the name of its backup, and its name in reports.
#[derive(Clone, Copy)]
pub struct Target<'a> {
    /// Its name in its folder.
    pub name: &'a str,
    /// The second name of the old file, which must be unused; `None` for no backup.
    pub backup: Option<&'a str>,
    /// Its name in reports: any bytes, such as its path.
    pub shown: &'a [u8],
}

/// Replaces a file by its processed lines, unless none of its timestamps is rewritten. Returns the log, the counts of
/// the file's lines (`unread` counts failed reading only), and whether the file was replaced, or the error.
///
/// The file isn't replaced if the work stops early, if a check finds that another program changed it, or if a step
/// fails. Yet it is, despite the error, if a rename fails after it was made, or only the last sync of its folder fails.
pub fn replace_file<T: Rewriting, F: Folder, L: Sink + Drop>(
    rewriting: &T,
    settings: Settings<'_>,
    target: Target<'_>,
    folder: &mut F,
    alloc: Global,
    log: L,
    block: &mut Block,
) -> (L, Tally, Result<Made, Unreplaced<Stop>>)
    ensures { IfSome (F.events folder.old) (λ before. Replaces
        (Makes (job_of (T.is_action rewriting.now) (T.is_reason rewriting.now) target.entry.shown.now settings.entry)
        (L.contents log) (L.contents result.0) result.1)
        before (F.events folder.new) target.entry.name.now (option_map (λ second. second.now) target.entry.backup) result.2) }
{
    let lines = Lines {
        rewriting,
        settings,
        name: target.shown,
        block,
        log,
        tally: Tally::new(),
    };
    let (lines, ended) = replace(folder, alloc, target.name, target.backup, lines);
    let Lines { log, tally, .. } = lines;
    (log, tally, ended)
}
