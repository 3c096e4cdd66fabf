//! Replaces files by their processed lines.
use crate::folder::find;
use crate::output::Erasing;
use crate::progress::{Progress, Reporter};
use byte_streams::{Counted, Sink};
use restamp_command::{Request, replace};
use restamp_in_place::{Made, Step, Target, Unreplaced, backup_name, write_unreplaced};
use restamp_stream::{Block, Stop, Tally, status};
use std::alloc::Global;
use std::io;
use std::io::{BufWriter, ErrorKind};

// The name of a file's backup, by `backup_name`; `None` if the suffix is empty. The error is that memory is short.
fn backup_of(alloc: Global, name: &str, suffix: &str) -> io::Result<Option<String>> {
    if suffix.is_empty() {
        return Ok(None);
    }
    Ok(Some(backup_name(alloc, name, suffix)?))
}

// The file of that name in its folder, with the name of its backup, if any, and its name in reports.
fn target_of<'a>(name: &'a str, backup: Option<&'a str>, shown: &'a [u8]) -> Target<'a> {
    Target {
        name,
        backup,
        shown,
    }
}

// Replaces the file of the path `shown`; a path that isn't UTF-8 is an error. Returns the log, the counts of the file's
// lines by their actions, and whether the file was replaced, or the error.
fn try_to_replace<'a, L: Sink + Drop>(
    rt: &'a HostRuntime,
    request: &Request<'_>,
    shown: &'a [u8],
    progress: &'a Progress<'a, HostRuntime>,
    log: L,
    block: &mut Block,
) -> (L, Tally, Result<Made, Unreplaced<Stop>>) {
    let Ok(path) = std::str::from_utf8(shown) else {
        let error = io::Error::from(ErrorKind::InvalidInput);
        return (
            log,
            Tally::new(),
            Err(Unreplaced::Failed(Step::Open, error)),
        );
    };
    let (mut folder, name) = match find(rt, progress, path) {
        Ok(found) => found,
        Err(e) => return (log, Tally::new(), Err(Unreplaced::Failed(Step::Open, e))),
    };
    let suffix = request.in_place.unwrap_or("");
    let backup = match backup_of(rt.alloc(), name.as_str(), suffix) {
        Ok(backup) => backup,
        Err(e) => return (log, Tally::new(), Err(Unreplaced::Failed(Step::BackUp, e))),
    };
    let second = match &backup {
        Some(backup) => Some(backup.as_str()),
        None => None,
    };
    let target = target_of(name.as_str(), second, shown);
    replace(request, target, &mut folder, rt.alloc(), log, block)
}

// Replaces a file. Returns the log, the counts of the file's lines, and a stop only for a rejected line at which
// processing stops, or a failed write to the log. Any other failure is logged and counts the file as unread, and the
// next file may be replaced.
fn replace_next<'a, L: Sink + Drop>(
    rt: &'a HostRuntime,
    request: &Request<'_>,
    shown: &'a [u8],
    progress: &'a Progress<'a, HostRuntime>,
    log: L,
    block: &mut Block,
) -> (L, Tally, Option<Stop>) {
    let (mut log, mut tally, ended) = try_to_replace(rt, request, shown, progress, log, block);
    let why = match ended {
        Ok(_) | Err(Unreplaced::Stopped(Stop::Unread)) => return (log, tally, None),
        Err(Unreplaced::Stopped(stop)) => return (log, tally, Some(stop)),
        Err(why) => why,
    };
    tally.count_unread();
    let reported = match write_unreplaced(rt.alloc(), shown, &why, &mut log) {
        Ok(()) => log.flush(),
        Err(unwritten) => Err(unwritten),
    };
    let stop = reported.is_err().then_some(Stop::Unwritten);
    (log, tally, stop)
}

// Adds the counts on which the exit status depends to the total: of rewritten and rejected lines, and of unread files.
fn add(total: &mut Tally, file: &Tally) {
    total.rewritten = total.rewritten.saturating_add(file.rewritten);
    total.refused = total.refused.saturating_add(file.refused);
    total.unread = total.unread.saturating_add(file.unread);
}

/// Replaces the files, one after the other, until one returns a stop, and returns the exit status. The error is that
/// memory is short.
pub(crate) fn replace_all(
    rt: &HostRuntime,
    request: &Request<'_>,
    names: &[&[u8]],
    reporter: Reporter,
) -> io::Result<u8> {
    let progress = Progress::new(rt, reporter);
    let mut log = Counted::new(BufWriter::new(rt.alloc(), Erasing::new(rt.stderr(), &progress))?);
    let mut block = Block::new();
    let mut total = Tally::new();
    let mut stop = None;
    for name in names {
        let (back, tally, ended) = replace_next(rt, request, name, &progress, log, &mut block);
        log = back;
        add(&mut total, &tally);
        stop = ended;
        if stop.is_some() {
            break;
        }
    }
    drop(log);
    progress.erase();
    Ok(status(&total, stop, request.strict))
}
