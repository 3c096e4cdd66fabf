//! Files that are replaced in a folder in memory. [`Marks`] decides the action of each line.
use crate::memory::event::{Event, leads, stored};
use crate::memory::{Faults, Memory};
use crate::stream::{ALL, Marks};
use byte_streams::Counted;
use restamp_in_place::{Made, Step, Target, Unreplaced, replace_file};
use restamp_stream::{Block, Settings, Stop};
use std::alloc::Global;
use std::io;
use std::io::ErrorKind;

/// The name of the file that is replaced.
pub const NAME: &str = "f";

/// The first name that is tried for the new file.
pub const TEMPORARY: &str = ".f.restamp-0";

/// The name of the backup.
pub const BACKUP: &str = "f.old";

/// The bytes of the file: a line that is rewritten, and one that isn't.
pub const OLD: &[u8] = b"@a\nb\n";

/// The bytes of the file once `OLD` is rewritten.
pub const NEW: &[u8] = b"nowa\nb\n";

/// No call fails.
pub const NO_FAULTS: Faults = Faults {
    first: 0,
    count: 0,
    is_late: false,
    kind: ErrorKind::PermissionDenied,
    writes: u64::MAX,
    is_changed: false,
};

/// How a file was replaced, or why it wasn't.
pub type Ended = Result<Made, Unreplaced<Stop>>;

/// Adds a file of that number, name and bytes, on the disk, as three events. It is an error if memory is short.
pub fn add(
    alloc: Global,
    folder: &mut Memory,
    number: u64,
    name: &str,
    bytes: &[u8],
) -> io::Result<()> {
    let name = String::from_str(alloc, name)?;
    folder.note(Event::Leads(name, Some(number)), false)?;
    folder.note(Event::Stored(number, Vec::from_slice(alloc, bytes)?), false)?;
    folder.note(Event::Synced, false)
}

/// A folder whose only file has the name `NAME`, the number 1 and those bytes, on the disk.
pub fn folder_of(alloc: Global, bytes: &[u8], faults: Faults) -> io::Result<Memory> {
    let mut folder = Memory::new(alloc, faults);
    add(alloc, &mut folder, 1, NAME, bytes)?;
    Ok(folder)
}

/// Replaces the file `NAME` by its lines, processed by [`Marks`] and those settings. If there is a name for a backup,
/// the old file is kept under it.
pub fn replace_by(
    alloc: Global,
    folder: &mut Memory,
    settings: Settings<'_>,
    backup: Option<&str>,
) -> Ended {
    let target = Target {
        name: NAME,
        backup,
        shown: b"f",
    };
    let log = Counted::new(Vec::new(alloc));
    let mut block = Block::new();
    let (_, _, ended) = replace_file(&Marks, settings, target, folder, alloc, log, &mut block);
    ended
}

/// Replaces the file `NAME` by its lines, processed by [`Marks`], without stopping at a rejected line. If there is a
/// name for a backup, the old file is kept under it.
pub fn replace(alloc: Global, folder: &mut Memory, backup: Option<&str>) -> Ended {
    replace_by(alloc, folder, ALL, backup)
}

/// Whether replacing a file ended at that step, with an error of that kind.
pub fn is_failed(ended: &Ended, step: Step, kind: ErrorKind) -> bool {
    match ended {
        Err(Unreplaced::Failed(at, error)) => *at == step && error.kind() == kind,
        _ => false,
    }
}

/// Whether the name leads to a file that has those bytes on the disk.
pub fn has(events: &[Event], name: &str, bytes: &[u8]) -> bool {
    let Some(number) = leads(events, name) else {
        return false;
    };
    stored(events, number) == Some(bytes)
}

// Names that are in use, and files that stay unchanged.
mod ends {
    use crate::memory::event::{Event, leads};
    use crate::memory::{Faults, Memory};
    use crate::replacing::{
        BACKUP, Ended, NAME, NEW, NO_FAULTS, OLD, TEMPORARY, add, folder_of, has, is_failed,
        replace, replace_by,
    };
    use crate::stream::ALL;
    use restamp_in_place::{Made, Step, Unreplaced};
    use restamp_stream::{Output, Reports, Settings, Stop};
    use std::alloc::Global;
    use std::io;
    use std::io::ErrorKind;
    use std::test::Fail;

    // The bytes of another file.
    const OTHER: &[u8] = b"other";

    // Processing stops at the first rejected line.
    const STRICT: Settings<'static> = Settings {
        output: Output::AllLines,
        suffix: b"",
        reports: Reports::Quiet,
        strict: true,
    };

    // Whether `NAME` leads to the old file, which has the number 1, with those bytes, and the first name for a new file
    // leads to no file.
    fn is_untouched(events: &[Event], bytes: &[u8]) -> bool {
        leads(events, NAME) == Some(1)
            && has(events, NAME, bytes)
            && leads(events, TEMPORARY).is_none()
    }

    // Another file has the first name for a new file. It is kept, and the new file uses the second name.
    #[test]
    fn first_name_exists(rt: HostRuntime) -> Result<(), Fail> {
        let mut folder = folder_of(rt.alloc(), OLD, NO_FAULTS)?;
        add(rt.alloc(), &mut folder, 2, TEMPORARY, OTHER)?;
        let ended = replace(rt.alloc(), &mut folder, None);
        let events = folder.events();
        assert!(rt; matches!(&ended, Ok(Made::Changed)) && has(events, NAME, NEW));
        assert!(rt; leads(events, TEMPORARY) == Some(2) && has(events, TEMPORARY, OTHER));
        assert!(rt; leads(events, ".f.restamp-1").is_none());
        Ok(())
    }

    // Another file has the backup's name. Both files are kept.
    #[test]
    fn backup_exists(rt: HostRuntime) -> Result<(), Fail> {
        let mut folder = folder_of(rt.alloc(), OLD, NO_FAULTS)?;
        add(rt.alloc(), &mut folder, 2, BACKUP, OTHER)?;
        let ended = replace(rt.alloc(), &mut folder, Some(BACKUP));
        let events = folder.events();
        assert!(rt; is_failed(&ended, Step::BackUp, ErrorKind::AlreadyExists));
        assert!(rt; is_untouched(events, OLD));
        assert!(rt; leads(events, BACKUP) == Some(2) && has(events, BACKUP, OTHER));
        Ok(())
    }

    // Each name for a new file is in use. 1000 names are tried.
    #[test]
    fn all_names_exist(rt: HostRuntime) -> Result<(), Fail> {
        let faults = Faults {
            first: 1,
            count: u64::MAX,
            kind: ErrorKind::AlreadyExists,
            ..NO_FAULTS
        };
        let mut folder = folder_of(rt.alloc(), OLD, faults)?;
        let ended = replace(rt.alloc(), &mut folder, None);
        assert!(rt; is_failed(&ended, Step::Create, ErrorKind::AlreadyExists));
        assert!(rt; is_untouched(folder.events(), OLD) && folder.calls() == 1001);
        Ok(())
    }

    #[test]
    fn the_file_is_missing(rt: HostRuntime) -> Result<(), Fail> {
        let mut folder = Memory::new(rt.alloc(), NO_FAULTS);
        let ended = replace(rt.alloc(), &mut folder, None);
        assert!(rt;
            is_failed(&ended, Step::Open, ErrorKind::NotFound) && folder.events().is_empty()
        );
        Ok(())
    }

    // The result of replacing a file of those bytes, with a backup, by those settings and with those faults; `None`
    // unless the file is then unchanged and the backup's name leads to no file. It is an error if memory is short.
    fn ended_untouched(
        alloc: Global,
        bytes: &[u8],
        settings: Settings<'_>,
        faults: Faults,
    ) -> io::Result<Option<Ended>> {
        let mut folder = folder_of(alloc, bytes, faults)?;
        let ended = replace_by(alloc, &mut folder, settings, Some(BACKUP));
        let events = folder.events();
        let stays = is_untouched(events, bytes) && leads(events, BACKUP).is_none();
        Ok(stays.then_some(ended))
    }

    // Another program wrote the file meanwhile.
    #[test]
    fn the_file_is_changed(rt: HostRuntime) -> Result<(), Fail> {
        let faults = Faults {
            is_changed: true,
            ..NO_FAULTS
        };
        let ended = ended_untouched(rt.alloc(), OLD, ALL, faults)?;
        assert!(rt; matches!(&ended, Some(Err(Unreplaced::Changed))));
        Ok(())
    }

    // No timestamp of the file is rewritten.
    #[test]
    fn nothing_is_rewritten(rt: HostRuntime) -> Result<(), Fail> {
        for bytes in [b"a\nb\n".as_slice(), b"!a\n", b""] {
            let ended = ended_untouched(rt.alloc(), bytes, ALL, NO_FAULTS)?;
            assert!(rt; matches!(&ended, Some(Ok(Made::Same))), "{bytes:?}");
        }
        Ok(())
    }

    // Processing stops at a rejected line.
    #[test]
    fn a_line_is_refused(rt: HostRuntime) -> Result<(), Fail> {
        let ended = ended_untouched(rt.alloc(), b"@a\n!b\n", STRICT, NO_FAULTS)?;
        assert!(rt; matches!(&ended, Some(Err(Unreplaced::Stopped(Stop::Refused)))));
        Ok(())
    }

    // The write of the new bytes fails.
    #[test]
    fn a_write_fails(rt: HostRuntime) -> Result<(), Fail> {
        let faults = Faults {
            writes: 0,
            ..NO_FAULTS
        };
        let ended = ended_untouched(rt.alloc(), OLD, ALL, faults)?;
        assert!(rt;
            ended.is_some_and(|ended| is_failed(&ended, Step::Write, ErrorKind::PermissionDenied))
        );
        Ok(())
    }

    // The new file isn't needed, and the call that removes it fails.
    #[test]
    fn the_new_file_is_not_removed(rt: HostRuntime) -> Result<(), Fail> {
        let faults = Faults {
            first: 2,
            count: 1,
            ..NO_FAULTS
        };
        let mut folder = folder_of(rt.alloc(), b"a\n", faults)?;
        let ended = replace(rt.alloc(), &mut folder, None);
        assert!(rt; is_failed(&ended, Step::Remove, ErrorKind::PermissionDenied));
        assert!(rt; has(folder.events(), NAME, b"a\n") && folder.calls() == 3);
        Ok(())
    }
}

// Each call of the folder fails in turn, or each from one on, and the run crashes after each event.
mod failures {
    use crate::memory::event::{Event, leads, stored};
    use crate::memory::{Faults, LATE};
    use crate::replacing::{
        BACKUP, NAME, NEW, NO_FAULTS, OLD, TEMPORARY, folder_of, has, is_failed, replace,
    };
    use restamp_in_place::{Made, Step};
    use std::alloc::Global;
    use std::io;
    use std::test::Fail;

    // The steps of the calls of a run without failures, without a backup and with one.
    static RUNS: [(Option<&str>, &[Step]); 2] = [
        (
            None,
            &[
                Step::Open,
                Step::Create,
                Step::Store,
                Step::Look,
                Step::Rename,
                Step::Sync,
            ],
        ),
        (
            Some(BACKUP),
            &[
                Step::Open,
                Step::Create,
                Step::Store,
                Step::Look,
                Step::BackUp,
                Step::BackUp,
                Step::Rename,
                Step::Sync,
            ],
        ),
    ];

    // How many calls fail from one on, and whether they take effect before they fail.
    static WAYS: [(u64, bool); 4] = [(1, false), (u64::MAX, false), (1, true), (u64::MAX, true)];

    // The file that the name leads to after a crash, `None` if it leads to none. The events are those before the crash,
    // the last first. The crash loses those events since the last sync whose bits in `lost` are set; the last event has
    // the lowest bit.
    fn left(events: &[Event], lost: u64, name: &str) -> Option<u64> {
        let mut lost = lost;
        for event in events {
            let is_lost = lost % 2 == 1;
            lost /= 2;
            match event {
                Event::Leads(other, file) => {
                    if !is_lost && other.as_str() == name {
                        return *file;
                    }
                }
                Event::Stored(..) => {}
                Event::Synced => lost = 0,
            }
        }
        None
    }

    // Whether a crash that loses those events leaves the old bytes, or the new bytes, and the old ones under the
    // backup's name, if there is a backup.
    fn is_whole(events: &[Event], lost: u64, backup: Option<&str>) -> bool {
        let Some(number) = left(events, lost, NAME) else {
            return false;
        };
        if stored(events, number) == Some(OLD) {
            return true;
        }
        let is_backed = match backup {
            Some(name) => match left(events, lost, name) {
                Some(second) => stored(events, second) == Some(OLD),
                None => false,
            },
            None => true,
        };
        is_backed && stored(events, number) == Some(NEW)
    }

    // How many sets of events since the last sync a crash may lose.
    fn ways(events: &[Event]) -> u64 {
        let mut ways = 1u64;
        for event in events {
            if matches!(event, Event::Synced) {
                break;
            }
            ways = ways.saturating_mul(2);
        }
        ways
    }

    // Whether a crash now leaves the file whole, whichever events are lost.
    fn is_safe(events: &[Event], backup: Option<&str>) -> bool {
        (0..ways(events)).all(|lost| is_whole(events, lost, backup))
    }

    // Whether a crash after each event, from the third on, leaves the file whole. The first three add the file.
    fn is_always_safe(events: &[Event], backup: Option<&str>) -> bool {
        for past in 0..events.len().saturating_sub(2) {
            if !is_safe(&events[past..], backup) {
                return false;
            }
        }
        true
    }

    // Whether a run whose call for that step fails ends with that step and error, and leaves the expected files: the
    // new bytes if they have replaced the old ones, no temporary name if it could be removed, and, after a single
    // failure without effect, the backup only if the old bytes are replaced. A crash after any of its events must leave
    // the file whole too.
    fn fails_well(
        alloc: Global,
        backup: Option<&str>,
        step: Step,
        faults: Faults,
    ) -> io::Result<bool> {
        let mut folder = folder_of(alloc, OLD, faults)?;
        let ended = replace(alloc, &mut folder, backup);
        let events = folder.events();
        let is_late = faults.is_late;
        let is_put = step == Step::Sync || is_late && step == Step::Rename;
        let may_be_left = is_late && step == Step::Create || !is_late && faults.count > 1;
        let is_backed = has(events, BACKUP, OLD);
        Ok(
            is_failed(&ended, step, if is_late { LATE } else { faults.kind })
                && has(events, NAME, if is_put { NEW } else { OLD })
                && (may_be_left || leads(events, TEMPORARY).is_none())
                && (is_late || faults.count > 1 || is_backed == (is_put && backup.is_some()))
                && is_always_safe(events, backup),
        )
    }

    // How many of the runs fail as expected if the call for each step fails in turn, or, by `faults`, several from it
    // on.
    fn count_failing_well(
        alloc: Global,
        backup: Option<&str>,
        steps: &[Step],
        faults: Faults,
    ) -> io::Result<usize> {
        let mut count = 0usize;
        for (first, step) in steps.iter().enumerate() {
            let faults = Faults {
                first: first as u64,
                ..faults
            };
            if fails_well(alloc, backup, *step, faults)? {
                count = count.saturating_add(1);
            }
        }
        Ok(count)
    }

    #[test]
    fn each_call_fails(rt: HostRuntime) -> Result<(), Fail> {
        for (backup, steps) in &RUNS {
            for (count, is_late) in &WAYS {
                let faults = Faults {
                    count: *count,
                    is_late: *is_late,
                    ..NO_FAULTS
                };
                let well = count_failing_well(rt.alloc(), *backup, steps, faults)?;
                assert!(rt;
                    well == steps.len(),
                    "{well} of {count} {is_late} {backup:?}"
                );
            }
        }
        Ok(())
    }

    // No call fails. The file has the new bytes, and the backup the old ones.
    #[test]
    fn no_call_fails(rt: HostRuntime) -> Result<(), Fail> {
        for (backup, steps) in &RUNS {
            let mut folder = folder_of(rt.alloc(), OLD, NO_FAULTS)?;
            let ended = replace(rt.alloc(), &mut folder, *backup);
            let events = folder.events();
            assert!(rt;
                matches!(&ended, Ok(Made::Changed)) && folder.calls() == steps.len() as u64
            );
            assert!(rt; has(events, NAME, NEW) && leads(events, TEMPORARY).is_none());
            assert!(rt; has(events, BACKUP, OLD) == backup.is_some());
            assert!(rt; is_always_safe(events, *backup));
        }
        Ok(())
    }
}
