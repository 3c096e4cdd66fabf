//! The words of the command line.
ghost use Rattle.std.specs.Io.KnownBytes.{Appends};
ghost use Rattle.std.specs.Prelude.{OnOk};
ghost use Rattle.byte_streams.specs.Faults.{HasCause};
ghost use Rattle.restamp.specs.Words.{unread_text};

use byte_streams::{Counted, Sink, Unwritten};
use restamp_stream::write_escaped;
use std::env::{Env, FillError};
use std::io::{ErrorKind, Write};
use std::{env, io};

// The buffer sizes in bytes for an argument: the second is tried if the first is too small. Linux allows none longer.
static ROOM: [usize; 2] = [4096, 131072];

// The bytes of the word of that number, from 0; `None` after the last word, if memory is short, or for a word that
// doesn't fit the buffer.
fn bytes_of(rt: &HostRuntime, number: usize) -> Option<Vec<u8>> {
    let mut bytes = Vec::new(rt.alloc());
    for room in &ROOM {
        bytes.resize(*room, 0).ok()?;
        match rt.arg(number, bytes.as_mut_slice()) {
            Ok(n) => {
                bytes.truncate(n);
                return Some(bytes);
            }
            Err(FillError::TooLong) => {}
            Err(FillError::NotPresent) => return None,
        }
    }
    None
}

// Writes a line that reports that the word of that number isn't UTF-8, with the word escaped by `write_escaped`.
fn write_unread<L: Sink>(number: usize, word: &[u8], log: &mut L) -> Result<(), Unwritten>
    ensures written { OnOk result (Appends (L.contents log.old) (L.contents log.new) (unread_text number word.now)) }
    ensures cause { HasCause result (L.faults log.old) (L.faults log.new) }
{
    write!(log, "restamp: argument {number} is not UTF-8: '")?;
    write_escaped(true, word, log)?;
    log.write_all(b"'\n")
}

// Reports on standard error the first word that isn't UTF-8, or nothing if a word up to it can't be read again.
fn report_unread(rt: &HostRuntime) -> io::Result<()> {
    for number in 0..usize::MAX {
        let Some(word) = bytes_of(rt, number) else {
            return Ok(());
        };
        if std::str::from_utf8(word.as_slice()).is_err() {
            let mut text = Counted::new(Vec::new(rt.alloc()));
            let _ = write_unread(number, word.as_slice(), &mut text);
            return match text.into_parts() {
                (text, None) => rt.stderr().write_all(text.as_slice()),
                (_, Some(error)) => Err(error),
            };
        }
    }
    Ok(())
}

/// The words, the name of the program first; `None` if one isn't UTF-8, which is then reported on standard error.
pub(crate) fn words_of(rt: &HostRuntime) -> io::Result<Option<Vec<String>>> {
    match env::args(rt) {
        Ok(words) => Ok(Some(words.collect(rt.alloc())?)),
        Err(error) if error.kind() == ErrorKind::InvalidData => {
            report_unread(rt)?;
            Ok(None)
        }
        Err(error) => Err(error),
    }
}
