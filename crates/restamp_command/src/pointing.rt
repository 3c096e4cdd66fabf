//! Writes what was expected at an error, and the line with a caret below the error.
ghost use Rattle.std.specs.Char.Escape.{escape_ascii};
ghost use Rattle.std.specs.Char.Iter.{escape_byte_end, escape_byte_rest};
ghost use Rattle.std.specs.Io.KnownBytes.{Appends};
ghost use Rattle.std.specs.Option.{option_map};
ghost use Rattle.std.specs.Prelude.{◌≤◌, OnOk, flat_map, ◌≡◌, ◌-◌, map, take, drop};
ghost use Rattle.byte_streams.specs.Faults.{HasCause};
ghost use Rattle.time_locating.specs.Located.{wants};
ghost use Rattle.restamp_command.specs.Rewriting as spec;

use byte_streams::{Sink, Unwritten};
use std::ascii::EscapeDefault;
use time_locating::Expected;

// Writes the bytes that are left of a byte's escaped form, such as `\x1b`: at most 4.
fn write_left<L: Sink>(mut left: EscapeDefault, log: &mut L) -> Result<(), Unwritten>
    requires { escape_byte_end left ≤ 4 }
    ensures written { OnOk result (Appends (L.contents log.old) (L.contents log.new) (escape_byte_rest left)) }
    ensures cause { HasCause result (L.faults log.old) (L.faults log.new) }
{
    let Some(byte) = left.next() else {
        return Ok(());
    };
    log.write_all(&[byte])?;
    write_left(left, log)
}

// Writes the bytes, each escaped by `escape_ascii`: quotes, backslashes and all but printable ASCII with a backslash.
fn write_escaped<L: Sink>(bytes: &[u8], log: &mut L) -> Result<(), Unwritten>
    ensures written { OnOk result (Appends (L.contents log.old) (L.contents log.new) (flat_map escape_ascii bytes.now)) }
    ensures cause { HasCause result (L.faults log.old) (L.faults log.new) }
{
    let [byte, rest @ ..] = bytes else {
        return Ok(());
    };
    write_left(byte.escape_ascii(), log)?;
    write_escaped(rest, log)
}

// Writes what was expected: a literal in single quotes, escaped by `escape_ascii`; the name of a component; or `the
// end`.
fn write_expectation<L: Sink>(expected: Expected<'_>, log: &mut L) -> Result<(), Unwritten>
    ensures written { OnOk result (Appends (L.contents log.old) (L.contents log.new) (spec.expectation_text (wants expected.entry))) }
    ensures cause { HasCause result (L.faults log.old) (L.faults log.new) }
{
    match expected {
        Expected::Literal(bytes) => {
            log.write_all(b"'")?;
            write_escaped(bytes, log)?;
            log.write_all(b"'")
        }
        Expected::Component(name) => log.write_all(name.as_bytes()),
        Expected::End => log.write_all(b"the end"),
    }
}

/// Writes `: expected ` and an escaped literal in single quotes, a component's name, or `the end`; nothing for `None`.
pub fn write_expected<L: Sink>(expected: Option<Expected<'_>>, log: &mut L) -> Result<(), Unwritten>
    ensures written { OnOk result (Appends (L.contents log.old) (L.contents log.new)
        (spec.expected_text (option_map wants expected.entry))) }
    ensures cause { HasCause result (L.faults log.old) (L.faults log.new) }
{
    let Some(expected) = expected else {
        return Ok(());
    };
    log.write_all(b": expected ")?;
    write_expectation(expected, log)
}

/// How many bytes of a line are printed at most.
const PRINTED: usize = 60;

/// How many printed bytes of a line may come before the error's column.
const BEFORE: usize = 40;

const BLANKS: [u8; BEFORE] = [b' '; BEFORE];

// The byte if it is printable ASCII or a space, otherwise `.`.
fn printable_byte(byte: u8) -> u8
    ensures { result ≡ spec.printable_byte byte }
{
    if b' ' <= byte && byte <= b'~' {
        byte
    } else {
        b'.'
    }
}

// Writes the bytes, with a dot for each that isn't printable ASCII or a space.
fn write_printable<L: Sink>(bytes: &[u8], log: &mut L) -> Result<(), Unwritten>
    ensures written { OnOk result (Appends (L.contents log.old) (L.contents log.new) (map spec.printable_byte bytes.now)) }
    ensures cause { HasCause result (L.faults log.old) (L.faults log.new) }
{
    let [byte, rest @ ..] = bytes else {
        return Ok(());
    };
    log.write_all(&[printable_byte(*byte)])?;
    write_printable(rest, log)
}

// Writes n spaces, at most 40.
fn write_blanks<L: Sink>(n: usize, log: &mut L) -> Result<(), Unwritten>
    ensures written { OnOk result (Appends (L.contents log.old) (L.contents log.new) (spec.blanks n)) }
    ensures cause { HasCause result (L.faults log.old) (L.faults log.new) }
{
    log.write_all(&BLANKS[..n.min(BEFORE)])
}

// At most 60 bytes of a line, from 40 bytes before the column or from the line's start. Columns count from 1.
fn bytes_around(line: &[u8], column: usize) -> &[u8]
    ensures { result.now ≡ take 60 (drop (column - 41) line.now) }
{
    let left_out = column.saturating_sub(BEFORE + 1);
    let rest = &line[left_out.min(line.len())..];
    &rest[..PRINTED.min(rest.len())]
}

/// Writes an LF, up to 60 bytes of a line from 40 bytes before a column (counted from 1) or from its start, an LF, and
/// a red caret under the column. Any byte but printable ASCII or a space is written as a dot. No LF follows the caret.
pub fn write_pointer<L: Sink>(line: &[u8], column: usize, log: &mut L) -> Result<(), Unwritten>
    ensures written { OnOk result (Appends (L.contents log.old) (L.contents log.new) (spec.pointer line.now column)) }
    ensures cause { HasCause result (L.faults log.old) (L.faults log.new) }
{
    log.write_all(b"\n")?;
    write_printable(bytes_around(line, column), log)?;
    log.write_all(b"\n")?;
    write_blanks(column.saturating_sub(1), log)?;
    log.write_all(b"\x1b[31m^\x1b[0m")
}
