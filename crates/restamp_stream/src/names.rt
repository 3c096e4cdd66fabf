//! Displays names, and writes the text of an error to a fixed array.
ghost use Rattle.std.specs.Io.KnownBytes.{Appends};
ghost use Rattle.std.specs.Prelude.{◌≡◌, ◌<◌, ◌≤◌, ℕ, length, slice_index, take, true, false, IfOk, OnOk};
ghost use Rattle.byte_streams.specs.Faults.{HasCause};
ghost use Rattle.restamp_stream.specs.Reports as names;

use byte_streams::{ArrayBuf, Sink, Unwritten};
use std::io;
use std::io::Write;

// The ASCII character of a hexadecimal digit from 0 to 15: `0` to `9`, or `a` to `f`.
fn hexadecimal(digit: u8) -> u8
    requires { digit < 16 }
    ensures { result ≡ names.hexadecimal digit }
{
    if digit < 10 {
        b'0' + digit
    } else {
        b'a' + (digit - 10)
    }
}

// `\x` and the two hexadecimal digits of a byte, with small letters.
fn escape(byte: u8) -> [u8; 4]
    ensures { result ≡ names.escape byte }
{
    [b'\\', b'x', hexadecimal(byte / 16), hexadecimal(byte % 16)]
}

// Whether a byte is escaped: an ASCII control character (0 to 31, or 127), or if `ascii` is set, a byte from 128 on.
fn is_escaped(ascii: bool, byte: u8) -> bool
    ensures { result ≡ names.is_escaped ascii byte }
{
    byte.is_ascii_control() || (ascii && !byte.is_ascii())
}

// How many bytes come before the first escaped one; the length of `name` if none is escaped.
fn plain_length(ascii: bool, name: &[u8]) -> usize
    ensures within { result ≤ length name.now }
    ensures plain { (k : ℕ) → k < result → names.is_escaped ascii (slice_index name.now k) ≡ false }
    ensures next { result < length name.now → names.is_escaped ascii (slice_index name.now result) ≡ true }
{
    for (i, byte) in name.iter().enumerate() {
        if is_escaped(ascii, *byte) {
            return i;
        }
    }
    name.len()
}

// Writes the unescaped bytes at the start of `name`; if none, its first byte escaped. Returns their number in `name`.
#[tactic(auto, using(crate::proofs::LinesLemmas::log_writes))]
fn write_part<L: Sink>(ascii: bool, name: &[u8], log: &mut L) -> Result<usize, Unwritten>
    requires { 0 < length name.now }
    ensures some { IfOk result (λ n. 0 < n) }
    ensures within { IfOk result (λ n. n ≤ length name.now) }
    ensures shown { IfOk result (λ n. Appends (L.contents log.old) (L.contents log.new) (names.displayed_as ascii (take n name.now))) }
    ensures cause { HasCause result (L.faults log.old) (L.faults log.new) }
{
    let plain = plain_length(ascii, name);
    if plain == 0 {
        log.write_all(&escape(name[0]))?;
        return Ok(1);
    }
    log.write_all(&name[..plain])?;
    Ok(plain)
}

/// Writes a name with each ASCII control character (0 to 31, or 127) as `\x` and two hexadecimal digits, and if `ascii`
/// is set, each byte from 128 on, too. Escapes have small letters, as in `\x1b`. Other bytes are written as they are.
pub fn write_escaped<L: Sink>(ascii: bool, name: &[u8], log: &mut L) -> Result<(), Unwritten>
    ensures shown { OnOk result (Appends (L.contents log.old) (L.contents log.new) (names.displayed_as ascii name.now)) }
    ensures cause { HasCause result (L.faults log.old) (L.faults log.new) }
{
    let mut rest = name;
    while !rest.is_empty() {
        let n = write_part(ascii, rest, log)?;
        rest = &rest[n..];
    }
    Ok(())
}

/// Writes a name with each ASCII control character (0 to 31, or 127) as `\x` and two hexadecimal digits (ESC: `\x1b`),
/// so that no name ends a line or starts an escape sequence with ESC. Other bytes are written as they are.
pub fn write_name<L: Sink>(name: &[u8], log: &mut L) -> Result<(), Unwritten>
    ensures shown { OnOk result (Appends (L.contents log.old) (L.contents log.new) (names.displayed_name name.now)) }
    ensures cause { HasCause result (L.faults log.old) (L.faults log.new) }
{
    write_escaped(false, name, log)
}

/// The text of an error: at most 256 bytes.
pub type Message = ArrayBuf<256>;

/// The text of an error, truncated to 256 bytes.
pub fn message_of(error: &io::Error) -> Message {
    let mut message = Message::new();
    // A text that doesn't fit in the buffer is cut off.
    match write!(message, "{error}") {
        Ok(()) | Err(_) => message,
    }
}
