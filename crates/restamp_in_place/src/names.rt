//! The name of a backup.
ghost use Rattle.std.specs.Prelude.{◌≡◌, IfOk, string_bytes};
ghost use Rattle.restamp_in_place.specs.Replacing as spec;

use std::alloc::Global;
use std::io;
use std::io::ErrorKind;

// Whether a text has a `*`.
fn has_star(text: &[u8]) -> bool
    ensures { result ≡ spec.has_star text.now }
{
    let mut left = text;
    while let [first, rest @ ..] = left {
        if *first == b'*' {
            return true;
        }
        left = rest;
    }
    false
}

// The text with the name in place of each `*`.
fn with_name(alloc: Global, name: &[u8], text: &[u8]) -> io::Result<Vec<u8>>
    ensures { IfOk result (λ bytes. bytes.items ≡ spec.with_name name.now text.now) }
{
    let mut bytes = Vec::new(alloc);
    let mut left = text;
    while let [first, rest @ ..] = left {
        if *first == b'*' {
            bytes.extend_from_slice(name)?;
        } else {
            bytes.push(*first)?;
        }
        left = rest;
    }
    Ok(bytes)
}

/// The name of a file's backup: the suffix with the name in place of each `*`; without a `*`, the name followed by the
/// suffix. An empty suffix results in the name itself.
///
/// # Errors
///
/// Out of memory.
pub fn backup_name(alloc: Global, name: &str, suffix: &str) -> io::Result<String>
    ensures { IfOk result (λ backup. string_bytes backup ≡ spec.backup_of name.now suffix.now) }
{
    if !has_star(suffix.as_bytes()) {
        let mut backup = String::from_str(alloc, name)?;
        backup.push_str(suffix)?;
        return Ok(backup);
    }
    let bytes = with_name(alloc, name.as_bytes(), suffix.as_bytes())?;
    String::from_utf8(bytes).map_err(|_| io::Error::from(ErrorKind::InvalidData))
}
