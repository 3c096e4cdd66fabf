//! Matches the names of a line by patterns.
//!
//! For lines with known names `request` returns the request that `split_request` does, and `None` for all others.
ghost use Rattle.std.specs.Prelude.{◌≡◌, ℕ, List, ◌++◌, IfSome};
ghost use Rattle.programs_answers.specs.Formats as formats;
ghost use Rattle.programs_answers.specs.Output.{IsParsed};
ghost use Rattle.time_lines.specs.Pieces.{StartsWithName};
ghost use Rattle.time_lines.specs.Output.{IsAnswer};

use programs_answers::formats::{Format, Target};

// The bytes after `name`. A `name` ends with a TAB. `None` if the bytes don't start with `name`.
#[inline(always)]
fn after<'a>(bytes: &'a [u8], name: &[u8]) -> Option<&'a [u8]>
    ensures { IfSome result (λ rest. bytes.now ≡ name.now ++ rest.now) }
{
    bytes.strip_prefix(name)
}

// The format whose name and TAB start the line, and the bytes after them. `None` for any other start of the line.
#[inline(always)]
fn format(line: &[u8]) -> Option<(Format, &[u8])>
    ensures { IfSome result (λ read. StartsWithName formats.format_named line.now read.0 read.1.now) }
{
    match line {
        [b'r', ..] => match after(line, b"rfc3339\t") {
            Some(rest) => Some((Format::Rfc3339, rest)),
            None => Some((Format::Rfc2822, after(line, b"rfc2822\t")?)),
        },
        [b'i', ..] => Some((Format::Iso8601, after(line, b"iso8601\t")?)),
        [b'y', ..] => Some((Format::Ymd, after(line, b"ymd\t")?)),
        [b'c', ..] => Some((Format::Clock, after(line, b"clock\t")?)),
        [b'u', ..] => Some((Format::Unix, after(line, b"unix\t")?)),
        [b'l', ..] => Some((Format::Local, after(line, b"local\t")?)),
        _ => None,
    }
}

// The target whose name and TAB start the bytes, and the bytes after them. `None` for any other start of the bytes.
#[inline(always)]
fn target(bytes: &[u8]) -> Option<(Target, &[u8])>
    ensures { IfSome result (λ read. StartsWithName formats.target_named bytes.now read.0 read.1.now) }
{
    match bytes {
        [b'd', ..] => match after(bytes, b"date\t") {
            Some(rest) => Some((Target::Date, rest)),
            None => Some((Target::DateTime, after(bytes, b"datetime\t")?)),
        },
        [b't', ..] => match after(bytes, b"time\t") {
            Some(rest) => Some((Target::Time, rest)),
            None => Some((Target::Timestamp, after(bytes, b"timestamp\t")?)),
        },
        [b'o', ..] => Some((Target::Offset, after(bytes, b"offset\t")?)),
        [b'p', ..] => Some((Target::Plain, after(bytes, b"plain\t")?)),
        [b'u', ..] => Some((Target::Utc, after(bytes, b"utc\t")?)),
        [b's', ..] => Some((Target::Staged, after(bytes, b"staged\t")?)),
        _ => None,
    }
}

// The format, target and text of the line. `None` unless it starts with a format's name, TAB, a target's name and TAB.
#[inline(always)]
pub(super) fn request(line: &[u8]) -> Option<(Format, Target, &[u8])>
    ensures { IfSome result
        (λ request. (answer : List ℕ) → IsParsed request.0 request.1 request.2.now answer
        → IsAnswer line.now answer) }
{
    let (format, rest) = format(line)?;
    let (target, text) = target(rest)?;
    Some((format, target, text))
}
