//! Columns: the lines of a text, each as the nanoseconds of its moment.
ghost use Rattle.std.specs.Prelude.{◌≡◌, ◌≤◌, length, Some};
ghost use Rattle.byte_streams.specs.Lines.{line_texts};
ghost use Rattle.time_components.specs.Tree.{steps_shape};
ghost use Rattle.pelzaune_ffi.specs.Columns.{Counting, IsColumn, rejecting, by_tree};
ghost use Rattle.pelzaune_ffi.specs.Columns as spec;
ghost use Rattle.pelzaune_ffi.specs.Described as Described;
ghost use Rattle.pelzaune_ffi.specs.Described.{StoresByDescription, StoresBySteps};
ghost use Rattle.pelzaune_ffi.specs.Results as Formats;
ghost use Rattle.pelzaune_ffi.specs.Results.{StoresCount, IsCountStored, of_moment};

use crate::descriptions::{MOST_STEPS, Syntax, fault_status, read_description, syntax_of};
use crate::lines::{count_lines, first_line};
use crate::moments::count_by;
use crate::parts::Nanoseconds;
use crate::results::count;
use crate::status::UNKNOWN_SYNTAX;
use crate::stored::{StoredDescription, prepare};
use time_preparing::Prepared;

// Parses or rejects a line, and stores the nanoseconds from 1970-01-01T00:00:00Z to the moment of a parsed one.
trait Count {
    // Relates a line to the status that `count_line` returns, and to the entry before and after the call.
    ghost stores: { Self → Counting };

    // Stores the line's nanoseconds in `entry` and returns 0; or returns another status, and `entry` is unchanged.
    fn count_line(&self, line: &[u8], entry: &mut Nanoseconds) -> u32
        ensures { stores self.now line.now result entry.old entry.new };
}

// Parses lines by the format with this number. An unknown number rejects each line.
#[derive(Clone, Copy)]
struct ByNumber(u32);

impl Count for ByNumber {
    ghost stores = { λ s. StoresCount (Formats.format_of s.0) };

    #[inline(always)]
    fn count_line(&self, line: &[u8], entry: &mut Nanoseconds) -> u32 {
        count_by(self.0, line, entry)
    }
}

// Parses lines by a prepared description, and stores the nanoseconds of their moments.
impl Count for Prepared<MOST_STEPS> {
    ghost stores = { λ s. by_tree (steps_shape s) };

    #[inline(always)]
    fn count_line(&self, line: &[u8], entry: &mut Nanoseconds) -> u32 {
        count(self, line, entry)
    }
}

// Rejects every line with this status.
#[derive(Clone, Copy)]
struct RejectAll(u32);

impl Count for RejectAll {
    ghost stores = { λ s. rejecting s.0 };

    #[inline(always)]
    fn count_line(&self, _line: &[u8], _entry: &mut Nanoseconds) -> u32 {
        self.0
    }
}

// The line without the CR at its end, if there is one.
#[inline(always)]
fn without_cr(line: &[u8]) -> &[u8]
    ensures { result.now ≡ spec.without_cr line.now }
{
    match line {
        [text @ .., b'\r'] => text,
        _ => line,
    }
}

// 0 for the status 0, and 1 for any other, which is an error's.
#[inline(always)]
fn one_if_refused(status: u32) -> usize
    ensures one { result ≡ spec.one_if_refused status }
    ensures bound { result ≤ 1 }
{
    usize::from(status != 0)
}

// Parses each line that has an entry, by `counting`, and stores its nanoseconds there, or `i64::MIN` if it is rejected.
// Stores in `refused` how many lines with an entry are rejected. An entry without a line is unchanged. Returns how many
// lines the whole text has.
#[inline(always)]
fn column<C: Count>(
    counting: &C,
    text: &[u8],
    entries: &mut [Nanoseconds],
    refused: &mut usize,
) -> usize
    ensures lines { result ≡ length (line_texts text.now) }
    ensures entries { IsColumn (C.stores counting.now) (line_texts text.now) entries.old entries.new refused.new }
{
    let mut rest = text;
    let mut index = 0;
    let mut rejected = 0;
    while index < entries.len() && !rest.is_empty() {
        let mut entry = Nanoseconds { count: i64::MIN };
        let (line, after) = first_line(rest);
        rejected += one_if_refused(counting.count_line(without_cr(line), &mut entry));
        entries[index] = entry;
        index += 1;
        rest = after;
    }
    *refused = rejected;
    index + count_lines(rest)
}

/// Parses the first lines of a text by the format with this number, as many as there are entries, and stores in the
/// entry at a line's index the nanoseconds from 1970-01-01T00:00:00Z to its instant. Returns how many lines the text
/// has, which may be more.
///
/// The entry of a rejected line is set to `i64::MIN`, which is also that of the earliest instant that fits; `refused`
/// is set to the number of rejected lines that have an entry. A line is also rejected if its nanoseconds don't fit 64
/// bits, and each line if no format has this number. An entry without a line is unchanged.
///
/// A line ends with LF, which is optional after the last one. Without its LF, and without a CR at its end, it is parsed
/// as by [`count_by`].
#[inline(always)]
pub fn column_by(
    format: u32,
    text: &[u8],
    entries: &mut [Nanoseconds],
    refused: &mut usize,
) -> usize
    ensures lines { result ≡ length (line_texts text.now) }
    ensures entries { IsColumn (StoresCount (Formats.format_of format)) (line_texts text.now)
        entries.old entries.new refused.new }
{
    column(&ByNumber(format), text, entries, refused)
}

// Stores in each line's entry its nanoseconds since 1970 by a description, or `i64::MIN` if it is rejected, and in
// `refused` how many lines with an entry are. A malformed description rejects each. Returns how many lines `text` has.
fn described_column(
    syntax: Syntax,
    description: &[u8],
    text: &[u8],
    entries: &mut [Nanoseconds],
    refused: &mut usize,
) -> usize
    ensures lines { result ≡ length (line_texts text.now) }
    ensures entries { IsColumn (StoresByDescription IsCountStored of_moment (Some syntax) description.now)
        (line_texts text.now) entries.old entries.new refused.new }
{
    match read_description(syntax, description) {
        Ok(found) => column(&Prepared::new(&found), text, entries, refused),
        Err(error) => column(&RejectAll(fault_status(error)), text, entries, refused),
    }
}

/// As [`column_by`], by a description in this syntax: stores each line's nanoseconds since 1970, or `i64::MIN` for a
/// rejected line, and returns the number of lines. A malformed description or an unknown syntax rejects each line.
#[inline(always)]
pub fn column_read(
    syntax: u32,
    description: &[u8],
    text: &[u8],
    entries: &mut [Nanoseconds],
    refused: &mut usize,
) -> usize
    ensures lines { result ≡ length (line_texts text.now) }
    ensures entries { IsColumn (StoresByDescription IsCountStored of_moment (Described.syntax_of syntax)
        description.now) (line_texts text.now) entries.old entries.new refused.new }
{
    match syntax_of(syntax) {
        Some(syntax) => described_column(syntax, description, text, entries, refused),
        None => column(&RejectAll(UNKNOWN_SYNTAX), text, entries, refused),
    }
}

/// As [`column_by`], by a stored description: stores nanoseconds or `i64::MIN` by line, and returns the line count.
#[inline(always)]
pub fn column_stored(
    description: &StoredDescription,
    text: &[u8],
    entries: &mut [Nanoseconds],
    refused: &mut usize,
) -> usize
    ensures lines { result ≡ length (line_texts text.now) }
    ensures entries { IsColumn (StoresBySteps IsCountStored of_moment description.now)
        (line_texts text.now) entries.old entries.new refused.new }
{
    column(&prepare(description), text, entries, refused)
}
