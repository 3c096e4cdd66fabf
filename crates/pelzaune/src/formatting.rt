//! Formats moments, by the numbers of formats and by descriptions.
ghost use Rattle.pelzaune_ffi.specs.Described as Described;
ghost use Rattle.pelzaune_ffi.specs.Formatted.{FormatsByDescription, FormatsParts};
ghost use Rattle.pelzaune_ffi.specs.Results.{format_of, moment_refusal, StoresText};

use pelzaune_ffi::formatting::{format_read, format_stored};
use pelzaune_ffi::parts::MomentParts;
use pelzaune_ffi::stored::StoredDescription;
use pelzaune_ffi::writing::format_moment;

/// Writes the text of a moment, in the format with this number, over the start of the buffer, truncated to the buffer's
/// length. The rest of the buffer is unchanged. Stores the length of the whole text in `count`.
///
/// Returns 0, or the status of the error and leaves `buffer` and `count` unchanged: 5 or 6 for a part out of range, 18
/// for one that the format can't write, each plus 256 times the component's number, or 8 for an unknown format.
#[unsafe(no_mangle)]
pub extern "C" fn pelzaune_format_moment(
    format: u32,
    moment: &MomentParts,
    buffer: &mut [u8],
    count: &mut usize,
) -> u32
    ensures { StoresText (format_of format) moment.now result buffer.old buffer.new count.old count.new }
{
    format_moment(format, moment, buffer, count)
}

/// Writes the text of a moment, by a description in the syntax with this number, over the start of the buffer,
/// truncated to the buffer's length. The rest of the buffer is unchanged. Stores the length of the whole text in
/// `count`. The text has all optional items, and the first item of each choice.
///
/// Returns 0, or the status of the error and leaves `buffer` and `count` unchanged: 9 to 16 for a malformed
/// description, 17 for an unknown syntax, 19 for a text of more than 1024 bytes; or, plus 256 times the component's
/// number, 5 or 6 for a part out of range or 18 for a component that can't be written.
#[unsafe(no_mangle)]
pub extern "C" fn pelzaune_read_format_moment(
    syntax: u32,
    description: &[u8],
    moment: &MomentParts,
    buffer: &mut [u8],
    count: &mut usize,
) -> u32
    ensures { FormatsByDescription (Described.syntax_of syntax) description.now moment.now result
        buffer.old buffer.new count.old count.new }
{
    format_read(syntax, description, moment, buffer, count)
}

/// As `pelzaune_read_format_moment`, by a stored description: stores text and length; returns 0 or an error's status.
#[unsafe(no_mangle)]
pub extern "C" fn pelzaune_described_format_moment(
    description: &StoredDescription,
    moment: &MomentParts,
    buffer: &mut [u8],
    count: &mut usize,
) -> u32
    ensures { FormatsParts (moment_refusal moment.now) moment.now (Described.stored_tree description.now) result
        buffer.old buffer.new count.old count.new }
{
    format_stored(description, moment, buffer, count)
}
