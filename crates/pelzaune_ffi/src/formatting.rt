//! Formats moments by descriptions.
ghost use Rattle.std.specs.Prelude.{◌≡◌};
ghost use Rattle.time_values.specs.Calendar.{greatest_year};
ghost use Rattle.time_components.specs.Tree.{steps_shape};
ghost use Rattle.time_formatting.specs.Texts.{text_of};
ghost use Rattle.pelzaune_ffi.specs.Described as Described;
ghost use Rattle.pelzaune_ffi.specs.Formatted as spec;
ghost use Rattle.pelzaune_ffi.specs.Results.{moment_refusal};

use crate::descriptions::{fault_status, read_description, syntax_of};
use crate::parts::MomentParts;
use crate::status::{TEXT_TOO_LONG, UNKNOWN_SYNTAX, status_of_range};
use crate::stored::{StoredDescription, steps_in_use, steps_of};
use crate::text::lay_bytes;
use crate::writing::moment_of;
use time_components::Step;
use time_formatting::{Unformattable, format};
use time_values::OffsetDateTime;

/// The most bytes of a text that a moment has by a description.
pub const MOST_BYTES: usize = 1024;

// The status of a moment that has no text by a description: 18 plus 256 times the number of the component that can't be
// written, or `TEXT_TOO_LONG`.
fn unformattable_status(why: Unformattable) -> u32
    ensures { result ≡ spec.unformattable_status why }
{
    match why {
        Unformattable::Year => 18 + 256,
        Unformattable::Ignore => 18 + 256 * 23,
        Unformattable::TooLong => TEXT_TOO_LONG,
    }
}

// Writes the text of a moment by the steps over the start of the buffer, truncated to the buffer's length, stores the
// length of the whole text in `count` and returns 0. Or returns the status of the error, and leaves both unchanged.
fn format_value(steps: &[Step], value: OffsetDateTime, buffer: &mut [u8], count: &mut usize) -> u32
    ensures { spec.IsFormatted (text_of MOST_BYTES greatest_year value (steps_shape steps.now)) result
        buffer.old buffer.new count.old count.new }
{
    match format::<MOST_BYTES>(value, steps) {
        Ok(text) => {
            lay_bytes(text.as_slice(), buffer);
            *count = text.len();
            0
        }
        Err(why) => unformattable_status(why),
    }
}

// Formats the moment with these parts by the steps into `buffer`, truncated to its length, stores the whole length in
// `count` and returns 0. Or returns the status of a part out of range or an unwritable text; then both are unchanged.
fn format_parts(steps: &[Step], parts: &MomentParts, buffer: &mut [u8], count: &mut usize) -> u32
    ensures { spec.FormatsParts (moment_refusal parts.now) parts.now (steps_shape steps.now) result
        buffer.old buffer.new count.old count.new }
{
    match moment_of(parts) {
        Ok(value) => format_value(steps, value, buffer, count),
        Err(error) => status_of_range(error),
    }
}

/// Writes the text of a moment, by a description in the syntax with this number, over the start of the buffer,
/// truncated to the buffer's length. The rest of the buffer is unchanged. Stores the length of the whole text in
/// `count`. The text has all optional items, and the first item of each choice.
///
/// Returns 0, or the status of the error and leaves `buffer` and `count` unchanged: 9 to 16 for a malformed
/// description, [`UNKNOWN_SYNTAX`], [`TEXT_TOO_LONG`] for a text of more than [`MOST_BYTES`] bytes; or, plus 256 times
/// the component's number, 5 or 6 for a part out of range or 18 for a component that can't be written.
pub fn format_read(
    syntax: u32,
    description: &[u8],
    moment: &MomentParts,
    buffer: &mut [u8],
    count: &mut usize,
) -> u32
    ensures { spec.FormatsByDescription (Described.syntax_of syntax) description.now moment.now result
        buffer.old buffer.new count.old count.new }
{
    by_description!(syntax, description, found => format_parts(found.steps(), moment, buffer, count))
}

/// As [`format_read`], by a stored description: stores the text and its length, and returns 0 or an error's status.
pub fn format_stored(
    description: &StoredDescription,
    moment: &MomentParts,
    buffer: &mut [u8],
    count: &mut usize,
) -> u32
    ensures { spec.FormatsParts (moment_refusal moment.now) moment.now (Described.stored_tree description.now) result
        buffer.old buffer.new count.old count.new }
{
    let steps = steps_of(steps_in_use(description));
    format_parts(steps.as_slice(), moment, buffer, count)
}
