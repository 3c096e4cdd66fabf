//! The byte at which a rejected text fails.
ghost use Rattle.std.specs.Prelude.{◌≡◌};
ghost use Rattle.pelzaune_ffi.specs.Described as Described;
ghost use Rattle.pelzaune_ffi.specs.Results as Formats;
ghost use Rattle.pelzaune_ffi.specs.Places.{StoresPlace, StoresPlaceByDescription, IsPlaceStored, LocatesBy, first_of};

use crate::descriptions::{fault_status, read_description, syntax_of};
use crate::status::{Format, UNKNOWN_FORMAT, UNKNOWN_SYNTAX, format_of, status_of_description};
use time_locating::{Expected, Locate, Located};
use time_parsing::{Iso8601, Rfc2822, Rfc3339, Rfc3339Strict};
use time_values::error::ParseFromDescription;

/// Where a text fails to match a format, in the layout of C.
#[repr(C)]
#[derive(Clone, Copy)]
pub struct Place {
    /// The byte index at which the text fails: the start of the expected component, even of a truncated one, the first
    /// byte that doesn't match a literal, or the first byte too many. It is the text's length if the text ends there.
    pub index: usize,
    /// The byte of a literal that was expected there, or 0 where a component or the end was expected.
    pub byte: u8,
}

// The first of these bytes, or 0 if there are none.
fn first_of(bytes: &[u8]) -> u8
    ensures { result ≡ first_of bytes.now }
{
    match bytes {
        [byte, ..] => *byte,
        [] => 0,
    }
}

// Stores a location in `out`. Returns the status of what was expected there: 1 for a literal, 2 plus 256 times its
// number for a component, or 3 for the end. For `None` returns 0, and `out` is unchanged.
fn store_place(answer: Option<Located<'_>>, out: &mut Place) -> u32
    ensures { IsPlaceStored answer.entry result out.old out.new }
{
    let Some(place) = answer else {
        return 0;
    };
    let (byte, refusal) = match place.expected {
        Expected::Literal(bytes) => (first_of(bytes), ParseFromDescription::InvalidLiteral),
        Expected::Component(name) => (0, ParseFromDescription::InvalidComponent(name)),
        Expected::End => (0, ParseFromDescription::UnexpectedTrailingCharacters),
    };
    *out = Place {
        index: place.index,
        byte,
    };
    status_of_description(refusal)
}

// Stores where a text fails to match the format. Returns the status of what was expected there; 0 if it matches, and
// then `out` is unchanged.
fn locate<F: Locate>(format: &F, text: &[u8], out: &mut Place) -> u32
    ensures { LocatesBy (F.reads format.now) (F.locates format.now) text.now result out.old out.new }
{
    store_place(format.locate(text, None), out)
}

/// Stores in `out` the byte index at which a text fails to match the format with this number, and the literal byte
/// expected there or 0. Returns the status of what was expected: 1 for a literal, 2 plus 256 times its number for a
/// component, or 3 for the end of the text. If the whole text matches, even with a date that doesn't exist, such as 30
/// February, returns 0. For an unknown format returns 8. In both cases `out` is unchanged.
#[inline(always)]
pub fn locate_by(format: u32, text: &[u8], out: &mut Place) -> u32
    ensures { StoresPlace (Formats.format_of format) text.now result out.old out.new }
{
    match format_of(format) {
        Some(Format::Rfc3339) => locate(&Rfc3339, text, out),
        Some(Format::Rfc2822) => locate(&Rfc2822, text, out),
        Some(Format::Iso8601) => locate(&Iso8601, text, out),
        Some(Format::Rfc3339Strict) => locate(&Rfc3339Strict, text, out),
        None => UNKNOWN_FORMAT,
    }
}

/// As [`locate_by`], by a description in this syntax: stores where a text fails, and returns the status of what was
/// expected. `out` is unchanged for a match (0), a malformed description (9 to 16) or an unknown syntax (17).
#[inline(always)]
pub fn locate_read(syntax: u32, description: &[u8], text: &[u8], out: &mut Place) -> u32
    ensures { StoresPlaceByDescription (Described.syntax_of syntax) description.now text.now result out.old out.new }
{
    by_description!(syntax, description, found => locate(&found, text, out))
}
