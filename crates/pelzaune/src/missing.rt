//! Reports what a text is missing for a value.
ghost use Rattle.pelzaune_ffi.specs.Described as Described;
ghost use Rattle.pelzaune_ffi.specs.Described.{StoresByDescription, StoresBySteps};
ghost use Rattle.pelzaune_ffi.specs.Missing.{IsMissing};
ghost use Rattle.pelzaune_ffi.specs.Results.{format_of, of_record, StoresBy};

use pelzaune_ffi::missing::{missing_by, missing_read, missing_stored};
use pelzaune_ffi::stored::StoredDescription;

/// Returns the status of the component that a text, parsed by the format with this number, is missing for the values
/// that `needs` selects: 4 plus 256 times the component's number, or 0 if none is. `needs` is the sum of 1 for a date,
/// 2 for a time and 4 for an offset. If all three are selected, and only then, a Unix timestamp gives them. Of several
/// missing components the date's is reported first, then the time's, then the offset's.
///
/// If the whole text isn't parsed, returns the error's status, or 8 for an unknown format.
#[unsafe(no_mangle)]
pub extern "C" fn pelzaune_missing(needs: u32, format: u32, text: &[u8]) -> u32
    ensures { StoresBy (IsMissing needs) of_record (format_of format) text.now result tt tt }
{
    missing_by(needs, format, text)
}

/// As `pelzaune_missing`, by a description in this syntax: returns 4 plus 256 times the missing component's number, or
/// 0 if none is missing; or the status of the text's or the description's error, 17 for an unknown syntax.
#[unsafe(no_mangle)]
pub extern "C" fn pelzaune_read_missing(
    needs: u32,
    syntax: u32,
    description: &[u8],
    text: &[u8],
) -> u32
    ensures { StoresByDescription (IsMissing needs) of_record (Described.syntax_of syntax) description.now text.now
        result tt tt }
{
    missing_read(needs, syntax, description, text)
}

/// As `pelzaune_missing`, by a stored description: 4 + 256 * a component's number; 0 if none is; or an error's status.
#[unsafe(no_mangle)]
pub extern "C" fn pelzaune_described_missing(
    needs: u32,
    description: &StoredDescription,
    text: &[u8],
) -> u32
    ensures { StoresBySteps (IsMissing needs) of_record description.now text.now result tt tt }
{
    missing_stored(needs, description, text)
}
