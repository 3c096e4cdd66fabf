//! Descriptions that C stores by value and that parse many texts; columns; and the location of errors.
ghost use Rattle.std.specs.Prelude.{◌≡◌, length};
ghost use Rattle.time_values.specs.Calendar.{greatest_year};
ghost use Rattle.time_record.specs.Resolution.{IsDated, IsTimed, IsOffset, IsPlain, IsUtcMoment};
ghost use Rattle.byte_streams.specs.Lines.{line_texts};
ghost use Rattle.pelzaune_ffi.specs.Columns.{IsColumn};
ghost use Rattle.pelzaune_ffi.specs.Results.{IsStored, IsCountStored, ArePartsStored, HasDate, HasTime, HasOffset, HasPlain, HasUtc, HasMoment, HasInstant, over_empty, of_record, of_moment, StoresCount};
ghost use Rattle.pelzaune_ffi.specs.Described as Described;
ghost use Rattle.pelzaune_ffi.specs.Described.{StoresBySteps, StoresDescription, StoresByDescription};
ghost use Rattle.pelzaune_ffi.specs.Results as Formats;
ghost use Rattle.pelzaune_ffi.specs.Places.{StoresPlace, StoresPlaceByDescription};

use pelzaune_ffi::columns::{column_by, column_read, column_stored};
use pelzaune_ffi::locating::{Place, locate_by, locate_read};
use pelzaune_ffi::parts::{
    DateParts, Instant, LocalParts, MomentParts, Nanoseconds, OffsetParts, Parts, TimeParts,
};
use pelzaune_ffi::results::{count, parts, store_value};
use pelzaune_ffi::stored::{StoredDescription, describe};
use time_values::{Date, OffsetDateTime, PlainDateTime, Time, UtcDateTime, UtcOffset};

/// Parses a description in the syntax with this number and stores it in `out`. Returns 0; or the status of an error,
/// and leaves `out` unchanged. Stores the byte index of the description's first fault in `index`; with the status 0, 16
/// for more than 64 steps, or 17 for an unknown syntax, `index` is unchanged.
#[unsafe(no_mangle)]
pub extern "C" fn pelzaune_describe(
    syntax: u32,
    text: &[u8],
    out: &mut StoredDescription,
    index: &mut usize,
) -> u32
    ensures { StoresDescription (Described.syntax_of syntax) text.now result out.old out.new index.old index.new }
{
    describe(syntax, text, out, index)
}

/// Parses a whole text by a stored description, and stores its date in `out`. Any other component is dropped. Returns
/// 0, or the error's status and leaves `out` unchanged.
#[unsafe(no_mangle)]
pub extern "C" fn pelzaune_described_date(
    description: &StoredDescription,
    text: &[u8],
    out: &mut DateParts,
) -> u32
    ensures { StoresBySteps (IsStored HasDate) (over_empty (IsDated greatest_year)) description.now text.now
        result out.old out.new }
{
    store_value::<Date, DateParts, StoredDescription>(description, text, out)
}

/// Parses a whole text by a stored description, and stores its time in `out`. Any other component is dropped, and a
/// second of 60 is rejected. Returns 0, or the error's status and leaves `out` unchanged.
#[unsafe(no_mangle)]
pub extern "C" fn pelzaune_described_time(
    description: &StoredDescription,
    text: &[u8],
    out: &mut TimeParts,
) -> u32
    ensures { StoresBySteps (IsStored HasTime) (over_empty IsTimed) description.now text.now result out.old out.new }
{
    store_value::<Time, TimeParts, StoredDescription>(description, text, out)
}

/// Parses a whole text by a stored description, and stores its offset in `out`, in seconds ahead of UTC. Any other
/// component is dropped. Returns 0, or the error's status and leaves `out` unchanged.
#[unsafe(no_mangle)]
pub extern "C" fn pelzaune_described_offset(
    description: &StoredDescription,
    text: &[u8],
    out: &mut OffsetParts,
) -> u32
    ensures { StoresBySteps (IsStored HasOffset) (over_empty IsOffset) description.now text.now result out.old out.new }
{
    store_value::<UtcOffset, OffsetParts, StoredDescription>(description, text, out)
}

/// Parses a whole text by a stored description, and stores its date and time in `out`. An offset or a Unix timestamp is
/// dropped, and a second of 60 is rejected. Returns 0, or the error's status and leaves `out` unchanged.
#[unsafe(no_mangle)]
pub extern "C" fn pelzaune_described_local(
    description: &StoredDescription,
    text: &[u8],
    out: &mut LocalParts,
) -> u32
    ensures { StoresBySteps (IsStored HasPlain) (over_empty (IsPlain greatest_year)) description.now text.now
        result out.old out.new }
{
    store_value::<PlainDateTime, LocalParts, StoredDescription>(description, text, out)
}

/// Parses a whole text by a stored description, and stores the date and time of its moment in UTC in `out`. A Unix
/// timestamp gives the moment, and a subsecond replaces its fraction; without a timestamp, a second of 60 is rejected,
/// and a text without an offset is in UTC. Returns 0, or the error's status and leaves `out` unchanged.
#[unsafe(no_mangle)]
pub extern "C" fn pelzaune_described_utc(
    description: &StoredDescription,
    text: &[u8],
    out: &mut LocalParts,
) -> u32
    ensures { StoresBySteps (IsStored HasUtc) (over_empty (IsUtcMoment greatest_year)) description.now text.now
        result out.old out.new }
{
    store_value::<UtcDateTime, LocalParts, StoredDescription>(description, text, out)
}

/// Parses a whole text by a stored description, and stores its date, time and offset in `out`. A Unix timestamp gives
/// the moment, in UTC, and a subsecond replaces its fraction; without a timestamp, a second of 60 or a missing offset
/// is rejected. Returns 0, or the error's status and leaves `out` unchanged.
#[unsafe(no_mangle)]
pub extern "C" fn pelzaune_described_moment(
    description: &StoredDescription,
    text: &[u8],
    out: &mut MomentParts,
) -> u32
    ensures { StoresBySteps (IsStored HasMoment) of_moment description.now text.now result out.old out.new }
{
    store_value::<OffsetDateTime, MomentParts, StoredDescription>(description, text, out)
}

/// Parses a whole text by a stored description, and stores the instant of its date, time and offset in `out`, as the
/// time since 1970-01-01T00:00:00Z. A Unix timestamp gives the moment, in UTC, and a subsecond replaces its fraction;
/// without a timestamp, a second of 60 or a missing offset is rejected. Returns 0, or the error's status and leaves
/// `out` unchanged.
#[unsafe(no_mangle)]
pub extern "C" fn pelzaune_described_instant(
    description: &StoredDescription,
    text: &[u8],
    out: &mut Instant,
) -> u32
    ensures { StoresBySteps (IsStored HasInstant) of_moment description.now text.now result out.old out.new }
{
    store_value::<OffsetDateTime, Instant, StoredDescription>(description, text, out)
}

/// Parses a whole text by a stored description, and stores the nanoseconds from 1970-01-01T00:00:00Z to its moment in
/// `out`. A Unix timestamp gives the moment, in UTC, and a subsecond replaces its fraction; without a timestamp, a
/// second of 60 or a missing offset is rejected. Returns 0; or the error's status, 7 if the nanoseconds don't fit 64
/// bits, and leaves `out` unchanged.
#[unsafe(no_mangle)]
pub extern "C" fn pelzaune_described_nanoseconds(
    description: &StoredDescription,
    text: &[u8],
    out: &mut Nanoseconds,
) -> u32
    ensures { StoresBySteps IsCountStored of_moment description.now text.now result out.old out.new }
{
    count(description, text, out)
}

/// Parses a text once, by a stored description, into its date, time and offset. A second of 60 rejects the time, and a
/// Unix timestamp is dropped. If the whole text matches, returns 0 and stores the parts and a status for each: 0, or an
/// error's, and then that part is unchanged. Otherwise returns the error's status, and `out` is unchanged.
#[unsafe(no_mangle)]
pub extern "C" fn pelzaune_described_parts(
    description: &StoredDescription,
    text: &[u8],
    out: &mut Parts,
) -> u32
    ensures { StoresBySteps ArePartsStored of_record description.now text.now result out.old out.new }
{
    parts(description, text, out)
}

/// As `pelzaune_column`, by a stored description: stores each line's nanoseconds since 1970-01-01T00:00:00Z in its
/// entry, or `i64::MIN` if it is rejected, and in `refused` how many are. Returns how many lines the whole text has.
#[unsafe(no_mangle)]
pub extern "C" fn pelzaune_described_column(
    description: &StoredDescription,
    text: &[u8],
    entries: &mut [Nanoseconds],
    refused: &mut usize,
) -> usize
    ensures lines { result ≡ length (line_texts text.now) }
    ensures entries { IsColumn (StoresBySteps IsCountStored of_moment description.now) (line_texts text.now)
        entries.old entries.new refused.new }
{
    column_stored(description, text, entries, refused)
}

/// Stores in `out` the byte index at which a text fails to match the format with this number, and the literal byte
/// expected there or 0. Returns the status of what was expected: 1 for a literal, 2 plus 256 times its number for a
/// component, or 3 for the end of the text. If the whole text matches, even with a date that doesn't exist, such as 30
/// February, returns 0. For an unknown format returns 8. In both cases `out` is unchanged.
#[unsafe(no_mangle)]
pub extern "C" fn pelzaune_locate(format: u32, text: &[u8], out: &mut Place) -> u32
    ensures { StoresPlace (Formats.format_of format) text.now result out.old out.new }
{
    locate_by(format, text, out)
}

/// As `pelzaune_locate`, by a description in this syntax: stores where a text fails, and returns the status of what was
/// expected. `out` is unchanged for a match (0), a malformed description (9 to 16) or an unknown syntax (17).
#[unsafe(no_mangle)]
pub extern "C" fn pelzaune_read_locate(
    syntax: u32,
    description: &[u8],
    text: &[u8],
    out: &mut Place,
) -> u32
    ensures { StoresPlaceByDescription (Described.syntax_of syntax) description.now text.now result out.old out.new }
{
    locate_read(syntax, description, text, out)
}

/// Parses the first lines of a text by the format with this number, as many as there are entries, and stores in the
/// entry at a line's index the nanoseconds from 1970-01-01T00:00:00Z to its instant. Returns how many lines the text
/// has, which may be more.
///
/// The entry of a rejected line is set to `i64::MIN`, which is also that of the earliest instant that fits; `refused`
/// is set to the number of rejected lines that have an entry. A line is also rejected if its nanoseconds don't fit 64
/// bits, and each line if no format has this number. An entry without a line is unchanged.
///
/// A line ends with LF, which is optional after the last one. Without its LF, and without a CR at its end, it is parsed
/// as by `pelzaune_parse_nanoseconds`.
#[unsafe(no_mangle)]
pub extern "C" fn pelzaune_column(
    format: u32,
    text: &[u8],
    entries: &mut [Nanoseconds],
    refused: &mut usize,
) -> usize
    ensures lines { result ≡ length (line_texts text.now) }
    ensures entries { IsColumn (StoresCount (Formats.format_of format)) (line_texts text.now)
        entries.old entries.new refused.new }
{
    column_by(format, text, entries, refused)
}

/// As `pelzaune_column`, by a description in this syntax: stores each line's nanoseconds since 1970, or `i64::MIN` for
/// a rejected line, and returns the number of lines. A malformed description or an unknown syntax rejects each line.
#[unsafe(no_mangle)]
pub extern "C" fn pelzaune_read_column(
    syntax: u32,
    description: &[u8],
    text: &[u8],
    entries: &mut [Nanoseconds],
    refused: &mut usize,
) -> usize
    ensures lines { result ≡ length (line_texts text.now) }
    ensures entries { IsColumn (StoresByDescription IsCountStored of_moment (Described.syntax_of syntax)
        description.now) (line_texts text.now) entries.old entries.new refused.new }
{
    column_read(syntax, description, text, entries, refused)
}
