//! Parses date-time texts, and formats moments, for callers in C: `include/pelzaune.h` declares these functions.
//!
//! A reference is a pointer in C, and a slice is a pointer and a length. A call that parses a text does so by a format
//! with a number, or by a description. It returns the status 0 after writing the value, or else the status of the
//! error; a call for a column of lines returns their number.
//!
//! The formats are 1 for RFC 3339 with any byte between the date and the time, 2 for RFC 2822, 3 for ISO 8601, and 4
//! for RFC 3339 with only `T`, `t` or a space there. The syntaxes of descriptions are 1 and 2 for those versions of the
//! syntax in brackets, and 3 for strftime. The status of an error is the number of its kind, 1 to 19, plus 256 times
//! the number of the component that it names (0 for none).
#![tactic(auto)]

ghost use Rattle.std.specs.Prelude.{◌≡◌, length};
ghost use Rattle.time_values.specs.Calendar.{greatest_year};
ghost use Rattle.time_record.specs.Resolution.{IsDated, IsTimed, IsOffset, IsPlain, IsUtcMoment};
ghost use Rattle.pelzaune_ffi.specs.Described.{Checks, StoresByDescription, syntax_of};
ghost use Rattle.pelzaune_ffi.specs.Results.{format_of, StoresValue, StoresCount, StoresParts, IsStored, IsCountStored, ArePartsStored, HasDate, HasTime, HasOffset, HasPlain, HasUtc, HasMoment, HasInstant, over_empty, of_record, of_moment};
ghost use Rattle.pelzaune_ffi.specs.Status.{laid_over, status_text};

mod described;
mod formatting;
mod missing;

use pelzaune_ffi::descriptions::check;
use pelzaune_ffi::moments::{count_by, local_by, moment_by};
use pelzaune_ffi::parts::{
    DateParts, Instant, LocalParts, MomentParts, Nanoseconds, OffsetParts, Parts, TimeParts,
};
use pelzaune_ffi::results::{count_read, parts_by, parts_read, store_value_by, store_value_read};
use pelzaune_ffi::text::{lay, pieces_of};
use time_values::{Date, OffsetDateTime, PlainDateTime, Time, UtcDateTime, UtcOffset};

/// The version of this interface, 256 * major + minor, as `PELZAUNE_VERSION` in the header.
#[unsafe(no_mangle)]
pub extern "C" fn pelzaune_version() -> u32
    ensures { result ≡ 0x0100 }
{
    0x0100
}

/// Writes the text of a status over the start of the buffer, truncated to the buffer's length. The rest of the buffer
/// is unchanged. Returns the length of the whole text, which is 0 for a status whose remainder by 256, its kind, is 0
/// or above 19.
#[unsafe(no_mangle)]
pub extern "C" fn pelzaune_write_text(status: u32, buffer: &mut [u8]) -> usize
    ensures length { result ≡ length (status_text status) }
    ensures text { buffer.new ≡ laid_over (status_text status) buffer.old }
{
    let pieces = pieces_of(status);
    lay(&pieces, buffer);
    pieces[0].len() + pieces[1].len() + pieces[2].len()
}

/// Parses a whole text by the format with this number, and stores its date in `out`. A time and an offset are dropped.
/// Returns 0; or the error's status, 8 for an unknown format, and leaves `out` unchanged.
#[unsafe(no_mangle)]
pub extern "C" fn pelzaune_parse_date(format: u32, text: &[u8], out: &mut DateParts) -> u32
    ensures { StoresValue HasDate (over_empty (IsDated greatest_year)) (format_of format) text.now
        result out.old out.new }
{
    store_value_by::<Date, DateParts>(format, text, out)
}

/// Parses a whole text by the format with this number, and stores its time in `out`. A date and an offset are dropped,
/// and a second of 60 is rejected. Returns 0; or the error's status, 8 for an unknown format, and leaves `out`
/// unchanged.
#[unsafe(no_mangle)]
pub extern "C" fn pelzaune_parse_time(format: u32, text: &[u8], out: &mut TimeParts) -> u32
    ensures { StoresValue HasTime (over_empty IsTimed) (format_of format) text.now result out.old out.new }
{
    store_value_by::<Time, TimeParts>(format, text, out)
}

/// Parses a whole text by the format with this number, and stores its offset in `out`, in seconds ahead of UTC. A date
/// and a time are dropped. Returns 0; or the error's status, 8 for an unknown format, and leaves `out` unchanged.
#[unsafe(no_mangle)]
pub extern "C" fn pelzaune_parse_offset(format: u32, text: &[u8], out: &mut OffsetParts) -> u32
    ensures { StoresValue HasOffset (over_empty IsOffset) (format_of format) text.now result out.old out.new }
{
    store_value_by::<UtcOffset, OffsetParts>(format, text, out)
}

/// Parses a whole text by the format with this number, and stores its date and time in `out`. An offset is dropped, and
/// a second of 60 is rejected. Returns 0; or the error's status, 8 for an unknown format, and leaves `out` unchanged.
#[unsafe(no_mangle)]
pub extern "C" fn pelzaune_parse_local(format: u32, text: &[u8], out: &mut LocalParts) -> u32
    ensures { StoresValue HasPlain (over_empty (IsPlain greatest_year)) (format_of format) text.now
        result out.old out.new }
{
    local_by(format, text, out)
}

/// Parses a whole text by the format with this number, and stores the date and time of its moment in UTC in `out`. A
/// text without an offset is in UTC. A leap second is valid only at the end of a month in UTC, and is replaced by the
/// last nanosecond before it. Returns 0; or the error's status, 8 for an unknown format, and leaves `out` unchanged.
#[unsafe(no_mangle)]
pub extern "C" fn pelzaune_parse_utc(format: u32, text: &[u8], out: &mut LocalParts) -> u32
    ensures { StoresValue HasUtc (over_empty (IsUtcMoment greatest_year)) (format_of format) text.now
        result out.old out.new }
{
    store_value_by::<UtcDateTime, LocalParts>(format, text, out)
}

/// Parses a whole text by the format with this number, and stores its date, time and offset in `out`. A text without an
/// offset is rejected. A leap second is valid only at the end of a month in UTC, and is replaced by the last nanosecond
/// before it. Returns 0; or the error's status, 8 for an unknown format, and leaves `out` unchanged.
#[unsafe(no_mangle)]
pub extern "C" fn pelzaune_parse_moment(format: u32, text: &[u8], out: &mut MomentParts) -> u32
    ensures { StoresValue HasMoment of_moment (format_of format) text.now result out.old out.new }
{
    moment_by::<MomentParts>(format, text, out)
}

/// Parses a whole text by the format with this number, and stores the instant of its date, time and offset in `out`, as
/// the time since 1970-01-01T00:00:00Z. A text without an offset is rejected. A leap second is valid only at the end of
/// a month in UTC, and is replaced by the last nanosecond before it. Returns 0; or the error's status, 8 for an unknown
/// format, and leaves `out` unchanged.
#[unsafe(no_mangle)]
pub extern "C" fn pelzaune_parse_instant(format: u32, text: &[u8], out: &mut Instant) -> u32
    ensures { StoresValue HasInstant of_moment (format_of format) text.now result out.old out.new }
{
    moment_by::<Instant>(format, text, out)
}

/// Parses a whole text by the format with this number, and stores the nanoseconds from 1970-01-01T00:00:00Z to its
/// moment in `out`. A text without an offset is rejected. A leap second is valid only at the end of a month in UTC, and
/// is replaced by the last nanosecond before it. Returns 0; or the error's status, 7 if the nanoseconds don't fit 64
/// bits, 8 for an unknown format, and leaves `out` unchanged.
#[unsafe(no_mangle)]
pub extern "C" fn pelzaune_parse_nanoseconds(format: u32, text: &[u8], out: &mut Nanoseconds) -> u32
    ensures { StoresCount (format_of format) text.now result out.old out.new }
{
    count_by(format, text, out)
}

/// Parses a text once, by the format with this number, into its date, its time and its offset. A second of 60 rejects
/// the time. If the whole text matches, returns 0 and stores the parts and a status for each: 0, or an error's, and
/// then that part is unchanged. Otherwise returns the error's status, 8 for an unknown format, and `out` is unchanged.
#[unsafe(no_mangle)]
pub extern "C" fn pelzaune_parse_parts(format: u32, text: &[u8], out: &mut Parts) -> u32
    ensures { StoresParts (format_of format) text.now result out.old out.new }
{
    parts_by(format, text, out)
}

/// Checks a description in the syntax with this number. Returns 0; or the status of its first fault, and stores that
/// fault's byte index in `index`. With the status 0, 16 for more than 64 steps, or 17 for an unknown syntax, `index` is
/// unchanged.
#[unsafe(no_mangle)]
pub extern "C" fn pelzaune_check_description(
    syntax: u32,
    description: &[u8],
    index: &mut usize,
) -> u32
    ensures { Checks (syntax_of syntax) description.now result index.old index.new }
{
    check(syntax, description, index)
}

/// Parses a whole text by a description in the syntax with this number, and stores its date in `out`. Any other
/// component is dropped. Returns 0; or the status of the text's or the description's error, 17 for an unknown syntax,
/// and leaves `out` unchanged.
#[unsafe(no_mangle)]
pub extern "C" fn pelzaune_read_date(
    syntax: u32,
    description: &[u8],
    text: &[u8],
    out: &mut DateParts,
) -> u32
    ensures { StoresByDescription (IsStored HasDate) (over_empty (IsDated greatest_year)) (syntax_of syntax)
        description.now text.now result out.old out.new }
{
    store_value_read::<Date, DateParts>(syntax, description, text, out)
}

/// Parses a whole text by a description in the syntax with this number, and stores its time in `out`. Any other
/// component is dropped, and a second of 60 is rejected. Returns 0; or the status of the text's or the description's
/// error, 17 for an unknown syntax, and leaves `out` unchanged.
#[unsafe(no_mangle)]
pub extern "C" fn pelzaune_read_time(
    syntax: u32,
    description: &[u8],
    text: &[u8],
    out: &mut TimeParts,
) -> u32
    ensures { StoresByDescription (IsStored HasTime) (over_empty IsTimed) (syntax_of syntax) description.now text.now
        result out.old out.new }
{
    store_value_read::<Time, TimeParts>(syntax, description, text, out)
}

/// Parses a whole text by a description in the syntax with this number, and stores its offset in `out`, in seconds
/// ahead of UTC. Any other component is dropped. Returns 0; or the status of the text's or the description's error, 17
/// for an unknown syntax, and leaves `out` unchanged.
#[unsafe(no_mangle)]
pub extern "C" fn pelzaune_read_offset(
    syntax: u32,
    description: &[u8],
    text: &[u8],
    out: &mut OffsetParts,
) -> u32
    ensures { StoresByDescription (IsStored HasOffset) (over_empty IsOffset) (syntax_of syntax) description.now text.now
        result out.old out.new }
{
    store_value_read::<UtcOffset, OffsetParts>(syntax, description, text, out)
}

/// Parses a whole text by a description in the syntax with this number, and stores its date and time in `out`. An
/// offset or a Unix timestamp is dropped, and a second of 60 is rejected. Returns 0; or the status of the text's or the
/// description's error, 17 for an unknown syntax, and leaves `out` unchanged.
#[unsafe(no_mangle)]
pub extern "C" fn pelzaune_read_local(
    syntax: u32,
    description: &[u8],
    text: &[u8],
    out: &mut LocalParts,
) -> u32
    ensures { StoresByDescription (IsStored HasPlain) (over_empty (IsPlain greatest_year)) (syntax_of syntax)
        description.now text.now result out.old out.new }
{
    store_value_read::<PlainDateTime, LocalParts>(syntax, description, text, out)
}

/// Parses a whole text by a description in the syntax with this number, and stores the date and time of its moment in
/// UTC in `out`. A Unix timestamp gives the moment, and a subsecond replaces its fraction; without a timestamp, a
/// second of 60 is rejected, and a text without an offset is in UTC. Returns 0; or the status of the text's or the
/// description's error, 17 for an unknown syntax, and leaves `out` unchanged.
#[unsafe(no_mangle)]
pub extern "C" fn pelzaune_read_utc(
    syntax: u32,
    description: &[u8],
    text: &[u8],
    out: &mut LocalParts,
) -> u32
    ensures { StoresByDescription (IsStored HasUtc) (over_empty (IsUtcMoment greatest_year)) (syntax_of syntax)
        description.now text.now result out.old out.new }
{
    store_value_read::<UtcDateTime, LocalParts>(syntax, description, text, out)
}

/// Parses a whole text by a description in the syntax with this number, and stores its date, time and offset in `out`.
/// A Unix timestamp gives the moment, in UTC, and a subsecond replaces its fraction; without a timestamp, a second of
/// 60 or a missing offset is rejected. Returns 0; or the status of the text's or the description's error, 17 for an
/// unknown syntax, and leaves `out` unchanged.
#[unsafe(no_mangle)]
pub extern "C" fn pelzaune_read_moment(
    syntax: u32,
    description: &[u8],
    text: &[u8],
    out: &mut MomentParts,
) -> u32
    ensures { StoresByDescription (IsStored HasMoment) of_moment (syntax_of syntax) description.now text.now
        result out.old out.new }
{
    store_value_read::<OffsetDateTime, MomentParts>(syntax, description, text, out)
}

/// Parses a whole text by a description in the syntax with this number, and stores the instant of its date, time and
/// offset in `out`, as the time since 1970-01-01T00:00:00Z. A Unix timestamp gives the moment, in UTC, and a subsecond
/// replaces its fraction; without a timestamp, a second of 60 or a missing offset is rejected. Returns 0; or the status
/// of the text's or the description's error, 17 for an unknown syntax, and leaves `out` unchanged.
#[unsafe(no_mangle)]
pub extern "C" fn pelzaune_read_instant(
    syntax: u32,
    description: &[u8],
    text: &[u8],
    out: &mut Instant,
) -> u32
    ensures { StoresByDescription (IsStored HasInstant) of_moment (syntax_of syntax) description.now text.now
        result out.old out.new }
{
    store_value_read::<OffsetDateTime, Instant>(syntax, description, text, out)
}

/// Parses a whole text by a description in the syntax with this number, and stores the nanoseconds from
/// 1970-01-01T00:00:00Z to its moment in `out`. A Unix timestamp gives the moment, in UTC, and a subsecond replaces its
/// fraction; without a timestamp, a second of 60 or a missing offset is rejected. Returns 0; or the status of the
/// text's or the description's error, 7 if the nanoseconds don't fit 64 bits, 17 for an unknown syntax, and leaves
/// `out` unchanged.
#[unsafe(no_mangle)]
pub extern "C" fn pelzaune_read_nanoseconds(
    syntax: u32,
    description: &[u8],
    text: &[u8],
    out: &mut Nanoseconds,
) -> u32
    ensures { StoresByDescription IsCountStored of_moment (syntax_of syntax) description.now text.now
        result out.old out.new }
{
    count_read(syntax, description, text, out)
}

/// Parses a text once, by a description in the syntax with this number, into its date, its time and its offset. A
/// second of 60 rejects the time, and a Unix timestamp is dropped. If the whole text matches, returns 0 and stores the
/// parts and a status for each: 0, or an error's, and then that part is unchanged. Otherwise returns the status of the
/// text's or the description's error, 17 for an unknown syntax, and leaves `out` unchanged.
#[unsafe(no_mangle)]
pub extern "C" fn pelzaune_read_parts(
    syntax: u32,
    description: &[u8],
    text: &[u8],
    out: &mut Parts,
) -> u32
    ensures { StoresByDescription ArePartsStored of_record (syntax_of syntax) description.now text.now
        result out.old out.new }
{
    parts_read(syntax, description, text, out)
}
