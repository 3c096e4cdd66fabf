//! The results of parses, as structs and statuses of C.
ghost use Rattle.std.specs.Prelude.{Ok, Result};
ghost use Rattle.time_values.specs.declared.error.TryFromParsed.{TryFromParsed as TryFromParsed_};
ghost use Rattle.time_record.specs.Resolution.{erased_conversion};
ghost use Rattle.pelzaune_ffi.specs.Described as Described;
ghost use Rattle.pelzaune_ffi.specs.Described.{StoresByDescription};
ghost use Rattle.pelzaune_ffi.specs.Results as Formats;
ghost use Rattle.pelzaune_ffi.specs.Results.{IsStored, IsCountStored, ArePartsStored, IsResultStored, StoresValue, StoresParts, of_moment, of_record};

use crate::descriptions::{MOST_STEPS, fault_status, read_description, syntax_of};
use crate::parts::{DateParts, Nanoseconds, OffsetParts, Parts, TimeParts, nanoseconds_of};
use crate::status::{Format, TOO_WIDE, UNKNOWN_FORMAT, UNKNOWN_SYNTAX, format_of, status_of};
use std::convert::TryFrom;
use time_descriptions::Description;
use time_parsing::{Iso8601, Parsable, Rfc2822, Rfc3339, Rfc3339Strict, Target};
use time_record::Parsed;
use time_values::error::TryFromParsed;
use time_values::{Date, OffsetDateTime, Time, UtcOffset};

/// Parses a whole text as a `V`, by `format`, and stores it in `out`, converted to a `P`. Returns 0, or the error's
/// status and leaves `out` unchanged.
#[inline(always)]
pub fn store_value<V: Target, P: From<V> + Copy, F: Parsable>(
    format: &F,
    text: &[u8],
    out: &mut P,
) -> u32
    ensures { IsResultStored (IsStored P.from_gives)
        (V.outcome (F.path format.now) (F.reads format.now) (F.refuses format.now) text.now) result out.old out.new }
{
    match V::parse(text, format) {
        Ok(value) => {
            *out = P::from(value);
            0
        }
        Err(error) => status_of(error),
    }
}

/// Parses a whole text as a `V`, by the format with this number, and stores it in `out`, converted to a `P`. Returns 0;
/// or the error's status, [`UNKNOWN_FORMAT`] for an unknown number, and leaves `out` unchanged.
#[inline(always)]
pub fn store_value_by<V: Target, P: From<V> + Copy>(format: u32, text: &[u8], out: &mut P) -> u32
    ensures { StoresValue P.from_gives V.outcome (Formats.format_of format) text.now result out.old out.new }
{
    match format_of(format) {
        Some(Format::Rfc3339) => store_value::<V, P, Rfc3339>(&Rfc3339, text, out),
        Some(Format::Rfc2822) => store_value::<V, P, Rfc2822>(&Rfc2822, text, out),
        Some(Format::Iso8601) => store_value::<V, P, Iso8601>(&Iso8601, text, out),
        Some(Format::Rfc3339Strict) => store_value::<V, P, Rfc3339Strict>(
            &Rfc3339Strict,
            text,
            out,
        ),
        None => UNKNOWN_FORMAT,
    }
}

/// Stores the nanoseconds from 1970-01-01T00:00:00Z to a moment's instant in `out`. Returns 0; or [`TOO_WIDE`] if they
/// don't fit 64 bits, and leaves `out` unchanged.
#[inline(always)]
pub fn store_count(value: OffsetDateTime, out: &mut Nanoseconds) -> u32
    ensures { IsCountStored (Ok value) result out.old out.new }
{
    match nanoseconds_of(value) {
        Some(count) => {
            *out = count;
            0
        }
        None => TOO_WIDE,
    }
}

/// Parses a whole text by the format and stores the nanoseconds from 1970-01-01T00:00:00Z to its instant. Returns 0; or
/// the error's status, [`TOO_WIDE`] if the nanoseconds don't fit 64 bits, and leaves `out` unchanged. A text is
/// rejected if it has neither an offset nor a Unix timestamp.
#[inline(always)]
pub fn count<F: Parsable>(format: &F, text: &[u8], out: &mut Nanoseconds) -> u32
    ensures { IsResultStored IsCountStored
        (of_moment (F.path format.now) (F.reads format.now) (F.refuses format.now) text.now) result out.old out.new }
{
    match format.parse_offset_date_time(text, None) {
        Ok(value) => store_count(value, out),
        Err(error) => status_of(error),
    }
}

// Resolves a record to a `V` and stores it in `out`, as a `P`. Returns 0, or the error's status and leaves `out`
// unchanged.
#[inline(always)]
fn resolve<V: TryFrom<Parsed, Error = TryFromParsed> + Drop, P: From<V> + Copy>(
    parsed: &Parsed,
    out: &mut P,
) -> u32
    ensures { (answer : Result V TryFromParsed_) × V.try_from_gives parsed.now answer
        × IsStored P.from_gives (erased_conversion answer) result out.old out.new }
{
    match V::try_from(*parsed) {
        Ok(value) => {
            *out = P::from(value);
            0
        }
        Err(error) => status_of(error.into()),
    }
}

/// Parses a text once by `format`, into its date, time and offset. A second of 60 rejects the time, and a Unix
/// timestamp is dropped. If the whole text matches, returns 0 and stores the parts and a status for each in `out`: 0,
/// or an error's, and then that part is unchanged. Otherwise returns the error's status and leaves `out` unchanged.
#[inline(always)]
pub fn parts<F: Parsable>(format: &F, text: &[u8], out: &mut Parts) -> u32
    ensures { IsResultStored ArePartsStored
        (of_record (F.path format.now) (F.reads format.now) (F.refuses format.now) text.now) result out.old out.new }
{
    match format.parse_internal(text, None) {
        Ok(parsed) => {
            out.date_status = resolve::<Date, DateParts>(&parsed, &mut out.date);
            out.time_status = resolve::<Time, TimeParts>(&parsed, &mut out.time);
            out.offset_status = resolve::<UtcOffset, OffsetParts>(&parsed, &mut out.offset);
            0
        }
        Err(error) => status_of(error),
    }
}

/// As [`parts`], by the format with this number: stores a text's date, time and offset in `out`, each with a status.
/// Returns 0; or the error's status, [`UNKNOWN_FORMAT`] for an unknown number, and leaves `out` unchanged.
#[inline(always)]
pub fn parts_by(format: u32, text: &[u8], out: &mut Parts) -> u32
    ensures { StoresParts (Formats.format_of format) text.now result out.old out.new }
{
    match format_of(format) {
        Some(Format::Rfc3339) => parts(&Rfc3339, text, out),
        Some(Format::Rfc2822) => parts(&Rfc2822, text, out),
        Some(Format::Iso8601) => parts(&Iso8601, text, out),
        Some(Format::Rfc3339Strict) => parts(&Rfc3339Strict, text, out),
        None => UNKNOWN_FORMAT,
    }
}

/// Parses a whole text as a `V`, by a description in this syntax, and stores it in `out`, converted to a `P`. Returns
/// 0; or the status of the text's or the description's error, 17 for an unknown syntax, and leaves `out` unchanged.
pub fn store_value_read<V: Target, P: From<V> + Copy>(
    syntax: u32,
    description: &[u8],
    text: &[u8],
    out: &mut P,
) -> u32
    ensures { StoresByDescription (IsStored P.from_gives) V.outcome (Described.syntax_of syntax) description.now
        text.now result out.old out.new }
{
    by_description!(syntax, description, found => {
        store_value::<V, P, Description<MOST_STEPS>>(&found, text, out)
    })
}

/// As [`count`], by a description in the syntax with this number: stores nanoseconds since 1970 in UTC. Returns 0; or
/// the status of the text's or the description's error, 17 for an unknown syntax, and leaves `out` unchanged.
pub fn count_read(syntax: u32, description: &[u8], text: &[u8], out: &mut Nanoseconds) -> u32
    ensures { StoresByDescription IsCountStored of_moment (Described.syntax_of syntax) description.now
        text.now result out.old out.new }
{
    by_description!(syntax, description, found => count(&found, text, out))
}

/// As [`parts`], by a description in the syntax with this number: stores the parts, each with a status. Returns 0; or
/// the status of the text's or the description's error, 17 for an unknown syntax, and leaves `out` unchanged.
pub fn parts_read(syntax: u32, description: &[u8], text: &[u8], out: &mut Parts) -> u32
    ensures { StoresByDescription ArePartsStored of_record (Described.syntax_of syntax) description.now
        text.now result out.old out.new }
{
    by_description!(syntax, description, found => parts(&found, text, out))
}
