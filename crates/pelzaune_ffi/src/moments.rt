//! Moments, dates and times by a format's number.
//!
//! A fast path (`fast`) parses the commonest texts without a call. Any other text is parsed by the library in a
//! function that isn't inlined, so that it leaves the fast path its registers.
mod fast;

ghost use Rattle.std.specs.Prelude.{Some};
ghost use Rattle.time_values.specs.Calendar.{greatest_year};
ghost use Rattle.time_record.specs.Resolution.{IsPlain};
ghost use Rattle.pelzaune_ffi.specs.Results as Formats;
ghost use Rattle.pelzaune_ffi.specs.Results.{StoresValue, StoresCount, HasPlain, IsCountStored, IsStored, IsResultStored, of_moment, over_empty};
ghost use Rattle.pelzaune_ffi.specs.declared.status.Format.TheVariants.{Iso8601 as iso8601, Rfc2822 as rfc2822, Rfc3339 as rfc3339};

use crate::parts::{LocalParts, Nanoseconds};
use crate::results::{count, store_count, store_value};
use crate::status::{Format, UNKNOWN_FORMAT, format_of};
use time_parsing::{Iso8601, Parsable, Rfc2822, Rfc3339, Rfc3339Strict, Target, strict_text};
use time_values::{OffsetDateTime, PlainDateTime};

// Parses a text by RFC 3339, and stores its moment in `out` as a `P`. Returns 0, or the error's status and leaves `out`
// unchanged.
#[inline(never)]
fn moment_3339<P: From<OffsetDateTime> + Copy>(text: &[u8], out: &mut P) -> u32
    ensures { StoresValue P.from_gives of_moment (Some rfc3339) text.now result out.old out.new }
{
    match fast::moment(text) {
        Some(value) => {
            *out = P::from(value);
            0
        }
        None => parsed::<OffsetDateTime, P, Rfc3339>(&Rfc3339, text, out),
    }
}

// Parses a mail date of RFC 2822, and stores its moment in `out` as a `P`. Returns 0, or the error's status and leaves
// `out` unchanged.
#[inline(never)]
fn moment_2822<P: From<OffsetDateTime> + Copy>(text: &[u8], out: &mut P) -> u32
    ensures { StoresValue P.from_gives of_moment (Some rfc2822) text.now result out.old out.new }
{
    match fast::rfc2822::moment(text) {
        Some(value) => {
            *out = P::from(value);
            0
        }
        None => parsed::<OffsetDateTime, P, Rfc2822>(&Rfc2822, text, out),
    }
}

// Parses a text by ISO 8601, and stores its moment in `out` as a `P`. Returns 0, or the error's status and leaves `out`
// unchanged.
#[inline(never)]
fn moment_8601<P: From<OffsetDateTime> + Copy>(text: &[u8], out: &mut P) -> u32
    ensures { StoresValue P.from_gives of_moment (Some iso8601) text.now result out.old out.new }
{
    match fast::iso8601::moment(text) {
        Some(value) => {
            *out = P::from(value);
            0
        }
        None => parsed::<OffsetDateTime, P, Iso8601>(&Iso8601, text, out),
    }
}

// Parses a text as a `V`, and stores it in `out` as a `P`. Returns 0, or the error's status and leaves `out` unchanged.
#[inline(never)]
fn parsed<V: Target, P: From<V> + Copy, F: Parsable>(format: &F, text: &[u8], out: &mut P) -> u32
    ensures { IsResultStored (IsStored P.from_gives)
        (V.outcome (F.path format.now) (F.reads format.now) (F.refuses format.now) text.now) result out.old out.new }
{
    store_value::<V, P, F>(format, text, out)
}

/// Parses a whole text by the format with this number and stores its moment in `out`, as a `P`. Returns 0; or the
/// error's status, [`UNKNOWN_FORMAT`] for an unknown number, and leaves `out` unchanged. A text without an offset is
/// rejected. A leap second is valid only at a month's end in UTC, and is replaced by the last nanosecond before it.
#[inline(always)]
pub fn moment_by<P: From<OffsetDateTime> + Copy>(format: u32, text: &[u8], out: &mut P) -> u32
    ensures { StoresValue P.from_gives of_moment (Formats.format_of format) text.now result out.old out.new }
{
    match format_of(format) {
        Some(Format::Rfc3339) => moment_3339(text, out),
        Some(Format::Rfc2822) => moment_2822(text, out),
        Some(Format::Iso8601) => moment_8601(text, out),
        Some(Format::Rfc3339Strict) => moment_3339(strict_text(text), out),
        None => UNKNOWN_FORMAT,
    }
}

// Parses a text by RFC 3339, and stores the nanoseconds from 1970-01-01T00:00:00Z to its moment. Returns 0; or the
// error's status, `TOO_WIDE` if the nanoseconds don't fit 64 bits, and leaves `out` unchanged.
#[inline(never)]
fn count_3339(text: &[u8], out: &mut Nanoseconds) -> u32
    ensures { StoresCount (Some rfc3339) text.now result out.old out.new }
{
    match fast::moment(text) {
        Some(value) => store_count(value, out),
        None => parsed_count(&Rfc3339, text, out),
    }
}

// Parses a mail date of RFC 2822, and stores the nanoseconds from 1970-01-01T00:00:00Z to its moment. Returns 0; or the
// error's status, `TOO_WIDE` if the nanoseconds don't fit 64 bits, and leaves `out` unchanged.
#[inline(never)]
fn count_2822(text: &[u8], out: &mut Nanoseconds) -> u32
    ensures { StoresCount (Some rfc2822) text.now result out.old out.new }
{
    match fast::rfc2822::moment(text) {
        Some(value) => store_count(value, out),
        None => parsed_count(&Rfc2822, text, out),
    }
}

// Parses a text by ISO 8601, and stores the nanoseconds from 1970-01-01T00:00:00Z to its moment. Returns 0; or the
// error's status, `TOO_WIDE` if the nanoseconds don't fit 64 bits, and leaves `out` unchanged.
#[inline(never)]
fn count_8601(text: &[u8], out: &mut Nanoseconds) -> u32
    ensures { StoresCount (Some iso8601) text.now result out.old out.new }
{
    match fast::iso8601::moment(text) {
        Some(value) => store_count(value, out),
        None => parsed_count(&Iso8601, text, out),
    }
}

// Stores a text's nanoseconds since 1970 and returns 0; or returns the error's status or `TOO_WIDE`, storing nothing.
#[inline(never)]
fn parsed_count<F: Parsable>(format: &F, text: &[u8], out: &mut Nanoseconds) -> u32
    ensures { IsResultStored IsCountStored
        (of_moment (F.path format.now) (F.reads format.now) (F.refuses format.now) text.now) result out.old out.new }
{
    count(format, text, out)
}

/// Parses a whole text by the format with this number and stores the nanoseconds from 1970-01-01T00:00:00Z to its
/// moment. Returns 0; or the error's status, [`UNKNOWN_FORMAT`] for an unknown number or
/// [`TOO_WIDE`](crate::status::TOO_WIDE) if the nanoseconds don't fit 64 bits, and leaves `out` unchanged. A text
/// without an offset is rejected. A leap second is valid only at the end of a month in UTC, and is replaced by the last
/// nanosecond before it.
#[inline(always)]
pub fn count_by(format: u32, text: &[u8], out: &mut Nanoseconds) -> u32
    ensures { StoresCount (Formats.format_of format) text.now result out.old out.new }
{
    match format_of(format) {
        Some(Format::Rfc3339) => count_3339(text, out),
        Some(Format::Rfc2822) => count_2822(text, out),
        Some(Format::Iso8601) => count_8601(text, out),
        Some(Format::Rfc3339Strict) => count_3339(strict_text(text), out),
        None => UNKNOWN_FORMAT,
    }
}

// Parses a text by ISO 8601, and stores the parts of its date and time. An offset is dropped, and a second of 60 is
// rejected. Returns 0, or the error's status and leaves `out` unchanged.
#[inline(never)]
fn local_8601(text: &[u8], out: &mut LocalParts) -> u32
    ensures { StoresValue HasPlain (over_empty (IsPlain greatest_year)) (Some iso8601) text.now result out.old out.new }
{
    match fast::iso8601::local(text) {
        Some(value) => {
            *out = LocalParts::from(value);
            0
        }
        None => parsed::<PlainDateTime, LocalParts, Iso8601>(&Iso8601, text, out),
    }
}

/// Parses a whole text by the format with this number and stores the parts of its date and time. An offset is parsed
/// and dropped; a second of 60 is rejected. Returns 0; or the error's status, [`UNKNOWN_FORMAT`] for an unknown number,
/// and leaves `out` unchanged.
#[inline(always)]
pub fn local_by(format: u32, text: &[u8], out: &mut LocalParts) -> u32
    ensures { StoresValue HasPlain (over_empty (IsPlain greatest_year)) (Formats.format_of format) text.now
        result out.old out.new }
{
    match format_of(format) {
        Some(Format::Rfc3339) => parsed::<PlainDateTime, LocalParts, Rfc3339>(&Rfc3339, text, out),
        Some(Format::Rfc2822) => parsed::<PlainDateTime, LocalParts, Rfc2822>(&Rfc2822, text, out),
        Some(Format::Iso8601) => local_8601(text, out),
        Some(Format::Rfc3339Strict) => {
            parsed::<PlainDateTime, LocalParts, Rfc3339Strict>(&Rfc3339Strict, text, out)
        }
        None => UNKNOWN_FORMAT,
    }
}
