//! Finds the component that is missing for a value.
ghost use Rattle.std.specs.Prelude.{◌≡◌, if◌then◌else◌};
ghost use Rattle.pelzaune_ffi.specs.Described as Described;
ghost use Rattle.pelzaune_ffi.specs.Described.{StoresByDescription, StoresBySteps};
ghost use Rattle.pelzaune_ffi.specs.Missing as spec;
ghost use Rattle.pelzaune_ffi.specs.Results as Formats;
ghost use Rattle.pelzaune_ffi.specs.Results.{IsResultStored, StoresBy, of_record};

use crate::descriptions::{fault_status, read_description, syntax_of};
use crate::status::{Format, UNKNOWN_FORMAT, UNKNOWN_SYNTAX, format_of, status_of};
use crate::stored::StoredDescription;
use time_locating::{has_day, has_full_date, has_hour, has_iso_day, skips_minute, skips_second};
use time_parsing::{Iso8601, Parsable, Rfc2822, Rfc3339, Rfc3339Strict};
use time_record::Parsed;

// The status of what a date lacks: the year if only that, else the month if the record has a day, else the day; or 0.
fn missing_for_date(parsed: &Parsed) -> u32
    ensures { result ≡ spec.missing_for_date parsed.now }
{
    if has_full_date(parsed) {
        0
    } else if has_day(parsed) || has_iso_day(parsed) {
        4 + 256
    } else if parsed.day().is_some() {
        4 + 256 * 2
    } else {
        4 + 256 * 3
    }
}

// The status of what a record is missing for an hour of the day, the half of the day or the hour; 0 if nothing is.
fn missing_for_hour(parsed: &Parsed) -> u32
    ensures { result ≡ spec.missing_for_hour parsed.now }
{
    if has_hour(parsed) {
        0
    } else if parsed.hour_12().is_some() {
        4 + 256 * 13
    } else {
        4 + 256 * 8
    }
}

// The status of a missing minute before a second or fraction, or a missing second before a fraction; 0 for neither.
fn missing_below_hour(parsed: &Parsed) -> u32
    ensures { result ≡ spec.missing_below_hour parsed.now }
{
    if skips_minute(parsed) {
        4 + 256 * 9
    } else if skips_second(parsed) {
        4 + 256 * 10
    } else {
        0
    }
}

// The first of two statuses that isn't 0, or 0.
fn first_status(status: u32, other: u32) -> u32
    ensures { result ≡ spec.first_status status other }
{
    if status == 0 { other } else { status }
}

// The status if it is selected, and otherwise 0.
fn selected(is_selected: bool, status: u32) -> u32
    ensures { result ≡ if is_selected then status else 0 }
{
    if is_selected { status } else { 0 }
}

// The status of what a record is missing for a time; 0 if nothing is.
fn missing_for_time(parsed: &Parsed) -> u32
    ensures { result ≡ spec.missing_for_time parsed.now }
{
    first_status(missing_for_hour(parsed), missing_below_hour(parsed))
}

// The status of what a record is missing for an offset: its hour; 0 if nothing is.
fn missing_for_offset(parsed: &Parsed) -> u32
    ensures { result ≡ spec.missing_for_offset parsed.now }
{
    if parsed.offset_hour().is_some() {
        0
    } else {
        4 + 256 * 14
    }
}

// The status of what is missing for date (1), time (2) or offset (4) in `needs`, or 0. A timestamp suffices only for 7.
fn missing_for(needs: u32, parsed: &Parsed) -> u32
    ensures { result ≡ spec.missing_for needs parsed.now }
{
    if needs % 8 == 7 && parsed.unix_timestamp_nanos().is_some() {
        return 0;
    }
    let date = selected(needs % 2 == 1, missing_for_date(parsed));
    let time = selected(needs / 2 % 2 == 1, missing_for_time(parsed));
    let offset = selected(needs / 4 % 2 == 1, missing_for_offset(parsed));
    first_status(date, first_status(time, offset))
}

// The status of what a text is missing, by the format, for a date, time or offset, as the bits 1, 2 and 4 of `needs`
// select; 0 if nothing is. If the whole text isn't parsed, the error's status.
fn missing<F: Parsable>(format: &F, needs: u32, text: &[u8]) -> u32
    ensures { IsResultStored (spec.IsMissing needs)
        (of_record (F.path format.now) (F.reads format.now) (F.refuses format.now) text.now) result tt tt }
{
    match format.parse_internal(text, None) {
        Ok(parsed) => missing_for(needs, &parsed),
        Err(error) => status_of(error),
    }
}

/// The status of the component that a text, parsed by the format with this number, is missing for the values that
/// `needs` selects: 4 plus 256 times the component's number, or 0 if none is. `needs` is the sum of 1 for a date, 2 for
/// a time and 4 for an offset. If all three are selected, and only then, a Unix timestamp gives them. Of several
/// missing components the date's is reported first, then the time's, then the offset's.
///
/// If the whole text isn't parsed, returns the error's status, or [`UNKNOWN_FORMAT`] for an unknown number.
#[inline(never)]
pub fn missing_by(needs: u32, format: u32, text: &[u8]) -> u32
    ensures { StoresBy (spec.IsMissing needs) of_record (Formats.format_of format) text.now result tt tt }
{
    match format_of(format) {
        Some(Format::Rfc3339) => missing(&Rfc3339, needs, text),
        Some(Format::Rfc2822) => missing(&Rfc2822, needs, text),
        Some(Format::Iso8601) => missing(&Iso8601, needs, text),
        Some(Format::Rfc3339Strict) => missing(&Rfc3339Strict, needs, text),
        None => UNKNOWN_FORMAT,
    }
}

/// As [`missing_by`], by a description in this syntax: 4 plus 256 times the missing component's number, or 0 if none is
/// missing; or the status of the text's or the description's error, 17 for an unknown syntax.
#[inline(never)]
pub fn missing_read(needs: u32, syntax: u32, description: &[u8], text: &[u8]) -> u32
    ensures { StoresByDescription (spec.IsMissing needs) of_record (Described.syntax_of syntax) description.now
        text.now result tt tt }
{
    by_description!(syntax, description, found => missing(&found, needs, text))
}

/// As [`missing_by`], by a stored description: 4 + 256 * a component's number; 0 if none is missing; an error's status.
#[inline(never)]
pub fn missing_stored(needs: u32, description: &StoredDescription, text: &[u8]) -> u32
    ensures { StoresBySteps (spec.IsMissing needs) of_record description.now text.now result tt tt }
{
    missing(description, needs, text)
}
