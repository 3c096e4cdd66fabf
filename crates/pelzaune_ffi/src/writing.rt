//! Writes moments as text.
ghost use Rattle.std.specs.Prelude.{◌≡◌, length};
ghost use Rattle.time_values.specs.Names.{month_number};
ghost use Rattle.time_values.specs.Refusal.{Constructs};
ghost use Rattle.time_formatting.specs.WellKnown.{WritesTextWith};
ghost use Rattle.pelzaune_ffi.specs.Results as Formats;
ghost use Rattle.pelzaune_ffi.specs.Results.{HasMoment, StoresMomentText, StoresText, StoresTextOf, IsDateOf, IsLocalOf, IsTextOf, date_refusal, local_refusal, month_refusal, moment_refusal, reason_of};

use crate::parts::MomentParts;
use crate::status::{Format, UNKNOWN_FORMAT, format_of, status_of_range};
use crate::text::lay_bytes;
use std::num::NonZero;
use time_formatting::{FractionDigits, Text, Unwritable, text_2822, text_3339, text_8601};
use time_values::error::ComponentRange;
use time_values::{Date, Month, OffsetDateTime, PlainDateTime, Time, UtcOffset};

// The month with this number, or the error of a number outside 1 to 12.
fn month_of(number: u8) -> Result<Month, ComponentRange>
    ensures { Constructs (month_refusal number) (λ m. month_number m ≡ number) result }
{
    match NonZero::<u8>::new(number) {
        Some(number) => Month::from_number(number),
        None => Err(ComponentRange {
            name: "month",
            conditional: false,
        }),
    }
}

// The date with these parts, or the error of the first that is out of range: the month, the year or the day.
fn date_of(parts: &MomentParts) -> Result<Date, ComponentRange>
    ensures { Constructs (date_refusal parts.now) (λ d. IsDateOf parts.now d) result }
{
    let month = month_of(parts.month)?;
    Date::from_calendar_date(parts.year, month, parts.day)
}

// The date and time with these parts, or the error of the first that is out of range: that of the date, the hour, the
// minute, the second or the nanosecond.
fn local_of(parts: &MomentParts) -> Result<PlainDateTime, ComponentRange>
    ensures { Constructs (local_refusal parts.now) (λ p. IsLocalOf parts.now p) result }
{
    let date = date_of(parts)?;
    let time = Time::from_hms_nano(parts.hour, parts.minute, parts.second, parts.nanosecond)?;
    Ok(PlainDateTime::new(date, time))
}

// The moment with these parts, or the error of the first that is out of range: that of the date and time, or else of
// the offset, which is one number of seconds.
pub(crate) fn moment_of(parts: &MomentParts) -> Result<OffsetDateTime, ComponentRange>
    ensures { Constructs (moment_refusal parts.now) (λ v. HasMoment v parts.now) result }
{
    let local = local_of(parts)?;
    let offset = UtcOffset::from_whole_seconds(parts.offset)?;
    Ok(local.assume_offset(offset))
}

// The text of a moment in a format, or the part that the format can't write. RFC 3339 has the digits of a fraction up
// to the last that isn't 0, RFC 2822 none, ISO 8601 all nine.
fn text_of(format: Format, value: OffsetDateTime) -> Result<Text, Unwritable>
    ensures { WritesTextWith (reason_of format value) (IsTextOf format value) result }
{
    match format {
        Format::Rfc3339 | Format::Rfc3339Strict => text_3339(value, FractionDigits::Auto),
        Format::Rfc2822 => text_2822(value),
        Format::Iso8601 => text_8601(value),
    }
}

// The status of a moment that has no text in a format: 18 plus 256 times the number of the component that can't be
// written.
fn unwritable_status(why: Unwritable) -> u32
    ensures { result ≡ Formats.unwritable_status why }
{
    match why {
        Unwritable::Year => 18 + 256,
        Unwritable::OffsetHour => 18 + 256 * 14,
        Unwritable::OffsetSecond => 18 + 256 * 16,
    }
}

// Writes the text of a moment over the start of the buffer, truncated to the buffer's length, stores the length of the
// whole text in `count` and returns 0. Or returns the status of the part that the format can't write, and leaves both
// unchanged.
fn write_value(format: Format, value: OffsetDateTime, buffer: &mut [u8], count: &mut usize) -> u32
    ensures { StoresTextOf format (reason_of format value) value result buffer.old buffer.new count.old count.new }
{
    match text_of(format, value) {
        Ok(text) => {
            lay_bytes(text.as_bytes(), buffer);
            *count = text.as_bytes().len();
            0
        }
        Err(why) => unwritable_status(why),
    }
}

// Writes the text of the moment with these parts into `buffer`, truncated to its length, stores the whole length in
// `count` and returns 0. Or returns the status of a part out of range or not writable, and leaves both unchanged.
fn write_moment(format: Format, parts: &MomentParts, buffer: &mut [u8], count: &mut usize) -> u32
    ensures { StoresMomentText format (moment_refusal parts.now) parts.now result
        buffer.old buffer.new count.old count.new }
{
    match moment_of(parts) {
        Ok(value) => write_value(format, value, buffer, count),
        Err(error) => status_of_range(error),
    }
}

/// Writes the text of a moment, in the format with this number, over the start of the buffer, truncated to the buffer's
/// length. The rest of the buffer is unchanged. Stores the length of the whole text in `count`.
///
/// Returns 0, or the status of the error and leaves `buffer` and `count` unchanged: [`UNKNOWN_FORMAT`]; or, plus 256
/// times the component's number, 5 or 6 for a part out of range or 18 for a component that the format can't write.
#[inline(always)]
pub fn format_moment(format: u32, moment: &MomentParts, buffer: &mut [u8], count: &mut usize) -> u32
    ensures { StoresText (Formats.format_of format) moment.now result buffer.old buffer.new count.old count.new }
{
    match format_of(format) {
        Some(format) => write_moment(format, moment, buffer, count),
        None => UNKNOWN_FORMAT,
    }
}
