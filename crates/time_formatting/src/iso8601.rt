//! Texts of ISO 8601-1:2019, section 5.4.2.
ghost use Rattle.std.specs.Prelude.{◌≡◌, ◌≤◌, ◌++◌, codes, length, pos, unsigned_abs};
ghost use Rattle.time_values.specs.Calendar.{IsBetween};
ghost use Rattle.time_values.specs.Dates as Dates;
ghost use Rattle.time_values.specs.Moments.{offset_date};
ghost use Rattle.time_values.specs.Names.{month_number};
ghost use Rattle.time_values.specs.DisplayTexts.{fixed};
ghost use Rattle.time_values.specs.Times as Times;
ghost use Rattle.time_formatting.specs.WellKnown.{moment_text, basic_offset_text, basic_text, unwritable_3339, Writes};

use crate::parts::{FractionDigits, Unwritable, is_none, offset_without_colon};
use crate::rfc3339::{reason, text_3339};
use time_values::digits::{four, pair};
use time_values::text::Text;
use time_values::{Date, OffsetDateTime, Time, UtcOffset};

/// The text of a moment by ISO 8601 in its extended form, always with nine digits of the fraction, such as
/// `2021-01-02T03:04:05.520000000+06:07`. An offset of 0 is `Z`.
///
/// The error is the first that applies: [`Unwritable::Year`] if the year is outside 0 to 9999,
/// [`Unwritable::OffsetHour`] if the hours of the offset are outside -23 to 23, or [`Unwritable::OffsetSecond`] if the
/// seconds of the offset aren't 0.
pub fn text_8601(value: OffsetDateTime) -> Result<Text, Unwritable>
    ensures { Writes (unwritable_3339 value) (moment_text 9 value) result }
{
    text_3339(value, FractionDigits::Exactly(9))
}

// Appends `Z` if the hours and the minutes of the offset are 0, and else `+HHMM` or `-HHMM`. Omits its seconds.
fn append_offset(text: &mut Text, offset: UtcOffset)
    requires { length text.old.items ≤ 29 }
    ensures { text.new.items ≡ text.old.items ++ basic_offset_text offset }
{
    if is_none(offset) {
        text.append(b"Z");
    } else {
        text.append(&offset_without_colon(offset));
    }
}

// The text `YYYYMMDD` of a date whose year is 0 to 9999.
#[inline(always)]
fn basic_date(date: &Date) -> [u8; 8]
    requires { IsBetween (pos 0) (pos 9999) (Dates.year date.now) }
    ensures { result ≡ fixed 4 (unsigned_abs (Dates.year date.now)) ++ fixed 2 (month_number (Dates.month date.now))
        ++ fixed 2 (Dates.day date.now) }
{
    let [y1, y2, y3, y4] = four(date.year().unsigned_abs());
    let [m1, m2] = pair(date.month().number());
    let [d1, d2] = pair(date.day());
    [y1, y2, y3, y4, m1, m2, d1, d2]
}

// The text `THHMMSS` of a time, without its fraction.
#[inline(always)]
fn basic_clock(time: &Time) -> [u8; 7]
    ensures { result ≡ codes "T" ++ fixed 2 (Times.hour time.now) ++ fixed 2 (Times.minute time.now)
        ++ fixed 2 (Times.second time.now) }
{
    let [h1, h2] = pair(time.hour());
    let [m1, m2] = pair(time.minute());
    let [s1, s2] = pair(time.second());
    [b'T', h1, h2, m1, m2, s1, s2]
}

// The text in ISO 8601's basic form of a moment whose year is 0 to 9999. Omits the fraction and the offset's seconds.
fn write(value: OffsetDateTime) -> Text
    requires { IsBetween (pos 0) (pos 9999) (Dates.year (offset_date value)) }
    ensures { result.items ≡ basic_text value }
{
    let mut text = Text::new();
    text.append(&basic_date(&value.date()));
    text.append(&basic_clock(&value.time()));
    append_offset(&mut text, value.offset());
    text
}

/// The text of a moment by ISO 8601 in its basic form, such as `20210102T030405+0607`. It omits the fraction of the
/// second. An offset of 0 is `Z`.
///
/// The error is the first that applies: [`Unwritable::Year`] if the year is outside 0 to 9999,
/// [`Unwritable::OffsetHour`] if the hours of the offset are outside -23 to 23, or [`Unwritable::OffsetSecond`] if the
/// seconds of the offset aren't 0.
pub fn text_8601_basic(value: OffsetDateTime) -> Result<Text, Unwritable>
    ensures { Writes (unwritable_3339 value) (basic_text value) result }
{
    match reason(value) {
        Some(why) => Err(why),
        None => Ok(write(value)),
    }
}
