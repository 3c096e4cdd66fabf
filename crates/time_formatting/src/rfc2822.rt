//! Texts of RFC 2822, section 3.3.
ghost use Rattle.std.specs.Prelude.{◌≡◌, ◌++◌, codes, pos};
ghost use Rattle.time_values.specs.Calendar.{IsBetween};
ghost use Rattle.time_values.specs.Dates as Dates;
ghost use Rattle.time_values.specs.Moments.{offset_date};
ghost use Rattle.time_values.specs.DisplayTexts.{fixed};
ghost use Rattle.time_formatting.specs.WellKnown.{IsMailText, short_month, short_weekday, unwritable_2822, WritesTextWith};

use crate::parts::{Unwritable, clock, month_letters, offset_without_colon, weekday_letters};
use time_values::digits::{four, pair};
use time_values::text::Text;
use time_values::{Date, OffsetDateTime, Weekday};

// The weekday, and the day and the month of the date, in the form `Sat, 02 Jan ` with a space at the end.
#[inline(always)]
fn weekday_and_day(weekday: Weekday, date: &Date) -> [u8; 12]
    ensures { result ≡ short_weekday weekday ++ codes ", " ++ fixed 2 (Dates.day date.now) ++ codes " "
        ++ short_month (Dates.month date.now) ++ codes " " }
{
    let [w1, w2, w3] = weekday_letters(weekday);
    let [d1, d2] = pair(date.day());
    let [m1, m2, m3] = month_letters(date.month());
    [w1, w2, w3, b',', b' ', d1, d2, b' ', m1, m2, m3, b' ']
}

// The text by RFC 2822 of a moment whose year is 0 to 9999. Omits the fraction of the second, and the offset's seconds.
#[inline(always)]
fn write(value: OffsetDateTime) -> Text
    requires { IsBetween (pos 0) (pos 9999) (Dates.year (offset_date value)) }
    ensures { IsMailText value result.items }
{
    let date = value.date();
    let mut text = Text::new();
    text.append(&weekday_and_day(date.weekday(), &date));
    text.append(&four(date.year().unsigned_abs()));
    text.append(&clock(b' ', &value.time()));
    text.append(b" ");
    text.append(&offset_without_colon(value.offset()));
    text
}

// `Year` for a year outside 1900 to 9999, or else `OffsetSecond` for an offset with seconds, or else `None`.
fn reason(value: OffsetDateTime) -> Option<Unwritable>
    ensures { result ≡ unwritable_2822 value }
{
    let (date, offset) = (value.date(), value.offset());
    let (_, _, seconds) = offset.as_hms();
    if date.year() < 1900 || date.year() > 9999 {
        return Some(Unwritable::Year);
    }
    if seconds != 0 {
        return Some(Unwritable::OffsetSecond);
    }
    None
}

/// The text of a moment by RFC 2822, section 3.3, such as `Sat, 02 Jan 2021 03:04:05 +0607`. It omits the fraction of
/// the second. An offset of 0 is `+0000`.
///
/// The error is the first that applies: [`Unwritable::Year`] if the year is outside 1900 to 9999, or
/// [`Unwritable::OffsetSecond`] if the seconds of the offset aren't 0.
pub fn text_2822(value: OffsetDateTime) -> Result<Text, Unwritable>
    ensures { WritesTextWith (unwritable_2822 value) (IsMailText value) result }
{
    match reason(value) {
        Some(why) => Err(why),
        None => Ok(write(value)),
    }
}
