//! Texts of RFC 3339, section 5.6.
ghost use Rattle.std.specs.Prelude.{◌≡◌, ◌↔◌, ◌≤◌, ◌++◌, IsTrue, length, pos, neg_ℤ, int_lt, ◌||◌, if◌then◌else◌};
ghost use Rattle.time_values.specs.Calendar.{IsBetween};
ghost use Rattle.time_values.specs.Moments.{offset_time};
ghost use Rattle.time_values.specs.Times as Times;
ghost use Rattle.time_formatting.specs.declared.parts.Unwritable.TheVariants.{Year, OffsetHour, OffsetSecond};
ghost use Rattle.time_formatting.specs.WellKnown.{count_of, offset_text, moment_text, unwritable_3339, Writes};

use crate::parts::{FractionDigits, Unwritable, clock, date, hours_and_minutes, magnitude};
use time_values::digits::append_fraction;
use time_values::text::Text;
use time_values::{OffsetDateTime, UtcOffset};

// Appends `Z` if the hours and the minutes of the offset are 0, and else `+HH:MM` or `-HH:MM`. Omits its seconds.
#[inline(always)]
#[tactic(auto, using(crate::proofs::SameTexts::hours_below, crate::proofs::SameTexts::minutes_below, crate::proofs::SameTexts::minus_below))]
fn append_offset(text: &mut Text, offset: &UtcOffset)
    requires { length text.old.items ≤ 29 }
    ensures { text.new.items ≡ text.old.items ++ offset_text offset.now }
{
    let (hours, minutes, _) = offset.as_hms();
    // Hours and minutes never have opposite signs, so their sum has their sign, and is 0 only if both are 0.
    let sum = hours + minutes;
    if sum == 0 {
        text.append(b"Z");
    } else if sum < 0 {
        text.append(&hours_and_minutes(b'-', magnitude(hours), magnitude(minutes)));
    } else {
        text.append(&hours_and_minutes(b'+', hours as u8, minutes as u8));
    }
}

// Whether a moment has a text by RFC 3339: its year is 0 to 9999, and its offset has hours from -23 to 23 and no
// seconds.
#[inline(always)]
fn has_text(year: i32, hours: i8, seconds: i8) -> bool
    ensures { IsTrue result ↔ (IsBetween (pos 0) (pos 9999) year × IsBetween (neg_ℤ (pos 23)) (pos 23) hours
        × (seconds ≡ pos 0)) }
{
    year >= 0 && year <= 9999 && hours >= -23 && hours <= 23 && seconds == 0
}

// The error of a moment without a text by RFC 3339: `Year` if its year is out of range, else `OffsetHour` if the hours
// of its offset are, else `OffsetSecond`. Not inlined, so that only `has_text` runs before the text is written.
#[inline(never)]
fn first_reason(year: i32, hours: i8) -> Unwritable
    ensures { result ≡ if int_lt year (pos 0) || int_lt (pos 9999) year then Year else
        if int_lt hours (neg_ℤ (pos 23)) || int_lt (pos 23) hours then OffsetHour else OffsetSecond }
{
    if year < 0 || year > 9999 {
        return Unwritable::Year;
    }
    if hours < -23 || hours > 23 {
        return Unwritable::OffsetHour;
    }
    Unwritable::OffsetSecond
}

// Why a moment has no text by RFC 3339: `Year`, `OffsetHour` or `OffsetSecond`, the first that applies; or else `None`.
#[inline(always)]
pub(crate) fn reason(value: OffsetDateTime) -> Option<Unwritable>
    ensures { result ≡ unwritable_3339 value }
{
    let year = value.date().year();
    let (hours, _, seconds) = value.offset().as_hms();
    if has_text(year, hours, seconds) {
        return None;
    }
    Some(first_reason(year, hours))
}

/// The text of a moment by RFC 3339, section 5.6, such as `2021-01-02T03:04:05.52+06:07`. `digits` selects how many
/// digits of the fraction it has; the fraction is truncated to them, not rounded. An offset of 0 is `Z`.
///
/// The error is the first that applies: [`Unwritable::Year`] if the year is outside 0 to 9999,
/// [`Unwritable::OffsetHour`] if the hours of the offset are outside -23 to 23, or [`Unwritable::OffsetSecond`] if the
/// seconds of the offset aren't 0.
pub fn text_3339(value: OffsetDateTime, digits: FractionDigits) -> Result<Text, Unwritable>
    ensures { Writes (unwritable_3339 value)
        (moment_text (count_of digits (Times.nanosecond (offset_time value))) value) result }
{
    if let Some(why) = reason(value) {
        return Err(why);
    }
    let (time, offset) = (value.time(), value.offset());
    let mut text = Text::new();
    text.append(&date(&value.date()));
    text.append(&clock(b'T', &time));
    append_fraction(
        &mut text,
        digits.count(time.nanosecond()),
        time.nanosecond(),
    );
    append_offset(&mut text, &offset);
    Ok(text)
}
