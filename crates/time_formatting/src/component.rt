//! Texts of components.
ghost use Rattle.std.specs.Prelude.{◌≡◌, ◌+◌, ◌<◌, ◌≤◌, [], ◌∷◌, ◌++◌, take, unsigned_abs};
ghost use Rattle.time_components.specs.Spelling.{first_digit};
ghost use Rattle.time_values.specs.Moments.{offset_instant};
ghost use Rattle.time_values.specs.Offsets as Offsets;
ghost use Rattle.time_values.specs.Calendar.{greatest_year};
ghost use Rattle.time_values.specs.DisplayTexts.{fixed, is_behind};
ghost use Rattle.time_formatting.specs.Components as components;
ghost use Rattle.time_formatting.specs.Components.{number_of, other_of};
ghost use Rattle.time_formatting.specs.Numbers as numbers;
ghost use Rattle.time_formatting.specs.Texts.{bytes_of};

use crate::numbers::{
    append_digits, append_sign, count_of_units, name, three_places, two_places, weekday,
};
use crate::walk::Unformattable;
use crate::years::{century_text, iso_week, iso_year, year_text};
use time_components::{Component, Padding, SubsecondDigits};
use time_values::digits::{count_significant, nine, pair};
use time_values::text::Text;
use time_values::{OffsetDateTime, UtcOffset};

// The hour on a clock of 12 hours, 1 to 12, for an hour of the day: 12 for 0 and for 12.
fn hour_12(hour: u8) -> u8
    ensures { result ≡ components.hour_12 hour }
{
    if hour % 12 == 0 { 12 } else { hour % 12 }
}

// The padding and the number of a component that is a number without a sign, padded to two digits. `None` for any
// other component.
fn number(value: &OffsetDateTime, component: Component) -> Option<(Padding, u8)>
    ensures { result ≡ number_of greatest_year value.now component }
{
    let (_, minutes, seconds) = value.offset().as_hms();
    match component {
        Component::Day(m) => Some((m.padding, value.date().day())),
        Component::MonthNumerical(m) => Some((m.padding, value.date().month().number())),
        Component::WeekNumberIso(m) => Some((m.padding, iso_week(value))),
        Component::WeekNumberSunday(m) => Some((m.padding, value.date().sunday_based_week())),
        Component::WeekNumberMonday(m) => Some((m.padding, value.date().monday_based_week())),
        Component::CalendarYearLastTwo(m) => Some((
            m.padding,
            (value.date().year().unsigned_abs() % 100) as u8,
        )),
        Component::IsoYearLastTwo(m) => Some((
            m.padding,
            (iso_year(value).unsigned_abs() % 100) as u8,
        )),
        Component::Hour12(m) => Some((m.padding, hour_12(value.time().hour()))),
        Component::Hour24(m) => Some((m.padding, value.time().hour())),
        Component::Minute(m) => Some((m.padding, value.time().minute())),
        Component::Second(m) => Some((m.padding, value.time().second())),
        Component::OffsetMinute(m) => Some((m.padding, minutes.unsigned_abs())),
        Component::OffsetSecond(m) => Some((m.padding, seconds.unsigned_abs())),
        _ => None,
    }
}

// How many of the nine digits of a second's fraction are written: the fixed number, or for `OneOrMore` those up to the
// last that isn't 0, but at least one.
fn count(digits: SubsecondDigits, nanosecond: u32) -> usize
    ensures count { result ≡ components.count_of digits nanosecond }
    ensures bound { result ≤ 9 }
{
    match digits {
        SubsecondDigits::One => 1,
        SubsecondDigits::Two => 2,
        SubsecondDigits::Three => 3,
        SubsecondDigits::Four => 4,
        SubsecondDigits::Five => 5,
        SubsecondDigits::Six => 6,
        SubsecondDigits::Seven => 7,
        SubsecondDigits::Eight => 8,
        SubsecondDigits::Nine => 9,
        SubsecondDigits::OneOrMore => count_significant(nanosecond).max(1),
    }
}

// The first ASCII digits of a nanosecond written in nine digits with leading zeros, as many as `digits` selects.
fn subsecond(digits: SubsecondDigits, nanosecond: u32) -> Text
    requires { nanosecond < 1_000_000_000 }
    ensures { result.items ≡ take (components.count_of digits nanosecond) (fixed 9 nanosecond) }
{
    let mut text = Text::new();
    text.append(&nine(nanosecond)[..count(digits, nanosecond)]);
    text
}

// A sign, and the hours of an offset in two digits with the padding. The sign is `-` if the hours, minutes or seconds
// are below 0, otherwise `+` if a sign is mandatory, and otherwise absent.
fn offset_hour(sign_is_mandatory: bool, padding: Padding, offset: UtcOffset) -> Text
    ensures { result.items ≡ numbers.sign_text (is_behind offset) sign_is_mandatory
        ++ numbers.padded padding 2 (unsigned_abs (Offsets.hours offset)) }
{
    let (hours, minutes, seconds) = offset.as_hms();
    let mut text = Text::new();
    append_sign(
        &mut text,
        hours < 0 || minutes < 0 || seconds < 0,
        sign_is_mandatory,
    );
    append_digits(&mut text, &pair(hours.unsigned_abs()), padding);
    text
}

// The ASCII digit of a weekday's number, 0 to 6, or of one more if `one_indexed`.
fn weekday_digit(one_indexed: bool, number: u8) -> Text
    requires { number < 7 }
    ensures { result.items ≡ (first_digit one_indexed + number) ∷ [] }
{
    let mut text = Text::new();
    text.append(&[if one_indexed { b'1' } else { b'0' } + number]);
    text
}

// The decimal number of whole units of `unit` nanoseconds from 1970-01-01T00:00:00Z to a moment, rounded down. It has a
// `-` if the moment is before 1970, and otherwise a `+` if a sign is mandatory.
#[tactic(auto, using(time_values::proofs::InstantLemmas::instant_near, crate::proofs::DigitRuns::near_short))]
fn timestamp(value: &OffsetDateTime, unit: u128, sign_is_mandatory: bool) -> Text
    requires { 1 ≤ unit }
    ensures { result.items ≡ numbers.count_text unit sign_is_mandatory (offset_instant greatest_year value.now) }
{
    count_of_units(value.unix_timestamp_nanos(), unit, sign_is_mandatory)
}

// The text of a component for which `number`, `name`, `year_text` and `century_text` return `None`. The error is
// `Ignore`, for an `ignore` and for each component that one of those calls writes.
fn other(value: &OffsetDateTime, component: Component) -> Result<Text, Unformattable>
    ensures { bytes_of result ≡ other_of greatest_year value.now component }
{
    Ok(match component {
        Component::Ordinal(m) => three_places(m.padding, value.date().ordinal()),
        Component::WeekdaySunday(m) => weekday_digit(
            m.one_indexed,
            weekday(value).number_days_from_sunday(),
        ),
        Component::WeekdayMonday(m) => weekday_digit(
            m.one_indexed,
            weekday(value).number_days_from_monday(),
        ),
        Component::Subsecond(m) => subsecond(m.digits, value.time().nanosecond()),
        Component::OffsetHour(m) => offset_hour(m.sign_is_mandatory, m.padding, value.offset()),
        Component::UnixTimestampSecond(m) => timestamp(value, 1_000_000_000, m.sign_is_mandatory),
        Component::UnixTimestampMillisecond(m) => timestamp(value, 1_000_000, m.sign_is_mandatory),
        Component::UnixTimestampMicrosecond(m) => timestamp(value, 1000, m.sign_is_mandatory),
        Component::UnixTimestampNanosecond(m) => timestamp(value, 1, m.sign_is_mandatory),
        Component::End(_) => Text::new(),
        _ => return Err(Unformattable::Ignore),
    })
}

/// The text of a component, which is empty for `end`. The error is `Ignore` for an `ignore`, and `Year` for a component
/// of the standard range whose year is outside -9999 to 9999.
pub(crate) fn component_text(
    value: &OffsetDateTime,
    component: Component,
) -> Result<Text, Unformattable>
    ensures { bytes_of result ≡ components.component_text greatest_year value.now component }
{
    if let Some((padding, number)) = number(value, component) {
        return Ok(two_places(padding, number));
    }
    if let Some(name) = name(value, component) {
        let mut text = Text::new();
        text.append(name);
        return Ok(text);
    }
    if let Some(text) = year_text(value, component) {
        return text;
    }
    match century_text(value, component) {
        Some(text) => text,
        None => other(value, component),
    }
}
