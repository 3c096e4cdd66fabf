//! Names, numbers with a padding, signs, and counts of units since 1970.
ghost use Rattle.std.specs.Prelude.{◌≡◌, ◌+◌, ◌^◌, ◌≤◌, ◌<◌, ◌++◌, length, unsigned_abs, option_map, IfSome};
ghost use Rattle.time_formatting.specs.Numbers.{count_text, filled, padded, sign_text};
ghost use Rattle.time_formatting.specs.Numbers as numbers;
ghost use Rattle.time_components.specs.Spelling as names;
ghost use Rattle.time_values.specs.Calendar.{greatest_year};
ghost use Rattle.time_formatting.specs.Components.{half_of, name_of, weekday_of};

use itoa::Buffer;
use time_components::{Component, Padding};
use time_values::digits::pair;
use time_values::names::{month_name, weekday_name};
use time_values::text::Text;
use time_values::{OffsetDateTime, Weekday};

// The text that replaces a leading zero: `0` for `Zero`, a space for `Space`, and nothing for `None`.
fn filler(padding: Padding) -> &'static [u8]
    ensures bytes { result.now ≡ numbers.filler padding }
    ensures bound { length result.now ≤ 1 }
{
    match padding {
        Padding::Zero => b"0",
        Padding::Space => b" ",
        Padding::None => b"",
    }
}

/// Appends the digits of a number, with each leading zero replaced by the padding's text; the last digit is never
/// replaced. There must be room for all digits.
#[tactic(auto, using(crate::proofs::FractionTexts::filled_one, crate::proofs::FractionTexts::filled_other))]
pub(crate) fn append_digits(text: &mut Text, digits: &[u8], padding: Padding)
    requires { length text.old.items + length digits.now ≤ 35 }
    ensures text { text.new.items ≡ text.old.items ++ filled (numbers.filler padding) digits.now }
    ensures room { length text.new.items ≤ length text.old.items + length digits.now }
{
    let fill = filler(padding);
    let mut left = digits;
    while left.len() > 1 && left[0] == b'0' {
        text.append(fill);
        left = &left[1..];
    }
    text.append(left);
}

/// The last two digits of a number, where the padding's text replaces a leading zero, but never the last digit.
#[tactic(auto, using(crate::proofs::FractionTexts::two_of))]
pub(crate) fn two_places(padding: Padding, number: u8) -> Text
    ensures { result.items ≡ padded padding 2 number }
{
    let mut text = Text::new();
    append_digits(&mut text, &pair(number % 100), padding);
    text
}

/// The last three digits of a number, where the padding's text replaces each leading zero, but never the last digit.
#[tactic(auto, using(crate::proofs::FractionTexts::three_of))]
pub(crate) fn three_places(padding: Padding, number: u16) -> Text
    ensures { result.items ≡ padded padding 3 number }
{
    let [tens, ones] = pair((number % 100) as u8);
    let mut text = Text::new();
    append_digits(
        &mut text,
        &[b'0' + (number / 100 % 10) as u8, tens, ones],
        padding,
    );
    text
}

/// Appends `-` if `is_behind`, and otherwise `+` if `is_mandatory`. There must be room for one byte.
pub(crate) fn append_sign(text: &mut Text, is_behind: bool, is_mandatory: bool)
    requires { length text.old.items ≤ 34 }
    ensures text { text.new.items ≡ text.old.items ++ sign_text is_behind is_mandatory }
    ensures room { length text.new.items ≤ length text.old.items + 1 }
{
    if is_behind {
        text.append(b"-");
    } else if is_mandatory {
        text.append(b"+");
    }
}

// The magnitude of `nanoseconds / unit`, where the quotient is rounded down, so away from 0 if it is below 0.
fn count(nanoseconds: i128, unit: u128) -> u128
    requires unit { 1 ≤ unit }
    ensures value { result ≡ unsigned_abs (numbers.whole unit nanoseconds) }
{
    let magnitude = nanoseconds.unsigned_abs();
    if nanoseconds < 0 {
        (magnitude - 1) / unit + 1
    } else {
        magnitude / unit
    }
}

/// The decimal text of `nanoseconds / unit`, rounded down. It has a `-` if `nanoseconds` is below 0, and otherwise a
/// `+` if a sign is mandatory.
#[tactic(auto, using(crate::proofs::DigitRuns::count_short, crate::proofs::DigitRuns::same_few))]
pub(crate) fn count_of_units(nanoseconds: i128, unit: u128, sign_is_mandatory: bool) -> Text
    requires unit { 1 ≤ unit }
    requires nanoseconds { unsigned_abs nanoseconds < 10 ^ 30 }
    ensures { result.items ≡ count_text unit sign_is_mandatory nanoseconds }
{
    let mut text = Text::new();
    append_sign(&mut text, nanoseconds < 0, sign_is_mandatory);
    text.append(Buffer::new().format(count(nanoseconds, unit)).as_bytes());
    text
}

// `AM` for an hour below 12, and otherwise `PM`. In lower case, `am` or `pm`, if `is_uppercase` is false.
fn period_name(hour: u8, is_uppercase: bool) -> &'static [u8]
    ensures name { result.now ≡ names.period_name is_uppercase (half_of hour) }
    ensures most { length result.now ≤ 2 }
{
    match (hour < 12, is_uppercase) {
        (true, true) => b"AM",
        (true, false) => b"am",
        (false, true) => b"PM",
        (false, false) => b"pm",
    }
}

/// The weekday of the date.
pub(crate) fn weekday(value: &OffsetDateTime) -> Weekday
    ensures { result ≡ weekday_of greatest_year value.now }
{
    value.date().weekday()
}

/// The text of a component that is the English name of the month or the weekday, whole or its first three letters, or a
/// half of the day: `AM` or `PM` if `is_uppercase`, and else `am` or `pm`. `None` for any other component.
pub(crate) fn name(value: &OffsetDateTime, component: Component) -> Option<&'static [u8]>
    ensures name { option_map (λ n. n.now) result ≡ name_of greatest_year value.now component }
    ensures most { IfSome result (λ n. length n.now ≤ 9) }
{
    match component {
        Component::MonthShort(_) => Some(&month_name(value.date().month()).as_bytes()[..3]),
        Component::MonthLong(_) => Some(month_name(value.date().month()).as_bytes()),
        Component::WeekdayShort(_) => Some(&weekday_name(weekday(value)).as_bytes()[..3]),
        Component::WeekdayLong(_) => Some(weekday_name(weekday(value)).as_bytes()),
        Component::Period(m) => Some(period_name(value.time().hour(), m.is_uppercase)),
        _ => None,
    }
}
