//! Texts of years and centuries.
ghost use Rattle.std.specs.Prelude.{◌≡◌, ◌+◌, ◌≤◌, ◌<◌, ◌++◌, length, option_map};
ghost use Rattle.time_values.specs.Calendar.{IsYear, greatest_year};
ghost use Rattle.time_values.specs.Moments.{offset_date};
ghost use Rattle.time_formatting.specs.Components as components;
ghost use Rattle.time_formatting.specs.Texts.{bytes_of};
ghost use Rattle.time_formatting.specs.Numbers as years;

use crate::numbers::{append_digits, append_sign};
use crate::walk::Unformattable;
use time_components::{Component, Padding};
use time_values::OffsetDateTime;
use time_values::digits::{five, four, pair, six};
use time_values::text::Text;

// Appends `-` for a year below 0, and otherwise `+` if a sign is mandatory or the year is above 9999.
fn append_year_sign(text: &mut Text, sign_is_mandatory: bool, year: i32)
    requires { length text.old.items ≤ 34 }
    ensures text { text.new.items ≡ text.old.items ++ years.year_sign sign_is_mandatory year }
    ensures room { length text.new.items ≤ length text.old.items + 1 }
{
    append_sign(text, year < 0, sign_is_mandatory || year > 9999);
}

// A year with its sign, in four digits with the padding, or in five or six digits if it has as many.
fn full(sign_is_mandatory: bool, padding: Padding, year: i32) -> Text
    requires { IsYear greatest_year year }
    ensures { result.items ≡ years.full_year sign_is_mandatory padding year }
{
    let mut text = Text::new();
    append_year_sign(&mut text, sign_is_mandatory, year);
    let number = year.unsigned_abs();
    if number < 10_000 {
        append_digits(&mut text, &four(number), padding);
    } else if number < 100_000 {
        text.append(&five(number));
    } else {
        text.append(&six(number));
    }
    text
}

// A year with its sign, without its last two digits: two digits with the padding, or three or four digits if it has as
// many.
#[tactic(auto, using(crate::proofs::FractionTexts::last_three))]
fn century(sign_is_mandatory: bool, padding: Padding, year: i32) -> Text
    requires { IsYear greatest_year year }
    ensures { result.items ≡ years.century sign_is_mandatory padding year }
{
    let mut text = Text::new();
    append_year_sign(&mut text, sign_is_mandatory, year);
    let number = year.unsigned_abs() / 100;
    if number < 100 {
        append_digits(&mut text, &pair(number as u8), padding);
        return text;
    }
    let [a, b, c, d] = four(number);
    if number < 1000 {
        text.append(&[b, c, d]);
    } else {
        text.append(&[a, b, c, d]);
    }
    text
}

// The text if the year is -9999 to 9999, or else the error `Year`.
fn in_standard_range(year: i32, text: Text) -> Result<Text, Unformattable>
    ensures { bytes_of result ≡ years.in_standard_range year text.items }
{
    if year.unsigned_abs() <= 9999 {
        Ok(text)
    } else {
        Err(Unformattable::Year)
    }
}

// Formats the year with the function `$text`, by the component's modifiers, and returns `Ok`.
macro_rules! extended {
    ($text:ident, $modifiers:ident, $year:expr) => {
        Ok($text($modifiers.sign_is_mandatory, $modifiers.padding, $year))
    };
}

// Formats the year with `$text`, by the component's modifiers. The error is `Year` for a year outside -9999 to 9999.
macro_rules! standard {
    ($text:ident, $modifiers:ident, $year:expr) => {{
        let year = $year;
        in_standard_range(year, $text($modifiers.sign_is_mandatory, $modifiers.padding, year))
    }};
}

/// The year of the date's ISO week, which is that of the week's Thursday.
pub(crate) fn iso_year(value: &OffsetDateTime) -> i32
    ensures value { result ≡ years.iso_year greatest_year (offset_date value.now) }
    ensures within { IsYear greatest_year result }
{
    let (year, _, _) = value.date().to_iso_week_date();
    year
}

/// The number of the date's ISO week in its ISO year, 1 to 53.
#[tactic(auto, using(crate::proofs::Spelled::iso_week_is))]
pub(crate) fn iso_week(value: &OffsetDateTime) -> u8
    ensures { result ≡ years.iso_week greatest_year (offset_date value.now) }
{
    let (_, week, _) = value.date().to_iso_week_date();
    week
}

/// The text of a component that is a whole year, or `None` for any other component. The error is `Year` for a component
/// of the standard range whose year is outside -9999 to 9999.
pub(crate) fn year_text(
    value: &OffsetDateTime,
    component: Component,
) -> Option<Result<Text, Unformattable>>
    ensures { option_map bytes_of result ≡ components.year_of greatest_year value.now component }
{
    let year = value.date().year();
    Some(match component {
        Component::CalendarYearFullExtendedRange(m) => extended!(full, m, year),
        Component::CalendarYearFullStandardRange(m) => standard!(full, m, year),
        Component::IsoYearFullExtendedRange(m) => extended!(full, m, iso_year(value)),
        Component::IsoYearFullStandardRange(m) => standard!(full, m, iso_year(value)),
        _ => return None,
    })
}

/// The text of a component that is a year without its last two digits, or `None` for any other component. The error is
/// `Year` for a component of the standard range whose whole year is outside -9999 to 9999.
pub(crate) fn century_text(
    value: &OffsetDateTime,
    component: Component,
) -> Option<Result<Text, Unformattable>>
    ensures { option_map bytes_of result ≡ components.century_of greatest_year value.now component }
{
    let year = value.date().year();
    Some(match component {
        Component::CalendarYearCenturyExtendedRange(m) => extended!(century, m, year),
        Component::CalendarYearCenturyStandardRange(m) => standard!(century, m, year),
        Component::IsoYearCenturyExtendedRange(m) => extended!(century, m, iso_year(value)),
        Component::IsoYearCenturyStandardRange(m) => standard!(century, m, iso_year(value)),
        _ => return None,
    })
}
