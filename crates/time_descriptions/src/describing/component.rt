//! Texts of components in descriptions.
ghost use Rattle.std.specs.Prelude.{◌≡◌, ◌++◌, codes, false};
ghost use Rattle.time_components.specs.Tree as tree;
ghost use Rattle.time_descriptions.specs.Writing as writing;
ghost use Rattle.time_descriptions.specs.Writing.{tree_text};
ghost use Rattle.time_descriptions.specs.DescribedParts as parts;
ghost use Rattle.time_descriptions.specs.DescribedParts.{Puts};

use crate::describing::writing::{DescriptionText, Full};
use itoa::Buffer;
use time_components::{Component, Padding, SubsecondDigits, TrailingInput};

// The component's name, and its modifiers `repr`, `range`, `base`, `precision` and `case` unless they have their
// defaults. For an `ignore`, the key of its count follows.
fn name_part(component: Component) -> &'static str
    ensures { result.now ≡ parts.name_part component }
{
    match component {
        Component::Day(_) => "day",
        Component::MonthShort(_) => "month repr:short",
        Component::MonthLong(_) => "month repr:long",
        Component::MonthNumerical(_) => "month",
        Component::Ordinal(_) => "ordinal",
        Component::WeekdayShort(_) => "weekday repr:short",
        Component::WeekdayLong(_) => "weekday",
        Component::WeekdaySunday(_) => "weekday repr:sunday",
        Component::WeekdayMonday(_) => "weekday repr:monday",
        Component::WeekNumberIso(_) => "week_number",
        Component::WeekNumberSunday(_) => "week_number repr:sunday",
        Component::WeekNumberMonday(_) => "week_number repr:monday",
        Component::CalendarYearFullExtendedRange(_) => "year",
        Component::CalendarYearFullStandardRange(_) => "year range:standard",
        Component::IsoYearFullExtendedRange(_) => "year base:iso_week",
        Component::IsoYearFullStandardRange(_) => "year base:iso_week range:standard",
        Component::CalendarYearCenturyExtendedRange(_) => "year repr:century",
        Component::CalendarYearCenturyStandardRange(_) => "year repr:century range:standard",
        Component::IsoYearCenturyExtendedRange(_) => "year repr:century base:iso_week",
        Component::IsoYearCenturyStandardRange(_) =>
            "year repr:century base:iso_week range:standard",
        Component::CalendarYearLastTwo(_) => "year repr:last_two",
        Component::IsoYearLastTwo(_) => "year repr:last_two base:iso_week",
        Component::Hour12(_) => "hour repr:12",
        Component::Hour24(_) => "hour",
        Component::Minute(_) => "minute",
        Component::Period(m) if m.is_uppercase => "period",
        Component::Period(_) => "period case:lower",
        Component::Second(_) => "second",
        Component::Subsecond(_) => "subsecond",
        Component::OffsetHour(_) => "offset_hour",
        Component::OffsetMinute(_) => "offset_minute",
        Component::OffsetSecond(_) => "offset_second",
        Component::Ignore(_) => "ignore count:",
        Component::UnixTimestampSecond(_) => "unix_timestamp",
        Component::UnixTimestampMillisecond(_) => "unix_timestamp precision:millisecond",
        Component::UnixTimestampMicrosecond(_) => "unix_timestamp precision:microsecond",
        Component::UnixTimestampNanosecond(_) => "unix_timestamp precision:nanosecond",
        Component::End(_) => "end",
    }
}

// For a component with one of a row's names: the row's `$value`, over the modifiers as `$modifiers`; else `$other`.
macro_rules! of_names {
    ($component:ident, $modifiers:ident: $($($name:ident)|+ => $value:expr,)+ _ => $other:expr) => {
        match $component {
            $($(Component::$name($modifiers) => $value,)+)+
            _ => $other,
        }
    };
}

// The component's padding. For a component without one it is `Zero`, which isn't written.
fn padding_of(component: Component) -> Padding
    ensures { writing.padding_text result ≡ parts.padding_part component }
{
    of_names!(component, m:
        Day | MonthNumerical | Ordinal | WeekNumberIso | WeekNumberSunday | WeekNumberMonday
        | CalendarYearFullExtendedRange | CalendarYearFullStandardRange
        | IsoYearFullExtendedRange | IsoYearFullStandardRange
        | CalendarYearCenturyExtendedRange | CalendarYearCenturyStandardRange
        | IsoYearCenturyExtendedRange | IsoYearCenturyStandardRange
        | CalendarYearLastTwo | IsoYearLastTwo
        | Hour12 | Hour24 | Minute | Second | OffsetHour | OffsetMinute | OffsetSecond => m.padding,
        _ => Padding::Zero
    )
}

// A space and the padding's modifier, or nothing for the default, `Zero`.
fn padding_text(padding: Padding) -> &'static str
    ensures { result.now ≡ writing.padding_text padding }
{
    match padding {
        Padding::Zero => "",
        Padding::Space => " padding:space",
        Padding::None => " padding:none",
    }
}

// A space and the modifier of a mandatory sign, or nothing for the default, an automatic sign.
fn sign_text(sign_is_mandatory: bool) -> &'static str
    ensures { result.now ≡ writing.sign_text sign_is_mandatory }
{
    if sign_is_mandatory {
        " sign:mandatory"
    } else {
        ""
    }
}

// The modifier if the flag isn't set, and otherwise nothing.
fn where_false(modifier: &'static str, is_set: bool) -> &'static str
    ensures { result.now ≡ writing.where_false modifier.now is_set }
{
    if is_set { "" } else { modifier }
}

// A space and the modifier of the number of digits, or nothing for the default, one or more digits.
fn digits_text(digits: SubsecondDigits) -> &'static str
    ensures { result.now ≡ writing.digits_text digits }
{
    match digits {
        SubsecondDigits::One => " digits:1",
        SubsecondDigits::Two => " digits:2",
        SubsecondDigits::Three => " digits:3",
        SubsecondDigits::Four => " digits:4",
        SubsecondDigits::Five => " digits:5",
        SubsecondDigits::Six => " digits:6",
        SubsecondDigits::Seven => " digits:7",
        SubsecondDigits::Eight => " digits:8",
        SubsecondDigits::Nine => " digits:9",
        SubsecondDigits::OneOrMore => "",
    }
}

// A space and the modifier that discards trailing input, or nothing for the default, which rejects trailing input.
fn trailing_input_text(trailing_input: TrailingInput) -> &'static str
    ensures { result.now ≡ writing.trailing_input_text trailing_input }
{
    match trailing_input {
        TrailingInput::Prohibit => "",
        TrailingInput::Discard => " trailing_input:discard",
    }
}

// A space and the component's modifier `case_sensitive`, `one_indexed`, `sign`, `digits` or `trailing_input`. Empty if
// it has the default, or if the component has none of these.
fn modifier_part(component: Component) -> &'static str
    ensures { result.now ≡ parts.modifier_part component }
{
    of_names!(component, m:
        MonthShort | MonthLong | WeekdayShort | WeekdayLong | Period =>
            where_false(" case_sensitive:false", m.case_sensitive),
        WeekdaySunday | WeekdayMonday => where_false(" one_indexed:false", m.one_indexed),
        CalendarYearFullExtendedRange | CalendarYearFullStandardRange
        | IsoYearFullExtendedRange | IsoYearFullStandardRange
        | CalendarYearCenturyExtendedRange | CalendarYearCenturyStandardRange
        | IsoYearCenturyExtendedRange | IsoYearCenturyStandardRange | OffsetHour
        | UnixTimestampSecond | UnixTimestampMillisecond
        | UnixTimestampMicrosecond | UnixTimestampNanosecond => sign_text(m.sign_is_mandatory),
        Subsecond => digits_text(m.digits),
        End => trailing_input_text(m.trailing_input),
        _ => ""
    )
}

// Appends the decimal count of an `ignore`, and nothing for another component. The error is that there is no room.
fn put_count<const N: usize>(
    component: Component,
    text: &mut DescriptionText<N>,
) -> Result<(), Full>
    ensures { Puts N (parts.count_part component) text.old.bytes.items result text.new.bytes.items }
{
    match component {
        Component::Ignore(m) => text.put(Buffer::new().format(m.count.get()).as_bytes()),
        _ => Ok(()),
    }
}

// Appends what a component's brackets contain. The error is that there is no room; a part may then have been appended.
fn put_words<const N: usize>(
    component: Component,
    text: &mut DescriptionText<N>,
) -> Result<(), Full>
    ensures { Puts N (parts.parts_of component) text.old.bytes.items result text.new.bytes.items }
{
    text.put(name_part(component).as_bytes())?;
    text.put(padding_text(padding_of(component)).as_bytes())?;
    text.put(modifier_part(component).as_bytes())?;
    put_count(component, text)
}

/// Appends the component in its brackets, with the modifiers that differ from their defaults. The error is that there
/// is no room; a part may then have been appended.
pub(crate) fn put_component<const N: usize>(
    component: Component,
    text: &mut DescriptionText<N>,
) -> Result<(), Full>
    ensures { Puts N (tree_text (tree.component false component)) text.old.bytes.items result text.new.bytes.items }
{
    text.put(b"[")?;
    put_words(component, text)?;
    text.put(b"]")
}
