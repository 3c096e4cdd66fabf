//! The values of modifiers.
ghost use Rattle.std.specs.Prelude.{◌≡◌};
ghost use Rattle.time_descriptions.specs.Values as values;
ghost use Rattle.time_descriptions.specs.Values.{ignore_count, look_up};

use crate::names::{ComponentName, ModifierKey, ignore_count, look_up};
use time_components::{Padding, SubsecondDigits, TrailingInput, modifier};

/// The value of the modifier `repr`, which selects one of the components that share a name. Which values a component
/// has, and what its default is, depends on the component.
#[derive(Clone, Copy)]
pub enum Representation {
    /// The default: `24`, `numerical`, `iso`, `full`, or `long` for a weekday.
    Default,
    /// `12`, of an hour
    Twelve,
    /// `long`, of a month
    Long,
    /// `short`, of a month or a weekday
    Short,
    /// `sunday`, of a weekday or a week number: counted from Sunday
    Sunday,
    /// `monday`, of a weekday or a week number: counted from Monday
    Monday,
    /// `century`, of a year: without its last two digits
    Century,
    /// `last_two`, of a year: its last two digits
    LastTwo,
}

/// The unit of a Unix timestamp: seconds, milliseconds, microseconds or nanoseconds.
#[derive(Clone, Copy)]
pub enum Precision {
    /// `second`
    Second,
    /// `millisecond`
    Millisecond,
    /// `microsecond`
    Microsecond,
    /// `nanosecond`
    Nanosecond,
}

/// A modifier of a component with its value, such as `padding:none`.
#[derive(Clone, Copy)]
pub enum Modifier {
    /// Whether the year is that of an ISO week date.
    Base(bool),
    /// Whether the letters of a period (AM or PM) are capitals.
    Case(bool),
    /// Whether the case of the letters of a name or a period matters in parsing.
    CaseSensitive(bool),
    /// How many bytes `ignore` skips.
    Count(modifier::Ignore),
    /// How many digits a fraction of a second has.
    Digits(SubsecondDigits),
    /// Whether the first day of the week has the number 1, and not 0.
    OneIndexed(bool),
    /// What fills the number up to its width.
    Padding(Padding),
    /// The unit of a timestamp.
    Precision(Precision),
    /// Whether a year can have more than four digits, after a sign.
    Range(bool),
    /// Which form of the component is selected.
    Representation(Representation),
    /// Whether a sign is required.
    Sign(bool),
    /// How `end` treats the remaining input.
    TrailingInput(TrailingInput),
}

// The values of `base`: whether a year is that of an ISO week date.
const BASES: [(&[u8], bool); 2] = [(b"calendar", false), (b"iso_week", true)];

// The values of `case`: whether the letters are capitals.
const CASES: [(&[u8], bool); 2] = [(b"lower", false), (b"upper", true)];

// The values of `case_sensitive` and of `one_indexed`.
const BOOLS: [(&[u8], bool); 2] = [(b"false", false), (b"true", true)];

// The values of `range`: whether a year can have more than four digits, after a sign.
const RANGES: [(&[u8], bool); 2] = [(b"standard", false), (b"extended", true)];

// The values of `sign`: whether a sign is required.
const SIGNS: [(&[u8], bool); 2] = [(b"automatic", false), (b"mandatory", true)];

// The values of `padding`: what fills a number up to its width.
const PADDINGS: [(&[u8], Padding); 3] = [
    (b"zero", Padding::Zero),
    (b"space", Padding::Space),
    (b"none", Padding::None),
];

// The values of `precision`: the unit of a timestamp.
const PRECISIONS: [(&[u8], Precision); 4] = [
    (b"second", Precision::Second),
    (b"millisecond", Precision::Millisecond),
    (b"microsecond", Precision::Microsecond),
    (b"nanosecond", Precision::Nanosecond),
];

// The values of `trailing_input`: how `end` treats the remaining input.
const TRAILING_INPUTS: [(&[u8], TrailingInput); 2] = [
    (b"prohibit", TrailingInput::Prohibit),
    (b"discard", TrailingInput::Discard),
];

// The values of `digits`: how many digits a fraction of a second has.
const DIGITS: [(&[u8], SubsecondDigits); 10] = [
    (b"1+", SubsecondDigits::OneOrMore),
    (b"1", SubsecondDigits::One),
    (b"2", SubsecondDigits::Two),
    (b"3", SubsecondDigits::Three),
    (b"4", SubsecondDigits::Four),
    (b"5", SubsecondDigits::Five),
    (b"6", SubsecondDigits::Six),
    (b"7", SubsecondDigits::Seven),
    (b"8", SubsecondDigits::Eight),
    (b"9", SubsecondDigits::Nine),
];

// The values of `repr` for an hour.
const HOURS: [(&[u8], Representation); 2] = [
    (b"24", Representation::Default),
    (b"12", Representation::Twelve),
];

// The values of `repr` for a month.
const MONTHS: [(&[u8], Representation); 3] = [
    (b"numerical", Representation::Default),
    (b"long", Representation::Long),
    (b"short", Representation::Short),
];

// The values of `repr` for a weekday.
const WEEKDAYS: [(&[u8], Representation); 4] = [
    (b"long", Representation::Default),
    (b"short", Representation::Short),
    (b"sunday", Representation::Sunday),
    (b"monday", Representation::Monday),
];

// The values of `repr` for a week number.
const WEEKS: [(&[u8], Representation); 3] = [
    (b"iso", Representation::Default),
    (b"sunday", Representation::Sunday),
    (b"monday", Representation::Monday),
];

// The values of `repr` for a year.
const YEARS: [(&[u8], Representation); 3] = [
    (b"full", Representation::Default),
    (b"century", Representation::Century),
    (b"last_two", Representation::LastTwo),
];

/// The value of the component's `repr` with that name, in any ASCII case. `None` if its `repr` has no such value, or if
/// the component has no `repr`.
#[tactic(auto, unfolding(crate::specs::Values::representations, crate::specs::Values::look_up))]
pub fn representation_named(component: ComponentName, name: &[u8]) -> Option<Representation>
    ensures { result ≡ look_up (values.representations component) name.now }
{
    match component {
        ComponentName::Hour => look_up(&HOURS, name),
        ComponentName::Month => look_up(&MONTHS, name),
        ComponentName::Weekday => look_up(&WEEKDAYS, name),
        ComponentName::WeekNumber => look_up(&WEEKS, name),
        ComponentName::Year => look_up(&YEARS, name),
        // The other components have no `repr`.
        _ => None,
    }
}

/// The modifier with that key and value, or `None` if the key has no such value. A value that is a word may be in any
/// ASCII case; a count is 1 to 65535 in ASCII digits, maybe after zeros. The component matters only for `repr`; that it
/// has the key isn't checked.
#[tactic(auto, unfolding(crate::specs::Values::bools, crate::specs::Values::cases, crate::specs::Values::paddings, crate::specs::Values::trailing_inputs))]
pub fn modifier_value(component: ComponentName, key: ModifierKey, value: &[u8]) -> Option<Modifier>
    ensures { result ≡ values.modifier_value component key value.now }
{
    match key {
        ModifierKey::Base => look_up(&BASES, value).map(Modifier::Base),
        ModifierKey::Case => look_up(&CASES, value).map(Modifier::Case),
        ModifierKey::CaseSensitive => look_up(&BOOLS, value).map(Modifier::CaseSensitive),
        ModifierKey::Count => ignore_count(value).map(Modifier::Count),
        ModifierKey::Digits => look_up(&DIGITS, value).map(Modifier::Digits),
        ModifierKey::OneIndexed => look_up(&BOOLS, value).map(Modifier::OneIndexed),
        ModifierKey::Padding => look_up(&PADDINGS, value).map(Modifier::Padding),
        ModifierKey::Precision => look_up(&PRECISIONS, value).map(Modifier::Precision),
        ModifierKey::Range => look_up(&RANGES, value).map(Modifier::Range),
        ModifierKey::Representation => representation_named(component, value).map(
            Modifier::Representation,
        ),
        ModifierKey::Sign => look_up(&SIGNS, value).map(Modifier::Sign),
        ModifierKey::TrailingInput => look_up(&TRAILING_INPUTS, value).map(Modifier::TrailingInput),
    }
}
