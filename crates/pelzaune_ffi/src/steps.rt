//! The steps of stored descriptions, each as a few numbers. Any numbers are a valid step.
ghost use Rattle.std.specs.Prelude.{◌≡◌};
ghost use Rattle.time_components.specs.declared.inspect.Step.TheVariants as step;
ghost use Rattle.time_descriptions.specs.Values.{ignored};
ghost use Rattle.pelzaune_ffi.specs.Described as spec;

use std::num::NonZero;
use time_components::modifier::{self, SubsecondDigits, TrailingInput};
use time_components::{Component, Group, Padding, Step};

/// A step of a description, in the layout of C.
#[repr(C)]
#[derive(Clone, Copy)]
pub struct StoredStep {
    /// For a group: how many of the following steps are in it. Ignored for any other kind.
    pub len: usize,
    /// For skipped bytes: how many. Ignored for any other kind.
    pub count: u16,
    /// The number of the step's kind: 0 is a literal's first byte, 1 a further one, 2 an optional group, 3 a choice, 4
    /// a sequence, and 5 to 41 a component. Any other number, or skipping 0 bytes, is a literal of byte 0.
    pub kind: u8,
    /// The byte of a literal; a padding: 1 is spaces, 2 none, else zeros; how many digits a fraction has: 1 to 9, else
    /// one or more; 1 to discard trailing bytes; or for the half of the day, 0 for `am` and `pm`, else `AM` and `PM`.
    pub choice: u8,
    /// A component's bool (a mandatory sign, case sensitivity, days counted from 1): 0 is false, any other is true.
    pub flag: u8,
}

// The padding with this number: 1 is spaces, 2 is none, and any other number is zeros.
fn padding_of(number: u8) -> Padding
    ensures { result ≡ spec.padding_of number }
{
    match number {
        1 => Padding::Space,
        2 => Padding::None,
        _ => Padding::Zero,
    }
}

// The number of a padding: 0 is zeros, 1 is spaces and 2 is none.
fn padding_number(padding: Padding) -> u8
    ensures { result ≡ spec.padding_number padding }
{
    match padding {
        Padding::Zero => 0,
        Padding::Space => 1,
        Padding::None => 2,
    }
}

// How many digits a fraction has, by their number: 1 to 9 is exactly that many, and any other number is one or more.
fn digits_of(number: u8) -> SubsecondDigits
    ensures { result ≡ spec.digits_of number }
{
    match number {
        1 => SubsecondDigits::One,
        2 => SubsecondDigits::Two,
        3 => SubsecondDigits::Three,
        4 => SubsecondDigits::Four,
        5 => SubsecondDigits::Five,
        6 => SubsecondDigits::Six,
        7 => SubsecondDigits::Seven,
        8 => SubsecondDigits::Eight,
        9 => SubsecondDigits::Nine,
        _ => SubsecondDigits::OneOrMore,
    }
}

// The number for the digits of a fraction: 1 to 9 for exactly that many, and 0 for one or more.
fn digits_number(digits: SubsecondDigits) -> u8
    ensures { result ≡ spec.digits_number digits }
{
    match digits {
        SubsecondDigits::OneOrMore => 0,
        SubsecondDigits::One => 1,
        SubsecondDigits::Two => 2,
        SubsecondDigits::Three => 3,
        SubsecondDigits::Four => 4,
        SubsecondDigits::Five => 5,
        SubsecondDigits::Six => 6,
        SubsecondDigits::Seven => 7,
        SubsecondDigits::Eight => 8,
        SubsecondDigits::Nine => 9,
    }
}

// The treatment of trailing bytes with this number: 1 discards them, and any other number prohibits them.
fn trailing_of(number: u8) -> TrailingInput
    ensures { result ≡ spec.trailing_of number }
{
    match number {
        1 => TrailingInput::Discard,
        _ => TrailingInput::Prohibit,
    }
}

// The number of a treatment of trailing bytes: 0 prohibits them, and 1 discards them.
fn trailing_number(trailing: TrailingInput) -> u8
    ensures { result ≡ spec.trailing_number trailing }
{
    match trailing {
        TrailingInput::Prohibit => 0,
        TrailingInput::Discard => 1,
    }
}

// The step that skips this many bytes. For 0 it is the literal of byte 0, as for an unknown kind.
fn skipping(count: u16) -> Step
    ensures { result ≡ spec.skipping (ignored count) }
{
    match NonZero::<u16>::new(count) {
        Some(count) => Step::Component(Component::Ignore(modifier::Ignore { count })),
        None => Step::Literal(0),
    }
}

// The stored step with this kind, choice and flag, and 0 in its other fields.
fn chosen(kind: u8, choice: u8, flag: bool) -> StoredStep
    ensures { result ≡ spec.chosen kind choice flag }
{
    StoredStep {
        len: 0,
        count: 0,
        kind,
        choice,
        flag: u8::from(flag),
    }
}

// Each of the next seven macros is for the components with certain modifiers: its rule `step` makes a step from the
// numbers of a stored step, and its rule `stored` makes the stored step of a component.

// Makes the step (`step`) or the stored step (`stored`) of a component with only a padding.
macro_rules! padded {
    (step $name:ident, $stored:ident, $padding:ident, $flag:ident) => {
        Step::Component(Component::$name(modifier::$name {
            padding: $padding,
        }))
    };
    (stored $kind:literal, $modifiers:ident) => {
        chosen($kind, padding_number($modifiers.padding), false)
    };
}

// Makes the step (`step`) or stored step (`stored`) of a component with a padding and whether a sign is mandatory.
macro_rules! signed {
    (step $name:ident, $stored:ident, $padding:ident, $flag:ident) => {
        Step::Component(Component::$name(modifier::$name {
            padding: $padding,
            sign_is_mandatory: $flag,
        }))
    };
    (stored $kind:literal, $modifiers:ident) => {
        chosen(
            $kind,
            padding_number($modifiers.padding),
            $modifiers.sign_is_mandatory,
        )
    };
}

// Makes the step or stored step of a component with only a bool: a mandatory sign, case sensitivity or days from 1.
macro_rules! flagged {
    (step $name:ident, $stored:ident, $padding:ident, $flag:ident, $field:ident) => {
        Step::Component(Component::$name(modifier::$name { $field: $flag }))
    };
    (stored $kind:literal, $modifiers:ident, $field:ident) => {
        chosen($kind, 0, $modifiers.$field)
    };
}

// Makes the step or stored step of the half of the day: whether `AM` and `PM` are in capitals, and whether case counts.
macro_rules! halved {
    (step $name:ident, $stored:ident, $padding:ident, $flag:ident) => {
        Step::Component(Component::$name(modifier::$name {
            is_uppercase: $stored.choice != 0,
            case_sensitive: $flag,
        }))
    };
    (stored $kind:literal, $modifiers:ident) => {
        chosen(
            $kind,
            u8::from($modifiers.is_uppercase),
            $modifiers.case_sensitive,
        )
    };
}

// Makes the step (`step`) or stored step (`stored`) of a fraction of a second, with how many digits it has.
macro_rules! fractional {
    (step $name:ident, $stored:ident, $padding:ident, $flag:ident) => {
        Step::Component(Component::$name(modifier::$name {
            digits: digits_of($stored.choice),
        }))
    };
    (stored $kind:literal, $modifiers:ident) => {
        chosen($kind, digits_number($modifiers.digits), false)
    };
}

// Makes the step (`step`) or stored step (`stored`) that skips bytes, with how many they are.
macro_rules! skipped {
    (step $name:ident, $stored:ident, $padding:ident, $flag:ident) => {
        skipping($stored.count)
    };
    (stored $kind:literal, $modifiers:ident) => {
        StoredStep {
            count: $modifiers.count.get(),
            ..chosen($kind, 0, false)
        }
    };
}

// Makes the step (`step`) or stored step (`stored`) of the end of the text, with the treatment of trailing bytes.
macro_rules! ended {
    (step $name:ident, $stored:ident, $padding:ident, $flag:ident) => {
        Step::Component(Component::$name(modifier::$name {
            trailing_input: trailing_of($stored.choice),
        }))
    };
    (stored $kind:literal, $modifiers:ident) => {
        chosen($kind, trailing_number($modifiers.trailing_input), false)
    };
}

// Calls the macro `$of_each` with the given names, and with the number of the kind, the name and the macro of each
// component. For `flagged`, the name of the bool's field follows in parentheses.
macro_rules! components {
    ($of_each:ident $($given:ident)+) => {
        $of_each! { $($given)+;
            5 Day padded,
            6 MonthShort flagged(case_sensitive),
            7 MonthLong flagged(case_sensitive),
            8 MonthNumerical padded,
            9 Ordinal padded,
            10 WeekdayShort flagged(case_sensitive),
            11 WeekdayLong flagged(case_sensitive),
            12 WeekdaySunday flagged(one_indexed),
            13 WeekdayMonday flagged(one_indexed),
            14 WeekNumberIso padded,
            15 WeekNumberSunday padded,
            16 WeekNumberMonday padded,
            17 CalendarYearFullExtendedRange signed,
            18 CalendarYearFullStandardRange signed,
            19 IsoYearFullExtendedRange signed,
            20 IsoYearFullStandardRange signed,
            21 CalendarYearCenturyExtendedRange signed,
            22 CalendarYearCenturyStandardRange signed,
            23 IsoYearCenturyExtendedRange signed,
            24 IsoYearCenturyStandardRange signed,
            25 CalendarYearLastTwo padded,
            26 IsoYearLastTwo padded,
            27 Hour12 padded,
            28 Hour24 padded,
            29 Minute padded,
            30 Period halved,
            31 Second padded,
            32 Subsecond fractional,
            33 OffsetHour signed,
            34 OffsetMinute padded,
            35 OffsetSecond padded,
            36 Ignore skipped,
            37 UnixTimestampSecond flagged(sign_is_mandatory),
            38 UnixTimestampMillisecond flagged(sign_is_mandatory),
            39 UnixTimestampMicrosecond flagged(sign_is_mandatory),
            40 UnixTimestampNanosecond flagged(sign_is_mandatory),
            41 End ended
        }
    };
}

// Makes the step that a stored step encodes, by the number of its kind.
macro_rules! step_of_each {
    ($stored:ident $padding:ident $flag:ident; $($kind:literal $name:ident $form:ident $(($field:ident))?),+) => {
        match $stored.kind {
            0 => Step::Literal($stored.choice),
            1 => Step::More($stored.choice),
            2 => Step::Group(Group::Optional, $stored.len),
            3 => Step::Group(Group::First, $stored.len),
            4 => Step::Group(Group::List, $stored.len),
            $($kind => $form!(step $name, $stored, $padding, $flag $(, $field)?),)+
            _ => Step::Literal(0),
        }
    };
}

// Makes the stored step of a component, by its variant.
macro_rules! stored_of_each {
    ($component:ident; $($kind:literal $name:ident $form:ident $(($field:ident))?),+) => {
        match $component {
            $(Component::$name(modifiers) => $form!(stored $kind, modifiers $(, $field)?),)+
        }
    };
}

/// The step that a stored step encodes. An unknown kind, or skipping 0 bytes, is the literal of byte 0.
#[inline]
#[tactic(auto, unfolding(crate::specs::Described::step_of))]
pub fn step_of(stored: StoredStep) -> Step
    ensures { result ≡ spec.step_of stored }
{
    let padding = padding_of(stored.choice);
    let flag = stored.flag != 0;
    components!(step_of_each stored padding flag)
}

// The stored step of a component.
#[tactic(auto, using(crate::proofs::StoredRows::padding_back, crate::proofs::StoredRows::digits_back, crate::proofs::StoredRows::trailing_back, crate::proofs::StoredRows::flag_back, crate::proofs::StoredRows::skips), unfolding(crate::specs::Described::step_of))]
fn stored_component(component: Component) -> StoredStep
    ensures { spec.step_of result ≡ step.Component component }
{
    components!(stored_of_each component)
}

// The stored step of a group with this many steps in it.
#[tactic(auto, unfolding(crate::specs::Described::step_of))]
fn stored_group(group: Group, len: usize) -> StoredStep
    ensures { spec.step_of result ≡ step.Group group len }
{
    let kind = match group {
        Group::Optional => 2,
        Group::First => 3,
        Group::List => 4,
    };
    StoredStep {
        len,
        ..chosen(kind, 0, false)
    }
}

/// A stored step that [`step_of`] converts back to this step.
#[tactic(auto, unfolding(crate::specs::Described::step_of))]
pub fn stored_step(step: Step) -> StoredStep
    ensures { spec.step_of result ≡ step }
{
    match step {
        Step::Literal(byte) => chosen(0, byte, false),
        Step::More(byte) => chosen(1, byte, false),
        Step::Group(group, len) => stored_group(group, len),
        Step::Component(component) => stored_component(component),
    }
}
