//! The values of a component's modifiers, and the component that they select.
ghost use Rattle.std.specs.Prelude.{◌≡◌};
ghost use Rattle.time_descriptions.specs.Modifiers as modifiers_;

use crate::names::ComponentName;
use crate::values::{Modifier, Precision, Representation};
use time_components::{Component, Padding, SubsecondDigits, TrailingInput, modifier};

// The component with that name and these modifiers.
macro_rules! component {
    ($name:ident, $($modifiers:tt)*) => {
        time_components::Component::$name(time_components::modifier::$name { $($modifiers)* })
    };
}

pub(crate) use component;

/// The values of all modifiers that any component can have. A component uses only the values of its own modifiers.
#[derive(Clone, Copy)]
pub struct Modifiers {
    /// Whether the year is that of an ISO week date.
    pub is_iso_week: bool,
    /// Whether the letters of a period (AM or PM) are capitals.
    pub is_uppercase: bool,
    /// Whether the case of the letters of a name or a period matters in parsing.
    pub case_sensitive: bool,
    /// How many bytes `ignore` skips, or `None` if no count was given.
    pub count: Option<modifier::Ignore>,
    /// How many digits a fraction of a second has.
    pub digits: SubsecondDigits,
    /// Whether the first day of the week has the number 1, and not 0.
    pub one_indexed: bool,
    /// What fills the number up to its width.
    pub padding: Padding,
    /// The unit of a Unix timestamp.
    pub precision: Precision,
    /// Whether a year can have more than four digits, after a sign.
    pub is_extended: bool,
    /// The value of `repr`, which selects one of the components that share a name.
    pub representation: Representation,
    /// Whether a sign is required.
    pub sign_is_mandatory: bool,
    /// How `end` treats the remaining input.
    pub trailing_input: TrailingInput,
}

impl Modifiers {
    // The values of a component in whose brackets no modifier is written.
    pub const DEFAULT: Modifiers = Modifiers {
        is_iso_week: false,
        is_uppercase: true,
        case_sensitive: true,
        count: None,
        digits: SubsecondDigits::OneOrMore,
        one_indexed: true,
        padding: Padding::Zero,
        precision: Precision::Second,
        is_extended: true,
        representation: Representation::Default,
        sign_is_mandatory: false,
        trailing_input: TrailingInput::Prohibit,
    };

    /// The values with one more modifier, which replaces an earlier value of its key. All other values are unchanged.
    pub fn with(mut self, modifier: Modifier) -> Modifiers
        ensures { result ≡ modifiers_.with_modifier self modifier }
    {
        match modifier {
            Modifier::Base(value) => self.is_iso_week = value,
            Modifier::Case(value) => self.is_uppercase = value,
            Modifier::CaseSensitive(value) => self.case_sensitive = value,
            Modifier::Count(value) => self.count = Some(value),
            Modifier::Digits(value) => self.digits = value,
            Modifier::OneIndexed(value) => self.one_indexed = value,
            Modifier::Padding(value) => self.padding = value,
            Modifier::Precision(value) => self.precision = value,
            Modifier::Range(value) => self.is_extended = value,
            Modifier::Representation(value) => self.representation = value,
            Modifier::Sign(value) => self.sign_is_mandatory = value,
            Modifier::TrailingInput(value) => self.trailing_input = value,
        }
        self
    }
}

// The full year that the modifiers select: of the calendar or of an ISO week date, of the extended or the standard
// range.
fn full_year(modifiers: Modifiers) -> Component
    ensures { result ≡ modifiers_.full_year modifiers.is_iso_week modifiers.is_extended modifiers }
{
    let padding = modifiers.padding;
    let sign_is_mandatory = modifiers.sign_is_mandatory;
    match (modifiers.is_iso_week, modifiers.is_extended) {
        (false, true) => component!(CalendarYearFullExtendedRange, padding, sign_is_mandatory),
        (false, false) => component!(CalendarYearFullStandardRange, padding, sign_is_mandatory),
        (true, true) => component!(IsoYearFullExtendedRange, padding, sign_is_mandatory),
        (true, false) => component!(IsoYearFullStandardRange, padding, sign_is_mandatory),
    }
}

// The year without its last two digits that the modifiers select: of the calendar or of an ISO week date, of the
// extended or the standard range.
fn century(modifiers: Modifiers) -> Component
    ensures { result ≡ modifiers_.century modifiers.is_iso_week modifiers.is_extended modifiers }
{
    let padding = modifiers.padding;
    let sign_is_mandatory = modifiers.sign_is_mandatory;
    match (modifiers.is_iso_week, modifiers.is_extended) {
        (false, true) => component!(CalendarYearCenturyExtendedRange, padding, sign_is_mandatory),
        (false, false) => component!(CalendarYearCenturyStandardRange, padding, sign_is_mandatory),
        (true, true) => component!(IsoYearCenturyExtendedRange, padding, sign_is_mandatory),
        (true, false) => component!(IsoYearCenturyStandardRange, padding, sign_is_mandatory),
    }
}

// The year that the modifiers select: its century, its last two digits, or else the full year.
fn year(modifiers: Modifiers) -> Component
    ensures { result ≡ modifiers_.year modifiers }
{
    let padding = modifiers.padding;
    match modifiers.representation {
        Representation::Century => century(modifiers),
        Representation::LastTwo if modifiers.is_iso_week => component!(IsoYearLastTwo, padding),
        Representation::LastTwo => component!(CalendarYearLastTwo, padding),
        _ => full_year(modifiers),
    }
}

// The month that the modifiers select: its long or short name, or else its number.
fn month(modifiers: Modifiers) -> Component
    ensures { result ≡ modifiers_.month modifiers }
{
    let case_sensitive = modifiers.case_sensitive;
    match modifiers.representation {
        Representation::Long => component!(MonthLong, case_sensitive),
        Representation::Short => component!(MonthShort, case_sensitive),
        _ => component!(MonthNumerical, padding: modifiers.padding),
    }
}

// The weekday that the modifiers select: its short name, its number from Sunday or Monday, or else its long name.
fn weekday(modifiers: Modifiers) -> Component
    ensures { result ≡ modifiers_.weekday modifiers }
{
    let case_sensitive = modifiers.case_sensitive;
    let one_indexed = modifiers.one_indexed;
    match modifiers.representation {
        Representation::Short => component!(WeekdayShort, case_sensitive),
        Representation::Sunday => component!(WeekdaySunday, one_indexed),
        Representation::Monday => component!(WeekdayMonday, one_indexed),
        _ => component!(WeekdayLong, case_sensitive),
    }
}

// The week number that the modifiers select: of weeks from Sunday or Monday, or else of ISO weeks.
fn week_number(modifiers: Modifiers) -> Component
    ensures { result ≡ modifiers_.week_number modifiers }
{
    let padding = modifiers.padding;
    match modifiers.representation {
        Representation::Sunday => component!(WeekNumberSunday, padding),
        Representation::Monday => component!(WeekNumberMonday, padding),
        _ => component!(WeekNumberIso, padding),
    }
}

// The Unix timestamp in the unit that the modifiers select.
fn unix_timestamp(modifiers: Modifiers) -> Component
    ensures { result ≡ modifiers_.unix_timestamp modifiers }
{
    let sign_is_mandatory = modifiers.sign_is_mandatory;
    match modifiers.precision {
        Precision::Second => component!(UnixTimestampSecond, sign_is_mandatory),
        Precision::Millisecond => component!(UnixTimestampMillisecond, sign_is_mandatory),
        Precision::Microsecond => component!(UnixTimestampMicrosecond, sign_is_mandatory),
        Precision::Nanosecond => component!(UnixTimestampNanosecond, sign_is_mandatory),
    }
}

// The hour that the modifiers select: of a 12-hour clock, or else of a 24-hour clock.
fn hour(modifiers: Modifiers) -> Component
    ensures { result ≡ modifiers_.hour modifiers }
{
    let padding = modifiers.padding;
    match modifiers.representation {
        Representation::Twelve => component!(Hour12, padding),
        _ => component!(Hour24, padding),
    }
}

/// The component with that name that the modifiers select. Returns `None` only for `ignore` without a count. Values of
/// modifiers that the component doesn't have are ignored.
#[tactic(auto, unfolding(crate::specs::Modifiers::component_of))]
pub fn component_of(name: ComponentName, modifiers: Modifiers) -> Option<Component>
    ensures { result ≡ modifiers_.component_of name modifiers }
{
    let padding = modifiers.padding;
    Some(match name {
        ComponentName::Day => component!(Day, padding),
        ComponentName::End => component!(End, trailing_input: modifiers.trailing_input),
        ComponentName::Hour => hour(modifiers),
        ComponentName::Ignore => Component::Ignore(modifiers.count?),
        ComponentName::Minute => component!(Minute, padding),
        ComponentName::Month => month(modifiers),
        ComponentName::OffsetHour =>
            component!(OffsetHour, padding, sign_is_mandatory: modifiers.sign_is_mandatory),
        ComponentName::OffsetMinute => component!(OffsetMinute, padding),
        ComponentName::OffsetSecond => component!(OffsetSecond, padding),
        ComponentName::Ordinal => component!(Ordinal, padding),
        ComponentName::Period => component!(
            Period,
            is_uppercase: modifiers.is_uppercase,
            case_sensitive: modifiers.case_sensitive
        ),
        ComponentName::Second => component!(Second, padding),
        ComponentName::Subsecond => component!(Subsecond, digits: modifiers.digits),
        ComponentName::UnixTimestamp => unix_timestamp(modifiers),
        ComponentName::Weekday => weekday(modifiers),
        ComponentName::WeekNumber => week_number(modifiers),
        ComponentName::Year => year(modifiers),
    })
}
