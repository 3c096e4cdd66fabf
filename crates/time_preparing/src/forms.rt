//! Forms of dates, times and offsets: their components, with a byte between them, and the steps of each.
ghost use Rattle.std.specs.Prelude.{◌≡◌, IsTrue, Some, None};
ghost use Rattle.time_preparing.specs.Forms.{date_parts, day_first_parts, offset_parts, standard_date_parts, time_parts, year_first_parts};

pub(crate) mod fast;

use std::num::NonZero;
use time_components::{Component, Padding, Period, Step, SubsecondDigits, modifier};
use time_values::Month;

/// A form of a date: its parts in order, with this byte between them. Numbers have two digits, but a year four to six.
#[derive(Clone, Copy, Debug, PartialEq, Eq)]
pub enum Dated {
    /// A year, a month's number and a day, as `2021-03-04`. The year has four digits, or a sign and four to six. Only a
    /// year without a sign is parsed directly as a value.
    YearFirst(u8),
    /// A year, a month's number and a day, as `2021-03-04`. The year has four digits, with or without a sign. Only a
    /// year without a sign is parsed directly as a value.
    StandardYearFirst(u8),
    /// A day, the short English name of a month (in exactly this case) and a year, as `04/Mar/2021`. The year has four
    /// digits, or a sign and four to six. Only a year without a sign is parsed directly as a value.
    DayFirst(u8),
}

/// A form of a date, a byte, a time of the 24-hour clock with a second but no fraction, and an offset of a sign, an
/// hour and a minute, perhaps after a byte. Each number of the time and of the offset has two digits.
#[derive(Clone, Copy, Debug, PartialEq, Eq)]
pub struct InMoment {
    /// The form of the date.
    pub date: Dated,
    /// The byte before the time.
    pub between: u8,
    /// The byte between the parts of the time.
    pub in_time: u8,
    /// The byte between the time and the offset, or `None` if the offset directly follows the time.
    pub before_offset: Option<u8>,
    /// The byte between the hour and the minute of the offset, or `None` if the minute directly follows the hour.
    pub in_offset: Option<u8>,
}

/// A form of a time of the 12-hour clock, as `1:05:09.25 PM`; the second with its fraction, or the fraction alone, may
/// be missing. The hour has one or two digits, the minute and the second two.
#[derive(Clone, Copy, Debug, PartialEq, Eq)]
pub struct InHalf {
    /// The byte before the minute.
    pub in_time: u8,
    /// The byte before the second.
    pub before_second: u8,
    /// The byte before the fraction.
    pub point: u8,
    /// The byte before AM or PM.
    pub before_half: u8,
    /// Whether AM or PM is written in capitals, and whether the case matters.
    pub half: modifier::Period,
}

/// A form of a date without a year, and a time of the 24-hour clock, as `Mar  4 05:06:07`. The month is a short
/// English name in exactly this case. A day below 10 may have a space instead of the digit 0.
#[derive(Clone, Copy, Debug, PartialEq, Eq)]
pub struct InYear {
    /// The byte between the month and the day.
    pub in_date: u8,
    /// The byte before the time.
    pub between: u8,
    /// The byte between the parts of the time.
    pub in_time: u8,
}

/// A year, 0 to 9999, a month and a day, 1 to 31, as they were parsed. They need not be a date of the calendar.
#[derive(Clone, Copy)]
pub(crate) struct DateNumbers {
    pub year: i32,
    pub month: Month,
    pub day: NonZero<u8>,
}

/// An hour of the 24-hour clock, 0 to 23, a minute, 0 to 59, and a second, 0 to 60.
#[derive(Clone, Copy)]
pub(crate) struct ClockNumbers {
    pub hour: u8,
    pub minute: u8,
    pub second: u8,
}

/// An hour of the 12-hour clock, 1 to 12, a minute, 0 to 59, AM or PM, and the second, 0 to 60, if there is one, with
/// the nanoseconds of its fraction, if it has one.
#[derive(Clone, Copy)]
pub(crate) struct HalfNumbers {
    pub hour: u8,
    pub minute: u8,
    pub second: Option<(u8, Option<u32>)>,
    pub half: Period,
}

/// An offset's hour with its sign, -25 to 25, whether the sign is a minus, and the minute without a sign, 0 to 59.
#[derive(Clone, Copy)]
pub(crate) struct OffsetNumbers {
    pub hour: i8,
    pub is_negative: bool,
    pub minute: i8,
}

/// The year of a date, in the extended range: four digits, or a sign and four to six.
pub(crate) const YEAR: modifier::CalendarYearFullExtendedRange =
    modifier::CalendarYearFullExtendedRange {
        padding: Padding::Zero,
        sign_is_mandatory: false,
    };

/// The year of `Dated::StandardYearFirst`: four digits, with or without a sign.
pub(crate) const STANDARD_YEAR: modifier::CalendarYearFullStandardRange =
    modifier::CalendarYearFullStandardRange {
        padding: Padding::Zero,
        sign_is_mandatory: false,
    };

/// The number of a month: two digits.
pub(crate) const MONTH: modifier::MonthNumerical = modifier::MonthNumerical {
    padding: Padding::Zero,
};

/// The short English name of a month, in exactly the case of `Mar`.
pub(crate) const MONTH_NAME: modifier::MonthShort = modifier::MonthShort {
    case_sensitive: true,
};

/// The day of a date that has a year: two digits.
pub(crate) const DAY: modifier::Day = modifier::Day {
    padding: Padding::Zero,
};

/// The day after a month's name: two digits, or a space and a digit.
pub(crate) const SPACED_DAY: modifier::Day = modifier::Day {
    padding: Padding::Space,
};

/// The hour of a time of the 12-hour clock: one or two digits.
pub(crate) const HOUR_12: modifier::Hour12 = modifier::Hour12 {
    padding: Padding::None,
};

/// The hour of a time of the 24-hour clock: two digits.
pub(crate) const HOUR: modifier::Hour24 = modifier::Hour24 {
    padding: Padding::Zero,
};

/// The minute of a time: two digits.
pub(crate) const MINUTE: modifier::Minute = modifier::Minute {
    padding: Padding::Zero,
};

/// The second of a time: two digits.
pub(crate) const SECOND: modifier::Second = modifier::Second {
    padding: Padding::Zero,
};

/// The fraction of a second: one to 32 digits.
pub(crate) const SUBSECOND: modifier::Subsecond = modifier::Subsecond {
    digits: SubsecondDigits::OneOrMore,
};

/// The hour of an offset: a sign and two digits.
pub(crate) const OFFSET_HOUR: modifier::OffsetHour = modifier::OffsetHour {
    padding: Padding::Zero,
    sign_is_mandatory: true,
};

/// The minute of an offset: two digits without a sign.
pub(crate) const OFFSET_MINUTE: modifier::OffsetMinute = modifier::OffsetMinute {
    padding: Padding::Zero,
};

// The steps of a year by this component, a month's number and a day, with this byte between them.
fn year_first_steps(year: Component, between: u8) -> [Step; 5]
    ensures { result ≡ year_first_parts year between }
{
    [
        Step::Component(year),
        Step::Literal(between),
        Step::Component(Component::MonthNumerical(MONTH)),
        Step::Literal(between),
        Step::Component(Component::Day(DAY)),
    ]
}

/// The steps of a year of four digits, or of a sign and four to six, a month's number and a day, with this byte between
/// them.
pub(crate) fn date_steps(between: u8) -> [Step; 5]
    ensures { result ≡ date_parts between }
{
    year_first_steps(Component::CalendarYearFullExtendedRange(YEAR), between)
}

/// The steps of a year of four digits, with or without a sign, a month's number and a day, with this byte between them.
pub(crate) fn standard_date_steps(between: u8) -> [Step; 5]
    ensures { result ≡ standard_date_parts between }
{
    year_first_steps(
        Component::CalendarYearFullStandardRange(STANDARD_YEAR),
        between,
    )
}

/// The steps of a day, the short name of a month and a year, with this byte between them.
pub(crate) fn day_first_steps(between: u8) -> [Step; 5]
    ensures { result ≡ day_first_parts between }
{
    [
        Step::Component(Component::Day(DAY)),
        Step::Literal(between),
        Step::Component(Component::MonthShort(MONTH_NAME)),
        Step::Literal(between),
        Step::Component(Component::CalendarYearFullExtendedRange(YEAR)),
    ]
}

/// The steps of an hour of the 24-hour clock, a minute and a second, with this byte between them.
pub(crate) fn time_steps(between: u8) -> [Step; 5]
    ensures { result ≡ time_parts between }
{
    [
        Step::Component(Component::Hour24(HOUR)),
        Step::Literal(between),
        Step::Component(Component::Minute(MINUTE)),
        Step::Literal(between),
        Step::Component(Component::Second(SECOND)),
    ]
}

/// The steps of an offset's hour with its sign, and its minute directly after it.
pub(crate) fn offset_steps() -> [Step; 2]
    ensures { result ≡ offset_parts None }
{
    [
        Step::Component(Component::OffsetHour(OFFSET_HOUR)),
        Step::Component(Component::OffsetMinute(OFFSET_MINUTE)),
    ]
}

/// The steps of an offset's hour with its sign, this byte, and the offset's minute.
pub(crate) fn parted_steps(between: u8) -> [Step; 3]
    ensures { result ≡ offset_parts (Some between) }
{
    [
        Step::Component(Component::OffsetHour(OFFSET_HOUR)),
        Step::Literal(between),
        Step::Component(Component::OffsetMinute(OFFSET_MINUTE)),
    ]
}

/// `true` only if both slices are equal. `false` also for equal slices with a step for which `is_same` is `false`.
pub(crate) fn are_same(steps: &[Step], others: &[Step]) -> bool
    ensures { IsTrue result → steps.now ≡ others.now }
{
    let [other, others_behind @ ..] = others else {
        return steps.is_empty();
    };
    match steps {
        [step, behind @ ..] if is_same(step, other) => are_same(behind, others_behind),
        _ => false,
    }
}

/// `true` only if both steps are equal. `false` also for equal steps that are `Step::More`, or a component of a variant
/// that no form has.
pub(crate) fn is_same(step: &Step, part: &Step) -> bool
    ensures { IsTrue result → step.now ≡ part.now }
{
    match step {
        Step::Literal(byte) => match part {
            Step::Literal(other) => *byte == *other,
            _ => false,
        },
        Step::Component(component) => match part {
            Step::Component(other) => is_same_component(component, other),
            _ => false,
        },
        Step::Group(group, len) => match part {
            Step::Group(other, other_len) => *group == *other && *len == *other_len,
            _ => false,
        },
        _ => false,
    }
}

// Whether the component is of that variant, with equal modifiers.
macro_rules! is_variant {
    ($component:expr, $variant:ident, $modifiers:expr) => {
        match $component {
            Component::$variant(own) => *own == *$modifiers,
            _ => false,
        }
    };
}

// `true` only if both components are equal. `false` also for two equal components of a variant that is not listed.
fn is_same_component(component: &Component, other: &Component) -> bool
    ensures { IsTrue result → component.now ≡ other.now }
{
    match other {
        Component::CalendarYearFullExtendedRange(year) => {
            is_variant!(component, CalendarYearFullExtendedRange, year)
        }
        Component::CalendarYearFullStandardRange(year) => {
            is_variant!(component, CalendarYearFullStandardRange, year)
        }
        Component::MonthNumerical(month) => is_variant!(component, MonthNumerical, month),
        Component::MonthShort(month) => is_variant!(component, MonthShort, month),
        Component::Day(day) => is_variant!(component, Day, day),
        Component::Hour12(hour) => is_variant!(component, Hour12, hour),
        Component::Hour24(hour) => is_variant!(component, Hour24, hour),
        Component::Minute(minute) => is_variant!(component, Minute, minute),
        Component::Period(period) => is_variant!(component, Period, period),
        Component::Second(second) => is_variant!(component, Second, second),
        Component::Subsecond(fraction) => is_variant!(component, Subsecond, fraction),
        Component::OffsetHour(hour) => is_variant!(component, OffsetHour, hour),
        Component::OffsetMinute(minute) => is_variant!(component, OffsetMinute, minute),
        _ => false,
    }
}
