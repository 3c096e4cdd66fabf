//! Parsers of joined steps.
//!
//! Each stores in the record the values that the steps would store, and returns the unread rest. `None`: the input
//! isn't in the commonest form, or a value is out of range. Then the record is unchanged, and the steps, parsed one by
//! one, may still match.
ghost use Rattle.std.specs.Prelude.{◌≡◌, ◌<◌, ◌≤◌, IfSome, ◌∷◌, ℕ, List, false, Some, None};
ghost use Rattle.time_values.specs.Calendar.{greatest_year};
ghost use Rattle.time_components.specs.Tree.{component as component_tree, more, none as none_};
ghost use Rattle.time_components.specs.declared.format_description.Component.TheVariants as components;
ghost use Rattle.time_record.specs.Components.{is_pm as is_pm_};
ghost use Rattle.time_record.specs.Record.{Record};
ghost use Rattle.time_record.specs.Reading.{Reads};
ghost use Rattle.time_record.specs.WalkSteps.{MayRead};
ghost use Rattle.time_preparing.specs.Forms.{with_second, with_subsecond};
ghost use Rattle.time_preparing.specs.Walk.{fraction_tree, MayReadAll, seconds_tree};

use crate::forms::fast;
use std::num::NonZero;
use time_components::component::fast::ordinal as three_digits;
use time_components::component::parse_period;
use time_components::{Component, Period, modifier};
use time_record::Parsed;

// Reads a component and stores its value. The commonest components are parsed inline. Returns the rest. `None`, without
// a change: the text doesn't match, its value is out of range, or it is a less common text of a commonest component.
#[inline(always)]
pub(super) fn component<'a>(
    parsed: &mut Parsed,
    input: &'a [u8],
    component: &Component,
) -> Option<&'a [u8]>
    ensures { MayRead greatest_year (component_tree false component.now) input.now parsed.old result parsed.new }
{
    match *component {
        Component::CalendarYearFullExtendedRange(modifiers) => year(parsed, input, modifiers),
        Component::MonthNumerical(modifiers) => month(parsed, input, modifiers),
        Component::MonthShort(modifiers) => month_name(parsed, input, modifiers),
        Component::Day(modifiers) => day(parsed, input, modifiers),
        Component::Hour12(modifiers) => hour_12(parsed, input, modifiers),
        Component::Hour24(modifiers) => hour_24(parsed, input, modifiers),
        Component::Minute(modifiers) => minute(parsed, input, modifiers),
        Component::Period(modifiers) => period(parsed, input, modifiers),
        Component::Second(modifiers) => second(parsed, input, modifiers),
        Component::OffsetMinute(modifiers) => offset_minute(parsed, input, modifiers),
        Component::CalendarYearFullStandardRange(modifiers) => {
            standard_year(parsed, input, modifiers)
        }
        Component::Ordinal(modifiers) => ordinal(parsed, input, modifiers),
        _ => parsed.parse_component(input, *component).ok(),
    }
}

// Reads the first four digits as a year, whatever the padding, and stores it. Returns the rest, with any fifth digit.
// `None`, without a change, for an input that begins otherwise, as with a sign, or if the sign is mandatory.
#[inline(always)]
pub(super) fn year<'a>(
    parsed: &mut Parsed,
    input: &'a [u8],
    modifiers: modifier::CalendarYearFullExtendedRange,
) -> Option<&'a [u8]>
    ensures { MayRead greatest_year (component_tree false (components.CalendarYearFullExtendedRange modifiers))
        input.now parsed.old result parsed.new }
{
    let found = fast::year(input, modifiers)?;
    parsed.set_year(found.1)?;
    Some(found.0)
}

// Reads a year exactly as `year` does, with any fifth digit in the rest, for a component of at most four digits.
#[inline(always)]
fn standard_year<'a>(
    parsed: &mut Parsed,
    input: &'a [u8],
    modifiers: modifier::CalendarYearFullStandardRange,
) -> Option<&'a [u8]>
    ensures { MayRead greatest_year (component_tree false (components.CalendarYearFullStandardRange modifiers))
        input.now parsed.old result parsed.new }
{
    let in_either_range = modifier::CalendarYearFullExtendedRange {
        padding: modifiers.padding,
        sign_is_mandatory: modifiers.sign_is_mandatory,
    };
    let found = fast::year(input, in_either_range)?;
    parsed.set_year(found.1)?;
    Some(found.0)
}

// Reads a day of the year of three digits, 1 to 366, whatever the padding, and stores it. Returns the rest, or `None`
// without a change.
#[inline(always)]
fn ordinal<'a>(
    parsed: &mut Parsed,
    input: &'a [u8],
    modifiers: modifier::Ordinal,
) -> Option<&'a [u8]>
    ensures { MayRead greatest_year (component_tree false (components.Ordinal modifiers))
        input.now parsed.old result parsed.new }
{
    let found = three_digits(input, modifiers.padding)?;
    parsed.set_ordinal(found.1)?;
    Some(found.0)
}

// Reads the first three letters of a month's English name, a capital and two small ones, whatever the modifiers, and
// stores the month. Returns the rest, or `None` without a change.
#[inline(always)]
pub(super) fn month_name<'a>(
    parsed: &mut Parsed,
    input: &'a [u8],
    modifiers: modifier::MonthShort,
) -> Option<&'a [u8]>
    ensures { MayRead greatest_year (component_tree false (components.MonthShort modifiers))
        input.now parsed.old result parsed.new }
{
    let found = fast::month_name(input, modifiers)?;
    parsed.set_month(found.1)?;
    Some(found.0)
}

// Reads an hour of the 12-hour clock, 1 to 12, with this padding, and stores it. Returns the rest, or `None` without a
// change.
#[inline(always)]
fn hour_12<'a>(
    parsed: &mut Parsed,
    input: &'a [u8],
    modifiers: modifier::Hour12,
) -> Option<&'a [u8]>
    ensures { MayRead greatest_year (component_tree false (components.Hour12 modifiers))
        input.now parsed.old result parsed.new }
{
    let found = fast::two_places(input, modifiers.padding)?;
    parsed.set_hour_12(NonZero::<u8>::new(found.1)?)?;
    Some(found.0)
}

// Reads AM or PM in a case that the modifiers accept, and stores whether it is PM. Returns the rest, or `None` without
// a change.
#[inline(always)]
fn period<'a>(parsed: &mut Parsed, input: &'a [u8], modifiers: modifier::Period) -> Option<&'a [u8]>
    ensures { MayRead greatest_year (component_tree false (components.Period modifiers))
        input.now parsed.old result parsed.new }
{
    let found = parse_period(input, modifiers)?;
    parsed.set_hour_12_is_pm(is_pm(found.1))?;
    Some(found.0)
}

// `true` for PM, `false` for AM.
#[inline(always)]
fn is_pm(period: Period) -> bool
    ensures { result ≡ is_pm_ period }
{
    match period {
        Period::Am => false,
        Period::Pm => true,
    }
}

// Reads a month's number, 1 to 12, with this padding, and stores the month. Returns the rest, or `None` without a
// change.
#[inline(always)]
pub(super) fn month<'a>(
    parsed: &mut Parsed,
    input: &'a [u8],
    modifiers: modifier::MonthNumerical,
) -> Option<&'a [u8]>
    ensures { MayRead greatest_year (component_tree false (components.MonthNumerical modifiers))
        input.now parsed.old result parsed.new }
{
    let found = fast::month_number(input, modifiers)?;
    parsed.set_month(found.1)?;
    Some(found.0)
}

// Reads a day of the month, 1 to 31, with this padding, and stores it. Returns the rest, or `None` without a change.
#[inline(always)]
pub(super) fn day<'a>(
    parsed: &mut Parsed,
    input: &'a [u8],
    modifiers: modifier::Day,
) -> Option<&'a [u8]>
    ensures { MayRead greatest_year (component_tree false (components.Day modifiers))
        input.now parsed.old result parsed.new }
{
    let found = fast::day(input, modifiers)?;
    parsed.set_day(found.1)?;
    Some(found.0)
}

// Reads an hour of the 24-hour clock, 0 to 23, with this padding, and stores it. Returns the rest, or `None` without a
// change.
#[inline(always)]
pub(super) fn hour_24<'a>(
    parsed: &mut Parsed,
    input: &'a [u8],
    modifiers: modifier::Hour24,
) -> Option<&'a [u8]>
    ensures { MayRead greatest_year (component_tree false (components.Hour24 modifiers))
        input.now parsed.old result parsed.new }
{
    let found = fast::two_places(input, modifiers.padding)?;
    parsed.set_hour_24(found.1)?;
    Some(found.0)
}

// Reads a minute, 0 to 59, with this padding, and stores it. Returns the rest, or `None` without a change.
#[inline(always)]
pub(super) fn minute<'a>(
    parsed: &mut Parsed,
    input: &'a [u8],
    modifiers: modifier::Minute,
) -> Option<&'a [u8]>
    ensures { MayRead greatest_year (component_tree false (components.Minute modifiers))
        input.now parsed.old result parsed.new }
{
    let found = fast::two_places(input, modifiers.padding)?;
    parsed.set_minute(found.1)?;
    Some(found.0)
}

// Reads a second, 0 to 60, with this padding, and stores it. Returns the rest, or `None` without a change.
#[inline(always)]
pub(super) fn second<'a>(
    parsed: &mut Parsed,
    input: &'a [u8],
    modifiers: modifier::Second,
) -> Option<&'a [u8]>
    ensures { MayRead greatest_year (component_tree false (components.Second modifiers))
        input.now parsed.old result parsed.new }
{
    let found = fast::two_places(input, modifiers.padding)?;
    parsed.set_second(found.1)?;
    Some(found.0)
}

// Reads the minute of an offset, 0 to 59 without a sign, with this padding, and stores it. Returns the rest, or `None`
// without a change.
#[inline(always)]
fn offset_minute<'a>(
    parsed: &mut Parsed,
    input: &'a [u8],
    modifiers: modifier::OffsetMinute,
) -> Option<&'a [u8]>
    ensures { MayRead greatest_year (component_tree false (components.OffsetMinute modifiers))
        input.now parsed.old result parsed.new }
{
    let found = fast::offset_minute(input, modifiers)?;
    parsed.set_offset_minute_signed(found.1)?;
    Some(found.0)
}

// Stores the nanoseconds of the second, if there are any.
#[inline(always)]
fn put_fraction(parsed: &mut Parsed, fraction: Option<u32>)
    requires { IfSome fraction (λ n. n ≤ 999_999_999) }
    ensures { parsed.new ≡ with_subsecond fraction parsed.old }
{
    if let Some(nanoseconds) = fraction {
        parsed.set_subsecond(nanoseconds);
    }
}

// Stores the second, if there is one, and its nanoseconds, if it has any.
#[inline(always)]
fn put_second(parsed: &mut Parsed, second: Option<(u8, Option<u32>)>)
    requires { IfSome second (λ s. (s.0 ≤ 60) × IfSome s.1 (λ n. n ≤ 999_999_999)) }
    ensures { parsed.new ≡ with_second second parsed.old }
{
    if let Some((number, fraction)) = second {
        parsed.set_second(number);
        put_fraction(parsed, fraction);
    }
}

// Reads an optional fraction of one to nine digits after the byte `point`, and stores its nanoseconds. Without that
// byte the rest is the input, and nothing is stored. `None`, without a change, if no digit or more than nine follow it.
#[inline(always)]
pub(super) fn fraction<'a>(parsed: &mut Parsed, input: &'a [u8], point: u8) -> Option<&'a [u8]>
    ensures { MayReadAll (more (fraction_tree point) none_) input.now parsed.old result parsed.new }
{
    let found = fast::fraction(input, point)?;
    put_fraction(parsed, found.0);
    Some(found.1)
}

// Reads an optional second after the byte `between`, with an optional fraction after `point`, and stores them. Without
// the byte `between` the rest is the input, and nothing is stored. `None`, without a change, if no second of two
// digits, 0 to 60, follows it, or if no digit or more than nine follow `point`.
#[inline(always)]
pub(super) fn seconds<'a>(
    parsed: &mut Parsed,
    input: &'a [u8],
    between: u8,
    point: u8,
) -> Option<&'a [u8]>
    ensures { MayReadAll (more (seconds_tree between point) none_)
        input.now parsed.old result parsed.new }
{
    let found = fast::second(input, between, point)?;
    put_second(parsed, found.0);
    Some(found.1)
}
