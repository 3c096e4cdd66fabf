//! Parses the components and literals that most lists consist of, without a call.
//!
//! Each function parses as the item's plain parser does, and stores the value that the plain parser stores. Or it
//! returns `None`: the item or its text is uncommon, nothing is parsed, and the plain parser decides.
ghost use Rattle.std.specs.Prelude.{false, true};
ghost use Rattle.time_values.specs.Calendar.{greatest_year};
ghost use Rattle.time_components.specs.Tree as tree;
ghost use Rattle.time_record.specs.Record.{Record};
ghost use Rattle.time_record.specs.WalkSteps.{MayAttempt};

use crate::Parsed;
use time_components::Component;
use time_components::component::fast;

/// Parses one of the commonest components, and stores its value. Returns `Some(Some(rest))`; `Some(None)` if the
/// component doesn't match or is out of range; or `None` if the fast path doesn't cover the component or its text. In
/// the last two cases the record is unchanged.
#[inline(always)]
pub(crate) fn component<'a>(
    parsed: &mut Parsed,
    input: &'a [u8],
    component: &Component,
) -> Option<Option<&'a [u8]>>
    ensures { MayAttempt greatest_year (tree.component false component.now) input.now parsed.old result parsed.new }
{
    match *component {
        Component::CalendarYearFullStandardRange(modifiers) => {
            let year = fast::year::<4>(input, modifiers.padding, modifiers.sign_is_mandatory)?;
            Some(parsed.store(input, modifiers, year))
        }
        Component::MonthNumerical(modifiers) => Some(parsed.read(input, modifiers)),
        Component::Day(modifiers) => Some(parsed.read(input, modifiers)),
        Component::Ordinal(modifiers) => {
            let ordinal = fast::ordinal(input, modifiers.padding)?;
            Some(parsed.store(input, modifiers, ordinal))
        }
        Component::Hour12(modifiers) => Some(parsed.read(input, modifiers)),
        Component::Hour24(modifiers) => Some(parsed.read(input, modifiers)),
        Component::Minute(modifiers) => Some(parsed.read(input, modifiers)),
        Component::Period(modifiers) => Some(parsed.read(input, modifiers)),
        Component::Second(modifiers) => Some(parsed.read(input, modifiers)),
        Component::Subsecond(modifiers) => {
            let subsecond = fast::subsecond(input, modifiers.digits)?;
            Some(parsed.store(input, modifiers, subsecond))
        }
        Component::OffsetHour(modifiers) => {
            let hour = fast::offset_hour(input, modifiers.padding, modifiers.sign_is_mandatory)?;
            Some(parsed.store(input, modifiers, hour))
        }
        Component::OffsetMinute(modifiers) => Some(parsed.read(input, modifiers)),
        Component::CalendarYearFullExtendedRange(modifiers) => {
            let year = fast::year::<6>(input, modifiers.padding, modifiers.sign_is_mandatory)?;
            Some(parsed.store(input, modifiers, year))
        }
        _ => None,
    }
}

/// Parses one of the commonest components of a description where an `Ignore` has to end between characters. Returns
/// `Some(Some(rest))`; `Some(None)` if the component doesn't match or is out of range; or `None` if the fast path
/// doesn't cover the component (such as an `Ignore`) or its text. In the last two cases the record is unchanged.
#[inline(always)]
pub(crate) fn whole_component<'a>(
    parsed: &mut Parsed,
    input: &'a [u8],
    whole: &Component,
) -> Option<Option<&'a [u8]>>
    ensures { MayAttempt greatest_year (tree.component true whole.now) input.now parsed.old result parsed.new }
{
    match *whole {
        Component::Ignore(_) => None,
        _ => component(parsed, input, whole),
    }
}

/// Parses a literal of one byte. Returns `Some(Some(rest))`; `Some(None)` if the input doesn't begin with that byte; or
/// `None` if the literal has no byte or several.
#[inline(always)]
pub(crate) fn literal<'a>(input: &'a [u8], literal: &[u8]) -> Option<Option<&'a [u8]>>
    ensures { (r : Record) → MayAttempt greatest_year (tree.literal literal.now) input.now r result r }
{
    let [byte] = literal else {
        return None;
    };
    Some(Parsed::read_byte(input, *byte))
}
