//! Fast paths for stored descriptions: whole texts of one form, parsed without a record, and the commonest steps,
//! parsed in place without a call.
ghost use Rattle.std.specs.Prelude.{◌≡◌, [], ◌∷◌, IfSome, Ok, false, map};
ghost use Rattle.time_values.specs.Calendar.{greatest_year};
ghost use Rattle.time_components.specs.Tree.{further, steps_after, steps_shape, steps_trees, tree_at, literal};
ghost use Rattle.time_components.specs.Tree as tree;
ghost use Rattle.time_record.specs.Reading.{Reads, Refuses};
ghost use Rattle.time_record.specs.Record.{Record, empty};
ghost use Rattle.time_record.specs.Resolution.{IsDated, IsMoment, IsPlain, IsTimed};
ghost use Rattle.time_record.specs.WalkSteps.{IsLeaf, MayRead};
ghost use Rattle.time_parsing.specs.Outcome.{IsOutcome};
ghost use Rattle.pelzaune_ffi.specs.Described as spec;

mod forms;

use crate::steps::{StoredStep, step_of};
use time_components::component::{
    parse_day, parse_hour_24, parse_minute, parse_month_numerical, parse_second,
};
use time_components::{Component, Step};
use time_preparing::whole::Whole;
use time_preparing::whole::fast::values;
use time_record::Parsed;
use time_values::{Date, OffsetDateTime, PlainDateTime, Time};

/// The date of a whole text by these steps. `None`: the fast path doesn't apply to the steps or the text, as to a date
/// that doesn't exist.
#[inline(always)]
pub(super) fn date(steps: &[StoredStep], input: &[u8]) -> Option<Date>
    ensures { IfSome result (λ v. IsOutcome (IsDated greatest_year) (Reads greatest_year (steps_shape (map spec.step_of steps.now)))
        (Refuses greatest_year (steps_shape (map spec.step_of steps.now))) input.now empty (Ok v)) }
{
    let form = Whole::Date(forms::dated(steps)?);
    values::date(&form, input)
}

/// The time of a whole text by these steps. `None`: the fast path doesn't apply to the steps or the text, as to a
/// second of 60.
#[inline(always)]
pub(super) fn time(steps: &[StoredStep], input: &[u8]) -> Option<Time>
    ensures { IfSome result (λ v. IsOutcome IsTimed (Reads greatest_year (steps_shape (map spec.step_of steps.now)))
        (Refuses greatest_year (steps_shape (map spec.step_of steps.now))) input.now empty (Ok v)) }
{
    let form = Whole::Time(forms::timed(steps)?);
    values::time(&form, input)
}

/// The date and time of a whole text by these steps. `None`: the fast path doesn't apply to the steps or the text, as
/// to a date that doesn't exist or a second of 60.
#[inline(always)]
pub(super) fn date_time(steps: &[StoredStep], input: &[u8]) -> Option<PlainDateTime>
    ensures { IfSome result (λ v. IsOutcome (IsPlain greatest_year) (Reads greatest_year (steps_shape (map spec.step_of steps.now)))
        (Refuses greatest_year (steps_shape (map spec.step_of steps.now))) input.now empty (Ok v)) }
{
    let form = forms::date_time(steps)?;
    values::date_time(&form, input)
}

/// The moment of a whole text by these steps. `None`: the fast path doesn't apply to the steps or the text, as to a
/// date that doesn't exist or a second of 60.
#[inline(always)]
pub(super) fn moment(steps: &[StoredStep], input: &[u8]) -> Option<OffsetDateTime>
    ensures { IfSome result (λ v. IsOutcome (IsMoment greatest_year) (Reads greatest_year (steps_shape (map spec.step_of steps.now)))
        (Refuses greatest_year (steps_shape (map spec.step_of steps.now))) input.now empty (Ok v)) }
{
    let form = forms::moment(steps)?;
    values::moment(&form, input)
}

// Whether the first of these steps is a further byte of a literal. `false` if there are no steps.
#[inline(always)]
fn continues_literal(steps: &[StoredStep]) -> bool
    ensures { result ≡ false → further (map spec.step_of steps.now) ≡ [] }
{
    match steps {
        [first, ..] => matches!(step_of(*first), Step::More(_)),
        [] => false,
    }
}

// Parses a literal of one byte, and returns the bytes after it. `None`: the steps `behind` continue the literal, or the
// input doesn't start with the byte.
#[inline(always)]
fn only_byte<'a>(byte: u8, behind: &[StoredStep], input: &'a [u8]) -> Option<&'a [u8]>
    ensures read { (r : Record) → MayRead greatest_year (literal (byte ∷ further (map spec.step_of behind.now)))
        input.now r result r }
    ensures alone { IfSome result (λ _. further (map spec.step_of behind.now) ≡ []) }
{
    if continues_literal(behind) {
        return None;
    }
    match input {
        [found, rest @ ..] if *found == byte => Some(rest),
        _ => None,
    }
}

// Stores a parsed number in the record, and evaluates to `Some` with the unread input. If no number was parsed or it is
// out of range, returns `None` from the calling function, and the record is unchanged.
macro_rules! put {
    ($found:expr, $parsed:ident.$set:ident) => {{
        let found = $found?;
        $parsed.$set(found.1)?;
        Some(found.0)
    }};
}

// Parses an hour from 0 to 23, a minute, a second, a month's number or a day into the record, and returns the unread
// bytes. `None`: another component, no match or a number out of range, and the record is unchanged.
#[inline(always)]
fn read_common<'a>(component: Component, parsed: &mut Parsed, input: &'a [u8]) -> Option<&'a [u8]>
    ensures { MayRead greatest_year (tree.component false component) input.now parsed.old result parsed.new }
{
    match component {
        Component::Hour24(modifiers) => put!(parse_hour_24(input, modifiers), parsed.set_hour_24),
        Component::Minute(modifiers) => put!(parse_minute(input, modifiers), parsed.set_minute),
        Component::Second(modifiers) => put!(parse_second(input, modifiers), parsed.set_second),
        Component::MonthNumerical(modifiers) => put!(
            parse_month_numerical(input, modifiers),
            parsed.set_month
        ),
        Component::Day(modifiers) => put!(parse_day(input, modifiers), parsed.set_day),
        _ => None,
    }
}

// Parses any component into the record, and returns the unread bytes. `None`: no match or a value out of range, and the
// record is unchanged.
#[inline(always)]
fn read_component<'a>(
    component: Component,
    parsed: &mut Parsed,
    input: &'a [u8],
) -> Option<&'a [u8]>
    ensures { MayRead greatest_year (tree.component false component) input.now parsed.old result parsed.new }
{
    if let Some(rest) = read_common(component, parsed, input) {
        return Some(rest);
    }
    match parsed.parse_component(input, component) {
        Ok(rest) => Some(rest),
        Err(_) => None,
    }
}

// Parses a step that is a literal of one byte or a component into the record, and returns the unread bytes. `behind`
// are the steps after it. `None`: another step, no match or a value out of range, and the record is unchanged.
#[inline(always)]
pub(super) fn read_step<'a>(
    stored: &StoredStep,
    behind: &[StoredStep],
    parsed: &mut Parsed,
    input: &'a [u8],
) -> Option<&'a [u8]>
    ensures read { MayRead greatest_year
        (tree_at steps_trees (spec.step_of stored.now) (map spec.step_of behind.now)) input.now parsed.old result parsed.new }
    ensures leaf { IfSome result (λ _. IsLeaf (tree_at steps_trees (spec.step_of stored.now) (map spec.step_of behind.now))) }
    ensures alone { IfSome result (λ _. steps_after (spec.step_of stored.now) (map spec.step_of behind.now)
        ≡ map spec.step_of behind.now) }
{
    match step_of(*stored) {
        Step::Literal(byte) | Step::More(byte) => only_byte(byte, behind, input),
        Step::Component(component) => read_component(component, parsed, input),
        Step::Group(_, _) => None,
    }
}
