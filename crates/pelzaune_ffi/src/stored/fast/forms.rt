//! Recognizes stored descriptions whose texts have one form, by the numbers of their steps.
ghost use Rattle.std.specs.Prelude.{◌≡◌, ◌≤◌, ◌-◌, [], ◌∷◌, ◌++◌, None, IsTrue, IfSome, length, map};
ghost use Rattle.time_components.specs.declared.inspect.Step.TheVariants as step_;
ghost use Rattle.time_preparing.specs.Forms.{byte_parts, dated_parts, offset_parts, time_parts};
ghost use Rattle.time_preparing.specs.Whole.{whole_parts};
ghost use Rattle.pelzaune_ffi.specs.Described as spec;

use crate::steps::StoredStep;
use time_preparing::whole::{Dated, InMoment, Whole};

// A literal's first byte. This and the constants below are kinds of stored steps: their numbers in `StoredStep::kind`.
const LITERAL: u8 = 0;

// The number of `Component::Day` in `StoredStep::kind`.
const DAY: u8 = 5;

// The number of `Component::MonthShort` in `StoredStep::kind`.
const MONTH_SHORT: u8 = 6;

// The number of `Component::MonthNumerical` in `StoredStep::kind`.
const MONTH_NUMERICAL: u8 = 8;

// The number of `Component::CalendarYearFullExtendedRange` in `StoredStep::kind`.
const YEAR: u8 = 17;

// The number of `Component::CalendarYearFullStandardRange` in `StoredStep::kind`.
const STANDARD_YEAR: u8 = 18;

// The number of `Component::Hour24` in `StoredStep::kind`.
const HOUR: u8 = 28;

// The number of `Component::Minute` in `StoredStep::kind`.
const MINUTE: u8 = 29;

// The number of `Component::Second` in `StoredStep::kind`.
const SECOND: u8 = 31;

// The number of `Component::OffsetHour` in `StoredStep::kind`.
const OFFSET_HOUR: u8 = 33;

// The number of `Component::OffsetMinute` in `StoredStep::kind`.
const OFFSET_MINUTE: u8 = 34;

/// The form of steps that are a date, a byte and a time. `None`: not recognized as one.
#[inline(always)]
pub(super) fn date_time(steps: &[StoredStep]) -> Option<Whole>
    ensures { IfSome result (λ whole. map spec.step_of steps.now ≡ whole_parts whole) }
{
    if steps.len() != 11 {
        return None;
    }
    let (date, between, behind) = front(steps)?;
    let in_time = timed(behind)?;
    Some(Whole::Plain(date, between, in_time))
}

/// The form of steps that are a date, a byte, a time, perhaps one more byte, and an offset. `None`: not recognized as
/// one.
#[inline(always)]
pub(super) fn moment(steps: &[StoredStep]) -> Option<Whole>
    ensures { IfSome result (λ whole. map spec.step_of steps.now ≡ whole_parts whole) }
{
    if steps.len() < 13 {
        return None;
    }
    let (date, between, behind) = front(steps)?;
    let (time, offset_steps) = behind.split_at(5);
    let in_time = timed(time)?;
    let (before_offset, in_offset) = offset(offset_steps)?;
    Some(Whole::Moment(InMoment {
        date,
        between,
        in_time,
        before_offset,
        in_offset,
    }))
}

// The form of the date in the first five of at least six steps, the byte of the sixth, and the later steps. `None`: the
// first five aren't a known form of a date, or the sixth isn't the first byte of a literal.
#[inline(always)]
fn front(steps: &[StoredStep]) -> Option<(Dated, u8, &[StoredStep])>
    requires { 6 ≤ length steps.now }
    ensures steps { IfSome result (λ f. map spec.step_of steps.now
        ≡ dated_parts f.0 ++ step_.Literal f.1 ∷ map spec.step_of f.2.now) }
    ensures len { IfSome result (λ f. length f.2.now ≡ length steps.now - 6) }
{
    let (first, later) = steps.split_at(5);
    let date = dated(first)?;
    let [gap, behind @ ..] = later else {
        return None;
    };
    let between = byte_of(gap)?;
    Some((date, between, behind))
}

/// The form of steps that are a date, with equal bytes between its three parts: a day, a month's short name and a year,
/// or a year, a month's number and a day. `None`: not recognized as one.
#[inline(always)]
pub(super) fn dated(steps: &[StoredStep]) -> Option<Dated>
    ensures { IfSome result (λ form. map spec.step_of steps.now ≡ dated_parts form) }
{
    let [first, gap, second, other_gap, third] = steps else {
        return None;
    };
    let between = one_byte(gap, other_gap)?;
    if is_padded(first, DAY) {
        if is_flagged(second, MONTH_SHORT, 1) && is_flagged(third, YEAR, 0) {
            return Some(Dated::DayFirst(between));
        }
        return None;
    }
    if !is_padded(second, MONTH_NUMERICAL) || !is_padded(third, DAY) {
        return None;
    }
    if is_flagged(first, YEAR, 0) {
        return Some(Dated::YearFirst(between));
    }
    if is_flagged(first, STANDARD_YEAR, 0) {
        return Some(Dated::StandardYearFirst(between));
    }
    None
}

/// The byte between the parts of steps that are an hour of the 24-hour clock, a minute and a second, padded with zeros.
/// `None`: not recognized as such steps with equal bytes.
#[inline(always)]
pub(super) fn timed(steps: &[StoredStep]) -> Option<u8>
    ensures { IfSome result (λ between. map spec.step_of steps.now ≡ time_parts between) }
{
    let [hour, gap, minute, other_gap, second] = steps else {
        return None;
    };
    if !is_padded(hour, HOUR) || !is_padded(minute, MINUTE) || !is_padded(second, SECOND) {
        return None;
    }
    let between = one_byte(gap, other_gap)?;
    Some(between)
}

// The byte before an offset, and the one between its hour and minute, each `None` if there is none. `None` as a whole:
// not recognized as an hour with a mandatory sign and a minute, padded with zeros, with at most these two bytes.
#[inline(always)]
fn offset(steps: &[StoredStep]) -> Option<(Option<u8>, Option<u8>)>
    ensures { IfSome result (λ form. map spec.step_of steps.now ≡ byte_parts form.0 ++ offset_parts form.1) }
{
    let [first, behind @ ..] = steps else {
        return None;
    };
    if let Some(before) = byte_of(first) {
        let in_offset = signed(behind)?;
        return Some((Some(before), in_offset));
    }
    let within = signed(steps)?;
    Some((None, within))
}

// The byte between the hour and the minute of an offset, or `Some(None)` if there is none. `None`: not recognized as an
// hour with a mandatory sign and a minute, padded with zeros, with at most one byte between them.
#[inline(always)]
fn signed(steps: &[StoredStep]) -> Option<Option<u8>>
    ensures { IfSome result (λ between. map spec.step_of steps.now ≡ offset_parts between) }
{
    match steps {
        [hour, minute] if is_offset(hour, minute) => Some(None),
        [hour, gap, minute] if is_offset(hour, minute) => {
            let between = byte_of(gap)?;
            Some(Some(between))
        }
        _ => None,
    }
}

// Whether the steps are an offset's hour with a mandatory sign (flag 1) and its minute, both with choice 0 (zeros).
#[inline(always)]
fn is_offset(hour: &StoredStep, minute: &StoredStep) -> bool
    ensures { IsTrue result → spec.step_of hour.now ∷ spec.step_of minute.now ∷ [] ≡ offset_parts None }
{
    is_flagged(hour, OFFSET_HOUR, 1) && is_padded(minute, OFFSET_MINUTE)
}

// The byte that two steps are, each the first byte of a literal (kind 0). `None`: another kind, or different bytes.
#[inline(always)]
fn one_byte(first: &StoredStep, second: &StoredStep) -> Option<u8>
    ensures first { IfSome result (λ byte. spec.step_of first.now ≡ step_.Literal byte) }
    ensures second { IfSome result (λ byte. spec.step_of second.now ≡ step_.Literal byte) }
{
    let byte = byte_of(first)?;
    let other = byte_of(second)?;
    if byte != other {
        return None;
    }
    Some(byte)
}

// The byte of a step that is the first byte of a literal (kind 0). `None`: a step of another kind.
#[inline(always)]
fn byte_of(step: &StoredStep) -> Option<u8>
    ensures { IfSome result (λ byte. spec.step_of step.now ≡ step_.Literal byte) }
{
    if step.kind != LITERAL {
        return None;
    }
    Some(step.choice)
}

// Whether a step has this kind, the choice 0 (padding with zeros, for a kind with a padding) and this flag.
#[inline(always)]
fn is_flagged(step: &StoredStep, kind: u8, flag: u8) -> bool
    ensures { IsTrue result → (step.now.kind ≡ kind) × (step.now.choice ≡ 0) × (step.now.flag ≡ flag) }
{
    is_padded(step, kind) && step.flag == flag
}

// Whether a step has this kind and the choice 0 (zeros, for a kind with a padding). One load reads both numbers.
#[inline(always)]
fn is_padded(step: &StoredStep, kind: u8) -> bool
    ensures { IsTrue result → (step.now.kind ≡ kind) × (step.now.choice ≡ 0) }
{
    u16::from_le_bytes([step.kind, step.choice]) == u16::from(kind)
}
