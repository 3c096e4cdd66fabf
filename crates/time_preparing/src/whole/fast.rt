//! Whole texts of a known form, parsed without a record.
//!
//! `whole` and `form` return the form of some steps. Each parser returns the value that the steps parse from the whole
//! text, or `None`. After `None` the steps may still parse the text.
ghost use Rattle.std.specs.Prelude.{◌≡◌, ◌≤◌, ◌∷◌, ◌++◌, ℕ, pos, IfSome, Ok};
ghost use Rattle.time_values.specs.Sign.{signed_by};
ghost use Rattle.time_values.specs.Calendar.{greatest_year};
ghost use Rattle.time_record.specs.Record.{Record};
ghost use Rattle.time_record.specs.Reading.{ReadsAll};
ghost use Rattle.time_record.specs.Resolution.{IsDated, IsMoment, IsPlain, IsTimed};
ghost use Rattle.time_preparing.specs.Forms.{byte_parts, dated_parts, offset_parts, time_parts, with_offset};
ghost use Rattle.time_preparing.specs.declared.forms.OffsetNumbers.{OffsetNumbers};
ghost use Rattle.time_preparing.specs.Walk.{leaves};
ghost use Rattle.time_preparing.specs.Whole.{dated, IsLed, IsOf, IsWholeSecond, Leads, ReadsWhole, timed, whole_parts};
ghost use Rattle.time_components.specs.declared.inspect.Step.TheVariants as step_;

mod halves;
pub(crate) mod in_year;
pub mod values;

use super::Whole;
use crate::forms::fast::{self, after, after_byte, clock, offset};
use crate::forms::{
    Dated, InMoment, are_same, date_steps, day_first_steps, offset_steps, parted_steps,
    standard_date_steps, time_steps,
};
use time_components::{Group, Step};
use time_values::{Date, OffsetDateTime, PlainDateTime, Time, UtcOffset};

// The fewest bytes of a date. Checking the length first saves each parser a check for the end.
const DATE_LEN: usize = 10;

// The fewest bytes of a time.
const TIME_LEN: usize = 8;

// The fewest bytes of an offset, without a byte between its hour and minute.
const OFFSET_LEN: usize = 5;

/// The form of the texts that these steps parse. If the steps are one group of alternatives that begins with a list, it
/// is the form of the texts that the list parses. `None`: none of the known forms.
pub(super) fn whole(steps: &[Step]) -> Option<Whole>
    ensures { IfSome result (λ whole. Leads whole steps.now) }
{
    match first_list(steps) {
        Some(list) => {
            let found = form(list)?;
            Some(found)
        }
        None => {
            let own = form(steps)?;
            Some(own)
        }
    }
}

// The steps in the first list, if all of the steps are one group of alternatives that begins with it, or else `None`.
fn first_list(steps: &[Step]) -> Option<&[Step]>
    ensures { IfSome result (λ list. IsLed list.now steps.now) }
{
    let [choice, items @ ..] = steps else {
        return None;
    };
    let [list, inside @ ..] = items else {
        return None;
    };
    let all = len_of(choice, Group::First)?;
    let len = len_of(list, Group::List)?;
    if all != items.len() || len > inside.len() {
        return None;
    }
    let (first, _) = inside.split_at(len);
    Some(first)
}

// How many steps the group step counts as its own, or `None` if the step isn't a group of the wanted kind.
fn len_of(step: &Step, wanted: Group) -> Option<usize>
    ensures { IfSome result (λ len. step.now ≡ step_.Group wanted len) }
{
    match step {
        Step::Group(group, len) if *group == wanted => Some(*len),
        _ => None,
    }
}

// The form of exactly these steps. `None`: none of the known forms.
fn form(steps: &[Step]) -> Option<Whole>
    ensures { IfSome result (λ whole. steps.now ≡ whole_parts whole) }
{
    if let Some(between) = time_form(steps) {
        return Some(Whole::Time(between));
    }
    if let Some(form) = halves::form(steps) {
        return Some(Whole::Half(form));
    }
    if let Some(form) = in_year::form(steps) {
        return Some(Whole::InYear(form));
    }
    if steps.len() < 5 {
        return None;
    }
    let (first, behind) = steps.split_at(5);
    let date = dated_form(first)?;
    let [step, others @ ..] = behind else {
        return Some(Whole::Date(date));
    };
    let Step::Literal(between) = step else {
        return None;
    };
    plain_form(date, *between, others)
}

// The form of a date, this byte, and these steps after the byte: a time, or a time and an offset. `None`: the steps
// aren't such ones.
fn plain_form(date: Dated, between: u8, steps: &[Step]) -> Option<Whole>
    ensures { IfSome result (λ whole. dated_parts date ++ step_.Literal between ∷ steps.now ≡ whole_parts whole) }
{
    if steps.len() < 5 {
        return None;
    }
    let (first, behind) = steps.split_at(5);
    let in_time = time_form(first)?;
    if behind.is_empty() {
        return Some(Whole::Plain(date, between, in_time));
    }
    let (before_offset, in_offset) = offset_form(behind)?;
    Some(Whole::Moment(InMoment {
        date,
        between,
        in_time,
        before_offset,
        in_offset,
    }))
}

// The byte before an offset, if there is one, and the byte between its hour and minute, if there is one. `None`: the
// steps aren't those of an offset.
fn offset_form(steps: &[Step]) -> Option<(Option<u8>, Option<u8>)>
    ensures { IfSome result (λ form. steps.now ≡ byte_parts form.0 ++ offset_parts form.1) }
{
    if let [Step::Literal(before), behind @ ..] = steps {
        let in_offset = parts_form(behind)?;
        return Some((Some(*before), in_offset));
    }
    let within = parts_form(steps)?;
    Some((None, within))
}

// The byte between the hour and minute of an offset, `Some(None)` if there is none. `None`: the steps aren't those of
// an offset.
fn parts_form(steps: &[Step]) -> Option<Option<u8>>
    ensures { IfSome result (λ between. steps.now ≡ offset_parts between) }
{
    match steps {
        [_, Step::Literal(between), _] if are_same(steps, &parted_steps(*between)) => {
            Some(Some(*between))
        }
        _ if are_same(steps, &offset_steps()) => Some(None),
        _ => None,
    }
}

// The form of a date with exactly these steps. `None`: the steps aren't those of a date.
fn dated_form(steps: &[Step]) -> Option<Dated>
    ensures { IfSome result (λ form. steps.now ≡ dated_parts form) }
{
    let [_, Step::Literal(between), ..] = steps else {
        return None;
    };
    if are_same(steps, &date_steps(*between)) {
        return Some(Dated::YearFirst(*between));
    }
    if are_same(steps, &standard_date_steps(*between)) {
        return Some(Dated::StandardYearFirst(*between));
    }
    if are_same(steps, &day_first_steps(*between)) {
        return Some(Dated::DayFirst(*between));
    }
    None
}

// The byte between the parts of a time. `None`: the steps aren't exactly those of a time.
fn time_form(steps: &[Step]) -> Option<u8>
    ensures { IfSome result (λ between. steps.now ≡ time_parts between) }
{
    match steps {
        [_, Step::Literal(between), ..] if are_same(steps, &time_steps(*between)) => {
            Some(*between)
        }
        _ => None,
    }
}

// A date of that form at the front of the input, with a year of four digits and no sign, and the rest. `None` if there
// is none, or if it is no date of the calendar.
#[inline(always)]
fn date_of<'a>(form: &Dated, input: &'a [u8]) -> Option<(Date, &'a [u8])>
    ensures { IfSome result (λ f. (r : Record) → ReadsAll greatest_year (leaves (dated_parts form.now))
        input.now r f.1.now (dated f.0 r)) }
{
    let (numbers, rest) = fast::date(form, input)?;
    match Date::from_calendar_date(numbers.year, numbers.month, numbers.day.get()) {
        Ok(date) => Some((date, rest)),
        Err(_) => None,
    }
}

// A time of day, `HH MM SS` with this byte for each space, at the front of the input, and the rest. `None` if there is
// none, or if its second is 60.
#[inline(always)]
fn time_of(between: u8, input: &[u8]) -> Option<(Time, &[u8])>
    ensures reads { IfSome result (λ f. (r : Record) → ReadsAll greatest_year (leaves (time_parts between))
        input.now r f.1.now (timed f.0 r)) }
    ensures whole { IfSome result (λ f. IsWholeSecond f.0) }
{
    let (numbers, rest) = clock(between, input)?;
    match Time::from_hms_nano(numbers.hour, numbers.minute, numbers.second, 0) {
        Ok(time) => Some((time, rest)),
        Err(_) => None,
    }
}

// The minute, or its negation if the offset's sign was a minus.
#[inline(always)]
fn signed(is_negative: bool, minute: i8) -> i8
    requires { (n : ℕ) × (n ≤ 59) × (minute ≡ pos n) }
    ensures { result ≡ signed_by is_negative minute }
{
    if is_negative { -minute } else { minute }
}

// An offset at the front, as `fast::offset` reads it (sign, hour, `between`, if any, minute), and the rest, or `None`.
#[inline(always)]
fn offset_of(between: Option<u8>, input: &[u8]) -> Option<(UtcOffset, &[u8])>
    ensures { IfSome result (λ f. (numbers : OffsetNumbers) × IsOf numbers f.0
        × ((r : Record) → ReadsAll greatest_year (leaves (offset_parts between)) input.now r f.1.now (with_offset numbers r))) }
{
    let (numbers, rest) = offset(between, input)?;
    let minute = signed(numbers.is_negative, numbers.minute);
    match UtcOffset::from_hms(numbers.hour, minute, 0) {
        Ok(offset) => Some((offset, rest)),
        Err(_) => None,
    }
}

/// The date of a whole text. `None` if the form isn't `Whole::Date`, or the text isn't such a date of the calendar with
/// a year of four digits and no sign.
#[inline(always)]
pub(crate) fn date(whole: &Whole, input: &[u8]) -> Option<Date>
    ensures { IfSome result (λ v. ReadsWhole whole.now input.now (λ r. IsDated greatest_year r (Ok v))) }
{
    let Whole::Date(form) = whole else {
        return None;
    };
    if input.len() < DATE_LEN {
        return None;
    }
    let (date, rest) = date_of(form, input)?;
    if !rest.is_empty() {
        return None;
    }
    Some(date)
}

/// The time of a whole text. `None` if the form isn't `Whole::Time` or `Whole::Half`, the text isn't such a time, its
/// second is 60, its fraction has over nine digits, or the byte before AM or PM could there begin a second or fraction.
#[inline(always)]
pub(crate) fn time(whole: &Whole, input: &[u8]) -> Option<Time>
    ensures { IfSome result (λ v. ReadsWhole whole.now input.now (λ r. IsTimed r (Ok v))) }
{
    let Whole::Time(between) = whole else {
        return halves::time(whole, input);
    };
    if input.len() < TIME_LEN {
        return None;
    }
    let (time, rest) = time_of(*between, input)?;
    if !rest.is_empty() {
        return None;
    }
    Some(time)
}

/// The date and time of a whole text. `None` if the form isn't `Whole::Plain`, the text isn't such a valid date and
/// time with a year of four digits and no sign, or its second is 60.
#[inline(always)]
pub(crate) fn date_time(whole: &Whole, input: &[u8]) -> Option<PlainDateTime>
    ensures { IfSome result (λ v. ReadsWhole whole.now input.now (λ r. IsPlain greatest_year r (Ok v))) }
{
    let Whole::Plain(form, between, in_time) = whole else {
        return None;
    };
    if input.len() < DATE_LEN + 1 + TIME_LEN {
        return None;
    }
    let (date, behind) = date_of(form, input)?;
    let (time, rest) = time_of(*in_time, after(behind, *between)?)?;
    if !rest.is_empty() {
        return None;
    }
    Some(PlainDateTime::new(date, time))
}

/// The date, time and offset of a whole text. `None` if the form isn't `Whole::Moment`, the text isn't such a valid
/// date, time and offset with a year of four digits and no sign, or its second is 60.
#[inline(always)]
pub(crate) fn moment(whole: &Whole, input: &[u8]) -> Option<OffsetDateTime>
    ensures { IfSome result (λ v. ReadsWhole whole.now input.now (λ r. IsMoment greatest_year r (Ok v))) }
{
    let Whole::Moment(form) = whole else {
        return None;
    };
    if input.len() < DATE_LEN + 1 + TIME_LEN + OFFSET_LEN {
        return None;
    }
    // The minute of the offset is parsed last, so its digits are checked first: without them, `None` is returned early.
    let [.., b'0'..=b'5', b'0'..=b'9'] = input else {
        return None;
    };
    let (date, behind) = date_of(&form.date, input)?;
    let (time, later) = time_of(form.in_time, after(behind, form.between)?)?;
    let (offset, rest) = offset_of(form.in_offset, after_byte(later, form.before_offset)?)?;
    if !rest.is_empty() {
        return None;
    }
    Some(OffsetDateTime::new_in_offset(date, time, offset))
}
