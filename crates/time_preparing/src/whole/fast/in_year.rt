//! Whole texts of a date without a year, and a time. The year is that of a given record.
ghost use Rattle.std.specs.Prelude.{◌≡◌, FitsSigned, IfSome, Ok, Some, None};
ghost use Rattle.std.specs.Int.{w32};
ghost use Rattle.std.specs.Int.NonZero.{non_zero_u8_get};
ghost use Rattle.time_values.specs.Calendar.{greatest_year};
ghost use Rattle.time_values.specs.Dates as Dates;
ghost use Rattle.time_record.specs.Record.{Record};
ghost use Rattle.time_record.specs.Reading.{ReadsAll};
ghost use Rattle.time_record.specs.Resolution.{IsPlain};
ghost use Rattle.time_preparing.specs.Forms.{month_day_parts};
ghost use Rattle.time_preparing.specs.Walk.{leaves};
ghost use Rattle.time_preparing.specs.declared.whole.Whole.TheVariants as whole_;
ghost use Rattle.time_preparing.specs.Whole.{in_year, in_year_parts, ReadsOver};

use super::time_of;
use crate::forms::fast::{after, day, month_name};
use crate::forms::{HOUR, InYear, MINUTE, MONTH_NAME, SECOND, SPACED_DAY, are_same};
use crate::whole::Whole;
use std::num::NonZero;
use time_components::{Component, Step};
use time_record::Parsed;
use time_values::{Date, Month, PlainDateTime};

// How many bytes a text of the form has. Checking that first saves each parser a check for the end.
const LEN: usize = 15;

// The steps of the form: a month's short name, a day and a time.
fn steps_of(form: &InYear) -> [Step; 9]
    ensures { result ≡ in_year_parts form.now }
{
    [
        Step::Component(Component::MonthShort(MONTH_NAME)),
        Step::Literal(form.in_date),
        Step::Component(Component::Day(SPACED_DAY)),
        Step::Literal(form.between),
        Step::Component(Component::Hour24(HOUR)),
        Step::Literal(form.in_time),
        Step::Component(Component::Minute(MINUTE)),
        Step::Literal(form.in_time),
        Step::Component(Component::Second(SECOND)),
    ]
}

/// The form of exactly these steps. `None`: they aren't those of a month's short name, a day and a time.
pub(super) fn form(steps: &[Step]) -> Option<InYear>
    ensures { IfSome result (λ form. steps.now ≡ in_year_parts form) }
{
    let [
        _,
        Step::Literal(in_date),
        _,
        Step::Literal(between),
        _,
        Step::Literal(in_time),
        ..
    ] = steps
    else {
        return None;
    };
    let form = InYear {
        in_date: *in_date,
        between: *between,
        in_time: *in_time,
    };
    if are_same(steps, &steps_of(&form)) {
        Some(form)
    } else {
        None
    }
}

// The year of a record. `None` if it has no year, or if it has an ordinal, which would determine the date, or a
// fraction of a second.
#[inline(always)]
fn year_of(known: &Parsed) -> Option<i32>
    ensures year { IfSome result (λ year. known.now.year ≡ Some year) }
    ensures fits { IfSome result (λ year. FitsSigned w32 year) }
    ensures ordinal { IfSome result (λ _. known.now.ordinal ≡ None) }
    ensures subsecond { IfSome result (λ _. known.now.subsecond ≡ None) }
{
    if known.ordinal().is_some() || known.subsecond().is_some() {
        return None;
    }
    let year = known.year()?;
    Some(year)
}

// The month of a short name and the day, 1 to 31, at the front of the input, with this byte between them, and the rest
// after them. `None` if the input begins otherwise.
#[inline(always)]
fn month_and_day(between: u8, input: &[u8]) -> Option<((Month, NonZero<u8>), &[u8])>
    ensures { IfSome result (λ f. (r : Record) → ReadsAll greatest_year (leaves (month_day_parts between))
        input.now r f.1.now (record r { month = Some f.0.0; day = Some (non_zero_u8_get f.0.1) })) }
{
    let month = month_name(input, MONTH_NAME)?;
    let day = day(after(month.0, between)?, SPACED_DAY)?;
    if day.1.get() > 31 {
        return None;
    }
    Some(((month.1, day.1), day.0))
}

// A date of that year, whose month's short name and day, with this byte between them, are at the front of the input,
// and the rest. `None` if there is none, or if it is no date of the calendar.
#[inline(always)]
fn date_of(year: i32, between: u8, input: &[u8]) -> Option<(Date, &[u8])>
    ensures reads { IfSome result (λ f. (r : Record) → ReadsAll greatest_year (leaves (month_day_parts between))
        input.now r f.1.now (in_year f.0 r)) }
    ensures year { IfSome result (λ f. Dates.year f.0 ≡ year) }
{
    let (numbers, rest) = month_and_day(between, input)?;
    match Date::from_calendar_date(year, numbers.0, numbers.1.get()) {
        Ok(date) => Some((date, rest)),
        Err(_) => None,
    }
}

// The date and time of a whole text of the form, in the record's year, or `None` as in `date_time` below. It isn't
// inlined, so that other forms don't pay for it.
#[inline(never)]
fn whole(form: &InYear, input: &[u8], known: &Parsed) -> Option<PlainDateTime>
    ensures { IfSome result (λ v. ReadsOver (whole_.InYear form.now) input.now known.now
        (λ r. IsPlain greatest_year r (Ok v))) }
{
    if input.len() < LEN {
        return None;
    }
    let year = year_of(known)?;
    let (date, behind) = date_of(year, form.in_date, input)?;
    let (time, rest) = time_of(form.in_time, after(behind, form.between)?)?;
    if !rest.is_empty() {
        return None;
    }
    Some(PlainDateTime::new(date, time))
}

/// The date and time of a whole text of the form, in the year of the record. `None` if the form isn't `Whole::InYear`,
/// the text isn't such a valid date and time, its second is 60, or the record has no year, or has an ordinal or a
/// fraction of a second.
#[inline(always)]
pub(crate) fn date_time(form: &Whole, input: &[u8], known: &Parsed) -> Option<PlainDateTime>
    ensures { IfSome result (λ v. ReadsOver form.now input.now known.now (λ r. IsPlain greatest_year r (Ok v))) }
{
    match form {
        Whole::InYear(form) => whole(form, input, known),
        _ => None,
    }
}
