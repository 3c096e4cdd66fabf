//! Whole texts by a form that their description is known to have.
//!
//! Each function returns the value that the form's steps parse, or `None`. After `None` the steps may still parse the
//! text.
ghost use Rattle.std.specs.Prelude.{IfSome, Ok};
ghost use Rattle.time_components.specs.Tree.{steps_shape};
ghost use Rattle.time_record.specs.Reading.{Reads, Refuses};
ghost use Rattle.time_record.specs.Record.{empty};
ghost use Rattle.time_record.specs.Resolution.{IsDated, IsMoment, IsPlain, IsTimed};
ghost use Rattle.time_values.specs.Calendar.{greatest_year};
ghost use Rattle.time_parsing.specs.Outcome.{IsOutcome};
ghost use Rattle.time_preparing.specs.Whole.{whole_parts};

use super::Whole;
use time_values::{Date, OffsetDateTime, PlainDateTime, Time};

/// The date that the form's steps parse from the whole input. `None` if the form isn't [`Whole::Date`], or the input
/// isn't such a date of the calendar with a year of four digits and no sign. The steps may still parse that input.
#[inline(always)]
pub fn date(whole: &Whole, input: &[u8]) -> Option<Date>
    ensures { IfSome result (λ v. IsOutcome (IsDated greatest_year) (Reads greatest_year (steps_shape (whole_parts whole.now)))
        (Refuses greatest_year (steps_shape (whole_parts whole.now))) input.now empty (Ok v)) }
{
    super::date(whole, input)
}

/// The time that the form's steps parse from the whole input. `None` if the form isn't [`Whole::Time`] or
/// [`Whole::Half`], the input isn't such a time, its second is 60, its fraction has over nine digits, or the byte
/// before AM or PM could there begin a second or a fraction. The steps may still parse that input.
#[inline(always)]
pub fn time(whole: &Whole, input: &[u8]) -> Option<Time>
    ensures { IfSome result (λ v. IsOutcome IsTimed (Reads greatest_year (steps_shape (whole_parts whole.now)))
        (Refuses greatest_year (steps_shape (whole_parts whole.now))) input.now empty (Ok v)) }
{
    super::time(whole, input)
}

/// The date and time that the form's steps parse from the whole input. `None` if the form isn't [`Whole::Plain`], the
/// input isn't such a valid date and time with a year of four digits and no sign, or its second is 60. The steps may
/// still parse that input.
#[inline(always)]
pub fn date_time(whole: &Whole, input: &[u8]) -> Option<PlainDateTime>
    ensures { IfSome result (λ v. IsOutcome (IsPlain greatest_year) (Reads greatest_year (steps_shape (whole_parts whole.now)))
        (Refuses greatest_year (steps_shape (whole_parts whole.now))) input.now empty (Ok v)) }
{
    super::date_time(whole, input)
}

/// The date, time and offset that the form's steps parse from the whole input. `None` if the form isn't
/// [`Whole::Moment`], the input isn't such a valid date, time and offset with a year of four digits and no sign, or its
/// second is 60. The steps may still parse that input.
#[inline(always)]
pub fn moment(whole: &Whole, input: &[u8]) -> Option<OffsetDateTime>
    ensures { IfSome result (λ v. IsOutcome (IsMoment greatest_year) (Reads greatest_year (steps_shape (whole_parts whole.now)))
        (Refuses greatest_year (steps_shape (whole_parts whole.now))) input.now empty (Ok v)) }
{
    super::moment(whole, input)
}
