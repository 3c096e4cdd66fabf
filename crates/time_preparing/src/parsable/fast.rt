//! Whole texts by the known form of a prepared description, parsed as values without a record.
//!
//! Each function returns the value that a parse over a record with the defaults, or an empty one, would return, or
//! `None`. After `None` the text is parsed over that record, and may still be accepted.
ghost use Rattle.std.specs.Prelude.{IfSome, Ok};
ghost use Rattle.time_components.specs.Tree.{steps_shape};
ghost use Rattle.time_record.specs.Reading.{Reads, Refuses};
ghost use Rattle.time_record.specs.Record.{empty};
ghost use Rattle.time_record.specs.Resolution.{IsDated, IsMoment, IsPlain, IsTimed};
ghost use Rattle.time_values.specs.Calendar.{greatest_year};
ghost use Rattle.time_parsing.specs.Outcome.{begun, IsOutcome};

use crate::Prepared;
use crate::whole::fast::{self, in_year};
use time_record::Parsed;
use time_values::{Date, OffsetDateTime, PlainDateTime, Time};

/// The date of a whole text. `None`: the description's form isn't `Whole::Date`, or the text isn't such a date of the
/// calendar with a year of four digits and no sign.
#[inline(always)]
pub(super) fn date<const N: usize>(format: &Prepared<N>, input: &[u8]) -> Option<Date>
    ensures { IfSome result (λ v. IsOutcome (IsDated greatest_year) (Reads greatest_year (steps_shape format.now))
        (Refuses greatest_year (steps_shape format.now)) input.now empty (Ok v)) }
{
    fast::date(format.whole(), input)
}

/// The time of a whole text. `None`: the form isn't `Whole::Time` or `Whole::Half`, the text isn't such a time, its
/// second is 60, its fraction has over nine digits, or the byte before AM or PM could there begin a second or fraction.
#[inline(always)]
pub(super) fn time<const N: usize>(format: &Prepared<N>, input: &[u8]) -> Option<Time>
    ensures { IfSome result (λ v. IsOutcome IsTimed (Reads greatest_year (steps_shape format.now))
        (Refuses greatest_year (steps_shape format.now)) input.now empty (Ok v)) }
{
    fast::time(format.whole(), input)
}

/// The date and time of a whole text. The description's form must be `Whole::Plain` without defaults, and
/// `Whole::InYear` with defaults. The year of the defaults is then the date's year. `None`: another form, a text that
/// isn't such a valid date and time, a text of `Whole::Plain` whose year isn't four digits without a sign, a second of
/// 60, or defaults without a year, or with an ordinal or a fraction of a second.
#[inline(always)]
pub(super) fn date_time<const N: usize>(
    format: &Prepared<N>,
    input: &[u8],
    defaults: &Option<Parsed>,
) -> Option<PlainDateTime>
    ensures { IfSome result (λ v. IsOutcome (IsPlain greatest_year) (Reads greatest_year (steps_shape format.now))
        (Refuses greatest_year (steps_shape format.now)) input.now (begun defaults.now) (Ok v)) }
{
    let whole = format.whole();
    match defaults {
        Some(known) => in_year::date_time(whole, input, known),
        None => fast::date_time(whole, input),
    }
}

/// The date, time and offset of a whole text. `None`: the description's form isn't `Whole::Moment`, the text isn't such
/// a valid date, time and offset with a year of four digits and no sign, or its second is 60.
#[inline(always)]
pub(super) fn moment<const N: usize>(format: &Prepared<N>, input: &[u8]) -> Option<OffsetDateTime>
    ensures { IfSome result (λ v. IsOutcome (IsMoment greatest_year) (Reads greatest_year (steps_shape format.now))
        (Refuses greatest_year (steps_shape format.now)) input.now empty (Ok v)) }
{
    fast::moment(format.whole(), input)
}
