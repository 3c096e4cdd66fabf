//! Times of the 12-hour clock, with an optional second and fraction.
ghost use Rattle.std.specs.Prelude.{◌≡◌, IfSome, Ok, Some};
ghost use Rattle.time_values.specs.Calendar.{greatest_year};
ghost use Rattle.time_record.specs.Components.{is_pm};
ghost use Rattle.time_record.specs.Record.{Record, empty};
ghost use Rattle.time_record.specs.Reading.{ReadsAll};
ghost use Rattle.time_record.specs.Resolution.{hour_of_half, IsTimed};
ghost use Rattle.time_preparing.specs.Forms.{with_half};
ghost use Rattle.time_preparing.specs.declared.whole.Whole.TheVariants as whole_;
ghost use Rattle.time_preparing.specs.Whole.{clock_second, half_parts, half_trees, ReadsWhole};

use crate::forms::fast::{after, second, two_places};
use crate::forms::{HOUR_12, HalfNumbers, InHalf, MINUTE, SECOND, SUBSECOND, are_same};
use crate::whole::Whole;
use time_components::component::parse_period;
use time_components::{Component, Group, Padding, Period, Step};
use time_values::Time;

// The steps of the form: an hour, a minute, an optional second and fraction, and AM or PM.
fn steps_of(form: &InHalf) -> [Step; 11]
    ensures { result ≡ half_parts form.now }
{
    [
        Step::Component(Component::Hour12(HOUR_12)),
        Step::Literal(form.in_time),
        Step::Component(Component::Minute(MINUTE)),
        Step::Group(Group::Optional, 5),
        Step::Literal(form.before_second),
        Step::Component(Component::Second(SECOND)),
        Step::Group(Group::Optional, 2),
        Step::Literal(form.point),
        Step::Component(Component::Subsecond(SUBSECOND)),
        Step::Literal(form.before_half),
        Step::Component(Component::Period(form.half)),
    ]
}

/// The form of exactly these steps. `None`: they aren't those of such a time of the 12-hour clock.
pub(super) fn form(steps: &[Step]) -> Option<InHalf>
    ensures { IfSome result (λ form. steps.now ≡ half_parts form) }
{
    let [
        _,
        Step::Literal(in_time),
        _,
        _,
        Step::Literal(before_second),
        _,
        _,
        Step::Literal(point),
        _,
        Step::Literal(before_half),
        Step::Component(Component::Period(half)),
    ] = steps
    else {
        return None;
    };
    let form = InHalf {
        in_time: *in_time,
        before_second: *before_second,
        point: *point,
        before_half: *before_half,
        half: *half,
    };
    if are_same(steps, &steps_of(&form)) {
        Some(form)
    } else {
        None
    }
}

// The numbers of a time of the form at the front, and the rest. A second may be 60. `None`: there is none, a number is
// out of range, the fraction has over nine digits, or the byte before AM or PM could there begin a second or fraction.
#[inline(always)]
fn numbers<'a>(form: &InHalf, input: &'a [u8]) -> Option<(HalfNumbers, &'a [u8])>
    ensures { IfSome result (λ f. (r : Record) → ReadsAll greatest_year (half_trees form.now)
        input.now r f.1.now (with_half f.0 r)) }
{
    let hour = two_places(input, Padding::None)?;
    let minute = two_places(after(hour.0, form.in_time)?, Padding::Zero)?;
    let second = second(minute.0, form.before_second, form.point)?;
    let half = parse_period(after(second.1, form.before_half)?, form.half)?;
    if hour.1 < 1 || hour.1 > 12 || minute.1 > 59 {
        return None;
    }
    let numbers = HalfNumbers {
        hour: hour.1,
        minute: minute.1,
        second: second.0,
        half: half.1,
    };
    Some((numbers, half.0))
}

// The hour of the day, 0 to 23, from an hour of the 12-hour clock, 1 to 12, and AM or PM. 12 AM is 0, and 12 PM is 12.
#[inline(always)]
fn hour_of(hour: u8, half: Period) -> u8
    ensures { Some result ≡ hour_of_half (Some hour) (Some (is_pm half)) }
{
    match half {
        Period::Am => hour % 12,
        Period::Pm => hour % 12 + 12,
    }
}

// The second and its nanosecond, each 0 if it is missing.
#[inline(always)]
fn second_and_nanosecond(second: Option<(u8, Option<u32>)>) -> (u8, u32)
    ensures { result ≡ clock_second second }
{
    match second {
        Some((second, fraction)) => (second, fraction.unwrap_or(0)),
        None => (0, 0),
    }
}

// The time of these numbers. `None` if its second is 60.
#[inline(always)]
#[tactic(auto, using(crate::proofs::Wholes::is_half))]
fn time_of(numbers: &HalfNumbers) -> Option<Time>
    ensures { IfSome result (λ t. IsTimed (with_half numbers.now empty) (Ok t)) }
{
    let (second, nanosecond) = second_and_nanosecond(numbers.second);
    let hour = hour_of(numbers.hour, numbers.half);
    match Time::from_hms_nano(hour, numbers.minute, second, nanosecond) {
        Ok(time) => Some(time),
        Err(_) => None,
    }
}

// The time of a whole text of the form, or `None` as in `time` below. Not inlined, so other times don't pay for it.
#[inline(never)]
fn whole(form: &InHalf, input: &[u8]) -> Option<Time>
    ensures { IfSome result (λ v. ReadsWhole (whole_.Half form.now) input.now (λ r. IsTimed r (Ok v))) }
{
    let (numbers, rest) = numbers(form, input)?;
    if !rest.is_empty() {
        return None;
    }
    let time = time_of(&numbers)?;
    Some(time)
}

/// The time of a whole text of the form. `None` if the form isn't `Whole::Half`, the text isn't such a time, its second
/// is 60, its fraction has over nine digits, or the byte before AM or PM could there begin a second or a fraction.
#[inline(always)]
pub(super) fn time(form: &Whole, input: &[u8]) -> Option<Time>
    ensures { IfSome result (λ v. ReadsWhole form.now input.now (λ r. IsTimed r (Ok v))) }
{
    match form {
        Whole::Half(form) => whole(form, input),
        _ => None,
    }
}
