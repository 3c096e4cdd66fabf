//! Known forms of whole texts, which are parsed directly as values.
ghost use Rattle.time_preparing.specs.Whole.{Leads};

pub mod fast;

pub use crate::forms::{Dated, InHalf, InMoment, InYear};
use time_components::Step;

/// A known form of whole texts, which are parsed directly as values, or `Nothing`. A `u8` is a byte between two parts.
#[derive(Clone, Copy, Debug, PartialEq, Eq)]
pub enum Whole {
    /// None of the known forms.
    Nothing,
    /// A date.
    Date(Dated),
    /// A time of the 24-hour clock: hour, minute and second, with this byte between them.
    Time(u8),
    /// A time of the 12-hour clock, with an optional second and fraction.
    Half(InHalf),
    /// A month's short name, a day and a time of the 24-hour clock, without a year.
    InYear(InYear),
    /// A date, the first byte, and a time of the 24-hour clock with the second byte between its parts.
    Plain(Dated, u8, u8),
    /// A date, a time of the 24-hour clock and an offset.
    Moment(InMoment),
}

/// The form of whole texts that these steps parse, or `Whole::Nothing` if it isn't known. If the steps are one group of
/// alternatives that begins with a list, it is the form of that list.
pub(crate) fn whole_of(steps: &[Step]) -> Whole
    ensures { Leads result steps.now }
{
    match fast::whole(steps) {
        Some(whole) => whole,
        None => Whole::Nothing,
    }
}
