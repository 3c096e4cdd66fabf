//! Joined steps: one to six steps of a description that are parsed together.
ghost use Rattle.std.specs.Prelude.{◌≡◌, [], IfSome, IsTrue, false};
ghost use Rattle.time_components.specs.Tree.{further};
ghost use Rattle.time_preparing.specs.Forms.{BeginsWith, fraction_parts, month_day_parts, BeginsWithParts, second_parts};

use crate::forms::{
    MONTH_NAME, SECOND, SPACED_DAY, SUBSECOND, are_same, date_steps, day_first_steps, time_steps,
};
use time_components::{Component, Group, Step};

/// Steps of a description, from some index on, that are parsed together. A `u8` is the byte of a literal.
#[derive(Clone, Copy, Debug, PartialEq, Eq)]
pub(crate) enum Joined {
    /// None: the step at this index is parsed on its own.
    Nothing,
    /// A literal of this one byte.
    Byte(u8),
    /// A component.
    Component(Component),
    /// A year of the extended range, a month's number and a day, with this byte between them.
    Date(u8),
    /// A day, the short name of a month and a year of the extended range, with this byte between them.
    DayFirst(u8),
    /// The short name of a month and a day, whose first digit may be a space, with this byte between them.
    MonthDay(u8),
    /// An hour up to 23, a minute and a second, with this byte between them.
    Time(u8),
    /// An optional group of this byte and a fraction of a second.
    Fraction(u8),
    /// An optional group of the first byte, a second, and an optional group of the other byte and a fraction.
    Seconds(u8, u8),
}

impl Default for Joined {
    ghost is_default = { λ joined. Unit {0} };

    #[inline(always)]
    fn default() -> Joined {
        Joined::Nothing
    }
}

// The steps of the short name of a month and a day, whose first digit may be a space, with this byte between them.
fn month_day_steps(between: u8) -> [Step; 3]
    ensures { result ≡ month_day_parts between }
{
    [
        Step::Component(Component::MonthShort(MONTH_NAME)),
        Step::Literal(between),
        Step::Component(Component::Day(SPACED_DAY)),
    ]
}

// The steps of an optional group of this byte and a fraction of a second.
fn fraction_steps(point: u8) -> [Step; 3]
    ensures { result ≡ fraction_parts point }
{
    [
        Step::Group(Group::Optional, 2),
        Step::Literal(point),
        Step::Component(Component::Subsecond(SUBSECOND)),
    ]
}

// The steps of an optional group of the byte `between`, a second, and an optional group of the byte `point` and a
// fraction.
fn second_steps(between: u8, point: u8) -> [Step; 6]
    ensures { result ≡ second_parts between point }
{
    [
        Step::Group(Group::Optional, 5),
        Step::Literal(between),
        Step::Component(Component::Second(SECOND)),
        Step::Group(Group::Optional, 2),
        Step::Literal(point),
        Step::Component(Component::Subsecond(SUBSECOND)),
    ]
}

// `true` only if the steps begin with `front`, and the next step, if there is one, is no `Step::More`. `false` also if
// `are_same` is `false` for equal steps.
fn begins(steps: &[Step], front: &[Step]) -> bool
    ensures { IsTrue result → BeginsWith front.now steps.now }
{
    if steps.len() < front.len() {
        return false;
    }
    let (first, behind) = steps.split_at(front.len());
    are_same(first, front) && !continues_literal(behind)
}

// Whether the first of these steps is a further byte (`Step::More`) of a literal before them.
fn continues_literal(steps: &[Step]) -> bool
    ensures { result ≡ false → further steps.now ≡ [] }
{
    match steps.first() {
        Some(Step::More(_)) => true,
        _ => false,
    }
}

/// The steps at the front of `steps` that are parsed together: those of a date with a year of the extended range, of a
/// month's name and a day, of a time, of an optional fraction, or of an optional second with an optional fraction; or
/// else one literal of one byte or one component. `Joined::Nothing`: `steps` is empty or begins with none of these, or
/// a `Step::More` directly follows them.
pub(crate) fn joined_at(steps: &[Step]) -> Joined
    ensures { BeginsWithParts result steps.now }
{
    match several_at(steps) {
        Some(joined) => joined,
        None => alone_at(steps),
    }
}

// Three, five or six joined steps at the front of `steps`, or `None` if these can't be joined or the second step isn't
// a literal's first byte. This is not a fast path, although the contract always allows `None`: it parses no text.
fn several_at(steps: &[Step]) -> Option<Joined>
    ensures { IfSome result (λ joined. BeginsWithParts joined steps.now) }
{
    let [_, Step::Literal(between), behind @ ..] = steps else {
        return None;
    };
    if let Some(joined) = three_at(steps, *between) {
        return Some(joined);
    }
    let [_, _, Step::Literal(point), ..] = behind else {
        return None;
    };
    if begins(steps, &second_steps(*between, *point)) {
        Some(Joined::Seconds(*between, *point))
    } else {
        None
    }
}

// Three or five joined steps at the front of `steps`, with a literal of this byte as the second: those of a date with a
// year of the extended range, of a month's name and a day, of a time or of an optional fraction. `None`: `steps` begins
// with none of these, or a `Step::More` directly follows them. This is not a fast path: it parses no text.
fn three_at(steps: &[Step], byte: u8) -> Option<Joined>
    ensures { IfSome result (λ joined. BeginsWithParts joined steps.now) }
{
    if begins(steps, &date_steps(byte)) {
        Some(Joined::Date(byte))
    } else if begins(steps, &day_first_steps(byte)) {
        Some(Joined::DayFirst(byte))
    } else if begins(steps, &month_day_steps(byte)) {
        Some(Joined::MonthDay(byte))
    } else if begins(steps, &time_steps(byte)) {
        Some(Joined::Time(byte))
    } else if begins(steps, &fraction_steps(byte)) {
        Some(Joined::Fraction(byte))
    } else {
        None
    }
}

// The literal of one byte, or the component, at the front of these steps. `Joined::Nothing` if they are empty, if they
// begin otherwise, or if a `Step::More` directly follows the literal or component.
fn alone_at(steps: &[Step]) -> Joined
    ensures { BeginsWithParts result steps.now }
{
    match steps {
        [Step::Literal(byte), behind @ ..] if !continues_literal(behind) => Joined::Byte(*byte),
        [Step::Component(component), behind @ ..] if !continues_literal(behind) => {
            Joined::Component(*component)
        }
        _ => Joined::Nothing,
    }
}
