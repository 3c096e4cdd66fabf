//! Walks over the steps of a description, and reports why a moment has no text by it.
ghost use Rattle.std.specs.Prelude.{◌≡◌, ◌≤◌, ◌∷◌, ℕ, drop, false, length, IfOk, Some};
ghost use Rattle.time_values.specs.Calendar.{greatest_year};
ghost use Rattle.time_components.specs.Tree as steps_;
ghost use Rattle.time_components.specs.Tree.{steps_shape, tree_at, trees_in};
ghost use Rattle.time_formatting.specs.Steps.{Puts};
ghost use Rattle.time_formatting.specs.Texts.{array_bytes_of, first_after, joined, text_after, text_of, texts_after, unformattable_text};

use crate::component::component_text;
use arrayvec::ArrayVec;
use std::fmt;
use time_components::{Component, Group, Step};
use time_values::OffsetDateTime;

/// The text of a moment by the steps of a description, of at most `CAP` bytes. It contains all optional items, and the
/// first item of each choice.
///
/// The error is the first from the left in what is written: [`Unformattable::Year`] for a component of the standard
/// range whose year is outside -9999 to 9999, [`Unformattable::Ignore`] for an `ignore`, or [`Unformattable::TooLong`]
/// if the text would exceed `CAP` bytes.
pub fn format<const CAP: usize>(
    value: OffsetDateTime,
    steps: &[Step],
) -> Result<ArrayVec<u8, CAP>, Unformattable>
    ensures { array_bytes_of result ≡ text_of CAP greatest_year value (steps_shape steps.now) }
{
    let mut text = ArrayVec::new();
    write_steps(steps, &value, &mut text)?;
    Ok(text)
}

// Appends bytes, or returns `TooLong` and leaves the text unchanged if it would exceed `CAP` bytes.
fn put<const CAP: usize>(bytes: &[u8], text: &mut ArrayVec<u8, CAP>) -> Result<(), Unformattable>
    ensures { Puts (joined CAP text.old.items bytes.now) result text.new.items }
{
    match text.try_extend_from_slice(bytes) {
        Ok(()) => Ok(()),
        Err(_) => Err(Unformattable::TooLong),
    }
}

// Appends the text of a component. After an error, that of the component or `TooLong`, the text is unchanged.
fn put_component<const CAP: usize>(
    component: Component,
    value: &OffsetDateTime,
    text: &mut ArrayVec<u8, CAP>,
) -> Result<(), Unformattable>
    ensures { Puts (text_after CAP greatest_year value.now text.old.items (steps_.component false component)) result text.new.items }
{
    let written = component_text(value, component)?;
    put(written.as_bytes(), text)
}

// Appends the texts of all items in turn, up to the first error. After an error, the text keeps what was appended.
#[cycle(steps)]
fn write_steps<const CAP: usize>(
    steps: &[Step],
    value: &OffsetDateTime,
    text: &mut ArrayVec<u8, CAP>,
) -> Result<(), Unformattable>
    ensures { (n : ℕ) → length steps.now ≤ n →
        Puts (texts_after CAP greatest_year value.now text.old.items (trees_in n steps.now)) result text.new.items }
{
    let mut left = steps;
    while let [step, behind @ ..] = left {
        match write_item(step, behind, value, text) {
            Ok(after) => left = after,
            Err(why) => return Err(why),
        }
    }
    Ok(())
}

// Writes the item of `step` and of the steps in `behind` that belong to it, and returns the other steps of `behind`.
#[cycle(steps)]
fn write_item<'s, const CAP: usize>(
    step: &Step,
    behind: &'s [Step],
    value: &OffsetDateTime,
    text: &mut ArrayVec<u8, CAP>,
) -> Result<&'s [Step], Unformattable>
    ensures text { (n : ℕ) → length behind.now ≤ n → Puts (text_after CAP greatest_year value.now text.old.items
        (tree_at (trees_in n) step.now behind.now)) result text.new.items }
    ensures after { IfOk result (λ a. a.now ≡ steps_.steps_after step.now behind.now) }
    ensures fewer { IfOk result (λ a. length a.now ≤ length behind.now) }
{
    match *step {
        Step::Literal(first) | Step::More(first) => write_literal(first, behind, text),
        Step::Component(component) => {
            put_component(component, value, text)?;
            Ok(behind)
        }
        Step::Group(group, len) => {
            let (inside, after) = behind.split_at(len.min(behind.len()));
            write_group(group, inside, value, text)?;
            Ok(after)
        }
    }
}

// Writes a group of these steps: all items, also if the group is optional, or only the first item of a choice.
#[cycle(steps)]
fn write_group<const CAP: usize>(
    group: Group,
    inside: &[Step],
    value: &OffsetDateTime,
    text: &mut ArrayVec<u8, CAP>,
) -> Result<(), Unformattable>
    ensures { (n : ℕ) → length inside.now ≤ n → Puts (text_after CAP greatest_year value.now text.old.items
        (steps_.group_tree group (trees_in n inside.now))) result text.new.items }
{
    match group {
        Group::List | Group::Optional => write_steps(inside, value, text),
        Group::First => write_first(inside, value, text),
    }
}

// Writes the first item of the steps, if there is one, and ignores the others.
#[cycle(steps)]
fn write_first<const CAP: usize>(
    steps: &[Step],
    value: &OffsetDateTime,
    text: &mut ArrayVec<u8, CAP>,
) -> Result<(), Unformattable>
    ensures { (n : ℕ) → length steps.now ≤ n →
        Puts (first_after CAP greatest_year value.now text.old.items (trees_in n steps.now)) result text.new.items }
{
    let [step, behind @ ..] = steps else {
        return Ok(());
    };
    match write_item(step, behind, value, text) {
        Ok(_) => Ok(()),
        Err(why) => Err(why),
    }
}

// Writes a literal: the byte `first` and the bytes of the leading `More` steps. Returns the steps after those.
fn write_literal<'s, const CAP: usize>(
    first: u8,
    steps: &'s [Step],
    text: &mut ArrayVec<u8, CAP>,
) -> Result<&'s [Step], Unformattable>
    ensures text { Puts (joined CAP text.old.items (first ∷ steps_.further steps.now)) result text.new.items }
    ensures after { IfOk result (λ a. a.now ≡ drop (length (steps_.further steps.now)) steps.now) }
    ensures fewer { IfOk result (λ a. length a.now ≤ length steps.now) }
{
    put(&[first], text)?;
    let mut left = steps;
    while let [Step::More(byte), behind @ ..] = left {
        put(&[*byte], text)?;
        left = behind;
    }
    Ok(left)
}

/// Why a moment has no text by a description: a year out of range, an `ignore`, or too many bytes.
#[derive(Clone, Copy, Debug, PartialEq, Eq)]
pub enum Unformattable {
    /// A component of the standard range has a year outside -9999 to 9999.
    Year,
    /// A part of the description that would be written has an `ignore`. That skips bytes when parsed, and has no text.
    Ignore,
    /// The text would have more bytes than the caller allows.
    TooLong,
}

impl fmt::Display for Unformattable {
    ghost output = { λ e. Some (unformattable_text e) };

    fn fmt<W: fmt::Write>(&self, f: &mut fmt::Formatter<W>) -> fmt::Result {
        f.write_str(match self {
            Unformattable::Year =>
                "The year component cannot be formatted into the requested format.",
            Unformattable::Ignore =>
                "The ignore component cannot be formatted into the requested format.",
            Unformattable::TooLong => "The text is too long.",
        })
    }
}

impl std::error::Error for Unformattable {}
