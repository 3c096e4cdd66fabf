//! Walks the steps of a prepared description.
//!
//! `walk` parses joined steps, as far as they match. Then it parses the item at which they stop on its own, over the
//! record so far, and after that joined steps again. So no step that `read_joined` counts as parsed is parsed again.
mod fast;
mod front;

ghost use Rattle.std.specs.Prelude.{◌≡◌, ◌≤◌, length, drop};
ghost use Rattle.time_components.specs.Tree as steps_;
ghost use Rattle.time_components.specs.Tree.{steps_shape, steps_trees, first_of, optional};
ghost use Rattle.time_preparing.specs.Forms.{Fits};
ghost use Rattle.time_preparing.specs.Walk.{Resumes, ParsesTree};

use crate::joined::Joined;
use time_components::{Group, Step, item_len};
use time_record::Parsed;
use time_values::error::ParseFromDescription;

// Parses joined steps as far as they match, stores their values, and returns how many of `steps` were parsed, and the
// unread rest. `joined` has what is parsed together from each of the steps on. This function isn't inlined, so that the
// inlined parsers of steps occur once.
#[inline(never)]
fn read_joined<'a>(
    steps: &[Step],
    joined: &[Joined],
    parsed: &mut Parsed,
    input: &'a [u8],
) -> (usize, &'a [u8])
    requires fits { Fits joined.now steps.now }
    requires each { length joined.now ≡ length steps.now }
    ensures within { result.0 ≤ length steps.now }
    ensures goes { Resumes (steps_trees steps.now) input.now parsed.old
        (steps_trees (drop result.0 steps.now)) result.1.now parsed.new }
{
    let mut next = 0;
    let mut rest = input;
    while next < joined.len() {
        let found = front::read(&joined[next], joined.len() - next, parsed, rest);
        rest = found.rest;
        next += found.count;
        if !found.is_all {
            return (next, rest);
        }
    }
    (next, rest)
}

/// Parses the steps in sequence at the front of the input, and returns the unread rest. `joined` has what is parsed
/// together from each of the steps on. The error is that of the first item that doesn't match. After an error the
/// record may have changed.
#[cycle(walk)]
#[inline(always)]
pub(crate) fn walk<'a>(
    steps: &[Step],
    joined: &[Joined],
    parsed: &mut Parsed,
    input: &'a [u8],
) -> Result<&'a [u8], ParseFromDescription>
    requires fits { Fits joined.now steps.now }
    requires each { length joined.now ≡ length steps.now }
    ensures { ParsesTree (steps_shape steps.now) input.now parsed.old result parsed.new }
{
    let mut left = steps;
    let mut left_joined = joined;
    let mut rest = input;
    loop {
        let (read, unread) = read_joined(left, left_joined, parsed, rest);
        let (_, later) = left.split_at(read);
        let (_, later_joined) = left_joined.split_at(read);
        let [step, behind @ ..] = later else {
            return Ok(unread);
        };
        let count = 1 + item_len(step, behind);
        let (item, after) = later.split_at(count);
        let (item_joined, after_joined) = later_joined.split_at(count);
        match walk_item(item, item_joined, parsed, unread) {
            Ok(unread) => rest = unread,
            Err(fault) => return Err(fault),
        }
        left = after;
        left_joined = after_joined;
    }
}

// Calls `walk`, but isn't inlined, so that its caller's frame doesn't grow.
#[cycle(walk)]
#[inline(never)]
fn walk_list<'a>(
    steps: &[Step],
    joined: &[Joined],
    parsed: &mut Parsed,
    input: &'a [u8],
) -> Result<&'a [u8], ParseFromDescription>
    requires fits { Fits joined.now steps.now }
    requires each { length joined.now ≡ length steps.now }
    ensures { ParsesTree (steps_shape steps.now) input.now parsed.old result parsed.new }
{
    walk(steps, joined, parsed, input)
}

// Parses the steps of one item, and returns the unread rest. After an error the record may have changed.
#[cycle(walk)]
#[inline(always)]
fn walk_item<'a>(
    steps: &[Step],
    joined: &[Joined],
    parsed: &mut Parsed,
    input: &'a [u8],
) -> Result<&'a [u8], ParseFromDescription>
    requires fits { Fits joined.now steps.now }
    requires each { length joined.now ≡ length steps.now }
    ensures { ParsesTree (steps_shape steps.now) input.now parsed.old result parsed.new }
{
    let [step, inside @ ..] = steps else {
        return parsed.parse_steps(input, steps);
    };
    match step {
        Step::Group(group, len) if *len == inside.len() => {
            let (_, inside_joined) = joined.split_at(1);
            walk_group(*group, inside, inside_joined, parsed, input)
        }
        Step::Component(component) if inside.is_empty() => {
            parsed.parse_component(input, *component)
        }
        Step::Literal(byte) if inside.is_empty() => Parsed::parse_literal(input, &[*byte]),
        _ => parsed.parse_steps(input, steps),
    }
}

// Parses a group with these steps inside, by its kind: in sequence, as optional, or as alternatives. Returns the unread
// rest. After an error the record may have changed.
#[cycle(walk)]
#[inline(always)]
fn walk_group<'a>(
    group: Group,
    inside: &[Step],
    joined: &[Joined],
    parsed: &mut Parsed,
    input: &'a [u8],
) -> Result<&'a [u8], ParseFromDescription>
    requires fits { Fits joined.now inside.now }
    requires each { length joined.now ≡ length inside.now }
    ensures { ParsesTree (steps_.group_tree group (steps_trees inside.now)) input.now parsed.old result parsed.new }
{
    match group {
        Group::List => walk_list(inside, joined, parsed, input),
        Group::Optional => walk_optional(inside, joined, parsed, input),
        Group::First => walk_first(inside, joined, parsed, input),
    }
}

// Parses optional steps. If they don't match, returns the input as the rest, and the record is unchanged. It never
// returns an error.
#[cycle(walk)]
#[inline(always)]
#[tactic(auto, unfolding(time_record::specs::Reading::Reads))]
fn walk_optional<'a>(
    inside: &[Step],
    joined: &[Joined],
    parsed: &mut Parsed,
    input: &'a [u8],
) -> Result<&'a [u8], ParseFromDescription>
    requires fits { Fits joined.now inside.now }
    requires each { length joined.now ≡ length inside.now }
    ensures { ParsesTree (optional (steps_shape inside.now)) input.now parsed.old result parsed.new }
{
    let before = *parsed;
    match walk_list(inside, joined, parsed, input) {
        Ok(rest) => Ok(rest),
        Err(_) => {
            *parsed = before;
            Ok(input)
        }
    }
}

// Parses the first item that matches. If none does, the error is the first item's, and the record is unchanged. If
// there are no items, returns the input as the rest.
#[cycle(walk)]
fn walk_first<'a>(
    steps: &[Step],
    joined: &[Joined],
    parsed: &mut Parsed,
    input: &'a [u8],
) -> Result<&'a [u8], ParseFromDescription>
    requires fits { Fits joined.now steps.now }
    requires each { length joined.now ≡ length steps.now }
    ensures { ParsesTree (first_of (steps_trees steps.now)) input.now parsed.old result parsed.new }
{
    let before = *parsed;
    let mut first_fault = None;
    let mut left = steps;
    let mut left_joined = joined;
    while let [step, behind @ ..] = left {
        let count = 1 + item_len(step, behind);
        let (item, after) = left.split_at(count);
        let (item_joined, after_joined) = left_joined.split_at(count);
        match walk_item(item, item_joined, parsed, input) {
            Ok(rest) => return Ok(rest),
            Err(fault) => first_fault = first_fault.or(Some(fault)),
        }
        *parsed = before;
        left = after;
        left_joined = after_joined;
    }
    match first_fault {
        Some(fault) => Err(fault),
        None => Ok(input),
    }
}
