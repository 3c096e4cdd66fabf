//! Walks over the steps of a description, its items flattened into one list. Like `walk.rt`, this module may call the
//! fast paths, those of leaves.
ghost use Rattle.std.specs.Prelude.{◌≡◌, ◌≢◌, ◌-◌, ◌≤◌, ◌++◌, ◌∷◌, [], ℕ, List, Ok, IfSome, length, MatchOption};
ghost use Rattle.time_values.specs.Calendar.{greatest_year};
ghost use Rattle.time_values.specs.Refusal.{refusal_of_description};
ghost use Rattle.time_components.specs.Tree as steps_;
ghost use Rattle.time_components.specs.Tree.{steps_shape, steps_trees, tree_at, first_of, optional, sequence, literal};
ghost use Rattle.time_record.specs.Reading.{Answers, Counts, CountsAll};
ghost use Rattle.time_record.specs.WalkSteps.{CountsFirst, Resumes, IsFurther, leaf_refusal, RefusesLeaf};
ghost use Rattle.time_components.specs.declared.inspect.Step.{Step};
ghost use Rattle.time_record.specs.Record.{Record};

use super::fast;
use crate::parsed::component::fault;
use crate::{Parsed, Tries};
use time_components::{Group, Step, steps_after};
use time_values::error::ParseFromDescription;

/// Parses the steps of a description at the start of the input into the record. Adds the number of items visited, and 1
/// for the list itself, to `tries`. Returns the remaining input, or an error with the record unchanged. If one group of
/// alternatives is the whole list, the list needs no loop, and no copy of the record.
#[inline(always)]
pub fn walk_steps<'a>(
    steps: &[Step],
    parsed: &mut Parsed,
    input: &'a [u8],
    tries: &mut Tries,
) -> Result<&'a [u8], ParseFromDescription>
    ensures answers { Answers greatest_year (steps_shape steps.now) input.now parsed.old result parsed.new }
    ensures counts { Counts greatest_year (steps_shape steps.now) input.now parsed.old tries.old tries.new }
{
    match steps {
        [Step::Group(Group::First, len), choices @ ..] if *len >= choices.len() => {
            // Counts 1 for the list, and 1 for the group of alternatives in it.
            tries.add(2);
            walk_first(choices, parsed, input, tries)
        }
        _ => walk_list(steps, parsed, input, tries),
    }
}

/// Parses the steps as a list into the record. Adds the number of items visited, and 1 for the list, to `tries`.
/// Returns the remaining input, or the error of the first item that doesn't match, with the record unchanged.
#[cycle(steps)]
pub fn walk_list<'a>(
    steps: &[Step],
    parsed: &mut Parsed,
    input: &'a [u8],
    tries: &mut Tries,
) -> Result<&'a [u8], ParseFromDescription>
    ensures answers { Answers greatest_year (steps_shape steps.now) input.now parsed.old result parsed.new }
    ensures counts { Counts greatest_year (steps_shape steps.now) input.now parsed.old tries.old tries.new }
{
    let before = *parsed;
    // The number of steps left, plus 1 in the first round, which counts the list itself.
    let mut uncounted = steps.len() + 1;
    let mut left = steps;
    let mut rest = input;
    loop {
        let (later, unread, fault) = read_steps(left, parsed, rest);
        tries.add(uncounted - later.len());
        let [step, behind @ ..] = later else {
            return Ok(unread);
        };
        if let Some(fault) = fault {
            tries.add(1);
            *parsed = before;
            return Err(fault);
        }
        let after = steps_after(step, behind);
        match walk_item(step, behind, parsed, unread, tries) {
            Ok(more) => rest = more,
            Err(fault) => {
                *parsed = before;
                return Err(fault);
            }
        }
        left = after;
        uncounted = left.len();
    }
}

// Parses literals of one byte and components in turn, as far as the fast paths cover them. Returns the steps from the
// first item on that isn't parsed (none if all are), the remaining input at that item, and its error if it is known not
// to match. The values of the items before it are stored, also with an error. The loop calls no walk, so it needs no
// room for a walk's result.
#[inline(always)]
fn read_steps<'s, 'a>(
    steps: &'s [Step],
    parsed: &mut Parsed,
    input: &'a [u8],
) -> (&'s [Step], &'a [u8], Option<ParseFromDescription>)
    ensures fewer { length result.0.now ≤ length steps.now }
    ensures goes { Resumes greatest_year (steps_trees steps.now) input.now parsed.old
        (length steps.now - length result.0.now) (steps_trees result.0.now) result.1.now parsed.new }
    ensures fault { IfSome result.2 (λ fault. RefusesLeaf greatest_year (steps_trees result.0.now) result.1.now parsed.new
        (refusal_of_description fault)) }
{
    let mut left = steps;
    let mut rest = input;
    while let [step, behind @ ..] = left {
        match fast::step(step, behind, parsed, rest) {
            Some(Some(unread)) => rest = unread,
            Some(None) => return (left, rest, Some(step_fault(step))),
            None => return (left, rest, None),
        }
        left = behind;
    }
    (left, rest, None)
}

// The error of a leaf of one step that doesn't match: for a component what `fault` returns, and else `InvalidLiteral`.
#[inline(always)]
fn step_fault(step: &Step) -> ParseFromDescription
    ensures { (behind : List Step) → refusal_of_description result ≡ leaf_refusal (tree_at steps_trees step.now behind) }
{
    match step {
        Step::Component(component) => fault(*component),
        _ => ParseFromDescription::InvalidLiteral,
    }
}

// Parses the item that begins with `step`; its further steps, if any, are the first ones of `behind`. Counts the items
// visited. Returns the remaining input, or an error with the record unchanged. `Ok(..?)` returns a result in parts,
// instead of storing it in memory for the callers.
#[cycle(steps)]
#[inline(always)]
fn walk_item<'a>(
    step: &Step,
    behind: &[Step],
    parsed: &mut Parsed,
    input: &'a [u8],
    tries: &mut Tries,
) -> Result<&'a [u8], ParseFromDescription>
    ensures answers { Answers greatest_year (tree_at steps_trees step.now behind.now) input.now parsed.old result parsed.new }
    ensures counts { Counts greatest_year (tree_at steps_trees step.now behind.now) input.now parsed.old tries.old tries.new }
{
    match *step {
        Step::Literal(first) | Step::More(first) => {
            tries.begin();
            read_literal(first, behind, input)
        }
        Step::Component(component) => {
            tries.begin();
            Ok(parsed.parse_component(input, component)?)
        }
        Step::Group(group, len) => {
            let (inside, _) = behind.split_at(len.min(behind.len()));
            walk_group(group, inside, parsed, input, tries)
        }
    }
}

// Parses these steps as a list, an optional list, or alternatives, by `group`. Counts the group and the items visited.
#[cycle(steps)]
#[inline(always)]
fn walk_group<'a>(
    group: Group,
    inside: &[Step],
    parsed: &mut Parsed,
    input: &'a [u8],
    tries: &mut Tries,
) -> Result<&'a [u8], ParseFromDescription>
    ensures answers { Answers greatest_year (steps_.group_tree group (steps_trees inside.now))
        input.now parsed.old result parsed.new }
    ensures counts { Counts greatest_year (steps_.group_tree group (steps_trees inside.now))
        input.now parsed.old tries.old tries.new }
{
    match group {
        Group::List => walk_list(inside, parsed, input, tries),
        Group::Optional => {
            tries.begin();
            Ok(walk_optional(inside, parsed, input, tries))
        }
        Group::First => {
            tries.begin();
            Ok(walk_first(inside, parsed, input, tries)?)
        }
    }
}

// Parses the steps inside an optional group. Returns the remaining input, which is the whole input, with the record
// unchanged, if they don't match. Counts the list of the steps and the items visited in it, but not the group.
#[cycle(steps)]
#[inline(always)]
#[tactic(auto, unfolding(crate::specs::Reading::Reads))]
fn walk_optional<'a>(
    inside: &[Step],
    parsed: &mut Parsed,
    input: &'a [u8],
    tries: &mut Tries,
) -> &'a [u8]
    ensures answers { Answers greatest_year (optional (steps_shape inside.now)) input.now parsed.old (Ok result) parsed.new }
    ensures counts { Counts greatest_year (steps_shape inside.now) input.now parsed.old tries.old tries.new }
{
    match walk_list(inside, parsed, input, tries) {
        Ok(rest) => rest,
        Err(_) => input,
    }
}

// Parses the first item of the steps that matches. If none does, returns the first item's error, with the record
// unchanged. Without steps, returns the whole input. Counts the items visited, but not the group around them.
#[cycle(steps)]
fn walk_first<'a>(
    steps: &[Step],
    parsed: &mut Parsed,
    input: &'a [u8],
    tries: &mut Tries,
) -> Result<&'a [u8], ParseFromDescription>
    ensures answers { Answers greatest_year (first_of (steps_trees steps.now)) input.now parsed.old result parsed.new }
    ensures counts { CountsFirst greatest_year (steps_trees steps.now) input.now parsed.old tries.old tries.new }
{
    let [step, behind @ ..] = steps else {
        return Ok(input);
    };
    let first_fault = match walk_item(step, behind, parsed, input, tries) {
        Ok(rest) => return Ok(rest),
        Err(fault) => fault,
    };
    let mut left = steps_after(step, behind);
    while let [step, behind @ ..] = left {
        if let Ok(rest) = walk_item(step, behind, parsed, input, tries) {
            return Ok(rest);
        }
        left = steps_after(step, behind);
    }
    Err(first_fault)
}

// The further byte of a literal (`Step::More`) at the start of the steps, and the steps after it. `None` if the first
// step is another, or there is none.
// This is not a fast path.
#[inline(always)]
pub(super) fn further_byte(steps: &[Step]) -> Option<(u8, &[Step])>
    ensures { MatchOption result (steps_.further steps.now ≡ []) (λ x. IsFurther x.0 x.1.now steps.now) }
{
    let [step, behind @ ..] = steps else {
        return None;
    };
    match step {
        Step::More(byte) => Some((*byte, behind)),
        _ => None,
    }
}

// Parses a literal of this byte and the further bytes at the start of the steps. Returns the input after it, or
// `InvalidLiteral` if the input doesn't begin with these bytes. Not inlined, so that the loop over leaves needs fewer
// registers.
#[inline(never)]
fn read_literal<'a>(
    first: u8,
    steps: &[Step],
    input: &'a [u8],
) -> Result<&'a [u8], ParseFromDescription>
    ensures { (r : Record) → Answers greatest_year (literal (first ∷ steps_.further steps.now)) input.now r result r }
{
    let [found, rest @ ..] = input else {
        return Err(ParseFromDescription::InvalidLiteral);
    };
    if *found != first {
        return Err(ParseFromDescription::InvalidLiteral);
    }
    match after_bytes(steps, rest) {
        Some(unread) => Ok(unread),
        None => Err(ParseFromDescription::InvalidLiteral),
    }
}

// The input after the further bytes of a literal (`Step::More`), which the steps begin with. `None` if the input
// doesn't begin with these bytes.
fn after_bytes<'a>(steps: &[Step], input: &'a [u8]) -> Option<&'a [u8]>
    ensures { MatchOption result ((x : List ℕ) → input.now ≢ steps_.further steps.now ++ x)
        (λ rest. input.now ≡ steps_.further steps.now ++ rest.now) }
{
    let mut left = steps;
    let mut rest = input;
    while let Some((byte, behind)) = further_byte(left) {
        match rest {
            [found, unread @ ..] if *found == byte => rest = unread,
            _ => return None,
        }
        left = behind;
    }
    Some(rest)
}
