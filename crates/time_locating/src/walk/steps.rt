//! Walks the steps of a `Description` or a `Prepared`.
ghost use Rattle.std.specs.Prelude.{◌≡◌, ◌∷◌, ℕ, List, length, MatchOption};
ghost use Rattle.time_values.specs.Calendar.{greatest_year};
ghost use Rattle.time_components.specs.Tree as steps_;
ghost use Rattle.time_components.specs.Tree.{group_tree, steps_shape, steps_trees, Tree, first_of, more, none};
ghost use Rattle.time_record.specs.WalkSteps.{Attempts};
ghost use Rattle.time_locating.specs.Located.{erased_miss};
ghost use Rattle.time_locating.specs.Marks.{MarksTree};
ghost use Rattle.time_locating.specs.Misses.{IsFurthest, Misses, MissesFirst, first_byte, furthest, literal_misses};
ghost use Rattle.time_locating.specs.StepRows.{IsSplit};

use super::{Walked, read_component};
use crate::Expected;
use crate::mark::{Miss, further, missed_at};
use std::slice;
use time_components::{Group, Step, item_len};
use time_record::Parsed;

/// Reads the items of the steps in turn, the first at the front of the input, and returns what `walk_all` returns for
/// items, but the miss of a literal expects only one byte. If an item doesn't match, neither does the whole, and the
/// record is unchanged.
#[cycle(steps)]
pub(crate) fn walk_list<'a, 'd>(
    steps: &'d [Step],
    parsed: &mut Parsed,
    input: &'a [u8],
    name: &str,
) -> Walked<'a, 'd>
    ensures reads { Attempts greatest_year (steps_shape steps.now) input.now parsed.old result.rest parsed.new }
    ensures misses { IsFurthest (Misses first_byte (steps_shape steps.now) input.now parsed.old)
        (erased_miss result.missed) }
    ensures marks { MarksTree (steps_shape steps.now) name.now input.now parsed.old result.mark }
{
    let before = *parsed;
    let mut left = steps;
    let mut rest = input;
    let mut furthest = None;
    let mut last = None;
    while let Some((item, after)) = split_item(left) {
        let walked = walk_item(item, parsed, rest, name);
        furthest = further(walked.missed, furthest);
        last = walked.mark.or(last);
        match walked.rest {
            Some(unread) => rest = unread,
            None => {
                *parsed = before;
                return Walked {
                    rest: None,
                    missed: furthest,
                    mark: None,
                };
            }
        }
        left = after;
    }
    Walked {
        rest: Some(rest),
        missed: furthest,
        mark: last,
    }
}

// Reads the first of the steps' items that matches. If none does, the record is unchanged. Returns the furthest miss of
// all items that were tried; of several at one index, that of the first item. Without any steps the empty text matches,
// and the rest is the input.
#[cycle(steps)]
fn walk_first<'a, 'd>(
    steps: &'d [Step],
    parsed: &mut Parsed,
    input: &'a [u8],
    name: &str,
) -> Walked<'a, 'd>
    ensures reads { Attempts greatest_year (first_of (steps_trees steps.now)) input.now parsed.old result.rest parsed.new }
    ensures misses { IsFurthest (MissesFirst first_byte (steps_trees steps.now) input.now parsed.old)
        (erased_miss result.missed) }
    ensures marks { MarksTree (first_of (steps_trees steps.now)) name.now input.now parsed.old result.mark }
{
    let mut left = steps;
    let mut furthest = None;
    while let Some((item, after)) = split_item(left) {
        let walked = walk_item(item, parsed, input, name);
        furthest = further(furthest, walked.missed);
        if let Some(rest) = walked.rest {
            return Walked {
                rest: Some(rest),
                missed: furthest,
                mark: walked.mark,
            };
        }
        left = after;
    }
    if steps.is_empty() {
        return Walked {
            rest: Some(input),
            missed: furthest,
            mark: None,
        };
    }
    Walked {
        rest: None,
        missed: furthest,
        mark: None,
    }
}

// Reads an item, whose steps are `item`, at the front of the input. The contract doesn't cover an `item` without steps.
#[cycle(steps)]
fn walk_item<'a, 'd>(
    item: &'d [Step],
    parsed: &mut Parsed,
    input: &'a [u8],
    name: &str,
) -> Walked<'a, 'd>
    ensures reads { (t : Tree) → steps_trees item.now ≡ more t none
        → Attempts greatest_year t input.now parsed.old result.rest parsed.new }
    ensures misses { (t : Tree) → steps_trees item.now ≡ more t none
        → IsFurthest (Misses first_byte t input.now parsed.old) (erased_miss result.missed) }
    ensures marks { (t : Tree) → steps_trees item.now ≡ more t none
        → MarksTree t name.now input.now parsed.old result.mark }
{
    let [step, inside @ ..] = item else {
        return Walked {
            rest: Some(input),
            missed: None,
            mark: None,
        };
    };
    match step {
        Step::Literal(byte) | Step::More(byte) => literal(byte, inside, item, parsed, input),
        Step::Component(component) => read_component(*component, parsed, input, name),
        Step::Group(group, _) => walk_group(*group, inside, parsed, input, name),
    }
}

// Reads a group: its items in turn, or these only if all match (an optional group), or the first of them that matches.
// `inside` are the steps of its items.
#[cycle(steps)]
fn walk_group<'a, 'd>(
    group: Group,
    inside: &'d [Step],
    parsed: &mut Parsed,
    input: &'a [u8],
    name: &str,
) -> Walked<'a, 'd>
    ensures reads { Attempts greatest_year (group_tree group (steps_trees inside.now)) input.now parsed.old result.rest parsed.new }
    ensures misses { IsFurthest (Misses first_byte (group_tree group (steps_trees inside.now)) input.now parsed.old)
        (erased_miss result.missed) }
    ensures marks { MarksTree (group_tree group (steps_trees inside.now)) name.now input.now parsed.old result.mark }
{
    match group {
        Group::List => walk_list(inside, parsed, input, name),
        Group::Optional => {
            let walked = walk_list(inside, parsed, input, name);
            Walked {
                rest: Some(walked.rest.unwrap_or(input)),
                missed: walked.missed,
                mark: walked.mark,
            }
        }
        Group::First => walk_first(inside, parsed, input, name),
    }
}

// Reads a literal, whose steps are `item`: this byte, and the further bytes inside. Without a match the miss is at the
// literal's first byte that isn't there, and expects only that byte. The record is unchanged.
fn literal<'a, 'd>(
    byte: &'d u8,
    inside: &'d [Step],
    item: &[Step],
    parsed: &mut Parsed,
    input: &'a [u8],
) -> Walked<'a, 'd>
    ensures reads { let text = byte.now ∷ steps_.further inside.now in
        steps_trees item.now ≡ more (steps_.literal text) none
        → Attempts greatest_year (steps_.literal text) input.now parsed.old result.rest parsed.new }
    ensures misses { let text = byte.now ∷ steps_.further inside.now in
        steps_trees item.now ≡ more (steps_.literal text) none
        → IsFurthest (Misses first_byte (steps_.literal text) input.now parsed.old) (erased_miss result.missed) }
    ensures marks { (name : List ℕ) → let text = byte.now ∷ steps_.further inside.now in
        steps_trees item.now ≡ more (steps_.literal text) none
        → MarksTree (steps_.literal text) name input.now parsed.old result.mark }
{
    match parsed.parse_steps(input, item) {
        Ok(rest) => Walked {
            rest: Some(rest),
            missed: None,
            mark: None,
        },
        Err(_) => Walked {
            rest: None,
            missed: missed_in(byte, inside, input),
            mark: None,
        },
    }
}

// The miss in a literal of this byte and the further ones at the front of the steps: it expects only the first byte
// that doesn't match. `None` if the input begins with the literal.
fn missed_in<'d>(byte: &'d u8, steps: &'d [Step], input: &[u8]) -> Option<Miss<'d>>
    ensures { erased_miss result ≡ furthest (literal_misses first_byte (byte.now ∷ steps_.further steps.now) input.now) }
{
    let mut wanted = byte;
    let mut left = steps;
    let mut rest = input;
    while let [first, unread @ ..] = rest {
        if first != wanted {
            break;
        }
        let [Step::More(byte), behind @ ..] = left else {
            return None;
        };
        wanted = byte;
        left = behind;
        rest = unread;
    }
    missed_at(Expected::Literal(slice::from_ref(wanted)), rest)
}

// The steps of the first item, and those after it, or `None` if there are no steps. This is not a fast path.
fn split_item(steps: &[Step]) -> Option<(&[Step], &[Step])>
    ensures { MatchOption result (length steps.now ≡ 0) (λ p. IsSplit steps.now p.0.now p.1.now) }
{
    let [step, behind @ ..] = steps else {
        return None;
    };
    Some(steps.split_at(1 + item_len(step, behind)))
}
