//! Parses a leaf at the start of a list, without a call.
ghost use Rattle.std.specs.Prelude.{◌≡◌, ◌∷◌, [], IfSome};
ghost use Rattle.time_values.specs.Calendar.{greatest_year};
ghost use Rattle.time_components.specs.Tree.{further, node_tree, steps_after, steps_trees, tree_at, literal};
ghost use Rattle.time_record.specs.WalkSteps.{IsLeaf, MayAttempt};
ghost use Rattle.time_record.specs.Record.{Record};

use super::steps::further_byte;
use crate::Parsed;
use crate::parsed::fast;
use time_components::{Inspect, Node, Step};

/// Parses a leaf: a literal or a component. Returns `Some(Some(rest))`, with the remaining input that `walk` returns;
/// `Some(None)` if the leaf doesn't match; or `None` if the item is no leaf, or the fast path doesn't cover it. In the
/// last two cases the record is unchanged.
#[inline(always)]
pub(super) fn leaf<'a, I: Inspect>(
    node: Node<'_, I>,
    parsed: &mut Parsed,
    input: &'a [u8],
) -> Option<Option<&'a [u8]>>
    ensures read { MayAttempt greatest_year (node_tree I.shape node.entry) input.now parsed.old result parsed.new }
    ensures leaf { IfSome result (λ read. IsLeaf (node_tree I.shape node.entry)) }
{
    match node {
        Node::Literal(text) => fast::literal(input, text),
        Node::Component(component) => fast::component(parsed, input, component),
        Node::WholeComponent(component) => fast::whole_component(parsed, input, component),
        _ => None,
    }
}

/// Parses a leaf of one step, with the steps `behind` after it. Returns `Some(Some(rest))`, with the remaining input
/// that `walk_item` returns; `Some(None)` if the leaf doesn't match; or `None` if the item is no leaf of one step, or
/// the fast path doesn't cover it. In the last two cases the record is unchanged.
#[inline(always)]
pub(super) fn step<'a>(
    step: &Step,
    behind: &[Step],
    parsed: &mut Parsed,
    input: &'a [u8],
) -> Option<Option<&'a [u8]>>
    ensures read { MayAttempt greatest_year (tree_at steps_trees step.now behind.now) input.now parsed.old result parsed.new }
    ensures leaf { IfSome result (λ read. IsLeaf (tree_at steps_trees step.now behind.now)) }
    ensures alone { IfSome result (λ read. steps_after step.now behind.now ≡ behind.now) }
{
    match step {
        Step::Literal(byte) | Step::More(byte) => only_byte(*byte, behind, input),
        Step::Component(component) => fast::component(parsed, input, component),
        Step::Group(_, _) => None,
    }
}

// Parses a literal of one byte. Returns `Some(Some(rest))`; `Some(None)` if the input doesn't begin with that byte; or
// `None` if the literal has several bytes: the first step of `behind` is its second byte.
#[inline(always)]
fn only_byte<'a>(byte: u8, behind: &[Step], input: &'a [u8]) -> Option<Option<&'a [u8]>>
    ensures read { (r : Record) → MayAttempt greatest_year (literal (byte ∷ further behind.now)) input.now r result r }
    ensures alone { IfSome result (λ read. further behind.now ≡ []) }
{
    if further_byte(behind).is_some() {
        return None;
    }
    Some(Parsed::read_byte(input, byte))
}
