//! The steps of items that were built by hand.
ghost use Rattle.std.specs.Prelude.{◌≡◌, ◌<◌, ◌≤◌, ◌+◌, ◌-◌, ◌++◌, ◌∷◌, [], length, map, IfErr, OnOk, Some, false, slice_set};
ghost use Rattle.time_components.specs.Tree.{borrowed_shape, group_tree, literal, optional, trees};
ghost use Rattle.time_components.specs.Tree as tree;
ghost use Rattle.time_components.specs.declared.inspect.Step.TheVariants as step;
ghost use Rattle.time_preparing.specs.Items.{unprepared_text};
ghost use Rattle.time_preparing.specs.Puts.{PutsItem, PutsItems};
ghost use Rattle.time_preparing.specs.declared.items.Unprepared.TheVariants as unprepared;

use arrayvec::ArrayVec;
use std::fmt;
use time_components::{BorrowedFormatItem, Component, Group, Step};

/// Why `Prepared::from_items` can't prepare the items of a description that was built by hand.
#[derive(Clone, Copy, Debug, PartialEq, Eq)]
pub enum Unprepared {
    /// A literal is empty. Each step of a literal is one of its bytes, so it would have no step.
    EmptyLiteral,
    /// The item of an `Optional` is no `Compound`. Only a list of steps can be optional. To prepare the item, wrap it
    /// in a `Compound`, which parses as the item does.
    OptionalNotCompound,
    /// There are more steps than the prepared description has room for.
    TooLong,
}

impl fmt::Display for Unprepared {
    ghost output = { λ reason. Some (unprepared_text reason) };

    fn fmt<W: fmt::Write>(&self, f: &mut fmt::Formatter<W>) -> fmt::Result {
        match self {
            Unprepared::EmptyLiteral => write!(f, "a literal is empty"),
            Unprepared::OptionalNotCompound => write!(f, "an optional item is no compound"),
            Unprepared::TooLong => write!(f, "the description is too long"),
        }
    }
}

impl std::error::Error for Unprepared {}

// Appends a step. Fails with `TooLong`, without a change, if there is no room.
fn put<const N: usize>(steps: &mut ArrayVec<Step, N>, step: Step) -> Result<(), Unprepared>
    ensures ok { OnOk result (steps.new.items ≡ steps.old.items ++ step ∷ []) }
    ensures room { OnOk result (length steps.new.items ≤ N) }
    ensures err { IfErr result (λ e. (e ≡ unprepared.TooLong) × (N ≤ length steps.old.items)) }
{
    match steps.try_push(step) {
        Ok(()) => Ok(()),
        Err(_) => Err(Unprepared::TooLong),
    }
}

// Appends a `Step::More` for each further byte of a literal. Fails with `TooLong` if there is no room; some steps may
// have been appended by then.
fn put_further<const N: usize>(
    bytes: &[u8],
    steps: &mut ArrayVec<Step, N>,
) -> Result<(), Unprepared>
    ensures ok { OnOk result (steps.new.items ≡ steps.old.items ++ map step.More bytes.now) }
    ensures room { OnOk result (length steps.old.items ≤ N → length steps.new.items ≤ N) }
    ensures err { IfErr result (λ e. (e ≡ unprepared.TooLong) × (N < length steps.old.items + length bytes.now)) }
{
    for byte in bytes {
        put(steps, Step::More(*byte))?;
    }
    Ok(())
}

// Appends a step for the first and for each further byte of a literal. Fails with `TooLong` if there is no room; some
// steps may have been appended by then.
#[tactic(auto, using(crate::proofs::Placing::puts_bytes))]
fn put_bytes<const N: usize>(
    first: u8,
    further: &[u8],
    steps: &mut ArrayVec<Step, N>,
) -> Result<(), Unprepared>
    requires { length steps.old.items ≤ N }
    ensures { PutsItem N (literal (first ∷ further.now)) steps.old.items result steps.new.items }
{
    put(steps, Step::Literal(first))?;
    put_further(further, steps)
}

// Appends a step for each byte of a literal. Fails with `EmptyLiteral` if it has none, or with `TooLong` if there is no
// room; some steps may have been appended by then.
fn put_literal<const N: usize>(
    bytes: &[u8],
    steps: &mut ArrayVec<Step, N>,
) -> Result<(), Unprepared>
    requires { length steps.old.items ≤ N }
    ensures { PutsItem N (literal bytes.now) steps.old.items result steps.new.items }
{
    match bytes {
        [] => Err(Unprepared::EmptyLiteral),
        [first, further @ ..] => put_bytes(*first, further, steps),
    }
}

// Appends the step of a component. Fails with `TooLong`, without a change, if there is no room.
#[tactic(auto, using(crate::proofs::Placing::puts_component))]
fn put_component<const N: usize>(
    component: Component,
    steps: &mut ArrayVec<Step, N>,
) -> Result<(), Unprepared>
    requires { length steps.old.items ≤ N }
    ensures { PutsItem N (tree.component false component) steps.old.items result steps.new.items }
{
    put(steps, Step::Component(component))
}

// Appends an item's steps. Fails with the first error in the order of its parts, perhaps after appending some steps.
#[cycle(items)]
fn put_item<const N: usize>(
    item: &BorrowedFormatItem<'_>,
    steps: &mut ArrayVec<Step, N>,
) -> Result<(), Unprepared>
    requires { length steps.old.items ≤ N }
    ensures { PutsItem N (borrowed_shape item.now) steps.old.items result steps.new.items }
{
    match item {
        BorrowedFormatItem::Literal(bytes) => put_literal(bytes, steps),
        BorrowedFormatItem::StringLiteral(text) => put_literal(text.as_bytes(), steps),
        BorrowedFormatItem::Component(component) => put_component(*component, steps),
        BorrowedFormatItem::Compound(items) => put_group(Group::List, items, steps),
        BorrowedFormatItem::Optional(item) => put_optional(item, steps),
        BorrowedFormatItem::First(items) => put_group(Group::First, items, steps),
    }
}

// Appends the steps of an `Optional` of this item. Fails with `OptionalNotCompound` if the item is no `Compound`, or
// else with the first error in the order of its parts, perhaps after appending some steps.
#[cycle(items)]
fn put_optional<const N: usize>(
    item: &BorrowedFormatItem<'_>,
    steps: &mut ArrayVec<Step, N>,
) -> Result<(), Unprepared>
    requires { length steps.old.items ≤ N }
    ensures { PutsItem N (optional (borrowed_shape item.now)) steps.old.items result steps.new.items }
{
    match item {
        BorrowedFormatItem::Compound(items) => put_group(Group::Optional, items, steps),
        _ => Err(Unprepared::OptionalNotCompound),
    }
}

// Replaces the step at the index by a step of this group. All steps after the index then belong to the group.
fn close_group<const N: usize>(steps: &mut ArrayVec<Step, N>, group: Group, index: usize)
    requires { index < length steps.old.items }
    ensures { steps.new.items ≡ slice_set steps.old.items index
        (step.Group group (length steps.old.items - index - 1)) }
{
    let len = steps.len() - index - 1;
    steps[index] = Step::Group(group, len);
}

// Appends a group step and the steps of these items in it. Fails with the first error in the order of the items,
// perhaps after appending some steps.
#[cycle(items)]
fn put_group<const N: usize>(
    group: Group,
    items: &[BorrowedFormatItem<'_>],
    steps: &mut ArrayVec<Step, N>,
) -> Result<(), Unprepared>
    requires { length steps.old.items ≤ N }
    ensures { PutsItem N (group_tree group (trees (map borrowed_shape items.now))) steps.old.items result steps.new.items }
{
    let index = steps.len();
    put(steps, Step::Group(group, 0))?;
    put_items(items, steps)?;
    close_group(steps, group, index);
    Ok(())
}

/// Appends the steps of items in turn. Fails with the first error in the order of the items, perhaps after appending
/// some steps.
#[cycle(items)]
pub(crate) fn put_items<const N: usize>(
    items: &[BorrowedFormatItem<'_>],
    steps: &mut ArrayVec<Step, N>,
) -> Result<(), Unprepared>
    requires { length steps.old.items ≤ N }
    ensures { PutsItems N (trees (map borrowed_shape items.now)) steps.old.items result steps.new.items }
{
    for item in items {
        put_item(item, steps)?;
    }
    Ok(())
}
