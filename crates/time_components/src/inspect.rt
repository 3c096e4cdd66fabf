//! A uniform view of the items of any description, and the steps that a parsed description is stored as.
ghost use Rattle.std.specs.Prelude.{◌≡◌, ◌≤◌, ◌+◌, length, drop};
ghost use Rattle.time_components.specs.Tree as spec;
ghost use Rattle.time_components.specs.Tree.{borrowed_shape, further, owned_shape, v3_shape, Tree, node_tree};

use crate::{BorrowedFormatItem, Component, FormatDescriptionV3Inner, OwnedFormatItem};

/// A view of an item of a format description: a literal's bytes, a component, or the items in it, of the type `I`.
#[derive_where(Clone, Copy)]
pub enum Node<'a, I> {
    /// Literal bytes, or the bytes of a literal text.
    Literal(&'a [u8]),
    /// A component; an `Ignore` may end inside a UTF-8 character.
    Component(&'a Component),
    /// A component of a version-3 description; an `Ignore` matches only bytes that end between UTF-8 characters.
    WholeComponent(&'a Component),
    /// Items in sequence.
    List(&'a [I]),
    /// An optional item.
    Optional(&'a I),
    /// Alternatives: the first item that matches.
    First(&'a [I]),
}

/// An item of a format description, of whatever type, that can be viewed as a [`Node`].
pub trait Inspect {
    /// The tree of the item.
    ghost shape: { Self → Tree };

    /// The item as a node.
    fn node(&self) -> Node<'_, Self>
        ensures { shape self.now ≡ node_tree shape result };
}

impl Inspect for BorrowedFormatItem<'_> {
    ghost shape = { borrowed_shape };

    #[inline(always)]
    fn node(&self) -> Node<'_, Self> {
        match self {
            BorrowedFormatItem::Literal(text) => Node::Literal(text),
            BorrowedFormatItem::StringLiteral(text) => Node::Literal(text.as_bytes()),
            BorrowedFormatItem::Component(component) => Node::Component(component),
            BorrowedFormatItem::Compound(items) => Node::List(items),
            BorrowedFormatItem::Optional(item) => Node::Optional(item),
            BorrowedFormatItem::First(items) => Node::First(items),
        }
    }
}

impl Inspect for OwnedFormatItem {
    ghost shape = { owned_shape };

    #[inline(always)]
    fn node(&self) -> Node<'_, Self> {
        match self {
            OwnedFormatItem::Literal(text) => Node::Literal(text),
            OwnedFormatItem::StringLiteral(text) => Node::Literal(text.as_bytes()),
            OwnedFormatItem::Component(component) => Node::Component(component),
            OwnedFormatItem::Compound(items) => Node::List(items),
            OwnedFormatItem::Optional(item) => Node::Optional(item),
            OwnedFormatItem::First(items) => Node::First(items),
        }
    }
}

impl Inspect for FormatDescriptionV3Inner<'_> {
    ghost shape = { v3_shape };

    #[inline(always)]
    fn node(&self) -> Node<'_, Self> {
        match *self {
            FormatDescriptionV3Inner::Component(ref component) => Node::WholeComponent(component),
            FormatDescriptionV3Inner::BorrowedLiteral(text) => Node::Literal(text.as_bytes()),
            FormatDescriptionV3Inner::BorrowedCompound(items) => Node::List(items),
            FormatDescriptionV3Inner::BorrowedOptional { item, .. } => Node::Optional(item),
            FormatDescriptionV3Inner::BorrowedFirst(items) => Node::First(items),
            FormatDescriptionV3Inner::OwnedLiteral(ref text) => Node::Literal(text.as_bytes()),
            FormatDescriptionV3Inner::OwnedCompound(ref items) => Node::List(items),
            FormatDescriptionV3Inner::OwnedOptional { ref item, .. } => Node::Optional(item),
            FormatDescriptionV3Inner::OwnedFirst(ref items) => Node::First(items),
        }
    }
}

/// How the items of a group combine: all in sequence, all in sequence or none, or the first of them that matches.
#[derive(Clone, Copy, Debug, PartialEq, Eq)]
pub enum Group {
    /// All of them in sequence, or nothing.
    Optional,
    /// The first of them that matches.
    First,
    /// All of them in sequence.
    List,
}

/// A step of a description stored as a flat list: a component, a byte of a literal, or a group, before the items in it.
#[derive(Clone, Copy, Debug, PartialEq, Eq)]
pub enum Step {
    /// The first byte of a literal.
    Literal(u8),
    /// A further byte of the literal before it.
    More(u8),
    /// A component.
    Component(Component),
    /// A group, with the number of steps after this one that belong to it, those of nested items included.
    Group(Group, usize),
}

// The default is a placeholder: a literal of the byte 0.
impl Default for Step {
    ghost is_default = { λ step. Unit {0} };

    #[inline(always)]
    fn default() -> Step {
        Step::Literal(0)
    }
}

/// How many steps of `behind`, the steps after `step`, belong to it: for a `Literal` or a `More`, the leading `More`
/// steps; for a `Component`, none; for a `Group`, the number stored in it, or all of `behind` if there are fewer.
#[inline(always)]
pub fn item_len(step: &Step, behind: &[Step]) -> usize
    ensures len { result ≡ spec.item_length step.now behind.now }
    ensures within { result ≤ length behind.now }
{
    match *step {
        Step::Literal(_) | Step::More(_) => behind.len() - after_further(behind).len(),
        Step::Component(_) => 0,
        Step::Group(_, len) => len.min(behind.len()),
    }
}

// It doesn't split `behind` at `item_len`: for a component, the most frequent step, it returns all of `behind`.
//
/// The steps of `behind` after those that belong to `step`, as [`item_len`] counts them.
#[inline(always)]
pub fn steps_after<'s>(step: &Step, behind: &'s [Step]) -> &'s [Step]
    ensures after { result.now ≡ spec.steps_after step.now behind.now }
    ensures fewer { length result.now ≤ length behind.now }
{
    match *step {
        Step::Literal(_) | Step::More(_) => after_further(behind),
        Step::Component(_) => behind,
        Step::Group(_, len) => {
            let (_, after) = behind.split_at(len.min(behind.len()));
            after
        }
    }
}

// The steps after the leading `More` steps. Not inlined, so that a loop over a row of steps needs fewer registers.
#[inline(never)]
fn after_further(steps: &[Step]) -> &[Step]
    ensures after { result.now ≡ drop (length (further steps.now)) steps.now }
    ensures len { length result.now + length (further steps.now) ≡ length steps.now }
{
    let mut left = steps;
    while let [Step::More(_), behind @ ..] = left {
        left = behind;
    }
    left
}
