//! Writes items into a text of limited length.
ghost use Rattle.std.specs.Prelude.{map, ◌≡◌, ◌≤◌, [], length};
ghost use Rattle.time_components.specs.Tree as tree;
ghost use Rattle.time_components.specs.Tree.{trees};
ghost use Rattle.time_descriptions.specs.Writing.{lists_text, tree_text, trees_text};
ghost use Rattle.time_descriptions.specs.DescribedParts.{list_text, Puts};

use crate::describing::component::put_component;
use arrayvec::ArrayVec;
use time_components::{Inspect, Node};

// Appends a literal, after a backslash if it is exactly one byte `[`, `\` or `]`. Other literals aren't escaped.
fn put_literal<const N: usize>(bytes: &[u8], text: &mut DescriptionText<N>) -> Result<(), Full>
    ensures { Puts N (tree_text (tree.literal bytes.now)) text.old.bytes.items result text.new.bytes.items }
{
    if let [b'[' | b'\\' | b']'] = bytes {
        text.put(b"\\")?;
    }
    text.put(bytes)
}

/// Appends the text of an item, whether or not it describes the item. The error is that there is no room; a part may
/// then have been appended. A component of version 3 is written like any other.
#[cycle(items)]
pub(crate) fn put_item<const N: usize, I: Inspect>(
    item: &I,
    text: &mut DescriptionText<N>,
) -> Result<(), Full>
    ensures { Puts N (tree_text (I.shape item.now)) text.old.bytes.items result text.new.bytes.items }
{
    match item.node() {
        Node::Literal(bytes) => put_literal(bytes, text),
        Node::Component(component) | Node::WholeComponent(component) => put_component(
            *component, text,
        ),
        Node::List(items) => put_items(items, text),
        Node::Optional(item) => put_optional(item, text),
        Node::First(items) => put_first(items, text),
    }
}

// Appends the texts of items in turn, without anything between them.
#[cycle(items)]
fn put_items<const N: usize, I: Inspect>(
    items: &[I],
    text: &mut DescriptionText<N>,
) -> Result<(), Full>
    ensures { Puts N (trees_text (trees (map I.shape items.now))) text.old.bytes.items result text.new.bytes.items }
{
    for item in items {
        put_item(item, text)?;
    }
    Ok(())
}

// Appends the text of an optional item with the given list: `[optional [`, the text of the list, and `]]`.
#[cycle(items)]
fn put_optional<const N: usize, I: Inspect>(
    item: &I,
    text: &mut DescriptionText<N>,
) -> Result<(), Full>
    ensures { Puts N (tree_text (tree.optional (I.shape item.now))) text.old.bytes.items result text.new.bytes.items }
{
    text.put(b"[optional [")?;
    put_item(item, text)?;
    text.put(b"]]")
}

// Appends the text of a choice with the given lists: `[first`, the text of each list as ` [..]`, and `]`.
#[cycle(items)]
fn put_first<const N: usize, I: Inspect>(
    items: &[I],
    text: &mut DescriptionText<N>,
) -> Result<(), Full>
    ensures { Puts N (tree_text (tree.first_of (trees (map I.shape items.now)))) text.old.bytes.items result
        text.new.bytes.items }
{
    text.put(b"[first")?;
    put_lists(items, text)?;
    text.put(b"]")
}

// Appends the lists of a choice, each in brackets after a space.
#[cycle(items)]
fn put_lists<const N: usize, I: Inspect>(
    items: &[I],
    text: &mut DescriptionText<N>,
) -> Result<(), Full>
    ensures { Puts N (lists_text (trees (map I.shape items.now))) text.old.bytes.items result text.new.bytes.items }
{
    for item in items {
        put_list(item, text)?;
    }
    Ok(())
}

// Appends a list of a choice in brackets, after a space.
#[cycle(items)]
fn put_list<const N: usize, I: Inspect>(item: &I, text: &mut DescriptionText<N>) -> Result<(), Full>
    ensures { Puts N (list_text (I.shape item.now)) text.old.bytes.items result text.new.bytes.items }
{
    text.put(b" [")?;
    put_item(item, text)?;
    text.put(b"]")
}

/// The text of a description, of at most `N` bytes. It allocates nothing: it is an array and a length.
#[derive(Debug, Drop)]
pub struct DescriptionText<const N: usize> {
    pub(crate) bytes: ArrayVec<u8, N>,
}

/// The error that not all bytes fit into a text.
#[derive(Clone, Copy)]
pub(crate) struct Full;

impl<const N: usize> DescriptionText<N> {
    /// The bytes of the text, at most `N`.
    pub fn as_bytes(&self) -> &[u8]
        ensures value { result.now ≡ self.now.bytes.items }
        ensures fits { length result.now ≤ N }
    {
        self.bytes.as_slice()
    }

    // The empty text.
    pub(crate) fn new() -> DescriptionText<N>
        ensures { result.bytes.items ≡ [] }
    {
        DescriptionText {
            bytes: ArrayVec::new(),
        }
    }

    // Appends bytes. If there is no room for all of them, it returns `Full` and appends none.
    pub(crate) fn put(&mut self, bytes: &[u8]) -> Result<(), Full>
        ensures { Puts N bytes.now self.old.bytes.items result self.new.bytes.items }
    {
        match self.bytes.try_extend_from_slice(bytes) {
            Ok(()) => Ok(()),
            Err(_) => Err(Full),
        }
    }
}
