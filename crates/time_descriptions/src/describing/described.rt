//! Decides which items a text can describe, and formats items.
ghost use Rattle.std.specs.Prelude.{◌≡◌, ◌&&◌, map, IfErr, IfOk};
ghost use Rattle.std.specs.List.{prefix_len};
ghost use Rattle.time_components.specs.Tree.{trees};
ghost use Rattle.time_descriptions.specs.Grammar as grammar;
ghost use Rattle.time_descriptions.specs.declared.leaf.Version.TheVariants as versions;
ghost use Rattle.time_descriptions.specs.Described as described;
ghost use Rattle.time_descriptions.specs.Description as description;
ghost use Rattle.time_descriptions.specs.Described.{IsNoText, IsTextOf};

use crate::describing::writing::{DescriptionText, put_item};
use crate::{Description, parse_borrowed};
use time_components::{Component, Inspect, Node};

// How deep the lists of optional items and choices may nest, with the outermost of them as the first level.
const MOST_LISTS: usize = 8;

// Whether the literal is exactly one byte that is written after a backslash: `[`, `\` or `]`.
fn is_escape(bytes: &[u8]) -> bool
    ensures { result ≡ described.is_escape bytes.now }
{
    matches!(bytes, [b'[' | b'\\' | b']'])
}

// The number of bytes at the start that need no backslash. `[` and `\` need one, and so does `]` inside a list, which
// `nested` means.
fn plain_len(nested: bool, bytes: &[u8]) -> usize
    ensures { result ≡ prefix_len (grammar.is_plain versions.Two nested) bytes.now }
{
    bytes
        .iter()
        .take_while(|byte| **byte != b'[' && **byte != b'\\' && !(nested && **byte == b']'))
        .count()
}

// Whether none of the bytes needs a backslash, inside a list if `nested`. True for no bytes.
#[tactic(auto, using(crate::proofs::Checks::plain_by_len))]
fn are_plain(nested: bool, bytes: &[u8]) -> bool
    ensures { result ≡ described.are_plain nested bytes.now }
{
    plain_len(nested, bytes) == bytes.len()
}

// Whether a text can describe the bytes as one literal, inside a list if `nested`: they are one byte `[`, `\` or `]`,
// or they aren't empty and none needs a backslash.
fn is_literal(nested: bool, bytes: &[u8]) -> bool
    ensures { result ≡ described.is_literal nested bytes.now }
{
    is_escape(bytes) || !bytes.is_empty() && are_plain(nested, bytes)
}

// Whether the item is a literal other than `[`, `\` or `]` alone. Two of these in a row would be parsed as one literal.
fn is_run<I: Inspect>(item: &I) -> bool
    ensures { result ≡ described.is_run (I.shape item.now) }
{
    match item.node() {
        Node::Literal(bytes) => !is_escape(bytes),
        _ => false,
    }
}

// Whether a text can describe the component. The result is always true: an `ignore` has a count of 1 to 65535, which
// digits can write.
fn has_words(component: Component) -> bool
    ensures { result ≡ described.has_words component }
{
    match component {
        Component::Ignore(m) => m.count.get() > 0,
        _ => true,
    }
}

// Whether a text can describe the item, inside a list if `nested`, with lists nested at most `depth` deep in it. False
// for a `List`, which must be part of a group, and for a component of version 3, a `WholeComponent`.
#[cycle(described)]
fn is_item<I: Inspect>(depth: usize, nested: bool, item: &I) -> bool
    ensures { result ≡ described.is_item depth nested (I.shape item.now) }
{
    match item.node() {
        Node::Literal(bytes) => is_literal(nested, bytes),
        Node::Component(component) => has_words(*component),
        Node::WholeComponent(_) => false,
        Node::List(_) => false,
        Node::Optional(inner) => depth > 0 && is_list(depth - 1, inner),
        Node::First(lists) => depth > 0 && is_choice(depth - 1, lists),
    }
}

// Whether a text can describe these lists as a choice, with further lists nested at most `depth` deep in each. False
// for no lists.
#[cycle(described)]
#[tactic(auto, using(crate::proofs::Checks::some_trees))]
fn is_choice<I: Inspect>(depth: usize, lists: &[I]) -> bool
    ensures { let ts = trees (map I.shape lists.now) in result ≡ described.is_some ts && described.are_lists depth ts }
{
    !lists.is_empty() && are_lists(depth, lists)
}

// Whether a text can describe the item as a list of a group, with further lists nested at most `depth` deep in it.
#[cycle(described)]
#[tactic(auto, unfolding(crate::specs::Described::is_list))]
fn is_list<I: Inspect>(depth: usize, item: &I) -> bool
    ensures { result ≡ described.is_list depth (I.shape item.now) }
{
    match item.node() {
        Node::List(items) => are_items(depth, true, items),
        _ => false,
    }
}

// Whether a text can describe each item as a list of a choice, with lists `depth` deep at most in it. True for none.
#[cycle(described)]
fn are_lists<I: Inspect>(depth: usize, lists: &[I]) -> bool
    ensures { result ≡ described.are_lists depth (trees (map I.shape lists.now)) }
{
    for list in lists {
        if !is_list(depth, list) {
            return false;
        }
    }
    true
}

// Whether a text can describe the items in turn, inside a list if `nested`, with lists at most `depth` deep in each.
// False if a literal other than one byte `[`, `\` or `]` directly follows another such literal; true for no items.
#[cycle(described)]
fn are_items<I: Inspect>(depth: usize, nested: bool, items: &[I]) -> bool
    ensures { result ≡ described.are_items depth nested (trees (map I.shape items.now)) }
{
    let mut is_after_run = false;
    for item in items {
        let is_run = is_run(item);
        if is_after_run && is_run {
            return false;
        }
        if !is_item(depth, nested, item) {
            return false;
        }
        is_after_run = is_run;
    }
    true
}

/// Whether a text of version 2 describes the item.
///
/// The item must be a list, maybe empty, of components, literals, optional lists, and choices of one or more lists.
/// Inner lists are of this form too, nested at most eight deep. A literal is one byte `[`, `\` or `]`; or it has one or
/// more bytes but no such byte (outside inner lists `]` may occur), and no other literal of this second form directly
/// follows it. No text describes a component of version 3 (`Node::WholeComponent`).
pub fn is_described<I: Inspect>(item: &I) -> bool
    ensures { result ≡ described.is_described (I.shape item.now) }
{
    match item.node() {
        Node::List(items) => are_items(MOST_LISTS, false, items),
        _ => false,
    }
}

/// Why [`text_of`](crate::text_of) or `description_of` fails: the item has no text, or the text exceeds `N` bytes.
#[derive(Clone, Copy, Debug, PartialEq, Eq)]
pub enum NoText {
    /// No text describes it, by [`is_described`](crate::is_described).
    Undescribed,
    /// A text describes it, but the one that [`text_of`](crate::text_of) writes is longer than the limit.
    TooLong,
}

/// The text that describes an item in version 2, of at most `N` bytes. It omits modifiers with their default values,
/// and has one space before each modifier, and before each list of an optional item or a choice.
///
/// # Errors
///
/// [`NoText::Undescribed`] if and only if no text, however long, describes the item; [`NoText::TooLong`] if and only if
/// one does, and the one that this function would write has more than `N` bytes.
pub fn text_of<const N: usize, I: Inspect>(item: &I) -> Result<DescriptionText<N>, NoText>
    ensures ok { IfOk result (λ text. IsTextOf (I.shape item.now) text.bytes.items) }
    ensures err { IfErr result (λ e. IsNoText N (I.shape item.now) e) }
{
    if !is_described(item) {
        return Err(NoText::Undescribed);
    }
    let mut text = DescriptionText::new();
    match put_item(item, &mut text) {
        Ok(()) => Ok(text),
        Err(_) => Err(NoText::TooLong),
    }
}

/// The description that the text of an item ([`text_of`], at most `N` bytes) parses as. It has the item's tree.
///
/// # Errors
///
/// `Undescribed` if no text describes the item; `TooLong` if its text exceeds `N` bytes, even if its steps would fit.
pub fn description_of<const N: usize, I: Inspect>(item: &I) -> Result<Description<N>, NoText>
    ensures ok { IfOk result (λ d. description.shape d ≡ I.shape item.now) }
    ensures err { IfErr result (λ e. IsNoText N (I.shape item.now) e) }
{
    match text_of::<N, I>(item) {
        Err(reason) => Err(reason),
        Ok(text) => match parse_borrowed::<2, N>(text.as_bytes()) {
            Ok(description) => Ok(description),
            Err(_) => Err(NoText::Undescribed),
        },
    }
}
