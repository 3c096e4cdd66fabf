//! Parsed descriptions, as items that own their parts.
ghost use Rattle.std.specs.Prelude.{◌≡◌, ◌⊎◌, ◌<◌, ◌≤◌, alloc_error, length, map, suc, true, IfOk};
ghost use Rattle.time_components.specs.Tree.{owned_shape, group_tree, sequence, trees};
ghost use Rattle.time_descriptions.specs.Description.{version_of};
ghost use Rattle.time_descriptions.specs.Grammar as grammar;
ghost use Rattle.time_descriptions.specs.Items.{leaf_item};
ghost use Rattle.time_descriptions.specs.Grammar.{owned_error_text, OwnedOutcome, Owns, MatchesItem, MatchesItems};
ghost use Rattle.time_descriptions.specs.declared.owned.Unread.TheVariants as unread;

use crate::description::{MOST_LISTS, version_of};
use crate::error::{Fault, InvalidFormatDescription, Unsupported};
use crate::items::{after_closing, closed, ends, group_word, next_list, opened};
use crate::leaf::{Group, Leaf, Version, read_leaf};
use std::alloc::{AllocError, AllocFailed, Global};
use std::fmt;
use time_components::OwnedFormatItem;

/// The error of [`parse_owned`]: the text isn't a description, or out of memory.
#[derive(Clone, Copy, Debug, PartialEq, Eq)]
pub enum OwnedError<'a> {
    /// The text isn't a description.
    Invalid(InvalidFormatDescription<'a>),
    /// Out of memory.
    Memory(AllocError),
}

impl fmt::Display for OwnedError<'_> {
    ghost output = { λ e. owned_error_text e };

    fn fmt<W: fmt::Write>(&self, f: &mut fmt::Formatter<W>) -> fmt::Result {
        match self {
            OwnedError::Invalid(e) => write!(f, "{e}"),
            OwnedError::Memory(_) => write!(f, "out of memory"),
        }
    }
}

impl std::error::Error for OwnedError<'_> {}

/// Why a parser of owned items failed: the text's first fault, or out of memory.
#[derive(Clone, Copy)]
pub enum Unread {
    /// The first fault.
    Fault(Fault),
    /// Out of memory.
    Memory(AllocError),
}

impl From<Fault> for Unread {
    ghost from_gives = { λ e r. r ≡ unread.Fault e };

    fn from(fault: Fault) -> Unread {
        Unread::Fault(fault)
    }
}

impl From<AllocError> for Unread {
    ghost from_gives = { λ e r. r ≡ unread.Memory e };

    fn from(error: AllocError) -> Unread {
        Unread::Memory(error)
    }
}

impl<T: Drop> From<AllocFailed<T>> for Unread {
    ghost from_gives = { λ _ r. r ≡ unread.Memory alloc_error };

    fn from(failed: AllocFailed<T>) -> Unread {
        Unread::Memory(failed.into())
    }
}

// The item of a leaf, with a literal's bytes copied; an error if out of memory.
fn owned_leaf(alloc: Global, leaf: Leaf<'_>) -> Result<OwnedFormatItem, AllocError>
    ensures { IfOk result (λ item. MatchesItem item (leaf_item leaf.entry)) }
{
    match leaf {
        Leaf::Component(component) => Ok(OwnedFormatItem::Component(component)),
        Leaf::Literal(first, further) => {
            let mut bytes = Vec::new(alloc);
            bytes.push(first)?;
            bytes.extend_from_slice(further)?;
            Ok(OwnedFormatItem::Literal(bytes))
        }
    }
}

// The item that is a list of the given items, a `Compound`.
fn compound(items: Vec<OwnedFormatItem>) -> OwnedFormatItem
    ensures { owned_shape result ≡ sequence (trees (map owned_shape items.items)) }
{
    OwnedFormatItem::Compound(items)
}

// The item of a group: an optional list of the items, a choice whose lists are the items, or a list of the items. The
// error is out of memory.
fn owned_group(
    alloc: Global,
    group: Group,
    items: Vec<OwnedFormatItem>,
) -> Result<OwnedFormatItem, AllocError>
    ensures { IfOk result (λ item. owned_shape item ≡ group_tree group (trees (map owned_shape items.items))) }
{
    match group {
        Group::Optional => {
            let item = Box::new(alloc, compound(items))?;
            Ok(OwnedFormatItem::Optional(item))
        }
        Group::First => Ok(OwnedFormatItem::First(items)),
        Group::List => Ok(compound(items)),
    }
}

// The item at the start of the text, inside a list if `nested`, and the text after it. Lists in the item may nest
// `depth` deep; for 0, an optional item or a choice is the error `NotSupported`. `read_items` calls this function only
// where `ends` is false.
#[cycle(owned)]
fn read_item<'a>(
    alloc: Global,
    version: Version,
    depth: usize,
    nested: bool,
    text: &'a [u8],
) -> Result<(OwnedFormatItem, &'a [u8]), Unread>
    ensures owns { Owns MatchesItem (grammar.item version depth nested text.now) result }
    ensures shorter { IfOk result (λ x. length x.1.now < length text.now) }
{
    match group_word(text) {
        None => {
            let (leaf, rest) = read_leaf(version, nested, text)?;
            let item = owned_leaf(alloc, leaf)?;
            Ok((item, rest))
        }
        Some((group, rest)) => {
            if depth == 0 {
                return Err(Unread::Fault(Fault::NotSupported {
                    what: Unsupported::DeepList,
                    left: text.len(),
                }));
            }
            read_group(alloc, version, depth - 1, group, text.len(), rest)
        }
    }
}

// An optional item or a choice, and the text after its closing bracket. The given text begins after its word,
// `optional` or `first`. Lists in its lists may nest `depth` deep. `opening` counts the bytes from its opening bracket
// to the end of the whole text.
#[cycle(owned)]
fn read_group<'a>(
    alloc: Global,
    version: Version,
    depth: usize,
    group: Group,
    opening: usize,
    text: &'a [u8],
) -> Result<(OwnedFormatItem, &'a [u8]), Unread>
    ensures owns { Owns MatchesItem (grammar.group_by (grammar.item version depth true) opening (group, text.now)) result }
    ensures shorter { IfOk result (λ x. length x.1.now < length text.now) }
{
    let inside = opened(group, text)?;
    let (items, unread) = read_inside(alloc, version, depth, group, opening, inside)?;
    let rest = closed(unread, opening)?;
    let item = owned_group(alloc, group, items)?;
    Ok((item, rest))
}

// The items of `optional` or the lists of `first`, given the text after the first list's opening bracket; and the text
// after the last list. `opening` counts the bytes from the group's opening bracket to the end of the whole text.
#[cycle(owned)]
fn read_inside<'a>(
    alloc: Global,
    version: Version,
    depth: usize,
    group: Group,
    opening: usize,
    text: &'a [u8],
) -> Result<(Vec<OwnedFormatItem>, &'a [u8]), Unread>
    ensures owns { Owns (λ v is. MatchesItems v.items is)
        (grammar.inside_by (grammar.list_by (grammar.item version depth true) opening) group text.now) result }
    ensures shorter { IfOk result (λ x. length x.1.now < length text.now) }
{
    match group {
        Group::Optional => read_list(alloc, version, depth, opening, text),
        _ => read_lists(alloc, version, depth, opening, text),
    }
}

// The list whose opening bracket precedes the text, those after it, and the text after the last list's closing bracket.
#[cycle(owned)]
fn read_lists<'a>(
    alloc: Global,
    version: Version,
    depth: usize,
    opening: usize,
    text: &'a [u8],
) -> Result<(Vec<OwnedFormatItem>, &'a [u8]), Unread>
    ensures owns { Owns (λ v is. MatchesItems v.items is)
        (grammar.lists_by (grammar.list_by (grammar.item version depth true) opening) (suc (length text.now)) text.now) result }
    ensures shorter { IfOk result (λ x. length x.1.now < length text.now) }
{
    let mut lists = Vec::new(alloc);
    let mut inside = text;
    loop {
        let (items, rest) = read_list(alloc, version, depth, opening, inside)?;
        lists.push(compound(items))?;
        match next_list(rest) {
            Some(next) => inside = next,
            None => return Ok((lists, rest)),
        }
    }
}

// The items of a list whose opening bracket precedes the text, and the text after its closing bracket. If that is
// missing, the error is `UnclosedOpeningBracket` at the group's opening bracket, by `opening`.
#[cycle(owned)]
fn read_list<'a>(
    alloc: Global,
    version: Version,
    depth: usize,
    opening: usize,
    text: &'a [u8],
) -> Result<(Vec<OwnedFormatItem>, &'a [u8]), Unread>
    ensures owns { Owns (λ v is. MatchesItems v.items is)
        (grammar.list_by (grammar.item version depth true) opening text.now) result }
    ensures shorter { IfOk result (λ x. length x.1.now < length text.now) }
{
    let (items, unread) = read_items(alloc, version, depth, true, text)?;
    let rest = after_closing(unread, opening)?;
    Ok((items, rest))
}

// The items at the start of the text, up to its end or, if `nested`, up to a closing bracket, and the remaining text,
// which is empty or begins with this bracket. Lists in the items may nest `depth` deep.
#[cycle(owned)]
fn read_items<'a>(
    alloc: Global,
    version: Version,
    depth: usize,
    nested: bool,
    text: &'a [u8],
) -> Result<(Vec<OwnedFormatItem>, &'a [u8]), Unread>
    ensures owns { Owns (λ v is. MatchesItems v.items is) (grammar.items version depth nested text.now) result }
    ensures ended { IfOk result (λ x. grammar.ends nested x.1.now ≡ true) }
    ensures within { IfOk result (λ x. length x.1.now ≤ length text.now) }
{
    let mut items = Vec::new(alloc);
    let mut rest = text;
    while !ends(nested, rest) {
        let (item, unread) = read_item(alloc, version, depth, nested, rest)?;
        items.push(item)?;
        rest = unread;
    }
    Ok((items, rest))
}

/// Parses a description of version 1 or 2, by `VERSION`, in the syntax of `parse_borrowed`, with any number of steps.
/// Returns the list of its items ([`OwnedFormatItem::Compound`]), with literals as bytes, allocated with `alloc`.
///
/// # Errors
///
/// [`OwnedError::Invalid`] for the fault that parsing meets first, with its index in the text, and never with
/// [`InvalidFormatDescription::TooLong`]; [`OwnedError::Memory`] if out of memory.
pub fn parse_owned<const VERSION: usize>(
    alloc: Global,
    text: &[u8],
) -> Result<OwnedFormatItem, OwnedError<'_>>
    requires { (VERSION ≡ 1) ⊎ (VERSION ≡ 2) }
    ensures { OwnedOutcome (version_of VERSION) text.now result }
{
    match read_items(alloc, version_of(VERSION), MOST_LISTS, false, text) {
        Ok((items, _rest)) => Ok(compound(items)),
        Err(Unread::Fault(fault)) => Err(OwnedError::Invalid(InvalidFormatDescription::at(
            text, fault,
        ))),
        Err(Unread::Memory(error)) => Err(OwnedError::Memory(error)),
    }
}
