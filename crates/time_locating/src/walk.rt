//! Walks the items of a description to find the furthest miss, and where the last component of a name begins.
pub(crate) mod steps;

ghost use Rattle.std.specs.Prelude.{ℕ, List, map, true, false};
ghost use Rattle.time_values.specs.Calendar.{greatest_year};
ghost use Rattle.time_components.specs.Tree as tree;
ghost use Rattle.time_components.specs.Tree.{first_of, sequence, trees};
ghost use Rattle.time_record.specs.WalkSteps.{Attempts};
ghost use Rattle.time_record.specs.Record.{Record};
ghost use Rattle.time_locating.specs.Located.{erased_miss};
ghost use Rattle.time_locating.specs.Marks.{MarksTree};
ghost use Rattle.time_locating.specs.Misses.{IsFurthest, Misses, MissesAll, MissesFirst, all_bytes};

use crate::mark::{Miss, expected_of, further, mark_of, missed_at, missed_in};
use time_components::{Component, FormatDescriptionV3Inner, Inspect, Node};
use time_record::Parsed;

/// What a walk over an item found.
#[derive(Clone, Copy)]
pub(crate) struct Walked<'a, 'd> {
    /// The unread rest, if the item matches.
    pub(crate) rest: Option<&'a [u8]>,
    /// The furthest miss that was found, if any. An item that matches may have one too, in a part that it doesn't need.
    pub(crate) missed: Option<Miss<'d>>,
    /// How many bytes are left at the start of the last component of the wanted name that is read, or `None` if there
    /// is none or the item doesn't match.
    pub(crate) mark: Option<usize>,
}

/// Reads an item at the front of the input, and stores the values of its components in the record. Returns the rest,
/// the furthest miss, and the mark of the last component of this name: how many bytes are left at its start. An item
/// that doesn't match leaves the record unchanged.
#[cycle(items)]
pub(crate) fn walk<'a, 'd, I: Inspect>(
    item: &'d I,
    parsed: &mut Parsed,
    input: &'a [u8],
    name: &str,
) -> Walked<'a, 'd>
    ensures reads { Attempts greatest_year (I.shape item.now) input.now parsed.old result.rest parsed.new }
    ensures misses { IsFurthest (Misses all_bytes (I.shape item.now) input.now parsed.old) (erased_miss result.missed) }
    ensures marks { MarksTree (I.shape item.now) name.now input.now parsed.old result.mark }
{
    match item.node() {
        Node::Literal(text) => literal(text, input),
        Node::Component(component) => read_component(*component, parsed, input, name),
        Node::WholeComponent(component) => read_whole_component(*component, parsed, input, name),
        Node::List(items) => walk_all(items, parsed, input, name),
        Node::Optional(item) => {
            let walked = walk(item, parsed, input, name);
            Walked {
                rest: Some(walked.rest.unwrap_or(input)),
                missed: walked.missed,
                mark: walked.mark,
            }
        }
        Node::First(items) => walk_first(items, parsed, input, name),
    }
}

/// Reads items in turn, each from the rest that the one before leaves. If one doesn't match, neither does the whole,
/// and the record is unchanged. Returns the furthest miss; of several at one index, that of the last item. Without any
/// items the empty text matches.
#[cycle(items)]
pub(crate) fn walk_all<'a, 'd, I: Inspect>(
    items: &'d [I],
    parsed: &mut Parsed,
    input: &'a [u8],
    name: &str,
) -> Walked<'a, 'd>
    ensures reads { Attempts greatest_year (sequence (trees (map I.shape items.now))) input.now parsed.old result.rest parsed.new }
    ensures misses { IsFurthest (MissesAll all_bytes (trees (map I.shape items.now)) input.now parsed.old)
        (erased_miss result.missed) }
    ensures marks { MarksTree (sequence (trees (map I.shape items.now))) name.now input.now parsed.old result.mark }
{
    let before = *parsed;
    let mut rest = input;
    let mut furthest = None;
    let mut last = None;
    for item in items {
        let walked = walk(item, parsed, rest, name);
        furthest = further(walked.missed, furthest);
        last = walked.mark.or(last);
        match walked.rest {
            Some(unread) => rest = unread,
            None => {
                *parsed = before;
                return Walked {
                    rest: None,
                    missed: furthest,
                    mark: None,
                };
            }
        }
    }
    Walked {
        rest: Some(rest),
        missed: furthest,
        mark: last,
    }
}

// Reads the first of the items that matches. If none does, the record is unchanged. Returns the furthest miss of all
// items that were tried; of several at one index, that of the first item. Without any items the empty text matches, and
// the rest is the input.
#[cycle(items)]
fn walk_first<'a, 'd, I: Inspect>(
    items: &'d [I],
    parsed: &mut Parsed,
    input: &'a [u8],
    name: &str,
) -> Walked<'a, 'd>
    ensures reads { Attempts greatest_year (first_of (trees (map I.shape items.now))) input.now parsed.old result.rest parsed.new }
    ensures misses { IsFurthest (MissesFirst all_bytes (trees (map I.shape items.now)) input.now parsed.old)
        (erased_miss result.missed) }
    ensures marks { MarksTree (first_of (trees (map I.shape items.now))) name.now input.now parsed.old result.mark }
{
    let mut furthest = None;
    for item in items {
        let walked = walk(item, parsed, input, name);
        furthest = further(furthest, walked.missed);
        if let Some(rest) = walked.rest {
            return Walked {
                rest: Some(rest),
                missed: furthest,
                mark: walked.mark,
            };
        }
    }
    if items.is_empty() {
        return Walked {
            rest: Some(input),
            missed: furthest,
            mark: None,
        };
    }
    Walked {
        rest: None,
        missed: furthest,
        mark: None,
    }
}

// Reads a literal, the bytes `text`, at the front of the input. Without a match the miss is at the literal's first byte
// that isn't there, and expects the literal's bytes from that one on. There is never a mark.
fn literal<'a, 'd>(text: &'d [u8], input: &'a [u8]) -> Walked<'a, 'd>
    ensures reads { (r : Record) → Attempts greatest_year (tree.literal text.now) input.now r result.rest r }
    ensures misses { (r : Record) → IsFurthest (Misses all_bytes (tree.literal text.now) input.now r)
        (erased_miss result.missed) }
    ensures marks { (r : Record) (name : List ℕ) → MarksTree (tree.literal text.now) name input.now r result.mark }
{
    match Parsed::parse_literal(input, text) {
        Ok(rest) => Walked {
            rest: Some(rest),
            missed: None,
            mark: None,
        },
        Err(_) => Walked {
            rest: None,
            missed: missed_in(text, input),
            mark: None,
        },
    }
}

// Reads a component at the front of the input, and stores its value. Without a match the miss is at the start of the
// input, and the record is unchanged. An `Ignore` may end inside a UTF-8 character.
fn read_component<'a>(
    component: Component,
    parsed: &mut Parsed,
    input: &'a [u8],
    name: &str,
) -> Walked<'a, 'static>
    ensures reads { Attempts greatest_year (tree.component false component) input.now parsed.old result.rest parsed.new }
    ensures misses { IsFurthest (Misses all_bytes (tree.component false component) input.now parsed.old)
        (erased_miss result.missed) }
    ensures marks { MarksTree (tree.component false component) name.now input.now parsed.old result.mark }
{
    match parsed.parse_component(input, component) {
        Ok(rest) => Walked {
            rest: Some(rest),
            missed: None,
            mark: mark_of(component, name, input),
        },
        Err(fault) => Walked {
            rest: None,
            missed: missed_at(expected_of(fault), input),
            mark: None,
        },
    }
}

// Reads a component at the front of the input, and stores its value. Without a match the miss is at the start of the
// input, and the record is unchanged. An `Ignore` matches only if the skipped bytes end between UTF-8 characters.
fn read_whole_component<'a>(
    component: Component,
    parsed: &mut Parsed,
    input: &'a [u8],
    name: &str,
) -> Walked<'a, 'static>
    ensures reads { Attempts greatest_year (tree.component true component) input.now parsed.old result.rest parsed.new }
    ensures misses { IsFurthest (Misses all_bytes (tree.component true component) input.now parsed.old)
        (erased_miss result.missed) }
    ensures marks { MarksTree (tree.component true component) name.now input.now parsed.old result.mark }
{
    match parsed.parse_v3(input, &FormatDescriptionV3Inner::Component(component)) {
        Ok(rest) => Walked {
            rest: Some(rest),
            missed: None,
            mark: mark_of(component, name, input),
        },
        Err(fault) => Walked {
            rest: None,
            missed: missed_at(expected_of(fault), input),
            mark: None,
        },
    }
}
