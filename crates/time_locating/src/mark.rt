//! The start of a named component, the misses of a text, and the place of a text's error.
ghost use Rattle.std.specs.Prelude.{◌≡◌, ◌-◌, ℕ, List, length, Some};
ghost use Rattle.std.specs.Option.{option_map, option_copied};
ghost use Rattle.time_values.specs.Calendar.{greatest_year};
ghost use Rattle.time_values.specs.Refusal.{refusal_of_description};
ghost use Rattle.time_components.specs.Tree.{Tree};
ghost use Rattle.time_readers.specs.IsoTimes.{when};
ghost use Rattle.time_record.specs.Record.{Record};
ghost use Rattle.time_locating.specs.Marks as places;
ghost use Rattle.time_locating.specs.Located.{IsMarked, erased_miss, wants, IsLocated, place_in, erased_located};
ghost use Rattle.time_locating.specs.Marks.{MarksTree};
ghost use Rattle.time_locating.specs.Misses as misses;
ghost use Rattle.time_locating.specs.Misses.{all_bytes, furthest, literal_misses, IsFurthest, LocatesTree, Misses, LiteralReport, place_after};
ghost use Rattle.time_record.specs.WalkSteps.{Attempts};
ghost use Rattle.time_record.specs.Reading.{Reads};

use crate::{Expected, Located};
use time_components::Component;
use time_record::fault;
use time_values::error::ParseFromDescription;

// Whether errors call the component by this name. An ISO 8601 week is a `week number` if its text doesn't match, and a
// `week` if its date isn't valid: it has both names.
fn is_named(component: Component, name: &str) -> bool
    ensures { result ≡ places.is_named name.now component }
{
    match component {
        Component::WeekNumberIso(_) => name == "week number" || name == "week",
        _ => has_name(fault(component), name),
    }
}

/// The length of the input, which begins with the component, if errors call the component by this name. Otherwise
/// `None`.
pub(crate) fn mark_of(component: Component, name: &str, input: &[u8]) -> Option<usize>
    ensures { result ≡ when (places.is_named name.now component) (length input.now) }
{
    if is_named(component, name) {
        Some(input.len())
    } else {
        None
    }
}

// Whether the error is an invalid component of this name.
fn has_name(fault: ParseFromDescription, name: &str) -> bool
    ensures { result ≡ places.has_name name.now (refusal_of_description fault) }
{
    match fault {
        ParseFromDescription::InvalidComponent(own) => name == own,
        ParseFromDescription::InvalidLiteral | ParseFromDescription::UnexpectedTrailingCharacters =>
            false,
    }
}

/// Whether a place's error, `fault`, is an invalid component of this name, and the place's text isn't empty. `bytes`
/// begins with that text, and `rest` is what follows it.
pub(crate) fn is_place_of(
    fault: ParseFromDescription,
    name: &str,
    bytes: &[u8],
    rest: &[u8],
) -> bool
    ensures { result ≡ places.is_place_of name.now (refusal_of_description fault) bytes.now rest.now }
{
    rest.len() < bytes.len() && has_name(fault, name)
}

/// The index in the input at which `mark` bytes are left (0 if the input is shorter), or `None` if `mark` is `None`.
pub(crate) fn index_of(mark: Option<usize>, input: &[u8]) -> Option<usize>
    ensures text { result ≡ option_map (λ left. length input.now - left) mark }
    ensures tree { (t : Tree) (name : List ℕ) (r : Record) → MarksTree t name input.now r mark
        → IsMarked (MarksTree t) name input.now r result }
{
    let left = mark?;
    Some(input.len().saturating_sub(left))
}

/// What doesn't match: a literal from some byte on, a component, or the end of a text that has further bytes.
#[derive(Clone, Copy)]
pub(crate) struct Miss<'a> {
    /// How many bytes of the text were left where `expected` was expected.
    pub(crate) left: usize,
    /// What was expected.
    pub(crate) expected: Expected<'a>,
}

/// The miss of what is expected at the front of these bytes and isn't there. Never `None`.
#[inline]
pub(crate) fn missed_at<'a>(expected: Expected<'a>, input: &[u8]) -> Option<Miss<'a>>
    ensures { erased_miss result ≡ Some (misses.missed (length input.now) (wants expected.entry)) }
{
    Some(Miss {
        left: input.len(),
        expected,
    })
}

/// The miss in a literal: it expects the literal's bytes from the first one that doesn't match. `None` if the input
/// begins with the literal.
pub(crate) fn missed_in<'a>(text: &'a [u8], input: &[u8]) -> Option<Miss<'a>>
    ensures { erased_miss result ≡ furthest (literal_misses all_bytes text.now input.now) }
{
    let mut wanted = text;
    let mut rest = input;
    while let [byte, after @ ..] = wanted {
        match rest {
            [first, unread @ ..] if first == byte => {
                wanted = after;
                rest = unread;
            }
            _ => return missed_at(Expected::Literal(wanted), rest),
        }
    }
    None
}

/// The first miss, or the second if it leaves fewer bytes or is the only one. `None` if both are `None`.
pub(crate) fn further<'a>(first: Option<Miss<'a>>, second: Option<Miss<'a>>) -> Option<Miss<'a>>
    ensures { erased_miss result ≡ misses.further (erased_miss first.entry) (erased_miss second.entry) }
{
    match (first, second) {
        (Some(one), Some(other)) if other.left < one.left => Some(other),
        (Some(one), _) => Some(one),
        (None, _) => second,
    }
}

/// What was expected at a component with that error: the component it names, or the end for any other error.
pub(crate) fn expected_of(fault: ParseFromDescription) -> Expected<'static>
    ensures { wants result ≡ misses.expected_of (refusal_of_description fault) }
{
    match fault {
        ParseFromDescription::InvalidComponent(name) => Expected::Component(name),
        ParseFromDescription::InvalidLiteral | ParseFromDescription::UnexpectedTrailingCharacters =>
            Expected::End,
    }
}

/// The error of a text, from its unread rest (`None` if the format doesn't match) and the furthest of its misses: the
/// miss, or the end at a nonempty rest unless the miss is further on. `None` if the rest is empty, or if both are
/// `None`.
pub(crate) fn place<'d>(
    unread: Option<&[u8]>,
    missed: Option<Miss<'d>>,
    input: &[u8],
) -> Option<Located<'d>>
    ensures text { erased_located result
        ≡ place_in (length input.now) (place_after (option_copied unread.entry) (erased_miss missed.entry)) }
    ensures tree { (told : LiteralReport) (t : Tree) (r q : Record) → Attempts greatest_year t input.now r unread.entry q
        → IsFurthest (Misses told t input.now r) (erased_miss missed.entry)
        → IsLocated (Reads greatest_year t) (LocatesTree told t) input.now r result }
{
    match unread {
        Some(rest) => {
            if rest.is_empty() {
                return None;
            }
            let end = Miss {
                left: rest.len(),
                expected: Expected::End,
            };
            located(further(Some(end), missed), input)
        }
        None => located(missed, input),
    }
}

// The index of a miss in the text, with what it expects. `None` without a miss.
fn located<'d>(miss: Option<Miss<'d>>, input: &[u8]) -> Option<Located<'d>>
    ensures { erased_located result ≡ place_in (length input.now) (erased_miss miss.entry) }
{
    match miss {
        Some(miss) => Some(Located {
            index: input.len().saturating_sub(miss.left),
            expected: miss.expected,
        }),
        None => None,
    }
}
