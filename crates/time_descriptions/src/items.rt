//! Parsers of a description's items, which append steps.
ghost use Rattle.std.specs.Prelude.{◌≡◌, ◌<◌, ◌≤◌, ◌+◌, ◌-◌, ◌++◌, ◌∷◌, [], length, suc, map, true, IfOk, IfErr, IfSome, OnOk, slice_set};
ghost use Rattle.std.specs.List.{prefix_len};
ghost use Rattle.time_descriptions.specs.Components.{Returns, Adds};
ghost use Rattle.time_descriptions.specs.Grammar as grammar;
ghost use Rattle.time_descriptions.specs.Items.{flat, steps_of, leaf_item, Finds};
ghost use Rattle.time_descriptions.specs.declared.error.Fault.TheVariants as fault;
ghost use Rattle.time_components.specs.declared.inspect.Group.TheVariants as groups;
ghost use Rattle.time_components.specs.declared.inspect.Step.TheVariants as step;

use crate::error::{Expectation, Fault, Unsupported};
use crate::leaf::{Group, Leaf, Step, Version, read_leaf};
use crate::names::{after, front, space_len, word_len};
use arrayvec::ArrayVec;

// Whether items end here: at the end of the text or, if `nested`, before a closing bracket.
pub(crate) fn ends(nested: bool, text: &[u8]) -> bool
    ensures { result ≡ grammar.ends nested text.now }
{
    match text {
        [] => true,
        [first, ..] => nested && *first == b']',
    }
}

// The group that the word opens: lowercase `optional` or `first`. `None` for another word.
fn group_named(word: &[u8]) -> Option<Group>
    ensures { result ≡ grammar.group_named word.now }
{
    if word == b"optional".as_slice() {
        Some(Group::Optional)
    } else if word == b"first".as_slice() {
        Some(Group::First)
    } else {
        None
    }
}

// The group that the text begins with, and the text after the group's word. `None` if the text doesn't begin with an
// opening bracket, maybe white space, and then exactly the word `optional` or `first`.
#[tactic(auto, unfolding(crate::specs::Grammar::group_word))]
pub(crate) fn group_word(text: &[u8]) -> Option<(Group, &[u8])>
    ensures found { Finds (λ x. (x.0, x.1.now)) result (grammar.group_word text.now) }
    ensures shorter { IfSome result (λ x. length x.1.now < length text.now) }
{
    let [b'[', rest @ ..] = text else {
        return None;
    };
    let named = after(rest, space_len(rest));
    let len = word_len(named);
    match group_named(front(named, len)) {
        Some(group) => Some((group, after(named, len))),
        None => None,
    }
}

// The text after the bracket that opens a group's first list. The given text begins after the group's word. The error
// is `Expected`: white space if none begins the text, or else the bracket if it doesn't follow the white space.
#[tactic(auto, unfolding(crate::specs::Grammar::opened))]
pub(crate) fn opened(group: Group, text: &[u8]) -> Result<&[u8], Fault>
    ensures reads { Returns (λ x. x.now) result (grammar.opened group text.now) }
    ensures shorter { IfOk result (λ rest. length rest.now + 2 ≤ length text.now) }
{
    let space = space_len(text);
    if space == 0 {
        let what = match group {
            Group::Optional => Expectation::SpaceAfterOptional,
            _ => Expectation::SpaceAfterFirst,
        };
        return Err(Fault::Expected {
            what,
            left: text.len(),
        });
    }
    let begun = after(text, space);
    match begun {
        [b'[', rest @ ..] => Ok(rest),
        _ => Err(Fault::Expected {
            what: Expectation::OpeningBracket,
            left: begun.len(),
        }),
    }
}

// The text after the opening bracket of a group's next list, which white space may precede. `None` if no such bracket
// follows.
#[tactic(auto, unfolding(crate::specs::Grammar::next_list))]
pub(crate) fn next_list(text: &[u8]) -> Option<&[u8]>
    ensures found { Finds (λ x. x.now) result (grammar.next_list text.now) }
    ensures shorter { IfSome result (λ x. length x.now < length text.now) }
{
    match after(text, space_len(text)) {
        [b'[', rest @ ..] => Some(rest),
        _ => None,
    }
}

// The text after the closing bracket at its start, or else the error `UnclosedOpeningBracket` at `opening`, which
// counts the bytes from the group's opening bracket to the end of the whole text.
pub(crate) fn after_closing(text: &[u8], opening: usize) -> Result<&[u8], Fault>
    ensures reads { Returns (λ x. x.now) result (grammar.after_byte 93 (fault.UnclosedOpeningBracket opening) text.now) }
    ensures shorter { IfOk result (λ rest. length rest.now < length text.now) }
{
    match text {
        [b']', rest @ ..] => Ok(rest),
        _ => Err(Fault::UnclosedOpeningBracket { left: opening }),
    }
}

// The text after a group's closing bracket, which white space may precede, or else the error `UnclosedOpeningBracket`.
// `opening` counts the bytes from the group's opening bracket to the end of the whole text.
#[tactic(auto, unfolding(crate::specs::Grammar::closed))]
pub(crate) fn closed(text: &[u8], opening: usize) -> Result<&[u8], Fault>
    ensures reads { Returns (λ x. x.now) result (grammar.closed opening text.now) }
    ensures shorter { IfOk result (λ rest. length rest.now < length text.now) }
{
    after_closing(after(text, space_len(text)), opening)
}

// Appends a step. The error is `NoRoom` if there are already `N` steps.
pub(crate) fn push<const N: usize>(steps: &mut ArrayVec<Step, N>, step: Step) -> Result<(), Fault>
    ensures ok { OnOk result (steps.new.items ≡ steps.old.items ++ step ∷ []) }
    ensures room { OnOk result (length steps.new.items ≤ N) }
    ensures err { IfErr result (λ e. (e ≡ fault.NoRoom) × (length steps.old.items ≡ N)) }
{
    match steps.try_push(step) {
        Ok(()) => Ok(()),
        Err(_) => Err(Fault::NoRoom),
    }
}

// Appends the steps of a literal or component. The error is `NoRoom` if not all fit; some may then have been appended.
fn push_leaf<const N: usize>(steps: &mut ArrayVec<Step, N>, leaf: Leaf<'_>) -> Result<(), Fault>
    ensures ok { OnOk result (steps.new.items ≡ steps.old.items ++ steps_of (leaf_item leaf.entry)) }
    ensures room { OnOk result (length steps.new.items ≤ N) }
    ensures err { IfErr result (λ e. (e ≡ fault.NoRoom)
        × (N < length steps.old.items + length (steps_of (leaf_item leaf.entry)))) }
{
    match leaf {
        Leaf::Component(component) => push(steps, Step::Component(component)),
        Leaf::Literal(first, further) => {
            push(steps, Step::Literal(first))?;
            push_further(steps, further)
        }
    }
}

// Appends a step for each further byte of a literal. The error is `NoRoom` if not all fit; some may then have been
// appended.
fn push_further<const N: usize>(steps: &mut ArrayVec<Step, N>, bytes: &[u8]) -> Result<(), Fault>
    ensures ok { OnOk result (steps.new.items ≡ steps.old.items ++ map step.More bytes.now) }
    ensures room { OnOk result (length steps.old.items ≤ N → length steps.new.items ≤ N) }
    ensures err { IfErr result (λ e. (e ≡ fault.NoRoom) × (N < length steps.old.items + length bytes.now)) }
{
    for byte in bytes {
        push(steps, Step::More(*byte))?;
    }
    Ok(())
}

// Appends a group of no steps, and returns its index. `close_group` sets its length later. The error is `NoRoom` if
// there are already `N` steps.
fn open_group<const N: usize>(steps: &mut ArrayVec<Step, N>, group: Group) -> Result<usize, Fault>
    ensures ok { IfOk result (λ index. (index ≡ length steps.old.items)
        × (steps.new.items ≡ steps.old.items ++ step.Group group 0 ∷ []) × (length steps.old.items < N)) }
    ensures err { IfErr result (λ e. (e ≡ fault.NoRoom) × (length steps.old.items ≡ N)) }
{
    let index = steps.len();
    push(steps, Step::Group(group, 0))?;
    Ok(index)
}

// Sets the length of the group at the index, so that it contains all steps after it.
fn close_group<const N: usize>(steps: &mut ArrayVec<Step, N>, group: Group, index: usize)
    requires { index < length steps.old.items }
    ensures { steps.new.items ≡ slice_set steps.old.items index
        (step.Group group (length steps.old.items - index - 1)) }
{
    let len = steps.len() - index - 1;
    steps[index] = Step::Group(group, len);
}

// Appends the steps of the literal or component at the start of the text, inside a list if `nested`, and returns the
// text after it. The error is its first fault, or `NoRoom` if its steps don't fit.
fn add_leaf<'a, const N: usize>(
    version: Version,
    nested: bool,
    text: &'a [u8],
    steps: &mut ArrayVec<Step, N>,
) -> Result<&'a [u8], Fault>
    ensures adds { Adds steps_of N (grammar.leaf version nested text.now) (grammar.leaf_step_count version nested text.now)
        (length text.now) steps.old.items result steps.new.items }
    ensures shorter { IfOk result (λ rest. length rest.now < length text.now) }
{
    match read_leaf(version, nested, text) {
        Err(fault) => Err(fault),
        Ok((leaf, rest)) => {
            push_leaf(steps, leaf)?;
            Ok(rest)
        }
    }
}

// Appends the steps of the item at the start of the text, inside a list if `nested`, and returns the text after it.
// Lists in the item may nest `depth` deep; for 0, an optional item or a choice is the error `NotSupported`.
#[cycle(items)]
fn add_item<'a, const N: usize>(
    version: Version,
    depth: usize,
    nested: bool,
    text: &'a [u8],
    steps: &mut ArrayVec<Step, N>,
) -> Result<&'a [u8], Fault>
    ensures adds { Adds steps_of N (grammar.item version depth nested text.now)
        (grammar.item_step_count version depth nested text.now) (length text.now) steps.old.items result steps.new.items }
    ensures shorter { IfOk result (λ rest. length rest.now < length text.now) }
{
    match group_word(text) {
        None => add_leaf(version, nested, text, steps),
        Some((group, rest)) => {
            if depth == 0 {
                return Err(Fault::NotSupported {
                    what: Unsupported::DeepList,
                    left: text.len(),
                });
            }
            add_group(version, depth - 1, group, text.len(), rest, steps)
        }
    }
}

// Appends an optional item or a choice as a group, and returns the text after its closing bracket. The given text
// begins after its word, `optional` or `first`. Lists in the group's lists may nest `depth` deep. `opening` counts the
// bytes from the group's opening bracket to the end of the whole text.
#[cycle(items)]
fn add_group<'a, const N: usize>(
    version: Version,
    depth: usize,
    group: Group,
    opening: usize,
    text: &'a [u8],
    steps: &mut ArrayVec<Step, N>,
) -> Result<&'a [u8], Fault>
    ensures { let item = grammar.item version depth true in let begun = grammar.item_step_count version depth true in
        Adds steps_of N (grammar.group_by item opening (group, text.now))
        (grammar.group_step_count item begun opening (group, text.now)) (length text.now) steps.old.items result steps.new.items }
{
    match opened(group, text) {
        Err(fault) => Err(fault),
        Ok(inside) => {
            let index = open_group(steps, group)?;
            match add_inside(version, depth, group, opening, inside, steps) {
                Err(fault) => Err(fault),
                Ok(rest) => {
                    close_group(steps, group, index);
                    closed(rest, opening)
                }
            }
        }
    }
}

// Appends the contents of a group, given the text after the opening bracket of its first list. Returns the text after
// the closing bracket of its last list. The group's own closing bracket isn't parsed.
#[cycle(items)]
fn add_inside<'a, const N: usize>(
    version: Version,
    depth: usize,
    group: Group,
    opening: usize,
    text: &'a [u8],
    steps: &mut ArrayVec<Step, N>,
) -> Result<&'a [u8], Fault>
    ensures { let item = grammar.item version depth true in let begun = grammar.item_step_count version depth true in
        Adds flat N (grammar.inside_by (grammar.list_by item opening) group text.now)
        (grammar.inside_step_count item begun opening group text.now) (length text.now + 1) steps.old.items
        result steps.new.items }
{
    match group {
        Group::Optional => add_list(version, depth, opening, text, steps),
        _ => add_lists(version, depth, opening, text, steps),
    }
}

// Appends the list whose opening bracket precedes the text, and those after it, each as a group with its items. Returns
// the text after the last list's closing bracket.
#[cycle(items)]
fn add_lists<'a, const N: usize>(
    version: Version,
    depth: usize,
    opening: usize,
    text: &'a [u8],
    steps: &mut ArrayVec<Step, N>,
) -> Result<&'a [u8], Fault>
    ensures { let item = grammar.item version depth true in let begun = grammar.item_step_count version depth true in
        Adds flat N (grammar.lists_by (grammar.list_by item opening) (suc (length text.now)) text.now)
        (grammar.lists_step_count item begun opening (suc (length text.now)) text.now) (length text.now + 1) steps.old.items
        result steps.new.items }
{
    let mut inside = text;
    loop {
        let index = open_group(steps, Group::List)?;
        match add_list(version, depth, opening, inside, steps) {
            Err(fault) => return Err(fault),
            Ok(rest) => {
                close_group(steps, Group::List, index);
                match next_list(rest) {
                    Some(next) => inside = next,
                    None => return Ok(rest),
                }
            }
        }
    }
}

// Appends the items of a list whose opening bracket precedes the text, and returns the text after its closing bracket.
// If that is missing, the error is `UnclosedOpeningBracket` at the group's opening bracket, by `opening`.
#[cycle(items)]
fn add_list<'a, const N: usize>(
    version: Version,
    depth: usize,
    opening: usize,
    text: &'a [u8],
    steps: &mut ArrayVec<Step, N>,
) -> Result<&'a [u8], Fault>
    ensures adds { let item = grammar.item version depth true in let begun = grammar.item_step_count version depth true in
        Adds flat N (grammar.list_by item opening text.now) (grammar.list_step_count item begun text.now) (length text.now)
        steps.old.items result steps.new.items }
    ensures shorter { IfOk result (λ rest. length rest.now < length text.now) }
{
    match add_items(version, depth, true, text, steps) {
        Err(fault) => Err(fault),
        Ok(rest) => after_closing(rest, opening),
    }
}

/// Parses the items at the start of the text, up to its end or, if `nested`, up to a closing bracket. Appends their
/// steps, and returns the remaining text, which is empty or begins with this bracket. Lists may nest `depth` deep. The
/// error is `NoRoom` if the earlier steps and those started up to the first fault or the end of the items exceed `N`,
/// and otherwise the first fault. After an error, some steps may have been appended.
#[cycle(items)]
pub fn add_items<'a, const N: usize>(
    version: Version,
    depth: usize,
    nested: bool,
    text: &'a [u8],
    steps: &mut ArrayVec<Step, N>,
) -> Result<&'a [u8], Fault>
    ensures adds { let item = grammar.item version depth nested in let begun = grammar.item_step_count version depth nested in
        Adds flat N (grammar.items version depth nested text.now)
        (grammar.items_step_count item begun (length text.now) nested text.now) (length text.now) steps.old.items
        result steps.new.items }
    ensures ended { IfOk result (λ rest. grammar.ends nested rest.now ≡ true) }
{
    let mut rest = text;
    while !ends(nested, rest) {
        match add_item(version, depth, nested, rest, steps) {
            Ok(unread) => rest = unread,
            Err(fault) => return Err(fault),
        }
    }
    Ok(rest)
}
