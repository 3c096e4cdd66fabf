//! Items without other items inside them, their steps, and the versions of descriptions.
ghost use Rattle.std.specs.Prelude.{◌≡◌, ◌+◌, ◌<◌, ◌≤◌, length, IfOk};
ghost use Rattle.std.specs.List.{prefix_len};
ghost use Rattle.time_descriptions.specs.Components.{Returns};
ghost use Rattle.time_descriptions.specs.Grammar as grammar;
ghost use Rattle.time_descriptions.specs.Items.{steps_of, leaf_item};

use crate::component::bracketed;
use crate::error::{Expectation, Fault};
use crate::names::{after, front};
use time_components::Component;
pub use time_components::{Group, Step};

/// An item without other items inside it: a literal of one or more bytes, or a component.
#[derive(Clone, Copy)]
pub enum Leaf<'a> {
    /// The first byte of a literal, and its further bytes, which may be none.
    Literal(u8, &'a [u8]),
    /// A component.
    Component(Component),
}

// Whether a backslash escapes the next byte: only in version 2.
#[inline(always)]
fn has_backslash(version: Version) -> bool
    ensures { result ≡ grammar.has_backslash version }
{
    matches!(version, Version::Two)
}

// The number of plain bytes at the start of the text. All bytes are plain but `[`, in version 2 `\`, and inside a list,
// which `nested` means, `]`.
fn plain_len(version: Version, nested: bool, text: &[u8]) -> usize
    ensures count { result ≡ prefix_len (grammar.is_plain version nested) text.now }
    ensures within { result ≤ length text.now }
{
    let has_backslash = has_backslash(version);
    text.iter()
        .take_while(|byte| {
            **byte != b'[' && !(has_backslash && **byte == b'\\') && !(nested && **byte == b']')
        })
        .count()
}

// The `[`, `\` or `]` at the start of the text as a literal, and the text after it. The given text begins after a
// backslash. If it is empty or begins with another byte, the error is `Expected` there.
fn escaped(text: &[u8]) -> Result<(Leaf<'_>, &[u8]), Fault>
    ensures reads { Returns (λ x. (leaf_item x.0, x.1.now)) result (grammar.escaped text.now) }
    ensures takes { IfOk result (λ x. length (steps_of (leaf_item x.0)) + length x.1.now ≤ length text.now) }
{
    match text {
        [byte @ (b'[' | b'\\' | b']'), rest @ ..] => Ok((Leaf::Literal(*byte, &[]), rest)),
        _ => Err(Fault::Expected {
            what: Expectation::EscapedByte,
            left: text.len(),
        }),
    }
}

/// The literal, escape or component at the start of the text, and the text after it; or the first fault, for an empty
/// text `MissingComponentName`. A literal ends before `[`, in version 2 also before `\`, and if `nested` (in a list)
/// before `]`; but a `]` may begin it. An escape is a literal byte: in version 1 `[[`, in version 2 `\[`, `\\` or `\]`.
#[tactic(auto, unfolding(crate::specs::Grammar::leaf))]
pub fn read_leaf(version: Version, nested: bool, text: &[u8]) -> Result<(Leaf<'_>, &[u8]), Fault>
    ensures reads { Returns (λ x. (leaf_item x.0, x.1.now)) result (grammar.leaf version nested text.now) }
    ensures takes { IfOk result (λ x. length (steps_of (leaf_item x.0)) + length x.1.now ≤ length text.now) }
    ensures shorter { IfOk result (λ x. length x.1.now < length text.now) }
{
    let [first, rest @ ..] = text else {
        return Err(Fault::MissingComponentName { left: 0 });
    };
    match *first {
        b'[' => match rest {
            [b'[', rest @ ..] if !has_backslash(version) => Ok((Leaf::Literal(b'[', &[]), rest)),
            _ => {
                let (component, rest) = bracketed(text)?;
                Ok((Leaf::Component(component), rest))
            }
        },
        b'\\' if has_backslash(version) => escaped(rest),
        byte => {
            let len = plain_len(version, nested, rest);
            Ok((Leaf::Literal(byte, front(rest, len)), after(rest, len)))
        }
    }
}

/// Version 1 or 2 of the syntax of descriptions. They differ only in how a literal bracket or backslash is written.
#[derive(Clone, Copy)]
pub enum Version {
    /// `[[` is a literal `[`, and a backslash is a literal byte.
    One,
    /// A backslash escapes the bracket or the backslash after it, and is an error before another byte or at the end.
    Two,
}
