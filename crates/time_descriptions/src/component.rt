//! A component in brackets: its name and its modifiers.
ghost use Rattle.std.specs.Prelude.{◌≡◌, ℕ, suc, ◌<◌, ◌≤◌, length, IfOk};
ghost use Rattle.time_descriptions.specs.Components as components;
ghost use Rattle.time_descriptions.specs.Components.{Returns};
ghost use Rattle.time_descriptions.specs.Modifiers as chosen;

use crate::error::{Expectation, Fault};
use crate::modifiers::{Modifiers, component_of};
use crate::names::{
    ComponentName, after, component_name, front, modifier_key, space_len, word_len,
};
use crate::values::{Modifier, modifier_value};
use time_components::Component;

// The number of bytes before the first colon, or of all bytes if there is no colon.
fn colon(text: &[u8]) -> usize
    ensures count { result ≡ components.colon text.now }
    ensures within { result ≤ length text.now }
{
    text.iter().take_while(|byte| **byte != b':').count()
}

// The modifier of the component that a word, `key:value`, gives. The error is `InvalidModifier`: with the word if it
// has no colon, with the key if the component has no such key, or with the value if the key has no such value. `left`
// counts the bytes from the word to the end of the whole text.
#[tactic(auto, unfolding(crate::specs::Components::modifier))]
fn read_modifier(name: ComponentName, text: &[u8], left: usize) -> Result<Modifier, Fault>
    requires { length text.now ≤ left }
    ensures { result ≡ components.modifier name text.now left }
{
    let at = colon(text);
    if at == text.len() {
        return Err(Fault::InvalidModifier {
            left,
            len: text.len(),
        });
    }
    let value = after(text, at + 1);
    let Some(key) = modifier_key(name, front(text, at)) else {
        return Err(Fault::InvalidModifier { left, len: at });
    };
    match modifier_value(name, key, value) {
        Some(modifier) => Ok(modifier),
        None => Err(Fault::InvalidModifier {
            left: left - at - 1,
            len: value.len(),
        }),
    }
}

// The values of the component's modifiers at the start of the text, and the text after them and white space; or the
// error of the first invalid one. A later modifier replaces an earlier one of its key, and a value without a modifier
// has its default.
fn read_modifiers(name: ComponentName, text: &[u8]) -> Result<(Modifiers, &[u8]), Fault>
    ensures within { IfOk result (λ x. length x.1.now ≤ length text.now) }
    ensures reads { Returns (λ x. (x.0, x.1.now)) result
        (components.modifiers name (suc (length text.now)) chosen.default text.now) }
{
    let mut modifiers = Modifiers::DEFAULT;
    let mut rest = text;
    loop {
        let begun = after(rest, space_len(rest));
        let len = word_len(begun);
        if len == 0 {
            return Ok((modifiers, begun));
        }
        match read_modifier(name, front(begun, len), begun.len()) {
            Ok(modifier) => modifiers = modifiers.with(modifier),
            Err(fault) => return Err(fault),
        }
        rest = after(begun, len);
    }
}

// The text after the closing bracket at its start. If it begins with an opening bracket, the error is `Expected` there;
// if it is empty or begins with another byte, `UnclosedOpeningBracket`. `opening` counts the bytes from the component's
// bracket to the end of the whole text.
fn after_component(text: &[u8], opening: usize) -> Result<&[u8], Fault>
    ensures reads { Returns (λ x. x.now) result (components.after_component opening text.now) }
    ensures shorter { IfOk result (λ x. length x.now < length text.now) }
{
    match text {
        [b']', rest @ ..] => Ok(rest),
        [b'[', ..] => Err(Fault::Expected {
            what: Expectation::Modifier,
            left: text.len(),
        }),
        _ => Err(Fault::UnclosedOpeningBracket { left: opening }),
    }
}

/// The component in the brackets at the start of the text, and the text after its closing bracket; or the first fault.
/// The text must not be empty; its first byte is taken as the opening bracket, unchecked. The missing `count` of an
/// `ignore` is the fault only if the brackets have no other fault.
#[tactic(auto, unfolding(crate::specs::Components::bracketed))]
pub fn bracketed(text: &[u8]) -> Result<(Component, &[u8]), Fault>
    requires { 1 ≤ length text.now }
    ensures reads { Returns (λ x. (x.0, x.1.now)) result (components.bracketed text.now) }
    ensures shorter { IfOk result (λ x. length x.1.now < length text.now) }
{
    let inside = after(text, 1);
    let space = space_len(inside);
    let named = after(inside, space);
    let len = word_len(named);
    if len == 0 {
        let left = if space == 0 { text.len() } else { inside.len() };
        return Err(Fault::MissingComponentName { left });
    }
    let Some(name) = component_name(front(named, len)) else {
        return Err(Fault::InvalidComponentName {
            left: named.len(),
            len,
        });
    };
    let (modifiers, rest) = read_modifiers(name, after(named, len))?;
    let rest = after_component(rest, text.len())?;
    match component_of(name, modifiers) {
        Some(component) => Ok((component, rest)),
        None => Err(Fault::MissingCount { left: named.len() }),
    }
}
