//! Descriptions that are short, truncated or changed, parsed by the library and by a slow parser.
ghost use Rattle.std.specs.Prelude.{◌≡◌, ◌⊎◌};

use crate::slow::{NAMES, Slow};
use std::alloc::Global;
use time_descriptions::{OwnedError, parse_borrowed, parse_owned};

// Whether the text has the slow parser's error in that version, in room for 128 steps, and as an item that owns its
// parts.
fn errors_agree_in<const VERSION: usize>(alloc: Global, text: &[u8]) -> bool
    requires { (VERSION ≡ 1) ⊎ (VERSION ≡ 2) }
{
    let version = VERSION;
    let fault = Slow { text, version }.fault();
    parse_borrowed::<VERSION, 128>(text).err() == fault
        && parse_owned::<VERSION>(alloc, text).err() == fault.map(OwnedError::Invalid)
}

// Whether the text has the slow parser's error in both versions.
fn errors_agree(alloc: Global, text: &[u8]) -> bool {
    errors_agree_in::<1>(alloc, text) && errors_agree_in::<2>(alloc, text)
}

// The alphabet of the short texts.
static ALPHABET: [u8; 7] = [b'[', b']', b'\\', b' ', b':', b'd', b'1'];

// The text whose letters are the digits of the number in base 7.
fn short_text(number: u32, len: usize) -> [u8; 6] {
    let mut text = [0u8; 6];
    let mut left = number;
    for place in 0..len.min(6) {
        text[place] = ALPHABET[(left % 7) as usize];
        left /= 7;
    }
    text
}

#[test]
fn short_texts(rt: HostRuntime) {
    let mut tried = 0u32;
    let mut texts = 1u32;
    for len in 0..7usize {
        for number in 0..texts {
            let text = short_text(number, len);
            assert!(rt;
                errors_agree(rt.alloc(), &text[..len.min(6)]),
                "number {number} of {len} bytes"
            );
        }
        tried = tried.saturating_add(texts);
        texts = texts.saturating_mul(7);
    }
    assert_eq!(rt; tried, 137257);
}

// Whether the text has the slow parser's error with each letter of the alphabet at the place.
fn errors_agree_if_changed(alloc: Global, text: &[u8], place: usize) -> bool {
    let mut bytes = [0u8; 64];
    let Some(changed) = bytes.get_mut(..text.len()) else {
        return false;
    };
    changed.copy_from_slice(text);
    for byte in &ALPHABET {
        if let Some(it) = changed.get_mut(place) {
            *it = *byte;
        }
        if !errors_agree(alloc, changed) {
            return false;
        }
    }
    true
}

// How many texts around this one were tried: each prefix, and each with one byte changed. `None`: one of them has
// another error than that of the slow parser.
fn tried_around(alloc: Global, text: &[u8]) -> Option<usize> {
    let mut tried = 1usize;
    for end in 0..text.len() {
        if !(errors_agree(alloc, &text[..end]) && errors_agree_if_changed(alloc, text, end)) {
            return None;
        }
        tried = tried.saturating_add(8);
    }
    if errors_agree(alloc, text) {
        Some(tried)
    } else {
        None
    }
}

// How many texts around a component with that modifier were tried.
fn tried_of(alloc: Global, name: &str, key: &str, value: &str) -> Option<usize> {
    let text = format!(in alloc; "[{name} {key}:{value}]").ok()?;
    tried_around(alloc, text.as_bytes())
}

#[test]
fn names_and_values(rt: HostRuntime) {
    let mut tried = tried_of(rt.alloc(), "ignore", "count", "65535").unwrap_or(0);
    for (name, keys) in &NAMES {
        for (key, values) in *keys {
            for value in *values {
                let around = tried_of(rt.alloc(), name, key, value);
                assert!(rt; around.is_some(), "{name} {key}:{value}");
                tried = tried.saturating_add(around.unwrap_or(0));
            }
        }
    }
    assert_eq!(rt; tried, 15893);
}

static GROUPS: [&[u8]; 3] = [
    b"[optional [[day]]]",
    b"[first [[day]] [a\\]b]]",
    b"[optional [[first [[hour]:[minute]] [-]]]]",
];

#[test]
fn groups(rt: HostRuntime) {
    let mut tried = 0usize;
    for text in &GROUPS {
        let around = tried_around(rt.alloc(), text);
        assert!(rt; around.is_some(), "{}", text.escape_ascii());
        tried = tried.saturating_add(around.unwrap_or(0));
    }
    assert_eq!(rt; tried, 659);
}

// Eleven nested optional items.
const NESTED: &[u8] = b"\
    [optional [[optional [[optional [[optional [[optional [[optional [\
    [optional [[optional [[optional [[optional [[optional [\
    ]]]]]]]]]]]]]]]]]]]]]]";

// Nested optional items.
fn nested(levels: usize) -> &'static [u8] {
    let outer = 11usize.saturating_sub(levels);
    let from = outer.saturating_mul(11);
    let to = NESTED.len().saturating_sub(outer.saturating_mul(2));
    NESTED.get(from..to).unwrap_or(b"")
}

#[test]
fn deep_lists(rt: HostRuntime) {
    for levels in 1..12usize {
        assert!(rt; errors_agree(rt.alloc(), nested(levels)), "{levels} levels");
    }
}
