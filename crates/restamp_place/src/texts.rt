//! Searches bytes.
ghost use Rattle.std.specs.Prelude.{◌≡◌, ◌≤◌, ◌<◌, ◌==◌, ◌+◌, ℕ, true, false, IsTrue, length, slice_index, not, IfSome};
ghost use Rattle.std.specs.List.{prefix_len, position_or_len};
ghost use Rattle.std.specs.Simd.Lanes.{chunk};
ghost use Rattle.memchr.specs.Find.{FindsNeedle, IsFirst, Nowhere, OccursAt, occurs_at};
ghost use Rattle.restamp_place.specs.Fields as fields;
ghost use Rattle.restamp_place.specs.Places as texts;

use memchr::{memchr, memmem};
use std::simd::prelude::*;

// How many bytes are compared at once.
const BLOCK: usize = 16;

// The greatest length in bytes of a text searched without `memmem`, whose preparation costs some 300 instructions.
const SHORT: usize = 32;

/// How many bytes come before the first occurrence of `byte`, or before the end.
#[inline]
#[tactic(auto, using(crate::proofs::TextLemmas::first_places))]
pub(crate) fn length_before(byte: u8, bytes: &[u8]) -> usize
    ensures value { result ≡ position_or_len (λ x. x == byte) bytes.now }
    ensures within { result ≤ length bytes.now }
{
    memchr(byte, bytes).unwrap_or(bytes.len())
}

// How many of the sixteen bytes from `at` come before the first occurrence of `byte`; 16 if it doesn't occur in them.
#[inline(always)]
fn place_in_block(byte: u8, bytes: &[u8], at: usize) -> usize
    requires { at + 16 ≤ length bytes.now }
    ensures { result ≡ prefix_len (λ x. not (x == byte)) (chunk at 16 bytes.now) }
{
    let hits = u8x16::from_slice(&bytes[at..])
        .simd_eq(u8x16::splat(byte))
        .to_bitmask();
    if hits == 0 {
        BLOCK
    } else {
        hits.trailing_zeros() as usize
    }
}

// How many of the sixteen bytes from `at` come before the first space or TAB; 16 if they have neither.
#[inline(always)]
fn word_in_block(bytes: &[u8], at: usize) -> usize
    requires { at + 16 ≤ length bytes.now }
    ensures within { result ≤ 16 }
    ensures before { (k : ℕ) → at ≤ k → k < at + result → fields.is_blank (slice_index bytes.now k) ≡ false }
    ensures stop { result < 16 → fields.is_blank (slice_index bytes.now (at + result)) ≡ true }
{
    let space = place_in_block(b' ', bytes, at);
    let tab = place_in_block(b'\t', bytes, at);
    if tab < space { tab } else { space }
}

// How many bytes come before the first space or TAB, or before the end, if the first `from` bytes have neither.
#[inline(always)]
#[tactic(auto, using(crate::proofs::TextLemmas::first_places))]
fn word_from(bytes: &[u8], from: usize) -> usize
    requires within { from ≤ length bytes.now }
    requires before { (k : ℕ) → k < from → fields.is_blank (slice_index bytes.now k) ≡ false }
    ensures value { result ≡ position_or_len fields.is_blank bytes.now }
    ensures within { result ≤ length bytes.now }
{
    for at in from..bytes.len() {
        if is_blank(bytes[at]) {
            return at;
        }
    }
    bytes.len()
}

/// How many bytes come before the first space or TAB, or before the end.
#[inline]
#[tactic(auto, using(crate::proofs::TextLemmas::first_places))]
pub(crate) fn word_length(bytes: &[u8]) -> usize
    ensures value { result ≡ position_or_len fields.is_blank bytes.now }
    ensures within { result ≤ length bytes.now }
{
    let mut at = 0;
    while BLOCK <= bytes.len() - at {
        let length = word_in_block(bytes, at);
        if length < BLOCK {
            return at + length;
        }
        at += BLOCK;
    }
    word_from(bytes, at)
}

// Whether the byte is a space or TAB.
#[inline(always)]
pub(crate) fn is_blank(byte: u8) -> bool
    ensures { result ≡ fields.is_blank byte }
{
    (byte == b' ') | (byte == b'\t')
}

/// How many spaces and TABs the bytes start with.
#[tactic(auto, using(crate::proofs::TextLemmas::first_places))]
pub(crate) fn blanks_length(bytes: &[u8]) -> usize
    ensures value { result ≡ position_or_len (λ x. not (fields.is_blank x)) bytes.now }
    ensures within { result ≤ length bytes.now }
{
    for (i, byte) in bytes.iter().enumerate() {
        if !is_blank(*byte) {
            return i;
        }
    }
    bytes.len()
}

/// The index of the quote that closes a field in quotes whose content starts with these bytes: the first `"` that isn't
/// one of a pair `""`. `None` if there is none.
#[tactic(auto, using(crate::proofs::WordLemmas::quote_steps))]
pub(crate) fn closing_quote(bytes: &[u8]) -> Option<usize>
    ensures value { result ≡ fields.closing_quote bytes.now }
    ensures within { IfSome result (λ n. n + 1 ≤ length bytes.now) }
{
    let mut at = 0;
    while at < bytes.len() {
        if bytes[at] != b'"' {
            at += 1;
        } else if at + 1 < bytes.len() && bytes[at + 1] == b'"' {
            at += 2;
        } else {
            return Some(at);
        }
    }
    None
}

// Whether the bytes start with the text.
#[inline(always)]
fn begins_with(text: &[u8], bytes: &[u8]) -> bool
    ensures { result ≡ occurs_at bytes.now text.now 0 }
{
    text.len() <= bytes.len() && &bytes[..text.len()] == text
}

// How many of the sixteen indexes from `at` come before the first at which the text may occur, judged by its first,
// middle and last byte; 16 if it can occur at none of them.
#[inline(always)]
fn first_in_block(text: &[u8], bytes: &[u8], at: usize) -> usize
    requires some { 0 < length text.now }
    requires within { at + 15 + length text.now ≤ length bytes.now }
    ensures most { result ≤ 16 }
    ensures passed { Nowhere (OccursAt bytes.now text.now) at (at + result) }
{
    let middle = text.len() / 2;
    let last = text.len() - 1;
    let is_first = u8x16::from_slice(&bytes[at..]).simd_eq(u8x16::splat(text[0]));
    let is_middle = u8x16::from_slice(&bytes[at + middle..]).simd_eq(u8x16::splat(text[middle]));
    let is_last = u8x16::from_slice(&bytes[at + last..]).simd_eq(u8x16::splat(text[last]));
    let hits = (is_first & is_middle & is_last).to_bitmask();
    if hits == 0 {
        BLOCK
    } else {
        hits.trailing_zeros() as usize
    }
}

// The first index from `from` to before `to` at which the text occurs; `None` if it occurs at none of them.
#[inline(always)]
fn find_within(text: &[u8], bytes: &[u8], from: usize, to: usize) -> Option<usize>
    requires some { 0 < length text.now }
    requires within { to + length text.now ≤ length bytes.now + 1 }
    ensures { IsFirst (OccursAt bytes.now text.now) from to result }
{
    for at in from..to {
        if bytes[at] == text[0] && begins_with(text, &bytes[at..]) {
            return Some(at);
        }
    }
    None
}

// The first index from `from` to before `end` at which the text occurs. These are the last indexes at which the text
// fits, at most sixteen. `None` if it occurs at none of them.
#[inline(always)]
fn find_last(text: &[u8], bytes: &[u8], from: usize, end: usize) -> Option<usize>
    requires some { 0 < length text.now }
    requires near { end ≤ from + 16 }
    requires within { end + length text.now ≡ length bytes.now + 1 }
    ensures { IsFirst (OccursAt bytes.now text.now) from end result }
{
    if end < BLOCK {
        return find_within(text, bytes, from, end);
    }
    let begin = end - BLOCK;
    let place = begin + first_in_block(text, bytes, begin);
    find_within(text, bytes, from.max(place), end)
}

// The index of the first occurrence of the text in the bytes, searched at sixteen indexes at a time; `None` if none.
fn find_short(text: &[u8], bytes: &[u8]) -> Option<usize>
    requires some { 0 < length text.now }
    requires within { length text.now ≤ length bytes.now }
    ensures { FindsNeedle bytes.now text.now 0 result }
{
    let end = bytes.len() - text.len() + 1;
    let mut at = 0;
    while BLOCK <= end - at {
        let before = first_in_block(text, bytes, at);
        at += before;
        if before < BLOCK {
            if begins_with(text, &bytes[at..]) {
                return Some(at);
            }
            at += 1;
        }
    }
    find_last(text, bytes, at, end)
}

/// The index of the first occurrence of the text in the bytes, or `None` if it doesn't occur. An empty text is at 0.
#[inline]
#[tactic(auto, using(crate::proofs::TextLemmas::text_places))]
pub(crate) fn find_text(text: &[u8], bytes: &[u8]) -> Option<usize>
    ensures value { result ≡ texts.place_of text.now bytes.now }
    ensures within { IfSome result (λ n. n + length text.now ≤ length bytes.now) }
{
    if let [byte] = text {
        return memchr(*byte, bytes);
    }
    if begins_with(text, bytes) {
        return Some(0);
    }
    if SHORT < text.len() {
        return memmem::find(bytes, text);
    }
    if bytes.len() < text.len() {
        return None;
    }
    find_short(text, bytes)
}
