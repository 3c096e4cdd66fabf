//! Splits a text into lines.
ghost use Rattle.std.specs.Prelude.{◌≡◌, ◌≢◌, ◌∷◌, ◌+◌, ◌<◌, ◌≤◌, ℕ, [], length, take, drop, get_or, MatchOption};
ghost use Rattle.byte_streams.specs.Lines.{line_texts};
ghost use Rattle.pelzaune_ffi.specs.Columns.{IsFirstLine};

use memchr::memchr;
use std::simd::prelude::*;

// The index in the text of the first LF among the 32 bytes from `from` on, which are tested at once. `None`: none of
// them is LF.
#[inline(always)]
fn lf_among(text: &[u8], from: usize) -> Option<usize>
    requires { from + 32 ≤ length text.now }
    ensures { MatchOption result
        ((k : ℕ) → from ≤ k → k < from + 32 → get_or text.now k 0 ≢ 10)
        (λ i. (i < from + 32) × (get_or text.now i 0 ≡ 10) × ((k : ℕ) → from ≤ k → k < i → get_or text.now k 0 ≢ 10)) }
{
    let ends = u8x32::from_slice(&text[from..])
        .simd_eq(u8x32::splat(b'\n'))
        .to_bitmask();
    if ends == 0 {
        return None;
    }
    Some(from + ends.trailing_zeros() as usize)
}

// The index of the LF that ends the first line of a non-empty text. `None`: the text has no LF, so it is one line.
#[inline(always)]
fn line_end(text: &[u8]) -> Option<usize>
    requires { 0 < length text.now }
    ensures { MatchOption result (line_texts text.now ≡ text.now ∷ [])
        (λ i. (i < length text.now) × (line_texts text.now ≡ take i text.now ∷ line_texts (drop (i + 1) text.now))) }
{
    // If the line has up to 63 bytes, a call of `memchr` would cost more than these two tests.
    if text.len() >= 64 {
        if let Some(end) = lf_among(text, 0) {
            return Some(end);
        }
        if let Some(end) = lf_among(text, 32) {
            return Some(end);
        }
    }
    memchr(b'\n', text)
}

/// The first line of a non-empty text, without its LF, and the bytes after that LF: no bytes if the text has no LF.
#[inline]
pub fn first_line(bytes: &[u8]) -> (&[u8], &[u8])
    requires { 0 < length bytes.now }
    ensures { IsFirstLine result.0.now bytes.now result.1.now }
{
    match line_end(bytes) {
        Some(i) => (&bytes[..i], &bytes[i + 1..]),
        None => (bytes, &bytes[bytes.len()..]),
    }
}

/// How many lines a text has. A line ends with LF, which is optional after the last one; an empty text has none.
pub fn count_lines(text: &[u8]) -> usize
    ensures count { result ≡ length (line_texts text.now) }
    ensures bound { result ≤ length text.now }
{
    let mut rest = text;
    let mut count = 0;
    while !rest.is_empty() {
        let (_line, after) = first_line(rest);
        count += 1;
        rest = after;
    }
    count
}
