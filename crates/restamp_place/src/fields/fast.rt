//! Skips words many bytes at a time.
ghost use Rattle.std.specs.Prelude.{◌≡◌, ◌≤◌, ◌<◌, ◌+◌, ℕ, length, drop, IfSome};
ghost use Rattle.restamp_place.specs.Words.{IsPassed, word_ends};

use crate::texts::is_blank;

/// How far a line is skipped: the word that is searched for has index `left`, from 0, in the bytes from `start` on.
#[derive(Clone, Copy)]
pub(crate) struct Passed {
    /// How many bytes are skipped.
    pub(crate) start: usize,
    /// How many words still have to be skipped.
    pub(crate) left: usize,
}

// How many words end with one of the `block` bytes from `start`, each before a space or TAB. The line must have more.
#[inline(always)]
fn ends_within(line: &[u8], start: usize, block: usize) -> u8
    requires few { block ≤ 16 }
    requires within { start + block < length line.now }
    ensures value { result ≡ word_ends block (drop start line.now) }
    ensures most { result ≤ block }
{
    let mut ends = 0;
    for k in 0..block {
        ends += u8::from(!is_blank(line[start + k]) & is_blank(line[start + k + 1]));
    }
    ends
}

// Skips `block` bytes at a time, while fewer than `left` words end in the next ones and more bytes follow these.
#[inline(always)]
#[tactic(auto, using(crate::proofs::WordLemmas::word_steps))]
fn pass_blocks(passed: Passed, line: &[u8], block: usize) -> Passed
    requires some { 0 < block }
    requires few { block ≤ 16 }
    requires within { passed.start ≤ length line.now }
    ensures passed { (n : ℕ) → IsPassed n line.now passed → IsPassed n line.now result }
    ensures within { result.start ≤ length line.now }
{
    let mut next = passed;
    while block < line.len() - next.start {
        let ends = ends_within(line, next.start, block) as usize;
        if next.left <= ends {
            return next;
        }
        next.start += block;
        next.left -= ends;
    }
    next
}

// Skips single bytes, up to the end of the last word that has to be skipped, but never the last byte of the line.
#[inline(always)]
#[tactic(auto, using(crate::proofs::WordLemmas::word_steps))]
fn pass_bytes(passed: Passed, line: &[u8]) -> Passed
    requires { passed.start ≤ length line.now }
    ensures passed { (n : ℕ) → IsPassed n line.now passed → IsPassed n line.now result }
    ensures within { result.start ≤ length line.now }
{
    let mut next = passed;
    while 0 < next.left && 1 < line.len() - next.start {
        next.left -= ends_within(line, next.start, 1) as usize;
        next.start += 1;
    }
    next
}

/// Skips bytes that come before the word with index n, from 0. It always returns `Some`; the contract leaves that open.
#[inline(always)]
pub(super) fn pass_words(n: usize, line: &[u8]) -> Option<Passed>
    ensures { IfSome result (λ p. IsPassed n line.now p × (p.start ≤ length line.now)) }
{
    let passed = Passed { start: 0, left: n };
    let passed = pass_blocks(passed, line, 16);
    let passed = pass_blocks(passed, line, 8);
    Some(pass_bytes(passed, line))
}
