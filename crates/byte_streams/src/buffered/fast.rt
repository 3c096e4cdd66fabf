//! Appends spliced bytes at once if they fit.
ghost use Rattle.std.specs.Prelude.{◌≡◌, ◌+◌, ◌≤◌, ◌++◌, length, take, drop, MatchOption};

use super::CAPACITY;
use crate::buffer::ArrayBuf;

// Writes N to 2 N bytes at index `at`, in two halves that may overlap, so that copying them needs no call.
#[inline(always)]
fn put_halves<const N: usize>(array: &mut [u8; CAPACITY], at: usize, bytes: &[u8])
    requires least { N ≤ length bytes.now }
    requires most { length bytes.now ≤ N + N }
    requires room { at + length bytes.now ≤ CAPACITY }
    ensures { take (at + length bytes.now) array.new ≡ take at array.old ++ bytes.now }
{
    let behind = bytes.len() - N;
    let middle = at + behind;
    array[at..at + N].copy_from_slice(&bytes[..N]);
    array[middle..middle + N].copy_from_slice(&bytes[behind..]);
}

// Writes bytes at index `at`.
#[inline(always)]
fn put_all(array: &mut [u8; CAPACITY], at: usize, bytes: &[u8])
    requires { at + length bytes.now ≤ CAPACITY }
    ensures { take (at + length bytes.now) array.new ≡ take at array.old ++ bytes.now }
{
    if bytes.is_empty() {
        return;
    }
    array[at..at + bytes.len()].copy_from_slice(bytes);
}

// Writes all `N` bytes of a block at index `at`. The contract covers only the first `count`.
#[inline(always)]
fn put_block<const N: usize>(array: &mut [u8; CAPACITY], at: usize, block: [u8; N], count: usize)
    requires few { count ≤ N }
    requires room { at + N ≤ CAPACITY }
    ensures { take (at + count) array.new ≡ take at array.old ++ take count block.entry }
{
    array[at..at + N].copy_from_slice(&block);
}

// Writes the first `count` bytes at index `at`. Up to 32 are written as a block of 32 if `bytes` has 32 or more, since
// that needs no call. The extra bytes don't count: the next write begins at the first of them.
#[inline(always)]
fn put_first(array: &mut [u8; CAPACITY], at: usize, bytes: &[u8], count: usize)
    requires within { count ≤ length bytes.now }
    requires room { at + length bytes.now ≤ CAPACITY }
    ensures { take (at + count) array.new ≡ take at array.old ++ take count bytes.now }
{
    if count == 0 {
        return;
    }
    if count <= 32 {
        if let Some(block) = bytes.first_chunk::<32>() {
            return put_block(array, at, *block, count);
        }
    }
    array[at..at + count].copy_from_slice(&bytes[..count]);
}

// Writes a text at index `at`. `put_text` calls it for fewer than 16 bytes or more than 32, which are rare.
#[inline(always)]
fn put_rare(array: &mut [u8; CAPACITY], at: usize, bytes: &[u8])
    requires { at + length bytes.now ≤ CAPACITY }
    ensures { take (at + length bytes.now) array.new ≡ take at array.old ++ bytes.now }
{
    match bytes.len() {
        8..=15 => put_halves::<8>(array, at, bytes),
        _ => put_all(array, at, bytes),
    }
}

// Writes a text at index `at`. A time's text usually has 16 to 32 bytes.
#[inline(always)]
fn put_text(array: &mut [u8; CAPACITY], at: usize, bytes: &[u8])
    requires { at + length bytes.now ≤ CAPACITY }
    ensures { take (at + length bytes.now) array.new ≡ take at array.old ++ bytes.now }
{
    match bytes.len() {
        16..=32 => put_halves::<16>(array, at, bytes),
        _ => put_rare(array, at, bytes),
    }
}

/// Appends `bytes`, with `text` in place of the bytes from index `begin` to before `end`. If the free bytes are fewer
/// than those of `bytes` and `text` together, returns `None` and leaves the buffer unchanged.
#[inline(always)]
pub(super) fn splice(
    buffer: &mut ArrayBuf<CAPACITY>,
    bytes: &[u8],
    begin: usize,
    end: usize,
    text: &[u8],
) -> Option<()>
    requires order { begin ≤ end }
    requires within { end ≤ length bytes.now }
    ensures { MatchOption result (buffer.new ≡ buffer.old)
        (λ _. buffer.new.items ≡ buffer.old.items ++ (take begin bytes.now ++ (text.now ++ drop end bytes.now))) }
{
    let at = buffer.end;
    let room = CAPACITY - at;
    if room < bytes.len() || room - bytes.len() < text.len() {
        return None;
    }
    let middle = at + begin;
    let behind = middle + text.len();
    put_first(&mut buffer.array, at, bytes, begin);
    put_text(&mut buffer.array, middle, text);
    put_all(&mut buffer.array, behind, &bytes[end..]);
    buffer.end = behind + (bytes.len() - end);
    Some(())
}
