//! Splits lines off buffered bytes.
ghost use Rattle.std.specs.Prelude.{◌≡◌, ◌∷◌, ◌++◌, ◌<◌, length, MatchOption};
ghost use Rattle.byte_streams.specs.Lines.{HasNoLf, line_texts};

use memchr::memchr;

/// How many bytes of a line a program searches: 262144.
pub const LINE_LIMIT: usize = 262_144;

/// How many bytes after [`LINE_LIMIT`] a program keeps of a longer line, so that it knows what follows: 256.
pub const LOOKAHEAD: usize = 256;

/// The first line, without its LF, and the bytes after that LF. `None` if the bytes have no LF.
#[inline(always)]
pub fn whole_line(bytes: &[u8]) -> Option<(&[u8], &[u8])>
    ensures { MatchOption result (HasNoLf bytes.now)
        (λ cut. (bytes.now ≡ cut.0.now ++ 10 ∷ cut.1.now) × HasNoLf cut.0.now) }
{
    match memchr(b'\n', bytes) {
        Some(i) => Some((&bytes[..i], &bytes[i + 1..])),
        None => None,
    }
}

/// The first line, without its LF, and the bytes after that LF. If the bytes have no LF, the line is all of them, and
/// the second slice is empty. The bytes must not be empty.
#[inline(always)]
pub fn first_line(bytes: &[u8]) -> (&[u8], &[u8])
    requires { 0 < length bytes.now }
    ensures line { line_texts bytes.now ≡ result.0.now ∷ line_texts result.1.now }
    ensures shorter { length result.1.now < length bytes.now }
{
    match whole_line(bytes) {
        Some(cut) => cut,
        None => (bytes, &bytes[bytes.len()..]),
    }
}
