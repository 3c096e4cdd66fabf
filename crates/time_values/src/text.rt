//! A text of at most 35 bytes.
ghost use Rattle.std.specs.Prelude.{◌≡◌, ◌+◌, ◌≤◌, [], ◌++◌, take, length, Some};
ghost use Rattle.time_values.specs.DisplayTexts.{Items};

use std::marker::Model;
use std::{fmt, str};

/// A text of at most 35 bytes: enough for an RFC 3339 date-time with nine fraction digits and an offset.
#[derive(Drop)]
pub struct Text {
    array: [u8; 35],
    len: usize,
}

impl Model for Text {
    ghost Value = { Items };

    ghost view = { λ t. record { items = take t.len t.array } };

    ghost invariant = { λ t. t.len ≤ 35 };
}

impl Text {
    /// The empty text.
    #[inline(always)]
    pub fn new() -> Text
        ensures { result.items ≡ [] }
    {
        Text {
            array: [0; 35],
            len: 0,
        }
    }

    /// All bytes of the text, in order.
    #[inline]
    pub fn as_bytes(&self) -> &[u8]
        ensures { result.now ≡ self.now.items }
    {
        &self.array[..self.len]
    }

    /// Removes all bytes.
    #[inline(always)]
    pub fn clear(&mut self)
        ensures { self.new.items ≡ [] }
    {
        self.len = 0;
    }

    /// Appends the bytes. The text must have at most 35 bytes afterwards.
    #[inline(always)]
    pub fn append(&mut self, bytes: &[u8])
        requires { length self.old.items + length bytes.now ≤ 35 }
        ensures { self.new.items ≡ self.old.items ++ bytes.now }
    {
        let end = self.len + bytes.len();
        self.array[self.len..end].copy_from_slice(bytes);
        self.len = end;
    }

    /// Appends the first `count` of the ten bytes. `count` must be at most 10, and the text at most 25 bytes before.
    #[inline(always)]
    pub fn append_some(&mut self, bytes: [u8; 10], count: usize)
        requires room { length self.old.items ≤ 25 }
        requires count { count ≤ 10 }
        ensures { self.new.items ≡ self.old.items ++ take count bytes }
    {
        let end = self.len + 10;
        self.array[self.len..end].copy_from_slice(&bytes);
        self.len += count;
    }
}

/// Prints the bytes. Returns `fmt::Error` if they aren't UTF-8.
impl fmt::Display for Text {
    ghost output = { λ t. Some t.items };

    fn fmt<W: fmt::Write>(&self, f: &mut fmt::Formatter<W>) -> fmt::Result {
        f.write_str(str::from_utf8(self.as_bytes()).map_err(|_| fmt::Error)?)
    }
}
