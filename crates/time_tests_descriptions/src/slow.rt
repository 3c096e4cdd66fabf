//! A slow parser of descriptions, written from the grammar. It works by indexes into the whole text, and stores
//! nothing.
use time_descriptions::InvalidFormatDescription;

/// The text, and the version of its syntax.
#[derive(Clone, Copy)]
pub struct Slow<'a> {
    /// The text.
    pub text: &'a [u8],
    /// The version, 1 or 2.
    pub version: usize,
}

/// The index after the parsed part, or the first error.
type Read<'a> = Result<usize, InvalidFormatDescription<'a>>;

/// A key and its values. A count has no listed values.
type Key = (&'static str, &'static [&'static str]);

const PADDING: Key = ("padding", &["zero", "space", "none"]);

const CASE_SENSITIVE: Key = ("case_sensitive", &["true", "false"]);

const SIGN: Key = ("sign", &["automatic", "mandatory"]);

/// The names, each with its keys.
pub static NAMES: [(&str, &[Key]); 17] = [
    ("day", &[PADDING]),
    ("minute", &[PADDING]),
    ("offset_minute", &[PADDING]),
    ("offset_second", &[PADDING]),
    ("ordinal", &[PADDING]),
    ("second", &[PADDING]),
    ("hour", &[PADDING, ("repr", &["24", "12"])]),
    (
        "month",
        &[
            PADDING,
            ("repr", &["numerical", "long", "short"]),
            CASE_SENSITIVE,
        ],
    ),
    (
        "weekday",
        &[
            ("repr", &["long", "short", "sunday", "monday"]),
            ("one_indexed", &["true", "false"]),
            CASE_SENSITIVE,
        ],
    ),
    (
        "week_number",
        &[PADDING, ("repr", &["iso", "sunday", "monday"])],
    ),
    (
        "year",
        &[
            PADDING,
            ("repr", &["full", "century", "last_two"]),
            ("range", &["extended", "standard"]),
            ("base", &["calendar", "iso_week"]),
            SIGN,
        ],
    ),
    ("period", &[("case", &["upper", "lower"]), CASE_SENSITIVE]),
    (
        "subsecond",
        &[(
            "digits",
            &["1+", "1", "2", "3", "4", "5", "6", "7", "8", "9"],
        )],
    ),
    ("offset_hour", &[PADDING, SIGN]),
    (
        "unix_timestamp",
        &[
            (
                "precision",
                &["second", "millisecond", "microsecond", "nanosecond"],
            ),
            SIGN,
        ],
    ),
    ("ignore", &[("count", &[])]),
    ("end", &[("trailing_input", &["prohibit", "discard"])]),
];

// The error of that expectation at the index.
fn expected(what: &'static str, index: usize) -> InvalidFormatDescription<'static> {
    InvalidFormatDescription::Expected { what, index }
}

// The error of a word that isn't a modifier here.
fn invalid(value: &[u8], index: usize) -> InvalidFormatDescription<'_> {
    InvalidFormatDescription::InvalidModifier { value, index }
}

// The value of the name in the table, in letters of either case.
fn value_of_name<V: Copy>(rows: &[(&str, V)], name: &[u8]) -> Option<V> {
    for (own, value) in rows {
        if own.as_bytes().eq_ignore_ascii_case(name) {
            return Some(*value);
        }
    }
    None
}

// The keys of the component with that name.
fn keys_of(name: &[u8]) -> Option<&'static [Key]> {
    value_of_name(&NAMES, name)
}

// Whether the bytes are the digits of 1 to 65535.
fn is_count(bytes: &[u8]) -> bool {
    let mut value = 0u64;
    for byte in bytes {
        if !byte.is_ascii_digit() {
            return false;
        }
        value = value
            .saturating_mul(10)
            .saturating_add(u64::from(*byte).saturating_sub(48));
    }
    value > 0 && value < 65536
}

// Whether the bytes are one of the values, or a count where none is listed.
fn is_value(values: &[&str], bytes: &[u8]) -> bool {
    if values.is_empty() {
        return is_count(bytes);
    }
    for value in values {
        if value.as_bytes().eq_ignore_ascii_case(bytes) {
            return true;
        }
    }
    false
}

impl<'a> Slow<'a> {
    /// The first error of the text.
    pub fn fault(self) -> Option<InvalidFormatDescription<'a>> {
        self.items(8, false, 0).err()
    }

    fn is(self, index: usize, byte: u8) -> bool {
        self.text.get(index) == Some(&byte)
    }

    fn after_space(self, index: usize) -> usize {
        let mut index = index;
        for _ in 0..self.text.len() {
            match self.text.get(index) {
                Some(b' ' | b'\t' | b'\n' | 12 | b'\r') => index = index.saturating_add(1),
                _ => break,
            }
        }
        index
    }

    fn after_word(self, index: usize) -> usize {
        let mut index = index;
        for _ in 0..self.text.len() {
            match self.text.get(index) {
                None | Some(b' ' | b'\t' | b'\n' | 12 | b'\r' | b'[' | b']') => break,
                _ => index = index.saturating_add(1),
            }
        }
        index
    }

    fn between(self, from: usize, to: usize) -> &'a [u8] {
        self.text.get(from..to).unwrap_or(&[])
    }

    #[cycle(slow)]
    fn items(self, depth: usize, nested: bool, from: usize) -> Read<'a> {
        let mut index = from;
        for _ in 0..self.text.len() {
            if index >= self.text.len() || nested && self.is(index, b']') {
                break;
            }
            index = self.item(depth, index)?;
        }
        Ok(index)
    }

    #[cycle(slow)]
    fn item(self, depth: usize, index: usize) -> Read<'a> {
        let next = index.saturating_add(1);
        if self.version == 2 && self.is(index, b'\\') {
            return match self.text.get(next) {
                Some(b'[' | b']' | b'\\') => Ok(next.saturating_add(1)),
                _ => Err(expected("an escaped `[`, `]` or `\\`", next)),
            };
        }
        if !self.is(index, b'[') {
            return Ok(next);
        }
        if self.version == 1 && self.is(next, b'[') {
            return Ok(next.saturating_add(1));
        }
        let name = self.after_space(next);
        let end = self.after_word(name);
        let word = self.between(name, end);
        let is_first = word == b"first".as_slice();
        if is_first || word == b"optional".as_slice() {
            self.group(depth, index, end, is_first)
        } else {
            self.component(index, name, end)
        }
    }

    // The index of the first list of a group whose keyword ends there.
    fn first_list(self, word: usize, is_first: bool) -> Read<'a> {
        let list = self.after_space(word);
        if list == word {
            let what = if is_first {
                "whitespace after `first`"
            } else {
                "whitespace after `optional`"
            };
            return Err(expected(what, word));
        }
        if self.is(list, b'[') {
            Ok(list)
        } else {
            Err(expected("an opening bracket", list))
        }
    }

    // Parses the group that opens at the index, and whose keyword ends there.
    #[cycle(slow)]
    fn group(self, depth: usize, opening: usize, word: usize, is_first: bool) -> Read<'a> {
        if depth == 0 {
            return Err(InvalidFormatDescription::NotSupported {
                what: "a list in more than seven others",
                context: "a description",
                index: opening,
            });
        }
        let mut list = self.first_list(word, is_first)?;
        let unclosed = InvalidFormatDescription::UnclosedOpeningBracket { index: opening };
        for _ in 0..self.text.len() {
            let end = self.items(depth - 1, true, list.saturating_add(1))?;
            if !self.is(end, b']') {
                return Err(unclosed);
            }
            let next = self.after_space(end.saturating_add(1));
            if is_first && self.is(next, b'[') {
                list = next;
            } else if self.is(next, b']') {
                return Ok(next.saturating_add(1));
            } else {
                return Err(unclosed);
            }
        }
        Err(unclosed)
    }

    // Parses the component that opens at the index, with its name.
    fn component(self, opening: usize, from: usize, to: usize) -> Read<'a> {
        let name = self.between(from, to);
        if name.is_empty() {
            let inside = opening.saturating_add(1);
            let index = if from == inside { opening } else { inside };
            return Err(InvalidFormatDescription::MissingComponentName { index });
        }
        let Some(keys) = keys_of(name) else {
            return Err(InvalidFormatDescription::InvalidComponentName { name, index: from });
        };
        let (index, has_count) = self.modifiers(keys, self.after_space(to))?;
        if self.is(index, b'[') {
            return Err(expected("a modifier or a closing bracket", index));
        }
        if !self.is(index, b']') {
            return Err(InvalidFormatDescription::UnclosedOpeningBracket { index: opening });
        }
        if name.eq_ignore_ascii_case(b"ignore") && !has_count {
            return Err(InvalidFormatDescription::MissingRequiredModifier {
                name: "count",
                index: from,
            });
        }
        Ok(index.saturating_add(1))
    }

    // The index after the modifiers, and whether one of them is a count.
    fn modifiers(
        self,
        keys: &[Key],
        from: usize,
    ) -> Result<(usize, bool), InvalidFormatDescription<'a>> {
        let mut has_count = false;
        let mut index = from;
        for _ in 0..self.text.len() {
            let end = self.after_word(index);
            if end == index {
                break;
            }
            has_count |= self.modifier(keys, index, end)?;
            index = self.after_space(end);
        }
        Ok((index, has_count))
    }

    // The index of the first colon between these two.
    fn colon(self, from: usize, to: usize) -> Option<usize> {
        for index in from..to {
            if self.is(index, b':') {
                return Some(index);
            }
        }
        None
    }

    // Whether the modifier is a count.
    fn modifier(
        self,
        keys: &[Key],
        from: usize,
        to: usize,
    ) -> Result<bool, InvalidFormatDescription<'a>> {
        let Some(colon) = self.colon(from, to) else {
            return Err(invalid(self.between(from, to), from));
        };
        let key = self.between(from, colon);
        let Some(values) = value_of_name(keys, key) else {
            return Err(invalid(key, from));
        };
        let begin = colon.saturating_add(1);
        let value = self.between(begin, to);
        if is_value(values, value) {
            Ok(values.is_empty())
        } else {
            Err(invalid(value, begin))
        }
    }
}
