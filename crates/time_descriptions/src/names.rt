//! White space and words inside brackets, the names of components, and the keys of their modifiers.
ghost use Rattle.std.specs.Prelude.{◌≡◌, ◌≤◌, length, map, take, drop};
ghost use Rattle.time_descriptions.specs.Values as names;
ghost use Rattle.time_descriptions.specs.Values.{look_up, is_space, is_of_word, ignore_count, count_on};
ghost use Rattle.std.specs.List.{prefix_len};
ghost use Rattle.std.specs.Str.{str_eq_ignore_ascii_case};

use std::num::NonZero;
use time_components::modifier;

/// The name of a component, the first word in its brackets, such as `year` in `[year padding:none]`.
#[derive(Clone, Copy)]
pub enum ComponentName {
    /// `day`
    Day,
    /// `end`
    End,
    /// `hour`
    Hour,
    /// `ignore`
    Ignore,
    /// `minute`
    Minute,
    /// `month`
    Month,
    /// `offset_hour`
    OffsetHour,
    /// `offset_minute`
    OffsetMinute,
    /// `offset_second`
    OffsetSecond,
    /// `ordinal`
    Ordinal,
    /// `period`
    Period,
    /// `second`
    Second,
    /// `subsecond`
    Subsecond,
    /// `unix_timestamp`
    UnixTimestamp,
    /// `weekday`
    Weekday,
    /// `week_number`
    WeekNumber,
    /// `year`
    Year,
}

/// The key of a modifier, which precedes the colon, such as `padding` in `[year padding:none]`.
#[derive(Clone, Copy)]
pub enum ModifierKey {
    /// `base`
    Base,
    /// `case`
    Case,
    /// `case_sensitive`
    CaseSensitive,
    /// `count`
    Count,
    /// `digits`
    Digits,
    /// `one_indexed`
    OneIndexed,
    /// `padding`
    Padding,
    /// `precision`
    Precision,
    /// `range`
    Range,
    /// `repr`
    Representation,
    /// `sign`
    Sign,
    /// `trailing_input`
    TrailingInput,
}

// The names of components. The commonest come first, since the search is linear.
const COMPONENT_NAMES: [(&[u8], ComponentName); 17] = [
    (b"year", ComponentName::Year),
    (b"month", ComponentName::Month),
    (b"day", ComponentName::Day),
    (b"hour", ComponentName::Hour),
    (b"minute", ComponentName::Minute),
    (b"second", ComponentName::Second),
    (b"subsecond", ComponentName::Subsecond),
    (b"offset_hour", ComponentName::OffsetHour),
    (b"offset_minute", ComponentName::OffsetMinute),
    (b"offset_second", ComponentName::OffsetSecond),
    (b"weekday", ComponentName::Weekday),
    (b"week_number", ComponentName::WeekNumber),
    (b"ordinal", ComponentName::Ordinal),
    (b"period", ComponentName::Period),
    (b"unix_timestamp", ComponentName::UnixTimestamp),
    (b"ignore", ComponentName::Ignore),
    (b"end", ComponentName::End),
];

// The keys of a component whose only modifier is its padding.
const PADDING_KEYS: [(&[u8], ModifierKey); 1] = [(b"padding", ModifierKey::Padding)];

// The keys of `end`.
const END_KEYS: [(&[u8], ModifierKey); 1] = [(b"trailing_input", ModifierKey::TrailingInput)];

// The keys of `hour` and of `week_number`.
const REPR_KEYS: [(&[u8], ModifierKey); 2] = [
    (b"padding", ModifierKey::Padding),
    (b"repr", ModifierKey::Representation),
];

// The keys of `ignore`.
const IGNORE_KEYS: [(&[u8], ModifierKey); 1] = [(b"count", ModifierKey::Count)];

// The keys of `month`.
const MONTH_KEYS: [(&[u8], ModifierKey); 3] = [
    (b"padding", ModifierKey::Padding),
    (b"repr", ModifierKey::Representation),
    (b"case_sensitive", ModifierKey::CaseSensitive),
];

// The keys of `offset_hour`.
const OFFSET_HOUR_KEYS: [(&[u8], ModifierKey); 2] = [
    (b"padding", ModifierKey::Padding),
    (b"sign", ModifierKey::Sign),
];

// The keys of `period`.
const PERIOD_KEYS: [(&[u8], ModifierKey); 2] = [
    (b"case", ModifierKey::Case),
    (b"case_sensitive", ModifierKey::CaseSensitive),
];

// The keys of `subsecond`.
const SUBSECOND_KEYS: [(&[u8], ModifierKey); 1] = [(b"digits", ModifierKey::Digits)];

// The keys of `unix_timestamp`.
const TIMESTAMP_KEYS: [(&[u8], ModifierKey); 2] = [
    (b"precision", ModifierKey::Precision),
    (b"sign", ModifierKey::Sign),
];

// The keys of `weekday`.
const WEEKDAY_KEYS: [(&[u8], ModifierKey); 3] = [
    (b"repr", ModifierKey::Representation),
    (b"one_indexed", ModifierKey::OneIndexed),
    (b"case_sensitive", ModifierKey::CaseSensitive),
];

// The keys of `year`.
const YEAR_KEYS: [(&[u8], ModifierKey); 5] = [
    (b"padding", ModifierKey::Padding),
    (b"repr", ModifierKey::Representation),
    (b"range", ModifierKey::Range),
    (b"base", ModifierKey::Base),
    (b"sign", ModifierKey::Sign),
];

/// The component with that name, in any ASCII case, or `None` if no component has that name.
pub fn component_name(name: &[u8]) -> Option<ComponentName>
    ensures { result ≡ look_up names.component_names name.now }
{
    look_up(&COMPONENT_NAMES, name)
}

/// The key with that name, in any ASCII case, or `None` if the component has no such modifier.
#[tactic(auto, unfolding(crate::specs::Values::modifier_keys))]
pub fn modifier_key(component: ComponentName, name: &[u8]) -> Option<ModifierKey>
    ensures { result ≡ look_up (names.modifier_keys component) name.now }
{
    match component {
        ComponentName::Day
        | ComponentName::Minute
        | ComponentName::OffsetMinute
        | ComponentName::OffsetSecond
        | ComponentName::Ordinal
        | ComponentName::Second => look_up(&PADDING_KEYS, name),
        ComponentName::End => look_up(&END_KEYS, name),
        ComponentName::Hour | ComponentName::WeekNumber => look_up(&REPR_KEYS, name),
        ComponentName::Ignore => look_up(&IGNORE_KEYS, name),
        ComponentName::Month => look_up(&MONTH_KEYS, name),
        ComponentName::OffsetHour => look_up(&OFFSET_HOUR_KEYS, name),
        ComponentName::Period => look_up(&PERIOD_KEYS, name),
        ComponentName::Subsecond => look_up(&SUBSECOND_KEYS, name),
        ComponentName::UnixTimestamp => look_up(&TIMESTAMP_KEYS, name),
        ComponentName::Weekday => look_up(&WEEKDAY_KEYS, name),
        ComponentName::Year => look_up(&YEAR_KEYS, name),
    }
}

/// The first `count` bytes of the text.
#[inline(always)]
pub fn front(text: &[u8], count: usize) -> &[u8]
    requires { count ≤ length text.now }
    ensures { result.now ≡ take count text.now }
{
    &text[..count]
}

/// The text after its first `count` bytes.
#[inline(always)]
pub fn after(text: &[u8], count: usize) -> &[u8]
    requires { count ≤ length text.now }
    ensures { result.now ≡ drop count text.now }
{
    &text[count..]
}

/// The number of bytes of white space (spaces, TAB, LF, FF, CR) at the start of the text.
#[inline]
pub fn space_len(text: &[u8]) -> usize
    ensures count { result ≡ prefix_len is_space text.now }
    ensures within { result ≤ length text.now }
{
    text.iter()
        .take_while(|byte| byte.is_ascii_whitespace())
        .count()
}

/// The length in bytes of the word at the start of the text, which may be 0. A word ends before white space or a
/// bracket, or with the text.
#[inline]
pub fn word_len(text: &[u8]) -> usize
    ensures count { result ≡ prefix_len is_of_word text.now }
    ensures within { result ≤ length text.now }
{
    text.iter()
        .take_while(|byte| !byte.is_ascii_whitespace() && **byte != b'[' && **byte != b']')
        .count()
}

// Whether the names are equal, ignoring the case of ASCII letters.
#[inline]
fn is_same_name(name: &[u8], other: &[u8]) -> bool
    ensures { result ≡ str_eq_ignore_ascii_case name.now other.now }
{
    name.eq_ignore_ascii_case(other)
}

/// The value of the first row with that name, ignoring the case of ASCII letters. `None` if there is no such row.
pub fn look_up<V: Copy>(rows: &[(&[u8], V)], name: &[u8]) -> Option<V>
    ensures { result ≡ look_up (map (λ r. (r.0.now, r.1)) rows.now) name.now }
{
    let mut left = rows;
    while let [first, others @ ..] = left {
        if is_same_name(first.0, name) {
            return Some(first.1);
        }
        left = others;
    }
    None
}

/// The `ignore` whose count has these ASCII digits, which may begin with zeros. `None` if another byte occurs, or if the
/// count isn't 1 to 65535; so for no digits too.
pub fn ignore_count(digits: &[u8]) -> Option<modifier::Ignore>
    ensures { result ≡ ignore_count digits.now }
{
    let mut value = 0u32;
    let mut rest = digits;
    while let [byte, tail @ ..] = rest {
        if !byte.is_ascii_digit() {
            return None;
        }
        value = value * 10 + u32::from(*byte - b'0');
        if value > 65535 {
            return None;
        }
        rest = tail;
    }
    Some(modifier::Ignore {
        count: NonZero::<u16>::new(value as u16)?,
    })
}
