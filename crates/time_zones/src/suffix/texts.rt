//! Checks the parts of a suffix: names and offsets of zones, keys and values. And writes the suffix of a zone.
ghost use Rattle.std.specs.Prelude.{◌≡◌, ◌≢◌, ◌↔◌, ◌<◌, ◌≤◌, ℕ, List, [], ◌∷◌, length, pos, neg_ℤ, IsTrue, IfSome, IfNone, false, IfOk};
ghost use Rattle.std.specs.List.{prefix_len};
ghost use Rattle.jiff_core.specs.Calendar.{IsBetween};
ghost use Rattle.time_values.specs.Offsets.{offset_seconds};
ghost use Rattle.time_values.specs.declared.utc_offset.UtcOffset.{UtcOffset as Offset};
ghost use Rattle.time_zones.specs.Suffix as suffix;
ghost use Rattle.time_zones.specs.Suffix.{IsWord, IsTimeZonePart, IsTimeZoneName, IsHourMinute, IsNumOffset, IsSuffixKey, IsSuffixValue, AreSuffixValues, IsZoneText, bracketed, zone_of};
ghost use Rattle.time_zones.specs.SuffixFronts.{IsKeyed};

use crate::suffix::ZoneText;
use std::alloc::{AllocError, Global};
use time_values::UtcOffset;
use time_values::digits::pair;

/// The rest after the byte, if the text begins with it. `None` otherwise.
pub(super) fn after(text: &[u8], byte: u8) -> Option<&[u8]>
    ensures some { IfSome result (λ rest. text.now ≡ byte ∷ rest.now) }
    ensures none { IfNone result ((rest : List ℕ) → text.now ≢ byte ∷ rest) }
{
    match text {
        [first, rest @ ..] if *first == byte => Some(rest),
        _ => None,
    }
}

// Whether a part of a zone's name may begin with the byte: an ASCII letter, `.` or `_`.
fn is_zone_initial(byte: u8) -> bool
    ensures { result ≡ suffix.is_zone_initial byte }
{
    byte.is_ascii_alphabetic() || matches!(byte, b'.' | b'_')
}

/// Whether a part of a zone's name may continue with the byte: an ASCII letter or digit, `.`, `_`, `-` or `+`.
pub(super) fn is_zone_char(byte: u8) -> bool
    ensures { result ≡ suffix.is_zone_char byte }
{
    is_zone_initial(byte) || byte.is_ascii_digit() || matches!(byte, b'-' | b'+')
}

// Whether the text is a byte that may begin a part of a zone's name, and then any number of bytes that may continue it.
fn is_zone_word(text: &[u8]) -> bool
    ensures { IsTrue result ↔ IsWord suffix.is_zone_initial suffix.is_zone_char text.now }
{
    match text {
        [] => false,
        [first, others @ ..] => {
            is_zone_initial(*first) && others.iter().all(|byte| is_zone_char(*byte))
        }
    }
}

// Whether the text is a part of a zone's name, which is neither `.` nor `..`.
fn is_zone_part(text: &[u8]) -> bool
    ensures { IsTrue result ↔ IsTimeZonePart text.now }
{
    !matches!(text, b"." | b"..") && is_zone_word(text)
}

/// Whether the text is a zone's name by the grammar: one or more parts with slashes between them.
pub(super) fn is_zone_name(name: &[u8]) -> bool
    ensures { IsTrue result ↔ IsTimeZoneName name.now }
{
    name.split(|byte| *byte == b'/').all(is_zone_part)
}

// Whether a key may begin with the byte: a lowercase ASCII letter or `_`.
fn is_key_initial(byte: u8) -> bool
    ensures { result ≡ suffix.is_key_initial byte }
{
    byte.is_ascii_lowercase() || byte == b'_'
}

// Whether a key may continue with the byte: a lowercase ASCII letter, an ASCII digit, `_` or `-`.
fn is_key_char(byte: u8) -> bool
    ensures { result ≡ suffix.is_key_char byte }
{
    is_key_initial(byte) || byte.is_ascii_digit() || byte == b'-'
}

// Whether the text is a key: a byte that may begin one, and any number of bytes that may continue it.
fn is_key(text: &[u8]) -> bool
    ensures { IsTrue result ↔ IsSuffixKey text.now }
{
    match text {
        [] => false,
        [first, others @ ..] => {
            is_key_initial(*first) && others.iter().all(|byte| is_key_char(*byte))
        }
    }
}

// Whether the text is one value: one or more ASCII letters and digits.
fn is_value(text: &[u8]) -> bool
    ensures { IsTrue result ↔ IsSuffixValue text.now }
{
    !text.is_empty() && text.iter().all(|byte| byte.is_ascii_alphanumeric())
}

// Whether the text is one or more values with dashes between them.
fn are_values(text: &[u8]) -> bool
    ensures { IsTrue result ↔ AreSuffixValues text.now }
{
    text.split(|byte| *byte == b'-').all(is_value)
}

// The number of two ASCII digits. `None` if either byte is no digit.
fn two_digits(tens: u8, ones: u8) -> Option<u8>
    ensures some { IfSome result (λ n. (n < 100) × (suffix.two_digits n ≡ tens ∷ ones ∷ [])) }
    ensures none { IfNone result ((n : ℕ) → n < 100 → suffix.two_digits n ≢ tens ∷ ones ∷ []) }
{
    if !tens.is_ascii_digit() || !ones.is_ascii_digit() {
        return None;
    }
    Some((tens - b'0') * 10 + (ones - b'0'))
}

// The seconds of the text `hh:mm`, 3600 per hour and 60 per minute, up to 23:59. `None` for any other text.
fn seconds_of(text: &[u8]) -> Option<u32>
    ensures some { IfSome result (IsHourMinute text.now) }
    ensures bound { IfSome result (λ n. n < 86_400) }
    ensures none { IfNone result ((n : ℕ) → IsHourMinute text.now n → ⊥) }
{
    let [hour_tens, hour_ones, b':', minute_tens, minute_ones] = text else {
        return None;
    };
    let hour = two_digits(*hour_tens, *hour_ones)?;
    let minute = two_digits(*minute_tens, *minute_ones)?;
    if hour > 23 || minute > 59 {
        return None;
    }
    Some(u32::from(hour) * 3600 + u32::from(minute) * 60)
}

// The offset of that number of seconds, less than a day ahead of UTC or behind it.
fn offset_of_seconds(seconds: i32) -> UtcOffset
    requires { IsBetween (neg_ℤ (pos 86_399)) (pos 86_399) seconds }
    ensures { offset_seconds result ≡ seconds }
{
    match UtcOffset::from_whole_seconds(seconds) {
        Ok(offset) => offset,
        Err(_) => unreachable!(),
    }
}

/// The offset that the text specifies as `+hh:mm` or `-hh:mm`, up to 23:59. `None` for any other text.
pub(super) fn offset_of(text: &[u8]) -> Option<UtcOffset>
    ensures some { IfSome result (IsNumOffset text.now) }
    ensures none { IfNone result ((o : Offset) → IsNumOffset text.now o → ⊥) }
{
    if let Some(time) = after(text, b'+') {
        let seconds = seconds_of(time)? as i32;
        return Some(offset_of_seconds(seconds));
    }
    let time = after(text, b'-')?;
    let seconds = seconds_of(time)? as i32;
    Some(offset_of_seconds(-seconds))
}

// The number of bytes at the start of the text that may be in a key.
fn key_len(text: &[u8]) -> usize
    ensures count { result ≡ prefix_len suffix.is_key_char text.now }
    ensures within { result ≤ length text.now }
{
    text.iter().take_while(|byte| is_key_char(**byte)).count()
}

// Whether the first text is a key, and the second one or more values with dashes between them.
fn is_keyed(key: &[u8], values: &[u8]) -> bool
    ensures { IsTrue result ↔ (IsSuffixKey key.now × AreSuffixValues values.now) }
{
    is_key(key) && are_values(values)
}

/// The key, if the text is a key, `=` and values. `None` for any other text.
pub(super) fn key_of(text: &[u8]) -> Option<&[u8]>
    ensures some { IfSome result (λ key. (values : List ℕ) × IsKeyed text.now key.now values) }
    ensures none { IfNone result ((key values : List ℕ) → IsKeyed text.now key values → ⊥) }
{
    let (key, left) = text.split_at(key_len(text));
    let values = after(left, b'=')?;
    if !is_keyed(key, values) {
        return None;
    }
    Some(key)
}

// The text `hh:mm` of that number of seconds. `None` if it isn't whole minutes, or is a day or more.
#[tactic(auto, unfolding(time_values::specs::DisplayTexts::fixed))]
fn time_of(seconds: u32) -> Option<[u8; 5]>
    ensures some { IfSome result (λ text. IsHourMinute text seconds) }
    ensures none { IfNone result ((text : List ℕ) → IsHourMinute text seconds → ⊥) }
{
    if seconds >= 86_400 || seconds % 60 != 0 {
        return None;
    }
    let [hour_tens, hour_ones] = pair((seconds / 3600) as u8);
    let [minute_tens, minute_ones] = pair((seconds / 60 % 60) as u8);
    Some([hour_tens, hour_ones, b':', minute_tens, minute_ones])
}

// The offset as a suffix has it: `+hh:mm`, also for 0, or `-hh:mm`. `None` if it has seconds, or is a day or more.
fn offset_text(offset: UtcOffset) -> Option<[u8; 6]>
    ensures some { IfSome result (λ text. IsNumOffset text offset) }
    ensures none { IfNone result ((text : List ℕ) → IsNumOffset text offset → ⊥) }
{
    let seconds = offset.whole_seconds();
    let [h1, h2, colon, m1, m2] = time_of(seconds.unsigned_abs())?;
    let sign = if seconds < 0 { b'-' } else { b'+' };
    Some([sign, h1, h2, colon, m1, m2])
}

// `[`, the text, and `]`, without a critical flag. Fails only if memory runs out.
fn bracketed(alloc: Global, text: &[u8]) -> Result<Vec<u8>, AllocError>
    ensures { IfOk result (λ suffix. suffix.items ≡ bracketed false text.now) }
{
    let mut suffix = Vec::new(alloc);
    suffix.push(b'[')?;
    suffix.extend_from_slice(text)?;
    suffix.push(b']')?;
    Ok(suffix)
}

/// The suffix that specifies the zone, without the critical flag: `[Europe/Berlin]` or `[+05:30]`. `None` if RFC 9557,
/// section 4.1, has no text for the zone: the name doesn't follow its grammar, or the offset has seconds, or is a day
/// or more. An error only if memory runs out.
pub fn write_suffix(alloc: Global, zone: ZoneText<'_>) -> Result<Option<Vec<u8>>, AllocError>
    ensures some { IfOk result (λ written. IfSome written (λ suffix.
        (text : List ℕ) × IsZoneText text (zone_of zone.entry) × (suffix.items ≡ bracketed false text))) }
    ensures none { IfOk result (λ written. IfNone written ((text : List ℕ) → IsZoneText text (zone_of zone.entry) → ⊥)) }
{
    match zone {
        ZoneText::Name(name) => {
            if !is_zone_name(name) {
                return Ok(None);
            }
            Ok(Some(bracketed(alloc, name)?))
        }
        ZoneText::Offset(offset) => match offset_text(offset) {
            Some(text) => Ok(Some(bracketed(alloc, &text)?)),
            None => Ok(None),
        },
    }
}
