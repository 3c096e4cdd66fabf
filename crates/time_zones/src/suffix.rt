//! Parses the suffix that RFC 9557, section 4.1, appends to a timestamp of RFC 3339.
ghost use Rattle.std.specs.Prelude.{◌≡◌, ◌≢◌, ◌<◌, ◌≤◌, ℕ, Bool, false, List, [], ◌∷◌, Some, length, take, option_map, IfSome, IfNone};
ghost use Rattle.std.specs.List.{prefix_len};
ghost use Rattle.time_zones.specs.Suffix as suffix;
ghost use Rattle.time_zones.specs.Suffix.{Zone, IsZoneText, Tag, critical_key, IsLongest, ParsesSuffix, zone_of, zone_tag_of};
ghost use Rattle.time_zones.specs.SuffixFronts as fronts;
ghost use Rattle.time_zones.specs.SuffixFronts.{BeginsBracketed, BeginsWithZone, HasNoZone, BeginsWithTag, HasNoTag, BeginsWithTags};

mod texts;

pub use texts::write_suffix;
use texts::{after, is_zone_char, is_zone_name, key_of, offset_of};
use time_values::UtcOffset;

/// How a suffix of RFC 9557 specifies its zone: by a name, or by an offset from UTC.
#[derive(Clone, Copy, Debug, PartialEq, Eq)]
pub enum ZoneText<'a> {
    /// By a name, such as `Europe/Berlin`. A name that was read is ASCII.
    Name(&'a [u8]),
    /// By an offset. One that was read has whole minutes, up to 23:59 ahead of UTC or behind it, and is 0 for `-00:00`.
    Offset(UtcOffset),
}

// The zone that the text inside brackets specifies, by a name or by an offset. `None` if it is neither.
fn zone_of(text: &[u8]) -> Option<ZoneText<'_>>
    ensures some { IfSome result (λ z. IsZoneText text.now (zone_of z)) }
    ensures none { IfNone result ((z : Zone) → IsZoneText text.now z → ⊥) }
{
    if is_zone_name(text) {
        return Some(ZoneText::Name(text));
    }
    match offset_of(text) {
        Some(offset) => Some(ZoneText::Offset(offset)),
        None => None,
    }
}

// Whether the byte may be inside brackets, after a flag: an ASCII letter or digit, or one of `._-+/:=`.
fn is_bracket_char(byte: u8) -> bool
    ensures { result ≡ fronts.is_bracket_char byte }
{
    is_zone_char(byte) || matches!(byte, b'/' | b':' | b'=')
}

// The number of bytes at the start of the text that may be inside brackets.
fn bracket_len(text: &[u8]) -> usize
    ensures count { result ≡ prefix_len fronts.is_bracket_char text.now }
    ensures within { result ≤ length text.now }
{
    text.iter()
        .take_while(|byte| is_bracket_char(**byte))
        .count()
}

// Whether the text starts with the critical flag `!`, and the rest after it. Without a flag the rest is the text.
fn flag(text: &[u8]) -> (bool, &[u8])
    ensures whole { text.now ≡ suffix.flagged result.0 result.1.now }
    ensures none { result.0 ≡ false → (rest : List ℕ) → text.now ≢ 33 ∷ rest }
{
    match after(text, b'!') {
        Some(rest) => (true, rest),
        None => (false, text),
    }
}

/// The contents of brackets.
#[derive(Clone, Copy)]
struct Bracketed<'a> {
    /// Whether the flag `!` marks it as critical.
    is_critical: bool,
    /// The bytes between `[`, or the flag, and `]`.
    inside: &'a [u8],
}

// The contents of the brackets at the start of the text, and the rest after `]`. `None` if the text doesn't begin with
// `[`, an optional flag, any number of bytes that may be inside brackets, and `]`.
fn brackets(text: &[u8]) -> Option<(Bracketed<'_>, &[u8])>
    ensures some { IfSome result (λ x. BeginsBracketed text.now x.0.is_critical x.0.inside.now x.1.now) }
    ensures none { IfNone result ((is_critical : Bool) (inside rest : List ℕ)
        → BeginsBracketed text.now is_critical inside rest → ⊥) }
{
    let (is_critical, begun) = flag(after(text, b'[')?);
    let (inside, left) = begun.split_at(bracket_len(begun));
    let rest = after(left, b']')?;
    Some((
        Bracketed {
            is_critical,
            inside,
        },
        rest,
    ))
}

/// The zone of a suffix of RFC 9557, and whether the flag `!` marks it as critical.
#[derive(Clone, Copy, Debug, PartialEq, Eq)]
pub struct ZoneTag<'a> {
    /// Whether the flag `!` marks it as critical, as in `[!Europe/Berlin]`.
    pub is_critical: bool,
    /// The zone itself.
    pub zone: ZoneText<'a>,
}

// The zone in brackets at the start of the text, and the rest after `]`. `None` if the text begins with none.
fn zone_in_front(text: &[u8]) -> Option<(ZoneTag<'_>, &[u8])>
    ensures some { IfSome result (λ x. BeginsWithZone text.now (Some (zone_tag_of x.0)) x.1.now) }
    ensures none { IfNone result (HasNoZone text.now) }
{
    let (found, rest) = brackets(text)?;
    let zone = zone_of(found.inside)?;
    let is_critical = found.is_critical;
    Some((ZoneTag { is_critical, zone }, rest))
}

// The zone in brackets at the start of the text, and the rest after `]`. Without one: `None` and the whole text.
fn zone_if_any(text: &[u8]) -> (Option<ZoneTag<'_>>, &[u8])
    ensures zone { BeginsWithZone text.now (option_map zone_tag_of result.0) result.1.now }
    ensures none { IfNone result.0 (HasNoZone text.now) }
{
    match zone_in_front(text) {
        Some((zone, rest)) => (Some(zone), rest),
        None => (None, text),
    }
}

// The tag at the start of the text: its key, or an inner `None` if it isn't critical; and the rest after `]`. `None` if
// the text begins with no tag.
fn tag_in_front(text: &[u8]) -> Option<(Option<&[u8]>, &[u8])>
    ensures some { IfSome result (λ x. (t : Tag) × BeginsWithTag text.now t x.1.now
        × (option_map (λ key. key.now) x.0 ≡ critical_key (t ∷ []))) }
    ensures none { IfNone result (HasNoTag text.now) }
    ensures shorter { IfSome result (λ x. length x.1.now < length text.now) }
{
    let (found, rest) = brackets(text)?;
    let key = key_of(found.inside)?;
    Some((found.is_critical.then_some(key), rest))
}

// The key of the first critical tag of all tags at the start of the text, or `None` without one, and the rest after the
// last tag.
fn tags_in_front(text: &[u8]) -> (Option<&[u8]>, &[u8])
    ensures { (tags : List Tag) × BeginsWithTags text.now tags result.1.now
        × (option_map (λ key. key.now) result.0 ≡ critical_key tags) }
{
    let mut critical_key = None;
    let mut rest = text;
    'tags: while let Some((key, after)) = tag_in_front(rest) {
        critical_key = critical_key.or(key);
        rest = after;
    }
    (critical_key, rest)
}

/// The result of [`read_suffix`]: a suffix's length, its zone, and the key of its first critical tag.
#[derive(Clone, Copy, Debug, PartialEq, Eq)]
pub struct Suffixed<'a> {
    /// The length of the suffix in bytes.
    pub len: usize,
    /// Its zone, if it has one.
    pub zone: Option<ZoneTag<'a>>,
    /// The key of its first critical tag, if it has one. A caller that doesn't know the key has to reject the text.
    pub critical_key: Option<&'a [u8]>,
}

/// Reads the longest prefix of the text that is a suffix by RFC 9557, section 4.1, such as
/// `[Europe/Berlin][u-ca=gregory]`. `len` is 0 if the text begins with none. Only the grammar is checked: not what
/// values mean, nor whether there is such a zone.
pub fn read_suffix(text: &[u8]) -> Suffixed<'_>
    ensures within { result.len ≤ length text.now }
    ensures says { ParsesSuffix (take result.len text.now) result }
    ensures longest { IsLongest text.now result.len }
{
    let (zone, tags) = zone_if_any(text);
    let (critical_key, rest) = tags_in_front(tags);
    Suffixed {
        len: text.len() - rest.len(),
        zone,
        critical_key,
    }
}
