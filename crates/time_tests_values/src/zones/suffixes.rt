//! Suffixes of RFC 9557, and whether an offset is that of a zone.
use super::{BERLIN, Minute, by_setting, clock};
use slow::read_slowly;
use time_values::Month::{July, November};
use time_values::{OffsetDateTime, UtcOffset};
use time_zones::{ZoneTag, ZoneText, has_zone_offset, read_suffix};

// A text, the name of its zone, whether it is critical, and the first critical key. The whole text is the suffix.
type Named = (&'static [u8], &'static [u8], bool, Option<&'static [u8]>);

static NAMED: [Named; 14] = [
    (
        b"[America/Los_Angeles]",
        b"America/Los_Angeles",
        false,
        None,
    ),
    (
        b"[America/Los_Angeles][u-ca=hebrew]",
        b"America/Los_Angeles",
        false,
        None,
    ),
    (b"[Europe/London]", b"Europe/London", false, None),
    (b"[!Europe/London]", b"Europe/London", true, None),
    (b"[Europe/Paris]", b"Europe/Paris", false, None),
    (
        b"[Europe/Berlin][u-ca=gregory]",
        b"Europe/Berlin",
        false,
        None,
    ),
    (
        b"[!Europe/Berlin][!u-ca=gregory]",
        b"Europe/Berlin",
        true,
        Some(b"u-ca"),
    ),
    (
        b"[Etc/GMT+5][_x=1][!_y=2-z][!_z=3]",
        b"Etc/GMT+5",
        false,
        Some(b"_y"),
    ),
    (
        b"[America/Port-au-Prince]",
        b"America/Port-au-Prince",
        false,
        None,
    ),
    (b"[UTC]", b"UTC", false, None),
    (b"[...]", b"...", false, None),
    (b"[.a/_/b.]", b".a/_/b.", false, None),
    (b"[a/..b]", b"a/..b", false, None),
    (b"[_foo]", b"_foo", false, None),
];

#[test]
fn zones_by_name(rt: HostRuntime) {
    for (text, name, is_critical, key) in &NAMED {
        let read = read_suffix(text);
        let zone = ZoneTag {
            is_critical: *is_critical,
            zone: ZoneText::Name(name),
        };
        assert!(rt; read.len == text.len(), "{text:?}");
        assert!(rt; read.zone == Some(zone), "{text:?}");
        assert!(rt; read.critical_key == *key, "{text:?}");
    }
}

// Offsets as zones, in minutes, and whether they are critical.
static OFFSETS: [(&[u8], i32, bool); 8] = [
    (b"[+08:45]", 525, false),
    (b"[-08:00]", -480, false),
    (b"[!+01:00]", 60, true),
    (b"[!-00:30]", -30, true),
    (b"[+00:00]", 0, false),
    (b"[-00:00]", 0, false),
    (b"[+23:59]", 1439, false),
    (b"[-23:59]", -1439, false),
];

#[test]
fn zones_by_offset(rt: HostRuntime) {
    for (text, minutes, is_critical) in &OFFSETS {
        let read = read_suffix(text);
        let zone = match UtcOffset::from_whole_seconds(minutes.wrapping_mul(60)) {
            Ok(offset) => Some(ZoneTag {
                is_critical: *is_critical,
                zone: ZoneText::Offset(offset),
            }),
            Err(_) => None,
        };
        assert!(rt; zone.is_some() && read.zone == zone, "{text:?}");
        assert!(rt;
            read.len == text.len() && read.critical_key.is_none(),
            "{text:?}"
        );
    }
}

// Texts, the length of their suffix without a zone, and the first critical key.
static TAGGED: [(&[u8], usize, Option<&[u8]>); 40] = [
    (b"[_foo=bar][_baz=bat]", 20, None),
    (b"[knort=blargel]", 15, None),
    (b"[!knort=blargel]", 16, Some(b"knort")),
    (b"[!u-ca=chinese]", 15, Some(b"u-ca")),
    (b"[u-ca=chinese][u-ca=japanese]", 29, None),
    (b"[!u-ca=chinese][u-ca=japanese]", 30, Some(b"u-ca")),
    (b"[u-ca=chinese][!u-ca=japanese]", 30, Some(b"u-ca")),
    (b"[!u-ca=chinese][!x=japanese]", 28, Some(b"u-ca")),
    (b"[a=b][Europe/Berlin]", 5, None),
    (b"[a=b][+01:00]", 5, None),
    (b"[a=B-c0-1] and more", 10, None),
    (b"[a=b][c=d", 5, None),
    (b"[a=b][!c=]", 5, None),
    (b"", 0, None),
    (b"Europe/Berlin", 0, None),
    (b"[.]", 0, None),
    (b"[..]", 0, None),
    (b"[a/]", 0, None),
    (b"[/a]", 0, None),
    (b"[a//b]", 0, None),
    (b"[a/../b]", 0, None),
    (b"[a/.]", 0, None),
    (b"[1a]", 0, None),
    (b"[-a]", 0, None),
    (b"[]", 0, None),
    (b"[!]", 0, None),
    (b"[!!Europe/Berlin]", 0, None),
    (b"[Europe/Berlin", 0, None),
    (b"[Europe Berlin]", 0, None),
    (b"[u-ca=]", 0, None),
    (b"[u-ca=a--b]", 0, None),
    (b"[u-ca=-a]", 0, None),
    (b"[u-ca=a-]", 0, None),
    (b"[u-ca=a=b]", 0, None),
    (b"[U-ca=a]", 0, None),
    (b"[-a=a]", 0, None),
    (b"[=a]", 0, None),
    (b"[+24:00]", 0, None),
    (b"[+01:60]", 0, None),
    (b"[+1:00]", 0, None),
];

#[test]
fn tags_alone(rt: HostRuntime) {
    for (text, len, key) in &TAGGED {
        let read = read_suffix(text);
        assert!(rt; read.len == *len && read.zone.is_none(), "{text:?}");
        assert!(rt; read.critical_key == *key, "{text:?}");
    }
}

// The slow reader parses each of the texts above equally.
#[test]
fn all_as_slowly(rt: HostRuntime) {
    for (text, ..) in &NAMED {
        assert!(rt; read_suffix(text) == read_slowly(text), "{text:?}");
    }
    for (text, ..) in &OFFSETS {
        assert!(rt; read_suffix(text) == read_slowly(text), "{text:?}");
    }
    for (text, ..) in &TAGGED {
        assert!(rt; read_suffix(text) == read_slowly(text), "{text:?}");
    }
}

// Whether the slow reader parses the text equally with each byte at the place. The text stays changed.
fn is_right_at(text: &mut [u8], place: usize) -> bool {
    for byte in 0..=u8::MAX {
        match text.get_mut(place) {
            Some(it) => *it = byte,
            None => return false,
        }
        if read_suffix(text) != read_slowly(text) {
            return false;
        }
    }
    true
}

#[test]
fn changed_bytes(rt: HostRuntime) {
    let text = *b"[!Europe/Berlin][u-ca=a-b1]";
    for place in 0..text.len() {
        let mut changed = text;
        assert!(rt; is_right_at(&mut changed, place), "{place}");
    }
}

/// The moment of that minute in local time at this offset in hours.
pub(super) fn moment(minute: Minute, hours: i8) -> Option<OffsetDateTime> {
    let offset = UtcOffset::from_hms(hours, 0, 0).ok()?;
    Some(clock(minute)?.assume_offset(offset))
}

// Moments, and whether their offsets are those of Berlin.
static BERLIN_OFFSETS: [(Minute, i8, Option<bool>); 6] = [
    ((2026, November, 27, 15, 0), 1, Some(true)),
    ((2026, November, 27, 15, 0), 2, Some(false)),
    ((2026, November, 27, 15, 0), 0, Some(false)),
    ((2026, July, 27, 15, 0), 2, Some(true)),
    ((2026, July, 27, 15, 0), 1, Some(false)),
    ((10000, July, 27, 15, 0), 2, None),
];

#[test]
fn offsets_of_berlin(rt: HostRuntime) {
    let zone = by_setting(rt.alloc(), BERLIN);
    for (minute, hours, expected) in &BERLIN_OFFSETS {
        let found = match (&zone, moment(*minute, *hours)) {
            (Some(zone), Some(moment)) => Some(has_zone_offset(moment, &zone.time_zone())),
            _ => None,
        };
        assert!(rt; found == Some(*expected), "{minute:?} {hours}");
    }
}

// A slow reader of suffixes, which tries the rules of RFC 9557, section 4.1, on each prefix of a text.
mod slow {
    use time_values::UtcOffset;
    use time_zones::{Suffixed, ZoneTag, ZoneText};

    // time-zone-initial
    fn is_zone_initial(byte: u8) -> bool {
        matches!(byte, b'A'..=b'Z' | b'a'..=b'z' | b'.' | b'_')
    }

    // time-zone-char
    fn is_zone_char(byte: u8) -> bool {
        is_zone_initial(byte) || matches!(byte, b'0'..=b'9' | b'-' | b'+')
    }

    // key-initial
    fn is_key_initial(byte: u8) -> bool {
        matches!(byte, b'a'..=b'z' | b'_')
    }

    // key-char
    fn is_key_char(byte: u8) -> bool {
        is_key_initial(byte) || matches!(byte, b'0'..=b'9' | b'-')
    }

    // The kind of a piece between separators.
    #[derive(Clone, Copy)]
    enum Piece {
        Part,
        Key,
        Value,
    }

    impl Piece {
        // Whether the byte may be at the place.
        fn allows(self, place: usize, byte: u8) -> bool {
            match self {
                Piece::Part if place == 0 => is_zone_initial(byte),
                Piece::Part => is_zone_char(byte),
                Piece::Key if place == 0 => is_key_initial(byte),
                Piece::Key => is_key_char(byte),
                Piece::Value => byte.is_ascii_alphanumeric(),
            }
        }

        // Whether the text is one such piece.
        fn is(self, text: &[u8]) -> bool {
            for (place, byte) in text.iter().enumerate() {
                if !self.allows(place, *byte) {
                    return false;
                }
            }
            !text.is_empty() && text != b".".as_slice() && text != b"..".as_slice()
        }

        // Whether the text is such pieces, with the separator between them.
        fn are(self, separator: u8, text: &[u8]) -> bool {
            let mut start = 0;
            for (place, byte) in text.iter().enumerate() {
                if *byte == separator {
                    if !text.get(start..place).is_some_and(|piece| self.is(piece)) {
                        return false;
                    }
                    start = place.wrapping_add(1);
                }
            }
            text.get(start..).is_some_and(|piece| self.is(piece))
        }
    }

    // The number of two digits, if it is below the end.
    fn two_digits(tens: u8, ones: u8, end: i32) -> Option<i32> {
        if !tens.is_ascii_digit() || !ones.is_ascii_digit() {
            return None;
        }
        let number = i32::from(tens - b'0') * 10 + i32::from(ones - b'0');
        (number < end).then_some(number)
    }

    // time-numoffset
    fn offset(text: &[u8]) -> Option<UtcOffset> {
        let [sign, hour_tens, hour_ones, b':', minute_tens, minute_ones] = text else {
            return None;
        };
        let hour = two_digits(*hour_tens, *hour_ones, 24)?;
        let minute = two_digits(*minute_tens, *minute_ones, 60)?;
        let minutes = hour.wrapping_mul(60).wrapping_add(minute);
        match *sign {
            b'+' => UtcOffset::from_whole_seconds(minutes.wrapping_mul(60)).ok(),
            b'-' => UtcOffset::from_whole_seconds(minutes.wrapping_mul(-60)).ok(),
            _ => None,
        }
    }

    // critical-flag, and the bytes after it in brackets
    fn bracketed(text: &[u8]) -> Option<(bool, &[u8])> {
        match text {
            [b'[', b'!', inside @ .., b']'] => Some((true, inside)),
            [b'[', inside @ .., b']'] => Some((false, inside)),
            _ => None,
        }
    }

    // time-zone
    fn zone(text: &[u8]) -> Option<ZoneTag<'_>> {
        let (is_critical, inside) = bracketed(text)?;
        let zone = if Piece::Part.are(b'/', inside) {
            ZoneText::Name(inside)
        } else {
            ZoneText::Offset(offset(inside)?)
        };
        Some(ZoneTag { is_critical, zone })
    }

    // suffix-tag: whether it is critical, and its key
    fn tag(text: &[u8]) -> Option<(bool, &[u8])> {
        let (is_critical, inside) = bracketed(text)?;
        let at = inside.iter().position(|byte| *byte == b'=')?;
        let key = inside.get(..at)?;
        let [_, values @ ..] = inside.get(at..)? else {
            return None;
        };
        (Piece::Key.is(key) && Piece::Value.are(b'-', values)).then_some((is_critical, key))
    }

    // The zone at the start of the text, and its length, or 0 without one.
    fn zone_in_front(text: &[u8]) -> (usize, Option<ZoneTag<'_>>) {
        for end in 0..=text.len() {
            if let Some(found) = text.get(..end).and_then(zone) {
                return (end, Some(found));
            }
        }
        (0, None)
    }

    /// The suffix at the start of the text. No tag is a prefix of another, and no zone is.
    pub(super) fn read_slowly(text: &[u8]) -> Suffixed<'_> {
        let (mut len, zone) = zone_in_front(text);
        let mut critical_key = None;
        for end in 0..=text.len() {
            if let Some((is_critical, key)) = text.get(len..end).and_then(tag) {
                critical_key = critical_key.or(is_critical.then_some(key));
                len = end;
            }
        }
        Suffixed {
            len,
            zone,
            critical_key,
        }
    }
}
