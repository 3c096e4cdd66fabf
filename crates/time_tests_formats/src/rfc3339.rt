//! Texts of RFC 3339 with each byte at each place, compared with a slow parser.
mod places;
mod slow;

use crate::formats::{Format, Numbers, Part, numbers, parse_part};
use crate::paths::{STAMPS, both_results};
use slow::{moment, tail};
use time_readers::{direct, rfc3339};
use time_record::Parsed;
use time_values::error::{Parse, ParseFromDescription};

// The error of the first place of the text that fails, with a check of ranges if `RANGED`; `None` if no place fails.
fn refusal<const RANGED: bool>(text: &[u8]) -> Option<ParseFromDescription> {
    match rfc3339::read::<RANGED>(text) {
        Ok(_) => None,
        Err(place) => Some(rfc3339::place_fault(place)),
    }
}

// Whether the places have the error of the slow parser, without a calendar.
fn has_right_places(text: &[u8]) -> bool {
    refusal::<true>(text) == tail(text, true).err()
        && refusal::<false>(text) == tail(text, false).err()
}

// The result of the text on the direct path, as numbers.
fn direct_result(text: &[u8]) -> Result<Numbers, Parse> {
    Ok(numbers(direct::rfc3339(text)?))
}

// Whether the text has the slow parser's result: on the direct path, over an empty record, and by its places.
fn is_right(text: &[u8]) -> bool {
    let expected = moment(text, false);
    let staged = parse_part(Format::Stamp, Part::Moment, text, Some(Parsed::new()));
    direct_result(text) == expected
        && parse_part(Format::Stamp, Part::Moment, text, None) == expected
        && staged == moment(text, true)
        && has_right_places(text)
}

// Checks the text with each byte at the index `place`. `Err` is a byte with which the results differ.
fn with_each_byte(text: &[u8], place: usize) -> Result<(), u8> {
    let mut changed = [b' '; 35];
    let changed = changed.get_mut(..text.len()).ok_or(0)?;
    changed.copy_from_slice(text);
    for byte in 0..=u8::MAX {
        *changed.get_mut(place).ok_or(byte)? = byte;
        if !is_right(changed) {
            return Err(byte);
        }
    }
    Ok(())
}

// The slow parser has the results of the table.
#[test]
fn slow_stamps(rt: HostRuntime) {
    for (text, expected) in &STAMPS {
        let parsed = (moment(text, false), moment(text, true));
        assert!(rt; parsed == both_results(*expected), "{text:?}");
    }
}

// Texts whose bytes up to the second are changed.
static WHOLE: [&[u8]; 4] = [
    b"1985-04-12T23:20:50.52Z",
    b"1990-12-31T23:59:60Z",
    b"1990-12-31T15:59:60-08:00",
    b"9999-12-31T23:59:59.999999999-23:59",
];

// The index of the first byte after the second.
const SECOND_END: usize = 19;

#[test]
fn fronts(rt: HostRuntime) {
    for text in &WHOLE {
        for place in 0..SECOND_END {
            let outcome = with_each_byte(text, place);
            assert!(rt; outcome == Ok(()), "{text:?} {place} {outcome:?}");
        }
    }
}

// A text, and the parts after its second: the nanosecond, and the hours and minutes of the offset; `None` if the text
// is rejected.
static TAILS: [(&[u8], Option<(u32, i8, i8)>); 24] = [
    (b"2021-01-02T03:04:05Z", Some((0, 0, 0))),
    (b"2021-01-02T03:04:05z", Some((0, 0, 0))),
    (b"2021-01-02T03:04:05+00:00", Some((0, 0, 0))),
    (b"2021-01-02T03:04:05+23:59", Some((0, 23, 59))),
    (b"2021-01-02T03:04:05-00:30", Some((0, 0, -30))),
    (b"2021-01-02T03:04:05.1Z", Some((100_000_000, 0, 0))),
    (b"2021-01-02T03:04:05.12Z", Some((120_000_000, 0, 0))),
    (b"2021-01-02T03:04:05.123Z", Some((123_000_000, 0, 0))),
    (b"2021-01-02T03:04:05.1234Z", Some((123_400_000, 0, 0))),
    (b"2021-01-02T03:04:05.12345Z", Some((123_450_000, 0, 0))),
    (
        b"2021-01-02T03:04:05.123456-05:30",
        Some((123_456_000, -5, -30)),
    ),
    (b"2021-01-02T03:04:05.1234567Z", Some((123_456_700, 0, 0))),
    (b"2021-01-02T03:04:05.0000000019Z", Some((1, 0, 0))),
    (b"2021-01-02T03:04:05.Z", None),
    (b"2021-01-02T03:04:05.123", None),
    (b"2021-01-02T03:04:05.123:Z", None),
    (b"2021-01-02T03:04:05.123456/Z", None),
    (b"2021-01-02T03:04:05", None),
    (b"2021-01-02T03:04:05,05:30", None),
    (b"2021-01-02T03:04:05+24:00", None),
    (b"2021-01-02T03:04:05+05:60", None),
    (b"2021-01-02T03:04:05+05;30", None),
    (b"2021-01-02T03:04:05+05:3", None),
    (b"2021-01-02T03:04:05+05:30Z", None),
];

// The nanosecond of the text and the hours and minutes of its offset, by the slow parser; `None` if it is rejected.
fn behind_second(text: &[u8]) -> Option<(u32, i8, i8)> {
    let (_, (_, _, _, nanosecond), (hours, minutes, _)) = moment(text, false).ok()?;
    Some((nanosecond, hours, minutes))
}

#[test]
fn tails(rt: HostRuntime) {
    for (text, expected) in &TAILS {
        assert!(rt;
            behind_second(text) == *expected && is_right(text),
            "{text:?}"
        );
        for place in SECOND_END..text.len() {
            let outcome = with_each_byte(text, place);
            assert!(rt; outcome == Ok(()), "{text:?} {place} {outcome:?}");
        }
    }
}
