//! The places of RFC 3339: their numbers, and the first that fails.
use time_readers::rfc3339::{Numbers, Place, place_fault, read};
use time_values::error::ParseFromDescription;

// The numbers of 2021-01-02T03:04:05, without a fraction, in UTC.
const SECOND: Numbers = Numbers {
    year: 2021,
    month: 1,
    day: 2,
    hour: 3,
    minute: 4,
    second: 5,
    subsecond: None,
    is_utc: true,
    offset_is_negative: false,
    offset_hour: 0,
    offset_minute: 0,
};

// Texts, the numbers that they parse as, and the rest. The first is an example of RFC 3339, section 5.8.
static READ: [(&[u8], Numbers, &[u8]); 3] = [
    (
        b"1985-04-12T23:20:50.52Z",
        Numbers {
            year: 1985,
            month: 4,
            day: 12,
            hour: 23,
            minute: 20,
            second: 50,
            subsecond: Some(520_000_000),
            ..SECOND
        },
        b"",
    ),
    (
        b"2021-01-02T03:04:05.1234567899Z",
        Numbers {
            subsecond: Some(123_456_789),
            ..SECOND
        },
        b"",
    ),
    (
        b"2021-01-02T03:04:05-00:30x",
        Numbers {
            is_utc: false,
            offset_is_negative: true,
            offset_minute: 30,
            ..SECOND
        },
        b"x",
    ),
];

// Whether all numbers are equal.
fn are_equal(a: &Numbers, b: &Numbers) -> bool {
    (a.year, a.month, a.day) == (b.year, b.month, b.day)
        && (a.hour, a.minute, a.second, a.subsecond) == (b.hour, b.minute, b.second, b.subsecond)
        && (a.is_utc, a.offset_is_negative) == (b.is_utc, b.offset_is_negative)
        && (a.offset_hour, a.offset_minute) == (b.offset_hour, b.offset_minute)
}

// Whether the text parses as these numbers, before that rest.
fn parses_as(text: &[u8], numbers: &Numbers, rest: &[u8]) -> bool {
    match read::<true>(text) {
        Ok(found) => found.0 == rest && are_equal(&found.1, numbers),
        Err(_) => false,
    }
}

#[test]
fn rfc3339_places(rt: HostRuntime) {
    for (text, numbers, rest) in &READ {
        assert!(rt; parses_as(text, numbers, rest), "{text:?}");
    }
}

// A text, the first place at which it fails, and the first at which it fails without a check of ranges.
static FAILED: [(&[u8], Place, Option<Place>); 8] = [
    (b"", Place::Year, Some(Place::Year)),
    (b"2021-00-02T03:04:05Z", Place::Month, Some(Place::Month)),
    (b"2021-01-02", Place::Separator, Some(Place::Separator)),
    (
        b"2021-01-02\xc3\xa903:04:05Z",
        Place::Hour,
        Some(Place::Hour),
    ),
    (
        b"2021-01-02T03:04:05.Z",
        Place::Subsecond,
        Some(Place::Subsecond),
    ),
    (
        b"2021-01-02T03:04:05+24:00",
        Place::OffsetHour,
        Some(Place::OffsetHour),
    ),
    (b"2021-13-01T00:00:00Z", Place::Month, None),
    (b"2021-01-02T03:04:05+05:60", Place::OffsetMinute, None),
];

#[test]
fn rfc3339_places_that_fail(rt: HostRuntime) {
    for (text, place, unranged) in &FAILED {
        assert!(rt; read::<true>(text).err() == Some(*place), "{text:?}");
        assert!(rt; read::<false>(text).err() == *unranged, "{text:?}");
    }
}

// A place, and the error of a text that fails there.
static FAULTS: [(Place, ParseFromDescription); 2] = [
    (Place::YearDash, ParseFromDescription::InvalidLiteral),
    (
        Place::OffsetHour,
        ParseFromDescription::InvalidComponent("offset hour"),
    ),
];

#[test]
fn rfc3339_faults(rt: HostRuntime) {
    for (place, fault) in &FAULTS {
        assert!(rt; place_fault(*place) == *fault, "{place:?}");
    }
}
