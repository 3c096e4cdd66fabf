//! Texts of RFC 3339 and RFC 2822, and their results on the direct path and over an empty record.
use self::Answer::{Moment, Refused};
use crate::errors::{
    DAY, HOUR, LITERAL, MINUTE, MONTH, NO_DAY, NO_HOUR, NO_HOURS, NO_LEAP_SECOND, NO_MINUTE,
    NO_MINUTES, NO_MONTH, NO_SECOND, OFFSET_HOUR, OFFSET_MINUTE, SECOND, TRAILING, YEAR,
};
use crate::formats::Format::{self, Mail, Stamp};
use crate::formats::{Numbers, Part, numbers, parse_part};
use time_readers::direct;
use time_record::Parsed;
use time_values::Month::{self, April, December, January};
use time_values::error::Parse;

/// The result of a text.
#[derive(Clone, Copy)]
pub enum Answer {
    /// A moment: its date, its time, and the hours and minutes of its offset.
    Moment((i32, Month, u8), (u8, u8, u8, u32), (i8, i8)),
    /// The error without a record, and the error over an empty record.
    Refused(Parse, Parse),
}

/// The result without a record, and the result over an empty one.
pub fn both_results(answer: Answer) -> (Result<Numbers, Parse>, Result<Numbers, Parse>) {
    match answer {
        Moment(date, time, (hours, minutes)) => {
            let parsed = Ok((date, time, (hours, minutes, 0)));
            (parsed, parsed)
        }
        Refused(without, over) => (Err(without), Err(over)),
    }
}

// The result on the direct path, without a record. Formats without that path have the error `LITERAL`.
fn direct_result(format: Format, text: &[u8]) -> Result<Numbers, Parse> {
    match format {
        Stamp => Ok(numbers(direct::rfc3339(text)?)),
        Mail => Ok(numbers(direct::rfc2822(text)?)),
        // Other formats have no direct path.
        _ => Err(LITERAL),
    }
}

/// Whether the text has this result without defaults, on the direct path, and over an empty record.
pub fn is_answered(format: Format, text: &[u8], expected: Answer) -> bool {
    let (expected, expected_over_a_record) = both_results(expected);
    let staged = parse_part(format, Part::Moment, text, Some(Parsed::new()));
    parse_part(format, Part::Moment, text, None) == expected
        && direct_result(format, text) == expected
        && staged == expected_over_a_record
}

/// The first text whose result differs from that of its row, if there is one.
pub fn first_difference(format: Format, rows: &[Row]) -> Option<&'static [u8]> {
    for (text, expected) in rows {
        if !is_answered(format, text, *expected) {
            return Some(*text);
        }
    }
    None
}

/// The first mail date whose result differs, if there is one. A function for each table keeps its rows apart.
pub fn first_mail_difference() -> Option<&'static [u8]> {
    for text in [
        first_moment_difference(),
        first_refusal_difference(),
        first_form_difference(),
        first_return_difference(),
    ] {
        if text.is_some() {
            return text;
        }
    }
    None
}

// The first of the mail dates that are moments whose result differs, if there is one.
fn first_moment_difference() -> Option<&'static [u8]> {
    first_difference(Mail, &MAIL_DATES)
}

// The first of the rejected mail dates whose result differs, if there is one.
fn first_refusal_difference() -> Option<&'static [u8]> {
    first_difference(Mail, &MAIL_REFUSED)
}

// The first of the texts without the form of a mail date whose result differs, if there is one.
fn first_form_difference() -> Option<&'static [u8]> {
    first_difference(Mail, &MAIL_NOT_IN_FORM)
}

// The first of the mail dates with a carriage return whose result differs, if there is one.
fn first_return_difference() -> Option<&'static [u8]> {
    first_difference(Mail, &MAIL_RETURNS)
}

/// A text and its result.
pub type Row = (&'static [u8], Answer);

/// Texts of RFC 3339.
pub static STAMPS: [Row; 20] = [
    (
        b"1985-04-12T23:20:50.52Z",
        Moment((1985, April, 12), (23, 20, 50, 520_000_000), (0, 0)),
    ),
    (
        b"1990-12-31T15:59:60-08:00",
        Moment((1990, December, 31), (15, 59, 59, 999_999_999), (-8, 0)),
    ),
    (
        b"1990-12-31T23:59:60Z",
        Moment((1990, December, 31), (23, 59, 59, 999_999_999), (0, 0)),
    ),
    (
        b"9999-12-31T23:59:59.999999999-23:59",
        Moment((9999, December, 31), (23, 59, 59, 999_999_999), (-23, -59)),
    ),
    (
        b"2021-01-02T03:04:05.1234567899Z",
        Moment((2021, January, 2), (3, 4, 5, 123_456_789), (0, 0)),
    ),
    (
        b"2021-01-02T03:04:05Z",
        Moment((2021, January, 2), (3, 4, 5, 0), (0, 0)),
    ),
    (
        b"2021-01-02t03:04:05.1234567899-05:30",
        Moment((2021, January, 2), (3, 4, 5, 123_456_789), (-5, -30)),
    ),
    (
        b"1990-12-30T23:59:60Z",
        Refused(NO_LEAP_SECOND, NO_LEAP_SECOND),
    ),
    (b"2021-13-01T00:00:00Z", Refused(NO_MONTH, MONTH)),
    (b"2021-13-01T00:00:00Zx", Refused(TRAILING, MONTH)),
    (b"2021-01-02\xc3\xa903:04:05Z", Refused(HOUR, HOUR)),
    (b"", Refused(YEAR, YEAR)),
    (b"2021-00-01T00:00:00Z", Refused(MONTH, MONTH)),
    (b"2021-01-00T00:00:00Z", Refused(NO_DAY, DAY)),
    (b"2021-01-32T25:00:00Z", Refused(NO_DAY, DAY)),
    (b"2021-01-02T24:04:05Z", Refused(NO_HOUR, HOUR)),
    (b"2021-01-02T03:60:05Z", Refused(NO_MINUTE, MINUTE)),
    (b"2021-01-02T03:04:61Z", Refused(NO_SECOND, SECOND)),
    (
        b"2021-01-02T03:04:05+24:00",
        Refused(OFFSET_HOUR, OFFSET_HOUR),
    ),
    (
        b"2021-01-02T03:04:05+05:60x",
        Refused(NO_MINUTES, OFFSET_MINUTE),
    ),
];

/// Texts of RFC 2822 that parse as a moment.
static MAIL_DATES: [Row; 21] = [
    (
        b"Mon, 02 Jan 2021 03:04:05 +0607",
        Moment((2021, January, 2), (3, 4, 5, 0), (6, 7)),
    ),
    (
        b"02 Jan 49 03:04 EST",
        Moment((2049, January, 2), (3, 4, 0, 0), (-5, 0)),
    ),
    (
        b"02 Jan 2021 03:04 -0030",
        Moment((2021, January, 2), (3, 4, 0, 0), (0, -30)),
    ),
    (
        b"02 Jan 2021 03:04 GMT (x)",
        Moment((2021, January, 2), (3, 4, 0, 0), (0, 0)),
    ),
    (
        b"02 (a(b\\)c)) Jan 2021 03:04 +0000",
        Moment((2021, January, 2), (3, 4, 0, 0), (0, 0)),
    ),
    // A comment nested 31 deep, the most that is parsed.
    (
        b"02 ((((((((((((((((((((((((((((((())))))))))))))))))))))))))))))) Jan 2021 03:04 +0000",
        Moment((2021, January, 2), (3, 4, 0, 0), (0, 0)),
    ),
    (
        b"1 Jan 99 00:00 Z",
        Moment((1999, January, 1), (0, 0, 0, 0), (0, 0)),
    ),
    (
        b"1 Jan 99 00:00 UT",
        Moment((1999, January, 1), (0, 0, 0, 0), (0, 0)),
    ),
    (
        b"1 Jan 21(x)03:04 GMT",
        Moment((2021, January, 1), (3, 4, 0, 0), (0, 0)),
    ),
    (
        b"1 Jan 2021\r\n 03:04 GMT",
        Moment((2021, January, 1), (3, 4, 0, 0), (0, 0)),
    ),
    (
        b"31 Dec 2016 23:59:60 GMT",
        Moment((2016, December, 31), (23, 59, 59, 999_999_999), (0, 0)),
    ),
    (
        b"31 Dec 1990 15:59:60 -0800",
        Moment((1990, December, 31), (15, 59, 59, 999_999_999), (-8, 0)),
    ),
    (
        b"1 Jan 2021 03:04 -2500",
        Moment((2021, January, 1), (3, 4, 0, 0), (-25, 0)),
    ),
    (
        b"1 Jan 00 00:00 GMT",
        Moment((2000, January, 1), (0, 0, 0, 0), (0, 0)),
    ),
    (
        b"1 Jan 49 00:00 GMT",
        Moment((2049, January, 1), (0, 0, 0, 0), (0, 0)),
    ),
    (
        b"1 Jan 50 00:00 GMT",
        Moment((1950, January, 1), (0, 0, 0, 0), (0, 0)),
    ),
    (
        b"1 Jan 1900 00:00 GMT",
        Moment((1900, January, 1), (0, 0, 0, 0), (0, 0)),
    ),
    (
        b"1 Jan 9999 00:00 GMT",
        Moment((9999, January, 1), (0, 0, 0, 0), (0, 0)),
    ),
    (
        b"Mon, 02 Jan 2021 03:04 GMT",
        Moment((2021, January, 2), (3, 4, 0, 0), (0, 0)),
    ),
    (
        b" (x)sAt,2 jAN 2021 03 : 04 gmt",
        Moment((2021, January, 2), (3, 4, 0, 0), (0, 0)),
    ),
    (
        b"Sat, 02 Jan 2021 03:04:05 PST (x)",
        Moment((2021, January, 2), (3, 4, 5, 0), (-8, 0)),
    ),
];

/// Texts of RFC 2822 with a part that can't be parsed, or is out of its range.
static MAIL_REFUSED: [Row; 27] = [
    // A comment nested 32 deep.
    (
        b"02 (((((((((((((((((((((((((((((((()))))))))))))))))))))))))))))))) Jan 2021 03:04 +0000",
        Refused(MONTH, MONTH),
    ),
    (b"02 Jan 1899 03:04 +0000", Refused(YEAR, YEAR)),
    (b"1 Jan 99 00:00 J", Refused(OFFSET_HOUR, OFFSET_HOUR)),
    (b"1 Jan 99 00:00 Z (x)", Refused(OFFSET_HOUR, OFFSET_HOUR)),
    (b"1 Jan 2021 03:04 -2600", Refused(NO_HOURS, OFFSET_HOUR)),
    (b"0 Jan 2021 03:04 GMT", Refused(NO_DAY, DAY)),
    (b"32 Jan 2021 03:04 GMT", Refused(NO_DAY, DAY)),
    (b"1 Jan 2021 24:00 GMT", Refused(NO_HOUR, HOUR)),
    (b"1 Jan 2021 03:60 GMT", Refused(NO_MINUTE, MINUTE)),
    (b"1 Jan 2021 03:04:61 GMT", Refused(NO_SECOND, SECOND)),
    (
        b"1 Jan 2021 03:04 -2560",
        Refused(NO_MINUTES, OFFSET_MINUTE),
    ),
    (b"1 Jan 2021 03:04 +2600", Refused(NO_HOURS, OFFSET_HOUR)),
    (
        b"1 Jan 2021 03:04 +0060",
        Refused(NO_MINUTES, OFFSET_MINUTE),
    ),
    (
        b"31 Dec 1990 15:58:60 -0800",
        Refused(NO_LEAP_SECOND, NO_LEAP_SECOND),
    ),
    (
        b"30 Dec 2016 23:59:60 GMT",
        Refused(NO_LEAP_SECOND, NO_LEAP_SECOND),
    ),
    (b"1 Jan 1899 00:00 GMT", Refused(YEAR, YEAR)),
    (b"1 Jan 9 00:00 GMT", Refused(YEAR, YEAR)),
    (b"Mot, 02 Jan 2021 03:04 GMT", Refused(DAY, DAY)),
    (b"", Refused(DAY, DAY)),
    (b"x Jan 2021 03:04 GMT", Refused(DAY, DAY)),
    (b"1 Jxn 2021 03:04 GMT", Refused(MONTH, MONTH)),
    (b"1 Jan x 03:04 GMT", Refused(YEAR, YEAR)),
    (b"1 Jan 2021 3:04 GMT", Refused(HOUR, HOUR)),
    (b"1 Jan 2021 03:04: GMT", Refused(SECOND, SECOND)),
    (b"1 Jan 2021 03:04 XYZ", Refused(OFFSET_HOUR, OFFSET_HOUR)),
    (b"1 Jan 2021 03:04 0000", Refused(OFFSET_HOUR, OFFSET_HOUR)),
    (
        b"1 Jan 2021 03:04 +00",
        Refused(OFFSET_MINUTE, OFFSET_MINUTE),
    ),
];

/// Texts of RFC 2822 with a missing literal, or with trailing bytes.
static MAIL_NOT_IN_FORM: [Row; 17] = [
    (b"02 Jan 2021\r03:04 +0000", Refused(LITERAL, LITERAL)),
    (b"1 Jan 99 00:00 Zx", Refused(TRAILING, TRAILING)),
    (b"Mon 02 Jan 2021 03:04 +0000", Refused(LITERAL, LITERAL)),
    (b"1 Jan 2021(x)03:04 GMT", Refused(LITERAL, LITERAL)),
    (b"1 Jan 2021 \r\n03:04 GMT", Refused(LITERAL, LITERAL)),
    (b"32 Jan 2021 03:04 Zx", Refused(TRAILING, DAY)),
    (b"1 Jan 199 00:00 GMT", Refused(LITERAL, LITERAL)),
    (b"Monday, 02 Jan 2021 03:04 GMT", Refused(LITERAL, LITERAL)),
    (b"1Jan 2021 03:04 GMT", Refused(LITERAL, LITERAL)),
    (b"1 Jan2021 03:04 GMT", Refused(LITERAL, LITERAL)),
    (b"1 Jan 202103:04 GMT", Refused(LITERAL, LITERAL)),
    (b"1 Jan 2021 03.04 GMT", Refused(LITERAL, LITERAL)),
    (b"1 Jan 2021 03:04", Refused(LITERAL, LITERAL)),
    (b"1 Jan 2021 03:04GMT", Refused(LITERAL, LITERAL)),
    (b"1 Jan 2021 03:04:05+0000", Refused(LITERAL, LITERAL)),
    (b"1 Jan 2021 03:04 +0000 x", Refused(TRAILING, TRAILING)),
    (b"1 Jan 2021 03:04 +00000", Refused(TRAILING, TRAILING)),
];

/// Texts of RFC 2822 with a carriage return in place of each blank.
static MAIL_RETURNS: [Row; 14] = [
    (b"\rSat, 02 Jan 2021 03 : 04 : 05 +0000 ", Refused(DAY, DAY)),
    (b" Sat,\r02 Jan 2021 03 : 04 : 05 +0000 ", Refused(DAY, DAY)),
    (
        b" Sat, 02\rJan 2021 03 : 04 : 05 +0000 ",
        Refused(LITERAL, LITERAL),
    ),
    (
        b" Sat, 02 Jan\r2021 03 : 04 : 05 +0000 ",
        Refused(LITERAL, LITERAL),
    ),
    (
        b" Sat, 02 Jan 2021\r03 : 04 : 05 +0000 ",
        Refused(LITERAL, LITERAL),
    ),
    (
        b" Sat, 02 Jan 21\r03 : 04 : 05 +0000 ",
        Refused(LITERAL, LITERAL),
    ),
    (
        b" Sat, 02 Jan 2021 03\r: 04 : 05 +0000 ",
        Refused(LITERAL, LITERAL),
    ),
    (
        b" Sat, 02 Jan 2021 03 :\r04 : 05 +0000 ",
        Refused(MINUTE, MINUTE),
    ),
    (
        b" Sat, 02 Jan 2021 03 : 04\r: 05 +0000 ",
        Refused(LITERAL, LITERAL),
    ),
    (
        b" Sat, 02 Jan 2021 03 : 04 :\r05 +0000 ",
        Refused(SECOND, SECOND),
    ),
    (
        b" Sat, 02 Jan 2021 03 : 04 : 05\r+0000 ",
        Refused(LITERAL, LITERAL),
    ),
    (
        b" Sat, 02 Jan 2021 03 : 04\r+0000 ",
        Refused(LITERAL, LITERAL),
    ),
    (
        b" Sat, 02 Jan 2021 03 : 04 : 05 +0000\r",
        Refused(TRAILING, TRAILING),
    ),
    (
        b" Sat, 02 Jan 2021 03 : 04 : 05 +0000 \r",
        Refused(TRAILING, TRAILING),
    ),
];

// Both paths have the results of the tables.
#[test]
fn two_paths(rt: HostRuntime) {
    let text = first_difference(Stamp, &STAMPS);
    assert!(rt; text == None, "{text:?}");
    let text = first_mail_difference();
    assert!(rt; text == None, "{text:?}");
}
