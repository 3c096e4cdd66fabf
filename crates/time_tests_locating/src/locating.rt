//! The location of errors. A row is a text with the index at which it fails and what is expected there. By the rule,
//! the candidates are the literals and components that were started and parsed nothing, and the end where bytes remain.
//! The location is the candidate that leaves the fewest bytes; of those at one index it is the one that the parse's
//! error names, or else the first.
mod items;

use std::process::Abort;
use time_descriptions::{Description, parse_borrowed};
use time_locating::{Expected, Locate, Located};
use time_record::Parsed;

/// A text, the index at which it fails, and what is expected there.
pub type Row<'a> = (&'a [u8], usize, Expected<'a>);

/// Whether `found` is the location of the row: its index, and what is expected there. `None` never is.
pub fn is_place(found: Option<Located<'_>>, row: &Row<'_>) -> bool {
    let (_, index, expected) = *row;
    found == Some(Located { index, expected })
}

/// Whether the row's text, parsed over the defaults, fails at the row's location.
pub fn is_at<F: Locate>(format: &F, row: &Row<'_>, defaults: Option<Parsed>) -> bool {
    is_place(format.locate(row.0, defaults), row)
}

// Whether the format, without defaults, parses the text neither into a record nor as a date.
fn is_refused<F: Locate>(format: &F, text: &[u8]) -> bool {
    format.parse_internal(text, None).is_err() && format.parse_date(text, None).is_err()
}

// Asserts that the text of each row is rejected, at the row's location.
fn assert_places<F: Locate>(rt: &impl Abort, format: &F, rows: &[Row<'_>]) {
    for row in rows {
        let refused = is_at(format, row, None) && is_refused(format, row.0);
        assert!(rt; refused, "{:?}", row.0);
    }
}

/// Asserts that the text of each row is rejected at its location, also by a reference to the format, and that the texts
/// of `whole` are parsed whole, so that they have no location. Nothing has defaults.
pub fn assert_located<F: Locate>(rt: &impl Abort, format: &F, rows: &[Row<'_>], whole: &[&[u8]]) {
    assert_places(rt, format, rows);
    assert_places(rt, &format, rows);
    for text in whole {
        assert!(rt; format.locate(text, None).is_none(), "{text:?}");
    }
}

/// Parses a description of version 2, of at most 64 steps. A text that is no such description fails the test.
pub fn description_of(rt: &impl Abort, text: &[u8]) -> Description<64> {
    match parse_borrowed::<2, 64>(text) {
        Ok(description) => description,
        Err(_) => panic!(rt; "no description"),
    }
}

// Components of the descriptions of these tests. Their numbers are padded with zeros.
mod parts {
    use std::num::NonZero;
    use time_components::{Component, Padding, TrailingInput, modifier};

    /// The calendar year, of four digits after an optional sign.
    pub const YEAR: Component = Component::CalendarYearFullStandardRange(
        modifier::CalendarYearFullStandardRange {
            padding: Padding::Zero,
            sign_is_mandatory: false,
        },
    );

    /// The number of the month, from 01 to 12.
    pub const MONTH: Component = Component::MonthNumerical(modifier::MonthNumerical {
        padding: Padding::Zero,
    });

    /// The day of the month, from 01 to 31.
    pub const DAY: Component = Component::Day(modifier::Day {
        padding: Padding::Zero,
    });

    /// The hour of the 24-hour clock, from 00 to 23.
    pub const HOUR: Component = Component::Hour24(modifier::Hour24 {
        padding: Padding::Zero,
    });

    /// The minute, from 00 to 59.
    pub const MINUTE: Component = Component::Minute(modifier::Minute {
        padding: Padding::Zero,
    });

    /// The second, from 00 to 60.
    pub const SECOND: Component = Component::Second(modifier::Second {
        padding: Padding::Zero,
    });

    /// Skips one byte.
    pub const SKIP: Component = Component::Ignore(modifier::Ignore {
        count: NonZero::<u16>::MIN,
    });

    /// Requires the end of the text.
    pub const END: Component = Component::End(modifier::End {
        trailing_input: TrailingInput::Prohibit,
    });
}

// Texts that RFC 3339 rejects. The location is the start of the first place that doesn't have its form, or whose number
// is out of its range. `2021-01-02T03:04:05` has nineteen bytes, with the year at 0, the month at 5, the day at 8, the
// hour at 11, the minute at 14 and the second at 17.
mod rfc3339 {
    use super::{Row, assert_located, is_at};
    use time_locating::Expected::{Component, End, Literal};
    use time_parsing::Rfc3339;
    use time_record::Parsed;

    static PLACES: [Row<'static>; 40] = [
        (b"21-01-02T03:04:05Z", 0, Component("year")),
        (b"+2021-01-02T03:04:05Z", 0, Component("year")),
        (b"2021/01-02T03:04:05Z", 4, Literal(b"-")),
        (b"20211-01-02T03:04:05Z", 4, Literal(b"-")),
        (b"2021-13-01T00:00:00Z", 5, Component("month")),
        (b"2021-00-01T00:00:00Z", 5, Component("month")),
        (b"2021-1-02T03:04:05Z", 5, Component("month")),
        (b"2021-01/02T03:04:05Z", 7, Literal(b"-")),
        (b"2021-01-00T03:04:05Z", 8, Component("day")),
        (b"2021-01-32T03:04:05Z", 8, Component("day")),
        (b"2021-01-2T03:04:05Z", 8, Component("day")),
        (b"2021-01-02", 10, Component("separator")),
        // The separator between the date and the time may be any byte, so the hour is expected at the second blank.
        (b"2021-01-02  03:04:05Z", 11, Component("hour")),
        (b"2021-01-02T24:04:05Z", 11, Component("hour")),
        (b"2021-01-02T3:04:05Z", 11, Component("hour")),
        (b"2021-01-02T0304:05Z", 13, Literal(b":")),
        (b"2021-01-02T03-04:05Z", 13, Literal(b":")),
        (b"2021-01-02T03:60:05Z", 14, Component("minute")),
        (b"2021-01-02T03:4:05Z", 14, Component("minute")),
        (b"2021-01-02T03:04Z", 16, Literal(b":")),
        (b"2021-01-02T03:04:61Z", 17, Component("second")),
        (b"2021-01-02T03:04:5Z", 17, Component("second")),
        (b"2021-01-02T03:04:05.Z", 19, Component("subsecond")),
        (b"2021-01-02T03:04:05.", 19, Component("subsecond")),
        (b"2021-01-02T03:04:05.x1Z", 19, Component("subsecond")),
        (b"2021-01-02T03:04:05", 19, Component("offset hour")),
        (b"2021-01-02T03:04:05x", 19, Component("offset hour")),
        (b"2021-01-02T03:04:05,5Z", 19, Component("offset hour")),
        (b"2021-01-02T03:04:05+24:00", 19, Component("offset hour")),
        (b"2021-01-02T03:04:05-1:00", 19, Component("offset hour")),
        // A point and a digit, then a point and ten digits: all digits belong to the fraction.
        (b"2021-01-02T03:04:05.5", 21, Component("offset hour")),
        (
            b"2021-01-02T03:04:05.0123456789*",
            30,
            Component("offset hour"),
        ),
        (b"2021-01-02T03:04:05+0607", 22, Literal(b":")),
        (b"2021-01-02T03:04:05.25-06", 25, Literal(b":")),
        (b"2021-01-02T03:04:05+06:60", 23, Component("offset minute")),
        (b"2021-01-02T03:04:05+06:", 23, Component("offset minute")),
        (
            b"2021-01-02T03:04:05.25-06:7",
            26,
            Component("offset minute"),
        ),
        (b"2021-01-02T03:04:05Z ", 20, End),
        (b"2021-01-02T03:04:05Z:00", 20, End),
        (b"2021-01-02T03:04:05.25-06:077", 28, End),
    ];

    // `2021-01-02T03:04:05.25+06:07` truncated at each byte fails at the start of the truncated place.
    static TRUNCATED: [Row<'static>; 28] = [
        (b"", 0, Component("year")),
        (b"2", 0, Component("year")),
        (b"20", 0, Component("year")),
        (b"202", 0, Component("year")),
        (b"2021", 4, Literal(b"-")),
        (b"2021-", 5, Component("month")),
        (b"2021-0", 5, Component("month")),
        (b"2021-01", 7, Literal(b"-")),
        (b"2021-01-", 8, Component("day")),
        (b"2021-01-0", 8, Component("day")),
        (b"2021-01-02", 10, Component("separator")),
        (b"2021-01-02T", 11, Component("hour")),
        (b"2021-01-02T0", 11, Component("hour")),
        (b"2021-01-02T03", 13, Literal(b":")),
        (b"2021-01-02T03:", 14, Component("minute")),
        (b"2021-01-02T03:0", 14, Component("minute")),
        (b"2021-01-02T03:04", 16, Literal(b":")),
        (b"2021-01-02T03:04:", 17, Component("second")),
        (b"2021-01-02T03:04:0", 17, Component("second")),
        (b"2021-01-02T03:04:05", 19, Component("offset hour")),
        (b"2021-01-02T03:04:05.", 19, Component("subsecond")),
        (b"2021-01-02T03:04:05.2", 21, Component("offset hour")),
        (b"2021-01-02T03:04:05.25", 22, Component("offset hour")),
        (b"2021-01-02T03:04:05.25+", 22, Component("offset hour")),
        (b"2021-01-02T03:04:05.25+0", 22, Component("offset hour")),
        (b"2021-01-02T03:04:05.25+06", 25, Literal(b":")),
        (
            b"2021-01-02T03:04:05.25+06:",
            26,
            Component("offset minute"),
        ),
        (
            b"2021-01-02T03:04:05.25+06:0",
            26,
            Component("offset minute"),
        ),
    ];

    // A text that is parsed whole has no location, also if the calendar has no such day.
    static WHOLE: [&[u8]; 3] = [
        b"2021-02-30T00:00:00Z",
        b"2021-01-02t03:04:60z",
        b"2021-01-02T03:04:05.25+06:07",
    ];

    // Defaults don't change the location: this text is parsed with the year 2021 as a default.
    static MONTH: Row<'static> = (b"2021-13-01T00:00:00Z", 5, Component("month"));

    #[test]
    fn rfc3339(rt: HostRuntime) {
        assert_located(&rt, &Rfc3339, &PLACES, &WHOLE);
        assert_located(&rt, &Rfc3339, &TRUNCATED, &[]);
        assert!(rt; is_at(&&Rfc3339, &MONTH, Parsed::new().with_year(2021)));
    }
}

// Texts that RFC 2822 rejects. The location is that of the first place that doesn't have its form, or whose number is
// out of its range: the index of the comma after a weekday's name, of the hour's colon after its blanks, or of the
// second's digits after its colon and blanks. `02 Jan 2021 03:04 +0100` has the month at 3, the year at 7, the hour at
// 12, the minute at 15, and the offset at 18. A colon of a second is expected at 17, and its digits at 18.
mod rfc2822 {
    use super::{Row, assert_located};
    use time_locating::Expected::{Component, End, Literal};
    use time_parsing::Rfc2822;

    static PLACES: [Row<'static>; 62] = [
        (b"Sat 02 Jan 2021 03:04 +0100", 3, Literal(b",")),
        (b" Sat 02 Jan 2021 03:04 +0100", 4, Literal(b",")),
        // The comma is expected right after the name.
        (b"Sat , 02 Jan 2021 03:04 +0100", 3, Literal(b",")),
        (b"Saturday, 02 Jan 2021 03:04 +0100", 3, Literal(b",")),
        (b" (a) sat;02 Jan 2021 03:04 +0100", 8, Literal(b",")),
        (b"Sat, Jan 2021 03:04 +0100", 5, Component("day")),
        // No weekday starts with `Sut`, so a day is expected first.
        (b"Sut, 02 Jan 2021 03:04 +0100", 0, Component("day")),
        (b"32 Jan 2021 03:04 +0100", 0, Component("day")),
        (b"00 Jan 2021 03:04 +0100", 0, Component("day")),
        (b"\r\n02 Jan 2021 03:04 +0100", 0, Component("day")),
        (b"02Jan 2021 03:04 +0100", 2, Literal(b" ")),
        (b"02 Jna 2021 03:04 +0100", 3, Component("month")),
        (b"02 Jan2021 03:04 +0100", 6, Literal(b" ")),
        (b"02 Jan x 03:04 +0100", 7, Component("year")),
        (b"02 Jan 1899 03:04 +0100", 7, Component("year")),
        // Three digits aren't a year of four digits, so the year has the first two.
        (b"02 Jan 202 03:04 +0100", 9, Literal(b" ")),
        (b"02 Jan 202103:04 +0100", 11, Literal(b" ")),
        // A comment isn't allowed after a year of four digits.
        (b"02 Jan 2021(c)03:04 +0100", 11, Literal(b" ")),
        (b"02 Jan 2021 (c)03:04 +0100", 12, Component("hour")),
        (b"02 Jan 2021 24:04 +0100", 12, Component("hour")),
        (b"02 Jan 2021 3:04 +0100", 12, Component("hour")),
        (b"02 Jan 2021 03.04 +0100", 14, Literal(b":")),
        (b"02 Jan 2021 0304 +0100", 14, Literal(b":")),
        // Blanks and comments are allowed before the colon.
        (b"02 Jan 2021 03 04 +0100", 15, Literal(b":")),
        (b"02 Jan 2021 03 (a) 04 +0100", 19, Literal(b":")),
        (b"02 Jan 2021 03(a)\t.04 +0100", 18, Literal(b":")),
        (b"02 Jan 2021 03\r\n 04 +0100", 17, Literal(b":")),
        (b"02 Jan 2021 03:60 +0100", 15, Component("minute")),
        (b"02 Jan 2021 03 : 4 +0100", 17, Component("minute")),
        (b"02 Jan 2021 03:04:61 +0100", 18, Component("second")),
        (b"02 Jan 2021 03:04 : 5 +0100", 20, Component("second")),
        (b"02 Jan 2021 03:04: +0100", 19, Component("second")),
        (b"02 Jan 2021 03:04:x +0100", 18, Component("second")),
        (
            b"02 Jan 2021 03:04 (a) : (b) 99 +0100",
            28,
            Component("second"),
        ),
        (b"02 Jan 2021 03 : 04 :\t", 22, Component("second")),
        // Without a colon no second starts, so blanks are expected, or the offset after them.
        (b"02 Jan 2021 03:04.05 +0100", 17, Literal(b" ")),
        (b"02 Jan 2021 03:04 05 +0100", 18, Component("offset hour")),
        (b"02 Jan 2021 03:04+0100", 17, Literal(b" ")),
        (b"02 Jan 2021 03:04:05+0100", 20, Literal(b" ")),
        (b"02 Jan 2021 03:04 0100", 18, Component("offset hour")),
        (b"02 Jan 2021 03:04 +2600", 18, Component("offset hour")),
        (b"02 Jan 2021 03:04 XYZ", 18, Component("offset hour")),
        // `J` isn't a zone.
        (b"02 Jan 2021 03:04 J", 18, Component("offset hour")),
        (b"02 Jan 2021 03:04 +0160", 21, Component("offset minute")),
        (b"02 Jan 2021 03:04 +01:00", 21, Component("offset minute")),
        (b"02 Jan 2021 03:04 +0100x", 23, End),
        (b"02 Jan 2021 03:04 GMT+1", 21, End),
        (b"02 Jan 2021 03:04 +0100  x", 25, End),
        // A fold isn't part of the blanks without the blank that it needs.
        (b"02 Jan 2021 03:04 +0100 \r\n", 23, End),
        (b"02 Jan 2021 03:04 +0100)", 23, End),
        (b"02 Jan 2021 03:04 +0100 (a))", 27, End),
        // Unclosed comments. Where required blanks are missing, the location is theirs. Where a blank precedes the
        // comment, it is that of the next place, or of the trailing bytes, at the bracket.
        (b"(Sat, 02 Jan 2021 03:04 +0100", 0, Component("day")),
        (b" (Sat, 02 Jan 2021 03:04 +0100", 1, Component("day")),
        (b"Sat, (02 Jan 2021 03:04 +0100", 5, Component("day")),
        (b"02(Jan 2021 03:04 +0100", 2, Literal(b" ")),
        (b"02 (Jan 2021 03:04 +0100", 3, Component("month")),
        (b"02 Jan 2021 03 (a : 04 +0100", 15, Literal(b":")),
        (b"02 Jan 2021 03(a : 04 +0100", 14, Literal(b":")),
        (b"02 Jan 2021 03:04 : (a 05 +0100", 20, Component("second")),
        (b"02 Jan 2021 03:04(+0100", 17, Literal(b" ")),
        (b"02 Jan 2021 03:04 (+0100", 18, Component("offset hour")),
        (b"02 Jan 2021 03:04 +0100 (a (b)", 24, End),
    ];

    // `Sat, 02 Jan 2021 03:04:05 +0607` truncated at each byte fails at the start of the truncated part. A day of 0 is
    // invalid, and a year of two digits is valid.
    static TRUNCATED: [Row<'static>; 31] = [
        (b"", 0, Component("day")),
        (b"S", 0, Component("day")),
        (b"Sa", 0, Component("day")),
        (b"Sat", 3, Literal(b",")),
        (b"Sat,", 4, Component("day")),
        (b"Sat, ", 5, Component("day")),
        (b"Sat, 0", 5, Component("day")),
        (b"Sat, 02", 7, Literal(b" ")),
        (b"Sat, 02 ", 8, Component("month")),
        (b"Sat, 02 J", 8, Component("month")),
        (b"Sat, 02 Ja", 8, Component("month")),
        (b"Sat, 02 Jan", 11, Literal(b" ")),
        (b"Sat, 02 Jan ", 12, Component("year")),
        (b"Sat, 02 Jan 2", 12, Component("year")),
        (b"Sat, 02 Jan 20", 14, Literal(b" ")),
        (b"Sat, 02 Jan 202", 14, Literal(b" ")),
        (b"Sat, 02 Jan 2021", 16, Literal(b" ")),
        (b"Sat, 02 Jan 2021 ", 17, Component("hour")),
        (b"Sat, 02 Jan 2021 0", 17, Component("hour")),
        (b"Sat, 02 Jan 2021 03", 19, Literal(b":")),
        (b"Sat, 02 Jan 2021 03:", 20, Component("minute")),
        (b"Sat, 02 Jan 2021 03:0", 20, Component("minute")),
        (b"Sat, 02 Jan 2021 03:04", 22, Literal(b" ")),
        (b"Sat, 02 Jan 2021 03:04:", 23, Component("second")),
        (b"Sat, 02 Jan 2021 03:04:0", 23, Component("second")),
        (b"Sat, 02 Jan 2021 03:04:05", 25, Literal(b" ")),
        (b"Sat, 02 Jan 2021 03:04:05 ", 26, Component("offset hour")),
        (b"Sat, 02 Jan 2021 03:04:05 +", 26, Component("offset hour")),
        (
            b"Sat, 02 Jan 2021 03:04:05 +0",
            26,
            Component("offset hour"),
        ),
        (
            b"Sat, 02 Jan 2021 03:04:05 +06",
            29,
            Component("offset minute"),
        ),
        (
            b"Sat, 02 Jan 2021 03:04:05 +060",
            29,
            Component("offset minute"),
        ),
    ];

    // A text that is parsed whole has no location, also if the calendar has no such day.
    static WHOLE: [&[u8]; 4] = [
        b"30 Feb 2021 03:04 +0100",
        b"2 Jan 21(c)03:04 UT",
        b"(a) Sat, 02 Jan 2021 03:04 +0100 (b)",
        b"Sat, 02 Jan 2021 03:04:05 +0607",
    ];

    #[test]
    fn rfc2822(rt: HostRuntime) {
        assert_located(&rt, &Rfc2822, &PLACES, &WHOLE);
        assert_located(&rt, &Rfc2822, &TRUNCATED, &[]);
    }
}

// Texts that ISO 8601 rejects. Each form of a date, a time and an offset that is allowed at an index is started, and
// fails at its first missing piece. The location is the furthest of these. Of those at one index it is the end, where
// bytes remain after the parsed part, or else what the parse's error names, or the first.
mod iso8601 {
    use super::{Row, assert_located, is_at};
    use time_locating::Expected::{Component, End, Literal};
    use time_parsing::Iso8601;
    use time_record::Parsed;

    // `2021-01-02` has the month at 5 and the day at 8, `20210102` the month at 4 and the day at 6. If the date is
    // rejected, the first four digits are an hour and a minute, and `-01` after them is an offset. The bytes after that
    // are trailing.
    static DATES: [Row<'static>; 29] = [
        (b"", 0, Component("year")),
        (b"x", 0, Component("year")),
        // An hour, and one byte after it.
        (b"202", 2, End),
        // A year with a sign needs six digits. Of these texts an offset is parsed, `+20:21` and `-02:02`.
        (b"+2021-01-02", 5, End),
        (b"-02021-01-02", 5, End),
        (b"2021-", 5, Component("month")),
        (b"2021-x", 5, Component("month")),
        (b"2021-1-02", 5, Component("month")),
        (b"2021-36", 5, Component("month")),
        (b"2021-01/02", 7, End),
        (b"2021-13-02", 7, End),
        (b"2021-01-", 8, Component("day")),
        (b"2021-01-2", 8, Component("day")),
        (b"2021-01-00", 8, Component("day")),
        (b"2021-01-32", 8, Component("day")),
        (b"2021-01-32T03:04", 8, Component("day")),
        (b"2021-01-021", 10, End),
        (b"20210102x", 8, End),
        (b"2021010x", 7, End),
        (b"2021-367", 5, Component("ordinal")),
        (b"2021399", 6, End),
        (b"2021-0021", 8, End),
        (b"2021-W", 6, Component("week")),
        (b"2021-W00-1", 6, Component("week")),
        (b"2021-W54-1", 6, Component("week")),
        (b"2021W541", 5, Component("week")),
        (b"2021-W53", 8, Literal(b"-")),
        (b"2021-W53-8", 9, Component("weekday")),
        (b"2021W5341", 8, End),
    ];

    // Times and offsets alone. If the first digits aren't an hour, the text isn't a date either, which starts with a
    // year.
    static TIMES: [Row<'static>; 27] = [
        (b"24:00", 0, Component("year")),
        (b"23,", 0, Component("year")),
        (b"T", 1, Component("hour")),
        (b"T24", 1, Component("hour")),
        (b"T23,", 1, Component("hour")),
        (b"23:", 3, Component("minute")),
        (b"23:5", 3, Component("minute")),
        (b"23:60", 3, Component("minute")),
        (b"23:59,", 3, Component("minute")),
        (b"23:59:", 6, Component("second")),
        (b"23:59:61", 6, Component("second")),
        (b"23:59:60,", 6, Component("second")),
        // Ten digits that round to a whole second.
        (b"23:59:59.9999999995", 6, Component("second")),
        (b"23:59x", 5, End),
        (b"23:59:59x", 8, End),
        (b"23:59,5x", 7, End),
        (b"23:59+", 6, Component("offset hour")),
        (b"23:59+26", 6, Component("offset hour")),
        (b"23:59+06:", 9, Component("offset minute")),
        (b"23:59+06:60", 9, Component("offset minute")),
        (b"23:59+0660", 8, Component("offset minute")),
        (b"23:59+06x", 8, End),
        (b"23:59Zx", 6, End),
        // A basic text has no colons.
        (b"2359+06:07", 7, End),
        (b"+99", 1, Component("offset hour")),
        (b"+06:7", 4, Component("offset minute")),
        (b"Z ", 1, End),
    ];

    // Dates with times after them.
    static MOMENTS: [Row<'static>; 16] = [
        (b"2021-01-02T", 11, Component("hour")),
        (b"2021-01-02T25:04", 11, Component("hour")),
        (b"20210102T250405Z", 9, Component("hour")),
        (b"2021-01-02 03:04", 10, End),
        (b"2021-01-02t03:04", 10, End),
        // An offset needs a time before it, not a date alone.
        (b"2021-01-02+06", 10, End),
        (b"2021-01-02T03:04:05.", 17, Component("second")),
        (b"2021-01-02T0304:5", 16, Component("second")),
        (b"20210102T03:04", 11, Component("minute")),
        (b"20210102T0304:05", 13, End),
        (b"20210102T030405+2", 16, Component("offset hour")),
        (b"20210102T030405+06:07", 18, End),
        (b"2021-01-02T03:04:05-0:07", 20, Component("offset hour")),
        (b"2021-01-02T03:04:05+06:0", 23, Component("offset minute")),
        (b"2021-01-02T03:04:05Z ", 20, End),
        (b"2021-W53-4T03:04:5", 17, Component("second")),
    ];

    // `2021-01-02T03:04:05+06:07` truncated at each byte where it isn't parsed whole.
    static TRUNCATED: [Row<'static>; 17] = [
        (b"", 0, Component("year")),
        (b"2", 0, Component("year")),
        (b"202", 2, End),
        (b"2021-", 5, Component("month")),
        (b"2021-0", 5, Component("month")),
        (b"2021-01-", 8, Component("day")),
        (b"2021-01-0", 8, Component("day")),
        (b"2021-01-02T", 11, Component("hour")),
        (b"2021-01-02T0", 11, Component("hour")),
        (b"2021-01-02T03:", 14, Component("minute")),
        (b"2021-01-02T03:0", 14, Component("minute")),
        (b"2021-01-02T03:04:", 17, Component("second")),
        (b"2021-01-02T03:04:0", 17, Component("second")),
        (b"2021-01-02T03:04:05+", 20, Component("offset hour")),
        (b"2021-01-02T03:04:05+0", 20, Component("offset hour")),
        (b"2021-01-02T03:04:05+06:", 23, Component("offset minute")),
        (b"2021-01-02T03:04:05+06:0", 23, Component("offset minute")),
    ];

    // A text that is parsed whole has no location, also if the calendar has no such day. The truncated texts `20`,
    // `2021` and `2021-01` are parsed as a time.
    static WHOLE: [&[u8]; 11] = [
        b"2021-02-30T00:00:00Z",
        b"2021-366",
        b"20",
        b"2021",
        b"2021-01",
        b"2021-01-02",
        b"2021-01-02T03",
        b"2021-01-02T03:04",
        b"2021-01-02T03:04:05",
        b"2021-01-02T03:04:05+06",
        b"2021-01-02T03:04:05+06:07",
    ];

    // Defaults don't change the location: this text is parsed with the year 2021 as a default.
    static HOUR: Row<'static> = (b"20210102T25", 9, Component("hour"));

    #[test]
    fn iso8601(rt: HostRuntime) {
        for rows in [&DATES[..], &TIMES, &MOMENTS] {
            assert_located(&rt, &Iso8601, rows, &[]);
        }
        assert_located(&rt, &Iso8601, &TRUNCATED, &WHOLE);
        assert!(rt; is_at(&&Iso8601, &HOUR, Parsed::new().with_year(2021)));
    }
}

// How an expectation is displayed.
mod display {
    use std::test::Fail;
    use time_locating::Expected;

    // An expectation, and how it is displayed.
    static DISPLAYED: [(Expected<'static>, &str); 5] = [
        (Expected::Component("month"), "expected month"),
        (Expected::Literal(b":"), "expected ':'"),
        (Expected::Literal(b"noon"), "expected 'noon'"),
        (Expected::Literal(&[0xff]), "expected '\\xff'"),
        (Expected::End, "expected the end"),
    ];

    #[test]
    fn displayed_expectations(rt: HostRuntime) -> Result<(), Fail> {
        for (expected, text) in &DISPLAYED {
            let printed = format!(in rt.alloc(); "{expected}")?;
            assert!(rt; printed.as_str() == *text, "{text}");
        }
        Ok(())
    }
}
