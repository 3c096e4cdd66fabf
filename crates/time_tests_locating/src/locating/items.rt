//! Texts that items and descriptions reject, and where components start.
use super::parts::{DAY, END, HOUR, MINUTE, MONTH, SECOND, YEAR};
use super::{Row, assert_located, is_place};
use std::process::Abort;
use time_components::BorrowedFormatItem::{self, Component as Part, Compound, First, Optional};
use time_components::item;
use time_locating::Expected::{Component, End, Literal};
use time_locating::Locate;
use time_parsing::Items;

type Item = BorrowedFormatItem<'static>;

// `:` and a second.
const SECOND_ITEMS: [Item; 2] = [item!(":"), Part(SECOND)];

// Rejected by an hour, `:` and a minute, and optionally `:` and a second.
static CLOCK_ROWS: [Row<'static>; 16] = [
    (b"23:59:61", 6, Component("second")),
    (b"23:59:6", 6, Component("second")),
    (b"23:59:", 6, Component("second")),
    (b"23:59x", 5, End),
    (b"23:59 :10", 5, End),
    (b"23:59:59x", 8, End),
    (b"23:60", 3, Component("minute")),
    (b"23:5", 3, Component("minute")),
    (b"23:", 3, Component("minute")),
    (b"23:x0", 3, Component("minute")),
    (b"23-59", 2, Literal(b":")),
    (b"23", 2, Literal(b":")),
    (b"24:00", 0, Component("hour")),
    (b"2", 0, Component("hour")),
    (b"x", 0, Component("hour")),
    (b"", 0, Component("hour")),
];

// An hour, `:` and a minute.
const CLOCK: [Item; 3] = [Part(HOUR), item!(":"), Part(MINUTE)];

// A day and `.`.
const DAY_ITEMS: [Item; 2] = [Part(DAY), item!(".")];

// Rejected by the first of `noon`; an hour, `:` and a minute; and a day and `.`.
static CHOICE_ROWS: [Row<'static>; 15] = [
    (b"12:60", 3, Component("minute")),
    (b"12:5", 3, Component("minute")),
    (b"12:", 3, Component("minute")),
    // At index 2 neither `:` nor `.` follows. The first alternative has precedence.
    (b"12", 2, Literal(b":")),
    (b"12-30", 2, Literal(b":")),
    // 31 isn't an hour, so of the alternatives only the day is parsed.
    (b"31", 2, Literal(b".")),
    (b"31:00", 2, Literal(b".")),
    (b"12.x", 3, End),
    (b"12:30x", 5, End),
    (b"noon!", 4, End),
    (b"night", 1, Literal(b"oon")),
    (b"noo", 3, Literal(b"n")),
    (b"no:on", 2, Literal(b"on")),
    (b"32.", 0, Literal(b"noon")),
    (b"", 0, Literal(b"noon")),
];

// Rejected by the first of an hour, `:` and a minute; and an hour alone.
static SHORTER_ROWS: [Row<'static>; 4] = [
    // The hour alone is parsed, and `:61` remains; but the minute fails further on.
    (b"12:61", 3, Component("minute")),
    (b"12x", 2, End),
    (b"12:30:", 5, End),
    (b"24", 0, Component("hour")),
];

/// Rejected by the first of `noon`, `nine` and `ni`. Of the failures at one byte the first has precedence.
pub static WORD_ROWS: [Row<'static>; 6] = [
    (b"nose", 2, Literal(b"on")),
    (b"nin", 3, Literal(b"e")),
    (b"name", 1, Literal(b"oon")),
    (b"moon", 0, Literal(b"noon")),
    (b"noon!", 4, End),
    // `ni` is parsed, and `!` remains where `nine` fails too: the end has precedence.
    (b"ni!", 2, End),
];

// `(`, a day and `)`.
const IN_BRACKETS: [Item; 3] = [item!("("), Part(DAY), item!(")")];

// Rejected by an optional `+`, and an optional group of `(`, a day and `)`.
static OPTIONS_ROWS: [Row<'static>; 7] = [
    (b"x", 0, End),
    (b"-", 0, End),
    (b"+x", 1, End),
    (b"+(", 2, Component("day")),
    (b"(00)", 1, Component("day")),
    (b"(31", 3, Literal(b")")),
    (b"(31)+", 4, End),
];

// An hour, and then the end of the text.
const ENDS: [Item; 2] = [Part(HOUR), Part(END)];

// Rejected by `ENDS`.
static ENDS_ROWS: [Row<'static>; 1] = [(b"23x", 2, End)];

// A literal of bytes that aren't UTF-8, and a day.
const BYTES: [Item; 2] = [BorrowedFormatItem::Literal(&[0xff, 0x00]), Part(DAY)];

// Rejected by `BYTES`. What is expected is the remaining bytes of the literal, as they are.
static BYTES_ROWS: [Row<'static>; 4] = [
    (&[0xff, 0x01], 1, Literal(&[0x00])),
    (&[0xff], 1, Literal(&[0x00])),
    (&[0x00, 0xff], 0, Literal(&[0xff, 0x00])),
    (&[0xff, 0x00, 0xff], 2, Component("day")),
];

// A date and a time.
const MOMENT: [Item; 9] = [
    Part(YEAR),
    item!("-"),
    Part(MONTH),
    item!("-"),
    Part(DAY),
    item!(" "),
    Part(HOUR),
    item!(":"),
    Part(MINUTE),
];

// Rejected by `MOMENT`: `2021-01-02 03:04` truncated at each byte fails at the start of the truncated item.
static MOMENT_ROWS: [Row<'static>; 16] = [
    (b"", 0, Component("year")),
    (b"2", 0, Component("year")),
    (b"20", 0, Component("year")),
    (b"202", 0, Component("year")),
    (b"2021", 4, Literal(b"-")),
    (b"2021-", 5, Component("month")),
    (b"2021-0", 5, Component("month")),
    (b"2021-01", 7, Literal(b"-")),
    (b"2021-01-", 8, Component("day")),
    (b"2021-01-0", 8, Component("day")),
    (b"2021-01-02", 10, Literal(b" ")),
    (b"2021-01-02 ", 11, Component("hour")),
    (b"2021-01-02 0", 11, Component("hour")),
    (b"2021-01-02 03", 13, Literal(b":")),
    (b"2021-01-02 03:", 14, Component("minute")),
    (b"2021-01-02 03:0", 14, Component("minute")),
];

// Rejected by no items, which parse no byte.
static NO_ROWS: [Row<'static>; 1] = [(b"x", 0, End)];

// Asserts that the items as a format, without defaults, reject the text of each row at its location.
fn assert_items(rt: &impl Abort, items: &[BorrowedFormatItem<'_>], rows: &[Row<'_>]) {
    for row in rows {
        assert!(rt;
            is_place(Items(items).locate(row.0, None), row),
            "{:?}",
            row.0
        );
    }
}

// Asserts that the items as a format parse each of the texts whole, so that it has no location.
fn assert_whole(rt: &impl Abort, items: &[BorrowedFormatItem<'_>], texts: &[&[u8]]) {
    for text in texts {
        assert!(rt; Items(items).locate(text, None).is_none(), "{text:?}");
    }
}

// Asserts that the items reject the text of each row at its location, and parse the texts of `whole` whole: as a
// format, and as one compound item.
fn assert_list(
    rt: &impl Abort,
    items: &[BorrowedFormatItem<'_>],
    rows: &[Row<'_>],
    whole: &[&[u8]],
) {
    assert_items(rt, items, rows);
    assert_whole(rt, items, whole);
    assert_located(rt, &Compound(items), rows, whole);
}

#[test]
fn lists(rt: HostRuntime) {
    assert_list(&rt, &ENDS, &ENDS_ROWS, &[]);
    assert_list(&rt, &BYTES, &BYTES_ROWS, &[]);
    assert_list(&rt, &MOMENT, &MOMENT_ROWS, &[b"2021-01-02 03:04"]);
    assert_list(&rt, &[], &NO_ROWS, &[b""]);
}

#[test]
fn optional_second(rt: HostRuntime) {
    let second = Compound(&SECOND_ITEMS);
    let items = [Part(HOUR), item!(":"), Part(MINUTE), Optional(&second)];
    assert_list(&rt, &items, &CLOCK_ROWS, &[b"23:59:59", b"23:59"]);
}

#[test]
fn options(rt: HostRuntime) {
    let day = Compound(&IN_BRACKETS);
    let items = [Optional(&item!("+")), Optional(&day)];
    assert_list(&rt, &items, &OPTIONS_ROWS, &[b"+(31)", b""]);
}

#[test]
fn choices(rt: HostRuntime) {
    let clock = Compound(&CLOCK);
    let day = Compound(&DAY_ITEMS);
    let items = [item!("noon"), clock, day];
    assert_located(&rt, &First(&items), &CHOICE_ROWS, &[b"noon"]);
    assert_located(&rt, &First(&[]), &NO_ROWS, &[b""]);
}

#[test]
fn words(rt: HostRuntime) {
    let words = [item!("noon"), item!("nine"), item!("ni")];
    assert_located(&rt, &First(&words), &WORD_ROWS, &[b"noon", b"nine", b"ni"]);
}

#[test]
fn shorter_choices(rt: HostRuntime) {
    let clock = Compound(&CLOCK);
    let items = [clock, Part(HOUR)];
    assert_located(&rt, &First(&items), &SHORTER_ROWS, &[]);
}

// Where components start in parsed texts. The index is that of the component's first byte: of an offset's hour that of
// its sign, and of a second of RFC 2822 that of its first digit, after its colon.
mod components {
    use super::super::description_of;
    use crate::locating::parts::{DAY, HOUR, MINUTE, MONTH, YEAR};
    use std::process::Abort;
    use time_components::BorrowedFormatItem::{self, Component as Part, Compound, Optional};
    use time_components::item;
    use time_locating::{Locate, locate_error};
    use time_parsing::{Iso8601, Items, Parsable, Rfc2822, Rfc3339};
    use time_record::Parsed;
    use time_values::error::Parse;

    /// A text, the name of a component, and the index at which the component starts; `None` if the format parses no
    /// prefix of the text, or a prefix without that component.
    pub type Mark<'a> = (&'a [u8], &'a str, Option<usize>);

    static RFC3339: [Mark<'static>; 25] = [
        // February has no day 30, and November no day 31.
        (b"2021-02-30T00:00:00Z", "day", Some(8)),
        (b"2021-11-31T00:00:00Z", "day", Some(8)),
        // No month ends at noon UTC.
        (b"2021-01-02T12:00:60Z", "second", Some(17)),
        (b"2021-01-02T03:04:05.25+06:07", "year", Some(0)),
        (b"2021-01-02T03:04:05.25+06:07", "month", Some(5)),
        (b"2021-01-02T03:04:05.25+06:07", "day", Some(8)),
        (b"2021-01-02T03:04:05.25+06:07", "separator", Some(10)),
        (b"2021-01-02T03:04:05.25+06:07", "hour", Some(11)),
        (b"2021-01-02T03:04:05.25+06:07", "minute", Some(14)),
        (b"2021-01-02T03:04:05.25+06:07", "second", Some(17)),
        (b"2021-01-02T03:04:05.25+06:07", "subsecond", Some(19)),
        (b"2021-01-02T03:04:05.25+06:07", "offset hour", Some(22)),
        (b"2021-01-02T03:04:05.25+06:07", "offset minute", Some(26)),
        (b"2021-01-02T03:04:05-06:07", "offset hour", Some(19)),
        (b"2021-01-02T03:04:05-06:07", "offset minute", Some(23)),
        // `Z` has an hour, but no minute, and the text has no fraction.
        (b"2021-01-02T03:04:05z", "offset hour", Some(19)),
        (b"2021-01-02T03:04:05Z", "offset minute", None),
        (b"2021-01-02T03:04:05Z", "subsecond", None),
        (b"2021-01-02T03:04:05.5Z", "offset hour", Some(21)),
        (b"2021-01-02T03:04:05Z", "ordinal", None),
        (b"2021-01-02T03:04:05Z", "", None),
        (b"2021-01-02T03:04:05Z", "Day", None),
        // A prefix is parsed, and bytes remain.
        (b"2021-02-30T00:00:00Z and more", "day", Some(8)),
        // Nothing is parsed.
        (b"2021-13-02T03:04:05Z", "year", None),
        (b"", "year", None),
    ];

    static RFC2822: [Mark<'static>; 20] = [
        (b"31 Nov 2021 00:00 GMT", "day", Some(0)),
        (b"Sat, 30 Feb 2021 03:04:05 +0607", "day", Some(5)),
        (b"Sat, 2 Jan 2021 12:00:60 +0000", "second", Some(22)),
        (b"Sat, 02 Jan 2021 03:04:05 +0607", "day", Some(5)),
        (b"Sat, 02 Jan 2021 03:04:05 +0607", "month", Some(8)),
        (b"Sat, 02 Jan 2021 03:04:05 +0607", "year", Some(12)),
        (b"Sat, 02 Jan 2021 03:04:05 +0607", "hour", Some(17)),
        (b"Sat, 02 Jan 2021 03:04:05 +0607", "minute", Some(20)),
        (b"Sat, 02 Jan 2021 03:04:05 +0607", "second", Some(23)),
        (b"Sat, 02 Jan 2021 03:04:05 +0607", "offset hour", Some(26)),
        (
            b"Sat, 02 Jan 2021 03:04:05 +0607",
            "offset minute",
            Some(29),
        ),
        // A component's index is after its blanks, and a second's after its colon.
        (b"2  Jan 21 03 : 04 : 05  EST", "month", Some(3)),
        (b"2  Jan 21 03 : 04 : 05  EST", "year", Some(7)),
        (b"2  Jan 21 03 : 04 : 05  EST", "minute", Some(15)),
        (b"2  Jan 21 03 : 04 : 05  EST", "second", Some(20)),
        (b"2  Jan 21 03 : 04 : 05  EST", "offset hour", Some(24)),
        // A zone name has no minute, the text has no second, and no error names the weekday.
        (b"2 Jan 21 03:04 EST", "offset minute", None),
        (b"2 Jan 21 03:04 EST", "second", None),
        (b"Sat, 2 Jan 21 03:04 EST", "weekday", None),
        (b"2 Jan 21 25:04 EST", "day", None),
    ];

    static ISO8601: [Mark<'static>; 44] = [
        (b"2021-02-30", "day", Some(8)),
        (b"20210230", "day", Some(6)),
        // 2021 has 365 days and 52 weeks, and 2020 has 53 weeks.
        (b"2021-366", "ordinal", Some(5)),
        (b"2021366", "ordinal", Some(4)),
        (b"2021-W53-1", "week", Some(6)),
        (b"2021W531", "week", Some(5)),
        (b"2021-01-02T12:00:60Z", "second", Some(17)),
        (b"20210102T120060Z", "second", Some(13)),
        (b"2021-01-02T03:04:05,25+06:07", "year", Some(0)),
        (b"2021-01-02T03:04:05,25+06:07", "month", Some(5)),
        (b"2021-01-02T03:04:05,25+06:07", "day", Some(8)),
        (b"2021-01-02T03:04:05,25+06:07", "hour", Some(11)),
        (b"2021-01-02T03:04:05,25+06:07", "minute", Some(14)),
        (b"2021-01-02T03:04:05,25+06:07", "second", Some(17)),
        (b"2021-01-02T03:04:05,25+06:07", "offset hour", Some(22)),
        (b"2021-01-02T03:04:05,25+06:07", "offset minute", Some(26)),
        (b"20210102T030405+0607", "month", Some(4)),
        (b"20210102T030405+0607", "hour", Some(9)),
        (b"20210102T030405+0607", "minute", Some(11)),
        (b"20210102T030405+0607", "second", Some(13)),
        (b"20210102T030405+0607", "offset hour", Some(15)),
        (b"20210102T030405+0607", "offset minute", Some(18)),
        (b"+002021-01-02", "month", Some(8)),
        (b"2021-W52-7T03", "week", Some(6)),
        (b"2021-W52-7T03", "weekday", Some(9)),
        (b"2021-W52-7T03", "hour", Some(11)),
        (b"2021-W52-7T03", "minute", None),
        (b"2021W527", "weekday", Some(7)),
        (b"2021-002T03.5", "ordinal", Some(5)),
        (b"2021-002T03.5", "hour", Some(9)),
        (b"2021-002T03.5", "minute", None),
        (b"2021-01-02T03:04,5", "minute", Some(14)),
        (b"2021-01-02T03:04,5", "second", None),
        // Without a date, after `T` or without it, and an offset alone.
        (b"030405", "second", Some(4)),
        (b"T03:04:05Z", "hour", Some(1)),
        (b"T03:04:05Z", "offset hour", Some(9)),
        (b"03:04-06", "offset hour", Some(5)),
        (b"03:04-06", "offset minute", None),
        (b"-06:07", "offset hour", Some(0)),
        (b"-06:07", "offset minute", Some(4)),
        (b"Z", "offset hour", Some(0)),
        // 32 is not a day, so these are a time and its offset, with trailing bytes.
        (b"2021-02-32", "minute", Some(2)),
        (b"2021-02-32", "day", None),
        (b"x", "year", None),
    ];

    // A date and an optional time.
    const DATE_TEXT: &[u8] = b"[year]-[month]-[day][optional [ [hour]:[minute]]]";

    // A blank, an hour, `:` and a minute.
    const CLOCK: [BorrowedFormatItem<'static>; 4] = [
        item!(" "),
        Part(HOUR),
        item!(":"),
        Part(MINUTE),
    ];

    // By the description of a date and an optional time, as text and as items.
    static DATE: [Mark<'static>; 10] = [
        (b"2021-02-30", "day", Some(8)),
        (b"2021-02-30 24:00", "day", Some(8)),
        (b"2021-02-30 03:04", "year", Some(0)),
        (b"2021-02-30 03:04", "month", Some(5)),
        (b"2021-02-30 03:04", "hour", Some(11)),
        (b"2021-02-30 03:04", "minute", Some(14)),
        // The optional part parses nothing if its minute fails.
        (b"2021-02-30 03:60", "hour", None),
        (b"2021-02-30", "hour", None),
        (b"2021-02-30", "week", None),
        (b"2021-02", "year", None),
    ];

    // The first of an hour and a minute, an ordinal and a year, and a week number, an ISO year and a weekday.
    const CHOICE_TEXT: &[u8] =
        b"[first [[hour]:[minute]] [[ordinal].[year]] [[week_number].[year base:iso_week]-[weekday repr:monday]]]";

    static CHOICE: [Mark<'static>; 8] = [
        (b"12:30", "hour", Some(0)),
        (b"12:30", "minute", Some(3)),
        (b"366.2021", "ordinal", Some(0)),
        (b"366.2021", "year", Some(4)),
        (b"53.2021-1", "week", Some(0)),
        (b"53.2021-1", "week number", Some(0)),
        (b"53.2021-1", "weekday", Some(8)),
        (b"53.2021-1", "ordinal", None),
    ];

    // By a month, `-`, a day, `/` and a day. A component of the defaults isn't in the text, and of two days the last
    // counts.
    static TWO_DAYS: [Mark<'static>; 3] = [
        (b"02-01/30", "year", None),
        (b"02-01/30", "day", Some(6)),
        (b"02-01/30", "month", Some(0)),
    ];

    const TWO_DAYS_ITEMS: [BorrowedFormatItem<'static>; 5] = [
        Part(MONTH),
        item!("-"),
        Part(DAY),
        item!("/"),
        Part(DAY),
    ];

    // Whether the component with that name starts at the row's index in its text, parsed over the defaults.
    fn is_marked<F: Locate>(format: &F, row: &Mark<'_>, defaults: Option<Parsed>) -> bool {
        let (text, name, index) = *row;
        format.locate_component(text, defaults, name) == index
    }

    /// Asserts that in each row's text the component with that name starts at the row's index.
    pub fn assert_marks<F: Locate>(rt: &impl Abort, format: &F, rows: &[Mark<'_>]) {
        for row in rows {
            assert!(rt; is_marked(format, row, None), "{} {:?}", row.1, row.0);
        }
    }

    #[test]
    fn formats(rt: HostRuntime) {
        assert_marks(&rt, &Rfc3339, &RFC3339);
        assert_marks(&rt, &&Rfc2822, &RFC2822);
        assert_marks(&rt, &Iso8601, &ISO8601);
    }

    #[test]
    fn descriptions(rt: HostRuntime) {
        let clock = Compound(&CLOCK);
        let items = [
            Part(YEAR),
            item!("-"),
            Part(MONTH),
            item!("-"),
            Part(DAY),
            Optional(&clock),
        ];
        assert_marks(&rt, &Compound(&items), &DATE);
        assert_marks(&rt, &Items(&items), &DATE);
        assert_marks(&rt, &description_of(&rt, DATE_TEXT), &DATE);
        assert_marks(&rt, &description_of(&rt, CHOICE_TEXT), &CHOICE);
    }

    #[test]
    fn defaults(rt: HostRuntime) {
        for row in &TWO_DAYS {
            let known = Parsed::new().with_year(2021);
            assert!(rt; is_marked(&Items(&TWO_DAYS_ITEMS), row, known), "{}", row.1);
        }
    }

    // A text, and the result of parsing it as a date: on failure, the index of its error, or the start of the component
    // that the calendar rejects; `None` if there is neither.
    type Fault<'a> = (&'a [u8], Result<(), Option<usize>>);

    static RFC3339_DATES: [Fault<'static>; 2] = [
        (b"2021-02-30T00:00:00Z", Err(Some(8))),
        (b"2021-13-30T00:00:00Z", Err(Some(5))),
    ];

    static RFC2822_DATES: [Fault<'static>; 1] = [(b"31 Nov 2021 00:00 GMT", Err(Some(0)))];

    static ISO8601_DATES: [Fault<'static>; 4] = [
        (b"2021-366", Err(Some(5))),
        (b"2021-W53-1", Err(Some(6))),
        (b"2021-W54-1", Err(Some(6))),
        // A time has no date, and no component is to blame.
        (b"03:04", Err(None)),
    ];

    // A year, the number of a week that starts on Sunday, and a short weekday.
    const WEEK_TEXT: &[u8] = b"[year]-[week_number repr:sunday]-[weekday repr:short]";

    // 1 January 2022 is a Saturday. With weeks from Sunday, week 0 of 2022 has that day alone, and no Friday.
    static WEEK_DATES: [Fault<'static>; 2] = [
        (b"2022-00-Fri", Err(Some(5))),
        (b"2022-00-Sat", Ok(())),
    ];

    // Asserts for each row that parsing its text as a date, without defaults, has the row's result.
    fn assert_dates<F: Locate>(rt: &impl Abort, format: &F, rows: &[Fault<'_>]) {
        for (text, expected) in rows {
            let found = match format.parse_date(text, None) {
                Ok(_) => Ok(()),
                Err(error) => Err(locate_error(format, text, None, error)),
            };
            assert!(rt; found == *expected, "{text:?}");
        }
    }

    #[test]
    fn errors(rt: HostRuntime) {
        assert_dates(&rt, &Rfc3339, &RFC3339_DATES);
        assert_dates(&rt, &Rfc2822, &RFC2822_DATES);
        assert_dates(&rt, &Iso8601, &ISO8601_DATES);
        assert_dates(&rt, &description_of(&rt, WEEK_TEXT), &WEEK_DATES);
    }

    // The index at which a text fails that was rejected with the error `refusal`; `None` without an error, or if no
    // index is found.
    fn index_of<F: Locate>(format: &F, text: &[u8], refusal: Option<Parse>) -> Option<usize> {
        locate_error(format, text, None, refusal?)
    }

    // A leap second at noon, a day that February doesn't have, and the year after the last one in UTC.
    #[test]
    fn errors_of_moments(rt: HostRuntime) {
        for (text, index) in [(b"2021-01-02T12:00:60Z", 17), (b"2021-02-30T00:00:00Z", 8)] {
            let refusal = Rfc3339.parse_offset_date_time(text, None).err();
            assert!(rt; index_of(&Rfc3339, text, refusal) == Some(index));
        }
        let text = b"+999999-12-31T23:00-01";
        let refusal = Iso8601.parse_utc_date_time(text, None).err();
        assert!(rt; index_of(&Iso8601, text, refusal) == Some(0));
    }
}

// Texts that parsed descriptions reject. Of a literal the first missing byte is expected.
mod described {
    use super::super::{Row, assert_located, description_of};
    use time_descriptions::parse_strftime;
    use time_locating::Expected::{Component, End, Literal};

    // Rejected by `[year]-[month]-[day]`.
    const DATE: &[Row<'static>] = &[
        (b"2021-13-02", 5, Component("month")),
        (b"2021-00-02", 5, Component("month")),
        (b"2021-0", 5, Component("month")),
        (b"2021-", 5, Component("month")),
        (b"2021/01-02", 4, Literal(b"-")),
        (b"2021", 4, Literal(b"-")),
        (b"2021-01/02", 7, Literal(b"-")),
        (b"2021-01", 7, Literal(b"-")),
        (b"2021-01-32", 8, Component("day")),
        (b"2021-01-00", 8, Component("day")),
        (b"2021-01-0", 8, Component("day")),
        (b"2021-01-", 8, Component("day")),
        (b"2021-01-02x", 10, End),
        (b"202", 0, Component("year")),
        (b"year", 0, Component("year")),
        (b"", 0, Component("year")),
    ];

    // Rejected by `at [hour] o'clock[optional [ and [minute]]]`.
    const TIME: &[Row<'static>] = &[
        (b"on 12 o'clock", 0, Literal(b"a")),
        (b"at 24 o'clock", 3, Component("hour")),
        // The literal ` o'clock` starts at 5, and `k` is in place of its `c` at 11.
        (b"at 12 o'clok", 11, Literal(b"c")),
        (b"at 12 o'clo", 11, Literal(b"c")),
        (b"at 12!", 5, Literal(b" ")),
        (b"at 12 o'clock and 60", 18, Component("minute")),
        (b"at 12 o'clock and ", 18, Component("minute")),
        // The end is expected at 13, and an `a` at 14, inside the optional ` and `.
        (b"at 12 o'clock or 30", 14, Literal(b"a")),
        (b"at 12 o'clock an", 16, Literal(b"d")),
        (b"at 12 o'clock!", 13, End),
        (b"at 12", 5, Literal(b" ")),
        (b"at", 2, Literal(b" ")),
        (b"a", 1, Literal(b"t")),
        (b"", 0, Literal(b"a")),
    ];

    // Rejected by `[first [noon] [[hour]:[minute]] [[day].]]`.
    const CHOICE: &[Row<'static>] = &[
        (b"12:60", 3, Component("minute")),
        (b"12", 2, Literal(b":")),
        (b"31:00", 2, Literal(b".")),
        (b"12.x", 3, End),
        (b"noon!", 4, End),
        (b"night", 1, Literal(b"o")),
        (b"noo", 3, Literal(b"n")),
        (b"32", 0, Literal(b"n")),
    ];

    // Rejected by a year, `-W` and a week as ISO 8601 counts them.
    const WEEK: &[Row<'static>] = &[
        (b"2021-w23", 5, Literal(b"W")),
        (b"2021-", 5, Literal(b"W")),
        (b"2021W23", 4, Literal(b"-")),
        (b"2021", 4, Literal(b"-")),
        (b"2021-W54", 6, Component("week number")),
    ];

    // Rejected by the first of `noon` and `nine`. Of the failures at one byte the first has precedence.
    const WORDS: &[Row<'static>] = &[
        (b"night", 2, Literal(b"n")),
        (b"no", 2, Literal(b"o")),
        (b"name", 1, Literal(b"o")),
        (b"x", 0, Literal(b"n")),
    ];

    // A description, rows of texts that it rejects, and texts that it parses whole.
    type Case = (
        &'static [u8],
        &'static [Row<'static>],
        &'static [&'static [u8]],
    );

    static DESCRIPTIONS: [Case; 5] = [
        // The whole text is parsed, though it makes no date.
        (b"[year]-[month]-[day]", DATE, &[b"2021-02-30"]),
        (
            b"at [hour] o'clock[optional [ and [minute]]]",
            TIME,
            &[b"at 12 o'clock and 30", b"at 12 o'clock"],
        ),
        (b"[first [noon] [[hour]:[minute]] [[day].]]", CHOICE, &[]),
        (b"[year base:iso_week]-W[week_number]", WEEK, &[b"2021-W23"]),
        (b"[first [noon] [nine]]", WORDS, &[b"noon", b"nine"]),
    ];

    #[test]
    fn descriptions(rt: HostRuntime) {
        for (text, rows, whole) in &DESCRIPTIONS {
            let description = description_of(&rt, text);
            assert_located(&rt, &description, rows, whole);
        }
    }

    #[test]
    fn strftime(rt: HostRuntime) {
        match parse_strftime::<64>(b"%G-W%V") {
            Ok(description) => assert_located(&rt, &description, WEEK, &[b"2021-W23"]),
            Err(_) => panic!(&rt; "no description"),
        }
    }
}

// Descriptions that own their items, and those of version 3.
mod owned {
    use super::super::{Row, assert_located};
    use super::WORD_ROWS;
    use super::components::{Mark, assert_marks};
    use crate::locating::parts::{DAY, HOUR, SKIP};
    use std::alloc::{AllocError, Global};
    use std::test::Fail;
    use time_components::{
        BorrowedFormatItem, FormatDescriptionV3, FormatDescriptionV3Inner, OwnedFormatItem,
    };
    use time_locating::Expected::{Component, End, Literal};

    // By a dash and a day. The second text is rejected.
    static DASH_AND_DAY: [Mark<'static>; 2] = [(b"-30", "day", Some(1)), (b"-32", "day", None)];

    // By a day alone.
    static ONE_DAY: [Mark<'static>; 2] = [(b"30", "day", Some(0)), (b"30", "hour", None)];

    // Rejected by an hour and an optional `h`.
    static HOUR_AND_LETTER: [Row<'static>; 2] = [(b"23m", 2, End), (b"24h", 0, Component("hour"))];

    // Rejected by `-W` and a day.
    static LETTER_AND_DAY: [Row<'static>; 4] = [
        (b"-w23", 1, Literal(b"W")),
        (b"-", 1, Literal(b"W")),
        (b"W23", 0, Literal(b"-W")),
        (b"-W32", 2, Component("day")),
    ];

    // In a description of version 3 skipped bytes end between characters: `\xc3\xa9` is the single character U+00E9.
    static SKIPPED_TEXT: [Row<'static>; 2] = [
        (b"\xc3\xa9", 0, Component("ignore")),
        (b"ab", 1, End),
    ];

    // A borrowed item skips a single byte: of the two of U+00E9 the second remains.
    static SKIPPED_BYTE: [Row<'static>; 1] = [(b"\xc3\xa9", 1, End)];

    // A dash and a day.
    fn dash_and_day(alloc: Global) -> Result<OwnedFormatItem, AllocError> {
        let dash = b"-".to_vec(alloc)?;
        let mut items = Vec::with_capacity(alloc, 2)?;
        items.push_reserved(OwnedFormatItem::Literal(dash));
        items.push_reserved(OwnedFormatItem::Component(DAY));
        Ok(OwnedFormatItem::Compound(items))
    }

    // `-W` and a day.
    fn letter_and_day(alloc: Global) -> Result<OwnedFormatItem, AllocError> {
        let letter = b"-W".to_vec(alloc)?;
        let mut items = Vec::with_capacity(alloc, 2)?;
        items.push_reserved(OwnedFormatItem::Literal(letter));
        items.push_reserved(OwnedFormatItem::Component(DAY));
        Ok(OwnedFormatItem::Compound(items))
    }

    // The first of `noon`, `nine` and `ni`.
    fn words(alloc: Global) -> Result<OwnedFormatItem, AllocError> {
        let mut items = Vec::with_capacity(alloc, 3)?;
        for word in [b"noon".as_slice(), b"nine", b"ni"] {
            items.push(OwnedFormatItem::Literal(word.to_vec(alloc)?))?;
        }
        Ok(OwnedFormatItem::First(items))
    }

    // An hour and an optional `h`.
    fn hour_and_letter(alloc: Global) -> Result<OwnedFormatItem, AllocError> {
        let letter = OwnedFormatItem::Literal(b"h".to_vec(alloc)?);
        let letter = Box::new(alloc, letter)?;
        let mut items = Vec::with_capacity(alloc, 2)?;
        items.push_reserved(OwnedFormatItem::Component(HOUR));
        items.push_reserved(OwnedFormatItem::Optional(letter));
        Ok(OwnedFormatItem::Compound(items))
    }

    #[test]
    fn owned(rt: HostRuntime) -> Result<(), Fail> {
        assert_marks(&rt, &dash_and_day(rt.alloc())?, &DASH_AND_DAY);
        let description = hour_and_letter(rt.alloc())?;
        assert_located(&rt, &description, &HOUR_AND_LETTER, &[b"23h"]);
        assert_located(
            &rt,
            &letter_and_day(rt.alloc())?,
            &LETTER_AND_DAY,
            &[b"-W31"],
        );
        assert_located(&rt, &words(rt.alloc())?, &WORD_ROWS, &[b"noon", b"ni"]);
        Ok(())
    }

    #[test]
    fn version_3(rt: HostRuntime) {
        let day = FormatDescriptionV3 {
            inner: FormatDescriptionV3Inner::Component(DAY),
        };
        assert_marks(&rt, &day, &ONE_DAY);
        let skip = FormatDescriptionV3 {
            inner: FormatDescriptionV3Inner::Component(SKIP),
        };
        assert_located(&rt, &skip, &SKIPPED_TEXT, &[]);
        let borrowed = BorrowedFormatItem::Component(SKIP);
        assert_located(&rt, &borrowed, &SKIPPED_BYTE, &[]);
    }
}
