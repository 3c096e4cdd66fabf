//! The parsers of the parts of ISO 8601.
use std::num::NonZero;
use time_readers::ParsedItem;
use time_readers::iso8601::{
    DateNumbers, ExtendedKind, date, day, dayk, dayo, float, hour, min, month, week, year,
};
use time_values::error::ParseFromDescription;
use time_values::{Month, Weekday};

// The value at the start of a text and the bytes after it; `None` without a value.
type Answer<T> = Option<(T, &'static [u8])>;

// The item as its value and the bytes after it.
fn answer<T: Copy>(item: Option<ParsedItem<'_, T>>) -> Option<(T, &[u8])> {
    let ParsedItem(rest, value) = item?;
    Some((value, rest))
}

// The item as its number and the bytes after it.
fn small(item: Option<ParsedItem<'_, NonZero<u8>>>) -> Option<(u8, &[u8])> {
    let ParsedItem(rest, value) = item?;
    Some((value.get(), rest))
}

// The item as its number and the bytes after it, for a number of two bytes.
fn large(item: Option<ParsedItem<'_, NonZero<u16>>>) -> Option<(u16, &[u8])> {
    let ParsedItem(rest, value) = item?;
    Some((value.get(), rest))
}

// A text, and the year at its start.
static YEARS: [(&[u8], Answer<i32>); 4] = [
    (b"20215", Some((2021, b"5"))),
    (b"-0123456", Some((-12_345, b"6"))),
    (b"+2021", None),
    (b"202", None),
];

// A text, and the month at its start.
static MONTHS: [(&[u8], Answer<Month>); 3] = [
    (b"123", Some((Month::December, b"3"))),
    (b"00", None),
    (b"13", None),
];

// A text, and the weekday at its start, from 1 for Monday.
static WEEKDAYS: [(&[u8], Answer<Weekday>); 4] = [
    (b"12", Some((Weekday::Monday, b"2"))),
    (b"7", Some((Weekday::Sunday, b""))),
    (b"0", None),
    (b"8", None),
];

#[test]
fn iso_pieces_of_dates(rt: HostRuntime) {
    for (text, expected) in &YEARS {
        assert!(rt; answer(year(text)) == *expected, "{text:?}");
    }
    for (text, expected) in &MONTHS {
        assert!(rt; answer(month(text)) == *expected, "{text:?}");
    }
    for (text, expected) in &WEEKDAYS {
        assert!(rt; answer(dayk(text)) == *expected, "{text:?}");
    }
}

// A text, and the number of two digits at its start, which isn't 0. Its range as a week isn't checked.
static WEEKS: [(&[u8], Answer<u8>); 3] = [(b"991", Some((99, b"1"))), (b"00", None), (b"1", None)];

// A text, and the number of two digits at its start, which isn't 0. Its range as a day isn't checked.
static DAYS: [(&[u8], Answer<u8>); 2] = [(b"32", Some((32, b""))), (b"00", None)];

// A text, and the ordinal at its start.
static ORDINALS: [(&[u8], Answer<u16>); 3] = [
    (b"3670", Some((367, b"0"))),
    (b"000", None),
    (b"36", None),
];

#[test]
fn iso_pieces_that_are_positive(rt: HostRuntime) {
    for (text, expected) in &WEEKS {
        assert!(rt; small(week(text)) == *expected, "{text:?}");
    }
    for (text, expected) in &DAYS {
        assert!(rt; small(day(text)) == *expected, "{text:?}");
    }
    for (text, expected) in &ORDINALS {
        assert!(rt; large(dayo(text)) == *expected, "{text:?}");
    }
}

// A text, and the number of two digits at its start. Its range as an hour isn't checked.
static HOURS: [(&[u8], Answer<u8>); 2] = [(b"990", Some((99, b"0"))), (b"9", None)];

// Texts, and the number at the start of each: its whole part and the digits after its point.
static NUMBERS: [(&[u8], Answer<(u8, Option<&[u8]>)>); 6] = [
    (b"03:", Some(((3, None), b":"))),
    (b"03,25Z", Some(((3, Some(b"25")), b"Z"))),
    (b"99.00", Some(((99, Some(b"00")), b""))),
    (b"03.", None),
    (b"03,x", None),
    (b"3", None),
];

#[test]
fn iso_pieces_of_times(rt: HostRuntime) {
    for (text, expected) in &HOURS {
        assert!(rt; answer(hour(text)) == *expected, "{text:?}");
    }
    assert!(rt; answer(min(b"60")) == Some((60, b"".as_slice())));
    for (text, expected) in &NUMBERS {
        assert!(rt; answer(float(text)) == *expected, "{text:?}");
    }
}

// Whether the text starts with that day of a month in extended form, before this rest.
fn begins_with_day(text: &[u8], expected: (i32, Month, u8), rest: &[u8]) -> bool {
    match date(text) {
        Ok(found) => match found.value {
            DateNumbers::Calendar(year, month, day) => {
                (year, month, day.get()) == expected
                    && found.rest == rest
                    && found.kind == ExtendedKind::Extended
            }
            _ => false,
        },
        Err(_) => false,
    }
}

// Whether the text starts with that day of a year in basic form.
fn begins_with_ordinal(text: &[u8], expected: (i32, u16)) -> bool {
    match date(text) {
        Ok(found) => match found.value {
            DateNumbers::Ordinal(year, ordinal) => {
                (year, ordinal.get()) == expected && found.kind == ExtendedKind::Basic
            }
            _ => false,
        },
        Err(_) => false,
    }
}

#[test]
fn iso_date_reader(rt: HostRuntime) {
    assert!(rt; begins_with_day(b"2021-01-32x", (2021, Month::January, 32), b"x"));
    assert!(rt; begins_with_ordinal(b"2021367", (2021, 367)));
    let refused = match date(b"2021-W50-8") {
        Ok(_) => false,
        Err(fault) => fault == ParseFromDescription::InvalidComponent("weekday"),
    };
    assert!(rt; refused);
}

// Whether an unknown kind may become either one, and then no other.
fn is_coerced_once() -> bool {
    let (mut basic, mut extended) = (ExtendedKind::Unknown, ExtendedKind::Unknown);
    [
        basic.coerce_basic(),
        extended.coerce_extended(),
        basic.coerce_extended(),
        extended.coerce_basic(),
    ] == [Some(()), Some(()), None, None]
        && [basic, extended] == [ExtendedKind::Basic, ExtendedKind::Extended]
}

#[test]
fn iso_kinds(rt: HostRuntime) {
    let [basic, extended, unknown] = [
        ExtendedKind::Basic,
        ExtendedKind::Extended,
        ExtendedKind::Unknown,
    ];
    assert!(rt; [basic.maybe_extended(), unknown.maybe_extended()] == [false, true]);
    assert!(rt; [unknown.is_extended(), extended.is_extended()] == [false, true]);
    assert!(rt; is_coerced_once());
}

// Texts of ISO 8601 with each byte at each place: the date and time parsed together, and one after the other.
mod iso_dates_and_times {
    use time_readers::iso8601::{DateNumbers, Part, TimeNumbers, date, date_and_time, time};

    // Texts whose bytes are changed.
    const TEXTS: [&[u8]; 4] = [
        b"2021-01-02T03:04:05Z",
        b"20210102T030405Z",
        b"2021-12-31T23:59:60,123456789-05:30",
        b"20211231T235960.1234Z",
    ];

    // Whether both have equal numbers, rests and kinds.
    fn are_equal_dates(a: Part<'_, DateNumbers>, b: Part<'_, DateNumbers>) -> bool {
        let is_equal = match (a.value, b.value) {
            (DateNumbers::Calendar(a, b, c), DateNumbers::Calendar(x, y, z)) => {
                a == x && b == y && c.get() == z.get()
            }
            (DateNumbers::Ordinal(a, b), DateNumbers::Ordinal(x, y)) => a == x
                && b.get() == y.get(),
            (DateNumbers::Week(a, b, c), DateNumbers::Week(x, y, z)) => {
                a == x && b.get() == y.get() && c == z
            }
            _ => false,
        };
        is_equal && a.rest == b.rest && a.kind == b.kind
    }

    // Whether both have equal numbers, rests and kinds, or there is neither.
    fn are_equal_times(a: Option<Part<'_, TimeNumbers>>, b: Option<Part<'_, TimeNumbers>>) -> bool {
        match (a, b) {
            (Some(a), Some(b)) => {
                a.value.hour == b.value.hour
                    && a.value.minute == b.value.minute
                    && a.value.second == b.value.second
                    && a.value.subsecond == b.value.subsecond
                    && a.rest == b.rest
                    && a.kind == b.kind
            }
            (None, None) => true,
            _ => false,
        }
    }

    // Whether both ways parse an equal date and time, or report an equal error.
    fn is_right(text: &[u8]) -> bool {
        match (date_and_time(text), date(text)) {
            (Ok(both), Ok(alone)) => {
                are_equal_dates(both.date, alone)
                    && are_equal_times(both.time, time(alone.rest, alone.kind, true))
            }
            (Err(fault), Err(alone)) => fault == alone,
            _ => false,
        }
    }

    // Whether both ways have equal results with each byte at the index `place`.
    fn is_right_at(text: &[u8], place: usize) -> bool {
        let mut bytes = [0; 40];
        let Some(changed) = bytes.get_mut(..text.len()) else {
            return false;
        };
        changed.copy_from_slice(text);
        for byte in 0..=u8::MAX {
            match changed.get_mut(place) {
                Some(it) => *it = byte,
                None => return false,
            }
            if !is_right(changed) {
                return false;
            }
        }
        true
    }

    #[test]
    fn iso_dates_and_times(rt: HostRuntime) {
        for text in TEXTS {
            for place in 0..text.len() {
                assert!(rt; is_right_at(text, place), "{text:?} {place}");
            }
        }
    }
}

// Each row of the table of times under each kind before it, by the part's reader.
mod iso_time_kinds {
    use time_readers::iso8601::{ExtendedKind, time};

    // Hour, minute, second and nanosecond, the unread rest, and the kind after.
    type Found = (u8, u8, u8, u32, &'static [u8], ExtendedKind);

    // A text, the kind before it, and what it parses as; `None` if it is rejected.
    type Row = (&'static [u8], ExtendedKind, Option<Found>);

    // Whether the time at the start of the text, without a mandatory `T`, is parsed as expected after that kind.
    fn reads(text: &[u8], kind: ExtendedKind, expected: Option<Found>) -> bool {
        match (time(text, kind, false), expected) {
            (Some(found), Some((hour, minute, second, subsecond, rest, after))) => {
                let numbers = found.value;
                (numbers.hour, numbers.minute, numbers.second) == (hour, minute, second)
                    && numbers.subsecond == subsecond
                    && found.rest == rest
                    && found.kind == after
            }
            (None, None) => true,
            _ => false,
        }
    }

    const BASIC: ExtendedKind = ExtendedKind::Basic;

    const EXTENDED: ExtendedKind = ExtendedKind::Extended;

    const UNKNOWN: ExtendedKind = ExtendedKind::Unknown;

    static TIMES: [Row; 61] = [
        (b"03,5x", BASIC, Some((3, 30, 0, 0, b"x", BASIC))),
        (b"03", BASIC, Some((3, 0, 0, 0, b"", BASIC))),
        (b"0304.5", BASIC, Some((3, 4, 30, 0, b"", BASIC))),
        (b"03:04.5", BASIC, None),
        (b"0304", BASIC, Some((3, 4, 0, 0, b"", BASIC))),
        (b"03:04", BASIC, None),
        (b"030405", BASIC, Some((3, 4, 5, 0, b"", BASIC))),
        (
            b"030405.25",
            BASIC,
            Some((3, 4, 5, 250_000_000, b"", BASIC)),
        ),
        (b"0304:05", BASIC, Some((3, 4, 0, 0, b":05", BASIC))),
        (b"03:04:05", BASIC, None),
        (b"03:04:05,25", BASIC, None),
        (b"03,5x", EXTENDED, Some((3, 30, 0, 0, b"x", EXTENDED))),
        (b"03", EXTENDED, Some((3, 0, 0, 0, b"", EXTENDED))),
        (b"0304.5", EXTENDED, Some((3, 4, 30, 0, b"", EXTENDED))),
        (b"03:04.5", EXTENDED, Some((3, 4, 30, 0, b"", EXTENDED))),
        (b"0304", EXTENDED, Some((3, 4, 0, 0, b"", EXTENDED))),
        (b"03:04", EXTENDED, Some((3, 4, 0, 0, b"", EXTENDED))),
        (b"030405", EXTENDED, Some((3, 4, 0, 0, b"05", EXTENDED))),
        (b"0304:05", EXTENDED, Some((3, 4, 5, 0, b"", EXTENDED))),
        (
            b"0304:05.25",
            EXTENDED,
            Some((3, 4, 5, 250_000_000, b"", EXTENDED)),
        ),
        (b"03:04:05", EXTENDED, Some((3, 4, 5, 0, b"", EXTENDED))),
        (
            b"03:04:05,25",
            EXTENDED,
            Some((3, 4, 5, 250_000_000, b"", EXTENDED)),
        ),
        (b"03,5x", UNKNOWN, Some((3, 30, 0, 0, b"x", UNKNOWN))),
        (b"03", UNKNOWN, Some((3, 0, 0, 0, b"", UNKNOWN))),
        (b"0304.5", UNKNOWN, Some((3, 4, 30, 0, b"", BASIC))),
        (b"03:04.5", UNKNOWN, Some((3, 4, 30, 0, b"", EXTENDED))),
        (b"0304", UNKNOWN, Some((3, 4, 0, 0, b"", BASIC))),
        (b"03:04", UNKNOWN, Some((3, 4, 0, 0, b"", EXTENDED))),
        (b"030405", UNKNOWN, Some((3, 4, 5, 0, b"", BASIC))),
        (
            b"030405.25",
            UNKNOWN,
            Some((3, 4, 5, 250_000_000, b"", BASIC)),
        ),
        (b"0304:05", UNKNOWN, Some((3, 4, 0, 0, b":05", BASIC))),
        (b"03:04:05", UNKNOWN, Some((3, 4, 5, 0, b"", EXTENDED))),
        (
            b"03:04:05,25",
            UNKNOWN,
            Some((3, 4, 5, 250_000_000, b"", EXTENDED)),
        ),
        // The bytes after a whole hour, and after a whole minute.
        (b"03:", BASIC, None),
        (b"03x", BASIC, Some((3, 0, 0, 0, b"x", BASIC))),
        (b"03.5:", BASIC, Some((3, 30, 0, 0, b":", BASIC))),
        (b"034", BASIC, Some((3, 0, 0, 0, b"4", BASIC))),
        (b"03:", EXTENDED, None),
        (b"03x", EXTENDED, Some((3, 0, 0, 0, b"x", EXTENDED))),
        (b"03.5:", EXTENDED, Some((3, 30, 0, 0, b":", EXTENDED))),
        (b"034", EXTENDED, Some((3, 0, 0, 0, b"4", EXTENDED))),
        (b"03:", UNKNOWN, None),
        (b"03x", UNKNOWN, Some((3, 0, 0, 0, b"x", UNKNOWN))),
        (b"03.5:", UNKNOWN, Some((3, 30, 0, 0, b":", UNKNOWN))),
        (b"034", UNKNOWN, Some((3, 0, 0, 0, b"4", UNKNOWN))),
        (b"0304:", EXTENDED, None),
        (b"0304:", UNKNOWN, Some((3, 4, 0, 0, b":", BASIC))),
        (b"03:04:", UNKNOWN, None),
        (b"03:0405", UNKNOWN, Some((3, 4, 0, 0, b"05", EXTENDED))),
        // A number out of its range is an error, and so is a fraction of a second that rounds to 1.
        (b"24", UNKNOWN, None),
        (b"24.5", UNKNOWN, None),
        (b"0360", UNKNOWN, None),
        (b"0360.5", UNKNOWN, None),
        (b"03:60", UNKNOWN, None),
        (b"03:60.5", UNKNOWN, None),
        (b"030461", UNKNOWN, None),
        (b"03:04:61.5", UNKNOWN, None),
        (b"03:04:05.9999999995", UNKNOWN, None),
        (
            b"030405,9999999994999999999999999999999999999999",
            UNKNOWN,
            Some((3, 4, 5, 999_999_999, b"", BASIC)),
        ),
        // A time doesn't start with a small letter, and the letter alone isn't a time.
        (b"t03", UNKNOWN, None),
        (b"T", UNKNOWN, None),
    ];

    #[test]
    fn iso_times_by_kind(rt: HostRuntime) {
        for (text, kind, expected) in &TIMES {
            assert!(rt; reads(text, *kind, *expected), "{text:?} {kind:?}");
        }
    }

    // The hour of a time after its mandatory letter `T`; `None` if the text is rejected.
    fn hour_behind_letter(text: &[u8]) -> Option<u8> {
        let found = time(text, UNKNOWN, true)?;
        Some(found.value.hour)
    }

    #[test]
    fn iso_times_with_their_letter(rt: HostRuntime) {
        assert!(rt; hour_behind_letter(b"T03") == Some(3));
        assert!(rt; hour_behind_letter(b"03").is_none());
    }
}
