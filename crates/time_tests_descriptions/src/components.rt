//! The parsers of components.
use std::num::NonZero;
use time_components::component::*;
use time_components::{Padding, ParsedItem, Period, SubsecondDigits, TrailingInput, modifier};
use time_values::{Month, Weekday};

// The value at the start of a text and the bytes after it, or nothing.
pub type Answer<T> = Option<(T, &'static [u8])>;

// Whether the reader's result is the value and rest, or nothing.
pub fn answers<T: PartialEq + Copy>(
    answer: Option<ParsedItem<'_, T>>,
    expected: Option<(T, &[u8])>,
) -> bool {
    match (answer, expected) {
        (Some(found), Some(value)) => found.1 == value.0 && found.0 == value.1,
        (None, None) => true,
        _ => false,
    }
}

// The result with a plain number.
pub fn small(answer: Option<ParsedItem<'_, NonZero<u8>>>) -> Option<ParsedItem<'_, u8>> {
    let found = answer?;
    Some(ParsedItem(found.0, found.1.get()))
}

// The result with a plain number, for a number of two bytes.
pub fn large(answer: Option<ParsedItem<'_, NonZero<u16>>>) -> Option<ParsedItem<'_, u16>> {
    let found = answer?;
    Some(ParsedItem(found.0, found.1.get()))
}

const ZERO: Padding = Padding::Zero;

const SPACE: Padding = Padding::Space;

const NONE: Padding = Padding::None;

static CENTURIES_OF_FOUR_DIGITS: [(&[u8], Answer<(i16, bool)>); 3] = [
    (b"5x", Some(((5, false), b"x"))),
    (b"+5x", None),
    (b"-00", Some(((0, true), b""))),
];

static WIDE_YEARS: [(&[u8], Answer<i32>); 2] = [
    (b"20215", Some((2021, b"5"))),
    (b"+012345", Some((12345, b""))),
];

#[test]
fn components(rt: HostRuntime) {
    let padding = Padding::Zero;
    let century = modifier::CalendarYearCenturyStandardRange {
        padding,
        sign_is_mandatory: false,
    };
    for (input, expected) in &CENTURIES_OF_FOUR_DIGITS {
        assert!(rt;
            answers(
                parse_calendar_year_century_standard_range(input, century),
                *expected
            )
        );
    }
    let year = modifier::CalendarYearFullExtendedRange {
        padding,
        sign_is_mandatory: false,
    };
    for (input, expected) in &WIDE_YEARS {
        assert!(rt;
            answers(
                parse_calendar_year_full_extended_range(input, year),
                *expected
            )
        );
    }
    assert!(rt;
        answers(
            offset_hour(b"-0030", padding, false),
            Some(((0, true), b"30"))
        )
    );
    let minute = parse_offset_minute(b"30", modifier::OffsetMinute { padding });
    assert!(rt; answers(minute, Some((30, b""))));
}

// The result of the reader of an offset's hour.
fn offset_hour(
    input: &[u8],
    padding: Padding,
    sign_is_mandatory: bool,
) -> Option<ParsedItem<'_, (i8, bool)>> {
    parse_offset_hour(
        input,
        modifier::OffsetHour {
            padding,
            sign_is_mandatory,
        },
    )
}

// The results of the readers of a number of two digits.
fn two_places(input: &[u8], padding: Padding) -> [Option<ParsedItem<'_, u8>>; 9] {
    [
        parse_calendar_year_last_two(input, modifier::CalendarYearLastTwo { padding }),
        parse_iso_year_last_two(input, modifier::IsoYearLastTwo { padding }),
        parse_week_number_iso(input, modifier::WeekNumberIso { padding }),
        parse_week_number_sunday(input, modifier::WeekNumberSunday { padding }),
        parse_week_number_monday(input, modifier::WeekNumberMonday { padding }),
        parse_hour_12(input, modifier::Hour12 { padding }),
        parse_hour_24(input, modifier::Hour24 { padding }),
        parse_minute(input, modifier::Minute { padding }),
        parse_second(input, modifier::Second { padding }),
    ]
}

static TWO_PLACES: [(&[u8], Padding, Answer<u8>); 12] = [
    (b"00", ZERO, Some((0, b""))),
    (b"07x", ZERO, Some((7, b"x"))),
    (b" 7x", SPACE, Some((7, b"x"))),
    (b"7x", NONE, Some((7, b"x"))),
    (b"127", NONE, Some((12, b"7"))),
    (b"23", ZERO, Some((23, b""))),
    (b"53", SPACE, Some((53, b""))),
    (b"60", NONE, Some((60, b""))),
    (b"99", ZERO, Some((99, b""))),
    (b"7", ZERO, None),
    (b"  7", SPACE, None),
    (b" 7", NONE, None),
];

#[test]
fn components_in_two_places(rt: HostRuntime) {
    for (input, padding, expected) in &TWO_PLACES {
        for answer in two_places(input, *padding) {
            assert!(rt; answers(answer, *expected));
        }
    }
}

static DAYS: [(&[u8], Padding, Answer<u8>); 6] = [
    (b"01", ZERO, Some((1, b""))),
    (b" 7x", SPACE, Some((7, b"x"))),
    (b"7x", NONE, Some((7, b"x"))),
    (b"31", ZERO, Some((31, b""))),
    (b"00", ZERO, None),
    (b"1", ZERO, None),
];

static ORDINALS: [(&[u8], Padding, Answer<u16>); 6] = [
    (b"001", ZERO, Some((1, b""))),
    (b"  7x", SPACE, Some((7, b"x"))),
    (b"7x", NONE, Some((7, b"x"))),
    (b"366", ZERO, Some((366, b""))),
    (b"000", ZERO, None),
    (b"01", ZERO, None),
];

static MONTHS: [(&[u8], Padding, Answer<Month>); 6] = [
    (b"01", ZERO, Some((Month::January, b""))),
    (b" 7x", SPACE, Some((Month::July, b"x"))),
    (b"7x", NONE, Some((Month::July, b"x"))),
    (b"12", ZERO, Some((Month::December, b""))),
    (b"00", ZERO, None),
    (b"13", ZERO, None),
];

#[test]
fn components_from_one(rt: HostRuntime) {
    for (input, padding, expected) in &DAYS {
        let day = parse_day(input, modifier::Day { padding: *padding });
        assert!(rt; answers(small(day), *expected));
    }
    for (input, padding, expected) in &ORDINALS {
        let ordinal = parse_ordinal(input, modifier::Ordinal { padding: *padding });
        assert!(rt; answers(large(ordinal), *expected));
    }
    for (input, padding, expected) in &MONTHS {
        let month = parse_month_numerical(input, modifier::MonthNumerical { padding: *padding });
        assert!(rt; answers(month, *expected));
    }
}

// Texts, their padding, whether a sign is mandatory, and the year.
static YEARS: [(&[u8], Padding, bool, Answer<i32>); 7] = [
    (b"-9999", ZERO, true, Some((-9999, b""))),
    (b"9999", ZERO, false, Some((9999, b""))),
    (b"2021", ZERO, true, None),
    (b"   5", SPACE, false, Some((5, b""))),
    (b"-   5", SPACE, false, Some((-5, b""))),
    (b"5x", NONE, false, Some((5, b"x"))),
    (b"005x", ZERO, false, None),
];

// The results of the readers of a year.
fn years(
    input: &[u8],
    padding: Padding,
    sign_is_mandatory: bool,
) -> [Option<ParsedItem<'_, i32>>; 4] {
    [
        parse_calendar_year_full_extended_range(
            input,
            modifier::CalendarYearFullExtendedRange {
                padding,
                sign_is_mandatory,
            },
        ),
        parse_calendar_year_full_standard_range(
            input,
            modifier::CalendarYearFullStandardRange {
                padding,
                sign_is_mandatory,
            },
        ),
        parse_iso_year_full_extended_range(
            input,
            modifier::IsoYearFullExtendedRange {
                padding,
                sign_is_mandatory,
            },
        ),
        parse_iso_year_full_standard_range(
            input,
            modifier::IsoYearFullStandardRange {
                padding,
                sign_is_mandatory,
            },
        ),
    ]
}

#[test]
fn components_of_years(rt: HostRuntime) {
    for (input, padding, sign_is_mandatory, expected) in &YEARS {
        for answer in years(input, *padding, *sign_is_mandatory) {
            assert!(rt; answers(answer, *expected));
        }
    }
    let [_, _, extended, standard] = years(b"+20215", ZERO, true);
    assert!(rt; answers(standard, Some((2021, b"5"))));
    assert!(rt; answers(extended, Some((20215, b""))));
}

static CENTURIES: [(&[u8], Padding, bool, Answer<(i16, bool)>); 9] = [
    (b"-99", ZERO, true, Some(((-99, true), b""))),
    (b"99", ZERO, false, Some(((99, false), b""))),
    (b"99", ZERO, true, None),
    (b"5x", SPACE, false, Some(((5, false), b"x"))),
    (b" 5", SPACE, false, None),
    (b"+ 5", SPACE, false, Some(((5, false), b""))),
    (b"-5x", NONE, false, Some(((-5, true), b"x"))),
    (b"-0x", NONE, false, Some(((0, true), b"x"))),
    (b"-5x", ZERO, false, None),
];

// The results of the readers of a century.
fn centuries(
    input: &[u8],
    padding: Padding,
    sign_is_mandatory: bool,
) -> [Option<ParsedItem<'_, (i16, bool)>>; 4] {
    [
        parse_calendar_year_century_extended_range(
            input,
            modifier::CalendarYearCenturyExtendedRange {
                padding,
                sign_is_mandatory,
            },
        ),
        parse_calendar_year_century_standard_range(
            input,
            modifier::CalendarYearCenturyStandardRange {
                padding,
                sign_is_mandatory,
            },
        ),
        parse_iso_year_century_extended_range(
            input,
            modifier::IsoYearCenturyExtendedRange {
                padding,
                sign_is_mandatory,
            },
        ),
        parse_iso_year_century_standard_range(
            input,
            modifier::IsoYearCenturyStandardRange {
                padding,
                sign_is_mandatory,
            },
        ),
    ]
}

#[test]
fn components_of_centuries(rt: HostRuntime) {
    for (input, padding, sign_is_mandatory, expected) in &CENTURIES {
        for answer in centuries(input, *padding, *sign_is_mandatory) {
            assert!(rt; answers(answer, *expected));
        }
    }
    let [_, _, extended, standard] = centuries(b"+9999", ZERO, true);
    assert!(rt; answers(standard, Some(((99, false), b"99"))));
    assert!(rt; answers(extended, Some(((9999, false), b""))));
}

static OFFSET_HOURS: [(&[u8], Padding, bool, Answer<(i8, bool)>); 7] = [
    (b"-25", ZERO, true, Some(((-25, true), b""))),
    (b"+25", ZERO, true, Some(((25, false), b""))),
    (b"25", ZERO, false, Some(((25, false), b""))),
    (b"25", ZERO, true, None),
    (b"- 5", SPACE, false, Some(((-5, true), b""))),
    (b"5x", NONE, false, Some(((5, false), b"x"))),
    (b"-5x", ZERO, false, None),
];

static OFFSET_MINUTES: [(&[u8], Padding, Answer<i8>); 5] = [
    (b"00", ZERO, Some((0, b""))),
    (b"59", ZERO, Some((59, b""))),
    (b" 7", SPACE, Some((7, b""))),
    (b"7x", NONE, Some((7, b"x"))),
    (b"-7", NONE, None),
];

#[test]
fn components_of_offsets(rt: HostRuntime) {
    for (input, padding, sign_is_mandatory, expected) in &OFFSET_HOURS {
        assert!(rt; answers(offset_hour(input, *padding, *sign_is_mandatory), *expected));
    }
    for (input, padding, expected) in &OFFSET_MINUTES {
        let minute = parse_offset_minute(input, modifier::OffsetMinute { padding: *padding });
        assert!(rt; answers(minute, *expected));
        let second = parse_offset_second(input, modifier::OffsetSecond { padding: *padding });
        assert!(rt; answers(second, *expected));
    }
}

const FIRST: i128 = -377_705_116_800_000_000_000;

// Texts, whether a sign is mandatory, and the nanoseconds.
static SECONDS: [(&[u8], bool, Answer<i128>); 6] = [
    (b"-377705116800", true, Some((FIRST, b""))),
    (
        b"253402300799",
        false,
        Some((253_402_300_799_000_000_000, b"")),
    ),
    (b"000000000000001", false, Some((0, b"1"))),
    (b"+5", true, Some((5_000_000_000, b""))),
    (b"5", true, None),
    (b"-", false, None),
];

#[test]
fn components_of_timestamps_in_seconds(rt: HostRuntime) {
    for (input, sign_is_mandatory, expected) in &SECONDS {
        let modifiers = modifier::UnixTimestampSecond {
            sign_is_mandatory: *sign_is_mandatory,
        };
        assert!(rt; answers(parse_unix_timestamp_second(input, modifiers), *expected));
    }
}

static MILLISECONDS: [(&[u8], (i128, &[u8])); 3] = [
    (b"-377705116800000", (FIRST, b"")),
    (b"253402300799999", (253_402_300_799_999_000_000, b"")),
    (b"000000000000000001", (0, b"1")),
];

#[test]
fn components_of_timestamps_in_milliseconds(rt: HostRuntime) {
    for (input, expected) in &MILLISECONDS {
        let modifiers = modifier::UnixTimestampMillisecond {
            sign_is_mandatory: false,
        };
        assert!(rt;
            answers(
                parse_unix_timestamp_millisecond(input, modifiers),
                Some(*expected)
            )
        );
    }
}

static MICROSECONDS: [(&[u8], (i128, &[u8])); 3] = [
    (b"-377705116800000000", (FIRST, b"")),
    (b"253402300799999999", (253_402_300_799_999_999_000, b"")),
    (b"000000000000000000001", (0, b"1")),
];

#[test]
fn components_of_timestamps_in_microseconds(rt: HostRuntime) {
    for (input, expected) in &MICROSECONDS {
        let modifiers = modifier::UnixTimestampMicrosecond {
            sign_is_mandatory: false,
        };
        assert!(rt;
            answers(
                parse_unix_timestamp_microsecond(input, modifiers),
                Some(*expected)
            )
        );
    }
}

static NANOSECONDS: [(&[u8], (i128, &[u8])); 4] = [
    (b"-377705116800000000000", (FIRST, b"")),
    (b"253402300799999999999", (253_402_300_799_999_999_999, b"")),
    (b"253402300800000000000", (253_402_300_800_000_000_000, b"")),
    (b"000000000000000000000001", (0, b"1")),
];

#[test]
fn components_of_timestamps_in_nanoseconds(rt: HostRuntime) {
    for (input, expected) in &NANOSECONDS {
        let modifiers = modifier::UnixTimestampNanosecond {
            sign_is_mandatory: false,
        };
        assert!(rt;
            answers(
                parse_unix_timestamp_nanosecond(input, modifiers),
                Some(*expected)
            )
        );
    }
}

// Texts, whether they are case sensitive, and the month by its short name and by its long one.
static MONTH_NAMES: [(&[u8], bool, Answer<Month>, Answer<Month>); 10] = [
    (
        b"January",
        true,
        Some((Month::January, b"uary")),
        Some((Month::January, b"")),
    ),
    (
        b"December",
        true,
        Some((Month::December, b"ember")),
        Some((Month::December, b"")),
    ),
    (
        b"May-",
        true,
        Some((Month::May, b"-")),
        Some((Month::May, b"-")),
    ),
    (
        b"SEPTEMBER",
        false,
        Some((Month::September, b"TEMBER")),
        Some((Month::September, b"")),
    ),
    (
        b"Septembre",
        false,
        Some((Month::September, b"tembre")),
        None,
    ),
    (b"SEPTEMBER", true, None, None),
    (b"septeMBER", true, None, None),
    (b"Jan", false, Some((Month::January, b"")), None),
    (b"Ja", false, None, None),
    (b"jux", false, None, None),
];

// Texts, whether they are case sensitive, and the weekday by its short name and by its long one.
static WEEKDAY_NAMES: [(&[u8], bool, Answer<Weekday>, Answer<Weekday>); 5] = [
    (
        b"Monday",
        true,
        Some((Weekday::Monday, b"day")),
        Some((Weekday::Monday, b"")),
    ),
    (
        b"Sunday",
        true,
        Some((Weekday::Sunday, b"day")),
        Some((Weekday::Sunday, b"")),
    ),
    (
        b"wEDNESDAY",
        false,
        Some((Weekday::Wednesday, b"NESDAY")),
        Some((Weekday::Wednesday, b"")),
    ),
    (b"Thuday", true, Some((Weekday::Thursday, b"day")), None),
    (b"monday", true, None, None),
];

#[test]
fn components_of_names(rt: HostRuntime) {
    for (input, case_sensitive, short, long) in &MONTH_NAMES {
        let case_sensitive = *case_sensitive;
        let month = parse_month_short(input, modifier::MonthShort { case_sensitive });
        assert!(rt; answers(month, *short));
        let month = parse_month_long(input, modifier::MonthLong { case_sensitive });
        assert!(rt; answers(month, *long));
    }
    for (input, case_sensitive, short, long) in &WEEKDAY_NAMES {
        let case_sensitive = *case_sensitive;
        let weekday = parse_weekday_short(input, modifier::WeekdayShort { case_sensitive });
        assert!(rt; answers(weekday, *short));
        let weekday = parse_weekday_long(input, modifier::WeekdayLong { case_sensitive });
        assert!(rt; answers(weekday, *long));
    }
}

// Texts, whether the letters are upper case, whether they are case sensitive, and the half of the day.
static PERIODS: [(&[u8], bool, bool, Answer<Period>); 10] = [
    (b"AM", true, true, Some((Period::Am, b""))),
    (b"PMx", true, true, Some((Period::Pm, b"x"))),
    (b"am", true, true, None),
    (b"am", false, true, Some((Period::Am, b""))),
    (b"pm", false, true, Some((Period::Pm, b""))),
    (b"AM", false, true, None),
    (b"aM", true, false, Some((Period::Am, b""))),
    (b"Pm", false, false, Some((Period::Pm, b""))),
    (b"p", false, false, None),
    (b"xm", false, false, None),
];

// Texts, whether the numbers start at 1, and the day of a week that starts on Sunday and of one that starts on Monday.
static WEEKDAY_NUMBERS: [(&[u8], bool, Answer<Weekday>, Answer<Weekday>); 8] = [
    (
        b"0",
        false,
        Some((Weekday::Sunday, b"")),
        Some((Weekday::Monday, b"")),
    ),
    (
        b"6",
        false,
        Some((Weekday::Saturday, b"")),
        Some((Weekday::Sunday, b"")),
    ),
    (b"7", false, None, None),
    (
        b"1",
        true,
        Some((Weekday::Sunday, b"")),
        Some((Weekday::Monday, b"")),
    ),
    (
        b"7",
        true,
        Some((Weekday::Saturday, b"")),
        Some((Weekday::Sunday, b"")),
    ),
    (b"0", true, None, None),
    (b"8", true, None, None),
    (b"/", false, None, None),
];

#[test]
fn components_of_letters(rt: HostRuntime) {
    for (input, is_uppercase, case_sensitive, expected) in &PERIODS {
        let period = parse_period(
            input,
            modifier::Period {
                is_uppercase: *is_uppercase,
                case_sensitive: *case_sensitive,
            },
        );
        assert!(rt; answers(period, *expected));
    }
    for (input, one_indexed, sunday, monday) in &WEEKDAY_NUMBERS {
        let one_indexed = *one_indexed;
        let day = parse_weekday_sunday(input, modifier::WeekdaySunday { one_indexed });
        assert!(rt; answers(day, *sunday));
        let day = parse_weekday_monday(input, modifier::WeekdayMonday { one_indexed });
        assert!(rt; answers(day, *monday));
    }
}

static SUBSECONDS: [(&[u8], SubsecondDigits, Answer<u32>); 16] = [
    (b"9x", SubsecondDigits::One, Some((900_000_000, b"x"))),
    (b"12", SubsecondDigits::Two, Some((120_000_000, b""))),
    (b"123", SubsecondDigits::Three, Some((123_000_000, b""))),
    (b"1234", SubsecondDigits::Four, Some((123_400_000, b""))),
    (b"12345", SubsecondDigits::Five, Some((123_450_000, b""))),
    (b"123456", SubsecondDigits::Six, Some((123_456_000, b""))),
    (b"1234567", SubsecondDigits::Seven, Some((123_456_700, b""))),
    (
        b"12345678",
        SubsecondDigits::Eight,
        Some((123_456_780, b"")),
    ),
    (
        b"999999999",
        SubsecondDigits::Nine,
        Some((999_999_999, b"")),
    ),
    (b"0000000001", SubsecondDigits::Nine, Some((0, b"1"))),
    (b"/23456789", SubsecondDigits::Nine, None),
    (b"12", SubsecondDigits::Three, None),
    (b"5x", SubsecondDigits::OneOrMore, Some((500_000_000, b"x"))),
    (
        b"1234567899",
        SubsecondDigits::OneOrMore,
        Some((123_456_789, b"")),
    ),
    (
        &[b'1'; 33],
        SubsecondDigits::OneOrMore,
        Some((111_111_111, b"1")),
    ),
    (b"x", SubsecondDigits::OneOrMore, None),
];

#[test]
fn components_of_subseconds(rt: HostRuntime) {
    for (input, digits, expected) in &SUBSECONDS {
        let subsecond = parse_subsecond(input, modifier::Subsecond { digits: *digits });
        assert!(rt; answers(subsecond, *expected));
    }
}

// Texts, how many bytes are skipped, and the rest.
static SKIPPED: [(&[u8], u16, Answer<()>); 4] = [
    (b"ab", 1, Some(((), b"b"))),
    (b"ab", 2, Some(((), b""))),
    (b"ab", 3, None),
    (b"\xc3\xa9", 1, Some(((), b"\xa9"))),
];

#[test]
fn components_of_bytes(rt: HostRuntime) {
    for (input, count, expected) in &SKIPPED {
        let count = NonZero::<u16>::new(*count).expect(&rt, "a count");
        assert!(rt; answers(parse_ignore(input, modifier::Ignore { count }), *expected));
    }
}

static ENDS: [(&[u8], TrailingInput, Answer<()>); 4] = [
    (b"", TrailingInput::Prohibit, Some(((), b""))),
    (b"x", TrailingInput::Prohibit, None),
    (b"x", TrailingInput::Discard, Some(((), b""))),
    (b"", TrailingInput::Discard, Some(((), b""))),
];

#[test]
fn components_of_ends(rt: HostRuntime) {
    for (input, trailing_input, expected) in &ENDS {
        let end = modifier::End {
            trailing_input: *trailing_input,
        };
        assert!(rt; answers(parse_end(input, end), *expected));
    }
}
