//! Texts of moments by RFC 3339, RFC 2822 and ISO 8601, and parses of these texts.
use self::Format::{BasicIso8601, Iso8601, Rfc2822, Rfc3339};
use crate::formats::{Numbers, moment};
use time_formatting::FractionDigits::{Auto, Exactly};
use time_formatting::{
    FractionDigits, Text, Unwritable, text_2822, text_3339, text_8601, text_8601_basic,
};
use time_values::error::ComponentRange;
use time_values::{Month, OffsetDateTime};

// 1985-04-12T23:20:50.52Z, an example of RFC 3339, section 5.8.
const IN_1985: Numbers = (
    (1985, Month::April, 12),
    (23, 20, 50, 520_000_000),
    (0, 0, 0),
);

// 1996-12-19T16:39:57-08:00, an example of RFC 3339, section 5.8.
const IN_1996: Numbers = ((1996, Month::December, 19), (16, 39, 57, 0), (-8, 0, 0));

// 1937-01-01T12:00:27.87+00:20, an example of RFC 3339, section 5.8.
const IN_1937: Numbers = (
    (1937, Month::January, 1),
    (12, 0, 27, 870_000_000),
    (0, 20, 0),
);

// The first moment that has a date.
const FIRST: Numbers = ((-999_999, Month::January, 1), (0, 0, 0, 0), (0, 0, 0));

// Whether the result is that text. An error is `false`.
fn is_written(written: Result<Text, Unwritable>, text: &str) -> bool {
    match written {
        Ok(written) => written.as_bytes() == text.as_bytes(),
        Err(_) => false,
    }
}

// A format to write; for RFC 3339, with the digits of a fraction.
#[derive(Clone, Copy)]
enum Format {
    Rfc3339(FractionDigits),
    Rfc2822,
    Iso8601,
    BasicIso8601,
}

// The text of the moment by the format, or why it has none.
fn write(value: OffsetDateTime, format: Format) -> Result<Text, Unwritable> {
    match format {
        Rfc3339(digits) => text_3339(value, digits),
        Rfc2822 => text_2822(value),
        Iso8601 => text_8601(value),
        BasicIso8601 => text_8601_basic(value),
    }
}

// The moment 2021-01-02T03:04:05Z with that nanosecond.
macro_rules! in_2021 {
    ($nanosecond:literal) => {
        ((2021, Month::January, 2), (3, 4, 5, $nanosecond), (0, 0, 0))
    };
}

// A moment, a format, and the text. The texts of RFC 3339 are those of its section 5.8 and some with other digits of a
// fraction. The mail dates are those of RFC 2822, appendix A, where the second one's day has a single digit.
static TEXTS: [(Numbers, Format, &str); 18] = [
    (IN_1985, Rfc3339(Auto), "1985-04-12T23:20:50.52Z"),
    (IN_1996, Rfc3339(Auto), "1996-12-19T16:39:57-08:00"),
    (IN_1937, Rfc3339(Auto), "1937-01-01T12:00:27.87+00:20"),
    (
        in_2021!(123_456_789),
        Rfc3339(Exactly(0)),
        "2021-01-02T03:04:05Z",
    ),
    (
        in_2021!(123_456_789),
        Rfc3339(Exactly(3)),
        "2021-01-02T03:04:05.123Z",
    ),
    (
        in_2021!(123_456_789),
        Rfc3339(Exactly(9)),
        "2021-01-02T03:04:05.123456789Z",
    ),
    (
        in_2021!(123_456_789),
        Rfc3339(Exactly(200)),
        "2021-01-02T03:04:05.123456789Z",
    ),
    (in_2021!(0), Rfc3339(Auto), "2021-01-02T03:04:05Z"),
    (
        in_2021!(100_000_000),
        Rfc3339(Auto),
        "2021-01-02T03:04:05.1Z",
    ),
    (
        in_2021!(123_000_000),
        Rfc3339(Auto),
        "2021-01-02T03:04:05.123Z",
    ),
    (in_2021!(1000), Rfc3339(Auto), "2021-01-02T03:04:05.000001Z"),
    (in_2021!(1), Rfc3339(Auto), "2021-01-02T03:04:05.000000001Z"),
    (
        ((1997, Month::November, 21), (9, 55, 6, 0), (-6, 0, 0)),
        Rfc2822,
        "Fri, 21 Nov 1997 09:55:06 -0600",
    ),
    (
        ((2003, Month::July, 1), (10, 52, 37, 5), (2, 0, 0)),
        Rfc2822,
        "Tue, 01 Jul 2003 10:52:37 +0200",
    ),
    (
        ((1969, Month::February, 13), (23, 32, 54, 0), (-3, -30, 0)),
        Rfc2822,
        "Thu, 13 Feb 1969 23:32:54 -0330",
    ),
    (IN_1985, Iso8601, "1985-04-12T23:20:50.520000000Z"),
    (IN_1985, BasicIso8601, "19850412T232050Z"),
    (IN_1996, BasicIso8601, "19961219T163957-0800"),
];

// Whether the format writes the moment of the numbers as that text. It is an error if a number is out of its range.
fn is_text(numbers: Numbers, format: Format, text: &str) -> Result<bool, ComponentRange> {
    Ok(is_written(write(moment(numbers)?, format), text))
}

#[test]
fn texts(rt: HostRuntime) {
    for (numbers, format, text) in &TEXTS {
        assert!(rt; is_text(*numbers, *format, text) == Ok(true), "{text}");
    }
}

// The year is out of the range of the format.
const YEAR: Option<Unwritable> = Some(Unwritable::Year);

// The hours of the offset are out of the range of the format.
const HOUR: Option<Unwritable> = Some(Unwritable::OffsetHour);

// The seconds of the offset aren't 0.
const SECOND: Option<Unwritable> = Some(Unwritable::OffsetSecond);

// Why a moment can't be written in RFC 3339, in RFC 2822, in ISO 8601, and in its basic form.
type Reasons = (
    Option<Unwritable>,
    Option<Unwritable>,
    Option<Unwritable>,
    Option<Unwritable>,
);

// A moment, and why it can't be written; `None` in a format that writes it.
static REASONS: [(Numbers, Reasons); 5] = [
    (
        ((10_000, Month::May, 1), (0, 0, 0, 0), (0, 0, 0)),
        (YEAR, YEAR, YEAR, YEAR),
    ),
    (FIRST, (YEAR, YEAR, YEAR, YEAR)),
    (
        ((1899, Month::May, 1), (0, 0, 0, 0), (0, 0, 0)),
        (None, YEAR, None, None),
    ),
    (
        ((2021, Month::May, 1), (0, 0, 0, 0), (24, 0, 0)),
        (HOUR, None, HOUR, HOUR),
    ),
    (
        ((2021, Month::May, 1), (0, 0, 0, 0), (1, 0, 1)),
        (SECOND, SECOND, SECOND, SECOND),
    ),
];

// Why the moment of the numbers can't be written. It is an error if a number is out of its range.
fn reasons(numbers: Numbers) -> Result<Reasons, ComponentRange> {
    let value = moment(numbers)?;
    Ok((
        text_3339(value, Auto).err(),
        text_2822(value).err(),
        text_8601(value).err(),
        text_8601_basic(value).err(),
    ))
}

#[test]
fn moments_without_a_text(rt: HostRuntime) {
    for (numbers, expected) in &REASONS {
        assert!(rt; reasons(*numbers) == Ok(*expected));
    }
}

// Texts of moments that are parsed again.
mod read_back {
    use super::is_written;
    use crate::formats::{Numbers, moment};
    use time_formatting::{FractionDigits, Text, Unwritable, text_2822, text_3339, text_8601};
    use time_parsing::{Iso8601, Parsable, Rfc2822, Rfc3339};
    use time_record::Parsed;
    use time_values::error::ComponentRange;
    use time_values::{Month, OffsetDateTime};

    // Whether that text is written, and parsed as that moment by the format, without defaults and over an empty
    // record.
    fn reads<F: Parsable>(
        written: Result<Text, Unwritable>,
        text: &str,
        format: &F,
        value: OffsetDateTime,
    ) -> bool {
        let bytes = text.as_bytes();
        is_written(written, text)
            && format.parse_offset_date_time(bytes, None) == Ok(value)
            && format.parse_offset_date_time(bytes, Some(Parsed::new())) == Ok(value)
    }

    // A moment, and its text with nine digits of a fraction: the first and the last year, an offset of minutes alone,
    // and UTC.
    static ALL_DIGITS: [(Numbers, &str); 4] = [
        (
            ((0, Month::January, 1), (0, 0, 0, 0), (-23, -59, 0)),
            "0000-01-01T00:00:00.000000000-23:59",
        ),
        (
            (
                (9999, Month::December, 31),
                (23, 59, 59, 999_999_999),
                (23, 59, 0),
            ),
            "9999-12-31T23:59:59.999999999+23:59",
        ),
        (
            (
                (2021, Month::January, 2),
                (3, 4, 5, 500_000_000),
                (0, -30, 0),
            ),
            "2021-01-02T03:04:05.500000000-00:30",
        ),
        (
            ((2020, Month::February, 29), (3, 4, 5, 6), (0, 0, 0)),
            "2020-02-29T03:04:05.000000006Z",
        ),
    ];

    // Whether RFC 3339 and ISO 8601 write the moment as the text, with nine digits, and both parse it as the moment.
    fn keeps_all_digits(numbers: Numbers, text: &str) -> Result<bool, ComponentRange> {
        let value = moment(numbers)?;
        let nine = text_3339(value, FractionDigits::Exactly(9));
        Ok(reads(nine, text, &Rfc3339, value) && reads(text_8601(value), text, &Iso8601, value))
    }

    #[test]
    fn all_digits(rt: HostRuntime) {
        for (numbers, text) in &ALL_DIGITS {
            assert!(rt; keeps_all_digits(*numbers, text) == Ok(true));
        }
    }

    // How many digits of 120456789 nanoseconds are written, the text, and the nanoseconds that it parses as.
    static FEWER_DIGITS: [(FractionDigits, &str, u32); 4] = [
        (
            FractionDigits::Auto,
            "2021-01-02T03:04:05.120456789+05:30",
            120_456_789,
        ),
        (FractionDigits::Exactly(0), "2021-01-02T03:04:05+05:30", 0),
        (
            FractionDigits::Exactly(3),
            "2021-01-02T03:04:05.120+05:30",
            120_000_000,
        ),
        (
            FractionDigits::Exactly(8),
            "2021-01-02T03:04:05.12045678+05:30",
            120_456_780,
        ),
    ];

    // Whether 2021-01-02T03:04:05.120456789+05:30, written with those digits, is that text, and is parsed as the moment
    // with that nanosecond.
    fn keeps_digits(
        digits: FractionDigits,
        text: &str,
        nanosecond: u32,
    ) -> Result<bool, ComponentRange> {
        let value = moment((
            (2021, Month::January, 2),
            (3, 4, 5, 120_456_789),
            (5, 30, 0),
        ))?;
        let read = value.replace_nanosecond(nanosecond)?;
        Ok(reads(text_3339(value, digits), text, &Rfc3339, read))
    }

    #[test]
    fn fewer_digits(rt: HostRuntime) {
        for (digits, text, nanosecond) in &FEWER_DIGITS {
            assert!(rt; keeps_digits(*digits, text, *nanosecond) == Ok(true));
        }
    }

    // A moment, and its mail date.
    static MAIL_DATES: [(Numbers, &str); 3] = [
        (
            ((1900, Month::January, 1), (0, 0, 0, 7), (-25, -59, 0)),
            "Mon, 01 Jan 1900 00:00:00 -2559",
        ),
        (
            (
                (2021, Month::January, 2),
                (3, 4, 5, 500_000_000),
                (0, -30, 0),
            ),
            "Sat, 02 Jan 2021 03:04:05 -0030",
        ),
        (
            ((2000, Month::February, 29), (23, 59, 59, 0), (0, 0, 0)),
            "Tue, 29 Feb 2000 23:59:59 +0000",
        ),
    ];

    // Whether the moment is written as that mail date, and parsed without its nanosecond, since a mail date has no
    // fraction.
    fn keeps_seconds(numbers: Numbers, text: &str) -> Result<bool, ComponentRange> {
        let value = moment(numbers)?;
        let read = value.replace_nanosecond(0)?;
        Ok(reads(text_2822(value), text, &Rfc2822, read))
    }

    #[test]
    fn mail_dates(rt: HostRuntime) {
        for (numbers, text) in &MAIL_DATES {
            assert!(rt; keeps_seconds(*numbers, text) == Ok(true));
        }
    }
}

// The law of reading back: the canonical text of a moment by RFC 3339 is parsed as that moment.
mod counted_and_laws {
    use std::test::Fail;
    use time_parsing::laws::text_3339;
    use time_parsing::{Parsable, Rfc3339};
    use time_readers::direct;
    use time_record::Parsed;
    use time_values::{Date, Month, OffsetDateTime, Time, UtcOffset};

    // Whether this is the moment's text, and is parsed as it on the direct path and over an empty record.
    fn is_canonical(value: OffsetDateTime, written: [u8; 35], text: &[u8; 35]) -> bool {
        written == *text
            && Rfc3339.parse_offset_date_time(text, None) == Ok(value)
            && Rfc3339.parse_offset_date_time(text, Some(Parsed::new())) == Ok(value)
            && direct::rfc3339(text) == Ok(value)
    }

    #[test]
    fn canonical_texts(rt: HostRuntime) -> Result<(), Fail> {
        let date = Date::from_calendar_date(2021, Month::January, 2)?;
        let time = Time::from_hms_nano(3, 4, 5, 500_000_000)?;
        let behind = OffsetDateTime::new_in_offset(date, time, UtcOffset::from_hms(0, -30, 0)?);
        let text = b"2021-01-02T03:04:05.500000000-00:30";
        assert!(rt; is_canonical(behind, text_3339(behind), text));
        let utc = OffsetDateTime::new_in_offset(date, time, UtcOffset::UTC);
        let text = b"2021-01-02T03:04:05.500000000+00:00";
        assert!(rt; is_canonical(utc, text_3339(utc), text));
        Ok(())
    }

    // The first and the last moment that have a canonical text.
    #[test]
    fn canonical_ends(rt: HostRuntime) -> Result<(), Fail> {
        let date = Date::from_calendar_date(0, Month::January, 1)?;
        let time = Time::from_hms_nano(0, 0, 0, 0)?;
        let first = OffsetDateTime::new_in_offset(date, time, UtcOffset::from_hms(-23, -59, 0)?);
        let text = b"0000-01-01T00:00:00.000000000-23:59";
        assert!(rt; is_canonical(first, text_3339(first), text));
        let date = Date::from_calendar_date(9999, Month::December, 31)?;
        let time = Time::from_hms_nano(23, 59, 59, 999_999_999)?;
        let last = OffsetDateTime::new_in_offset(date, time, UtcOffset::from_hms(23, 59, 0)?);
        let text = b"9999-12-31T23:59:59.999999999+23:59";
        assert!(rt; is_canonical(last, text_3339(last), text));
        Ok(())
    }
}
