//! Texts of ISO 8601, whole, in part and in records.
mod parts;

use crate::errors::{
    DAY, LITERAL, MISSING, MONTH, NO_DAY, NO_LEAP_SECOND, NO_ORDINAL, NO_SECOND, NO_WEEK,
    NO_WEEKDAY, ORDINAL, TRAILING, WEEK, WEEKDAY, YEAR,
};
use crate::formats::Part::{Date, Offset, Plain, Time, Utc};
use crate::formats::{Format, NO_DATE, NO_OFFSET, NO_TIME, Numbers, Part, parse_part};
use time_values::Month::{December, January, March};
use time_values::error::Parse;

// The result of a date alone.
macro_rules! date {
    ($year:expr, $month:expr, $day:expr) => {
        Ok((($year, $month, $day), NO_TIME, NO_OFFSET))
    };
}

// The result of a time alone.
macro_rules! time {
    ($hour:expr, $minute:expr, $second:expr, $nanosecond:expr) => {
        Ok((NO_DATE, ($hour, $minute, $second, $nanosecond), NO_OFFSET))
    };
}

// The result of an offset alone, without a second.
macro_rules! offset {
    ($hours:expr, $minutes:expr) => {
        Ok((NO_DATE, NO_TIME, ($hours, $minutes, 0)))
    };
}

// A part, a text, and the result for the part.
type Row = (Part, &'static [u8], Result<Numbers, Parse>);

// The first text whose result differs from that of its row, if there is one.
fn first_difference(rows: &[Row]) -> Option<&'static [u8]> {
    for (part, text, expected) in rows {
        if parse_part(Format::Iso, *part, text, None) != *expected {
            return Some(*text);
        }
    }
    None
}

// The error of a text from which nothing is parsed is that of its date.
static TIMES: [Row; 17] = [
    (Time, b"03,5", time!(3, 30, 0, 0)),
    (Time, b"03:04.5", time!(3, 4, 30, 0)),
    (Time, b"0304.25", time!(3, 4, 15, 0)),
    (Time, b"2021-01", time!(20, 21, 0, 0)),
    (Time, b"12:34:56.9999999994", time!(12, 34, 56, 999_999_999)),
    (Time, b"03.0001", time!(3, 0, 0, 360_000_000)),
    (Time, b"T030405,5", time!(3, 4, 5, 500_000_000)),
    (Time, b"0360", Err(MONTH)),
    (Time, b"030461", Err(MONTH)),
    (Time, b"12:34:56.9999999995", Err(YEAR)),
    (Time, b"03.", Err(YEAR)),
    (Time, b"03:04:", Err(YEAR)),
    (Time, b"24", Err(YEAR)),
    (Time, b"1234-05:30", Err(TRAILING)),
    (Time, b"03:0405", Err(TRAILING)),
    (Time, b"12:34:60", Err(NO_SECOND)),
    (Time, b"2021-01-02", Err(MISSING)),
];

#[test]
fn iso_times(rt: HostRuntime) {
    let text = first_difference(&TIMES);
    assert!(rt; text == None, "{text:?}");
}

static DATES: [Row; 15] = [
    (Date, b"+002021-01-02", date!(2021, January, 2)),
    (Date, b"+012345-01-02", date!(12345, January, 2)),
    (Date, b"2020-W53-6", date!(2021, January, 2)),
    (Date, b"9999-W52-6", date!(10000, January, 1)),
    (Date, b"2020W536", date!(2021, January, 2)),
    (Date, b"2021-002", date!(2021, January, 2)),
    (Date, b"2020366", date!(2020, December, 31)),
    (Date, b"-000044-03-15", date!(-44, March, 15)),
    (Date, b"20210102T0304Z", date!(2021, January, 2)),
    (Date, b"20211234", Err(TRAILING)),
    (Date, b"202101", Err(MISSING)),
    (Date, b"+999999-W52-6", Err(NO_WEEKDAY)),
    (Date, b"2021-366", Err(NO_ORDINAL)),
    (Date, b"2021-02-29", Err(NO_DAY)),
    (Date, b"2021-W53-1", Err(NO_WEEK)),
];

#[test]
fn iso_dates(rt: HostRuntime) {
    let text = first_difference(&DATES);
    assert!(rt; text == None, "{text:?}");
}

static DATES_REFUSED: [Row; 29] = [
    // Neither a date nor a time nor an offset parses. The error is that of the date's component, or of its hyphen.
    (Date, b"", Err(YEAR)),
    (Date, b"x", Err(YEAR)),
    (Date, b"999", Err(YEAR)),
    (Date, b"+99999-01-01", Err(YEAR)),
    (Date, b"9999x", Err(MONTH)),
    (Date, b"999900", Err(MONTH)),
    (Date, b"9999-13-01", Err(MONTH)),
    (Date, b"9999000", Err(MONTH)),
    (Date, b"999912", Err(DAY)),
    (Date, b"9999-12-00", Err(DAY)),
    (Date, b"9999-12-3", Err(DAY)),
    (Date, b"9999-W00-1", Err(WEEK)),
    (Date, b"9999W5", Err(WEEK)),
    (Date, b"9999-W50-0", Err(WEEKDAY)),
    (Date, b"9999-W50-8", Err(WEEKDAY)),
    (Date, b"9999W50", Err(WEEKDAY)),
    (Date, b"9999-12", Err(LITERAL)),
    (Date, b"9999-12x", Err(LITERAL)),
    (Date, b"9999-W50", Err(LITERAL)),
    (Date, b"9999-W501", Err(LITERAL)),
    // The form matches, and its value is out of range. The date is rejected, though a later form also matches after the
    // year.
    (Date, b"9999-12-32", Err(DAY)),
    (Date, b"99991232", Err(DAY)),
    (Date, b"9999-367", Err(ORDINAL)),
    (Date, b"9999400", Err(ORDINAL)),
    (Date, b"9999-W54-1", Err(WEEK)),
    (Date, b"9999W991", Err(WEEK)),
    (Date, b"+999999-12-32", Err(DAY)),
    (Date, b"+999999-367", Err(ORDINAL)),
    (Date, b"-999999-W54-1", Err(WEEK)),
];

#[test]
fn iso_dates_refused(rt: HostRuntime) {
    let text = first_difference(&DATES_REFUSED);
    assert!(rt; text == None, "{text:?}");
}

static OFFSETS: [Row; 14] = [
    (Offset, b"2021-01", offset!(-1, 0)),
    (Offset, b"-05", offset!(-5, 0)),
    (Offset, b"05:30Z", offset!(0, 0)),
    (Offset, b"-0030", offset!(0, -30)),
    (Offset, b"+25:59", offset!(25, 59)),
    (Offset, b"T03+0405", offset!(4, 5)),
    (Offset, b"+0160", Err(YEAR)),
    (Offset, b"+26", Err(YEAR)),
    (Offset, b"+05:", Err(YEAR)),
    (Offset, b"+05:3", Err(YEAR)),
    (Offset, b"+053", Err(TRAILING)),
    // No offset is parsed after a date alone.
    (Offset, b"2021-01-02+05", Err(TRAILING)),
    (Offset, b"2021-01-02Z", Err(TRAILING)),
    (Offset, b"2021-01-02T+05", Err(TRAILING)),
];

#[test]
fn iso_offsets(rt: HostRuntime) {
    let text = first_difference(&OFFSETS);
    assert!(rt; text == None, "{text:?}");
}

static DATES_WITH_TIMES: [Row; 12] = [
    (
        Plain,
        b"2021-01-02T03",
        Ok(((2021, January, 2), (3, 0, 0, 0), NO_OFFSET)),
    ),
    (
        Plain,
        b"2021-01-02T0304",
        Ok(((2021, January, 2), (3, 4, 0, 0), NO_OFFSET)),
    ),
    (
        Plain,
        b"2021-01-02T03:04+05:06",
        Ok(((2021, January, 2), (3, 4, 0, 0), NO_OFFSET)),
    ),
    (
        Plain,
        b"20210102T0304+0506",
        Ok(((2021, January, 2), (3, 4, 0, 0), NO_OFFSET)),
    ),
    (Plain, b"2021-01-02T030405", Err(TRAILING)),
    (Plain, b"2021-01-02T03:04+05:", Err(TRAILING)),
    (Plain, b"2021-W01-1T24", Err(TRAILING)),
    (Plain, b"2021-01-0203:04", Err(TRAILING)),
    (Plain, b"2021-01-02+05", Err(TRAILING)),
    (Plain, b"20210102T03:04", Err(TRAILING)),
    // A second of 60 is parsed as the end of a month.
    (
        Utc,
        b"2016-12-31T23:59:60Z",
        Ok(((2016, December, 31), (23, 59, 59, 999_999_999), NO_OFFSET)),
    ),
    (Utc, b"2016-12-30T23:59:60Z", Err(NO_LEAP_SECOND)),
];

#[test]
fn iso_dates_with_times(rt: HostRuntime) {
    let text = first_difference(&DATES_WITH_TIMES);
    assert!(rt; text == None, "{text:?}");
}

// Fractions of a unit.
mod fractions {
    use self::Rounding::{Floor, HalfUp};
    use time_readers::combinator::leading_digits;
    use time_readers::iso8601::{floor_fraction, round_fraction};

    // How a fraction is rounded to a whole number.
    #[derive(Clone, Copy)]
    enum Rounding {
        Floor,
        HalfUp,
    }

    // How many whole parts the fraction with these digits has, of a unit of `unit` parts, by that rounding. `None` if a
    // byte isn't a digit, or if `unit` is 0 or more than the nanoseconds of an hour.
    fn whole(rounding: Rounding, digits: &[u8], unit: u64) -> Option<u64> {
        let count = leading_digits(digits, digits.len());
        if count < digits.len() || unit < 1 || 3_600_000_000_000 < unit {
            return None;
        }
        let digits = &digits[..count];
        Some(match rounding {
            Floor => floor_fraction(digits, unit),
            HalfUp => round_fraction(digits, unit),
        })
    }

    // A rounding, digits, how many parts a unit has, and how many of them the fraction makes.
    static FRACTIONS: [(Rounding, &[u8], u64, u64); 23] = [
        (Floor, b"0001", 3_600_000_000_000, 360_000_000),
        (
            Floor,
            b"99999999999999999999",
            60_000_000_000,
            59_999_999_999,
        ),
        (Floor, b"", 3_600_000_000_000, 0),
        (Floor, b"5", 1, 0),
        (Floor, &[b'9'; 1000], 3_600_000_000_000, 3_599_999_999_999),
        (HalfUp, b"9999999994", 1_000_000_000, 999_999_999),
        (HalfUp, b"9999999995", 1_000_000_000, 1_000_000_000),
        (HalfUp, b"49999999999999999999999999999999999999999", 1, 0),
        (HalfUp, b"5", 1, 1),
        (HalfUp, b"", 1, 0),
        (HalfUp, b"", 3_600_000_000_000, 0),
        // In each pair of forty digits the last digit decides on which side of the next whole number the fraction is: a
        // third of a unit of 3 parts is 1, and so is 1 of the 3600000000000 parts of an hour.
        (Floor, b"3333333333333333333333333333333333333333", 3, 0),
        (Floor, b"3333333333333333333333333333333333333334", 3, 1),
        (
            Floor,
            b"0000000000002777777777777777777777777777",
            3_600_000_000_000,
            0,
        ),
        (
            Floor,
            b"0000000000002777777777777777777777777778",
            3_600_000_000_000,
            1,
        ),
        (
            Floor,
            b"4999999999999999999999999999999999999999",
            60_000_000_000,
            29_999_999_999,
        ),
        (
            Floor,
            b"5000000000000000000000000000000000000000",
            60_000_000_000,
            30_000_000_000,
        ),
        // Pairs for half of a whole number.
        (HalfUp, b"1666666666666666666666666666666666666666", 3, 0),
        (HalfUp, b"1666666666666666666666666666666666666667", 3, 1),
        (
            HalfUp,
            b"0000000000001388888888888888888888888888",
            3_600_000_000_000,
            0,
        ),
        (
            HalfUp,
            b"0000000000001388888888888888888888888889",
            3_600_000_000_000,
            1,
        ),
        (
            HalfUp,
            b"0000000004999999999999999999999999999999",
            1_000_000_000,
            0,
        ),
        (
            HalfUp,
            b"0000000005000000000000000000000000000000",
            1_000_000_000,
            1,
        ),
    ];

    #[test]
    fn iso_fractions(rt: HostRuntime) {
        for (rounding, digits, unit, expected) in &FRACTIONS {
            assert!(rt;
                whole(*rounding, digits, *unit) == Some(*expected),
                "{digits:?}"
            );
        }
    }
}

// The reader of the offsets of ISO 8601, under each kind before them.
mod offsets {
    use time_readers::iso8601::{ExtendedKind, OffsetNumbers, offset};

    // The hours and minutes of an offset, if it isn't `Z`, and the unread rest.
    type Found = (Option<(i8, i8)>, &'static [u8]);

    // The offset at the start of the text, after a text of that kind; `None` without one.
    fn found(text: &'static [u8], kind: ExtendedKind) -> Option<Found> {
        let found = offset(text, kind)?;
        match found.value {
            OffsetNumbers::Numeric(hours, minutes) => Some((Some((hours, minutes)), found.rest)),
            OffsetNumbers::Zulu => Some((None, found.rest)),
        }
    }

    // The kind after the offset at the start of the text, after a text of that kind; `None` without an offset.
    fn kind_after(text: &[u8], kind: ExtendedKind) -> Option<ExtendedKind> {
        Some(offset(text, kind)?.kind)
    }

    // A text, the result after a basic form, which allows no colon, and the result after an extended or unknown one.
    static TEXTS: [(&[u8], Option<Found>, Option<Found>); 13] = [
        (
            b"-05",
            Some((Some((-5, 0)), b"")),
            Some((Some((-5, 0)), b"")),
        ),
        (
            b"-0030x",
            Some((Some((0, -30)), b"x")),
            Some((Some((0, -30)), b"x")),
        ),
        (
            b"+251",
            Some((Some((25, 0)), b"1")),
            Some((Some((25, 0)), b"1")),
        ),
        (b"", None, None),
        (b"z", None, None),
        (b"05", None, None),
        (b"+5", None, None),
        (b"+26", None, None),
        (b"+0560", None, None),
        (
            b"-05:30",
            Some((Some((-5, 0)), b":30")),
            Some((Some((-5, -30)), b"")),
        ),
        (b"-05:", Some((Some((-5, 0)), b":")), None),
        (b"-05:3", Some((Some((-5, 0)), b":3")), None),
        (b"-05:60", Some((Some((-5, 0)), b":60")), None),
    ];

    #[test]
    fn iso_offsets_of_each_kind(rt: HostRuntime) {
        for (text, basic, extended) in &TEXTS {
            assert!(rt;
                found(text, ExtendedKind::Basic) == *basic
                    && found(text, ExtendedKind::Extended) == *extended
                    && found(text, ExtendedKind::Unknown) == *extended,
                "{text:?}"
            );
        }
    }

    // An offset, and the kind that it turns an unknown kind into.
    static UNKNOWN: [(&[u8], ExtendedKind); 6] = [
        (b"Z", ExtendedKind::Unknown),
        (b"-05", ExtendedKind::Unknown),
        (b"-0530", ExtendedKind::Unknown),
        (b"-05:30", ExtendedKind::Extended),
        (b"-05x", ExtendedKind::Unknown),
        (b"+00:00:", ExtendedKind::Extended),
    ];

    #[test]
    fn a_colon_makes_an_offset_extended(rt: HostRuntime) {
        for (text, unknown) in &UNKNOWN {
            assert!(rt;
                kind_after(text, ExtendedKind::Unknown) == Some(*unknown),
                "{text:?}"
            );
            for kind in [ExtendedKind::Basic, ExtendedKind::Extended] {
                assert!(rt; kind_after(text, kind) == Some(kind), "{text:?}");
            }
        }
        assert!(rt; kind_after(b"-05:", ExtendedKind::Unknown) == None);
    }
}

// Each row of the table of times under each kind before it, parsed into a record after a date of that kind, and offsets
// after times.
mod time_records {
    use crate::records::{NO_OFFSET, NO_TIME, OffsetCells, TimeCells, parse_cells_by};
    use time_parsing::Iso8601;
    use time_record::Parsed;

    // A text, its rest, and the cells of the time and of the offset. If no time is parsed after a date, the rest starts
    // at the `T`.
    static TIMES: [(&[u8], &[u8], TimeCells, OffsetCells); 35] = [
        // After basic dates.
        (
            b"20210102T03,5x",
            b"x",
            (Some(3), Some(30), Some(0), Some(0)),
            NO_OFFSET,
        ),
        (
            b"20210102T03",
            b"",
            (Some(3), Some(0), Some(0), Some(0)),
            NO_OFFSET,
        ),
        (
            b"20210102T0304.5",
            b"",
            (Some(3), Some(4), Some(30), Some(0)),
            NO_OFFSET,
        ),
        (b"20210102T03:04.5", b"T03:04.5", NO_TIME, NO_OFFSET),
        (
            b"20210102T0304",
            b"",
            (Some(3), Some(4), Some(0), Some(0)),
            NO_OFFSET,
        ),
        (b"20210102T03:04", b"T03:04", NO_TIME, NO_OFFSET),
        (
            b"20210102T030405.25",
            b"",
            (Some(3), Some(4), Some(5), Some(250_000_000)),
            NO_OFFSET,
        ),
        (
            b"20210102T0304:05",
            b":05",
            (Some(3), Some(4), Some(0), Some(0)),
            NO_OFFSET,
        ),
        (b"20210102T03:04:05", b"T03:04:05", NO_TIME, NO_OFFSET),
        // After extended dates.
        (
            b"2021-01-02T03,5x",
            b"x",
            (Some(3), Some(30), Some(0), Some(0)),
            NO_OFFSET,
        ),
        (
            b"2021-01-02T03",
            b"",
            (Some(3), Some(0), Some(0), Some(0)),
            NO_OFFSET,
        ),
        (
            b"2021-01-02T0304.5",
            b"",
            (Some(3), Some(4), Some(30), Some(0)),
            NO_OFFSET,
        ),
        (
            b"2021-01-02T03:04.5",
            b"",
            (Some(3), Some(4), Some(30), Some(0)),
            NO_OFFSET,
        ),
        (
            b"2021-01-02T0304",
            b"",
            (Some(3), Some(4), Some(0), Some(0)),
            NO_OFFSET,
        ),
        (
            b"2021-01-02T03:04",
            b"",
            (Some(3), Some(4), Some(0), Some(0)),
            NO_OFFSET,
        ),
        (
            b"2021-01-02T030405",
            b"05",
            (Some(3), Some(4), Some(0), Some(0)),
            NO_OFFSET,
        ),
        (
            b"2021-01-02T0304:05",
            b"",
            (Some(3), Some(4), Some(5), Some(0)),
            NO_OFFSET,
        ),
        (
            b"2021-01-02T03:04:05,25",
            b"",
            (Some(3), Some(4), Some(5), Some(250_000_000)),
            NO_OFFSET,
        ),
        // Without dates.
        (
            b"03,5x",
            b"x",
            (Some(3), Some(30), Some(0), Some(0)),
            NO_OFFSET,
        ),
        (b"03", b"", (Some(3), Some(0), Some(0), Some(0)), NO_OFFSET),
        (
            b"0304.5",
            b"",
            (Some(3), Some(4), Some(30), Some(0)),
            NO_OFFSET,
        ),
        (
            b"03:04.5",
            b"",
            (Some(3), Some(4), Some(30), Some(0)),
            NO_OFFSET,
        ),
        (
            b"0304",
            b"",
            (Some(3), Some(4), Some(0), Some(0)),
            NO_OFFSET,
        ),
        (
            b"03:04",
            b"",
            (Some(3), Some(4), Some(0), Some(0)),
            NO_OFFSET,
        ),
        (
            b"030405",
            b"",
            (Some(3), Some(4), Some(5), Some(0)),
            NO_OFFSET,
        ),
        (
            b"0304:05",
            b":05",
            (Some(3), Some(4), Some(0), Some(0)),
            NO_OFFSET,
        ),
        (
            b"03:04:05,25",
            b"",
            (Some(3), Some(4), Some(5), Some(250_000_000)),
            NO_OFFSET,
        ),
        (b"T03", b"", (Some(3), Some(0), Some(0), Some(0)), NO_OFFSET),
        // The kind of a time is passed on to the offset.
        (
            b"0304+05:06",
            b":06",
            (Some(3), Some(4), Some(0), Some(0)),
            (Some(5), Some(0)),
        ),
        (
            b"03:04+05:06",
            b"",
            (Some(3), Some(4), Some(0), Some(0)),
            (Some(5), Some(6)),
        ),
        (
            b"03+05:06",
            b"",
            (Some(3), Some(0), Some(0), Some(0)),
            (Some(5), Some(6)),
        ),
        (
            b"0304.5+05:06",
            b":06",
            (Some(3), Some(4), Some(30), Some(0)),
            (Some(5), Some(0)),
        ),
        (
            b"2021-01-02T0304+05:06",
            b"",
            (Some(3), Some(4), Some(0), Some(0)),
            (Some(5), Some(6)),
        ),
        (
            b"20210102T03+05:06",
            b":06",
            (Some(3), Some(0), Some(0), Some(0)),
            (Some(5), Some(0)),
        ),
        // A date that doesn't parse leaves the kind unknown.
        (
            b"1234-05:30",
            b":30",
            (Some(12), Some(34), Some(0), Some(0)),
            (Some(-5), Some(0)),
        ),
    ];

    #[test]
    fn iso_times_in_records(rt: HostRuntime) {
        for (text, left, time, offset) in &TIMES {
            let mut record = Parsed::new();
            let (found, cells) = parse_cells_by(&Iso8601, text, &mut record);
            assert!(rt;
                found == Ok(*left) && cells.2 == *time && cells.3 == *offset,
                "{text:?}"
            );
        }
    }
}

// Texts of ISO 8601 with each byte at each place, compared with the same text with a year of six digits, which has no
// fast path.
mod iso_fronts {
    use crate::formats::{Format, Numbers, Part, parse_part};
    use time_record::Parsed;

    static TEXTS: [&[u8]; 3] = [
        b"2021-01-02T03:04:05Z",
        b"20210102T030405Z",
        b"2021-12-31T23:59:60,123456789-05:30",
    ];

    // The part of the text over the defaults; `None` if it is rejected.
    fn value(part: Part, text: &[u8], defaults: Option<Parsed>) -> Option<Numbers> {
        parse_part(Format::Iso, part, text, defaults).ok()
    }

    // Whether both texts have equal values, or none. `with_sign` is `+00` followed by the text.
    fn is_right(text: &[u8], with_sign: &[u8]) -> bool {
        let moment = value(Part::Moment, with_sign, None);
        value(Part::Moment, text, None) == moment
            && value(Part::Moment, text, Some(Parsed::new())) == moment
            && value(Part::Plain, text, None) == value(Part::Plain, with_sign, None)
    }

    // Checks the text, with `+00` before it and without, with each byte at the index `place`. `Err` is a byte with
    // which they differ.
    fn with_each_byte(text: &[u8], place: usize) -> Result<(), u8> {
        let mut both = *b"+00                                   ";
        let both = both.get_mut(..text.len().saturating_add(3)).ok_or(0)?;
        both.get_mut(3..).ok_or(0)?.copy_from_slice(text);
        for byte in 0..=u8::MAX {
            *both.get_mut(place.saturating_add(3)).ok_or(byte)? = byte;
            let changed = both.get(3..).ok_or(byte)?;
            if !is_right(changed, both) {
                return Err(byte);
            }
        }
        Ok(())
    }

    #[test]
    fn iso_fronts(rt: HostRuntime) {
        for text in &TEXTS {
            for place in 0..text.len() {
                let outcome = with_each_byte(text, place);
                assert!(rt; outcome == Ok(()), "{text:?} {place} {outcome:?}");
            }
        }
    }
}
