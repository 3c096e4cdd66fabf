//! Every public call of values, errors and digits by its name and type, so that removing one fails to compile.
ghost use Rattle.std.specs.Prelude.{◌≤◌};

use std::fmt::Debug;
use time_digits::ParsedItem;

// A type that is copied, compared and printed for debugging.
trait Plain: Copy + Debug + Eq {}

impl<T: Copy + Debug + Eq> Plain for T {}

// Types that are plain.
fn are_plain<A: Plain, B: Plain, C: Plain, D: Plain, E: Plain, F: Plain, G: Plain, H: Plain>() {}

// Types that are printed for debugging.
fn are_printed<A: Debug, B: Debug, C: Debug>() {}

// Whether the value is parsed, and no bytes remain.
fn is_whole<T: PartialEq + Copy>(found: Option<ParsedItem<'_, T>>, value: T) -> bool {
    match found {
        Some(ParsedItem(rest, found)) => rest.is_empty() && found == value,
        None => false,
    }
}

// Months, weekdays, dates, times and offsets.
mod values {
    use super::are_plain;
    use std::num::NonZero;
    use time_values::error::ComponentRange;
    use time_values::{
        Date, Month, OffsetDateTime, PlainDateTime, Time, UtcDateTime, UtcOffset, Weekday,
    };

    static MONTHS: [Month; 12] = [
        Month::January,
        Month::February,
        Month::March,
        Month::April,
        Month::May,
        Month::June,
        Month::July,
        Month::August,
        Month::September,
        Month::October,
        Month::November,
        Month::December,
    ];

    #[test]
    fn months(rt: HostRuntime) {
        let two = NonZero::<u8>::new(2).expect(&rt, "a number");
        let month: Result<Month, ComponentRange> = Month::from_number(two);
        assert!(rt; month == Ok(Month::February));
        let length: u8 = Month::February.length(2024);
        let number: u8 = u8::from(Month::February);
        assert!(rt; (length, number) == (29, 2));
        assert!(rt; MONTHS[1] == Month::February);
    }

    static WEEKDAYS: [Weekday; 7] = [
        Weekday::Monday,
        Weekday::Tuesday,
        Weekday::Wednesday,
        Weekday::Thursday,
        Weekday::Friday,
        Weekday::Saturday,
        Weekday::Sunday,
    ];

    #[test]
    fn weekdays(rt: HostRuntime) {
        let from_monday: u8 = WEEKDAYS[6].number_days_from_monday();
        let from_sunday: u8 = WEEKDAYS[6].number_days_from_sunday();
        assert!(rt; (from_monday, from_sunday) == (6, 0));
    }

    // The year, the month, the day, the day of the year and the weekday.
    fn parts(date: Date) -> (i32, Month, u8, u16, Weekday) {
        let year: i32 = date.year();
        let month: Month = date.month();
        let day: u8 = date.day();
        let ordinal: u16 = date.ordinal();
        let weekday: Weekday = date.weekday();
        (year, month, day, ordinal, weekday)
    }

    // The weeks by the three ways to number them.
    fn weeks(date: Date) -> (u8, (i32, u8, Weekday), u8, u8) {
        let iso_week: u8 = date.iso_week();
        let week_date: (i32, u8, Weekday) = date.to_iso_week_date();
        let sunday_week: u8 = date.sunday_based_week();
        let monday_week: u8 = date.monday_based_week();
        (iso_week, week_date, sunday_week, monday_week)
    }

    #[test]
    fn dates(rt: HostRuntime) {
        let date: Result<Date, ComponentRange> = Date::from_calendar_date(2021, Month::January, 2);
        let by_day: Result<Date, ComponentRange> = Date::from_ordinal_date(2021, 2);
        let by_week: Result<Date, ComponentRange> = Date::from_iso_week_date(
            2020,
            53,
            Weekday::Saturday,
        );
        assert!(rt; by_day.is_ok() && by_week.is_ok());
        let date = date.expect(&rt, "a date");
        assert!(rt; parts(date) == (2021, Month::January, 2, 2, Weekday::Saturday));
        assert!(rt; weeks(date) == (53, (2020, 53, Weekday::Saturday), 0, 0));
    }

    #[test]
    fn constants(rt: HostRuntime) {
        are_plain::<
            Month,
            Weekday,
            Date,
            Time,
            UtcOffset,
            PlainDateTime,
            OffsetDateTime,
            UtcDateTime,
        >();
        are_plain::<time_values::Timestamp, (), (), (), (), (), (), ()>();
        let first: Date = Date::MIN;
        let last: Date = Date::MAX;
        let utc: UtcOffset = UtcOffset::UTC;
        assert!(rt; (first.year(), last.year()) == (-999_999, 999_999));
        assert!(rt; utc.as_hms() == (0, 0, 0));
    }

    // The parts of a time.
    fn clock(time: Time) -> (u8, u8, u8, u32) {
        let hour: u8 = time.hour();
        let minute: u8 = time.minute();
        let second: u8 = time.second();
        let nanosecond: u32 = time.nanosecond();
        (hour, minute, second, nanosecond)
    }

    #[test]
    fn times(rt: HostRuntime) {
        let time: Result<Time, ComponentRange> = Time::from_hms_nano(3, 4, 5, 6);
        assert!(rt; clock(time.expect(&rt, "a time")) == (3, 4, 5, 6));
    }

    #[test]
    fn offsets(rt: HostRuntime) {
        let offset: Result<UtcOffset, ComponentRange> = UtcOffset::from_hms(-1, 30, 0);
        let parts: (i8, i8, i8) = offset.expect(&rt, "an offset").as_hms();
        assert!(rt; parts == (-1, -30, 0));
    }
}

// Date-times, moments and timestamps.
mod moments {
    use time_values::error::ComponentRange;
    use time_values::{
        Date, OffsetDateTime, PlainDateTime, Time, Timestamp, UtcDateTime, UtcOffset,
    };

    // The nanoseconds of a day.
    const DAY: i128 = 86_400_000_000_000;

    // The date and the time of a date-time that is built from them.
    fn plain(date: Date, time: Time) -> (Date, Time) {
        let plain: PlainDateTime = PlainDateTime::new(date, time);
        let date: Date = plain.date();
        let time: Time = plain.time();
        (date, time)
    }

    // The date and the time of a moment in UTC that is built from them.
    fn utc(date: Date, time: Time) -> (Date, Time) {
        let utc: UtcDateTime = UtcDateTime::new(date, time);
        let date: Date = utc.date();
        let time: Time = utc.time();
        (date, time)
    }

    // The date, the time and the offset of a moment that is built from them.
    fn moment(date: Date, time: Time, offset: UtcOffset) -> (Date, Time, UtcOffset) {
        let moment: OffsetDateTime = OffsetDateTime::new_in_offset(date, time, offset);
        let date: Date = moment.date();
        let time: Time = moment.time();
        let offset: UtcOffset = moment.offset();
        (date, time, offset)
    }

    #[test]
    fn parts(rt: HostRuntime) {
        let time = Time::from_hms_nano(3, 4, 5, 6).expect(&rt, "a time");
        assert!(rt; plain(Date::MIN, time) == (Date::MIN, time));
        assert!(rt; utc(Date::MIN, time) == (Date::MIN, time));
        assert!(rt; moment(Date::MIN, time, UtcOffset::UTC) == (Date::MIN, time, UtcOffset::UTC));
    }

    // The nanoseconds of a moment in UTC, those of its timestamp, and whether it may be a leap second.
    fn utc_nanos(utc: UtcDateTime) -> (i128, i128, bool) {
        let nanos: i128 = utc.unix_timestamp_nanos();
        let timestamp: Timestamp = Timestamp::from(utc);
        let stamped: i128 = timestamp.nanoseconds();
        let may_be_leap_second: bool = utc.is_valid_leap_second_stand_in();
        (nanos, stamped, may_be_leap_second)
    }

    #[test]
    fn utc_moments(rt: HostRuntime) {
        let utc: Result<UtcDateTime, ComponentRange> = UtcDateTime::from_unix_timestamp_nanos(DAY);
        let utc = utc.expect(&rt, "a moment");
        assert!(rt; utc_nanos(utc) == (DAY, DAY, false));
        let later: Result<UtcDateTime, ComponentRange> = utc.replace_nanosecond(1);
        assert!(rt; later.is_ok());
        let timestamp: Result<Timestamp, ComponentRange> = Timestamp::from_nanoseconds(DAY);
        assert!(rt; timestamp == Ok(Timestamp::from(utc)));
    }

    // The nanoseconds of a moment, the moment in UTC, and whether it may be a leap second.
    fn offset_nanos(moment: OffsetDateTime) -> (i128, Option<UtcDateTime>, bool) {
        let nanos: i128 = moment.unix_timestamp_nanos();
        let utc: Option<UtcDateTime> = moment.checked_to_utc();
        let may_be_leap_second: bool = moment.is_valid_leap_second_stand_in();
        (nanos, utc, may_be_leap_second)
    }

    #[test]
    fn moments(rt: HostRuntime) {
        let moment: Result<OffsetDateTime, ComponentRange> =
            OffsetDateTime::from_unix_timestamp_nanos(DAY);
        let moment = moment.expect(&rt, "a moment");
        let (nanos, utc, may_be_leap_second) = offset_nanos(moment);
        assert!(rt; (nanos, utc.is_some(), may_be_leap_second) == (DAY, true, false));
        let later: Result<OffsetDateTime, ComponentRange> = moment.replace_nanosecond(1);
        assert!(rt; later.is_ok());
    }
}

// Errors, their texts, and the conversions between them.
mod errors {
    use super::{are_plain, are_printed};
    use std::alloc::Global;
    use std::convert::TryFrom;
    use time_values::error::{
        ComponentRange, DifferentVariant, Error, Parse, ParseFromDescription, TryFromParsed,
    };

    const RANGE: ComponentRange = ComponentRange {
        name: "day",
        conditional: true,
    };

    const MISSING: TryFromParsed = TryFromParsed::InsufficientInformation;

    const OUT_OF_RANGE: TryFromParsed = TryFromParsed::ComponentRange(RANGE);

    const LITERAL: ParseFromDescription = ParseFromDescription::InvalidLiteral;

    const DAY: ParseFromDescription = ParseFromDescription::InvalidComponent("day");

    const TRAILING: ParseFromDescription = ParseFromDescription::UnexpectedTrailingCharacters;

    #[test]
    fn plain_types(rt: HostRuntime) {
        are_plain::<
            ComponentRange,
            DifferentVariant,
            ParseFromDescription,
            TryFromParsed,
            Parse,
            (),
            (),
            (),
        >();
        are_printed::<Error, (), ()>();
        let name: &'static str = RANGE.name;
        let is_conditional: bool = RANGE.conditional;
        assert!(rt; name == "day" && is_conditional);
        assert!(rt; LITERAL != TRAILING);
    }

    // Whether this is the error's text.
    fn prints<E: std::error::Error>(alloc: Global, e: &E, expected: &str) -> bool {
        match e.to_string(alloc) {
            Ok(text) => text.as_str() == expected,
            Err(_) => false,
        }
    }

    #[test]
    fn texts(rt: HostRuntime) {
        let text = "day is out of range for the other components";
        assert!(rt; prints(rt.alloc(), &RANGE, text));
        assert!(rt; prints(rt.alloc(), &OUT_OF_RANGE, text));
        assert!(rt; prints(rt.alloc(), &Parse::TryFromParsed(OUT_OF_RANGE), text));
        let text = "the 'day' component could not be parsed";
        assert!(rt; prints(rt.alloc(), &DAY, text));
        assert!(rt; prints(rt.alloc(), &Parse::ParseFromDescription(DAY), text));
        let text = "value was of a different variant than required";
        assert!(rt; prints(rt.alloc(), &DifferentVariant, text));
    }

    static JOINT_ERRORS: [(Error, &str); 3] = [
        (
            Error::ComponentRange(RANGE),
            "day is out of range for the other components",
        ),
        (
            Error::TryFromParsed(OUT_OF_RANGE),
            "day is out of range for the other components",
        ),
        (
            Error::ParseFromDescription(LITERAL),
            "a character literal was not valid",
        ),
    ];

    #[test]
    fn joint_texts(rt: HostRuntime) {
        for (e, text) in &JOINT_ERRORS {
            assert!(rt; prints(rt.alloc(), e, text));
        }
    }

    #[test]
    fn conversions_of_ranges(rt: HostRuntime) {
        let resolved: TryFromParsed = TryFromParsed::from(RANGE);
        assert!(rt; resolved == OUT_OF_RANGE);
        let range: Result<ComponentRange, DifferentVariant> = ComponentRange::try_from(resolved);
        assert!(rt; range == Ok(RANGE));
        let range: Result<ComponentRange, DifferentVariant> = ComponentRange::try_from(MISSING);
        assert!(rt; range == Err(DifferentVariant));
    }

    #[test]
    fn conversions_of_parses(rt: HostRuntime) {
        let unresolved: Parse = Parse::from(MISSING);
        let unread: Parse = Parse::from(LITERAL);
        assert!(rt; unresolved == Parse::TryFromParsed(MISSING));
        let missing: Result<TryFromParsed, DifferentVariant> = TryFromParsed::try_from(unresolved);
        let literal: Result<ParseFromDescription, DifferentVariant> =
            ParseFromDescription::try_from(unread);
        assert!(rt; (missing, literal) == (Ok(MISSING), Ok(LITERAL)));
    }

    #[test]
    fn conversions_of_joint_errors(rt: HostRuntime) {
        let missing: Error = Error::from(MISSING);
        let missing: Result<TryFromParsed, DifferentVariant> = TryFromParsed::try_from(missing);
        assert!(rt; missing == Ok(MISSING));
        let literal: Error = Error::from(LITERAL);
        let literal: Result<ParseFromDescription, DifferentVariant> =
            ParseFromDescription::try_from(literal);
        assert!(rt; literal == Ok(LITERAL));
        let parse: Error = Error::from(Parse::from(LITERAL));
        let parse: Result<Parse, DifferentVariant> = Parse::try_from(parse);
        assert!(rt; parse == Ok(Parse::from(LITERAL)));
        let range: Error = Error::from(RANGE);
        let none: Result<Parse, DifferentVariant> = Parse::try_from(range);
        assert!(rt; none == Err(DifferentVariant));
    }
}

// Parsers of digits, signs and single bytes.
mod digits {
    use super::is_whole;
    use time_digits::combinator::{
        any_digit, ascii_char, ascii_char_ignore_case, exactly_n_digits, exactly_n_digits_padded,
        n_to_m_digits, n_to_m_digits_padded, one_or_two_digits, sign,
    };
    use time_digits::{Integer, Padding, ParsedItem, Sign};

    #[test]
    fn single_bytes(rt: HostRuntime) {
        let minus: Option<ParsedItem<'_, Sign>> = sign(b"-");
        let plus: Option<ParsedItem<'_, Sign>> = sign(b"+");
        assert!(rt; matches!(minus, Some(ParsedItem([], Sign::Negative))));
        assert!(rt; matches!(plus, Some(ParsedItem([], Sign::Positive))));
        let digit: Option<ParsedItem<'_, u8>> = any_digit(b"7");
        assert!(rt; is_whole(digit, b'7'));
        let colon: Option<ParsedItem<'_, ()>> = ascii_char::<b':'>(b":");
        let letter: Option<ParsedItem<'_, ()>> = ascii_char_ignore_case::<b'T'>(b"t");
        assert!(rt; is_whole(colon, ()) && is_whole(letter, ()));
    }

    #[test]
    fn digits(rt: HostRuntime) {
        let two: Option<ParsedItem<'_, u8>> = one_or_two_digits(b"12");
        let three: Option<ParsedItem<'_, u32>> = exactly_n_digits::<3>(b"123");
        assert!(rt; is_whole(two, 12) && is_whole(three, 123));
        let wide: Option<ParsedItem<'_, u128>> = n_to_m_digits::<1, 39, u128>(b"1234");
        assert!(rt; is_whole(wide, 1234));
        let padded: Option<ParsedItem<'_, u16>> = n_to_m_digits_padded::<2, 4, u16>(
            b" 7",
            Padding::Space,
        );
        let exact: Option<ParsedItem<'_, u8>> = exactly_n_digits_padded::<2, u8>(
            b"7",
            Padding::None,
        );
        assert!(rt; is_whole(padded, 7) && is_whole(exact, 7));
    }

    // A number with one more digit, if it fits.
    fn pushed<T: Integer>(number: T, digit: u8) -> Option<T>
        requires { digit ≤ 9 }
    {
        let pushed: Option<T> = number.checked_push_digit(digit);
        pushed
    }

    // Zero with one more digit.
    fn one_digit(digit: u8) -> (u8, u16, u32, u128)
        requires { digit ≤ 9 }
    {
        let byte: u8 = u8::ZERO.push_digit(digit);
        let short: u16 = u16::ZERO.push_digit(digit);
        let long: u32 = u32::ZERO.push_digit(digit);
        let wide: u128 = u128::ZERO.push_digit(digit);
        (byte, short, long, wide)
    }

    #[test]
    fn integers(rt: HostRuntime) {
        assert!(rt; one_digit(1) == (1, 1, 1, 1));
        assert!(rt; pushed::<u8>(25, 5) == Some(255) && pushed::<u8>(25, 6) == None);
        assert!(rt; pushed::<u16>(1, 2) == Some(12));
        assert!(rt; pushed::<u32>(1, 2) == Some(12));
        assert!(rt; pushed::<u128>(1, 2) == Some(12));
        let most: [u8; 4] = [
            u8::MAX_NUM_DIGITS,
            u16::MAX_NUM_DIGITS,
            u32::MAX_NUM_DIGITS,
            u128::MAX_NUM_DIGITS,
        ];
        assert!(rt; most == [3, 5, 10, 39]);
    }
}
