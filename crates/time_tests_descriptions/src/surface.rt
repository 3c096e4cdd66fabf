//! Every public call of components, and their modifiers, by its name and type, so that removing one fails to compile.
use std::fmt::Debug;
use std::num::NonZero;
use time_components::component::{
    parse_calendar_year_century_extended_range, parse_calendar_year_century_standard_range,
    parse_calendar_year_full_extended_range, parse_calendar_year_full_standard_range,
    parse_calendar_year_last_two, parse_day, parse_end, parse_hour_12, parse_hour_24, parse_ignore,
    parse_iso_year_century_extended_range, parse_iso_year_century_standard_range,
    parse_iso_year_full_extended_range, parse_iso_year_full_standard_range,
    parse_iso_year_last_two, parse_minute, parse_month_long, parse_month_numerical,
    parse_month_short, parse_offset_hour, parse_offset_minute, parse_offset_second, parse_ordinal,
    parse_period, parse_second, parse_subsecond, parse_unix_timestamp_microsecond,
    parse_unix_timestamp_millisecond, parse_unix_timestamp_nanosecond, parse_unix_timestamp_second,
    parse_week_number_iso, parse_week_number_monday, parse_week_number_sunday, parse_weekday_long,
    parse_weekday_monday, parse_weekday_short, parse_weekday_sunday,
};
use time_components::{
    Component, Padding, ParsedItem, Period, SubsecondDigits, TrailingInput, modifier,
};
use time_record::Parsed;
use time_values::{Month, Weekday};

// A type that is copied, compared and printed for debugging.
trait Plain: Copy + Debug + Eq {}

impl<T: Copy + Debug + Eq> Plain for T {}

// Types that are plain.
fn are_plain<A: Plain, B: Plain, C: Plain, D: Plain, E: Plain, F: Plain, G: Plain, H: Plain>() {}

// Whether the value is parsed, and no bytes remain.
fn is_whole<T: PartialEq + Copy>(found: Option<ParsedItem<'_, T>>, value: T) -> bool {
    match found {
        Some(ParsedItem(rest, found)) => rest.is_empty() && found == value,
        None => false,
    }
}

// Whether each parses the value, and no bytes remain.
fn are_whole<T: PartialEq + Copy>(all: &[Option<ParsedItem<'_, T>>], value: T) -> bool {
    for found in all {
        let is_whole = match found {
            Some(found) => found.0.is_empty() && found.1 == value,
            None => false,
        };
        if !is_whole {
            return false;
        }
    }
    true
}

const PADDING: Padding = Padding::Zero;

#[test]
fn plain_modifiers(rt: HostRuntime) {
    are_plain::<
        modifier::Day,
        modifier::MonthShort,
        modifier::MonthLong,
        modifier::MonthNumerical,
        modifier::Ordinal,
        modifier::WeekdayShort,
        modifier::WeekdayLong,
        modifier::WeekdaySunday,
    >();
    are_plain::<
        modifier::WeekdayMonday,
        modifier::WeekNumberIso,
        modifier::WeekNumberSunday,
        modifier::WeekNumberMonday,
        modifier::CalendarYearFullExtendedRange,
        modifier::CalendarYearFullStandardRange,
        modifier::IsoYearFullExtendedRange,
        modifier::IsoYearFullStandardRange,
    >();
    are_plain::<
        modifier::CalendarYearCenturyExtendedRange,
        modifier::CalendarYearCenturyStandardRange,
        modifier::IsoYearCenturyExtendedRange,
        modifier::IsoYearCenturyStandardRange,
        modifier::CalendarYearLastTwo,
        modifier::IsoYearLastTwo,
        (),
        (),
    >();
    assert!(rt; Padding::Zero == PADDING);
}

#[test]
fn plain_modifiers_of_times() {
    are_plain::<
        modifier::Minute,
        modifier::Period,
        modifier::Second,
        modifier::Subsecond,
        modifier::OffsetHour,
        modifier::OffsetMinute,
        modifier::OffsetSecond,
        modifier::Ignore,
    >();
    are_plain::<
        modifier::UnixTimestampSecond,
        modifier::UnixTimestampMillisecond,
        modifier::UnixTimestampMicrosecond,
        modifier::UnixTimestampNanosecond,
        modifier::End,
        Component,
        Period,
        Padding,
    >();
    are_plain::<
        SubsecondDigits,
        TrailingInput,
        modifier::Hour12,
        modifier::Hour24,
        (),
        (),
        (),
        (),
    >();
}

// The components with a padding.
fn padded(padding: Padding) -> [Component; 14] {
    [
        Component::Day(modifier::Day { padding }),
        Component::MonthNumerical(modifier::MonthNumerical { padding }),
        Component::Ordinal(modifier::Ordinal { padding }),
        Component::WeekNumberIso(modifier::WeekNumberIso { padding }),
        Component::WeekNumberSunday(modifier::WeekNumberSunday { padding }),
        Component::WeekNumberMonday(modifier::WeekNumberMonday { padding }),
        Component::CalendarYearLastTwo(modifier::CalendarYearLastTwo { padding }),
        Component::IsoYearLastTwo(modifier::IsoYearLastTwo { padding }),
        Component::Hour12(modifier::Hour12 { padding }),
        Component::Hour24(modifier::Hour24 { padding }),
        Component::Minute(modifier::Minute { padding }),
        Component::Second(modifier::Second { padding }),
        Component::OffsetMinute(modifier::OffsetMinute { padding }),
        Component::OffsetSecond(modifier::OffsetSecond { padding }),
    ]
}

// The components with a padding and a sign.
fn signed(padding: Padding, sign_is_mandatory: bool) -> [Component; 9] {
    [
        Component::CalendarYearFullExtendedRange(modifier::CalendarYearFullExtendedRange {
            padding,
            sign_is_mandatory,
        }),
        Component::CalendarYearFullStandardRange(modifier::CalendarYearFullStandardRange {
            padding,
            sign_is_mandatory,
        }),
        Component::IsoYearFullExtendedRange(modifier::IsoYearFullExtendedRange {
            padding,
            sign_is_mandatory,
        }),
        Component::IsoYearFullStandardRange(modifier::IsoYearFullStandardRange {
            padding,
            sign_is_mandatory,
        }),
        Component::CalendarYearCenturyExtendedRange(modifier::CalendarYearCenturyExtendedRange {
            padding,
            sign_is_mandatory,
        }),
        Component::CalendarYearCenturyStandardRange(modifier::CalendarYearCenturyStandardRange {
            padding,
            sign_is_mandatory,
        }),
        Component::IsoYearCenturyExtendedRange(modifier::IsoYearCenturyExtendedRange {
            padding,
            sign_is_mandatory,
        }),
        Component::IsoYearCenturyStandardRange(modifier::IsoYearCenturyStandardRange {
            padding,
            sign_is_mandatory,
        }),
        Component::OffsetHour(modifier::OffsetHour {
            padding,
            sign_is_mandatory,
        }),
    ]
}

// The components that count from 1970.
fn counted(sign_is_mandatory: bool) -> [Component; 4] {
    [
        Component::UnixTimestampSecond(modifier::UnixTimestampSecond { sign_is_mandatory }),
        Component::UnixTimestampMillisecond(modifier::UnixTimestampMillisecond {
            sign_is_mandatory,
        }),
        Component::UnixTimestampMicrosecond(modifier::UnixTimestampMicrosecond {
            sign_is_mandatory,
        }),
        Component::UnixTimestampNanosecond(modifier::UnixTimestampNanosecond { sign_is_mandatory }),
    ]
}

// The components that are names.
fn named(case_sensitive: bool) -> [Component; 4] {
    [
        Component::MonthShort(modifier::MonthShort { case_sensitive }),
        Component::MonthLong(modifier::MonthLong { case_sensitive }),
        Component::WeekdayShort(modifier::WeekdayShort { case_sensitive }),
        Component::WeekdayLong(modifier::WeekdayLong { case_sensitive }),
    ]
}

// The components that number weekdays.
fn indexed(one_indexed: bool) -> [Component; 2] {
    [
        Component::WeekdaySunday(modifier::WeekdaySunday { one_indexed }),
        Component::WeekdayMonday(modifier::WeekdayMonday { one_indexed }),
    ]
}

// The half of the day, the fraction of a second and the end.
fn others(
    case_sensitive: bool,
    digits: SubsecondDigits,
    trailing_input: TrailingInput,
) -> [Component; 3] {
    [
        Component::Period(modifier::Period {
            is_uppercase: true,
            case_sensitive,
        }),
        Component::Subsecond(modifier::Subsecond { digits }),
        Component::End(modifier::End { trailing_input }),
    ]
}

// Whether each of the components rejects the byte.
fn refuse(components: &[Component]) -> bool {
    for component in components {
        if Parsed::new().parse_component(b"!", *component).is_ok() {
            return false;
        }
    }
    true
}

#[test]
fn variants(rt: HostRuntime) {
    assert!(rt; refuse(&padded(PADDING)) && refuse(&signed(PADDING, true)));
    assert!(rt; refuse(&counted(true)) && refuse(&named(true)) && refuse(&indexed(true)));
    assert!(rt; refuse(&others(true, SubsecondDigits::One, TrailingInput::Prohibit)));
}

// The component that skips this many bytes.
fn skipped(count: NonZero<u16>) -> Component {
    Component::Ignore(modifier::Ignore { count })
}

// The parsers of numbers of two digits.
fn two_places(input: &[u8], padding: Padding) -> [Option<ParsedItem<'_, u8>>; 9] {
    [
        parse_calendar_year_last_two(input, modifier::CalendarYearLastTwo { padding }),
        parse_iso_year_last_two(input, modifier::IsoYearLastTwo { padding }),
        parse_week_number_iso(input, modifier::WeekNumberIso { padding }),
        parse_week_number_sunday(input, modifier::WeekNumberSunday { padding }),
        parse_week_number_monday(input, modifier::WeekNumberMonday { padding }),
        parse_hour_12(input, modifier::Hour12 { padding }),
        parse_hour_24(input, modifier::Hour24 { padding }),
        parse_minute(input, modifier::Minute { padding }),
        parse_second(input, modifier::Second { padding }),
    ]
}

#[test]
fn numbers_in_two_places(rt: HostRuntime) {
    assert!(rt; are_whole(&two_places(b"07", PADDING), 7));
}

// The parsers of years.
fn years(
    input: &[u8],
    padding: Padding,
    sign_is_mandatory: bool,
) -> [Option<ParsedItem<'_, i32>>; 4] {
    [
        parse_calendar_year_full_extended_range(
            input,
            modifier::CalendarYearFullExtendedRange {
                padding,
                sign_is_mandatory,
            },
        ),
        parse_calendar_year_full_standard_range(
            input,
            modifier::CalendarYearFullStandardRange {
                padding,
                sign_is_mandatory,
            },
        ),
        parse_iso_year_full_extended_range(
            input,
            modifier::IsoYearFullExtendedRange {
                padding,
                sign_is_mandatory,
            },
        ),
        parse_iso_year_full_standard_range(
            input,
            modifier::IsoYearFullStandardRange {
                padding,
                sign_is_mandatory,
            },
        ),
    ]
}

// The parsers of centuries.
fn centuries(
    input: &[u8],
    padding: Padding,
    sign_is_mandatory: bool,
) -> [Option<ParsedItem<'_, (i16, bool)>>; 4] {
    [
        parse_calendar_year_century_extended_range(
            input,
            modifier::CalendarYearCenturyExtendedRange {
                padding,
                sign_is_mandatory,
            },
        ),
        parse_calendar_year_century_standard_range(
            input,
            modifier::CalendarYearCenturyStandardRange {
                padding,
                sign_is_mandatory,
            },
        ),
        parse_iso_year_century_extended_range(
            input,
            modifier::IsoYearCenturyExtendedRange {
                padding,
                sign_is_mandatory,
            },
        ),
        parse_iso_year_century_standard_range(
            input,
            modifier::IsoYearCenturyStandardRange {
                padding,
                sign_is_mandatory,
            },
        ),
    ]
}

#[test]
fn years_and_centuries(rt: HostRuntime) {
    assert!(rt; are_whole(&years(b"2021", PADDING, false), 2021));
    assert!(rt; are_whole(&centuries(b"20", PADDING, false), (20, false)));
}

// The parsers of a month's name.
fn named_months(input: &[u8], case_sensitive: bool) -> [Option<ParsedItem<'_, Month>>; 2] {
    [
        parse_month_short(input, modifier::MonthShort { case_sensitive }),
        parse_month_long(input, modifier::MonthLong { case_sensitive }),
    ]
}

// The parsers of a weekday's name.
fn named_weekdays(input: &[u8], case_sensitive: bool) -> [Option<ParsedItem<'_, Weekday>>; 2] {
    [
        parse_weekday_short(input, modifier::WeekdayShort { case_sensitive }),
        parse_weekday_long(input, modifier::WeekdayLong { case_sensitive }),
    ]
}

// The parsers of a weekday's number.
fn numbered_weekdays(input: &[u8], one_indexed: bool) -> [Option<ParsedItem<'_, Weekday>>; 2] {
    [
        parse_weekday_sunday(input, modifier::WeekdaySunday { one_indexed }),
        parse_weekday_monday(input, modifier::WeekdayMonday { one_indexed }),
    ]
}

#[test]
fn names(rt: HostRuntime) {
    assert!(rt; are_whole(&named_months(b"May", true), Month::May));
    assert!(rt; named_weekdays(b"Sunday", true)[1].is_some());
    assert!(rt; numbered_weekdays(b"0", false)[1].is_some());
}

#[test]
fn days(rt: HostRuntime) {
    let padding = PADDING;
    let month: Option<ParsedItem<'_, Month>> = parse_month_numerical(
        b"05",
        modifier::MonthNumerical { padding },
    );
    assert!(rt; is_whole(month, Month::May));
    let day: Option<ParsedItem<'_, NonZero<u8>>> = parse_day(b"02", modifier::Day { padding });
    assert!(rt; day.is_some());
    let ordinal: Option<ParsedItem<'_, NonZero<u16>>> = parse_ordinal(
        b"002",
        modifier::Ordinal { padding },
    );
    assert!(rt; ordinal.is_some());
}

// The halves of the day, and how they are written.
static HALVES: [(&[u8], Period); 2] = [(b"AM", Period::Am), (b"PM", Period::Pm)];

// How many digits a fraction may have, and a fraction of that many digits.
static FRACTIONS: [(SubsecondDigits, &[u8]); 10] = [
    (SubsecondDigits::One, b"5"),
    (SubsecondDigits::Two, b"50"),
    (SubsecondDigits::Three, b"500"),
    (SubsecondDigits::Four, b"5000"),
    (SubsecondDigits::Five, b"50000"),
    (SubsecondDigits::Six, b"500000"),
    (SubsecondDigits::Seven, b"5000000"),
    (SubsecondDigits::Eight, b"50000000"),
    (SubsecondDigits::Nine, b"500000000"),
    (SubsecondDigits::OneOrMore, b"5"),
];

#[test]
fn parts_of_times(rt: HostRuntime) {
    let is_uppercase = true;
    let case_sensitive = true;
    for (text, expected) in &HALVES {
        let half: Option<ParsedItem<'_, Period>> = parse_period(
            text,
            modifier::Period {
                is_uppercase,
                case_sensitive,
            },
        );
        assert!(rt; is_whole(half, *expected));
    }
    for (digits, text) in &FRACTIONS {
        let digits = *digits;
        let subsecond: Option<ParsedItem<'_, u32>> = parse_subsecond(
            text,
            modifier::Subsecond { digits },
        );
        assert!(rt; is_whole(subsecond, 500_000_000));
    }
}

#[test]
fn parts_of_offsets(rt: HostRuntime) {
    let padding = PADDING;
    let sign_is_mandatory = true;
    let hour: Option<ParsedItem<'_, (i8, bool)>> = parse_offset_hour(
        b"-05",
        modifier::OffsetHour {
            padding,
            sign_is_mandatory,
        },
    );
    assert!(rt; is_whole(hour, (-5, true)));
    let minute: Option<ParsedItem<'_, i8>> = parse_offset_minute(
        b"30",
        modifier::OffsetMinute { padding },
    );
    let second: Option<ParsedItem<'_, i8>> = parse_offset_second(
        b"30",
        modifier::OffsetSecond { padding },
    );
    assert!(rt; is_whole(minute, 30) && is_whole(second, 30));
}

// The parsers of timestamps.
fn timestamps(input: &[u8], sign_is_mandatory: bool) -> [Option<ParsedItem<'_, i128>>; 4] {
    [
        parse_unix_timestamp_second(input, modifier::UnixTimestampSecond { sign_is_mandatory }),
        parse_unix_timestamp_millisecond(
            input,
            modifier::UnixTimestampMillisecond { sign_is_mandatory },
        ),
        parse_unix_timestamp_microsecond(
            input,
            modifier::UnixTimestampMicrosecond { sign_is_mandatory },
        ),
        parse_unix_timestamp_nanosecond(
            input,
            modifier::UnixTimestampNanosecond { sign_is_mandatory },
        ),
    ]
}

#[test]
fn units_of_timestamps(rt: HostRuntime) {
    assert!(rt; are_whole(&timestamps(b"0", false), 0));
}

#[test]
fn other_bytes(rt: HostRuntime) {
    let count = NonZero::<u16>::new(1).expect(&rt, "a count");
    let skip: Option<ParsedItem<'_, ()>> = parse_ignore(b"x", modifier::Ignore { count });
    assert!(rt; is_whole(skip, ()) && !refuse(&[skipped(count)]));
    let trailing_input = TrailingInput::Discard;
    let end: Option<ParsedItem<'_, ()>> = parse_end(b"x", modifier::End { trailing_input });
    assert!(rt; is_whole(end, ()));
}
