//! Each component at the first and the last value of its range, under each padding, and years of more than four
//! digits.
use super::kinds::{Cased, Indexed, Kind, Padded, Signed, Timestamp};
use super::{Fields, OFFSET_HOUR, Row, reads};
use crate::fields::Field;
use time_components::{
    BorrowedFormatItem, Component, OwnedFormatItem, Padding, SubsecondDigits, modifier,
};
use time_record::{AnyFormatItem, Parsed};

macro_rules! century {
    ($century:expr, $is_negative:expr) => {
        Fields::Century($century, $is_negative)
    };
}

macro_rules! iso_century {
    ($century:expr, $is_negative:expr) => {
        Fields::IsoCentury($century, $is_negative)
    };
}

static ENDS: [Row; 131] = [
    // Days and months.
    (padded!(Day, Zero), "01", number!(Day, 1)),
    (padded!(Day, Zero), "31", number!(Day, 31)),
    (padded!(Day, Space), " 1", number!(Day, 1)),
    (padded!(Day, None), "1", number!(Day, 1)),
    (padded!(Ordinal, Zero), "001", number!(Ordinal, 1)),
    (padded!(Ordinal, Zero), "366", number!(Ordinal, 366)),
    (padded!(Ordinal, Space), "  1", number!(Ordinal, 1)),
    (padded!(Ordinal, None), "1", number!(Ordinal, 1)),
    (cased!(MonthShort, true), "Jan", number!(Month, 1)),
    (cased!(MonthShort, true), "Dec", number!(Month, 12)),
    (cased!(MonthShort, false), "dEC", number!(Month, 12)),
    (cased!(MonthLong, true), "January", number!(Month, 1)),
    (cased!(MonthLong, true), "December", number!(Month, 12)),
    (cased!(MonthLong, false), "SEPTEMBER", number!(Month, 9)),
    (padded!(MonthNumerical, Zero), "01", number!(Month, 1)),
    (padded!(MonthNumerical, Zero), "12", number!(Month, 12)),
    (padded!(MonthNumerical, Space), " 1", number!(Month, 1)),
    (padded!(MonthNumerical, None), "1", number!(Month, 1)),
    // Weekdays and weeks.
    (cased!(WeekdayShort, true), "Mon", number!(Weekday, 0)),
    (cased!(WeekdayShort, true), "Sun", number!(Weekday, 6)),
    (cased!(WeekdayShort, false), "sUN", number!(Weekday, 6)),
    (cased!(WeekdayLong, true), "Monday", number!(Weekday, 0)),
    (cased!(WeekdayLong, true), "Sunday", number!(Weekday, 6)),
    (cased!(WeekdayLong, false), "sunDAY", number!(Weekday, 6)),
    (indexed!(WeekdaySunday, false), "0", number!(Weekday, 6)),
    (indexed!(WeekdaySunday, false), "6", number!(Weekday, 5)),
    (indexed!(WeekdaySunday, true), "1", number!(Weekday, 6)),
    (indexed!(WeekdaySunday, true), "7", number!(Weekday, 5)),
    (indexed!(WeekdayMonday, false), "0", number!(Weekday, 0)),
    (indexed!(WeekdayMonday, false), "6", number!(Weekday, 6)),
    (indexed!(WeekdayMonday, true), "1", number!(Weekday, 0)),
    (indexed!(WeekdayMonday, true), "7", number!(Weekday, 6)),
    (
        padded!(WeekNumberIso, Zero),
        "01",
        number!(IsoWeekNumber, 1),
    ),
    (
        padded!(WeekNumberIso, Zero),
        "53",
        number!(IsoWeekNumber, 53),
    ),
    (
        padded!(WeekNumberIso, Space),
        " 1",
        number!(IsoWeekNumber, 1),
    ),
    (padded!(WeekNumberIso, None), "1", number!(IsoWeekNumber, 1)),
    (
        padded!(WeekNumberSunday, Zero),
        "00",
        number!(SundayWeekNumber, 0),
    ),
    (
        padded!(WeekNumberSunday, Zero),
        "53",
        number!(SundayWeekNumber, 53),
    ),
    (
        padded!(WeekNumberSunday, Space),
        " 0",
        number!(SundayWeekNumber, 0),
    ),
    (
        padded!(WeekNumberSunday, None),
        "0",
        number!(SundayWeekNumber, 0),
    ),
    (
        padded!(WeekNumberMonday, Zero),
        "00",
        number!(MondayWeekNumber, 0),
    ),
    (
        padded!(WeekNumberMonday, Zero),
        "53",
        number!(MondayWeekNumber, 53),
    ),
    (
        padded!(WeekNumberMonday, Space),
        " 0",
        number!(MondayWeekNumber, 0),
    ),
    (
        padded!(WeekNumberMonday, None),
        "0",
        number!(MondayWeekNumber, 0),
    ),
    // Years.
    (
        signed!(CalendarYearFullExtendedRange, Zero),
        "-9999",
        number!(Year, -9999),
    ),
    (
        signed!(CalendarYearFullExtendedRange, Zero),
        "9999",
        number!(Year, 9999),
    ),
    (
        signed!(CalendarYearFullExtendedRange, Zero),
        "+009999",
        number!(Year, 9999),
    ),
    (
        signed!(CalendarYearFullExtendedRange, Space),
        "-   1",
        number!(Year, -1),
    ),
    (
        signed!(CalendarYearFullExtendedRange, None),
        "1",
        number!(Year, 1),
    ),
    (
        signed!(CalendarYearFullStandardRange, Zero),
        "-9999",
        number!(Year, -9999),
    ),
    (
        signed!(CalendarYearFullStandardRange, Zero),
        "+9999",
        number!(Year, 9999),
    ),
    (
        signed!(CalendarYearFullStandardRange, Space),
        "   1",
        number!(Year, 1),
    ),
    (
        signed!(CalendarYearFullStandardRange, None),
        "-1",
        number!(Year, -1),
    ),
    (
        signed!(IsoYearFullExtendedRange, Zero),
        "-9999",
        number!(IsoYear, -9999),
    ),
    (
        signed!(IsoYearFullExtendedRange, Zero),
        "+009999",
        number!(IsoYear, 9999),
    ),
    (
        signed!(IsoYearFullExtendedRange, Space),
        "   1",
        number!(IsoYear, 1),
    ),
    (
        signed!(IsoYearFullExtendedRange, None),
        "-1",
        number!(IsoYear, -1),
    ),
    (
        signed!(IsoYearFullStandardRange, Zero),
        "-9999",
        number!(IsoYear, -9999),
    ),
    (
        signed!(IsoYearFullStandardRange, Zero),
        "9999",
        number!(IsoYear, 9999),
    ),
    (
        signed!(IsoYearFullStandardRange, Space),
        "-   1",
        number!(IsoYear, -1),
    ),
    (
        signed!(IsoYearFullStandardRange, None),
        "1",
        number!(IsoYear, 1),
    ),
    // The last two digits of years.
    (
        padded!(CalendarYearLastTwo, Zero),
        "00",
        number!(YearLastTwo, 0),
    ),
    (
        padded!(CalendarYearLastTwo, Zero),
        "99",
        number!(YearLastTwo, 99),
    ),
    (
        padded!(CalendarYearLastTwo, Space),
        " 0",
        number!(YearLastTwo, 0),
    ),
    (
        padded!(CalendarYearLastTwo, None),
        "0",
        number!(YearLastTwo, 0),
    ),
    (
        padded!(IsoYearLastTwo, Zero),
        "00",
        number!(IsoYearLastTwo, 0),
    ),
    (
        padded!(IsoYearLastTwo, Zero),
        "99",
        number!(IsoYearLastTwo, 99),
    ),
    (
        padded!(IsoYearLastTwo, Space),
        " 0",
        number!(IsoYearLastTwo, 0),
    ),
    (
        padded!(IsoYearLastTwo, None),
        "0",
        number!(IsoYearLastTwo, 0),
    ),
    // Times.
    (padded!(Hour12, Zero), "01", number!(Hour12, 1)),
    (padded!(Hour12, Zero), "12", number!(Hour12, 12)),
    (padded!(Hour12, Space), " 1", number!(Hour12, 1)),
    (padded!(Hour12, None), "1", number!(Hour12, 1)),
    (padded!(Hour24, Zero), "00", number!(Hour24, 0)),
    (padded!(Hour24, Zero), "23", number!(Hour24, 23)),
    (padded!(Hour24, Space), " 0", number!(Hour24, 0)),
    (padded!(Hour24, None), "0", number!(Hour24, 0)),
    (padded!(Minute, Zero), "00", number!(Minute, 0)),
    (padded!(Minute, Zero), "59", number!(Minute, 59)),
    (padded!(Minute, Space), " 0", number!(Minute, 0)),
    (padded!(Minute, None), "0", number!(Minute, 0)),
    (padded!(Second, Zero), "00", number!(Second, 0)),
    (padded!(Second, Zero), "60", number!(Second, 60)),
    (padded!(Second, Space), " 0", number!(Second, 0)),
    (padded!(Second, None), "0", number!(Second, 0)),
    (Kind::Period(true, true), "AM", number!(Hour12IsPm, 0)),
    (Kind::Period(true, true), "PM", number!(Hour12IsPm, 1)),
    (Kind::Period(false, true), "pm", number!(Hour12IsPm, 1)),
    (Kind::Period(true, false), "aM", number!(Hour12IsPm, 0)),
    (
        Kind::Subsecond(SubsecondDigits::One),
        "5",
        number!(Subsecond, 500_000_000),
    ),
    (
        Kind::Subsecond(SubsecondDigits::Nine),
        "000000000",
        number!(Subsecond, 0),
    ),
    (
        Kind::Subsecond(SubsecondDigits::Nine),
        "999999999",
        number!(Subsecond, 999_999_999),
    ),
    (
        Kind::Subsecond(SubsecondDigits::OneOrMore),
        "1234567899",
        number!(Subsecond, 123_456_789),
    ),
    // Offsets.
    (signed!(OffsetHour, Zero), "-25", Fields::West(-25)),
    (signed!(OffsetHour, Zero), "+25", number!(OffsetHour, 25)),
    (signed!(OffsetHour, Space), "- 5", Fields::West(-5)),
    (signed!(OffsetHour, None), "5", number!(OffsetHour, 5)),
    (
        padded!(OffsetMinute, Zero),
        "00",
        number!(OffsetMinuteSigned, 0),
    ),
    (
        padded!(OffsetMinute, Zero),
        "59",
        number!(OffsetMinuteSigned, 59),
    ),
    (
        padded!(OffsetMinute, Space),
        " 0",
        number!(OffsetMinuteSigned, 0),
    ),
    (
        padded!(OffsetMinute, None),
        "0",
        number!(OffsetMinuteSigned, 0),
    ),
    (
        padded!(OffsetSecond, Zero),
        "00",
        number!(OffsetSecondSigned, 0),
    ),
    (
        padded!(OffsetSecond, Zero),
        "59",
        number!(OffsetSecondSigned, 59),
    ),
    (
        padded!(OffsetSecond, Space),
        " 0",
        number!(OffsetSecondSigned, 0),
    ),
    (
        padded!(OffsetSecond, None),
        "0",
        number!(OffsetSecondSigned, 0),
    ),
    // Calendar centuries.
    (
        signed!(CalendarYearCenturyExtendedRange, Zero),
        "-99",
        century!(-99, true),
    ),
    (
        signed!(CalendarYearCenturyExtendedRange, Zero),
        "+0099",
        century!(99, false),
    ),
    (
        signed!(CalendarYearCenturyExtendedRange, Space),
        "+ 9",
        century!(9, false),
    ),
    (
        signed!(CalendarYearCenturyExtendedRange, None),
        "-0",
        century!(0, true),
    ),
    (
        signed!(CalendarYearCenturyStandardRange, Zero),
        "-99",
        century!(-99, true),
    ),
    (
        signed!(CalendarYearCenturyStandardRange, Zero),
        "99",
        century!(99, false),
    ),
    (
        signed!(CalendarYearCenturyStandardRange, Zero),
        "-00",
        century!(0, true),
    ),
    (
        signed!(CalendarYearCenturyStandardRange, Space),
        "- 9",
        century!(-9, true),
    ),
    (
        signed!(CalendarYearCenturyStandardRange, None),
        "9",
        century!(9, false),
    ),
    // ISO 8601 centuries.
    (
        signed!(IsoYearCenturyExtendedRange, Zero),
        "-0099",
        iso_century!(-99, true),
    ),
    (
        signed!(IsoYearCenturyExtendedRange, Zero),
        "99",
        iso_century!(99, false),
    ),
    (
        signed!(IsoYearCenturyExtendedRange, Space),
        "+ 9",
        iso_century!(9, false),
    ),
    (
        signed!(IsoYearCenturyExtendedRange, None),
        "-0",
        iso_century!(0, true),
    ),
    (
        signed!(IsoYearCenturyStandardRange, Zero),
        "-99",
        iso_century!(-99, true),
    ),
    (
        signed!(IsoYearCenturyStandardRange, Zero),
        "+99",
        iso_century!(99, false),
    ),
    (
        signed!(IsoYearCenturyStandardRange, Space),
        "- 9",
        iso_century!(-9, true),
    ),
    (
        signed!(IsoYearCenturyStandardRange, None),
        "0",
        iso_century!(0, false),
    ),
    // Timestamps.
    (
        timestamp!(UnixTimestampSecond),
        "-377705116800",
        number!(UnixTimestampNanos, -377_705_116_800_000_000_000),
    ),
    (
        timestamp!(UnixTimestampSecond),
        "253402300799",
        number!(UnixTimestampNanos, 253_402_300_799_000_000_000),
    ),
    (
        timestamp!(UnixTimestampSecond),
        "+5",
        number!(UnixTimestampNanos, 5_000_000_000),
    ),
    (
        timestamp!(UnixTimestampMillisecond),
        "-377705116800000",
        number!(UnixTimestampNanos, -377_705_116_800_000_000_000),
    ),
    (
        timestamp!(UnixTimestampMillisecond),
        "253402300799999",
        number!(UnixTimestampNanos, 253_402_300_799_999_000_000),
    ),
    (
        timestamp!(UnixTimestampMicrosecond),
        "-377705116800000000",
        number!(UnixTimestampNanos, -377_705_116_800_000_000_000),
    ),
    (
        timestamp!(UnixTimestampMicrosecond),
        "253402300799999999",
        number!(UnixTimestampNanos, 253_402_300_799_999_999_000),
    ),
    (
        timestamp!(UnixTimestampNanosecond),
        "-377705116800000000000",
        number!(UnixTimestampNanos, -377_705_116_800_000_000_000),
    ),
    (
        timestamp!(UnixTimestampNanosecond),
        "253402300799999999999",
        number!(UnixTimestampNanos, 253_402_300_799_999_999_999),
    ),
];

#[test]
fn components_at_the_ends(rt: HostRuntime) {
    for (kind, text, fields) in &ENDS {
        assert!(rt; reads(kind, text, *fields), "{text}");
    }
}

const OFFSET_MINUTE: Component = Component::OffsetMinute(modifier::OffsetMinute {
    padding: Padding::Zero,
});

// Whether a minute without a sign takes the sign of the hour before it.
fn reads_half_an_hour_west<I: AnyFormatItem>(items: &[I]) -> bool {
    let mut parsed = Parsed::new();
    parsed.parse_items(b"-0030", items) == Ok(b"".as_slice())
        && parsed.offset_hour() == Some(0)
        && parsed.offset_minute_signed() == Some(-30)
}

#[test]
fn components_of_offsets_behind_a_sign(rt: HostRuntime) {
    let borrowed = [
        BorrowedFormatItem::Component(OFFSET_HOUR),
        BorrowedFormatItem::Component(OFFSET_MINUTE),
    ];
    assert!(rt; reads_half_an_hour_west(&borrowed));
    let owned = [
        OwnedFormatItem::Component(OFFSET_HOUR),
        OwnedFormatItem::Component(OFFSET_MINUTE),
    ];
    assert!(rt; reads_half_an_hour_west(&owned));
}

// Years of more than four digits.
mod wide_years {
    use super::super::{Expected, Fields, NOTHING, Row, item_matches, reads};
    use crate::fields::Field;
    use crate::items::kinds::{Kind, Signed, Timestamp};
    use time_components::{BorrowedFormatItem, Component, Padding, modifier};
    use time_record::Parsed;

    static COMPONENTS: [Row; 12] = [
        (
            signed!(CalendarYearFullExtendedRange, Zero),
            "+012345",
            number!(Year, 12_345),
        ),
        (
            signed!(CalendarYearFullExtendedRange, Zero),
            "-999999",
            number!(Year, -999_999),
        ),
        (
            signed!(IsoYearFullExtendedRange, Zero),
            "-010000",
            number!(IsoYear, -10_000),
        ),
        (
            signed!(IsoYearFullExtendedRange, Zero),
            "+999999",
            number!(IsoYear, 999_999),
        ),
        (
            signed!(CalendarYearCenturyExtendedRange, Zero),
            "+0100",
            number!(YearCentury, 100),
        ),
        (
            signed!(CalendarYearCenturyExtendedRange, Zero),
            "+9999",
            number!(YearCentury, 9999),
        ),
        (
            signed!(IsoYearCenturyExtendedRange, Zero),
            "-0100",
            number!(IsoYearCentury, -100),
        ),
        (
            signed!(IsoYearCenturyExtendedRange, Zero),
            "-9999",
            number!(IsoYearCentury, -9999),
        ),
        (
            timestamp!(UnixTimestampSecond),
            "31494784780799",
            number!(UnixTimestampNanos, 31_494_784_780_799_000_000_000),
        ),
        (
            timestamp!(UnixTimestampSecond),
            "-31619087596800",
            number!(UnixTimestampNanos, -31_619_087_596_800_000_000_000),
        ),
        (
            timestamp!(UnixTimestampNanosecond),
            "253402300800000000000",
            number!(UnixTimestampNanos, 253_402_300_800_000_000_000),
        ),
        (
            timestamp!(UnixTimestampNanosecond),
            "31494784780799999999999",
            number!(UnixTimestampNanos, 31_494_784_780_799_999_999_999),
        ),
    ];

    #[test]
    fn wide_years(rt: HostRuntime) {
        for (kind, text, fields) in &COMPONENTS {
            assert!(rt; reads(kind, text, *fields), "{text}");
        }
        let built = Parsed::new().with_unix_timestamp_nanos(253_402_300_800_000_000_000);
        assert!(rt; built.is_some());
    }

    const CHOICE: [BorrowedFormatItem<'static>; 2] = [
        BorrowedFormatItem::Component(Component::CalendarYearFullExtendedRange(
            modifier::CalendarYearFullExtendedRange {
                padding: Padding::Zero,
                sign_is_mandatory: false,
            },
        )),
        BorrowedFormatItem::StringLiteral("+012345"),
    ];

    static IN_A_CHOICE: Expected = read!(b"", number!(Year, 12_345));

    // The first alternative, a year, parses five digits, before the second, a literal of these bytes.
    #[test]
    fn wide_years_in_choices(rt: HostRuntime) {
        let choice = BorrowedFormatItem::First(&CHOICE);
        assert!(rt; item_matches(&choice, "+012345", &IN_A_CHOICE));
    }
}
