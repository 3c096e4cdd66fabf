//! The descriptions that have a name as a format of `time_bench`.

use time_readers::{
    BorrowedFormatItem, Component, FormatDescriptionV3, FormatDescriptionV3Inner, Padding,
    SubsecondDigits, modifier,
};

// The item of a component with these modifiers.
macro_rules! item {
    ($name:ident, $($field:ident: $value:expr),*) => {
        BorrowedFormatItem::Component(Component::$name(modifier::$name { $($field: $value),* }))
    };
}

// A year of four digits, with an optional sign.
const YEAR: BorrowedFormatItem<'static> =
    item!(CalendarYearFullStandardRange, padding: Padding::Zero, sign_is_mandatory: false);

// A second of two digits.
const SECOND: BorrowedFormatItem<'static> = item!(Second, padding: Padding::Zero);

// A minute of two digits.
const MINUTE: BorrowedFormatItem<'static> = item!(Minute, padding: Padding::Zero);

/// The items of a date, as `2021-03-04`, with an optional sign before the year.
pub const DATE_ITEMS: [BorrowedFormatItem<'static>; 5] = [
    YEAR,
    BorrowedFormatItem::StringLiteral("-"),
    item!(MonthNumerical, padding: Padding::Zero),
    BorrowedFormatItem::StringLiteral("-"),
    item!(Day, padding: Padding::Zero),
];

/// The items of a date, time and offset, as `2021-01-02 03:04:05 -00:30`.
pub const DATE_TIME_ITEMS: [BorrowedFormatItem<'static>; 15] = [
    YEAR,
    BorrowedFormatItem::StringLiteral("-"),
    item!(MonthNumerical, padding: Padding::Zero),
    BorrowedFormatItem::StringLiteral("-"),
    item!(Day, padding: Padding::Zero),
    BorrowedFormatItem::StringLiteral(" "),
    item!(Hour24, padding: Padding::Zero),
    BorrowedFormatItem::StringLiteral(":"),
    MINUTE,
    BorrowedFormatItem::StringLiteral(":"),
    SECOND,
    BorrowedFormatItem::StringLiteral(" "),
    item!(OffsetHour, padding: Padding::Zero, sign_is_mandatory: true),
    BorrowedFormatItem::StringLiteral(":"),
    item!(OffsetMinute, padding: Padding::Zero),
];

/// The items of a year and a day of the year, as `2020-366`.
pub const ORDINAL_ITEMS: [BorrowedFormatItem<'static>; 3] = [
    YEAR,
    BorrowedFormatItem::StringLiteral("-"),
    item!(Ordinal, padding: Padding::Zero),
];

/// The items of a dot and the 1 to 32 digits of a fraction, as `.25`. Those after the ninth don't change the value.
pub const FRACTION_ITEMS: [BorrowedFormatItem<'static>; 2] = [
    BorrowedFormatItem::StringLiteral("."),
    item!(Subsecond, digits: SubsecondDigits::OneOrMore),
];

/// The items of a colon and a second of two digits, as `:09`, and then `fraction`, which is made optional.
pub fn second_items<'a>(fraction: &'a BorrowedFormatItem<'a>) -> [BorrowedFormatItem<'a>; 3] {
    [
        BorrowedFormatItem::StringLiteral(":"),
        SECOND,
        BorrowedFormatItem::Optional(fraction),
    ]
}

/// The items of a time such as `1:05 PM`, with `seconds`, which is made optional, before the space. The hour has one or
/// two digits, and `AM` or `PM` may be in any case.
pub fn clock_items<'a>(seconds: &'a BorrowedFormatItem<'a>) -> [BorrowedFormatItem<'a>; 6] {
    [
        item!(Hour12, padding: Padding::None),
        BorrowedFormatItem::StringLiteral(":"),
        MINUTE,
        BorrowedFormatItem::Optional(seconds),
        BorrowedFormatItem::StringLiteral(" "),
        item!(Period, is_uppercase: true, case_sensitive: false),
    ]
}

/// A description of version 3: the whole seconds since 1970-01-01T00:00:00Z, with an optional sign.
pub const UNIX: FormatDescriptionV3<'static> = FormatDescriptionV3 {
    inner: FormatDescriptionV3Inner::Component(Component::UnixTimestampSecond(
        modifier::UnixTimestampSecond {
            sign_is_mandatory: false,
        },
    )),
};
