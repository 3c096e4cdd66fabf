//! Defaults with a component that the text leaves unchanged.
use time_parsing::{Iso8601, Parsable, Rfc2822, Rfc3339};
use time_readers::{BorrowedFormatItem, Component, Padding, SubsecondDigits, modifier};
use time_record::Parsed;
use time_values::Month;
use time_values::error::Parse;

// The hour, the minute, the second and the nanosecond.
type Clock = (u8, u8, u8, u32);

// The item of a component with these modifiers.
macro_rules! item {
    ($name:ident, $($field:ident: $value:expr),*) => {
        BorrowedFormatItem::Component(Component::$name(modifier::$name { $($field: $value),* }))
    };
}

// A point, and a fraction of one or more digits.
const FRACTION_ITEMS: [BorrowedFormatItem<'static>; 2] = [
    BorrowedFormatItem::StringLiteral("."),
    item!(Subsecond, digits: SubsecondDigits::OneOrMore),
];

// A colon and a second, such as `:09`, with an optional fraction.
fn second_items<'a>(fraction: &'a BorrowedFormatItem<'a>) -> [BorrowedFormatItem<'a>; 3] {
    [
        BorrowedFormatItem::StringLiteral(":"),
        item!(Second, padding: Padding::Zero),
        BorrowedFormatItem::Optional(fraction),
    ]
}

// `1:05 PM`, with an optional second before the space.
fn clock_items<'a>(seconds: &'a BorrowedFormatItem<'a>) -> [BorrowedFormatItem<'a>; 6] {
    [
        item!(Hour12, padding: Padding::None),
        BorrowedFormatItem::StringLiteral(":"),
        item!(Minute, padding: Padding::Zero),
        BorrowedFormatItem::Optional(seconds),
        BorrowedFormatItem::StringLiteral(" "),
        item!(Period, is_uppercase: true, case_sensitive: false),
    ]
}

// The time of the text by the format, over the defaults, or the error.
fn time_by<F: Parsable>(format: &F, text: &[u8], defaults: Option<Parsed>) -> Result<Clock, Parse> {
    Ok(format.parse_time(text, defaults)?.as_hms_nano())
}

// The time of a text such as `1:05:09.25 PM`, in which the second and its fraction are optional, over the defaults, or
// the error.
fn clock(text: &[u8], defaults: Option<Parsed>) -> Result<Clock, Parse> {
    let fraction = BorrowedFormatItem::Compound(&FRACTION_ITEMS);
    let seconds = second_items(&fraction);
    let seconds = BorrowedFormatItem::Compound(&seconds);
    let items = clock_items(&seconds);
    time_by(&BorrowedFormatItem::Compound(&items), text, defaults)
}

// A text, and its offset in hours, minutes and seconds if the default second of an offset is 10.
static OFFSETS: [(&[u8], (i8, i8, i8)); 2] = [
    (b"2021-01-02T03:04:05-00:30", (0, -30, -10)),
    (b"2021-01-02T03:04:05Z", (0, 0, 0)),
];

// The hours, minutes and seconds of the offset of a text of RFC 3339, if the default second of an offset is 10; `None`
// if the text is rejected.
fn offset_over_ten_seconds(text: &[u8]) -> Option<(i8, i8, i8)> {
    let defaults = Parsed::new().with_offset_second_signed(10)?;
    let offset = Rfc3339.parse_offset(text, Some(defaults)).ok()?;
    Some(offset.as_hms())
}

#[test]
fn stale_defaults(rt: HostRuntime) {
    for (text, expected) in &OFFSETS {
        assert!(rt;
            offset_over_ten_seconds(text) == Some(*expected),
            "{text:?}"
        );
    }
}

// A default that the text keeps. The one of a subsecond is in nanoseconds.
enum Kept {
    Subsecond(u32),
    Second(u8),
    Hour(u8),
}

// The record with that default alone; `None` if it is out of its range.
fn record(kept: &Kept) -> Option<Parsed> {
    match kept {
        Kept::Subsecond(nanosecond) => Parsed::new().with_subsecond(*nanosecond),
        Kept::Second(second) => Parsed::new().with_second(*second),
        Kept::Hour(hour) => Parsed::new().with_hour_24(*hour),
    }
}

// The format of a text.
enum Format {
    Rfc2822,
    Rfc3339,
    Iso8601,
    Clock,
}

// A format, a text, the default that it keeps, and the time.
static TIMES: [(Format, &[u8], Kept, Clock); 4] = [
    (
        Format::Rfc3339,
        b"2021-01-02T03:04:05Z",
        Kept::Subsecond(7),
        (3, 4, 5, 7),
    ),
    (Format::Iso8601, b"03:04", Kept::Subsecond(7), (3, 4, 0, 0)),
    (
        Format::Rfc2822,
        b"02 Jan 2021 03:04 GMT",
        Kept::Second(9),
        (3, 4, 9, 0),
    ),
    (Format::Clock, b"3:04 PM", Kept::Hour(1), (1, 4, 0, 0)),
];

// The time of the text by that format, over the defaults, or the error.
fn timed(format: &Format, text: &[u8], defaults: Option<Parsed>) -> Result<Clock, Parse> {
    match format {
        Format::Rfc2822 => time_by(&Rfc2822, text, defaults),
        Format::Rfc3339 => time_by(&Rfc3339, text, defaults),
        Format::Iso8601 => time_by(&Iso8601, text, defaults),
        Format::Clock => clock(text, defaults),
    }
}

#[test]
fn stale_defaults_of_times(rt: HostRuntime) {
    for (format, text, kept, expected) in &TIMES {
        let defaults = record(kept);
        assert!(rt;
            defaults.is_some() && timed(format, text, defaults) == Ok(*expected),
            "{text:?}"
        );
    }
}

// The text has no second, and the second of the defaults is a leap second.
#[test]
fn stale_defaults_of_leap_seconds(rt: HostRuntime) {
    let leap = Parsed::new().with_second(60);
    let answer = Rfc2822.parse_utc_date_time(b"31 Dec 2016 23:59 GMT", leap);
    let found = match answer {
        Ok(moment) => Some((
            moment.date().to_calendar_date(),
            moment.time().as_hms_nano(),
        )),
        Err(_) => None,
    };
    assert!(rt; found == Some(((2016, Month::December, 31), (23, 59, 59, 999_999_999))));
}
