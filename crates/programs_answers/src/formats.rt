//! The formats and targets that a line may name.
ghost use Rattle.std.specs.Prelude.{◌≡◌, map, take, drop};
ghost use Rattle.time_components.specs.Tree.{borrowed_shape, v3_shape, sequence, first_of, trees};
ghost use Rattle.programs_answers.specs.Formats as formats;

use time_readers::{
    BorrowedFormatItem, Component, FormatDescriptionV3, FormatDescriptionV3Inner, Padding,
    SubsecondDigits, modifier,
};

/// A format that a line or an argument may name: that of a standard, or one of four descriptions.
#[derive(Clone, Copy, Debug)]
pub enum Format {
    /// A date, time and offset of RFC 3339, section 5.6, as `1985-04-12T23:20:50.52Z`.
    Rfc3339,
    /// A date, time and offset of a mail, RFC 2822, section 3.3, as `Sat, 02 Jan 2021 03:04:05 +0000`.
    Rfc2822,
    /// A date of ISO 8601, which a time may follow; or else a time; or else an offset. An offset may follow a time, as
    /// in `2021-01-02T03:04:05,25-00:30`.
    Iso8601,
    /// A date, as `2021-03-04`, with a year of four digits and an optional sign before it.
    Ymd,
    /// A time on a clock of 12 hours, as `1:05:09.25 PM`; the second and its fraction are optional.
    Clock,
    /// Whole seconds since 1970-01-01T00:00:00Z, with an optional sign.
    Unix,
    /// A date, time and offset, as `2021-01-02 03:04:05 -00:30`, or a year and a day of the year, as `2020-366`.
    Local,
}

/// A target that a line or an argument may name: the type of value that a text is parsed for.
#[derive(Clone, Copy, Debug)]
pub enum Target {
    /// A date.
    Date,
    /// A time.
    Time,
    /// An offset from UTC.
    Offset,
    /// A date and time without an offset.
    Plain,
    /// A date and time in UTC.
    Utc,
    /// A date, time and offset.
    DateTime,
    /// A date, time and offset, always parsed into a record. By RFC 3339 and RFC 2822, `DateTime` isn't: errors differ.
    Staged,
    /// An instant, printed as nanoseconds since 1970-01-01T00:00:00Z.
    Timestamp,
}

// `Some` of the value after the first of these names that equals the bytes, or `None` if no name does.
macro_rules! value_named {
    ($bytes:expr, $($name:literal => $value:expr),+) => {
        $(if $bytes == $name.as_slice() { Some($value) } else)+ { None }
    };
}

/// The format with this name, as `rfc3339`: its variant's name in lower case. `None` for any other name.
pub fn find_format(name: &[u8]) -> Option<Format>
    ensures { result ≡ formats.format_named name.now }
{
    value_named!(
        name,
        b"rfc3339" => Format::Rfc3339,
        b"rfc2822" => Format::Rfc2822,
        b"iso8601" => Format::Iso8601,
        b"ymd" => Format::Ymd,
        b"clock" => Format::Clock,
        b"unix" => Format::Unix,
        b"local" => Format::Local
    )
}

/// The target with this name, as `datetime`: its variant's name in lower case. `None` for any other name.
pub fn find_target(name: &[u8]) -> Option<Target>
    ensures { result ≡ formats.target_named name.now }
{
    value_named!(
        name,
        b"date" => Target::Date,
        b"time" => Target::Time,
        b"offset" => Target::Offset,
        b"plain" => Target::Plain,
        b"utc" => Target::Utc,
        b"datetime" => Target::DateTime,
        b"staged" => Target::Staged,
        b"timestamp" => Target::Timestamp
    )
}

// The item of a component of a description: its kind, and the fields of its modifier.
macro_rules! item {
    ($name:ident, $($field:ident: $value:expr),*) => {
        BorrowedFormatItem::Component(Component::$name(modifier::$name { $($field: $value),* }))
    };
}

/// An item that parses these items one after another. Without items it parses the empty text.
pub fn compound<'a>(items: &'a [BorrowedFormatItem<'a>]) -> BorrowedFormatItem<'a>
    ensures { borrowed_shape result ≡ sequence (trees (map borrowed_shape items.now)) }
{
    BorrowedFormatItem::Compound(items)
}

/// An item that tries these items in turn at the same place, and parses by the first that matches. Without items it
/// parses the empty text.
pub fn first<'a>(items: &'a [BorrowedFormatItem<'a>]) -> BorrowedFormatItem<'a>
    ensures { borrowed_shape result ≡ first_of (trees (map borrowed_shape items.now)) }
{
    BorrowedFormatItem::First(items)
}

// A year of four digits, with an optional sign.
fn year() -> BorrowedFormatItem<'static>
    ensures { borrowed_shape result ≡ formats.year }
{
    item!(CalendarYearFullStandardRange, padding: Padding::Zero, sign_is_mandatory: false)
}

/// The items of a date such as `2021-03-04`: a year of four digits with an optional sign, and a month and a day of two
/// digits.
pub fn date_items() -> [BorrowedFormatItem<'static>; 5]
    ensures { map borrowed_shape result ≡ formats.date_parts }
{
    [
        year(),
        BorrowedFormatItem::StringLiteral("-"),
        item!(MonthNumerical, padding: Padding::Zero),
        BorrowedFormatItem::StringLiteral("-"),
        item!(Day, padding: Padding::Zero),
    ]
}

/// The fifteen items of a date, time and offset such as `2021-01-02 03:04:05 -00:30`, and then the three items of a
/// year and a day of the year such as `2020-366`.
pub fn local_items() -> [BorrowedFormatItem<'static>; 18]
    ensures date_time { map borrowed_shape (take 15 result) ≡ formats.date_time_parts }
    ensures ordinal { map borrowed_shape (drop 15 result) ≡ formats.ordinal_parts }
{
    let [year, hyphen, month, _, day] = date_items();
    [
        year,
        hyphen,
        month,
        hyphen,
        day,
        BorrowedFormatItem::StringLiteral(" "),
        item!(Hour24, padding: Padding::Zero),
        BorrowedFormatItem::StringLiteral(":"),
        item!(Minute, padding: Padding::Zero),
        BorrowedFormatItem::StringLiteral(":"),
        item!(Second, padding: Padding::Zero),
        BorrowedFormatItem::StringLiteral(" "),
        item!(OffsetHour, padding: Padding::Zero, sign_is_mandatory: true),
        BorrowedFormatItem::StringLiteral(":"),
        item!(OffsetMinute, padding: Padding::Zero),
        year,
        hyphen,
        item!(Ordinal, padding: Padding::Zero),
    ]
}

/// The items of a dot and the 1 to 32 digits of a fraction, as `.25`. Those after the ninth don't change the value.
pub fn fraction_items() -> [BorrowedFormatItem<'static>; 2]
    ensures { map borrowed_shape result ≡ formats.fraction_parts }
{
    [
        BorrowedFormatItem::StringLiteral("."),
        item!(Subsecond, digits: SubsecondDigits::OneOrMore),
    ]
}

/// The items of a colon and a second of two digits, as `:09`, and then `fraction`, which is made optional.
pub fn second_items<'a>(fraction: &'a BorrowedFormatItem<'a>) -> [BorrowedFormatItem<'a>; 3]
    ensures { map borrowed_shape result ≡ formats.second_parts (borrowed_shape fraction.now) }
{
    [
        BorrowedFormatItem::StringLiteral(":"),
        item!(Second, padding: Padding::Zero),
        BorrowedFormatItem::Optional(fraction),
    ]
}

/// The items of a time such as `1:05 PM`, with `seconds`, which is made optional, before the space. The hour has one or
/// two digits, and `AM` or `PM` may be in any case.
pub fn clock_items<'a>(seconds: &'a BorrowedFormatItem<'a>) -> [BorrowedFormatItem<'a>; 6]
    ensures { map borrowed_shape result ≡ formats.clock_parts (borrowed_shape seconds.now) }
{
    [
        item!(Hour12, padding: Padding::None),
        BorrowedFormatItem::StringLiteral(":"),
        item!(Minute, padding: Padding::Zero),
        BorrowedFormatItem::Optional(seconds),
        BorrowedFormatItem::StringLiteral(" "),
        item!(Period, is_uppercase: true, case_sensitive: false),
    ]
}

/// A description of version 3: the whole seconds since 1970-01-01T00:00:00Z in decimal digits, with an optional sign.
pub fn unix() -> FormatDescriptionV3<'static>
    ensures { v3_shape result.inner ≡ formats.unix }
{
    FormatDescriptionV3 {
        inner: FormatDescriptionV3Inner::Component(Component::UnixTimestampSecond(
            modifier::UnixTimestampSecond {
                sign_is_mandatory: false,
            },
        )),
    }
}
