//! Descriptions of the text of a date, a time or an offset.
use crate::modifier;
use std::fmt::{self, Debug};

/// A part of a date, a time or an offset, a Unix timestamp, skipped bytes, or the end of the input, with modifiers.
#[derive(Clone, Copy, Debug, PartialEq, Eq)]
pub enum Component {
    /// Day of the month, from 1.
    Day(modifier::Day),
    /// First three letters of a month's name.
    MonthShort(modifier::MonthShort),
    /// Whole name of a month.
    MonthLong(modifier::MonthLong),
    /// Number of a month, from 1 for January.
    MonthNumerical(modifier::MonthNumerical),
    /// Day of the year, from 1 for January 1.
    Ordinal(modifier::Ordinal),
    /// First three letters of a weekday's name.
    WeekdayShort(modifier::WeekdayShort),
    /// Whole name of a weekday.
    WeekdayLong(modifier::WeekdayLong),
    /// Number of a weekday, one digit, counted from Sunday.
    WeekdaySunday(modifier::WeekdaySunday),
    /// Number of a weekday, one digit, counted from Monday.
    WeekdayMonday(modifier::WeekdayMonday),
    /// Week of the ISO week date.
    WeekNumberIso(modifier::WeekNumberIso),
    /// Week of the year. Week 1 begins on the first Sunday, and the days before are week 0.
    WeekNumberSunday(modifier::WeekNumberSunday),
    /// Week of the year. Week 1 begins on the first Monday, and the days before are week 0.
    WeekNumberMonday(modifier::WeekNumberMonday),
    /// Calendar year: four digits, or a sign and four to six digits.
    CalendarYearFullExtendedRange(modifier::CalendarYearFullExtendedRange),
    /// Calendar year: four digits, with or without a sign.
    CalendarYearFullStandardRange(modifier::CalendarYearFullStandardRange),
    /// ISO week year: four digits, or a sign and four to six digits.
    IsoYearFullExtendedRange(modifier::IsoYearFullExtendedRange),
    /// ISO week year: four digits, with or without a sign.
    IsoYearFullStandardRange(modifier::IsoYearFullStandardRange),
    /// Calendar year without its last two digits: one or two digits, or a sign and two to four digits.
    CalendarYearCenturyExtendedRange(modifier::CalendarYearCenturyExtendedRange),
    /// Calendar year without its last two digits: one or two digits, or a sign and two digits.
    CalendarYearCenturyStandardRange(modifier::CalendarYearCenturyStandardRange),
    /// ISO week year without its last two digits: one or two digits, or a sign and two to four digits.
    IsoYearCenturyExtendedRange(modifier::IsoYearCenturyExtendedRange),
    /// ISO week year without its last two digits: one or two digits, or a sign and two digits.
    IsoYearCenturyStandardRange(modifier::IsoYearCenturyStandardRange),
    /// Last two digits of the calendar year.
    CalendarYearLastTwo(modifier::CalendarYearLastTwo),
    /// Last two digits of the ISO week year.
    IsoYearLastTwo(modifier::IsoYearLastTwo),
    /// Hour of a 12-hour clock.
    Hour12(modifier::Hour12),
    /// Hour of a 24-hour clock.
    Hour24(modifier::Hour24),
    /// Minute of the hour.
    Minute(modifier::Minute),
    /// Half of the day, `AM` or `PM`, or `am` or `pm`.
    Period(modifier::Period),
    /// Second of the minute.
    Second(modifier::Second),
    /// Fraction of the second: its digits, without a separator.
    Subsecond(modifier::Subsecond),
    /// Hours of the UTC offset, with or without a sign.
    OffsetHour(modifier::OffsetHour),
    /// Minutes of the UTC offset, without a sign.
    OffsetMinute(modifier::OffsetMinute),
    /// Seconds of the UTC offset, without a sign.
    OffsetSecond(modifier::OffsetSecond),
    /// A number of bytes that are skipped, whatever they are.
    Ignore(modifier::Ignore),
    /// Seconds since 1970-01-01T00:00:00Z: 1 to 14 digits, with or without a sign.
    UnixTimestampSecond(modifier::UnixTimestampSecond),
    /// Milliseconds since 1970-01-01T00:00:00Z: 1 to 17 digits, with or without a sign.
    UnixTimestampMillisecond(modifier::UnixTimestampMillisecond),
    /// Microseconds since 1970-01-01T00:00:00Z: 1 to 20 digits, with or without a sign.
    UnixTimestampMicrosecond(modifier::UnixTimestampMicrosecond),
    /// Nanoseconds since 1970-01-01T00:00:00Z: 1 to 23 digits, with or without a sign.
    UnixTimestampNanosecond(modifier::UnixTimestampNanosecond),
    /// End of the input.
    End(modifier::End),
}

/// Half of the day: before noon, or from noon on.
#[derive(Clone, Copy, Debug, PartialEq, Eq)]
pub enum Period {
    /// Before noon.
    Am,
    /// From noon on.
    Pm,
}

/// An item of a format description, with borrowed parts. Bytes skipped by `Ignore` may end inside a UTF-8 character.
#[derive(Clone, Copy)]
pub enum BorrowedFormatItem<'a> {
    /// Literal bytes.
    Literal(&'a [u8]),
    /// Literal text.
    StringLiteral(&'a str),
    /// A part of a date, a time or an offset.
    Component(Component),
    /// Items in sequence.
    Compound(&'a [Self]),
    /// An optional item.
    Optional(&'a Self),
    /// Alternatives: the first item that matches.
    First(&'a [Self]),
}

/// A borrowed item of a description: a literal, `item!("-")`; a component with its default modifiers, `item!(Day)`; or
/// one with other modifiers, `item!(Hour24 { padding: Padding::None })`. An `Ignore`, which has no default modifiers,
/// can't be written so.
#[macro_export]
macro_rules! item {
    ($text:literal) => {
        $crate::BorrowedFormatItem::StringLiteral($text)
    };
    ($name:ident) => {
        $crate::BorrowedFormatItem::Component($crate::Component::$name(
            $crate::modifier::$name::default(),
        ))
    };
    ($name:ident { $($field:ident: $value:expr),+ }) => {
        $crate::BorrowedFormatItem::Component($crate::Component::$name($crate::modifier::$name {
            $($field: $value,)+
            ..$crate::modifier::$name::default()
        }))
    };
}

/// An item of a format description, with owned parts. Bytes skipped by `Ignore` may end inside a UTF-8 character.
#[derive(Debug, Drop)]
pub enum OwnedFormatItem {
    /// Literal bytes.
    Literal(Vec<u8>),
    /// Literal text.
    StringLiteral(String),
    /// A part of a date, a time or an offset.
    Component(Component),
    /// Items in sequence.
    Compound(Vec<Self>),
    /// An optional item.
    Optional(Box<Self>),
    /// Alternatives: the first item that matches.
    First(Vec<Self>),
}

/// A format description of version 3, in the numbering of the crate `time`. Its component `Ignore` matches only if the
/// skipped bytes end between UTF-8 characters: the byte after them, if any, is no continuation byte, 0x80 to 0xBF.
#[derive(Drop)]
pub struct FormatDescriptionV3<'a> {
    /// The item that it consists of, such as a sequence of items.
    pub inner: FormatDescriptionV3Inner<'a>,
}

/// An item of a format description of version 3, with borrowed or owned parts.
#[derive(Drop)]
pub enum FormatDescriptionV3Inner<'a> {
    /// A part of a date, a time or an offset.
    Component(Component),
    /// Literal text.
    BorrowedLiteral(&'a str),
    /// Items in sequence.
    BorrowedCompound(&'a [Self]),
    /// An optional item.
    BorrowedOptional {
        /// Whether a formatter should write the item. This crate only prints the flag, by `Debug`.
        format: bool,
        /// The item.
        item: &'a Self,
    },
    /// Alternatives: the first item that matches.
    BorrowedFirst(&'a [Self]),
    /// Literal text.
    OwnedLiteral(String),
    /// Items in sequence.
    OwnedCompound(Vec<Self>),
    /// An optional item.
    OwnedOptional {
        /// Whether a formatter should write the item. This crate only prints the flag, by `Debug`.
        format: bool,
        /// The item.
        item: Box<Self>,
    },
    /// Alternatives: the first item that matches.
    OwnedFirst(Vec<Self>),
}

impl Debug for BorrowedFormatItem<'_> {
    #[cycle(debug_borrowed)]
    fn fmt<W: fmt::Write>(&self, f: &mut fmt::Formatter<W>) -> fmt::Result {
        match self {
            BorrowedFormatItem::Literal(text) => write_field("Literal", text, f),
            BorrowedFormatItem::StringLiteral(text) => write_field("StringLiteral", text, f),
            BorrowedFormatItem::Component(component) => write_field("Component", component, f),
            BorrowedFormatItem::Compound(items) => write_borrowed_list("Compound", items, f),
            BorrowedFormatItem::Optional(item) => write_borrowed_optional(item, f),
            BorrowedFormatItem::First(items) => write_borrowed_list("First", items, f),
        }
    }
}

// Writes a variant whose one field is no item, as a derived `Debug` would: `Name(value)`.
fn write_field<T: Debug, W: fmt::Write>(
    name: &str,
    value: &T,
    f: &mut fmt::Formatter<W>,
) -> fmt::Result {
    f.debug_tuple(name).field(value).finish()
}

// Writes the variant of an optional item, as a derived `Debug` would without `#`: `Optional(item)`.
#[cycle(debug_borrowed)]
fn write_borrowed_optional<W: fmt::Write>(
    item: &BorrowedFormatItem<'_>,
    f: &mut fmt::Formatter<W>,
) -> fmt::Result {
    f.write_str("Optional(")?;
    item.fmt(f)?;
    f.write_str(")")
}

// Writes a variant that has a list of items, as a derived `Debug` would without `#`: `Name([item, item])`.
#[cycle(debug_borrowed)]
fn write_borrowed_list<W: fmt::Write>(
    name: &str,
    items: &[BorrowedFormatItem<'_>],
    f: &mut fmt::Formatter<W>,
) -> fmt::Result {
    f.write_str(name)?;
    f.write_str("([")?;
    for (index, item) in items.iter().enumerate() {
        if index > 0 {
            f.write_str(", ")?;
        }
        item.fmt(f)?;
    }
    f.write_str("])")
}

impl Debug for FormatDescriptionV3<'_> {
    fn fmt<W: fmt::Write>(&self, f: &mut fmt::Formatter<W>) -> fmt::Result {
        f.debug_struct("FormatDescriptionV3")
            .field("inner", &self.inner)
            .finish()
    }
}

impl Debug for FormatDescriptionV3Inner<'_> {
    #[cycle(debug_v3)]
    fn fmt<W: fmt::Write>(&self, f: &mut fmt::Formatter<W>) -> fmt::Result {
        match *self {
            FormatDescriptionV3Inner::Component(ref component) => {
                write_field("Component", component, f)
            }
            FormatDescriptionV3Inner::BorrowedLiteral(ref text) => {
                write_field("BorrowedLiteral", text, f)
            }
            FormatDescriptionV3Inner::BorrowedCompound(items) => {
                write_v3_list("BorrowedCompound", items, f)
            }
            FormatDescriptionV3Inner::BorrowedOptional { format, item } => {
                write_v3_optional("BorrowedOptional", format, item, f)
            }
            FormatDescriptionV3Inner::BorrowedFirst(items) => {
                write_v3_list("BorrowedFirst", items, f)
            }
            FormatDescriptionV3Inner::OwnedLiteral(ref text) => {
                write_field("OwnedLiteral", text, f)
            }
            FormatDescriptionV3Inner::OwnedCompound(ref items) => {
                write_v3_list("OwnedCompound", items.as_slice(), f)
            }
            FormatDescriptionV3Inner::OwnedOptional { format, ref item } => {
                write_v3_optional("OwnedOptional", format, item, f)
            }
            FormatDescriptionV3Inner::OwnedFirst(ref items) => {
                write_v3_list("OwnedFirst", items.as_slice(), f)
            }
        }
    }
}

// Writes a variant that has a list of items, as a derived `Debug` would without `#`: `Name([item, item])`.
#[cycle(debug_v3)]
fn write_v3_list<W: fmt::Write>(
    name: &str,
    items: &[FormatDescriptionV3Inner<'_>],
    f: &mut fmt::Formatter<W>,
) -> fmt::Result {
    f.write_str(name)?;
    f.write_str("([")?;
    for (index, item) in items.iter().enumerate() {
        if index > 0 {
            f.write_str(", ")?;
        }
        item.fmt(f)?;
    }
    f.write_str("])")
}

// Writes a variant of an optional item, as a derived `Debug` would without `#`: `Name { format: true, item: .. }`.
#[cycle(debug_v3)]
fn write_v3_optional<W: fmt::Write>(
    name: &str,
    format: bool,
    item: &FormatDescriptionV3Inner<'_>,
    f: &mut fmt::Formatter<W>,
) -> fmt::Result {
    write!(f, "{name} {{ format: {format}, item: ")?;
    item.fmt(f)?;
    f.write_str(" }")
}
