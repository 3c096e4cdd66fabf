//! Components and descriptions, parsed into a record.
use crate::fields::{Field, record_of};
use crate::same::same_record;
use kinds::{Cased, Indexed, Kind, Padded, Signed, Timestamp, component};
use std::alloc::Global;
use std::num::NonZero;
use time_components::{
    BorrowedFormatItem, Component, OwnedFormatItem, Padding, SubsecondDigits, TrailingInput,
    modifier,
};
use time_record::{AnyFormatItem, Parsed};
use time_values::error::ParseFromDescription;

macro_rules! padded {
    ($name:ident, $padding:ident) => {
        Kind::Padded(Padded::$name, Padding::$padding)
    };
}

macro_rules! signed {
    ($name:ident, $padding:ident) => {
        Kind::Signed(Signed::$name, Padding::$padding)
    };
}

macro_rules! timestamp {
    ($name:ident) => {
        Kind::Timestamp(Timestamp::$name)
    };
}

macro_rules! cased {
    ($name:ident, $case_sensitive:expr) => {
        Kind::Cased(Cased::$name, $case_sensitive)
    };
}

macro_rules! indexed {
    ($name:ident, $one_indexed:expr) => {
        Kind::Indexed(Indexed::$name, $one_indexed)
    };
}

// A text is parsed up to the rest, and the record has these fields afterwards.
macro_rules! read {
    ($rest:expr, $after:expr) => {
        Expected {
            before: NOTHING,
            answer: Ok($rest),
            after: $after,
        }
    };
}

// The record has this number alone.
macro_rules! number {
    ($field:ident, $number:expr) => {
        Fields::Number(Field::$field, $number)
    };
}

// A text is rejected, and the record is unchanged.
macro_rules! refused {
    ($error:expr) => {
        Expected {
            before: MARCH_AT_NOON,
            answer: Err($error),
            after: Fields::Numbers(MARCH_AT_NOON),
        }
    };
}

mod ends;

type Numbers = &'static [(Field, i128)];

const NOTHING: Numbers = &[];

const MARCH_AT_NOON: Numbers = &[(Field::Month, 3), (Field::Hour24, 12)];

const NOON: Fields = Fields::Number(Field::Hour24, 12);

const HALF_PAST: Fields = Fields::Numbers(&[(Field::Hour24, 12), (Field::Minute, 30)]);

// The fields that a record has.
#[derive(Clone, Copy)]
enum Fields {
    Nothing,
    Number(Field, i128),
    Numbers(Numbers),
    // A calendar century, and whether it is negative.
    Century(i16, bool),
    // An ISO 8601 century, and whether it is negative.
    IsoCentury(i16, bool),
    // The hour of an offset, after a minus.
    West(i8),
}

// A record before a parse, the result, and the record after it.
#[derive(Drop)]
struct Expected {
    before: Numbers,
    answer: Result<&'static [u8], ParseFromDescription>,
    after: Fields,
}

const HOUR: Component = Component::Hour24(modifier::Hour24 {
    padding: Padding::Zero,
});

const MINUTE: Component = Component::Minute(modifier::Minute {
    padding: Padding::Zero,
});

const OFFSET_HOUR: Component = Component::OffsetHour(modifier::OffsetHour {
    padding: Padding::Zero,
    sign_is_mandatory: false,
});

const NO_IGNORED: ParseFromDescription = ParseFromDescription::InvalidComponent("ignore");

const NO_HOUR: ParseFromDescription = ParseFromDescription::InvalidComponent("hour");

const NO_MINUTE: ParseFromDescription = ParseFromDescription::InvalidComponent("minute");

const NO_LITERAL: ParseFromDescription = ParseFromDescription::InvalidLiteral;

fn record(fields: &Fields) -> Option<Parsed> {
    match fields {
        Fields::Nothing => Some(Parsed::new()),
        Fields::Number(field, number) => record_of(&[(*field, *number)]),
        Fields::Numbers(numbers) => record_of(numbers),
        Fields::Century(century, is_negative) => Parsed::new().with_year_century(
            *century,
            *is_negative,
        ),
        Fields::IsoCentury(century, is_negative) => Parsed::new().with_iso_year_century(
            *century,
            *is_negative,
        ),
        Fields::West(hour) => west(*hour),
    }
}

// A record with the hour of an offset, and with the flag that the minus before it sets.
fn west(hour: i8) -> Option<Parsed> {
    let mut parsed = Parsed::new();
    parsed.parse_component(b"-00", OFFSET_HOUR).ok()?;
    parsed.set_offset_hour(hour)?;
    Some(parsed)
}

// The record before a text is parsed, and the record after it.
fn records(expected: &Expected) -> Option<(Parsed, Parsed)> {
    Some((record_of(expected.before)?, record(&expected.after)?))
}

// Whether the parse by an item has that result and record.
fn item_matches<I: AnyFormatItem>(item: &I, text: &str, expected: &Expected) -> bool {
    let Some((mut parsed, after)) = records(expected) else {
        return false;
    };
    parsed.parse_item(text.as_bytes(), item) == expected.answer && same_record(&parsed, &after)
}

// Whether the parse by a component has that result and record.
fn component_matches(component: Component, text: &str, expected: &Expected) -> bool {
    let Some((mut parsed, after)) = records(expected) else {
        return false;
    };
    parsed.parse_component(text.as_bytes(), component) == expected.answer
        && same_record(&parsed, &after)
}

// Whether the parses by a component, and by an item of it of either type, have that result and record.
fn each_matches(component: Component, text: &str, expected: &Expected) -> bool {
    component_matches(component, text, expected)
        && item_matches(&BorrowedFormatItem::Component(component), text, expected)
        && item_matches(&OwnedFormatItem::Component(component), text, expected)
}

// A kind of component, a text, and the result and record of its parse.
static COMPONENTS: [(Kind, &str, Expected); 8] = [
    (
        signed!(CalendarYearFullExtendedRange, Zero),
        "20215",
        read!(b"5", number!(Year, 2021)),
    ),
    (
        cased!(MonthShort, false),
        "Septembre",
        read!(b"tembre", number!(Month, 9)),
    ),
    (
        timestamp!(UnixTimestampSecond),
        "000000000000001",
        read!(b"1", number!(UnixTimestampNanos, 0)),
    ),
    (
        Kind::Subsecond(SubsecondDigits::OneOrMore),
        "111111111111111111111111111111111",
        read!(b"1", number!(Subsecond, 111_111_111)),
    ),
    (
        signed!(CalendarYearCenturyStandardRange, Zero),
        "5x",
        read!(b"x", Fields::Century(5, false)),
    ),
    (
        Kind::End(TrailingInput::Prohibit),
        "",
        read!(b"", Fields::Nothing),
    ),
    (
        Kind::End(TrailingInput::Discard),
        "x",
        read!(b"", Fields::Nothing),
    ),
    (
        Kind::End(TrailingInput::Prohibit),
        "x",
        refused!(ParseFromDescription::UnexpectedTrailingCharacters),
    ),
];

#[test]
fn components(rt: HostRuntime) {
    for (kind, text, expected) in &COMPONENTS {
        assert!(rt; each_matches(component(kind), text, expected), "{text}");
    }
}

// A kind of component, a text that it rejects, and the component that the error names.
static REFUSED: [(Kind, &str, &str); 38] = [
    (padded!(Day, Zero), "00", "day"),
    (padded!(Day, Zero), "32", "day"),
    (cased!(MonthLong, false), "Septembre", "month"),
    (cased!(MonthShort, true), "JAN", "month"),
    (padded!(MonthNumerical, Zero), "13", "month"),
    (padded!(Ordinal, Zero), "367", "ordinal"),
    (cased!(WeekdayShort, true), "mon", "weekday"),
    (cased!(WeekdayLong, false), "Mondax", "weekday"),
    (indexed!(WeekdaySunday, true), "0", "weekday"),
    (indexed!(WeekdaySunday, true), "8", "weekday"),
    (indexed!(WeekdayMonday, false), "7", "weekday"),
    (padded!(WeekNumberIso, Zero), "00", "week number"),
    (padded!(WeekNumberSunday, Zero), "54", "week number"),
    (padded!(WeekNumberMonday, Zero), "54", "week number"),
    (signed!(CalendarYearFullExtendedRange, Zero), "+202", "year"),
    (signed!(CalendarYearFullStandardRange, Zero), "202", "year"),
    (signed!(IsoYearFullExtendedRange, Zero), "-010", "year"),
    (signed!(IsoYearFullStandardRange, Zero), "+202", "year"),
    (
        signed!(CalendarYearCenturyStandardRange, Zero),
        "+5x",
        "year",
    ),
    (
        signed!(CalendarYearCenturyExtendedRange, Zero),
        "+1",
        "year",
    ),
    (signed!(IsoYearCenturyExtendedRange, Zero), "-1", "year"),
    (signed!(IsoYearCenturyStandardRange, Zero), "x", "year"),
    (padded!(CalendarYearLastTwo, Zero), "1", "year"),
    (padded!(IsoYearLastTwo, Zero), "1", "year"),
    (padded!(Hour12, Zero), "00", "hour"),
    (padded!(Hour12, Zero), "13", "hour"),
    (padded!(Hour24, Zero), "24", "hour"),
    (padded!(Minute, Zero), "60", "minute"),
    (padded!(Second, Zero), "61", "second"),
    (Kind::Period(false, true), "AM", "period"),
    (
        Kind::Subsecond(SubsecondDigits::Nine),
        "/23456789",
        "subsecond",
    ),
    (signed!(OffsetHour, Zero), "+26", "offset hour"),
    (padded!(OffsetMinute, Zero), "60", "offset minute"),
    (padded!(OffsetSecond, Zero), "60", "offset second"),
    (
        timestamp!(UnixTimestampSecond),
        "31494784780800",
        "unix_timestamp",
    ),
    (
        timestamp!(UnixTimestampMillisecond),
        "31494784780800000",
        "unix_timestamp",
    ),
    (
        timestamp!(UnixTimestampMicrosecond),
        "31494784780800000000",
        "unix_timestamp",
    ),
    (
        timestamp!(UnixTimestampNanosecond),
        "31494784780800000000000",
        "unix_timestamp",
    ),
];

fn refuses(kind: &Kind, text: &str, name: &'static str) -> bool {
    let expected = refused!(ParseFromDescription::InvalidComponent(name));
    each_matches(component(kind), text, &expected)
}

#[test]
fn components_refused(rt: HostRuntime) {
    for (kind, text, name) in &REFUSED {
        assert!(rt; refuses(kind, text, name), "{text}");
    }
}

// A kind of component, a text that it parses to its end, and the record afterwards.
type Row = (Kind, &'static str, Fields);

fn reads(kind: &Kind, text: &str, fields: Fields) -> bool {
    each_matches(component(kind), text, &read!(b"", fields))
}

fn ignore(count: u16) -> Option<Component> {
    let count = NonZero::<u16>::new(count)?;
    Some(Component::Ignore(modifier::Ignore { count }))
}

// Whether skipping this many bytes has that result and record.
fn skip_matches(count: u16, text: &str, expected: &Expected) -> bool {
    match ignore(count) {
        Some(component) => each_matches(component, text, expected),
        None => false,
    }
}

static SKIPPED: [(u16, &str, Expected); 3] = [
    (1, "xy", read!(b"y", Fields::Nothing)),
    (1, "\u{E9}", read!(b"\xA9", Fields::Nothing)),
    (3, "ab", refused!(NO_IGNORED)),
];

#[test]
fn components_skipped(rt: HostRuntime) {
    for (count, text, expected) in &SKIPPED {
        assert!(rt; skip_matches(*count, text, expected), "{text}");
    }
}

// A tree of items.
enum Tree {
    // `Hour24`, a colon and `Minute`.
    Clock,
    // An optional clock.
    Part,
    // A part and `Hour24`.
    PartAndHour,
    // A clock, or else `Hour24`.
    Either,
    // A choice without alternatives.
    Nothing,
    // `Minute`, or else an `x`.
    Others,
    // `Minute` and an `x`.
    OthersInTurn,
    // `Ignore` of one byte.
    Skipped,
}

const CLOCK: [BorrowedFormatItem<'static>; 3] = [
    BorrowedFormatItem::Component(HOUR),
    BorrowedFormatItem::StringLiteral(":"),
    BorrowedFormatItem::Component(MINUTE),
];

const OTHERS: [BorrowedFormatItem<'static>; 2] = [
    BorrowedFormatItem::Component(MINUTE),
    BorrowedFormatItem::Literal(b"x"),
];

// Whether the parse by a tree that borrows its items has that result and record.
fn borrowed_matches(tree: &Tree, text: &str, expected: &Expected) -> bool {
    match tree {
        Tree::Part => {
            let clock = BorrowedFormatItem::Compound(&CLOCK);
            item_matches(&BorrowedFormatItem::Optional(&clock), text, expected)
        }
        Tree::Either => {
            let clock = BorrowedFormatItem::Compound(&CLOCK);
            let either = [clock, BorrowedFormatItem::Component(HOUR)];
            item_matches(&BorrowedFormatItem::First(&either), text, expected)
        }
        Tree::Nothing => item_matches(&BorrowedFormatItem::First(&[]), text, expected),
        Tree::Others => item_matches(&BorrowedFormatItem::First(&OTHERS), text, expected),
        Tree::OthersInTurn => item_matches(&BorrowedFormatItem::Compound(&OTHERS), text, expected),
        _ => false,
    }
}

static BORROWED: [(Tree, &str, Expected); 8] = [
    (Tree::Part, "12:x", read!(b"12:x", Fields::Nothing)),
    (Tree::Part, "12:30x", read!(b"x", HALF_PAST)),
    (Tree::Either, "12:30x", read!(b"x", HALF_PAST)),
    (Tree::Either, "12x", read!(b"x", NOON)),
    (Tree::Either, "1x", refused!(NO_HOUR)),
    (Tree::Nothing, "x", read!(b"x", Fields::Nothing)),
    (Tree::Others, "y", refused!(NO_MINUTE)),
    (Tree::OthersInTurn, "05y", refused!(NO_LITERAL)),
];

#[test]
fn components_in_borrowed_trees(rt: HostRuntime) {
    for (tree, text, expected) in &BORROWED {
        assert!(rt; borrowed_matches(tree, text, expected), "{text}");
    }
}

fn owned_clock(alloc: Global) -> Option<OwnedFormatItem> {
    let colon = String::from_str(alloc, ":").ok()?;
    let items = [
        OwnedFormatItem::Component(HOUR),
        OwnedFormatItem::StringLiteral(colon),
        OwnedFormatItem::Component(MINUTE),
    ];
    Some(OwnedFormatItem::Compound(Vec::from_array(alloc, items).ok()?))
}

fn owned_part(alloc: Global) -> Option<OwnedFormatItem> {
    let item = Box::new(alloc, owned_clock(alloc)?).ok()?;
    Some(OwnedFormatItem::Optional(item))
}

fn owned_either(alloc: Global) -> Option<OwnedFormatItem> {
    let items = [owned_clock(alloc)?, OwnedFormatItem::Component(HOUR)];
    Some(OwnedFormatItem::First(Vec::from_array(alloc, items).ok()?))
}

fn owned_others(alloc: Global) -> Option<OwnedFormatItem> {
    let literal = Vec::from_array(alloc, [b'x']).ok()?;
    let items = [
        OwnedFormatItem::Component(MINUTE),
        OwnedFormatItem::Literal(literal),
    ];
    Some(OwnedFormatItem::First(Vec::from_array(alloc, items).ok()?))
}

fn owned(alloc: Global, tree: &Tree) -> Option<OwnedFormatItem> {
    match tree {
        Tree::Clock => owned_clock(alloc),
        Tree::Part => owned_part(alloc),
        Tree::Either => owned_either(alloc),
        Tree::Nothing => Some(OwnedFormatItem::First(Vec::new(alloc))),
        Tree::Others => owned_others(alloc),
        _ => None,
    }
}

// Whether the parse by a tree that owns its items has that result and record.
fn owned_matches(alloc: Global, tree: &Tree, text: &str, expected: &Expected) -> bool {
    match owned(alloc, tree) {
        Some(item) => item_matches(&item, text, expected),
        None => false,
    }
}

static OWNED: [(Tree, &str, Expected); 8] = [
    (Tree::Part, "12:x", read!(b"12:x", Fields::Nothing)),
    (Tree::Part, "12:30x", read!(b"x", HALF_PAST)),
    (Tree::Either, "12:30x", read!(b"x", HALF_PAST)),
    (Tree::Either, "12x", read!(b"x", NOON)),
    (Tree::Either, "1x", refused!(NO_HOUR)),
    (Tree::Nothing, "x", read!(b"x", Fields::Nothing)),
    (Tree::Clock, "12x", refused!(NO_LITERAL)),
    (Tree::Others, "y", refused!(NO_MINUTE)),
];

#[test]
fn components_in_owned_trees(rt: HostRuntime) {
    for (tree, text, expected) in &OWNED {
        assert!(rt; owned_matches(rt.alloc(), tree, text, expected), "{text}");
    }
}

// Components by plain names, since a static table can't have a component itself.
mod kinds {
    use time_components::{Component, Padding, SubsecondDigits, TrailingInput, modifier};

    pub(super) enum Kind {
        Padded(Padded, Padding),
        // A number with an optional sign.
        Signed(Signed, Padding),
        Timestamp(Timestamp),
        // A name, and whether it is case sensitive.
        Cased(Cased, bool),
        // A weekday's number, and whether the first is 1.
        Indexed(Indexed, bool),
        // Whether the letters are upper case, and whether they are case sensitive.
        Period(bool, bool),
        Subsecond(SubsecondDigits),
        End(TrailingInput),
    }

    pub(super) enum Padded {
        Day,
        Ordinal,
        MonthNumerical,
        WeekNumberIso,
        WeekNumberSunday,
        WeekNumberMonday,
        CalendarYearLastTwo,
        IsoYearLastTwo,
        Hour12,
        Hour24,
        Minute,
        Second,
        OffsetMinute,
        OffsetSecond,
    }

    pub(super) enum Signed {
        CalendarYearFullExtendedRange,
        CalendarYearFullStandardRange,
        IsoYearFullExtendedRange,
        IsoYearFullStandardRange,
        CalendarYearCenturyExtendedRange,
        CalendarYearCenturyStandardRange,
        IsoYearCenturyExtendedRange,
        IsoYearCenturyStandardRange,
        OffsetHour,
    }

    pub(super) enum Timestamp {
        UnixTimestampSecond,
        UnixTimestampMillisecond,
        UnixTimestampMicrosecond,
        UnixTimestampNanosecond,
    }

    pub(super) enum Cased {
        MonthShort,
        MonthLong,
        WeekdayShort,
        WeekdayLong,
    }

    pub(super) enum Indexed {
        WeekdaySunday,
        WeekdayMonday,
    }

    // The component with a name and these modifiers.
    macro_rules! named {
        ($name:expr, $names:ident, $modifiers:tt, $($component:ident)+) => {
            match $name {
                $($names::$component => Component::$component(modifier::$component $modifiers),)+
            }
        };
    }

    fn padded_component(name: &Padded, padding: Padding) -> Component {
        named!(
            name, Padded, { padding: padding },
            Day Ordinal MonthNumerical WeekNumberIso WeekNumberSunday WeekNumberMonday
            CalendarYearLastTwo IsoYearLastTwo Hour12 Hour24 Minute Second OffsetMinute OffsetSecond
        )
    }

    fn signed_component(name: &Signed, padding: Padding) -> Component {
        named!(
            name, Signed, { padding: padding, sign_is_mandatory: false },
            CalendarYearFullExtendedRange CalendarYearFullStandardRange
            IsoYearFullExtendedRange IsoYearFullStandardRange
            CalendarYearCenturyExtendedRange CalendarYearCenturyStandardRange
            IsoYearCenturyExtendedRange IsoYearCenturyStandardRange OffsetHour
        )
    }

    fn timestamp_component(name: &Timestamp) -> Component {
        named!(
            name, Timestamp, { sign_is_mandatory: false },
            UnixTimestampSecond UnixTimestampMillisecond UnixTimestampMicrosecond UnixTimestampNanosecond
        )
    }

    fn cased_component(name: &Cased, case_sensitive: bool) -> Component {
        named!(
            name, Cased, { case_sensitive: case_sensitive },
            MonthShort MonthLong WeekdayShort WeekdayLong
        )
    }

    fn indexed_component(name: &Indexed, one_indexed: bool) -> Component {
        named!(name, Indexed, { one_indexed: one_indexed }, WeekdaySunday WeekdayMonday)
    }

    pub(super) fn component(kind: &Kind) -> Component {
        match kind {
            Kind::Padded(name, padding) => padded_component(name, *padding),
            Kind::Signed(name, padding) => signed_component(name, *padding),
            Kind::Timestamp(name) => timestamp_component(name),
            Kind::Cased(name, case_sensitive) => cased_component(name, *case_sensitive),
            Kind::Indexed(name, one_indexed) => indexed_component(name, *one_indexed),
            Kind::Period(is_uppercase, case_sensitive) => Component::Period(modifier::Period {
                is_uppercase: *is_uppercase,
                case_sensitive: *case_sensitive,
            }),
            Kind::Subsecond(digits) => Component::Subsecond(modifier::Subsecond {
                digits: *digits,
            }),
            Kind::End(trailing_input) => Component::End(modifier::End {
                trailing_input: *trailing_input,
            }),
        }
    }
}

// Descriptions of version 3.
mod version_3 {
    use super::{
        Expected, Fields, HALF_PAST, HOUR, MARCH_AT_NOON, MINUTE, NO_HOUR, NO_IGNORED, NO_LITERAL,
        NOON, NOTHING, Tree, ignore, records,
    };
    use crate::same::same_record;
    use std::alloc::Global;
    use time_components::FormatDescriptionV3Inner;

    fn v3_clock(alloc: Global) -> Option<FormatDescriptionV3Inner<'static>> {
        let items = [
            FormatDescriptionV3Inner::Component(HOUR),
            FormatDescriptionV3Inner::BorrowedLiteral(":"),
            FormatDescriptionV3Inner::Component(MINUTE),
        ];
        let items = Vec::from_array(alloc, items).ok()?;
        Some(FormatDescriptionV3Inner::OwnedCompound(items))
    }

    fn v3_part(alloc: Global) -> Option<FormatDescriptionV3Inner<'static>> {
        let item = Box::new(alloc, v3_clock(alloc)?).ok()?;
        Some(FormatDescriptionV3Inner::OwnedOptional { format: true, item })
    }

    // The item, followed by `Hour24`.
    fn v3_before_hour(
        alloc: Global,
        item: FormatDescriptionV3Inner<'static>,
    ) -> Option<Vec<FormatDescriptionV3Inner<'static>>> {
        let items = [item, FormatDescriptionV3Inner::Component(HOUR)];
        Vec::from_array(alloc, items).ok()
    }

    fn v3(alloc: Global, tree: &Tree) -> Option<FormatDescriptionV3Inner<'static>> {
        match tree {
            Tree::Clock => v3_clock(alloc),
            Tree::Part => v3_part(alloc),
            Tree::PartAndHour => v3_part_and_hour(alloc),
            Tree::Either => v3_either(alloc),
            Tree::Nothing => Some(FormatDescriptionV3Inner::BorrowedFirst(&[])),
            Tree::Skipped => Some(FormatDescriptionV3Inner::Component(ignore(1)?)),
            Tree::Others | Tree::OthersInTurn => None,
        }
    }

    fn v3_part_and_hour(alloc: Global) -> Option<FormatDescriptionV3Inner<'static>> {
        let items = v3_before_hour(alloc, v3_part(alloc)?)?;
        Some(FormatDescriptionV3Inner::OwnedCompound(items))
    }

    fn v3_either(alloc: Global) -> Option<FormatDescriptionV3Inner<'static>> {
        let items = v3_before_hour(alloc, v3_clock(alloc)?)?;
        Some(FormatDescriptionV3Inner::OwnedFirst(items))
    }

    // Whether the parse by a tree has that result and record.
    fn v3_matches(items: &FormatDescriptionV3Inner<'_>, text: &str, expected: &Expected) -> bool {
        let Some((mut parsed, after)) = records(expected) else {
            return false;
        };
        parsed.parse_v3(text.as_bytes(), items) == expected.answer && same_record(&parsed, &after)
    }

    fn tree_matches(alloc: Global, tree: &Tree, text: &str, expected: &Expected) -> bool {
        match v3(alloc, tree) {
            Some(items) => v3_matches(&items, text, expected),
            None => false,
        }
    }

    static TREES: [(Tree, &str, Expected); 13] = [
        (Tree::Skipped, "\u{E9}", refused!(NO_IGNORED)),
        (Tree::Skipped, "", refused!(NO_IGNORED)),
        (Tree::Skipped, "xy", read!(b"y", Fields::Nothing)),
        (
            Tree::Skipped,
            "x\u{E9}",
            read!(b"\xC3\xA9", Fields::Nothing),
        ),
        (Tree::Clock, "12:30x", read!(b"x", HALF_PAST)),
        (Tree::Clock, "12x", refused!(NO_LITERAL)),
        (Tree::Part, "12:x", read!(b"12:x", Fields::Nothing)),
        (Tree::PartAndHour, "12:3012", read!(b"", HALF_PAST)),
        (Tree::PartAndHour, "12", read!(b"", NOON)),
        (Tree::Either, "12:30x", read!(b"x", HALF_PAST)),
        (Tree::Either, "12x", read!(b"x", NOON)),
        (Tree::Either, "1x", refused!(NO_HOUR)),
        (Tree::Nothing, "x", read!(b"x", Fields::Nothing)),
    ];

    #[test]
    fn components_in_version_3(rt: HostRuntime) {
        for (tree, text, expected) in &TREES {
            assert!(rt; tree_matches(rt.alloc(), tree, text, expected), "{text}");
        }
    }
}
