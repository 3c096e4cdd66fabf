//! Every public call of formats and their parsers by its name and type, so that removing one fails to compile.
use std::fmt::Debug;
use std::num::NonZero;
use std::test::Fail;
use time_parsing::laws::{
    law_equal_shapes, law_flattened, law_joined_lists, law_kept_readings, law_optional_as_first,
    law_read_back, law_suffix, law_whole_characters, text_3339,
};
use time_parsing::{Iso8601, Items, Parsable, Rfc2822, Rfc3339};
use time_readers::iso8601::{
    ExtendedKind, day, dayk, dayo, float, floor_fraction, hour, min, month, round_fraction, week,
    year,
};
use time_readers::rfc2822::{cfws, fws, opt_cfws, opt_cfws_colon_opt_cfws, zone_literal};
use time_readers::{BorrowedFormatItem, FormatDescriptionV3, OwnedFormatItem, ParsedItem, direct};
use time_record::Parsed;
use time_values::error::Parse;
use time_values::{
    Date, Month, OffsetDateTime, PlainDateTime, Time, Timestamp, UtcDateTime, UtcOffset, Weekday,
};

// A type that is copied and printed for debugging.
trait Copied: Copy + Debug {}

impl<T: Copy + Debug> Copied for T {}

// Types that are copied.
fn are_copied<A: Copied, B: Copied, C: Copied, D: Copied>() {}

// Whether the value is `value`, and no bytes remain.
fn is_whole<T: PartialEq + Copy>(found: Option<ParsedItem<'_, T>>, value: T) -> bool {
    match found {
        Some(ParsedItem(rest, found)) => rest.is_empty() && found == value,
        None => false,
    }
}

#[test]
fn iso_dates(rt: HostRuntime) {
    let year: Option<ParsedItem<'_, i32>> = year(b"2021");
    assert!(rt; is_whole(year, 2021));
    let month: Option<ParsedItem<'_, Month>> = month(b"01");
    assert!(rt; is_whole(month, Month::January));
    let weekday: Option<ParsedItem<'_, Weekday>> = dayk(b"6");
    assert!(rt; is_whole(weekday, Weekday::Saturday));
}

#[test]
fn iso_days(rt: HostRuntime) {
    let week: Option<ParsedItem<'_, NonZero<u8>>> = week(b"53");
    let day: Option<ParsedItem<'_, NonZero<u8>>> = day(b"02");
    let ordinal: Option<ParsedItem<'_, NonZero<u16>>> = dayo(b"002");
    assert!(rt; [week.is_some(), day.is_some(), ordinal.is_some()] == [true; 3]);
}

#[test]
fn iso_times(rt: HostRuntime) {
    let hour: Option<ParsedItem<'_, u8>> = hour(b"03");
    assert!(rt; is_whole(hour, 3));
    let minute: Option<ParsedItem<'_, u8>> = min(b"99");
    assert!(rt; is_whole(minute, 99));
    let number: Option<ParsedItem<'_, (u8, Option<&[u8]>)>> = float(b"03");
    assert!(rt; is_whole(number, (3, None)));
}

#[test]
fn iso_fractions(rt: HostRuntime) {
    let floor: u64 = floor_fraction(b"5", 1);
    let rounded: u64 = round_fraction(b"5", 1);
    assert!(rt; (floor, rounded) == (0, 1));
}

#[test]
fn iso_kinds(rt: HostRuntime) {
    let mut kind: ExtendedKind = ExtendedKind::Unknown;
    let maybe: bool = kind.maybe_extended();
    let already: bool = ExtendedKind::Extended.is_extended();
    assert!(rt; (maybe, already) == (true, true));
    let basic: Option<()> = kind.coerce_basic();
    let extended: Option<()> = kind.coerce_extended();
    assert!(rt; (basic, extended) == (Some(()), None));
    assert!(rt; matches!(kind, ExtendedKind::Basic));
}

#[test]
fn blanks(rt: HostRuntime) {
    let blanks: Option<ParsedItem<'_, ()>> = fws(b"\r\n ");
    let comment: Option<ParsedItem<'_, ()>> = cfws(b" (a)");
    assert!(rt; is_whole(blanks, ()) && is_whole(comment, ()));
    let nothing: ParsedItem<'_, ()> = opt_cfws(b"");
    let colon: Option<ParsedItem<'_, ()>> = opt_cfws_colon_opt_cfws(b" : ");
    assert!(rt; is_whole(Some(nothing), ()) && is_whole(colon, ()));
}

#[test]
fn zone_names(rt: HostRuntime) {
    let hours: Option<ParsedItem<'_, i8>> = zone_literal(b"EST");
    assert!(rt; is_whole(hours, -5));
}

#[test]
fn direct_paths(rt: HostRuntime) {
    let stamp: Result<OffsetDateTime, Parse> = direct::rfc3339(b"1970-01-02T00:00:00Z");
    let mail: Result<OffsetDateTime, Parse> = direct::rfc2822(b"2 Jan 1970 00:00 GMT");
    assert!(rt; stamp.map(OffsetDateTime::unix_timestamp_nanos) == Ok(86_400_000_000_000));
    assert!(rt; mail == stamp);
}

// Whether the format parses from the text a date, a time, an offset, and a date and time.
fn has_parts<F: Parsable>(format: &F, text: &[u8]) -> [bool; 4] {
    let date: Result<Date, Parse> = format.parse_date(text, None);
    let time: Result<Time, Parse> = format.parse_time(text, None);
    let offset: Result<UtcOffset, Parse> = format.parse_offset(text, None);
    let plain: Result<PlainDateTime, Parse> = format.parse_plain_date_time(text, None);
    [date.is_ok(), time.is_ok(), offset.is_ok(), plain.is_ok()]
}

// Whether the format parses from the text a moment in UTC, a moment with an offset, and a timestamp.
fn is_moment<F: Parsable>(format: &F, text: &[u8]) -> [bool; 3] {
    let utc: Result<UtcDateTime, Parse> = format.parse_utc_date_time(text, None);
    let moment: Result<OffsetDateTime, Parse> = format.parse_offset_date_time(text, None);
    let timestamp: Result<Timestamp, Parse> = format.parse_timestamp(text, None);
    [utc.is_ok(), moment.is_ok(), timestamp.is_ok()]
}

// Whether a prefix of the text is parsed into `parsed`, and whether the whole text is parsed into a new record.
fn is_read<F: Parsable>(format: &F, text: &[u8], parsed: &mut Parsed) -> [bool; 2] {
    let rest: Result<&[u8], Parse> = format.parse_into(text, parsed);
    let record: Result<Parsed, Parse> = format.parse_internal(text, None);
    [rest.is_ok(), record.is_ok()]
}

// 86,400 seconds after 1970-01-01T00:00:00Z.
const STAMP: &[u8] = b"1970-01-02T00:00:00Z";

#[test]
fn texts(rt: HostRuntime) {
    let mut parsed = Parsed::new();
    assert!(rt; has_parts(&Rfc3339, STAMP) == [true; 4]);
    assert!(rt; is_moment(&Rfc3339, STAMP) == [true; 3]);
    assert!(rt; is_read(&Rfc3339, STAMP, &mut parsed) == [true; 2]);
}

// Types that parse texts.
fn are_formats<A: Parsable, B: Parsable, C: Parsable, D: Parsable>() {}

#[test]
fn formats(rt: HostRuntime) {
    are_copied::<Rfc2822, Rfc3339, Iso8601, Items<'_, BorrowedFormatItem<'_>>>();
    are_formats::<Rfc2822, Rfc3339, Iso8601, &Rfc3339>();
    are_formats::<
        BorrowedFormatItem<'_>,
        OwnedFormatItem,
        FormatDescriptionV3<'_>,
        Items<'_, BorrowedFormatItem<'_>>,
    >();
    let hyphen = [BorrowedFormatItem::Literal(b"-")];
    let items: Items<'_, BorrowedFormatItem<'_>> = Items(&hyphen);
    assert!(rt; items.0.len() == 1);
}

#[test]
fn laws_of_trees(rt: HostRuntime) {
    law_joined_lists();
    law_flattened();
    law_optional_as_first();
    law_whole_characters();
    law_suffix();
    let bytes = BorrowedFormatItem::Literal(b"-");
    let text = BorrowedFormatItem::StringLiteral("-");
    law_equal_shapes(&bytes, &text);
    law_read_back();
    law_kept_readings();
}

#[test]
fn canonical_text(rt: HostRuntime) -> Result<(), Fail> {
    let date = Date::from_calendar_date(2021, Month::January, 2)?;
    let time = Time::from_hms_nano(3, 4, 5, 6)?;
    let moment = OffsetDateTime::new_in_offset(date, time, UtcOffset::UTC);
    let text: [u8; 35] = text_3339(moment);
    assert!(rt; text == *b"2021-01-02T03:04:05.000000006+00:00");
    Ok(())
}
