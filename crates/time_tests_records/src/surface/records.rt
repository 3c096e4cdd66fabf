//! The setters, builders and getters of a record.
use std::num::NonZero;
use time_record::Parsed;
use time_values::{Month, Weekday};

// Whether the record's years are these.
fn has_years(parsed: &Parsed) -> bool {
    let year: Option<i32> = parsed.year();
    let iso_year: Option<i32> = parsed.iso_year();
    let last_two: Option<u8> = parsed.year_last_two();
    let iso_last_two: Option<u8> = parsed.iso_year_last_two();
    [year, iso_year] == [Some(2021), Some(2020)] && [last_two, iso_last_two] == [Some(21), Some(20)]
}

// Whether the record's centuries are these.
fn has_centuries(parsed: &Parsed) -> bool {
    let century: Option<i16> = parsed.year_century();
    let iso_century: Option<i16> = parsed.iso_year_century();
    let is_negative: Option<bool> = parsed.year_century_is_negative();
    let iso_is_negative: Option<bool> = parsed.iso_year_century_is_negative();
    [century, iso_century] == [Some(0), Some(20)]
        && [is_negative, iso_is_negative] == [Some(true), Some(false)]
}

// Whether the number is that one.
fn is_number(found: Option<NonZero<u8>>, number: u8) -> bool {
    match found {
        Some(found) => found.get() == number,
        None => false,
    }
}

// Whether the record's weeks are these.
fn has_weeks(parsed: &Parsed) -> bool {
    let iso_week: Option<NonZero<u8>> = parsed.iso_week_number();
    let sunday_week: Option<u8> = parsed.sunday_week_number();
    let monday_week: Option<u8> = parsed.monday_week_number();
    let weekday: Option<Weekday> = parsed.weekday();
    is_number(iso_week, 3)
        && [sunday_week, monday_week] == [Some(1), Some(2)]
        && weekday == Some(Weekday::Saturday)
}

// Whether the record's month and days are these.
fn has_days(parsed: &Parsed) -> bool {
    let month: Option<Month> = parsed.month();
    let day: Option<NonZero<u8>> = parsed.day();
    let ordinal: Option<NonZero<u16>> = parsed.ordinal();
    let is_ordinal = match ordinal {
        Some(ordinal) => ordinal.get() == 366,
        None => false,
    };
    month == Some(Month::January) && is_number(day, 3) && is_ordinal
}

// Whether the record's time is that one.
fn has_time(parsed: &Parsed) -> bool {
    let hour: Option<u8> = parsed.hour_24();
    let minute: Option<u8> = parsed.minute();
    let second: Option<u8> = parsed.second();
    let subsecond: Option<u32> = parsed.subsecond();
    [hour, minute, second] == [Some(15), Some(4), Some(60)] && subsecond == Some(999_999_999)
}

// Whether the record's time is in that half of the day.
fn has_half(parsed: &Parsed) -> bool {
    let hour: Option<NonZero<u8>> = parsed.hour_12();
    let is_pm: Option<bool> = parsed.hour_12_is_pm();
    is_number(hour, 3) && is_pm == Some(true)
}

// Whether the record's offset is that one.
fn has_offset(parsed: &Parsed) -> bool {
    let hour: Option<i8> = parsed.offset_hour();
    let minute: Option<i8> = parsed.offset_minute_signed();
    let second: Option<i8> = parsed.offset_second_signed();
    [hour, minute, second] == [Some(-25), Some(-30), Some(59)]
}

// Whether the record's offset has those minutes and seconds, by the getters without a sign.
fn has_absolute_offset(parsed: &Parsed) -> bool {
    let minute: Option<u8> = parsed.offset_minute();
    let second: Option<u8> = parsed.offset_second();
    [minute, second] == [Some(30), Some(59)]
}

// Whether the record's timestamp is that one.
fn has_timestamp(parsed: &Parsed) -> bool {
    let nanos: Option<i128> = parsed.unix_timestamp_nanos();
    nanos == Some(-1)
}

fn set_years(parsed: &mut Parsed) -> [Option<()>; 4] {
    [
        parsed.set_year(2021),
        parsed.set_iso_year(2020),
        parsed.set_year_last_two(21),
        parsed.set_iso_year_last_two(20),
    ]
}

fn set_centuries(parsed: &mut Parsed) -> [Option<()>; 2] {
    [
        parsed.set_year_century(0, true),
        parsed.set_iso_year_century(20, false),
    ]
}

#[test]
fn set_years_and_centuries(rt: HostRuntime) {
    let mut parsed: Parsed = Parsed::new();
    let _: [Option<()>; 4] = set_years(&mut parsed);
    assert!(rt; has_years(&parsed));
    let _: [Option<()>; 2] = set_centuries(&mut parsed);
    assert!(rt; has_centuries(&parsed));
}

fn set_weeks(parsed: &mut Parsed, iso_week: NonZero<u8>) -> [Option<()>; 4] {
    [
        parsed.set_iso_week_number(iso_week),
        parsed.set_sunday_week_number(1),
        parsed.set_monday_week_number(2),
        parsed.set_weekday(Weekday::Saturday),
    ]
}

fn set_days(parsed: &mut Parsed, day: NonZero<u8>, ordinal: NonZero<u16>) -> [Option<()>; 3] {
    [
        parsed.set_month(Month::January),
        parsed.set_day(day),
        parsed.set_ordinal(ordinal),
    ]
}

#[test]
fn set_weeks_and_days(rt: HostRuntime) {
    let mut parsed: Parsed = Parsed::default();
    let three = NonZero::<u8>::new(3).expect(&rt, "a number");
    let ordinal = NonZero::<u16>::new(366).expect(&rt, "a number");
    let _: [Option<()>; 4] = set_weeks(&mut parsed, three);
    assert!(rt; has_weeks(&parsed));
    let _: [Option<()>; 3] = set_days(&mut parsed, three, ordinal);
    assert!(rt; has_days(&parsed));
}

fn set_time(parsed: &mut Parsed) -> [Option<()>; 4] {
    [
        parsed.set_hour_24(15),
        parsed.set_minute(4),
        parsed.set_second(60),
        parsed.set_subsecond(999_999_999),
    ]
}

fn set_half(parsed: &mut Parsed, hour: NonZero<u8>) -> [Option<()>; 2] {
    [parsed.set_hour_12(hour), parsed.set_hour_12_is_pm(true)]
}

#[test]
fn set_times(rt: HostRuntime) {
    let mut parsed = Parsed::new();
    let three = NonZero::<u8>::new(3).expect(&rt, "a number");
    let _: [Option<()>; 4] = set_time(&mut parsed);
    assert!(rt; has_time(&parsed));
    let _: [Option<()>; 2] = set_half(&mut parsed, three);
    assert!(rt; has_half(&parsed));
}

fn set_offset(parsed: &mut Parsed) -> [Option<()>; 3] {
    [
        parsed.set_offset_hour(-25),
        parsed.set_offset_minute_signed(-30),
        parsed.set_offset_second_signed(59),
    ]
}

fn set_absolute_offset(parsed: &mut Parsed) -> [Option<()>; 2] {
    [parsed.set_offset_minute(30), parsed.set_offset_second(59)]
}

#[test]
fn set_offsets(rt: HostRuntime) {
    let mut parsed = Parsed::new();
    let _: [Option<()>; 3] = set_offset(&mut parsed);
    assert!(rt; has_offset(&parsed));
    let _: [Option<()>; 2] = set_absolute_offset(&mut parsed);
    assert!(rt; has_absolute_offset(&parsed));
}

#[test]
fn set_timestamps(rt: HostRuntime) {
    let mut parsed = Parsed::new();
    let set: Option<()> = parsed.set_unix_timestamp_nanos(-1);
    assert!(rt; set == Some(()) && has_timestamp(&parsed));
}

fn with_years(parsed: Parsed) -> Option<Parsed> {
    let parsed: Parsed = parsed.with_year(2021)?;
    let parsed: Parsed = parsed.with_iso_year(2020)?;
    let parsed: Parsed = parsed.with_year_last_two(21)?;
    parsed.with_iso_year_last_two(20)
}

fn with_centuries(parsed: Parsed) -> Option<Parsed> {
    let parsed: Parsed = parsed.with_year_century(0, true)?;
    parsed.with_iso_year_century(20, false)
}

#[test]
fn with_years_and_centuries(rt: HostRuntime) {
    let parsed = with_years(Parsed::new()).expect(&rt, "a record");
    let parsed = with_centuries(parsed).expect(&rt, "a record");
    assert!(rt; has_years(&parsed) && has_centuries(&parsed));
}

fn with_weeks(parsed: Parsed, iso_week: NonZero<u8>) -> Option<Parsed> {
    let parsed: Parsed = parsed.with_iso_week_number(iso_week)?;
    let parsed: Parsed = parsed.with_sunday_week_number(1)?;
    let parsed: Parsed = parsed.with_monday_week_number(2)?;
    parsed.with_weekday(Weekday::Saturday)
}

fn with_days(parsed: Parsed, day: NonZero<u8>, ordinal: NonZero<u16>) -> Option<Parsed> {
    let parsed: Parsed = parsed.with_month(Month::January)?;
    let parsed: Parsed = parsed.with_day(day)?;
    parsed.with_ordinal(ordinal)
}

#[test]
fn with_weeks_and_days(rt: HostRuntime) {
    let three = NonZero::<u8>::new(3).expect(&rt, "a number");
    let ordinal = NonZero::<u16>::new(366).expect(&rt, "a number");
    let parsed = with_weeks(Parsed::new(), three).expect(&rt, "a record");
    let parsed = with_days(parsed, three, ordinal).expect(&rt, "a record");
    assert!(rt; has_weeks(&parsed) && has_days(&parsed));
}

fn with_time(parsed: Parsed) -> Option<Parsed> {
    let parsed: Parsed = parsed.with_hour_24(15)?;
    let parsed: Parsed = parsed.with_minute(4)?;
    let parsed: Parsed = parsed.with_second(60)?;
    parsed.with_subsecond(999_999_999)
}

fn with_half(parsed: Parsed, hour: NonZero<u8>) -> Option<Parsed> {
    let parsed: Parsed = parsed.with_hour_12(hour)?;
    parsed.with_hour_12_is_pm(true)
}

#[test]
fn with_times(rt: HostRuntime) {
    let three = NonZero::<u8>::new(3).expect(&rt, "a number");
    let parsed = with_time(Parsed::new()).expect(&rt, "a record");
    let parsed = with_half(parsed, three).expect(&rt, "a record");
    assert!(rt; has_time(&parsed) && has_half(&parsed));
}

fn with_offset(parsed: Parsed) -> Option<Parsed> {
    let parsed: Parsed = parsed.with_offset_hour(-25)?;
    let parsed: Parsed = parsed.with_offset_minute_signed(-30)?;
    parsed.with_offset_second_signed(59)
}

fn with_absolute_offset(parsed: Parsed) -> Option<Parsed> {
    let parsed: Parsed = parsed.with_offset_minute(30)?;
    parsed.with_offset_second(59)
}

#[test]
fn with_offsets(rt: HostRuntime) {
    let parsed = with_offset(Parsed::new()).expect(&rt, "a record");
    assert!(rt; has_offset(&parsed));
    let parsed = with_absolute_offset(parsed).expect(&rt, "a record");
    assert!(rt; has_absolute_offset(&parsed));
}

#[test]
fn with_timestamps(rt: HostRuntime) {
    let parsed: Option<Parsed> = Parsed::new().with_unix_timestamp_nanos(-1);
    let parsed: Parsed = parsed.expect(&rt, "a record");
    assert!(rt; has_timestamp(&parsed));
}
