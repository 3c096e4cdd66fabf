//! The fields of records: their ranges, signs and flags.
use crate::fields::{Field, RANGES, full_record, get, record_of, set, with};
use crate::same::same_record;
use std::num::NonZero;
use time_record::Parsed;
use time_values::Month;

// Whether a second of 60 is stored, and 61 rejected.
fn stores_leap_second() -> bool {
    let mut parsed = Parsed::default();
    parsed.second().is_none()
        && parsed.set_second(60) == Some(())
        && parsed.set_second(61).is_none()
        && parsed.second() == Some(60)
}

// Centuries that are stored in turn, the sign for a century of 0, and whether each is then negative.
static SIGNS: [(i16, bool, bool); 3] = [(0, true, true), (-5, false, true), (5, true, false)];

fn stores_century_signs() -> bool {
    let mut parsed = Parsed::new();
    let mut is_right = parsed.year_century_is_negative().is_none();
    for (century, sign, is_negative) in &SIGNS {
        let is_set = parsed.set_year_century(*century, *sign) == Some(());
        is_right = is_right && is_set && parsed.year_century_is_negative() == Some(*is_negative);
    }
    is_right
}

// Whether an offset's numbers keep their own signs after the parsed sign is dropped.
fn keeps_offset_signs() -> bool {
    let mut parsed = Parsed::new();
    let minute = parsed.set_offset_minute_signed(-30);
    parsed.forget_offset_sign();
    let stored = (parsed.offset_minute_signed(), parsed.offset_minute());
    let past = parsed.set_offset_minute(60);
    let kept = parsed.offset_minute_signed();
    let second = parsed.set_offset_second_signed(-15);
    [minute, past, second] == [Some(()), None, Some(())]
        && (stored, kept) == ((Some(-30), Some(30)), Some(-30))
        && parsed.offset_second() == Some(15)
}

// Whether an ordinal and a timestamp past the greatest are rejected.
fn rejects_past_the_ends() -> bool {
    let ordinal = match NonZero::<u16>::new(367) {
        Some(past) => Parsed::new().with_ordinal(past),
        None => return false,
    };
    let timestamp = Parsed::new().with_unix_timestamp_nanos(31_494_784_780_800_000_000_000);
    ordinal.is_none() && timestamp.is_none()
}

#[test]
fn digits_and_record(rt: HostRuntime) {
    assert!(rt; stores_leap_second());
    assert!(rt; stores_century_signs());
    assert!(rt; keeps_offset_signs());
    assert!(rt; rejects_past_the_ends());
}

// Whether a number in range is stored, and numbers past either end of the range are rejected.
fn stores_in_range(field: Field, low: i128, high: i128, n: i128) -> bool {
    let mut parsed = Parsed::new();
    if get(&parsed, field).is_some() || set(&mut parsed, field, n).is_none() {
        return false;
    }
    for past in [low.saturating_sub(1), high.saturating_add(1)] {
        if set(&mut parsed, field, past).is_some() || with(parsed, field, past).is_some() {
            return false;
        }
    }
    get(&parsed, field) == Some(n)
}

// Whether a builder stores the number.
fn is_built(field: Field, n: i128) -> bool {
    match with(Parsed::new(), field, n) {
        Some(built) => get(&built, field) == Some(n),
        None => false,
    }
}

#[test]
fn digits_and_record_at_the_ends(rt: HostRuntime) {
    for (field, low, high) in RANGES {
        for n in [low, high] {
            assert!(rt; stores_in_range(field, low, high, n), "{low} to {high}");
            assert!(rt; is_built(field, n), "{low} to {high}");
        }
    }
}

// The sign of a calendar century that is stored with the given sign for 0.
fn century_sign(century: i16, is_negative: bool) -> Option<bool> {
    let parsed = Parsed::new().with_year_century(century, is_negative)?;
    parsed.year_century_is_negative()
}

// The sign of an ISO 8601 century that is stored with the given sign for 0.
fn iso_century_sign(century: i16, is_negative: bool) -> Option<bool> {
    let mut parsed = Parsed::new();
    parsed.set_iso_year_century(century, is_negative)?;
    parsed.iso_year_century_is_negative()
}

// Centuries, the given sign for 0, and whether they are negative.
static ENDS: [(i16, bool, bool); 4] = [
    (-9999, false, true),
    (0, false, false),
    (0, true, true),
    (9999, true, false),
];

#[test]
fn digits_and_record_of_centuries(rt: HostRuntime) {
    for (century, sign, is_negative) in &ENDS {
        assert!(rt; century_sign(*century, *sign) == Some(*is_negative));
        assert!(rt; iso_century_sign(*century, *sign) == Some(*is_negative));
    }
}

// Whether a record with one field differs from an empty one.
fn differs_from_empty(field: Field, n: i128) -> bool {
    match record_of(&[(field, n)]) {
        Some(one) => same_record(&one, &one) && !same_record(&one, &Parsed::new()),
        None => false,
    }
}

#[test]
fn same_records(rt: HostRuntime) {
    for (field, low, high) in RANGES {
        for n in [low, high] {
            assert!(rt; differs_from_empty(field, n), "{low} to {high}");
        }
    }
    assert!(rt; full_record().is_some_and(|full| same_record(&full, &full)));
}

// Records that differ from a full one in one flag only.
fn with_a_flag_turned(full: Parsed) -> Option<[Parsed; 4]> {
    let mut east = full;
    east.forget_offset_sign();
    // For these numbers the getters return those of the full record, too.
    east.set_offset_minute_signed(full.offset_minute_signed()?)?;
    east.set_offset_second_signed(full.offset_second_signed()?)?;
    let calendar = full.with_year_century(0, false)?;
    let iso = full.with_iso_year_century(0, false)?;
    let mut leap = full;
    leap.allow_leap_second();
    Some([east, calendar, iso, leap])
}

#[test]
fn same_records_by_their_flags(rt: HostRuntime) {
    let full = full_record().expect(&rt, "a full record");
    let turned = with_a_flag_turned(full).expect(&rt, "records in range");
    for record in &turned {
        assert!(rt; !same_record(record, &full));
    }
}

// A record of a month and a second of 60.
fn month_and_second() -> Option<Parsed> {
    Parsed::new().with_month(Month::March)?.with_second(60)
}

#[test]
fn debug_output(rt: HostRuntime) {
    let expected = "Parsed { year: None, year_century: None, year_last_two: None, iso_year: None, \
                  iso_year_century: None, iso_year_last_two: None, month: Some(March), \
                  sunday_week_number: None, monday_week_number: None, iso_week_number: None, \
                  weekday: None, ordinal: None, day: None, hour_24: None, hour_12: None, \
                  hour_12_is_pm: None, minute: None, second: Some(60), subsecond: None, \
                  offset_hour: None, offset_minute: None, offset_second: None, \
                  unix_timestamp_nanos: None, offset_is_negative: false, \
                  year_century_is_negative: false, iso_year_century_is_negative: false, \
                  leap_second_allowed: false }";
    let record = month_and_second().expect(&rt, "a record");
    let is_printed = match format!(in rt.alloc(); "{record:?}") {
        Ok(text) => text.as_str() == expected,
        Err(_) => false,
    };
    assert!(rt; is_printed);
}
