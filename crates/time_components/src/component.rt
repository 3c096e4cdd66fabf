//! Parsers of the components, one for each variant of [`Component`](crate::Component).
//!
//! A parser returns the unread rest and the value if a prefix of its input spells a value, and `None` otherwise. A run
//! of digits is as long as its greatest length allows, further digits begin the rest, and no parser backtracks.
ghost use Rattle.std.specs.Prelude.{◌≤◌, false};
ghost use Rattle.time_digits.specs.Digits.{Finds};
ghost use Rattle.time_components.specs.Spelling.{SpellsOffsetHour, SpellsYear, Spells, number, signed, flagged, month, weekday, period, nothing};
ghost use Rattle.time_components.specs.declared.format_description.Component.TheVariants as component;

pub mod fast;
mod names;
mod numbers;

use crate::{Padding, ParsedItem, Period, SubsecondDigits, TrailingInput, modifier};
use names::{ending_of, month_ending, weekday_digit, weekday_ending};
use numbers::{century, fraction, long_fraction, offset_part, timestamp, two_digits, two_places};
use std::num::NonZero;
use time_values::{Month, Weekday};

// The two parsers that follow try the fast path in `fast` before the plain parser in `numbers`.

// Parses a signed year: a sign and 4 to `MOST` padded digits, or 4 if none is required; `Padding::None` allows fewer.
#[inline(always)]
fn full_year<const MOST: u8>(
    input: &[u8],
    padding: Padding,
    sign_is_mandatory: bool,
) -> Option<ParsedItem<'_, i32>>
    requires least { 4 ≤ MOST }
    requires most { MOST ≤ 6 }
    ensures { Finds (SpellsYear sign_is_mandatory padding MOST) signed input.now result }
{
    match fast::year::<MOST>(input, padding, sign_is_mandatory) {
        Some(year) => Some(year),
        None => numbers::full_year::<MOST>(input, padding, sign_is_mandatory),
    }
}

// Parses signed hours: a sign, maybe optional, and two digits; `Padding::None` allows one. The bool is true for `-`.
#[inline(always)]
fn offset_hour(
    input: &[u8],
    padding: Padding,
    sign_is_mandatory: bool,
) -> Option<ParsedItem<'_, (i8, bool)>>
    ensures { Finds (SpellsOffsetHour sign_is_mandatory padding) (λ v. flagged v.0 v.1) input.now result }
{
    match fast::offset_hour(input, padding, sign_is_mandatory) {
        Some(hour) => Some(hour),
        None => numbers::offset_hour(input, padding, sign_is_mandatory),
    }
}

/// Parses a calendar year, -999999 to 999999, negative after `-`.
///
/// The text is four ASCII digits, or a sign and four to six digits. `Padding::Space` also allows up to three spaces in
/// place of the first digits, and `Padding::None` one to three digits. Returns `None` if the input doesn't begin with
/// such a text, or if a mandatory sign is missing.
#[inline]
pub fn parse_calendar_year_full_extended_range(
    input: &[u8],
    modifiers: modifier::CalendarYearFullExtendedRange,
) -> Option<ParsedItem<'_, i32>>
    ensures { Finds (Spells false (component.CalendarYearFullExtendedRange modifiers)) signed input.now result }
{
    let modifier::CalendarYearFullExtendedRange {
        padding,
        sign_is_mandatory,
    } = modifiers;
    full_year::<6>(input, padding, sign_is_mandatory)
}

/// Parses a calendar year, -9999 to 9999, negative after `-`.
///
/// The text is four ASCII digits, with or without a sign. `Padding::Space` also allows up to three spaces in place of
/// the first digits, and `Padding::None` one to three digits. Returns `None` if the input doesn't begin with such a
/// text, or if a mandatory sign is missing.
#[inline]
pub fn parse_calendar_year_full_standard_range(
    input: &[u8],
    modifiers: modifier::CalendarYearFullStandardRange,
) -> Option<ParsedItem<'_, i32>>
    ensures { Finds (Spells false (component.CalendarYearFullStandardRange modifiers)) signed input.now result }
{
    let modifier::CalendarYearFullStandardRange {
        padding,
        sign_is_mandatory,
    } = modifiers;
    full_year::<4>(input, padding, sign_is_mandatory)
}

/// Parses an ISO week year, -999999 to 999999, negative after `-`.
///
/// The text is four ASCII digits, or a sign and four to six digits. `Padding::Space` also allows up to three spaces in
/// place of the first digits, and `Padding::None` one to three digits. Returns `None` if the input doesn't begin with
/// such a text, or if a mandatory sign is missing.
#[inline]
pub fn parse_iso_year_full_extended_range(
    input: &[u8],
    modifiers: modifier::IsoYearFullExtendedRange,
) -> Option<ParsedItem<'_, i32>>
    ensures { Finds (Spells false (component.IsoYearFullExtendedRange modifiers)) signed input.now result }
{
    let modifier::IsoYearFullExtendedRange {
        padding,
        sign_is_mandatory,
    } = modifiers;
    full_year::<6>(input, padding, sign_is_mandatory)
}

/// Parses an ISO week year, -9999 to 9999, negative after `-`.
///
/// The text is four ASCII digits, with or without a sign. `Padding::Space` also allows up to three spaces in place of
/// the first digits, and `Padding::None` one to three digits. Returns `None` if the input doesn't begin with such a
/// text, or if a mandatory sign is missing.
#[inline]
pub fn parse_iso_year_full_standard_range(
    input: &[u8],
    modifiers: modifier::IsoYearFullStandardRange,
) -> Option<ParsedItem<'_, i32>>
    ensures { Finds (Spells false (component.IsoYearFullStandardRange modifiers)) signed input.now result }
{
    let modifier::IsoYearFullStandardRange {
        padding,
        sign_is_mandatory,
    } = modifiers;
    full_year::<4>(input, padding, sign_is_mandatory)
}

/// Parses a calendar year without its last two digits, -9999 to 9999, negative after `-`.
///
/// The text is one or two ASCII digits without a sign, whatever the padding, or a sign and two to four digits. After a
/// sign, `Padding::Space` also allows a space in place of the first digit, and `Padding::None` one digit. The bool is
/// whether the sign is `-`, which the number 0 can't show. Returns `None` if the input doesn't begin with such a text,
/// or if a mandatory sign is missing.
#[inline]
pub fn parse_calendar_year_century_extended_range(
    input: &[u8],
    modifiers: modifier::CalendarYearCenturyExtendedRange,
) -> Option<ParsedItem<'_, (i16, bool)>>
    ensures { Finds (Spells false (component.CalendarYearCenturyExtendedRange modifiers)) (λ v. flagged v.0 v.1)
        input.now result }
{
    let modifier::CalendarYearCenturyExtendedRange {
        padding,
        sign_is_mandatory,
    } = modifiers;
    century::<4>(input, padding, sign_is_mandatory)
}

/// Parses a calendar year without its last two digits, -99 to 99, negative after `-`.
///
/// The text is one or two ASCII digits without a sign, whatever the padding, or a sign and two digits. After a sign,
/// `Padding::Space` also allows a space in place of the first digit, and `Padding::None` one digit. The bool is whether
/// the sign is `-`, which the number 0 can't show. Returns `None` if the input doesn't begin with such a text, or if a
/// mandatory sign is missing.
#[inline]
pub fn parse_calendar_year_century_standard_range(
    input: &[u8],
    modifiers: modifier::CalendarYearCenturyStandardRange,
) -> Option<ParsedItem<'_, (i16, bool)>>
    ensures { Finds (Spells false (component.CalendarYearCenturyStandardRange modifiers)) (λ v. flagged v.0 v.1)
        input.now result }
{
    let modifier::CalendarYearCenturyStandardRange {
        padding,
        sign_is_mandatory,
    } = modifiers;
    century::<2>(input, padding, sign_is_mandatory)
}

/// Parses an ISO week year without its last two digits, -9999 to 9999, negative after `-`.
///
/// The text is one or two ASCII digits without a sign, whatever the padding, or a sign and two to four digits. After a
/// sign, `Padding::Space` also allows a space in place of the first digit, and `Padding::None` one digit. The bool is
/// whether the sign is `-`, which the number 0 can't show. Returns `None` if the input doesn't begin with such a text,
/// or if a mandatory sign is missing.
#[inline]
pub fn parse_iso_year_century_extended_range(
    input: &[u8],
    modifiers: modifier::IsoYearCenturyExtendedRange,
) -> Option<ParsedItem<'_, (i16, bool)>>
    ensures { Finds (Spells false (component.IsoYearCenturyExtendedRange modifiers)) (λ v. flagged v.0 v.1)
        input.now result }
{
    let modifier::IsoYearCenturyExtendedRange {
        padding,
        sign_is_mandatory,
    } = modifiers;
    century::<4>(input, padding, sign_is_mandatory)
}

/// Parses an ISO week year without its last two digits, -99 to 99, negative after `-`.
///
/// The text is one or two ASCII digits without a sign, whatever the padding, or a sign and two digits. After a sign,
/// `Padding::Space` also allows a space in place of the first digit, and `Padding::None` one digit. The bool is whether
/// the sign is `-`, which the number 0 can't show. Returns `None` if the input doesn't begin with such a text, or if a
/// mandatory sign is missing.
#[inline]
pub fn parse_iso_year_century_standard_range(
    input: &[u8],
    modifiers: modifier::IsoYearCenturyStandardRange,
) -> Option<ParsedItem<'_, (i16, bool)>>
    ensures { Finds (Spells false (component.IsoYearCenturyStandardRange modifiers)) (λ v. flagged v.0 v.1)
        input.now result }
{
    let modifier::IsoYearCenturyStandardRange {
        padding,
        sign_is_mandatory,
    } = modifiers;
    century::<2>(input, padding, sign_is_mandatory)
}

/// Parses the last two digits of a calendar year, 0 to 99: two ASCII digits; `Padding::Space` also allows a space and a
/// digit, and `Padding::None` one digit. Returns `None` if the input doesn't begin with such a number.
#[inline]
pub fn parse_calendar_year_last_two(
    input: &[u8],
    modifiers: modifier::CalendarYearLastTwo,
) -> Option<ParsedItem<'_, u8>>
    ensures { Finds (Spells false (component.CalendarYearLastTwo modifiers)) number input.now result }
{
    let modifier::CalendarYearLastTwo { padding } = modifiers;
    two_places(input, padding)
}

/// Parses the last two digits of an ISO week year, 0 to 99: two ASCII digits; `Padding::Space` also allows a space and
/// a digit, and `Padding::None` one digit. Returns `None` if the input doesn't begin with such a number.
#[inline]
pub fn parse_iso_year_last_two(
    input: &[u8],
    modifiers: modifier::IsoYearLastTwo,
) -> Option<ParsedItem<'_, u8>>
    ensures { Finds (Spells false (component.IsoYearLastTwo modifiers)) number input.now result }
{
    let modifier::IsoYearLastTwo { padding } = modifiers;
    two_places(input, padding)
}

/// Parses the first three letters of a month's English name: exactly such as `Jan` if `case_sensitive`, otherwise in
/// any ASCII case. Returns `None` if the input doesn't begin with such letters.
#[inline(always)]
pub fn parse_month_short(
    input: &[u8],
    modifiers: modifier::MonthShort,
) -> Option<ParsedItem<'_, Month>>
    ensures { Finds (Spells false (component.MonthShort modifiers)) month input.now result }
{
    let modifier::MonthShort { case_sensitive } = modifiers;
    match fast::month_short(input, case_sensitive) {
        Some(month) => Some(month),
        None => names::month_short(input, case_sensitive),
    }
}

/// Parses a month's whole English name: exactly such as `January` if `case_sensitive`, otherwise in any ASCII case.
/// Returns `None` if the input doesn't begin with such a name.
#[inline]
pub fn parse_month_long(
    input: &[u8],
    modifiers: modifier::MonthLong,
) -> Option<ParsedItem<'_, Month>>
    ensures { Finds (Spells false (component.MonthLong modifiers)) month input.now result }
{
    let modifier::MonthLong { case_sensitive } = modifiers;
    let short = parse_month_short(input, modifier::MonthShort { case_sensitive })?;
    let ending = ending_of(short.0, month_ending(short.1), case_sensitive)?;
    Some(ParsedItem(ending.0, short.1))
}

/// Parses the number of a month, 1 to 12: two ASCII digits; `Padding::Space` also allows a space and a digit, and
/// `Padding::None` one digit. Returns `None` if the input doesn't begin with such a number, as for `00` or `13`.
#[inline]
pub fn parse_month_numerical(
    input: &[u8],
    modifiers: modifier::MonthNumerical,
) -> Option<ParsedItem<'_, Month>>
    ensures { Finds (Spells false (component.MonthNumerical modifiers)) month input.now result }
{
    let modifier::MonthNumerical { padding } = modifiers;
    let number = two_digits(input, padding)?;
    match Month::from_number(NonZero::<u8>::new(number.1)?) {
        Ok(month) => Some(ParsedItem(number.0, month)),
        Err(_) => None,
    }
}

/// Parses the number of an ISO week, 0 to 99: two ASCII digits; `Padding::Space` also allows a space and a digit, and
/// `Padding::None` one digit. Returns `None` if the input doesn't begin with such a number.
#[inline]
pub fn parse_week_number_iso(
    input: &[u8],
    modifiers: modifier::WeekNumberIso,
) -> Option<ParsedItem<'_, u8>>
    ensures { Finds (Spells false (component.WeekNumberIso modifiers)) number input.now result }
{
    let modifier::WeekNumberIso { padding } = modifiers;
    two_places(input, padding)
}

/// Parses the number of a week that begins on Sunday, 0 to 99: two ASCII digits; `Padding::Space` also allows a space
/// and a digit, and `Padding::None` one digit. Returns `None` if the input doesn't begin with such a number.
#[inline]
pub fn parse_week_number_sunday(
    input: &[u8],
    modifiers: modifier::WeekNumberSunday,
) -> Option<ParsedItem<'_, u8>>
    ensures { Finds (Spells false (component.WeekNumberSunday modifiers)) number input.now result }
{
    let modifier::WeekNumberSunday { padding } = modifiers;
    two_places(input, padding)
}

/// Parses the number of a week that begins on Monday, 0 to 99: two ASCII digits; `Padding::Space` also allows a space
/// and a digit, and `Padding::None` one digit. Returns `None` if the input doesn't begin with such a number.
#[inline]
pub fn parse_week_number_monday(
    input: &[u8],
    modifiers: modifier::WeekNumberMonday,
) -> Option<ParsedItem<'_, u8>>
    ensures { Finds (Spells false (component.WeekNumberMonday modifiers)) number input.now result }
{
    let modifier::WeekNumberMonday { padding } = modifiers;
    two_places(input, padding)
}

/// Parses the first three letters of a weekday's English name: exactly such as `Mon` if `case_sensitive`, otherwise in
/// any ASCII case. Returns `None` if the input doesn't begin with such letters.
#[inline(always)]
pub fn parse_weekday_short(
    input: &[u8],
    modifiers: modifier::WeekdayShort,
) -> Option<ParsedItem<'_, Weekday>>
    ensures { Finds (Spells false (component.WeekdayShort modifiers)) weekday input.now result }
{
    let modifier::WeekdayShort { case_sensitive } = modifiers;
    match fast::weekday_short(input, case_sensitive) {
        Some(weekday) => Some(weekday),
        None => names::weekday_short(input, case_sensitive),
    }
}

/// Parses a weekday's whole English name: exactly such as `Monday` if `case_sensitive`, otherwise in any ASCII case.
/// Returns `None` if the input doesn't begin with such a name.
#[inline]
pub fn parse_weekday_long(
    input: &[u8],
    modifiers: modifier::WeekdayLong,
) -> Option<ParsedItem<'_, Weekday>>
    ensures { Finds (Spells false (component.WeekdayLong modifiers)) weekday input.now result }
{
    let modifier::WeekdayLong { case_sensitive } = modifiers;
    let short = parse_weekday_short(input, modifier::WeekdayShort { case_sensitive })?;
    let ending = ending_of(short.0, weekday_ending(short.1), case_sensitive)?;
    Some(ParsedItem(ending.0, short.1))
}

/// Parses the number of a weekday, counted from Sunday: one digit, `0` to `6`, or `1` to `7` with `one_indexed`.
/// Returns `None` if the input doesn't begin with such a digit.
#[inline]
pub fn parse_weekday_sunday(
    input: &[u8],
    modifiers: modifier::WeekdaySunday,
) -> Option<ParsedItem<'_, Weekday>>
    ensures { Finds (Spells false (component.WeekdaySunday modifiers)) weekday input.now result }
{
    let modifier::WeekdaySunday { one_indexed } = modifiers;
    let digit = weekday_digit(input, one_indexed)?;
    Some(ParsedItem(digit.0, Weekday::from_days_from_monday((digit.1 + 6) % 7)))
}

/// Parses the number of a weekday, counted from Monday: one digit, `0` to `6`, or `1` to `7` with `one_indexed`.
/// Returns `None` if the input doesn't begin with such a digit.
#[inline]
pub fn parse_weekday_monday(
    input: &[u8],
    modifiers: modifier::WeekdayMonday,
) -> Option<ParsedItem<'_, Weekday>>
    ensures { Finds (Spells false (component.WeekdayMonday modifiers)) weekday input.now result }
{
    let modifier::WeekdayMonday { one_indexed } = modifiers;
    let digit = weekday_digit(input, one_indexed)?;
    Some(ParsedItem(digit.0, Weekday::from_days_from_monday(digit.1)))
}

/// Parses the day of the year, 1 to 999: three ASCII digits; `Padding::Space` also allows up to two spaces in place of
/// the first digits, and `Padding::None` one or two digits. Returns `None` if the input doesn't begin with such a
/// number.
#[inline]
pub fn parse_ordinal(
    input: &[u8],
    modifiers: modifier::Ordinal,
) -> Option<ParsedItem<'_, NonZero<u16>>>
    ensures { Finds (Spells false (component.Ordinal modifiers)) (λ n. number n.value) input.now result }
{
    let modifier::Ordinal { padding } = modifiers;
    match fast::ordinal(input, padding) {
        Some(ordinal) => Some(ordinal),
        None => numbers::ordinal(input, padding),
    }
}

/// Parses the day of the month, 1 to 99: two ASCII digits; `Padding::Space` also allows a space and a digit, and
/// `Padding::None` one digit. Returns `None` if the input doesn't begin with such a number.
#[inline]
pub fn parse_day(input: &[u8], modifiers: modifier::Day) -> Option<ParsedItem<'_, NonZero<u8>>>
    ensures { Finds (Spells false (component.Day modifiers)) (λ n. number n.value) input.now result }
{
    let modifier::Day { padding } = modifiers;
    let day = two_digits(input, padding)?;
    Some(ParsedItem(day.0, NonZero::<u8>::new(day.1)?))
}

/// Parses the hour of a 12-hour clock, 0 to 99: two ASCII digits; `Padding::Space` also allows a space and a digit, and
/// `Padding::None` one digit. Returns `None` if the input doesn't begin with such a number.
#[inline]
pub fn parse_hour_12(input: &[u8], modifiers: modifier::Hour12) -> Option<ParsedItem<'_, u8>>
    ensures { Finds (Spells false (component.Hour12 modifiers)) number input.now result }
{
    let modifier::Hour12 { padding } = modifiers;
    two_places(input, padding)
}

/// Parses the hour of a 24-hour clock, 0 to 99: two ASCII digits; `Padding::Space` also allows a space and a digit, and
/// `Padding::None` one digit. Returns `None` if the input doesn't begin with such a number.
#[inline]
pub fn parse_hour_24(input: &[u8], modifiers: modifier::Hour24) -> Option<ParsedItem<'_, u8>>
    ensures { Finds (Spells false (component.Hour24 modifiers)) number input.now result }
{
    let modifier::Hour24 { padding } = modifiers;
    two_places(input, padding)
}

/// Parses the minute, 0 to 99: two ASCII digits; `Padding::Space` also allows a space and a digit, and `Padding::None`
/// one digit. Returns `None` if the input doesn't begin with such a number.
#[inline]
pub fn parse_minute(input: &[u8], modifiers: modifier::Minute) -> Option<ParsedItem<'_, u8>>
    ensures { Finds (Spells false (component.Minute modifiers)) number input.now result }
{
    let modifier::Minute { padding } = modifiers;
    two_places(input, padding)
}

/// Parses the second, 0 to 99: two ASCII digits; `Padding::Space` also allows a space and a digit, and `Padding::None`
/// one digit. Returns `None` if the input doesn't begin with such a number.
#[inline]
pub fn parse_second(input: &[u8], modifiers: modifier::Second) -> Option<ParsedItem<'_, u8>>
    ensures { Finds (Spells false (component.Second modifiers)) number input.now result }
{
    let modifier::Second { padding } = modifiers;
    two_places(input, padding)
}

/// Parses the half of the day. With `case_sensitive`, the text is `AM` or `PM` if `is_uppercase`, and else `am` or
/// `pm`; without it, either in any ASCII case. Returns `None` if the input doesn't begin with such a text.
#[inline]
pub fn parse_period(input: &[u8], modifiers: modifier::Period) -> Option<ParsedItem<'_, Period>>
    ensures { Finds (Spells false (component.Period modifiers)) period input.now result }
{
    match fast::period(input, modifiers) {
        Some(period) => Some(period),
        None => names::period(input, modifiers),
    }
}

/// Parses the digits of a fraction of a second, without a separator, as nanoseconds, 0 to 999999999. The text is
/// exactly the given number of ASCII digits. With `OneOrMore` it is all leading digits up to 32, and those after the
/// ninth don't change the value. Returns `None` if the input begins with too few digits.
pub fn parse_subsecond(input: &[u8], modifiers: modifier::Subsecond) -> Option<ParsedItem<'_, u32>>
    ensures { Finds (Spells false (component.Subsecond modifiers)) number input.now result }
{
    let modifier::Subsecond { digits } = modifiers;
    match digits {
        SubsecondDigits::One => fraction::<1>(input),
        SubsecondDigits::Two => fraction::<2>(input),
        SubsecondDigits::Three => fraction::<3>(input),
        SubsecondDigits::Four => fraction::<4>(input),
        SubsecondDigits::Five => fraction::<5>(input),
        SubsecondDigits::Six => fraction::<6>(input),
        SubsecondDigits::Seven => fraction::<7>(input),
        SubsecondDigits::Eight => fraction::<8>(input),
        SubsecondDigits::Nine => fraction::<9>(input),
        SubsecondDigits::OneOrMore => long_fraction(input),
    }
}

/// Parses the hours of an offset from UTC, -99 to 99, negative after `-`, with or without a sign: two ASCII digits;
/// `Padding::Space` also allows a space and a digit, and `Padding::None` one digit. The bool is whether the sign is
/// `-`. Returns `None` if the input doesn't begin with such a text, or if a mandatory sign is missing.
#[inline(always)]
pub fn parse_offset_hour(
    input: &[u8],
    modifiers: modifier::OffsetHour,
) -> Option<ParsedItem<'_, (i8, bool)>>
    ensures { Finds (Spells false (component.OffsetHour modifiers)) (λ v. flagged v.0 v.1) input.now result }
{
    let modifier::OffsetHour {
        padding,
        sign_is_mandatory,
    } = modifiers;
    offset_hour(input, padding, sign_is_mandatory)
}

/// Parses the minutes of an offset from UTC, 0 to 99, without a sign: two ASCII digits; `Padding::Space` also allows a
/// space and a digit, and `Padding::None` one digit. Returns `None` if the input doesn't begin with such a number.
#[inline]
pub fn parse_offset_minute(
    input: &[u8],
    modifiers: modifier::OffsetMinute,
) -> Option<ParsedItem<'_, i8>>
    ensures { Finds (Spells false (component.OffsetMinute modifiers)) signed input.now result }
{
    let modifier::OffsetMinute { padding } = modifiers;
    offset_part(input, padding)
}

/// Parses the seconds of an offset from UTC, 0 to 99, without a sign: two ASCII digits; `Padding::Space` also allows a
/// space and a digit, and `Padding::None` one digit. Returns `None` if the input doesn't begin with such a number.
#[inline]
pub fn parse_offset_second(
    input: &[u8],
    modifiers: modifier::OffsetSecond,
) -> Option<ParsedItem<'_, i8>>
    ensures { Finds (Spells false (component.OffsetSecond modifiers)) signed input.now result }
{
    let modifier::OffsetSecond { padding } = modifiers;
    offset_part(input, padding)
}

/// Skips `count` bytes of the input, even if they end inside a UTF-8 character. Returns `None` if the input has fewer.
#[inline]
pub fn parse_ignore(input: &[u8], modifiers: modifier::Ignore) -> Option<ParsedItem<'_, ()>>
    ensures { Finds (Spells false (component.Ignore modifiers)) (λ unit. nothing) input.now result }
{
    let modifier::Ignore { count } = modifiers;
    let (_, rest) = input.split_at_checked(usize::from(count.get()))?;
    Some(ParsedItem(rest, ()))
}

/// Parses seconds since 1970-01-01T00:00:00Z, in 1 to 14 ASCII digits, with or without a sign, and returns them in
/// nanoseconds, negative after `-`. Returns `None` if the input doesn't begin with such a text, or if a mandatory sign
/// is missing.
#[inline]
pub fn parse_unix_timestamp_second(
    input: &[u8],
    modifiers: modifier::UnixTimestampSecond,
) -> Option<ParsedItem<'_, i128>>
    ensures { Finds (Spells false (component.UnixTimestampSecond modifiers)) signed input.now result }
{
    let modifier::UnixTimestampSecond { sign_is_mandatory } = modifiers;
    timestamp::<14>(input, 1_000_000_000, sign_is_mandatory)
}

/// Parses milliseconds since 1970-01-01T00:00:00Z, in 1 to 17 ASCII digits, with or without a sign, and returns them in
/// nanoseconds, negative after `-`. Returns `None` if the input doesn't begin with such a text, or if a mandatory sign
/// is missing.
#[inline]
pub fn parse_unix_timestamp_millisecond(
    input: &[u8],
    modifiers: modifier::UnixTimestampMillisecond,
) -> Option<ParsedItem<'_, i128>>
    ensures { Finds (Spells false (component.UnixTimestampMillisecond modifiers)) signed input.now result }
{
    let modifier::UnixTimestampMillisecond { sign_is_mandatory } = modifiers;
    timestamp::<17>(input, 1_000_000, sign_is_mandatory)
}

/// Parses microseconds since 1970-01-01T00:00:00Z, in 1 to 20 ASCII digits, with or without a sign, and returns them in
/// nanoseconds, negative after `-`. Returns `None` if the input doesn't begin with such a text, or if a mandatory sign
/// is missing.
#[inline]
pub fn parse_unix_timestamp_microsecond(
    input: &[u8],
    modifiers: modifier::UnixTimestampMicrosecond,
) -> Option<ParsedItem<'_, i128>>
    ensures { Finds (Spells false (component.UnixTimestampMicrosecond modifiers)) signed input.now result }
{
    let modifier::UnixTimestampMicrosecond { sign_is_mandatory } = modifiers;
    timestamp::<20>(input, 1_000, sign_is_mandatory)
}

/// Parses nanoseconds since 1970-01-01T00:00:00Z, in 1 to 23 ASCII digits, with or without a sign, and returns them,
/// negative after `-`. Returns `None` if the input doesn't begin with such a text, or if a mandatory sign is missing.
#[inline]
pub fn parse_unix_timestamp_nanosecond(
    input: &[u8],
    modifiers: modifier::UnixTimestampNanosecond,
) -> Option<ParsedItem<'_, i128>>
    ensures { Finds (Spells false (component.UnixTimestampNanosecond modifiers)) signed input.now result }
{
    let modifier::UnixTimestampNanosecond { sign_is_mandatory } = modifiers;
    timestamp::<23>(input, 1, sign_is_mandatory)
}

/// Parses the end of the input. `Discard` skips all trailing bytes, so that the rest is empty. Returns `None` if there
/// are trailing bytes and they are prohibited.
#[inline]
pub fn parse_end(input: &[u8], modifiers: modifier::End) -> Option<ParsedItem<'_, ()>>
    ensures { Finds (Spells false (component.End modifiers)) (λ unit. nothing) input.now result }
{
    let modifier::End { trailing_input } = modifiers;
    match trailing_input {
        TrailingInput::Prohibit if input.is_empty() => Some(ParsedItem(input, ())),
        TrailingInput::Prohibit => None,
        TrailingInput::Discard => Some(ParsedItem(&input[input.len()..], ())),
    }
}
