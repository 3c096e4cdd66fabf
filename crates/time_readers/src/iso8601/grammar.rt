//! The texts of ISO 8601, parsed one piece after another.
ghost use Rattle.time_readers.specs.IsoTimes.{ReturnsDateAndTime, IsFloor, IsRounded};
ghost use Rattle.std.specs.Prelude.{◌≡◌, ◌≤◌, IfSome, ◌<◌};
ghost use Rattle.time_readers.specs.IsoPieces.{ReturnsPart, ReturnsPartOrFault};
ghost use Rattle.time_readers.specs.IsoGrammar.{Leaves, ReturnsForm};
ghost use Rattle.time_readers.specs.IsoDates as spec;
ghost use Rattle.time_readers.specs.IsoGrammar as parts;
ghost use Rattle.time_readers.specs.IsoOffsets.{offset_text};
ghost use Rattle.time_digits.specs.Digits.{AllDigits};

pub(super) mod pieces;
pub(super) mod times;

use crate::ParsedItem;
use crate::iso8601::grammar::pieces::{
    byte, day, dayk, dayo, month, sign, two_digits, up_to, week, year,
};
use crate::iso8601::grammar::times::time;
use crate::iso8601::{DateAndTime, DateNumbers, ExtendedKind, OffsetNumbers, Part};
use time_values::error::ParseFromDescription;
use time_values::sign::signed;

// Parses the date of a text, or returns its error, and the time after a required `T`: `None` if missing or invalid.
#[inline(never)]
pub(in crate::iso8601) fn date_and_time(
    input: &[u8],
) -> Result<DateAndTime<'_>, ParseFromDescription>
    ensures { ReturnsDateAndTime input.now result }
{
    let date = date(input)?;
    Ok(DateAndTime {
        date,
        time: time(date.rest, date.kind, true),
    })
}

// Parses the date of a text: a year, a `-` if the text is extended, and the first of three forms that matches then.
#[inline(always)]
#[tactic(auto, unfolding(crate::specs::IsoDates::date_text))]
pub(in crate::iso8601) fn date(input: &[u8]) -> Result<Part<'_, DateNumbers>, ParseFromDescription>
    ensures { ReturnsPartOrFault spec.iso_date (spec.date_text input.now) result }
{
    let Some(found) = year(input) else {
        return Err(ParseFromDescription::InvalidComponent("year"));
    };
    match byte::<b'-'>(found.0) {
        Some(after) => match after_year(after, found.1, true) {
            Ok(form) => Ok(Part {
                rest: form.0,
                value: form.1,
                kind: ExtendedKind::Extended,
            }),
            Err(fault) => Err(fault),
        },
        None => match after_year(found.0, found.1, false) {
            Ok(form) => Ok(Part {
                rest: form.0,
                value: form.1,
                kind: ExtendedKind::Basic,
            }),
            Err(fault) => Err(fault),
        },
    }
}

// Parses what follows a year and, if `is_extended`, its `-`: a month and a day, or else a day of the year, or else `W`,
// a week and a weekday. If none matches, the error is the third form's after a `W`, and else the first form's.
#[inline(always)]
#[tactic(auto, unfolding(crate::specs::IsoDates::forms))]
fn after_year(
    input: &[u8],
    year: i32,
    is_extended: bool,
) -> Result<ParsedItem<'_, DateNumbers>, ParseFromDescription>
    ensures { ReturnsForm spec.iso_date (spec.forms is_extended year input.now) result }
{
    let fault = match month_and_day(input, year, is_extended) {
        Ok(found) => return Ok(found),
        Err(fault) => fault,
    };
    if let Some(found) = dayo(input) {
        return Ok(ParsedItem(found.0, DateNumbers::Ordinal(year, found.1)));
    }
    match byte::<b'W'>(input) {
        Some(after) => week_and_weekday(after, year, is_extended),
        None => Err(fault),
    }
}

// Parses a month of 01 to 12 and a day of 01 to 99, with `-` between the two if `is_extended`. What precedes the month
// is parsed before. The error is that of the first piece that doesn't match: `month`, an invalid literal, or `day`.
#[inline(always)]
fn month_and_day(
    input: &[u8],
    year: i32,
    is_extended: bool,
) -> Result<ParsedItem<'_, DateNumbers>, ParseFromDescription>
    ensures { ReturnsForm spec.iso_date (spec.first_form is_extended year input.now) result }
{
    let Some(month) = month(input) else {
        return Err(ParseFromDescription::InvalidComponent("month"));
    };
    let Some(after) = dash(month.0, is_extended) else {
        return Err(ParseFromDescription::InvalidLiteral);
    };
    let Some(day) = day(after) else {
        return Err(ParseFromDescription::InvalidComponent("day"));
    };
    Ok(ParsedItem(day.0, DateNumbers::Calendar(year, month.1, day.1)))
}

// Parses a week of 01 to 99 and a weekday of 1 to 7, with `-` between the two if `is_extended`. The year and `W` are
// parsed before. The error is that of the first piece that doesn't match: `week`, an invalid literal, or `weekday`.
fn week_and_weekday(
    input: &[u8],
    year: i32,
    is_extended: bool,
) -> Result<ParsedItem<'_, DateNumbers>, ParseFromDescription>
    ensures { ReturnsForm spec.iso_date (spec.third_form is_extended year input.now) result }
{
    let Some(week) = week(input) else {
        return Err(ParseFromDescription::InvalidComponent("week"));
    };
    let Some(after) = dash(week.0, is_extended) else {
        return Err(ParseFromDescription::InvalidLiteral);
    };
    let Some(weekday) = dayk(after) else {
        return Err(ParseFromDescription::InvalidComponent("weekday"));
    };
    Ok(ParsedItem(weekday.0, DateNumbers::Week(year, week.1, weekday.1)))
}

// Parses `-` in an extended text, and nothing in a basic one. Returns the rest, or `None` if the `-` is missing.
#[inline(always)]
fn dash(input: &[u8], is_extended: bool) -> Option<&[u8]>
    ensures { Leaves (spec.dash is_extended input.now) result }
{
    if is_extended {
        byte::<b'-'>(input)
    } else {
        Some(input)
    }
}

/// Parses the offset of a text of that kind: capital `Z`, or a sign, an hour of two digits, 0 to 25, and a minute.
///
/// If the text isn't basic and a colon follows the hour, two digits from 0 to 59 must follow the colon. Otherwise the
/// minute is optional, and 0 if it is missing; if two digits follow the hour, they must be 0 to 59. In a basic text a
/// colon after the hour begins the rest. A parsed colon makes an unknown kind extended, and nothing else changes the
/// kind.
///
/// Returns `None` for any other text.
#[inline(always)]
#[tactic(auto, using(crate::proofs::IsoTimes::offset_by_pieces_is), unfolding(crate::specs::IsoGrammar::offset_by_pieces))]
pub fn offset(input: &[u8], kind: ExtendedKind) -> Option<Part<'_, OffsetNumbers>>
    ensures { ReturnsPart (offset_text kind input.now) result }
{
    if let Some(rest) = byte::<b'Z'>(input) {
        return Some(Part {
            rest,
            value: OffsetNumbers::Zulu,
            kind,
        });
    }
    let found = sign(input)?;
    let hour = up_to::<25>(found.0)?;
    let minute = offset_minute(hour.0, kind)?;
    let is_negative = found.1.is_negative();
    let numbers = OffsetNumbers::Numeric(
        signed(is_negative, hour.1),
        signed(is_negative, minute.value),
    );
    Some(Part {
        rest: minute.rest,
        value: numbers,
        kind: minute.kind,
    })
}

// Parses an offset's minute, 0 to 59; 0 if missing. The returned kind is extended after a parsed colon, else unchanged.
// `None`: the text isn't basic and a colon isn't followed by 00 to 59, or two digits above 59 follow without a colon.
#[inline(always)]
#[tactic(auto, unfolding(crate::specs::IsoGrammar::offset_minute))]
fn offset_minute(input: &[u8], kind: ExtendedKind) -> Option<Part<'_, u8>>
    ensures is { ReturnsPart (parts.offset_minute kind input.now) result }
    ensures within { IfSome result (λ p. p.value ≤ 59) }
{
    if kind.maybe_extended() {
        if let Some(after) = byte::<b':'>(input) {
            let minute = up_to::<59>(after)?;
            let kind = ExtendedKind::Extended;
            return Some(Part {
                rest: minute.0,
                value: minute.1,
                kind,
            });
        }
    }
    let minute = match two_digits(input) {
        Some(_) => up_to::<59>(input)?,
        None => ParsedItem(input, 0),
    };
    Some(Part {
        rest: minute.0,
        value: minute.1,
        kind,
    })
}

/// The fraction of a unit, truncated to a whole number.
///
/// For n digits of value w, it is the floor of w * unit / 10^n. Without digits it is 0.
///
/// `digits` are the bytes `0` to `9` after the point, any number of them, and `unit` is 1 to 3600000000000,
/// the nanoseconds of an hour.
pub fn floor_fraction(digits: &[u8], unit: u64) -> u64
    requires digits { AllDigits digits.now }
    requires least { 1 ≤ unit }
    requires most { unit ≤ 3_600_000_000_000 }
    ensures floor { IsFloor digits.now unit result }
    ensures below { result < unit }
{
    carried(digits, unit)
}

/// The fraction of a unit, rounded to the nearest whole number, and a half up.
///
/// For n digits of value w, it is w * unit / 10^n, rounded. Without digits it is 0. It is the unit itself if
/// w * unit / 10^n is at least unit - 1/2.
///
/// `digits` are the bytes `0` to `9` after the point, any number of them, and `unit` is 1 to 3600000000000,
/// the nanoseconds of an hour.
pub fn round_fraction(digits: &[u8], unit: u64) -> u64
    requires digits { AllDigits digits.now }
    requires least { 1 ≤ unit }
    requires most { unit ≤ 3_600_000_000_000 }
    ensures { IsRounded digits.now unit result }
{
    // The fraction, rounded half up, is half of this sum, truncated: the floor of twice the fraction, plus one.
    (carried(digits, 2 * unit) + 1) / 2
}

// The fraction of a unit, truncated to a whole number. Computed from the last digit to the first: the floor of the
// later digits' fraction is carried to the digit before.
fn carried(digits: &[u8], unit: u64) -> u64
    requires digits { AllDigits digits.now }
    requires least { 1 ≤ unit }
    requires most { unit ≤ 7_200_000_000_000 }
    ensures floor { IsFloor digits.now unit result }
    ensures below { result < unit }
{
    let mut count = digits.len();
    let mut carry = 0;
    while count > 0 {
        count -= 1;
        let digit = digits[count] - b'0';
        carry = (u64::from(digit) * unit + carry) / 10;
    }
    carry
}
