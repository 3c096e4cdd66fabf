//! A slow parser of RFC 3339.
use crate::errors::{
    NO_DAY, NO_HOUR, NO_LEAP_SECOND, NO_MINUTE, NO_MINUTES, NO_MONTH, NO_SECOND, TRAILING,
};
use crate::formats::Numbers;
use time_values::Month;
use time_values::error::{Parse, ParseFromDescription};

const LITERAL: ParseFromDescription = ParseFromDescription::InvalidLiteral;

/// A place of a date and time, up to the second.
#[derive(Clone, Copy)]
enum Place {
    /// The index of a required byte, and the byte.
    Byte(usize, u8),
    /// The index of any byte, and the place's name.
    Any(usize, &'static str),
    /// The indices at which digits start and end, the least number of that form, the least and the greatest in
    /// range, and the place's name.
    Number(usize, usize, u32, u32, u32, &'static str),
}

// The places up to the second, in their order.
static FRONT: [Place; 11] = [
    Place::Number(0, 4, 0, 0, 9999, "year"),
    Place::Byte(4, b'-'),
    Place::Number(5, 7, 1, 1, 12, "month"),
    Place::Byte(7, b'-'),
    Place::Number(8, 10, 0, 1, 31, "day"),
    Place::Any(10, "separator"),
    Place::Number(11, 13, 0, 0, 23, "hour"),
    Place::Byte(13, b':'),
    Place::Number(14, 16, 0, 0, 59, "minute"),
    Place::Byte(16, b':'),
    Place::Number(17, 19, 0, 0, 60, "second"),
];

// The index at which the last of these places ends.
const FRONT_END: usize = 19;

// The number of the bytes from `begin` to before `end`; `None` if the text is shorter, or a byte isn't a digit.
fn number(text: &[u8], begin: usize, end: usize) -> Option<u32> {
    let mut number = 0_u32;
    for byte in text.get(begin..end)? {
        if *byte < b'0' || b'9' < *byte {
            return None;
        }
        number = number
            .wrapping_mul(10)
            .wrapping_add(u32::from(byte.wrapping_sub(b'0')));
    }
    Some(number)
}

// The error of the place in the text, with a check of its range if `ranged`, and of its form alone otherwise; `None` if
// the place matches.
fn fault_at(text: &[u8], place: Place, ranged: bool) -> Option<ParseFromDescription> {
    let (is_match, fault) = match place {
        Place::Byte(at, byte) => (text.get(at) == Some(&byte), LITERAL),
        Place::Any(at, name) => (
            at < text.len(),
            ParseFromDescription::InvalidComponent(name),
        ),
        Place::Number(begin, end, least_form, least, greatest, name) => {
            let (least, greatest) = if ranged {
                (least, greatest)
            } else {
                (least_form, 9999)
            };
            let is_match = match number(text, begin, end) {
                Some(number) => least <= number && number <= greatest,
                None => false,
            };
            (is_match, ParseFromDescription::InvalidComponent(name))
        }
    };
    if is_match { None } else { Some(fault) }
}

// The error of the first place up to the second that fails; `None` if none does.
fn front_fault(text: &[u8], ranged: bool) -> Option<ParseFromDescription> {
    for place in &FRONT {
        let fault = fault_at(text, *place, ranged);
        if fault.is_some() {
            return fault;
        }
    }
    None
}

// The nanosecond of the fraction at the start of the text, to which nine digits contribute, and its length in bytes.
// Both are 0 without a point. `None` if no digit follows the point.
fn fraction(text: &[u8]) -> Option<(u32, usize)> {
    let Some((b'.', digits)) = text.split_first() else {
        return Some((0, 0));
    };
    let mut nanosecond = 0_u32;
    let mut unit = 100_000_000_u32;
    let mut bytes = 1_usize;
    for byte in digits {
        if *byte < b'0' || b'9' < *byte {
            break;
        }
        let digit = u32::from(byte.wrapping_sub(b'0'));
        nanosecond = nanosecond.wrapping_add(digit.wrapping_mul(unit));
        unit = unit / 10;
        bytes = bytes.wrapping_add(1);
    }
    if bytes == 1 {
        return None;
    }
    Some((nanosecond, bytes))
}

// The number, negated if `is_negative`.
fn signed(number: u32, is_negative: bool) -> i8 {
    let number = i8::try_from(number).unwrap_or(0);
    if is_negative {
        number.wrapping_neg()
    } else {
        number
    }
}

// The hours and minutes of the offset at the start of the text, both with its sign, and its length in bytes; or the
// error of the first place that fails. Minutes are at most 59 if `ranged`, and 99 otherwise.
fn offset(text: &[u8], ranged: bool) -> Result<(i8, i8, usize), ParseFromDescription> {
    let is_negative = match text.first().copied() {
        Some(b'Z' | b'z') => return Ok((0, 0, 1)),
        Some(b'+') => false,
        Some(b'-') => true,
        _ => return Err(ParseFromDescription::InvalidComponent("offset hour")),
    };
    let hours = match number(text, 1, 3) {
        Some(hours) if hours <= 23 => hours,
        _ => return Err(ParseFromDescription::InvalidComponent("offset hour")),
    };
    if text.get(3) != Some(&b':') {
        return Err(LITERAL);
    }
    let greatest = if ranged { 59 } else { 99 };
    match number(text, 4, 6) {
        Some(minutes) if minutes <= greatest => Ok((
            signed(hours, is_negative),
            signed(minutes, is_negative),
            6,
        )),
        _ => Err(ParseFromDescription::InvalidComponent("offset minute")),
    }
}

/// The parts after the second: the nanosecond, the hours and minutes of the offset, and how many bytes remain.
pub type Tail = (u32, (i8, i8), usize);

/// The parts after the second, with a check of ranges or of the form alone, or the error of the first place that
/// fails.
pub fn tail(text: &[u8], ranged: bool) -> Result<Tail, ParseFromDescription> {
    if let Some(fault) = front_fault(text, ranged) {
        return Err(fault);
    }
    let behind = text.get(FRONT_END..).ok_or(LITERAL)?;
    let (nanosecond, digits) = fraction(behind).ok_or(ParseFromDescription::InvalidComponent(
        "subsecond",
    ))?;
    let rest = behind.get(digits..).ok_or(LITERAL)?;
    let (hours, minutes, bytes) = offset(rest, ranged)?;
    Ok((
        nanosecond,
        (hours, minutes),
        rest.len().saturating_sub(bytes),
    ))
}

// Each month, and its days in a common year.
static MONTHS: [(Month, u8); 12] = [
    (Month::January, 31),
    (Month::February, 28),
    (Month::March, 31),
    (Month::April, 30),
    (Month::May, 31),
    (Month::June, 30),
    (Month::July, 31),
    (Month::August, 31),
    (Month::September, 30),
    (Month::October, 31),
    (Month::November, 30),
    (Month::December, 31),
];

// The month with the number, from 1, and its length in days in that year; `None` without such a month.
fn month(year: u32, number: usize) -> Option<(Month, u8)> {
    let (month, days) = *MONTHS.get(number.checked_sub(1)?)?;
    let is_leap = year % 4 == 0 && (year % 100 != 0 || year % 400 == 0);
    let days = if number == 2 && is_leap { 29 } else { days };
    Some((month, days))
}

// Whether the minute, given in local time at the offset, is the last of a month in UTC. The local month has `days`
// days.
fn ends_a_month(day: u8, days: u8, hour: u8, minute: u8, (hours, minutes): (i8, i8)) -> bool {
    let here = i32::from(hour)
        .wrapping_mul(60)
        .wrapping_add(i32::from(minute));
    let offset = i32::from(hours)
        .wrapping_mul(60)
        .wrapping_add(i32::from(minutes));
    match here.wrapping_sub(offset) {
        // The last minute of the day before, of this day, and of the next day.
        -1 => day == 1,
        1439 => day == days,
        2879 => day.wrapping_add(1) == days,
        _ => false,
    }
}

// The number of the digits from `begin` to before `end`, or 0 where they aren't digits.
fn pair(text: &[u8], begin: usize, end: usize) -> u8 {
    match number(text, begin, end) {
        Some(number) => u8::try_from(number).unwrap_or(0),
        None => 0,
    }
}

// The error of the first number of a time of day that is out of its range; `None` if none is.
fn clock_fault(hour: u8, minute: u8, second: u8) -> Option<Parse> {
    if hour > 23 {
        Some(NO_HOUR)
    } else if minute > 59 {
        Some(NO_MINUTE)
    } else if second > 60 {
        Some(NO_SECOND)
    } else {
        None
    }
}

// The numbers of a text whose form matches, or the error of the calendar.
fn dated(text: &[u8], nanosecond: u32, offset: (i8, i8)) -> Result<Numbers, Parse> {
    let year = number(text, 0, 4).unwrap_or(0);
    let (month, days) = month(year, usize::from(pair(text, 5, 7))).ok_or(NO_MONTH)?;
    let day = pair(text, 8, 10);
    if day == 0 || days < day {
        return Err(NO_DAY);
    }
    let (hour, minute, second) = (pair(text, 11, 13), pair(text, 14, 16), pair(text, 17, 19));
    if let Some(fault) = clock_fault(hour, minute, second) {
        return Err(fault);
    }
    let date = (i32::try_from(year).unwrap_or(0), month, day);
    let (hours, minutes) = offset;
    if second < 60 {
        return Ok((
            date,
            (hour, minute, second, nanosecond),
            (hours, minutes, 0),
        ));
    }
    if !ends_a_month(day, days, hour, minute, offset) {
        return Err(NO_LEAP_SECOND);
    }
    Ok((date, (hour, minute, 59, 999_999_999), (hours, minutes, 0)))
}

/// The numbers of the moment, or the error: over an empty record, where a number out of its range has an error of
/// form, or on the direct path.
pub fn moment(text: &[u8], ranged: bool) -> Result<Numbers, Parse> {
    let (nanosecond, offset, unread) = tail(text, ranged)?;
    if offset.1.unsigned_abs() > 59 {
        return Err(NO_MINUTES);
    }
    if unread != 0 {
        return Err(TRAILING);
    }
    dated(text, nanosecond, offset)
}
