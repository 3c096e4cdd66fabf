//! Fast paths for the commonest moments of RFC 3339, which read many bytes at once.
//!
//! Each returns what the library's parser does, or `None` if the fast path doesn't apply.
pub(super) mod iso8601;
pub(super) mod rfc2822;

ghost use Rattle.std.specs.Prelude.{◌≡◌, ◌<◌, ◌≤◌, IfSome, Ok, None, [], false, pos};
ghost use Rattle.time_values.specs.Offsets.{HasOffset, offset_refusal};
ghost use Rattle.time_values.specs.Calendar.{greatest_year};
ghost use Rattle.time_values.specs.Refusal.{Constructs};
ghost use Rattle.time_digits.specs.Digits.{Cut};
ghost use Rattle.time_readers.specs.Direct.{HasDate, IsMade, RefusesRfc3339, date_refusal};
ghost use Rattle.time_readers.specs.Readers.{MatchesPlaces};
ghost use Rattle.time_readers.specs.Rfc3339.{PlaceSyntax, offset_places};
ghost use Rattle.time_readers.specs.declared.rfc3339.Place.TheVariants as place;
ghost use Rattle.time_parsing.specs.Outcome.{direct};
ghost use Rattle.time_parsing.specs.Rfc3339.{Reads, Refuses};
ghost use Rattle.pelzaune_ffi.specs.Results.{of_moment};

use std::num::NonZero;
use time_readers::combinator::fraction;
use time_readers::direct::{MomentNumbers, rfc3339_numbers};
use time_readers::rfc3339::Numbers;
use time_readers::rfc3339::fast::to_second;
use time_values::{Date, Month, OffsetDateTime, Time, UtcOffset};

// The numbers with the nanoseconds of a fraction, if the rest starts with `.`, and the bytes after it. Digits after the
// ninth are ignored. Without a `.`, both are unchanged. `None`: no digit follows the `.`.
#[inline(always)]
fn subsecond(numbers: Numbers, rest: &[u8]) -> Option<(Numbers, &[u8])>
    requires { numbers.subsecond ≡ None }
    ensures { IfSome result (λ found. Cut (PlaceSyntax false place.Subsecond numbers) rest.now found.1.now found.0) }
{
    let [b'.', digits @ ..] = rest else {
        return Some((numbers, rest));
    };
    let found = fraction(digits)?;
    let numbers = Numbers {
        subsecond: Some(found.1),
        ..numbers
    };
    Some((numbers, found.0))
}

// The numbers with the offset that is the whole rest: `Z`, or a sign, two digits up to 23, `:` and two digits up to 59.
// `None`: the rest is anything else.
#[inline(always)]
fn offset(numbers: Numbers, rest: &[u8]) -> Option<Numbers>
    requires utc { numbers.is_utc ≡ false }
    requires hour { numbers.offset_hour ≡ 0 }
    requires minute { numbers.offset_minute ≡ 0 }
    ensures matches { IfSome result (λ found. MatchesPlaces (PlaceSyntax false) offset_places numbers rest.now [] found) }
    ensures second { IfSome result (λ found. found.second ≡ numbers.second) }
    ensures hour { IfSome result (λ found. found.offset_hour ≤ 23) }
    ensures minute { IfSome result (λ found. found.offset_minute ≤ 59) }
{
    if let [b'Z'] = rest {
        return Some(Numbers {
            is_utc: true,
            ..numbers
        });
    }
    let [
        sign @ (b'-' | b'+'),
        a @ b'0'..=b'2',
        b @ b'0'..=b'9',
        b':',
        c @ b'0'..=b'5',
        d @ b'0'..=b'9',
    ] = rest
    else {
        return None;
    };
    let hour = 10 * (*a - b'0') + (*b - b'0');
    if hour > 23 {
        return None;
    }
    Some(Numbers {
        offset_is_negative: *sign == b'-',
        offset_hour: hour,
        offset_minute: 10 * (*c - b'0') + (*d - b'0'),
        ..numbers
    })
}

// The offset with the hour and minute of these numbers. That of UTC is a constant. `None`: the hour or the minute is
// out of range.
#[inline(always)]
fn offset_of(parts: MomentNumbers) -> Option<UtcOffset>
    ensures { IfSome result (λ o. Constructs (offset_refusal parts.offset_hour parts.offset_minute (pos 0))
        (HasOffset parts.offset_hour parts.offset_minute (pos 0)) (Ok o)) }
{
    if parts.offset_hour == 0 && parts.offset_minute == 0 {
        return Some(UtcOffset::UTC);
    }
    UtcOffset::from_hms(parts.offset_hour, parts.offset_minute, 0).ok()
}

// The date with the year, month and day of these numbers. `None`: the calendar has no such date.
#[inline(always)]
#[tactic(auto, using(crate::proofs::IsoInPlace::date_of))]
fn date_of(parts: MomentNumbers) -> Option<Date>
    ensures { IfSome result (λ d. Constructs (date_refusal greatest_year parts) (HasDate parts) (Ok d)) }
{
    let number = NonZero::<u8>::new(parts.month)?;
    let Ok(month) = Month::from_number(number) else {
        return None;
    };
    Date::from_calendar_date(i32::from(parts.year), month, parts.day).ok()
}

// The moment with these numbers, whose second is below 60. `None`: the date, the time or the offset is out of range.
#[inline(always)]
fn moment_from(parts: MomentNumbers) -> Option<OffsetDateTime>
    requires { parts.second < 60 }
    ensures { IfSome result (λ v. IsMade greatest_year parts v) }
{
    let offset = offset_of(parts)?;
    let date = date_of(parts)?;
    let time = Time::from_hms_nano(parts.hour, parts.minute, parts.second, parts.nanosecond);
    let Ok(time) = time else {
        return None;
    };
    Some(OffsetDateTime::new_in_offset(date, time, offset))
}

// The moment of a whole text of RFC 3339. `None`: the fast path doesn't apply, as to a leap second or a rejected text.
#[inline(always)]
pub(super) fn moment(text: &[u8]) -> Option<OffsetDateTime>
    ensures { IfSome result (λ v. of_moment (direct (RefusesRfc3339 greatest_year)) (Reads greatest_year)
        (Refuses greatest_year) text.now (Ok v)) }
{
    // Tests the length once for all the fixed-width parts.
    if text.len() < 20 {
        return None;
    }
    let mut numbers = Numbers::NONE;
    let rest = to_second::<false>(text, &mut numbers)?;
    let (numbers, rest) = subsecond(numbers, rest)?;
    moment_from(rfc3339_numbers(offset(numbers, rest)?))
}
