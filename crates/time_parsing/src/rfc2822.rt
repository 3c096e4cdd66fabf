//! The format of mail dates, RFC 2822, section 3.3.
ghost use Rattle.std.specs.Prelude.{◌≡◌, ◌≤◌, Some, unsigned_abs};
ghost use Rattle.std.specs.Option.{ForSome};
ghost use Rattle.std.specs.Int.{IsInRange};
ghost use Rattle.time_values.specs.Calendar.{greatest_year};
ghost use Rattle.time_record.specs.Record.{put_all};
ghost use Rattle.time_readers.specs.Direct.{RefusesRfc2822};
ghost use Rattle.time_parsing.specs.Outcome.{direct};
ghost use Rattle.time_parsing.specs.Rfc3339.{without_offset_sign};
ghost use Rattle.time_parsing.specs.Rfc2822.{date_entries, time_entries, offset_entries};

use crate::Parsable;
use crate::parsable::moment_before;
use std::num::NonZero;
use time_readers::direct;
use time_readers::rfc2822::{Numbers, place_fault, read};
use time_record::Parsed;
use time_values::OffsetDateTime;
use time_values::error::Parse;

/// The format of mail dates, RFC 2822, as `Mon, 02 Jan 2021 03:04:05 +0000`.
///
/// A text needs the date, the time and the offset, whatever value it is parsed as. Blanks and comments may be where
/// [`Place`](time_readers::rfc2822::Place) lists blanks. The weekday may be missing, and isn't compared with the date.
/// Names match in any case. The year has four digits, from 1900, or two: 00 to 49 are 2000 to 2049, and 50 to 99 are
/// 1950 to 1999. The second may be missing. A missing second, the second's fraction and the second of a numeric offset
/// are those of the defaults, or else 0. But a default fraction without any second makes the time incomplete.
///
/// The offset is a sign, an hour 00 to 25 and a minute 00 to 59, or a zone name: `GMT`, `EST`, `EDT`, `CST`, `CDT`,
/// `MST`, `MDT`, `PST` or `PDT`; or, if fewer than three bytes remain, `UT` or one letter except `J`, both for UTC.
///
/// A second of 60 is a leap second. As `OffsetDateTime`, `UtcDateTime` or `Timestamp` it is the last nanosecond before,
/// which must end a month in UTC. [`Parsable::parse_time`] and [`Parsable::parse_plain_date_time`] reject it.
///
/// [`Parsable::parse_into`] returns the error of [`place_fault`] for the first of the fifteen places that doesn't match
/// or whose number is out of its range. But [`Parsable::parse_offset_date_time`] without defaults is
/// [`direct::rfc2822`]. It first checks the places, with no range but a year of 1900 or later, and then rejects bytes
/// that remain. Last it rejects the first of `day`, `hour`, `minute`, `second` and the offset's `hours` and `minutes`
/// that is out of range, and a leap second that isn't the last second of a month in UTC.
#[derive(Clone, Copy, Debug, PartialEq, Eq)]
pub struct Rfc2822;

// Stores day, month and year in the record, and the weekday if the text has one. Otherwise the record's weekday is
// unchanged.
#[inline(always)]
fn put_date(numbers: Numbers, parsed: &mut Parsed)
    requires day { IsInRange 1 31 numbers.day }
    requires year { numbers.year ≤ greatest_year }
    ensures { put_all greatest_year (date_entries numbers) parsed.old ≡ Some parsed.new }
{
    let Some(day) = NonZero::<u8>::new(numbers.day) else {
        unreachable!()
    };
    if let Some(weekday) = numbers.weekday {
        put!(parsed.set_weekday(weekday));
    }
    put!(parsed.set_day(day));
    put!(parsed.set_month(numbers.month));
    put!(parsed.set_year(i32::from(numbers.year)));
}

// Stores hour and minute in the record, and the second if the text has one. Otherwise the record's second is unchanged.
#[inline(always)]
fn put_time(numbers: Numbers, parsed: &mut Parsed)
    requires hour { numbers.hour ≤ 23 }
    requires minute { numbers.minute ≤ 59 }
    requires second { ForSome numbers.second (λ v. v ≤ 60) }
    ensures { put_all greatest_year (time_entries numbers) parsed.old ≡ Some parsed.new }
{
    put!(parsed.set_hour_24(numbers.hour));
    put!(parsed.set_minute(numbers.minute));
    if let Some(second) = numbers.second {
        put!(parsed.set_second(second));
    }
}

// Stores the hour of the offset in the record. For a numeric offset, which has a sign, also stores the minute, and
// leaves the second unchanged. For a zone name, sets minute and second to 0. Clears the flag of a negative offset,
// which only a description's offset hour sets.
#[inline(always)]
fn put_offset(numbers: Numbers, parsed: &mut Parsed)
    requires hour { unsigned_abs numbers.offset_hour ≤ 25 }
    requires minute { unsigned_abs numbers.offset_minute ≤ 59 }
    ensures { put_all greatest_year (offset_entries numbers.offset_sign numbers)
        (without_offset_sign parsed.old) ≡ Some parsed.new }
{
    parsed.forget_offset_sign();
    put!(parsed.set_offset_hour(numbers.offset_hour));
    if numbers.offset_sign.is_some() {
        put!(parsed.set_offset_minute_signed(numbers.offset_minute));
    } else {
        put!(parsed.set_offset_minute_signed(0));
        put!(parsed.set_offset_second_signed(0));
    }
}

impl Parsable for Rfc2822 {
    ghost use Rattle.time_parsing.specs.Rfc2822.{Reads, Refuses};

    ghost reads = { λ _. Reads greatest_year };

    ghost refuses = { λ _. Refuses greatest_year };

    ghost path = { λ _. direct (RefusesRfc2822 greatest_year) };

    #[inline(always)]
    fn parse_into<'a>(&self, input: &'a [u8], parsed: &mut Parsed) -> Result<&'a [u8], Parse> {
        match read::<true>(input) {
            Ok(found) => {
                put_date(found.1, parsed);
                put_time(found.1, parsed);
                put_offset(found.1, parsed);
                parsed.allow_leap_second();
                Ok(found.0)
            }
            Err(place) => Err(place_fault(place).into()),
        }
    }

    #[inline(always)]
    fn parse_offset_date_time(
        &self,
        input: &[u8],
        defaults: Option<Parsed>,
    ) -> Result<OffsetDateTime, Parse> {
        match defaults {
            None => direct::rfc2822(input),
            Some(defaults) => {
                let mut parsed = defaults;
                let rest = self.parse_into(input, &mut parsed)?;
                moment_before(rest, &parsed)
            }
        }
    }

    ghost use Rattle.time_parsing.specs.exact.Laws.{rfc2822_exact};

    ghost exact = { λ _. rfc2822_exact greatest_year };

    ghost use Rattle.time_parsing.specs.exact.Laws.{rfc2822_exact_path};

    ghost exact_path = { λ _. rfc2822_exact_path };
}
