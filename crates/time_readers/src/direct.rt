//! The direct paths of RFC 3339 and RFC 2822, which parse a text as a moment without a record in between.
//!
//! They check the forms of all places first, and then the date, the time and the offset. So their errors differ from
//! those of a parse over a record: `2021-13-01T00:00:00Z` gives a month out of range, and not an invalid component.
ghost use Rattle.std.specs.Prelude.{◌≡◌, ◌≢◌, ◌≤◌, [], MatchResult, IsTrue, ◌↔◌, Some, None, pos, unsigned_abs};
ghost use Rattle.time_values.specs.Names.{month_number, month_refusal};
ghost use Rattle.time_values.specs.Offsets.{HasOffset, offset_refusal};
ghost use Rattle.time_values.specs.Calendar.{greatest_year};
ghost use Rattle.time_values.specs.Refusal.{Constructs, refusal_of, refusal_of_range};
ghost use Rattle.time_values.specs.Times.{HasClock, time_refusal};
ghost use Rattle.time_readers.specs.Direct.{moment_second, moment_nanosecond, date_refusal, first_refusal, HasDate, IsMoment, IsLeapSecondValid, rfc3339_numbers, rfc2822_numbers, IsMade, IsNotMade, IsRefusedAfter, DirectRfc3339, DirectRfc2822};

use crate::{rfc2822, rfc3339};
use std::num::NonZero;
use time_values::error::{ComponentRange, Parse, ParseFromDescription, TryFromParsed};
use time_values::sign::signed;
use time_values::{Date, Month, OffsetDateTime, Time, UtcOffset};

/// The numbers of a text of RFC 3339 or RFC 2822, from which this module's parsers make an `OffsetDateTime`.
///
/// Most ranges aren't checked yet: apart from its sign, a number of two digits may be up to 99. The month isn't 0.
///
/// No parser returns it. It is public for `pelzaune_ffi`, and for laws that compare parses over a `Parsed` record.
#[derive(Clone, Copy, Debug)]
pub struct MomentNumbers {
    /// The year, 0 to 9999.
    pub year: u16,
    /// The number of the month, 1 for January. It isn't 0, but may be above 12.
    pub month: u8,
    /// The day of the month, 0 to 99.
    pub day: u8,
    /// The hour, 0 to 99.
    pub hour: u8,
    /// The minute, 0 to 99.
    pub minute: u8,
    /// The second, 0 to 99. 60 is a leap second.
    pub second: u8,
    /// The fraction of the second, in nanoseconds, 0 to 999999999.
    pub nanosecond: u32,
    /// The hour of the offset, with the offset's sign, -99 to 99.
    pub offset_hour: i8,
    /// The minute of the offset, with the offset's sign, -99 to 99.
    pub offset_minute: i8,
}

/// Parses a whole text of RFC 3339, section 5.6, as a moment.
///
/// A missing fraction is 0, and digits after its ninth are dropped. A leap second, a second of 60 with any fraction, is
/// parsed as second 59 and 999999999 nanoseconds.
///
/// # Errors
///
/// In this order: the error of the first place that doesn't match, by [`rfc3339::place_fault`], as a month `00` or an
/// offset's hour above 23; a `ComponentRange` of `minutes`, for an offset's minute above 59; unexpected trailing
/// characters; a `ComponentRange` of the first of `month`, `day` (conditional), `hour`, `minute` and `second` that is
/// out of range; and a conditional one of `second` if a leap second isn't the last second of a month in UTC.
pub fn rfc3339(input: &[u8]) -> Result<OffsetDateTime, Parse>
    ensures { DirectRfc3339 greatest_year input.now result }
{
    let found = match rfc3339::read::<false>(input) {
        Ok(found) => found,
        Err(place) => return Err(rfc3339::place_fault(place).into()),
    };
    let numbers = found.1;
    if numbers.offset_minute > 59 {
        return Err(TryFromParsed::ComponentRange(ComponentRange {
            name: "minutes",
            conditional: false,
        })
        .into());
    }
    whole(found.0, rfc3339_numbers(numbers))
}

/// Parses a whole mail date of RFC 2822, section 3.3, as a moment.
///
/// A missing second is 0. A leap second, a second of 60, is parsed as second 59 and 999999999 nanoseconds. The weekday
/// isn't compared with the date.
///
/// # Errors
///
/// In this order: the error of the first place that doesn't match, by [`rfc2822::place_fault`]; unexpected trailing
/// characters; a `ComponentRange` of the first of `day` (conditional), `hour`, `minute`, `second` and the offset's
/// `hours` and `minutes` that is out of range; and a conditional one of `second` if a leap second ends no UTC month.
pub fn rfc2822(input: &[u8]) -> Result<OffsetDateTime, Parse>
    ensures { DirectRfc2822 greatest_year input.now result }
{
    match rfc2822::read::<false>(input) {
        Ok(found) => whole(found.0, rfc2822_numbers(found.1)),
        Err(place) => Err(rfc2822::place_fault(place).into()),
    }
}

/// The moment's numbers from those of RFC 3339. A missing fraction is 0. The hour and the minute of the offset get its
/// sign. `is_utc` isn't used, since the parsed hour and minute of `Z` are 0.
#[inline(always)]
pub fn rfc3339_numbers(numbers: rfc3339::Numbers) -> MomentNumbers
    requires hour { numbers.offset_hour ≤ 23 }
    requires minute { numbers.offset_minute ≤ 59 }
    ensures { result ≡ rfc3339_numbers numbers }
{
    MomentNumbers {
        year: numbers.year,
        month: numbers.month,
        day: numbers.day,
        hour: numbers.hour,
        minute: numbers.minute,
        second: numbers.second,
        nanosecond: numbers.subsecond.unwrap_or(0),
        offset_hour: signed(numbers.offset_is_negative, numbers.offset_hour),
        offset_minute: signed(numbers.offset_is_negative, numbers.offset_minute),
    }
}

/// The moment's numbers from those of a mail date. A missing second is 0, and the nanosecond is 0. The weekday is
/// dropped.
#[inline(always)]
pub fn rfc2822_numbers(numbers: rfc2822::Numbers) -> MomentNumbers
    ensures { result ≡ rfc2822_numbers numbers }
{
    MomentNumbers {
        year: numbers.year,
        month: numbers.month.number(),
        day: numbers.day,
        hour: numbers.hour,
        minute: numbers.minute,
        second: numbers.second.unwrap_or(0),
        nanosecond: 0,
        offset_hour: numbers.offset_hour,
        offset_minute: numbers.offset_minute,
    }
}

// The moment of the numbers. The error is unexpected trailing characters if `rest`, the bytes after the text, isn't
// empty, and else that of `moment`.
#[inline(always)]
fn whole(rest: &[u8], said: MomentNumbers) -> Result<OffsetDateTime, Parse>
    requires year { said.year ≤ greatest_year }
    requires month { said.month ≢ 0 }
    ensures { MatchResult result
        (λ v. (rest.now ≡ []) × IsMade greatest_year said v)
        (λ e. IsRefusedAfter greatest_year None said rest.now (refusal_of e)) }
{
    if !rest.is_empty() {
        return Err(ParseFromDescription::UnexpectedTrailingCharacters.into());
    }
    match moment(said) {
        Ok(moment) => Ok(moment),
        Err(e) => Err(TryFromParsed::ComponentRange(e).into()),
    }
}

// The moment of the numbers. The error is that of the first number out of range, and else conditional `second` if a
// second of 60 isn't the last of a month in UTC.
#[inline(always)]
fn moment(said: MomentNumbers) -> Result<OffsetDateTime, ComponentRange>
    requires year { said.year ≤ greatest_year }
    requires month { said.month ≢ 0 }
    ensures { MatchResult result
        (λ v. IsMade greatest_year said v)
        (λ e. IsNotMade greatest_year said (refusal_of_range e)) }
{
    let moment = moment_of(said)?;
    if is_leap_second_valid(said, moment) {
        return Ok(moment);
    }
    Err(ComponentRange {
        name: "second",
        conditional: true,
    })
}

// Whether the second isn't 60, or `moment`, that of these numbers, is the last nanosecond of a month in UTC.
#[inline(always)]
#[tactic(auto, unfolding(crate::specs::Direct::IsLeapSecondValid))]
fn is_leap_second_valid(said: MomentNumbers, moment: OffsetDateTime) -> bool
    ensures { IsTrue result ↔ IsLeapSecondValid greatest_year said moment }
{
    said.second != 60 || moment.is_valid_leap_second_stand_in()
}

// The moment of the numbers, or the error of the first of month, day, hour, minute, second and offset that is out of
// range. A second of 60 is accepted in any minute, and stored as second 59 and 999999999 nanoseconds.
#[inline(always)]
fn moment_of(said: MomentNumbers) -> Result<OffsetDateTime, ComponentRange>
    requires year { said.year ≤ greatest_year }
    requires month { said.month ≢ 0 }
    ensures { MatchResult result
        (λ v. (first_refusal greatest_year said ≡ None) × IsMoment said v)
        (λ e. first_refusal greatest_year said ≡ Some (refusal_of_range e)) }
{
    let date = date(said)?;
    let time = clock(said)?;
    let offset = offset(said)?;
    Ok(OffsetDateTime::new_in_offset(date, time, offset))
}

// The date of the numbers, or the error of the month, or else of the day.
#[inline(always)]
#[tactic(auto, using(crate::proofs::MailRanges::month_refused, crate::proofs::MailRanges::date_made))]
fn date(said: MomentNumbers) -> Result<Date, ComponentRange>
    requires year { said.year ≤ greatest_year }
    requires month { said.month ≢ 0 }
    ensures { Constructs (date_refusal greatest_year said) (HasDate said) result }
{
    let month = month(said.month)?;
    Date::from_calendar_date(i32::from(said.year), month, said.day)
}

// The month of that number, 1 for January, or the error of a number above 12.
#[inline(always)]
fn month(number: u8) -> Result<Month, ComponentRange>
    requires { number ≢ 0 }
    ensures { Constructs (month_refusal number) (λ m. month_number m ≡ number) result }
{
    match NonZero::<u8>::new(number) {
        Some(number) => Month::from_number(number),
        None => unreachable!(),
    }
}

// The time of day of the numbers, or the error of the first that is out of range. A second of 60 is stored as second 59
// and 999999999 nanoseconds.
#[inline(always)]
fn clock(said: MomentNumbers) -> Result<Time, ComponentRange>
    ensures { Constructs (time_refusal said.hour said.minute (moment_second said) (moment_nanosecond said))
        (HasClock said.hour said.minute (moment_second said) (moment_nanosecond said)) result }
{
    let (second, nanosecond) = if said.second == 60 {
        (59, 999_999_999)
    } else {
        (said.second, said.nanosecond)
    };
    Time::from_hms_nano(said.hour, said.minute, second, nanosecond)
}

// The offset of the numbers, or the error of the hour or else the minute, if it is out of range. For an hour and a
// minute of 0 it is a constant, equal to the result of `from_hms`.
#[inline(always)]
fn offset(said: MomentNumbers) -> Result<UtcOffset, ComponentRange>
    ensures { Constructs (offset_refusal said.offset_hour said.offset_minute (pos 0))
        (HasOffset said.offset_hour said.offset_minute (pos 0)) result }
{
    if said.offset_hour == 0 && said.offset_minute == 0 {
        Ok(UtcOffset::UTC)
    } else {
        UtcOffset::from_hms(said.offset_hour, said.offset_minute, 0)
    }
}
