//! The bounds of the moments of lines that are kept, and words for moments relative to the clock.
ghost use Rattle.std.specs.Prelude.{◌≡◌, pos, neg_ℤ, ◌+ℤ◌, ◌-ℤ◌, ◌*ℤ◌, FitsSigned};
ghost use Rattle.std.specs.Int.{w128, int_div_euclid};
ghost use Rattle.time_values.specs.Calendar.{IsBetween, greatest_year};
ghost use Rattle.time_values.specs.Instants.{nanos_per_day};
ghost use Rattle.time_values.specs.Moments.{utc_instant};
ghost use Rattle.time_values.specs.MovedClocks.{IsNear};
ghost use Rattle.time_values.specs.Offsets.{offset_seconds};
ghost use Rattle.restamp_formats.specs.Reason.{seen};
ghost use Rattle.restamp_command.specs.Values as words;

use crate::fault::TimeArgError;
use restamp_formats::{Clock, Clocks, Defaults, Fold, Reading, Reason, read, read_in_turn};
use time_values::{OffsetDateTime, UtcDateTime, UtcOffset};

const NANOS_PER_SECOND: i128 = 1_000_000_000;

const NANOS_PER_DAY: i128 = 86_400 * NANOS_PER_SECOND;

/// A unit of time.
#[derive(Clone, Copy)]
pub(crate) enum Unit {
    /// `s`.
    Second,
    /// `m`.
    Minute,
    /// `h`.
    Hour,
    /// `d`, 24 hours.
    Day,
    /// `w`, 7 days.
    Week,
}

/// What a word names, relative to the clock.
#[derive(Clone, Copy)]
pub(crate) enum Word {
    /// The clock's moment plus a number of units, which may be negative.
    Later(i64, Unit),
    /// The start of the day that is that many days before the clock's day; 0 is the clock's day.
    Day(u8),
}

// The unit of the letter `s`, `m`, `h`, `d` or `w`; `None` for any other byte.
fn find_unit(letter: u8) -> Option<Unit>
    ensures { result ≡ words.unit_of letter }
{
    match letter {
        b's' => Some(Unit::Second),
        b'm' => Some(Unit::Minute),
        b'h' => Some(Unit::Hour),
        b'd' => Some(Unit::Day),
        b'w' => Some(Unit::Week),
        _ => None,
    }
}

// Parses `+` or `-` and decimal digits, which together fit `i64`, as that number of units to add to the clock's moment;
// `None` for any other text.
fn find_units(number: &str, unit: Unit) -> Option<Word>
    ensures { words.AreUnits number.now unit result }
{
    let [b'+' | b'-', ..] = number.as_bytes() else {
        return None;
    };
    let number = number.parse::<i64>().ok()?;
    Some(Word::Later(number, unit))
}

// Parses what follows `now`: no text is 0 seconds; a sign, a number that with its sign fits `i64`, and the letter of a
// `Unit`, as `-90m`, are that many units. `None` for any other text.
fn find_shift(text: &str) -> Option<Word>
    ensures { words.IsShift text.now result }
{
    let Some(letter) = text.as_bytes().last() else {
        return Some(Word::Later(0, Unit::Second));
    };
    let unit = find_unit(*letter)?;
    find_units(text.get(..text.len() - 1)?, unit)
}

// The meaning of `today`, `yesterday`, `now`, or `now` with a shift such as `now-90m`; `None` for any other text.
fn find_word(text: &str) -> Option<Word>
    ensures { words.IsWord text.now result }
{
    match text {
        "today" => Some(Word::Day(0)),
        "yesterday" => Some(Word::Day(1)),
        _ => find_shift(text.strip_prefix("now")?),
    }
}

// The seconds of a number of units, which may be negative.
fn seconds_of(number: i64, unit: Unit) -> i128
    ensures value { result ≡ number *ℤ pos (words.seconds_of unit) }
    ensures range { IsBetween (neg_ℤ (pos 6_000_000_000_000_000_000_000_000)) (pos 6_000_000_000_000_000_000_000_000) result }
{
    let number = number as i128;
    match unit {
        Unit::Second => number,
        Unit::Minute => number * 60,
        Unit::Hour => number * 3_600,
        Unit::Day => number * 86_400,
        Unit::Week => number * 604_800,
    }
}

// The nanoseconds from 1970-01-01T00:00:00Z to the moment; negative for an earlier moment.
fn since_1970(moment: UtcDateTime) -> i128
    ensures value { result ≡ utc_instant greatest_year moment }
    ensures range { IsNear result }
{
    moment.unix_timestamp_nanos()
}

// Adds a number of seconds to `now`. Both `now` and the result are in nanoseconds since 1970-01-01T00:00:00Z.
fn later(now: i128, seconds: i128) -> i128
    requires now { IsNear now }
    requires seconds { IsBetween (neg_ℤ (pos 6_000_000_000_000_000_000_000_000)) (pos 6_000_000_000_000_000_000_000_000) seconds }
    ensures value { result ≡ now +ℤ seconds *ℤ pos 1_000_000_000 }
    ensures fits { FitsSigned w128 result }
{
    now + seconds * NANOS_PER_SECOND
}

// The nanoseconds by which local time at an offset is ahead of UTC; negative if it is behind.
fn ahead_of(offset: UtcOffset) -> i128
    ensures value { result ≡ offset_seconds offset *ℤ pos 1_000_000_000 }
    ensures range { IsBetween (neg_ℤ (pos 93_599_000_000_000)) (pos 93_599_000_000_000) result }
{
    offset.whole_seconds() as i128 * NANOS_PER_SECOND
}

// The number of the day (0 for 1970-01-01, negative before) of a local time in nanoseconds since 1970-01-01T00:00:00.
fn day_of(shown: i128) -> i128
    requires { IsBetween (neg_ℤ (pos 33_000_000_000_000_000_000_000)) (pos 33_000_000_000_000_000_000_000) shown }
    ensures value { result ≡ int_div_euclid shown (pos nanos_per_day) }
    ensures range { IsBetween (neg_ℤ (pos 500_000_000)) (pos 500_000_000) result }
{
    shown.div_euclid(NANOS_PER_DAY)
}

// The local time at the start of the day `back` days before `day`, in nanoseconds since 1970-01-01T00:00:00.
fn midnight(day: i128, back: u8) -> i128
    requires { IsBetween (neg_ℤ (pos 500_000_000)) (pos 500_000_000) day }
    ensures value { result ≡ (day -ℤ pos back) *ℤ pos nanos_per_day }
    ensures range { IsBetween (neg_ℤ (pos 50_000_000_000_000_000_000_000)) (pos 50_000_000_000_000_000_000_000) result }
{
    (day - back as i128) * NANOS_PER_DAY
}

// The local time at the start of the day `back` days before the clock's day at that offset, in nanoseconds since
// 1970-01-01T00:00:00.
fn midnight_at(now: UtcDateTime, offset: UtcOffset, back: u8) -> i128
    ensures value { result ≡ (words.local_day (utc_instant greatest_year now) offset -ℤ pos back) *ℤ pos nanos_per_day }
    ensures range { IsBetween (neg_ℤ (pos 50_000_000_000_000_000_000_000)) (pos 50_000_000_000_000_000_000_000) result }
{
    midnight(day_of(since_1970(now) + ahead_of(offset)), back)
}

// The moment of a word, by the clock at `now` and the offset at which days start, in nanoseconds since 1970.
fn nanos_of(word: Word, now: UtcDateTime, offset: UtcOffset) -> i128
    ensures value { result ≡ words.nanos_of (utc_instant greatest_year now) offset word }
    ensures fits { FitsSigned w128 result }
{
    match word {
        Word::Later(number, unit) => later(since_1970(now), seconds_of(number, unit)),
        Word::Day(back) => midnight_at(now, offset, back) - ahead_of(offset),
    }
}

// The moment of that many nanoseconds since 1970, in UTC; `OutOfRange` if its year isn't from -999999 to 999999.
fn moment_at(nanos: i128) -> Result<OffsetDateTime, TimeArgError>
    ensures { words.IsMomentAt nanos (words.erased_moment result) }
{
    match OffsetDateTime::from_unix_timestamp_nanos(nanos) {
        Ok(moment) => Ok(moment),
        Err(_) => Err(TimeArgError::OutOfRange),
    }
}

// The start of the day that is `back` days before the clock's day in the zone: the earliest moment whose local time is
// its midnight. An error if there is none, or if the clock or that midnight is outside the range of time zones.
fn start_of_day_in(
    clocks: &Clocks<'_>,
    now: UtcDateTime,
    back: u8,
) -> Result<OffsetDateTime, TimeArgError>
    ensures { words.IsStartOfDayIn clocks.now now back (words.erased_moment result) }
{
    let zone = clocks.zone;
    let Some(shown) = Clock::Zone(zone).show(OffsetDateTime::from(now)) else {
        return Err(TimeArgError::Unread(Reason::OutsideZoneRange));
    };
    let begin = moment_at(midnight_at(now, shown.offset(), back))?;
    let fold = Fold::Earlier;
    match (Clocks { zone, fold }).moment_when(begin) {
        Ok(first) => Ok(first),
        Err(why) => Err(TimeArgError::Unread(why)),
    }
}

// The offset at which days start: the default offset, or UTC without one.
fn day_offset(offset: Option<UtcOffset>) -> UtcOffset
    ensures { words.IsDayOffset offset result }
{
    offset.unwrap_or(UtcOffset::UTC)
}

// The moment of a word by the clock, with days that start at that offset, or at UTC without one; the error `OutOfRange`
// if it has no date in UTC.
fn named_at(
    word: Word,
    now: UtcDateTime,
    offset: Option<UtcOffset>,
) -> Result<OffsetDateTime, TimeArgError>
    ensures { words.IsNamedAt now offset word (words.erased_moment result) }
{
    moment_at(nanos_of(word, now, day_offset(offset)))
}

// The moment of a word by the clock. Days start in the default zone, or else at the default offset, or else in UTC. The
// error is `OutOfRange` if the moment has no date in UTC, or `Unread` if the day has no start in the zone.
fn moment_from(
    word: Word,
    now: UtcDateTime,
    defaults: &Defaults<'_>,
) -> Result<OffsetDateTime, TimeArgError>
    ensures { words.IsMomentFrom now defaults.now word (words.erased_moment result) }
{
    match word {
        Word::Later(..) => named_at(word, now, defaults.offset),
        Word::Day(back) => match defaults.clocks {
            Some(clocks) => start_of_day_in(&clocks, now, back),
            None => named_at(word, now, defaults.offset),
        },
    }
}

// The moment of a text as a word, or an error: `Unread` with `reason` if it is no word, `NoClock` if `now` is `None`,
// `OutOfRange` if the moment has no date in UTC, or `Unread` if the day has no start in the default zone.
fn find_named(
    now: Option<UtcDateTime>,
    text: &str,
    defaults: &Defaults<'_>,
    reason: Reason,
) -> Result<OffsetDateTime, TimeArgError>
    ensures { words.IsNamedMoment now defaults.now text.now (seen reason) (words.erased_moment result) }
{
    let word = find_word(text).ok_or(TimeArgError::Unread(reason))?;
    moment_from(word, now.ok_or(TimeArgError::NoClock)?, defaults)
}

/// Returns the moment of a whole text by the first of these that yields one: RFC 3339, `first`, each of `others`, or a
/// word such as `today` or `now-90m`, by the clock's time `now`. If none matches, the error is RFC 3339's `Unread`. For
/// a word it is `NoClock` if `now` is `None`, `OutOfRange`, or `Unread` if its day has no start in the default zone.
pub fn find_moment(
    now: Option<UtcDateTime>,
    first: &Reading,
    others: &[Reading],
    text: &str,
    defaults: &Defaults<'_>,
) -> Result<OffsetDateTime, TimeArgError>
    ensures { words.IsMomentText now first.now others.now text.now defaults.now (words.erased_moment result) }
{
    let reason = match read(&Reading::Rfc3339, false, text.as_bytes(), defaults) {
        Ok(matched) => return Ok(matched.moment),
        Err(reason) => reason,
    };
    match read_in_turn(first, others, false, text.as_bytes(), defaults) {
        Ok(matched) => Ok(matched.moment),
        Err(_) => find_named(now, text, defaults, reason),
    }
}
