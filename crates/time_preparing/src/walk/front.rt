//! Parses joined steps one after the other, as far as they match. Like `walk.rt`, this module may call the fast paths.
ghost use Rattle.std.specs.Prelude.{◌≡◌, ◌<◌, ◌≤◌, IsTrue, MatchOption, take};
ghost use Rattle.time_values.specs.Calendar.{greatest_year};
ghost use Rattle.time_record.specs.Reading.{ReadsAll};
ghost use Rattle.time_preparing.specs.Forms.{date_parts, day_first_parts, time_parts, month_day_parts};
ghost use Rattle.time_preparing.specs.Walk.{leaves, MayReadFront};

use super::fast::{
    component, day, fraction, hour_24, minute, month, month_name, second, seconds, year,
};
use crate::forms::fast::after;
use crate::forms::{DAY, HOUR, MINUTE, MONTH, MONTH_NAME, SECOND, SPACED_DAY, YEAR};
use crate::joined::Joined;
use time_components::Component;
use time_record::Parsed;

/// The result of parsing joined steps as far as they match.
#[derive(Clone, Copy)]
pub(super) struct Front<'a> {
    /// How many steps were parsed.
    pub count: usize,
    /// The unread rest after these steps.
    pub rest: &'a [u8],
    /// Whether all of the joined steps were parsed, and at least one.
    pub is_all: bool,
}

/// Parses joined steps as far as they match, and stores their values. An optional group is parsed wholly or not at all.
/// `left` is how many steps there are from the first joined one on; if they are fewer than the joined ones, none is
/// parsed. For `Joined::Nothing` none is parsed either.
#[inline(always)]
pub(super) fn read<'a>(
    joined: &Joined,
    left: usize,
    parsed: &mut Parsed,
    input: &'a [u8],
) -> Front<'a>
    requires { 1 ≤ left }
    ensures within { result.count ≤ left }
    ensures read { MayReadFront joined.now left result.count input.now parsed.old result.rest.now parsed.new }
    ensures all { IsTrue result.is_all → 0 < result.count }
{
    match joined {
        Joined::Byte(byte) => whole(1, after(input, *byte), input),
        Joined::Component(wanted) => whole(1, component(parsed, input, wanted), input),
        Joined::Date(between) if left >= 5 => date(*between, parsed, input),
        Joined::DayFirst(between) if left >= 5 => day_first(*between, parsed, input),
        Joined::MonthDay(between) if left >= 3 => month_day(*between, parsed, input),
        Joined::Time(between) if left >= 5 => time(*between, parsed, input),
        Joined::Fraction(point) if left >= 3 => whole(3, fraction(parsed, input, *point), input),
        Joined::Seconds(between, point) if left >= 6 => {
            whole(6, seconds(parsed, input, *between, *point), input)
        }
        _ => none(input),
    }
}

// The result if no step was parsed: the rest is the input.
#[inline(always)]
fn none(input: &[u8]) -> Front<'_>
    ensures count { result.count ≡ 0 }
    ensures rest { result.rest.now ≡ input.now }
    ensures all { IsTrue result.is_all → 0 < result.count }
{
    part(0, input)
}

// The result if the first `count` of the joined steps were parsed, but not all.
#[inline(always)]
fn part(count: usize, rest: &[u8]) -> Front<'_>
    ensures count { result.count ≡ count }
    ensures rest { result.rest.now ≡ rest.now }
    ensures all { IsTrue result.is_all → 0 < result.count }
{
    Front {
        count,
        rest,
        is_all: false,
    }
}

// The result if all `count` joined steps were parsed, up to this rest. Without a rest none was parsed, and the result's
// rest is the input.
#[inline(always)]
fn whole<'a>(count: usize, rest: Option<&'a [u8]>, input: &'a [u8]) -> Front<'a>
    requires { 0 < count }
    ensures read { MatchOption rest.entry ((result.count ≡ 0) × (result.rest.now ≡ input.now))
        (λ r. (result.count ≡ count) × (result.rest.now ≡ r.now)) }
    ensures within { result.count ≤ count }
    ensures all { IsTrue result.is_all → 0 < result.count }
{
    match rest {
        Some(rest) => Front {
            count,
            rest,
            is_all: true,
        },
        None => none(input),
    }
}

// Reads three components one after the other, with this byte between them, and stores them, as far as they match. Each
// is given by its parser and its modifiers.
macro_rules! three {
    ($parsed:expr, $input:expr, $between:expr, $first:ident $a:ident, $second:ident $b:ident, $third:ident $c:ident) => {{
        let Some(first) = $first($parsed, $input, $a) else {
            return none($input);
        };
        let Some(second) = after(first, $between) else {
            return part(1, first);
        };
        let Some(third) = $second($parsed, second, $b) else {
            return part(2, second);
        };
        let Some(fourth) = after(third, $between) else {
            return part(3, third);
        };
        let Some(rest) = $third($parsed, fourth, $c) else {
            return part(4, fourth);
        };
        Front {
            count: 5,
            rest,
            is_all: true,
        }
    }};
}

// Reads a year, a month's number and a day, with this byte between them, and stores them, as far as they match.
#[inline(always)]
fn date<'a>(between: u8, parsed: &mut Parsed, input: &'a [u8]) -> Front<'a>
    ensures within { result.count ≤ 5 }
    ensures read { ReadsAll greatest_year (leaves (take result.count (date_parts between)))
        input.now parsed.old result.rest.now parsed.new }
    ensures all { IsTrue result.is_all → 0 < result.count }
{
    three!(parsed, input, between, year YEAR, month MONTH, day DAY)
}

// Reads a day, a month's short name and a year, with this byte between them, and stores them, as far as they match.
#[inline(always)]
fn day_first<'a>(between: u8, parsed: &mut Parsed, input: &'a [u8]) -> Front<'a>
    ensures within { result.count ≤ 5 }
    ensures read { ReadsAll greatest_year (leaves (take result.count (day_first_parts between)))
        input.now parsed.old result.rest.now parsed.new }
    ensures all { IsTrue result.is_all → 0 < result.count }
{
    three!(parsed, input, between, day DAY, month_name MONTH_NAME, year YEAR)
}

// Reads an hour of the 24-hour clock, a minute and a second, with this byte between them, and stores them, as far as
// they match.
#[inline(always)]
fn time<'a>(between: u8, parsed: &mut Parsed, input: &'a [u8]) -> Front<'a>
    ensures within { result.count ≤ 5 }
    ensures read { ReadsAll greatest_year (leaves (take result.count (time_parts between)))
        input.now parsed.old result.rest.now parsed.new }
    ensures all { IsTrue result.is_all → 0 < result.count }
{
    three!(parsed, input, between, hour_24 HOUR, minute MINUTE, second SECOND)
}

// Reads a month's short name and a day, with this byte between them, and stores them, as far as they match.
#[inline(always)]
fn month_day<'a>(between: u8, parsed: &mut Parsed, input: &'a [u8]) -> Front<'a>
    ensures within { result.count ≤ 3 }
    ensures read { ReadsAll greatest_year (leaves (take result.count (month_day_parts between)))
        input.now parsed.old result.rest.now parsed.new }
    ensures all { IsTrue result.is_all → 0 < result.count }
{
    let Some(a) = month_name(parsed, input, MONTH_NAME) else {
        return none(input);
    };
    let Some(b) = after(a, between) else {
        return part(1, a);
    };
    let Some(c) = day(parsed, b, SPACED_DAY) else {
        return part(2, b);
    };
    Front {
        count: 3,
        rest: c,
        is_all: true,
    }
}
