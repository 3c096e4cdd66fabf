//! Sums over many parses of one text.

use crate::answers::{Answer, Staged};
use crate::descriptions::{
    DATE_ITEMS, DATE_TIME_ITEMS, FRACTION_ITEMS, ORDINAL_ITEMS, UNIX, clock_items, second_items,
};
use time_descriptions::parse_borrowed;
use time_parsing::{Iso8601, Parsable, Rfc2822, Rfc3339};
use time_readers::BorrowedFormatItem;
use time_values::{Date, OffsetDateTime, PlainDateTime, Time, Timestamp, UtcDateTime, UtcOffset};

/// A text and a copy of it. They are parsed in turn, so that the compiler can't hoist a part of a parse out of the
/// loop.
#[derive(Clone, Copy)]
pub struct Texts<'a> {
    /// The text.
    pub text: &'a [u8],
    /// Its copy, elsewhere in memory.
    pub copy: &'a [u8],
}

// The sum over this many parses of the text and its copy in turn. A value adds its weight, and an error 1. The sum
// wraps.
fn sum<V: Answer, F: Parsable>(format: &F, times: u64, texts: Texts<'_>) -> i64 {
    let mut sum = 0i64;
    for time in 0..times {
        let text = if time % 2 == 0 {
            texts.text
        } else {
            texts.copy
        };
        let weight = match V::parse(format, text) {
            Ok(value) => value.weight(),
            Err(_) => 1,
        };
        sum = sum.wrapping_add(weight);
    }
    sum
}

/// The wrapping sum over `times` parses of the text and its copy in turn: of a value's numbers (`weight`), or 1 for an
/// error. `None`: the target is none of `date`, `time`, `offset`, `plain`, `utc`, `datetime`, `staged`, `timestamp`.
pub fn sum_for<F: Parsable>(
    format: &F,
    target: &[u8],
    times: u64,
    texts: Texts<'_>,
) -> Option<i64> {
    match target {
        b"date" => Some(sum::<Date, F>(format, times, texts)),
        b"time" => Some(sum::<Time, F>(format, times, texts)),
        b"offset" => Some(sum::<UtcOffset, F>(format, times, texts)),
        b"plain" => Some(sum::<PlainDateTime, F>(format, times, texts)),
        b"utc" => Some(sum::<UtcDateTime, F>(format, times, texts)),
        b"datetime" => Some(sum::<OffsetDateTime, F>(format, times, texts)),
        b"staged" => Some(sum::<Staged, F>(format, times, texts)),
        b"timestamp" => Some(sum::<Timestamp, F>(format, times, texts)),
        _ => None,
    }
}

// The sum over `times` parses, as `sum_for` returns it, by the description of a time of the 12-hour clock, as
// `1:05:09.25 PM`; the second and its fraction are optional. `None`: no target has that name.
fn sum_of_clocks(target: &[u8], times: u64, texts: Texts<'_>) -> Option<i64> {
    let fraction = BorrowedFormatItem::Compound(&FRACTION_ITEMS);
    let seconds = second_items(&fraction);
    let seconds = BorrowedFormatItem::Compound(&seconds);
    let items = clock_items(&seconds);
    sum_for(&BorrowedFormatItem::Compound(&items), target, times, texts)
}

// The sum over `times` parses, as `sum_for` returns it, by the description of a date, time and offset, or else of a
// year and a day of the year. `None`: no target has that name.
fn sum_of_local(target: &[u8], times: u64, texts: Texts<'_>) -> Option<i64> {
    let lists = [
        BorrowedFormatItem::Compound(&DATE_TIME_ITEMS),
        BorrowedFormatItem::Compound(&ORDINAL_ITEMS),
    ];
    sum_for(&BorrowedFormatItem::First(&lists), target, times, texts)
}

// The sum over `times` parses, as `sum_for` returns it, by a description of version 2. `None`: it is malformed or has
// more than 64 steps, or no target has that name.
fn sum_of_text(description: &[u8], target: &[u8], times: u64, texts: Texts<'_>) -> Option<i64> {
    let description = parse_borrowed::<2, 64>(description).ok()?;
    sum_for(&description, target, times, texts)
}

/// The wrapping sum over `times` parses of the text and its copy in turn. A format that is none of `rfc3339`,
/// `rfc2822`, `iso8601`, `ymd`, `clock`, `unix` and `local` is a description of version 2. `None`: that description is
/// malformed or has more than 64 steps, or no target has the name.
///
/// A value adds the sum of its numbers, a timestamp its nanoseconds `% 1_000_000_007`, and an error 1.
pub fn sum_by_name(format: &[u8], target: &[u8], times: u64, texts: Texts<'_>) -> Option<i64> {
    match format {
        b"rfc3339" => sum_for(&Rfc3339, target, times, texts),
        b"rfc2822" => sum_for(&Rfc2822, target, times, texts),
        b"iso8601" => sum_for(&Iso8601, target, times, texts),
        b"ymd" => sum_for(
            &BorrowedFormatItem::Compound(&DATE_ITEMS),
            target,
            times,
            texts,
        ),
        b"clock" => sum_of_clocks(target, times, texts),
        b"unix" => sum_for(&UNIX, target, times, texts),
        b"local" => sum_of_local(target, times, texts),
        _ => sum_of_text(format, target, times, texts),
    }
}
