//! Sums over many parses of one text by a description, prepared or as its steps.

use crate::answers::Answer;
use crate::sums::{Texts, sum_for};
use std::convert::TryFrom;
use time_descriptions::{Description, parse_borrowed, parse_strftime};
use time_parsing::{Parsable, value_before};
use time_preparing::Prepared;
use time_record::Parsed;
use time_values::error::{Parse, TryFromParsed};
use time_values::{Date, OffsetDateTime, PlainDateTime, Time};

// Parses a description: a text with a `%` as strftime's, and any other as one of version 2. `None` if it is malformed
// or has more than 64 steps.
fn description(text: &[u8]) -> Option<Description<64>> {
    if text.contains(&b'%') {
        return parse_strftime::<64>(text).ok();
    }
    parse_borrowed::<2, 64>(text).ok()
}

// A record with only that year set, or `Some(None)`, no record, for `-`. `None`: the year is no `i32`, or not from
// -999999 to 999999.
fn defaults(year: &str) -> Option<Option<Parsed>> {
    if year == "-" {
        return Some(None);
    }
    let year = year.parse::<i32>().ok()?;
    let mut known = Parsed::new();
    known.set_year(year)?;
    Some(Some(known))
}

/// A type of value for which a text is parsed over a record of defaults.
pub trait AnswerOver: Answer + TryFrom<Parsed, Error = TryFromParsed> {
    /// Parses a whole text for such a value by a prepared description, with the record as defaults.
    fn parse_over(format: &Prepared<64>, text: &[u8], known: Parsed) -> Result<Self, Parse>;
}

impl AnswerOver for Date {
    fn parse_over(format: &Prepared<64>, text: &[u8], known: Parsed) -> Result<Date, Parse> {
        format.parse_date(text, Some(known))
    }
}

impl AnswerOver for Time {
    fn parse_over(format: &Prepared<64>, text: &[u8], known: Parsed) -> Result<Time, Parse> {
        format.parse_time(text, Some(known))
    }
}

impl AnswerOver for PlainDateTime {
    fn parse_over(
        format: &Prepared<64>,
        text: &[u8],
        known: Parsed,
    ) -> Result<PlainDateTime, Parse> {
        format.parse_plain_date_time(text, Some(known))
    }
}

impl AnswerOver for OffsetDateTime {
    fn parse_over(
        format: &Prepared<64>,
        text: &[u8],
        known: Parsed,
    ) -> Result<OffsetDateTime, Parse> {
        format.parse_offset_date_time(text, Some(known))
    }
}

/// A description that parses a text over a record of defaults.
trait Over: Parsable {
    /// The value of the whole text, parsed with the record as defaults, or the error.
    fn value_over<V: AnswerOver>(&self, text: &[u8], known: Parsed) -> Result<V, Parse>;
}

// Calls `parse_into`, not `parse_date` and its like: another call of those may keep the compiler from inlining them.
impl Over for Description<64> {
    fn value_over<V: AnswerOver>(&self, text: &[u8], known: Parsed) -> Result<V, Parse> {
        let mut record = known;
        let rest = self.parse_into(text, &mut record)?;
        value_before::<V>(rest, &record)
    }
}

impl Over for Prepared<64> {
    fn value_over<V: AnswerOver>(&self, text: &[u8], known: Parsed) -> Result<V, Parse> {
        V::parse_over(self, text, known)
    }
}

// The sum over this many parses of the text and its copy in turn, with the record as defaults. A value adds its weight,
// and an error 1. The sum wraps.
fn sum_over<V: AnswerOver, F: Over>(
    format: &F,
    known: Parsed,
    times: u64,
    texts: Texts<'_>,
) -> i64 {
    let mut sum = 0i64;
    for time in 0..times {
        let text = if time % 2 == 0 {
            texts.text
        } else {
            texts.copy
        };
        let weight = match format.value_over::<V>(text, known) {
            Ok(value) => value.weight(),
            Err(_) => 1,
        };
        sum = sum.wrapping_add(weight);
    }
    sum
}

// The sum over this many parses for the target with that name, with the record as defaults if there is one. `None`: no
// target has the name. With a record the targets are only `date`, `time`, `plain` and `datetime`.
fn sum_with<F: Over>(
    format: &F,
    known: Option<Parsed>,
    target: &[u8],
    times: u64,
    texts: Texts<'_>,
) -> Option<i64> {
    let Some(known) = known else {
        return sum_for(format, target, times, texts);
    };
    match target {
        b"date" => Some(sum_over::<Date, F>(format, known, times, texts)),
        b"time" => Some(sum_over::<Time, F>(format, known, times, texts)),
        b"plain" => Some(sum_over::<PlainDateTime, F>(format, known, times, texts)),
        b"datetime" => Some(sum_over::<OffsetDateTime, F>(format, known, times, texts)),
        _ => None,
    }
}

/// How a text is parsed: by which description, prepared or not, with which default year, and for which type.
#[derive(Clone, Copy)]
pub struct Case<'a> {
    /// `steps` to parse by the steps of the description; any other word, as `prepared`, to prepare it first.
    pub way: &'a str,
    /// A description: a text with a `%` is strftime's, and any other of version 2.
    pub description: &'a str,
    /// The default year in decimal digits, from -999999 to 999999, or `-` for no defaults.
    pub year: &'a str,
    /// The name of the type that the text is parsed for, as `sum_for` lists them; with a default year only `date`,
    /// `time`, `plain` or `datetime`.
    pub target: &'a str,
}

/// The wrapping sum over `times` parses of the text and its copy in turn: of a value's numbers (`weight`), or 1 for an
/// error. `None`: the description is malformed or has over 64 steps, the year is neither `-` nor from -999999 to
/// 999999, or no target has the name; with a default year only `date`, `time`, `plain` and `datetime` are targets.
pub fn sum_of(case: Case<'_>, times: u64, texts: Texts<'_>) -> Option<i64> {
    let description = description(case.description.as_bytes())?;
    let known = defaults(case.year)?;
    let target = case.target.as_bytes();
    if case.way == "steps" {
        return sum_with(&description, known, target, times, texts);
    }
    sum_with(&Prepared::new(&description), known, target, times, texts)
}
