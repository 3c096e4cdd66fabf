//! Parses a timestamp by a format.
ghost use Rattle.std.specs.Prelude.{◌≡◌, ◌+◌, ◌-◌, ◌≤◌};
ghost use Rattle.restamp_formats.specs.Common.{length, IfOk, MatchResult, Ok, greatest_year, refusal_of, empty, IsFront, IsOutcome, Reading};
ghost use Rattle.time_parsing.specs.Outcome.{seen as seen_parse, erased_prefix_result};
ghost use Rattle.time_parsing.specs.Iso8601 as iso8601;
ghost use Rattle.restamp_formats.specs.Reading as spec;
ghost use Rattle.restamp_formats.specs.Reason.{Satisfies, IsErrOf, erased, unread};

mod fast;

use crate::brief::FromReason;
use crate::clock::read_zoned;
use crate::guard::without_negative_fraction;
use crate::local::Clocks;
use crate::reason::Reason;
use std::convert::TryFrom;
use time_parsing::{Iso8601, Parsable, Rfc2822, Rfc3339Strict, value_before};
use time_preparing::Prepared;
use time_record::Parsed;
use time_values::error::Parse;
use time_values::{OffsetDateTime, UtcOffset};
use time_zones::Zones;

/// The most steps that a description may have: a byte of a literal, a component or the start of a group is a step. A
/// description in brackets of at most this many bytes never has more.
pub const MOST_STEPS: usize = 256;

/// A format that timestamps are parsed by: RFC 3339, RFC 9557, RFC 2822, ISO 8601 or a description.
#[derive(Drop)]
pub enum Reading {
    /// RFC 3339, section 5.6, with `T`, `t` or a space between the date and the time.
    Rfc3339,
    /// RFC 9557, section 4.1: RFC 3339 with an optional suffix. A zone that the suffix names has to be one of these.
    Zoned(Zones),
    /// Mail dates, RFC 2822, section 3.3, with optional white space and comments around them.
    Rfc2822,
    /// ISO 8601, basic or extended, with a date and a time. A default counts for an offset that a text omits.
    Iso8601,
    /// A description. Defaults count for a year or an offset that a text omits.
    Described(Prepared<MOST_STEPS>),
    /// A description that is parsed without defaults: a text that omits a part of a moment is rejected.
    Complete(Prepared<MOST_STEPS>),
    /// A description of a number of seconds from 1970. A match that starts with `-` and contains a `.` is rejected.
    Counted(Prepared<MOST_STEPS>),
}

/// Defaults for the parts that a timestamp omits. [`parse`] and [`read`] use only `year` and `offset`.
#[derive(Clone, Copy)]
pub struct Defaults<'a> {
    /// The year, if the timestamp has no part of one. A year outside -999999 to 999999 has no effect.
    pub year: Option<i32>,
    /// The offset, if the timestamp has no hour of an offset.
    pub offset: Option<UtcOffset>,
    /// The zone for local times: a text that is rejected with `year` and `offset` is parsed as a local time in it.
    pub clocks: Option<Clocks<'a>>,
    /// A text that is rejected even so is parsed with ten default years in turn, from the one after this moment's year
    /// down. It means the first moment so found that isn't after this one.
    pub latest: Option<OffsetDateTime>,
}

/// The bytes of a text that match a format, and the moment that they mean. They begin at byte 0, except as in `start`.
#[derive(Clone, Copy, Debug)]
pub struct Match {
    /// The moment.
    pub moment: OffsetDateTime,
    /// How many bytes come before the match: 0, except for white space before a mail date if a prefix is parsed.
    pub start: usize,
    /// How many bytes the match has.
    pub length: usize,
}

/// Whether the record has a part of a year: a calendar year or an ISO 8601 week year, its century or its last two
/// digits.
#[inline(always)]
pub fn has_year(parsed: &Parsed) -> bool
    ensures { result ≡ spec.has_year parsed.now }
{
    parsed.year().is_some()
        || parsed.year_century().is_some()
        || parsed.year_last_two().is_some()
        || parsed.iso_year().is_some()
        || parsed.iso_year_century().is_some()
        || parsed.iso_year_last_two().is_some()
}

// Sets the year of a record that has no part of one. `None`, or a year outside -999999 to 999999, changes nothing.
#[inline(always)]
pub(crate) fn put_year(year: Option<i32>, parsed: &mut Parsed)
    ensures { parsed.new ≡ spec.with_year year parsed.old }
{
    let Some(year) = year else {
        return;
    };
    if !has_year(parsed) {
        let _ = parsed.set_year(year);
    }
}

// Sets the hour, minute and second of the offset, each with its sign, in a record without the hour of an offset. `None`
// changes nothing.
#[inline(always)]
fn put_offset(offset: Option<UtcOffset>, parsed: &mut Parsed)
    ensures { parsed.new ≡ spec.with_offset offset parsed.old }
{
    let Some(offset) = offset else {
        return;
    };
    if parsed.offset_hour().is_some() {
        return;
    }
    let (hours, minutes, seconds) = offset.as_hms();
    let _ = parsed.set_offset_hour(hours);
    let _ = parsed.set_offset_minute_signed(minutes);
    let _ = parsed.set_offset_second_signed(seconds);
    parsed.forget_offset_sign();
}

/// Sets the default year in a record without a part of a year, and the default offset in a record without the hour of
/// one. A year outside -999999 to 999999 isn't set. The defaults `clocks` and `latest` have no effect.
#[inline(always)]
pub fn complete(defaults: &Defaults<'_>, parsed: &mut Parsed)
    ensures { parsed.new ≡ spec.completed defaults.now parsed.old }
{
    put_year(defaults.year, parsed);
    put_offset(defaults.offset, parsed);
}

// The match, with this moment, of the bytes of `text` before `rest`, which is the end of `text`.
#[inline(always)]
pub(crate) fn match_before(rest: &[u8], text: &[u8], moment: OffsetDateTime) -> Match
    ensures said { result ≡ spec.said moment (length text.now - length rest.now) }
    ensures within { result.start + result.length ≤ length text.now }
{
    Match {
        moment,
        start: 0,
        length: text.len().saturating_sub(rest.len()),
    }
}

// Parses a prefix of the text by the format if `is_prefix` is true, otherwise the whole text; without defaults.
#[inline(always)]
fn read_by<F: Parsable>(format: &F, is_prefix: bool, text: &[u8]) -> Result<Match, Parse>
    ensures said { spec.IsReadBy is_prefix (F.path format.now) (F.reads format.now) (F.refuses format.now) text.now
        (spec.erased_match result) }
    ensures within { IfOk result (λ said. said.start + said.length ≤ length text.now) }
{
    if is_prefix {
        let (moment, rest) = format.parse_front(text, None)?;
        return Ok(match_before(rest, text, moment));
    }
    let moment = format.parse_offset_date_time(text, None)?;
    Ok(match_before(&[], text, moment))
}

// Parses a prefix of the text with the defaults that `complete` sets. Returns the moment and the bytes after the
// prefix.
#[inline(always)]
fn front_with<'a, F: Parsable>(
    format: &F,
    text: &'a [u8],
    defaults: &Defaults<'_>,
) -> Result<(OffsetDateTime, &'a [u8]), Parse>
    ensures { IsFront (spec.IsCompleted defaults.now) (F.reads format.now) (F.refuses format.now) text.now
        empty (erased_prefix_result result) }
{
    let mut parsed = Parsed::new();
    let rest = format.parse_into(text, &mut parsed)?;
    complete(defaults, &mut parsed);
    let moment = OffsetDateTime::try_from(parsed)?;
    Ok((moment, rest))
}

// Parses the whole text with the defaults that `complete` sets.
#[inline(always)]
fn whole_with<F: Parsable>(
    format: &F,
    text: &[u8],
    defaults: &Defaults<'_>,
) -> Result<OffsetDateTime, Parse>
    ensures { IsOutcome (spec.IsCompleted defaults.now) (F.reads format.now) (F.refuses format.now) text.now
        empty (seen_parse result) }
{
    let mut parsed = Parsed::new();
    let rest = format.parse_into(text, &mut parsed)?;
    complete(defaults, &mut parsed);
    value_before::<OffsetDateTime>(rest, &parsed)
}

// Parses a prefix of the text if `is_prefix` is true, otherwise the whole text, with the defaults that `complete` sets.
#[inline(always)]
fn read_with<F: Parsable>(
    format: &F,
    is_prefix: bool,
    text: &[u8],
    defaults: &Defaults<'_>,
) -> Result<Match, Parse>
    ensures said { spec.IsReadWith is_prefix (F.reads format.now) (F.refuses format.now) text.now
        defaults.now (spec.erased_match result) }
    ensures within { IfOk result (λ said. said.start + said.length ≤ length text.now) }
{
    if is_prefix {
        let (moment, rest) = front_with(format, text, defaults)?;
        return Ok(match_before(rest, text, moment));
    }
    let moment = whole_with(format, text, defaults)?;
    Ok(match_before(&[], text, moment))
}

// The match, which starts at byte 0, without the ASCII white space at both ends of its bytes.
fn bare(said: Match, text: &[u8]) -> Match
    requires { said.length ≤ length text.now }
    ensures said { result ≡ spec.bare text.now said }
    ensures within { result.start + result.length ≤ length text.now }
{
    let front = text[..said.length].trim_ascii_start();
    Match {
        moment: said.moment,
        start: said.length.saturating_sub(front.len()),
        length: front.trim_ascii_end().len(),
    }
}

// Parses a mail date, RFC 2822, with optional white space and comments around it: a prefix if `is_prefix` is true, else
// the whole text. Only a prefix's match omits white space at its ends. Not inlined: other formats need no stack for it.
#[inline(never)]
fn read_mail(is_prefix: bool, text: &[u8]) -> Result<Match, Parse>
    ensures said { spec.IsReadMail is_prefix text.now (spec.erased_match result) }
    ensures within { IfOk result (λ said. said.start + said.length ≤ length text.now) }
{
    let said = read_by(&Rfc2822, is_prefix, text)?;
    if is_prefix {
        return Ok(bare(said, text));
    }
    Ok(said)
}

/// Parses a prefix of the text by RFC 3339, with `T`, `t` or a space between the date and the time, if possible without
/// filling a record. Bytes after the prefix are no error. Not inlined: whole texts of `Rfc3339` need no stack for it.
#[inline(never)]
pub fn read_front_3339(text: &[u8]) -> Result<Match, Parse>
    ensures said { spec.IsReadInFront text.now (spec.erased_match result) }
    ensures within { IfOk result (λ said. said.start + said.length ≤ length text.now) }
{
    if let Some(said) = fast::front_3339(text) {
        return Ok(said);
    }
    read_by(&Rfc3339Strict, true, text)
}

// Parses a prefix of the text by RFC 3339 if `is_prefix` is true, otherwise the whole text.
#[inline(always)]
fn read_3339(is_prefix: bool, text: &[u8]) -> Result<Match, Parse>
    ensures said { spec.IsRead3339 is_prefix text.now (spec.erased_match result) }
    ensures within { IfOk result (λ said. said.start + said.length ≤ length text.now) }
{
    if is_prefix {
        return read_front_3339(text);
    }
    read_by(&Rfc3339Strict, is_prefix, text)
}

// Parses a prefix of the text by ISO 8601 if `is_prefix` is true, otherwise the whole text, with the defaults that
// `complete` sets, and without a record where possible. Not inlined, so that it needs no stack beside other formats.
#[inline(never)]
fn read_8601(is_prefix: bool, text: &[u8], defaults: &Defaults<'_>) -> Result<Match, Parse>
    ensures said { spec.IsReadWith is_prefix (iso8601.Reads greatest_year) (iso8601.Refuses greatest_year) text.now
        defaults.now (spec.erased_match result) }
    ensures within { IfOk result (λ said. said.start + said.length ≤ length text.now) }
{
    if let Some(said) = fast::read_8601(is_prefix, text) {
        return Ok(said);
    }
    read_with(&Iso8601, is_prefix, text, defaults)
}

// The reason `Unread` with the parse error, as an `E`. The error is passed by reference to a function that isn't
// inlined, since a move of the error would have the compiler copy each match byte by byte.
#[inline(never)]
fn keep_error<E: FromReason>(error: &Parse) -> E
    ensures { E.is_of (unread (refusal_of error.now)) result }
{
    E::from_reason(Reason::Unread(*error))
}

// The match, or the reason `Unread` with the parse error, as an `E`.
#[inline(always)]
fn or_unread<E: FromReason>(parsed: Result<Match, Parse>) -> Result<Match, E>
    ensures { MatchResult parsed (λ said. result ≡ Ok said) (λ error. IsErrOf E.is_of (unread (refusal_of error)) result) }
{
    match &parsed {
        Ok(said) => Ok(*said),
        Err(error) => Err(keep_error(error)),
    }
}

// Parses a number of seconds by its description, with the defaults that `complete` sets. The reason is `Unread`, or
// `NegativeFraction` if the match starts with `-` and contains a `.`. Not inlined, since few logs count seconds.
#[inline(never)]
fn parse_counted<E: FromReason>(
    described: &Prepared<MOST_STEPS>,
    is_prefix: bool,
    text: &[u8],
    defaults: &Defaults<'_>,
) -> Result<Match, E>
    ensures said { Satisfies E.is_of (spec.ParsesAs (Reading.Counted described.now) is_prefix text.now defaults.now) result }
    ensures within { IfOk result (λ said. said.start + said.length ≤ length text.now) }
{
    match read_with(described, is_prefix, text, defaults) {
        Ok(said) => without_negative_fraction(text, said),
        Err(error) => Err(keep_error(&error)),
    }
}

/// Parses a text by the format: a prefix of it if `is_prefix` is true, otherwise the whole text. `Iso8601`, `Described`
/// and `Counted` use the default year and offset for what the text omits; the other formats use no defaults, and
/// `clocks` and `latest` have no effect. The error, as an `E`, is [`Reason::Unread`]; for `Counted` also
/// [`Reason::NegativeFraction`], and for `Zoned` also [`Reason::Suffix`].
#[inline(always)]
pub fn parse<E: FromReason>(
    reading: &Reading,
    is_prefix: bool,
    text: &[u8],
    defaults: &Defaults<'_>,
) -> Result<Match, E>
    ensures said { Satisfies E.is_of (spec.ParsesAs reading.now is_prefix text.now defaults.now) result }
    ensures within { IfOk result (λ said. said.start + said.length ≤ length text.now) }
{
    match reading {
        Reading::Rfc3339 => or_unread(read_3339(is_prefix, text)),
        Reading::Rfc2822 => or_unread(read_mail(is_prefix, text)),
        Reading::Iso8601 => or_unread(read_8601(is_prefix, text, defaults)),
        Reading::Complete(described) => or_unread(read_by(described, is_prefix, text)),
        Reading::Described(described) => or_unread(read_with(described, is_prefix, text, defaults)),
        Reading::Counted(described) => parse_counted(described, is_prefix, text, defaults),
        Reading::Zoned(zones) => read_zoned(zones, is_prefix, text),
    }
}

/// [`parse`], but not inlined: for [`read`], and for texts that are parsed again with other defaults.
#[inline(never)]
pub(crate) fn parse_outlined<E: FromReason>(
    reading: &Reading,
    is_prefix: bool,
    text: &[u8],
    defaults: &Defaults<'_>,
) -> Result<Match, E>
    ensures said { Satisfies E.is_of (spec.ParsesAs reading.now is_prefix text.now defaults.now) result }
    ensures within { IfOk result (λ said. said.start + said.length ≤ length text.now) }
{
    parse(reading, is_prefix, text, defaults)
}

/// Parses a text by the format as [`parse`] does, which ignores `clocks` and `latest`; the error is a whole [`Reason`].
pub fn read(
    reading: &Reading,
    is_prefix: bool,
    text: &[u8],
    defaults: &Defaults<'_>,
) -> Result<Match, Reason>
    ensures said { spec.ParsesAs reading.now is_prefix text.now defaults.now (erased result) }
    ensures within { IfOk result (λ said. said.start + said.length ≤ length text.now) }
{
    parse_outlined(reading, is_prefix, text, defaults)
}
