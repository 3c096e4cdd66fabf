//! The mail dates of RFC 2822: blanks, comments and zone names, and the date and time by fifteen places.
//!
//! `grammar` parses one place after another, with the blanks, the comments and the zone names. `fast` is tried first,
//! and parses the commonest parts many bytes at once. Where it returns `None`, `grammar` decides: without `fast` the
//! results are equal, and take more steps.
ghost use Rattle.std.specs.Prelude.{◌≡◌, MatchResult, false, option_map};
ghost use Rattle.time_values.specs.Refusal.{refusal_of_description};
ghost use Rattle.time_readers.specs.MailBlanks as spec;
ghost use Rattle.time_readers.specs.MailBlanks.{zone_literal};
ghost use Rattle.time_readers.specs.PlaceAnswers.{Reads, Walks};
ghost use Rattle.time_readers.specs.Rfc2822.{PlaceSyntax, day_places, to_offset_places, offset_places, HasForm, FailsAt, fault};
ghost use Rattle.time_readers.specs.declared.rfc2822.Place.TheVariants as place;

pub mod fast;
mod grammar;

use crate::{ParsedItem, Sign};
use grammar::blanks;
use time_values::error::ParseFromDescription;
use time_values::{Month, Weekday};

/// A place of a mail date, in order. Blanks are one or more spaces, tabs, line folds and comments, as in [`cfws`].
#[derive(Clone, Copy, Debug, PartialEq, Eq)]
pub enum Place {
    /// Optional blanks, and then nothing, or the first three letters of a weekday's name in any case, a comma and
    /// optional blanks.
    WeekdayName,
    /// One or two digits.
    Day,
    /// Blanks.
    DayBlanks,
    /// The first three letters of a month's name, in any case.
    MonthName,
    /// Blanks.
    MonthBlanks,
    /// Four digits of 1900 or later; or two, if there aren't four.
    Year,
    /// Blanks. After a year of four digits they are as in [`fws`].
    YearBlanks,
    /// Two digits.
    Hour,
    /// `:`, with optional blanks before and after it.
    HourColon,
    /// Two digits.
    Minute,
    /// Nothing; or `:`, with optional blanks before and after it, and two digits.
    Second,
    /// Blanks.
    TimeBlanks,
    /// A zone name, or a sign and two digits.
    OffsetHour,
    /// Two digits, or nothing after a zone name.
    OffsetMinute,
    /// Blanks or nothing.
    EndBlanks,
}

/// The numbers of the places of a mail date. Without range checks, a number of two digits may be 0 to 99, and the
/// offset's hour and minute -99 to 99. A year of two digits is stored as 1950 to 2049.
#[derive(Clone, Copy, Debug)]
pub struct Numbers {
    /// The weekday, if the text has one. It may differ from that of the date.
    pub weekday: Option<Weekday>,
    /// The day of the month, 1 to 31 with range checks.
    pub day: u8,
    /// The month.
    pub month: Month,
    /// The year, 1900 to 9999.
    pub year: u16,
    /// Whether the year has four digits in the text. Two digits are 1950 to 2049.
    pub year_is_full: bool,
    /// The hour, 0 to 23 with range checks.
    pub hour: u8,
    /// The minute, 0 to 59 with range checks.
    pub minute: u8,
    /// The second, if the text has one, 0 to 60 with range checks. 60 is a leap second.
    pub second: Option<u8>,
    /// The sign of the offset, or `None` for a zone name.
    pub offset_sign: Option<Sign>,
    /// The hour of the offset, with its sign: -25 to 25 with range checks, and -8 to 0 for a zone name.
    pub offset_hour: i8,
    /// The minute of the offset, with its sign: -59 to 59 with range checks, and 0 for a zone name.
    pub offset_minute: i8,
}

impl Numbers {
    /// The numbers before any place is parsed: 0, `None`, false, and January.
    pub const NONE: Numbers = Numbers {
        weekday: None,
        day: 0,
        month: Month::January,
        year: 0,
        year_is_full: false,
        hour: 0,
        minute: 0,
        second: None,
        offset_sign: None,
        offset_hour: 0,
        offset_minute: 0,
    };
}

/// Parses the fifteen places of a mail date of RFC 2822, section 3.3. Returns the unparsed rest, and the numbers of the
/// places.
///
/// With `CHECK_RANGES` a place matches only if its number is in its range: day 1 to 31, hour 0 to 23, minute 0 to 59,
/// second 0 to 60, hour of the offset 0 to 25 and minute of the offset 0 to 59, both without the sign. The year is 1900
/// or later with and without `CHECK_RANGES`, and the calendar isn't checked.
///
/// # Errors
///
/// The first place that doesn't match.
pub fn read<const CHECK_RANGES: bool>(input: &[u8]) -> Result<ParsedItem<'_, Numbers>, Place>
    ensures { MatchResult result
        (λ p. HasForm CHECK_RANGES input.now p.0.now p.1)
        (λ e. FailsAt CHECK_RANGES input.now e) }
{
    let mut numbers = Numbers::NONE;
    let rest = to_day::<CHECK_RANGES>(input, &mut numbers)?;
    let rest = to_offset::<CHECK_RANGES>(rest, &mut numbers)?;
    let rest = offset::<CHECK_RANGES>(rest, &mut numbers)?;
    Ok(ParsedItem(rest, numbers))
}

// Parses the places of the weekday and the day, and stores their numbers. Returns the rest, or the first place that
// doesn't match.
#[inline(always)]
fn to_day<'a, const CHECK_RANGES: bool>(
    input: &'a [u8],
    numbers: &mut Numbers,
) -> Result<&'a [u8], Place>
    ensures { Walks (PlaceSyntax CHECK_RANGES) day_places numbers.old input.now result numbers.new }
{
    let rest = weekday_name(input, numbers).ok_or(Place::WeekdayName)?;
    grammar::day::<CHECK_RANGES>(rest, numbers).ok_or(Place::Day)
}

// Parses optional blanks and comments, and then nothing, or a weekday's first three letters in any case, a comma and
// optional blanks and comments. Stores the weekday, or `None`. Returns the rest, or `None` for a name without a comma.
#[inline(always)]
fn weekday_name<'a>(input: &'a [u8], numbers: &mut Numbers) -> Option<&'a [u8]>
    ensures { Reads (PlaceSyntax false place.WeekdayName numbers.old) input.now result numbers.new }
{
    match fast::weekday_name(input, numbers) {
        Some(rest) => Some(rest),
        None => grammar::weekday_name(input, numbers),
    }
}

// Parses the places after the day and before the offset, and stores their numbers. Returns the rest, or the first place
// that doesn't match.
#[inline(always)]
fn to_offset<'a, const CHECK_RANGES: bool>(
    input: &'a [u8],
    numbers: &mut Numbers,
) -> Result<&'a [u8], Place>
    ensures { Walks (PlaceSyntax CHECK_RANGES) to_offset_places numbers.old input.now result numbers.new }
{
    match fast::to_offset::<CHECK_RANGES>(input, numbers) {
        Some(rest) => Ok(rest),
        None => to_offset_by_places::<CHECK_RANGES>(input, numbers),
    }
}

// Parses the places after the day and before the offset by `grammar`. With range checks it is a call, since inlined it
// would leave the fast path fewer registers: a mail date over a record would take 17 instructions more. Without range
// checks, inlining saves 15.
#[inline(always)]
fn to_offset_by_places<'a, const CHECK_RANGES: bool>(
    input: &'a [u8],
    numbers: &mut Numbers,
) -> Result<&'a [u8], Place>
    ensures { Walks (PlaceSyntax CHECK_RANGES) to_offset_places numbers.old input.now result numbers.new }
{
    if CHECK_RANGES {
        to_offset_apart::<CHECK_RANGES>(input, numbers)
    } else {
        grammar::to_offset::<CHECK_RANGES>(input, numbers)
    }
}

// Parses the places after the day and before the offset by `grammar`, not inlined.
#[inline(never)]
fn to_offset_apart<'a, const CHECK_RANGES: bool>(
    input: &'a [u8],
    numbers: &mut Numbers,
) -> Result<&'a [u8], Place>
    ensures { Walks (PlaceSyntax CHECK_RANGES) to_offset_places numbers.old input.now result numbers.new }
{
    grammar::to_offset::<CHECK_RANGES>(input, numbers)
}

// Parses the places of the offset and the blanks after it, and stores its numbers. Returns the rest, or the first place
// that doesn't match.
#[inline(always)]
fn offset<'a, const CHECK_RANGES: bool>(
    input: &'a [u8],
    numbers: &mut Numbers,
) -> Result<&'a [u8], Place>
    ensures { Walks (PlaceSyntax CHECK_RANGES) offset_places numbers.old input.now result numbers.new }
{
    match fast::offset::<CHECK_RANGES>(input, numbers) {
        Some(rest) => Ok(rest),
        None => grammar::offset::<CHECK_RANGES>(input, numbers),
    }
}

/// The error of a text whose first place that doesn't match is this one.
///
/// It is an invalid literal for blanks, for the colon after the hour, and for the weekday, whose comma is missing.
/// Otherwise it is an invalid component `day`, `month`, `year`, `hour`, `minute`, `second`, `offset hour` or
/// `offset minute`.
#[cold]
#[inline(never)]
pub fn place_fault(place: Place) -> ParseFromDescription
    ensures { refusal_of_description result ≡ fault place }
{
    let name = match place {
        Place::WeekdayName
        | Place::DayBlanks
        | Place::MonthBlanks
        | Place::YearBlanks
        | Place::HourColon
        | Place::TimeBlanks
        | Place::EndBlanks => return ParseFromDescription::InvalidLiteral,
        Place::Day => "day",
        Place::MonthName => "month",
        Place::Year => "year",
        Place::Hour => "hour",
        Place::Minute => "minute",
        Place::Second => "second",
        Place::OffsetHour => "offset hour",
        Place::OffsetMinute => "offset minute",
    };
    ParseFromDescription::InvalidComponent(name)
}

/// Parses blanks, folded over lines or not: `FWS` of RFC 2822, section 3.2.3.
///
/// A blank is a space or a tab. The input must begin with CR LF and one or more blanks; or with one or more blanks, and
/// then any number of folds, each CR LF and one or more blanks. Returns the rest, or `None` if the input begins with
/// neither form, or if no blank follows a CR LF in the second form. A CR or LF alone isn't a blank.
#[inline(always)]
pub fn fws(input: &[u8]) -> Option<ParsedItem<'_, ()>>
    ensures { option_map (λ p. p.0.now) result ≡ spec.fws input.now }
{
    match fast::fws(input) {
        Some(found) => Some(found),
        None => blanks::fws(input),
    }
}

/// Parses blanks and comments, one or more of them: `CFWS` of RFC 2822, section 3.2.3.
///
/// A comment is in parentheses. It contains ASCII bytes other than NUL, CR, LF, parentheses and a backslash; pairs of a
/// backslash and an ASCII byte other than NUL, CR and LF; blanks by [`fws`]; and comments, nested 31 deep at most,
/// counting the outermost. A comment of another form isn't parsed. Returns the rest after the last parsed blank or
/// comment, or `None` if the input begins with neither a comment of this form nor blanks that [`fws`] accepts.
#[inline(always)]
pub fn cfws(input: &[u8]) -> Option<ParsedItem<'_, ()>>
    ensures { option_map (λ p. p.0.now) result ≡ spec.cfws input.now }
{
    match fast::cfws(input) {
        Some(found) => Some(found),
        None => blanks::cfws(input),
    }
}

/// Parses blanks and comments if [`cfws`] does, and else nothing: `[CFWS]` of RFC 2822, section 3.2.3.
///
/// Returns the rest, which is the whole input if [`cfws`] returns `None`. It never fails.
#[inline(always)]
pub fn opt_cfws(input: &[u8]) -> ParsedItem<'_, ()>
    ensures { Some result.0.now ≡ spec.opt_cfws input.now }
{
    match fast::opt_cfws(input) {
        Some(found) => found,
        None => blanks::opt_cfws(input),
    }
}

/// Parses a colon, with the blanks and comments before and after it by [`opt_cfws`].
///
/// It separates the parts of a time of RFC 2822, sections 3.3 and 4.3. Returns the rest, or `None` without a colon.
#[inline(always)]
pub fn opt_cfws_colon_opt_cfws(input: &[u8]) -> Option<ParsedItem<'_, ()>>
    ensures { option_map (λ p. p.0.now) result ≡ spec.opt_cfws_colon_opt_cfws input.now }
{
    match fast::opt_cfws_colon_opt_cfws(input) {
        Some(found) => Some(found),
        None => blanks::opt_cfws_colon_opt_cfws(input),
    }
}

/// Parses a zone name of RFC 2822, section 4.3, in any case, as its hours from UTC, -8 to 0.
///
/// An input of three or more bytes must begin with `EST`, `EDT`, `CST`, `CDT`, `MST`, `MDT`, `PST`, `PDT` or `GMT`. A
/// shorter one must be `UT`, or begin with a letter other than `J`, which is parsed alone: both are 0 hours from UTC.
/// `GMT` is 0, `EDT` -4, `EST` and `CDT` -5, `CST` and `MDT` -6, `MST` and `PDT` -7, and `PST` -8. Returns `None` for
/// any other input.
#[inline(always)]
pub fn zone_literal(input: &[u8]) -> Option<ParsedItem<'_, i8>>
    ensures { option_map (λ p. (p.1, p.0.now)) result ≡ zone_literal input.now }
{
    blanks::zone_literal(input)
}
