//! Eight uses of `time`, as a caller writes them.
#![tactic(auto)]

ghost use Rattle.std.specs.Prelude.{◌≡◌, ◌≢◌, None, Some};
ghost use Rattle.time.specs.Words.{greatest_year, direct, RefusesRfc2822, IsDated, IsTimed, IsMoment, IsUtcMoment, IsOutcome, IsFront, IsMomentOutcome, IsErrorAt, begun, empty, put, refusal_of, seen, erased_prefix_result, year_is, unwritable_3339};
ghost use Rattle.time.specs.parsing.Rfc3339 as rfc3339;
ghost use Rattle.time.specs.parsing.Rfc2822 as rfc2822;
ghost use Rattle.time.specs.parsing.Iso8601 as iso8601;
ghost use Rattle.time_uses.specs.Configured.{IsConfigured};

use time::error::{InvalidFormatDescription, Parse};
use time::format_description::parse_borrowed;
use time::format_description::well_known::{Iso8601, Rfc2822, Rfc3339};
use time::formatting::{FractionDigits, text_3339};
use time::locating::locate_error;
use time::parsing::Parsed;
use time::prelude::*;
use time::{Date, OffsetDateTime, Time, UtcDateTime, laws};

/// The date, time and offset in RFC 3339 at the beginning of a line of a log, and the rest of the line. An error if the
/// line doesn't begin with a valid one.
pub fn log_line(line: &[u8]) -> Result<(OffsetDateTime, &[u8]), Parse>
    ensures { IsFront (IsMoment greatest_year) (rfc3339.Reads greatest_year) (rfc3339.Refuses greatest_year)
        line.now empty (erased_prefix_result result) }
{
    Rfc3339.parse_front(line, None)
}

/// The date, time and offset of a mail's `Date` header, whose whole value is in RFC 2822. An error if it isn't valid.
pub fn mail_date(header: &str) -> Result<OffsetDateTime, Parse>
    ensures { IsMomentOutcome greatest_year (direct (RefusesRfc2822 greatest_year)) (rfc2822.Reads greatest_year)
        (rfc2822.Refuses greatest_year) header.now None (seen result) }
{
    OffsetDateTime::parse(header, &Rfc2822)
}

/// Why a text of a configuration wasn't parsed as a date: because of its description, or of the text itself.
#[derive(Debug, Drop)]
pub enum NoDate<'a> {
    /// The description can't be parsed, or has more than 64 steps: components, bytes of literals, and groups.
    Description(InvalidFormatDescription<'a>),
    /// The text doesn't match the description, or the parsed components give no valid date.
    Text(Parse),
}

/// The date of a whole text by a description of version 2, as `[year]-[month]-[day]`, both from a configuration. An
/// error is that of the description, with at most 64 steps (each byte of a literal is one), or else that of the text.
pub fn configured_date<'a>(description: &'a str, text: &str) -> Result<Date, NoDate<'a>>
    ensures { IsConfigured description.now text.now result }
{
    let format = match parse_borrowed::<2, 64>(description.as_bytes()) {
        Ok(format) => format,
        Err(error) => return Err(NoDate::Description(error)),
    };
    match Date::parse(text, &format) {
        Ok(date) => Ok(date),
        Err(error) => Err(NoDate::Text(error)),
    }
}

/// The start of a calendar's event, a whole ISO 8601 text such as `20210102T030405Z`, converted to UTC. A text without
/// an offset is in UTC. An error if the text doesn't match, has no valid date and time, or no date in UTC in range.
pub fn event_start(start: &str) -> Result<UtcDateTime, Parse>
    ensures { IsOutcome (IsUtcMoment greatest_year) (iso8601.Reads greatest_year) (iso8601.Refuses greatest_year)
        start.now empty (seen result) }
{
    UtcDateTime::parse(start, &Iso8601)
}

/// The time of day of a whole text in ISO 8601. A date and an offset are dropped. The text `03.33`, an hour with a
/// fraction, is exactly 03:19:48. An error if the text doesn't match, or has no valid time.
pub fn time_of_day(text: &str) -> Result<Time, Parse>
    ensures { IsOutcome IsTimed (iso8601.Reads greatest_year) (iso8601.Refuses greatest_year)
        text.now empty (seen result) }
{
    Time::parse(text, &Iso8601)
}

/// The date of a whole text by the format. `year` (ignored beyond ±999999) is the calendar year of a text without a
/// full one, even with a century and two digits; an ISO week date ignores it. An error without a match or valid date.
pub fn date_in<F: Parsable>(year: i32, text: &[u8], format: &F) -> Result<Date, Parse>
    ensures { IsOutcome (IsDated greatest_year) (F.reads format.now) (F.refuses format.now) text.now
        (begun (put greatest_year (year_is year) empty)) (seen result) }
{
    format.parse_date(text, Parsed::new().with_year(year))
}

/// The byte index at which the format fails on a text that it rejected with this error. If the format matches the whole
/// text, it is the start of the last component that the error calls out of range, or of the last week number for an
/// `ordinal` that the text omits; `None` then means that the error calls no component of the text out of range.
pub fn error_index<F: Locate>(text: &[u8], format: &F, error: Parse) -> Option<usize>
    ensures { IsErrorAt (F.reads format.now) (F.locates format.now) (F.marks format.now) text.now empty
        (refusal_of error) result }
{
    locate_error(format, text, None, error)
}

/// The moment that is parsed from the RFC 3339 text of `moment`: `moment` itself, or `None` if RFC 3339 has no text for
/// it, since its year isn't from 0 to 9999, or its offset has more than 23 hours or has seconds.
pub fn parsed_back(moment: OffsetDateTime) -> Option<OffsetDateTime>
    ensures written { unwritable_3339 moment ≡ None → result ≡ Some moment }
    ensures unwritten { unwritable_3339 moment ≢ None → result ≡ None }
{
    let Ok(text) = text_3339(moment, FractionDigits::Auto) else {
        return None;
    };
    laws::parsing::law_read_back();
    laws::parsing::law_one_outcome(&Rfc3339);
    OffsetDateTime::parse(text.as_bytes(), &Rfc3339).ok()
}

#[cfg(test)]
mod tests;
