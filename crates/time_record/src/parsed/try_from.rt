//! Converts a record to values, by a fixed precedence of its components.
mod date;
mod fast;
mod offset_date_time;
mod time;
mod utc_date_time;

ghost use Rattle.time_values.specs.Calendar.{greatest_year};
ghost use Rattle.time_record.specs.Resolution.{IsDated, IsMoment, IsPlain, erased_conversion};

use crate::Parsed;
use crate::parsed::try_from::date::{calendar_date, date_of_rows};
use crate::parsed::try_from::offset_date_time::moment_or_refusal;
use crate::parsed::try_from::utc_date_time::date_and_time;
use std::convert::TryFrom;
use time_values::error::TryFromParsed;
use time_values::{Date, OffsetDateTime, PlainDateTime};

// The date of a record, or its error, as `Date::try_from` returns them.
#[inline(always)]
#[tactic(auto, unfolding(crate::specs::Resolution::IsDated))]
fn date_of(parsed: &Parsed) -> Result<Date, TryFromParsed>
    ensures { IsDated greatest_year parsed.now (erased_conversion result) }
{
    match fast::year_month_day(parsed) {
        Some((year, month, day)) => calendar_date(year, month, day),
        None => date_of_rows(parsed),
    }
}

/// The date and the time of the record, or the first error of the two, the date's first. A second of 60 is an error,
/// even if leap seconds are allowed. A timestamp and an offset are ignored.
impl TryFrom<Parsed> for PlainDateTime {
    type Error = TryFromParsed;

    ghost try_from_gives = { λ p r. IsPlain greatest_year p (erased_conversion r) };

    #[inline(always)]
    fn try_from(parsed: Parsed) -> Result<PlainDateTime, TryFromParsed> {
        match fast::date_and_time(&parsed) {
            Some(date_time) => Ok(date_time),
            None => date_and_time(&parsed),
        }
    }
}

/// The moment of the timestamp, at offset 0; the record's subsecond, if set, replaces its nanosecond of the second.
/// Without a timestamp, the moment of the record's date, time and offset, or the first error of these, in that order.
///
/// Without a timestamp, a leap second that is allowed counts as the last nanosecond before it. If that isn't a month's
/// end in UTC, an error names `second` as conditional on other components.
impl TryFrom<Parsed> for OffsetDateTime {
    type Error = TryFromParsed;

    ghost try_from_gives = { λ p r. IsMoment greatest_year p (erased_conversion r) };

    #[inline(always)]
    fn try_from(parsed: Parsed) -> Result<OffsetDateTime, TryFromParsed> {
        match fast::moment(&parsed) {
            Some(moment) => Ok(moment),
            None => moment_or_refusal(&parsed),
        }
    }
}
