//! Finds the part that is missing from a rejected timestamp.
ghost use Rattle.std.specs.Prelude.{◌≡◌, Some};
ghost use Rattle.restamp_lines.specs.ErrorLocation as spec;
ghost use Rattle.restamp_formats.specs.Reason.{seen};

use crate::job::Job;
use restamp_formats::{Defaults, MissingField, Reading, Reason, ReasonDisplay, complete, has_year};
use std::fmt;
use time_locating::{has_day, has_full_date, has_hour, has_iso_day, skips_minute, skips_second};
use time_parsing::{Iso8601, Parsable};
use time_record::Parsed;
use time_values::error::{Parse, TryFromParsed};

// The missing part of a record without a date: `Day` if it has no day by `has_day` or `has_iso_day`, otherwise
// `WholeYear` if it has a part of a year or a whole year of the other kind than its day, else `Year`.
fn missing_date_field(parsed: &Parsed) -> MissingField
    ensures { result ≡ spec.missing_date_field parsed.now }
{
    if !has_day(parsed) && !has_iso_day(parsed) {
        MissingField::Day
    } else if has_year(parsed) {
        MissingField::WholeYear
    } else {
        MissingField::Year
    }
}

// The missing part of a record with a date: the first of the hour (AM or PM if it has an hour from 1 to 12), a minute
// before a second or a fraction, and a second before a fraction that it doesn't have; or else the offset.
fn missing_time_field(parsed: &Parsed) -> MissingField
    ensures { result ≡ spec.missing_time_field parsed.now }
{
    if !has_hour(parsed) {
        return if parsed.hour_12().is_some() {
            MissingField::Half
        } else {
            MissingField::Hour
        };
    }
    if skips_minute(parsed) {
        MissingField::Minute
    } else if skips_second(parsed) {
        MissingField::Second
    } else {
        MissingField::Offset
    }
}

// The missing part of a record that has too little information for a moment: a part of its date, or if it has a date,
// of its time or offset.
fn missing_field_in(parsed: &Parsed) -> MissingField
    ensures { result ≡ spec.missing_field_in parsed.now }
{
    if has_full_date(parsed) {
        missing_time_field(parsed)
    } else {
        missing_date_field(parsed)
    }
}

// The missing part of a text, with the default year and offset; `None` if the format matches no prefix of it.
fn missing_field_by<F: Parsable>(
    format: &F,
    defaults: &Defaults<'_>,
    text: &[u8],
) -> Option<MissingField>
    ensures { spec.IsMissingFieldBy (F.reads format.now) (F.refuses format.now) defaults.now text.now result }
{
    let mut parsed = Parsed::new();
    match format.parse_into(text, &mut parsed) {
        Ok(_rest) => {
            complete(defaults, &mut parsed);
            Some(missing_field_in(&parsed))
        }
        Err(_) => None,
    }
}

// Whether the reason is that the timestamp omits a part of a moment.
fn is_insufficient(reason: Reason) -> bool
    ensures { result ≡ spec.is_insufficient (seen reason) }
{
    matches!(
        reason,
        Reason::Unread(Parse::TryFromParsed(TryFromParsed::InsufficientInformation))
    )
}

// The defaults with the year of `latest` in place of `year` and `latest`; unchanged if `latest` is `None`.
fn dated<'a>(defaults: &Defaults<'a>) -> Defaults<'a>
    ensures { result ≡ spec.dated defaults.now }
{
    match defaults.latest {
        Some(latest) => Defaults {
            year: Some(latest.year()),
            offset: defaults.offset,
            clocks: defaults.clocks,
            latest: None,
        },
        None => *defaults,
    }
}

// The missing part of a text, with the default year and offset; `None` if the format matches no prefix of it. Always
// `None` for `Complete`, even if a part is missing, and for RFC 3339, RFC 9557 and RFC 2822, whose texts lack none.
fn missing_field_in_text(
    reading: &Reading,
    defaults: &Defaults<'_>,
    text: &[u8],
) -> Option<MissingField>
    ensures { spec.IsMissingFieldIn reading.now defaults.now text.now result }
{
    match reading {
        Reading::Iso8601 => missing_field_by(&Iso8601, defaults, text),
        Reading::Described(described) | Reading::Counted(described) => {
            missing_field_by(described, defaults, text)
        }
        Reading::Rfc3339 | Reading::Zoned(_) | Reading::Rfc2822 | Reading::Complete(_) => None,
    }
}

impl Job<'_> {
    /// The missing part of a line's timestamp that was rejected for `reason`: the first of a day, its year, an hour, AM
    /// or PM of an hour from 1 to 12, the minute of a given second or fraction, the second of a given fraction, and an
    /// offset that neither the text, by the first format, nor a default supplies. The year of any `latest` replaces the
    /// default `year`. `None` if `reason` isn't `InsufficientInformation`, if the job has no place or the line no part
    /// there, or if the first format matches no prefix of that part, or is RFC 3339, RFC 9557, RFC 2822 or `Complete`.
    #[inline(never)]
    pub fn find_missing_field(&self, line: &[u8], reason: Reason) -> Option<MissingField>
        ensures { spec.IsMissingField self.now line.now (seen reason) result }
    {
        if !is_insufficient(reason) {
            return None;
        }
        let part = self.find_part(line)?;
        missing_field_in_text(self.first, &dated(&self.defaults), part.text)
    }
}

/// Why a timestamp isn't rewritten. Displays only the missing part if there is one, otherwise the reason.
#[derive(Clone, Copy)]
pub struct Why<'a> {
    /// The reason.
    pub reason: Reason,
    /// The missing part, which is displayed instead of the reason; `None` if no part is missing.
    pub missing_field: Option<MissingField>,
    /// The name of the time zone, for the reasons [`Reason::Nonexistent`] and [`Reason::Ambiguous`].
    pub zone: &'a str,
}

impl fmt::Display for Why<'_> {
    ghost output = { λ why. Some (spec.why_text why.zone.now (seen why.reason) why.missing_field) };

    fn fmt<W: fmt::Write>(&self, f: &mut fmt::Formatter<W>) -> fmt::Result {
        match self.missing_field {
            Some(missing_field) => write!(f, "{missing_field}"),
            None => {
                let told = ReasonDisplay {
                    reason: self.reason,
                    zone: self.zone,
                };
                write!(f, "{told}")
            }
        }
    }
}

/// The contract of [`Job::find_missing_field`] allows at most one result, even if several parts are missing.
#[tactic(auto, using(crate::proofs::OneErrorLocation::one_missing_field))]
pub fn law_one_missing_field()
    ensures { spec.OneMissingField }
{}
