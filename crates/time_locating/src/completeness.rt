//! Which of its components a record has for a date or a time, to find what a text is missing.
ghost use Rattle.std.specs.Prelude.{◌≡◌};
ghost use Rattle.time_locating.specs.Completeness as spec;

use time_record::Parsed;

// Whether the record has a year, or its century and its last two digits.
fn has_whole_year(parsed: &Parsed) -> bool
    ensures { result ≡ spec.has_whole_year parsed.now }
{
    parsed.year().is_some() || (parsed.year_century().is_some() && parsed.year_last_two().is_some())
}

// Whether the record has an ISO 8601 week year, or its century and its last two digits.
fn has_whole_iso_year(parsed: &Parsed) -> bool
    ensures { result ≡ spec.has_whole_iso_year parsed.now }
{
    parsed.iso_year().is_some()
        || (parsed.iso_year_century().is_some() && parsed.iso_year_last_two().is_some())
}

/// Whether the record has a day of a year: its number in the year, a month and a day, or a weekday and the number of a
/// week that starts on Sunday or Monday.
pub fn has_day(parsed: &Parsed) -> bool
    ensures { result ≡ spec.has_day parsed.now }
{
    parsed.ordinal().is_some()
        || (parsed.month().is_some() && parsed.day().is_some())
        || (parsed.weekday().is_some()
            && (parsed.sunday_week_number().is_some() || parsed.monday_week_number().is_some()))
}

/// Whether the record has a day of an ISO 8601 week year: a week number and a weekday.
pub fn has_iso_day(parsed: &Parsed) -> bool
    ensures { result ≡ spec.has_iso_day parsed.now }
{
    parsed.iso_week_number().is_some() && parsed.weekday().is_some()
}

/// Whether the record has a day with its whole year, both of the calendar year or both of the ISO 8601 week year. A year
/// is whole if the record has it, or its century and its last two digits.
pub fn has_full_date(parsed: &Parsed) -> bool
    ensures { result ≡ spec.has_full_date parsed.now }
{
    (has_whole_year(parsed) && has_day(parsed))
        || (has_whole_iso_year(parsed) && has_iso_day(parsed))
}

/// Whether the record has an hour of the day: from 0 to 23, or from 1 to 12 with AM or PM.
pub fn has_hour(parsed: &Parsed) -> bool
    ensures { result ≡ spec.has_hour parsed.now }
{
    parsed.hour_24().is_some() || (parsed.hour_12().is_some() && parsed.hour_12_is_pm().is_some())
}

/// Whether the record has a second or a fraction of a second, but no minute, so that it has no time.
pub fn skips_minute(parsed: &Parsed) -> bool
    ensures { result ≡ spec.skips_minute parsed.now }
{
    parsed.minute().is_none() && (parsed.second().is_some() || parsed.subsecond().is_some())
}

/// Whether the record has a fraction of a second, but no second, so that it has no time.
pub fn skips_second(parsed: &Parsed) -> bool
    ensures { result ≡ spec.skips_second parsed.now }
{
    parsed.second().is_none() && parsed.subsecond().is_some()
}
