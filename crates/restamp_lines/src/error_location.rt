//! Locates the error in a rejected timestamp.
ghost use Rattle.std.specs.Prelude.{◌≡◌};
ghost use Rattle.std.specs.Option.{option_map};
ghost use Rattle.time_values.specs.Refusal.{refusal_of};
ghost use Rattle.time_record.specs.Record.{empty};
ghost use Rattle.time_locating.specs.Located as located;
ghost use Rattle.restamp_formats.specs.Reason.{seen};
ghost use Rattle.restamp_lines.specs.ErrorLocation as spec;
ghost use Rattle.restamp_lines.specs.Job.{erased_part};

use crate::job::Job;
use crate::part::Part;
use restamp_formats::{Reading, Reason, read_front_3339};
use time_locating::{Expected, Locate};
use time_parsing::{Iso8601, Parsable, Rfc2822, Rfc3339Strict};
use time_record::Parsed;
use time_values::error::{Parse, ParseFromDescription, TryFromParsed};
use time_zones::read_suffix;

/// The location of the error in a rejected timestamp, and what was expected there, if it is known.
#[derive(Clone, Copy, Debug)]
pub struct ErrorLocation<'a> {
    /// The number of the error's byte in its line, from 1; one past the last byte if the line ends there.
    pub column: usize,
    /// What was expected there, if the first format fails to match there or bytes follow the timestamp; `None` for any
    /// other error, such as a value out of range.
    pub expected: Option<Expected<'a>>,
}

// Whether the format matches a prefix of the text, even if its components make no valid value.
fn reads_front<F: Parsable>(format: &F, text: &[u8]) -> bool
    ensures { spec.MatchesPrefix (F.reads format.now) text.now result }
{
    let mut parsed = Parsed::new();
    format.parse_into(text, &mut parsed).is_ok()
}

// The name of the component that the error reports as out of range; `None` for any other error.
fn range_name(error: Parse) -> Option<&'static str>
    ensures { option_map (λ name. name.now) result ≡ located.range_name (refusal_of error) }
{
    match error {
        Parse::TryFromParsed(TryFromParsed::ComponentRange(range)) => Some(range.name),
        Parse::TryFromParsed(TryFromParsed::InsufficientInformation)
        | Parse::ParseFromDescription(_) => None,
    }
}

// The index in the text at which the component starts that the error reports as out of range: for an `ordinal` in a
// text without one, the start of the week number. `None` if the error reports none, the format matches no prefix of the
// text, or that prefix has no such component.
fn index_of_value<F: Locate>(format: &F, text: &[u8], error: Parse) -> Option<usize>
    ensures { located.IsValueAt (F.marks format.now) text.now empty (located.range_name (refusal_of error)) result }
{
    let name = range_name(error)?;
    match format.locate_component(text, None, name) {
        Some(index) => Some(index),
        None if name == "ordinal" => format.locate_component(text, None, "week number"),
        None => None,
    }
}

// Locates a rejected value in a part of a line: the start of the last component that the error calls out of range, or
// for an absent `ordinal` of the last week number; without such a component, the start of the part.
fn find_value<'f, F: Locate>(format: &F, part: Part<'_>, error: Parse) -> ErrorLocation<'f>
    ensures { spec.IsValueLocation (F.marks format.now) (erased_part part.entry) (refusal_of error) (spec.erased_location result) }
{
    let index = index_of_value(format, part.text, error).unwrap_or(0);
    ErrorLocation {
        column: part.start + index + 1,
        expected: None,
    }
}

// Locates the error in a part of a line that the format rejects: the rejected value of `error` if the format matches
// the part (a prefix of it if `is_prefix` is true), otherwise the mismatch.
fn find_by<'f, F: Locate>(format: &'f F, part: Part<'_>, error: Parse) -> ErrorLocation<'f>
    ensures { spec.IsLocationBy (F.reads format.now) (F.locates format.now) (F.marks format.now) (erased_part part.entry)
        (refusal_of error) (spec.erased_location result) }
{
    if part.is_prefix && reads_front(format, part.text) {
        return find_value(format, part, error);
    }
    match format.locate(part.text, None) {
        Some(place) => ErrorLocation {
            column: part.start + place.index + 1,
            expected: Some(place.expected),
        },
        None => find_value(format, part, error),
    }
}

// Whether the error is that bytes follow a whole timestamp.
fn is_trailing(error: Parse) -> bool
    ensures { result ≡ spec.is_trailing (refusal_of error) }
{
    matches!(
        error,
        Parse::ParseFromDescription(ParseFromDescription::UnexpectedTrailingCharacters)
    )
}

// Locates the bytes that follow a timestamp and its suffix, in a part of a line, where the end was expected; or the
// error by RFC 3339 if the part starts with no timestamp of RFC 3339.
fn find_tail<'f>(part: Part<'_>, error: Parse) -> ErrorLocation<'f>
    ensures { spec.IsTailLocation (erased_part part.entry) (refusal_of error) (spec.erased_location result) }
{
    match read_front_3339(part.text) {
        Ok(front) => ErrorLocation {
            column: part.start + front.length + read_suffix(&part.text[front.length..]).len + 1,
            expected: Some(Expected::End),
        },
        Err(_) => find_by(&Rfc3339Strict, part, error),
    }
}

// Locates the error in a part of a line that RFC 9557 rejects: the bytes after the suffix if the error is that bytes
// follow, otherwise the error by RFC 3339.
fn find_zoned<'f>(part: Part<'_>, error: Parse) -> ErrorLocation<'f>
    ensures { spec.IsZonedLocation (erased_part part.entry) (refusal_of error) (spec.erased_location result) }
{
    let part = Part {
        start: part.start,
        is_prefix: true,
        text: part.text,
    };
    if is_trailing(error) {
        return find_tail(part, error);
    }
    find_by(&Rfc3339Strict, part, error)
}

// Locates the error in a part of a line that this format rejects.
fn find_in_part<'a>(reading: &'a Reading, part: Part<'_>, error: Parse) -> ErrorLocation<'a>
    ensures { spec.IsPartLocation reading.now (erased_part part.entry) (refusal_of error) (spec.erased_location result) }
{
    match reading {
        Reading::Rfc3339 => find_by(&Rfc3339Strict, part, error),
        Reading::Zoned(_) => find_zoned(part, error),
        Reading::Rfc2822 => find_by(&Rfc2822, part, error),
        Reading::Iso8601 => find_by(&Iso8601, part, error),
        Reading::Described(described) => find_by(described, part, error),
        Reading::Complete(described) => find_by(described, part, error),
        Reading::Counted(described) => find_by(described, part, error),
    }
}

// The start of the suffix that rejects the moment, right after the timestamp of RFC 3339 at the start of the part;
// `otherwise` if the part starts with no such timestamp.
fn find_suffix<'a>(part: Part<'_>, otherwise: ErrorLocation<'a>) -> ErrorLocation<'a>
    ensures { spec.IsSuffixLocation (erased_part part.entry) (spec.erased_location otherwise.entry) (spec.erased_location result) }
{
    match read_front_3339(part.text) {
        Ok(front) => ErrorLocation {
            column: part.start + front.length + 1,
            expected: None,
        },
        Err(_) => otherwise,
    }
}

impl<'a> Job<'a> {
    /// Locates the error in the timestamp of a line that was rejected at `column` for `reason`. For [`Reason::Unread`],
    /// the location is the byte at which the first format fails to match; if it matches, the start of the component
    /// whose value is rejected, or without one, the start of the timestamp's part. For [`Reason::Suffix`], it is the
    /// start of the suffix. For other reasons, or if the job has no place or the line no part there, it is `column`.
    ///
    /// Defaults have no effect: they only supply what a timestamp omits.
    #[inline(never)]
    pub fn find_location(&self, line: &[u8], column: usize, reason: Reason) -> ErrorLocation<'a>
        ensures { spec.IsErrorLocation self.now line.now column (seen reason) (spec.erased_location result) }
    {
        let otherwise = ErrorLocation {
            column,
            expected: None,
        };
        let Some(part) = self.find_part(line) else {
            return otherwise;
        };
        match reason {
            Reason::Unread(error) => find_in_part(self.first, part, error),
            Reason::Suffix(_) => find_suffix(part, otherwise),
            _ => otherwise,
        }
    }
}

/// The error in a rejected line has at most one location: a column, and what was expected there or `None`.
#[tactic(auto, using(crate::proofs::OneErrorLocation::one_error_location))]
pub fn law_one_error_location()
    ensures { spec.OneErrorLocation }
{}
