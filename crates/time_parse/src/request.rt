//! The format and the target that the arguments request.
ghost use Rattle.std.specs.Prelude.{◌≡◌, Some, IfOk, IfErr, OnOk, MatchResult};
ghost use Rattle.time_values.specs.Calendar.{greatest_year};
ghost use Rattle.time_descriptions.specs.Description.{IsRefused, shape, version_of};
ghost use Rattle.time_descriptions.specs.Grammar.{Describes};
ghost use Rattle.time_descriptions.specs.Refusal.{refusal_of};
ghost use Rattle.time_descriptions.specs.Strftime.{DescribesStrftime, IsRefusedStrftime};
ghost use Rattle.time_components.specs.Tree.{steps_shape};
ghost use Rattle.time_parsing.specs.Outcome.{over_record};
ghost use Rattle.time_record.specs.Reading as description;
ghost use Rattle.byte_streams.specs.Faults.{HasCause};
ghost use Rattle.programs_answers.specs.Formats.{target_named};
ghost use Rattle.programs_answers.specs.Output.{IsDescribed, PrintsOutcome, Writes};
ghost use Rattle.time_parse.specs.Request.{reason_of, IsAnswer, IsFault, IsFaultBy, IsFaulty, Means, MeansTree, meaning_of, number_of, writing_of};

use crate::arguments::Fault;
use byte_streams::{Sink, Unwritten};
use programs_answers::formats::{Format, Target, find_format, find_target};
use programs_answers::{Layout, LineHandler, Named, write_outcome};
use time_descriptions::{Description, InvalidFormatDescription, parse_borrowed, parse_strftime};
use time_parsing::Parsable;
use time_preparing::Prepared;
use time_record::Parsed;
use time_values::{Date, OffsetDateTime, PlainDateTime, Time, Timestamp, UtcDateTime, UtcOffset};

// The most steps of a description. A description in brackets of at most this many bytes never has more.
pub(crate) const MOST_STEPS: usize = 1024;

/// The version of a description with components in brackets: 1, where `[[` is a literal `[`, or 2, where `\[` is.
#[derive(Clone, Copy, Debug, PartialEq, Eq)]
pub enum Version {
    /// Version 1: `[[` is a literal `[`.
    One,
    /// Version 2: `\[` is a literal `[`.
    Two,
}

/// What the argument for a format is: a name, a description in brackets, one in strftime's syntax, or none of these.
#[derive(Clone, Copy, Debug)]
pub enum Writing {
    /// The name of a format.
    Name(Format),
    /// A description with components in brackets, as `[year]-[month]`: the argument isn't a name and contains `[`.
    Brackets,
    /// A description in strftime's syntax, as `%Y-%m`: the argument isn't a name, and contains `%` and no `[`.
    Strftime,
    /// Neither a name nor a description.
    Unknown,
}

/// The format that parses the texts: a named one, or a description that was prepared.
#[derive(Drop)]
pub enum Chosen {
    /// A named format, with the prepared descriptions of those named formats that need one.
    Named(Format, Named),
    /// A description, prepared for many lines.
    Described(Prepared<MOST_STEPS>),
}

/// A format, and the target: the type of value that texts are parsed for.
#[derive(Drop)]
pub struct Request {
    /// The format.
    pub chosen: Chosen,
    /// The target.
    pub target: Target,
}

// How the format is written: by its name, else in brackets if it contains `[`, else in strftime's syntax if it contains
// `%`. `Unknown` for any other text.
fn find_writing(format: &[u8]) -> Writing
    ensures { result ≡ writing_of format.now }
{
    if let Some(named) = find_format(format) {
        Writing::Name(named)
    } else if format.contains(&b'[') {
        Writing::Brackets
    } else if format.contains(&b'%') {
        Writing::Strftime
    } else {
        Writing::Unknown
    }
}

// Parses a description in brackets of the version. An error is its first fault, or that it has more than 1024 steps.
fn read_brackets(
    version: Version,
    format: &[u8],
) -> Result<Description<MOST_STEPS>, InvalidFormatDescription<'_>>
    ensures ok { IfOk result (λ d. Describes (version_of (number_of version)) format.now (shape d)) }
    ensures err { IfErr result (λ e. IsRefused MOST_STEPS (version_of (number_of version)) format.now (refusal_of e)) }
{
    match version {
        Version::One => parse_borrowed::<1, MOST_STEPS>(format),
        Version::Two => parse_borrowed::<2, MOST_STEPS>(format),
    }
}

// The format of a description in brackets, or the description's fault.
fn bracket_format(version: Version, format: &[u8]) -> Result<Chosen, Fault<'_>>
    ensures { MatchResult result
        (λ chosen. MeansTree (Describes (version_of (number_of version)) format.now) (meaning_of chosen))
        (λ fault. IsFaulty (IsRefused MOST_STEPS (version_of (number_of version)) format.now) format.now (reason_of fault)) }
{
    match read_brackets(version, format) {
        Ok(description) => Ok(Chosen::Described(Prepared::new(&description))),
        Err(error) => Err(Fault::Description { format, error }),
    }
}

// The format of a description in strftime's syntax, or the description's fault.
fn strftime_format(format: &[u8]) -> Result<Chosen, Fault<'_>>
    ensures { MatchResult result
        (λ chosen. MeansTree (DescribesStrftime format.now) (meaning_of chosen))
        (λ fault. IsFaulty (IsRefusedStrftime MOST_STEPS format.now) format.now (reason_of fault)) }
{
    match parse_strftime::<MOST_STEPS>(format) {
        Ok(description) => Ok(Chosen::Described(Prepared::new(&description))),
        Err(error) => Err(Fault::Description { format, error }),
    }
}

// The format that the argument names or describes, or its fault.
fn choose(version: Version, format: &[u8]) -> Result<Chosen, Fault<'_>>
    ensures { MatchResult result
        (λ chosen. Means version format.now (meaning_of chosen))
        (λ fault. IsFaultBy (writing_of format.now) version format.now (reason_of fault)) }
{
    match find_writing(format) {
        Writing::Name(format) => Ok(Chosen::Named(format, Named::new())),
        Writing::Brackets => bracket_format(version, format),
        Writing::Strftime => strftime_format(format),
        Writing::Unknown => Err(Fault::UnknownFormat { name: format }),
    }
}

impl Request {
    /// Finds the format by name or parses its description, of `version` if in brackets, and finds the target by name.
    ///
    /// # Errors
    ///
    /// The fault of the format, or else [`Fault::UnknownTarget`].
    pub fn new<'a>(
        version: Version,
        format: &'a [u8],
        target: &'a [u8],
    ) -> Result<Request, Fault<'a>>
        ensures { MatchResult result
            (λ request. Means version format.now (meaning_of request.chosen) × (target_named target.now ≡ Some request.target))
            (λ fault. IsFault version format.now target.now (reason_of fault)) }
    {
        let chosen = choose(version, format)?;
        match find_target(target) {
            Some(target) => Ok(Request { chosen, target }),
            None => Err(Fault::UnknownTarget { name: target }),
        }
    }
}

// Parses the whole text as a `V` by a description, without defaults, and writes the value, or `error: ` and the error,
// without LF. Each target has a function of its own, so that a line doesn't clear the stack slots of other targets'
// values.
#[inline(never)]
fn write_as<V: time_parsing::Target + Layout, W: Sink>(
    prepared: &Prepared<MOST_STEPS>,
    text: &[u8],
    out: &mut W,
) -> Result<(), Unwritten>
    ensures bytes { OnOk result (Writes (PrintsOutcome (V.outcome over_record (description.Reads greatest_year (steps_shape prepared.now))
        (description.Refuses greatest_year (steps_shape prepared.now)) text.now) V.text) (W.contents out.old) (W.contents out.new)) }
    ensures cause { HasCause result (W.faults out.old) (W.faults out.new) }
    ensures through { W.through out.new ≡ W.through out.old }
{
    write_outcome(V::parse(text, prepared), out)
}

// Parses the whole text as a date, time and offset by a description, with an empty record as defaults, and writes the
// value, or `error: ` and the error, without LF.
#[inline(never)]
fn write_staged<W: Sink>(
    prepared: &Prepared<MOST_STEPS>,
    text: &[u8],
    out: &mut W,
) -> Result<(), Unwritten>
    ensures bytes { OnOk result (Writes (IsDescribed (steps_shape prepared.now) Target.Staged text.now)
        (W.contents out.old) (W.contents out.new)) }
    ensures cause { HasCause result (W.faults out.old) (W.faults out.new) }
    ensures through { W.through out.new ≡ W.through out.old }
{
    write_outcome(
        prepared.parse_offset_date_time(text, Some(Parsed::new())),
        out,
    )
}

// Parses the whole text for the target by a description, and writes the value, or `error: ` and the error, without LF.
#[inline(never)]
fn write_described<W: Sink>(
    prepared: &Prepared<MOST_STEPS>,
    target: Target,
    text: &[u8],
    out: &mut W,
) -> Result<(), Unwritten>
    ensures bytes { OnOk result (Writes (IsDescribed (steps_shape prepared.now) target text.now)
        (W.contents out.old) (W.contents out.new)) }
    ensures cause { HasCause result (W.faults out.old) (W.faults out.new) }
    ensures through { W.through out.new ≡ W.through out.old }
{
    match target {
        Target::Date => write_as::<Date, W>(prepared, text, out),
        Target::Time => write_as::<Time, W>(prepared, text, out),
        Target::Offset => write_as::<UtcOffset, W>(prepared, text, out),
        Target::Plain => write_as::<PlainDateTime, W>(prepared, text, out),
        Target::Utc => write_as::<UtcDateTime, W>(prepared, text, out),
        Target::DateTime => write_as::<OffsetDateTime, W>(prepared, text, out),
        Target::Staged => write_staged(prepared, text, out),
        Target::Timestamp => write_as::<Timestamp, W>(prepared, text, out),
    }
}

impl LineHandler for Request {
    ghost is_answer = { λ request. IsAnswer (meaning_of request.chosen) request.target };

    #[inline(always)]
    fn write_answer<W: Sink>(&self, line: &[u8], out: &mut W) -> Result<(), Unwritten> {
        match &self.chosen {
            Chosen::Named(format, named) => named.write_parsed(*format, self.target, line, out),
            Chosen::Described(prepared) => write_described(prepared, self.target, line, out),
        }
    }
}
