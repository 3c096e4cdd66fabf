//! The answer to a text.
ghost use Rattle.std.specs.Prelude.{◌≡◌, OnOk, codes, ◌++◌};
ghost use Rattle.std.specs.Io.KnownBytes.{Appends};
ghost use Rattle.time_values.specs.Refusal.{refusal_of, refusal_text};
ghost use Rattle.time_parsing.specs.Outcome.{seen};
ghost use Rattle.byte_streams.specs.Faults.{HasCause};
ghost use Rattle.programs_answers.specs.Output.{IsAnswerFor, Writes, printed};

mod fast;

use crate::formats::Target;
use crate::layout::Layout;
use byte_streams::{Sink, Unwritten};
use time_parsing::Parsable;
use time_record::Parsed;
use time_values::error::Parse;

// Writes `error: the 'NAME' component could not be parsed` with this name, without LF.
#[inline(always)]
fn write_missing<W: Sink>(name: &str, out: &mut W) -> Result<(), Unwritten>
    ensures bytes { OnOk result (Appends (W.contents out.old) (W.contents out.new)
        (codes "error: the '" ++ name.now ++ codes "' component could not be parsed")) }
    ensures cause { HasCause result (W.faults out.old) (W.faults out.new) }
    ensures through { W.through out.new ≡ W.through out.old }
{
    out.write_all(b"error: the '")?;
    out.write_all(name.as_bytes())?;
    out.write_all(b"' component could not be parsed")
}

// Writes `error: ` and the text of the parse error, without LF.
#[cold]
#[inline(never)]
fn write_error<W: Sink>(error: Parse, out: &mut W) -> Result<(), Unwritten>
    ensures bytes { OnOk result (Appends (W.contents out.old) (W.contents out.new) (codes "error: " ++ refusal_text (refusal_of error))) }
    ensures cause { HasCause result (W.faults out.old) (W.faults out.new) }
    ensures through { W.through out.new ≡ W.through out.old }
{
    if let Some(name) = fast::missing_component(error) {
        return write_missing(name, out);
    }
    if let Some(line) = fast::insufficient_information(error) {
        return out.write_all(line.as_bytes());
    }
    write!(out, "error: {error}")
}

/// Writes the text of the value, or `error: ` and the error's text, without LF. `Err` if a write failed, after which a
/// part may have been written.
#[inline(always)]
pub fn write_outcome<V: Layout, W: Sink>(
    outcome: Result<V, Parse>,
    out: &mut W,
) -> Result<(), Unwritten>
    ensures bytes { OnOk result (Appends (W.contents out.old) (W.contents out.new) (printed V.text (seen outcome))) }
    ensures cause { HasCause result (W.faults out.old) (W.faults out.new) }
    ensures through { W.through out.new ≡ W.through out.old }
{
    let value = match outcome {
        Ok(value) => value,
        Err(e) => return write_error(e, out),
    };
    value.write_to(out)
}

/// Parses the whole text by the format for the target, and writes the value, or `error: ` and the error's text, without
/// LF. `Staged` is parsed with an empty record as defaults, and any other target without defaults. `Err` if a write
/// failed, after which a part may have been written.
#[inline(always)]
pub fn write_value<F: Parsable, W: Sink>(
    format: &F,
    target: Target,
    text: &[u8],
    out: &mut W,
) -> Result<(), Unwritten>
    ensures bytes { OnOk result
        (Writes (IsAnswerFor target (F.path format.now) (F.reads format.now) (F.refuses format.now) text.now)
        (W.contents out.old) (W.contents out.new)) }
    ensures cause { HasCause result (W.faults out.old) (W.faults out.new) }
    ensures through { W.through out.new ≡ W.through out.old }
{
    match target {
        Target::Date => write_outcome(format.parse_date(text, None), out),
        Target::Time => write_outcome(format.parse_time(text, None), out),
        Target::Offset => write_outcome(format.parse_offset(text, None), out),
        Target::Plain => write_outcome(format.parse_plain_date_time(text, None), out),
        Target::Utc => write_outcome(format.parse_utc_date_time(text, None), out),
        Target::DateTime => write_outcome(format.parse_offset_date_time(text, None), out),
        Target::Staged => {
            write_outcome(
                format.parse_offset_date_time(text, Some(Parsed::new())),
                out,
            )
        }
        Target::Timestamp => write_outcome(format.parse_timestamp(text, None), out),
    }
}
