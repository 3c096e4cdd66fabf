//! Writes the index at which a text is rejected, after its answer.
ghost use Rattle.std.specs.Prelude.{OnOk, codes, map, ◌++◌, ◌≡◌};
ghost use Rattle.std.specs.Fmt.{decimal};
ghost use Rattle.std.specs.Io.KnownBytes.{Appends};
ghost use Rattle.std.specs.Option.{option_map};
ghost use Rattle.time_values.specs.Refusal.{refusal_of};
ghost use Rattle.time_parsing.specs.Outcome.{seen};
ghost use Rattle.byte_streams.specs.Faults.{HasCause};
ghost use Rattle.programs_answers.specs.Output.{Writes};
ghost use Rattle.time_locating.specs.Located.{wants};
ghost use Rattle.time_locating.specs.Misses.{all_bytes};
ghost use Rattle.programs_answers.specs.Formats as formats;
ghost use Rattle.time_parse.specs.Request as fault;
ghost use Rattle.time_parse.specs.Place.{IsErrorPlace, IsNamedPlace, IsPlace, IsPlaceBy, IsPlacedAnswer, IsRefusalFor, IsTreePlace, expected_text, index_text, refusal_in};
ghost use Rattle.time_parse.specs.Request.{meaning_of};

use crate::arguments::printable;
use crate::request::{Chosen, Request};
use byte_streams::{Sink, Unwritten};
use programs_answers::LineHandler;
use programs_answers::formats::{
    Format, Target, clock_items, compound, date_items, first, fraction_items, local_items,
    second_items, unix,
};
use time_locating::{Expected, Locate, locate_error};
use time_parsing::{Iso8601, Parsable, Rfc2822, Rfc3339};
use time_record::Parsed;
use time_values::error::Parse;

/// Answers lines as its request does. To the answer of a rejected line it appends ` at ` and the byte index of the
/// error, if the error has one, and `: expected ` and what was expected there, if the line doesn't match the format.
#[derive(Drop)]
pub struct Placing {
    /// The format and the target.
    pub request: Request,
}

// Writes the bytes, with `?` for each that isn't printable ASCII.
fn write_printable<W: Sink>(bytes: &[u8], out: &mut W) -> Result<(), Unwritten>
    ensures bytes { OnOk result (Appends (W.contents out.old) (W.contents out.new) (map fault.printable bytes.now)) }
    ensures cause { HasCause result (W.faults out.old) (W.faults out.new) }
    ensures through { W.through out.new ≡ W.through out.old }
{
    for byte in bytes {
        out.write_all(&[printable(*byte)])?;
    }
    Ok(())
}

// Writes what was expected, without ` at ` and `: expected `: the name of a component, `the end`, or the bytes of a
// literal in single quotes, with `?` for each that isn't printable ASCII.
fn write_expected<W: Sink>(expected: Expected<'_>, out: &mut W) -> Result<(), Unwritten>
    ensures bytes { OnOk result (Appends (W.contents out.old) (W.contents out.new) (expected_text (wants expected.entry))) }
    ensures cause { HasCause result (W.faults out.old) (W.faults out.new) }
    ensures through { W.through out.new ≡ W.through out.old }
{
    let last: &[u8] = match expected {
        Expected::Component(name) => name.as_bytes(),
        Expected::End => b"the end",
        Expected::Literal(bytes) => {
            out.write_all(b"'")?;
            write_printable(bytes, out)?;
            b"'"
        }
    };
    out.write_all(last)
}

// The error of an outcome, or `None` for a value.
fn error_of<V: Drop>(outcome: Result<V, Parse>) -> Option<Parse>
    ensures { option_map refusal_of result ≡ refusal_in (seen outcome) }
{
    match outcome {
        Ok(_) => None,
        Err(error) => Some(error),
    }
}

// The error of parsing the whole text by the format for the target, or `None` if the text has a value. `Staged` is
// parsed with an empty record as defaults, and any other target without defaults.
fn refusal<F: Parsable>(format: &F, target: Target, text: &[u8]) -> Option<Parse>
    ensures { IsRefusalFor target (F.path format.now) (F.reads format.now) (F.refuses format.now) text.now
        (option_map refusal_of result) }
{
    match target {
        Target::Date => error_of(format.parse_date(text, None)),
        Target::Time => error_of(format.parse_time(text, None)),
        Target::Offset => error_of(format.parse_offset(text, None)),
        Target::Plain => error_of(format.parse_plain_date_time(text, None)),
        Target::Utc => error_of(format.parse_utc_date_time(text, None)),
        Target::DateTime => error_of(format.parse_offset_date_time(text, None)),
        Target::Staged => error_of(format.parse_offset_date_time(text, Some(Parsed::new()))),
        Target::Timestamp => error_of(format.parse_timestamp(text, None)),
    }
}

// Writes the number in decimal digits.
fn write_number<W: Sink>(number: usize, out: &mut W) -> Result<(), Unwritten>
    ensures bytes { OnOk result (Appends (W.contents out.old) (W.contents out.new) (decimal number)) }
    ensures cause { HasCause result (W.faults out.old) (W.faults out.new) }
    ensures through { W.through out.new ≡ W.through out.old }
{
    let mut buffer = itoa::Buffer::new();
    out.write_all(buffer.format(number).as_bytes())
}

// Writes ` at ` and the index in decimal digits, or nothing for `None`.
fn write_index<W: Sink>(index: Option<usize>, out: &mut W) -> Result<(), Unwritten>
    ensures bytes { OnOk result (Appends (W.contents out.old) (W.contents out.new) (index_text index)) }
    ensures cause { HasCause result (W.faults out.old) (W.faults out.new) }
    ensures through { W.through out.new ≡ W.through out.old }
{
    let Some(index) = index else {
        return Ok(());
    };
    out.write_all(b" at ")?;
    write_number(index, out)
}

// Writes ` at `, the index in decimal digits and `: expected `.
fn write_found<W: Sink>(index: usize, out: &mut W) -> Result<(), Unwritten>
    ensures bytes { OnOk result (Appends (W.contents out.old) (W.contents out.new) (codes " at " ++ decimal index ++ codes ": expected ")) }
    ensures cause { HasCause result (W.faults out.old) (W.faults out.new) }
    ensures through { W.through out.new ≡ W.through out.old }
{
    write_index(Some(index), out)?;
    out.write_all(b": expected ")
}

// Writes ` at ` and the index that `locate_error` returns for this error of the text, or nothing without an error or an
// index.
fn write_error_place<F: Locate, W: Sink>(
    format: &F,
    error: Option<Parse>,
    text: &[u8],
    out: &mut W,
) -> Result<(), Unwritten>
    ensures bytes { OnOk result (Writes (IsErrorPlace (F.reads format.now) (F.locates format.now) (F.marks format.now) text.now
        (option_map refusal_of error)) (W.contents out.old) (W.contents out.new)) }
    ensures cause { HasCause result (W.faults out.old) (W.faults out.new) }
    ensures through { W.through out.new ≡ W.through out.old }
{
    match error {
        Some(error) => write_index(locate_error(format, text, None, error), out),
        None => Ok(()),
    }
}

// Writes ` at `, the byte index at which the text doesn't match the format, `: expected ` and what was expected there.
// If the whole text matches, writes ` at ` and the index of the component that the error for the target calls out of
// range (the week number for an absent ordinal), or nothing without an error or such a component.
fn write_place<F: Locate, W: Sink>(
    format: &F,
    target: Target,
    text: &[u8],
    out: &mut W,
) -> Result<(), Unwritten>
    ensures bytes { OnOk result (Writes
        (IsPlace target (F.path format.now) (F.reads format.now) (F.refuses format.now) (F.locates format.now)
        (F.marks format.now) text.now) (W.contents out.old) (W.contents out.new)) }
    ensures cause { HasCause result (W.faults out.old) (W.faults out.new) }
    ensures through { W.through out.new ≡ W.through out.old }
{
    let Some(place) = format.locate(text, None) else {
        return write_error_place(format, refusal(format, target, text), text, out);
    };
    write_found(place.index, out)?;
    write_expected(place.expected, out)
}

// Writes the location of the text's error by the format `ymd`, as `write_place` does.
fn write_ymd_place<W: Sink>(target: Target, text: &[u8], out: &mut W) -> Result<(), Unwritten>
    ensures bytes { OnOk result (Writes (IsTreePlace all_bytes formats.ymd target text.now)
        (W.contents out.old) (W.contents out.new)) }
    ensures cause { HasCause result (W.faults out.old) (W.faults out.new) }
    ensures through { W.through out.new ≡ W.through out.old }
{
    let items = date_items();
    write_place(&compound(&items), target, text, out)
}

// Writes the location of the text's error by the format `clock`, as `write_place` does.
fn write_clock_place<W: Sink>(target: Target, text: &[u8], out: &mut W) -> Result<(), Unwritten>
    ensures bytes { OnOk result (Writes (IsTreePlace all_bytes formats.clock target text.now)
        (W.contents out.old) (W.contents out.new)) }
    ensures cause { HasCause result (W.faults out.old) (W.faults out.new) }
    ensures through { W.through out.new ≡ W.through out.old }
{
    let fraction = fraction_items();
    let fraction = compound(&fraction);
    let seconds = second_items(&fraction);
    let seconds = compound(&seconds);
    let items = clock_items(&seconds);
    write_place(&compound(&items), target, text, out)
}

// Writes the location of the text's error by the format `local`, as `write_place` does.
fn write_local_place<W: Sink>(target: Target, text: &[u8], out: &mut W) -> Result<(), Unwritten>
    ensures bytes { OnOk result (Writes (IsTreePlace all_bytes formats.local target text.now)
        (W.contents out.old) (W.contents out.new)) }
    ensures cause { HasCause result (W.faults out.old) (W.faults out.new) }
    ensures through { W.through out.new ≡ W.through out.old }
{
    let items = local_items();
    let (date_time, ordinal) = items.split_at(15);
    let lists = [compound(date_time), compound(ordinal)];
    write_place(&first(&lists), target, text, out)
}

// Writes the location of the text's error by a named format, as `write_place` does.
fn write_named_place<W: Sink>(
    format: Format,
    target: Target,
    text: &[u8],
    out: &mut W,
) -> Result<(), Unwritten>
    ensures bytes { OnOk result (Writes (IsNamedPlace format target text.now) (W.contents out.old) (W.contents out.new)) }
    ensures cause { HasCause result (W.faults out.old) (W.faults out.new) }
    ensures through { W.through out.new ≡ W.through out.old }
{
    match format {
        Format::Rfc3339 => write_place(&Rfc3339, target, text, out),
        Format::Rfc2822 => write_place(&Rfc2822, target, text, out),
        Format::Iso8601 => write_place(&Iso8601, target, text, out),
        Format::Ymd => write_ymd_place(target, text, out),
        Format::Clock => write_clock_place(target, text, out),
        Format::Unix => write_place(&unix(), target, text, out),
        Format::Local => write_local_place(target, text, out),
    }
}

// Writes the location of the text's error by the chosen format, as `write_place` does.
fn write_chosen_place<W: Sink>(
    chosen: &Chosen,
    target: Target,
    text: &[u8],
    out: &mut W,
) -> Result<(), Unwritten>
    ensures bytes { OnOk result (Writes (IsPlaceBy (meaning_of chosen.now) target text.now)
        (W.contents out.old) (W.contents out.new)) }
    ensures cause { HasCause result (W.faults out.old) (W.faults out.new) }
    ensures through { W.through out.new ≡ W.through out.old }
{
    match chosen {
        Chosen::Named(format, _) => write_named_place(*format, target, text, out),
        Chosen::Described(prepared) => write_place(prepared, target, text, out),
    }
}

impl LineHandler for Placing {
    ghost is_answer = { λ placing. IsPlacedAnswer (meaning_of placing.request.chosen) placing.request.target };

    fn write_answer<W: Sink>(&self, line: &[u8], out: &mut W) -> Result<(), Unwritten> {
        self.request.write_answer(line, out)?;
        write_chosen_place(&self.request.chosen, self.request.target, line, out)
    }
}
