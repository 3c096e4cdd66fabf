//! Answers all lines of an input.
ghost use Rattle.std.specs.Prelude.{◌≡◌, Err, OnOk, IfSome};
ghost use Rattle.time_values.specs.Calendar.{greatest_year};
ghost use Rattle.programs_answers.specs.Output.{HasReadCause, HasWriteCause, IsWriteCounted, IsReadCounted};
ghost use Rattle.programs_answers.specs.Output as output;
ghost use Rattle.programs_answers.specs.declared.serving.Stop.{Stop as Stop_};
ghost use Rattle.programs_answers.specs.declared.serving.Stop.TheVariants as Stop;
ghost use Rattle.time_parse.specs.Request.{reason_of, IsFault, meaning_of};
ghost use Rattle.time_parse.specs.Place.{IsRequestedAnswer, WritesAnswers};
ghost use Rattle.time_parse.specs.declared.arguments.Fault.{Fault as Fault_};
ghost use Rattle.time_parse.specs.declared.serving.Failure.TheVariants as failure;

use crate::arguments::{Fault, Question};
use crate::place::Placing;
use crate::request::Request;
use byte_streams::{BufferedSink, Sink, Source};
use programs_answers::Stop;
use std::alloc::Global;

/// Why the program exits early: a fault of the arguments, or a failed read, write or allocation, or an endless input.
#[derive(Clone, Copy)]
pub enum Failure<'a> {
    /// The format is unknown, or is a description with a fault, or the target is unknown. Nothing was read or written.
    Arguments(Fault<'a>),
    /// A read, a write or an allocation failed, or the input didn't end within 4294967296 reads.
    Stopped(Stop),
}

// Reads the input to its end, and writes the answer to each of its lines and an LF after it. With `prints_places` the
// error's location, if it has one, follows the answer to a rejected line, before the LF.
fn serve_request<R: Source, W: Sink>(
    request: Request,
    prints_places: bool,
    alloc: Global,
    input: &mut R,
    out: &mut BufferedSink<W>,
) -> Result<(), Stop>
    ensures ok { OnOk result (IfSome (R.remaining input.old)
        (λ bytes. output.WritesAnswers (IsRequestedAnswer prints_places (meaning_of request.chosen)
        request.target)
        (W.contents out.old.sink) (W.contents out.new.sink) bytes)) }
    ensures unread { result ≡ Err Stop.Unread → out.new ≡ out.old }
    ensures memory { result ≡ Err Stop.Memory → out.new ≡ out.old }
    ensures read { HasReadCause result (R.faults input.old) (R.faults input.new) (R.given input.old) (R.given input.new) }
    ensures cause { HasWriteCause result (W.faults out.old.sink) (W.faults out.new.sink) }
{
    if prints_places {
        programs_answers::serve(&Placing { request }, alloc, input, out)
    } else {
        programs_answers::serve(&request, alloc, input, out)
    }
}

/// Reads the input to its end, and writes the answer to each of its lines and an LF after it, by the requested format
/// and for the requested target. If locations are requested, the error's location, if it has one, follows the answer to
/// a rejected line, before the LF.
///
/// LF is optional after the last line. Earlier contents of the buffer are dropped once the whole input is read, and the
/// sink isn't flushed. If the format or the target has a fault, nothing is read or written. Otherwise it returns early
/// only after a read or a write that failed, when memory runs out, or when 4294967296 reads don't reach the end. Unless
/// a write failed, nothing was written then.
pub fn serve<'a, R: Source, W: Sink>(
    question: Question<'a>,
    alloc: Global,
    input: &mut R,
    out: &mut BufferedSink<W>,
) -> Result<(), Failure<'a>>
    ensures ok { OnOk result (IfSome (R.remaining input.old)
        (λ bytes. WritesAnswers question.entry.prints_places question.entry.version
        question.entry.format.now question.entry.target.now
        (W.contents out.old.sink) (W.contents out.new.sink) bytes)) }
    ensures fault { (f : Fault_) → result ≡ Err (failure.Arguments f)
        → IsFault question.entry.version question.entry.format.now question.entry.target.now (reason_of f)
        × (input.new ≡ input.old) × (out.new ≡ out.old) }
    ensures unread { result ≡ Err (failure.Stopped Stop.Unread) → out.new ≡ out.old }
    ensures memory { result ≡ Err (failure.Stopped Stop.Memory) → out.new ≡ out.old }
    ensures read { (stop : Stop_) → result ≡ Err (failure.Stopped stop)
        → IsReadCounted stop (R.faults input.old) (R.faults input.new) (R.given input.old) (R.given input.new) }
    ensures cause { (stop : Stop_) → result ≡ Err (failure.Stopped stop)
        → IsWriteCounted stop (W.faults out.old.sink) (W.faults out.new.sink) }
    ensures whole { OnOk result ((R.faults input.new ≡ R.faults input.old) × (W.faults out.new.sink ≡ W.faults out.old.sink)) }
{
    let format = question.format.as_bytes();
    let request = match Request::new(question.version, format, question.target.as_bytes()) {
        Ok(request) => request,
        Err(fault) => return Err(Failure::Arguments(fault)),
    };
    match serve_request(request, question.prints_places, alloc, input, out) {
        Ok(()) => Ok(()),
        Err(stop) => Err(Failure::Stopped(stop)),
    }
}
