//! Splits lines into fields, and answers all lines of an input.
ghost use Rattle.std.specs.Prelude.{◌≡◌, Err, OnOk, IfSome};
ghost use Rattle.byte_streams.specs.Faults.{HasCause};
ghost use Rattle.programs_answers.specs.Output.{HasReadCause, HasWriteCause};
ghost use Rattle.programs_answers.specs.declared.serving.Stop.TheVariants as Stop;
ghost use Rattle.time_lines.specs.Output.{WritesAnswers, split_at_tab};
ghost use Rattle.std.specs.Option.{option_map};

use crate::answers::Fields;
use byte_streams::{BufferedSink, Counted, Lent, Sink, Source, Unwritten};
use programs_answers::Stop;
use std::alloc::{Allocator, Global};
use std::io;
use std::io::{Read, Write};

// Writes the answer to each line of the input, and an LF after it, to a sink. Earlier contents of the buffer are
// dropped.
#[inline(always)]
fn run_to<W: Sink>(input: &[u8], out: &mut BufferedSink<W>) -> Result<(), Unwritten>
    ensures answers { OnOk result (WritesAnswers (W.contents out.old.sink) (W.contents out.new.sink) input.now) }
    ensures cause { HasCause result (W.faults out.old.sink) (W.faults out.new.sink) }
    ensures through { W.through out.new.sink ≡ W.through out.old.sink }
{
    programs_answers::run(&Fields::new(), input, out)
}

/// Writes the answer to each line of the input and an LF after it, and allocates nothing.
///
/// Each line ends with LF, which is optional after the last one. `out` isn't flushed. `Err` is the error of a write,
/// after which it is unspecified how much was written.
pub fn run<W: Write>(input: &[u8], out: &mut W) -> io::Result<()>
    ensures { OnOk result (WritesAnswers (W.contents out.old) (W.contents out.new) input.now) }
{
    let mut buffered = BufferedSink::new(Lent::new(out));
    match run_to(input, &mut buffered) {
        Ok(()) => Ok(()),
        Err(_) => Err(buffered.into_sink().into_error()),
    }
}

/// Reads the input to its end, with at most 4294967296 reads, and writes the answer to each of its lines and an LF
/// after it.
///
/// A failed read isn't retried, not even an interrupted one. `out` isn't flushed. After [`Stop::Unread`] or
/// [`Stop::Memory`] nothing was written. After [`Stop::Unwritten`] it is unspecified how much was.
pub fn serve<R: Read, W: Write>(alloc: Global, input: &mut R, out: &mut W) -> Result<(), Stop>
    ensures ok { OnOk result (IfSome (R.remaining input.old)
        (λ bytes. WritesAnswers (W.contents out.old) (W.contents out.new) bytes)) }
    ensures unread { result ≡ Err Stop.Unread → out.new ≡ out.old }
    ensures memory { result ≡ Err Stop.Memory → out.new ≡ out.old }
{
    serve_in(alloc, input, out)
}

// Reads the input to its end, and writes the answer to each line and an LF, as [`serve`] does, but with any allocator.
pub(crate) fn serve_in<R: Read, W: Write, A: Allocator>(
    alloc: A,
    input: &mut R,
    out: &mut W,
) -> Result<(), Stop>
    ensures ok { OnOk result (IfSome (R.remaining input.old)
        (λ bytes. WritesAnswers (W.contents out.old) (W.contents out.new) bytes)) }
    ensures unread { result ≡ Err Stop.Unread → out.new ≡ out.old }
    ensures memory { result ≡ Err Stop.Memory → out.new ≡ out.old }
{
    let mut buffered = BufferedSink::new(Lent::new(out));
    serve_to(alloc, &mut Counted::new(input), &mut buffered)
}

/// Writes the answers to the lines of a source to a sink, as [`serve`] does. Earlier contents of the buffer are dropped
/// once the whole input is read. Returns early only after a read or a write that failed, when memory runs out, or when
/// 4294967296 reads don't reach the end.
#[inline(always)]
pub(crate) fn serve_to<R: Source, W: Sink, A: Allocator>(
    alloc: A,
    input: &mut R,
    out: &mut BufferedSink<W>,
) -> Result<(), Stop>
    ensures ok { OnOk result (IfSome (R.remaining input.old)
        (λ bytes. WritesAnswers (W.contents out.old.sink) (W.contents out.new.sink) bytes)) }
    ensures unread { result ≡ Err Stop.Unread → out.new ≡ out.old }
    ensures memory { result ≡ Err Stop.Memory → out.new ≡ out.old }
    ensures read { HasReadCause result (R.faults input.old) (R.faults input.new) (R.given input.old) (R.given input.new) }
    ensures cause { HasWriteCause result (W.faults out.old.sink) (W.faults out.new.sink) }
    ensures through { W.through out.new.sink ≡ W.through out.old.sink }
{
    programs_answers::serve(&Fields::new(), alloc, input, out)
}

/// The bytes before the first TAB, and those after it, both without that TAB. `None` if there is no TAB.
pub fn split_at_tab(bytes: &[u8]) -> Option<(&[u8], &[u8])>
    ensures { option_map (λ split. (split.0.now, split.1.now)) result ≡ split_at_tab bytes.now }
{
    for (i, b) in bytes.iter().enumerate() {
        if *b == b'\t' {
            return Some((&bytes[..i], &bytes[i + 1..]));
        }
    }
    None
}
