//! Splits an input into lines, and answers whole inputs.
ghost use Rattle.std.specs.Io.KnownBytes.{append_known};
ghost use Rattle.std.specs.Prelude.{◌≡◌, ◌≢◌, ℕ, List, [], OnOk, IfErr, IfOk, IfSome, Err, ◌∷◌, ◌<◌, length};
ghost use Rattle.byte_streams.specs.Faults.{HasCause};
ghost use Rattle.programs_answers.specs.Output.{HasReadCause, HasWriteCause, Writes, WritesAnswers};
ghost use Rattle.programs_answers.specs.Pieces.{WithLineFeed};

use byte_streams::{BufferedSink, Sink, Source, Unwritten, first_line};
use std::alloc::Allocator;

/// Why the program exits early: a read failed or the input didn't end, memory ran out, or a write failed.
#[derive(Clone, Copy, Debug, PartialEq, Eq)]
pub enum Stop {
    /// A read failed, or the input didn't end within the reads that [`serve`] makes.
    Unread,
    /// Memory for the input ran out.
    Memory,
    /// A write failed.
    Unwritten,
}

impl Stop {
    /// The exit status: 1 after a failed write, else 2.
    pub fn status(&self) -> u8
        ensures unwritten { self.now ≡ Stop.Unwritten → result ≡ 1 }
        ensures unread { self.now ≡ Stop.Unread → result ≡ 2 }
        ensures memory { self.now ≡ Stop.Memory → result ≡ 2 }
    {
        match self {
            Stop::Unread | Stop::Memory => 2,
            Stop::Unwritten => 1,
        }
    }
}

/// Writes the answers to lines, one line a call.
pub trait LineHandler {
    // For a line and a text, both without LF: the text is the answer to the line.
    ghost is_answer: { Self → List ℕ → List ℕ → Type 0 };

    /// Writes the answer to the line. Neither has an LF. `Err` if a write failed, after which a part may have been
    /// written.
    fn write_answer<W: Sink>(&self, line: &[u8], out: &mut W) -> Result<(), Unwritten>
        ensures bytes { OnOk result (Writes (is_answer self.now line.now) (W.contents out.old) (W.contents out.new)) }
        ensures cause { HasCause result (W.faults out.old) (W.faults out.new) }
        ensures through { W.through out.new ≡ W.through out.old };
}

// Writes the answer to a line, and LF, to the buffer or to its sink.
#[inline(always)]
fn add_line<A: LineHandler, W: Sink>(
    handler: &A,
    line: &[u8],
    out: &mut BufferedSink<W>,
) -> Result<(), Unwritten>
    ensures bytes { OnOk result (Writes (WithLineFeed (A.is_answer handler.now line.now))
        (append_known (W.contents out.old.sink) out.old.buffer.items) (append_known (W.contents out.new.sink) out.new.buffer.items)) }
    ensures cause { HasCause result (W.faults out.old.sink) (W.faults out.new.sink) }
    ensures through { W.through out.new.sink ≡ W.through out.old.sink }
{
    handler.write_answer(line, out)?;
    out.write_all(b"\n")
}

// Writes the answers to all lines of the input, each followed by LF. The last answers may still be buffered.
#[inline(always)]
fn answer_lines<A: LineHandler, W: Sink>(
    handler: &A,
    input: &[u8],
    out: &mut BufferedSink<W>,
) -> Result<(), Unwritten>
    requires { out.old.buffer.items ≡ [] }
    ensures answers { OnOk result (WritesAnswers (A.is_answer handler.now) (W.contents out.old.sink)
        (append_known (W.contents out.new.sink) out.new.buffer.items) input.now) }
    ensures cause { HasCause result (W.faults out.old.sink) (W.faults out.new.sink) }
    ensures through { W.through out.new.sink ≡ W.through out.old.sink }
{
    let mut rest = input;
    while !rest.is_empty() {
        let (line, after) = first_line(rest);
        add_line(handler, line, out)?;
        rest = after;
    }
    Ok(())
}

/// Writes the answer to each line of the input and an LF after it, and allocates nothing. Earlier contents of the
/// buffer are dropped.
///
/// Each line ends with LF, which is optional after the last one and isn't passed to the handler. After `Ok` all answers
/// are in the sink, which isn't flushed. `Err` if a write failed; then it is unspecified how much was written.
#[inline(always)]
#[tactic(auto, using(crate::proofs::OutputLemmas::Writes_flushed))]
pub fn run<A: LineHandler, W: Sink>(
    handler: &A,
    input: &[u8],
    out: &mut BufferedSink<W>,
) -> Result<(), Unwritten>
    ensures answers { OnOk result
        (WritesAnswers (A.is_answer handler.now) (W.contents out.old.sink) (W.contents out.new.sink) input.now) }
    ensures cause { HasCause result (W.faults out.old.sink) (W.faults out.new.sink) }
    ensures through { W.through out.new.sink ≡ W.through out.old.sink }
{
    out.clear_buffer();
    answer_lines(handler, input, out)?;
    out.flush_buffer()
}

// After this many reads that don't reach the end, the input counts as endless: 2^32, each of at most 64 KiB.
const MOST_READS: u64 = 4294967296;

// All bytes of the source from here to its end. `Unread` after a failed read, which isn't retried, or if `MOST_READS`
// reads don't reach the end; `Memory` if memory runs out. The error is never `Unwritten`.
fn read_all<R: Source, G: Allocator>(alloc: G, input: &mut R) -> Result<Vec<u8, G>, Stop>
    ensures all { IfOk result (λ text. IfSome (R.remaining input.old) (λ bytes. text.items ≡ bytes)) }
    ensures unwritten { IfErr result (λ stop. stop ≢ Stop.Unwritten) }
    ensures cause { HasReadCause result (R.faults input.old) (R.faults input.new) (R.given input.old) (R.given input.new) }
{
    let mut text = Vec::new(alloc);
    let mut piece = [0u8; 65536];
    for turn in 0..MOST_READS {
        match input.read(&mut piece) {
            Ok(0) => return Ok(text),
            Ok(n) => text
                .extend_from_slice(&piece[..n])
                .map_err(|_| Stop::Memory)?,
            Err(_) => return Err(Stop::Unread),
        }
    }
    Err(Stop::Unread)
}

/// Reads the input to its end, with at most 4294967296 reads, and writes the answer to each of its lines and an LF
/// after it, as [`run`] does: it drops what `out` had buffered. If the reads don't reach the end, it returns `Unread`.
///
/// A failed read isn't retried, not even an interrupted one. The sink isn't flushed. After [`Stop::Unread`] or
/// [`Stop::Memory`] nothing was written, and `out` is unchanged. After [`Stop::Unwritten`] it is unspecified how much
/// was.
#[inline(always)]
pub fn serve<A: LineHandler, R: Source, W: Sink, G: Allocator>(
    handler: &A,
    alloc: G,
    input: &mut R,
    out: &mut BufferedSink<W>,
) -> Result<(), Stop>
    ensures ok { OnOk result (IfSome (R.remaining input.old)
        (λ bytes. WritesAnswers (A.is_answer handler.now) (W.contents out.old.sink) (W.contents out.new.sink) bytes)) }
    ensures unread { result ≡ Err Stop.Unread → out.new ≡ out.old }
    ensures memory { result ≡ Err Stop.Memory → out.new ≡ out.old }
    ensures read { HasReadCause result (R.faults input.old) (R.faults input.new) (R.given input.old) (R.given input.new) }
    ensures cause { HasWriteCause result (W.faults out.old.sink) (W.faults out.new.sink) }
    ensures through { W.through out.new.sink ≡ W.through out.old.sink }
{
    let text = read_all(alloc, input)?;
    match run(handler, text.as_slice(), out) {
        Ok(()) => Ok(()),
        Err(_) => Err(Stop::Unwritten),
    }
}
