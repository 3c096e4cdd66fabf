//! Laws of whole inputs: the contract of a function is the law.
ghost use Rattle.std.specs.Prelude.{◌≡◌, ◌⊎◌, IfErr, IfSome, OnOk};
ghost use Rattle.byte_streams.specs.Faults.{Rises};
ghost use Rattle.programs_answers.specs.Output.{IsUnread, WritesAnswers};

use crate::serving::{LineHandler, Stop, serve};
use byte_streams::{BufferedSink, Sink, Source};
use std::alloc::Allocator;

/// Calls [`serve`], which answers each line of the input. It returns early only after a failed read or write, when
/// memory runs out, or when 4294967296 reads don't reach the end. So if there is memory, the end is reached, and no
/// call of the source or the sink fails, the answers to all lines are written.
pub fn law_done<A: LineHandler, R: Source, W: Sink, G: Allocator>(
    handler: &A,
    alloc: G,
    input: &mut R,
    out: &mut BufferedSink<W>,
) -> Result<(), Stop>
    ensures done { OnOk result (IfSome (R.remaining input.old)
        (λ bytes. WritesAnswers (A.is_answer handler.now) (W.contents out.old.sink) (W.contents out.new.sink) bytes)) }
    ensures stopped { IfErr result (λ stop. (stop ≡ Stop.Memory)
        ⊎ IsUnread (R.faults input.old) (R.faults input.new) (R.given input.old) (R.given input.new)
        ⊎ Rises (W.faults out.old.sink) (W.faults out.new.sink)) }
{
    serve(handler, alloc, input, out)
}
