//! Laws of the processing of an input: the contract of each function is a law.
ghost use Rattle.std.specs.Prelude.{◌≡◌, ◌⊎◌, ℕ, List, IfErr, OnOk, map};
ghost use Rattle.byte_streams.specs.Faults.{Rises};
ghost use Rattle.restamp_stream.specs.Streams.{job_of, AreProcessed, state_of, OneAnswer, OneResult, SameBytes, KeptBytes};
ghost use Rattle.restamp_stream.specs.Causes.{faults_of};

use crate::block::Block;
use crate::ending::Stop;
use crate::files::Opening;
use crate::rewriting::Rewriting;
use crate::settings::Settings;
use crate::stream::Stream;
use byte_streams::Sink;

/// Given output, log and tally before it, an input has at most one output, log, tally and list of its lines' actions.
pub fn law_one_result<T: Rewriting>(rewriting: &T, name: &[u8], settings: Settings<'_>)
    ensures lines { OneAnswer (job_of (T.is_action rewriting.now) (T.is_reason rewriting.now) name.now settings.entry) }
    ensures input { OneResult (job_of (T.is_action rewriting.now) (T.is_reason rewriting.now) name.now settings.entry) }
{}

/// The lines of an input, joined, are its bytes. If `output` is `AllLines`, and all lines are processed but none is
/// rewritten or dropped, the output is the input.
pub fn law_kept<T: Rewriting>(rewriting: &T, name: &[u8], settings: Settings<'_>)
    ensures lines { SameBytes }
    ensures input { KeptBytes (job_of (T.is_action rewriting.now) (T.is_reason rewriting.now) name.now settings.entry) }
{}

/// Calls [`Stream::serve_files`], which stops early only after a failed write or flush, or at a rejected line.
/// After `Ok`, if no file failed to open or was cut off, all lines are processed, and their output is written.
pub fn law_done<T: Rewriting, O: Opening, W: Sink, L: Sink>(
    stream: &mut Stream<W, L>,
    rewriting: &T,
    settings: Settings<'_>,
    names: &[&[u8]],
    opening: &mut O,
    block: &mut Block,
) -> Result<(), Stop>
    ensures done { OnOk result (¬ Rises (O.faults opening.old) (O.faults opening.new)
        → AreProcessed (T.is_action rewriting.now) (T.is_reason rewriting.now) settings.entry (O.bytes_of opening.old)
        (state_of W.contents L.contents stream.old) (state_of W.contents L.contents stream.new) (map (λ name. name.now) names.now)) }
    ensures stopped { IfErr result (λ stop. (stop ≡ Stop.Refused)
        ⊎ Rises (faults_of W.faults L.faults stream.old) (faults_of W.faults L.faults stream.new)) }
{
    stream.serve_files(rewriting, settings, names, opening, block)
}
