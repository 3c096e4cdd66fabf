//! Makes the new bytes of a file from its lines.
ghost use Rattle.std.specs.Io.KnownBytes.{Appends};
ghost use Rattle.std.specs.Prelude.{List, ℕ, IfOk, IfSome, Option, ◌≡◌, OnOk};
ghost use Rattle.restamp_in_place.specs.Replacing.{made_of};
ghost use Rattle.restamp_stream.specs.Streams.{job_of, state, ProcessedAll};
ghost use Rattle.restamp_stream.specs.Reports.{nothing_counted};

use byte_streams::{Sink, Source};
use restamp_stream::{Block, Rewriting, Settings, Stop, Stream, Tally};

/// Whether a file is to be replaced.
#[derive(Clone, Copy, Debug, PartialEq, Eq)]
pub enum Made {
    /// It is replaced.
    Changed,
    /// It isn't replaced. What was written to the new file is discarded.
    Same,
}

/// Makes the new bytes of a file from the old ones, or finds that the file needs no change.
pub trait FileTransform: Drop {
    ghost use Rattle.restamp_in_place.specs.Replacing.{bytes_made};

    /// The error if no new bytes could be made.
    type Stop: Drop;

    // Relates the transform before and after `make` to the old bytes and the new ones, which are `None` for `Same`.
    ghost makes: { Self → Self → List ℕ → Option (List ℕ) → Type 0 };

    /// Reads the old bytes to their end, and writes the new ones. If the file needs no change, it may write anything.
    /// Returns itself, the writer, and whether the file is to be replaced, or the error if no new bytes could be made.
    fn make<R: Source, W: Sink>(self, input: &mut R, out: W) -> (Self, W, Result<Made, Self::Stop>)
        ensures { IfOk result.2 (λ made. IfSome (R.remaining input.old) (λ old.
            (text : List ℕ) × Appends (W.contents out) (W.contents result.1) text × makes self result.0 old (bytes_made made text))) };
}

/// Makes the new bytes of a file by processing its lines.
#[derive(Drop)]
pub(crate) struct Lines<'a, T, L: Drop> {
    pub(crate) rewriting: &'a T,
    pub(crate) settings: Settings<'a>,
    /// The file's name, for reports.
    pub(crate) name: &'a [u8],
    pub(crate) block: &'a mut Block,
    /// The log of reports.
    pub(crate) log: L,
    /// The counts of the file's lines.
    pub(crate) tally: Tally,
}

// Whether a file with those counts is to be replaced: if one of its timestamps was rewritten.
fn made_of(tally: &Tally) -> Made
    ensures { result ≡ made_of tally.now }
{
    if tally.rewritten == 0 {
        Made::Same
    } else {
        Made::Changed
    }
}

impl<T: Rewriting, L: Sink + Drop> Lines<'_, T, L> {
    // Processes all lines of the old bytes, and writes the output. The returned tally counts only these lines.
    fn answer<R: Source, W: Sink>(self, input: &mut R, out: W) -> (Self, W, Result<(), Stop>)
        ensures { OnOk result.2 (IfSome (R.remaining input.old)
            (ProcessedAll (job_of (T.is_action self.entry.rewriting.now) (T.is_reason self.entry.rewriting.now) self.entry.name.now self.entry.settings)
            (state (W.contents out) (L.contents self.entry.log) nothing_counted)
            (state (W.contents result.1) (L.contents result.0.log) result.0.tally))) }
    {
        let Lines {
            rewriting,
            settings,
            name,
            block,
            log,
            tally: _,
        } = self;
        let mut stream = Stream::new(out, log);
        let answered = stream.serve(rewriting, settings, name, input, block);
        let (out, log, tally) = stream.into_parts();
        let lines = Lines {
            rewriting,
            settings,
            name,
            block,
            log,
            tally,
        };
        (lines, out, answered)
    }
}

impl<T: Rewriting, L: Sink + Drop> FileTransform for Lines<'_, T, L> {
    ghost use Rattle.restamp_in_place.specs.Replacing.{Makes};
    ghost use Rattle.restamp_stream.specs.Streams.{job_of};

    type Stop = Stop;

    ghost makes = { λ before after old made. Makes
        (job_of (T.is_action before.rewriting.now) (T.is_reason before.rewriting.now) before.name.now before.settings)
        (L.contents before.log) (L.contents after.log) after.tally old made };

    fn make<R: Source, W: Sink>(self, input: &mut R, out: W) -> (Self, W, Result<Made, Stop>) {
        let (lines, out, answered) = self.answer(input, out);
        match answered {
            Ok(()) => {
                let made = made_of(&lines.tally);
                (lines, out, Ok(made))
            }
            Err(stop) => (lines, out, Err(stop)),
        }
    }
}
