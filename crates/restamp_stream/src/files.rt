//! Processes several files, one after the other.
ghost use Rattle.std.specs.Prelude.{◌≡◌, ◌≢◌, ◌≤◌, ℕ, List, Err, IfErr, IfOk, IfSome, OnOk, map, Option, Some};
ghost use Rattle.byte_streams.specs.Faults.{HasCause, IsCutOff, Rises};
ghost use Rattle.restamp_stream.specs.Streams.{ProcessedAll, job_of, ProcessedCutOff, ProcessedFile, ProcessedFiles, StoppedIn, state_of, ProcessedBefore};
ghost use Rattle.restamp_stream.specs.Causes.{faults_of, HasWriteCause};

use crate::block::Block;
use crate::ending::Stop;
use crate::rewriting::Rewriting;
use crate::settings::Settings;
use crate::stream::Stream;
use byte_streams::{Sink, Source};
use std::io;

/// Opens files by name, and closes them.
pub trait Opening {
    /// The reader of a file.
    type Input: Source + Drop;

    // The bytes of the file of that name. `None`: no contract states them, whether or not the file can be opened.
    ghost bytes_of: { Self → List ℕ → Option (List ℕ) };

    // How many files it failed to open, plus how many closed ones were cut off. The count may stop from 2^64 - 1 on.
    ghost faults: { Self → ℕ };

    /// Opens the file of that name, at its start. No call of the returned reader has failed yet.
    fn open(&mut self, name: &[u8]) -> io::Result<Self::Input>
        ensures bytes { IfOk result (λ input. IfSome (bytes_of self.old name.now) (λ bytes. Self.Input.remaining input ≡ Some bytes)) }
        ensures started { IfOk result (λ input. Self.Input.faults input ≡ 0) }
        ensures cause { HasCause result (faults self.old) (faults self.new) }
        ensures same { bytes_of self.new ≡ bytes_of self.old };
    /// Closes a file that it opened. Counts the file as cut off if a read of the file has failed or was interrupted, or
    /// if the reads have returned 18446744073709551615 bytes or more.
    fn close(&mut self, input: Self::Input)
        ensures cut_off { IsCutOff 0 (Self.Input.faults input) (Self.Input.given input) → Rises (faults self.old) (faults self.new) }
        ensures whole { ¬ IsCutOff 0 (Self.Input.faults input) (Self.Input.given input) → faults self.new ≡ faults self.old }
        ensures later { faults self.old ≤ faults self.new }
        ensures same { bytes_of self.new ≡ bytes_of self.old };
}

// The result with `Unread` replaced by success: a file that wasn't opened or read to its end doesn't stop the work.
fn go_on(served: Result<(), Stop>) -> Result<(), Stop>
    ensures ok { OnOk result (IfErr served (λ stop. stop ≡ Stop.Unread)) }
    ensures err { IfErr result (λ stop. (served ≡ Err stop) × (stop ≢ Stop.Unread)) }
{
    match served {
        Ok(()) | Err(Stop::Unread) => Ok(()),
        Err(stop) => Err(stop),
    }
}

impl<W: Sink, L: Sink> Stream<W, L> {
    // Opens a file, processes its lines, and closes it. A failure to open it or to read it doesn't stop the work.
    fn serve_next<T: Rewriting, O: Opening>(
        &mut self,
        rewriting: &T,
        settings: Settings<'_>,
        name: &[u8],
        opening: &mut O,
        block: &mut Block,
    ) -> Result<(), Stop>
        ensures ok { OnOk result
            (ProcessedFile (job_of (T.is_action rewriting.now) (T.is_reason rewriting.now) name.now settings.entry) (O.bytes_of opening.old name.now)
            (O.faults opening.old) (O.faults opening.new) (state_of W.contents L.contents self.old) (state_of W.contents L.contents self.new)) }
        ensures unread { IfErr result (λ stop. stop ≢ Stop.Unread) }
        ensures refused { IfErr result (λ stop. stop ≡ Stop.Refused → IfSome (O.bytes_of opening.old name.now)
            (ProcessedBefore (job_of (T.is_action rewriting.now) (T.is_reason rewriting.now) name.now settings.entry)
            (state_of W.contents L.contents self.old) (state_of W.contents L.contents self.new))) }
        ensures cause { HasWriteCause result (faults_of W.faults L.faults self.old) (faults_of W.faults L.faults self.new) }
        ensures later { O.faults opening.old ≤ O.faults opening.new }
        ensures same { O.bytes_of opening.new ≡ O.bytes_of opening.old }
    {
        let mut input = match opening.open(name) {
            Ok(input) => input,
            Err(e) => return go_on(Err(self.fail(name, &e))),
        };
        let served = self.serve(rewriting, settings, name, &mut input, block);
        opening.close(input);
        go_on(served)
    }

    /// Processes the files in turn with one tally, each as [`Stream::serve`] does, which drops bytes buffered before.
    ///
    /// If a file can't be opened or read to its end, that is logged, and the other files are processed: the result is
    /// never [`Stop::Unread`]. The work stops at a failed write or flush, and at the first rejected line if `strict` is
    /// set. Files and lines before that line are processed. After [`Stop::Unwritten`] it is unknown what was written.
    pub fn serve_files<T: Rewriting, O: Opening>(
        &mut self,
        rewriting: &T,
        settings: Settings<'_>,
        names: &[&[u8]],
        opening: &mut O,
        block: &mut Block,
    ) -> Result<(), Stop>
        ensures ok { OnOk result (ProcessedFiles (T.is_action rewriting.now) (T.is_reason rewriting.now) settings.entry (O.bytes_of opening.old)
            (O.faults opening.old) (O.faults opening.new)
            (state_of W.contents L.contents self.old) (state_of W.contents L.contents self.new) (map (λ name. name.now) names.now)) }
        ensures unread { IfErr result (λ stop. stop ≢ Stop.Unread) }
        ensures refused { IfErr result (λ stop. stop ≡ Stop.Refused →
            StoppedIn (T.is_action rewriting.now) (T.is_reason rewriting.now) settings.entry (O.bytes_of opening.old)
            (O.faults opening.old) (O.faults opening.new)
            (state_of W.contents L.contents self.old) (state_of W.contents L.contents self.new) (map (λ name. name.now) names.now)) }
        ensures cause { HasWriteCause result (faults_of W.faults L.faults self.old) (faults_of W.faults L.faults self.new) }
    {
        for name in names {
            self.serve_next(rewriting, settings, name, opening, block)?;
        }
        Ok(())
    }
}
