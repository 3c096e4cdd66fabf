//! Processes the lines of a stream.
ghost use Rattle.std.specs.Prelude.{◌≡◌, ◌≤◌, IfOk, IfErr, IfSome, MatchOption, [], OnOk, length, ℕ, List};
ghost use Rattle.byte_streams.specs.Faults.{HasCause, IsCutOff};
ghost use Rattle.byte_streams.specs.Lines.{HasNoLf, lines_of};
ghost use Rattle.restamp_stream.specs.Streams.{Processed, ProcessedAll, State, job_of, EndsWith, state_of, IsBuffered, Served, Stopped, Fails, ProcessedSome, ProcessedBefore};
ghost use Rattle.restamp_stream.specs.Causes.{faults_of, HasWriteCause};
ghost use Rattle.restamp_stream.specs.Reports.{Action, HasFront};
ghost use Rattle.restamp_stream.specs.Buffered.{buffered_out, buffered_state, job_at, Continues, Stops, StoppedBy, ContinuesLine, EndsLine};
ghost use Rattle.restamp_stream.specs.declared.block.TheConstants.{LIMIT};

use crate::action::TailAction;
use crate::block::{Block, LIMIT};
use crate::ending::Stop;
use crate::rewriting::Rewriting;
use crate::settings::{File, Settings};
use crate::stream::Stream;
use byte_streams::{Sink, Source, Unwritten, whole_line};
use std::io;
use std::io::ErrorKind;

impl<W: Sink, L: Sink> Stream<W, L> {
    // Copies or drops the rest of a line whose front was processed, and sets `rest` to `Absent` at its LF. Returns the
    // bytes after the LF (all bytes if `rest` was `Absent`), or `None` if the line doesn't end in these bytes.
    fn end_line<'a>(
        &mut self,
        bytes: &'a [u8],
        rest: &mut TailAction,
    ) -> Result<Option<&'a [u8]>, Unwritten>
        ensures line { IfOk result (λ left. MatchOption left ((rest.new ≡ rest.old) × HasFront rest.old
            × ContinuesLine (buffered_out W.contents self.old) (buffered_out W.contents self.new) rest.old bytes.now)
            (λ after. (rest.new ≡ TailAction.Absent) × EndsWith bytes.now after.now
            × EndsLine (buffered_out W.contents self.old) (buffered_out W.contents self.new) rest.old bytes.now after.now)) }
        ensures log { self.new.log ≡ self.old.log }
        ensures tally { self.new.tally ≡ self.old.tally }
        ensures cause { HasCause result (W.faults self.old.out.sink) (W.faults self.new.out.sink) }
    {
        if rest.is_absent() {
            return Ok(Some(bytes));
        }
        let Some((line, after)) = whole_line(bytes) else {
            self.pass(bytes, *rest)?;
            return Ok(None);
        };
        self.pass(&bytes[..line.len() + 1], *rest)?;
        *rest = TailAction::Absent;
        Ok(Some(after))
    }

    // Processes all lines that end in `bytes`. A line starts at the first byte. Returns the bytes after the last LF.
    fn answer_lines<'a, T: Rewriting>(
        &mut self,
        file: &File<'_, T>,
        bytes: &'a [u8],
    ) -> Result<&'a [u8], Stop>
        requires { length bytes.now ≤ LIMIT }
        ensures ok { IfOk result (λ left. HasNoLf left.now × EndsWith bytes.now left.now × Continues (job_at T.is_action T.is_reason file.now)
            (buffered_state W.contents L.contents self.old) (buffered_state W.contents L.contents self.new)
            TailAction.Absent bytes.now TailAction.Absent left.now) }
        ensures err { IfErr result (λ stop. StoppedBy stop (Stops (job_at T.is_action T.is_reason file.now)
            (buffered_state W.contents L.contents self.old) (buffered_state W.contents L.contents self.new) TailAction.Absent bytes.now)) }
        ensures cause { HasWriteCause result (faults_of W.faults L.faults self.old) (faults_of W.faults L.faults self.new) }
    {
        let mut left = bytes;
        while let Some((line, after)) = whole_line(left) {
            let rest = self.begin(file, line)?;
            self.pass(b"\n", rest)?;
            left = after;
        }
        Ok(left)
    }

    // Processes what it can of the block: a line's rest, whole lines, and a front of `LIMIT` bytes. Keeps what is left.
    fn answer_block<T: Rewriting>(
        &mut self,
        file: &File<'_, T>,
        block: &mut Block,
        rest: &mut TailAction,
    ) -> Result<(), Stop>
        ensures held { OnOk result (IsBuffered (job_at T.is_action T.is_reason file.now) rest.new block.new.items) }
        ensures ok { OnOk result (Continues (job_at T.is_action T.is_reason file.now)
            (buffered_state W.contents L.contents self.old) (buffered_state W.contents L.contents self.new)
            rest.old block.old.items rest.new block.new.items) }
        ensures err { IfErr result (λ stop. StoppedBy stop (Stops (job_at T.is_action T.is_reason file.now)
            (buffered_state W.contents L.contents self.old) (buffered_state W.contents L.contents self.new) rest.old block.old.items)) }
        ensures cause { HasWriteCause result (faults_of W.faults L.faults self.old) (faults_of W.faults L.faults self.new) }
    {
        let Some(bytes) = self.end_line(block.as_slice(), rest)? else {
            block.clear();
            return Ok(());
        };
        let left = self.answer_lines(file, bytes)?;
        let n = left.len();
        if n < LIMIT {
            block.keep_last(n);
            return Ok(());
        }
        *rest = self.begin(file, left)?;
        block.clear();
        Ok(())
    }

    // Processes as much of the block as possible, and writes the output. If the work stops at a line, the output of the
    // lines before it is written, too.
    fn feed<T: Rewriting>(
        &mut self,
        file: &File<'_, T>,
        block: &mut Block,
        rest: &mut TailAction,
    ) -> Result<(), Stop>
        requires { self.old.out.buffer.items ≡ [] }
        ensures none { OnOk result (self.new.out.buffer.items ≡ []) }
        ensures held { OnOk result (IsBuffered (job_at T.is_action T.is_reason file.now) rest.new block.new.items) }
        ensures ok { OnOk result (Continues (job_at T.is_action T.is_reason file.now)
            (state_of W.contents L.contents self.old) (state_of W.contents L.contents self.new) rest.old block.old.items rest.new block.new.items) }
        ensures err { IfErr result (λ stop. StoppedBy stop (Stops (job_at T.is_action T.is_reason file.now)
            (state_of W.contents L.contents self.old) (state_of W.contents L.contents self.new) rest.old block.old.items)) }
        ensures cause { HasWriteCause result (faults_of W.faults L.faults self.old) (faults_of W.faults L.faults self.new) }
    {
        let answered = self.answer_block(file, block, rest);
        self.flush_all()?;
        answered
    }

    // If bytes remain at the end of the input, processes them as a line without LF, and then writes the output.
    fn finish<T: Rewriting>(&mut self, file: &File<'_, T>, block: &Block) -> Result<(), Stop>
        requires none { self.old.out.buffer.items ≡ [] }
        requires started { HasNoLf block.now.items }
        ensures ok { OnOk result ((actions : List Action) × Processed (job_at T.is_action T.is_reason file.now)
            (state_of W.contents L.contents self.old) (state_of W.contents L.contents self.new) (lines_of block.now.items) actions) }
        ensures err { IfErr result (λ stop. StoppedBy stop (Stopped (job_at T.is_action T.is_reason file.now)
            (state_of W.contents L.contents self.old) (state_of W.contents L.contents self.new) (lines_of block.now.items))) }
        ensures cause { HasWriteCause result (faults_of W.faults L.faults self.old) (faults_of W.faults L.faults self.new) }
    {
        if block.is_empty() {
            return Ok(());
        }
        let answered = self.begin(file, block.as_slice());
        self.flush_all()?;
        answered?;
        Ok(())
    }

    // Processes all lines. Writes what it can before each read. Calls `fail` if `fill` fails or after 2^64 - 1 reads.
    fn serve_lines<T: Rewriting, R: Source>(
        &mut self,
        file: &File<'_, T>,
        input: &mut R,
        block: &mut Block,
    ) -> Result<(), Stop>
        requires buffer { self.old.out.buffer.items ≡ [] }
        requires block { block.old.items ≡ [] }
        ensures ok { OnOk result (IfSome (R.remaining input.old) (λ bytes. (actions : List Action)
            × Processed (job_at T.is_action T.is_reason file.now)
            (state_of W.contents L.contents self.old) (state_of W.contents L.contents self.new) (lines_of bytes) actions)) }
        ensures unread { IfErr result (λ stop. stop ≡ Stop.Unread → (answered : State) × (rest : TailAction) × (held : List ℕ)
            × Served (job_at T.is_action T.is_reason file.now) (R.remaining input.old) (R.remaining input.new)
            (state_of W.contents L.contents self.old) answered rest held
            × Fails file.now.name.now answered (state_of W.contents L.contents self.new)) }
        ensures refused { IfErr result (λ stop. stop ≡ Stop.Refused → IfSome (R.remaining input.old) (λ bytes.
            Stopped (job_at T.is_action T.is_reason file.now)
            (state_of W.contents L.contents self.old) (state_of W.contents L.contents self.new) (lines_of bytes))) }
        ensures cause { HasWriteCause result (faults_of W.faults L.faults self.old) (faults_of W.faults L.faults self.new) }
        ensures cut_off { IfErr result (λ stop. stop ≡ Stop.Unread → IsCutOff (R.faults input.old) (R.faults input.new) (R.given input.new)) }
    {
        let mut rest = TailAction::Absent;
        for turn in 0..u64::MAX {
            match block.fill(input) {
                Ok(false) => return self.finish(file, block),
                Ok(true) => {}
                Err(e) => return Err(self.fail(file.name, &e)),
            }
            self.feed(file, block, &mut rest)?;
        }
        Err(self.fail(file.name, &io::Error::from(ErrorKind::TimedOut)))
    }

    /// Processes all lines of a file. All whole lines that were read are processed and written before the next read.
    /// Drops the bytes that were in `block` or in the buffer of `out` before the call.
    /// A line is processed by its first [`LIMIT`] bytes. Its later bytes are copied if it is written, or else dropped.
    ///
    /// After [`Stop::Unread`] all bytes read are processed and written, except fewer than [`LIMIT`] last ones with no
    /// LF. After [`Stop::Refused`] all lines before the first rejected one are. After [`Stop::Unwritten`] it is unknown
    /// how much was written. An interrupted read is tried again. Reports start with `name`, and number lines from 1.
    pub fn serve<T: Rewriting, R: Source>(
        &mut self,
        rewriting: &T,
        settings: Settings<'_>,
        name: &[u8],
        input: &mut R,
        block: &mut Block,
    ) -> Result<(), Stop>
        ensures all { OnOk result (IfSome (R.remaining input.old)
            (ProcessedAll (job_of (T.is_action rewriting.now) (T.is_reason rewriting.now) name.now settings.entry)
            (state_of W.contents L.contents self.old) (state_of W.contents L.contents self.new))) }
        ensures unread { IfErr result (λ stop. stop ≡ Stop.Unread →
            ProcessedSome (job_of (T.is_action rewriting.now) (T.is_reason rewriting.now) name.now settings.entry)
            (R.remaining input.old) (R.remaining input.new) (state_of W.contents L.contents self.old) (state_of W.contents L.contents self.new)) }
        ensures refused { IfErr result (λ stop. stop ≡ Stop.Refused → IfSome (R.remaining input.old)
            (ProcessedBefore (job_of (T.is_action rewriting.now) (T.is_reason rewriting.now) name.now settings.entry)
            (state_of W.contents L.contents self.old) (state_of W.contents L.contents self.new))) }
        ensures cause { HasWriteCause result (faults_of W.faults L.faults self.old) (faults_of W.faults L.faults self.new) }
        ensures cut_off { IfErr result (λ stop. stop ≡ Stop.Unread → IsCutOff (R.faults input.old) (R.faults input.new) (R.given input.new)) }
    {
        let file = File {
            rewriting,
            name,
            settings,
        };
        self.tally.begin_file();
        self.out.clear_buffer();
        block.clear();
        let served = self.serve_lines(&file, input, block);
        self.close(&file)?;
        served
    }
}
