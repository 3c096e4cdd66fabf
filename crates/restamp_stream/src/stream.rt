//! The outputs of a stream.
ghost use Rattle.std.specs.Io.KnownBytes.{Appends};
ghost use Rattle.std.specs.Prelude.{◌≡◌, ◌≤◌, ◌++◌, ℕ, List, IfOk, IfErr, [], ◌∷◌, OnOk, length, take, drop, IsTrue, false};
ghost use Rattle.byte_streams.specs.Faults.{HasCause};
ghost use Rattle.byte_streams.specs.Lines.{unended};
ghost use Rattle.restamp_stream.specs.Streams.{Processed, IsNaming, IsReport, Closes, RefusedAt, Fails, state_of};
ghost use Rattle.restamp_stream.specs.Causes.{faults_of, HasWriteCause, IsCounted};
ghost use Rattle.restamp_stream.specs.Reports.{Action, Refused, action_of, IsWithin, front_text, passed, tail_action_of, nothing_counted, more_text, unread_text};
ghost use Rattle.restamp_stream.specs.Buffered.{buffered_out, buffered_state, job_at, Flushes, Puts, StoppedBy, FailedBy};
ghost use Rattle.restamp_stream.specs.declared.block.TheConstants.{LIMIT};

use crate::action::{LineAction, TailAction};
use crate::ending::Stop;
use crate::names::{message_of, write_name};
use crate::rewriting::Rewriting;
use crate::settings::{File, Output, Settings};
use crate::tally::Tally;
use byte_streams::{BufferedSink, Sink, Unwritten};
use std::io;
use time_values::text::Text;

/// The outputs of a stream: the processed lines in `out`, the reports in `log`, and the counts of lines in `tally`.
///
/// `out` buffers up to 65536 bytes before it writes them to its sink.
#[derive(Drop)]
pub struct Stream<W, L> {
    /// The processed lines, buffered.
    pub out: BufferedSink<W>,
    /// The reports.
    pub log: L,
    /// The counts.
    pub tally: Tally,
}

impl<W: Sink, L: Sink> Stream<W, L> {
    /// A stream to this writer and this log, with an empty buffer and all counts 0.
    pub fn new(out: W, log: L) -> Stream<W, L>
        ensures out { result.out.sink ≡ out }
        ensures log { result.log ≡ log }
        ensures tally { result.tally ≡ nothing_counted }
    {
        Stream {
            out: BufferedSink::new(out),
            log,
            tally: Tally::new(),
        }
    }

    /// The writer, the log and the counts. Bytes that are still buffered are dropped.
    pub fn into_parts(self) -> (W, L, Tally)
        ensures out { result.0 ≡ self.out.sink }
        ensures log { result.1 ≡ self.log }
        ensures tally { result.2 ≡ self.tally }
    {
        let Stream { out, log, tally } = self;
        (out.into_sink(), log, tally)
    }

    // Writes bytes to the output, after the buffered ones. They may stay buffered.
    #[inline(always)]
    fn put(&mut self, bytes: &[u8]) -> Result<(), Unwritten>
        ensures { Puts W.contents W.faults self.old self.new result bytes.now }
    {
        self.out.write_all(bytes)
    }

    // Writes bytes that come after the front of a line, or drops them if `rest` is `Dropping`.
    #[inline(always)]
    pub(crate) fn pass(&mut self, bytes: &[u8], rest: TailAction) -> Result<(), Unwritten>
        ensures { Puts W.contents W.faults self.old self.new result (passed rest bytes.now) }
    {
        match rest {
            TailAction::Absent | TailAction::Passing => self.put(bytes),
            TailAction::Dropping => Ok(()),
        }
    }

    // Writes to the log that n more lines of a file were rejected than the log names. Writes nothing if n is 0.
    fn report_more(&mut self, name: &[u8], n: u64) -> Result<(), Unwritten>
        ensures reported { OnOk result (Appends (L.contents self.old.log) (L.contents self.new.log) (more_text name.now n)) }
        ensures out { self.new.out ≡ self.old.out }
        ensures tally { self.new.tally ≡ self.old.tally }
        ensures cause { HasCause result (L.faults self.old.log) (L.faults self.new.log) }
    {
        if n == 0 {
            return Ok(());
        }
        write_name(name, &mut self.log)?;
        if n == 1 {
            self.log.write_all(b": 1 more line was rejected\n")
        } else {
            write!(self.log, ": {n} more lines were rejected\n")
        }
    }

    // Reports how many rejected lines of a file the log doesn't name (unless 0 or `Quiet`), and flushes the log.
    pub(crate) fn close<T>(&mut self, file: &File<'_, T>) -> Result<(), Unwritten>
        ensures closed { OnOk result (Closes file.now.name.now file.now.settings.reports
            (state_of W.contents L.contents self.old) (state_of W.contents L.contents self.new)) }
        ensures out { self.new.out ≡ self.old.out }
        ensures cause { HasCause result (L.faults self.old.log) (L.faults self.new.log) }
    {
        let n = file.settings.reports.unnamed(&self.tally);
        self.report_more(file.name, n)?;
        self.log.flush()
    }

    // Logs that a file wasn't opened or read to its end: its name, and up to 256 bytes of the error's text.
    fn report_unread(&mut self, name: &[u8], error: &io::Error) -> Result<(), Unwritten>
        ensures reported { OnOk result ((why : List ℕ) × Appends (L.contents self.old.log) (L.contents self.new.log) (unread_text name.now why)) }
        ensures out { self.new.out ≡ self.old.out }
        ensures tally { self.new.tally ≡ self.old.tally }
        ensures cause { HasCause result (L.faults self.old.log) (L.faults self.new.log) }
    {
        write_name(name, &mut self.log)?;
        self.log.write_all(b": ")?;
        self.log.write_all(message_of(error).as_slice())?;
        self.log.write_all(b"\n")
    }

    // Counts a file that wasn't opened or not read to its end, and reports why. Returns `Unread`, or `Unwritten` if a
    // write to the log failed.
    pub(crate) fn fail(&mut self, name: &[u8], error: &io::Error) -> Stop
        ensures failed { FailedBy result (Fails name.now (state_of W.contents L.contents self.old) (state_of W.contents L.contents self.new)) }
        ensures cause { IsCounted result (faults_of W.faults L.faults self.old) (faults_of W.faults L.faults self.new) }
    {
        self.tally.count_unread();
        match self.report_unread(name, error) {
            Ok(()) => Stop::Unread,
            Err(_) => Stop::Unwritten,
        }
    }

    // Writes the buffered bytes to the writer, which it doesn't flush. Then flushes the log, unless the write failed.
    pub(crate) fn flush_all(&mut self) -> Result<(), Unwritten>
        ensures written { OnOk result (Flushes (buffered_state W.contents L.contents self.old) (state_of W.contents L.contents self.new)) }
        ensures none { OnOk result (self.new.out.buffer.items ≡ []) }
        ensures cause { HasCause result (faults_of W.faults L.faults self.old) (faults_of W.faults L.faults self.new) }
    {
        self.out.flush_buffer()?;
        self.log.flush()
    }

    // Writes the front of a line with a text and its suffix in place of the bytes from `begin` to before `end`. It
    // isn't inlined, as most times have no suffix.
    #[inline(never)]
    fn put_suffixed(
        &mut self,
        suffix: &[u8],
        front: &[u8],
        begin: usize,
        end: usize,
        text: &[u8],
    ) -> Result<(), Unwritten>
        requires order { begin ≤ end }
        requires within { end ≤ length front.now }
        ensures { Puts W.contents W.faults self.old self.new result (take begin front.now ++ (text.now ++ (suffix.now ++ drop end front.now))) }
    {
        self.put(&front[..begin])?;
        self.put(text)?;
        self.put(suffix)?;
        self.put(&front[end..])
    }

    // Writes the front of a line with a text and its suffix in place of the bytes from `begin` to before `end`. The
    // code for an empty suffix is inlined.
    #[inline(always)]
    fn put_changed(
        &mut self,
        suffix: &[u8],
        front: &[u8],
        begin: usize,
        end: usize,
        text: &[u8],
    ) -> Result<(), Unwritten>
        requires order { begin ≤ end }
        requires within { end ≤ length front.now }
        ensures { Puts W.contents W.faults self.old self.new result (take begin front.now ++ (text.now ++ (suffix.now ++ drop end front.now))) }
    {
        if suffix.is_empty() {
            return self.out.write_spliced(front, begin, end, text);
        }
        self.put_suffixed(suffix, front, begin, end, text)
    }

    // Writes the output for the front of a line. `Rewritten`: the front with the new time and the suffix in it, or for
    // `Times` only these and LF. `Without` and `Refused`: for `AllLines` the unchanged front. In other cases: nothing.
    #[inline(always)]
    fn put_front<R>(
        &mut self,
        settings: &Settings<'_>,
        front: &[u8],
        action: &LineAction<R>,
        text: &Text,
    ) -> Result<(), Unwritten>
        requires { IsWithin (action_of action.now text.now) front.now }
        ensures { Puts W.contents W.faults self.old self.new result (front_text settings.now.output settings.now.suffix.now front.now (action_of action.now text.now)) }
    {
        match (action, settings.output) {
            (LineAction::Rewritten { .. }, Output::Times) => {
                self.put_changed(settings.suffix, b"\n", 0, 0, text.as_bytes())
            }
            (LineAction::Rewritten { begin, end }, _) => {
                self.put_changed(settings.suffix, front, *begin, *end, text.as_bytes())
            }
            (LineAction::Without | LineAction::Refused(_), Output::AllLines) => self.put(front),
            _ => Ok(()),
        }
    }

    // Reports a rejected line, which was counted last: `NAME:LINE:COLUMN: REASON` and LF.
    #[inline(never)]
    fn write_report<T: Rewriting>(
        &mut self,
        file: &File<'_, T>,
        front: &[u8],
    ) -> Result<(), Unwritten>
        requires { T.is_action file.now.rewriting.now front.now Refused }
        ensures reported { OnOk result ((report : List ℕ) × IsNaming (job_at T.is_action T.is_reason file.now) self.old.tally front.now report
            × Appends (L.contents self.old.log) (L.contents self.new.log) report) }
        ensures out { self.new.out ≡ self.old.out }
        ensures tally { self.new.tally ≡ self.old.tally }
        ensures cause { HasCause result (L.faults self.old.log) (L.faults self.new.log) }
    {
        write_name(file.name, &mut self.log)?;
        write!(self.log, ":{}:", self.tally.line)?;
        file.rewriting.write_reason(front, &mut self.log)?;
        self.log.write_all(b"\n")
    }

    // Reports the line that was counted last, if it is rejected and the log names it. Otherwise it writes nothing.
    #[inline(always)]
    #[tactic(auto, using(crate::proofs::LinesLemmas::log_writes))]
    fn report<T: Rewriting>(
        &mut self,
        file: &File<'_, T>,
        front: &[u8],
        action: &LineAction<T::Refusal>,
        text: &Text,
    ) -> Result<(), Unwritten>
        requires { T.is_action file.now.rewriting.now front.now (action_of action.now text.now) }
        ensures reported { OnOk result ((report : List ℕ)
            × IsReport (job_at T.is_action T.is_reason file.now) self.old.tally front.now (action_of action.now text.now) report
            × Appends (L.contents self.old.log) (L.contents self.new.log) report) }
        ensures out { self.new.out ≡ self.old.out }
        ensures tally { self.new.tally ≡ self.old.tally }
        ensures cause { HasCause result (L.faults self.old.log) (L.faults self.new.log) }
    {
        if !file.settings.reports.names(&self.tally, action) {
            return Ok(());
        }
        self.write_report(file, front)
    }

    // Counts a line, calls `report` and, unless the work stops at it (`Refused`), `put_front`. Returns its tail action.
    #[inline(always)]
    pub(crate) fn begin<T: Rewriting>(
        &mut self,
        file: &File<'_, T>,
        front: &[u8],
    ) -> Result<TailAction, Stop>
        requires { length front.now ≤ LIMIT }
        ensures ok { IfOk result (λ rest. (action : Action) × (tail_action_of file.now.settings.output action ≡ rest)
            × Processed (job_at T.is_action T.is_reason file.now)
            (buffered_state W.contents L.contents self.old) (buffered_state W.contents L.contents self.new) (unended front.now ∷ []) (action ∷ [])) }
        ensures err { IfErr result (λ stop. StoppedBy stop (RefusedAt (job_at T.is_action T.is_reason file.now)
            (buffered_state W.contents L.contents self.old) (buffered_state W.contents L.contents self.new) front.now)) }
        ensures cause { HasWriteCause result (faults_of W.faults L.faults self.old) (faults_of W.faults L.faults self.new) }
    {
        let mut text = Text::new();
        let action = file.rewriting.action(front, &mut text);
        self.tally.count(&action);
        self.report(file, front, &action, &text)?;
        if file.settings.stops_at(&action) {
            return Err(Stop::Refused);
        }
        self.put_front(&file.settings, front, &action, &text)?;
        Ok(TailAction::of(file.settings.output, &action))
    }
}
