//! Processes files as requested.
ghost use Rattle.std.specs.Option.{option_map};
ghost use Rattle.std.specs.Prelude.{◌≡◌, ◌≢◌, IfErr, IfSome, OnOk, map};
ghost use Rattle.byte_streams.specs.Faults.{HasCause};
ghost use Rattle.restamp_in_place.specs.Replacing.{Makes, Replaces};
ghost use Rattle.restamp_stream.specs.Streams.{job_of, ProcessedFiles, StoppedIn, state_of};
ghost use Rattle.restamp_stream.specs.Causes.{faults_of, HasWriteCause};
ghost use Rattle.restamp_stream.specs.Reports.{WritesReason};
ghost use Rattle.restamp_stream.specs.declared.settings.Settings.{Settings as Settings_};
ghost use Rattle.restamp_formats.specs.Reason.{seen};
ghost use Rattle.restamp_lines.specs.declared.job.Job.{Job as Job_};
ghost use Rattle.restamp_command.specs.Request.{AreSettingsOf, IsJobOf};
ghost use Rattle.restamp_command.specs.Rewriting.{IsAction, IsReason, ReportsError};
ghost use Rattle.restamp_command.specs.Zones.{zone_name};

use crate::pointing::{write_expected, write_pointer};
use crate::request::Request;
use byte_streams::{Sink, Unwritten};
use restamp_formats::{Brief, Reason};
use restamp_in_place::{Folder, Made, Target, Unreplaced, replace_file};
use restamp_lines::{ErrorLocation, Job, Refusal, Why};
use restamp_stream::{Block, LineAction, Opening, Rewriting, Stop, Stream, Tally};
use std::alloc::Global;
use time_values::text::Text;

/// A job, which decides the action of each line, and how a rejected line is reported.
#[derive(Clone, Copy)]
pub struct Restamping<'a> {
    /// What is done with each line.
    pub job: Job<'a>,
    /// The name of the zone of local times in reports.
    pub zone: &'a str,
    /// Prints a rejected line below its reason, with a caret under the column of the error, in colours.
    pub shows_lines: bool,
}

impl Rewriting for Restamping<'_> {
    type Refusal = Refusal<Brief>;

    ghost use Rattle.restamp_command.specs.Rewriting as spec;

    ghost is_action = { λ restamping front action. spec.IsAction restamping.job front action };

    ghost is_reason = { λ restamping front column reason.
        spec.IsReason restamping.job restamping.zone.now restamping.shows_lines front column reason };

    ghost one_action = { λ restamping front a b p q. spec.one_action restamping.job front a b p q };

    ghost one_reason = { λ restamping front column other reason why p q.
        spec.one_reason restamping.job restamping.zone.now restamping.shows_lines front column other reason why p q };

    #[inline(always)]
    fn action(&self, front: &[u8], text: &mut Text) -> LineAction<Refusal<Brief>> {
        self.job.judge::<Brief>(front, text)
    }

    #[inline(never)]
    fn write_reason<L: Sink>(&self, front: &[u8], log: &mut L) -> Result<(), Unwritten> {
        let mut text = Text::new();
        match self.job.judge::<Reason>(front, &mut text) {
            LineAction::Refused(refusal) => self.write_location(front, refusal, log),
            LineAction::Without => Ok(()),
            LineAction::Rewritten { .. } => Ok(()),
            LineAction::Dropped => Ok(()),
        }
    }
}

impl Restamping<'_> {
    // Writes the column of the error, from 1, then `: `, the reason or the missing part, and what was expected there if
    // it is known; if `shows_lines` is true, in red after the `: `, and below it the line with a caret. No LF ends it.
    // `front` is the start of the rejected line. Not inlined, so that reports need no stack while lines are rewritten.
    #[inline(never)]
    fn write_location<L: Sink>(
        &self,
        front: &[u8],
        refusal: Refusal<Reason>,
        log: &mut L,
    ) -> Result<(), Unwritten>
        ensures reported { OnOk result (WritesReason (ReportsError self.now.job self.now.zone.now self.now.shows_lines front.now refusal.column (seen refusal.reason))
            (L.contents log.old) (L.contents log.new)) }
        ensures cause { HasCause result (L.faults log.old) (L.faults log.new) }
    {
        let Refusal { column, reason } = refusal;
        let ErrorLocation { column, expected } = self.job.find_location(front, column, reason);
        let why = Why {
            reason,
            missing_field: self.job.find_missing_field(front, reason),
            zone: self.zone,
        };
        if self.shows_lines {
            write!(log, "{column}: \x1b[31m{why}")?;
            write_expected(expected, log)?;
            log.write_all(b"\x1b[0m")?;
            return write_pointer(front, column, log);
        }
        write!(log, "{column}: {why}")?;
        write_expected(expected, log)
    }
}

/// Processes all lines of the files as requested, one file after the other.
///
/// It logs a file that it can't open or read to its end, and goes on with the next, so it never returns
/// [`Stop::Unread`]; lines read before a failed read are processed. It stops at a failed write or flush, and under
/// `--strict` at the first rejected line, unless `--keep-going` is given: all files and lines before that one are
/// processed. After [`Stop::Unwritten`] it is unknown how many bytes were written.
pub fn serve<W: Sink, L: Sink, O: Opening>(
    request: &Request<'_>,
    names: &[&[u8]],
    opening: &mut O,
    stream: &mut Stream<W, L>,
    block: &mut Block,
) -> Result<(), Stop>
    ensures ok { (job : Job_) × (settings : Settings_) × IsJobOf request.now job × AreSettingsOf request.now settings
        × OnOk result (ProcessedFiles (IsAction job) (IsReason job (zone_name request.now.given.local) request.now.shows_lines)
        settings
        (O.bytes_of opening.old) (O.faults opening.old) (O.faults opening.new)
        (state_of W.contents L.contents stream.old) (state_of W.contents L.contents stream.new)
        (map (λ name. name.now) names.now)) }
    ensures unread { IfErr result (λ stop. stop ≢ Stop.Unread) }
    ensures refused { (job : Job_) × (settings : Settings_) × IsJobOf request.now job × AreSettingsOf request.now settings
        × IfErr result (λ stop. stop ≡ Stop.Refused →
        StoppedIn (IsAction job) (IsReason job (zone_name request.now.given.local) request.now.shows_lines) settings
        (O.bytes_of opening.old) (O.faults opening.old) (O.faults opening.new)
        (state_of W.contents L.contents stream.old) (state_of W.contents L.contents stream.new)
        (map (λ name. name.now) names.now)) }
    ensures cause { HasWriteCause result (faults_of W.faults L.faults stream.old) (faults_of W.faults L.faults stream.new) }
{
    let rewriting = Restamping {
        job: request.job(),
        zone: request.given.local.zone_name(),
        shows_lines: request.shows_lines,
    };
    stream.serve_files(&rewriting, request.settings(), names, opening, block)
}

/// Replaces a file by its processed lines, unless none of its timestamps is rewritten. Returns the log, the counts of
/// its lines by their actions, and whether it was replaced, or an error, such as a stop at a rejected line.
///
/// A crash at any moment leaves the whole new file under the file's name, or what a crash before the call might have
/// left there.
pub fn replace<F: Folder, L: Sink + Drop>(
    request: &Request<'_>,
    target: Target<'_>,
    folder: &mut F,
    alloc: Global,
    log: L,
    block: &mut Block,
) -> (L, Tally, Result<Made, Unreplaced<Stop>>)
    ensures { (job : Job_) × (settings : Settings_) × IsJobOf request.now job × AreSettingsOf request.now settings
        × IfSome (F.events folder.old) (λ before. Replaces
        (Makes (job_of (IsAction job) (IsReason job (zone_name request.now.given.local) request.now.shows_lines)
        target.entry.shown.now settings) (L.contents log) (L.contents result.0) result.1)
        before (F.events folder.new) target.entry.name.now (option_map (λ second. second.now) target.entry.backup) result.2) }
{
    let rewriting = Restamping {
        job: request.job(),
        zone: request.given.local.zone_name(),
        shows_lines: request.shows_lines,
    };
    replace_file(
        &rewriting,
        request.settings(),
        target,
        folder,
        alloc,
        log,
        block,
    )
}
