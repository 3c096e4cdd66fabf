//! Counts lines by action.
ghost use Rattle.std.specs.Prelude.{◌≡◌};
ghost use Rattle.time_values.specs.DisplayTexts.{Items};
ghost use Rattle.restamp_stream.specs.Reports.{action_of, nothing_counted, count_action, at_first_line, count_unread};

use crate::action::LineAction;

/// The counts of lines, also by action, and of files that failed. Counts saturate at 18446744073709551615.
#[derive(Clone, Copy, Debug, PartialEq, Eq)]
pub struct Tally {
    /// The lines of the current file so far.
    pub line: u64,
    /// The rejected lines of the current file so far.
    pub refused_here: u64,
    /// The lines of all files.
    pub lines: u64,
    /// The lines in which a time was rewritten.
    pub rewritten: u64,
    /// The lines with no place for a time.
    pub without: u64,
    /// The lines that were dropped.
    pub dropped: u64,
    /// The lines that were rejected.
    pub refused: u64,
    /// The files for which opening, reading to the end or, in place, replacing has failed.
    pub unread: u64,
}

impl Tally {
    /// A tally with all counts 0.
    pub fn new() -> Tally
        ensures { result ≡ nothing_counted }
    {
        Tally {
            line: 0,
            refused_here: 0,
            lines: 0,
            rewritten: 0,
            without: 0,
            dropped: 0,
            refused: 0,
            unread: 0,
        }
    }

    /// Adds 1, saturating, to `line`, `lines` and that action's count: for `Refused`, `refused` and `refused_here`.
    pub fn count<R>(&mut self, action: &LineAction<R>)
        ensures { (text : Items) → self.new ≡ count_action self.old (action_of action.now text) }
    {
        self.line = self.line.saturating_add(1);
        self.lines = self.lines.saturating_add(1);
        match action {
            LineAction::Without => self.without = self.without.saturating_add(1),
            LineAction::Rewritten { .. } => self.rewritten = self.rewritten.saturating_add(1),
            LineAction::Dropped => self.dropped = self.dropped.saturating_add(1),
            LineAction::Refused(_) => {
                self.refused_here = self.refused_here.saturating_add(1);
                self.refused = self.refused.saturating_add(1);
            }
        }
    }

    /// Starts the next file: sets `line` and `refused_here` to 0.
    pub fn begin_file(&mut self)
        ensures { self.new ≡ at_first_line self.old }
    {
        self.line = 0;
        self.refused_here = 0;
    }

    /// Adds 1, saturating, to `unread`, for a file for which opening, reading or, in place, replacing has failed.
    pub fn count_unread(&mut self)
        ensures { self.new ≡ count_unread self.old }
    {
        self.unread = self.unread.saturating_add(1);
    }
}
