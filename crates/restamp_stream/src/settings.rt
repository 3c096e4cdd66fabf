//! How the lines of a file are processed.
ghost use Rattle.std.specs.Prelude.{◌≡◌, IsTrue, false};
ghost use Rattle.time_values.specs.DisplayTexts.{Items};
ghost use Rattle.restamp_stream.specs.Reports.{action_of, Refused, IsAllowed, is_named, unnamed};

use crate::action::LineAction;
use crate::tally::Tally;

/// Which lines are written, or whether only the new times are.
#[derive(Clone, Copy)]
pub enum Output {
    /// All but the dropped ones.
    AllLines,
    /// Those in which a time was rewritten.
    RewrittenLines,
    /// The new times alone, each followed by the suffix and LF.
    Times,
}

/// Which rejected lines the log reports: none, or the first ones of each file.
#[derive(Clone, Copy)]
pub enum Reports {
    /// None. The log doesn't report how many there were, either.
    Quiet,
    /// The first ones of each file, up to this number. If a file has more, a last line for it reports how many more.
    First(u64),
}

impl Reports {
    /// Whether the log names the line counted last: for `First(n)`, if `action` is `Refused` and `refused_here` <= n.
    pub fn names<R>(self, tally: &Tally, action: &LineAction<R>) -> bool
        ensures names { (text : Items) → result ≡ is_named self tally.now (action_of action.now text) }
        ensures refused { (text : Items) → IsTrue result → action_of action.now text ≡ Refused }
    {
        match (self, action) {
            (Reports::First(most), LineAction::Refused(_)) => tally.refused_here <= most,
            _ => false,
        }
    }

    /// How many rejected lines of the current file the log doesn't name; 0 for `Quiet`, which doesn't report how many.
    pub fn unnamed(self, tally: &Tally) -> u64
        ensures { result ≡ unnamed self tally.now }
    {
        match self {
            Reports::Quiet => 0,
            Reports::First(most) => tally.refused_here.saturating_sub(most),
        }
    }
}

/// How the lines of a file are processed: which are written, which rejected ones are reported, and which stop the work.
#[derive(Clone, Copy)]
pub struct Settings<'a> {
    /// Which lines are written.
    pub output: Output,
    /// The text after each new time.
    pub suffix: &'a [u8],
    /// Which rejected lines the log names.
    pub reports: Reports,
    /// Whether the work stops at the first rejected line, which is counted, but not written to the output.
    pub strict: bool,
}

impl Settings<'_> {
    /// Whether the work stops at a line with that action: the line is rejected, and `strict` is set.
    pub fn stops_at<R>(&self, action: &LineAction<R>) -> bool
        ensures stops { (text : Items) → IsTrue result → IsTrue self.now.strict × (action_of action.now text ≡ Refused) }
        ensures goes_on { (text : Items) → result ≡ false → IsAllowed self.now.strict (action_of action.now text) }
    {
        self.strict && matches!(action, LineAction::Refused(_))
    }
}

/// A file whose lines are processed, with its name, its settings, and what chooses the action of a line.
#[derive(Drop)]
pub struct File<'a, T> {
    /// Chooses the action of each of its lines.
    pub rewriting: &'a T,
    /// Its name, for reports.
    pub name: &'a [u8],
    /// How its lines are processed.
    pub settings: Settings<'a>,
}
