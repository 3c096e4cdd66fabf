//! The action of a line, and of the bytes after its front.
ghost use Rattle.std.specs.Prelude.{◌≡◌, IsTrue, false};
ghost use Rattle.time_values.specs.DisplayTexts.{Items};
ghost use Rattle.restamp_stream.specs.Reports.{action_of, tail_action_of, HasFront};

use crate::settings::Output;

/// The action of a line: none (`Without`) if it has no place for a time, or it is rewritten, dropped or rejected.
#[derive(Drop)]
pub enum LineAction<R> {
    /// It has no place for a time. Only `Output::AllLines` writes it, unchanged.
    Without,
    /// A new time replaces the bytes from `begin` to before `end` of the line's front, its first `LIMIT` bytes.
    Rewritten { begin: usize, end: usize },
    /// It is dropped: no `Output` writes any of it.
    Dropped,
    /// It is rejected, for that reason. Only `Output::AllLines` writes it, unchanged, unless the work stops at it.
    Refused(R),
}

/// What the next bytes are: a line's start, or bytes after its front (first `LIMIT` bytes), to be copied or dropped.
#[derive(Clone, Copy)]
pub enum TailAction {
    /// The last processed line has ended, or there was none: the next bytes start a line.
    Absent,
    /// They are copied unchanged, up to and with the LF.
    Passing,
    /// They are dropped, up to and with the LF.
    Dropping,
}

impl TailAction {
    /// `Passing` if `output` writes a line with that action, else `Dropping`, as always for `Times`. Never `Absent`.
    pub fn of<R>(output: Output, action: &LineAction<R>) -> TailAction
        ensures { (text : Items) → result ≡ tail_action_of output (action_of action.now text) }
    {
        match (output, action) {
            (Output::Times, _) | (Output::AllLines, LineAction::Dropped) => TailAction::Dropping,
            (Output::AllLines, _) | (_, LineAction::Rewritten { .. }) => TailAction::Passing,
            (Output::RewrittenLines, _) => TailAction::Dropping,
        }
    }

    /// Whether it is `Absent`: the next bytes start a line. If not, they continue one whose front was processed.
    pub fn is_absent(&self) -> bool
        ensures absent { IsTrue result → self.now ≡ TailAction.Absent }
        ensures front { result ≡ false → HasFront self.now }
    {
        matches!(self, TailAction::Absent)
    }
}
