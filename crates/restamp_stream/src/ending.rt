//! Why the work stopped, and the exit status.
ghost use Rattle.std.specs.Prelude.{◌≡◌, ◌<◌};
ghost use Rattle.restamp_stream.specs.Causes.{HasFailed};

use crate::tally::Tally;
use byte_streams::Unwritten;

/// The exit status of a program: 2 if `stop` isn't `None`, `tally.unread` isn't 0, or a line was rejected and `strict`
/// is set. Otherwise 0 if a time was rewritten, and 1 if none was.
pub fn status(tally: &Tally, stop: Option<Stop>, strict: bool) -> u8
    ensures failed { HasFailed tally.now stop strict → result ≡ 2 }
    ensures some { ¬ HasFailed tally.now stop strict → 0 < tally.now.rewritten → result ≡ 0 }
    ensures none { ¬ HasFailed tally.now stop strict → tally.now.rewritten ≡ 0 → result ≡ 1 }
{
    if stop.is_some() || tally.unread > 0 || (strict && tally.refused > 0) {
        return 2;
    }
    if tally.rewritten > 0 { 0 } else { 1 }
}

/// Why the work stopped early: a read or write failed, the input didn't end, or a line was rejected with `strict` set.
#[derive(Clone, Copy, Debug, PartialEq, Eq)]
pub enum Stop {
    /// A read failed, or the input didn't end within 18446744073709551615 reads.
    Unread,
    /// A write to the output or to the log failed, or a flush of the log.
    Unwritten,
    /// A line was rejected, and `strict` is set.
    Refused,
}

impl From<Unwritten> for Stop {
    ghost use Rattle.std.specs.Prelude.{◌≡◌};
    ghost use Rattle.restamp_stream.specs.declared.ending.Stop.TheVariants.{Unwritten};

    ghost from_gives = { λ _ stop. stop ≡ Unwritten };

    fn from(_failed: Unwritten) -> Stop {
        Stop::Unwritten
    }
}
