//! Chooses the action of a line.
ghost use Rattle.std.specs.Prelude.{◌≡◌, ℕ, List, OnOk};
ghost use Rattle.byte_streams.specs.Faults.{HasCause};
ghost use Rattle.restamp_stream.specs.Reports.{action_of, IsWithin, WritesReason};

use crate::action::LineAction;
use byte_streams::{Sink, Unwritten};
use time_values::text::Text;

/// Chooses the action of a line by its front: the first [`LIMIT`](crate::LIMIT) bytes of the line, or all of a shorter
/// one, without its LF.
pub trait Rewriting {
    ghost use Rattle.restamp_stream.specs.Reports.{Action, Refused};

    /// The reason why a line is rejected. A stream doesn't read it, as [`Rewriting::write_reason`] writes the reason.
    type Refusal: Drop;

    // A line with that front has that action.
    ghost is_action: { Self → List ℕ → Action → Type 0 };

    // A front is rejected at that column, from 1, and for that reason.
    ghost is_reason: { Self → List ℕ → ℕ → List ℕ → Type 0 };

    /// The action of a line with that front. For [`LineAction::Rewritten`] the replaced bytes are in the front, and
    /// `text` is overwritten with the new time. For other actions `text` may have any value after the call.
    fn action(&self, front: &[u8], text: &mut Text) -> LineAction<Self::Refusal>
        ensures action { is_action self.now front.now (action_of result text.new) }
        ensures within { IsWithin (action_of result text.new) front.now };

    /// Writes the column at which a front is rejected, in decimal from 1, a colon, a space and the reason. No LF
    /// follows. A stream calls this method only for a rejected line that the log names.
    fn write_reason<L: Sink>(&self, front: &[u8], log: &mut L) -> Result<(), Unwritten>
        requires { is_action self.now front.now Refused }
        ensures reported { OnOk result (WritesReason (is_reason self.now front.now) (L.contents log.old) (L.contents log.new)) }
        ensures cause { HasCause result (L.faults log.old) (L.faults log.new) };

    // A front has at most one action.
    ghost one_action: { (x : Self) (front : List ℕ) (a b : Action) → is_action x front a → is_action x front b → a ≡ b };

    // A front is rejected at no more than one column and for no more than one reason.
    ghost one_reason: { (x : Self) (front : List ℕ) (column other : ℕ) (reason why : List ℕ)
        → is_reason x front column reason → is_reason x front other why → (column ≡ other) × (reason ≡ why) };
}
