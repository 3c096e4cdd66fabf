//! Rejects a number of seconds with a minus and a fraction: programs disagree whether the fraction counts forwards.
ghost use Rattle.std.specs.Prelude.{◌≡◌, ◌≤◌, ◌+◌, if◌then◌else◌};
ghost use Rattle.restamp_formats.specs.Common.{length, take, IfOk, Err, Ok};
ghost use Rattle.restamp_formats.specs.Reading as spec;
ghost use Rattle.restamp_formats.specs.Reason.{Satisfies, negative_fraction};

use crate::brief::FromReason;
use crate::reading::Match;
use crate::reason::Reason;

// Whether the text of a number starts with `-` and contains a `.`; false if it is empty.
fn is_negative_fraction(number: &[u8]) -> bool
    ensures { result ≡ spec.is_negative_fraction number.now }
{
    !number.is_empty() && number[0] == b'-' && number.contains(&b'.')
}

/// The match; or the reason `NegativeFraction`, as an `E`, if the first `said.length` bytes of `text` start with `-`
/// and contain a `.`.
#[inline(always)]
pub(crate) fn without_negative_fraction<E: FromReason>(text: &[u8], said: Match) -> Result<Match, E>
    requires { said.start + said.length ≤ length text.now }
    ensures said { Satisfies E.is_of (λ given. given ≡ (if spec.is_negative_fraction (take said.length text.now)
        then Err negative_fraction else Ok said)) result }
    ensures within { IfOk result (λ said. said.start + said.length ≤ length text.now) }
{
    if is_negative_fraction(&text[..said.length]) {
        return Err(E::from_reason(Reason::NegativeFraction));
    }
    Ok(said)
}
