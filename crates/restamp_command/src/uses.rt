//! Whether a default can be of use.
ghost use Rattle.std.specs.Prelude.{◌≡◌, MatchOption};
ghost use Rattle.restamp_command.specs.Fault.{erased_fault};
ghost use Rattle.restamp_command.specs.Request as spec;

use crate::fault::Fault;
use crate::options::Options;
use restamp_formats::{Part, Reading};

// Whether a format uses a default for that part and some text may omit it; if false, the default has no effect.
fn one_can_default(first: &Reading, others: &[Reading], part: Part) -> bool
    ensures { result ≡ spec.one_can_default part first.now others.now }
{
    first.can_default(part) || others.iter().any(|format| format.can_default(part))
}

/// The error of the first of `--year`, `--latest`, `--offset` and `--in` that is given but can't have an effect, as the
/// variants of [`Fault`] explain. `None` without such an option.
pub(crate) fn find_unused<'a>(
    options: &Options<'_, 'a>,
    first: &Reading,
    others: &[Reading],
) -> Option<Fault<'a>>
    requires { spec.AreFormats options.now first.now others.now }
    ensures { MatchOption result (spec.AreUsed options.now first.now others.now)
        (λ fault. spec.IsFault options.now (erased_fault fault)) }
{
    if !one_can_default(first, others, Part::Year) {
        if let Some(text) = options.year {
            return Some(Fault::UnusedYear(text));
        }
        if let Some(text) = options.latest {
            return Some(Fault::UnusedLatest(text));
        }
    }
    if !one_can_default(first, others, Part::Offset) {
        if let Some(text) = options.offset {
            return Some(Fault::UnusedOffset(text));
        }
        if let Some(name) = options.local {
            return Some(Fault::UnusedIn(name));
        }
    }
    None
}
