//! Parses a timestamp without the reason of an error.
ghost use Rattle.std.specs.Prelude.{◌≡◌, ◌+◌, ◌≤◌, length, Ok, IfSome};
ghost use Rattle.restamp_formats.specs.Reading.{ParsesAs};

use restamp_formats::{Brief, Defaults, Match, Reading};

/// Parses a text by the format: a prefix of it if `is_prefix` is true, otherwise the whole text. `None` if the format
/// rejects the text, or if the defaults have a zone for local times or a latest moment, even if the format would match.
/// A reason beside a match would cost a line a tenth of its instructions.
#[inline(always)]
pub(super) fn parse(
    reading: &Reading,
    is_prefix: bool,
    text: &[u8],
    defaults: &Defaults<'_>,
) -> Option<Match>
    ensures said { IfSome result (λ said. ParsesAs reading.now is_prefix text.now defaults.now (Ok said)) }
    ensures within { IfSome result (λ said. said.start + said.length ≤ length text.now) }
{
    if defaults.tries_more() {
        return None;
    }
    restamp_formats::parse::<Brief>(reading, is_prefix, text, defaults).ok()
}
