//! Locates the errors of texts by RFC 3339 with only `T`, `t` or a space between the date and the time.
use crate::rfc3339::error_place;
use crate::{Locate, Located};
use time_parsing::{Rfc3339, Rfc3339Strict, strict_text};
use time_record::Parsed;

/// The error is that of RFC 3339, except after a date that matches: if the eleventh byte, the separator, isn't `T`, `t`
/// or a space, the error is there. The defaults have no effect.
impl Locate for Rfc3339Strict {
    ghost use Rattle.time_locating.specs.Rfc3339Strict.{Locates};

    ghost locates = { λ _. Locates };

    fn locate<'a>(&'a self, input: &[u8], _defaults: Option<Parsed>) -> Option<Located<'a>> {
        error_place(strict_text(input))
    }

    ghost use Rattle.time_locating.specs.exact.PlaceLaws.{strict_exact_place};

    ghost exact_place = { λ _. strict_exact_place };

    ghost use Rattle.time_locating.specs.Rfc3339Strict.{Marks};

    ghost marks = { λ _. Marks };

    fn locate_component(
        &self,
        input: &[u8],
        defaults: Option<Parsed>,
        name: &str,
    ) -> Option<usize> {
        Rfc3339.locate_component(strict_text(input), defaults, name)
    }

    ghost use Rattle.time_locating.specs.exact.PlaceLaws.{strict_exact_mark};

    ghost exact_mark = { λ _. strict_exact_mark };
}
