//! The format of RFC 3339 with only `T`, `t` or a space between the date and the time.
ghost use Rattle.std.specs.Prelude.{◌≡◌};
ghost use Rattle.time_parsing.specs.Rfc3339Strict as spec;

use crate::Parsable;
use crate::rfc3339::Rfc3339;
use time_record::Parsed;
use time_values::OffsetDateTime;
use time_values::error::Parse;

/// The format [`Rfc3339`], but with only `T`, `t` or a space between the date and the time.
///
/// With another byte there, or none, the error is that of [`Rfc3339`] for only the first ten bytes: an error of the
/// date, or else an invalid component `separator`. All other texts have the results of [`Rfc3339`].
#[derive(Clone, Copy, Debug, PartialEq, Eq)]
pub struct Rfc3339Strict;

/// Whether the input has an eleventh byte and it is `T`, `t` or a space. The ten bytes before it aren't checked.
#[inline(always)]
pub fn has_separator(input: &[u8]) -> bool
    ensures { result ≡ spec.has_separator input.now }
{
    input.len() > 10 && (input[10] == b'T' || (input[10] == b't' || input[10] == b' '))
}

/// The input, or only its first ten bytes (or fewer) if no `T`, `t` or space follows them. [`Rfc3339`] parses the
/// result as [`Rfc3339Strict`] parses the input.
#[inline(always)]
pub fn strict_text(input: &[u8]) -> &[u8]
    ensures { result.now ≡ spec.strict_text input.now }
{
    if has_separator(input) {
        return input;
    }
    let (date, _) = input.split_at(input.len().min(10));
    date
}

impl Parsable for Rfc3339Strict {
    ghost use Rattle.time_values.specs.Calendar.{greatest_year};
    ghost use Rattle.time_parsing.specs.Outcome.{direct};
    ghost use Rattle.time_parsing.specs.Rfc3339Strict.{Reads, Refuses, RefusesDirectly};

    ghost reads = { λ _. Reads greatest_year };

    ghost refuses = { λ _. Refuses greatest_year };

    ghost path = { λ _. direct (RefusesDirectly greatest_year) };

    #[inline(always)]
    fn parse_into<'a>(&self, input: &'a [u8], parsed: &mut Parsed) -> Result<&'a [u8], Parse> {
        Rfc3339.parse_into(strict_text(input), parsed)
    }

    #[inline(always)]
    fn parse_offset_date_time(
        &self,
        input: &[u8],
        defaults: Option<Parsed>,
    ) -> Result<OffsetDateTime, Parse> {
        Rfc3339.parse_offset_date_time(strict_text(input), defaults)
    }

    ghost use Rattle.time_parsing.specs.exact.Laws.{strict_exact};

    ghost exact = { λ _. strict_exact greatest_year };

    ghost use Rattle.time_parsing.specs.exact.Laws.{strict_exact_path};

    ghost exact_path = { λ _. strict_exact_path };
}
