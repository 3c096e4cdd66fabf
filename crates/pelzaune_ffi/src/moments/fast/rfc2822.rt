//! Fast path for the commonest mail dates, which reads many bytes at once.
//!
//! Each function returns what the library's parser does, or `None` if the fast path doesn't apply.
ghost use Rattle.std.specs.Prelude.{IfSome, Ok, false};
ghost use Rattle.time_values.specs.Calendar.{greatest_year};
ghost use Rattle.time_readers.specs.Direct.{RefusesRfc2822};
ghost use Rattle.time_readers.specs.Readers.{MatchesPlaces};
ghost use Rattle.time_readers.specs.Rfc2822.{PlaceSyntax, day_places};
ghost use Rattle.time_parsing.specs.Outcome.{direct};
ghost use Rattle.time_parsing.specs.Rfc2822.{Reads, Refuses};
ghost use Rattle.pelzaune_ffi.specs.Results.{of_moment};

use super::moment_from;
use time_readers::combinator::one_or_two_digits;
use time_readers::direct::rfc2822_numbers;
use time_readers::rfc2822::Numbers;
use time_readers::rfc2822::fast::{offset, to_offset, weekday_name};
use time_values::OffsetDateTime;

// Parses a weekday's name of a capital and two small letters, a comma, a space, and a day of one or two digits into
// `numbers`, and returns the rest. `None`: another form; the weekday may be stored then.
#[inline(always)]
fn to_day<'a>(text: &'a [u8], numbers: &mut Numbers) -> Option<&'a [u8]>
    ensures { IfSome result (λ rest. MatchesPlaces (PlaceSyntax false) day_places numbers.old text.now rest.now numbers.new) }
{
    let rest = weekday_name(text, numbers)?;
    let day = one_or_two_digits(rest)?;
    numbers.day = day.1;
    Some(day.0)
}

// The moment of a whole mail date of RFC 2822. `None`: the fast path doesn't apply, as to a leap second or a rejected
// text.
#[inline(always)]
pub(in crate::moments) fn moment(text: &[u8]) -> Option<OffsetDateTime>
    ensures { IfSome result (λ v. of_moment (direct (RefusesRfc2822 greatest_year)) (Reads greatest_year)
        (Refuses greatest_year) text.now (Ok v)) }
{
    // Tests the length once for all the fixed-width parts.
    if text.len() < 30 {
        return None;
    }
    let mut numbers = Numbers::NONE;
    let rest = to_day(text, &mut numbers)?;
    let rest = to_offset::<false>(rest, &mut numbers)?;
    offset::<false>(rest, &mut numbers)?;
    moment_from(rfc2822_numbers(numbers))
}
