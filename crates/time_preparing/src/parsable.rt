//! Prepared descriptions as formats.
//!
//! `fast` is tried first for a `Date`, a `Time`, a `PlainDateTime` or an `OffsetDateTime`: it makes the value directly
//! from the numbers of a whole text. With defaults it is tried only for a `PlainDateTime`. A text that `fast` doesn't
//! parse is parsed over a record, and so is each text for another type of value.
ghost use Rattle.std.specs.Prelude.{◌≡◌, ◌≢◌, ◌⊎◌, [], Ok, Err, MatchResult};
ghost use Rattle.time_values.specs.Calendar.{greatest_year};
ghost use Rattle.time_values.specs.Refusal.{refusal_of_parsed, trailing};
ghost use Rattle.time_values.specs.declared.error.TryFromParsed.{TryFromParsed as TryFromParsed_};
ghost use Rattle.time_components.specs.Tree.{steps_shape};
ghost use Rattle.time_record.specs.Reading.{Reads, Refuses};
ghost use Rattle.time_record.specs.Record.{Record};
ghost use Rattle.time_parsing.specs.Outcome.{begun, IsWhole, over_record, seen};
ghost use Rattle.time_parsing.specs.exact.Laws.{tree_exact};

mod fast;

use crate::Prepared;
use std::convert::TryFrom;
use time_parsing::{Parsable, value_before};
use time_record::Parsed;
use time_values::error::{Parse, TryFromParsed};
use time_values::{Date, OffsetDateTime, PlainDateTime, Time};

// The value of the whole input, parsed over a record that begins as the defaults, or empty without defaults. An error
// is that of the description, of bytes that remain, or of the record's conversion.
#[inline(never)]
fn over_record<const N: usize, V: TryFrom<Parsed, Error = TryFromParsed> + Drop>(
    format: &Prepared<N>,
    input: &[u8],
    defaults: &Option<Parsed>,
) -> Result<V, Parse>
    ensures { MatchResult (seen result)
        (λ v. (r : Record) × Reads greatest_year (steps_shape format.now) input.now (begun defaults.now) [] r
        × V.try_from_gives r (Ok v))
        (λ e. IsWhole (Reads greatest_year (steps_shape format.now)) (Refuses greatest_year (steps_shape format.now))
        input.now (begun defaults.now) (Err e)
        ⊎ ((r : Record) × Reads greatest_year (steps_shape format.now) input.now (begun defaults.now) [] r
        × ((f : TryFromParsed_) × V.try_from_gives r (Err f) × (e ≡ refusal_of_parsed f)))) }
{
    // Not `begin(*defaults)`, which would copy the defaults before it inspects them.
    let mut parsed = Parsed::new();
    if let Some(known) = defaults {
        parsed = *known;
    }
    match format.walk_into(input, &mut parsed) {
        Ok(rest) => value_before::<V>(rest, &parsed),
        Err(fault) => Err(fault.into()),
    }
}

impl<const N: usize> Parsable for Prepared<N> {
    ghost reads = { λ s. Reads greatest_year (steps_shape s) };

    ghost refuses = { λ s. Refuses greatest_year (steps_shape s) };

    ghost path = { λ _. over_record };

    fn parse_into<'a>(&self, input: &'a [u8], parsed: &mut Parsed) -> Result<&'a [u8], Parse> {
        match self.parse_front_into(input, parsed) {
            Ok(rest) => Ok(rest),
            Err(e) => Err(e.into()),
        }
    }

    #[inline(always)]
    fn parse_date(&self, input: &[u8], defaults: Option<Parsed>) -> Result<Date, Parse> {
        if defaults.is_none() {
            if let Some(value) = fast::date(self, input) {
                return Ok(value);
            }
        }
        over_record::<N, Date>(self, input, &defaults)
    }

    #[inline(always)]
    fn parse_time(&self, input: &[u8], defaults: Option<Parsed>) -> Result<Time, Parse> {
        if defaults.is_none() {
            if let Some(value) = fast::time(self, input) {
                return Ok(value);
            }
        }
        over_record::<N, Time>(self, input, &defaults)
    }

    #[inline(always)]
    fn parse_plain_date_time(
        &self,
        input: &[u8],
        defaults: Option<Parsed>,
    ) -> Result<PlainDateTime, Parse> {
        if let Some(value) = fast::date_time(self, input, &defaults) {
            return Ok(value);
        }
        over_record::<N, PlainDateTime>(self, input, &defaults)
    }

    #[inline(always)]
    fn parse_offset_date_time(
        &self,
        input: &[u8],
        defaults: Option<Parsed>,
    ) -> Result<OffsetDateTime, Parse> {
        if defaults.is_none() {
            if let Some(value) = fast::moment(self, input) {
                return Ok(value);
            }
        }
        over_record::<N, OffsetDateTime>(self, input, &defaults)
    }

    ghost exact = { λ s. tree_exact greatest_year (steps_shape s) };

    ghost exact_path = { λ _. tt };
}
