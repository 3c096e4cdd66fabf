//! Descriptions and their items as formats.
ghost use Rattle.std.specs.Prelude.{map};
ghost use Rattle.time_values.specs.Calendar.{greatest_year};
ghost use Rattle.time_descriptions.specs.Description.{shape};
ghost use Rattle.time_components.specs.Tree.{borrowed_shape, owned_shape, v3_shape, sequence, trees};
ghost use Rattle.time_record.specs.Reading.{Reads, Refuses};
ghost use Rattle.time_parsing.specs.Outcome.{over_record, ParsesInto};
ghost use Rattle.time_parsing.specs.exact.Laws.{tree_exact};

use crate::Parsable;
use crate::parsable::{begin, moment_before};
use time_descriptions::Description;
use time_readers::{BorrowedFormatItem, FormatDescriptionV3, OwnedFormatItem};
use time_record::{AnyFormatItem, Parsed};
use time_values::OffsetDateTime;
use time_values::error::Parse;

/// Items that are parsed one after another, as a format. An empty list of items matches the empty prefix.
#[derive(Clone, Copy, Debug)]
pub struct Items<'a, I>(pub &'a [I]);

// Parses a prefix of the input by an item over the record, and returns the unparsed rest. After an error, which is the
// item's, the record is unchanged.
fn read_item<'a, I: AnyFormatItem>(
    item: &I,
    input: &'a [u8],
    parsed: &mut Parsed,
) -> Result<&'a [u8], Parse>
    ensures { ParsesInto (Reads greatest_year (I.shape item.now)) (Refuses greatest_year (I.shape item.now))
        input.now parsed.old result parsed.new }
{
    match parsed.parse_item(input, item) {
        Ok(rest) => Ok(rest),
        Err(e) => Err(e.into()),
    }
}

impl Parsable for BorrowedFormatItem<'_> {
    ghost reads = { λ s. Reads greatest_year (borrowed_shape s) };

    ghost refuses = { λ s. Refuses greatest_year (borrowed_shape s) };

    ghost path = { λ _. over_record };

    fn parse_into<'a>(&self, input: &'a [u8], parsed: &mut Parsed) -> Result<&'a [u8], Parse> {
        read_item(self, input, parsed)
    }

    #[inline(always)]
    fn parse_offset_date_time(
        &self,
        input: &[u8],
        defaults: Option<Parsed>,
    ) -> Result<OffsetDateTime, Parse> {
        let mut parsed = begin(defaults);
        let rest = self.parse_into(input, &mut parsed)?;
        moment_before(rest, &parsed)
    }

    ghost exact = { λ s. tree_exact greatest_year (borrowed_shape s) };

    ghost exact_path = { λ _. tt };
}

impl Parsable for OwnedFormatItem {
    ghost reads = { λ s. Reads greatest_year (owned_shape s) };

    ghost refuses = { λ s. Refuses greatest_year (owned_shape s) };

    ghost path = { λ _. over_record };

    fn parse_into<'a>(&self, input: &'a [u8], parsed: &mut Parsed) -> Result<&'a [u8], Parse> {
        read_item(self, input, parsed)
    }

    #[inline(always)]
    fn parse_offset_date_time(
        &self,
        input: &[u8],
        defaults: Option<Parsed>,
    ) -> Result<OffsetDateTime, Parse> {
        let mut parsed = begin(defaults);
        let rest = self.parse_into(input, &mut parsed)?;
        moment_before(rest, &parsed)
    }

    ghost exact = { λ s. tree_exact greatest_year (owned_shape s) };

    ghost exact_path = { λ _. tt };
}

impl Parsable for FormatDescriptionV3<'_> {
    ghost reads = { λ s. Reads greatest_year (v3_shape s.inner) };

    ghost refuses = { λ s. Refuses greatest_year (v3_shape s.inner) };

    ghost path = { λ _. over_record };

    fn parse_into<'a>(&self, input: &'a [u8], parsed: &mut Parsed) -> Result<&'a [u8], Parse> {
        match parsed.parse_v3(input, &self.inner) {
            Ok(rest) => Ok(rest),
            Err(e) => Err(e.into()),
        }
    }

    #[inline(always)]
    fn parse_offset_date_time(
        &self,
        input: &[u8],
        defaults: Option<Parsed>,
    ) -> Result<OffsetDateTime, Parse> {
        let mut parsed = begin(defaults);
        let rest = self.parse_into(input, &mut parsed)?;
        moment_before(rest, &parsed)
    }

    ghost exact = { λ s. tree_exact greatest_year (v3_shape s.inner) };

    ghost exact_path = { λ _. tt };
}

impl<const N: usize> Parsable for Description<N> {
    ghost reads = { λ s. Reads greatest_year (shape s) };

    ghost refuses = { λ s. Refuses greatest_year (shape s) };

    ghost path = { λ _. over_record };

    fn parse_into<'a>(&self, input: &'a [u8], parsed: &mut Parsed) -> Result<&'a [u8], Parse> {
        match parsed.parse_steps(input, self.steps()) {
            Ok(rest) => Ok(rest),
            Err(e) => Err(e.into()),
        }
    }

    #[inline(always)]
    fn parse_offset_date_time(
        &self,
        input: &[u8],
        defaults: Option<Parsed>,
    ) -> Result<OffsetDateTime, Parse> {
        let mut parsed = begin(defaults);
        let rest = self.parse_into(input, &mut parsed)?;
        moment_before(rest, &parsed)
    }

    ghost exact = { λ s. tree_exact greatest_year (shape s) };

    ghost exact_path = { λ _. tt };
}

impl<'i, I: AnyFormatItem> Parsable for Items<'i, I> {
    ghost reads = { λ s. Reads greatest_year (sequence (trees (map I.shape s.0.now))) };

    ghost refuses = { λ s. Refuses greatest_year (sequence (trees (map I.shape s.0.now))) };

    ghost path = { λ _. over_record };

    fn parse_into<'a>(&self, input: &'a [u8], parsed: &mut Parsed) -> Result<&'a [u8], Parse> {
        match parsed.parse_items(input, self.0) {
            Ok(rest) => Ok(rest),
            Err(e) => Err(e.into()),
        }
    }

    #[inline(always)]
    fn parse_offset_date_time(
        &self,
        input: &[u8],
        defaults: Option<Parsed>,
    ) -> Result<OffsetDateTime, Parse> {
        let mut parsed = begin(defaults);
        let rest = self.parse_into(input, &mut parsed)?;
        moment_before(rest, &parsed)
    }

    ghost exact = { λ s. tree_exact greatest_year (sequence (trees (map I.shape s.0.now))) };

    ghost exact_path = { λ _. tt };
}
