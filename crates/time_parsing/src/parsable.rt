//! Formats, by which texts can be parsed, and the value of a parsed record.
ghost use Rattle.std.specs.Prelude.{◌≡◌, ◌≢◌, ◌⊎◌, [], Ok, Err, MatchResult};
ghost use Rattle.time_values.specs.Calendar.{greatest_year};
ghost use Rattle.time_values.specs.Refusal.{refusal_of, refusal_of_parsed, trailing};
ghost use Rattle.time_values.specs.declared.error.TryFromParsed.{TryFromParsed as TryFromParsed_};
ghost use Rattle.time_record.specs.Resolution.{IsDated, IsTimed, IsOffset, IsPlain, IsUtcMoment, IsMoment, IsTimestamp};
ghost use Rattle.time_parsing.specs.Outcome.{Reading, Refusing, begun, seen, ParsesInto, IsWhole, IsOutcome, erased_prefix_result, IsFront, IsExact, Path, over_record, IsMomentOutcome, IsExactPath};

use std::convert::TryFrom;
use time_record::Parsed;
use time_values::error::{Parse, ParseFromDescription, TryFromParsed};
use time_values::{Date, OffsetDateTime, PlainDateTime, Time, Timestamp, UtcDateTime, UtcOffset};

/// A format by which texts can be parsed.
///
/// All calls but [`Parsable::parse_into`] accept defaults, or `None`, for components that the text omits, as a year.
/// A component of the text replaces only the same default: a default ordinal overrules the text's month and day.
pub trait Parsable {
    // The format matches a prefix of the bytes, parsed over a record, with this rest and this record after it.
    ghost reads: { Self → Reading };

    // The format matches no prefix of the bytes over a record, and this is the error.
    ghost refuses: { Self → Refusing };

    // How a moment is parsed without defaults: over an empty record, or directly, with errors of its own.
    ghost path: { Self → Path };

    /// Parses a prefix of the input over the record, and returns the unparsed rest, which may be empty. The text's
    /// components replace those of the record. If the format matches no prefix, returns the format's error and leaves
    /// the record unchanged.
    fn parse_into<'a>(&self, input: &'a [u8], parsed: &mut Parsed) -> Result<&'a [u8], Parse>
        ensures { ParsesInto (reads self.now) (refuses self.now) input.now parsed.old result parsed.new };

    /// The record of the whole input, parsed over the defaults (`None`: over an empty record). An error is that of
    /// [`Parsable::parse_into`], or [`ParseFromDescription::UnexpectedTrailingCharacters`] if bytes remain.
    #[inline]
    fn parse_internal(&self, input: &[u8], defaults: Option<Parsed>) -> Result<Parsed, Parse>
        ensures { IsWhole (reads self.now) (refuses self.now) input.now (begun defaults) (seen result) }
    {
        let mut parsed = Parsed::new();
        if let Some(known) = defaults {
            parsed = known;
        }
        if self.parse_into(input, &mut parsed)?.is_empty() {
            Ok(parsed)
        } else {
            Err(ParseFromDescription::UnexpectedTrailingCharacters.into())
        }
    }

    /// The date of the whole input, parsed over the defaults (`None`: over an empty record). An error is that of
    /// [`Parsable::parse_internal`], or of `Date::try_from` if the record has too few components, or no such date
    /// exists.
    fn parse_date(&self, input: &[u8], defaults: Option<Parsed>) -> Result<Date, Parse>
        ensures { IsOutcome (IsDated greatest_year) (reads self.now) (refuses self.now) input.now
            (begun defaults) (seen result) }
    {
        let mut parsed = begin(defaults);
        let rest = self.parse_into(input, &mut parsed)?;
        value_before::<Date>(rest, &parsed)
    }

    /// The time of the whole input, parsed over the defaults (`None`: over an empty record). An error is that of
    /// [`Parsable::parse_internal`], or of `Time::try_from` if the record has too few components, or a second of 60.
    fn parse_time(&self, input: &[u8], defaults: Option<Parsed>) -> Result<Time, Parse>
        ensures { IsOutcome IsTimed (reads self.now) (refuses self.now) input.now
            (begun defaults) (seen result) }
    {
        let mut parsed = begin(defaults);
        let rest = self.parse_into(input, &mut parsed)?;
        value_before::<Time>(rest, &parsed)
    }

    /// The offset of the whole input, parsed over the defaults (`None`: over an empty record). An error is that of
    /// [`Parsable::parse_internal`], or of `UtcOffset::try_from` if the record has no hour of an offset.
    fn parse_offset(&self, input: &[u8], defaults: Option<Parsed>) -> Result<UtcOffset, Parse>
        ensures { IsOutcome IsOffset (reads self.now) (refuses self.now) input.now
            (begun defaults) (seen result) }
    {
        let mut parsed = begin(defaults);
        let rest = self.parse_into(input, &mut parsed)?;
        value_before::<UtcOffset>(rest, &parsed)
    }

    /// The date and time of the whole input, parsed over the defaults (`None`: over an empty record). An offset is
    /// ignored. An error is that of [`Parsable::parse_internal`], or of `PlainDateTime::try_from` for the record: that
    /// of `Date::try_from`, as in [`Parsable::parse_date`], or else that of `Time::try_from`.
    fn parse_plain_date_time(
        &self,
        input: &[u8],
        defaults: Option<Parsed>,
    ) -> Result<PlainDateTime, Parse>
        ensures { IsOutcome (IsPlain greatest_year) (reads self.now) (refuses self.now) input.now
            (begun defaults) (seen result) }
    {
        let mut parsed = begin(defaults);
        let rest = self.parse_into(input, &mut parsed)?;
        value_before::<PlainDateTime>(rest, &parsed)
    }

    /// The date and time in UTC of the whole input, parsed over the defaults (`None`: over an empty record). A Unix
    /// timestamp gives both. Otherwise the offset converts them to UTC, or without an offset they are in UTC. An error
    /// is that of [`Parsable::parse_internal`], or of `UtcDateTime::try_from` if components are missing, if the date
    /// doesn't exist or is out of range in UTC, or if a second of 60 isn't allowed or doesn't end a month in UTC.
    fn parse_utc_date_time(
        &self,
        input: &[u8],
        defaults: Option<Parsed>,
    ) -> Result<UtcDateTime, Parse>
        ensures { IsOutcome (IsUtcMoment greatest_year) (reads self.now) (refuses self.now) input.now
            (begun defaults) (seen result) }
    {
        let mut parsed = begin(defaults);
        let rest = self.parse_into(input, &mut parsed)?;
        value_before::<UtcDateTime>(rest, &parsed)
    }

    /// The date, time and offset of the whole input, parsed over the defaults (`None`: over an empty record). A Unix
    /// timestamp gives all three, at offset 0. An error is that of [`Parsable::parse_internal`], or of
    /// `OffsetDateTime::try_from` if components are missing, if the date doesn't exist, or if a second of 60 isn't
    /// allowed or doesn't end a month in UTC.
    ///
    /// Without defaults, a format may parse directly, with the values of a parse over an empty record but own errors.
    fn parse_offset_date_time(
        &self,
        input: &[u8],
        defaults: Option<Parsed>,
    ) -> Result<OffsetDateTime, Parse>
        ensures { IsMomentOutcome greatest_year (path self.now) (reads self.now) (refuses self.now) input.now
            defaults (seen result) };

    /// The instant of the whole input, parsed over the defaults (`None`: over an empty record): that of a Unix
    /// timestamp, or else that of the date, time and offset, where a missing offset is UTC. An error is that of
    /// [`Parsable::parse_internal`], or `InsufficientInformation` of `Timestamp::try_from`, whatever its reason.
    fn parse_timestamp(&self, input: &[u8], defaults: Option<Parsed>) -> Result<Timestamp, Parse>
        ensures { IsOutcome (IsTimestamp greatest_year) (reads self.now) (refuses self.now) input.now
            (begun defaults) (seen result) }
    {
        let mut parsed = begin(defaults);
        let rest = self.parse_into(input, &mut parsed)?;
        value_before::<Timestamp>(rest, &parsed)
    }

    /// The date, time and offset of a prefix of the input, parsed over the defaults (`None`: over an empty record), and
    /// the unparsed rest. An error is that of [`Parsable::parse_into`], or of `OffsetDateTime::try_from` as in
    /// `parse_offset_date_time`. Bytes that remain aren't an error. The prefix is parsed over a record, never directly.
    fn parse_front<'a>(
        &self,
        input: &'a [u8],
        defaults: Option<Parsed>,
    ) -> Result<(OffsetDateTime, &'a [u8]), Parse>
        ensures { IsFront (IsMoment greatest_year) (reads self.now) (refuses self.now) input.now
            (begun defaults) (erased_prefix_result result) }
    {
        let mut parsed = begin(defaults);
        let rest = self.parse_into(input, &mut parsed)?;
        let value = OffsetDateTime::try_from(parsed)?;
        Ok((value, rest))
    }

    // The format has at most one reading or one error for a text over a record, and never both.
    ghost exact: { (s : Self) → IsExact (reads s) (refuses s) };

    // A direct path, if any, has at most one error for a text, and none for one that is a moment over an empty record.
    ghost exact_path: { (s : Self) → IsExactPath greatest_year (path s) (reads s) (refuses s) };
}

/// The record that a parse begins with: the defaults, or an empty one for `None`.
///
/// The empty record is made before the defaults are inspected. Otherwise the compiled code would choose between the two
/// records anew for each field.
#[inline(always)]
pub fn begin(defaults: Option<Parsed>) -> Parsed
    ensures { result ≡ begun defaults }
{
    let mut record = Parsed::new();
    if let Some(defaults) = defaults {
        record = defaults;
    }
    record
}

/// Converts the record of a parsed text to a value. If `rest`, the unparsed end of the text, isn't empty, the error is
/// [`ParseFromDescription::UnexpectedTrailingCharacters`]. Otherwise an error is that of `V::try_from`.
#[inline(always)]
pub fn value_before<V: TryFrom<Parsed, Error = TryFromParsed> + Drop>(
    rest: &[u8],
    parsed: &Parsed,
) -> Result<V, Parse>
    ensures { MatchResult (seen result)
        (λ v. (rest.now ≡ []) × V.try_from_gives parsed.now (Ok v))
        (λ e. ((rest.now ≢ []) × (e ≡ trailing))
        ⊎ ((rest.now ≡ []) × ((f : TryFromParsed_) × V.try_from_gives parsed.now (Err f) × (e ≡ refusal_of_parsed f)))) }
{
    if !rest.is_empty() {
        return Err(ParseFromDescription::UnexpectedTrailingCharacters.into());
    }
    Ok(V::try_from(*parsed)?)
}

/// Converts the record of a parsed text to a date, time and offset. If `rest`, the unparsed end of the text, isn't
/// empty, the error is [`ParseFromDescription::UnexpectedTrailingCharacters`]. Otherwise an error is that of
/// `OffsetDateTime::try_from`.
#[inline(always)]
pub(crate) fn moment_before(rest: &[u8], parsed: &Parsed) -> Result<OffsetDateTime, Parse>
    ensures { MatchResult (seen result)
        (λ v. (rest.now ≡ []) × IsMoment greatest_year parsed.now (Ok v))
        (λ e. ((rest.now ≢ []) × (e ≡ trailing)) ⊎ ((rest.now ≡ []) × IsMoment greatest_year parsed.now (Err e))) }
{
    value_before(rest, parsed)
}

/// A reference to a format parses as the format does, but always over a record: without defaults too, errors of
/// `parse_offset_date_time` are those of the parse over a record.
impl<T: Parsable> Parsable for &T {
    ghost reads = { λ x. T.reads x.now };

    ghost refuses = { λ x. T.refuses x.now };

    ghost path = { λ _. over_record };

    fn parse_into<'a>(&self, input: &'a [u8], parsed: &mut Parsed) -> Result<&'a [u8], Parse> {
        (**self).parse_into(input, parsed)
    }

    fn parse_offset_date_time(
        &self,
        input: &[u8],
        defaults: Option<Parsed>,
    ) -> Result<OffsetDateTime, Parse> {
        let mut parsed = begin(defaults);
        let rest = self.parse_into(input, &mut parsed)?;
        moment_before(rest, &parsed)
    }

    ghost exact = { λ x. T.exact x.now };

    ghost exact_path = { λ _. tt };
}
