//! Laws about parsing: each function does nothing, and its contract is the law.
ghost use Rattle.time_values.specs.Calendar.{greatest_year};
ghost use Rattle.time_record.specs.Resolution.{IsDated, IsTimed, IsOffset, IsPlain, IsUtcMoment, IsMoment, IsTimestamp};
ghost use Rattle.time_descriptions.specs.Description.{shape};
ghost use Rattle.time_readers.specs.Direct.{IsDirectRfc3339, IsDirectRfc2822, RefusesRfc3339, RefusesRfc2822};
ghost use Rattle.time_parsing.specs.Written.{ReadsCanonicalBack, OneMailText, OneExtendedText, OneBasicText, ExtendedOrBasic, ReadsBack, ReadsMailBack, KeepsAll, OneText, OneShortText, ReadsBasicBack, ReadsUtcBack, ReadsBasicUtcBack, ReadsMailUtcBack};
ghost use Rattle.time_parsing.specs.Iso8601 as Iso8601;
ghost use Rattle.time_parsing.specs.TreeLaws.{KeepsReadings, KeepsRecords, KeepsTexts, JoinedReads, JoinedRefuses, JoinedLeaves, Flattens, OptionalAsFirst, HaveEqualResults, WholeCharacters, LeavesSuffix};
ghost use Rattle.time_parsing.specs.Outcome.{OneFront, OneOutcome, OneMomentOutcome, SameMoments, direct, over_record};
ghost use Rattle.time_parsing.specs.Rfc2822 as Rfc2822;
ghost use Rattle.time_parsing.specs.Rfc3339 as Rfc3339;
ghost use Rattle.time_parsing.specs.Rfc3339Strict as Strict;
ghost use Rattle.time_formatting.specs.declared.parts.FractionDigits.TheVariants.{Auto, Exactly};

use crate::Parsable;
pub use crate::rfc3339::text_3339;
use time_descriptions::Description;
use time_record::AnyFormatItem;

/// A parse of given bytes over given defaults has at most one outcome, a value or an error, whatever the format and the
/// type of the value, and so has a parse of a prefix as a moment.
pub fn law_one_outcome<T: Parsable>(format: &T)
    ensures date { OneOutcome (IsDated greatest_year) (T.reads format.now) (T.refuses format.now) }
    ensures time { OneOutcome IsTimed (T.reads format.now) (T.refuses format.now) }
    ensures offset { OneOutcome IsOffset (T.reads format.now) (T.refuses format.now) }
    ensures plain_date_time { OneOutcome (IsPlain greatest_year) (T.reads format.now) (T.refuses format.now) }
    ensures utc_date_time { OneOutcome (IsUtcMoment greatest_year) (T.reads format.now) (T.refuses format.now) }
    ensures offset_date_time { OneMomentOutcome greatest_year (T.path format.now) (T.reads format.now) (T.refuses format.now) }
    ensures timestamp { OneOutcome (IsTimestamp greatest_year) (T.reads format.now) (T.refuses format.now) }
    ensures front { OneFront (IsMoment greatest_year) (T.reads format.now) (T.refuses format.now) }
{}

/// The direct paths of RFC 3339 and RFC 2822, for a moment without defaults, accept a text if and only if a parse over
/// an empty record accepts it as a moment, and both return equal dates, times and offsets.
pub fn law_two_paths()
    ensures rfc3339 { SameMoments greatest_year (Rfc3339.Reads greatest_year) (Rfc3339.Refuses greatest_year)
        (IsDirectRfc3339 greatest_year) }
    ensures rfc2822 { SameMoments greatest_year (Rfc2822.Reads greatest_year) (Rfc2822.Refuses greatest_year)
        (IsDirectRfc2822 greatest_year) }
{}

/// [`Rfc3339Strict`](crate::Rfc3339Strict) reads exactly the texts of [`Rfc3339`](crate::Rfc3339) whose eleventh byte
/// is `T`, `t` or a space, with equal rests and records.
pub fn law_strict_texts()
    ensures { Strict.StrictTexts greatest_year }
{}

/// A list of items that joins two lists parses as the first list, and then as the second on the rest and the record
/// after the first. It has an error if and only if the first list has it, or the second has it on that rest and record.
/// After an error the record is unchanged, even by the first list.
pub fn law_joined_lists()
    ensures reads { JoinedReads greatest_year }
    ensures refuses { JoinedRefuses greatest_year }
    ensures leaves { JoinedLeaves greatest_year }
{}

/// Replacing a list inside a list by its items changes no rest, no record and no error.
#[tactic(auto, using(crate::proofs::TreeLemmas::flattens))]
pub fn law_flattened()
    ensures { Flattens greatest_year }
{}

/// An optional item parses as a choice of the item and then the empty list, so it never has an error.
#[tactic(auto, using(crate::proofs::TreeLemmas::optional_as_first))]
pub fn law_optional_as_first()
    ensures { OptionalAsFirst greatest_year }
{}

/// Items of any types with equal trees (`shape`) parse any input over any record with equal results and records.
pub fn law_equal_shapes<I: AnyFormatItem, J: AnyFormatItem>(item: &I, other: &J)
    ensures { HaveEqualResults greatest_year (I.shape item.now) (J.shape other.now) }
{}

/// A description and an item with equal trees (`shape`) parse any input over any record with equal results and records.
pub fn law_equal_described<const N: usize, I: AnyFormatItem>(description: &Description<N>, item: &I)
    ensures { HaveEqualResults greatest_year (shape description.now) (I.shape item.now) }
{}

/// A `FormatDescriptionV3` and a description of another type with equal items give equal rests, records and errors for
/// an input on which no visited `Ignore` ends inside a UTF-8 character. The former rejects such an `Ignore`.
#[tactic(auto, using(crate::proofs::OneOutcome::whole_characters))]
pub fn law_whole_characters()
    ensures { WholeCharacters greatest_year }
{}

/// The unparsed rest after a description is a suffix of the input.
#[tactic(auto, using(crate::proofs::TreeLemmas::leaves_suffix))]
pub fn law_suffix()
    ensures { LeavesSuffix greatest_year }
{}

/// The text that [`text_3339`](time_formatting::text_3339) writes of a moment parses back by
/// [`Rfc3339`](crate::Rfc3339) and [`Rfc3339Strict`](crate::Rfc3339Strict) as that moment with 0 for each digit of the
/// fraction that isn't written, both directly without defaults and over an empty record. `Auto` and nine digits keep
/// all of the fraction. The canonical text, which [`text_3339`] of this module writes, parses back by
/// [`Rfc3339`](crate::Rfc3339) as the whole moment.
pub fn law_read_back()
    ensures text { ReadsBack greatest_year (direct (RefusesRfc3339 greatest_year)) (Rfc3339.Reads greatest_year)
        (Rfc3339.Refuses greatest_year) }
    ensures strict { ReadsBack greatest_year (direct (Strict.RefusesDirectly greatest_year)) (Strict.Reads greatest_year)
        (Strict.Refuses greatest_year) }
    ensures auto { KeepsAll Auto }
    ensures nine { KeepsAll (Exactly 9) }
    ensures canonical { ReadsCanonicalBack greatest_year (direct (RefusesRfc3339 greatest_year))
        (Rfc3339.Reads greatest_year) (Rfc3339.Refuses greatest_year) }
{}

/// Moments with equal texts of RFC 3339 are equal except for the digits of the fraction that aren't written. If both
/// texts have all digits of the fraction (`Auto`), the moments are equal.
pub fn law_one_text()
    ensures text { OneText }
    ensures auto { OneShortText }
{}

/// The text that [`text_2822`](time_formatting::text_2822) writes of a moment parses back by
/// [`Rfc2822`](crate::Rfc2822) as that moment with a fraction of 0, directly without defaults and over an empty record.
pub fn law_mail_read_back()
    ensures { ReadsMailBack greatest_year (direct (RefusesRfc2822 greatest_year)) (Rfc2822.Reads greatest_year)
        (Rfc2822.Refuses greatest_year) }
{}

/// What [`text_8601`](time_formatting::text_8601) writes of a moment parses back by [`Iso8601`](crate::Iso8601) as that
/// moment, and what [`text_8601_basic`](time_formatting::text_8601_basic) writes parses back as that moment with a
/// fraction of 0, without defaults and over an empty record. `text_8601` writes the text of RFC 3339 with nine digits
/// of a fraction. A text of RFC 3339 with fewer digits parses back with 0 for each digit that isn't written.
pub fn law_iso_read_back()
    ensures extended { ReadsBack greatest_year over_record (Iso8601.Reads greatest_year) (Iso8601.Refuses greatest_year) }
    ensures basic { ReadsBasicBack greatest_year over_record (Iso8601.Reads greatest_year)
        (Iso8601.Refuses greatest_year) }
{}

/// The texts of [`law_read_back`] (but not the canonical one, and not by the strict format), [`law_mail_read_back`] and
/// [`law_iso_read_back`] also parse as `UtcDateTime`: the moment's date and time in UTC, with 0 for digits that aren't
/// written. So the text of `OffsetDateTime::from` a `UtcDateTime` parses back as that, with 0 for those digits.
pub fn law_utc_read_back()
    ensures rfc3339 { ReadsUtcBack greatest_year (Rfc3339.Reads greatest_year) (Rfc3339.Refuses greatest_year) }
    ensures rfc2822 { ReadsMailUtcBack greatest_year (Rfc2822.Reads greatest_year) (Rfc2822.Refuses greatest_year) }
    ensures extended { ReadsUtcBack greatest_year (Iso8601.Reads greatest_year) (Iso8601.Refuses greatest_year) }
    ensures basic { ReadsBasicUtcBack greatest_year (Iso8601.Reads greatest_year) (Iso8601.Refuses greatest_year) }
{}

/// Moments with equal texts of RFC 2822 are equal except for their fractions, which aren't written.
pub fn law_one_mail_text()
    ensures { OneMailText }
{}

/// Moments with equal extended texts of ISO 8601 are equal, and those with equal basic texts are equal except for their
/// fractions, which aren't written. No text is both extended and basic.
pub fn law_one_iso_text()
    ensures extended { OneExtendedText }
    ensures basic { OneBasicText }
    ensures apart { ExtendedOrBasic }
{}

/// The wider range of years, -999999 to 999999, keeps these results of the narrower range, -9999 to 9999. A text that a
/// description without an optional item and without a choice accepts by the narrower range is also accepted by the
/// wider one, with equal rest and record. A text that [`Rfc3339`](crate::Rfc3339), [`Rfc2822`](crate::Rfc2822) or
/// [`Iso8601`](crate::Iso8601) parses whole by the narrower range is parsed whole by the wider one, with an equal
/// record. Each record of the narrower range is one of the wider. Errors may differ.
///
/// An optional item or a choice may parse otherwise: the choice of an extended year, then the literal `+012345` parses
/// the text `+012345` as the literal by the narrower range, and as the year by the wider one.
pub fn law_kept_readings()
    ensures readings { KeepsReadings 9999 greatest_year }
    ensures rfc3339 { KeepsTexts (Rfc3339.Reads 9999) (Rfc3339.Reads greatest_year) }
    ensures rfc2822 { KeepsTexts (Rfc2822.Reads 9999) (Rfc2822.Reads greatest_year) }
    ensures iso8601 { KeepsTexts (Iso8601.Reads 9999) (Iso8601.Reads greatest_year) }
    ensures records { KeepsRecords 9999 greatest_year }
{}
