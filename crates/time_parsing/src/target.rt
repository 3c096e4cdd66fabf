//! The types of value into which a text is parsed.
ghost use Rattle.std.specs.Prelude.{ℕ, List, Result, None};
ghost use Rattle.time_values.specs.Calendar.{greatest_year};
ghost use Rattle.time_values.specs.Refusal.{Refusal};
ghost use Rattle.time_record.specs.Record.{empty};
ghost use Rattle.time_record.specs.Resolution.{IsDated, IsTimed, IsOffset, IsPlain, IsUtcMoment, IsTimestamp};
ghost use Rattle.time_parsing.specs.Outcome.{Reading, Refusing, Path, seen, IsOutcome, IsMomentOutcome};

use crate::Parsable;
use std::convert::AsSlice;
use time_values::error::Parse;
use time_values::{Date, OffsetDateTime, PlainDateTime, Time, Timestamp, UtcDateTime, UtcOffset};

/// A type of value into which any format parses a whole text: `Date::parse("2021-01-02", &Iso8601)`.
pub trait Target: Sized {
    // The bytes have this result without defaults, by a format with this path for moments, these readings and these
    // errors. The error is viewed without the address of its text.
    ghost outcome: { Path → Reading → Refusing → List ℕ → Result Self Refusal → Type 0 };

    /// The value of a whole text, passed as text or as bytes. There are no defaults for components that the text omits.
    ///
    /// # Errors
    ///
    /// Those of the format's own call for the type, such as [`Parsable::parse_date`], with `None` for the defaults.
    fn parse<T: AsSlice<u8> + Drop, F: Parsable>(text: T, format: &F) -> Result<Self, Parse>
        ensures { outcome (F.path format.now) (F.reads format.now) (F.refuses format.now) (T.items text) (seen result) };
}

impl Target for Date {
    ghost outcome = { λ _ reads refuses bytes result. IsOutcome (IsDated greatest_year) reads refuses bytes empty result };

    #[inline]
    fn parse<T: AsSlice<u8> + Drop, F: Parsable>(text: T, format: &F) -> Result<Date, Parse> {
        format.parse_date(text.as_slice(), None)
    }
}

impl Target for Time {
    ghost outcome = { λ _ reads refuses bytes result. IsOutcome IsTimed reads refuses bytes empty result };

    #[inline]
    fn parse<T: AsSlice<u8> + Drop, F: Parsable>(text: T, format: &F) -> Result<Time, Parse> {
        format.parse_time(text.as_slice(), None)
    }
}

impl Target for UtcOffset {
    ghost outcome = { λ _ reads refuses bytes result. IsOutcome IsOffset reads refuses bytes empty result };

    #[inline]
    fn parse<T: AsSlice<u8> + Drop, F: Parsable>(text: T, format: &F) -> Result<UtcOffset, Parse> {
        format.parse_offset(text.as_slice(), None)
    }
}

impl Target for PlainDateTime {
    ghost outcome = { λ _ reads refuses bytes result. IsOutcome (IsPlain greatest_year) reads refuses bytes empty result };

    #[inline]
    fn parse<T: AsSlice<u8> + Drop, F: Parsable>(
        text: T,
        format: &F,
    ) -> Result<PlainDateTime, Parse> {
        format.parse_plain_date_time(text.as_slice(), None)
    }
}

impl Target for UtcDateTime {
    ghost outcome = { λ _ reads refuses bytes result. IsOutcome (IsUtcMoment greatest_year) reads refuses bytes empty result };

    #[inline]
    fn parse<T: AsSlice<u8> + Drop, F: Parsable>(
        text: T,
        format: &F,
    ) -> Result<UtcDateTime, Parse> {
        format.parse_utc_date_time(text.as_slice(), None)
    }
}

impl Target for OffsetDateTime {
    ghost outcome = { λ path reads refuses bytes result. IsMomentOutcome greatest_year path reads refuses bytes None result };

    #[inline]
    fn parse<T: AsSlice<u8> + Drop, F: Parsable>(
        text: T,
        format: &F,
    ) -> Result<OffsetDateTime, Parse> {
        format.parse_offset_date_time(text.as_slice(), None)
    }
}

impl Target for Timestamp {
    ghost outcome = { λ _ reads refuses bytes result. IsOutcome (IsTimestamp greatest_year) reads refuses bytes empty result };

    #[inline]
    fn parse<T: AsSlice<u8> + Drop, F: Parsable>(text: T, format: &F) -> Result<Timestamp, Parse> {
        format.parse_timestamp(text.as_slice(), None)
    }
}
