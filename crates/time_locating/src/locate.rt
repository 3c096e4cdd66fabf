//! Formats that locate the error in a rejected text.
ghost use Rattle.std.specs.Prelude.{◌≡◌};
ghost use Rattle.std.specs.Option.{option_map};
ghost use Rattle.time_values.specs.Refusal.{refusal_of};
ghost use Rattle.time_locating.specs.Located as spec;
ghost use Rattle.time_locating.specs.Located.{IsErrorAt, IsExactMark, IsExactPlace, IsLocated, IsMarked, Locating, Marking};
ghost use Rattle.time_parsing.specs.Outcome.{begun};

use crate::Located;
use time_parsing::Parsable;
use time_record::Parsed;
use time_values::error::{Parse, TryFromParsed};

/// A format that locates the error in a text that it rejects.
pub trait Locate: Parsable {
    // For bytes that aren't read whole over a record: the miss to report, as the number of bytes left at its place, and
    // what was expected there.
    ghost locates: { Self → Locating };

    /// Locates the error of parsing the text with the defaults: the byte index of what doesn't match, and what was
    /// expected there. `None` if the format reads the whole text, even if the text's components make no valid value.
    ///
    /// In this crate's formats, a component that doesn't match is located at its start, and a literal at its first byte
    /// that differs. If the format reads only a prefix of the text, the end was expected after that prefix. The result
    /// is the mismatch furthest into the text, even in an optional part or an alternative that isn't needed. Of several
    /// at one index, it is the one that the error of the parse names. If the error names none of them, a later part
    /// precedes an earlier one, and an earlier alternative precedes a later one.
    fn locate<'a>(&'a self, input: &[u8], defaults: Option<Parsed>) -> Option<Located<'a>>
        ensures { IsLocated (Self.reads self.now) (locates self.now) input.now (begun defaults) result };

    // For a component's name, bytes and a record: how many bytes are left at the start of the last component of that
    // name that is read, or nothing if none is read.
    ghost marks: { Self → Marking };

    /// The byte index at which the component of this name begins, if the format parses a prefix of the text with the
    /// defaults. `None` if it parses no prefix, or one without such a component, for example because the value is that
    /// of the defaults.
    ///
    /// The name is one that an error has, such as `day` for `2021-02-30`. In RFC 2822, RFC 3339 and ISO 8601 a zone
    /// name or `Z` is an `offset hour`. If the text has the component twice, the index is that of the last one, whose
    /// value counts.
    fn locate_component(&self, input: &[u8], defaults: Option<Parsed>, name: &str) -> Option<usize>
        ensures { IsMarked (marks self.now) name.now input.now (begun defaults) result };

    // A text that is parsed over a record has at most one place of an error, and none if it is read whole.
    ghost exact_place: { (s : Self) → IsExactPlace (Self.reads s) (locates s) };

    // For a text that is parsed over a record, `marks` allows at most one result for each component's name.
    ghost exact_mark: { (s : Self) → IsExactMark (marks s) };
}

/// A reference to a format locates as the format does.
impl<T: Locate> Locate for &T {
    ghost locates = { λ x. T.locates x.now };

    fn locate<'a>(&'a self, input: &[u8], defaults: Option<Parsed>) -> Option<Located<'a>> {
        (**self).locate(input, defaults)
    }

    ghost exact_place = { λ x. T.exact_place x.now };

    ghost marks = { λ x. T.marks x.now };

    fn locate_component(
        &self,
        input: &[u8],
        defaults: Option<Parsed>,
        name: &str,
    ) -> Option<usize> {
        (**self).locate_component(input, defaults, name)
    }

    ghost exact_mark = { λ x. T.exact_mark x.now };
}

// A copy of the defaults, for one more call.
fn copy_of(defaults: &Option<Parsed>) -> Option<Parsed>
    ensures { result ≡ defaults.now }
{
    *defaults
}

// The name of the component that the error calls out of range, or `None` for any other error.
fn range_name(error: Parse) -> Option<&'static str>
    ensures { option_map (λ name. name.now) result ≡ spec.range_name (refusal_of error) }
{
    match error {
        Parse::TryFromParsed(TryFromParsed::ComponentRange(range)) => Some(range.name),
        Parse::TryFromParsed(TryFromParsed::InsufficientInformation)
        | Parse::ParseFromDescription(_) => None,
    }
}

/// The byte index of the error in a text that a parse rejected with `error`. It is the index that `locate` returns,
/// whatever `error` is. If `locate` returns `None`, since the text is read whole, it is the start of the last component
/// that `error` calls out of range, or for an `ordinal` in a text without one, of the last week number. It is then
/// `None` if `error` calls no component out of range, or if the text doesn't have the component.
pub fn locate_error<T: Locate>(
    format: &T,
    input: &[u8],
    defaults: Option<Parsed>,
    error: Parse,
) -> Option<usize>
    ensures { IsErrorAt (T.reads format.now) (T.locates format.now) (T.marks format.now) input.now (begun defaults)
        (refusal_of error) result }
{
    if let Some(place) = format.locate(input, copy_of(&defaults)) {
        return Some(place.index);
    }
    let name = range_name(error)?;
    match format.locate_component(input, copy_of(&defaults), name) {
        Some(index) => Some(index),
        None if name == "ordinal" => {
            format.locate_component(input, copy_of(&defaults), "week number")
        }
        None => None,
    }
}
