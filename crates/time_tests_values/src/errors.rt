//! The texts of errors, and the conversions between them.
use std::alloc::Global;
use std::convert::TryFrom;
use std::fmt::Display;
use time_values::error::{
    ComponentRange, DifferentVariant, Error, Parse, ParseFromDescription, TryFromParsed,
};

const LITERAL: ParseFromDescription = ParseFromDescription::InvalidLiteral;

const MONTH: ParseFromDescription = ParseFromDescription::InvalidComponent("month");

const TRAILING: ParseFromDescription = ParseFromDescription::UnexpectedTrailingCharacters;

const MISSING: TryFromParsed = TryFromParsed::InsufficientInformation;

const YEAR: ComponentRange = ComponentRange {
    name: "year",
    conditional: false,
};

const DAY: ComponentRange = ComponentRange {
    name: "day",
    conditional: true,
};

const LITERAL_TEXT: &str = "a character literal was not valid";

const MONTH_TEXT: &str = "the 'month' component could not be parsed";

const TRAILING_TEXT: &str = "unexpected trailing characters; the end of input was expected";

const MISSING_TEXT: &str =
    "the `Parsed` struct did not include enough information to construct the type";

const YEAR_TEXT: &str = "year is out of range";

const DAY_TEXT: &str = "day is out of range for the other components";

static RANGES: [(ComponentRange, &str); 2] = [(YEAR, YEAR_TEXT), (DAY, DAY_TEXT)];

static REFUSALS: [(ParseFromDescription, &str); 3] = [
    (LITERAL, LITERAL_TEXT),
    (MONTH, MONTH_TEXT),
    (TRAILING, TRAILING_TEXT),
];

// Whether this is the error's text.
fn prints<E: Display>(alloc: Global, e: &E, text: &str) -> bool {
    match e.to_string(alloc) {
        Ok(printed) => printed.as_str() == text,
        Err(_) => false,
    }
}

// Whether this is the error's text, and that of the joint error that is built from it.
fn prints_joined<E: Display + Copy>(alloc: Global, e: E, text: &str) -> bool
where
    Error: From<E>,
{
    prints(alloc, &e, text) && prints(alloc, &Error::from(e), text)
}

// Whether this is also the text of the parse error that is built from it.
fn prints_parsed<E: Display + Copy>(alloc: Global, e: E, text: &str) -> bool
where
    Error: From<E>,
    Parse: From<E>,
{
    prints_joined(alloc, e, text) && prints_joined::<Parse>(alloc, Parse::from(e), text)
}

#[test]
fn texts(rt: HostRuntime) {
    for (e, text) in &REFUSALS {
        assert!(rt; prints_parsed(rt.alloc(), *e, text));
    }
    assert!(rt; prints_parsed(rt.alloc(), MISSING, MISSING_TEXT));
    let text = "value was of a different variant than required";
    assert!(rt; prints(rt.alloc(), &DifferentVariant, text));
}

#[test]
fn joint_error(rt: HostRuntime) {
    for (e, text) in &RANGES {
        assert!(rt; prints_joined(rt.alloc(), *e, text));
        assert!(rt; prints_parsed(rt.alloc(), TryFromParsed::from(*e), text));
    }
}

// Whether the parse error has that error of its text, or of the record, and so has the joint error that is built
// from it.
fn splits_into(
    e: Parse,
    read: Result<ParseFromDescription, DifferentVariant>,
    resolved: Result<TryFromParsed, DifferentVariant>,
) -> bool {
    ParseFromDescription::try_from(e) == read
        && TryFromParsed::try_from(e) == resolved
        && ParseFromDescription::try_from(Error::from(e)) == read
        && TryFromParsed::try_from(Error::from(e)) == resolved
        && Parse::try_from(Error::from(e)) == Ok(e)
}

// Whether the parse error can be built again from the joint error of its part.
fn joins_parts() -> bool {
    TryFromParsed::try_from(Error::from(MONTH)) == Err(DifferentVariant)
        && Parse::try_from(Error::from(MONTH)) == Ok(Parse::from(MONTH))
        && ParseFromDescription::try_from(Error::from(MISSING)) == Err(DifferentVariant)
        && Parse::try_from(Error::from(MISSING)) == Ok(Parse::from(MISSING))
}

// Whether the joint error of a range is no error of a parse.
fn joins_a_range() -> bool {
    TryFromParsed::try_from(Error::from(DAY)) == Err(DifferentVariant)
        && ParseFromDescription::try_from(Error::from(DAY)) == Err(DifferentVariant)
        && Parse::try_from(Error::from(DAY)) == Err(DifferentVariant)
}

#[test]
fn conversions(rt: HostRuntime) {
    let made = TryFromParsed::from(DAY);
    for (e, read, resolved) in [
        (Parse::from(MONTH), Ok(MONTH), Err(DifferentVariant)),
        (Parse::from(made), Err(DifferentVariant), Ok(made)),
    ] {
        assert!(rt; splits_into(e, read, resolved));
    }
    for (e, range) in [(made, Ok(DAY)), (MISSING, Err(DifferentVariant))] {
        assert!(rt; ComponentRange::try_from(e) == range);
    }
    assert!(rt; joins_parts());
    assert!(rt; joins_a_range());
}
