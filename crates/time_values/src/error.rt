//! Errors of the constructors of dates and times, and of parsing.
ghost use Rattle.std.specs.Prelude.{◌≡◌, ◌⊎◌, Ok, Err, Some, IfSome, IfNone};
ghost use Rattle.time_values.specs.Refusal.{range_of_parsed, parsed_of_parse, description_of_parse, joint_of_parse, parsed_of_joint, description_of_joint, parse_of_joint, literal, component, trailing, refusal_of_range, refusal_of_description, refusal_of_parsed, refusal_of, refusal_text, variant_text};
ghost use Rattle.time_values.specs.declared.error.Error.TheVariants.{ComponentRange as joint_range, TryFromParsed as joint_parsed, ParseFromDescription as joint_description};
ghost use Rattle.time_values.specs.declared.error.Parse.TheVariants.{TryFromParsed as parse_of_parsed, ParseFromDescription as parse_of_description};
ghost use Rattle.time_values.specs.declared.error.TryFromParsed.TheVariants.{ComponentRange as parsed_of_range};

use std::convert::TryFrom;
use std::fmt;

/// A component, such as `hour`, had a value outside its range.
#[derive(Clone, Copy, Debug, PartialEq, Eq)]
pub struct ComponentRange {
    /// The component's name.
    pub name: &'static str,
    /// Whether the range depends on the values of other components.
    pub conditional: bool,
}

impl ComponentRange {
    /// The component's name, such as `hour`.
    pub fn name(self) -> &'static str
        ensures { result ≡ self.name }
    {
        self.name
    }

    /// Whether the range depends on the values of other components.
    pub fn is_conditional(self) -> bool
        ensures { result ≡ self.conditional }
    {
        self.conditional
    }
}

impl fmt::Display for ComponentRange {
    ghost output = { λ e. Some (refusal_text (refusal_of_range e)) };

    fn fmt<W: fmt::Write>(&self, f: &mut fmt::Formatter<W>) -> fmt::Result {
        let name = self.name;
        if self.conditional {
            write!(f, "{name} is out of range for the other components")
        } else {
            write!(f, "{name} is out of range")
        }
    }
}

impl std::error::Error for ComponentRange {}

/// A conversion from an enum to the type of one variant failed, since the value was of a different variant.
#[derive(Clone, Copy, Debug, PartialEq, Eq)]
pub struct DifferentVariant;

impl fmt::Display for DifferentVariant {
    ghost output = { λ _. Some variant_text };

    fn fmt<W: fmt::Write>(&self, f: &mut fmt::Formatter<W>) -> fmt::Result {
        write!(f, "value was of a different variant than required")
    }
}

impl std::error::Error for DifferentVariant {}

/// A text doesn't match the expected format.
#[derive(Clone, Copy, Debug, PartialEq, Eq)]
pub enum ParseFromDescription {
    /// The expected literal is missing.
    InvalidLiteral,
    /// The component of this name could not be read, or its value is out of its range.
    InvalidComponent(&'static str),
    /// Bytes are left after the expected end of the input.
    UnexpectedTrailingCharacters,
}

impl ParseFromDescription {
    /// The name of the component that could not be read or is out of its range, or `None` if a literal is missing or
    /// bytes are left after the expected end.
    pub fn component_name(self) -> Option<&'static str>
        ensures name { IfSome result (λ name. refusal_of_description self ≡ component name.now) }
        ensures none { IfNone result ((refusal_of_description self ≡ literal) ⊎ (refusal_of_description self ≡ trailing)) }
    {
        match self {
            ParseFromDescription::InvalidComponent(name) => Some(name),
            ParseFromDescription::InvalidLiteral
            | ParseFromDescription::UnexpectedTrailingCharacters => None,
        }
    }
}

impl fmt::Display for ParseFromDescription {
    ghost output = { λ e. Some (refusal_text (refusal_of_description e)) };

    fn fmt<W: fmt::Write>(&self, f: &mut fmt::Formatter<W>) -> fmt::Result {
        match self {
            ParseFromDescription::InvalidLiteral => write!(f, "a character literal was not valid"),
            ParseFromDescription::InvalidComponent(name) => {
                write!(f, "the '{name}' component could not be parsed")
            }
            ParseFromDescription::UnexpectedTrailingCharacters => {
                write!(
                    f,
                    "unexpected trailing characters; the end of input was expected"
                )
            }
        }
    }
}

impl std::error::Error for ParseFromDescription {}

/// The components that were read don't make a value of the expected type.
#[derive(Clone, Copy, Debug, PartialEq, Eq)]
pub enum TryFromParsed {
    /// Components are missing. `Timestamp::try_from` also returns it if a component is out of its range.
    InsufficientInformation,
    /// A component is out of its range.
    ComponentRange(ComponentRange),
}

impl fmt::Display for TryFromParsed {
    ghost output = { λ e. Some (refusal_text (refusal_of_parsed e)) };

    fn fmt<W: fmt::Write>(&self, f: &mut fmt::Formatter<W>) -> fmt::Result {
        match self {
            TryFromParsed::InsufficientInformation => write!(
                f,
                "the `Parsed` struct did not include enough information to construct the type"
            ),
            TryFromParsed::ComponentRange(e) => write!(f, "{e}"),
        }
    }
}

impl std::error::Error for TryFromParsed {}

impl From<ComponentRange> for TryFromParsed {
    ghost from_gives = { λ e r. r ≡ parsed_of_range e };

    #[inline]
    fn from(e: ComponentRange) -> TryFromParsed {
        TryFromParsed::ComponentRange(e)
    }
}

impl TryFrom<TryFromParsed> for ComponentRange {
    type Error = DifferentVariant;

    ghost try_from_gives = { λ e r. r ≡ range_of_parsed e };

    fn try_from(e: TryFromParsed) -> Result<ComponentRange, DifferentVariant> {
        match e {
            TryFromParsed::ComponentRange(e) => Ok(e),
            TryFromParsed::InsufficientInformation => Err(DifferentVariant),
        }
    }
}

/// A text doesn't match the expected format, or its components don't make a value.
#[derive(Clone, Copy, Debug, PartialEq, Eq)]
pub enum Parse {
    /// The text was read, but its components don't make a value.
    TryFromParsed(TryFromParsed),
    /// A literal is missing, a component could not be read or is out of its range, or bytes are left over.
    ParseFromDescription(ParseFromDescription),
}

impl fmt::Display for Parse {
    ghost output = { λ e. Some (refusal_text (refusal_of e)) };

    fn fmt<W: fmt::Write>(&self, f: &mut fmt::Formatter<W>) -> fmt::Result {
        match self {
            Parse::TryFromParsed(e) => write!(f, "{e}"),
            Parse::ParseFromDescription(e) => write!(f, "{e}"),
        }
    }
}

impl std::error::Error for Parse {}

impl From<TryFromParsed> for Parse {
    ghost from_gives = { λ e r. r ≡ parse_of_parsed e };

    #[inline]
    fn from(e: TryFromParsed) -> Parse {
        Parse::TryFromParsed(e)
    }
}

impl From<ParseFromDescription> for Parse {
    ghost from_gives = { λ e r. r ≡ parse_of_description e };

    #[inline]
    fn from(e: ParseFromDescription) -> Parse {
        Parse::ParseFromDescription(e)
    }
}

impl TryFrom<Parse> for TryFromParsed {
    type Error = DifferentVariant;

    ghost try_from_gives = { λ e r. r ≡ parsed_of_parse e };

    fn try_from(e: Parse) -> Result<TryFromParsed, DifferentVariant> {
        match e {
            Parse::TryFromParsed(e) => Ok(e),
            Parse::ParseFromDescription(_) => Err(DifferentVariant),
        }
    }
}

impl TryFrom<Parse> for ParseFromDescription {
    type Error = DifferentVariant;

    ghost try_from_gives = { λ e r. r ≡ description_of_parse e };

    fn try_from(e: Parse) -> Result<ParseFromDescription, DifferentVariant> {
        match e {
            Parse::ParseFromDescription(e) => Ok(e),
            Parse::TryFromParsed(_) => Err(DifferentVariant),
        }
    }
}

/// A `ComponentRange`, `ParseFromDescription` or `TryFromParsed`: an error of constructing or parsing a value.
#[derive(Debug, Drop, thiserror::Error)]
pub enum Error {
    /// A component is out of its range.
    #[error(transparent)]
    ComponentRange(ComponentRange),
    /// A text doesn't match the expected format.
    #[error(transparent)]
    ParseFromDescription(ParseFromDescription),
    /// The components that were read don't make a value of the expected type.
    #[error(transparent)]
    TryFromParsed(TryFromParsed),
}

impl From<ComponentRange> for Error {
    ghost from_gives = { λ e r. r ≡ joint_range e };

    fn from(e: ComponentRange) -> Error {
        Error::ComponentRange(e)
    }
}

impl From<ParseFromDescription> for Error {
    ghost from_gives = { λ e r. r ≡ joint_description e };

    fn from(e: ParseFromDescription) -> Error {
        Error::ParseFromDescription(e)
    }
}

impl From<TryFromParsed> for Error {
    ghost from_gives = { λ e r. r ≡ joint_parsed e };

    fn from(e: TryFromParsed) -> Error {
        Error::TryFromParsed(e)
    }
}

impl From<Parse> for Error {
    ghost from_gives = { λ e r. r ≡ joint_of_parse e };

    fn from(e: Parse) -> Error {
        match e {
            Parse::TryFromParsed(e) => Error::TryFromParsed(e),
            Parse::ParseFromDescription(e) => Error::ParseFromDescription(e),
        }
    }
}

impl TryFrom<Error> for TryFromParsed {
    type Error = DifferentVariant;

    ghost try_from_gives = { λ e r. r ≡ parsed_of_joint e };

    fn try_from(e: Error) -> Result<TryFromParsed, DifferentVariant> {
        match e {
            Error::TryFromParsed(e) => Ok(e),
            _ => Err(DifferentVariant),
        }
    }
}

impl TryFrom<Error> for ParseFromDescription {
    type Error = DifferentVariant;

    ghost try_from_gives = { λ e r. r ≡ description_of_joint e };

    fn try_from(e: Error) -> Result<ParseFromDescription, DifferentVariant> {
        match e {
            Error::ParseFromDescription(e) => Ok(e),
            _ => Err(DifferentVariant),
        }
    }
}

impl TryFrom<Error> for Parse {
    type Error = DifferentVariant;

    ghost try_from_gives = { λ e r. r ≡ parse_of_joint e };

    fn try_from(e: Error) -> Result<Parse, DifferentVariant> {
        match e {
            Error::ParseFromDescription(e) => Ok(Parse::ParseFromDescription(e)),
            Error::TryFromParsed(e) => Ok(Parse::TryFromParsed(e)),
            Error::ComponentRange(_) => Err(DifferentVariant),
        }
    }
}
