//! Fast paths for the commonest parse errors, whose texts don't need `Display`.
ghost use Rattle.std.specs.Prelude.{◌≡◌, ◌++◌, codes, IfSome};
ghost use Rattle.time_values.specs.Refusal.{refusal_of, refusal_text};

use time_values::error::{Parse, ParseFromDescription, TryFromParsed};

/// The name in an `InvalidComponent`, the error of a component that couldn't be parsed, as `month`. `None` for any
/// other error.
#[inline(always)]
pub(super) fn missing_component(error: Parse) -> Option<&'static str>
    ensures { IfSome result (λ name. refusal_text (refusal_of error) ≡ codes "the '" ++ name.now ++ codes "' component could not be parsed") }
{
    match error {
        Parse::ParseFromDescription(ParseFromDescription::InvalidComponent(name)) => Some(name),
        _ => None,
    }
}

/// `error: ` and the error's text, without LF, if the error is `InsufficientInformation`: the parsed text has too few
/// components for the value, or gives no valid timestamp. `None` for any other error.
#[inline(always)]
pub(super) fn insufficient_information(error: Parse) -> Option<&'static str>
    ensures { IfSome result (λ line. codes "error: " ++ refusal_text (refusal_of error) ≡ line.now) }
{
    match error {
        Parse::TryFromParsed(TryFromParsed::InsufficientInformation) => {
            Some(
                "error: the `Parsed` struct did not include enough information to construct the type",
            )
        }
        _ => None,
    }
}
