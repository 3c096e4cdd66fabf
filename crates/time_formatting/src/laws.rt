//! Laws of texts: each function does nothing, and its contract is the law.
ghost use Rattle.time_formatting.specs.Texts.{ComponentSpelled};
ghost use Rattle.time_formatting.specs.WellKnown.{timestamp_display, IsInjective};
ghost use Rattle.time_values.specs.Calendar.{greatest_year};
ghost use Rattle.time_values.specs.DisplayTexts.{date_display, time_display, offset_display, plain_display, utc_display, moment_display};

/// The text that a moment has for a component spells the component's value for that moment, in the syntax that parsers
/// accept, if the rest of the input is one that `Stops` allows after the text.
#[tactic(auto, using(crate::proofs::Spelled::component_spelled))]
pub fn law_component_spelled()
    ensures { ComponentSpelled greatest_year }
{}

/// Values of one type are equal if `Display` prints them alike: each of the seven types prints all of a value.
pub fn law_injective_display()
    ensures date { IsInjective date_display }
    ensures time { IsInjective time_display }
    ensures offset { IsInjective offset_display }
    ensures plain_date_time { IsInjective plain_display }
    ensures utc_date_time { IsInjective utc_display }
    ensures offset_date_time { IsInjective moment_display }
    ensures timestamp { IsInjective timestamp_display }
{}
