//! Laws of the definitions in this crate's contracts: each function does nothing, and its contract is the law.
ghost use Rattle.time_components.specs.Spelling.{OneSpelling};

/// For each component, at most one prefix of an input spells a value, and that prefix spells only one value.
pub fn law_one_spelling()
    ensures { OneSpelling }
{}
