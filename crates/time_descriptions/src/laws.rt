//! Laws of descriptions and of their texts, each the contract of a function.
ghost use Rattle.time_descriptions.specs.Described.{DescribedTrees, OneTree};
ghost use Rattle.time_descriptions.specs.Description.{DescribedBack, OneDescription, OneOutcome, OneStrftimeDescription, OneStrftimeOutcome, StepsOfRead, StrftimePieces, VersionsAgree};

/// A text describes at most one tree in each version.
pub fn law_one_description()
    ensures { OneDescription }
{}

/// A text describes at most one tree in strftime's syntax.
pub fn law_one_strftime_description()
    ensures { OneStrftimeDescription }
{}

/// In each version, a text that is rejected with room for n steps has exactly one error, and describes no tree in at
/// most n steps.
pub fn law_one_outcome()
    ensures { OneOutcome }
{}

/// A text that parses to its end has a step count equal to the steps of its items, so it fits if and only if they fit.
#[tactic(auto, using(crate::proofs::ReadComponents::steps_of_read))]
pub fn law_steps_of_read()
    ensures { StepsOfRead }
{}

/// Versions 1 and 2 agree on a text without backslashes and without two opening brackets in a row: it describes equal
/// trees in both, or has equal errors in both.
pub fn law_versions_agree()
    ensures { VersionsAgree }
{}

/// The canonical text of a tree, which `text_of` writes, describes the tree in version 2, if any text does.
pub fn law_described_back()
    ensures { DescribedBack }
{}

/// A text describes a tree in strftime's syntax if and only if it splits into pieces that give the tree's items in
/// order. A piece is a byte but `%`, a conversion, or one with a flag; tables of letters and flags define its items.
pub fn law_strftime_pieces()
    ensures { StrftimePieces }
{}

/// In strftime's syntax, a text that is rejected with room for n steps has exactly one error, and describes no tree in
/// at most n steps.
pub fn law_one_strftime_outcome()
    ensures { OneStrftimeOutcome }
{}

/// Some text of version 2 describes a tree if and only if the definition `is_described` is true for the tree.
pub fn law_described_trees()
    ensures { DescribedTrees }
{}

/// Trees that texts of version 2 describe are equal if their canonical texts are equal.
#[tactic(auto, using(crate::proofs::OneTree::one_tree))]
pub fn law_one_tree()
    ensures { OneTree }
{}
