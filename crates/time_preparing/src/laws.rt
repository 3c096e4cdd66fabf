//! The law of prepared descriptions: they parse as a description with an equal tree does.
ghost use Rattle.time_values.specs.Calendar.{greatest_year};
ghost use Rattle.time_components.specs.Tree.{steps_shape};
ghost use Rattle.time_descriptions.specs.Description.{shape};
ghost use Rattle.time_parsing.specs.TreeLaws.{HaveEqualResults};

use crate::Prepared;
use time_descriptions::Description;

/// If a prepared description and a description have equal trees, then parsing a prefix of any input into any record
/// with either gives equal unread rests or equal errors, and equal new records.
pub fn law_prepared<const N: usize, const M: usize>(
    prepared: &Prepared<N>,
    description: &Description<M>,
)
    ensures { HaveEqualResults greatest_year (steps_shape prepared.now) (shape description.now) }
{}
