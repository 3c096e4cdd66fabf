//! Laws of answers: the function does nothing, and its contract is the law.
ghost use Rattle.time_parse.specs.Place.{OneMeaning, OneAnswer, OneWriting};

use time_descriptions::laws::{law_one_description, law_one_strftime_description};

/// The argument for a format has at most one meaning in each version, and by a meaning a text has at most one answer
/// for a target, with `--place` or not. Command line and input determine what is added to a writer's known contents.
pub fn law_one_answer()
    ensures meaning { OneMeaning }
    ensures text { OneAnswer }
    ensures input { OneWriting }
{
    law_one_description();
    law_one_strftime_description();
}
