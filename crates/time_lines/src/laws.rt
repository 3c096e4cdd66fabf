//! Laws of answers: the function does nothing, and its contract is the law.
ghost use Rattle.time_lines.specs.Output.{OneAnswer, OneOutput, OneWriting};

/// A line has at most one answer, lines have at most one text of answers, and an input determines the contents of a
/// writer after its answers, if the earlier contents are known.
pub fn law_one_answer()
    ensures line { OneAnswer }
    ensures lines { OneOutput }
    ensures input { OneWriting }
{}
