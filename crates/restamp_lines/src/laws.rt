//! Laws of verdicts: each function does nothing, and its contract is the law.
ghost use Rattle.time_values.specs.Calendar.{greatest_year};
ghost use Rattle.restamp_formats.specs.Laws.{WritesSameText};
ghost use Rattle.restamp_lines.specs.Laws.{OneVerdict, ChangesNothing, DependsOnNamedZones};

/// Each line has at most one verdict by a job.
#[tactic(auto, using(crate::proofs::OneVerdict::one_verdict))]
pub fn law_one_verdict()
    ensures { OneVerdict }
{}

/// A second run changes nothing. If a moment is written in a form, if a format can parse all of the moment from the
/// text (see [`law_rewritten_read_back`](restamp_formats::laws::law_rewritten_read_back)), and if what it parses is
/// written in that form, the two texts are equal. If such a text, in the job's form and by its first format, is the
/// whole part of a line at a place other than [`Front`](restamp_place::Place::Front) and
/// [`After`](restamp_place::Place::After), the line is rejected if the text ends after the first
/// [`LIMIT`](crate::LIMIT) bytes, dropped if the moment lies outside the bounds, and otherwise rewritten to itself.
pub fn law_second_run()
    ensures text { WritesSameText }
    ensures line { ChangesNothing }
{}

/// Of the zones that its RFC 9557 formats know, a job uses only those whose names are in the line, in brackets where a
/// timestamp may end: jobs whose formats differ only in other zones have the same verdict.
#[tactic(auto, using(crate::proofs::NamedZonesLemmas::needs_named_zones))]
pub fn law_named_zones()
    ensures { DependsOnNamedZones }
{}
