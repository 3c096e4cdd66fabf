//! Laws about where texts are rejected: each function does nothing, and its contract is the law.
ghost use Rattle.time_values.specs.Calendar.{greatest_year};
ghost use Rattle.time_record.specs.Resolution.{IsDated, IsMoment, IsOffset, IsPlain, IsTimed, IsTimestamp, IsUtcMoment};
ghost use Rattle.time_locating.specs.Laws.{FurthestLeavesFewest, IsoOwnMiss, OneList, OwnMissFirst};
ghost use Rattle.time_locating.specs.Located.{IsExactMark, OneAnswer, OneIndex, PlacesOutcomes, PlacesRefusals};

use crate::Locate;

/// A description has at most one list of misses (parts that are tried and don't match) for given bytes and a record. If
/// it rejects the bytes, the list begins with a miss of the error's kind, and of the component that the error names, if
/// any. No miss leaves fewer bytes unread than the furthest, and each miss before that one in the list leaves more.
pub fn law_misses()
    ensures one { OneList }
    ensures own { OwnMissFirst }
    ensures furthest { FurthestLeavesFewest }
{}

/// If ISO 8601 rejects the date of a text with an error, one miss of the text (a part that is tried and doesn't match)
/// is of the error's kind and component, and each miss before it in the list leaves more bytes. So if no prefix of the
/// text matches, `locate` returns the place of that miss unless a later miss in the list is further into the text.
pub fn law_iso_misses()
    ensures { IsoOwnMiss }
{}

/// A text with given defaults has at most one answer, whatever the format: any two results that the contract of
/// `locate` allows are both `None`, or equal in their index and in what was expected.
#[tactic(auto, using(crate::proofs::WholeTexts::one_answer))]
pub fn law_one_place<T: Locate>(format: &T)
    ensures { OneAnswer (T.reads format.now) (T.locates format.now) }
{}

/// For each text and given defaults, `locate` returns `None` if and only if `parse_internal` returns `Ok`. So it
/// returns a place for each text that `parse_internal` rejects, and for no other.
#[tactic(auto, using(crate::proofs::WholeTexts::place_of_refusal))]
pub fn law_place_of_refusal<T: Locate>(format: &T)
    ensures { PlacesRefusals (T.reads format.now) (T.refuses format.now) (T.locates format.now) }
{}

/// `locate` returns `None` if and only if the format reads the whole text, and the outcome of parsing it over a record
/// is what the record then converts to, a value or an error. So if the parse returns a value, `locate` returns `None`;
/// and if it returns an error and `locate` returns `None`, the record has no value. This holds for each type of value.
#[tactic(auto, using(crate::proofs::WholeTexts::place_of_outcome))]
pub fn law_place_of_outcome<T: Locate>(format: &T)
    ensures date { PlacesOutcomes (IsDated greatest_year) (T.reads format.now) (T.refuses format.now) (T.locates format.now) }
    ensures time { PlacesOutcomes IsTimed (T.reads format.now) (T.refuses format.now) (T.locates format.now) }
    ensures offset { PlacesOutcomes IsOffset (T.reads format.now) (T.refuses format.now) (T.locates format.now) }
    ensures plain_date_time { PlacesOutcomes (IsPlain greatest_year) (T.reads format.now) (T.refuses format.now) (T.locates format.now) }
    ensures utc_date_time { PlacesOutcomes (IsUtcMoment greatest_year) (T.reads format.now) (T.refuses format.now) (T.locates format.now) }
    ensures offset_date_time { PlacesOutcomes (IsMoment greatest_year) (T.reads format.now) (T.refuses format.now) (T.locates format.now) }
    ensures timestamp { PlacesOutcomes (IsTimestamp greatest_year) (T.reads format.now) (T.refuses format.now) (T.locates format.now) }
{}

/// Any two results that the contract of `locate_component` allows for one text, name and defaults are equal, whatever
/// the format, and so are any two that the contract of `locate_error` allows for one text, error and defaults.
#[tactic(auto, using(crate::proofs::WholeTexts::one_index))]
pub fn law_one_index<T: Locate>(format: &T)
    ensures component { IsExactMark (T.marks format.now) }
    ensures error { OneIndex (T.reads format.now) (T.locates format.now) (T.marks format.now) }
{}
