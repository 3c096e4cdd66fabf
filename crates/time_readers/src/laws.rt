//! Laws of the definitions that the contracts of this crate cite. Each function does nothing, and its contract is the
//! law.
ghost use Rattle.std.specs.Prelude.{ℕ, List, Bool, true, false};
ghost use Rattle.time_values.specs.Calendar.{greatest_year};
ghost use Rattle.time_readers.specs.Direct.{IsDirectRfc3339, RefusesRfc3339, IsDirectRfc2822, RefusesRfc2822};
ghost use Rattle.time_readers.specs.Readers.{Reader};
ghost use Rattle.time_readers.specs.Laws.{OneForm, Consumes, IsRepeated, IsoPiecesAreCuts, OneTimeRow, OneOffsetRow, OneFraction, RangedForms, OneDirect};
ghost use Rattle.time_readers.specs.Rfc2822 as rfc2822;
ghost use Rattle.time_readers.specs.Rfc3339 as rfc3339;

/// Parsed as RFC 3339, bytes have at most one result, at most one first place that doesn't match, and never both.
pub fn law_one_form()
    ensures { (check_ranges : Bool) (bytes : List ℕ)
        → OneForm (rfc3339.PlaceSyntax check_ranges) rfc3339.places rfc3339.nothing_read bytes }
{}

/// Parsed as a mail date of RFC 2822, bytes have at most one result, at most one first place that doesn't match, and
/// never both.
pub fn law_one_mail_date()
    ensures { (check_ranges : Bool) (bytes : List ℕ)
        → OneForm (rfc2822.PlaceSyntax check_ranges) rfc2822.places rfc2822.nothing_read bytes }
{}

/// With range checks a text of RFC 3339 or a mail date matches if and only if it does without them and its numbers are
/// in range.
#[tactic(auto, using(crate::proofs::RangedForms::ranged_forms, crate::proofs::RangedMail::ranged_mail))]
pub fn law_ranged_forms()
    ensures rfc3339 { RangedForms (rfc3339.HasForm true) (rfc3339.HasForm false) rfc3339.InRanges }
    ensures rfc2822 { RangedForms (rfc2822.HasForm true) (rfc2822.HasForm false) rfc2822.InRanges }
{}

/// `zero_or_more` repeats a reader until it rejects, and returns the rest, if each success consumes a byte or more.
pub fn law_repeated()
    ensures { (p : Reader) → Consumes p → IsRepeated p }
{}

/// Each piece of ISO 8601, such as a year, is defined as a function that finds exactly the prefix spelling its value.
pub fn law_iso_pieces()
    ensures { IsoPiecesAreCuts }
{}

/// At most one row of the table of ISO 8601 times matches given bytes after a given `ExtendedKind`, also `Unknown`.
pub fn law_one_time_row()
    ensures { OneTimeRow }
{}

/// At most one row of the table of ISO 8601 offsets matches given bytes after a given `ExtendedKind`, also `Unknown`.
#[tactic(auto, using(crate::proofs::IsoTimes::one_offset_row))]
pub fn law_one_offset_row()
    ensures { OneOffsetRow }
{}

/// For any digits and any whole unit, exactly one number is 0.digits * unit truncated, and exactly one it rounded.
pub fn law_one_fraction()
    ensures { OneFraction }
{}

/// The parsers of RFC 3339 and RFC 2822 in `direct` have at most one moment and one error for a text, and never both.
pub fn law_one_direct()
    ensures rfc3339 { OneDirect (IsDirectRfc3339 greatest_year) (RefusesRfc3339 greatest_year) }
    ensures rfc2822 { OneDirect (IsDirectRfc2822 greatest_year) (RefusesRfc2822 greatest_year) }
{}
