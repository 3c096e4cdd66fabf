//! Laws of formats: each function does nothing, and its contract is the law.
ghost use Rattle.restamp_formats.specs.Common.{greatest_year};
ghost use Rattle.restamp_formats.specs.Laws.{AutoHasAll, ReadsRewrittenBack, ReadsSuffixedBack, ReadsZonedBack, WritesZonedSame, KeepsMoment, AllValuesDetermine, SignsDetermine, OneTree, CommonReadsBack};
ghost use Rattle.restamp_formats.specs.MissingField.{ClocksHaveNoUse, HasNoUse, ParsesNoMoment};

/// The text that RFC 3339, RFC 2822 or ISO 8601 writes of a moment, converted to a form's clock, parses by that format
/// as the converted moment, if each nonzero digit of its fraction was written; and the match has all bytes of the text.
/// [`Auto`](time_formatting::FractionDigits::Auto) omits no such digit.
///
/// A text written by a description parses likewise by a description with an equal tree, if each component's text is
/// parsed whole, if the values of the components, completed by the defaults that the format uses, resolve to that
/// moment, and if, for a number of seconds, no fraction follows a minus.
pub fn law_rewritten_read_back()
    ensures text { ReadsRewrittenBack }
    ensures auto { AutoHasAll }
{}

/// If RFC 3339 matches a whole text, and the suffix after it has no critical tag and, if it has a zone, a known one
/// with the offset of the text (any offset, for `Z`, `z` or `-00:00`), RFC 9557 matches both together as that moment.
pub fn law_suffixed_read_back()
    ensures { ReadsSuffixedBack }
{}

/// If a moment is written by RFC 3339 with each nonzero digit of its fraction, and the zone or the fixed offset that it
/// was converted to follows in brackets, RFC 9557 parses both together as that moment, converted. A named zone must be
/// in the format's table by that name. Written again likewise, the parsed moment has the text before the brackets.
pub fn law_zoned_read_back()
    ensures text { ReadsZonedBack }
    ensures again { WritesZonedSame }
{}

/// A record that resolves to a moment without defaults resolves to the same moment with any defaults.
#[tactic(auto, using(crate::proofs::DescribedBack::keeps_moment))]
pub fn law_defaults()
    ensures { KeepsMoment }
{}

/// The text of a moment by a description's tree determines the moment, if each component's text is parsed whole, and
/// the record of the components' values, completed by the defaults, has the date, the time and the offset of the
/// moment, and no count from 1970. No component may be a century, last two digits, an ISO 8601 year, a week number, a
/// count or `ignore`. The minutes and the seconds of an offset are their magnitudes with the sign of the offset.
#[tactic(auto, using(crate::proofs::ComponentValueLemmas::says_all_told, crate::proofs::ComponentValueLemmas::signs_tell))]
pub fn law_all_values()
    ensures says { AllValuesDetermine }
    ensures signs { SignsDetermine }
{}

/// If a text names both a format to parse by and a description to write by, the format is `Described`, with the tree of
/// that description.
#[tactic(auto, using(crate::proofs::CommonBack::one_tree))]
pub fn law_one_tree()
    ensures { OneTree }
{}

/// The text that the description of the format `common` writes of a moment determines that moment by the format
/// `common`, whatever the defaults, if the moment has no fraction and its offset has no seconds.
#[tactic(auto, using(crate::proofs::CommonBack::common_reads_back))]
pub fn law_common_read_back()
    ensures { CommonReadsBack }
{}

/// [`parse_dated`](crate::parse_dated) parses no text, and no prefix of one, as a moment by a format for which
/// [`Reading::missing_field`](crate::Reading::missing_field) returns a part. Its argument `has_year` must be true if
/// the defaults have a `year` or a `latest`, otherwise false.
pub fn law_no_moment()
    ensures { ParsesNoMoment }
{}

/// If each text of a description has a part of a year, a default year doesn't change what a record that the description
/// parsed resolves to. If each text has the hour of an offset, a default offset doesn't change that. A count from 1970
/// counts as both.
#[tactic(auto, using(crate::proofs::MissingFieldUses::has_no_use))]
pub fn law_no_use()
    ensures { HasNoUse }
{}

/// The default zone for local times doesn't change the match or the error of a text by a format for which
/// [`Reading::can_default`](crate::Reading::can_default) returns false for the offset. `latest` isn't covered.
#[tactic(auto, using(crate::proofs::MissingFieldUses::clocks_have_no_use))]
pub fn law_no_clocks()
    ensures { ClocksHaveNoUse }
{}
