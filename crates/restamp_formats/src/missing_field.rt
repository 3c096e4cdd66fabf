//! What every text of a format omits, and what none of its texts omits.
ghost use Rattle.time_components.specs.Tree.{group_tree, steps_trees, tree_at};
ghost use Rattle.std.specs.Prelude.{◌≡◌};
ghost use Rattle.restamp_formats.specs.Common.{Some, steps_shape};
ghost use Rattle.restamp_formats.specs.MissingField as spec;
ghost use Rattle.restamp_formats.specs.MissingFieldSteps.{step_has};

use crate::reading::Reading;
use std::fmt;
use time_components::{Component, Group, Step, steps_after};

/// A part of a moment that a text, or each text of a format, omits, so that the text can't be parsed as a moment.
#[derive(Clone, Copy, Debug, PartialEq, Eq)]
pub enum MissingField {
    /// The day: neither the day of the year, nor month and day, nor weekday and number of the week is complete.
    Day,
    /// The year, of which a text may have no part. A default year may supply it.
    Year,
    /// The whole year, which no default supplies: only a part of it is given, or the day or the year is by ISO weeks.
    WholeYear,
    /// An hour of the day.
    Hour,
    /// The half of the day, AM or PM, for an hour from 1 to 12.
    Half,
    /// The minute. [`Reading::missing_field`] never returns it.
    Minute,
    /// The second. [`Reading::missing_field`] never returns it.
    Second,
    /// The offset. [`Reading::missing_field`] never returns it.
    Offset,
}

impl fmt::Display for MissingField {
    ghost output = { λ missing_field. Some (spec.missing_field_text missing_field) };

    fn fmt<W: fmt::Write>(&self, f: &mut fmt::Formatter<W>) -> fmt::Result {
        match self {
            MissingField::Day => write!(f, "missing day"),
            MissingField::Year => write!(f, "missing year; --year or --latest gives one"),
            MissingField::WholeYear => write!(f, "missing whole year"),
            MissingField::Hour => write!(f, "missing hour"),
            MissingField::Half => write!(f, "missing AM or PM"),
            MissingField::Minute => write!(f, "missing minute"),
            MissingField::Second => write!(f, "missing second"),
            MissingField::Offset => write!(f, "missing offset"),
        }
    }
}

// The part of a moment that a component's text has.
#[derive(Clone, Copy, Debug, PartialEq, Eq)]
enum Kind {
    Year,
    YearCentury,
    YearLastTwo,
    IsoYear,
    IsoYearCentury,
    IsoYearLastTwo,
    Month,
    Day,
    // The day of the year.
    Ordinal,
    Weekday,
    IsoWeek,
    SundayWeek,
    MondayWeek,
    // An hour from 0 to 23.
    Hour,
    // An hour from 1 to 12.
    HourOfHalf,
    // AM or PM.
    Half,
    OffsetHour,
    // A count of seconds or smaller units from 1970, which is a whole moment.
    Count,
    // Anything else: a minute, a second, a fraction, the minute or second of an offset, `ignore` or `end`.
    Other,
}

/// A part of a moment that a default can supply: the year or the offset.
#[derive(Clone, Copy, Debug, PartialEq, Eq)]
pub enum Part {
    /// The year. A text with any part of a year has this part.
    Year,
    /// The offset. A text with the hour of an offset has this part.
    Offset,
}

impl Kind {
    // Whether the two kinds are equal.
    fn is(self, other: Kind) -> bool
        ensures { result ≡ spec.same self other }
    {
        self == other
    }

    // Whether a text with a component of this kind has that part. One with a count from 1970 has both.
    fn is_of(self, part: Part) -> bool
        ensures { result ≡ spec.is_of part self }
    {
        match self {
            Kind::Year | Kind::YearCentury | Kind::YearLastTwo => matches!(part, Part::Year),
            Kind::IsoYear | Kind::IsoYearCentury | Kind::IsoYearLastTwo => {
                matches!(part, Part::Year)
            }
            Kind::OffsetHour => matches!(part, Part::Offset),
            Kind::Count => true,
            Kind::Month | Kind::Day | Kind::Ordinal | Kind::Weekday => false,
            Kind::IsoWeek | Kind::SundayWeek | Kind::MondayWeek => false,
            Kind::Hour | Kind::HourOfHalf | Kind::Half | Kind::Other => false,
        }
    }
}

// The part of a moment that the component's text has; `Other` if neither `missing_field` nor `can_default` needs it.
fn kind_of(component: Component) -> Kind
    ensures { result ≡ spec.kind_of component }
{
    match component {
        Component::CalendarYearFullExtendedRange(_) => Kind::Year,
        Component::CalendarYearFullStandardRange(_) => Kind::Year,
        Component::CalendarYearCenturyExtendedRange(_) => Kind::YearCentury,
        Component::CalendarYearCenturyStandardRange(_) => Kind::YearCentury,
        Component::CalendarYearLastTwo(_) => Kind::YearLastTwo,
        Component::IsoYearFullExtendedRange(_) => Kind::IsoYear,
        Component::IsoYearFullStandardRange(_) => Kind::IsoYear,
        Component::IsoYearCenturyExtendedRange(_) => Kind::IsoYearCentury,
        Component::IsoYearCenturyStandardRange(_) => Kind::IsoYearCentury,
        Component::IsoYearLastTwo(_) => Kind::IsoYearLastTwo,
        Component::MonthShort(_) | Component::MonthLong(_) => Kind::Month,
        Component::MonthNumerical(_) => Kind::Month,
        Component::Day(_) => Kind::Day,
        Component::Ordinal(_) => Kind::Ordinal,
        Component::WeekdayShort(_) | Component::WeekdayLong(_) => Kind::Weekday,
        Component::WeekdaySunday(_) | Component::WeekdayMonday(_) => Kind::Weekday,
        Component::WeekNumberIso(_) => Kind::IsoWeek,
        Component::WeekNumberSunday(_) => Kind::SundayWeek,
        Component::WeekNumberMonday(_) => Kind::MondayWeek,
        Component::Hour24(_) => Kind::Hour,
        Component::Hour12(_) => Kind::HourOfHalf,
        Component::Period(_) => Kind::Half,
        Component::OffsetHour(_) => Kind::OffsetHour,
        Component::UnixTimestampSecond(_) | Component::UnixTimestampMillisecond(_) => Kind::Count,
        Component::UnixTimestampMicrosecond(_) => Kind::Count,
        Component::UnixTimestampNanosecond(_) => Kind::Count,
        Component::Minute(_) | Component::Second(_) | Component::Subsecond(_) => Kind::Other,
        Component::OffsetMinute(_) | Component::OffsetSecond(_) => Kind::Other,
        Component::Ignore(_) | Component::End(_) => Kind::Other,
    }
}

// Whether the step is a component of that kind.
fn step_has(step: Step, kind: Kind) -> bool
    ensures { result ≡ step_has kind step }
{
    match step {
        Step::Component(component) => kind_of(component).is(kind),
        Step::Literal(_) | Step::More(_) | Step::Group(..) => false,
    }
}

// Whether some component of the steps, even an optional one or one of a choice, is of that kind.
fn has_kind(steps: &[Step], kind: Kind) -> bool
    ensures { result ≡ spec.has_kind kind (steps_shape steps.now) }
{
    steps.iter().any(|step| step_has(*step, kind))
}

// Whether each text of these items in sequence has the part: at least one item always has it.
#[cycle(always)]
fn one_always(steps: &[Step], part: Part) -> bool
    ensures { result ≡ spec.one_always part (steps_trees steps.now) }
{
    let [step, behind @ ..] = steps else {
        return false;
    };
    item_always(*step, behind, part) || one_always(steps_after(step, behind), part)
}

// Whether each text of every item has the part; true if there is no item.
#[cycle(always)]
fn each_always(steps: &[Step], part: Part) -> bool
    ensures { result ≡ spec.each_always part (steps_trees steps.now) }
{
    let [step, behind @ ..] = steps else {
        return true;
    };
    item_always(*step, behind, part) && each_always(steps_after(step, behind), part)
}

// Whether each text of the item that the step starts has the part. Steps of `behind` may belong to that item.
#[cycle(always)]
fn item_always(step: Step, behind: &[Step], part: Part) -> bool
    ensures { result ≡ spec.always part (tree_at steps_trees step behind.now) }
{
    match step {
        Step::Literal(_) | Step::More(_) => false,
        Step::Component(component) => kind_of(component).is_of(part),
        Step::Group(group, len) => {
            let (inside, _) = behind.split_at(len.min(behind.len()));
            group_always(group, inside, part)
        }
    }
}

// Whether each text of a group of these steps has the part; false if the group is optional or an empty choice.
#[cycle(always)]
fn group_always(group: Group, inside: &[Step], part: Part) -> bool
    ensures { result ≡ spec.always part (group_tree group (steps_trees inside.now)) }
{
    match group {
        Group::Optional => false,
        Group::List => one_always(inside, part),
        Group::First => !inside.is_empty() && each_always(inside, part),
    }
}

// Whether the steps have the components, even optional ones, of a day of a year: the day of the year, or month and day,
// or a weekday and the number of a week that starts on Sunday or Monday.
fn has_day(steps: &[Step]) -> bool
    ensures { result ≡ spec.has_day (steps_shape steps.now) }
{
    has_kind(steps, Kind::Ordinal)
        || (has_kind(steps, Kind::Month) && has_kind(steps, Kind::Day))
        || (has_kind(steps, Kind::Weekday)
            && (has_kind(steps, Kind::SundayWeek) || has_kind(steps, Kind::MondayWeek)))
}

// Whether the steps have the components, even optional ones, of a day of an ISO 8601 week year: week and weekday.
fn has_iso_day(steps: &[Step]) -> bool
    ensures { result ≡ spec.has_iso_day (steps_shape steps.now) }
{
    has_kind(steps, Kind::IsoWeek) && has_kind(steps, Kind::Weekday)
}

// Whether the steps have the components, even optional ones, of a whole year: it, or its century and last two digits.
fn has_whole_year(steps: &[Step]) -> bool
    ensures { result ≡ spec.has_whole_year (steps_shape steps.now) }
{
    has_kind(steps, Kind::Year)
        || (has_kind(steps, Kind::YearCentury) && has_kind(steps, Kind::YearLastTwo))
}

// Whether the steps have a whole ISO 8601 week year, even in optional components: it, or century and last two digits.
fn has_whole_iso_year(steps: &[Step]) -> bool
    ensures { result ≡ spec.has_whole_iso_year (steps_shape steps.now) }
{
    has_kind(steps, Kind::IsoYear)
        || (has_kind(steps, Kind::IsoYearCentury) && has_kind(steps, Kind::IsoYearLastTwo))
}

// Whether the steps have the components of a day and its year. If `has_year` is true, and some text may have no part of
// any year, neither calendar year nor ISO 8601 week year, a default year counts as the whole calendar year.
fn has_full_date(steps: &[Step], has_year: bool) -> bool
    ensures { result ≡ spec.has_full_date has_year (steps_shape steps.now) }
{
    (has_day(steps) && (has_whole_year(steps) || (has_year && !one_always(steps, Part::Year))))
        || (has_iso_day(steps) && has_whole_iso_year(steps))
}

// The first of a day, its year, an hour and its half of the day for which the steps' components, even optional ones,
// don't suffice. `None` if there is none, or if they have a count from 1970. `has_year`: there is a default year.
fn missing_field_of(steps: &[Step], has_year: bool) -> Option<MissingField>
    ensures { result ≡ spec.missing_field_of has_year (steps_shape steps.now) }
{
    if has_kind(steps, Kind::Count) {
        None
    } else if !(has_day(steps) || has_iso_day(steps)) {
        Some(MissingField::Day)
    } else if !has_full_date(steps, true) {
        Some(MissingField::WholeYear)
    } else if !has_full_date(steps, has_year) {
        Some(MissingField::Year)
    } else if !(has_kind(steps, Kind::Hour) || has_kind(steps, Kind::HourOfHalf)) {
        Some(MissingField::Hour)
    } else if !(has_kind(steps, Kind::Hour) || has_kind(steps, Kind::Half)) {
        Some(MissingField::Half)
    } else {
        None
    }
}

impl Reading {
    /// The first of a day, its year, an hour and its half of the day for which the format's components, even optional
    /// ones, don't suffice, so that no text is a moment. `None` if there is none, and for RFC 3339, RFC 9557, RFC 2822,
    /// ISO 8601 and descriptions with a count from 1970. `has_year` is true if the defaults have a `year` or a
    /// `latest`: a year for texts without any part of one; it counts even for `Complete`, which uses no defaults.
    pub fn missing_field(&self, has_year: bool) -> Option<MissingField>
        ensures { result ≡ spec.format_missing_field has_year self.now }
    {
        match self {
            Reading::Rfc3339 | Reading::Zoned(_) | Reading::Rfc2822 => None,
            Reading::Iso8601 => None,
            Reading::Described(description) => missing_field_of(description.steps(), has_year),
            Reading::Complete(description) => missing_field_of(description.steps(), has_year),
            Reading::Counted(description) => missing_field_of(description.steps(), has_year),
        }
    }

    /// Whether the format uses defaults and some text may omit that part; if false, a default for it has no effect.
    /// False for RFC 3339, RFC 9557, RFC 2822 and `Complete`, and for the year of ISO 8601, as its dates have one.
    pub fn can_default(&self, part: Part) -> bool
        ensures { result ≡ spec.can_default part self.now }
    {
        match self {
            Reading::Rfc3339 | Reading::Zoned(_) => false,
            Reading::Rfc2822 | Reading::Complete(_) => false,
            Reading::Iso8601 => matches!(part, Part::Offset),
            Reading::Described(description) => !one_always(description.steps(), part),
            Reading::Counted(description) => !one_always(description.steps(), part),
        }
    }
}
