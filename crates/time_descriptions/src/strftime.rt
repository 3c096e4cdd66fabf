//! Descriptions in strftime's syntax.
ghost use Rattle.std.specs.Prelude.{◌≡◌, ◌⊎◌, ◌+◌, ◌<◌, ◌≤◌, ◌==◌, ◌++◌, ◌∷◌, if◌then◌else◌, length, map, Some, None, IfOk, IfErr, OnOk};
ghost use Rattle.time_descriptions.specs.Components.{Returns};
ghost use Rattle.time_descriptions.specs.Description.{shape};
ghost use Rattle.time_descriptions.specs.Items.{flat, Finds};
ghost use Rattle.time_descriptions.specs.Strftime as letters;
ghost use Rattle.time_descriptions.specs.Parts.{Begins, HasSteps, part_items};
ghost use Rattle.time_descriptions.specs.Refusal.{refusal_of};
ghost use Rattle.time_descriptions.specs.Strftime.{DescribesStrftime, Exceeds, Fits, IsRefusedStrftime};
ghost use Rattle.time_descriptions.specs.declared.error.Fault.TheVariants as fault;

use crate::description::Description;
use crate::error::{Fault, InvalidFormatDescription, Unsupported};
use crate::items::push;
use crate::leaf::{Group, Step};
use crate::letters::{Flag, component_of_letter, flag_of, shorthand, step_of_byte};
use crate::modifiers::component;
use arrayvec::ArrayVec;
use time_components::{Component, Padding, SubsecondDigits};

/// The meaning of a literal byte or a conversion of a description in strftime's syntax.
#[derive(Clone, Copy)]
pub enum Part {
    /// A literal byte.
    Byte(u8),
    /// A component.
    Component(Component),
    /// The hours of an offset, with a sign, and the minutes.
    Offset,
    /// The hours of an offset, with a sign, a colon, and the minutes.
    ColonOffset,
    /// The fraction of a second after a point, or nothing.
    PointedFraction,
    /// The meanings of the bytes that the letter abbreviates: of each byte the component that it means as a letter, or
    /// else the literal byte.
    Shorthand(u8),
}

// The hours of an offset: two digits after a sign, which is required.
const OFFSET_HOUR: Step = Step::Component(
    component!(OffsetHour, padding: Padding::Zero, sign_is_mandatory: true),
);

// The minutes of an offset, padded with zeros.
const OFFSET_MINUTE: Step = Step::Component(component!(OffsetMinute, padding: Padding::Zero));

// A fraction of a second of one or more digits.
const FRACTION: Step = Step::Component(component!(Subsecond, digits: SubsecondDigits::OneOrMore));

// The component with that padding instead of its own. `None` if it has no padding, or if no letter means a single
// component of its variant.
#[tactic(auto, unfolding(crate::specs::Strftime::with_padding))]
fn with_padding(padding: Padding, component: Component) -> Option<Component>
    ensures { result ≡ letters.with_padding padding component }
{
    let mut padded = component;
    match &mut padded {
        Component::Day(day) => day.padding = padding,
        Component::MonthNumerical(month) => month.padding = padding,
        Component::Ordinal(ordinal) => ordinal.padding = padding,
        Component::WeekNumberIso(week) => week.padding = padding,
        Component::WeekNumberSunday(week) => week.padding = padding,
        Component::WeekNumberMonday(week) => week.padding = padding,
        Component::CalendarYearFullExtendedRange(year) => year.padding = padding,
        Component::IsoYearFullExtendedRange(year) => year.padding = padding,
        Component::CalendarYearCenturyExtendedRange(century) => century.padding = padding,
        Component::CalendarYearLastTwo(year) => year.padding = padding,
        Component::IsoYearLastTwo(year) => year.padding = padding,
        Component::Hour12(hour) => hour.padding = padding,
        Component::Hour24(hour) => hour.padding = padding,
        Component::Minute(minute) => minute.padding = padding,
        Component::Second(second) => second.padding = padding,
        _ => return None,
    }
    Some(padded)
}

// The component of the letter with that padding instead of its own. `None` if the letter means no single component, or
// one without a padding.
fn padded(padding: Padding, letter: u8) -> Option<Component>
    ensures { result ≡ letters.padded padding letter }
{
    match component_of_letter(letter) {
        Some(component) => with_padding(padding, component),
        None => None,
    }
}

// The meaning of the letter without a flag. `None` if it has no meaning.
fn meaning(letter: u8) -> Option<Part>
    ensures { Finds part_items result (letters.meaning letter) }
{
    if letter == b'z' {
        return Some(Part::Offset);
    }
    match component_of_letter(letter) {
        Some(component) => Some(Part::Component(component)),
        None => match shorthand(letter) {
            Some(_) => Some(Part::Shorthand(letter)),
            None => None,
        },
    }
}

// The meaning of the letter without a flag. The error is `NotSupported` at the `%` for `E`, `O` and `Z`, and
// `InvalidComponentName` at the letter for any other letter without a meaning. `percent` counts the bytes from the `%`
// to the end of the text, and `left` those from the letter.
fn read_letter(percent: usize, left: usize, letter: u8) -> Result<Part, Fault>
    ensures { Returns part_items result (letters.letter_items percent left letter) }
{
    match meaning(letter) {
        Some(part) => Ok(part),
        None => Err(match letter {
            b'E' | b'O' | b'Z' => Fault::NotSupported {
                what: Unsupported::Conversion,
                left: percent,
            },
            _ => Fault::InvalidComponentName { left, len: 1 },
        }),
    }
}

// The part if the letter is `only`, and `None` for another letter.
fn for_letter(letter: u8, only: u8, part: Part) -> Option<Part>
    ensures { Finds part_items result (if letter == only then Some (part_items part) else None) }
{
    if letter == only { Some(part) } else { None }
}

// The meaning of the letter after the flag. `None` if the letter can't have the flag: a padding requires a component
// with a padding, digits and a point require `f`, and a colon requires `z`.
fn flagged_meaning(flag: Flag, letter: u8) -> Option<Part>
    ensures { Finds part_items result (letters.flagged_meaning flag letter) }
{
    match flag {
        Flag::Padding(padding) => match padded(padding, letter) {
            Some(component) => Some(Part::Component(component)),
            None => None,
        },
        Flag::Digits(digits) => {
            let fraction = component!(Subsecond, digits: digits);
            for_letter(letter, b'f', Part::Component(fraction))
        }
        Flag::Point => for_letter(letter, b'f', Part::PointedFraction),
        Flag::Colon => for_letter(letter, b'z', Part::ColonOffset),
    }
}

// The meaning of the letter at the start of the text, after a flag, and the text after the letter. The error is that of
// the letter if it has no meaning even without a flag (a missing one is `InvalidComponentName`), or `InvalidModifier`
// at the flag if the letter can't have it.
#[tactic(auto, unfolding(crate::specs::Strftime::flagged))]
fn read_flagged(flag: Flag, text: &[u8]) -> Result<(Part, &[u8]), Fault>
    ensures begins { Begins (letters.flagged flag text.now) result }
    ensures within { IfOk result (λ x. length x.1.now ≤ length text.now) }
{
    let [letter, rest @ ..] = text else {
        return Err(Fault::InvalidComponentName { left: 0, len: 0 });
    };
    let left = text.len();
    match read_letter(left + 2, left, *letter) {
        Err(fault) => Err(fault),
        Ok(_) => match flagged_meaning(flag, *letter) {
            Some(part) => Ok((part, rest)),
            None => Err(Fault::InvalidModifier {
                left: left + 1,
                len: 1,
            }),
        },
    }
}

// The meaning of the conversion whose `%` precedes the text, and the text after its letter. An empty text is the error
// `InvalidComponentName`.
#[tactic(auto, unfolding(crate::specs::Strftime::conversion))]
fn read_conversion(text: &[u8]) -> Result<(Part, &[u8]), Fault>
    ensures begins { Begins (letters.conversion text.now) result }
    ensures within { IfOk result (λ x. length x.1.now ≤ length text.now) }
{
    let [first, rest @ ..] = text else {
        return Err(Fault::InvalidComponentName { left: 0, len: 0 });
    };
    match flag_of(*first) {
        Some(flag) => read_flagged(flag, rest),
        None => match read_letter(text.len() + 1, text.len(), *first) {
            Err(fault) => Err(fault),
            Ok(part) => Ok((part, rest)),
        },
    }
}

// The literal byte `first` and all of `behind`; or if `first` is a `%`, the conversion at the start of `behind`, and
// the text after it.
#[tactic(auto, unfolding(crate::specs::Strftime::strftime))]
fn read_part(first: u8, behind: &[u8]) -> Result<(Part, &[u8]), Fault>
    ensures begins { Begins (letters.strftime (first ∷ behind.now)) result }
    ensures within { IfOk result (λ x. length x.1.now ≤ length behind.now) }
{
    if first == b'%' {
        read_conversion(behind)
    } else {
        Ok((Part::Byte(first), behind))
    }
}

// Appends the steps of a shorthand's bytes, one each. The error is `NoRoom` if not all fit; some may then have been
// appended.
fn push_shorthand<const N: usize>(steps: &mut ArrayVec<Step, N>, bytes: &[u8]) -> Result<(), Fault>
    ensures ok { OnOk result (steps.new.items ≡ steps.old.items ++ map letters.step_of_byte bytes.now) }
    ensures room { OnOk result (length steps.old.items ≤ N → length steps.new.items ≤ N) }
    ensures err { IfErr result (λ e. (e ≡ fault.NoRoom) × (N < length steps.old.items + length bytes.now)) }
{
    for byte in bytes {
        push(steps, step_of_byte(*byte))?;
    }
    Ok(())
}

// Appends steps in order. The error is `NoRoom` if not all fit; some may then have been appended.
fn push_all<const N: usize>(steps: &mut ArrayVec<Step, N>, added: &[Step]) -> Result<(), Fault>
    ensures ok { OnOk result (steps.new.items ≡ steps.old.items ++ added.now) }
    ensures room { OnOk result (length steps.old.items ≤ N → length steps.new.items ≤ N) }
    ensures err { IfErr result (λ e. (e ≡ fault.NoRoom) × (N < length steps.old.items + length added.now)) }
{
    for step in added {
        push(steps, *step)?;
    }
    Ok(())
}

// Appends the steps of a part. The error is `NoRoom` if not all fit; some may then have been appended.
fn push_part<const N: usize>(steps: &mut ArrayVec<Step, N>, part: Part) -> Result<(), Fault>
    ensures ok { OnOk result (steps.new.items ≡ steps.old.items ++ flat (part_items part)) }
    ensures room { OnOk result (length steps.old.items ≤ N → length steps.new.items ≤ N) }
    ensures err { IfErr result (λ e. (e ≡ fault.NoRoom)
        × (N < length steps.old.items + length (flat (part_items part)))) }
{
    match part {
        Part::Byte(byte) => push(steps, Step::Literal(byte)),
        Part::Component(component) => push(steps, Step::Component(component)),
        Part::Offset => push_all(steps, &[OFFSET_HOUR, OFFSET_MINUTE]),
        Part::ColonOffset => { push_all(steps, &[OFFSET_HOUR, Step::Literal(b':'), OFFSET_MINUTE]) }
        Part::PointedFraction => {
            let optional = Step::Group(Group::Optional, 2);
            push_all(steps, &[optional, Step::Literal(b'.'), FRACTION])
        }
        Part::Shorthand(letter) => match shorthand(letter) {
            Some(bytes) => push_shorthand(steps, bytes),
            None => Ok(()),
        },
    }
}

// The steps of the whole text. The error is `NoRoom` if the steps up to the first fault or the end don't fit, and
// otherwise the first fault.
fn read_steps<const N: usize>(text: &[u8]) -> Result<ArrayVec<Step, N>, Fault>
    ensures ok { IfOk result (λ steps. HasSteps text.now steps.items) }
    ensures fits { OnOk result (Fits N text.now) }
    ensures err { IfErr result (λ e. ((e ≡ fault.NoRoom) × Exceeds N text.now)
        ⊎ (((letters.strftime text.now).1 ≡ Some e) × Fits N text.now)) }
{
    let mut steps = ArrayVec::new();
    let mut rest = text;
    while let [first, behind @ ..] = rest {
        match read_part(*first, behind) {
            Err(fault) => return Err(fault),
            Ok((part, unread)) => {
                push_part(&mut steps, part)?;
                rest = unread;
            }
        }
    }
    Ok(steps)
}

/// Parses a description in strftime's syntax, such as `%Y-%m-%d`: literal bytes, and conversions, each a `%`, an
/// optional flag and a letter. The flags `-`, `_` and `0` select no padding, spaces or zeros, and may only precede a
/// letter that means a single component with a padding. An empty text is a description without steps.
///
/// Beside POSIX's letters, `%f` is a fraction of one or more digits, `%3f`, `%6f` and `%9f` have that many digits, and
/// `%.f` is a point and a fraction or nothing. `%k`, `%l`, `%N` (nine digits), `%P` and `%s` are as in GNU `date`, and
/// `%:z` is an offset with a colon. POSIX's `%E`, `%O` and `%Z` aren't supported.
///
/// # Errors
///
/// [`InvalidFormatDescription::TooLong`] if and only if the text, up to its first fault or its end, describes more than
/// `N` steps. Otherwise, the fault that parsing meets first, with its byte index in the text.
pub fn parse_strftime<const N: usize>(
    text: &[u8],
) -> Result<Description<N>, InvalidFormatDescription<'_>>
    ensures ok { IfOk result (λ d. DescribesStrftime text.now (shape d)) }
    ensures fits { OnOk result (Fits N text.now) }
    ensures err { IfErr result (λ e. IsRefusedStrftime N text.now (refusal_of e)) }
{
    match read_steps(text) {
        Ok(steps) => Ok(Description { steps }),
        Err(fault) => Err(InvalidFormatDescription::at(text, fault)),
    }
}
