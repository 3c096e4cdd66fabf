//! The meanings of strftime's letters.
ghost use Rattle.std.specs.Prelude.{◌≡◌};
ghost use Rattle.time_descriptions.specs.Items.{Finds};
ghost use Rattle.time_descriptions.specs.Strftime as letters;
ghost use Rattle.time_descriptions.specs.Strftime.{row_of};

use crate::leaf::Step;
use crate::modifiers::component;
use time_components::{Component, Padding, SubsecondDigits};

// A letter, and its component, given by the component's name and modifiers.
macro_rules! row {
    ($letter:literal, $($component:tt)*) => {
        ($letter, component!($($component)*))
    };
}

// The strftime letters that mean one component each.
const COMPONENTS: [(u8, Component); 30] = [
    row!(b'a', WeekdayShort, case_sensitive: true),
    row!(b'A', WeekdayLong, case_sensitive: true),
    row!(b'b', MonthShort, case_sensitive: true),
    row!(b'h', MonthShort, case_sensitive: true),
    row!(b'B', MonthLong, case_sensitive: true),
    row!(b'C', CalendarYearCenturyExtendedRange, padding: Padding::Zero, sign_is_mandatory: false),
    row!(b'g', IsoYearLastTwo, padding: Padding::Zero),
    row!(b'G', IsoYearFullExtendedRange, padding: Padding::Zero, sign_is_mandatory: false),
    row!(b'y', CalendarYearLastTwo, padding: Padding::Zero),
    row!(b'Y', CalendarYearFullExtendedRange, padding: Padding::Zero, sign_is_mandatory: false),
    row!(b'd', Day, padding: Padding::Zero),
    row!(b'e', Day, padding: Padding::Space),
    row!(b'j', Ordinal, padding: Padding::Zero),
    row!(b'H', Hour24, padding: Padding::Zero),
    row!(b'k', Hour24, padding: Padding::Space),
    row!(b'I', Hour12, padding: Padding::Zero),
    row!(b'l', Hour12, padding: Padding::Space),
    row!(b'm', MonthNumerical, padding: Padding::Zero),
    row!(b'M', Minute, padding: Padding::Zero),
    row!(b'S', Second, padding: Padding::Zero),
    row!(b'f', Subsecond, digits: SubsecondDigits::OneOrMore),
    row!(b'N', Subsecond, digits: SubsecondDigits::Nine),
    row!(b'p', Period, is_uppercase: true, case_sensitive: true),
    row!(b'P', Period, is_uppercase: false, case_sensitive: true),
    row!(b's', UnixTimestampSecond, sign_is_mandatory: false),
    row!(b'u', WeekdayMonday, one_indexed: true),
    row!(b'w', WeekdaySunday, one_indexed: false),
    row!(b'U', WeekNumberSunday, padding: Padding::Zero),
    row!(b'V', WeekNumberIso, padding: Padding::Zero),
    row!(b'W', WeekNumberMonday, padding: Padding::Zero),
];

// The strftime letters, except `z`, that have a meaning but aren't in `COMPONENTS`, and the bytes that they abbreviate.
// A byte that is a letter in `COMPONENTS` means its component, and another byte is literal.
const SHORTHANDS: [(u8, &[u8]); 11] = [
    (b'D', b"m/d/y"),
    (b'x', b"m/d/y"),
    (b'F', b"Y-m-d"),
    (b'R', b"H:M"),
    (b'T', b"H:M:S"),
    (b'X', b"H:M:S"),
    (b'r', b"I:M:S p"),
    (b'c', b"a b e H:M:S Y"),
    (b'n', b"\n"),
    (b't', b"\t"),
    (b'%', b"%"),
];

/// A flag between the `%` and the letter of a conversion, such as the `-` of `%-d` or the `:` of `%:z`.
#[derive(Clone, Copy)]
pub enum Flag {
    /// The padding of a number: `-` for none, `_` for spaces, `0` for zeros.
    Padding(Padding),
    /// How many digits a fraction of a second has: `3`, `6` or `9`.
    Digits(SubsecondDigits),
    /// `.`: a fraction of a second after a point, or nothing.
    Point,
    /// `:`: a colon between the hours and the minutes of an offset.
    Colon,
}

// The flags by their bytes.
const FLAGS: [(u8, Flag); 8] = [
    (b'-', Flag::Padding(Padding::None)),
    (b'_', Flag::Padding(Padding::Space)),
    (b'0', Flag::Padding(Padding::Zero)),
    (b'3', Flag::Digits(SubsecondDigits::Three)),
    (b'6', Flag::Digits(SubsecondDigits::Six)),
    (b'9', Flag::Digits(SubsecondDigits::Nine)),
    (b'.', Flag::Point),
    (b':', Flag::Colon),
];

// The value of the first row with that letter. `None` if there is no such row.
fn row_of<V: Copy>(rows: &[(u8, V)], letter: u8) -> Option<V>
    ensures { result ≡ row_of rows.now letter }
{
    let mut left = rows;
    while let [first, others @ ..] = left {
        if first.0 == letter {
            return Some(first.1);
        }
        left = others;
    }
    None
}

/// The component that a strftime letter means. `None` for `z`, a shorthand such as `F`, and a letter without a meaning.
pub fn component_of_letter(letter: u8) -> Option<Component>
    ensures { result ≡ row_of letters.components letter }
{
    row_of(&COMPONENTS, letter)
}

/// The flag that the byte means: `-`, `_`, `0`, `3`, `6`, `9`, `.` or `:`. `None` for any other byte.
pub fn flag_of(byte: u8) -> Option<Flag>
    ensures { result ≡ row_of letters.flags byte }
{
    row_of(&FLAGS, byte)
}

/// The bytes that a strftime letter abbreviates, such as `Y-m-d` for `F`; each byte that is a component's letter means
/// the component, and another byte is literal. `None` if the letter isn't a shorthand.
pub fn shorthand(letter: u8) -> Option<&'static [u8]>
    ensures { Finds (λ bytes. bytes.now) result (row_of letters.shorthands letter) }
{
    row_of(&SHORTHANDS, letter)
}

/// The step of a byte in a shorthand: the component that it means as a letter, or else the byte as a literal.
pub fn step_of_byte(byte: u8) -> Step
    ensures { result ≡ letters.step_of_byte byte }
{
    match component_of_letter(byte) {
        Some(component) => Step::Component(component),
        None => Step::Literal(byte),
    }
}
