//! The bytes that the texts of a format may start with.
ghost use Rattle.std.specs.Prelude.{◌≡◌, ◌≤◌, ◌∷◌, ℕ, false};
ghost use Rattle.std.specs.Char.{is_ascii_digit};
ghost use Rattle.restamp_lines.specs.Begins as begins;

use restamp_formats::Reading;
use time_components::{Component, Padding, Step};

// A set of bytes that texts may start with: the ASCII digits, and those of the fields that are `true`.
#[derive(Clone, Copy)]
pub(super) struct Firsts {
    // `+` and `-`.
    signs: bool,
    // The first bytes of mail dates: white space, `(` and the first letters of weekdays.
    mail: bool,
    // All bytes.
    others: bool,
}

// The ASCII digits.
const DIGITS: Firsts = Firsts {
    signs: false,
    mail: false,
    others: false,
};

// The ASCII digits, `+` and `-`.
const NUMBERS: Firsts = Firsts {
    signs: true,
    mail: false,
    others: false,
};

// The first bytes of mail dates: ASCII digits, white space, `(` and the first letters of weekdays.
const MAIL: Firsts = Firsts {
    signs: false,
    mail: true,
    others: false,
};

// All bytes.
const ALL: Firsts = Firsts {
    signs: true,
    mail: false,
    others: true,
};

// `firsts`, or all bytes if spaces pad the text.
#[inline(always)]
fn padded(padding: Padding, firsts: Firsts) -> Firsts
    ensures { result ≡ begins.padded padding firsts }
{
    match padding {
        Padding::Space => ALL,
        Padding::Zero | Padding::None => firsts,
    }
}

// The bytes that a component's text may start with; all bytes for a component without a rule of its own.
#[inline(always)]
fn component_firsts(component: Component) -> Firsts
    ensures { result ≡ begins.component_firsts component }
{
    match component {
        Component::Day(day) => padded(day.padding, DIGITS),
        Component::MonthNumerical(month) => padded(month.padding, DIGITS),
        Component::Hour24(hour) => padded(hour.padding, DIGITS),
        Component::CalendarYearFullExtendedRange(year) => padded(year.padding, NUMBERS),
        Component::CalendarYearFullStandardRange(year) => padded(year.padding, NUMBERS),
        Component::UnixTimestampSecond(_) | Component::UnixTimestampMillisecond(_) => NUMBERS,
        Component::UnixTimestampMicrosecond(_) | Component::UnixTimestampNanosecond(_) => NUMBERS,
        _ => ALL,
    }
}

// The bytes that a description's text may start with, by its first step; all bytes unless that is a component.
#[inline(always)]
pub(super) fn steps_firsts(steps: &[Step]) -> Firsts
    ensures { result ≡ begins.steps_firsts steps.now }
{
    if steps.is_empty() {
        return ALL;
    }
    match steps[0] {
        Step::Component(component) => component_firsts(component),
        Step::Literal(_) | Step::More(_) | Step::Group(..) => ALL,
    }
}

// The bytes that a format's text may start with.
#[inline(always)]
fn format_firsts(reading: &Reading) -> Firsts
    ensures { result ≡ begins.format_firsts reading.now }
{
    match reading {
        Reading::Rfc3339 | Reading::Zoned(_) => DIGITS,
        Reading::Rfc2822 => MAIL,
        Reading::Iso8601 => ALL,
        Reading::Described(description)
        | Reading::Complete(description)
        | Reading::Counted(description) => steps_firsts(description.steps()),
    }
}

/// The bytes that the texts of any of the formats may start with.
#[inline(always)]
pub(super) fn all_firsts(first: &Reading, others: &[Reading]) -> Firsts
    ensures { (x : ℕ) → begins.is_in result x ≡ false → begins.IsInNone x (first.now ∷ others.now) }
{
    let mut firsts = format_firsts(first);
    for reading in others {
        let more = format_firsts(reading);
        firsts.signs |= more.signs;
        firsts.mail |= more.mail;
        firsts.others |= more.others;
    }
    firsts
}

// Whether the byte is an ASCII digit.
#[inline(always)]
pub(super) fn is_digit(byte: u8) -> bool
    ensures { result ≡ is_ascii_digit byte }
{
    (b'0' <= byte) & (byte <= b'9')
}

// Whether white space or a comment of a mail date may start with the byte: a space, a tab, CR or `(`.
#[inline(always)]
pub(super) fn is_gap(byte: u8) -> bool
    ensures { result ≡ begins.is_gap byte }
{
    (byte == b' ') | (byte == b'\t') | (byte == b'\r') | (byte == b'(')
}

// Whether the byte is this ASCII letter in lower or upper case. `letter` is given in lower case.
#[inline(always)]
fn is_letter(byte: u8, letter: u8) -> bool
    requires { 97 ≤ letter }
    ensures { result ≡ begins.is_letter byte letter }
{
    (byte == letter) | (byte == letter - 32)
}

// Whether the English name of a weekday may start with the byte, in either case.
#[inline(always)]
pub(super) fn is_weekday(byte: u8) -> bool
    ensures { result ≡ begins.is_weekday byte }
{
    is_letter(byte, b'm')
        | is_letter(byte, b't')
        | is_letter(byte, b'w')
        | is_letter(byte, b'f')
        | is_letter(byte, b's')
}

// Whether the byte may be the second letter of a weekday's English name, in either case.
#[inline(always)]
pub(super) fn is_weekday_second(byte: u8) -> bool
    ensures { result ≡ begins.is_weekday_second byte }
{
    is_letter(byte, b'o')
        | is_letter(byte, b'u')
        | is_letter(byte, b'e')
        | is_letter(byte, b'h')
        | is_letter(byte, b'r')
        | is_letter(byte, b'a')
}

// Whether the byte is in the set `firsts`.
#[inline(always)]
pub(super) fn is_in(firsts: Firsts, byte: u8) -> bool
    ensures { result ≡ begins.is_in firsts byte }
{
    is_digit(byte)
        | (firsts.signs & ((byte == b'+') | (byte == b'-')))
        | (firsts.mail & (is_gap(byte) | is_weekday(byte)))
        | firsts.others
}
