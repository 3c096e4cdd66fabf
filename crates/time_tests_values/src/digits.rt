//! Parsers of digits, signs and single bytes.
ghost use Rattle.std.specs.Prelude.{◌≤◌};

use time_digits::combinator::{
    any_digit, ascii_char, ascii_char_ignore_case, exactly_n_digits, exactly_n_digits_padded,
    n_to_m_digits, n_to_m_digits_padded, one_or_two_digits, sign,
};
use time_digits::{Integer, Padding, ParsedItem, Sign};

// The value at the start of a text, and the bytes after it.
fn found<T: Copy>(item: Option<ParsedItem<'_, T>>) -> Option<(T, &[u8])> {
    let ParsedItem(rest, value) = item?;
    Some((value, rest))
}

// Whether the result is the value with that rest.
fn reads<T: PartialEq + Copy>(answer: Option<ParsedItem<'_, T>>, value: T, rest: &[u8]) -> bool {
    match answer {
        Some(found) => found.1 == value && found.0 == rest,
        None => false,
    }
}

// Checks one to three digits of a number that fits one byte.
fn reads_as_many_as_fit() -> bool {
    reads(n_to_m_digits::<1, 3, u8>(b"255x"), 255, b"x")
        && n_to_m_digits::<1, 3, u8>(b"256").is_none()
        && reads(n_to_m_digits::<1, 3, u8>(b"0256"), 25, b"6")
}

// Checks four to six digits, whose first may be spaces.
fn reads_behind_spaces() -> bool {
    let space = Padding::Space;
    reads(
        n_to_m_digits_padded::<4, 6, u32>(b"  12345", space),
        1234,
        b"5",
    ) && n_to_m_digits_padded::<4, 6, u32>(b"    1", space).is_none()
}

// Texts, their padding, and their number of two digits.
static PADDED: [(&[u8], Padding, Option<(u8, &[u8])>); 3] = [
    (b" 7", Padding::Space, Some((7, b""))),
    (b"7x", Padding::None, Some((7, b"x"))),
    (b"7x", Padding::Zero, None),
];

#[test]
fn digits_and_record(rt: HostRuntime) {
    assert!(rt; reads_as_many_as_fit());
    assert!(rt; reads_behind_spaces());
    for (input, padding, expected) in &PADDED {
        assert!(rt; found(exactly_n_digits_padded::<2, u8>(input, *padding)) == *expected);
    }
    assert!(rt; reads(exactly_n_digits::<9>(b"9999999990"), 999_999_999, b"0"));
    assert!(rt; exactly_n_digits::<9>(b"/234567891").is_none());
}

// Whether a sign is parsed, with that rest.
fn reads_sign(input: &[u8], negative: bool, rest: &[u8]) -> bool {
    match sign(input) {
        Some(found) => matches!(found.1, Sign::Negative) == negative && found.0 == rest,
        None => false,
    }
}

#[test]
fn signs(rt: HostRuntime) {
    assert!(rt; reads_sign(b"-1", true, b"1") && reads_sign(b"+1", false, b"1"));
    assert!(rt; sign(b"1").is_none());
}

// Checks a letter in its own case, and in either case.
fn reads_letters() -> bool {
    reads(ascii_char::<b'T'>(b"T:"), (), b":")
        && ascii_char::<b'T'>(b"t:").is_none()
        && reads(ascii_char_ignore_case::<b'T'>(b"t:"), (), b":")
        && reads(ascii_char_ignore_case::<b't'>(b"T:"), (), b":")
        && ascii_char_ignore_case::<b'@'>(b"`").is_none()
}

#[test]
fn single_bytes(rt: HostRuntime) {
    assert!(rt; reads(any_digit(b"07"), b'0', b"7"));
    for text in [b"/", b":"] {
        assert!(rt; any_digit(text).is_none());
    }
    assert!(rt; reads_letters());
}

#[test]
fn one_digit_or_two(rt: HostRuntime) {
    assert!(rt; reads(one_or_two_digits(b"7x"), 7, b"x"));
    assert!(rt; reads(one_or_two_digits(b"123"), 12, b"3"));
    assert!(rt; one_or_two_digits(b"").is_none());
}

// The number with one more digit, if it fits.
fn pushed<T: Integer>(number: T, digit: u8) -> Option<T>
    requires { digit ≤ 9 }
{
    number.checked_push_digit(digit)
}

// Whether the greatest number's first digits accept its last digit, and none above it.
fn accepts_last_digit<T: Integer + PartialEq + Copy>(first: T, greatest: T) -> bool {
    pushed(first, 5) == Some(greatest) && pushed(first, 6).is_none()
}

#[test]
fn greatest_numbers(rt: HostRuntime) {
    assert!(rt; accepts_last_digit(25u8, 255));
    assert!(rt; accepts_last_digit(6_553u16, 65_535));
    assert!(rt; accepts_last_digit(429_496_729u32, u32::MAX));
    assert!(rt; accepts_last_digit(u128::MAX / 10, u128::MAX));
    assert!(rt; reads(n_to_m_digits::<5, 5, u16>(b"65535"), 65_535, b""));
    assert!(rt; n_to_m_digits::<5, 5, u16>(b"65536").is_none());
}

// Runs of an exact number of digits, with each byte at each place.
mod word_digits {
    use super::found;
    use time_digits::combinator::exactly_n_digits;

    // The number of the digits, or nothing if a byte is not a digit.
    fn number(digits: &[u8]) -> Option<u32> {
        let mut number = 0_u32;
        for digit in digits {
            if !digit.is_ascii_digit() {
                return None;
            }
            number = number
                .wrapping_mul(10)
                .wrapping_add(u32::from(digit.wrapping_sub(b'0')));
        }
        Some(number)
    }

    // The number of the first `len` digits, and the rest after them.
    fn number_in_front(input: &[u8], len: u8) -> Option<(u32, &[u8])> {
        let (first, rest) = input.split_at_checked(usize::from(len))?;
        Some((number(first)?, rest))
    }

    // Whether `N` digits are parsed as their number, and other bytes are rejected.
    fn is_right<const N: u8>(input: &[u8]) -> bool
        requires least { 1 ≤ N }
        requires most { N ≤ 9 }
    {
        found(exactly_n_digits::<N>(input)) == number_in_front(input, N)
    }

    // Eleven digits, with one replaced by another byte.
    fn changed(place: u8, byte: u8) -> [u8; 11] {
        let mut bytes = *b"98765432109";
        if let Some(it) = bytes.get_mut(usize::from(place)) {
            *it = byte;
        }
        bytes
    }

    // Checks each byte at each place, with more bytes after the digits and without, and each shorter input.
    fn is_right_everywhere<const N: u8>() -> bool
        requires least { 1 ≤ N }
        requires most { N ≤ 9 }
    {
        for place in 0..N {
            for byte in 0..=u8::MAX {
                let bytes = changed(place, byte);
                let (whole, _) = bytes.split_at(usize::from(N));
                let (short, _) = bytes.split_at(usize::from(place));
                if !(is_right::<N>(&bytes) && is_right::<N>(whole) && is_right::<N>(short)) {
                    return false;
                }
            }
        }
        true
    }

    #[test]
    fn word_digits(rt: HostRuntime) {
        assert!(rt; is_right_everywhere::<4>());
        assert!(rt; is_right_everywhere::<5>());
        assert!(rt; is_right_everywhere::<6>());
        assert!(rt; is_right_everywhere::<7>());
        assert!(rt; is_right_everywhere::<8>());
        assert!(rt; is_right_everywhere::<9>());
    }
}
