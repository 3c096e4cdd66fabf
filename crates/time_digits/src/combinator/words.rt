//! Up to eight digits at once, in one machine word.
ghost use Rattle.std.specs.Prelude.{◌≡◌, ◌≤◌, ◌-◌, ◌++◌, MatchOption, length, replicate, take};
ghost use Rattle.std.specs.Int.{to_le_bytes, w64};
ghost use Rattle.time_digits.specs.Digits.{AllDigits, digits_value, Finds, IsDigitRun};
ghost use Rattle.time_digits.specs.Words.{first_bytes};

use crate::ParsedItem;
use crate::combinator::any_digit;

// Parses the first `N` digits, 4 to 8, in one machine word. Returns `None` if the input begins with fewer.
#[inline(always)]
pub(super) fn digits<const N: u8>(input: &[u8]) -> Option<ParsedItem<'_, u32>>
    requires least { 4 ≤ N }
    requires most { N ≤ 8 }
    ensures { Finds (IsDigitRun N N) (λ v. v) input.now result }
{
    let value = join_word(leading_word(input), N)?;
    Some(ParsedItem(&input[usize::from(N)..], value))
}

/// Parses the first nine ASCII digits, as their decimal value. Returns `None` if the input begins with fewer. Later
/// digits are left in the rest.
#[inline(always)]
pub fn nine_digits(input: &[u8]) -> Option<ParsedItem<'_, u32>>
    ensures { Finds (IsDigitRun 9 9) (λ v. v) input.now result }
{
    let eight = digits::<8>(input)?;
    let ninth = any_digit(eight.0)?;
    Some(ParsedItem(ninth.0, 10 * eight.1 + u32::from(ninth.1 - b'0')))
}

// The first eight bytes of the input in one word, the first byte lowest. A missing byte is 0, which isn't a digit.
#[inline(always)]
fn leading_word(input: &[u8]) -> u64
    ensures { to_le_bytes w64 result ≡ take 8 (input.now ++ replicate 8 0) }
{
    match input.first_chunk::<8>() {
        Some(first) => u64::from_le_bytes(*first),
        None => short_word(input),
    }
}

// At most eight bytes in one word, the first byte lowest, and zero bytes above. Not inlined, since most inputs have
// eight bytes.
#[cold]
#[inline(never)]
fn short_word(bytes: &[u8]) -> u64
    requires { length bytes.now ≤ 8 }
    ensures { to_le_bytes w64 result ≡ bytes.now ++ replicate (8 - length bytes.now) 0 }
{
    u64::from_le_bytes(with_zeros(bytes))
}

// The bytes, followed by zero bytes (not ASCII zeros) up to eight.
fn with_zeros(bytes: &[u8]) -> [u8; 8]
    requires { length bytes.now ≤ 8 }
    ensures { result ≡ bytes.now ++ replicate (8 - length bytes.now) 0 }
{
    let mut word = [0; 8];
    word[..bytes.len()].copy_from_slice(bytes);
    word
}

// The decimal value of the first `n` bytes of the word, the lowest byte first, or `None` if not all of them are digits.
#[inline(always)]
fn join_word(word: u64, n: u8) -> Option<u32>
    requires least { 4 ≤ n }
    requires most { n ≤ 8 }
    ensures { MatchOption result
        (¬ AllDigits (first_bytes word n))
        (λ value. AllDigits (first_bytes word n) × (value ≡ digits_value (first_bytes word n))) }
{
    let absent = 64 - 8 * u32::from(n);
    // Maps each digit to its value. A byte below `0` borrows from the next byte, but its own result exceeds 9.
    let values = word.wrapping_sub(0x3030_3030_3030_3030);
    // A value is below 10 if both it and its sum with 6 are below 16.
    let high = 0xf0f0_f0f0_f0f0_f0f0 >> absent;
    let are_digits = (values & high == 0)
        & (values.wrapping_add(0x0606_0606_0606_0606) & high == 0);
    if !are_digits {
        return None;
    }
    // Moves the last digit to the highest byte, which shifts out the bytes after it.
    let digits = values << absent;
    // The steps join two, then four, then eight digits.
    let pairs = (digits.wrapping_mul(2_561) >> 8) & 0x00ff_00ff_00ff_00ff;
    let fours = (pairs.wrapping_mul(6_553_601) >> 16) & 0x0000_ffff_0000_ffff;
    let value = (fours * 10_000 + (fours >> 32)) & 0xffff_ffff;
    Some(value as u32)
}

#[cfg(test)]
mod tests {
    //! Digits in one word, with every byte value at every place.
    use crate::combinator::words::join_word;

    const DIGITS: [u8; 8] = *b"98765432";

    // How many of `DIGITS`, from the first on, are joined, and their decimal value.
    const NUMBERS: [(u8, u32); 5] = [
        (4, 9_876),
        (5, 98_765),
        (6, 987_654),
        (7, 9_876_543),
        (8, 98_765_432),
    ];

    // The result of `join_word` for the first `n` bytes, or `None` if `n` isn't 4 to 8.
    fn joined(bytes: [u8; 8], n: u8) -> Option<u32> {
        match n {
            4..=8 => join_word(u64::from_le_bytes(bytes), n),
            _ => None,
        }
    }

    // The first `count` of `DIGITS`, and zero bytes (not ASCII zeros) after them.
    fn first_digits(count: u8) -> [u8; 8] {
        let mut bytes = DIGITS;
        for place in count..8 {
            if let Some(it) = bytes.get_mut(usize::from(place)) {
                *it = 0;
            }
        }
        bytes
    }

    // Whether `join_word` of `n` bytes rejects `DIGITS` shortened to `count` bytes, for every `count` below `n`.
    fn is_refused_short(n: u8) -> bool {
        let mut all_refused = true;
        for count in 0..n {
            all_refused = all_refused && joined(first_digits(count), n).is_none();
        }
        all_refused
    }

    // Whether `join_word` of `n` bytes that are digits elsewhere rejects every byte other than a digit at that place.
    fn is_refused_at(place: usize, n: u8) -> bool {
        let mut all_refused = true;
        for byte in 0..=u8::MAX {
            let mut bytes = DIGITS;
            if let Some(it) = bytes.get_mut(place) {
                *it = byte;
            }
            all_refused = all_refused && (byte.is_ascii_digit() || joined(bytes, n).is_none());
        }
        all_refused
    }

    // Whether `join_word` of `n` bytes rejects every byte other than a digit at each of the `n` places.
    fn is_refused(n: u8) -> bool {
        let mut all_refused = true;
        for place in 0..n {
            all_refused = all_refused && is_refused_at(usize::from(place), n);
        }
        all_refused
    }

    #[test]
    fn joined_words(rt: HostRuntime) {
        for (n, number) in NUMBERS {
            assert_eq!(rt; joined(DIGITS, n), Some(number));
            assert!(rt; is_refused(n));
            assert!(rt; is_refused_short(n));
        }
    }
}
