//! Decimal digits of numbers, and of a second's fraction.
ghost use Rattle.std.specs.Prelude.{◌≡◌, ◌<◌, ◌/◌, ◌+◌, ◌≤◌, ◌++◌, length};
ghost use Rattle.time_values.specs.DisplayTexts.{fixed, significant, fraction_display};

use crate::text::Text;

// The two ASCII digits of each number below 100, as one `u16` whose low byte is the first digit.
static PAIRS: [u16; 100] = [
    0x3030, 0x3130, 0x3230, 0x3330, 0x3430, 0x3530, 0x3630, 0x3730, 0x3830, 0x3930, 0x3031, 0x3131,
    0x3231, 0x3331, 0x3431, 0x3531, 0x3631, 0x3731, 0x3831, 0x3931, 0x3032, 0x3132, 0x3232, 0x3332,
    0x3432, 0x3532, 0x3632, 0x3732, 0x3832, 0x3932, 0x3033, 0x3133, 0x3233, 0x3333, 0x3433, 0x3533,
    0x3633, 0x3733, 0x3833, 0x3933, 0x3034, 0x3134, 0x3234, 0x3334, 0x3434, 0x3534, 0x3634, 0x3734,
    0x3834, 0x3934, 0x3035, 0x3135, 0x3235, 0x3335, 0x3435, 0x3535, 0x3635, 0x3735, 0x3835, 0x3935,
    0x3036, 0x3136, 0x3236, 0x3336, 0x3436, 0x3536, 0x3636, 0x3736, 0x3836, 0x3936, 0x3037, 0x3137,
    0x3237, 0x3337, 0x3437, 0x3537, 0x3637, 0x3737, 0x3837, 0x3937, 0x3038, 0x3138, 0x3238, 0x3338,
    0x3438, 0x3538, 0x3638, 0x3738, 0x3838, 0x3938, 0x3039, 0x3139, 0x3239, 0x3339, 0x3439, 0x3539,
    0x3639, 0x3739, 0x3839, 0x3939,
];

// They are loaded as one number, so that one instruction stores them.
//
/// The two ASCII digits of a number below 100, with a leading zero below 10.
#[inline(always)]
#[tactic(auto, using(crate::proofs::NumberLemmas::pairs_at), unfolding(crate::specs::DisplayTexts::fixed))]
pub fn pair(n: u8) -> [u8; 2]
    requires { n < 100 }
    ensures { result ≡ fixed 2 n }
{
    let digits = PAIRS[n as usize];
    [(digits % 256) as u8, (digits / 256) as u8]
}

// `n / 100` for `n` below 10000, by a multiplication and a shift. For a division by 100, LLVM would convert to 16 bits
// and back, since it knows the limit.
#[inline(always)]
fn hundreds(n: u32) -> u32
    requires { n < 10_000 }
    ensures { result ≡ n / 100 }
{
    n * 5243 / 524_288
}

/// The four ASCII digits of a number below 10000, with leading zeros.
#[inline(always)]
#[tactic(auto, unfolding(crate::specs::DisplayTexts::fixed))]
pub fn four(n: u32) -> [u8; 4]
    requires { n < 10_000 }
    ensures { result ≡ fixed 4 n }
{
    let hundreds = hundreds(n);
    let [a, b] = pair(hundreds as u8);
    let [c, d] = pair((n - 100 * hundreds) as u8);
    [a, b, c, d]
}

/// The nine ASCII digits of a number below 1000000000, with leading zeros.
#[inline(always)]
#[tactic(auto, unfolding(crate::specs::DisplayTexts::fixed))]
pub fn nine(n: u32) -> [u8; 9]
    requires { n < 1_000_000_000 }
    ensures { result ≡ fixed 9 n }
{
    let n1 = b'0' + (n / 100_000_000) as u8;
    let [n2, n3] = pair((n / 1_000_000 % 100) as u8);
    let [n4, n5] = pair((n / 10_000 % 100) as u8);
    let [n6, n7] = pair((n / 100 % 100) as u8);
    let [n8, n9] = pair((n % 100) as u8);
    [n1, n2, n3, n4, n5, n6, n7, n8, n9]
}

/// The five ASCII digits of a number below 100000, with leading zeros.
#[tactic(auto, unfolding(crate::specs::DisplayTexts::fixed))]
pub fn five(n: u32) -> [u8; 5]
    requires { n < 100_000 }
    ensures { result ≡ fixed 5 n }
{
    let [b, c, d, e] = four(n % 10_000);
    [b'0' + (n / 10_000) as u8, b, c, d, e]
}

/// The six ASCII digits of a number below 1000000, with leading zeros.
#[tactic(auto, unfolding(crate::specs::DisplayTexts::fixed))]
pub fn six(n: u32) -> [u8; 6]
    requires { n < 1_000_000 }
    ensures { result ≡ fixed 6 n }
{
    let [a, b] = pair((n / 10_000) as u8);
    let [c, d, e, f] = four(n % 10_000);
    [a, b, c, d, e, f]
}

// Removes groups of three zeros from the end of the nine digits of a nanosecond. Returns how many digits are left (0,
// 3, 6 or 9), and the number that they represent. For a nanosecond of 0, both are 0.
#[tactic(auto, using(crate::proofs::NumberLemmas::significant_thousand, crate::proofs::NumberLemmas::significant_million, crate::proofs::NumberLemmas::significant_nothing))]
fn without_thousands(nanosecond: u32) -> (usize, u32)
    ensures count { significant 9 nanosecond ≡ significant result.0 result.1 }
    ensures bound { result.0 ≤ 9 }
{
    if nanosecond == 0 {
        return (0, 0);
    }
    if nanosecond % 1_000_000 == 0 {
        return (3, nanosecond / 1_000_000);
    }
    if nanosecond % 1000 == 0 {
        return (6, nanosecond / 1000);
    }
    (9, nanosecond)
}

/// How many of the nine digits of a nanosecond are left after the zeros at the end are removed, 0 to 9.
pub fn count_significant(nanosecond: u32) -> usize
    ensures count { result ≡ significant 9 nanosecond }
    ensures bound { result ≤ 9 }
{
    let (mut count, mut n) = without_thousands(nanosecond);
    while count > 0 && n % 10 == 0 {
        n = n / 10;
        count -= 1;
    }
    count
}

/// Appends a point and the first `count` of the nine digits of a nanosecond, or nothing if `count` is 0. There must be
/// room for ten bytes.
#[inline(always)]
pub fn append_fraction(text: &mut Text, count: usize, nanosecond: u32)
    requires count { count ≤ 9 }
    requires nanosecond { nanosecond < 1_000_000_000 }
    requires room { length text.old.items ≤ 25 }
    ensures text { text.new.items ≡ text.old.items ++ fraction_display count nanosecond }
    ensures room { length text.new.items ≤ length text.old.items + 10 }
{
    if count == 0 {
        return;
    }
    let [a, b, c, d, e, f, g, h, i] = nine(nanosecond);
    text.append_some([b'.', a, b, c, d, e, f, g, h, i], count + 1);
}
