//! The unsigned integers that the digit parsers return.
ghost use Rattle.std.specs.Prelude.{◌≡◌, ℕ, ◌+◌, ◌-◌, ◌*◌, ◌^◌, ◌<◌, ◌≤◌, MatchOption, refl};
ghost use Rattle.std.proofs.Common.{rules};

/// An unsigned integer type that is built up digit by digit: `u8`, `u16`, `u32` or `u128`.
pub trait Integer: Sized {
    /// The number of digits of the type's greatest number.
    const MAX_NUM_DIGITS: u8;

    ghost MAX_NUM_DIGITS: { ℕ };

    /// Zero.
    const ZERO: Self;

    ghost ZERO: { Self };

    // The natural number that a value of the type represents.
    ghost value: { Self → ℕ };

    // The greatest number of the type.
    ghost greatest: { ℕ };

    /// Ten times the number plus the digit. The digit must be 0 to 9, and the result must fit the type.
    fn push_digit(self, digit: u8) -> Self
        requires one_digit { digit ≤ 9 }
        requires fits { 10 * value self + digit ≤ greatest }
        ensures { value result ≡ 10 * value self + digit };

    /// Ten times the number plus the digit, or `None` if that doesn't fit the type. The digit must be 0 to 9.
    fn checked_push_digit(self, digit: u8) -> Option<Self>
        requires { digit ≤ 9 }
        ensures { MatchOption result
            (greatest < 10 * value self + digit)
            (λ n. (value n ≡ 10 * value self + digit) × (10 * value self + digit ≤ greatest)) };

    ghost zero_value: { value ZERO ≡ 0 };

    // Each number with fewer than `MAX_NUM_DIGITS` digits fits the type.
    ghost room: { 10 ^ (MAX_NUM_DIGITS - 1) ≤ greatest };

    // No number of the type has more than `MAX_NUM_DIGITS` digits.
    ghost limit: { greatest < 10 ^ MAX_NUM_DIGITS };
}

impl Integer for u8 {
    const MAX_NUM_DIGITS: u8 = 3;

    ghost MAX_NUM_DIGITS = { 3 };

    const ZERO: Self = 0;

    ghost ZERO = { 0 };

    ghost value = { λ n. n };

    ghost greatest = { 255 };

    #[inline]
    fn push_digit(self, digit: u8) -> Self {
        self * 10 + digit
    }

    #[inline]
    fn checked_push_digit(self, digit: u8) -> Option<Self> {
        self.checked_mul(10)?.checked_add(digit)
    }

    ghost zero_value = { refl };

    ghost room = { Prim.search rules };

    ghost limit = { Prim.search rules };
}

impl Integer for u16 {
    const MAX_NUM_DIGITS: u8 = 5;

    ghost MAX_NUM_DIGITS = { 5 };

    const ZERO: Self = 0;

    ghost ZERO = { 0 };

    ghost value = { λ n. n };

    ghost greatest = { 65535 };

    #[inline]
    fn push_digit(self, digit: u8) -> Self {
        self * 10 + u16::from(digit)
    }

    #[inline]
    fn checked_push_digit(self, digit: u8) -> Option<Self> {
        self.checked_mul(10)?.checked_add(u16::from(digit))
    }

    ghost zero_value = { refl };

    ghost room = { Prim.search rules };

    ghost limit = { Prim.search rules };
}

impl Integer for u32 {
    const MAX_NUM_DIGITS: u8 = 10;

    ghost MAX_NUM_DIGITS = { 10 };

    const ZERO: Self = 0;

    ghost ZERO = { 0 };

    ghost value = { λ n. n };

    ghost greatest = { 4294967295 };

    #[inline]
    fn push_digit(self, digit: u8) -> Self {
        self * 10 + u32::from(digit)
    }

    #[inline]
    fn checked_push_digit(self, digit: u8) -> Option<Self> {
        self.checked_mul(10)?.checked_add(u32::from(digit))
    }

    ghost zero_value = { refl };

    ghost room = { Prim.search rules };

    ghost limit = { Prim.search rules };
}

impl Integer for u128 {
    const MAX_NUM_DIGITS: u8 = 39;

    ghost MAX_NUM_DIGITS = { 39 };

    const ZERO: Self = 0;

    ghost ZERO = { 0 };

    ghost value = { λ n. n };

    ghost greatest = { 340282366920938463463374607431768211455 };

    #[inline]
    fn push_digit(self, digit: u8) -> Self {
        self * 10 + u128::from(digit)
    }

    #[inline]
    fn checked_push_digit(self, digit: u8) -> Option<Self> {
        self.checked_mul(10)?.checked_add(u128::from(digit))
    }

    ghost zero_value = { refl };

    ghost room = { Prim.search rules };

    ghost limit = { Prim.search rules };
}
