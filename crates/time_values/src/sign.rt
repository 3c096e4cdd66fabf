//! Numbers with a sign.
ghost use Rattle.std.specs.Prelude.{◌≡◌, ◌≤◌, pos, unsigned_abs};
ghost use Rattle.time_values.specs.Sign.{signed_by};

/// The number, negated if `is_negative`. The number must be at most 127.
#[inline(always)]
pub fn signed(is_negative: bool, number: u8) -> i8
    requires { number ≤ 127 }
    ensures value { result ≡ signed_by is_negative (pos number) }
    ensures size { unsigned_abs result ≡ number }
{
    let number = number as i8;
    if is_negative { -number } else { number }
}
