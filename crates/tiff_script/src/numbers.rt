//! Words that are whole numbers.

ghost use Rattle.std.specs.Prelude.{◌≡◌, ◌≤◌};
ghost use Rattle.tiff_script.specs.Numbers.{magnitude, number, signed};

/// The number that digits are, of 64 bits at most, without a sign.
pub fn number(digits: &str, radix: u32) -> Option<u64>
    requires lower { 2 ≤ radix }
    requires upper { radix ≤ 36 }
    ensures { result ≡ number radix digits.now }
{
    if digits.starts_with('+') {
        return None;
    }
    u64::from_str_radix(digits, radix).ok()
}

/// The number that digits are, without a sign: decimal, or hexadecimal behind `0x`. `None` for any
/// other word, and for a number of more than 64 bits.
pub fn magnitude(word: &str) -> Option<u64>
    ensures { result ≡ magnitude word.now }
{
    match word.strip_prefix("0x") {
        Some(digits) => number(digits, 16),
        None => number(word, 10),
    }
}

/// The number that digits are, behind `-` if it is negative. `None` for any other word, and for a
/// number that no `i64` has.
pub fn signed(word: &str) -> Option<i64>
    ensures { result ≡ signed 64 word.now }
{
    match word.strip_prefix("-") {
        None => i64::try_from(magnitude(word)?).ok(),
        Some(word) => 0i64.checked_sub_unsigned(magnitude(word)?),
    }
}
