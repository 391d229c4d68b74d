//! Arithmetic in the range of 64 bits with a sign.

ghost use Rattle.std.specs.Prelude.{◌≡◌, ◌<◌, ◌≤◌, ◌^◌, ◌*ℤ◌, pos};
ghost use Rattle.std.specs.Char.{digit_value};
ghost use Rattle.std.specs.Str.Parse.{digits_value};
ghost use Rattle.idl_meaning.specs.Constants as spec;

use xp_base::ConstKind;

/// The first number that has no value.
const LIMIT: u128 = 1 << 63;

/// The value of a digit of either case; 36 for any other byte.
fn digit(byte: u8) -> u8
    ensures value { result ≡ digit_value byte }
    ensures low { result ≤ 36 }
{
    match byte {
        b'0'..=b'9' => byte - b'0',
        b'A'..=b'Z' => byte - 55,
        b'a'..=b'z' => byte - 87,
        _ => 36,
    }
}

/// The number that digits write, where it is in range.
fn natural(digits: &[u8], radix: u8) -> Option<i64>
    requires least { 1 ≤ radix }
    requires most { radix ≤ 16 }
    ensures { result ≡ spec.ranged (pos (digits_value radix digits.now)) }
{
    let mut value = 0u128;
    for byte in digits {
        value = value * u128::from(radix) + u128::from(digit(*byte));
        if value >= LIMIT {
            return None;
        }
    }
    Some(value as i64)
}

/// The number that a spelling writes, where it is in range.
pub fn spelled(text: &[u8]) -> Option<i64>
    ensures { result ≡ spec.ranged (pos (spec.spelled text.now)) }
{
    match text {
        [_, b'x', digits @ ..] => natural(digits, 16),
        _ => natural(text, 10),
    }
}

/// How far is shifted, where that is 0 to 63.
fn shift_count(by: i64) -> Option<u32>
    ensures { result ≡ spec.shift_count by }
{
    if 0 <= by && by < 64 {
        Some(by as u32)
    } else {
        None
    }
}

/// A power of two.
fn power(by: u32) -> i64
    requires { by < 63 }
    ensures { result ≡ pos (2 ^ by) }
{
    let wide = 1u64 << by;
    wide as i64
}

/// The number times a power of two below 2^63.
fn times_power_below(left: i64, by: u32) -> Option<i64>
    requires { by < 63 }
    ensures { result ≡ spec.ranged (left *ℤ pos (2 ^ by)) }
{
    left.checked_mul(power(by))
}

/// The number times 2^63.
fn times_top(left: i64) -> Option<i64>
    ensures { result ≡ spec.ranged (left *ℤ pos (2 ^ 63)) }
{
    match left {
        0 => Some(0),
        -1 => Some(i64::MIN),
        _ => None,
    }
}

/// `<<`: the number times a power of two, where the shift and the product are in range.
pub fn shifted_left(left: i64, by: i64) -> Option<i64>
    ensures { result ≡ spec.shifted_left left by }
{
    let by = shift_count(by)?;
    if by < 63 {
        times_power_below(left, by)
    } else {
        times_top(left)
    }
}

/// `>>`: the number divided by a power of two, rounding down, where the shift is in range.
pub fn shifted_right(left: i64, by: i64) -> Option<i64>
    ensures { result ≡ spec.shifted_right left by }
{
    let by = shift_count(by)?;
    Some(left >> by)
}

/// `|`, on 64 bits in two's complement.
pub fn or_bits(left: i64, right: i64) -> i64
    ensures { result ≡ spec.or_bits left right }
{
    left | right
}

/// Whether the number is in the range of the kind.
pub fn in_range(kind: ConstKind, value: i64) -> bool
    ensures { result ≡ spec.in_range kind value }
{
    match kind {
        ConstKind::I16 => -32768 <= value && value < 32768,
        ConstKind::U16 => 0 <= value && value < 65536,
        ConstKind::I32 => -2147483648 <= value && value < 2147483648,
        ConstKind::U32 => 0 <= value && value < 4294967296,
    }
}
