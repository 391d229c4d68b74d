ghost use Rattle.std.specs.Prelude.{◌≡◌, ◌≤◌, ◌<◌, ◌^◌, IfOk, IfSome, SomeIff, length};
ghost use Rattle.std.specs.Str.Parse.{digits_value};
ghost use Rattle.xp_base.specs.Digits.{IsNatural, IsHex, IsDecimal, hex_value, decimal_value, hex_digits, hex_digits_fixed, decimal_text};

use crate::byte_list::Bytes;
use crate::errors::Memory;
use std::alloc::Global;

/// The number that 1 to 16 hexadecimal digits of either case write. None exactly for every other
/// text.
pub fn hex_read(text: &[u8]) -> Option<u64>
    ensures { SomeIff result (IsHex text.now) (hex_value text.now) }
{
    let value = natural(text, 16, 16)?;
    Some(value as u64)
}

/// The number that an optional `-` and 1 to 20 decimal digits write. None exactly for every other
/// text.
pub fn dec_read(text: &[u8]) -> Option<i128>
    ensures { SomeIff result (IsDecimal text.now) (decimal_value text.now) }
{
    match text {
        [b'-', digits @ ..] => Some(-(natural(digits, 10, 20)? as i128)),
        _ => Some(natural(text, 10, 20)? as i128),
    }
}

/// The number that 1 to `longest` digits in `radix` write, the letters among them of either case.
fn natural(text: &[u8], radix: u32, longest: usize) -> Option<u128>
    requires least { 2 ≤ radix }
    requires most { radix ≤ 16 }
    requires short { longest ≤ 20 }
    ensures value { SomeIff result
        (IsNatural radix longest text.now)
        (digits_value radix text.now) }
    ensures bound { IfSome result (λ n. n < radix ^ longest) }
{
    if text.is_empty() || longest < text.len() {
        return None;
    }
    let mut value = 0u128;
    for byte in text {
        let digit = char::from(*byte).to_digit(radix)?;
        value = value * u128::from(radix) + u128::from(digit);
    }
    Some(value)
}

/// `value` in lower-case hexadecimal with zeros in front, so that the text has `digits` digits.
/// The one error is want of memory.
pub fn hex_fixed(alloc: Global, value: u64, digits: usize) -> Result<Bytes, Memory>
    requires least { 1 ≤ digits }
    requires most { digits ≤ 16 }
    requires fits { value < 16 ^ digits }
    ensures text { IfOk result (λ text. text ≡ hex_digits_fixed digits value) }
    ensures length { IfOk result (λ text. length text ≡ digits) }
{
    let shortest = hex_text(alloc, value)?;
    let zeros = [b'0'; 16];
    let leading = digits.saturating_sub(shortest.as_slice().len());
    let mut text = Bytes::copy(alloc, &zeros[..leading])?;
    text.append(shortest.as_slice())?;
    Ok(text)
}

/// `value` in lower-case hexadecimal with no leading zero; zero is `0`. The one error is want of
/// memory.
pub fn hex_text(alloc: Global, value: u64) -> Result<Bytes, Memory>
    ensures { IfOk result (λ text. text ≡ hex_digits value) }
{
    Bytes::copy(alloc, format!(in alloc; "{value:x}")?.as_bytes())
}

/// `value` in decimal: a `-` where it is negative, and no leading zero; zero is `0`. The one error
/// is want of memory.
pub fn dec_text(alloc: Global, value: i128) -> Result<Bytes, Memory>
    ensures { IfOk result (λ text. text ≡ decimal_text value) }
{
    Bytes::copy(alloc, format!(in alloc; "{value}")?.as_bytes())
}
