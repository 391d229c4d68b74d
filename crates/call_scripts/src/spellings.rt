//! The words that a script's lines are made of, one by one.

ghost use Rattle.std.specs.Prelude.{◌≡◌, ◌≤◌, ◌<◌, ◌^◌, ◌||◌, ◌&&◌, not, length, IfSome};
ghost use Rattle.std.specs.List.{list_all};
ghost use Rattle.std.specs.Char.{is_ascii_digit};
ghost use Rattle.std.specs.Str.Parse.{starts_with_minus};
ghost use Rattle.call_scripts.specs.Spellings as spell;
ghost use Rattle.line_words.specs.Words.{Gives};
ghost use Rattle.call_scripts.specs.Reading.{bytes_of, decimal_of, digits_of, iid_of, name_of, number_of};

use hex::FromHexError;
use line_words::{Unread, after};
use std::alloc::Global;
use uuid::Uuid;
use xp_base::{Bytes, dec_read, hex_read};

/// Whether the word is a name: 1 to 255 letters, digits and `_`, of which the first is no digit.
pub(crate) fn is_name(word: &[u8]) -> bool
    ensures { result ≡ spell.is_name word.now }
{
    !word.is_empty() && word.len() <= 255 && are_name_bytes(word) && !word[0].is_ascii_digit()
}

fn are_name_bytes(word: &[u8]) -> bool
    ensures { result ≡ list_all spell.is_name_byte word.now }
{
    word.iter().all(|b| is_name_byte(*b))
}

fn is_name_byte(b: u8) -> bool
    ensures { result ≡ spell.is_name_byte b }
{
    b.is_ascii_lowercase() || b.is_ascii_uppercase() || b.is_ascii_digit() || b == b'_'
}

/// The name that the word is.
#[tactic(auto, unfolding(crate::specs::Reading::name_of))]
pub(crate) fn name(alloc: Global, word: &[u8]) -> Result<Bytes, Unread>
    ensures { Gives result (name_of word.now) }
{
    if is_name(word) {
        Ok(Bytes::copy(alloc, word)?)
    } else {
        Err(Unread::NoReading)
    }
}

/// The bytes that an even number of hexadecimal digits spell, at least two of them.
#[tactic(auto, unfolding(crate::specs::Reading::bytes_of))]
pub(crate) fn bytes(alloc: Global, word: &[u8]) -> Result<Bytes, Unread>
    ensures { Gives result (bytes_of word.now) }
{
    if word.is_empty() {
        return Err(Unread::NoReading);
    }
    match hex::decode(alloc, word) {
        Ok(decoded) => Ok(Bytes::copy(alloc, decoded.as_slice())?),
        Err(FromHexError::OutOfMemory) => Err(Unread::NoMemory),
        Err(_) => Err(Unread::NoReading),
    }
}

/// The sixteen bytes of an IID, in the order of its text.
#[tactic(auto, unfolding(crate::specs::Reading::iid_of))]
pub(crate) fn iid(word: &[u8]) -> Option<[u8; 16]>
    ensures { result ≡ iid_of word.now }
{
    if word.len() != 36 {
        return None;
    }
    match Uuid::try_parse_ascii(word) {
        Ok(iid) => Some(*iid.as_bytes()),
        Err(_) => None,
    }
}

/// The number that 1 to `longest` decimal digits write. A sign is no digit.
pub(crate) fn digits(word: &[u8], longest: usize) -> Option<u128>
    requires { longest ≤ 20 }
    ensures value { result ≡ digits_of 10 longest word.now }
    ensures bound { IfSome result (λ n. n < 10 ^ longest) }
{
    if longest < word.len() {
        return None;
    }
    if has_minus(word) {
        return None;
    }
    Some(decimal(word)?.unsigned_abs())
}

fn has_minus(word: &[u8]) -> bool
    ensures { result ≡ starts_with_minus word.now }
{
    matches!(word, [b'-', ..])
}

fn decimal(word: &[u8]) -> Option<i128>
    ensures { result ≡ decimal_of word.now }
{
    dec_read(word)
}

/// The number that 1 to `longest` hexadecimal digits write.
pub(crate) fn hex_digits(word: &[u8], longest: usize) -> Option<u64>
    requires { longest ≤ 16 }
    ensures value { result ≡ digits_of 16 longest word.now }
    ensures bound { IfSome result (λ n. n < 16 ^ longest) }
{
    if longest < word.len() {
        return None;
    }
    hex_read(word)
}

/// The number that an optional `-` and 1 to 20 decimal digits, or `0x` and 1 to 16 hexadecimal
/// digits, write.
#[tactic(auto, unfolding(crate::specs::Reading::number_of))]
pub(crate) fn number(word: &[u8]) -> Option<i128>
    ensures { result ≡ number_of word.now }
{
    match after(word, b"0x") {
        Some(digits) => Some(i128::from(hex_digits(digits, 16)?)),
        None => decimal(word),
    }
}

/// A position: 1 to 3 decimal digits.
pub(crate) fn position(word: &[u8]) -> Option<u16>
    ensures { result ≡ digits_of 10 3 word.now }
{
    Some(digits(word, 3)? as u16)
}

/// An offset: 1 to 8 decimal digits.
pub(crate) fn offset(word: &[u8]) -> Option<u32>
    ensures { result ≡ digits_of 10 8 word.now }
{
    Some(digits(word, 8)? as u32)
}

/// A result: 1 to 8 hexadecimal digits.
pub(crate) fn status(word: &[u8]) -> Option<u32>
    ensures { result ≡ digits_of 16 8 word.now }
{
    Some(hex_digits(word, 8)? as u32)
}

/// Whether the word is a register's name: a lower-case letter, and lower-case letters and digits
/// after it.
pub(crate) fn is_register(word: &[u8]) -> bool
    ensures { result ≡ spell.is_register word.now }
{
    !word.is_empty() && word[0].is_ascii_lowercase() && are_register_bytes(word)
}

fn are_register_bytes(word: &[u8]) -> bool
    ensures { result ≡ list_all (λ b. spell.is_lower b || is_ascii_digit b) word.now }
{
    word.iter()
        .all(|b| b.is_ascii_lowercase() || b.is_ascii_digit())
}
