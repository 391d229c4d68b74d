//! Numbers as words of decimal digits.

ghost use Rattle.std.specs.Prelude.{◌≡◌, ◌≤◌, IfSome};
ghost use Rattle.std.specs.Char.{is_digit};
ghost use Rattle.std.specs.List.{list_all};
ghost use Rattle.big_texts.specs.Numbers as numbers;

use xp_base::dec_read;

/// The greatest number of `big`: that many interfaces have the one before them as their parent.
const MOST: u128 = 249;

/// The most digits of a number.
const LONGEST: usize = 20;

/// The number of `big` that a word is: 1 to 249, in decimal with no leading zero; None for every
/// other word.
pub fn big_number(word: &[u8]) -> Option<u8>
    ensures value { result ≡ numbers.big_number word.now }
    ensures most { IfSome result (λ number. number ≤ 249) }
{
    if word.first() == Some(&b'0') {
        return None;
    }
    match number_of(word) {
        number @ 1..=MOST => Some(number as u8),
        _ => None,
    }
}

/// The number that a word of at most 20 decimal digits writes, and 0 for another word.
pub(crate) fn number_of(word: &[u8]) -> u128
    ensures { result ≡ numbers.number_of word.now }
{
    if word.len() > LONGEST || !are_digits(word) {
        return 0;
    }
    match dec_read(word) {
        Some(number) => number.unsigned_abs(),
        None => 0,
    }
}

/// Whether a word has decimal digits alone.
fn are_digits(word: &[u8]) -> bool
    ensures { result ≡ list_all (λ b. is_digit b 10) word.now }
{
    word.iter().all(|byte| char::from(*byte).is_digit(10))
}
