//! The words of a header: names, and the types of arguments.

ghost use Rattle.std.specs.Prelude.{◌≡◌, ◌==◌};
ghost use Rattle.std.specs.List.{list_all};
ghost use Rattle.line_words.specs.Words.{Gives};
ghost use Rattle.header_model.specs.Words as words;
ghost use Rattle.header_reader.specs.Reading as reading;

use call_model::CType;
use header_model::{MAX_NAME, VALUE_TYPES, type_word};
use line_words::{Unread, cut_at};
use std::alloc::Global;
use xp_base::Bytes;

/// Whether the word is a name: 1 to 300 letters, digits and `_`, of which the first is no digit.
pub(crate) fn is_name(word: &[u8]) -> bool
    ensures { result ≡ words.is_name word.now }
{
    !word.is_empty() && word.len() <= MAX_NAME && are_name_bytes(word) && !word[0].is_ascii_digit()
}

fn are_name_bytes(word: &[u8]) -> bool
    ensures { result ≡ list_all words.is_name_byte word.now }
{
    word.iter().all(|b| is_name_byte(*b))
}

fn is_name_byte(b: u8) -> bool
    ensures { result ≡ words.is_name_byte b }
{
    b.is_ascii_lowercase() || b.is_ascii_uppercase() || b.is_ascii_digit() || b == b'_'
}

/// The name that the word is.
#[tactic(auto, unfolding(crate::specs::Reading::name_of))]
pub(crate) fn name(alloc: Global, word: &[u8]) -> Result<Bytes, Unread>
    ensures { Gives result (reading.name_of word.now) }
{
    if is_name(word) {
        Ok(Bytes::copy(alloc, word)?)
    } else {
        Err(Unread::NoReading)
    }
}

/// Whether the word is a name with `*` behind it, once or more, or with one `&`.
#[tactic(auto, unfolding(crate::specs::Reading::is_pointer))]
pub(crate) fn is_pointer(word: &[u8]) -> bool
    ensures { result ≡ reading.is_pointer word.now }
{
    if let Some((name, stars)) = cut_at(word, b'*') {
        return is_name(name) && are_stars(stars);
    }
    match cut_at(word, b'&') {
        Some((name, rest)) => is_name(name) && rest.is_empty(),
        None => false,
    }
}

fn are_stars(word: &[u8]) -> bool
    ensures { result ≡ list_all (λ b. b == 42) word.now }
{
    word.iter().all(|b| *b == b'*')
}

/// The type whose word it is.
#[tactic(auto, unfolding(crate::specs::Reading::value_of))]
fn value_type(word: &[u8]) -> Option<CType>
    ensures { result ≡ reading.value_of word.now }
{
    VALUE_TYPES
        .iter()
        .copied()
        .find(|ty| word == type_word(*ty))
}

/// The type that the word spells, without `const`.
#[tactic(auto, unfolding(crate::specs::Reading::type_of))]
pub(crate) fn type_of(word: &[u8]) -> Option<CType>
    ensures { result ≡ reading.type_of word.now }
{
    if is_pointer(word) {
        Some(CType::Ptr)
    } else {
        value_type(word)
    }
}
