//! Readers of the spellings of tokens. Each gives what is left behind the longest spelling at the
//! front.

ghost use Rattle.std.specs.Prelude.{◌≡◌, IsTrue};
ghost use Rattle.std.specs.Option.{option_copied, option_map};
ghost use Rattle.idl_lexer.specs.Parts.{IsMadeOf};
ghost use Rattle.idl_lexer.specs.Reading as spec;
ghost use Rattle.idl_lexer.specs.Spelling.{decimal, hexadecimal, iid, include, native, language};

use crate::class::Class;
use crate::part::{
    after_any, after_counted, after_literal, after_short, after_some, after_word, is_key, is_name,
    split_run,
};
use crate::token::Kind;

#[tactic(auto, using(crate::proofs::Rules::bind), unfolding(crate::specs::Spelling::hexadecimal))]
fn after_hexadecimal(bytes: &[u8]) -> Option<&[u8]>
    ensures { option_copied result ≡ spec.after hexadecimal bytes.now }
{
    let digits = after_literal(bytes, b"0x")?;
    after_some(digits, Class::Hexadecimal)
}

#[tactic(auto, using(crate::proofs::Rules::bind), unfolding(crate::specs::Spelling::decimal))]
fn after_decimal(bytes: &[u8]) -> Option<&[u8]>
    ensures { option_copied result ≡ spec.after decimal bytes.now }
{
    after_some(bytes, Class::Digit)
}

#[tactic(auto, unfolding(crate::specs::Reading::after_number))]
fn after_number(bytes: &[u8]) -> Option<&[u8]>
    ensures { option_copied result ≡ spec.after_number bytes.now }
{
    if let Some(rest) = after_hexadecimal(bytes) {
        return Some(rest);
    }
    after_decimal(bytes)
}

#[tactic(auto, using(crate::proofs::Rules::bind), unfolding(crate::specs::Spelling::iid))]
fn after_iid(bytes: &[u8]) -> Option<&[u8]>
    ensures { option_copied result ≡ spec.after iid bytes.now }
{
    let rest = after_counted(bytes, Class::Hexadecimal, 8)?;
    let rest = after_literal(rest, b"-")?;
    let rest = after_counted(rest, Class::Hexadecimal, 4)?;
    let rest = after_literal(rest, b"-")?;
    let rest = after_counted(rest, Class::Hexadecimal, 4)?;
    let rest = after_literal(rest, b"-")?;
    let rest = after_counted(rest, Class::Hexadecimal, 4)?;
    let rest = after_literal(rest, b"-")?;
    after_counted(rest, Class::Hexadecimal, 12)
}

#[tactic(auto, using(crate::proofs::Rules::bind), unfolding(crate::specs::Spelling::include))]
fn after_include(bytes: &[u8]) -> Option<&[u8]>
    ensures { option_copied result ≡ spec.after include bytes.now }
{
    let rest = after_literal(bytes, b"#include")?;
    let rest = after_some(rest, Class::Gap)?;
    let rest = after_literal(rest, b"\"")?;
    let rest = after_short(rest, Class::Quoted)?;
    after_literal(rest, b"\"")
}

#[tactic(auto, using(crate::proofs::Rules::bind), unfolding(crate::specs::Spelling::native))]
fn after_native(bytes: &[u8]) -> Option<&[u8]>
    ensures { option_copied result ≡ spec.after native bytes.now }
{
    let rest = after_literal(bytes, b"native")?;
    let rest = after_some(rest, Class::Gap)?;
    let rest = after_word(rest)?;
    let rest = after_any(rest, Class::Gap);
    let rest = after_literal(rest, b"(")?;
    let rest = after_some(rest, Class::Parenthesized)?;
    after_literal(rest, b")")
}

/// Whether a spelling was read, with nothing behind it.
fn is_end(rest: Option<&[u8]>) -> bool
    ensures { result ≡ spec.is_end (option_copied rest.entry) }
{
    match rest {
        Some(rest) => rest.is_empty(),
        None => false,
    }
}

/// Whether the bytes are the spelling of an include, all of them.
#[tactic(auto, using(crate::proofs::Rules::wholes), unfolding(crate::specs::Reading::is_whole))]
pub fn is_include(bytes: &[u8]) -> bool
    ensures value { result ≡ spec.is_whole include bytes.now }
    ensures sound { IsTrue result → IsMadeOf include bytes.now }
    ensures complete { IsMadeOf include bytes.now → IsTrue result }
{
    is_end(after_include(bytes))
}

/// Whether the bytes are the spelling of a native, all of them.
#[tactic(auto, using(crate::proofs::Rules::wholes), unfolding(crate::specs::Reading::is_whole))]
pub fn is_native(bytes: &[u8]) -> bool
    ensures value { result ≡ spec.is_whole native bytes.now }
    ensures sound { IsTrue result → IsMadeOf native bytes.now }
    ensures complete { IsMadeOf native bytes.now → IsTrue result }
{
    is_end(after_native(bytes))
}

/// Behind the first `pair[0]` that `pair[1]` follows.
pub fn after_pair(bytes: &[u8], first: u8, second: u8) -> Option<&[u8]>
    ensures { option_copied result ≡ spec.after_pair first second bytes.now }
{
    let mut rest = bytes;
    while let [front, tail @ ..] = rest {
        if let [next, more @ ..] = tail {
            if *front == first && *next == second {
                return Some(more);
            }
        }
        rest = tail;
    }
    None
}

#[tactic(auto, unfolding(crate::specs::Reading::after_block))]
fn after_block(bytes: &[u8]) -> Option<&[u8]>
    ensures { option_copied result ≡ spec.after_block bytes.now }
{
    let body = after_literal(bytes, b"%{")?;
    after_pair(body, b'%', b'}')
}

#[tactic(auto, using(crate::proofs::Rules::bind), unfolding(crate::specs::Spelling::language))]
fn after_language(bytes: &[u8]) -> Option<&[u8]>
    ensures { option_copied result ≡ spec.after language bytes.now }
{
    let rest = after_any(bytes, Class::Space);
    after_literal(rest, b"C++")
}

#[tactic(auto, unfolding(crate::specs::Reading::after_code, crate::specs::Reading::past_language))]
fn after_code(bytes: &[u8]) -> Option<&[u8]>
    ensures { option_copied result ≡ spec.after_code bytes.now }
{
    let rest = after_block(bytes)?;
    match after_language(rest) {
        Some(behind) => Some(behind),
        None => Some(rest),
    }
}

#[tactic(auto, unfolding(crate::specs::Reading::after_mark))]
fn after_mark(bytes: &[u8]) -> Option<&[u8]>
    ensures { option_copied result ≡ spec.after_mark bytes.now }
{
    let [first, rest @ ..] = bytes else {
        return None;
    };
    if Class::Single.holds(*first) {
        return Some(rest);
    }
    match rest {
        [second, more @ ..] if *first == *second && (*first == b'<' || *first == b'>') => Some(
            more,
        ),
        _ => None,
    }
}

#[tactic(auto, unfolding(crate::specs::Reading::name_at))]
fn name(bytes: &[u8]) -> Option<(Kind, &[u8])>
    ensures { option_map (λ t. (t.0, t.1.now)) result ≡ spec.name_at bytes.now }
{
    let (run, rest) = split_run(bytes, Class::NameByte);
    if is_key(run) {
        Some((Kind::Key, rest))
    } else if is_name(run) {
        Some((Kind::Word, rest))
    } else {
        None
    }
}

#[tactic(auto, unfolding(crate::specs::Reading::lettered_at))]
fn lettered(bytes: &[u8]) -> Option<(Kind, &[u8])>
    ensures { option_map (λ t. (t.0, t.1.now)) result ≡ spec.lettered_at bytes.now }
{
    if let Some(rest) = after_iid(bytes) {
        return Some((Kind::Iid, rest));
    }
    if let Some(rest) = after_native(bytes) {
        return Some((Kind::Native, rest));
    }
    name(bytes)
}

#[tactic(auto, unfolding(crate::specs::Reading::numbered_at))]
fn numbered(bytes: &[u8]) -> Option<(Kind, &[u8])>
    ensures { option_map (λ t. (t.0, t.1.now)) result ≡ spec.numbered_at bytes.now }
{
    if let Some(rest) = after_iid(bytes) {
        return Some((Kind::Iid, rest));
    }
    let rest = after_number(bytes)?;
    Some((Kind::Number, rest))
}

/// The token at the front, and what is left behind it.
#[tactic(auto, unfolding(crate::specs::Reading::token_at))]
pub fn token(bytes: &[u8]) -> Option<(Kind, &[u8])>
    ensures { option_map (λ t. (t.0, t.1.now)) result ≡ spec.token_at bytes.now }
{
    let first = *bytes.first()?;
    if Class::NameStart.holds(first) {
        lettered(bytes)
    } else if Class::Digit.holds(first) {
        numbered(bytes)
    } else if first == b'#' {
        Some((Kind::Include, after_include(bytes)?))
    } else if first == b'%' {
        Some((Kind::Code, after_code(bytes)?))
    } else {
        Some((Kind::Mark, after_mark(bytes)?))
    }
}
