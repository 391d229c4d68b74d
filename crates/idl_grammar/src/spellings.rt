//! What a tree keeps of the spelling of a token.

ghost use Rattle.std.specs.Prelude.{◌≡◌, drop};
ghost use Rattle.idl_grammar.specs.Read as spec;

use idl_lexer::{Class, split_run};

/// The bytes behind so many.
fn skip(text: &[u8], count: usize) -> &[u8]
    ensures { result.now ≡ drop count text.now }
{
    match text.get(count..) {
        Some(rest) => rest,
        None => &[],
    }
}

/// The bytes between the quotes of an include.
#[tactic(auto, unfolding(crate::specs::Read::quoted))]
pub fn quoted(spelling: &[u8]) -> &[u8]
    ensures { result.now ≡ spec.quoted spelling.now }
{
    let (_, behind_gap) = split_run(skip(spelling, b"#include".len()), Class::Gap);
    let (name, _) = split_run(skip(behind_gap, 1), Class::Quoted);
    name
}

/// What stands behind the word `native` and its gap.
fn behind_native(spelling: &[u8]) -> &[u8]
    ensures { result.now ≡ spec.behind_native spelling.now }
{
    let (_, behind_gap) = split_run(skip(spelling, b"native".len()), Class::Gap);
    behind_gap
}

/// The name of a native.
#[tactic(auto, unfolding(crate::specs::Read::native_name))]
pub fn native_name(spelling: &[u8]) -> &[u8]
    ensures { result.now ≡ spec.native_name spelling.now }
{
    let (name, _) = split_run(behind_native(spelling), Class::NameByte);
    name
}

/// The bytes between the parentheses of a native.
#[tactic(auto, unfolding(crate::specs::Read::native_text))]
pub fn native_text(spelling: &[u8]) -> &[u8]
    ensures { result.now ≡ spec.native_text spelling.now }
{
    let (_, behind_name) = split_run(behind_native(spelling), Class::NameByte);
    let (_, parenthesis) = split_run(behind_name, Class::Gap);
    let (text, _) = split_run(skip(parenthesis, 1), Class::Parenthesized);
    text
}
