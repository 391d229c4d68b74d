//! The arguments of a function.

ghost use Rattle.std.specs.Prelude.{◌≡◌, ◌==◌, ◌++◌, map, length, IfOk};
ghost use Rattle.std.specs.List.{slice_split};
ghost use Rattle.line_words.specs.Words.{Gives, each_of};
ghost use Rattle.header_reader.specs.Reading.{all_of, argument_of, arguments_of, const_of, later_of};

use crate::spellings::{is_name, is_pointer, type_of};
use call_model::CType;
use line_words::{Unread, after, cut_at};
use std::alloc::{AllocError, Global};
use xp_base::List;

/// The types of all arguments, which a comma and a space separate.
#[tactic(auto, unfolding(crate::specs::Reading::arguments_of))]
pub(crate) fn arguments(alloc: Global, word: &[u8]) -> Result<List<CType>, Unread>
    ensures { Gives result (arguments_of word.now) }
{
    if word.is_empty() {
        return Ok(List::new(alloc));
    }
    let parts = parts(alloc, word)?;
    all(alloc, parts.as_slice())
}

fn parts<'a>(alloc: Global, word: &'a [u8]) -> Result<Vec<&'a [u8]>, AllocError>
    ensures { IfOk result (λ parts. map (λ part. part.now) parts.items
        ≡ slice_split (λ b. b == 44) word.now) }
{
    word.split(|b| *b == b',').collect(alloc)
}

fn all(alloc: Global, mut parts: &[&[u8]]) -> Result<List<CType>, Unread>
    ensures { Gives result (all_of (map (λ part. part.now) parts.entry.now)) }
{
    let mut types = List::new(alloc);
    let [first, rest @ ..] = parts else {
        return Ok(types);
    };
    types.push(argument(first).ok_or(Unread::NoReading)?)?;
    parts = rest;
    while let [part, rest @ ..] = parts {
        types.push(later(part).ok_or(Unread::NoReading)?)?;
        parts = rest;
    }
    Ok(types)
}

/// An argument behind a comma.
#[tactic(auto, unfolding(crate::specs::Reading::later_of))]
fn later(part: &[u8]) -> Option<CType>
    ensures { result ≡ later_of part.now }
{
    argument(after(part, b" ")?)
}

/// An argument: its type, a space and its name.
#[tactic(auto, unfolding(crate::specs::Reading::argument_of))]
fn argument(word: &[u8]) -> Option<CType>
    ensures { result ≡ argument_of word.now }
{
    let (text, name) = cut_at(word, b' ')?;
    if text == b"const".as_slice() {
        return const_argument(name);
    }
    if is_name(name) { type_of(text) } else { None }
}

/// What follows `const `: a pointer or a reference, a space and a name.
#[tactic(auto, unfolding(crate::specs::Reading::const_of))]
fn const_argument(word: &[u8]) -> Option<CType>
    ensures { result ≡ const_of word.now }
{
    let (text, name) = cut_at(word, b' ')?;
    if is_pointer(text) && is_name(name) {
        Some(CType::Ptr)
    } else {
        None
    }
}
