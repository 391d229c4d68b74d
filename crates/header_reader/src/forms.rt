//! The lines of a header, without their line feeds: one form for each thing that a line says.

ghost use Rattle.std.specs.Prelude.{◌≡◌};
ghost use Rattle.std.specs.Char.{is_ascii_digit};
ghost use Rattle.std.specs.List.{list_all};
ghost use Rattle.line_words.specs.Words.{Gives};
ghost use Rattle.header_reader.specs.Reading.{class_of, form_of, head_of, method_of, reserved_of, slot_of};

use crate::arguments::arguments;
use crate::spellings::{is_name, name};
use header_model::Line;
use line_words::{Unread, after, before, cut_at};
use std::alloc::Global;
use xp_base::Bytes;

/// What a line says.
#[tactic(auto, unfolding(crate::specs::Reading::form_of))]
pub(crate) fn form(alloc: Global, word: &[u8]) -> Result<Line, Unread>
    ensures { Gives result (form_of word.now) }
{
    if word == b" public:".as_slice() {
        return Ok(Line::Public);
    }
    if word == b"};".as_slice() {
        return Ok(Line::Close);
    }
    match after(word, b"class ") {
        Some(head) => class_head(alloc, head),
        None => slot(alloc, word),
    }
}

/// A forward line, or the first line of a class, behind `class `.
#[tactic(auto, unfolding(crate::specs::Reading::head_of))]
fn class_head(alloc: Global, word: &[u8]) -> Result<Line, Unread>
    ensures { Gives result (head_of word.now) }
{
    if let Some((name, rest)) = cut_at(word, b';') {
        if is_name(name) && rest.is_empty() {
            return Ok(Line::Forward);
        }
        return Err(Unread::NoReading);
    }
    let head = before(word, b" {").ok_or(Unread::NoReading)?;
    class(alloc, head)
}

/// The name of a class, and that of the class which it extends, where it extends one.
#[tactic(auto, unfolding(crate::specs::Reading::class_of))]
fn class(alloc: Global, word: &[u8]) -> Result<Line, Unread>
    ensures { Gives result (class_of word.now) }
{
    let Some((own, rest)) = cut_at(word, b' ') else {
        return Ok(Line::Class {
            name: name(alloc, word)?,
            parent: None,
        });
    };
    let parent = after(rest, b": public ").ok_or(Unread::NoReading)?;
    Ok(Line::Class {
        name: name(alloc, own)?,
        parent: Some(name(alloc, parent)?),
    })
}

/// What stands in a slot.
#[tactic(auto, unfolding(crate::specs::Reading::slot_of))]
fn slot(alloc: Global, word: &[u8]) -> Result<Line, Unread>
    ensures { Gives result (slot_of word.now) }
{
    if let Some(rest) = after(word, b"  virtual void xpcall_reserved_") {
        return reserved(alloc, rest);
    }
    let rest = after(word, b"  virtual nsresult ").ok_or(Unread::NoReading)?;
    method(alloc, rest)
}

#[tactic(auto, unfolding(crate::specs::Reading::reserved_of))]
fn reserved(alloc: Global, word: &[u8]) -> Result<Line, Unread>
    ensures { Gives result (reserved_of word.now) }
{
    let number = before(word, b"() = 0;").ok_or(Unread::NoReading)?;
    if are_digits(number) {
        Ok(Line::Reserved {
            number: Bytes::copy(alloc, number)?,
        })
    } else {
        Err(Unread::NoReading)
    }
}

fn are_digits(word: &[u8]) -> bool
    ensures { result ≡ list_all is_ascii_digit word.now }
{
    word.iter().all(|b| b.is_ascii_digit())
}

#[tactic(auto, unfolding(crate::specs::Reading::method_of))]
fn method(alloc: Global, word: &[u8]) -> Result<Line, Unread>
    ensures { Gives result (method_of word.now) }
{
    let (own, rest) = cut_at(word, b'(').ok_or(Unread::NoReading)?;
    let name = name(alloc, own)?;
    let args = before(rest, b") = 0;").ok_or(Unread::NoReading)?;
    let types = arguments(alloc, args)?;
    Ok(Line::Method { name, types })
}
