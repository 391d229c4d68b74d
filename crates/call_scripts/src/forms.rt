//! The words that are made of parts: members, values, arguments, and the items of replies and of
//! frames.

ghost use Rattle.std.specs.Prelude.{◌≡◌, length};
ghost use Rattle.line_words.specs.Words.{Gives};
ghost use Rattle.call_scripts.specs.Reading.{arg_of, fill_kind_of, fill_of, frame_item_of, item_of, member_of, method_of, out_of, set_of, sum_of, target_of, term_of, value_of};

use crate::script::{
    ArgWord, EnterItem, Fill, MemberRef, MemberWord, ReplyItem, Target, Term, ValueWord,
};
use crate::spellings::{
    bytes, digits, hex_digits, iid, is_register, name, number, offset, position, status,
};
use line_words::{Unread, after, before, cut_at};
use std::alloc::Global;
use xp_base::Bytes;

/// `MEMBER`: an interface's name, a dot, and a method's name, or an attribute's after `get:` or
/// `set:`.
#[tactic(auto, unfolding(crate::specs::Reading::member_of))]
pub(crate) fn member(alloc: Global, word: &[u8]) -> Result<MemberRef, Unread>
    ensures { Gives result (member_of word.now) }
{
    let (iface, word) = cut_at(word, b'.').ok_or(Unread::NoReading)?;
    let iface = name(alloc, iface)?;
    method(alloc, iface, word)
}

#[tactic(auto, unfolding(crate::specs::Reading::method_of))]
fn method(alloc: Global, iface: Bytes, word: &[u8]) -> Result<MemberRef, Unread>
    ensures { Gives result (method_of iface word.now) }
{
    let (kind, word) = if let Some(attribute) = after(word, b"get:") {
        (MemberWord::Get, attribute)
    } else if let Some(attribute) = after(word, b"set:") {
        (MemberWord::Set, attribute)
    } else {
        (MemberWord::Plain, word)
    };
    Ok(MemberRef {
        iface,
        kind,
        name: name(alloc, word)?,
    })
}

/// `VALUE`: a number, `null`, a block's address or a variable.
#[tactic(auto, unfolding(crate::specs::Reading::value_of))]
pub(crate) fn value(alloc: Global, word: &[u8]) -> Result<ValueWord, Unread>
    ensures { Gives result (value_of word.now) }
{
    if word == b"null".as_slice() {
        return Ok(ValueWord::Number(0));
    }
    if let Some(block) = after(word, b"@") {
        return Ok(ValueWord::Address(name(alloc, block)?));
    }
    if let Some(variable) = after(word, b"$") {
        return Ok(ValueWord::Variable(name(alloc, variable)?));
    }
    Ok(ValueWord::Number(number(word).ok_or(Unread::NoReading)?))
}

/// `TARGET`: a block or a variable.
#[tactic(auto, unfolding(crate::specs::Reading::target_of))]
pub(crate) fn target(alloc: Global, word: &[u8]) -> Result<Target, Unread>
    ensures { Gives result (target_of word.now) }
{
    if let Some(variable) = after(word, b"$") {
        return Ok(Target::Variable(name(alloc, variable)?));
    }
    Ok(Target::Block(name(alloc, word)?))
}

/// `ARG`: a value, an arrow to a variable, both, or `_`. No value and no name has a `>`, so an
/// arrow ends at the first.
#[tactic(auto, unfolding(crate::specs::Reading::arg_of))]
pub(crate) fn arg(alloc: Global, word: &[u8]) -> Result<ArgWord, Unread>
    ensures { Gives result (arg_of word.now) }
{
    if word == b"_".as_slice() {
        return Ok(ArgWord::Absent);
    }
    if let Some((front, variable)) = cut_at(word, b'>') {
        let front = before(front, b"-").ok_or(Unread::NoReading)?;
        return out(alloc, front, variable);
    }
    Ok(ArgWord::Value(value(alloc, word)?))
}

/// An argument with an arrow: what stands before it, and the variable after it.
#[tactic(auto, unfolding(crate::specs::Reading::out_of))]
fn out(alloc: Global, front: &[u8], variable: &[u8]) -> Result<ArgWord, Unread>
    ensures { Gives result (out_of front.now variable.now) }
{
    let variable = name(alloc, variable)?;
    if front.is_empty() {
        return Ok(ArgWord::Cell(variable));
    }
    Ok(ArgWord::ValueCell(value(alloc, front)?, variable))
}

/// `TERM`: a number, a block's address, the value at a position, or the value in its cell.
#[tactic(auto, unfolding(crate::specs::Reading::term_of))]
pub(crate) fn term(alloc: Global, word: &[u8]) -> Result<Term, Unread>
    ensures { Gives result (term_of word.now) }
{
    if let Some(block) = after(word, b"@") {
        return Ok(Term::Address(name(alloc, block)?));
    }
    if let Some(at) = after(word, b"$a") {
        return Ok(Term::Arg(position(at).ok_or(Unread::NoReading)?));
    }
    if let Some(at) = after(word, b"*a") {
        return Ok(Term::InCell(position(at).ok_or(Unread::NoReading)?));
    }
    Ok(Term::Number(number(word).ok_or(Unread::NoReading)?))
}

/// `TERM` or `TERM+TERM`, for the cell of a position.
#[tactic(auto, unfolding(crate::specs::Reading::sum_of))]
fn sum(alloc: Global, at: u16, word: &[u8]) -> Result<ReplyItem, Unread>
    ensures { Gives result (sum_of at word.now) }
{
    let Some((first, second)) = cut_at(word, b'+') else {
        let first = term(alloc, word)?;
        return Ok(ReplyItem::Set {
            at,
            first,
            second: None,
        });
    };
    let first = term(alloc, first)?;
    let second = Some(term(alloc, second)?);
    Ok(ReplyItem::Set { at, first, second })
}

/// `POS=` and a sum.
#[tactic(auto, unfolding(crate::specs::Reading::set_of))]
fn set(alloc: Global, word: &[u8]) -> Result<ReplyItem, Unread>
    ensures { Gives result (set_of word.now) }
{
    let (at, word) = cut_at(word, b'=').ok_or(Unread::NoReading)?;
    let at = position(at).ok_or(Unread::NoReading)?;
    sum(alloc, at, word)
}

/// `POS+OFF]=HEX`.
#[tactic(auto, unfolding(crate::specs::Reading::fill_of))]
fn fill(alloc: Global, word: &[u8]) -> Result<ReplyItem, Unread>
    ensures { Gives result (fill_of word.now) }
{
    let (at, word) = cut_at(word, b'+').ok_or(Unread::NoReading)?;
    let at = position(at).ok_or(Unread::NoReading)?;
    let (start, word) = cut_at(word, b']').ok_or(Unread::NoReading)?;
    let offset = offset(start).ok_or(Unread::NoReading)?;
    let hex = after(word, b"=").ok_or(Unread::NoReading)?;
    let bytes = bytes(alloc, hex)?;
    Ok(ReplyItem::Fill { at, offset, bytes })
}

/// `ITEM`: what a reply does.
#[tactic(auto, unfolding(crate::specs::Reading::item_of))]
pub(crate) fn item(alloc: Global, word: &[u8]) -> Result<ReplyItem, Unread>
    ensures { Gives result (item_of word.now) }
{
    if let Some(result) = after(word, b"result=") {
        return Ok(ReplyItem::Result(status(result).ok_or(Unread::NoReading)?));
    }
    if let Some(word) = after(word, b"a") {
        return set(alloc, word);
    }
    let word = after(word, b"[a").ok_or(Unread::NoReading)?;
    fill(alloc, word)
}

/// `FRAMEITEM`: a register with its value, or the bytes of the stack.
#[tactic(auto, unfolding(crate::specs::Reading::frame_item_of))]
pub(crate) fn frame_item(alloc: Global, word: &[u8]) -> Result<EnterItem, Unread>
    ensures { Gives result (frame_item_of word.now) }
{
    let (left, right) = cut_at(word, b'=').ok_or(Unread::NoReading)?;
    if left == b"stack".as_slice() {
        return Ok(EnterItem::Stack(bytes(alloc, right)?));
    }
    if !is_register(left) {
        return Err(Unread::NoReading);
    }
    let value = hex_digits(right, 16).ok_or(Unread::NoReading)?;
    Ok(EnterItem::Register {
        name: Bytes::copy(alloc, left)?,
        value,
    })
}

/// What a new block of some kind holds: zeros, or an IID.
#[tactic(auto, unfolding(crate::specs::Reading::fill_kind_of))]
pub(crate) fn fill_kind(kind: &[u8], word: &[u8]) -> Result<Fill, Unread>
    ensures { Gives result (fill_kind_of kind.now word.now) }
{
    if kind == b"zero".as_slice() {
        return Ok(Fill::Zeros(digits(word, 20).ok_or(Unread::NoReading)?));
    }
    if kind == b"iid".as_slice() {
        return Ok(Fill::Iid(iid(word).ok_or(Unread::NoReading)?));
    }
    Err(Unread::NoReading)
}
