//! The reader of attributes.

ghost use Rattle.idl_grammar.specs.Grammar as spec;
ghost use Rattle.idl_grammar.specs.Read.{read};
ghost use Rattle.idl_grammar.specs.Gives.{Collects, Gives};

use crate::cursor::{Cursor, Stop, text, word};
use crate::terminal::{Key, Mark, Terminal};
use crate::tree::{Attr, AttrValue};
use std::alloc::Global;
use xp_base::{Bytes, List};

#[tactic(auto, unfolding(crate::specs::Grammar::attribute_name))]
fn attribute_name(alloc: Global, cursor: &mut Cursor<'_>) -> Result<Bytes, Stop>
    ensures { Gives (read spec.attribute_name cursor.old) result cursor.new }
{
    if cursor.sees(Terminal::Word) {
        word(alloc, cursor)
    } else {
        text(alloc, cursor, Terminal::Key(Key::Const))
    }
}

#[tactic(auto, unfolding(crate::specs::Grammar::attribute_word))]
fn attribute_word(alloc: Global, cursor: &mut Cursor<'_>) -> Result<AttrValue, Stop>
    ensures { Gives (read spec.attribute_word cursor.old) result cursor.new }
{
    if cursor.sees(Terminal::Word) {
        Ok(AttrValue::Word(word(alloc, cursor)?))
    } else {
        Ok(AttrValue::Iid(text(alloc, cursor, Terminal::Iid)?))
    }
}

#[tactic(auto, unfolding(crate::specs::Grammar::attribute_value))]
fn attribute_value(alloc: Global, cursor: &mut Cursor<'_>) -> Result<AttrValue, Stop>
    ensures { Gives (read spec.attribute_value cursor.old) result cursor.new }
{
    if cursor.sees_mark(Mark::LParen) {
        cursor.take_mark(Mark::LParen)?;
        let value = attribute_word(alloc, cursor)?;
        cursor.take_mark(Mark::RParen)?;
        Ok(value)
    } else {
        Ok(AttrValue::Absent)
    }
}

#[tactic(auto, unfolding(crate::specs::Grammar::one_attribute))]
fn one_attribute(alloc: Global, cursor: &mut Cursor<'_>) -> Result<Attr, Stop>
    ensures { Gives (read spec.one_attribute cursor.old) result cursor.new }
{
    let name = attribute_name(alloc, cursor)?;
    let value = attribute_value(alloc, cursor)?;
    Ok(Attr { name, value })
}

/// Attributes, each behind a comma.
fn more_attributes(
    alloc: Global,
    found: &mut List<Attr>,
    cursor: &mut Cursor<'_>,
) -> Result<(), Stop>
    ensures { Collects spec.more_attributes found.old cursor.old result found.new cursor.new }
{
    'turns: while cursor.sees_mark(Mark::Comma) {
        cursor.take_mark(Mark::Comma)?;
        let one = one_attribute(alloc, cursor)?;
        found.push(one)?;
    }
    Ok(())
}

#[tactic(auto, unfolding(crate::specs::Grammar::attribute_list))]
fn attribute_list(alloc: Global, cursor: &mut Cursor<'_>) -> Result<List<Attr>, Stop>
    ensures { Gives (read spec.attribute_list cursor.old) result cursor.new }
{
    let first = one_attribute(alloc, cursor)?;
    let mut found = List::new(alloc);
    found.push(first)?;
    more_attributes(alloc, &mut found, cursor)?;
    Ok(found)
}

#[tactic(auto, unfolding(crate::specs::Grammar::attributes))]
fn attributes(alloc: Global, cursor: &mut Cursor<'_>) -> Result<List<Attr>, Stop>
    ensures { Gives (read spec.attributes cursor.old) result cursor.new }
{
    cursor.take_mark(Mark::LBracket)?;
    let found = attribute_list(alloc, cursor)?;
    cursor.take_mark(Mark::RBracket)?;
    Ok(found)
}

/// The attributes that stand there, or none.
#[tactic(auto, using(crate::proofs::Starts::attributes_starts), unfolding(crate::specs::Grammar::any_attributes))]
pub fn any_attributes(alloc: Global, cursor: &mut Cursor<'_>) -> Result<List<Attr>, Stop>
    ensures { Gives (read spec.any_attributes cursor.old) result cursor.new }
{
    if cursor.sees_mark(Mark::LBracket) {
        attributes(alloc, cursor)
    } else {
        Ok(List::new(alloc))
    }
}
