//! The reader of items.

ghost use Rattle.std.specs.Prelude.{◌≡◌};
ghost use Rattle.idl_grammar.specs.Grammar as spec;
ghost use Rattle.idl_grammar.specs.Rule as rule;
ghost use Rattle.idl_grammar.specs.Read.{read};
ghost use Rattle.idl_grammar.specs.Gives.{Collects, Gives};

use crate::attributes::any_attributes;
use crate::cursor::{Cursor, Stop, means, word};
use crate::members::members;
use crate::spellings::{native_name, native_text, quoted};
use crate::terminal::{Key, Mark, Terminal};
use crate::tree::{Attr, IdlFile, Interface, Item, ItemBody};
use crate::types::type_name;
use std::alloc::Global;
use xp_base::{Bytes, List};

#[tactic(auto, unfolding(crate::specs::Grammar::parent))]
fn parent(alloc: Global, cursor: &mut Cursor<'_>) -> Result<Option<Bytes>, Stop>
    ensures { Gives (read spec.parent cursor.old) result cursor.new }
{
    if cursor.sees_mark(Mark::Colon) {
        cursor.take_mark(Mark::Colon)?;
        Ok(Some(word(alloc, cursor)?))
    } else {
        Ok(None)
    }
}

/// What makes a forward declaration of the interface of this name.
#[tactic(auto, unfolding(crate::specs::Grammar::forward))]
fn forward(name: Bytes, attrs: List<Attr>, cursor: &mut Cursor<'_>) -> Result<ItemBody, Stop>
    ensures { Gives (read (rule.map (λ f. f name attrs) spec.forward) cursor.old)
        result cursor.new }
{
    cursor.take_mark(Mark::Semi)?;
    Ok(ItemBody::Forward { name })
}

/// What defines the interface of this name, behind these attributes.
#[tactic(auto, unfolding(crate::specs::Grammar::definition))]
fn definition(
    alloc: Global,
    name: Bytes,
    attrs: List<Attr>,
    cursor: &mut Cursor<'_>,
) -> Result<ItemBody, Stop>
    ensures { Gives (read (rule.map (λ f. f name attrs) spec.definition) cursor.old)
        result cursor.new }
{
    let parent = parent(alloc, cursor)?;
    cursor.take_mark(Mark::LBrace)?;
    let members = members(alloc, cursor)?;
    cursor.take_mark(Mark::RBrace)?;
    cursor.take_mark(Mark::Semi)?;
    Ok(ItemBody::Interface(Interface {
        attrs,
        name,
        parent,
        members,
    }))
}

/// An interface behind these attributes.
#[tactic(auto, using(crate::proofs::Starts::forward_starts), unfolding(crate::specs::Grammar::interface))]
fn interface(alloc: Global, attrs: List<Attr>, cursor: &mut Cursor<'_>) -> Result<ItemBody, Stop>
    ensures { Gives (read (rule.map (λ f. f attrs) spec.interface) cursor.old) result cursor.new }
{
    cursor.take_key(Key::Interface)?;
    let name = word(alloc, cursor)?;
    if cursor.sees_mark(Mark::Semi) {
        forward(name, attrs, cursor)
    } else {
        definition(alloc, name, attrs, cursor)
    }
}

/// A native type behind these attributes.
#[tactic(auto, unfolding(crate::specs::Grammar::native))]
fn native(alloc: Global, attrs: List<Attr>, cursor: &mut Cursor<'_>) -> Result<ItemBody, Stop>
    ensures { Gives (read (rule.map (λ f. f attrs) spec.native) cursor.old) result cursor.new }
{
    let spelling = cursor.take_native()?;
    cursor.take_mark(Mark::Semi)?;
    let name = Bytes::copy(alloc, native_name(spelling))?;
    let text = Bytes::copy(alloc, native_text(spelling))?;
    Ok(ItemBody::Native { attrs, name, text })
}

/// A native type or an interface, with the attributes before it.
#[tactic(auto, using(crate::proofs::Starts::native_starts), unfolding(crate::specs::Grammar::marked_item))]
fn marked_item(alloc: Global, cursor: &mut Cursor<'_>) -> Result<ItemBody, Stop>
    ensures { Gives (read spec.marked_item cursor.old) result cursor.new }
{
    let attrs = any_attributes(alloc, cursor)?;
    if cursor.sees(Terminal::Native) {
        native(alloc, attrs, cursor)
    } else {
        interface(alloc, attrs, cursor)
    }
}

#[tactic(auto, unfolding(crate::specs::Grammar::typedef))]
fn typedef(alloc: Global, cursor: &mut Cursor<'_>) -> Result<ItemBody, Stop>
    ensures { Gives (read spec.typedef cursor.old) result cursor.new }
{
    cursor.take_key(Key::Typedef)?;
    let of = type_name(alloc, cursor)?;
    let name = word(alloc, cursor)?;
    cursor.take_mark(Mark::Semi)?;
    Ok(ItemBody::Typedef { of, name })
}

#[tactic(auto, using(crate::proofs::Starts::typedef_starts), unfolding(crate::specs::Grammar::item_body))]
fn item_body(alloc: Global, cursor: &mut Cursor<'_>) -> Result<ItemBody, Stop>
    ensures { Gives (read spec.item_body cursor.old) result cursor.new }
{
    if cursor.sees(Terminal::Include) {
        let spelling = cursor.take_include()?;
        Ok(ItemBody::Include(Bytes::copy(alloc, quoted(spelling))?))
    } else if cursor.sees(Terminal::Code) {
        means(cursor, Terminal::Code, ItemBody::Code)
    } else if cursor.sees_key(Key::Typedef) {
        typedef(alloc, cursor)
    } else {
        marked_item(alloc, cursor)
    }
}

#[tactic(auto, unfolding(crate::specs::Grammar::one_item))]
fn one_item(alloc: Global, cursor: &mut Cursor<'_>) -> Result<Item, Stop>
    ensures { Gives (read spec.one_item cursor.old) result cursor.new }
{
    let line = cursor.line();
    let body = item_body(alloc, cursor)?;
    Ok(Item { line, body })
}

/// The symbols with which an item begins.
const ITEM: [Terminal; 6] = [
    Terminal::Include,
    Terminal::Code,
    Terminal::Key(Key::Typedef),
    Terminal::Mark(Mark::LBracket),
    Terminal::Native,
    Terminal::Key(Key::Interface),
];

/// Items, as many as stand there, put behind those that were found.
fn more_items(alloc: Global, found: &mut List<Item>, cursor: &mut Cursor<'_>) -> Result<(), Stop>
    ensures { Collects spec.items found.old cursor.old result found.new cursor.new }
{
    'turns: while cursor.sees_any(&ITEM) {
        let one = one_item(alloc, cursor)?;
        found.push(one)?;
    }
    Ok(())
}

/// Items, as many as stand there.
fn items(alloc: Global, cursor: &mut Cursor<'_>) -> Result<List<Item>, Stop>
    ensures { Gives (read spec.items cursor.old) result cursor.new }
{
    let mut found = List::new(alloc);
    more_items(alloc, &mut found, cursor)?;
    Ok(found)
}

/// A file: items, as many as stand there.
#[tactic(auto, unfolding(crate::specs::Grammar::file))]
pub fn file(alloc: Global, cursor: &mut Cursor<'_>) -> Result<IdlFile, Stop>
    ensures { Gives (read spec.file cursor.old) result cursor.new }
{
    let items = items(alloc, cursor)?;
    Ok(IdlFile { items })
}
