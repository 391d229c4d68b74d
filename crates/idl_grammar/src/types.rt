//! The reader of types.

ghost use Rattle.idl_grammar.specs.Grammar as spec;
ghost use Rattle.idl_grammar.specs.Read.{read};
ghost use Rattle.idl_grammar.specs.Gives.{Gives};

use crate::cursor::{Cursor, Stop, means, word};
use crate::terminal::{Key, Terminal};
use crate::tree::TypeName;
use std::alloc::Global;

/// `long`, which means the first type, or `long long`, which means the second.
#[tactic(auto, unfolding(crate::specs::Grammar::long_type))]
fn long_type(cursor: &mut Cursor<'_>, one: TypeName, two: TypeName) -> Result<TypeName, Stop>
    ensures { Gives (read (spec.long_type one two) cursor.old) result cursor.new }
{
    cursor.take_key(Key::Long)?;
    if cursor.sees_key(Key::Long) {
        means(cursor, Terminal::Key(Key::Long), two)
    } else {
        Ok(one)
    }
}

#[tactic(auto, unfolding(crate::specs::Grammar::unsigned_type))]
fn unsigned_type(cursor: &mut Cursor<'_>) -> Result<TypeName, Stop>
    ensures { Gives (read spec.unsigned_type cursor.old) result cursor.new }
{
    cursor.take_key(Key::Unsigned)?;
    if cursor.sees_key(Key::Short) {
        means(cursor, Terminal::Key(Key::Short), TypeName::UShort)
    } else {
        long_type(cursor, TypeName::ULong, TypeName::ULongLong)
    }
}

#[tactic(auto, unfolding(crate::specs::Grammar::wide_type))]
fn wide_type(cursor: &mut Cursor<'_>) -> Result<TypeName, Stop>
    ensures { Gives (read spec.wide_type cursor.old) result cursor.new }
{
    if cursor.sees_key(Key::Float) {
        means(cursor, Terminal::Key(Key::Float), TypeName::Float)
    } else if cursor.sees_key(Key::Double) {
        means(cursor, Terminal::Key(Key::Double), TypeName::Double)
    } else if cursor.sees_key(Key::Char) {
        means(cursor, Terminal::Key(Key::Char), TypeName::Char)
    } else if cursor.sees_key(Key::WChar) {
        means(cursor, Terminal::Key(Key::WChar), TypeName::WChar)
    } else if cursor.sees_key(Key::String) {
        means(cursor, Terminal::Key(Key::String), TypeName::CString)
    } else {
        means(cursor, Terminal::Key(Key::WString), TypeName::WString)
    }
}

/// A type.
#[tactic(auto, using(crate::proofs::Starts::type_starts), unfolding(crate::specs::Grammar::type_name))]
pub fn type_name(alloc: Global, cursor: &mut Cursor<'_>) -> Result<TypeName, Stop>
    ensures { Gives (read spec.type_name cursor.old) result cursor.new }
{
    if cursor.sees(Terminal::Word) {
        Ok(TypeName::Named(word(alloc, cursor)?))
    } else if cursor.sees_key(Key::Void) {
        means(cursor, Terminal::Key(Key::Void), TypeName::Void)
    } else if cursor.sees_key(Key::Boolean) {
        means(cursor, Terminal::Key(Key::Boolean), TypeName::Boolean)
    } else if cursor.sees_key(Key::Octet) {
        means(cursor, Terminal::Key(Key::Octet), TypeName::Octet)
    } else if cursor.sees_key(Key::Short) {
        means(cursor, Terminal::Key(Key::Short), TypeName::Short)
    } else if cursor.sees_key(Key::Long) {
        long_type(cursor, TypeName::Long, TypeName::LongLong)
    } else if cursor.sees_key(Key::Unsigned) {
        unsigned_type(cursor)
    } else {
        wide_type(cursor)
    }
}
