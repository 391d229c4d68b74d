//! The reader of members.

ghost use Rattle.std.specs.Prelude.{◌≡◌};
ghost use Rattle.idl_grammar.specs.Grammar as spec;
ghost use Rattle.idl_grammar.specs.Rule as rule;
ghost use Rattle.idl_grammar.specs.Read.{read};
ghost use Rattle.idl_grammar.specs.Gives.{Collects, Gives};

use crate::attributes::any_attributes;
use crate::cursor::{Cursor, Stop, means, word};
use crate::expressions::expression;
use crate::terminal::{Key, Mark, Terminal};
use crate::tree::{Attr, Member, MemberBody, ParamDecl};
use crate::types::type_name;
use std::alloc::Global;
use xp_base::{Dir, List};

#[tactic(auto, unfolding(crate::specs::Grammar::direction))]
fn direction(cursor: &mut Cursor<'_>) -> Result<Dir, Stop>
    ensures { Gives (read spec.direction cursor.old) result cursor.new }
{
    if cursor.sees_key(Key::In) {
        means(cursor, Terminal::Key(Key::In), Dir::Inward)
    } else if cursor.sees_key(Key::Out) {
        means(cursor, Terminal::Key(Key::Out), Dir::Outward)
    } else {
        means(cursor, Terminal::Key(Key::InOut), Dir::Both)
    }
}

#[tactic(auto, unfolding(crate::specs::Grammar::parameter))]
fn parameter(alloc: Global, cursor: &mut Cursor<'_>) -> Result<ParamDecl, Stop>
    ensures { Gives (read spec.parameter cursor.old) result cursor.new }
{
    let attrs = any_attributes(alloc, cursor)?;
    let dir = direction(cursor)?;
    let of = type_name(alloc, cursor)?;
    let name = word(alloc, cursor)?;
    Ok(ParamDecl {
        attrs,
        dir,
        of,
        name,
    })
}

/// Parameters, each behind a comma.
fn more_parameters(
    alloc: Global,
    found: &mut List<ParamDecl>,
    cursor: &mut Cursor<'_>,
) -> Result<(), Stop>
    ensures { Collects spec.more_parameters found.old cursor.old result found.new cursor.new }
{
    'turns: while cursor.sees_mark(Mark::Comma) {
        cursor.take_mark(Mark::Comma)?;
        let one = parameter(alloc, cursor)?;
        found.push(one)?;
    }
    Ok(())
}

#[tactic(auto, unfolding(crate::specs::Grammar::parameter_list))]
fn parameter_list(alloc: Global, cursor: &mut Cursor<'_>) -> Result<List<ParamDecl>, Stop>
    ensures { Gives (read spec.parameter_list cursor.old) result cursor.new }
{
    let first = parameter(alloc, cursor)?;
    let mut found = List::new(alloc);
    found.push(first)?;
    more_parameters(alloc, &mut found, cursor)?;
    Ok(found)
}

/// The symbols with which a parameter begins.
const PARAMETER: [Terminal; 4] = [
    Terminal::Mark(Mark::LBracket),
    Terminal::Key(Key::In),
    Terminal::Key(Key::Out),
    Terminal::Key(Key::InOut),
];

/// The parameters that stand there, or none.
#[tactic(auto, using(crate::proofs::Starts::parameter_starts), unfolding(crate::specs::Grammar::parameters))]
fn parameters(alloc: Global, cursor: &mut Cursor<'_>) -> Result<List<ParamDecl>, Stop>
    ensures { Gives (read spec.parameters cursor.old) result cursor.new }
{
    if cursor.sees_any(&PARAMETER) {
        parameter_list(alloc, cursor)
    } else {
        Ok(List::new(alloc))
    }
}

/// Goes on behind names, each behind a comma.
#[tactic(auto, unfolding(crate::specs::Grammar::passed_names))]
fn pass_names(cursor: &mut Cursor<'_>) -> Result<(), Stop>
    ensures { Gives (read spec.passed_names cursor.old) result cursor.new }
{
    'turns: while cursor.sees_mark(Mark::Comma) {
        cursor.take_mark(Mark::Comma)?;
        cursor.take(Terminal::Word)?;
    }
    Ok(())
}

/// Goes on behind `raises` with its names, where it stands there.
#[tactic(auto, unfolding(crate::specs::Grammar::any_raises))]
fn pass_raises(cursor: &mut Cursor<'_>) -> Result<(), Stop>
    ensures { Gives (read spec.any_raises cursor.old) result cursor.new }
{
    if cursor.sees_key(Key::Raises) {
        cursor.take_key(Key::Raises)?;
        cursor.take_mark(Mark::LParen)?;
        cursor.take(Terminal::Word)?;
        pass_names(cursor)?;
        cursor.take_mark(Mark::RParen)?;
    }
    Ok(())
}

#[tactic(auto, unfolding(crate::specs::Grammar::any_readonly))]
fn any_readonly(cursor: &mut Cursor<'_>) -> Result<bool, Stop>
    ensures { Gives (read spec.any_readonly cursor.old) result cursor.new }
{
    if cursor.sees_key(Key::ReadOnly) {
        means(cursor, Terminal::Key(Key::ReadOnly), true)
    } else {
        Ok(false)
    }
}

/// An attribute behind these attributes of its own.
#[tactic(auto, unfolding(crate::specs::Grammar::attribute))]
fn attribute(alloc: Global, attrs: List<Attr>, cursor: &mut Cursor<'_>) -> Result<MemberBody, Stop>
    ensures { Gives (read (rule.map (λ f. f attrs) spec.attribute) cursor.old) result cursor.new }
{
    let readonly = any_readonly(cursor)?;
    cursor.take_key(Key::Attribute)?;
    let of = type_name(alloc, cursor)?;
    let name = word(alloc, cursor)?;
    cursor.take_mark(Mark::Semi)?;
    Ok(MemberBody::Attribute {
        attrs,
        readonly,
        of,
        name,
    })
}

/// A method behind these attributes.
#[tactic(auto, unfolding(crate::specs::Grammar::method))]
fn method(alloc: Global, attrs: List<Attr>, cursor: &mut Cursor<'_>) -> Result<MemberBody, Stop>
    ensures { Gives (read (rule.map (λ f. f attrs) spec.method) cursor.old) result cursor.new }
{
    let of = type_name(alloc, cursor)?;
    let name = word(alloc, cursor)?;
    cursor.take_mark(Mark::LParen)?;
    let params = parameters(alloc, cursor)?;
    cursor.take_mark(Mark::RParen)?;
    pass_raises(cursor)?;
    cursor.take_mark(Mark::Semi)?;
    Ok(MemberBody::Method {
        attrs,
        of,
        name,
        params,
    })
}

/// The symbols with which an attribute begins behind its own attributes.
const ATTRIBUTE: [Terminal; 2] = [Terminal::Key(Key::ReadOnly), Terminal::Key(Key::Attribute)];

/// An attribute or a method, with the attributes before it.
#[tactic(auto, using(crate::proofs::Starts::attribute_starts), unfolding(crate::specs::Grammar::marked_member))]
fn marked_member(alloc: Global, cursor: &mut Cursor<'_>) -> Result<MemberBody, Stop>
    ensures { Gives (read spec.marked_member cursor.old) result cursor.new }
{
    let attrs = any_attributes(alloc, cursor)?;
    if cursor.sees_any(&ATTRIBUTE) {
        attribute(alloc, attrs, cursor)
    } else {
        method(alloc, attrs, cursor)
    }
}

#[tactic(auto, unfolding(crate::specs::Grammar::constant))]
fn constant(alloc: Global, cursor: &mut Cursor<'_>) -> Result<MemberBody, Stop>
    ensures { Gives (read spec.constant cursor.old) result cursor.new }
{
    cursor.take_key(Key::Const)?;
    let of = type_name(alloc, cursor)?;
    let name = word(alloc, cursor)?;
    cursor.take_mark(Mark::Equals)?;
    let value = expression(alloc, cursor)?;
    cursor.take_mark(Mark::Semi)?;
    Ok(MemberBody::Constant { of, name, value })
}

#[tactic(auto, using(crate::proofs::Starts::constant_starts), unfolding(crate::specs::Grammar::member_body))]
fn member_body(alloc: Global, cursor: &mut Cursor<'_>) -> Result<MemberBody, Stop>
    ensures { Gives (read spec.member_body cursor.old) result cursor.new }
{
    if cursor.sees(Terminal::Code) {
        means(cursor, Terminal::Code, MemberBody::Code)
    } else if cursor.sees_key(Key::Const) {
        constant(alloc, cursor)
    } else {
        marked_member(alloc, cursor)
    }
}

#[tactic(auto, unfolding(crate::specs::Grammar::one_member))]
fn one_member(alloc: Global, cursor: &mut Cursor<'_>) -> Result<Member, Stop>
    ensures { Gives (read spec.one_member cursor.old) result cursor.new }
{
    let line = cursor.line();
    let body = member_body(alloc, cursor)?;
    Ok(Member { line, body })
}

/// The symbols with which a member begins.
const MEMBER: [Terminal; 18] = [
    Terminal::Code,
    Terminal::Key(Key::Const),
    Terminal::Mark(Mark::LBracket),
    Terminal::Key(Key::ReadOnly),
    Terminal::Key(Key::Attribute),
    Terminal::Word,
    Terminal::Key(Key::Void),
    Terminal::Key(Key::Boolean),
    Terminal::Key(Key::Octet),
    Terminal::Key(Key::Short),
    Terminal::Key(Key::Long),
    Terminal::Key(Key::Unsigned),
    Terminal::Key(Key::Float),
    Terminal::Key(Key::Double),
    Terminal::Key(Key::Char),
    Terminal::Key(Key::WChar),
    Terminal::Key(Key::String),
    Terminal::Key(Key::WString),
];

/// Members, as many as stand there, put behind those that were found.
fn more_members(
    alloc: Global,
    found: &mut List<Member>,
    cursor: &mut Cursor<'_>,
) -> Result<(), Stop>
    ensures { Collects spec.members found.old cursor.old result found.new cursor.new }
{
    'turns: while cursor.sees_any(&MEMBER) {
        let one = one_member(alloc, cursor)?;
        found.push(one)?;
    }
    Ok(())
}

/// Members, as many as stand there.
pub fn members(alloc: Global, cursor: &mut Cursor<'_>) -> Result<List<Member>, Stop>
    ensures { Gives (read spec.members cursor.old) result cursor.new }
{
    let mut found = List::new(alloc);
    more_members(alloc, &mut found, cursor)?;
    Ok(found)
}
