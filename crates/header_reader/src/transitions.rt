//! What may follow what in a header: where it stands behind one more line.

ghost use Rattle.std.specs.Prelude.{◌≡◌, ◌≤◌, ◌<◌, length, map, position, false, Some, IfOk, IfSome};
ghost use Rattle.std.specs.List.{All, list_any};
ghost use Rattle.line_words.specs.Words.{Gives};
ghost use Rattle.header_model.specs.Declares as declares;
ghost use Rattle.header_model.specs.Declares.{has_name, next_slot, slots_at};
ghost use Rattle.header_model.specs.declared.lines.Line.TheVariants as lines;
ghost use Rattle.header_model.specs.declared.states.State.TheVariants as states;
ghost use Rattle.header_reader.specs.Reading.{AreFit, IsFit, names_of};

use crate::class_names::ClassNames;
use call_model::CType;
use header_model::{Decl, DeclSlot, Line, MAX_ARGUMENTS, MAX_SLOTS, State};
use line_words::Unread;
use std::alloc::Global;
use xp_base::{Bytes, List, dec_text};

/// Where the header stands behind the line. `names` are the names of the classes that have begun,
/// and stay so.
pub(crate) fn step(
    alloc: Global,
    names: &mut ClassNames,
    state: State,
    line: Line,
) -> Result<State, Unread>
    requires known { names.now ≡ names_of state }
    requires fit { IsFit state }
    ensures next { Gives result (declares.step state line) }
    ensures known { IfOk result (λ next. names.new ≡ names_of next) }
{
    match state {
        State::Between(decls) => between(alloc, names, decls, line),
        State::Begun(decls, decl) => begun(decls, decl, line),
        State::Inside(decls, decl) => inside(alloc, decls, decl, line),
    }
}

fn between(
    alloc: Global,
    names: &mut ClassNames,
    decls: List<Decl>,
    line: Line,
) -> Result<State, Unread>
    requires known { names.now ≡ names_of (states.Between decls) }
    requires fit { AreFit decls }
    ensures next { Gives result (declares.step (states.Between decls) line) }
    ensures known { IfOk result (λ next. names.new ≡ names_of next) }
{
    match line {
        Line::Forward => forward(decls),
        Line::Class { name, parent } => class(alloc, names, decls, name, parent),
        _ => Err(Unread::NoReading),
    }
}

/// A forward line, which no class may precede.
fn forward(decls: List<Decl>) -> Result<State, Unread>
    ensures next { Gives result (declares.step_forward decls) }
    ensures known { IfOk result (λ next. names_of next ≡ names_of (states.Between decls)) }
{
    if decls.len() == 0 {
        Ok(State::Between(decls))
    } else {
        Err(Unread::NoReading)
    }
}

/// The first line of a class.
fn class(
    alloc: Global,
    names: &mut ClassNames,
    decls: List<Decl>,
    name: Bytes,
    parent: Option<Bytes>,
) -> Result<State, Unread>
    requires known { names.now ≡ map (λ decl. decl.name) decls }
    requires fit { AreFit decls }
    ensures next { Gives result (declares.step_class decls name parent) }
    ensures known { IfOk result (λ next. names.new ≡ names_of next) }
{
    if names.has(name.as_slice()) {
        return Err(Unread::NoReading);
    }
    let slots = List::new(alloc);
    let Some(parent) = parent else {
        let decl = Decl {
            name,
            parent: None,
            first: 0,
            slots,
        };
        return begin(names, decls, decl);
    };
    let number = names.number_of(parent.as_slice()).ok_or(Unread::NoReading)?;
    let decl = Decl {
        name,
        parent: Some(number as u32),
        first: slots_of(&decls, number),
        slots,
    };
    begin(names, decls, decl)
}

fn begin(names: &mut ClassNames, decls: List<Decl>, decl: Decl) -> Result<State, Unread>
    requires known { names.now ≡ map (λ decl. decl.name) decls }
    requires fresh { list_any (has_name decl.name) decls ≡ false }
    ensures next { Gives result (Some (states.Begun decls decl)) }
    ensures known { IfOk result (λ next. names.new ≡ names_of next) }
{
    names.add(decl.name.as_slice())?;
    Ok(State::Begun(decls, decl))
}

/// How many slots the class of this number has, those of the classes that it extends counted.
fn slots_of(decls: &List<Decl>, number: usize) -> u16
    requires { All (λ decl. next_slot decl ≤ 250) decls.now }
    ensures { result ≡ slots_at decls.now number }
{
    match decls.get(number) {
        Some(decl) => slot_after(decl),
        None => 0,
    }
}

/// The slot that the next own function of the class takes.
fn slot_after(decl: &Decl) -> u16
    requires { next_slot decl.now ≤ 250 }
    ensures { result ≡ next_slot decl.now }
{
    decl.first + decl.slots.len() as u16
}

fn begun(decls: List<Decl>, decl: Decl, line: Line) -> Result<State, Unread>
    ensures next { Gives result (declares.step (states.Begun decls decl) line) }
    ensures known { IfOk result (λ next. names_of next ≡ names_of (states.Begun decls decl)) }
{
    match line {
        Line::Public => Ok(State::Inside(decls, decl)),
        _ => Err(Unread::NoReading),
    }
}

fn inside(alloc: Global, decls: List<Decl>, decl: Decl, line: Line) -> Result<State, Unread>
    requires { next_slot decl ≤ 250 }
    ensures next { Gives result (declares.step (states.Inside decls decl) line) }
    ensures known { IfOk result (λ next. names_of next ≡ names_of (states.Inside decls decl)) }
{
    match line {
        Line::Reserved { number } => reserved(alloc, decls, decl, number),
        Line::Method { name, types } => method(decls, decl, name, types),
        Line::Close => closed(decls, decl),
        _ => Err(Unread::NoReading),
    }
}

/// A slot that no caller can use, which is named by its number.
fn reserved(alloc: Global, decls: List<Decl>, decl: Decl, number: Bytes) -> Result<State, Unread>
    requires { next_slot decl ≤ 250 }
    ensures next { Gives result (declares.step_reserved decls decl number) }
    ensures known { IfOk result (λ next. names_of next ≡ names_of (states.Inside decls decl)) }
{
    let slot = dec_text(alloc, i128::from(slot_after(&decl)))?;
    if number.as_slice() == slot.as_slice() {
        with_slot(decls, decl, DeclSlot::Reserved)
    } else {
        Err(Unread::NoReading)
    }
}

fn method(decls: List<Decl>, decl: Decl, name: Bytes, types: List<CType>) -> Result<State, Unread>
    requires { next_slot decl ≤ 250 }
    ensures next { Gives result (declares.step_method decls decl name types) }
    ensures known { IfOk result (λ next. names_of next ≡ names_of (states.Inside decls decl)) }
{
    if types.len() <= MAX_ARGUMENTS {
        with_slot(decls, decl, DeclSlot::Method { name, types })
    } else {
        Err(Unread::NoReading)
    }
}

fn with_slot(decls: List<Decl>, mut decl: Decl, slot: DeclSlot) -> Result<State, Unread>
    requires { next_slot decl ≤ 250 }
    ensures next { Gives result (declares.with_slot decls decl slot) }
    ensures known { IfOk result (λ next. names_of next ≡ names_of (states.Inside decls decl)) }
{
    if slot_after(&decl) >= MAX_SLOTS {
        return Err(Unread::NoReading);
    }
    decl.slots.push(slot)?;
    Ok(State::Inside(decls, decl))
}

/// The end of a class.
fn closed(mut decls: List<Decl>, decl: Decl) -> Result<State, Unread>
    ensures next { Gives result (declares.step (states.Inside decls decl) lines.Close) }
    ensures known { IfOk result (λ next. names_of next ≡ names_of (states.Inside decls decl)) }
{
    decls.push(decl)?;
    Ok(State::Between(decls))
}
