//! Which calls suit a replier.

ghost use Rattle.std.specs.Prelude.{◌≡◌, ◌||◌, length, not};
ghost use Rattle.invoke_by_index.specs.Methods.{prototype};
ghost use Rattle.call_replies.specs.Items as items;
ghost use Rattle.call_replies.specs.Writes as writes;
ghost use Rattle.call_replies.specs.Writes.{asked_by};

use call_model::{CType, Pass, ProtoArg};
use call_scripts::{ReplyItem, Term};
use descriptor_reader::MethodView;
use object_memory::{CELLS_AT, Machine, Width};

/// Whether a value is passed in a cell.
fn is_by_cell(pass: Pass) -> bool
    ensures { result ≡ items.is_by_cell pass }
{
    match pass {
        Pass::ByCell { .. } => true,
        Pass::ByValue | Pass::ByRef => false,
    }
}

/// Whether an argument is an address itself.
fn is_address(arg: ProtoArg) -> bool
    ensures { result ≡ items.is_address arg }
{
    !is_by_cell(arg.pass) && is_pointer(arg.ty)
}

fn is_pointer(ty: CType) -> bool
    ensures { result ≡ items.is_pointer ty }
{
    matches!(ty, CType::Ptr)
}

/// Whether the value at a position is passed in a cell.
fn passes_cell(method: &MethodView<'_>, position: u16) -> bool
    ensures { result ≡ items.passes_cell (prototype method.now) position }
{
    match method.arg(u32::from(position)) {
        Some(arg) => is_by_cell(arg.pass),
        None => false,
    }
}

/// Whether the argument at a position is an address itself.
fn passes_address(method: &MethodView<'_>, position: u16) -> bool
    ensures { result ≡ items.passes_address (prototype method.now) position }
{
    match method.arg(u32::from(position)) {
        Some(arg) => is_address(arg),
        None => false,
    }
}

/// Whether a term names positions that the method has, and a cell where it asks for one.
fn takes_term(method: &MethodView<'_>, term: &Term) -> bool
    ensures { result ≡ items.takes_term (prototype method.now) term.now }
{
    match term {
        Term::Number(_) | Term::Address(_) => true,
        Term::Arg(position) => method.arg(u32::from(*position)).is_some(),
        Term::InCell(position) => passes_cell(method, *position),
    }
}

fn takes_second(method: &MethodView<'_>, second: &Option<Term>) -> bool
    ensures { result ≡ items.takes_second (prototype method.now) second.now }
{
    match second {
        None => true,
        Some(term) => takes_term(method, term),
    }
}

/// Whether an item suits a method.
pub fn takes_item(method: &MethodView<'_>, item: &ReplyItem) -> bool
    ensures { result ≡ items.takes_item (prototype method.now) item.now }
{
    match item {
        ReplyItem::Result(_) => true,
        ReplyItem::Set { at, first, second } => {
            passes_cell(method, *at) && takes_term(method, first) && takes_second(method, second)
        }
        ReplyItem::Fill { at, .. } => passes_address(method, *at),
    }
}

/// Whether each item of a rule suits a method.
pub fn takes_items(method: &MethodView<'_>, rule: &[ReplyItem]) -> bool
    ensures { result ≡ items.takes_items (prototype method.now) rule.now }
{
    rule.iter().all(|item| takes_item(method, item))
}

/// Whether a pushed cell begins at an address.
fn is_pushed(machine: &Machine, at: u64) -> bool
    ensures { result ≡ writes.is_pushed machine.now.cells at }
{
    CELLS_AT <= at && at % 8 == 0 && machine.load(at, Width::W8).is_some()
}

/// Whether each value that is passed in a cell is passed in a pushed one. A method that was entered
/// needs none.
pub fn has_cells(machine: &Machine, entered: bool, method: &MethodView<'_>, values: &[u64]) -> bool
    requires { length values.now ≡ length (prototype method.now) }
    ensures { result
        ≡ writes.has_cells
        (asked_by entered (prototype method.now) values.now)
        machine.now.cells }
{
    entered || have_cells(machine, method, values)
}

fn have_cells(machine: &Machine, method: &MethodView<'_>, values: &[u64]) -> bool
    requires { length values.now ≡ length (prototype method.now) }
    ensures { result
        ≡ writes.have_cells machine.now.cells values.now 0 (prototype method.now) }
{
    let mut k = 0;
    for arg in method.args() {
        if !has_cell(machine, arg.pass, values[k]) {
            return false;
        }
        k += 1;
    }
    true
}

/// Whether a value is passed in a pushed cell, if it is passed in a cell.
fn has_cell(machine: &Machine, pass: Pass, value: u64) -> bool
    ensures { result
        ≡ (not (items.is_by_cell pass) || writes.is_pushed machine.now.cells value) }
{
    !is_by_cell(pass) || is_pushed(machine, value)
}
