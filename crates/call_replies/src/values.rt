//! What the items of a rule come to: the values of its terms, and whether its targets are lawful.

ghost use Rattle.std.specs.Prelude.{◌≡◌, ◌<◌, ℕ, Bool, List, Option, Some, None, length, is_some, option_map, false, true, if◌then◌else◌};
ghost use Rattle.call_model.specs.Values.{own_len};
ghost use Rattle.invoke_by_index.specs.Methods.{prototype};
ghost use Rattle.object_memory.specs.Memory.{InCells, cell_bytes};
ghost use Rattle.object_memory.specs.Widths.{bytes_of};
ghost use Rattle.xp_base.specs.LittleEndian.{number_of};
ghost use Rattle.call_replies.specs.Blocks.{Block, HoldsBlocks, data_at};
ghost use Rattle.call_replies.specs.Items.{passes_address, passes_cell, takes_item, takes_items, takes_second, takes_term};
ghost use Rattle.call_replies.specs.Reply as replies;
ghost use Rattle.call_replies.specs.Writes.{asked_by, has_cells, memory_of, planned, planned_for};

use call_model::{CType, canonical};
use call_scripts::{ReplyItem, Term};
use descriptor_reader::MethodView;
use object_memory::{Machine, Width};

/// The type of the argument at a position.
pub(crate) fn type_at(method: &MethodView<'_>, position: u16) -> CType
    ensures { (entered : Bool) (values : List ℕ)
        → result ≡ replies.type_in (asked_by entered (prototype method.now) values) position }
{
    match method.arg(u32::from(position)) {
        Some(arg) => arg.ty,
        None => CType::I8,
    }
}

/// The number of a few bytes at an address, where all lie in one data block.
fn number_in_block(machine: &Machine, at: u64, width: Width) -> Option<u64>
    ensures { (blocks : List Block) → HoldsBlocks machine.now blocks
        → result ≡ option_map number_of (data_at blocks at (bytes_of width)) }
{
    if machine.in_block(at, width.bytes() as u64) {
        machine.load(at, width)
    } else {
        None
    }
}

/// Whether bytes at an address, one at least, lie in one data block.
fn is_in_block(machine: &Machine, at: u64, n: usize) -> bool
    ensures { (blocks : List Block) → HoldsBlocks machine.now blocks
        → result ≡ is_some (data_at blocks at n) }
{
    machine.in_block(at, n as u64)
}

/// The number of the own bytes of a cell: of a pushed cell, or where a method was entered of the
/// bytes of a data block, if they all lie in one.
fn number_in_cell(machine: &Machine, entered: bool, at: u64, width: Width) -> Option<u64>
    requires { entered ≡ false → InCells machine.now at (bytes_of width) }
    ensures { (blocks : List Block) → HoldsBlocks machine.now blocks
        → result
        ≡ option_map
        number_of
        (if entered
        then data_at blocks at (bytes_of width)
        else Some (cell_bytes machine.now at (bytes_of width))) }
{
    if entered {
        number_in_block(machine, at, width)
    } else {
        machine.load(at, width)
    }
}

/// The value in the cell of a position. None where a method was entered and the cell does not lie
/// in one data block.
fn in_cell(
    machine: &Machine,
    entered: bool,
    method: &MethodView<'_>,
    values: &[u64],
    position: u16,
) -> Option<u64>
    requires paired { length values.now ≡ length (prototype method.now) }
    requires cell { passes_cell (prototype method.now) position ≡ true }
    requires cells { has_cells
        (asked_by entered (prototype method.now) values.now)
        machine.now.cells
        ≡ true }
    ensures { (blocks : List Block) → HoldsBlocks machine.now blocks
        → result ≡ replies.in_cell
        machine.now.conv
        (asked_by entered (prototype method.now) values.now)
        (memory_of machine.now blocks)
        position }
{
    let conv = machine.conv();
    let ty = type_at(method, position);
    let at = values[position as usize];
    match number_in_cell(machine, entered, at, Width::of(conv, ty)) {
        Some(number) => Some(canonical(conv, ty, number)),
        None => None,
    }
}

/// The value of a term. None where the value in a cell is asked for, and has none; a name has none.
fn term_value(
    machine: &Machine,
    entered: bool,
    method: &MethodView<'_>,
    values: &[u64],
    term: &Term,
) -> Option<u64>
    requires paired { length values.now ≡ length (prototype method.now) }
    requires suits { takes_term (prototype method.now) term.now ≡ true }
    requires cells { has_cells
        (asked_by entered (prototype method.now) values.now)
        machine.now.cells
        ≡ true }
    ensures { (blocks : List Block) → HoldsBlocks machine.now blocks
        → result ≡ replies.term_value
        machine.now.conv
        (asked_by entered (prototype method.now) values.now)
        (memory_of machine.now blocks)
        term.now }
{
    match term {
        Term::Number(number) => Some(modulo_word(*number)),
        Term::Address(_) => None,
        Term::Arg(position) => Some(values[*position as usize]),
        Term::InCell(position) => in_cell(machine, entered, method, values, *position),
    }
}

/// A number modulo 2 ^ 64.
fn modulo_word(number: i128) -> u64
    ensures { result ≡ replies.modulo_word number }
{
    number.rem_euclid(0x1_0000_0000_0000_0000) as u64
}

/// The value of a sum. None where a term has none.
fn sum_value(
    machine: &Machine,
    entered: bool,
    method: &MethodView<'_>,
    values: &[u64],
    first: &Term,
    second: &Option<Term>,
) -> Option<u64>
    requires paired { length values.now ≡ length (prototype method.now) }
    requires first { takes_term (prototype method.now) first.now ≡ true }
    requires second { takes_second (prototype method.now) second.now ≡ true }
    requires cells { has_cells
        (asked_by entered (prototype method.now) values.now)
        machine.now.cells
        ≡ true }
    ensures { (blocks : List Block) → HoldsBlocks machine.now blocks
        → result ≡ replies.sum_value
        machine.now.conv
        (asked_by entered (prototype method.now) values.now)
        (memory_of machine.now blocks)
        first.now
        second.now }
{
    let first = term_value(machine, entered, method, values, first)?;
    match second {
        None => Some(first),
        Some(second) => {
            let second = term_value(machine, entered, method, values, second)?;
            Some(first.wrapping_add(second))
        }
    }
}

/// Whether the cell of a position may be written: that of a call always, and where a method was
/// entered if its own bytes all lie in one data block.
fn is_lawful_cell(
    machine: &Machine,
    entered: bool,
    method: &MethodView<'_>,
    values: &[u64],
    position: u16,
) -> bool
    requires paired { length values.now ≡ length (prototype method.now) }
    requires cell { passes_cell (prototype method.now) position ≡ true }
    ensures { (blocks : List Block) (value : ℕ) → HoldsBlocks machine.now blocks
        → let call = asked_by entered (prototype method.now) values.now in
        result
        ≡ replies.is_lawful
        (memory_of machine.now blocks)
        (replies.cell_write machine.now.conv call position value) }
{
    let width = Width::of(machine.conv(), type_at(method, position));
    !entered || is_in_block(machine, values[position as usize], width.bytes())
}

/// Whether bytes may be written so far behind the address that came at a position: if they all lie
/// in one data block.
fn is_lawful_data(
    machine: &Machine,
    method: &MethodView<'_>,
    values: &[u64],
    position: u16,
    offset: u32,
    bytes: &[u8],
) -> bool
    requires paired { length values.now ≡ length (prototype method.now) }
    requires address { passes_address (prototype method.now) position ≡ true }
    ensures { (blocks : List Block) (entered : Bool) → HoldsBlocks machine.now blocks
        → let call = asked_by entered (prototype method.now) values.now in
        result
        ≡ replies.is_lawful
        (memory_of machine.now blocks)
        (replies.data_write call position offset bytes.now) }
{
    let address = values[position as usize].wrapping_add(u64::from(offset));
    is_in_block(machine, address, bytes.len())
}

/// The value of an item, zero where it has none. None where it has a term without a value, or its
/// target is not lawful.
fn item_value(
    machine: &Machine,
    entered: bool,
    method: &MethodView<'_>,
    values: &[u64],
    item: &ReplyItem,
) -> Option<u64>
    requires paired { length values.now ≡ length (prototype method.now) }
    requires suits { takes_item (prototype method.now) item.now ≡ true }
    requires cells { has_cells
        (asked_by entered (prototype method.now) values.now)
        machine.now.cells
        ≡ true }
    ensures { (blocks : List Block) → HoldsBlocks machine.now blocks
        → let call = asked_by entered (prototype method.now) values.now in
        option_map (planned_for machine.now.conv call item.now) result
        ≡ replies.item_writes machine.now.conv call (memory_of machine.now blocks) item.now }
{
    match item {
        ReplyItem::Result(_) => Some(0),
        ReplyItem::Set { at, first, second } => {
            if !is_lawful_cell(machine, entered, method, values, *at) {
                return None;
            }
            sum_value(machine, entered, method, values, first, second)
        }
        ReplyItem::Fill { at, offset, bytes } => {
            if !is_lawful_data(machine, method, values, *at, *offset, bytes.as_slice()) {
                return None;
            }
            Some(0)
        }
    }
}

/// Finds the value of each item of a rule. False where one has none: then no item is to be written.
pub fn find_values(
    machine: &Machine,
    entered: bool,
    method: &MethodView<'_>,
    values: &[u64],
    rule: &[ReplyItem],
    sums: &mut [u64],
) -> bool
    requires paired { length values.now ≡ length (prototype method.now) }
    requires suits { takes_items (prototype method.now) rule.now ≡ true }
    requires cells { has_cells
        (asked_by entered (prototype method.now) values.now)
        machine.now.cells
        ≡ true }
    requires room { length sums.old ≡ length rule.now }
    ensures { (blocks : List Block) → HoldsBlocks machine.now blocks
        → let call = asked_by entered (prototype method.now) values.now in
        replies.writes_of machine.now.conv call (memory_of machine.now blocks) rule.now
        ≡ (if result
        then Some (planned machine.now.conv call rule.now sums.new)
        else None) }
{
    for (i, item) in rule.iter().enumerate() {
        match item_value(machine, entered, method, values, item) {
            Some(value) => sums[i] = value,
            None => return false,
        }
    }
    true
}
