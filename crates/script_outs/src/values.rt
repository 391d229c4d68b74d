//! The values of a call after its reply.

ghost use Rattle.std.specs.Prelude.{◌≡◌, ◌*◌, ◌+◌, ◌≤◌, length, slice_index, List};
ghost use Rattle.object_memory.specs.Cells.{cell_numbers};
ghost use Rattle.invoke_by_index.specs.Arguments.{proto_at};
ghost use Rattle.invoke_by_index.specs.Methods.{prototype};
ghost use Rattle.call_replies.specs.Blocks.{Block};
ghost use Rattle.script_meaning.specs.Outs as outs;
ghost use Rattle.script_outs.specs.Held.{after_on};

use call_model::{CType, Pass, canonical};
use descriptor_reader::MethodView;
use object_memory::{CELLS_AT, Machine, Width};

/// The number in the cell of a position.
fn cell_at(machine: &Machine, k: u32) -> u64
    requires { 8 * k + 8 ≤ length machine.now.cells }
    ensures { result ≡ slice_index (cell_numbers machine.now.cells) k }
{
    machine
        .load(CELLS_AT + 8 * u64::from(k), Width::W8)
        .unwrap_or(0)
}

/// The pattern of the value at a position: of a value in a cell what the cell's own bytes hold, and
/// of any other what was received. The cells of the call are those that are pushed. 0 where there
/// is no such position.
pub(crate) fn pattern_after(
    machine: &Machine,
    method: &MethodView<'_>,
    values: &[u64],
    k: u32,
) -> u64
    requires paired { length values.now ≡ length (prototype method.now) }
    requires cells { length machine.now.cells ≡ 8 * length (prototype method.now) }
    ensures { (held : List Block)
        → result
        ≡ outs.pattern_after
        machine.now.conv
        (after_on machine.now held (prototype method.now) values.now)
        k }
{
    match method.arg(k) {
        None => 0,
        Some(arg) => match arg.pass {
            Pass::ByCell { .. } => canonical(machine.conv(), arg.ty, cell_at(machine, k)),
            Pass::ByValue | Pass::ByRef => values[k as usize],
        },
    }
}

/// A canonical pattern as a number of its type.
fn number_in_type(ty: CType, pattern: u64) -> i128
    ensures { result ≡ outs.number_in_type ty pattern }
{
    if ty.is_signed() {
        i128::from(pattern.cast_signed())
    } else {
        i128::from(pattern)
    }
}

/// The type of the value at a position; that of 8 bits with a sign where there is no such position.
fn type_at(method: &MethodView<'_>, k: u32) -> CType
    ensures { result ≡ (proto_at (prototype method.now) k).ty }
{
    match method.arg(k) {
        None => CType::I8,
        Some(arg) => arg.ty,
    }
}

/// The value at a position of a method, as a number of its type. The cells of the call are those
/// that are pushed. 0 where there is no such position.
pub fn number_after(machine: &Machine, method: &MethodView<'_>, values: &[u64], k: u32) -> i128
    requires paired { length values.now ≡ length (prototype method.now) }
    requires cells { length machine.now.cells ≡ 8 * length (prototype method.now) }
    ensures { (held : List Block)
        → result
        ≡ outs.number_after
        machine.now.conv
        (after_on machine.now held (prototype method.now) values.now)
        k }
{
    number_in_type(
        type_at(method, k),
        pattern_after(machine, method, values, k),
    )
}
