//! Calls that are begun from cells.

ghost use Rattle.std.specs.Prelude.{◌*◌, length, IsTrue};
ghost use Rattle.invoke_by_index.specs.Methods.{prototype};
ghost use Rattle.invoke_by_index.specs.Ranges.{FitsWord};
ghost use Rattle.object_memory.specs.Memory.{InCells};

use call_model::{Conv, word_of};
use descriptor_reader::MethodView;
use invoke_by_index::{Arg, ArgFault, fill_cells};
use object_memory::Machine;
use script_calls::invoke_under;
use std::process::Abort;

/// The address that is passed where a method takes the context.
const CONTEXT: u64 = 0x107d0;

/// Whether a word of the convention holds a number.
fn fits_word(conv: Conv, n: u64) -> bool
    ensures { IsTrue result → FitsWord conv n }
{
    word_of(conv) == 8 || n <= 0xffff_ffff
}

/// Pushes as many cells as a call of a method has.
fn push_for(rt: &impl Abort, machine: &mut Machine, method: &MethodView<'_>) -> u64
    ensures { InCells machine.new result (8 * length (prototype method.now)) }
{
    let positions = method.positions();
    assert!(rt; positions <= machine.cells_free());
    machine.push_cells(positions)
}

/// Begins a call from its cells, and gives its entry.
fn enter(
    rt: &impl Abort,
    machine: &mut Machine,
    this: u64,
    base: u64,
    method: &MethodView<'_>,
) -> u64
    requires { InCells machine.old base (8 * length (prototype method.now)) }
{
    assert!(rt; machine.slot_entry(this, method.slot()).is_some());
    invoke_under(machine.conv(), machine, this, base, method)
}

/// Pushes and fills the cells of a call, and begins it where they take the arguments. Gives its
/// entry.
pub(crate) fn begin(
    rt: &impl Abort,
    machine: &mut Machine,
    this: u64,
    method: &MethodView<'_>,
    args: &[Arg],
) -> Result<u64, ArgFault> {
    let base = push_for(rt, machine, method);
    assert!(rt; fits_word(machine.conv(), CONTEXT));
    fill_cells(machine, base, method, CONTEXT, args)?;
    Ok(enter(rt, machine, this, base, method))
}
