//! What a machine shows, read off it.

ghost use Rattle.std.specs.Prelude.{◌≡◌, IfOk};
ghost use Rattle.object_memory.specs.Cells.{cell_numbers};
ghost use Rattle.machine_bench.specs.Seen as seen;

use crate::sight::Sight;
use object_memory::{CELLS_AT, Frame, MOST_CELLS, Machine, Width};
use std::alloc::Global;
use xp_base::{Bytes, List, Memory};

/// What a machine shows. The one error is want of memory.
pub(crate) fn look_at(alloc: Global, machine: &Machine) -> Result<Sight, Memory>
    ensures { IfOk result (λ sight. sight ≡ seen.sight_of machine.now) }
{
    let frame = machine.frame();
    Ok(Sight {
        gprs: general_registers(alloc, frame)?,
        fprs: float_registers(alloc, frame)?,
        stack: Bytes::copy(alloc, frame.stack())?,
        cells: pushed_cells(alloc, machine)?,
        heap: Bytes::copy(alloc, machine.heap())?,
    })
}

/// The general registers of a frame. The one error is want of memory.
fn general_registers(alloc: Global, frame: &Frame) -> Result<List<u64>, Memory>
    ensures { IfOk result (λ registers. registers ≡ frame.now.gprs) }
{
    let mut registers = List::new(alloc);
    for i in 0..8 {
        registers.push(frame.gpr(i))?;
    }
    Ok(registers)
}

/// The float registers of a frame. The one error is want of memory.
fn float_registers(alloc: Global, frame: &Frame) -> Result<List<u64>, Memory>
    ensures { IfOk result (λ registers. registers ≡ frame.now.fprs) }
{
    let mut registers = List::new(alloc);
    for i in 0..8 {
        registers.push(frame.fpr(i))?;
    }
    Ok(registers)
}

/// The numbers in the pushed cells. The one error is want of memory.
fn pushed_cells(alloc: Global, machine: &Machine) -> Result<List<u64>, Memory>
    ensures { IfOk result (λ cells. cells ≡ cell_numbers machine.now.cells) }
{
    let pushed = MOST_CELLS - machine.cells_free();
    let mut cells = List::new(alloc);
    for k in 0..pushed {
        let number = machine
            .load(CELLS_AT + 8 * u64::from(k), Width::W8)
            .unwrap_or(0);
        cells.push(number)?;
    }
    Ok(cells)
}
