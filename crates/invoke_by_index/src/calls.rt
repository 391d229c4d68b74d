//! One call of a method, from the cells of a machine.

ghost use Rattle.std.specs.Prelude.{◌≡◌, ◌*◌, ◌<◌, ◌≤◌, ◌^◌, ◌∷◌, length, IsSome, Some};
ghost use Rattle.call_model.specs.Prototype.{types_of};
ghost use Rattle.call_model.specs.Values.{placed};
ghost use Rattle.invoke_by_index.specs.Calls.{passed_value, values_in};
ghost use Rattle.invoke_by_index.specs.Methods.{prototype};
ghost use Rattle.object_memory.specs.Frames.{IsPlace, Puts, zero_frame};
ghost use Rattle.object_memory.specs.Lends.{with_frame};
ghost use Rattle.object_memory.specs.Memory.{InCells, entry_at};
ghost use Rattle.object_memory.specs.declared.layout.TheConstants.{STACK_LIMIT};

use crate::walks::stack_len;
use call_model::{CType, Convention, Loc, Pass, canonical, space_of};
use descriptor_reader::MethodView;
use object_memory::{Machine, Width};

/// Begins a call of a method of the object at `this`: the frame gets the object's address and the
/// value of each cell, each where the convention passes it. Gives the entry of the method's slot,
/// loaded through the object.
///
/// The cells of the prototype stand from `base` on. For a value in a cell the cell's address is
/// passed. Nothing of the machine but the frame changes, and no memory is taken.
pub fn invoke<C: Convention>(
    machine: &mut Machine,
    this: u64,
    base: u64,
    method: &MethodView<'_>,
) -> u64
    requires cells { InCells machine.old base (8 * length (prototype method.now)) }
    requires entry { IsSome (entry_at machine.old this method.now.slot) }
    ensures frame { machine.new
        ≡ with_frame
        machine.old
        (placed
        C.CONV
        (types_of (prototype method.now))
        (this ∷ values_in machine.old base (prototype method.now))) }
    ensures entry { entry_at machine.old this method.now.slot ≡ Some result }
{
    fill_from_cells::<C>(machine, this, base, method);
    machine.slot_entry(this, method.slot()).unwrap()
}

/// Fills the frame of a call from the cells.
fn fill_from_cells<C: Convention>(
    machine: &mut Machine,
    this: u64,
    base: u64,
    method: &MethodView<'_>,
)
    requires { InCells machine.old base (8 * length (prototype method.now)) }
    ensures { machine.new
        ≡ with_frame
        machine.old
        (placed
        C.CONV
        (types_of (prototype method.now))
        (this ∷ values_in machine.old base (prototype method.now))) }
{
    clear_frame(machine, stack_len::<C>(method));
    let conv = C::CONV;
    let mut walk = C::begin();
    let at = walk.next(CType::Ptr);
    put(
        machine,
        at,
        space_of(conv, CType::Ptr),
        canonical(conv, CType::Ptr, this),
    );
    let mut cell = base;
    for arg in method.args() {
        let ty = arg.passed_type();
        let at = walk.next(ty);
        let value = value_in(machine, arg.pass, cell);
        put(machine, at, space_of(conv, ty), canonical(conv, ty, value));
        cell += 8;
    }
}

/// Makes the frame's registers zero, and its stack so many zeros.
fn clear_frame(machine: &mut Machine, stack_len: u32)
    requires { stack_len ≤ STACK_LIMIT }
    ensures { machine.new ≡ with_frame machine.old (zero_frame stack_len) }
{
    machine.frame_mut().clear(stack_len);
}

/// Puts a pattern at a location of the frame.
fn put(machine: &mut Machine, at: Loc, space: u32, pattern: u64)
    requires { IsPlace machine.old.frame at space }
    ensures puts { Puts machine.old.frame machine.new.frame at space pattern }
    ensures alone { machine.new ≡ with_frame machine.old machine.new.frame }
{
    machine.frame_mut().put(at, space, pattern);
}

/// The value that is passed for an argument whose cell stands at an address.
fn value_in(machine: &Machine, pass: Pass, cell: u64) -> u64
    requires { InCells machine.now cell 8 }
    ensures value { result ≡ passed_value machine.now pass cell }
    ensures low { cell < 2 ^ 32 }
{
    let held = machine.load(cell, Width::W8).unwrap();
    match pass {
        Pass::ByValue | Pass::ByRef => held,
        Pass::ByCell { .. } => cell,
    }
}
