//! The three calls of the layers below, each under the convention that is asked for.

ghost use Rattle.std.specs.Prelude.{◌≡◌, ℕ, ◌*◌, ◌≤◌, ◌∷◌, length, Contains, IfOk, IsSome, MatchResult, OnErr, Some};
ghost use Rattle.call_model.specs.Placement as places;
ghost use Rattle.call_model.specs.Prototype.{types_of};
ghost use Rattle.call_model.specs.Values.{placed};
ghost use Rattle.invoke_by_index.specs.Calls.{values_in};
ghost use Rattle.invoke_by_index.specs.Methods.{prototype};
ghost use Rattle.object_memory.specs.Lends.{with_frame};
ghost use Rattle.object_memory.specs.Memory.{InCells, entry_at};
ghost use Rattle.proxy_objects.specs.Handing.{HandsOn};
ghost use Rattle.stub_dispatch.specs.Calls.{IsObject, call_by, this_in};
ghost use Rattle.stub_dispatch.specs.Cells.{GivesCanonical, IsShort, received_cells};

use call_model::Conv;
use descriptor_reader::MethodView;
use invoke_by_index::invoke;
use object_memory::Machine;
use proxy_objects::forward_call;
use stub_dispatch::{Callee, FrameShort, dispatch};

/// Begins a call of a method of the object at `this` under a convention: the frame gets the
/// object's address and the value of each cell, each where the convention passes it. Gives the
/// entry of the method's slot, loaded through the object.
///
/// The cells of the prototype stand from `base` on. For a value in a cell the cell's address is
/// passed. Nothing of the machine but the frame changes, and no memory is taken.
pub fn invoke_under(
    conv: Conv,
    machine: &mut Machine,
    this: u64,
    base: u64,
    method: &MethodView<'_>,
) -> u64
    requires cells { InCells machine.old base (8 * length (prototype method.now)) }
    requires entry { IsSome (entry_at machine.old this method.now.slot) }
    ensures frame { machine.new
        ≡ with_frame
        machine.old
        (placed
        conv
        (types_of (prototype method.now))
        (this ∷ values_in machine.old base (prototype method.now))) }
    ensures entry { entry_at machine.old this method.now.slot ≡ Some result }
{
    match conv {
        Conv::SysV64 => invoke::<sysv_x86_64::Walk>(machine, this, base, method),
        Conv::I386 => invoke::<cdecl_i386::Walk>(machine, this, base, method),
        Conv::Aapcs64 => invoke::<aapcs64::Walk>(machine, this, base, method),
        Conv::Ms64 => invoke::<ms_x64::Walk>(machine, this, base, method),
        Conv::Aapcs32 => invoke::<aapcs32::Walk>(machine, this, base, method),
    }
}

/// Takes a call under a convention back from the machine's frame and hands it to the callee, once:
/// the number of the object at the frame's `this`, the slot of the method, and the values, each in
/// a cell. Gives what the callee answers.
///
/// The frame has an object's address where the convention passes `this`, `entry` is the entry of
/// the method's slot in that object, and the convention's word is the machine's. `FrameShort` comes
/// exactly where the frame has a shorter stack than the arguments need; then nothing was called,
/// and nothing changed. Apart from the callee it takes no memory.
pub fn dispatch_under<K: Callee>(
    conv: Conv,
    machine: &mut Machine,
    entry: u64,
    method: &MethodView<'_>,
    callee: &mut K,
) -> Result<u32, FrameShort>
    requires word { places.word_of conv ≡ places.word_of machine.old.conv }
    requires object { Contains machine.old.objects (this_in conv machine.old.frame) }
    requires entry { entry_at machine.old (this_in conv machine.old.frame) method.now.slot
        ≡ Some entry }
    ensures short { MatchResult
        result
        (λ _. places.stack_len_of conv (types_of (prototype method.now))
        ≤ length machine.old.frame.stack)
        (λ short. IsShort conv (types_of (prototype method.now)) machine.old.frame short) }
    ensures called { IfOk
        result
        (λ answer. (object : ℕ) → IsObject machine.old (this_in conv machine.old.frame) object
        → let call = call_by conv machine.old.frame method.now object in
        K.reacts callee.old machine.old call callee.new machine.new answer) }
    ensures canonical { GivesCanonical
        conv
        (prototype method.now)
        machine.old.frame
        (received_cells conv (prototype method.now) machine.old.frame) }
    ensures err { OnErr result (machine.new ≡ machine.old) }
    ensures not_called { OnErr result (callee.new ≡ callee.old) }
{
    match conv {
        Conv::SysV64 => dispatch::<sysv_x86_64::Walk, K>(machine, entry, method, callee),
        Conv::I386 => dispatch::<cdecl_i386::Walk, K>(machine, entry, method, callee),
        Conv::Aapcs64 => dispatch::<aapcs64::Walk, K>(machine, entry, method, callee),
        Conv::Ms64 => dispatch::<ms_x64::Walk, K>(machine, entry, method, callee),
        Conv::Aapcs32 => dispatch::<aapcs32::Walk, K>(machine, entry, method, callee),
    }
}

/// Begins a call under a convention of a method of the object at `target` with values that were
/// received: the frame gets the object's address and the value in each cell, each where the
/// convention passes it. Gives the entry of the method's slot, loaded through the object.
///
/// There is a cell for each argument of the prototype; for a value in a cell it holds the address
/// that was received, which is handed on. Nothing of the frame before is kept, nothing of the
/// machine but the frame changes, and no memory is taken.
pub fn forward_under(
    conv: Conv,
    machine: &mut Machine,
    target: u64,
    method: &MethodView<'_>,
    cells: &[u64],
) -> u64
    requires cells { length cells.now ≡ length (prototype method.now) }
    requires entry { IsSome (entry_at machine.old target method.now.slot) }
    ensures frame { machine.new
        ≡ with_frame
        machine.old
        (placed conv (types_of (prototype method.now)) (target ∷ cells.now)) }
    ensures values { HandsOn conv (prototype method.now) target cells.now machine.new.frame }
    ensures entry { entry_at machine.old target method.now.slot ≡ Some result }
{
    match conv {
        Conv::SysV64 => forward_call::<sysv_x86_64::Walk>(machine, target, method, cells),
        Conv::I386 => forward_call::<cdecl_i386::Walk>(machine, target, method, cells),
        Conv::Aapcs64 => forward_call::<aapcs64::Walk>(machine, target, method, cells),
        Conv::Ms64 => forward_call::<ms_x64::Walk>(machine, target, method, cells),
        Conv::Aapcs32 => forward_call::<aapcs32::Walk>(machine, target, method, cells),
    }
}
