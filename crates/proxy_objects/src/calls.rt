//! A call that is handed on.

ghost use Rattle.std.specs.Prelude.{◌≡◌, ◌+◌, ◌≤◌, ◌∷◌, length, IsSome, Some};
ghost use Rattle.call_model.specs.Prototype.{types_of};
ghost use Rattle.call_model.specs.Values.{canon_all, frame_of, placed};
ghost use Rattle.invoke_by_index.specs.Methods.{prototype};
ghost use Rattle.object_memory.specs.Lends.{with_frame};
ghost use Rattle.object_memory.specs.Memory.{entry_at};
ghost use Rattle.proxy_objects.specs.Handing.{HandsOn};

use call_model::{CType, Conv, Convention, canonical};
use descriptor_reader::MethodView;
use invoke_by_index::fill_frame;
use object_memory::Machine;

/// The most arguments that a call has, the object's address among them.
const MOST_ARGS: usize = 258;

/// Begins a call of a method of the object at `target` with values that were received: the frame
/// gets the object's address and the value in each cell, each where the convention passes it. Gives
/// the entry of the method's slot, loaded through the object.
///
/// There is a cell for each argument of the prototype; for a value in a cell it holds the address
/// that was received, which is handed on. Nothing of the frame before is kept, nothing of the
/// machine but the frame changes, and no memory is taken.
pub fn forward_call<D: Convention>(
    machine: &mut Machine,
    target: u64,
    method: &MethodView<'_>,
    cells: &[u64],
) -> u64
    requires cells { length cells.now ≡ length (prototype method.now) }
    requires entry { IsSome (entry_at machine.old target method.now.slot) }
    ensures frame { machine.new
        ≡ with_frame
        machine.old
        (placed D.CONV (types_of (prototype method.now)) (target ∷ cells.now)) }
    ensures values { HandsOn
        D.CONV
        (prototype method.now)
        target
        cells.now
        machine.new.frame }
    ensures entry { entry_at machine.old target method.now.slot ≡ Some result }
{
    let mut types = [CType::Ptr; MOST_ARGS];
    let mut patterns = [0; MOST_ARGS];
    let count = method.positions() as usize + 1;
    place_all::<D>(
        machine,
        target,
        method,
        cells,
        &mut types[..count],
        &mut patterns[..count],
    );
    machine.slot_entry(target, method.slot()).unwrap()
}

/// Fills the frame, by way of a list of the arguments' types and one of their patterns.
fn place_all<D: Convention>(
    machine: &mut Machine,
    target: u64,
    method: &MethodView<'_>,
    cells: &[u64],
    types: &mut [CType],
    patterns: &mut [u64],
)
    requires cells { length cells.now ≡ length (prototype method.now) }
    requires types { length types.old ≡ length (prototype method.now) + 1 }
    requires patterns { length patterns.old ≡ length (prototype method.now) + 1 }
    ensures { machine.new
        ≡ with_frame
        machine.old
        (placed D.CONV (types_of (prototype method.now)) (target ∷ cells.now)) }
{
    list_all(D::CONV, target, method, cells, types, patterns);
    fill::<D>(machine, types, patterns);
}

/// Fills the machine's frame with patterns, each at the place of its type.
fn fill<D: Convention>(machine: &mut Machine, types: &[CType], patterns: &[u64])
    requires few { length types.now ≤ 258 }
    requires paired { length types.now ≡ length patterns.now }
    ensures { machine.new ≡ with_frame machine.old (frame_of D.CONV types.now patterns.now) }
{
    fill_frame::<D>(machine.frame_mut(), types, patterns);
}

/// Lists the types of a call's arguments, and the canonical patterns of its values.
fn list_all(
    conv: Conv,
    target: u64,
    method: &MethodView<'_>,
    cells: &[u64],
    types: &mut [CType],
    patterns: &mut [u64],
)
    requires cells { length cells.now ≡ length (prototype method.now) }
    requires types { length types.old ≡ length (prototype method.now) + 1 }
    requires patterns { length patterns.old ≡ length (prototype method.now) + 1 }
    ensures types { types.new ≡ types_of (prototype method.now) }
    ensures patterns { patterns.new
        ≡ canon_all conv (types_of (prototype method.now)) (target ∷ cells.now) }
    ensures few { length types.new ≤ 258 }
{
    types[0] = CType::Ptr;
    patterns[0] = canonical(conv, CType::Ptr, target);
    let mut i = 0;
    for arg in method.args() {
        let ty = arg.passed_type();
        types[i + 1] = ty;
        patterns[i + 1] = canonical(conv, ty, cells[i]);
        i += 1;
    }
}
