//! The entry of every slot of every object.

ghost use Rattle.std.specs.Prelude.{◌≡◌, ℕ, ◌≤◌, [], ◌∷◌, length, Some, Contains, IfOk, MatchResult, OnErr};
ghost use Rattle.call_model.specs.Placement as places;
ghost use Rattle.call_model.specs.Prototype.{types_of};
ghost use Rattle.call_model.specs.declared.ctypes.CType.TheVariants.{Ptr as PtrType};
ghost use Rattle.invoke_by_index.specs.Methods.{prototype};
ghost use Rattle.object_memory.specs.Memory.{entry_at};
ghost use Rattle.stub_dispatch.specs.Calls.{AreCanonical, IsObject, call_by, call_of, this_in};
ghost use Rattle.stub_dispatch.specs.Cells.{GivesCanonical, IsShort, received_cells};

use crate::callees::Callee;
use crate::recovery::{FrameShort, recover};
use call_model::{CType, Convention, own_len};
use descriptor_reader::MethodView;
use object_memory::{Frame, Machine};

/// The most arguments that a prototype has, without the object's address.
const MOST_ARGS: usize = 257;

/// Takes a call back from the machine's frame and hands it to the callee, once: the number of the
/// object at the frame's `this`, the slot of the method, and the values, each in a cell. Gives what
/// the callee answers.
///
/// The frame has an object's address where the convention passes `this`, `entry` is the entry of
/// the method's slot in that object, and the convention's word is the machine's. The cells stand on
/// the stack of this call, and it takes no memory. `FrameShort` comes exactly where the frame has a
/// shorter stack than the arguments need; then nothing was called, and nothing changed.
pub fn dispatch<C: Convention, K: Callee>(
    machine: &mut Machine,
    entry: u64,
    method: &MethodView<'_>,
    callee: &mut K,
) -> Result<u32, FrameShort>
    requires word { places.word_of C.CONV ≡ places.word_of machine.old.conv }
    requires object { Contains machine.old.objects (this_in C.CONV machine.old.frame) }
    requires entry { entry_at machine.old (this_in C.CONV machine.old.frame) method.now.slot
        ≡ Some entry }
    ensures short { MatchResult
        result
        (λ _. places.stack_len_of C.CONV (types_of (prototype method.now))
        ≤ length machine.old.frame.stack)
        (λ short. IsShort C.CONV (types_of (prototype method.now)) machine.old.frame short) }
    ensures called { IfOk
        result
        (λ answer. (object : ℕ) → IsObject machine.old (this_in C.CONV machine.old.frame) object
        → let call = call_by C.CONV machine.old.frame method.now object in
        K.reacts callee.old machine.old call callee.new machine.new answer) }
    ensures canonical { GivesCanonical
        C.CONV
        (prototype method.now)
        machine.old.frame
        (received_cells C.CONV (prototype method.now) machine.old.frame) }
    ensures err { OnErr result (machine.new ≡ machine.old) }
    ensures not_called { OnErr result (callee.new ≡ callee.old) }
{
    let mut cells = [0; MOST_ARGS];
    let positions = method.positions() as usize;
    hand_over::<C, K>(machine, method, callee, &mut cells[..positions])
}

/// Takes the values into cells, of which there are as many as arguments, and calls the callee.
fn hand_over<C: Convention, K: Callee>(
    machine: &mut Machine,
    method: &MethodView<'_>,
    callee: &mut K,
    cells: &mut [u64],
) -> Result<u32, FrameShort>
    requires word { places.word_of C.CONV ≡ places.word_of machine.old.conv }
    requires object { Contains machine.old.objects (this_in C.CONV machine.old.frame) }
    requires paired { length cells.old ≡ length (prototype method.now) }
    ensures short { MatchResult
        result
        (λ _. places.stack_len_of C.CONV (types_of (prototype method.now))
        ≤ length machine.old.frame.stack)
        (λ short. IsShort C.CONV (types_of (prototype method.now)) machine.old.frame short) }
    ensures called { IfOk
        result
        (λ answer. (object : ℕ) → IsObject machine.old (this_in C.CONV machine.old.frame) object
        → let call = call_by C.CONV machine.old.frame method.now object in
        K.reacts callee.old machine.old call callee.new machine.new answer) }
    ensures err { OnErr result (machine.new ≡ machine.old) }
    ensures not_called { OnErr result (callee.new ≡ callee.old) }
{
    recover::<C>(machine.frame(), method, cells)?;
    let object = object_in::<C>(machine);
    Ok(enter(machine, object, method, callee, cells))
}

/// Calls a method of the object of this number.
fn enter<K: Callee>(
    machine: &mut Machine,
    object: u32,
    method: &MethodView<'_>,
    callee: &mut K,
    cells: &[u64],
) -> u32
    requires { AreCanonical machine.old.conv (prototype method.now) cells.now }
    ensures { K.reacts
        callee.old
        machine.old
        (call_of method.now object cells.now)
        callee.new
        machine.new
        result }
{
    callee.call_method(object, method.slot(), method, cells, machine)
}

/// The number of the object that the frame calls. The stack is long enough for its address.
fn object_in<C: Convention>(machine: &Machine) -> u32
    requires enough { places.stack_len_of C.CONV (PtrType ∷ []) ≤ length machine.now.frame.stack }
    requires object { Contains machine.now.objects (this_in C.CONV machine.now.frame) }
    ensures { (object : ℕ) → IsObject machine.now (this_in C.CONV machine.now.frame) object
        → object ≡ result }
{
    let this = this_of::<C>(machine.frame());
    machine.object_at(this).unwrap()
}

/// The address of the object that a frame calls. The stack is long enough for it.
fn this_of<C: Convention>(frame: &Frame) -> u64
    requires { places.stack_len_of C.CONV (PtrType ∷ []) ≤ length frame.now.stack }
    ensures { result ≡ this_in C.CONV frame.now }
{
    let mut walk = C::begin();
    let at = walk.next(CType::Ptr);
    frame.own(at, own_len(C::CONV, CType::Ptr))
}
