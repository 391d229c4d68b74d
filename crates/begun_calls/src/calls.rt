//! The beginning of a call with arguments.

ghost use Rattle.std.specs.Prelude.{◌≡◌, ◌<◌, ◌*◌, ◌∷◌, false, length, List, Ok, Some};
ghost use Rattle.call_model.specs.Prototype.{types_of};
ghost use Rattle.call_model.specs.Values.{placed};
ghost use Rattle.call_replies.specs.Blocks.{Block};
ghost use Rattle.call_scripts.specs.declared.script.MemberRef.{MemberRef};
ghost use Rattle.invoke_by_index.specs.Calls.{values_in};
ghost use Rattle.invoke_by_index.specs.Methods.{prototype};
ghost use Rattle.lib_model.specs.Table.{table_of};
ghost use Rattle.object_memory.specs.declared.layout.TheConstants.{CELLS_AT, SLOTS};
ghost use Rattle.object_memory.specs.Lends.{with_frame};
ghost use Rattle.object_memory.specs.Memory.{InCells, entry_at};
ghost use Rattle.script_meaning.specs.Members.{member_named};
ghost use Rattle.script_meaning.specs.State.{State};
ghost use Rattle.script_members.specs.Remembered.{shown};
ghost use Rattle.begun_calls.specs.Calling.{Begins, IsAt, call_begun};
ghost use Rattle.begun_calls.specs.Machines.{IsObjectOn};

use crate::arguments::push_args;
use crate::objects::address_of;
use descriptor_reader::{MethodView, Typelib};
use invoke_by_index::Arg;
use object_memory::{CELLS_AT, Machine};
use script_calls::invoke_under;
use script_chains::Begun;
use script_members::Found;
use script_objects::Objects;
use script_stage::Stage;
use transcript_text::Refusal;

/// Makes the frame of a call of the object of a number with the arguments in the pushed cells.
fn call_object(
    machine: &mut Machine,
    objects: &Objects,
    number: u32,
    method: &MethodView<'_>,
) -> Begun
    requires object { (blocks : List Block) × ((b : Block)
        × IsObjectOn machine.old objects.now blocks number b) }
    requires cells { InCells machine.old CELLS_AT (8 * length (prototype method.now)) }
    requires slot { method.now.slot < SLOTS }
    ensures frame { (blocks : List Block) (b : Block)
        → IsObjectOn machine.old objects.now blocks number b
        → machine.new
        ≡ with_frame
        machine.old
        (placed
        machine.old.conv
        (types_of (prototype method.now))
        (b.at ∷ values_in machine.old CELLS_AT (prototype method.now))) }
    ensures entry { (blocks : List Block) (b : Block)
        → IsObjectOn machine.old objects.now blocks number b
        → entry_at machine.old b.at method.now.slot ≡ Some result.entry }
    ensures number { result.number ≡ number }
    ensures entered { result.entered ≡ false }
{
    let this = address_of(objects, number);
    let entry = invoke_under(machine.conv(), machine, this, CELLS_AT, method);
    Begun {
        number,
        entry,
        entered: false,
    }
}

/// Begins a call of a member of the object at an address: its cells are pushed and filled with its
/// arguments, and the frame is that of the call. The object is not entered yet.
///
/// It is refused, in this order, where the arguments don't fit the member, where no object begins
/// at the address, or where one of another interface does. The stage is as it was then.
pub fn begin_call(
    typelib: &Typelib<'_>,
    stage: &mut Stage<'_>,
    found: &Found<'_>,
    this: i128,
    args: &[Arg],
) -> Result<Begun, Refusal>
    requires at { (state : State) × IsAt (table_of typelib.now) stage.old state }
    requires member { (member : MemberRef)
        × (member_named (table_of typelib.now) member ≡ Ok (shown found.now)) }
    requires slot { found.now.method.slot < SLOTS }
    ensures { Begins
        (table_of typelib.now)
        (λ state. call_begun
        (table_of typelib.now)
        stage.old.machine.conv
        state
        this
        args.now
        (shown found.now))
        stage.old
        stage.new
        found.now.method
        result }
{
    // A typelib stands for a valid library, in which the rule of the object that answers suits.
    let _ = typelib.iface_count();
    let asked = stage.object_at(typelib, found.iface, this);
    push_args(&mut stage.machine, &found.method, stage.context, args)?;
    match asked {
        Ok(number) => Ok(call_object(&mut stage.machine, &stage.objects, number, &found.method)),
        Err(refusal) => {
            stage.machine.pop_cells(found.method.positions());
            Err(refusal)
        }
    }
}
