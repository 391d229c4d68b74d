//! The beginning of a call with a frame that a line gives.

ghost use Rattle.std.specs.Prelude.{◌≡◌, ◌<◌, ◌≤◌, ◌^◌, IfErr, IfOk, List, None, Ok, length, nat_le};
ghost use Rattle.call_model.specs.Placement.{stack_len_of};
ghost use Rattle.call_model.specs.Prototype.{types_of};
ghost use Rattle.call_replies.specs.Blocks.{Block};
ghost use Rattle.call_scripts.specs.declared.script.MemberRef.{MemberRef};
ghost use Rattle.invoke_by_index.specs.Methods.{prototype};
ghost use Rattle.lib_model.specs.Table.{table_of};
ghost use Rattle.object_memory.specs.declared.layout.TheConstants.{SLOTS};
ghost use Rattle.script_meaning.specs.Enters as enters;
ghost use Rattle.script_meaning.specs.Members.{member_named};
ghost use Rattle.script_meaning.specs.Refusing.{require};
ghost use Rattle.script_meaning.specs.State.{State};
ghost use Rattle.script_members.specs.Remembered.{shown};
ghost use Rattle.transcript_text.specs.declared.refusals.Refusal.TheVariants as refusals;
ghost use Rattle.begun_calls.specs.Calling.{IsAt, MayBegin, enter_begun};
ghost use Rattle.begun_calls.specs.Machines.{HasEntered, IsObjectOn};

use crate::objects::address_of;
use call_model::Conv;
use call_scripts::EnterItem;
use descriptor_reader::{MethodView, Typelib};
use entered_frames::{enter_frame, misformed};
use invoke_by_index::stack_len;
use object_memory::Machine;
use script_chains::Begun;
use script_members::Found;
use script_objects::Objects;
use script_stage::{Stage, StepError};
use transcript_text::Refusal;
use xp_base::Memory;

/// How many bytes of stack the arguments of a method need under a convention, the object's address
/// among them.
fn stack_needed(conv: Conv, method: &MethodView<'_>) -> u32
    ensures { result ≡ stack_len_of conv (types_of (prototype method.now)) }
{
    match conv {
        Conv::SysV64 => stack_len::<sysv_x86_64::Walk>(method),
        Conv::I386 => stack_len::<cdecl_i386::Walk>(method),
        Conv::Aapcs64 => stack_len::<aapcs64::Walk>(method),
        Conv::Ms64 => stack_len::<ms_x64::Walk>(method),
        Conv::Aapcs32 => stack_len::<aapcs32::Walk>(method),
    }
}

/// Refuses a frame whose stack is shorter than the arguments of a method need.
fn check_stack(machine: &Machine, method: &MethodView<'_>) -> Result<(), Refusal>
    ensures { let needs = stack_len_of machine.now.conv (types_of (prototype method.now)) in
        let has = length machine.now.frame.stack in
        result ≡ require (nat_le needs has) (refusals.Frame needs has) }
{
    let needs = stack_needed(machine.conv(), method);
    let has = machine.frame().stack_len();
    if needs > has {
        return Err(Refusal::Frame { needs, has });
    }
    Ok(())
}

/// The number of an item, as a refusal tells it. More items than it can tell take more memory than
/// there is, so that the one error is want of it.
fn told_number(item: usize) -> Result<u32, Memory>
    ensures told { IfOk result (λ number. number ≡ item) }
    ensures err { IfErr result (λ _. 2 ^ 32 ≤ item) }
{
    if item > u32::MAX as usize {
        return Err(Memory);
    }
    Ok(item as u32)
}

/// Makes the frame the one with the items of a line, for the object of a number.
fn enter_object(
    machine: &mut Machine,
    objects: &Objects,
    number: u32,
    method: &MethodView<'_>,
    items: &[EnterItem],
) -> Begun
    requires object { (blocks : List Block) × ((b : Block)
        × IsObjectOn machine.old objects.now blocks number b) }
    requires items { enters.misformed machine.old.conv items.now ≡ None }
    requires slot { method.now.slot < SLOTS }
    ensures { (blocks : List Block) (b : Block)
        → IsObjectOn machine.old objects.now blocks number b
        → HasEntered machine.old machine.new method.now items.now b number result }
{
    let this = address_of(objects, number);
    let conv = machine.conv();
    enter_frame(machine.frame_mut(), conv, this, items);
    let entry = machine.slot_entry(this, method.slot()).unwrap();
    Begun {
        number,
        entry,
        entered: true,
    }
}

/// Begins a call of a member of the object in a block with the frame of a line: the registers and
/// the stack that its items give, and the object's address. No cell is pushed, and the object is
/// not entered yet.
///
/// It is refused, in this order, where no block has the name; where the frame does not take an
/// item; where the block is no object, or one of another interface; and where the stack is shorter
/// than the arguments need. The stage is at the same state then. The one other error is want of
/// memory, for the number of an item that no frame takes.
pub fn begin_enter(
    typelib: &Typelib<'_>,
    stage: &mut Stage<'_>,
    found: &Found<'_>,
    name: &[u8],
    items: &[EnterItem],
) -> Result<Begun, StepError>
    requires at { (state : State) × IsAt (table_of typelib.now) stage.old state }
    requires member { (member : MemberRef)
        × (member_named (table_of typelib.now) member ≡ Ok (shown found.now)) }
    requires slot { found.now.method.slot < SLOTS }
    ensures { MayBegin
        (table_of typelib.now)
        (λ state. enter_begun
        (table_of typelib.now)
        stage.old.machine.conv
        state
        name.now
        items.now
        (shown found.now))
        stage.old
        stage.new
        found.now.method
        result }
{
    // A typelib stands for a valid library, in which the rule of the object that answers suits.
    let _ = typelib.iface_count();
    if stage.named(name).is_none() {
        return Err(StepError::Refused(Refusal::NoName));
    }
    if let Some(item) = misformed(stage.machine.conv(), items) {
        return Err(StepError::Refused(Refusal::Form(told_number(item)?)));
    }
    let number = stage.object_named(typelib, found.iface, name)?;
    let begun = enter_object(
        &mut stage.machine,
        &stage.objects,
        number,
        &found.method,
        items,
    );
    check_stack(&stage.machine, &found.method)?;
    Ok(begun)
}
