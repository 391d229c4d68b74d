//! The arguments of a call, in its cells.

ghost use Rattle.std.specs.Prelude.{◌≡◌, [], OnErr, OnOk};
ghost use Rattle.invoke_by_index.specs.Arguments.{arg_fault, values_of};
ghost use Rattle.invoke_by_index.specs.Cells.{PassesValues};
ghost use Rattle.invoke_by_index.specs.Methods.{prototype};
ghost use Rattle.invoke_by_index.specs.Ranges.{FitsWord};
ghost use Rattle.object_memory.specs.declared.layout.TheConstants.{CELLS_AT};
ghost use Rattle.object_memory.specs.Memory.{IsLaidOut};
ghost use Rattle.script_meaning.specs.Refusing.{no_fault};
ghost use Rattle.script_meaning.specs.Step as steps;
ghost use Rattle.begun_calls.specs.Machines.{with_args};

use descriptor_reader::MethodView;
use invoke_by_index::{Arg, ArgFault, fill_cells};
use object_memory::Machine;
use transcript_text::Refusal;

/// How a line with arguments that don't fit is refused.
fn refusal_of(fault: ArgFault) -> Refusal
    ensures { result ≡ steps.refusal_of fault }
{
    match fault {
        ArgFault::Count => Refusal::Count,
        ArgFault::Form(k) => Refusal::Form(u32::from(k)),
        ArgFault::Range(k) => Refusal::Range(u32::from(k)),
    }
}

/// Pushes the cells of a call of a method, and fills them with its arguments. It is refused where
/// these don't fit the method: there are not as many as parameters, one has the wrong form, or one
/// is not in the range of its type. No cell is pushed then.
pub(crate) fn push_args(
    machine: &mut Machine,
    method: &MethodView<'_>,
    context: u64,
    args: &[Arg],
) -> Result<(), Refusal>
    requires none_pushed { machine.old.cells ≡ [] }
    requires context { FitsWord machine.old.conv context }
    ensures fault { result
        ≡ no_fault (arg_fault machine.old.conv (prototype method.now) args.now) steps.refusal_of }
    ensures pushed { OnOk
        result
        (machine.new ≡ with_args machine.old context (prototype method.now) args.now) }
    ensures passes { OnOk
        result
        (PassesValues
        machine.new
        CELLS_AT
        (prototype method.now)
        (values_of CELLS_AT context (prototype method.now) args.now)) }
    ensures laid_out { OnOk result (IsLaidOut machine.new) }
    ensures err { OnErr result (machine.new ≡ machine.old) }
{
    let count = method.positions();
    let base = machine.push_cells(count);
    match fill_cells(machine, base, method, context, args) {
        Ok(()) => Ok(()),
        Err(fault) => {
            machine.pop_cells(count);
            Err(refusal_of(fault))
        }
    }
}
