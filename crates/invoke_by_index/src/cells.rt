//! The cells of a call.

ghost use Rattle.std.specs.Prelude.{◌≡◌, ◌*◌, ◌<◌, ◌^◌, length, MatchResult, None, OnErr, OnOk, Some, true};
ghost use Rattle.invoke_by_index.specs.Arguments as arguments;
ghost use Rattle.invoke_by_index.specs.Cells.{PassesValues, cells_at, with_numbers};
ghost use Rattle.invoke_by_index.specs.Methods.{prototype};
ghost use Rattle.invoke_by_index.specs.Ranges as ranges;
ghost use Rattle.object_memory.specs.Heap.{HoldsStill};
ghost use Rattle.object_memory.specs.Memory.{InCells, with_cells};
ghost use Rattle.xp_base.specs.LittleEndian.{low_bytes};

use crate::args::{Arg, ArgFault, given_at, stands_for_param};
use crate::fits::count_given;
use call_model::{Conv, Note, Pass, ProtoArg, canonical};
use descriptor_reader::MethodView;
use object_memory::{Machine, Width};

/// Fills the cells of a call of a method with its arguments, one for each argument of the
/// prototype, from `base` on.
///
/// A cell gets the canonical pattern of the number that is given for its parameter; 0 where a
/// parameter is left out, or a value comes back alone; the count of optional parameters that are
/// given, where the method takes it; and `context`, where it takes a context. `Count` comes exactly
/// where there are not as many arguments as parameters; otherwise `Form` exactly where one has not
/// the form of its parameter, with the first such; otherwise `Range` exactly where a type does not
/// take its number, with the first such. After an error the machine is as before. No memory is
/// taken.
pub fn fill_cells(
    machine: &mut Machine,
    base: u64,
    method: &MethodView<'_>,
    context: u64,
    args: &[Arg],
) -> Result<(), ArgFault>
    requires cells { InCells machine.old base (8 * length (prototype method.now)) }
    requires context { ranges.FitsWord machine.old.conv context }
    ensures fault { MatchResult
        result
        (λ _. arguments.arg_fault machine.old.conv (prototype method.now) args.now ≡ None)
        (λ fault.
        arguments.arg_fault machine.old.conv (prototype method.now) args.now ≡ Some fault) }

    // What the cells hold, and that nothing else of the machine is changed.
    ensures filled { OnOk
        result
        (cells_at machine.new base (length (prototype method.now))
        ≡ arguments.cells_of machine.old.conv base context (prototype method.now) args.now) }
    ensures alone { OnOk
        result
        (machine.new
        ≡ with_numbers
        machine.old
        base
        (arguments.cells_of machine.old.conv base context (prototype method.now) args.now)) }
    ensures holds_still { HoldsStill machine.old machine.new }
    ensures pushed { length machine.new.cells ≡ length machine.old.cells }

    // What `invoke` passes from these cells.
    ensures passes { OnOk
        result
        (PassesValues
        machine.new
        base
        (prototype method.now)
        (arguments.values_of base context (prototype method.now) args.now)) }
    ensures err { OnErr result (machine.new ≡ machine.old) }
{
    let given = count_given(machine.conv(), method, args)?;
    put_cells(machine, base, method, context, args, u64::from(given));
    Ok(())
}

/// Puts the number of each cell. The arguments fit, and so many optional parameters are given.
fn put_cells(
    machine: &mut Machine,
    base: u64,
    method: &MethodView<'_>,
    context: u64,
    args: &[Arg],
    given: u64,
)
    requires cells { InCells machine.old base (8 * length (prototype method.now)) }
    requires fit { arguments.arg_fault machine.old.conv (prototype method.now) args.now ≡ None }
    requires given { given
        ≡ arguments.given_count (arguments.parameters (prototype method.now)) args.now }
    ensures { machine.new
        ≡ with_numbers
        machine.old
        base
        (arguments.cells_of machine.old.conv base context (prototype method.now) args.now) }
{
    let conv = machine.conv();
    let mut k = 0;
    let mut cell = base;
    for param in method.args() {
        let arg = given_at(args, k);
        let value = value_of(param, arg, cell, given, context);
        put_cell(machine, cell, number_in_cell(conv, param, arg, value));
        k += usize::from(stands_for_param(param));
        cell += 8;
    }
}

/// The value that a call passes for an argument of a prototype, whose cell stands at an address.
fn value_of(param: ProtoArg, arg: Arg, cell: u64, given: u64, context: u64) -> u64
    requires { ranges.is_pattern (arguments.number_in arg) ≡ true }
    ensures { result
        ≡ arguments.value_for
        param.note
        given
        context
        (arguments.value_by param.pass cell arg) }
{
    match param.note {
        Note::Argc => given,
        Note::Context => context,
        _ => match param.pass {
            Pass::ByValue | Pass::ByRef => arg.pattern(),
            Pass::ByCell { .. } => cell,
        },
    }
}

/// What stands in the cell of an argument whose value this is.
fn number_in_cell(conv: Conv, param: ProtoArg, arg: Arg, value: u64) -> u64
    requires { ranges.is_pattern (arguments.number_in arg) ≡ true }
    ensures { result ≡ arguments.cell_by conv param.pass param.ty arg value }
{
    match param.pass {
        Pass::ByValue | Pass::ByRef => canonical(conv, param.passed_type(), value),
        Pass::ByCell { .. } => canonical(conv, param.ty, arg.pattern()),
    }
}

/// Puts a number into a cell.
fn put_cell(machine: &mut Machine, cell: u64, number: u64)
    requires { InCells machine.old cell 8 }
    ensures put { machine.new ≡ with_cells machine.old cell (low_bytes 8 number) }
    ensures low { cell < 2 ^ 32 }
{
    machine.store(cell, Width::W8, number);
}
