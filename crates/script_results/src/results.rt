//! The values that come out of a call, one after the other.

ghost use Rattle.std.specs.Prelude.{◌≡◌, ◌*◌, ◌<◌, ◌++◌, fold, length, List, OnOk, option_and_then, slice_get, take};
ghost use Rattle.std.specs.List.{flat_map};
ghost use Rattle.std.specs.Option.{option_copied};
ghost use Rattle.lib_model.specs.Table.{table_of};
ghost use Rattle.invoke_by_index.specs.Arguments as arguments;
ghost use Rattle.invoke_by_index.specs.Methods.{prototype};
ghost use Rattle.call_replies.specs.Blocks.{Block, HoldsBlocks};
ghost use Rattle.call_replies.specs.Items as items;
ghost use Rattle.script_meaning.specs.Calls.{learned_at};
ghost use Rattle.script_meaning.specs.Outs as outs;
ghost use Rattle.script_meaning.specs.Words as words_meaning;
ghost use Rattle.script_outs.specs.Held.{after_on};
ghost use Rattle.script_results.specs.Positions.{cell_positions};
ghost use Rattle.script_stage.specs.Standing.{known};

use call_model::{Note, Pass, ProtoArg};
use call_scripts::ArgWord;
use descriptor_reader::{MethodView, Typelib};
use object_memory::Machine;
use script_outs::{number_after, out_line};
use script_stage::Names;
use std::alloc::Global;
use xp_base::{Bytes, Memory};

/// Whether a value is passed in a cell.
fn is_by_cell(pass: Pass) -> bool
    ensures { result ≡ items.is_by_cell pass }
{
    matches!(pass, Pass::ByCell { .. })
}

/// Whether an argument of a prototype stands for a parameter, and is not added.
fn stands_for_param(arg: ProtoArg) -> bool
    ensures { result ≡ arguments.stands_for_param arg }
{
    !matches!(arg.note, Note::Argc | Note::Context)
}

/// The variable behind the arrow of an argument.
fn variable_of(word: &ArgWord) -> Option<&[u8]>
    ensures { option_copied result ≡ words_meaning.variable_of word.now }
{
    match word {
        ArgWord::Cell(name) => Some(name.as_slice()),
        ArgWord::ValueCell(_, name) => Some(name.as_slice()),
        ArgWord::Value(_) => None,
        ArgWord::Absent => None,
    }
}

/// The variable behind the arrow of the argument of this number; None where there is none.
fn variable_at(words: &[ArgWord], param: usize) -> Option<&[u8]>
    ensures { option_copied result
        ≡ option_and_then words_meaning.variable_of (slice_get words.now param) }
{
    variable_of(words.get(param)?)
}

/// Tells what comes out at a position. The one error is want of memory.
fn tell_out(
    alloc: Global,
    typelib: &Typelib<'_>,
    machine: &Machine,
    method: &MethodView<'_>,
    values: &[u64],
    k: u32,
    text: &mut Bytes,
) -> Result<(), Memory>
    requires paired { length values.now ≡ length (prototype method.now) }
    requires cells { length machine.now.cells ≡ 8 * length (prototype method.now) }
    requires within { k < length (prototype method.now) }
    ensures { (held : List Block) → HoldsBlocks machine.now held
        → OnOk
        result
        (text.new
        ≡ text.old
        ++ outs.out_line
        (table_of typelib.now)
        machine.now.conv
        (after_on machine.now held (prototype method.now) values.now)
        k) }
{
    let line = out_line(alloc, typelib, machine, method, values, k)?;
    text.append(line.as_slice())
}

/// Lets the variable behind the arrow of the argument at a position, which is that of this
/// parameter, learn what comes out there. The one error is want of memory.
fn learn_out<'a>(
    machine: &Machine,
    method: &MethodView<'_>,
    values: &[u64],
    words: &'a [ArgWord],
    param: usize,
    k: u32,
    variables: &mut Names<'a, i128>,
) -> Result<(), Memory>
    requires paired { length values.now ≡ length (prototype method.now) }
    requires cells { length machine.now.cells ≡ 8 * length (prototype method.now) }
    requires param { param ≡ length (arguments.parameters (take k (prototype method.now))) }
    ensures { (held : List Block)
        → OnOk
        result
        (known variables.new
        ≡ learned_at
        machine.now.conv
        (after_on machine.now held (prototype method.now) values.now)
        words.now
        (known variables.old)
        k) }
{
    match variable_at(words, param) {
        Some(name) => variables.put(name, number_after(machine, method, values, k)),
        None => Ok(()),
    }
}

/// Tells what comes out of a call after its reply, a line for each value in a cell, and lets the
/// variables behind the arrows of the arguments learn the numbers, in order. The cells of the call
/// are those that are pushed. The one error is want of memory.
pub fn tell_outs<'a>(
    alloc: Global,
    typelib: &Typelib<'_>,
    machine: &Machine,
    method: &MethodView<'_>,
    values: &[u64],
    words: &'a [ArgWord],
    variables: &mut Names<'a, i128>,
    text: &mut Bytes,
) -> Result<(), Memory>
    requires paired { length values.now ≡ length (prototype method.now) }
    requires cells { length machine.now.cells ≡ 8 * length (prototype method.now) }
    ensures lines { (held : List Block) → HoldsBlocks machine.now held
        → OnOk
        result
        (text.new
        ≡ text.old
        ++ flat_map
        (outs.out_line
        (table_of typelib.now)
        machine.now.conv
        (after_on machine.now held (prototype method.now) values.now))
        (cell_positions (prototype method.now))) }
    ensures variables { (held : List Block)
        → OnOk
        result
        (known variables.new
        ≡ fold
        (learned_at
        machine.now.conv
        (after_on machine.now held (prototype method.now) values.now)
        words.now)
        (known variables.old)
        (cell_positions (prototype method.now))) }
{
    let mut k = 0;
    let mut param = 0;
    for arg in method.args() {
        if is_by_cell(arg.pass) {
            tell_out(alloc, typelib, machine, method, values, k, text)?;
            learn_out(machine, method, values, words, param, k, variables)?;
        }
        k += 1;
        param += usize::from(stands_for_param(arg));
    }
    Ok(())
}
