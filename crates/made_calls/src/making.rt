//! A call on a stage, from its first line to what comes out of it.

ghost use Rattle.std.specs.Prelude.{◌≡◌, ◌*◌, length, List, IfOk, IfErr, OnOk};
ghost use Rattle.lib_model.specs.Table.{table_of};
ghost use Rattle.invoke_by_index.specs.Methods.{prototype};
ghost use Rattle.machine_bench.specs.Seen.{SawPrefix};
ghost use Rattle.call_replies.specs.Blocks.{Block, HoldsBlocks};
ghost use Rattle.script_meaning.specs.Calls.{Call};
ghost use Rattle.script_meaning.specs.State.{State};
ghost use Rattle.script_meaning.specs.Step.{made_by};
ghost use Rattle.made_calls.specs.Making as making;
ghost use Rattle.made_calls.specs.Making.{CameOut, CanBeMade, IsMade};

use call_scripts::ArgWord;
use descriptor_reader::{MethodView, Typelib};
use machine_bench::Bench;
use object_memory::Machine;
use script_chains::{Begun, answer};
use script_results::tell_outs;
use script_stage::Stage;
use std::alloc::Global;
use transcript_text::{frame_lines, slot_line};
use xp_base::{Bytes, Memory};

/// The lines before the first object is entered: its slot, and the frame, where no script gave it.
/// The one error is want of memory.
fn first_lines(alloc: Global, machine: &Machine, slot: u16, entered: bool) -> Result<Bytes, Memory>
    ensures { IfOk
        result
        (λ text. text ≡ making.first_lines machine.now.conv machine.now.frame slot entered) }
{
    let mut text = slot_line(alloc, slot)?;
    if !entered {
        let frame = frame_lines(alloc, machine.conv(), machine.frame())?;
        text.append(frame.as_slice())?;
    }
    Ok(text)
}

/// Tells what comes out of a call with arguments after its reply, lets the variables learn it, and
/// takes the call's cells away, which are all that are pushed. The one error is want of memory.
fn bring_out<'a>(
    alloc: Global,
    typelib: &Typelib<'_>,
    stage: &mut Stage<'a>,
    method: &MethodView<'_>,
    values: &[u64],
    words: &'a [ArgWord],
    text: &mut Bytes,
) -> Result<(), Memory>
    requires paired { length values.now ≡ length (prototype method.now) }
    requires cells { length stage.old.machine.cells ≡ 8 * length (prototype method.now) }
    ensures { (held : List Block) → HoldsBlocks stage.old.machine held
        → OnOk
        result
        (CameOut
        (table_of typelib.now)
        stage.old
        stage.new
        method.now
        values.now
        words.now
        held
        text.old
        text.new) }
{
    tell_outs(
        alloc,
        typelib,
        &stage.machine,
        method,
        values,
        words,
        &mut stage.variables,
        text,
    )?;
    stage.machine.pop_cells(method.positions());
    Ok(())
}

/// Makes a call that has begun, or an enter, and gives the lines that tell it: the object that
/// answers makes its reply, the variables behind the arrows of the arguments learn what comes out,
/// and the cells of the call are taken away.
///
/// The bench sees the machine before each object is entered, and once more after the reply. The one
/// error is want of memory; the bench has then seen some first ones of these sights.
pub fn make_call<'a, B: Bench>(
    alloc: Global,
    typelib: &Typelib<'_>,
    stage: &mut Stage<'a>,
    begun: Begun,
    method: &MethodView<'_>,
    words: &'a [ArgWord],
    bench: &mut B,
) -> Result<Bytes, Memory>
    requires begun { (state : State) × ((call : Call)
        × CanBeMade (table_of typelib.now) stage.old state begun method.now call) }
    ensures made { (state : State) (call : Call)
        → CanBeMade (table_of typelib.now) stage.old state begun method.now call
        → IfOk
        result
        (λ text. IsMade
        stage.old
        stage.new
        (B.seen bench.old)
        (B.seen bench.new)
        text
        (made_by (table_of typelib.now) stage.old.machine.conv state words.now call)) }
    ensures err { (state : State) (call : Call)
        → CanBeMade (table_of typelib.now) stage.old state begun method.now call
        → IfErr
        result
        (λ _. SawPrefix
        (B.seen bench.old)
        (B.seen bench.new)
        (made_by (table_of typelib.now) stage.old.machine.conv state words.now call).sights) }
{
    let mut text = first_lines(alloc, &stage.machine, method.slot(), begun.entered)?;
    let answered = answer(
        alloc,
        &mut stage.machine,
        &stage.objects,
        &mut stage.rules,
        begun,
        method,
        bench,
    )?;
    text.append(answered.text.as_slice())?;
    if begun.entered {
        return Ok(text);
    }
    let values = answered.values.as_slice();
    bring_out(alloc, typelib, stage, method, values, words, &mut text)?;
    Ok(text)
}
