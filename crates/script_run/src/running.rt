//! Whole scripts.

ghost use Rattle.std.specs.Prelude.{◌≡◌, ◌≤◌, [], Err, OnErr, OnOk};
ghost use Rattle.call_replies.specs.Blocks.{HoldsBlocks};
ghost use Rattle.lib_model.specs.Table.{table_of};
ghost use Rattle.machine_bench.specs.Seen.{Saw, SawPrefix};
ghost use Rattle.object_memory.specs.Memory.{new_machine};
ghost use Rattle.script_meaning.specs.State.{State};
ghost use Rattle.script_meaning.specs.Transcript.{end, run_from, sights, static};
ghost use Rattle.script_run.specs.Runners.{IsReady, StaysReady, table_in};
ghost use Rattle.begun_calls.specs.Calling.{IsAt};
ghost use Rattle.script_run.specs.Runs.{HasRun, HasRunSome, looks_of};
ghost use Rattle.xp_base.specs.Causes.{Rose};
ghost use Rattle.xp_base.specs.Written.{Gained, GainedPrefix};
ghost use Rattle.xp_base.specs.declared.run_faults.RunFault.TheVariants as RunFaults;

use crate::runner::Runner;
use call_scripts::{Line, Script};
use descriptor_reader::Typelib;
use machine_bench::Bench;
use object_memory::Machine;
use std::alloc::Global;
use std::mem;
use xp_base::{RunFault, Sink, put_all};

/// Runs a script on a new machine, under the machine's convention, and writes the transcript of its
/// calls: for each line its words, and what came of it. A line that is refused says so in the
/// transcript, changes nothing, and the next line runs.
///
/// `bench` is shown the machine twice in each call and enter that is not refused: when the frame
/// stands and the object is not yet entered, and after the reply; and once for each further object
/// on the way. The machine is as `Machine::new` gives it. `Sink` comes only where the sink's count
/// of faults rose, and `Memory` is free; after either the sink gained a prefix of the transcript,
/// the bench saw first ones of the sights, and nothing is said of the machine.
pub fn run_script<'a, O: Sink, B: Bench>(
    alloc: Global,
    machine: &mut Machine,
    lib: &'a Typelib<'a>,
    script: &'a Script,
    out: &mut O,
    bench: &mut B,
) -> Result<(), RunFault>
    requires { machine.old ≡ new_machine machine.old.conv }
    ensures ok { OnOk result (Gained (O.written out.old) (O.written out.new)
        (static (table_of lib.now) machine.old.conv script.now.lines)) }
    ensures saw { OnOk result (Saw (B.seen bench.old) (B.seen bench.new)
        (sights (table_of lib.now) machine.old.conv script.now.lines)) }
    ensures holds { OnOk result (HoldsBlocks machine.new
        (end (table_of lib.now) machine.old.conv script.now.lines).blocks) }
    ensures popped { OnOk result (machine.new.cells ≡ []) }
    ensures conv { OnOk result (machine.new.conv ≡ machine.old.conv) }
    ensures err { OnErr result (GainedPrefix (O.written out.old) (O.written out.new)
        (static (table_of lib.now) machine.old.conv script.now.lines)) }
    ensures saw_some { OnErr result (SawPrefix (B.seen bench.old) (B.seen bench.new)
        (sights (table_of lib.now) machine.old.conv script.now.lines)) }
    ensures cause { result ≡ Err RunFaults.Sink → Rose (O.faults out.old) (O.faults out.new) }
    ensures never_falls { O.faults out.old ≤ O.faults out.new }
{
    // A typelib stands for a valid library.
    let _ = lib.iface_count();
    let mut runner = Runner::new(alloc, lib, machine.conv())?;
    mem::swap(machine, &mut runner.stage.machine);
    let ran = run_lines(&mut runner, script.lines.as_slice(), out, bench);
    mem::swap(machine, &mut runner.stage.machine);
    ran
}

/// Runs lines from the stage as it is, and writes what comes of each.
fn run_lines<'a, O: Sink, B: Bench>(
    runner: &mut Runner<'a>,
    lines: &'a [Line],
    out: &mut O,
    bench: &mut B,
) -> Result<(), RunFault>
    requires { IsReady runner.old }
    ensures ran { (state : State)
        → IsAt (table_in runner.old) runner.old.stage state
        → OnOk
        result
        (HasRun
        runner.new.stage
        (looks_of B.seen bench.old bench.new)
        (O.written out.old)
        (O.written out.new)
        (run_from (table_in runner.old) runner.old.stage.machine.conv state lines.now)) }
    ensures cut { (state : State)
        → IsAt (table_in runner.old) runner.old.stage state
        → OnErr
        result
        (HasRunSome
        (looks_of B.seen bench.old bench.new)
        (O.written out.old)
        (O.written out.new)
        (run_from (table_in runner.old) runner.old.stage.machine.conv state lines.now)) }
    ensures stays { OnOk result (StaysReady runner.old runner.new) }
    ensures cause { result ≡ Err RunFaults.Sink → Rose (O.faults out.old) (O.faults out.new) }
    ensures never_falls { O.faults out.old ≤ O.faults out.new }
{
    for line in lines {
        let text = runner.step(line, bench)?;
        put_all(out, text.as_slice())?;
    }
    Ok(())
}
