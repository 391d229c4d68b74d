//! The command `call`.

ghost use Rattle.std.specs.Prelude.{◌≡◌, ◌≤◌, Err, IfErr, IfOk, OnErr, OnOk, length};
ghost use Rattle.call_model.specs.declared.places.Conv as conventions;
ghost use Rattle.call_scripts.specs.Lines.{IsScript};
ghost use Rattle.lib_model.specs.Table.{table_of};
ghost use Rattle.xp_base.specs.Causes.{Rose};
ghost use Rattle.xp_base.specs.declared.run_faults.RunFault.TheVariants as RunFaults;
ghost use Rattle.xpcall_run.specs.CallWork.{HasBoth, RefusesScript, call_work, calls_given};
ghost use Rattle.xpcall_run.specs.Endings.{HasWritten, IsFirst, IsRefused, Stops};
ghost use Rattle.xpcall_run.specs.Sides.{HasAll, HasSome, output_of, reads_of, shown_of, side_of};

use crate::failures::{Failure, FileFault};
use crate::fetches::fetch;
use crate::typelibs::read_typelib;
use call_model::Conv;
use call_scripts::{Script, ScriptError, read_script};
use descriptor_reader::Typelib;
use machine_bench::Bench;
use object_memory::Machine;
use script_run::run_script;
use std::alloc::Global;
use xp_base::{Bytes, MAX_TEXT, MAX_TYPELIB, RunFault, Sink, Source};

/// The bytes of a typelib and of a script.
#[derive(Drop)]
struct CallFiles {
    typelib: Bytes,
    script: Bytes,
}

/// Makes the calls of the script `script` over the typelib `typelib`, under a convention, writes
/// what came of them to `out`, and shows them to `bench`; or says why it can't.
pub fn call<S: Source, O: Sink, B: Bench>(
    alloc: Global,
    conv: Conv,
    typelib: &Bytes,
    script: &Bytes,
    files: &mut S,
    out: &mut O,
    bench: &mut B,
) -> Result<(), Failure>
    ensures ok { OnOk result (HasWritten (call_work conv typelib.now script.now)
        (S.files files.old)
        (output_of (side_of O.written O.faults out.old out.new)
        (shown_of B.seen bench.old bench.new))) }
    ensures err { IfErr result (IsFirst (call_work conv typelib.now script.now)
        (reads_of S.files S.faults files.old files.new)
        (output_of (side_of O.written O.faults out.old out.new)
        (shown_of B.seen bench.old bench.new))) }
    ensures same_files { S.files files.new ≡ S.files files.old }
{
    let found = fetch_both(alloc, typelib, script, files)?;
    let lib = read_typelib(alloc, typelib, found.typelib.as_slice())?;
    let lines = read_lines(alloc, script, found.script.as_slice())?;
    play(alloc, conv, &lib, &lines, out, bench)?;
    Ok(())
}

/// Runs a script on a machine of its own, under a convention.
fn play<O: Sink, B: Bench>(
    alloc: Global,
    conv: Conv,
    lib: &Typelib<'_>,
    script: &Script,
    out: &mut O,
    bench: &mut B,
) -> Result<(), RunFault>
    ensures ok { OnOk result (HasAll
        (output_of (side_of O.written O.faults out.old out.new)
        (shown_of B.seen bench.old bench.new))
        (calls_given (table_of lib.now) conv script.now.lines)) }
    ensures err { OnErr result (HasSome
        (output_of (side_of O.written O.faults out.old out.new)
        (shown_of B.seen bench.old bench.new))
        (calls_given (table_of lib.now) conv script.now.lines)) }
    ensures cause { result ≡ Err RunFaults.Sink → Rose (O.faults out.old) (O.faults out.new) }
{
    let mut machine = Machine::new(alloc, conv)?;
    run_script(alloc, &mut machine, lib, script, out, bench)
}

/// The bytes of the typelib, and then of the script, or why they are not had.
fn fetch_both<S: Source>(
    alloc: Global,
    typelib: &Bytes,
    script: &Bytes,
    files: &mut S,
) -> Result<CallFiles, Failure>
    ensures both { IfOk result (λ found. HasBoth (S.files files.old) typelib.now script.now
        found.typelib found.script) }
    ensures err { (conv : conventions.Conv)
        → IfErr result (Stops (call_work conv typelib.now script.now)
        (reads_of S.files S.faults files.old files.new)) }
    ensures same_files { S.files files.new ≡ S.files files.old }
{
    let typelib = fetch(alloc, typelib, MAX_TYPELIB, files)?;
    let script = fetch(alloc, script, MAX_TEXT, files)?;
    Ok(CallFiles { typelib, script })
}

/// The script that the bytes of the script `name` spell, or why there is none.
fn read_lines(alloc: Global, name: &Bytes, bytes: &[u8]) -> Result<Script, Failure>
    requires { length bytes.now ≤ MAX_TEXT }
    ensures ok { IfOk result (λ script. IsScript bytes.now script) }
    ensures err { IfErr result (IsRefused (RefusesScript name.now bytes.now)) }
{
    match read_script(alloc, bytes) {
        Ok(script) => Ok(script),
        Err(ScriptError::Fault { line }) => {
            Err(Failure::of_file(alloc, name, FileFault::Script { line }))
        }
        Err(ScriptError::Memory) => Err(Failure::OutOfMemory),
    }
}
