//! The top call.

ghost use Rattle.std.specs.Prelude.{◌≡◌, ◌⊎◌, List, ℕ, None, Some, IfErr, OnOk};
ghost use Rattle.xpcall_run.specs.Commands.{IsFit, asked, command_work, work_of};
ghost use Rattle.xpcall_run.specs.Compiled.{IsCompiled, IsCompiledBy};
ghost use Rattle.xpcall_run.specs.Endings.{Ends, HasWritten, IsFirst};
ghost use Rattle.xpcall_run.specs.Headline.{AsksNothing, CallsNothing, ComesTo, Denies, Gives, IsCutShort, IsKnown, IsPlain, IsReported, IsStatus, IsUnwritten, IsUsage, NoneFailed};
ghost use Rattle.xpcall_run.specs.Joined.{CallOf, CompileOf, IsCallOf, IsCompileOf, static_given, typelib_given};
ghost use Rattle.xpcall_run.specs.Sides.{Given, GotNothing, output_of, reads_of, shown_of, side_of};
ghost use Rattle.xpcall_run.specs.Works.{Denied, Written};
ghost use Rattle.xpcall_run.specs.declared.failures.Refusal.{Refusal as Refusals};

use crate::bigs::big;
use crate::calls::call;
use crate::commands::{Command, read_command};
use crate::compiles::compile;
use crate::dumps::dump;
use crate::failures::{Failure, Refusal};
use crate::reports::report;
use machine_bench::Bench;
use std::alloc::Global;
use xp_base::{Sink, Source};

/// Does what the words ask for, up to the first failure.
fn work<S: Source, O: Sink, B: Bench>(
    alloc: Global,
    words: &[String],
    files: &mut S,
    out: &mut O,
    bench: &mut B,
) -> Result<(), Failure>
    ensures ok { OnOk result (HasWritten (work_of (asked words.now)) (S.files files.old)
        (output_of (side_of O.written O.faults out.old out.new)
        (shown_of B.seen bench.old bench.new))) }
    ensures err { IfErr result (IsFirst (work_of (asked words.now))
        (reads_of S.files S.faults files.old files.new)
        (output_of (side_of O.written O.faults out.old out.new)
        (shown_of B.seen bench.old bench.new))) }
    ensures compiled { OnOk result (IsCompiledBy (asked words.now) (S.files files.old)
        (side_of O.written O.faults out.old out.new)) }
    ensures untouched { CallsNothing (asked words.now)
        → B.seen bench.new ≡ B.seen bench.old }
    ensures unasked { AsksNothing (asked words.now) → files.new ≡ files.old }
    ensures same_files { S.files files.new ≡ S.files files.old }
{
    let Some(command) = read_command(alloc, words)? else {
        return Err(Failure::Refused(Refusal::Usage));
    };
    obey(alloc, &command, files, out, bench)
}

/// Does what the command asks for, up to the first failure.
fn obey<S: Source, O: Sink, B: Bench>(
    alloc: Global,
    command: &Command,
    files: &mut S,
    out: &mut O,
    bench: &mut B,
) -> Result<(), Failure>
    requires { IsFit command.now }
    ensures ok { OnOk result (HasWritten (command_work command.now) (S.files files.old)
        (output_of (side_of O.written O.faults out.old out.new)
        (shown_of B.seen bench.old bench.new))) }
    ensures err { IfErr result (IsFirst (command_work command.now)
        (reads_of S.files S.faults files.old files.new)
        (output_of (side_of O.written O.faults out.old out.new)
        (shown_of B.seen bench.old bench.new))) }
    ensures compiled { OnOk result (IsCompiled command.now (S.files files.old)
        (side_of O.written O.faults out.old out.new)) }
    ensures untouched { CallsNothing (Some command.now)
        → B.seen bench.new ≡ B.seen bench.old }
    ensures unasked { AsksNothing (Some command.now) → files.new ≡ files.old }
    ensures same_files { S.files files.new ≡ S.files files.old }
{
    match command {
        Command::Compile(roots) => compile(alloc, roots, files, out),
        Command::Dump(typelib) => dump(alloc, typelib, files, out),
        Command::Call {
            conv,
            typelib,
            script,
        } => call(alloc, *conv, typelib, script, files, out, bench),
        Command::Big(last) => big(alloc, *last, out),
    }
}

/// Does what the words ask for, and reports the first failure.
fn work_and_report<S: Source, O: Sink, E: Sink, B: Bench>(
    alloc: Global,
    words: &[String],
    files: &mut S,
    out: &mut O,
    err: &mut E,
    bench: &mut B,
) -> u8
    ensures ends { Ends (work_of (asked words.now))
        (reads_of S.files S.faults files.old files.new)
        (output_of (side_of O.written O.faults out.old out.new)
        (shown_of B.seen bench.old bench.new))
        (side_of E.written E.faults err.old err.new) result }
    ensures compiled { result ≡ 0 → IsCompiledBy (asked words.now) (S.files files.old)
        (side_of O.written O.faults out.old out.new) }
    ensures untouched { CallsNothing (asked words.now)
        → B.seen bench.new ≡ B.seen bench.old }
    ensures unasked { AsksNothing (asked words.now) → files.new ≡ files.old }
    ensures same_files { S.files files.new ≡ S.files files.old }
{
    match work(alloc, words, files, out, bench) {
        Ok(()) => 0,
        Err(failure) => report(alloc, &failure, err),
    }
}

/// Does all that the program does, and gives the status that it ends with.
///
/// `words` are those of the command line, the program's name not among them. The files come from
/// `files`; what the command gives goes to `out`, and a line of text to `err` where it fails.
/// Before an object is entered and after its reply, `bench` is shown the machine of the calls.
///
/// The statuses are 0, done; 2, the words are no command; 3, a file could not be read; 4, the
/// output or the report could not be written; 5, want of memory; 6, a file is absent; 7, a file is
/// too long; 10, a file can't be compiled; 11, a typelib can't be used; 12, a script can't be run.
pub fn run<S: Source, O: Sink, E: Sink, B: Bench>(
    alloc: Global,
    words: &[String],
    files: &mut S,
    out: &mut O,
    err: &mut E,
    bench: &mut B,
) -> u8
    // The headline: where what the words ask for comes to a text and sights, the run gives them.
    ensures gives { (given : Given) → IsKnown (asked words.now) (S.files files.old)
        → ComesTo (asked words.now) (S.files files.old) (Written given)
        → Gives result
        (output_of (side_of O.written O.faults out.old out.new)
        (shown_of B.seen bench.old bench.new)) given }

    // Of IDL: where the closure of the names is accepted, `compile` gives the emitted bytes of its
    // library.
    ensures compiles { (c : CompileOf) → IsCompileOf c (asked words.now) (S.files files.old)
        → Gives result
        (output_of (side_of O.written O.faults out.old out.new)
        (shown_of B.seen bench.old bench.new)) (typelib_given c) }

    // Where a typelib denotes the library of accepted IDL, in whatever layout, `call` gives the
    // transcript of the static calls of its prototypes.
    ensures calls { (c : CallOf) → IsCallOf c (asked words.now) (S.files files.old)
        → Gives result
        (output_of (side_of O.written O.faults out.old out.new)
        (shown_of B.seen bench.old bench.new)) (static_given c) }

    // Where it comes to a refusal, the run refuses, and writes nothing but the refusal.
    ensures denies { (refusal : Refusals) → IsKnown (asked words.now) (S.files files.old)
        → ComesTo (asked words.now) (S.files files.old) (Denied refusal)
        → Denies result (reads_of S.files S.faults files.old files.new)
        (output_of (side_of O.written O.faults out.old out.new)
        (shown_of B.seen bench.old bench.new))
        (side_of E.written E.faults err.old err.new) refusal }

    // A typelib that `compile` wrote stands for what the files declare: it denotes their library,
    // whose table is that of their interfaces and members as written.
    ensures compiled { result ≡ 0 → IsCompiledBy (asked words.now) (S.files files.old)
        (side_of O.written O.faults out.old out.new) }

    // Words that are no command are refused whatever the source is; they, and `big`, ask it for
    // nothing.
    ensures usage { asked words.now ≡ None
        → IsUsage result
        (output_of (side_of O.written O.faults out.old out.new)
        (shown_of B.seen bench.old bench.new))
        (side_of E.written E.faults err.old err.new) }
    ensures unasked { AsksNothing (asked words.now) → files.new ≡ files.old }

    // Each status has its cause.
    ensures statuses { IsStatus result }
    ensures done { result ≡ 0 → GotNothing (side_of E.written E.faults err.old err.new)
        × HasWritten (work_of (asked words.now)) (S.files files.old)
        (output_of (side_of O.written O.faults out.old out.new)
        (shown_of B.seen bench.old bench.new)) }
    ensures reported { IsPlain result → IsReported (work_of (asked words.now))
        (reads_of S.files S.faults files.old files.new)
        (output_of (side_of O.written O.faults out.old out.new)
        (shown_of B.seen bench.old bench.new))
        (side_of E.written E.faults err.old err.new) result }
    ensures unwritten { result ≡ 4 → IsUnwritten (work_of (asked words.now))
        (reads_of S.files S.faults files.old files.new)
        (output_of (side_of O.written O.faults out.old out.new)
        (shown_of B.seen bench.old bench.new))
        (side_of E.written E.faults err.old err.new) }
    ensures cut_short { (result ≡ 4) ⊎ (result ≡ 5) → IsCutShort (work_of (asked words.now))
        (reads_of S.files S.faults files.old files.new)
        (output_of (side_of O.written O.faults out.old out.new)
        (shown_of B.seen bench.old bench.new))
        (side_of E.written E.faults err.old err.new) }

    // Where nothing fails, all is given, unless memory runs out.
    ensures complete { (given : Given) → IsKnown (asked words.now) (S.files files.old)
        → ComesTo (asked words.now) (S.files files.old) (Written given)
        → NoneFailed (reads_of S.files S.faults files.old files.new)
        (output_of (side_of O.written O.faults out.old out.new)
        (shown_of B.seen bench.old bench.new))
        (side_of E.written E.faults err.old err.new)
        → (result ≡ 0) ⊎ (result ≡ 5) }

    // What calls nothing, shows a bench nothing. What a failed `call` shows, `reported` and
    // `cut_short` say.
    ensures untouched { CallsNothing (asked words.now)
        → B.seen bench.new ≡ B.seen bench.old }

    ensures same_files { S.files files.new ≡ S.files files.old }
{
    work_and_report(alloc, words, files, out, err, bench)
}
