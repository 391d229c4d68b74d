//! The command `big`.

ghost use Rattle.std.specs.Prelude.{◌≡◌, IfErr, IfOk, OnOk, Option};
ghost use Rattle.xp_base.specs.Files.{Files};
ghost use Rattle.xpcall_run.specs.BigWork.{BigCalls, BigCompiles, RefusesBig, WritesBigTypelib, WritesCallsLine, WritesSummary, big_work};
ghost use Rattle.xpcall_run.specs.Endings.{HasWritten, IsFirst, IsRefused};
ghost use Rattle.xpcall_run.specs.Sides.{IsUnmoved, Reads, Shown, output_of, side_of};
ghost use Rattle.xpcall_run.specs.Works.{Denied};

use crate::calls::call;
use crate::compiles::compile;
use crate::failures::Failure;
use big_texts::{calls_line, idl_text, script_text, typelib_line};
use call_model::Conv;
use machine_bench::NoBench;
use std::alloc::Global;
use xp_base::{Bytes, CalmSink, CalmSource, List, Sink, put_all};

/// The names of the files of `big`, which are in memory alone.
const IDL_NAME: &[u8] = b"big.idl";

const TYPELIB_NAME: &[u8] = b"big.xpt";

const SCRIPT_NAME: &[u8] = b"big.txt";

/// Compiles an IDL file of its own, whose last interface has the number `last`, calls each of its
/// methods under three conventions, and writes to `out` how long the typelib and the transcripts
/// are and what the outs come to; or says why it can't. A bench sees nothing.
pub fn big<O: Sink>(alloc: Global, last: u8, out: &mut O) -> Result<(), Failure>
    ensures ok { (files : Option Files) (bench : Shown) → IsUnmoved bench
        → OnOk result (HasWritten (big_work last) files
        (output_of (side_of O.written O.faults out.old out.new) bench)) }
    ensures err { (reads : Reads) (bench : Shown) → IsUnmoved bench
        → IfErr result (IsFirst (big_work last) reads
        (output_of (side_of O.written O.faults out.old out.new) bench)) }
{
    let summary = summary_of(alloc, last)?;
    put_all(out, summary.as_slice())?;
    Ok(())
}

/// What `big` prints, or why it can't be had.
fn summary_of(alloc: Global, last: u8) -> Result<Bytes, Failure>
    ensures ok { IfOk result (WritesSummary last) }
    ensures err { IfErr result (IsRefused (RefusesBig last)) }
{
    let mut files = CalmSource::new(alloc);
    files.add(IDL_NAME, idl_text(alloc, last)?.as_slice())?;
    let typelib = compiled(alloc, &mut files)?;
    files.add(TYPELIB_NAME, typelib.written())?;
    files.add(SCRIPT_NAME, script_text(alloc, last)?.as_slice())?;
    let mut summary = typelib_line(alloc, typelib.written())?;
    summary.append(called(alloc, Conv::SysV64, last, &mut files)?.as_slice())?;
    summary.append(called(alloc, Conv::I386, last, &mut files)?.as_slice())?;
    summary.append(called(alloc, Conv::Aapcs64, last, &mut files)?.as_slice())?;
    Ok(summary)
}

/// The typelib of the IDL file, or why there is none.
fn compiled(alloc: Global, files: &mut CalmSource) -> Result<CalmSink, Failure>
    ensures ok { IfOk result (WritesBigTypelib files.old) }
    ensures err { IfErr result (IsRefused (λ refusal. BigCompiles files.old (Denied refusal))) }
    ensures same_files { files.new ≡ files.old }
{
    let mut roots = List::new(alloc);
    roots.push(Bytes::copy(alloc, IDL_NAME)?)?;
    let mut typelib = CalmSink::new(alloc);
    compile(alloc, &roots, files, &mut typelib)?;
    Ok(typelib)
}

/// The line of a convention: what the script's calls over the typelib come to, or why they are
/// refused.
fn called(alloc: Global, conv: Conv, last: u8, files: &mut CalmSource) -> Result<Bytes, Failure>
    ensures ok { IfOk result (WritesCallsLine last conv files.old) }
    ensures err { IfErr result (IsRefused (λ refusal. BigCalls files.old conv (Denied refusal))) }
    ensures same_files { files.new ≡ files.old }
{
    let typelib = Bytes::copy(alloc, TYPELIB_NAME)?;
    let script = Bytes::copy(alloc, SCRIPT_NAME)?;
    let mut transcript = CalmSink::new(alloc);
    let mut bench = NoBench::new();
    call(
        alloc,
        conv,
        &typelib,
        &script,
        files,
        &mut transcript,
        &mut bench,
    )?;
    let line = calls_line(alloc, conv, u16::from(last) + 1, transcript.written())?;
    Ok(line)
}
