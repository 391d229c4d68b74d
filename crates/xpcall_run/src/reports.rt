//! The report of a failure.

ghost use Rattle.std.specs.Prelude.{◌≡◌, ◌≤◌, ◌++◌, IfOk, OnErr, OnOk, [], ◌∷◌, codes, pos};
ghost use Rattle.xp_base.specs.Causes.{SinkCause};
ghost use Rattle.xp_base.specs.Digits.{decimal_text};
ghost use Rattle.xp_base.specs.Written.{Gained, GainedPrefix};
ghost use Rattle.xpcall_run.specs.Endings.{Reports};
ghost use Rattle.xpcall_run.specs.FailureText.{at_line, code_text, failure_text, fault_text, line_of, refusal_text, typelib_text};
ghost use Rattle.xpcall_run.specs.Sides.{side_of};

use crate::failures::{CANNOT_WRITE, Failure, FileFault, OUT_OF_MEMORY, Refusal};
use std::alloc::Global;
use xp_base::{Bytes, Memory, Sink, SinkError, dec_text, put_all};

/// Writes the failure's text to `err` and gives the status to end with: the failure's own, or 4
/// where the text could not be written, or 5 where there was no memory for it.
pub fn report<E: Sink>(alloc: Global, failure: &Failure, err: &mut E) -> u8
    ensures { Reports failure.now (side_of E.written E.faults err.old err.new) result }
{
    match put_failure(alloc, failure, err) {
        Ok(()) => failure.status(),
        Err(SinkError::Failed) => CANNOT_WRITE,
        Err(SinkError::Memory) => OUT_OF_MEMORY,
    }
}

/// Puts the text of a failure.
#[tactic(auto, unfolding(crate::specs::FailureText::failure_text))]
fn put_failure<E: Sink>(alloc: Global, failure: &Failure, err: &mut E) -> Result<(), SinkError>
    ensures ok { OnOk result (Gained (E.written err.old) (E.written err.new)
        (failure_text failure.now)) }
    ensures err { OnErr result (GainedPrefix (E.written err.old) (E.written err.new)
        (failure_text failure.now)) }
    ensures cause { SinkCause (E.faults err.old) (E.faults err.new) result }
{
    match failure {
        Failure::CannotRead(name) => put_framed(alloc, b"cannot read ", name, b"\n", err),
        Failure::CannotWrite => put_all(err, b"cannot write\n"),
        Failure::OutOfMemory => put_all(err, b"out of memory\n"),
        Failure::Refused(refusal) => put_refusal(alloc, refusal, err),
    }
}

/// Puts what is said of a refusal, a line.
fn put_refusal<E: Sink>(alloc: Global, refusal: &Refusal, err: &mut E) -> Result<(), SinkError>
    ensures ok { OnOk result (Gained (E.written err.old) (E.written err.new)
        (line_of (refusal_text refusal.now))) }
    ensures err { OnErr result (GainedPrefix (E.written err.old) (E.written err.new)
        (line_of (refusal_text refusal.now))) }
    ensures cause { SinkCause (E.faults err.old) (E.faults err.new) result }
{
    match refusal {
        Refusal::Usage => put_all(
            err,
            b"usage: xpcall compile FILE... | dump XPT | call CONV XPT SCRIPT | big N\n",
        ),
        Refusal::OfFile { name, fault } => put_fault(alloc, name, *fault, err),
        Refusal::OfFiles { code } => put_code(alloc, *code, err),
    }
}

/// Puts what is said of files that have the fault of this code together, a line.
fn put_code<E: Sink>(alloc: Global, code: u8, err: &mut E) -> Result<(), SinkError>
    ensures ok { OnOk result (Gained (E.written err.old) (E.written err.new)
        (line_of (code_text code))) }
    ensures err { OnErr result (GainedPrefix (E.written err.old) (E.written err.new)
        (line_of (code_text code))) }
    ensures cause { SinkCause (E.faults err.old) (E.faults err.new) result }
{
    let number = dec_text(alloc, i128::from(code))?;
    put_framed(alloc, b"fault ", &number, b"\n", err)
}

/// Puts what is said of the file `name` that has this fault, a line.
fn put_fault<E: Sink>(
    alloc: Global,
    name: &Bytes,
    fault: FileFault,
    err: &mut E,
) -> Result<(), SinkError>
    ensures ok { OnOk result (Gained (E.written err.old) (E.written err.new)
        (line_of (fault_text name.now fault))) }
    ensures err { OnErr result (GainedPrefix (E.written err.old) (E.written err.new)
        (line_of (fault_text name.now fault))) }
    ensures cause { SinkCause (E.faults err.old) (E.faults err.new) result }
{
    match fault {
        FileFault::Missing => put_framed(alloc, b"no file ", name, b"\n", err),
        FileFault::TooLong => put_framed(alloc, b"too long ", name, b"\n", err),
        FileFault::Token { line } => put_numbered(alloc, name, line, b": token\n", err),
        FileFault::Syntax { line } => put_numbered(alloc, name, line, b": syntax\n", err),
        FileFault::Fault { code, line } => put_coded(alloc, name, line, code, err),
        FileFault::Typelib { code, at } => put_typelib_fault(alloc, name, code, at, err),
        FileFault::Script { line } => put_numbered(alloc, name, line, b": script\n", err),
    }
}

/// What is said of the fault of this code behind its line, to the end of the line.
fn coded_words(alloc: Global, code: u8) -> Result<Bytes, Memory>
    ensures { IfOk result (λ said. said ≡ codes ": " ++ code_text code ++ 10 ∷ []) }
{
    let mut said = Bytes::copy(alloc, b": fault ")?;
    said.append(dec_text(alloc, i128::from(code))?.as_slice())?;
    said.append(b"\n")?;
    Ok(said)
}

/// Puts what is said of the file `name` that has the fault of this code on this line, a line.
fn put_coded<E: Sink>(
    alloc: Global,
    name: &Bytes,
    line: u32,
    code: u8,
    err: &mut E,
) -> Result<(), SinkError>
    ensures ok { OnOk result (Gained (E.written err.old) (E.written err.new)
        (line_of (at_line name.now line (codes ": " ++ code_text code)))) }
    ensures err { OnErr result (GainedPrefix (E.written err.old) (E.written err.new)
        (line_of (at_line name.now line (codes ": " ++ code_text code)))) }
    ensures cause { SinkCause (E.faults err.old) (E.faults err.new) result }
{
    let said = coded_words(alloc, code)?;
    put_numbered(alloc, name, line, said.as_slice(), err)
}

/// What is said of a typelib whose first fault has this code and place, to the end of the line.
fn typelib_words(alloc: Global, code: u8, at: u64) -> Result<Bytes, Memory>
    ensures { IfOk result (λ said.
        said ≡ codes ": typelib " ++ code_text code ++ codes " at "
        ++ decimal_text (pos at) ++ 10 ∷ []) }
{
    let mut said = Bytes::copy(alloc, b": typelib fault ")?;
    said.append(dec_text(alloc, i128::from(code))?.as_slice())?;
    said.append(b" at ")?;
    said.append(dec_text(alloc, i128::from(at))?.as_slice())?;
    said.append(b"\n")?;
    Ok(said)
}

/// Puts what is said of the typelib `name` whose first fault has this code and place, a line.
fn put_typelib_fault<E: Sink>(
    alloc: Global,
    name: &Bytes,
    code: u8,
    at: u64,
    err: &mut E,
) -> Result<(), SinkError>
    ensures ok { OnOk result (Gained (E.written err.old) (E.written err.new)
        (line_of (typelib_text name.now code at))) }
    ensures err { OnErr result (GainedPrefix (E.written err.old) (E.written err.new)
        (line_of (typelib_text name.now code at))) }
    ensures cause { SinkCause (E.faults err.old) (E.faults err.new) result }
{
    let said = typelib_words(alloc, code, at)?;
    put_framed(alloc, b"", name, said.as_slice(), err)
}

/// Puts a name with what stands before and behind it, in one piece.
fn put_framed<E: Sink>(
    alloc: Global,
    before: &[u8],
    name: &Bytes,
    behind: &[u8],
    err: &mut E,
) -> Result<(), SinkError>
    ensures ok { OnOk result (Gained (E.written err.old) (E.written err.new)
        (before.now ++ name.now ++ behind.now)) }
    ensures err { OnErr result (GainedPrefix (E.written err.old) (E.written err.new)
        (before.now ++ name.now ++ behind.now)) }
    ensures cause { SinkCause (E.faults err.old) (E.faults err.new) result }
{
    let mut text = Bytes::copy(alloc, before)?;
    text.append(name.as_slice())?;
    text.append(behind)?;
    put_all(err, text.as_slice())
}

/// Puts a name, the number of a line behind a colon, and what stands behind both, in one piece.
fn put_numbered<E: Sink>(
    alloc: Global,
    name: &Bytes,
    line: u32,
    behind: &[u8],
    err: &mut E,
) -> Result<(), SinkError>
    ensures ok { OnOk result (Gained (E.written err.old) (E.written err.new)
        (at_line name.now line behind.now)) }
    ensures err { OnErr result (GainedPrefix (E.written err.old) (E.written err.new)
        (at_line name.now line behind.now)) }
    ensures cause { SinkCause (E.faults err.old) (E.faults err.new) result }
{
    let mut text = Bytes::copy(alloc, name.as_slice())?;
    text.append(b":")?;
    text.append(dec_text(alloc, i128::from(line))?.as_slice())?;
    text.append(behind)?;
    put_all(err, text.as_slice())
}
