//! The command `dump`.

ghost use Rattle.std.specs.Prelude.{◌≡◌, IfErr, OnOk};
ghost use Rattle.xpcall_run.specs.Endings.{HasWritten, IsFirst};
ghost use Rattle.xpcall_run.specs.Sides.{IsUnmoved, Shown, output_of, reads_of, side_of};
ghost use Rattle.xpcall_run.specs.TypelibWork.{dump_work};

use crate::failures::Failure;
use crate::fetches::fetch;
use crate::typelibs::read_typelib;
use std::alloc::Global;
use xp_base::{Bytes, MAX_TYPELIB, Sink, Source};

/// Writes the listing of the typelib `name` to `out`, or says why it can't. It calls nothing, so
/// that a bench sees nothing.
pub fn dump<S: Source, O: Sink>(
    alloc: Global,
    name: &Bytes,
    files: &mut S,
    out: &mut O,
) -> Result<(), Failure>
    ensures ok { (bench : Shown) → IsUnmoved bench
        → OnOk result (HasWritten (dump_work name.now) (S.files files.old)
        (output_of (side_of O.written O.faults out.old out.new) bench)) }
    ensures err { (bench : Shown) → IsUnmoved bench
        → IfErr result (IsFirst (dump_work name.now)
        (reads_of S.files S.faults files.old files.new)
        (output_of (side_of O.written O.faults out.old out.new) bench)) }
    ensures same_files { S.files files.new ≡ S.files files.old }
{
    let bytes = fetch(alloc, name, MAX_TYPELIB, files)?;
    let lib = read_typelib(alloc, name, bytes.as_slice())?;
    dump_text::dump(alloc, &lib, out)?;
    Ok(())
}
