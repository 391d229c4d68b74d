//! Lines, written to a sink.

ghost use Rattle.std.specs.Prelude.{◌≡◌, ℕ, List, IfOk};
ghost use Rattle.dump_text.specs.Writes.{Writes};

use xp_base::{Bytes, Memory, RunFault, Sink, put_all};

/// Writes a line that was made, or answers that there was no memory for it.
pub(crate) fn put_line<O: Sink>(out: &mut O, line: Result<Bytes, Memory>) -> Result<(), RunFault>
    ensures { (text : List ℕ) → IfOk line (λ made. made ≡ text)
        → Writes (O.written out.old) (O.written out.new) (O.faults out.old) (O.faults out.new) text
        result }
{
    put_all(out, line?.as_slice())?;
    Ok(())
}
