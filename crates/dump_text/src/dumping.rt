//! The listing of a typelib, written to a sink.

ghost use Rattle.std.specs.Prelude.{◌≡◌, ◌<◌, ◌≤◌, Err, OnErr, OnOk, Some};
ghost use Rattle.std.specs.List.{flat_map};
ghost use Rattle.xp_base.specs.Causes.{Rose};
ghost use Rattle.xp_base.specs.Written.{Gained, GainedPrefix};
ghost use Rattle.lib_model.specs.declared.contents.Iface.{Iface};
ghost use Rattle.descriptor_reader.specs.Views.{MethodOf, iface_of, own_constants_of, own_methods_of};
ghost use Rattle.dump_text.specs.Listing.{constant_line as constant_text, iface_lines, listing, method_line as method_text};
ghost use Rattle.dump_text.specs.Writes.{Writes};

use crate::members::{constant_line, heading, iface_line, method_line};
use crate::writes::put_line;
use descriptor_reader::{IfaceView, Typelib};
use std::alloc::Global;
use xp_base::{RunFault, Sink};

/// Writes the own methods of an interface, a line for each.
fn put_methods<O: Sink>(alloc: Global, iface: &IfaceView<'_>, out: &mut O) -> Result<(), RunFault>
    ensures { Writes (O.written out.old) (O.written out.new) (O.faults out.old) (O.faults out.new)
        (flat_map (λ (m : MethodOf). method_text m.slot m.method) (own_methods_of iface.now))
        result }
{
    for method in iface.methods() {
        put_line(out, method_line(alloc, &method))?;
    }
    Ok(())
}

/// Writes the own constants of an interface, a line for each.
fn put_constants<O: Sink>(alloc: Global, iface: &IfaceView<'_>, out: &mut O) -> Result<(), RunFault>
    ensures { Writes (O.written out.old) (O.written out.new) (O.faults out.old) (O.faults out.new)
        (flat_map constant_text (own_constants_of iface.now)) result }
{
    for constant in iface.constants() {
        put_line(out, constant_line(alloc, &constant))?;
    }
    Ok(())
}

/// Writes the interface of this number: its line, and those of its own members.
fn put_iface<O: Sink>(
    alloc: Global,
    number: u16,
    iface: &IfaceView<'_>,
    out: &mut O,
) -> Result<(), RunFault>
    requires { number ≡ iface.now.number }
    ensures { (i : Iface) → iface_of iface.now ≡ Some i → Writes (O.written out.old)
        (O.written out.new) (O.faults out.old) (O.faults out.new)
        (iface_lines iface.now.library number i) result }
{
    put_line(out, iface_line(alloc, number, iface))?;
    put_methods(alloc, iface, out)?;
    put_constants(alloc, iface, out)
}

/// Writes the listing of a typelib: a line for the file, and for each interface a line and those of
/// its own methods and constants, in the order of the typelib. It goes through the typelib once and
/// takes memory for one line at a time.
///
/// `Sink` comes where the sink's count of faults rose, and only there; `Memory` comes where there
/// was no memory for a line, or the sink had none. After either the sink gained a prefix of the
/// listing.
pub fn dump<O: Sink>(alloc: Global, lib: &Typelib<'_>, out: &mut O) -> Result<(), RunFault>
    ensures text { OnOk result (Gained (O.written out.old) (O.written out.new) (listing lib.now)) }
    ensures err { OnErr result
        (GainedPrefix (O.written out.old) (O.written out.new) (listing lib.now)) }
    ensures cause { result ≡ Err RunFault.Sink → Rose (O.faults out.old) (O.faults out.new) }
    ensures blamed { O.faults out.old < O.faults out.new → result ≡ Err RunFault.Sink }
    ensures never_falls { O.faults out.old ≤ O.faults out.new }
{
    let count = lib.iface_count();
    put_line(out, heading(alloc, count))?;
    for before in 0..count {
        let number = before + 1;
        let iface = lib.iface(number).unwrap();
        put_iface(alloc, number, &iface, out)?;
    }
    Ok(())
}
