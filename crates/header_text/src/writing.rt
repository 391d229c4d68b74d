ghost use Rattle.std.specs.Prelude.{◌≡◌, ◌<◌, ◌≤◌, ◌^◌, ◌++◌, IfOk, IsErrOf, OnOk, length};
ghost use Rattle.idl_meaning.specs.Accepted.{IsAcceptedScope};
ghost use Rattle.vtable_layout.specs.Layout.{AreSlotsOf};
ghost use Rattle.prototype_lowering.specs.Limits.{KeepsLimits};
ghost use Rattle.header_model.specs.Declares.{Declares};
ghost use Rattle.header_text.specs.Header as header;
ghost use Rattle.header_text.specs.Header.{header_text};
ghost use Rattle.header_text.specs.Meaning.{declared};
ghost use Rattle.header_text.specs.Parts.{forwards_text};

use crate::classes::push_classes;
use crate::errors::HeaderWriteError;
use crate::lengths::within;
use crate::members::push_line;
use crate::order::definitions;
use header_model::MAX_HEADER;
use idl_meaning::{Scope, ScopeIface};
use std::alloc::Global;
use vtable_layout::Slots;
use xp_base::{Bytes, Memory};

/// The line that says that there is an interface.
fn forward_line(alloc: Global, iface: &ScopeIface) -> Result<Bytes, Memory>
    ensures { IfOk result (λ line. line ≡ header.forward_line iface.now) }
{
    let mut line = Bytes::copy(alloc, b"class ")?;
    line.append(iface.name.as_slice())?;
    line.append(b";")?;
    Ok(line)
}

/// Adds the lines that say which interfaces there are. A text of more than `MAX_HEADER` bytes gets
/// `TooLong`; the other error is want of memory.
fn push_forwards(
    alloc: Global,
    text: &mut Bytes,
    ifaces: &[ScopeIface],
) -> Result<(), HeaderWriteError>
    requires { length text.old ≤ MAX_HEADER }
    ensures text { OnOk result (text.new ≡ text.old ++ forwards_text ifaces.now) }
    ensures fits { OnOk result (length text.new ≤ MAX_HEADER) }
    ensures too_long { IsErrOf result HeaderWriteError.TooLong
        → MAX_HEADER < length (text.old ++ forwards_text ifaces.now) }
{
    for iface in ifaces {
        push_line(text, forward_line(alloc, iface)?)?;
        within(text)?;
    }
    Ok(())
}

/// The header of a scope: C++ declarations of its interfaces. The forward declarations stand first,
/// in the scope's order, and then the classes, in the order of their definitions. A slot that no
/// call can use is reserved.
///
/// A header of more than `MAX_HEADER` bytes gets `TooLong`; the other error is want of memory. The
/// slots are those that `layout` gave for this scope.
pub fn header(alloc: Global, scope: &Scope, slots: &Slots) -> Result<Bytes, HeaderWriteError>
    requires few { length scope.now.ifaces < 2 ^ 32 }
    requires slots { AreSlotsOf scope.now.ifaces slots.now }
    ensures text { IfOk result (λ text. text ≡ header_text scope.now) }
    ensures declares { IsAcceptedScope scope.now → KeepsLimits scope.now
        → IfOk result (λ text. Declares text (declared scope.now)) }
    ensures fits { IfOk result (λ text. length text ≤ MAX_HEADER) }
    ensures too_long { IsErrOf result HeaderWriteError.TooLong
        → MAX_HEADER < length (header_text scope.now) }
{
    let mut text = Bytes::new(alloc);
    let ifaces = scope.ifaces.as_slice();
    push_forwards(alloc, &mut text, ifaces)?;
    let order = definitions(alloc, ifaces)?;
    push_classes(alloc, &mut text, &scope.ifaces, slots, order.as_slice())?;
    Ok(text)
}
