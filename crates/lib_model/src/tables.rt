//! The table of a library: what its interfaces and methods are to a caller.

ghost use Rattle.std.specs.Prelude.{◌≡◌, IfOk, map};
ghost use Rattle.lib_model.specs.Table.{proto_if, slot_of, table_iface, table_of};

use crate::contents::{Iface, Library, Method};
use crate::prototypes::{proto_of, status_of};
use call_model::{ProtoArg, Status, Table, TableIface, TableSlot};
use std::alloc::Global;
use xp_base::{Bytes, List, Memory};

/// The prototype of a method that may be called; no arguments where it may not.
fn proto_if(alloc: Global, status: Status, method: &Method) -> Result<List<ProtoArg>, Memory>
    ensures { IfOk result (λ proto. proto ≡ proto_if status method.now) }
{
    match status {
        Status::Callable => proto_of(alloc, method),
        Status::Hidden | Status::NotXpcom | Status::Opaque => Ok(List::new(alloc)),
    }
}

/// The slot of a method.
fn slot_of(alloc: Global, method: &Method) -> Result<TableSlot, Memory>
    ensures { IfOk result (λ slot. slot ≡ slot_of method.now) }
{
    let status = status_of(method);
    Ok(TableSlot {
        name: Bytes::copy(alloc, method.name.as_slice())?,
        kind: method.flags.kind(),
        status,
        proto: proto_if(alloc, status, method)?,
    })
}

/// The slots of methods, in order.
fn slots_of(alloc: Global, methods: &[Method]) -> Result<List<TableSlot>, Memory>
    ensures { IfOk result (λ slots. slots ≡ map slot_of methods.now) }
{
    let mut slots = List::new(alloc);
    for method in methods {
        slots.push(slot_of(alloc, method)?)?;
    }
    Ok(slots)
}

/// An interface with its own slots.
fn table_iface(alloc: Global, iface: &Iface) -> Result<TableIface, Memory>
    ensures { IfOk result (λ found. found ≡ table_iface iface.now) }
{
    let (parent, slots) = match &iface.body {
        Some(body) => (body.parent, slots_of(alloc, body.methods.as_slice())?),
        None => (0, List::new(alloc)),
    };
    Ok(TableIface {
        name: Bytes::copy(alloc, iface.name.as_slice())?,
        iid: iface.iid,
        resolved: iface.body.is_some(),
        parent,
        slots,
    })
}

/// The table of a library, as the flags and tags of the XPCOM typelib format have it: its
/// interfaces in order, each with its own slots. A method that may not be called has its slot too,
/// with the reason and no prototype. The one error is want of memory.
#[tactic(auto, unfolding(crate::specs::Table::table_of))]
pub fn table_of(alloc: Global, lib: &Library) -> Result<Table, Memory>
    ensures { IfOk result (λ table. table ≡ table_of lib.now) }
{
    let mut ifaces = List::new(alloc);
    for iface in lib.ifaces.as_slice() {
        ifaces.push(table_iface(alloc, iface)?)?;
    }
    Ok(Table { ifaces })
}
