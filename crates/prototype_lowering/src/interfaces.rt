//! Lowered interfaces.

ghost use Rattle.std.specs.Prelude.{◌≡◌, ◌<◌, All, IfOk, IfSome, length};
ghost use Rattle.prototype_lowering.specs.Directory as directory;
ghost use Rattle.prototype_lowering.specs.Numbering.{AreIfacesAt, InEachDirectory, IsBodyOf, IsIfaceOf, IsSayableIface};

use crate::members::{lower_constants, lower_methods};
use crate::param_types::number_of;
use idl_meaning::ScopeIface;
use lib_model::{Body, Iface, IfaceFlags};
use std::alloc::Global;
use xp_base::{Bytes, List, Memory};

/// The number of a parent in the typelib, 0 where there is none.
fn parent_number(numbers: &[u16], parent: &Option<u32>) -> u16
    requires { IfSome parent.now (λ k. k < length numbers.now) }
    ensures { InEachDirectory numbers.now (λ d. result ≡ directory.parent_number d parent.now) }
{
    match parent {
        Some(k) => number_of(numbers, *k),
        None => 0,
    }
}

/// The identifier of an interface: zero where it is declared alone.
pub(crate) fn iid_of(iface: &ScopeIface) -> [u8; 16]
    ensures { result ≡ directory.iid_of iface.now }
{
    if iface.defined { iface.iid } else { [0; 16] }
}

/// What a defined interface consists of.
fn lower_body(alloc: Global, numbers: &[u16], iface: &ScopeIface) -> Result<Body, Memory>
    requires { IsSayableIface (length numbers.now) iface.now }
    ensures { IfOk result (IsBodyOf numbers.now iface.now) }
{
    let members = iface.members.as_slice();
    Ok(Body {
        parent: parent_number(numbers, &iface.parent),
        methods: lower_methods(alloc, numbers, members)?,
        constants: lower_constants(alloc, members)?,
        flags: IfaceFlags { bits: iface.flags },
    })
}

/// An interface.
fn lower_iface(alloc: Global, numbers: &[u16], iface: &ScopeIface) -> Result<Iface, Memory>
    requires { IsSayableIface (length numbers.now) iface.now }
    ensures { IfOk result (IsIfaceOf numbers.now iface.now) }
{
    let name = Bytes::copy(alloc, iface.name.as_slice())?;
    let iid = iid_of(iface);
    if !iface.defined {
        return Ok(Iface {
            name,
            namespace: None,
            iid,
            body: None,
        });
    }
    let body = Some(lower_body(alloc, numbers, iface)?);
    Ok(Iface {
        name,
        namespace: None,
        iid,
        body,
    })
}

/// The interfaces of a library, in the order of its directory.
pub(crate) fn lower_ifaces(
    alloc: Global,
    numbers: &[u16],
    order: &[u32],
    ifaces: &List<ScopeIface>,
) -> Result<List<Iface>, Memory>
    requires { All (IsSayableIface (length numbers.now)) ifaces.now }
    ensures { IfOk result (AreIfacesAt numbers.now ifaces.now order.now) }
{
    let mut lowered = List::new(alloc);
    for number in order {
        match ifaces.get(*number as usize) {
            Some(iface) => lowered.push(lower_iface(alloc, numbers, iface)?)?,
            None => {}
        }
    }
    Ok(lowered)
}
