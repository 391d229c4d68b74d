//! The directory of a scope: the order of its interfaces in the typelib.

ghost use Rattle.std.specs.Prelude.{◌≡◌, ◌<◌, ◌^◌, IfOk, length};
ghost use Rattle.std_collections.specs.BTreeMap.{values};
ghost use Rattle.prototype_lowering.specs.Directory.{directory_of, iid_of};

use idl_meaning::ScopeIface;
use std::alloc::Global;
use std::collections::BTreeMap;
use xp_base::{List, Memory};

/// The identifier of an interface that is declared alone.
const ZERO_IID: [u8; 16] = [0; 16];

/// What an interface is sorted by: its identifier, and then its name.
fn key_of(iface: &ScopeIface) -> (&[u8], &[u8])
    ensures iid { result.0.now ≡ iid_of iface.now }
    ensures name { result.1.now ≡ iface.now.name }
{
    let iid: &[u8] = if iface.defined { &iface.iid } else { &ZERO_IID };
    (iid, iface.name.as_slice())
}

/// The numbers of a map, in the order of its keys.
fn in_key_order(alloc: Global, map: &BTreeMap<(&[u8], &[u8]), u32>) -> Result<List<u32>, Memory>
    ensures { IfOk result (λ order. order ≡ values map.now) }
{
    let mut order = List::new(alloc);
    for number in map.values() {
        order.push(*number)?;
    }
    Ok(order)
}

/// The numbers of the interfaces in the scope, in the order of the directory.
pub(crate) fn sorted(alloc: Global, ifaces: &[ScopeIface]) -> Result<List<u32>, Memory>
    requires { length ifaces.now < 2 ^ 32 }
    ensures { IfOk result (λ order. order ≡ directory_of ifaces.now) }
{
    let mut map: BTreeMap<(&[u8], &[u8]), u32> = BTreeMap::new(alloc);
    for (k, iface) in ifaces.iter().enumerate() {
        map.insert(key_of(iface), k as u32)?;
    }
    in_key_order(alloc, &map)
}
