//! The order of a header's classes.

ghost use Rattle.std.specs.Prelude.{◌≡◌, ◌<◌, ◌^◌, All, IfOk, length};
ghost use Rattle.std_collections.specs.BTreeMap.{values};
ghost use Rattle.header_text.specs.Order.{definitions_of};

use idl_meaning::ScopeIface;
use std::alloc::Global;
use std::collections::BTreeMap;
use xp_base::{List, Memory};

/// The numbers of a map, in the order of its keys.
fn in_key_order(alloc: Global, map: &BTreeMap<(u32, u32), u32>) -> Result<List<u32>, Memory>
    ensures { IfOk result (λ order. order ≡ values map.now) }
{
    let mut order = List::new(alloc);
    for number in map.values() {
        order.push(*number)?;
    }
    Ok(order)
}

/// The numbers of the defined interfaces, in the order of their definitions.
pub(crate) fn definitions(alloc: Global, ifaces: &[ScopeIface]) -> Result<List<u32>, Memory>
    requires { length ifaces.now < 2 ^ 32 }
    ensures order { IfOk result (λ order. order ≡ definitions_of ifaces.now) }
    ensures within { IfOk result (All (λ number. number < length ifaces.now)) }
{
    let mut map: BTreeMap<(u32, u32), u32> = BTreeMap::new(alloc);
    for (k, iface) in ifaces.iter().enumerate() {
        if iface.defined {
            map.insert((iface.file, iface.decl), k as u32)?;
        }
    }
    in_key_order(alloc, &map)
}
