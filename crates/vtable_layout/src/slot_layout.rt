ghost use Rattle.std.specs.Prelude.{◌≡◌, ◌<◌, ◌^◌, IfErr, IfOk, length, slice_index};
ghost use Rattle.vtable_layout.specs.Layout.{AreSlotsOf, CountsOwn, IsLayoutFault, slot_count};
ghost use Rattle.vtable_layout.specs.Slots.{parent_of};

use crate::MAX_SLOTS;
use crate::own_slots::own_counts;
use crate::slot_numbers::{LayoutError, Slots};
use idl_meaning::{Scope, ScopeIface};
use std::alloc::Global;
use xp_base::List;

/// The number at this place, and 0 where there is none.
pub(crate) fn count_at(counts: &List<u16>, at: u32) -> u16
    ensures { result ≡ slice_index counts.now at }
{
    match counts.get(at as usize) {
        Some(count) => *count,
        None => 0,
    }
}

/// The parent of the interface of this number.
fn parent_at(ifaces: &List<ScopeIface>, number: u32) -> Option<u32>
    ensures { result ≡ parent_of ifaces.now number }
{
    match ifaces.get(number as usize) {
        Some(iface) => iface.parent,
        None => None,
    }
}

/// The number of slots of an interface, those of its parents counted; None where they, or the
/// parents, are too many.
fn climb(ifaces: &List<ScopeIface>, counts: &List<u16>, number: u32) -> Option<u16>
    requires { CountsOwn ifaces.now counts.now }
    ensures { result ≡ slot_count ifaces.now number }
{
    let mut total = 0;
    let mut left = MAX_SLOTS;
    let mut at = Some(number);
    while let Some(here) = at {
        if left == 0 {
            return None;
        }
        left -= 1;
        total += count_at(counts, here);
        if total > MAX_SLOTS {
            return None;
        }
        at = parent_at(ifaces, here);
    }
    Some(total)
}

/// The layout of a scope: for each interface the number of its parent's slots and of all its slots.
///
/// `TooMany` comes exactly where an interface has more than `MAX_SLOTS` slots, those of its parents
/// counted, or more than `MAX_SLOTS` interfaces in its chain of parents, itself counted; it names
/// the first such interface. A chain that comes back to itself has too many. The other error is
/// want of memory.
pub fn layout(alloc: Global, scope: &Scope) -> Result<Slots, LayoutError>
    requires { length scope.now.ifaces < 2 ^ 32 }
    ensures slots { IfOk result (AreSlotsOf scope.now.ifaces) }
    ensures fault { IfErr result (IsLayoutFault scope.now.ifaces) }
{
    let counts = own_counts(alloc, scope.ifaces.as_slice())?;
    let mut first = List::new(alloc);
    let mut total = List::new(alloc);
    for number in 0..scope.ifaces.len() as u32 {
        let Some(slots) = climb(&scope.ifaces, &counts, number) else {
            return Err(LayoutError::TooMany { iface: number });
        };
        first.push(slots - count_at(&counts, number))?;
        total.push(slots)?;
    }
    Ok(Slots { first, total })
}
