ghost use Rattle.std.specs.Prelude.{◌≡◌};
ghost use Rattle.vtable_layout.specs.Layout.{AreSlotsOf};
ghost use Rattle.vtable_layout.specs.Slots.{slot_number};

use crate::own_slots::{count_slots, member_slots};
use crate::slot_layout::count_at;
use crate::slot_numbers::Slots;
use idl_meaning::Scope;

/// The first slot of the member at place `member` of the interface of number `iface`, both counted
/// from 0.
///
/// None comes exactly where there is no such interface or no such member, or the member is a
/// constant. The slots are those that `layout` gave for this scope.
pub fn slot_of(scope: &Scope, slots: &Slots, iface: u32, member: u32) -> Option<u16>
    requires { AreSlotsOf scope.now.ifaces slots.now }
    ensures { result ≡ slot_number scope.now.ifaces iface member }
{
    let Some(holder) = scope.ifaces.get(iface as usize) else {
        return None;
    };
    let Some(found) = holder.members.get(member as usize) else {
        return None;
    };
    if member_slots(&found.body) == 0 {
        return None;
    }
    let before = count_slots(&holder.members.as_slice()[..member as usize]);
    Some(count_at(&slots.first, iface) + before)
}
