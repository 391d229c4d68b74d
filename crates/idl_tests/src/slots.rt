//! The slots of members.

ghost use Rattle.vtable_layout.specs.Layout.{AreSlotsOf};

use crate::declared::scope_of;
use idl_names::Scope;
use std::process::Abort;
use vtable_layout::{Slots, layout, slot_of};

/// Two interfaces with an attribute and a constant each, and one that is not defined.
const FAMILY: &[u8] = b"
    [uuid(00000001-0000-0000-0000-000000000000)] interface a {
        void f(); attribute long b; readonly attribute long c; const long k = 1;
    };
    [uuid(00000002-0000-0000-0000-000000000000)] interface d : a {
        const long l = 1; void g(); attribute long e;
    };
    interface x;";

/// The slots of the parents of each interface of the family, and those of each interface.
const FIRST: [u16; 3] = [0, 4, 0];

const TOTAL: [u16; 3] = [4, 7, 0];

/// An interface of the family, a place in it, and the slot of the member at that place.
const MEMBERS: [(u32, u32, Option<u16>); 10] = [
    (0, 0, Some(0)),
    (0, 1, Some(1)),
    (0, 2, Some(3)),
    (0, 3, None),
    (0, 4, None),
    (1, 0, None),
    (1, 1, Some(4)),
    (1, 2, Some(5)),
    (2, 0, None),
    (3, 0, None),
];

/// Whether slots are counted like this.
fn are_counted(slots: &Slots) -> bool {
    slots.first.as_slice() == FIRST.as_slice() && slots.total.as_slice() == TOTAL.as_slice()
}

/// The members of the family have their slots.
fn check_members(rt: &impl Abort, scope: &Scope, slots: &Slots)
    requires { AreSlotsOf scope.now.ifaces slots.now }
{
    for (iface, member, wanted) in &MEMBERS {
        let slot = slot_of(scope, slots, *iface, *member);
        assert!(rt; slot == *wanted, "of member {member} of interface {iface}");
    }
}

#[test]
fn slots_follow_those_of_the_parent(rt: HostRuntime) {
    let scope = scope_of(&rt, rt.alloc(), FAMILY);
    let slots = layout(rt.alloc(), &scope).expect(&rt, "slots");
    assert!(rt; are_counted(&slots));
    check_members(&rt, &scope, &slots);
}
