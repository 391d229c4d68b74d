ghost use Rattle.std.specs.Prelude.{◌≡◌, ℕ, List, IfOk, length, min};
ghost use Rattle.std.specs.List.{flat_map};
ghost use Rattle.vtable_layout.specs.Layout.{CountsOwn};
ghost use Rattle.vtable_layout.specs.Slots.{slots_in, slots_of_member};

use crate::MAX_SLOTS;
use idl_meaning::{ScopeBody, ScopeIface, ScopeMember};
use std::alloc::Global;
use xp_base::{List, Memory};

/// How many slots a member has.
pub(crate) fn member_slots(body: &ScopeBody) -> u16
    ensures { (name : List ℕ) → result ≡ length (slots_in name body.now) }
{
    match body {
        ScopeBody::Constant { .. } => 0,
        ScopeBody::Attribute { readonly, .. } => if *readonly { 1 } else { 2 },
        ScopeBody::Method { .. } => 1,
    }
}

/// How many slots these members have; one more than `MAX_SLOTS` where they have more than that.
pub(crate) fn count_slots(members: &[ScopeMember]) -> u16
    ensures { result ≡ min 251 (length (flat_map slots_of_member members.now)) }
{
    let mut count = 0;
    for member in members {
        count = (count + member_slots(&member.body)).min(MAX_SLOTS + 1);
    }
    count
}

/// The number of own slots of each interface, counted so.
pub(crate) fn own_counts(alloc: Global, ifaces: &[ScopeIface]) -> Result<List<u16>, Memory>
    ensures { IfOk result (CountsOwn ifaces.now) }
{
    let mut counts = List::new(alloc);
    for iface in ifaces {
        counts.push(count_slots(iface.members.as_slice()))?;
    }
    Ok(counts)
}
