//! The library of a scope.

ghost use Rattle.std.specs.Prelude.{◌≡◌, ◌≤◌, IfErr, IfOk, OnOk, length};
ghost use Rattle.idl_meaning.specs.Accepted.{IsAcceptedScope};
ghost use Rattle.lib_model.specs.Valid.{IsValid};
ghost use Rattle.prototype_lowering.specs.Limits.{HasTableOf, IsLowerFault, KeepsLimits, NoneIsWide};
ghost use Rattle.prototype_lowering.specs.Lowering.{library_of};
ghost use Rattle.vtable_layout.specs.Layout.{AreSlotsOf};

use crate::directory::sorted;
use crate::interfaces::lower_ifaces;
use crate::limits::{find_wide, has_too_many_items};
use crate::lower_error::LowerError;
use crate::numbering::write_numbers;
use idl_meaning::Scope;
use lib_model::Library;
use std::alloc::Global;
use vtable_layout::Slots;
use xp_base::Memory;

/// The greatest number of interfaces of a typelib.
const MAX_INTERFACES: usize = 65_535;

/// The library of a scope with few interfaces, whose methods have few parameters.
fn build(alloc: Global, scope: &Scope) -> Result<Library, Memory>
    requires accepted { IsAcceptedScope scope.now }
    requires narrow { NoneIsWide scope.now.ifaces }
    requires few { length scope.now.ifaces ≤ 65535 }
    ensures { IfOk result (λ library. library ≡ library_of scope.now) }
{
    let order = sorted(alloc, scope.ifaces.as_slice())?;
    let mut numbers = vec![in alloc; 0; order.len()]?;
    write_numbers(numbers.as_mut_slice(), order.as_slice());
    let ifaces = lower_ifaces(alloc, numbers.as_slice(), order.as_slice(), &scope.ifaces)?;
    Ok(Library { ifaces })
}

/// The library of a scope: what a typelib says of it. `slots` are those that `layout` gave for the
/// scope, so that no interface has too many.
///
/// The library is valid, and the table that can be read off its flags and tags is the table that
/// the members mean as they are written. The errors come exactly where they hold, the first of
/// them in the order in which `LowerError` has them; but for `Memory`, which is want of memory.
pub fn lower(alloc: Global, scope: &Scope, _slots: &Slots) -> Result<Library, LowerError>
    requires accepted { IsAcceptedScope scope.now }
    requires slots { AreSlotsOf scope.now.ifaces _slots.now }
    ensures library { IfOk result (λ library. library ≡ library_of scope.now) }
    ensures limits { OnOk result (KeepsLimits scope.now) }
    ensures valid { IfOk result IsValid }
    ensures table { IfOk result (HasTableOf scope.now) }
    ensures fault { IfErr result (IsLowerFault scope.now) }
{
    if let Some((iface, member)) = find_wide(scope.ifaces.as_slice()) {
        return Err(LowerError::Args { iface, member });
    }
    if scope.ifaces.len() > MAX_INTERFACES {
        return Err(LowerError::Interfaces);
    }
    let library = build(alloc, scope)?;
    if has_too_many_items(&library) {
        return Err(LowerError::Items);
    }
    Ok(library)
}
