//! Whether a typelib has room for a scope.

ghost use Rattle.std.specs.Prelude.{◌≡◌, ◌≤◌, ◌<◌, ◌^◌, ◌+◌, All, IfNone, IfSome, length, min, nat_lt, sum_by};
ghost use Rattle.std.specs.List.{list_any};
ghost use Rattle.lib_model.specs.Valid as valid;
ghost use Rattle.prototype_lowering.specs.Limits as limits;
ghost use Rattle.prototype_lowering.specs.Limits.{IsFirstMember, IsFirstWide, NoMemberIsWide, NoneIsWide};
ghost use Rattle.vtable_layout.specs.Slots.{given};

use idl_meaning::{Meant, ScopeBody, ScopeIface, ScopeMember};
use lib_model::{Iface, Library, Method};

/// The greatest number of parameters of a method.
const MAX_PARAMS: usize = 255;

/// The greatest number of constants of an interface.
const MAX_CONSTANTS: usize = 65_535;

/// The greatest number of items of a library.
const MAX_ITEMS: u32 = 1_000_000;

/// How many parameters a method has for the value that it gives.
fn given_count(notxpcom: bool, returns: &Option<Meant>) -> usize
    ensures value { result ≡ length (given notxpcom returns.now) }
    ensures few { result ≤ 1 }
{
    if notxpcom {
        return 0;
    }
    match returns {
        Some(_) => 1,
        None => 0,
    }
}

/// Whether a member has a slot with too many parameters.
#[tactic(auto, using(crate::proofs::Rooms::wide_method))]
fn is_wide(member: &ScopeMember) -> bool
    ensures { result ≡ limits.is_wide member.now }
{
    match &member.body {
        ScopeBody::Constant { .. } => false,
        ScopeBody::Attribute { .. } => false,
        ScopeBody::Method {
            notxpcom,
            result,
            params,
            ..
        } => { params.len() > MAX_PARAMS - given_count(*notxpcom, result) }
    }
}

/// The place of the first member that has too many parameters.
fn wide_member(members: &[ScopeMember]) -> Option<u32>
    requires { length members.now < 2 ^ 32 }
    ensures none { IfNone result (NoMemberIsWide members.now) }
    ensures some { IfSome result (IsFirstMember members.now) }
{
    for (place, member) in members.iter().enumerate() {
        if is_wide(member) {
            return Some(place as u32);
        }
    }
    None
}

/// The number of the first interface with such a member, and the place of the first such member.
pub(crate) fn find_wide(ifaces: &[ScopeIface]) -> Option<(u32, u32)>
    requires few { length ifaces.now < 2 ^ 32 }
    requires few_members { All (λ i. length i.members < 2 ^ 32) ifaces.now }
    ensures none { IfNone result (NoneIsWide ifaces.now) }
    ensures some { IfSome result (λ w. IsFirstWide ifaces.now w.0 w.1) }
{
    for (k, iface) in ifaces.iter().enumerate() {
        if let Some(place) = wide_member(iface.members.as_slice()) {
            return Some((k as u32, place));
        }
    }
    None
}

/// The sum, and one more than `MAX_ITEMS` where it is greater than that.
fn capped(count: u32, more: usize) -> u32
    requires { count ≤ 1000001 }
    ensures { result ≡ min 1000001 (count + more) }
{
    let more = more.min(1_000_001) as u32;
    (count + more).min(MAX_ITEMS + 1)
}

/// How many items methods are with their parameters, counted so.
fn method_items(methods: &[Method]) -> u32
    ensures { result ≡ min 1000001 (sum_by (λ m. 1 + length m.params) methods.now) }
{
    let mut count = 0;
    for method in methods {
        count = capped(capped(count, 1), method.params.len());
    }
    count
}

/// How many items an interface is with what it consists of, counted so.
fn iface_items(iface: &Iface) -> u32
    ensures { result ≡ min 1000001 (valid.iface_items iface.now) }
{
    match &iface.body {
        Some(body) => capped(
            capped(method_items(body.methods.as_slice()), body.constants.len()),
            1,
        ),
        None => 1,
    }
}

/// How many items a library has, counted so.
fn item_count(ifaces: &[Iface]) -> u32
    ensures { result ≡ min 1000001 (sum_by valid.iface_items ifaces.now) }
{
    let mut count = 0;
    for iface in ifaces {
        count = capped(count, iface_items(iface) as usize);
    }
    count
}

/// Whether an interface has too many constants.
fn has_many_constants(iface: &Iface) -> bool
    ensures { result ≡ limits.has_many_constants iface.now }
{
    match &iface.body {
        Some(body) => body.constants.len() > MAX_CONSTANTS,
        None => false,
    }
}

/// Whether interfaces have too many items together.
#[tactic(auto, using(crate::proofs::Rooms::capped_test))]
fn has_many_items(ifaces: &[Iface]) -> bool
    ensures { result ≡ nat_lt 1000000 (sum_by valid.iface_items ifaces.now) }
{
    item_count(ifaces) > MAX_ITEMS
}

/// Whether one of the interfaces has too many constants.
fn any_has_many_constants(ifaces: &[Iface]) -> bool
    ensures { result ≡ list_any limits.has_many_constants ifaces.now }
{
    ifaces.iter().any(|iface| has_many_constants(iface))
}

/// Whether a library has too many items, or an interface of it too many constants.
pub(crate) fn has_too_many_items(library: &Library) -> bool
    ensures { result ≡ limits.has_too_many_items library.now }
{
    let ifaces = library.ifaces.as_slice();
    let many_items = has_many_items(ifaces);
    let many_constants = any_has_many_constants(ifaces);
    many_items || many_constants
}
