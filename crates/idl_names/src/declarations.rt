//! What a declaration without a fault of its own adds to what is known.

ghost use Rattle.std.specs.Prelude.{◌≡◌, ◌<◌, ◌^◌, suc, [], length, IfErr, IfOk, OnOk};
ghost use Rattle.idl_grammar.specs.declared.tree.ItemBody.TheVariants as item;
ghost use Rattle.idl_meaning.specs.Scopes as scopes;
ghost use Rattle.idl_meaning.specs.Faults as spec;
ghost use Rattle.idl_names.specs.Bindings.{meant_of, sense_of};
ghost use Rattle.idl_meaning.specs.Counted.{AreCountedMembers, IsCountedItem};
ghost use Rattle.idl_names.specs.States.{opened, view};
ghost use Rattle.idl_names.specs.Tables.{known, used};
ghost use Rattle.idl_names.specs.Views.{seen};

use crate::attributes::{has, iface_bits, uuid_of};
use crate::bindings::{Binding, Lent, Reading, native, read_type};
use crate::constants::Definition;
use crate::identifiers::Identifiers;
use crate::interfaces::{Around, Members, take_members};
use crate::state::{State, bind, defined_number, defined_rank, parent_bound};
use idl_grammar::{Interface, ItemBody};
use idl_meaning::{IdlError, ScopeIface, ScopeMember};
use std::alloc::Global;
use xp_base::{Bytes, List, Memory};

/// The place of a declaration.
#[derive(Clone, Copy)]
pub struct DeclPlace {
    pub file: u32,
    pub decl: u32,
}

/// Names a type. The one error is want of memory.
fn name_type<'a>(state: &mut State<'a>, name: &'a Bytes, lent: Lent<'a>) -> Result<(), Memory>
    ensures { OnOk result (view state.new
        ≡ scopes.with_type (view state.old) name.now (meant_of lent.entry)) }
{
    bind(&mut state.names, name.as_slice(), Binding::Typed(lent))
}

/// What a type stands for; one that means nothing has a fault, and what is given makes no
/// difference.
fn stands_for(read: Reading<'_>) -> Lent<'_>
    ensures { meant_of result ≡ scopes.stands_for (sense_of read.entry) }
{
    match read {
        Reading::Means(lent) => lent,
        _ => Lent::JsVal,
    }
}

/// An interface that is only named. The one error is want of memory.
fn bare_iface(alloc: Global, place: DeclPlace, name: &Bytes) -> Result<ScopeIface, Memory>
    ensures { IfOk result (λ iface. iface ≡ scopes.bare_iface place.file place.decl name.now) }
{
    Ok(ScopeIface {
        name: Bytes::copy(alloc, name.as_slice())?,
        iid: [0; 16],
        parent: None,
        flags: 0,
        defined: false,
        file: place.file,
        decl: place.decl,
        members: List::new(alloc),
    })
}

/// Declares an interface that may be defined elsewhere. The one error is want of memory.
fn forward<'a>(
    alloc: Global,
    state: &mut State<'a>,
    place: DeclPlace,
    name: &'a Bytes,
) -> Result<(), Memory>
    requires { length (view state.old).ifaces < 2 ^ 32 }
    ensures { OnOk result (view state.new
        ≡ scopes.after_forward place.file place.decl (view state.old) name.now) }
{
    if state.names.find(name.as_slice()).is_some() {
        return Ok(());
    }
    let number = state.ifaces.len() as u32;
    let iface = bare_iface(alloc, place, name)?;
    bind(&mut state.names, name.as_slice(), Binding::Forward(number))?;
    state.ifaces.push(iface)?;
    Ok(())
}

/// The number of an interface that was mentioned, or of the next that is.
fn next_number(state: &State<'_>, name: &Bytes) -> u32
    requires { length (view state.now).ifaces < 2 ^ 32 }
    ensures { result ≡ scopes.next_number (view state.now) name.now }
{
    match state.names.find(name.as_slice()) {
        Some(Binding::Forward(number)) => number,
        Some(Binding::Defined { number, .. }) => number,
        _ => state.ifaces.len() as u32,
    }
}

/// Sixteen zeros where there is no identifier.
fn iid_or_zero(iid: Option<[u8; 16]>) -> [u8; 16]
    ensures { result ≡ scopes.iid_or_zero iid }
{
    match iid {
        Some(iid) => iid,
        None => [0; 16],
    }
}

/// Puts an interface at its number, or last. The one error is want of memory.
fn place_at(ifaces: &mut Vec<ScopeIface>, number: u32, iface: ScopeIface) -> Result<(), Memory>
    ensures { OnOk result (ifaces.new.items ≡ scopes.placed ifaces.old.items number iface) }
{
    let at = number as usize;
    if at == ifaces.len() {
        ifaces.push(iface)?;
    } else if at < ifaces.len() {
        ifaces[at] = iface;
    }
    Ok(())
}

/// Uses the identifier of an interface. The one error is want of memory.
fn use_iid(iids: &mut Identifiers, iid: Option<[u8; 16]>) -> Result<(), Memory>
    ensures { OnOk result (used iids.new ≡ scopes.used_iid (used iids.old) iid) }
{
    match iid {
        Some(iid) => iids.put(iid),
        None => Ok(()),
    }
}

/// Defines one interface more. The one error is want of memory.
fn push_definition<'a>(
    constants: &mut List<Definition<'a>>,
    definition: Definition<'a>,
) -> Result<(), Memory>
    ensures seen { OnOk result (seen constants.new ≡ scopes.with_definition (seen constants.old)
        (length constants.old) (scopes.either (known definition.entry.own)
        (scopes.constants_at (seen constants.old) definition.entry.parent))) }
    ensures count { OnOk result (length constants.new ≡ suc (length constants.old)) }
{
    constants.push(definition)
}

/// What an interface declares, with its members. The one error is want of memory.
fn iface_made(
    alloc: Global,
    place: DeclPlace,
    interface: &Interface,
    parent: Option<u32>,
    members: List<ScopeMember>,
) -> Result<ScopeIface, Memory>
    ensures { IfOk result (λ iface. iface
        ≡ scopes.iface_made place.file place.decl interface.now parent members) }
{
    let attrs = interface.attrs.as_slice();
    Ok(ScopeIface {
        name: Bytes::copy(alloc, interface.name.as_slice())?,
        iid: iid_or_zero(uuid_of(attrs)),
        parent,
        flags: iface_bits(attrs),
        defined: true,
        file: place.file,
        decl: place.decl,
        members,
    })
}

/// The members of an interface whose name is bound, and whose parent has this rank.
fn members<'a>(
    alloc: Global,
    state: &State<'a>,
    place: DeclPlace,
    start: Option<usize>,
    interface: &'a Interface,
) -> Result<Members<'a>, IdlError>
    requires few { length interface.now.members < 2 ^ 32 }
    requires counted { AreCountedMembers interface.now.members }
    ensures none { OnOk result (spec.member_faults place.file place.decl 1
        (opened state.now start interface.now) interface.now.members ≡ []) }
    ensures made { IfOk result (λ taken. taken.made
        ≡ scopes.members_made 1 (opened state.now start interface.now) interface.now.members) }
    ensures own { IfOk result (λ taken. known taken.own
        ≡ (scopes.inside_all (opened state.now start interface.now) interface.now.members).own) }
    ensures fault { IfErr result (λ error. spec.IsFirst error
        (spec.member_faults place.file place.decl 1
        (opened state.now start interface.now) interface.now.members)) }
{
    let around = Around {
        names: &state.names,
        constants: &state.constants,
        start,
        scriptable: has(b"scriptable", interface.attrs.as_slice()),
    };
    take_members(
        alloc,
        &around,
        place.file,
        place.decl,
        interface.members.as_slice(),
    )
}

/// What was found where the definition of an interface opens.
#[derive(Clone, Copy)]
struct Opening {
    /// The number of the interface.
    number: u32,
    /// The number of its parent.
    parent: Option<u32>,
    /// The rank of its parent.
    start: Option<usize>,
}

/// Binds the name of an interface that is defined. The one error is want of memory.
fn open_interface<'a>(state: &mut State<'a>, interface: &'a Interface) -> Result<Opening, Memory>
    requires { length (view state.old).ifaces < 2 ^ 32 }
    ensures number { IfOk result (λ opening. opening.number
        ≡ scopes.next_number (view state.old) interface.now.name) }
    ensures parent { IfOk result (λ opening. opening.parent
        ≡ scopes.defined_number (scopes.parent_bound (view state.old).names interface.now.parent)) }
    ensures outer { IfOk result (λ opening. scopes.constants_at (view state.old).constants
        opening.start
        ≡ scopes.outer_constants (view state.old) interface.now) }
    ensures opened { IfOk result (λ opening. opened state.new opening.start interface.now
        ≡ scopes.inside (view state.old) interface.now) }
    ensures known { OnOk result (view state.new
        ≡ record (view state.old) {
          names = scopes.names_within (view state.old)
              interface.now.name;
        }) }
{
    let number = next_number(state, &interface.name);
    let bound = parent_bound(&state.names, &interface.parent);
    let parent = defined_number(bound);
    let start = defined_rank(bound);
    let rank = state.constants.len();
    let binding = Binding::Defined { number, rank };
    bind(&mut state.names, interface.name.as_slice(), binding)?;
    Ok(Opening {
        number,
        parent,
        start,
    })
}

/// Adds an interface that is defined. The one error is want of memory.
fn store<'a>(
    state: &mut State<'a>,
    iid: Option<[u8; 16]>,
    number: u32,
    iface: ScopeIface,
    definition: Definition<'a>,
) -> Result<(), Memory>
    ensures { OnOk result (view state.new ≡ record {
      names = (view state.old).names;
      iids = scopes.used_iid (view state.old).iids iid;
      ifaces = scopes.placed (view state.old).ifaces number iface;
      defined = suc (view state.old).defined;
      constants = scopes.with_definition (view state.old).constants (view state.old).defined
          (scopes.either (known definition.entry.own)
          (scopes.constants_at (view state.old).constants definition.entry.parent));
    }) }
{
    use_iid(&mut state.iids, iid)?;
    place_at(&mut state.ifaces, number, iface)?;
    push_definition(&mut state.constants, definition)
}

/// Defines an interface, of which the first member with a fault is refused.
fn define<'a>(
    alloc: Global,
    state: &mut State<'a>,
    place: DeclPlace,
    interface: &'a Interface,
) -> Result<(), IdlError>
    requires few { length (view state.old).ifaces < 2 ^ 32 }
    requires members { length interface.now.members < 2 ^ 32 }
    requires counted { AreCountedMembers interface.now.members }
    ensures none { OnOk result (spec.inner_faults place.file place.decl (view state.old)
        (item.Interface interface.now) ≡ []) }
    ensures known { OnOk result (view state.new
        ≡ scopes.after_interface place.file place.decl (view state.old) interface.now) }
    ensures fault { IfErr result (λ error. spec.IsFirst error
        (spec.inner_faults place.file place.decl (view state.old) (item.Interface interface.now))) }
{
    let opening = open_interface(state, interface)?;
    let taken = match members(alloc, state, place, opening.start, interface) {
        Ok(taken) => taken,
        Err(error) => return Err(error),
    };
    let Members { made, own } = taken;
    let iid = uuid_of(interface.attrs.as_slice());
    let iface = iface_made(alloc, place, interface, opening.parent, made)?;
    let definition = Definition {
        parent: opening.start,
        own,
    };
    store(state, iid, opening.number, iface, definition)?;
    Ok(())
}

/// Takes a declaration without a fault of its own, of which the first member with a fault is
/// refused.
pub fn take<'a>(
    alloc: Global,
    state: &mut State<'a>,
    place: DeclPlace,
    body: &'a ItemBody,
) -> Result<(), IdlError>
    requires few { length (view state.old).ifaces < 2 ^ 32 }
    requires counted { IsCountedItem body.now }
    ensures none { OnOk result (spec.inner_faults place.file place.decl (view state.old) body.now
        ≡ []) }
    ensures known { OnOk result (view state.new
        ≡ scopes.after_new place.file place.decl (view state.old) body.now) }
    ensures fault { IfErr result (λ error. spec.IsFirst error
        (spec.inner_faults place.file place.decl (view state.old) body.now)) }
{
    match body {
        ItemBody::Include(_) => Ok(()),
        ItemBody::Code => Ok(()),
        ItemBody::Typedef { of, name } => {
            let lent = stands_for(read_type(&state.names, of));
            name_type(state, name, lent)?;
            Ok(())
        }
        ItemBody::Native { attrs, name, .. } => {
            let lent = native(name.as_slice(), attrs.as_slice());
            name_type(state, name, lent)?;
            Ok(())
        }
        ItemBody::Forward { name } => {
            forward(alloc, state, place, name)?;
            Ok(())
        }
        ItemBody::Interface(interface) => define(alloc, state, place, interface),
    }
}
