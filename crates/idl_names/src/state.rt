//! What the declarations before a place make known.

ghost use Rattle.std.specs.Prelude.{◌≡◌, Some, is_some, option_map, OnOk};
ghost use Rattle.idl_grammar.specs.declared.tree.ItemBody.TheVariants as item;
ghost use Rattle.idl_meaning.specs.Meaning.{learns};
ghost use Rattle.idl_meaning.specs.Scopes as scopes;
ghost use Rattle.idl_meaning.specs.Faults as spec;
ghost use Rattle.idl_names.specs.Bindings.{bound_of, meant_of, names_of};
ghost use Rattle.idl_meaning.specs.Attributes as attributes;
ghost use Rattle.idl_names.specs.States.{iid_code, view};
ghost use Rattle.idl_names.specs.Tables.{used};

use crate::attributes::uuid_of;
use crate::bindings::{Binding, Lent, read_type};
use crate::constants::Definition;
use crate::identifiers::Identifiers;
use crate::parameters::is_void_name;
use crate::table::Table;
use idl_grammar::{Attr, Interface, ItemBody, TypeName};
use idl_meaning::ScopeIface;
use std::alloc::Global;
use xp_base::{Bytes, List, Memory};

/// What the declarations before a place make known.
#[derive(Drop)]
pub struct State<'a> {
    /// The names of types.
    pub names: Table<'a, Binding<'a>>,
    /// The identifiers that were used.
    pub iids: Identifiers,
    /// The interfaces, in the order of first mention.
    pub ifaces: Vec<ScopeIface>,
    /// Those that are defined, in the order of their definitions.
    pub constants: List<Definition<'a>>,
}

/// Nothing. It takes no memory.
pub fn nothing_known<'a>(alloc: Global) -> State<'a>
    ensures { view result ≡ scopes.nothing_known }
{
    State {
        names: Table::new(alloc),
        iids: Identifiers::new(alloc),
        ifaces: Vec::new(alloc),
        constants: List::new(alloc),
    }
}

/// Binds a name. The one error is want of memory.
pub fn bind<'a>(
    names: &mut Table<'a, Binding<'a>>,
    name: &'a [u8],
    binding: Binding<'a>,
) -> Result<(), Memory>
    ensures { OnOk result (names_of names.new
        ≡ learns (names_of names.old) name.now (Some (bound_of binding.entry))) }
{
    names.put(name, binding)?;
    Ok(())
}

// ---- the codes of a declaration

/// Whether the name is bound to anything.
fn is_bound(names: &Table<'_, Binding<'_>>, name: &Bytes) -> bool
    ensures { result ≡ is_some (names_of names.now name.now) }
{
    names.find(name.as_slice()).is_some()
}

/// Whether the name is bound to a typedef or a native.
fn is_typed(names: &Table<'_, Binding<'_>>, name: &Bytes) -> bool
    ensures { result ≡ scopes.is_typed (names_of names.now name.now) }
{
    matches!(names.find(name.as_slice()), Some(Binding::Typed(_)))
}

/// Whether the name is bound to anything but an interface that is only named.
fn is_taken(names: &Table<'_, Binding<'_>>, name: &Bytes) -> bool
    ensures { result ≡ scopes.is_taken (names_of names.now name.now) }
{
    match names.find(name.as_slice()) {
        None => false,
        Some(Binding::Forward(_)) => false,
        Some(_) => true,
    }
}

/// Whether a declaration's name was declared before.
fn redeclares(names: &Table<'_, Binding<'_>>, body: &ItemBody) -> bool
    ensures { result ≡ scopes.redeclares (names_of names.now) body.now }
{
    match body {
        ItemBody::Include(_) => false,
        ItemBody::Code => false,
        ItemBody::Typedef { name, .. } => is_bound(names, name),
        ItemBody::Native { name, .. } => is_bound(names, name),
        ItemBody::Forward { name } => is_typed(names, name),
        ItemBody::Interface(interface) => is_taken(names, &interface.name),
    }
}

/// What the name of the parent is bound to.
pub fn parent_bound<'a>(
    names: &Table<'a, Binding<'a>>,
    parent: &Option<Bytes>,
) -> Option<Binding<'a>>
    ensures { option_map bound_of result ≡ scopes.parent_bound (names_of names.now) parent.now }
{
    match parent {
        Some(name) => names.find(name.as_slice()),
        None => None,
    }
}

/// The number of an interface that is defined.
pub fn defined_number(binding: Option<Binding<'_>>) -> Option<u32>
    ensures { result ≡ scopes.defined_number (option_map bound_of binding.entry) }
{
    match binding {
        Some(Binding::Defined { number, .. }) => Some(number),
        _ => None,
    }
}

/// How many interfaces were defined before one that is defined.
pub fn defined_rank(binding: Option<Binding<'_>>) -> Option<usize>
    ensures { result ≡ scopes.defined_rank (option_map bound_of binding.entry) }
{
    match binding {
        Some(Binding::Defined { rank, .. }) => Some(rank),
        _ => None,
    }
}

/// Whether there is a parent, and it is no interface that is defined.
fn is_undefined(names: &Table<'_, Binding<'_>>, parent: &Option<Bytes>) -> bool
    ensures { result ≡ spec.is_undefined (names_of names.now) parent.now }
{
    match parent {
        Some(name) => !matches!(names.find(name.as_slice()), Some(Binding::Defined { .. })),
        None => false,
    }
}

/// The first code of a typedef.
fn typedef_code(state: &State<'_>, of: &TypeName, name: &Bytes) -> Option<u8>
    ensures { result ≡ spec.first (spec.codes_at
        (spec.Declaration (view state.now) (item.Typedef of.now name.now))) }
{
    let read = read_type(&state.names, of);
    if is_bound(&state.names, name) {
        return Some(1);
    }
    if read.is_unknown() {
        return Some(2);
    }
    if is_void_name(of) {
        return Some(6);
    }
    None
}

/// The code of the identifier of an interface.
fn iid_code(iids: &Identifiers, attrs: &[Attr]) -> Option<u8>
    ensures { result ≡ iid_code (used iids.now) (attributes.uuid_of attrs.now) }
{
    match uuid_of(attrs) {
        None => Some(4),
        Some(iid) if iids.has(&iid) => Some(5),
        Some(_) => None,
    }
}

/// The first code of the definition of an interface.
fn interface_code(state: &State<'_>, interface: &Interface) -> Option<u8>
    ensures { result ≡ spec.first (spec.codes_at
        (spec.Declaration (view state.now) (item.Interface interface.now))) }
{
    if is_taken(&state.names, &interface.name) {
        return Some(1);
    }
    if is_undefined(&state.names, &interface.parent) {
        return Some(3);
    }
    iid_code(&state.iids, interface.attrs.as_slice())
}

/// The first code of a declaration.
pub fn item_code(state: &State<'_>, body: &ItemBody) -> Option<u8>
    ensures { result ≡ spec.first (spec.codes_at (spec.Declaration (view state.now) body.now)) }
{
    match body {
        ItemBody::Typedef { of, name } => typedef_code(state, of, name),
        ItemBody::Interface(interface) => interface_code(state, interface),
        _ => {
            if redeclares(&state.names, body) {
                Some(1)
            } else {
                None
            }
        }
    }
}
