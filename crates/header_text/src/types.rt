//! The C++ types of a header's arguments.

ghost use Rattle.std.specs.Prelude.{◌≡◌, IfOk};
ghost use Rattle.idl_meaning.specs.Meaning as meaning;
ghost use Rattle.prototype_lowering.specs.StaticTable as static_table;
ghost use Rattle.header_text.specs.Types as types;
ghost use Rattle.header_text.specs.Types.{param_like};

use call_model::Pass;
use header_model::type_word;
use idl_meaning::{Meant, ScopeIface};
use lib_model::tags;
use std::alloc::Global;
use xp_base::{Bytes, Dir, List, Memory};

/// What the type of an argument follows from.
#[derive(Clone, Copy)]
pub(crate) struct Typed<'a> {
    /// What its type, or that of its elements, means.
    pub ty: &'a Meant,
    /// Whether it is passed in, out, or both.
    pub dir: Dir,
    /// Whether it is an array.
    pub array: bool,
    /// The number of the parameter that identifies its interface.
    pub iid: Option<u32>,
}

/// The name of the interface of this number, and no bytes where there is none.
pub(crate) fn name_at(ifaces: &List<ScopeIface>, k: u32) -> &[u8]
    ensures { result.now ≡ types.name_at ifaces.now k }
{
    match ifaces.get(k as usize) {
        Some(iface) => iface.name.as_slice(),
        None => b"",
    }
}

/// The type of an address of this type.
fn pointer_to(base: Bytes) -> Result<Bytes, Memory>
    ensures { IfOk result (λ text. text ≡ types.pointer_to base) }
{
    let mut text = base;
    text.append(b"*")?;
    Ok(text)
}

/// The base of a basic type, which has this tag.
fn basic_base(tag: u8) -> &'static [u8]
    ensures { result.now ≡ types.basic_base tag }
{
    match tag {
        tags::STRING => b"char*",
        tags::WSTRING => b"char16_t*",
        _ => type_word(tags::c_type(tag)),
    }
}

/// The base of an interface.
fn iface_base(
    alloc: Global,
    ifaces: &List<ScopeIface>,
    k: u32,
    iid: Option<u32>,
) -> Result<Bytes, Memory>
    ensures { IfOk result (λ text. text ≡ types.iface_base ifaces.now k iid) }
{
    match iid {
        None => pointer_to(Bytes::copy(alloc, name_at(ifaces, k))?),
        Some(_) => Bytes::copy(alloc, b"void*"),
    }
}

/// The base of a type that is no array.
fn base_alone(
    alloc: Global,
    ifaces: &List<ScopeIface>,
    ty: &Meant,
    iid: Option<u32>,
) -> Result<Bytes, Memory>
    ensures { IfOk result (λ text. text ≡ types.base_alone ifaces.now ty.now iid) }
{
    match ty {
        Meant::Basic(tag) => Bytes::copy(alloc, basic_base(*tag)),
        Meant::Iface(k) => iface_base(alloc, ifaces, *k, iid),
        Meant::NsidRef | Meant::NsidPtr => Bytes::copy(alloc, b"nsID*"),
        Meant::StringClass(_) | Meant::JsVal | Meant::Native(_) => Bytes::copy(alloc, b"void*"),
    }
}

/// The base of a type.
fn base_of(alloc: Global, ifaces: &List<ScopeIface>, typed: Typed<'_>) -> Result<Bytes, Memory>
    ensures { IfOk result (λ text. text ≡ types.base_of ifaces.now (param_like typed.entry)) }
{
    let base = base_alone(alloc, ifaces, typed.ty, typed.iid)?;
    if typed.array {
        pointer_to(base)
    } else {
        Ok(base)
    }
}

/// The reference to a string of the class that has this tag.
fn class_reference(tag: u8) -> &'static [u8]
    ensures { result.now ≡ types.class_reference tag }
{
    match tag {
        tags::DOMSTRING | tags::ASTRING => b"nsAString&",
        _ => b"nsACString&",
    }
}

/// The type of a string class that is passed so.
fn class_type(alloc: Global, tag: u8, dir: Dir) -> Result<Bytes, Memory>
    ensures { IfOk result (λ text. text ≡ types.class_type tag dir) }
{
    let reference = class_reference(tag);
    match dir {
        Dir::Inward => {
            let mut text = Bytes::copy(alloc, b"const ")?;
            text.append(reference)?;
            Ok(text)
        }
        Dir::Outward | Dir::Both => Bytes::copy(alloc, reference),
    }
}

/// The type of what is passed by reference.
fn referred_type(alloc: Global, ty: &Meant, dir: Dir) -> Result<Bytes, Memory>
    ensures { IfOk result (λ text. text ≡ types.referred_type ty.now dir) }
{
    match ty {
        Meant::NsidRef => Bytes::copy(alloc, b"const nsID&"),
        Meant::NsidPtr => Bytes::copy(alloc, b"const nsID*"),
        Meant::StringClass(tag) => class_type(alloc, *tag, dir),
        Meant::Basic(_) | Meant::Iface(_) | Meant::JsVal | Meant::Native(_) => {
            Bytes::copy(alloc, b"void*")
        }
    }
}

/// How a value that is no string class is passed.
fn pass_by(dir: Dir, nsid: bool) -> Pass
    ensures { result ≡ static_table.pass_by dir nsid }
{
    match dir {
        Dir::Inward => { if nsid { Pass::ByRef } else { Pass::ByValue } }
        Dir::Outward => Pass::ByCell { inward: false },
        Dir::Both => Pass::ByCell { inward: true },
    }
}

/// Whether a type is an identifier.
fn is_iid(ty: &Meant) -> bool
    ensures { result ≡ meaning.is_iid ty.now }
{
    matches!(ty, Meant::NsidRef | Meant::NsidPtr)
}

/// How an argument is passed.
fn pass_of(typed: Typed<'_>) -> Pass
    ensures { result ≡ static_table.pass_of (param_like typed.entry) }
{
    match typed.ty {
        Meant::StringClass(_) => Pass::ByRef,
        ty => pass_by(typed.dir, is_iid(ty) && !typed.array),
    }
}

/// The type of an argument.
pub(crate) fn type_text(
    alloc: Global,
    ifaces: &List<ScopeIface>,
    typed: Typed<'_>,
) -> Result<Bytes, Memory>
    ensures { IfOk result (λ text. text ≡ types.type_text ifaces.now (param_like typed.entry)) }
{
    match pass_of(typed) {
        Pass::ByValue => base_of(alloc, ifaces, typed),
        Pass::ByRef => referred_type(alloc, typed.ty, typed.dir),
        Pass::ByCell { .. } => pointer_to(base_of(alloc, ifaces, typed)?),
    }
}
