//! The type of a lowered parameter.

ghost use Rattle.std.specs.Prelude.{◌≡◌, ◌<◌, length};
ghost use Rattle.std.specs.Option.{unwrap_or};
ghost use Rattle.prototype_lowering.specs.Directory.{number};
ghost use Rattle.prototype_lowering.specs.Lowering as lowering;
ghost use Rattle.prototype_lowering.specs.Numbering.{IsKnown, InEachDirectory, IsSayable, IsSmall};

use idl_meaning::{Meant, ScopeParam};
use lib_model::{Elem, XType, tags};

/// The number of an interface in the typelib.
pub(crate) fn number_of(numbers: &[u16], k: u32) -> u16
    requires { k < length numbers.now }
    ensures { InEachDirectory numbers.now (λ d. result ≡ number d k) }
{
    numbers[k as usize]
}

/// The number of a parameter that is named, or this one where none is.
fn param_number(named: &Option<u32>, other: u8) -> u8
    requires { IsSmall named.now }
    ensures { result ≡ unwrap_or named.now other }
{
    match named {
        Some(param) => *param as u8,
        None => other,
    }
}

/// The type of an interface as an element: its own, or the one whose identifier a parameter gives.
fn iface_elem(numbers: &[u16], k: u32, iid: &Option<u32>) -> Elem
    requires known { k < length numbers.now }
    requires small { IsSmall iid.now }
    ensures { InEachDirectory numbers.now (λ d. result ≡ lowering.iface_elem d k iid.now) }
{
    match iid {
        Some(param) => Elem::IidIs(*param as u8),
        None => Elem::Iface(number_of(numbers, k)),
    }
}

/// A native type as an element.
fn native_elem(iid: &Option<u32>) -> Elem
    requires { IsSmall iid.now }
    ensures { result ≡ lowering.native_elem iid.now }
{
    match iid {
        Some(param) => Elem::IidIs(*param as u8),
        None => Elem::Plain(tags::VOID),
    }
}

/// The type of an array's element.
pub(crate) fn elem_of(numbers: &[u16], ty: &Meant, iid: &Option<u32>) -> Elem
    requires known { IsKnown (length numbers.now) ty.now }
    requires small { IsSmall iid.now }
    ensures { InEachDirectory numbers.now (λ d. result ≡ lowering.elem_of d ty.now iid.now) }
{
    match ty {
        Meant::Basic(tag) | Meant::StringClass(tag) => Elem::Plain(*tag),
        Meant::Iface(k) => iface_elem(numbers, *k, iid),
        Meant::NsidRef | Meant::NsidPtr => Elem::Plain(tags::NSID),
        Meant::JsVal => Elem::Plain(tags::JSVAL),
        Meant::Native(_) => native_elem(iid),
    }
}

/// The type of a parameter that is no array, from its form as an element.
pub(crate) fn alone(elem: Elem) -> XType
    ensures { result ≡ lowering.alone elem }
{
    match elem {
        Elem::Plain(tag) => XType::Plain(tag),
        Elem::Iface(k) => XType::Iface(k),
        Elem::IidIs(param) => XType::IidIs(param),
    }
}

/// A basic type: a string whose size a parameter tells has a type of its own.
fn sized_type(tag: u8, size: &Option<u32>, len: u8) -> XType
    requires { IsSmall size.now }
    ensures { result ≡ lowering.sized_type tag size.now len }
{
    match size {
        None => XType::Plain(tag),
        Some(size) => {
            let size = *size as u8;
            if tag == tags::STRING {
                XType::SizedString { size, len }
            } else if tag == tags::WSTRING {
                XType::SizedWString { size, len }
            } else {
                XType::Plain(tag)
            }
        }
    }
}

/// The type of a parameter.
pub(crate) fn type_of(numbers: &[u16], param: &ScopeParam) -> XType
    requires { IsSayable (length numbers.now) param.now }
    ensures { InEachDirectory numbers.now (λ d. result ≡ lowering.type_of d param.now) }
{
    let size = param_number(&param.size, 0);
    let len = param_number(&param.length, size);
    if param.array {
        let elem = elem_of(numbers, &param.ty, &param.iid);
        XType::Array { size, len, elem }
    } else if let Meant::Basic(tag) = &param.ty {
        sized_type(*tag, &param.size, len)
    } else {
        alone(elem_of(numbers, &param.ty, &param.iid))
    }
}
