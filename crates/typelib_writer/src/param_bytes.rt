ghost use Rattle.std.specs.Prelude.{◌≡◌, ◌<◌, ◌∷◌, ◌++◌, All, OnOk};
ghost use Rattle.std.specs.List.{flat_map};
ghost use Rattle.lib_model.specs.Emit.{elem_text, param_text, tag_byte, two_bytes, type_text};
ghost use Rattle.lib_model.specs.declared.tags.TheConstants as tags;
ghost use Rattle.typelib_writer.specs.Fits.{ElemFits, TypeFits};

use crate::numbers::put_u16;
use lib_model::{Elem, Param, XType, tags};
use xp_base::{Bytes, Memory};

/// The bit of a type's byte that says that it is a pointer.
const POINTER: u8 = 0x80;

/// The byte of a type with this tag. The tags of numbers, truth values and characters come first,
/// all others are those of pointers.
fn byte_of_tag(tag: u8) -> u8
    requires { tag < 128 }
    ensures { result ≡ tag_byte tag }
{
    if tag <= tags::WCHAR {
        tag
    } else {
        tag + POINTER
    }
}

/// Adds the type that is the interface of this number.
fn put_interface(out: &mut Bytes, number: u16) -> Result<(), Memory>
    ensures { OnOk result (out.new ≡ out.old ++ tag_byte tags.INTERFACE ∷ two_bytes number) }
{
    out.append(&[byte_of_tag(tags::INTERFACE)])?;
    put_u16(out, number)
}

/// Adds the type of an array's element.
#[tactic(auto, unfolding(lib_model::specs::Emit::elem_text))]
fn put_elem(out: &mut Bytes, elem: Elem) -> Result<(), Memory>
    requires { ElemFits elem }
    ensures { OnOk result (out.new ≡ out.old ++ elem_text elem) }
{
    match elem {
        Elem::Plain(tag) => out.append(&[byte_of_tag(tag)]),
        Elem::Iface(number) => put_interface(out, number),
        Elem::IidIs(param) => out.append(&[byte_of_tag(tags::INTERFACE_IS), param]),
    }
}

/// Adds the type of a parameter.
#[tactic(auto, unfolding(lib_model::specs::Emit::type_text))]
fn put_type(out: &mut Bytes, ty: XType) -> Result<(), Memory>
    requires { TypeFits ty }
    ensures { OnOk result (out.new ≡ out.old ++ type_text ty) }
{
    match ty {
        XType::Plain(tag) => out.append(&[byte_of_tag(tag)]),
        XType::Iface(number) => put_interface(out, number),
        XType::IidIs(param) => out.append(&[byte_of_tag(tags::INTERFACE_IS), param]),
        XType::Array { size, len, elem } => {
            out.append(&[byte_of_tag(tags::ARRAY), size, len])?;
            put_elem(out, elem)
        }
        XType::SizedString { size, len } => out.append(&[
            byte_of_tag(tags::SIZED_STRING),
            size,
            len,
        ]),
        XType::SizedWString { size, len } => out.append(&[
            byte_of_tag(tags::SIZED_WSTRING),
            size,
            len,
        ]),
    }
}

/// Adds a parameter.
#[tactic(auto, unfolding(lib_model::specs::Emit::param_text))]
fn put_param(out: &mut Bytes, param: &Param) -> Result<(), Memory>
    requires { TypeFits param.now.ty }
    ensures { OnOk result (out.new ≡ out.old ++ param_text param.now) }
{
    out.append(&[param.flags.bits])?;
    put_type(out, param.ty)
}

/// Adds the parameters of a method, in order.
pub(crate) fn put_params(out: &mut Bytes, params: &[Param]) -> Result<(), Memory>
    requires { All (λ p. TypeFits p.ty) params.now }
    ensures { OnOk result (out.new ≡ out.old ++ flat_map param_text params.now) }
{
    for param in params {
        put_param(out, param)?;
    }
    Ok(())
}
