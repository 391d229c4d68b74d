ghost use Rattle.std.specs.Prelude.{◌≡◌, ◌<◌, ◌≤◌, OnOk, length};
ghost use Rattle.lib_model.specs.Denotes.{tag_at};
ghost use Rattle.typelib_faults.specs.Faults.{Gives, elem_form_fault, form_fault, past};
ghost use Rattle.typelib_faults.specs.Places.{elem_at, elem_len, type_at, type_len};

use crate::fields::{byte, half};
use crate::file::File;
use lib_model::{Elem, XType, tags};
use typelib_faults::{BadTypelib, TAG};

/// How many tags there are: the low five bits of a type's byte are its tag.
pub(crate) const TAG_COUNT: u8 = 32;

/// The fault that a tag is not allowed at `place`.
pub fn bad_tag(place: usize) -> BadTypelib
    ensures { result ≡ record { code = 11; at = place } }
{
    BadTypelib {
        code: TAG,
        at: place as u64,
    }
}

/// The tag of the type whose byte stands at `place`.
pub fn tag(file: &File<'_>, place: usize) -> Result<u8, BadTypelib>
    ensures gives { Gives (λ v. v) result (past file.now.bytes.now place 1)
        (tag_at file.now.bytes.now place) }
    ensures inside { OnOk result (place < length file.now.bytes.now) }
{
    Ok(byte(file, place)? % TAG_COUNT)
}

/// The type of an element, which begins at `place`. Its numbers are taken as they are.
#[tactic(auto, unfolding(typelib_faults::specs::Faults::elem_form_fault, typelib_faults::specs::Places::elem_at))]
fn elem_form(file: &File<'_>, place: usize) -> Result<Elem, BadTypelib>
    ensures { Gives (λ v. v) result (elem_form_fault file.now.bytes.now place)
        (elem_at file.now.bytes.now place) }
{
    match tag(file, place)? {
        tags::INTERFACE => Ok(Elem::Iface(half(file, place + 1)?)),
        tags::INTERFACE_IS => Ok(Elem::IidIs(byte(file, place + 1)?)),
        tags::ARRAY..=tags::SIZED_WSTRING => Err(bad_tag(place)),
        tag if tag > tags::JSVAL => Err(bad_tag(place)),
        tag => Ok(Elem::Plain(tag)),
    }
}

/// The type that begins at `place`. Its numbers are taken as they are.
#[tactic(auto, unfolding(typelib_faults::specs::Faults::form_fault, typelib_faults::specs::Places::type_at))]
pub fn type_form(file: &File<'_>, place: usize) -> Result<XType, BadTypelib>
    ensures gives { Gives (λ v. v) result (form_fault file.now.bytes.now place)
        (type_at file.now.bytes.now place) }
    ensures inside { OnOk result (place < length file.now.bytes.now) }
{
    match tag(file, place)? {
        tags::INTERFACE => Ok(XType::Iface(half(file, place + 1)?)),
        tags::INTERFACE_IS => Ok(XType::IidIs(byte(file, place + 1)?)),
        tags::ARRAY => Ok(XType::Array {
            size: byte(file, place + 1)?,
            len: byte(file, place + 2)?,
            elem: elem_form(file, place + 3)?,
        }),
        tags::SIZED_STRING => Ok(XType::SizedString {
            size: byte(file, place + 1)?,
            len: byte(file, place + 2)?,
        }),
        tags::SIZED_WSTRING => Ok(XType::SizedWString {
            size: byte(file, place + 1)?,
            len: byte(file, place + 2)?,
        }),
        tag if tag > tags::JSVAL => Err(bad_tag(place)),
        tag => Ok(XType::Plain(tag)),
    }
}

/// How many bytes an element's type has.
fn len_of_elem(elem: Elem) -> usize
    ensures is { result ≡ elem_len elem }
    ensures short { result ≤ 3 }
{
    match elem {
        Elem::Plain(_) => 1,
        Elem::Iface(_) => 3,
        Elem::IidIs(_) => 2,
    }
}

/// How many bytes a type has.
pub fn len_of_type(ty: XType) -> usize
    ensures is { result ≡ type_len ty }
    ensures short { result ≤ 6 }
{
    match ty {
        XType::Plain(_) => 1,
        XType::Iface(_) | XType::SizedString { .. } | XType::SizedWString { .. } => 3,
        XType::IidIs(_) => 2,
        XType::Array { elem, .. } => 3 + len_of_elem(elem),
    }
}
