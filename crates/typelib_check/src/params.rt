ghost use Rattle.std.specs.Prelude.{◌≡◌, ◌+◌, ◌<◌, ◌≤◌, IfOk, OnOk, length};
ghost use Rattle.typelib_faults.specs.Faults.{Gives, Tries, elem_number_fault, number_fault, param_fault, param_next, result_fault, type_fault, type_number_fault};
ghost use Rattle.typelib_faults.specs.Places.{count_of, param_at, param_end, type_at};
ghost use Rattle.typelib_faults.specs.Walk.{reach, walk};

use crate::fields::byte;
use crate::file::File;
use crate::items::count_item;
use crate::type_forms::{len_of_type, type_form};
use lib_model::{Elem, Param, ParamFlags, XType};
use typelib_faults::{BadTypelib, Cursor, NUMBER};

/// Tries whether this is the number of an interface; it stands at `place`.
fn number(file: &File<'_>, number: u16, place: usize) -> Result<(), BadTypelib>
    ensures { Tries result (number_fault (count_of file.now.bytes.now) number place) }
{
    if number == 0 || number > file.count {
        return Err(BadTypelib {
            code: NUMBER,
            at: place as u64,
        });
    }
    Ok(())
}

/// Tries the number of an interface in the type of an element, which begins at `place`.
fn elem_number(file: &File<'_>, elem: Elem, place: usize) -> Result<(), BadTypelib>
    requires { place ≤ length file.now.bytes.now + 3 }
    ensures { Tries result (elem_number_fault (count_of file.now.bytes.now) place elem) }
{
    match elem {
        Elem::Iface(iface) => number(file, iface, place + 1),
        _ => Ok(()),
    }
}

/// Tries the number of an interface in a type, which begins at `place`.
fn type_number(file: &File<'_>, ty: XType, place: usize) -> Result<(), BadTypelib>
    requires { place < length file.now.bytes.now }
    ensures { Tries result (type_number_fault (count_of file.now.bytes.now) place ty) }
{
    match ty {
        XType::Iface(iface) => number(file, iface, place + 1),
        XType::Array { elem, .. } => elem_number(file, elem, place + 3),
        _ => Ok(()),
    }
}

/// The type that begins at `place`, where it names no interface that is not there.
#[tactic(auto, unfolding(typelib_faults::specs::Faults::type_fault))]
fn type_of_param(file: &File<'_>, place: usize) -> Result<XType, BadTypelib>
    ensures gives { Gives (λ v. v) result (type_fault file.now.bytes.now place)
        (type_at file.now.bytes.now place) }
    ensures inside { OnOk result (place < length file.now.bytes.now) }
{
    let ty = type_form(file, place)?;
    type_number(file, ty, place)?;
    Ok(ty)
}

/// The parameter at a cursor, and the cursor behind it.
#[tactic(auto, unfolding(typelib_faults::specs::Faults::param_fault))]
pub fn param(file: &File<'_>, at: Cursor) -> Result<(Param, Cursor), BadTypelib>
    ensures gives { Gives (λ v. v) result (param_fault file.now.bytes.now at)
        (param_at file.now.bytes.now at.place, param_next file.now.bytes.now at) }
    ensures inside { OnOk result (at.place < length file.now.bytes.now) }
{
    count_item(at)?;
    let bits = byte(file, at.place)? & ParamFlags::KNOWN;
    let ty = type_of_param(file, at.place + 1)?;
    let next = Cursor {
        place: at.place + 1 + len_of_type(ty),
        items: at.items + 1,
    };
    let flags = ParamFlags { bits };
    Ok((Param { flags, ty }, next))
}

/// The cursor behind so many parameters, which begin at a cursor.
#[tactic(auto, using(typelib_faults::proofs::MemberLaws::params_place, typelib_faults::proofs::MemberLaws::params_items))]
pub fn params(file: &File<'_>, from: Cursor, count: u8) -> Result<Cursor, BadTypelib>
    ensures gives { Gives (λ v. v) result
        (walk (param_fault file.now.bytes.now) (param_next file.now.bytes.now) from count)
        (reach (param_next file.now.bytes.now) from count) }
    ensures place { IfOk result
        (λ c. c.place ≡ reach (param_end file.now.bytes.now) from.place count) }
    ensures items { IfOk result (λ c. c.items ≡ from.items + count) }
{
    let mut at = from;
    for _ in 0..count {
        let (_, next) = param(file, at)?;
        at = next;
    }
    Ok(at)
}

/// The end of the result parameter that begins at `place`. Of it only the form of its type counts.
#[tactic(auto, unfolding(typelib_faults::specs::Faults::result_fault))]
pub fn result_end(file: &File<'_>, place: usize) -> Result<usize, BadTypelib>
    ensures { Gives (λ v. v) result (result_fault file.now.bytes.now place)
        (param_end file.now.bytes.now place) }
{
    byte(file, place)?;
    let ty = type_form(file, place + 1)?;
    Ok(place + 1 + len_of_type(ty))
}
