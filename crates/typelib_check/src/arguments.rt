ghost use Rattle.std.specs.Prelude.{◌≡◌, ◌+◌, ◌<◌, ◌^◌, List, None, length};
ghost use Rattle.lib_model.specs.declared.param_types.Param.{Param};
ghost use Rattle.typelib_faults.specs.Faults.{Tries, args_fault, count_arg_fault, elem_args_fault, form_fault, iid_arg_fault, param_fault, param_next, type_args_fault};
ghost use Rattle.typelib_faults.specs.Places.{param_at, param_end};
ghost use Rattle.typelib_faults.specs.Walk.{walk};
ghost use Rattle.typelib_check.specs.Parts.{AreFineParams, HasTags, params_of};

use crate::file::File;
use crate::lengths::{known_tag, param_behind};
use crate::params::param;
use crate::parts::Params;
use crate::type_forms::type_form;
use lib_model::{Elem, Param, ParamFlags, XType, tags};
use typelib_faults::{ARGUMENT, BadTypelib, Cursor};

/// The parameter at a cursor, which has no fault, and the cursor behind it.
pub fn known_param(file: &File<'_>, at: Cursor) -> (Param, Cursor)
    requires { param_fault file.now.bytes.now at ≡ None }
    ensures is { result ≡ (param_at file.now.bytes.now at.place, param_next file.now.bytes.now at) }
    ensures inside { at.place < length file.now.bytes.now }
{
    match param(file, at) {
        Ok(found) => found,
        Err(_) => unreachable!(),
    }
}

/// The parameter that begins at `place`, whose type has no fault.
pub fn param_value(file: &File<'_>, place: usize) -> Param
    requires form { form_fault file.now.bytes.now (place + 1) ≡ None }
    requires inside { place < length file.now.bytes.now }
    ensures { result ≡ param_at file.now.bytes.now place }
{
    let bits = file.bytes[place] & ParamFlags::KNOWN;
    match type_form(file, place + 1) {
        Ok(ty) => Param {
            flags: ParamFlags { bits },
            ty,
        },
        Err(_) => unreachable!(),
    }
}

/// The tags of these parameters by their numbers, which a byte holds; None where there is no such
/// parameter.
fn tags_of_params(file: &File<'_>, params: Params) -> [Option<u8>; 256]
    requires { AreFineParams file.now.bytes.now params }
    ensures { HasTags result (params_of file.now.bytes.now params) }
{
    let mut found = [None; 256];
    let mut place = params.from.place;
    for number in 0..params.count {
        found[usize::from(number)] = Some(known_tag(file, place + 1));
        place = param_behind(file, place);
    }
    found
}

/// The fault that a number at `place` is not that of an argument of the type that is wanted.
fn bad_argument(place: usize) -> BadTypelib
    ensures { result ≡ record { code = 12; at = place } }
{
    BadTypelib {
        code: ARGUMENT,
        at: place as u64,
    }
}

/// Tries whether the number at `place` is that of a parameter that can tell a size or a length.
fn count_arg(found: &[Option<u8>; 256], number: u8, place: usize) -> Result<(), BadTypelib>
    ensures { (params : List Param) → HasTags found.now params
        → Tries result (count_arg_fault params number place) }
{
    let tag = found[usize::from(number)];
    match tag {
        Some(tag) if tag <= tags::UINT64 => Ok(()),
        _ => Err(bad_argument(place)),
    }
}

/// Tries whether the number at `place` is that of a parameter of the type nsIID.
fn iid_arg(found: &[Option<u8>; 256], number: u8, place: usize) -> Result<(), BadTypelib>
    ensures { (params : List Param) → HasTags found.now params
        → Tries result (iid_arg_fault params number place) }
{
    let tag = found[usize::from(number)];
    match tag {
        Some(tags::NSID) => Ok(()),
        _ => Err(bad_argument(place)),
    }
}

/// Tries the number of an argument in the type of an element, which begins at `place`.
fn elem_args(found: &[Option<u8>; 256], elem: Elem, place: usize) -> Result<(), BadTypelib>
    requires { place + 1 < 2 ^ 64 }
    ensures { (params : List Param) → HasTags found.now params
        → Tries result (elem_args_fault params place elem) }
{
    match elem {
        Elem::IidIs(number) => iid_arg(found, number, place + 1),
        _ => Ok(()),
    }
}

/// Tries the numbers of arguments in a type, which begins at `place`.
fn type_args(found: &[Option<u8>; 256], ty: XType, place: usize) -> Result<(), BadTypelib>
    requires { place + 4 < 2 ^ 64 }
    ensures { (params : List Param) → HasTags found.now params
        → Tries result (type_args_fault params place ty) }
{
    match ty {
        XType::IidIs(number) => iid_arg(found, number, place + 1),
        XType::Array { size, len, elem } => {
            count_arg(found, size, place + 1)?;
            count_arg(found, len, place + 2)?;
            elem_args(found, elem, place + 3)
        }
        XType::SizedString { size, len } | XType::SizedWString { size, len } => {
            count_arg(found, size, place + 1)?;
            count_arg(found, len, place + 2)
        }
        _ => Ok(()),
    }
}

/// Tries the numbers of arguments of all these parameters, which have no fault otherwise.
pub fn arguments(file: &File<'_>, params: Params) -> Result<(), BadTypelib>
    requires { AreFineParams file.now.bytes.now params }
    ensures { Tries result
        (walk (args_fault file.now.bytes.now (params_of file.now.bytes.now params))
        (param_end file.now.bytes.now) params.from.place params.count) }
{
    if params.count == 0 {
        return Ok(());
    }
    let found_tags = tags_of_params(file, params);
    let mut at = params.from;
    for _ in 0..params.count {
        let (found, next) = known_param(file, at);
        type_args(&found_tags, found.ty, at.place + 1)?;
        at = next;
    }
    Ok(())
}
