ghost use Rattle.std.specs.Prelude.{◌≡◌, ◌+◌, ◌<◌, ◌≤◌, None, length};
ghost use Rattle.lib_model.specs.Denotes.{value_len};
ghost use Rattle.lib_model.specs.Valid.{tag_of};
ghost use Rattle.typelib_faults.specs.Faults.{constant_fault, constant_next, elem_form_fault, form_fault, method_fault, method_next};
ghost use Rattle.typelib_faults.specs.Places.{elem_at, elem_len, kind_by_tag, param_end, type_at, type_len};
ghost use Rattle.typelib_faults.specs.Walk.{reach};
ghost use Rattle.typelib_check.specs.Parts.{AreFineConstants, AreFineMethods, AreFineParams};

use crate::file::File;
use crate::parts::{Constants, Methods, Params};
use crate::type_forms::TAG_COUNT;
use lib_model::tags;
use typelib_faults::Cursor;

/// How many bytes the element's type has that begins at `place`, which has no fault.
#[tactic(auto, unfolding(typelib_faults::specs::Faults::elem_form_fault, typelib_faults::specs::Places::elem_at))]
fn elem_bytes(file: &File<'_>, place: usize) -> usize
    requires { elem_form_fault file.now.bytes.now place ≡ None }
    ensures { result ≡ elem_len (elem_at file.now.bytes.now place) }
{
    match file.bytes[place] % TAG_COUNT {
        tags::INTERFACE => 3,
        tags::INTERFACE_IS => 2,
        _ => 1,
    }
}

/// How many bytes the type has that begins at `place`, which has no fault.
#[tactic(auto, unfolding(typelib_faults::specs::Faults::form_fault, typelib_faults::specs::Places::type_at))]
fn type_bytes(file: &File<'_>, place: usize) -> usize
    requires { form_fault file.now.bytes.now place ≡ None }
    ensures { result ≡ type_len (type_at file.now.bytes.now place) }
{
    match file.bytes[place] % TAG_COUNT {
        tags::INTERFACE | tags::SIZED_STRING | tags::SIZED_WSTRING => 3,
        tags::INTERFACE_IS => 2,
        tags::ARRAY => 3 + elem_bytes(file, place + 3),
        _ => 1,
    }
}

/// The tag of the type that begins at `place`, which has no fault.
#[tactic(auto, unfolding(typelib_faults::specs::Faults::form_fault, typelib_faults::specs::Places::type_at))]
pub fn known_tag(file: &File<'_>, place: usize) -> u8
    requires { form_fault file.now.bytes.now place ≡ None }
    ensures { result ≡ tag_of (type_at file.now.bytes.now place) }
{
    file.bytes[place] % TAG_COUNT
}

/// The place behind the parameter that begins at `place`, whose type has no fault.
pub fn param_behind(file: &File<'_>, place: usize) -> usize
    requires form { form_fault file.now.bytes.now (place + 1) ≡ None }
    requires inside { place < length file.now.bytes.now }
    ensures { result ≡ param_end file.now.bytes.now place }
{
    place + 1 + type_bytes(file, place + 1)
}

/// The place behind all these parameters, which have no fault.
pub fn params_behind(file: &File<'_>, params: Params) -> usize
    requires { AreFineParams file.now.bytes.now params }
    ensures { result ≡ reach (param_end file.now.bytes.now) params.from.place params.count }
{
    let mut place = params.from.place;
    for _ in 0..params.count {
        place = param_behind(file, place);
    }
    place
}

/// The cursor behind the method at a cursor, which has no fault.
#[tactic(auto, using(crate::proofs::PartLaws::method_room, crate::proofs::PartLaws::method_inside, crate::proofs::PartLaws::method_params, crate::proofs::PartLaws::method_result_inside, crate::proofs::PartLaws::method_result_form, crate::proofs::PartLaws::method_few), unfolding(typelib_faults::specs::Places::method_end))]
pub fn method_behind(file: &File<'_>, at: Cursor) -> Cursor
    requires { method_fault file.now.bytes.now at ≡ None }
    ensures { result ≡ method_next file.now.bytes.now at }
{
    let count = file.bytes[at.place + 5];
    let from = Cursor {
        place: at.place + 6,
        items: at.items + 1,
    };
    let last = params_behind(file, Params { from, count });
    Cursor {
        place: param_behind(file, last),
        items: at.items + 1 + u32::from(count),
    }
}

/// How many bytes the value has of a constant whose type has this tag.
fn value_bytes(tag: u8) -> usize
    ensures is { result ≡ value_len (kind_by_tag tag) }
    ensures short { result ≤ 4 }
{
    match tag {
        tags::INT16 | tags::UINT16 => 2,
        _ => 4,
    }
}

/// The cursor behind the constant at a cursor, which has no fault.
#[tactic(auto, using(crate::proofs::PartLaws::constant_room, crate::proofs::PartLaws::constant_inside), unfolding(typelib_faults::specs::Places::constant_end))]
pub fn constant_behind(file: &File<'_>, at: Cursor) -> Cursor
    requires { constant_fault file.now.bytes.now at ≡ None }
    ensures { result ≡ constant_next file.now.bytes.now at }
{
    let tag = file.bytes[at.place + 4] % TAG_COUNT;
    Cursor {
        place: at.place + 5 + value_bytes(tag),
        items: at.items + 1,
    }
}

/// The cursor behind all these methods, which have no fault.
pub fn methods_behind(file: &File<'_>, methods: Methods) -> Cursor
    requires { AreFineMethods file.now.bytes.now methods }
    ensures { result ≡ reach (method_next file.now.bytes.now) methods.from methods.count }
{
    let mut at = methods.from;
    for _ in 0..methods.count {
        at = method_behind(file, at);
    }
    at
}

/// The cursor behind all these constants, which have no fault.
pub fn constants_behind(file: &File<'_>, constants: Constants) -> Cursor
    requires { AreFineConstants file.now.bytes.now constants }
    ensures { result ≡ reach (constant_next file.now.bytes.now) constants.from constants.count }
{
    let mut at = constants.from;
    for _ in 0..constants.count {
        at = constant_behind(file, at);
    }
    at
}
