ghost use Rattle.std.specs.Prelude.{◌≡◌, None};
ghost use Rattle.lib_model.specs.Table.{kind_of};
ghost use Rattle.typelib_faults.specs.Faults.{method_fault};
ghost use Rattle.typelib_faults.specs.Places.{method_at};
ghost use Rattle.typelib_check.specs.Parts.{AreFineParams, params_of};

use call_model::MemberKind;
use lib_model::MethodFlags;
use typelib_check::names::known_name;
use typelib_check::{File, Params};
use typelib_faults::Cursor;

/// The flags of the method at a cursor, which has no fault.
#[tactic(auto, using(typelib_check::proofs::PartLaws::method_inside), unfolding(typelib_faults::specs::Places::method_at))]
pub(crate) fn flags_of_method(file: &File<'_>, at: Cursor) -> MethodFlags
    requires { method_fault file.now.bytes.now at ≡ None }
    ensures { result ≡ (method_at file.now.bytes.now at.place).flags }
{
    let bits = file.bytes[at.place] & MethodFlags::KNOWN;
    MethodFlags { bits }
}

/// The name of the method at a cursor, which has no fault.
#[tactic(auto, using(typelib_check::proofs::PartLaws::method_inside, typelib_check::proofs::PartLaws::method_name), unfolding(typelib_faults::specs::Places::method_at))]
pub(crate) fn name_of_method<'a>(file: &File<'a>, at: Cursor) -> &'a [u8]
    requires { method_fault file.now.bytes.now at ≡ None }
    ensures { result.now ≡ (method_at file.now.bytes.now at.place).name }
{
    known_name(file, at.place + 1)
}

/// What the method at a cursor, which has no fault, is: a method, or the reading or the writing
/// half of an attribute.
pub(crate) fn kind_of_method(file: &File<'_>, at: Cursor) -> MemberKind
    requires { method_fault file.now.bytes.now at ≡ None }
    ensures { result ≡ kind_of (method_at file.now.bytes.now at.place) }
{
    flags_of_method(file, at).kind()
}

/// The parameters of the method at a cursor, which has no fault.
#[tactic(auto, using(typelib_check::proofs::PartLaws::method_room, typelib_check::proofs::PartLaws::method_inside, typelib_check::proofs::PartLaws::method_params), unfolding(typelib_faults::specs::Places::method_at))]
pub(crate) fn params_of_method(file: &File<'_>, at: Cursor) -> Params
    requires { method_fault file.now.bytes.now at ≡ None }
    ensures fine { AreFineParams file.now.bytes.now result }
    ensures are { params_of file.now.bytes.now result
        ≡ (method_at file.now.bytes.now at.place).params }
{
    Params {
        from: Cursor {
            place: at.place + 6,
            items: at.items + 1,
        },
        count: file.bytes[at.place + 5],
    }
}
