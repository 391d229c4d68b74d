ghost use Rattle.std.specs.Prelude.{◌≡◌, None};
ghost use Rattle.std.specs.List.{list_any};
ghost use Rattle.lib_model.specs.declared.param_types.Param.{Param};
ghost use Rattle.lib_model.specs.Table.{is_opaque, status_of};
ghost use Rattle.typelib_faults.specs.Faults.{method_fault};
ghost use Rattle.typelib_faults.specs.Places.{method_at};
ghost use Rattle.typelib_check.specs.Parts.{AreFineParams, params_of};

use crate::method_fields::{flags_of_method, params_of_method};
use bitflags::Flags;
use call_model::Status;
use lib_model::MethodFlags;
use typelib_check::arguments::known_param;
use typelib_check::{File, Params};
use typelib_faults::Cursor;

/// Whether one of these parameters, which have no fault, has a type that no call can pass.
fn any_opaque(file: &File<'_>, params: Params) -> bool
    requires { AreFineParams file.now.bytes.now params }
    ensures { result ≡ list_any (λ (p : Param). is_opaque p.ty)
        (params_of file.now.bytes.now params) }
{
    let mut at = params.from;
    for _ in 0..params.count {
        let (found, next) = known_param(file, at);
        if found.ty.is_opaque() {
            return true;
        }
        at = next;
    }
    false
}

/// Whether the method at a cursor, which has no fault, may be called, and if not, why.
pub(crate) fn status_of_method(file: &File<'_>, at: Cursor) -> Status
    requires { method_fault file.now.bytes.now at ≡ None }
    ensures { result ≡ status_of (method_at file.now.bytes.now at.place) }
{
    let flags = flags_of_method(file, at);
    if flags.contains(MethodFlags::HIDDEN) {
        Status::Hidden
    } else if flags.contains(MethodFlags::NOTXPCOM) {
        Status::NotXpcom
    } else if any_opaque(file, params_of_method(file, at)) {
        Status::Opaque
    } else {
        Status::Callable
    }
}
