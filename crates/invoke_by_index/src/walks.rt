//! Walks along the arguments of a method.

ghost use Rattle.std.specs.Prelude.{◌≡◌, ◌≤◌};
ghost use Rattle.call_model.specs.Placement.{stack_len_of};
ghost use Rattle.call_model.specs.Prototype.{types_of};
ghost use Rattle.invoke_by_index.specs.Methods.{prototype};

use call_model::{CType, Convention};
use descriptor_reader::MethodView;

/// How many bytes of stack the arguments of a method need, the object's address among them. That is
/// never more than 2,064.
pub fn stack_len<C: Convention>(method: &MethodView<'_>) -> u32
    ensures value { result ≡ stack_len_of C.CONV (types_of (prototype method.now)) }
    ensures few { result ≤ 2064 }
{
    let mut walk = C::begin();
    walk.next(CType::Ptr);
    for arg in method.args() {
        walk.next(arg.passed_type());
    }
    walk.stack_len()
}
