//! The frame of a call.

ghost use Rattle.std.specs.Prelude.{◌≡◌, ◌≤◌, length};
ghost use Rattle.call_model.specs.Placement.{stack_len_of};
ghost use Rattle.call_model.specs.Values.{frame_of};

use call_model::{CType, Convention, space_of};
use object_memory::Frame;

/// Fills the frame of a call: each pattern stands where the convention passes an argument of its
/// type, and all else is zero. The stack has the bytes that the arguments need.
///
/// `types` are those of the arguments, of which the object's address is the first, and `patterns`
/// their values.
pub fn fill_frame<C: Convention>(frame: &mut Frame, types: &[CType], patterns: &[u64])
    requires few { length types.now ≤ 258 }
    requires paired { length types.now ≡ length patterns.now }
    ensures { frame.new ≡ frame_of C.CONV types.now patterns.now }
{
    frame.clear(stack_len::<C>(types));
    let conv = C::CONV;
    let mut walk = C::begin();
    for (i, ty) in types.iter().enumerate() {
        let at = walk.next(*ty);
        frame.put(at, space_of(conv, *ty), patterns[i]);
    }
}

/// How many bytes of stack the arguments of these types need.
fn stack_len<C: Convention>(types: &[CType]) -> u32
    requires { length types.now ≤ 258 }
    ensures { result ≡ stack_len_of C.CONV types.now }
{
    let mut walk = C::begin();
    for ty in types {
        walk.next(*ty);
    }
    walk.stack_len()
}
