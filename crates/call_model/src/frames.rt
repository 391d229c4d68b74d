ghost use Rattle.std.specs.Prelude.{◌≡◌, ◌≤◌, ◌↔◌, length, IsTrue};
ghost use Rattle.call_model.specs.Placement.{PassesAt};

use crate::conventions::Convention;
use crate::ctypes::CType;
use crate::places::Loc;

/// Whether the convention passes arguments of these types at these locations, with a stack of
/// `stack_len` bytes.
///
/// There are as many locations as types, at most 512.
pub fn passes_at<C: Convention>(types: &[CType], locations: &[Loc], stack_len: u32) -> bool
    requires short { length types.now ≤ 512 }
    requires paired { length types.now ≡ length locations.now }
    ensures { IsTrue result ↔ PassesAt C.CONV types.now locations.now stack_len }
{
    let mut walk = C::begin();
    for (i, ty) in types.iter().enumerate() {
        let at = walk.next(*ty);
        if at != locations[i] {
            return false;
        }
    }
    walk.stack_len() == stack_len
}
