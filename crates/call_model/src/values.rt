ghost use Rattle.std.specs.Prelude.{◌≡◌, ◌+◌, ◌<◌, ◌^◌, if◌then◌else◌, nat_lt};
ghost use Rattle.call_model.specs.Values;

use crate::ctypes::CType;
use crate::places::{Conv, word_of};

/// How many bytes are a value's own: those that its type needs, whatever the register or the slot
/// has above them.
pub fn own_len(conv: Conv, ty: CType) -> u32
    ensures { result ≡ Values.own_len conv ty }
{
    match ty {
        CType::I8 | CType::U8 | CType::Bool | CType::Char => 1,
        CType::I16 | CType::U16 | CType::WChar => 2,
        CType::I32 | CType::U32 | CType::F32 => 4,
        CType::I64 | CType::U64 | CType::F64 => 8,
        CType::Ptr => word_of(conv),
    }
}

/// The canonical pattern of the value whose own bytes are the low bytes of `value`: the bytes above
/// them are filled by the sign for I8 to I64, and by zeros for all other types.
pub fn canonical(conv: Conv, ty: CType, value: u64) -> u64
    ensures pattern { result ≡ Values.canon conv ty value }
    ensures stays { Values.canon conv ty result ≡ result }
{
    match ty {
        CType::I8 => filled_by_sign(value % 0x100, 0x80, 0xffff_ffff_ffff_ff00),
        CType::I16 => filled_by_sign(value % 0x1_0000, 0x8000, 0xffff_ffff_ffff_0000),
        CType::I32 => filled_by_sign(value % 0x1_0000_0000, 0x8000_0000, 0xffff_ffff_0000_0000),
        CType::I64 | CType::U64 | CType::F64 => value,
        CType::U8 | CType::Bool | CType::Char => value % 0x100,
        CType::U16 | CType::WChar => value % 0x1_0000,
        CType::U32 | CType::F32 => value % 0x1_0000_0000,
        CType::Ptr => {
            if word_of(conv) == 4 {
                value % 0x1_0000_0000
            } else {
                value
            }
        }
    }
}

/// Own bytes with the bytes above them, where the number that they are is not below `half`.
fn filled_by_sign(own: u64, half: u64, above: u64) -> u64
    requires { own + above < 2 ^ 64 }
    ensures { result ≡ (if nat_lt own half then own else own + above) }
{
    if own < half { own } else { own + above }
}
