//! Which numbers a type takes.

ghost use Rattle.std.specs.Prelude.{◌≡◌, ◌*◌};
ghost use Rattle.call_model.specs.Placement;
ghost use Rattle.invoke_by_index.specs.Ranges as ranges;

use call_model::{CType, Conv, word_of};

/// Whether a type takes a number: an integer type its own range, a float its bits, and an address
/// what a word of the convention holds.
pub fn in_range(conv: Conv, ty: CType, number: i128) -> bool
    ensures { result ≡ ranges.in_range conv ty number }
{
    least(ty) <= number && number <= greatest(conv, ty)
}

/// The least number that the type takes.
fn least(ty: CType) -> i128
    ensures { result ≡ ranges.least ty }
{
    match ty {
        CType::I8 => -0x80,
        CType::I16 => -0x8000,
        CType::I32 => -0x8000_0000,
        CType::I64 => -0x8000_0000_0000_0000,
        _ => 0,
    }
}

/// The greatest number that the type takes.
fn greatest(conv: Conv, ty: CType) -> i128
    ensures { result ≡ ranges.greatest conv ty }
{
    match ty {
        CType::I8 => 0x7f,
        CType::I16 => 0x7fff,
        CType::I32 => 0x7fff_ffff,
        CType::I64 => 0x7fff_ffff_ffff_ffff,
        CType::U8 | CType::Char => 0xff,
        CType::U16 | CType::WChar => 0xffff,
        CType::U32 | CType::F32 => 0xffff_ffff,
        CType::U64 | CType::F64 => 0xffff_ffff_ffff_ffff,
        CType::Bool => 1,
        CType::Ptr => most_of_word(conv),
    }
}

/// The greatest number of a word.
fn most_of_word(conv: Conv) -> i128
    ensures { result ≡ ranges.most_unsigned (8 * Placement.word_of conv) }
{
    if word_of(conv) == 4 {
        0xffff_ffff
    } else {
        0xffff_ffff_ffff_ffff
    }
}
