//! Values, as words.

ghost use Rattle.std.specs.Prelude.{◌≡◌, IfOk, codes, ◌++◌};
ghost use Rattle.xp_base.specs.Digits.{hex_digits};
ghost use Rattle.transcript_text.specs.Texts.{value_text};

use call_model::CType;
use std::alloc::Global;
use xp_base::{Bytes, Memory, dec_text, hex_text};

/// A canonical pattern as a number of its type: in decimal, but in hexadecimal behind `0x` for
/// floats and pointers. The one error is want of memory.
pub fn value_word(alloc: Global, ty: CType, pattern: u64) -> Result<Bytes, Memory>
    ensures { IfOk result (λ word. word ≡ value_text ty pattern) }
{
    match ty {
        CType::I8 | CType::I16 | CType::I32 | CType::I64 => {
            dec_text(alloc, i128::from(pattern.cast_signed()))
        }
        CType::U8
        | CType::U16
        | CType::U32
        | CType::U64
        | CType::Bool
        | CType::Char
        | CType::WChar => { dec_text(alloc, i128::from(pattern)) }
        CType::F32 | CType::F64 | CType::Ptr => marked_hex(alloc, pattern),
    }
}

/// A number in hexadecimal behind `0x`. The one error is want of memory.
fn marked_hex(alloc: Global, number: u64) -> Result<Bytes, Memory>
    ensures { IfOk result (λ word. word ≡ codes "0x" ++ hex_digits number) }
{
    let mut word = Bytes::copy(alloc, b"0x")?;
    word.append(hex_text(alloc, number)?.as_slice())?;
    Ok(word)
}
