ghost use Rattle.std.specs.Prelude.{◌≡◌};
ghost use Rattle.call_model.specs.Placement.{word_of};
ghost use Rattle.call_model.specs.Values;
ghost use Rattle.object_memory.specs.Widths.{bytes_of};

use call_model::{CType, Conv};

/// How many bytes are read or written at once: 1, 2, 4 or 8.
#[derive(Clone, Copy, Debug, PartialEq, Eq)]
pub enum Width {
    W1,
    W2,
    W4,
    W8,
}

impl Width {
    /// The width of a value's own bytes: those that its type needs under a convention.
    pub fn of(conv: Conv, ty: CType) -> Width
        ensures { bytes_of result ≡ Values.own_len conv ty }
    {
        match ty {
            CType::I8 | CType::U8 | CType::Bool | CType::Char => Width::W1,
            CType::I16 | CType::U16 | CType::WChar => Width::W2,
            CType::I32 | CType::U32 | CType::F32 => Width::W4,
            CType::I64 | CType::U64 | CType::F64 => Width::W8,
            CType::Ptr => Width::of_word(conv),
        }
    }

    /// The width of a convention's word.
    pub(crate) fn of_word(conv: Conv) -> Width
        ensures { bytes_of result ≡ word_of conv }
    {
        match conv {
            Conv::SysV64 | Conv::Aapcs64 | Conv::Ms64 => Width::W8,
            Conv::I386 | Conv::Aapcs32 => Width::W4,
        }
    }

    /// The number of bytes.
    pub fn bytes(self) -> usize
        ensures { result ≡ bytes_of self }
    {
        match self {
            Width::W1 => 1,
            Width::W2 => 2,
            Width::W4 => 4,
            Width::W8 => 8,
        }
    }
}
