//! The words of C++ that name the types of values.

ghost use Rattle.std.specs.Prelude.{◌≡◌};
ghost use Rattle.header_model.specs.Words;

use call_model::CType;

/// The types that have a word of their own. All others are passed by an address.
pub const VALUE_TYPES: [CType; 13] = [
    CType::I8,
    CType::I16,
    CType::I32,
    CType::I64,
    CType::U8,
    CType::U16,
    CType::U32,
    CType::U64,
    CType::F32,
    CType::F64,
    CType::Bool,
    CType::Char,
    CType::WChar,
];

/// The word of a type, those of fixed size as in C++ ([cstdint.syn]); that of an address is
/// `void*`.
pub fn type_word(ty: CType) -> &'static [u8]
    ensures { result.now ≡ Words.type_word ty }
{
    match ty {
        CType::I8 => b"int8_t",
        CType::I16 => b"int16_t",
        CType::I32 => b"int32_t",
        CType::I64 => b"int64_t",
        CType::U8 => b"uint8_t",
        CType::U16 => b"uint16_t",
        CType::U32 => b"uint32_t",
        CType::U64 => b"uint64_t",
        CType::F32 => b"float",
        CType::F64 => b"double",
        CType::Bool => b"bool",
        CType::Char => b"char",
        CType::WChar => b"char16_t",
        CType::Ptr => b"void*",
    }
}
