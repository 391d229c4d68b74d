//! The tags of types in the XPCOM typelib format: the low five bits of a type's byte.

ghost use Rattle.std.specs.Prelude.{◌≡◌};
ghost use Rattle.lib_model.specs.Table.{is_opaque_tag, is_string_class, type_of_tag};

use call_model::CType;

/// A signed number of 8 bits.
pub const INT8: u8 = 0;

/// A signed number of 16 bits.
pub const INT16: u8 = 1;

/// A signed number of 32 bits.
pub const INT32: u8 = 2;

/// A signed number of 64 bits.
pub const INT64: u8 = 3;

/// An unsigned number of 8 bits.
pub const UINT8: u8 = 4;

/// An unsigned number of 16 bits.
pub const UINT16: u8 = 5;

/// An unsigned number of 32 bits.
pub const UINT32: u8 = 6;

/// An unsigned number of 64 bits.
pub const UINT64: u8 = 7;

/// A floating-point number of 32 bits.
pub const FLOAT: u8 = 8;

/// A floating-point number of 64 bits.
pub const DOUBLE: u8 = 9;

/// A truth value.
pub const BOOLEAN: u8 = 10;

/// A character of 8 bits.
pub const CHAR: u8 = 11;

/// A character of 16 bits.
pub const WCHAR: u8 = 12;

/// A native type, of which nothing is known.
pub const VOID: u8 = 13;

/// An interface identifier, by its address.
pub const NSID: u8 = 14;

/// A string class of characters of 16 bits, DOMString.
pub const DOMSTRING: u8 = 15;

/// The address of characters of 8 bits that a 0 ends.
pub const STRING: u8 = 16;

/// The address of characters of 16 bits that a 0 ends.
pub const WSTRING: u8 = 17;

/// An interface, whose number stands behind the tag.
pub const INTERFACE: u8 = 18;

/// An interface whose identifier another parameter gives.
pub const INTERFACE_IS: u8 = 19;

/// An array, whose size and length other parameters give.
pub const ARRAY: u8 = 20;

/// The address of characters of 8 bits, whose size and length other parameters give.
pub const SIZED_STRING: u8 = 21;

/// The address of characters of 16 bits, whose size and length other parameters give.
pub const SIZED_WSTRING: u8 = 22;

/// A string class of characters in UTF-8, UTF8String.
pub const UTF8STRING: u8 = 23;

/// A string class of characters of 8 bits, CString.
pub const CSTRING: u8 = 24;

/// A string class of characters of 16 bits, AString.
pub const ASTRING: u8 = 25;

/// A value of a script, jsval.
pub const JSVAL: u8 = 26;

/// The C type of a value whose type has this tag: numbers, truth values and characters have their
/// own, all others are passed by their address.
pub fn c_type(tag: u8) -> CType
    ensures { result ≡ type_of_tag tag }
{
    match tag {
        INT8 => CType::I8,
        INT16 => CType::I16,
        INT32 => CType::I32,
        INT64 => CType::I64,
        UINT8 => CType::U8,
        UINT16 => CType::U16,
        UINT32 => CType::U32,
        UINT64 => CType::U64,
        FLOAT => CType::F32,
        DOUBLE => CType::F64,
        BOOLEAN => CType::Bool,
        CHAR => CType::Char,
        WCHAR => CType::WChar,
        _ => CType::Ptr,
    }
}

/// Whether the tag is that of a string class.
pub fn is_string_class(tag: u8) -> bool
    ensures { result ≡ is_string_class tag }
{
    matches!(tag, DOMSTRING | UTF8STRING | CSTRING | ASTRING)
}

/// Whether the tag is that of a type of which nothing is known, or of a value of a script.
pub fn is_opaque(tag: u8) -> bool
    ensures { result ≡ is_opaque_tag tag }
{
    matches!(tag, VOID | JSVAL)
}
