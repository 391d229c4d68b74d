ghost use Rattle.std.specs.Prelude.{◌≡◌};

/// The C type of an argument, of a cell or of an array's element.
///
/// `Bool` and `Char` have one byte, `WChar` two, and `Ptr` one word of the convention.
#[derive(Clone, Copy, Debug, PartialEq, Eq)]
pub enum CType {
    I8,
    I16,
    I32,
    I64,
    U8,
    U16,
    U32,
    U64,
    F32,
    F64,
    Bool,
    Char,
    WChar,
    Ptr,
}

impl CType {
    ghost use Rattle.call_model.specs.Types;

    /// Whether the type is of class float. All others are of class integer.
    pub fn is_float(self) -> bool
        ensures { result ≡ Types.is_float self }
    {
        matches!(self, CType::F32 | CType::F64)
    }

    /// Whether the type takes 8 bytes under every convention.
    pub fn is_wide(self) -> bool
        ensures { result ≡ Types.is_wide self }
    {
        matches!(self, CType::I64 | CType::U64 | CType::F64)
    }

    /// Whether the values of the type have a sign.
    pub fn is_signed(self) -> bool
        ensures { result ≡ Types.is_signed self }
    {
        matches!(self, CType::I8 | CType::I16 | CType::I32 | CType::I64)
    }
}
