ghost use Rattle.std.specs.Prelude.{◌≡◌};

use crate::ctypes::CType;

/// How a typelib parameter becomes an argument of the call.
#[derive(Clone, Copy, Debug, PartialEq, Eq)]
pub enum Pass {
    /// The argument is the value.
    ByValue,
    /// The argument is the address of the value.
    ByRef,
    /// The argument is the address of a cell; `inward` says whether the cell holds a value before
    /// the call.
    ByCell { inward: bool },
}

/// What is known of an argument besides its type. The positions count from 0, without `this`.
#[derive(Clone, Copy, Debug, PartialEq, Eq)]
pub enum Note {
    /// Nothing.
    Plain,
    /// An array or a sized string: the argument at position `size` says for how many elements
    /// there is room, the one at `at` how many are in use, and each element has the type `elem`.
    Count { size: u16, at: u16, elem: CType },
    /// An interface whose IID is at the address that the argument at this position gives.
    IidAt(u16),
    /// The interface with this number, counted from 1.
    IfaceOf(u16),
    /// The number of optional arguments that were given.
    Argc,
    /// The address of the scripting context.
    Context,
}

/// One argument of a prototype. For `ByCell`, `ty` is the type of the cell's value; for `ByRef` it
/// is `Ptr`.
#[derive(Clone, Copy, Debug, PartialEq, Eq)]
pub struct ProtoArg {
    pub pass: Pass,
    pub ty: CType,
    pub optional: bool,
    pub note: Note,
}

impl ProtoArg {
    ghost use Rattle.call_model.specs.Prototype;

    /// The type of what the call passes: the value's own type for `ByValue`, and `Ptr` for the
    /// address of a value or a cell.
    pub fn passed_type(&self) -> CType
        ensures { result ≡ Prototype.passed_type self.now.pass self.now.ty }
    {
        match self.pass {
            Pass::ByValue => self.ty,
            Pass::ByRef | Pass::ByCell { .. } => CType::Ptr,
        }
    }
}

/// Whether a method may be called, and if not, why.
#[derive(Clone, Copy, Debug, PartialEq, Eq)]
pub enum Status {
    Callable,
    /// It is marked as not for scripts.
    Hidden,
    /// It does not keep the calling rules of XPCOM.
    NotXpcom,
    /// A type in it has no values that a call could pass.
    Opaque,
}

/// What a slot is: a method, or the reading or the writing half of an attribute.
#[derive(Clone, Copy, Debug, PartialEq, Eq)]
pub enum MemberKind {
    Plain,
    Get,
    Set,
}
