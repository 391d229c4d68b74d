use crate::flags::ParamFlags;
use crate::tags;
use bitflags::Flags;
use call_model::{CType, Pass};

/// A parameter of a method.
#[derive(Clone, Copy, PartialEq, Eq, Debug)]
pub struct Param {
    /// Its direction and what else is said of it.
    pub flags: ParamFlags,
    /// Its type.
    pub ty: XType,
}

impl Param {
    ghost use Rattle.std.specs.Prelude.{◌≡◌};
    ghost use Rattle.lib_model.specs.Table.{gives_value, pass_of};

    /// How the parameter becomes an argument of a call.
    pub fn pass(&self) -> Pass
        ensures { result ≡ pass_of self.now }
    {
        let tag = self.ty.tag();
        if tags::is_string_class(tag) {
            Pass::ByRef
        } else if self.flags.contains(ParamFlags::OUT) {
            let inward = self.flags.contains(ParamFlags::IN);
            Pass::ByCell { inward }
        } else if tag == tags::NSID {
            Pass::ByRef
        } else {
            Pass::ByValue
        }
    }

    /// Whether the parameter gives the value of the written method.
    pub fn gives_value(&self) -> bool
        ensures { result ≡ gives_value self.now }
    {
        self.flags.contains(ParamFlags::RETVAL)
    }
}

/// The type of a parameter, as the XPCOM typelib format has them. The numbers of other parameters
/// count the parameters of the method from 0.
#[derive(Clone, Copy, PartialEq, Eq, Debug)]
pub enum XType {
    /// A type that is its tag alone: one up to `WSTRING`, or from `UTF8STRING` on.
    Plain(u8),
    /// The interface of this number, counted from 1.
    Iface(u16),
    /// An interface whose identifier another parameter gives: the number of that parameter.
    IidIs(u8),
    /// An array.
    Array {
        /// The number of the parameter that gives the number of elements.
        size: u8,
        /// The number of the parameter that gives how many of them are in use.
        len: u8,
        /// The type of an element.
        elem: Elem,
    },
    /// A string whose size is told.
    SizedString {
        /// The number of the parameter that gives the size.
        size: u8,
        /// The number of the parameter that gives how much of it is in use.
        len: u8,
    },
    /// A wide string whose size is told.
    SizedWString {
        /// The number of the parameter that gives the size.
        size: u8,
        /// The number of the parameter that gives how much of it is in use.
        len: u8,
    },
}

impl XType {
    ghost use Rattle.std.specs.Prelude.{◌≡◌};
    ghost use Rattle.lib_model.specs.Table as table;
    ghost use Rattle.lib_model.specs.Valid.{tag_of};

    /// The tag of the type.
    pub fn tag(self) -> u8
        ensures { result ≡ tag_of self }
    {
        match self {
            XType::Plain(tag) => tag,
            XType::Iface(_) => tags::INTERFACE,
            XType::IidIs(_) => tags::INTERFACE_IS,
            XType::Array { .. } => tags::ARRAY,
            XType::SizedString { .. } => tags::SIZED_STRING,
            XType::SizedWString { .. } => tags::SIZED_WSTRING,
        }
    }

    /// The C type of a value of the type.
    pub fn c_type(self) -> CType
        ensures { result ≡ table.c_type self }
    {
        tags::c_type(self.tag())
    }

    /// Whether no call can pass a value of the type.
    pub fn is_opaque(self) -> bool
        ensures { result ≡ table.is_opaque self }
    {
        match self {
            XType::Plain(tag) => tags::is_opaque(tag),
            XType::Array { elem, .. } => elem.is_opaque(),
            _ => false,
        }
    }
}

/// The type of an array's element.
#[derive(Clone, Copy, PartialEq, Eq, Debug)]
pub enum Elem {
    /// A type that is its tag alone: one up to `WSTRING`, or from `UTF8STRING` on.
    Plain(u8),
    /// The interface of this number, counted from 1.
    Iface(u16),
    /// An interface whose identifier another parameter gives: the number of that parameter.
    IidIs(u8),
}

impl Elem {
    ghost use Rattle.std.specs.Prelude.{◌≡◌};
    ghost use Rattle.lib_model.specs.Table.{elem_type, is_opaque_elem};
    ghost use Rattle.lib_model.specs.Valid.{tag_of_elem};

    /// The tag of the type.
    pub fn tag(self) -> u8
        ensures { result ≡ tag_of_elem self }
    {
        match self {
            Elem::Plain(tag) => tag,
            Elem::Iface(_) => tags::INTERFACE,
            Elem::IidIs(_) => tags::INTERFACE_IS,
        }
    }

    /// The C type of an element.
    pub fn c_type(self) -> CType
        ensures { result ≡ elem_type self }
    {
        tags::c_type(self.tag())
    }

    /// Whether no call can pass an array of such elements.
    pub fn is_opaque(self) -> bool
        ensures { result ≡ is_opaque_elem self }
    {
        match self {
            Elem::Plain(tag) => tags::is_opaque(tag) || tags::is_string_class(tag),
            Elem::Iface(_) | Elem::IidIs(_) => false,
        }
    }
}
