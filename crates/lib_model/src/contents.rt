use crate::flags::{IfaceFlags, MethodFlags};
use crate::param_types::Param;
use xp_base::{Bytes, ConstKind, List};

/// What a typelib says: its interfaces, in the order of its directory.
#[derive(Debug, Drop)]
pub struct Library {
    /// The interfaces. One is named by its number in this list, counted from 1.
    pub ifaces: List<Iface>,
}

/// An interface of a library.
#[derive(Debug, Drop)]
pub struct Iface {
    /// Its name, without the 0 that ends it in a file.
    pub name: Bytes,
    /// Its namespace, which may be empty; None where it has none.
    pub namespace: Option<Bytes>,
    /// Its identifier, in the order in which it is written as text.
    pub iid: [u8; 16],
    /// What the interface consists of; None where it is declared and not resolved.
    pub body: Option<Body>,
}

/// What a resolved interface consists of.
#[derive(Debug, Drop)]
pub struct Body {
    /// The number of the parent, counted from 1; 0 where there is none.
    pub parent: u16,
    /// Its own methods, in the order of their slots.
    pub methods: List<Method>,
    /// Its own constants.
    pub constants: List<Constant>,
    /// What else is said of it.
    pub flags: IfaceFlags,
}

/// A method of an interface.
#[derive(Debug, Drop)]
pub struct Method {
    /// Its name, without the 0 that ends it in a file.
    pub name: Bytes,
    /// What else is said of it.
    pub flags: MethodFlags,
    /// Its parameters, a return value among them.
    pub params: List<Param>,
}

/// A constant of an interface.
#[derive(Debug, Drop)]
pub struct Constant {
    /// Its name, without the 0 that ends it in a file.
    pub name: Bytes,
    /// The type of its value.
    pub kind: ConstKind,
    /// Its value, which lies in the range of its type.
    pub value: i64,
}
