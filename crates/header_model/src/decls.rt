use call_model::CType;
use xp_base::{Bytes, List};

/// A class that a header declares: the virtual table of an interface.
#[derive(Debug, Drop)]
pub struct Decl {
    /// The name.
    pub name: Bytes,
    /// The number, counted from 0, of the class that it extends. It stands earlier in the header.
    pub parent: Option<u32>,
    /// The slot of its first own function, which is the number of slots of its parent.
    pub first: u16,
    /// Its own slots, in order.
    pub slots: List<DeclSlot>,
}

/// What stands in a slot of the virtual table of a class.
#[derive(Debug, Drop)]
pub enum DeclSlot {
    /// What no caller can use.
    Reserved,
    /// A function.
    Method {
        /// The name.
        name: Bytes,
        /// The C types of its arguments in order, without the object.
        types: List<CType>,
    },
}
