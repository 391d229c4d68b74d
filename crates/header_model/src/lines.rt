use call_model::CType;
use xp_base::{Bytes, List};

/// What a line of a header says.
#[derive(Debug, Drop)]
pub enum Line {
    /// There is a class of some name, which may be defined further down.
    Forward,
    /// A class begins.
    Class {
        /// The name.
        name: Bytes,
        /// The name of the class that it extends.
        parent: Option<Bytes>,
    },
    /// What follows is public.
    Public,
    /// A slot that no caller can use.
    Reserved {
        /// The digits that name its number.
        number: Bytes,
    },
    /// A function.
    Method {
        /// The name.
        name: Bytes,
        /// The C types of its arguments in order, without the object.
        types: List<CType>,
    },
    /// The class ends.
    Close,
}
