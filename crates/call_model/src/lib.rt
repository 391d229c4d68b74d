//! The call model: the C types of arguments, the table of interfaces with their prototypes, the
//! calling conventions, and where each convention passes an argument. It knows no typelib and no
//! memory.
#![tactic(auto)]

mod class_walk;
mod conventions;
mod ctypes;
mod frames;
pub mod laws;
mod places;
mod prototypes;
mod tables;
mod values;

pub use class_walk::ClassWalk;
pub use conventions::Convention;
pub use ctypes::CType;
pub use frames::passes_at;
pub use places::{Conv, Loc, fprs_of, gprs_of, space_of, word_of};
pub use prototypes::{MemberKind, Note, Pass, ProtoArg, Status};
pub use tables::{Table, TableIface, TableSlot};
pub use values::{canonical, own_len};
