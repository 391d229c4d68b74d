//! What a typelib says, as plain data: its interfaces with their methods, parameters, types and
//! constants. No offset and no place of a file occurs in it.
#![tactic(auto)]

mod contents;
mod flags;
pub mod laws;
mod param_types;
mod prototypes;
mod tables;
pub mod tags;

pub use contents::{Body, Constant, Iface, Library, Method};
pub use flags::{IfaceFlags, MethodFlags, ParamFlags};
pub use param_types::{Elem, Param, XType};
pub use tables::table_of;
