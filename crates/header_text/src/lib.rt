//! The header of a scope: C++ declarations of its interfaces, and where the arguments of declared
//! functions are passed.
#![tactic(auto)]

mod arguments;
mod classes;
mod errors;
pub mod laws;
mod lengths;
mod members;
mod order;
mod place_lines;
mod slot_lines;
mod types;
mod writing;

pub use errors::HeaderWriteError;
pub use place_lines::places;
pub use writing::header;
