//! The library of a scope: what a typelib says of the interfaces that IDL files declare.
//!
//! The table that can be read off its flags and tags is the table that the members mean as they are
//! written.
#![tactic(auto)]

mod directory;
mod interfaces;
pub mod laws;
mod limits;
mod lower_error;
mod lowering;
mod marks;
mod members;
mod numbering;
mod param_flags;
mod param_types;

pub use lower_error::LowerError;
pub use lowering::lower;
