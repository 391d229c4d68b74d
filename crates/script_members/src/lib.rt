//! The members of interfaces that the lines of a script name: each is found in a typelib once, and
//! remembered.
#![tactic(auto)]

mod find;
mod found;
mod key;
mod members;

pub use found::Found;
pub use members::Members;
