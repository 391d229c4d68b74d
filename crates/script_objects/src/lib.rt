//! The objects of a script, by their numbers: where each begins, its interface, and what it hands
//! its calls on to; and the rules by which objects reply.
#![tactic(auto)]

pub mod laws;
mod objects;
mod rules;

pub use objects::{Object, Objects};
pub use rules::Rules;
