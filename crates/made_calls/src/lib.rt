//! Calls that have begun, made: the lines that tell each, what its bench sees, what comes out.
#![tactic(auto)]

pub mod laws;
mod making;

pub use making::make_call;
