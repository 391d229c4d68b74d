//! What whole scripts of calls mean: the transcript, the state at the end and the sights of a
//! bench, from a table of prototypes and a script alone.
//!
//! The definitions that contracts cite stand here, with their laws. `script_run` has the code.
#![tactic(auto)]

pub mod laws;
