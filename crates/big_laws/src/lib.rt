//! The texts of `big` are never refused: its IDL file is accepted, and its script is a script.
//!
//! Definitions and laws alone.
#![tactic(auto)]

pub mod laws;
