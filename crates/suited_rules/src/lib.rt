//! The rules of replies in the states of scripts: each suits the method that it is for.
//!
//! Definitions and laws alone; the code of scripts stands on them.
#![tactic(auto)]

pub mod laws;
