//! What comes out of a call: the lines that tell it, and the variables that learn it.
#![tactic(auto)]

mod results;

pub use results::tell_outs;
