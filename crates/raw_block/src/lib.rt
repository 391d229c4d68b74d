//! A block of raw memory that contracts see as a list of bytes. No pointer leaves this crate: the
//! module `run` follows it, in five small functions that are proved by hand, and all else is safe
//! code over the slices that they give.
#![tactic(auto)]

mod block;
mod run;

pub use block::Block;
