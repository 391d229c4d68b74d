//! Benches: who is shown a machine of calls while calls are made on it, and what they saw.
#![tactic(auto)]

mod benches;
mod looking;
mod sight;

pub use benches::{Bench, MemBench, NoBench};
pub use sight::Sight;
