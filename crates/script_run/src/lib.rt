//! Scripts of calls, run: each line acts on a machine, and the transcript says what came of it.
#![tactic(auto)]

mod calls;
mod lines;
mod quiet;
mod runner;
mod running;

pub use running::run_script;
