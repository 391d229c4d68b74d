//! The top call of xpcall: `run` does all that the program does, over any source of files and any
//! sinks.
#![tactic(auto)]

mod bigs;
mod calls;
mod commands;
mod compiles;
mod dumps;
mod failures;
mod fetches;
pub mod laws;
mod places;
mod reports;
mod running;
mod typelibs;

pub use commands::Command;
pub use failures::{Failure, FileFault, OUT_OF_MEMORY, Refusal};
pub use running::run;
