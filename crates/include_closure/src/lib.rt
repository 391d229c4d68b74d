//! The include closure: the files that roots include, each once, an included file before its
//! includer.
#![tactic(auto)]

mod begun;
mod closure_error;
mod closures;
mod file_error;
mod files;
pub mod laws;
mod visited;

pub use closure_error::ClosureError;
pub use closures::closure;
