//! Writes a library as a typelib, the binary format by which XPCOM tells what interfaces consist
//! of.
#![tactic(auto)]

mod constants;
mod errors;
mod file;
mod interfaces;
mod methods;
mod names;
mod numbers;
mod param_bytes;

pub use errors::WriteError;
pub use file::write;
