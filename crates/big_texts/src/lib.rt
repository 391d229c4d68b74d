//! The texts of `big N`: the IDL file and the script that it makes, and the lines that it prints.
#![tactic(auto)]

mod idl;
mod numbers;
mod script;
mod summary;

pub use idl::idl_text;
pub use numbers::big_number;
pub use script::script_text;
pub use summary::{calls_line, typelib_line};
