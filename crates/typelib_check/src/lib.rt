//! A typelib is checked where it stands, with no memory: its first fault, or a file whose parts
//! can be read again without one.
#![tactic(auto)]

mod annotations;
pub mod arguments;
pub mod chains;
mod check;
pub mod constants;
mod fields;
mod file;
mod header;
pub mod interfaces;
mod items;
pub mod lengths;
pub mod methods;
pub mod names;
pub mod numbers;
mod params;
mod parts;
mod type_forms;

pub use check::checked;
pub use file::{CheckedFile, File};
pub use parts::{Constants, Methods, Params};
