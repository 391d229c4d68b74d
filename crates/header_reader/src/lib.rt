//! The text of a header, read: the classes that it declares, or the first line that no header has
//! there.
#![tactic(auto)]

mod arguments;
mod class_names;
mod error;
mod forms;
pub mod laws;
mod read;
mod spellings;
mod transitions;

pub use error::HeaderReadError;
pub use read::read_header;
