//! What comes out of a call, read off the machine after the reply: the values in its cells, and
//! what a transcript tells beside them.
#![tactic(auto)]

mod arrays;
mod data;
mod interfaces;
mod lines;
mod values;

pub use data::data_at;
pub use lines::out_line;
pub use values::number_after;
