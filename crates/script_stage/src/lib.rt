//! The stage of a script: the machine that its calls are made on, and what its names stand for.
#![tactic(auto)]

mod data;
mod errors;
mod names;
mod objects;
mod placed;
mod pokes;
mod rules;
mod shows;
mod stages;
mod words;

pub use errors::StepError;
pub use names::Names;
pub use placed::{Kind, Placed, Span};
pub use stages::Stage;
