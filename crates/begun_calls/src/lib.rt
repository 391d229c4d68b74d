//! Calls that begin: the cells and the first frame of a call, and the frame of an enter. The object
//! is not entered yet.
#![tactic(auto)]

mod arguments;
mod calls;
mod enters;
mod objects;

pub use calls::begin_call;
pub use enters::begin_enter;
