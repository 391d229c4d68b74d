//! Calls of a method by its index in an interface: the cells that its arguments are filled into,
//! and the call from these, with the frame that it begins with and the stack that it needs.
#![tactic(auto)]

mod args;
mod calls;
mod cells;
mod fits;
mod frames;
mod ranges;
mod walks;

pub use args::{Arg, ArgFault, count_params};
pub use calls::invoke;
pub use cells::fill_cells;
pub use frames::fill_frame;
pub use ranges::in_range;
pub use walks::stack_len;
