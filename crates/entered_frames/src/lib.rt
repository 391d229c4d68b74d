//! The frame that a line of a script gives: registers by their names, and the bytes on the stack.
#![tactic(auto)]

mod frames;
mod items;
mod registers;

pub use frames::enter_frame;
pub use items::misformed;
