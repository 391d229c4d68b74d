//! A call that has begun, run through forwarders to the object that answers it: who is entered and
//! under which convention, what a transcript tells of it, and what a bench sees of it.
#![tactic(auto)]

mod answering;
mod begun;
mod links;
mod passing;
mod replying;
mod texts;
mod visit;

pub use answering::answer;
pub use begun::{Answered, Begun};
