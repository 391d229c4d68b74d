//! What the object of a call does: it takes the call back from the frame, and hands its values to
//! the one who answers.
#![tactic(auto)]

mod callees;
mod recovery;
mod stub;

pub use callees::Callee;
pub use recovery::{FrameShort, recover};
pub use stub::dispatch;
