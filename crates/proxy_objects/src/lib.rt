//! Objects that hand the calls that they receive on to others: which object hands its calls on to
//! which, and the frame of a call that is handed on.
#![tactic(auto)]

mod calls;
mod errors;
mod forward;
mod forwards;

pub use calls::forward_call;
pub use errors::ForwardError;
pub use forward::Forward;
pub use forwards::{Forwards, MOST_FORWARDERS};
