//! Calls under a convention that is a value, so that what stands above names no walk; and an object
//! that hands the calls that it receives on under one.
#![tactic(auto)]

mod calls;
mod forwarder;

pub use calls::{dispatch_under, forward_under, invoke_under};
pub use forwarder::Forwarder;
