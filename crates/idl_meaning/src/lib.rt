//! What the files of an XPIDL closure mean: the scope that they declare, and the faults that they
//! have.
//!
//! The types of a scope stand here, with the definitions that contracts cite and their laws.
//! `idl_names` has the code.
#![tactic(auto)]

mod idl_error;
pub mod laws;
mod scope;

pub use idl_error::IdlError;
pub use scope::{Meant, Scope, ScopeBody, ScopeIface, ScopeMember, ScopeParam};
