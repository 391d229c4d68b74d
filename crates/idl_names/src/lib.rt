//! The names of XPIDL files: what each name means, the values of constants, and the first fault.
#![tactic(auto)]

mod attributes;
mod bindings;
mod constants;
mod declarations;
mod expressions;
mod here;
mod identifiers;
mod interfaces;
mod members;
mod numbers;
mod parameters;
mod resolution;
mod state;
mod table;

pub use idl_meaning::{IdlError, Meant, Scope, ScopeBody, ScopeIface, ScopeMember, ScopeParam};
pub use resolution::resolve;
