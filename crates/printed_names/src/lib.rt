//! How names that may hold any byte are written in texts.
#![tactic(auto)]

mod escapes;

pub use escapes::escaped;
