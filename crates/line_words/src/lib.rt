//! The words on a line, read part by part: what stands behind a prefix, before a suffix and on the
//! two sides of a mark, and why a word is not read.
#![tactic(auto)]

mod affixes;
mod cuts;
mod error;

pub use affixes::{after, before};
pub use cuts::cut_at;
pub use error::Unread;
