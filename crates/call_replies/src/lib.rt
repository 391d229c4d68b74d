//! The replies of objects to calls, by the rules that a script gives: which rules and calls a reply
//! can be made for, what its writes leave on a machine, and the one who makes it.
#![tactic(auto)]

mod checks;
pub mod laws;
mod replier;
mod rules;
mod values;
mod writes;

pub use checks::{has_cells, takes_item, takes_items};
pub use replier::Replier;
pub use rules::result_of;
