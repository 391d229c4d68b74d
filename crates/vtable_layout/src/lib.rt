//! The slots of the interfaces of a scope: which entry of an interface's virtual table a member
//! has.
//!
//! The parent's slots come first and then the interface's own, in the order in which its members
//! are written (XPCOM). `layout` counts them, `slot_of` finds the one of a member.
#![tactic(auto)]

mod own_slots;
mod slot_layout;
mod slot_lookup;
mod slot_numbers;

pub use slot_layout::layout;
pub use slot_lookup::slot_of;
pub use slot_numbers::{LayoutError, Slots};

/// The greatest number of slots of an interface, those of its parents counted, and of interfaces in
/// its chain of parents, itself counted.
pub const MAX_SLOTS: u16 = 250;
