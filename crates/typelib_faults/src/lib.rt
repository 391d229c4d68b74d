//! What the bytes of a typelib say, and their first fault, in the order in which a typelib is
//! read; and the laws between the two: bytes denote a library exactly where they have no fault.
#![tactic(auto)]

mod cursor;
mod faults;
pub mod laws;

pub use cursor::Cursor;
pub use faults::{
    ANNOTATION, ARGUMENT, BadTypelib, CHAIN, DIRECTORY, FIELD, ITEMS, LENGTH, MAGIC, NAME, NUMBER,
    POOL, SHORT, SLOTS, TAG, VERSION,
};
