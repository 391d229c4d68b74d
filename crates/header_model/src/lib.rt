//! What the text of a header says: the classes that it declares, its lines, and what may follow
//! what.
//!
//! A header has the C++ declarations of interfaces, in the manner of XPCOM's own headers. It is
//! written by `header_text` and read by `header_reader`, which meet in the definition of what a
//! text declares.
#![tactic(auto)]

mod decls;
mod limits;
mod lines;
mod states;
mod words;

pub use decls::{Decl, DeclSlot};
pub use limits::{MAX_ARGUMENTS, MAX_HEADER, MAX_NAME, MAX_SLOTS};
pub use lines::Line;
pub use states::State;
pub use words::{VALUE_TYPES, type_word};
