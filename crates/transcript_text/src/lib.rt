//! The words and lines of a transcript: what is written of a call, a frame, a value, a refusal.
#![tactic(auto)]

mod frames;
mod lines;
mod outs;
mod refusals;
mod values;

pub use frames::{frame_lines, hex_of_bytes};
pub use lines::{at_line, echo_line, got_line, refused_line, result_line, slot_line};
pub use outs::{elements_word, out_line};
pub use refusals::Refusal;
pub use values::value_word;
