//! The machine that calls are made on: a vtable and a heap of data blocks and objects, cells, and
//! the frame of registers and stack. All its numbers are little-endian, and its bytes lie in raw
//! memory.
#![tactic(auto)]

mod blocks;
mod data_block;
mod errors;
mod frame;
mod layout;
mod machine;
mod width;

pub use data_block::DataBlock;
pub use errors::HeapError;
pub use frame::Frame;
pub use layout::{CELLS_AT, HEAP_LIMIT, MOST_CELLS, SLOTS, STACK_LIMIT, VTABLE_AT};
pub use machine::Machine;
pub use width::Width;
