use xp_base::{Bytes, List};

/// What a machine shows at one moment. A number of it has 64 bits.
#[derive(Debug, Drop)]
pub struct Sight {
    /// The general registers, of which there are eight.
    pub gprs: List<u64>,
    /// The float registers, of which there are eight.
    pub fprs: List<u64>,
    /// The bytes of the stack.
    pub stack: Bytes,
    /// The numbers in the pushed cells, from `CELLS_AT` on.
    pub cells: List<u64>,
    /// The bytes of vtable and heap, from `VTABLE_AT` on.
    pub heap: Bytes,
}
