/// Where a data block stands: the address of its first byte, and how many bytes it has.
#[derive(Clone, Copy, Debug, PartialEq, Eq)]
pub struct DataBlock {
    pub address: u64,
    pub length: usize,
}
