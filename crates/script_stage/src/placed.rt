/// What a block of the heap is.
#[derive(Clone, Copy, Debug, PartialEq, Eq)]
pub enum Kind {
    /// So many bytes of data.
    Data { length: u64 },
    /// The object of this number, and the number of its interface, counted from 1.
    Object { number: u32, iface: u16 },
}

/// A block of the heap: where it begins, and what it is.
#[derive(Clone, Copy, Debug, PartialEq, Eq)]
pub struct Placed {
    pub at: u64,
    pub kind: Kind,
}

/// Bytes that stand one after the other: the address of the first, and how many there are.
#[derive(Clone, Copy, Debug, PartialEq, Eq)]
pub struct Span {
    pub at: u64,
    pub length: u64,
}
