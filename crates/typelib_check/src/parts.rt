use typelib_faults::Cursor;

/// The parameters of a method: where the first is, and how many there are.
#[derive(Clone, Copy)]
pub struct Params {
    /// Where the first one is to be read.
    pub from: Cursor,
    /// How many there are.
    pub count: u8,
}

/// The own methods of an interface: where the first is, and how many there are.
#[derive(Clone, Copy)]
pub struct Methods {
    /// Where the first one is to be read.
    pub from: Cursor,
    /// How many there are.
    pub count: u16,
}

/// The own constants of an interface: where the first is, and how many there are.
#[derive(Clone, Copy)]
pub struct Constants {
    /// Where the first one is to be read.
    pub from: Cursor,
    /// How many there are.
    pub count: u16,
}
