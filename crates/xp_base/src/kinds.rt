/// The type of a constant of an interface: a signed or unsigned whole number of 16 or 32 bits.
#[derive(Clone, Copy, Debug, PartialEq, Eq)]
pub enum ConstKind {
    I16,
    U16,
    I32,
    U32,
}

/// The direction of a parameter: `in`, `out` or `inout`.
#[derive(Clone, Copy, Debug, PartialEq, Eq)]
pub enum Dir {
    Inward,
    Outward,
    Both,
}
