//! The levels of precedence of binary operators.

/// A level of precedence, from the tightest to the loosest.
#[derive(Clone, Copy)]
pub enum Level {
    /// `*`.
    Product,
    /// `+` and `-`.
    Sum,
    /// `<<` and `>>`.
    Shift,
    /// `|`.
    Union,
}
