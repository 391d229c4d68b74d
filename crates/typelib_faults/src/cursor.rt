/// Where in a file an item is to be read, and how many items were read before it. Items are the
/// directory's entries, methods, parameters and constants.
#[derive(Clone, Copy, PartialEq, Eq, Debug)]
pub struct Cursor {
    /// The place in the file.
    pub place: usize,
    /// The number of items before.
    pub items: u32,
}
