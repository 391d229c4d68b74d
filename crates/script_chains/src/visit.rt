use call_model::Conv;

/// An object that a call enters.
#[derive(Clone, Copy, Debug, PartialEq, Eq)]
pub(crate) struct Visit {
    /// The number of the object.
    pub number: u32,
    /// The convention under which it is entered.
    pub conv: Conv,
    /// The entry of the method's slot in it.
    pub entry: u64,
}
