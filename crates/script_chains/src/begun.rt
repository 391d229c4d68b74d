use xp_base::{Bytes, List};

/// A call that has begun: its frame stands on a machine, and its cells are pushed.
#[derive(Clone, Copy, Debug, PartialEq, Eq)]
pub struct Begun {
    /// The number of the object that is entered.
    pub number: u32,
    /// The entry of the method's slot in it.
    pub entry: u64,
    /// Whether a script gave the frame; such a call has no cells.
    pub entered: bool,
}

/// What came of a call.
#[derive(Debug, Drop)]
pub struct Answered {
    /// The result of the object that answered.
    pub result: u32,
    /// The values that each object on the way received.
    pub values: List<u64>,
    /// The lines that tell it, from the values that the first object received to the result.
    pub text: Bytes,
}
