use call_model::Conv;

/// What an object hands the calls that it receives on to.
#[derive(Clone, Copy, Debug, PartialEq, Eq)]
pub struct Forward {
    /// The number of the object that is called next.
    pub target: u32,
    /// The convention under which it is called: a bridge's own, or None for a proxy, which calls
    /// under the one that it was called under.
    pub conv: Option<Conv>,
}
