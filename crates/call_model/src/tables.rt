use crate::prototypes::{MemberKind, ProtoArg, Status};
use xp_base::{Bytes, List};

/// One slot of an interface. The prototype is without `this`, and empty where the status is not
/// `Callable`.
#[derive(Debug, Drop)]
pub struct TableSlot {
    pub name: Bytes,
    pub kind: MemberKind,
    pub status: Status,
    pub proto: List<ProtoArg>,
}

/// One interface with its own slots, those of its parent left out.
#[derive(Debug, Drop)]
pub struct TableIface {
    pub name: Bytes,
    pub iid: [u8; 16],
    /// Whether the interface is defined, and not only declared. One that is not has no slots and
    /// no parent.
    pub resolved: bool,
    /// The number of the parent, counted from 1; 0 for none.
    pub parent: u16,
    pub slots: List<TableSlot>,
}

/// The interfaces of a typelib, in its order. Their numbers count from 1.
#[derive(Debug, Drop)]
pub struct Table {
    pub ifaces: List<TableIface>,
}
