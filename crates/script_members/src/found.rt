use descriptor_reader::MethodView;

/// A member that may be called.
#[derive(Drop)]
pub struct Found<'a> {
    /// The number of the interface that the line names, counted from 1.
    pub iface: u16,
    /// Its method, with the slot that it has in this interface.
    pub method: MethodView<'a>,
}
