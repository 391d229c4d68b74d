//! A typelib, checked, and what it says, handed out where it stands. Nothing here takes memory.
#![tactic(auto)]

mod arg_iter;
mod const_iter;
mod const_views;
mod constants;
mod descriptors;
mod finds;
mod iface_views;
mod members;
mod method_fields;
mod method_iter;
mod method_params;
mod method_views;
mod param_iter;
mod proto_args;
mod shapes;
mod slots;
mod statuses;
mod typelib;

pub use arg_iter::ArgIter;
pub use const_iter::ConstIter;
pub use const_views::ConstView;
pub use iface_views::IfaceView;
pub use method_iter::MethodIter;
pub use method_views::MethodView;
pub use param_iter::ParamIter;
pub use typelib::Typelib;
pub use typelib_faults::BadTypelib;
