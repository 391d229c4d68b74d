//! The one who hands a call on along its way.

ghost use Rattle.std.specs.Prelude.{◌≡◌, IfOk};

use call_model::Conv;
use descriptor_reader::MethodView;
use object_memory::Machine;
use script_calls::Forwarder;
use std::alloc::Global;
use stub_dispatch::Callee;
use xp_base::Memory;

/// A forwarder on the way of a call, which also says that the values it is handed are canonical
/// patterns: so the object behind it receives these very values.
#[derive(Drop)]
pub(crate) struct Link {
    pub forwarder: Forwarder,
}

impl Link {
    ghost use Rattle.script_calls.specs.Forwarders.{new_forwarder};

    /// One who hands calls of a method with so many arguments on to the object at `target` under a
    /// convention. The one error is want of memory.
    pub fn new(alloc: Global, conv: Conv, target: u64, positions: u32) -> Result<Link, Memory>
        ensures { IfOk result (λ link. link.forwarder ≡ new_forwarder conv target positions) }
    {
        let forwarder = Forwarder::new(alloc, conv, target, positions)?;
        Ok(Link { forwarder })
    }
}

impl Callee for Link {
    ghost use Rattle.script_chains.specs.Links.{HandsValuesOn};

    ghost reacts = { HandsValuesOn };

    /// Hands a call on, as the forwarder does.
    fn call_method(
        &mut self,
        object: u32,
        slot: u16,
        method: &MethodView<'_>,
        cells: &[u64],
        machine: &mut Machine,
    ) -> u32 {
        self.forwarder
            .call_method(object, slot, method, cells, machine)
    }
}
