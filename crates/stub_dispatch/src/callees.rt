//! What a call is handed to.

ghost use Rattle.std.specs.Prelude.{◌≡◌, ℕ};
ghost use Rattle.invoke_by_index.specs.Methods.{prototype};
ghost use Rattle.object_memory.specs.Memory.{MachineView};
ghost use Rattle.stub_dispatch.specs.Calls.{AreCanonical, Call, call_of};

use descriptor_reader::MethodView;
use object_memory::Machine;

/// The objects of a machine, as those that calls are handed to.
pub trait Callee {
    /// What a call may do: the callee and the machine before; the call; the callee and the machine
    /// after it, and the answer.
    ghost reacts: { (before : Self) (machine : MachineView) → Call
        → (after : Self) (machine_after : MachineView) (answer : ℕ) → Type 0 };

    /// Does what the object of this number does when its method is called with these values.
    ///
    /// The slot is that of the method. There is a cell for each argument of the prototype, which
    /// holds the canonical pattern of a value of its type.
    fn call_method(
        &mut self,
        object: u32,
        slot: u16,
        method: &MethodView<'_>,
        cells: &[u64],
        machine: &mut Machine,
    ) -> u32
        requires slot { slot ≡ method.now.slot }
        requires cells { AreCanonical machine.old.conv (prototype method.now) cells.now }
        ensures { reacts
            self.old
            machine.old
            (call_of method.now object cells.now)
            self.new
            machine.new
            result };
}
