//! The one who hands calls on.

ghost use Rattle.std.specs.Prelude.{◌≡◌, IfOk};

use crate::calls::forward_under;
use call_model::{Conv, word_of};
use descriptor_reader::MethodView;
use object_memory::Machine;
use std::alloc::Global;
use std::marker::Model;
use stub_dispatch::Callee;
use xp_base::Memory;

/// The answer where a call was handed on.
const OK: u32 = 0;

/// The answer where a call can't be handed on.
const INVALID_POINTER: u32 = 0x8000_4003;

/// One who hands the calls of one method on to a target, under a convention. It takes the memory
/// that its calls need when it is made.
#[derive(Drop)]
pub struct Forwarder {
    conv: Conv,
    target: u64,
    /// The values that were received last.
    cells: Vec<u64>,
    has_received: bool,
    entry: u64,
}

impl Model for Forwarder {
    ghost use Rattle.std.specs.Prelude.{[], length, if◌then◌else◌};
    ghost use Rattle.script_calls.specs.Forwarders.{ForwarderView};

    ghost Value = { ForwarderView };

    ghost view = { λ f. record {
      conv = f.conv;
      target = f.target;
      positions = length f.cells.items;
      received = if f.has_received then f.cells.items else [];
      entry = f.entry;
    } };
}

impl Forwarder {
    ghost use Rattle.std.specs.Prelude.{ℕ, List, length};
    ghost use Rattle.script_calls.specs.Forwarders.{can_hand_on, new_forwarder};
    ghost use Rattle.stub_dispatch.specs.Calls.{call_of};

    /// One who hands calls of a method with so many arguments on to the object at `target`, under
    /// a convention: a bridge's own, or for a proxy the one under which it is called. The one error
    /// is want of memory.
    pub fn new(alloc: Global, conv: Conv, target: u64, positions: u32) -> Result<Forwarder, Memory>
        ensures { IfOk result (λ forwarder. forwarder ≡ new_forwarder conv target positions) }
    {
        let cells = vec![in alloc; 0; positions as usize]?;
        Ok(Forwarder {
            conv,
            target,
            cells,
            has_received: false,
            entry: 0,
        })
    }

    /// The values of the last call that was handed on; none before.
    pub fn received(&self) -> &[u64]
        ensures { result.now ≡ self.now.received }
    {
        if self.has_received {
            self.cells.as_slice()
        } else {
            &[]
        }
    }

    /// The entry of the last call that was handed on; 0 before.
    pub fn entry(&self) -> u64
        ensures { result ≡ self.now.entry }
    {
        self.entry
    }

    /// Whether a call of a method can be handed on.
    fn can_hand_on(&self, machine: &Machine, method: &MethodView<'_>) -> bool
        ensures { (object : ℕ) (cells : List ℕ)
            → result ≡ can_hand_on self.now machine.now (call_of method.now object cells) }
    {
        method.positions() as usize == self.cells.len()
            && word_of(self.conv) == machine.word()
            && machine.slot_entry(self.target, method.slot()).is_some()
    }

    /// Keeps the values of a call, of which there are as many as arguments, and its entry.
    fn keep(&mut self, values: &[u64], entry: u64)
        requires { length values.now ≡ self.old.positions }
        ensures { self.new ≡ record self.old { received = values.now; entry = entry } }
    {
        self.cells.as_mut_slice().copy_from_slice(values);
        self.has_received = true;
        self.entry = entry;
    }
}

impl Callee for Forwarder {
    ghost use Rattle.script_calls.specs.Forwarders.{Reacts};

    ghost reacts = { Reacts };

    /// Hands a call on: the frame becomes that of a call of the target with these values, under the
    /// forwarder's convention. Keeps the values and the entry, and gives 0. No byte changes.
    ///
    /// Where the method has another number of arguments, where the convention's word is not the
    /// machine's, and where a load on the way to the target's entry is outside, it gives 80004003
    /// (hexadecimal), and nothing changes. It takes no memory.
    fn call_method(
        &mut self,
        _object: u32,
        _slot: u16,
        method: &MethodView<'_>,
        cells: &[u64],
        machine: &mut Machine,
    ) -> u32 {
        if !self.can_hand_on(machine, method) {
            return INVALID_POINTER;
        }
        let entry = forward_under(self.conv, machine, self.target, method, cells);
        self.keep(cells, entry);
        OK
    }
}
