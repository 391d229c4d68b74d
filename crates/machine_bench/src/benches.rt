ghost use Rattle.std.specs.Prelude.{◌≡◌, [], List as Sights, Option, Some, None, OnErr, OnOk};
ghost use Rattle.machine_bench.specs.declared.sight.Sight.{Sight as Seen};
ghost use Rattle.machine_bench.specs.Seen.{SawMachine, SawNothing};

use crate::looking::look_at;
use crate::sight::Sight;
use object_memory::Machine;
use std::alloc::Global;
use std::marker::Model;
use xp_base::{List, Memory};

/// Who is shown a machine while calls are made on it.
///
/// A bench may tell what it saw.
pub trait Bench {
    /// What the machine showed, look by look, where the bench tells it.
    ghost seen: { Self → Option (Sights Seen) };

    /// Looks at the machine once. The one error is want of memory; nothing was seen then.
    fn look(&mut self, machine: &Machine) -> Result<(), Memory>
        ensures saw { OnOk result (SawMachine (seen self.old) (seen self.new) machine.now) }
        ensures err { OnErr result (SawNothing (seen self.old) (seen self.new)) };
}

/// A bench that remembers all that it saw, and tells it.
#[derive(Debug, Drop)]
pub struct MemBench {
    sights: List<Sight>,
    alloc: Global,
}

impl Model for MemBench {
    ghost use Rattle.std.specs.Prelude.{List};
    ghost use Rattle.machine_bench.specs.declared.sight.Sight.{Sight as Seen};

    ghost Value = { List Seen };

    ghost view = { λ b. b.sights };
}

impl MemBench {
    /// A bench that has seen nothing. It takes no memory.
    pub fn new(alloc: Global) -> MemBench
        ensures { result ≡ [] }
    {
        MemBench {
            sights: List::new(alloc),
            alloc,
        }
    }

    /// All that it saw, in order.
    pub fn sights(&self) -> &List<Sight>
        ensures { result.now ≡ self.now }
    {
        &self.sights
    }
}

impl Bench for MemBench {
    ghost seen = { λ b. Some b };

    fn look(&mut self, machine: &Machine) -> Result<(), Memory> {
        let sight = look_at(self.alloc, machine)?;
        self.sights.push(sight)
    }
}

/// A bench that looks nowhere, and tells nothing.
#[derive(Debug, Drop)]
pub struct NoBench;

impl NoBench {
    /// A bench that looks nowhere. It takes no memory.
    pub fn new() -> NoBench {
        NoBench
    }
}

impl Bench for NoBench {
    ghost seen = { λ _. None };

    /// Looks nowhere. It takes no memory.
    fn look(&mut self, _machine: &Machine) -> Result<(), Memory> {
        Ok(())
    }
}
