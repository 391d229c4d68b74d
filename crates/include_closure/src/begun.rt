//! The names that a closure has begun.

ghost use Rattle.std.specs.Prelude.{◌≡◌, [], not, IfOk, OnErr, OnOk};
ghost use Rattle.include_closure.specs.Names.{is_begun, with_name};

use indexmap::IndexSet;
use std::alloc::Global;
use std::marker::Model;
use xp_base::Memory;

/// The names that were begun, in the order in which they were. Whether a name is among them is
/// found by its hash.
#[derive(Drop)]
pub struct Begun {
    alloc: Global,
    names: IndexSet<Vec<u8>>,
}

impl Model for Begun {
    ghost use Rattle.std.specs.Prelude.{List, ℕ, map};

    ghost Value = { List (List ℕ) };

    ghost view = { λ b. map (λ name. name.items) b.names.keys };
}

impl Begun {
    /// No names. It takes no memory.
    pub fn new(alloc: Global) -> Begun
        ensures { result ≡ [] }
    {
        Begun {
            alloc,
            names: IndexSet::new(alloc),
        }
    }

    /// Whether the name was begun.
    pub fn has(&self, name: &[u8]) -> bool
        ensures { result ≡ is_begun self.now name.now }
    {
        self.names.contains(name)
    }

    /// Begins the name, where it was not begun, and says whether it does. The one error is want of
    /// memory, which leaves the names as they were.
    pub fn begin(&mut self, name: &[u8]) -> Result<bool, Memory>
        ensures fresh { IfOk result (λ fresh. fresh ≡ not (is_begun self.old name.now)) }
        ensures ok { OnOk result (self.new ≡ with_name self.old name.now) }
        ensures err { OnErr result (self.new ≡ self.old) }
    {
        let name = owned(self.alloc, name)?;
        Ok(self.names.insert(name)?)
    }
}

/// A copy of a name. The one error is want of memory.
fn owned(alloc: Global, name: &[u8]) -> Result<Vec<u8>, Memory>
    ensures { IfOk result (λ copy. copy.items ≡ name.now) }
{
    Ok(name.to_vec(alloc)?)
}
