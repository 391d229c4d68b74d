//! What names stand for.

ghost use Rattle.std.specs.Prelude.{◌≡◌, None, OnErr, OnOk};
ghost use Rattle.script_meaning.specs.State.{learned};
ghost use Rattle.script_stage.specs.Standing.{known};

use indexmap::IndexMap;
use std::alloc::Global;
use xp_base::Memory;

/// What names stand for. The names are lent by the script, so nothing is copied.
#[derive(Drop)]
pub struct Names<'a, T> {
    map: IndexMap<&'a [u8], T>,
}

impl<'a, T: Copy> Names<'a, T> {
    /// No names. It takes no memory.
    pub fn new(alloc: Global) -> Names<'a, T>
        ensures { known result ≡ (λ name. None) }
    {
        Names {
            map: IndexMap::new(alloc),
        }
    }

    /// What a name stands for; None where it stands for nothing.
    pub fn find(&self, name: &[u8]) -> Option<T>
        ensures { result ≡ known self.now name.now }
    {
        self.map.get(name).copied()
    }

    /// Lets a name stand for something, in the place of what it stood for. The one error is want
    /// of memory, which leaves all names as they were.
    pub fn put(&mut self, name: &'a [u8], value: T) -> Result<(), Memory>
        ensures ok { OnOk result (known self.new ≡ learned (known self.old) name.now value) }
        ensures err { OnErr result (known self.new ≡ known self.old) }
    {
        self.map.insert(name, value)?;
        Ok(())
    }
}
