//! The identifiers that were used.

ghost use Rattle.std.specs.Prelude.{◌≡◌, Some, is_some, OnOk};
ghost use Rattle.idl_meaning.specs.Meaning.{learns, nothing};
ghost use Rattle.idl_names.specs.Tables.{used};

use indexmap::IndexMap;
use std::alloc::Global;
use xp_base::Memory;

/// The identifiers of the interfaces that were defined.
#[derive(Drop)]
pub struct Identifiers {
    map: IndexMap<[u8; 16], ()>,
}

impl Identifiers {
    /// No identifiers. It takes no memory.
    pub fn new(alloc: Global) -> Identifiers
        ensures { used result ≡ nothing }
    {
        Identifiers {
            map: IndexMap::new(alloc),
        }
    }

    /// Whether the identifier was used.
    pub fn has(&self, iid: &[u8; 16]) -> bool
        ensures { result ≡ is_some (used self.now iid.now) }
    {
        self.map.get(iid).is_some()
    }

    /// Uses the identifier. The one error is want of memory.
    pub fn put(&mut self, iid: [u8; 16]) -> Result<(), Memory>
        ensures { OnOk result (used self.new ≡ learns (used self.old) iid (Some tt)) }
    {
        self.map.insert(iid, ())?;
        Ok(())
    }
}
