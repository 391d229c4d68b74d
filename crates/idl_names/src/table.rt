//! A table of names.

ghost use Rattle.std.specs.Prelude.{◌≡◌, Some, OnOk};
ghost use Rattle.idl_meaning.specs.Meaning.{learns, nothing};
ghost use Rattle.idl_names.specs.Tables.{known};

use indexmap::IndexMap;
use std::alloc::Global;
use xp_base::Memory;

/// What names mean. The names are lent by the files, so nothing is copied.
#[derive(Drop)]
pub struct Table<'a, V> {
    map: IndexMap<&'a [u8], V>,
}

impl<'a, V: Copy> Table<'a, V> {
    /// A table in which no name is known. It takes no memory.
    pub fn new(alloc: Global) -> Table<'a, V>
        ensures { known result ≡ nothing }
    {
        Table {
            map: IndexMap::new(alloc),
        }
    }

    /// What the name means, where it is known.
    pub fn find(&self, name: &[u8]) -> Option<V>
        ensures { result ≡ known self.now name.now }
    {
        self.map.get(name).copied()
    }

    /// Gives the name this meaning, in place of an earlier one. The one error is want of memory.
    pub fn put(&mut self, name: &'a [u8], value: V) -> Result<(), Memory>
        ensures { OnOk result (known self.new ≡ learns (known self.old) name.now (Some value)) }
    {
        self.map.insert(name, value)?;
        Ok(())
    }
}
