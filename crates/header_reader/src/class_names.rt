//! The names of the classes that have begun.

ghost use Rattle.std.specs.Prelude.{◌≡◌, ◌<◌, false, List, [], ◌∷◌, ◌++◌, length, map, position, IfSome, OnOk};
ghost use Rattle.std.specs.List.{list_any};
ghost use Rattle.std.specs.Str.{bytes_eq};
ghost use Rattle.header_model.specs.declared.decls.Decl.{Decl};
ghost use Rattle.header_model.specs.Declares.{has_name};

use indexmap::IndexSet;
use std::alloc::Global;
use std::marker::Model;
use xp_base::Memory;

/// The names of the classes that have begun, in order, no two alike. The number of a class is found
/// by the hash of its name.
#[derive(Drop)]
pub(crate) struct ClassNames {
    alloc: Global,
    names: IndexSet<Vec<u8>>,
}

impl Model for ClassNames {
    ghost use Rattle.std.specs.Prelude.{List, ℕ, map};

    ghost Value = { List (List ℕ) };

    ghost view = { λ c. map (λ name. name.items) c.names.keys };
}

impl ClassNames {
    /// No names.
    pub(crate) fn new(alloc: Global) -> ClassNames
        ensures { result ≡ [] }
    {
        ClassNames {
            alloc,
            names: IndexSet::new(alloc),
        }
    }

    /// Which of the classes has the name, counted from 0.
    pub(crate) fn number_of(&self, name: &[u8]) -> Option<usize>
        ensures number { (decls : List Decl) → self.now ≡ map (λ decl. decl.name) decls
            → result ≡ position (has_name name.now) decls }
        ensures within { IfSome result (λ number. number < length self.now) }
    {
        self.names.get_index_of(name)
    }

    /// Whether a class has the name.
    pub(crate) fn has(&self, name: &[u8]) -> bool
        ensures { (decls : List Decl) → self.now ≡ map (λ decl. decl.name) decls
            → result ≡ list_any (has_name name.now) decls }
    {
        self.names.contains(name)
    }

    /// Adds the name of one more class.
    pub(crate) fn add(&mut self, name: &[u8]) -> Result<(), Memory>
        requires { list_any (λ n. bytes_eq n name.now) self.now ≡ false }
        ensures { OnOk result (self.new ≡ self.old ++ name.now ∷ []) }
    {
        let name = name.to_vec(self.alloc)?;
        self.names.insert(name)?;
        Ok(())
    }
}
