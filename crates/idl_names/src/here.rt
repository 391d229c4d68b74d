//! What is known at a member.

ghost use Rattle.std.specs.Prelude.{◌≡◌};
ghost use Rattle.idl_meaning.specs.Scopes.{visible};
ghost use Rattle.idl_names.specs.Views.{inside_of};

use crate::bindings::Binding;
use crate::constants::{Definition, find, own_value};
use crate::table::Table;
use xp_base::List;

/// What is known at a member.
#[derive(Clone, Copy)]
pub struct Here<'t, 'a> {
    /// The names of types.
    pub names: &'t Table<'a, Binding<'a>>,
    /// The members before it, each constant with its value.
    pub own: &'t Table<'a, Option<i64>>,
    /// The interfaces that are defined.
    pub constants: &'t List<Definition<'a>>,
    /// The place of the parent among these.
    pub start: Option<usize>,
    /// Whether the interface is scriptable.
    pub scriptable: bool,
}

impl Here<'_, '_> {
    /// The value of a constant that can be named.
    pub fn find(&self, name: &[u8]) -> Option<i64>
        ensures { result ≡ visible (inside_of self.now) name.now }
    {
        match own_value(self.own, name) {
            Some(value) => Some(value),
            None => find(self.constants, self.start, name),
        }
    }
}
