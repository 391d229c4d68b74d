//! The constants of the interfaces that are defined.

ghost use Rattle.std.specs.Prelude.{◌≡◌};
ghost use Rattle.std.specs.Option.{option_flatten};
ghost use Rattle.idl_meaning.specs.Scopes.{constants_at};
ghost use Rattle.idl_names.specs.Tables.{known};
ghost use Rattle.idl_names.specs.Views.{below, seen};

use crate::table::Table;
use xp_base::List;

/// An interface that is defined: the place of its parent among these, and its own members, each
/// constant with its value.
#[derive(Drop)]
pub struct Definition<'a> {
    pub parent: Option<usize>,
    pub own: Table<'a, Option<i64>>,
}

/// A parent that stands before its child.
fn below(rank: usize, parent: Option<usize>) -> Option<usize>
    ensures { result ≡ below rank parent }
{
    match parent {
        Some(parent) if parent < rank => Some(parent),
        _ => None,
    }
}

/// The value of a constant among members.
pub fn own_value(own: &Table<'_, Option<i64>>, name: &[u8]) -> Option<i64>
    ensures { result ≡ option_flatten (known own.now name.now) }
{
    match own.find(name) {
        Some(Some(value)) => Some(value),
        _ => None,
    }
}

/// The constant of this name in the definition at `start`, else in its nearest ancestor that has
/// one.
pub fn find(constants: &List<Definition<'_>>, start: Option<usize>, name: &[u8]) -> Option<i64>
    ensures { result ≡ constants_at (seen constants.now) start name.now }
{
    let mut at = start;
    'up: while let Some(rank) = at {
        let Some(definition) = constants.get(rank) else {
            return None;
        };
        if let Some(value) = own_value(&definition.own, name) {
            return Some(value);
        }
        at = below(rank, definition.parent);
    }
    None
}
