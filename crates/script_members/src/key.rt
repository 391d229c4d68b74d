ghost use Rattle.std.specs.Prelude.{◌≡◌};
ghost use Rattle.script_members.specs.Remembered.{meant};

use call_scripts::{MemberRef, MemberWord};

/// A member by its words, by which it is remembered. Few members differ in their kind alone, so
/// only the names are hashed.
#[derive(Clone, Copy, PartialEq, Eq)]
#[derive_where(Hash)]
pub(crate) struct Key<'a> {
    pub(crate) iface: &'a [u8],
    #[derive_where(skip(Hash))]
    pub(crate) kind: MemberWord,
    pub(crate) name: &'a [u8],
}

/// The key of a member.
pub(crate) fn key_of<'a>(member: &'a MemberRef) -> Key<'a>
    ensures { meant result ≡ member.now }
{
    Key {
        iface: member.iface.as_slice(),
        kind: member.kind,
        name: member.name.as_slice(),
    }
}
