//! The rules by which objects reply.

use call_scripts::ReplyItem;
use indexmap::IndexMap;
use std::alloc::Global;
use xp_base::{List, Memory};

/// The rules by which objects reply to the calls of their slots, by the number of the object and
/// the slot.
#[derive(Drop)]
pub struct Rules {
    map: IndexMap<(u32, u16), List<ReplyItem>>,
}

impl Rules {
    ghost use Rattle.std.specs.Prelude.{◌≡◌, None, OnErr, OnOk};
    ghost use Rattle.script_meaning.specs.State.{ruled};
    ghost use Rattle.script_objects.specs.Ruling.{known_rules, without};

    /// No rules. It takes no memory.
    pub fn new(alloc: Global) -> Rules
        ensures { known_rules result ≡ (λ object slot. None) }
    {
        Rules {
            map: IndexMap::new(alloc),
        }
    }

    /// Lets an object reply to the calls of a slot by a rule, in the place of the one before. The
    /// one error is want of memory, which leaves all rules as they were.
    pub fn put(&mut self, object: u32, slot: u16, rule: List<ReplyItem>) -> Result<(), Memory>
        ensures ok { OnOk
            result
            (known_rules self.new ≡ ruled (known_rules self.old) object slot rule) }
        ensures err { OnErr result (known_rules self.new ≡ known_rules self.old) }
    {
        self.map.insert((object, slot), rule)?;
        Ok(())
    }

    /// Takes the rule of an object and a slot out, to be put back when a call has been answered by
    /// it. None where there is none; then nothing changes.
    pub fn take(&mut self, object: u32, slot: u16) -> Option<List<ReplyItem>>
        ensures rule { result ≡ known_rules self.old object slot }
        ensures left { known_rules self.new ≡ without (known_rules self.old) object slot }
    {
        self.map.swap_remove(&(object, slot))
    }
}
