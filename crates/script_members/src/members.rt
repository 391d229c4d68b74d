//! The members that were asked for.

ghost use Rattle.std.specs.Prelude.{◌≡◌, ◌<◌, [], Err, IfOk, IsTrue, MatchResult, Ok, OnErr, OnOk};
ghost use Rattle.lib_model.specs.Table.{table_of};
ghost use Rattle.object_memory.specs.declared.layout.TheConstants.{SLOTS};
ghost use Rattle.script_meaning.specs.Members as members;
ghost use Rattle.script_members.specs.Remembered.{remembers, shown};

use crate::find::find_member;
use crate::found::Found;
use crate::key::{Key, key_of};
use call_scripts::MemberRef;
use descriptor_reader::Typelib;
use indexmap::IndexMap;
use std::alloc::Global;
use std::marker::Model;
use transcript_text::Refusal;
use xp_base::Memory;

/// The members of a typelib that lines name. Each is looked for once; the words are lent by the
/// script, so nothing is copied. They stand for the library, and for the members that are
/// remembered.
#[derive(Drop)]
pub struct Members<'a> {
    typelib: &'a Typelib<'a>,
    known: IndexMap<Key<'a>, Result<Found<'a>, Refusal>>,
}

impl<'a> Model for Members<'a> {
    ghost use Rattle.script_members.specs.Remembered.{AreTrue, Remembered, asked_for};

    ghost Value = { Remembered };

    ghost view = { λ m. record {
      library = m.typelib.now;
      members = asked_for m.known.entries;
    } };

    ghost invariant = { λ m. AreTrue m.typelib.now m.known.entries };
}

impl<'a> Members<'a> {
    /// No members of a typelib. It takes no memory.
    pub fn new(alloc: Global, typelib: &'a Typelib<'a>) -> Members<'a>
        ensures library { result.library ≡ typelib.now }
        ensures none { result.members ≡ [] }
    {
        Members {
            typelib,
            known: IndexMap::new(alloc),
        }
    }

    /// Looks for a member, unless it is remembered, and remembers it, or why it is refused. The one
    /// error is want of memory, which leaves all as it was.
    pub fn remember(&mut self, member: &'a MemberRef) -> Result<(), Memory>
        ensures known { OnOk result (IsTrue (remembers self.new member.now)) }
        ensures library { self.new.library ≡ self.old.library }
        ensures err { OnErr result (self.new ≡ self.old) }
    {
        let key = key_of(member);
        if self.known.get(&key).is_some() {
            return Ok(());
        }
        let answer = find_member(self.typelib, member);
        self.known.insert(key, answer)?;
        Ok(())
    }

    /// The member that a line names, which is remembered; or why it is refused: there is no such
    /// interface, it has no such member, or that may not be called.
    pub fn member_named(&self, member: &'a MemberRef) -> Result<&Found<'a>, Refusal>
        requires { IsTrue (remembers self.now member.now) }
        ensures member { MatchResult
            result
            (λ found. members.member_named (table_of self.now.library) member.now
            ≡ Ok (shown found.now))
            (λ refusal. members.member_named (table_of self.now.library) member.now
            ≡ Err refusal) }
        ensures library { IfOk result (λ found. found.now.method.library ≡ self.now.library) }
        ensures slot { IfOk result (λ found. found.now.method.slot < SLOTS) }
    {
        match self.known.get(&key_of(member)).unwrap().as_ref() {
            Ok(found) => Ok(found),
            Err(refusal) => Err(*refusal),
        }
    }
}
