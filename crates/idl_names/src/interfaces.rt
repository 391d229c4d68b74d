//! The members of an interface, one after the other.

ghost use Rattle.std.specs.Prelude.{◌≡◌, ◌<◌, ◌^◌, [], ◌++◌, length, IfErr, IfOk, OnOk, option_to_list};
ghost use Rattle.idl_meaning.specs.Scopes as scopes;
ghost use Rattle.idl_meaning.specs.Faults as spec;
ghost use Rattle.idl_meaning.specs.Meaning.{nothing};
ghost use Rattle.idl_meaning.specs.Counted.{AreCountedMembers, IsCountedMember};
ghost use Rattle.idl_names.specs.Tables.{known};
ghost use Rattle.idl_names.specs.Views.{inside_with};

use crate::bindings::Binding;
use crate::constants::Definition;
use crate::here::Here;
use crate::members::{body_made, learn, member_code, member_made};
use crate::table::Table;
use idl_grammar::Member;
use idl_meaning::{IdlError, ScopeMember};
use std::alloc::Global;
use xp_base::List;

/// What is known at all members of an interface.
#[derive(Clone, Copy)]
pub struct Around<'t, 'a> {
    /// The names of types.
    pub names: &'t Table<'a, Binding<'a>>,
    /// The interfaces that are defined.
    pub constants: &'t List<Definition<'a>>,
    /// The place of the parent among these.
    pub start: Option<usize>,
    /// Whether the interface is scriptable.
    pub scriptable: bool,
}

/// The place of a member.
#[derive(Clone, Copy)]
pub struct MemberPlace {
    pub file: u32,
    pub decl: u32,
    pub number: u32,
}

/// The members of an interface, as far as they were read.
#[derive(Drop)]
pub struct Members<'a> {
    /// What they declare.
    pub made: List<ScopeMember>,
    /// Their names, each constant with its value.
    pub own: Table<'a, Option<i64>>,
}

/// Takes one member, which is refused where it has a fault.
fn take_member<'a>(
    alloc: Global,
    around: &Around<'_, 'a>,
    place: MemberPlace,
    member: &'a Member,
    taken: &mut Members<'a>,
) -> Result<(), IdlError>
    requires { IsCountedMember member.now.body }
    ensures none { OnOk result
        (spec.codes_at (spec.Within (inside_with around.now (known taken.old.own))
        member.now.body) ≡ []) }
    ensures made { OnOk result (taken.new.made ≡ taken.old.made ++ option_to_list
        (scopes.member_made (scopes.member_name member.now.body) place.number
        (scopes.body_made (inside_with around.now (known taken.old.own)) member.now.body))) }
    ensures own { OnOk result (known taken.new.own
        ≡ (scopes.inside_after (inside_with around.now (known taken.old.own))
        member.now.body).own) }
    ensures fault { IfErr result (λ error. spec.IsFirst error
        (spec.faults_with place.file place.decl place.number
        (spec.codes_at (spec.Within (inside_with around.now (known taken.old.own))
        member.now.body)))) }
{
    let here = Here {
        names: around.names,
        own: &taken.own,
        constants: around.constants,
        start: around.start,
        scriptable: around.scriptable,
    };
    let MemberPlace { file, decl, number } = place;
    if let Some(code) = member_code(alloc, &here, &member.body)? {
        return Err(IdlError::Fault {
            code,
            file,
            decl,
            member: number,
        });
    }
    let body = body_made(alloc, &here, &member.body)?;
    learn(&mut taken.own, &member.body, &body)?;
    if let Some(one) = member_made(alloc, number, &member.body, body)? {
        taken.made.push(one)?;
    }
    Ok(())
}

/// The members of an interface, of which the first with a fault is refused.
pub fn take_members<'a>(
    alloc: Global,
    around: &Around<'_, 'a>,
    file: u32,
    decl: u32,
    members: &'a [Member],
) -> Result<Members<'a>, IdlError>
    requires few { length members.now < 2 ^ 32 }
    requires counted { AreCountedMembers members.now }
    ensures none { OnOk result (spec.member_faults file decl 1 (inside_with around.now nothing)
        members.now ≡ []) }
    ensures made { IfOk result (λ taken. taken.made
        ≡ scopes.members_made 1 (inside_with around.now nothing) members.now) }
    ensures own { IfOk result (λ taken. known taken.own
        ≡ (scopes.inside_all (inside_with around.now nothing) members.now).own) }
    ensures fault { IfErr result (λ error. spec.IsFirst error
        (spec.member_faults file decl 1 (inside_with around.now nothing) members.now)) }
{
    let mut taken = Members {
        made: List::new(alloc),
        own: Table::new(alloc),
    };
    for (i, member) in members.iter().enumerate() {
        let number = i as u32 + 1;
        let place = MemberPlace { file, decl, number };
        if let Err(error) = take_member(alloc, around, place, member, &mut taken) {
            return Err(error);
        }
    }
    Ok(taken)
}
