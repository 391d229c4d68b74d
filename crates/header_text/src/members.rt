//! The lines of a header for the members of an interface.

ghost use Rattle.std.specs.Prelude.{◌≡◌, ◌≤◌, ◌+◌, ◌++◌, IfOk, OnOk, length};
ghost use Rattle.std.specs.List.{flat_map};
ghost use Rattle.vtable_layout.specs.Slots.{slots_of_member};
ghost use Rattle.header_text.specs.Header.{ended};
ghost use Rattle.header_text.specs.Marks as marks;
ghost use Rattle.header_text.specs.Parts.{slots_text};

use crate::slot_lines::{Marks, getter_line, plain_line, setter_line};
use idl_meaning::{ScopeBody, ScopeIface, ScopeMember};
use std::alloc::Global;
use xp_base::{Bytes, List, Memory};

/// Adds a line with its end.
pub(crate) fn push_line(text: &mut Bytes, line: Bytes) -> Result<(), Memory>
    ensures { OnOk result (text.new ≡ text.old ++ ended line) }
{
    let mut line = line;
    line.append(b"\n")?;
    text.append(line.as_slice())
}

/// What is written before a member.
fn marks_of(body: &ScopeBody) -> Marks
    ensures { result ≡ marks.marks_of body.now }
{
    match body {
        ScopeBody::Constant { .. } => Marks {
            hidden: false,
            notxpcom: false,
            argc: false,
            context: false,
        },
        ScopeBody::Attribute {
            hidden,
            notxpcom,
            context,
            ..
        } => Marks {
            hidden: *hidden,
            notxpcom: *notxpcom,
            argc: false,
            context: *context,
        },
        ScopeBody::Method {
            hidden,
            notxpcom,
            argc,
            context,
            ..
        } => Marks {
            hidden: *hidden,
            notxpcom: *notxpcom,
            argc: *argc,
            context: *context,
        },
    }
}

/// Adds the lines of a member, whose first slot is `slot`. Gives the slot behind its last.
fn push_member(
    alloc: Global,
    text: &mut Bytes,
    ifaces: &List<ScopeIface>,
    slot: u16,
    member: &ScopeMember,
) -> Result<u16, Memory>
    requires { slot + length (slots_of_member member.now) ≤ 250 }
    ensures text { OnOk result
        (text.new ≡ text.old ++ slots_text ifaces.now slot (slots_of_member member.now)) }
    ensures behind { IfOk result
        (λ behind. behind ≡ slot + length (slots_of_member member.now)) }
{
    let name = member.name.as_slice();
    let marks = marks_of(&member.body);
    match &member.body {
        ScopeBody::Constant { .. } => Ok(slot),
        ScopeBody::Attribute { readonly, ty, .. } => {
            push_line(text, getter_line(alloc, ifaces, slot, name, marks, ty)?)?;
            if *readonly {
                return Ok(slot + 1);
            }
            push_line(text, setter_line(alloc, ifaces, slot + 1, name, marks, ty)?)?;
            Ok(slot + 2)
        }
        ScopeBody::Method { result, params, .. } => {
            let params = params.as_slice();
            push_line(
                text,
                plain_line(alloc, ifaces, slot, name, marks, result, params)?,
            )?;
            Ok(slot + 1)
        }
    }
}

/// Adds the lines of members, whose slots are numbered from `first` on.
pub(crate) fn push_members(
    alloc: Global,
    text: &mut Bytes,
    ifaces: &List<ScopeIface>,
    first: u16,
    members: &[ScopeMember],
) -> Result<(), Memory>
    requires { first + length (flat_map slots_of_member members.now) ≤ 250 }
    ensures { OnOk result (text.new
        ≡ text.old ++ slots_text ifaces.now first (flat_map slots_of_member members.now)) }
{
    let mut slot = first;
    for member in members {
        slot = push_member(alloc, text, ifaces, slot, member)?;
    }
    Ok(())
}
