//! The lines of a header for the slots of a member.

ghost use Rattle.std.specs.Prelude.{◌≡◌, ◌++◌, ◌||◌, false, IfOk, codes};
ghost use Rattle.std.specs.List.{list_any};
ghost use Rattle.prototype_lowering.specs.StaticTable as static_table;
ghost use Rattle.vtable_layout.specs.Slots as slots;
ghost use Rattle.header_text.specs.Header as header;

use crate::arguments::{
    Argument, arguments_text, getter_arguments, method_arguments, setter_arguments,
};
use call_model::MemberKind;
use idl_meaning::{Meant, ScopeIface, ScopeParam};
use std::alloc::Global;
use xp_base::{Bytes, List, Memory, dec_text};

/// What is written before a member: `noscript`, `notxpcom`, `optional_argc` and
/// `implicit_jscontext`.
#[derive(Clone, Copy)]
pub(crate) struct Marks {
    pub hidden: bool,
    pub notxpcom: bool,
    pub argc: bool,
    pub context: bool,
}

/// A name with its first letter in upper case.
fn capital(alloc: Global, name: &[u8]) -> Result<Bytes, Memory>
    ensures { IfOk result (λ text. text ≡ header.capital name.now) }
{
    match name {
        [] => Ok(Bytes::new(alloc)),
        [first, rest @ ..] => {
            let mut text = Bytes::copy(alloc, &[first.to_ascii_uppercase()])?;
            text.append(rest)?;
            Ok(text)
        }
    }
}

/// The same behind a prefix.
fn prefixed(alloc: Global, prefix: &[u8], name: &[u8]) -> Result<Bytes, Memory>
    ensures { IfOk result (λ text. text ≡ prefix.now ++ header.capital name.now) }
{
    let mut text = Bytes::copy(alloc, prefix)?;
    text.append(capital(alloc, name)?.as_slice())?;
    Ok(text)
}

/// The name of a function.
fn member_name(alloc: Global, kind: MemberKind, name: &[u8]) -> Result<Bytes, Memory>
    ensures { IfOk result (λ text. text ≡ header.member_name kind name.now) }
{
    match kind {
        MemberKind::Plain => capital(alloc, name),
        MemberKind::Get => prefixed(alloc, b"Get", name),
        MemberKind::Set => prefixed(alloc, b"Set", name),
    }
}

/// The line of a function.
fn method_line(
    alloc: Global,
    kind: MemberKind,
    name: &[u8],
    arguments: &List<Argument>,
) -> Result<Bytes, Memory>
    ensures { IfOk result (λ line. line ≡ codes "  virtual nsresult "
        ++ header.member_name kind name.now ++ codes "("
        ++ header.arguments_text arguments.now ++ codes ") = 0;") }
{
    let mut line = Bytes::copy(alloc, b"  virtual nsresult ")?;
    line.append(member_name(alloc, kind, name)?.as_slice())?;
    line.append(b"(")?;
    line.append(arguments_text(alloc, arguments.as_slice())?.as_slice())?;
    line.append(b") = 0;")?;
    Ok(line)
}

/// The line of a slot that is reserved.
fn reserved_line(alloc: Global, slot: u16) -> Result<Bytes, Memory>
    ensures { IfOk result (λ line. line ≡ header.reserved_line slot) }
{
    let mut line = Bytes::copy(alloc, b"  virtual void xpcall_reserved_")?;
    line.append(dec_text(alloc, i128::from(slot))?.as_slice())?;
    line.append(b"() = 0;")?;
    Ok(line)
}

/// Whether no call can pass a value of this type.
fn is_opaque(ty: &Meant, iid: Option<u32>) -> bool
    ensures { result ≡ static_table.is_opaque_meaning ty.now iid }
{
    match ty {
        Meant::JsVal => true,
        Meant::Native(_) => iid.is_none(),
        _ => false,
    }
}

/// Whether there is a parameter whose value no call can pass.
fn any_opaque(params: &[ScopeParam]) -> bool
    ensures { result ≡ list_any static_table.is_opaque params.now }
{
    params.iter().any(|param| is_opaque(&param.ty, param.iid))
}

/// Whether a method gives a value that no call can pass.
fn gives_opaque(gives: &Option<Meant>) -> bool
    ensures { result ≡ list_any static_table.is_opaque (slots.given false gives.now) }
{
    match gives {
        None => false,
        Some(ty) => is_opaque(ty, None),
    }
}

/// Whether a method has a value that no call can pass.
fn has_opaque(gives: &Option<Meant>, params: &[ScopeParam]) -> bool
    ensures { result ≡ (list_any static_table.is_opaque params.now
        || list_any static_table.is_opaque (slots.given false gives.now)) }
{
    any_opaque(params) || gives_opaque(gives)
}

/// Whether a member with these marks, and a value that no call can pass or none, has no function.
fn is_reserved(marks: Marks, opaque: bool) -> bool
    ensures { result ≡ (marks.hidden || marks.notxpcom || opaque) }
{
    marks.hidden || marks.notxpcom || opaque
}

/// The line of the slot by which an attribute is read.
pub(crate) fn getter_line(
    alloc: Global,
    ifaces: &List<ScopeIface>,
    slot: u16,
    name: &[u8],
    marks: Marks,
    ty: &Meant,
) -> Result<Bytes, Memory>
    ensures { IfOk result (λ line. line ≡ header.slot_line ifaces.now (
      slot,
      slots.getter name.now marks.hidden marks.notxpcom marks.context ty.now,
    )) }
{
    if is_reserved(marks, is_opaque(ty, None)) {
        return reserved_line(alloc, slot);
    }
    let arguments = getter_arguments(alloc, ifaces, marks.context, ty)?;
    method_line(alloc, MemberKind::Get, name, &arguments)
}

/// The line of the slot by which an attribute is set.
pub(crate) fn setter_line(
    alloc: Global,
    ifaces: &List<ScopeIface>,
    slot: u16,
    name: &[u8],
    marks: Marks,
    ty: &Meant,
) -> Result<Bytes, Memory>
    ensures { IfOk result (λ line. line ≡ header.slot_line ifaces.now (
      slot,
      slots.setter name.now marks.hidden marks.notxpcom marks.context ty.now,
    )) }
{
    if is_reserved(marks, is_opaque(ty, None)) {
        return reserved_line(alloc, slot);
    }
    let arguments = setter_arguments(alloc, ifaces, marks.context, ty)?;
    method_line(alloc, MemberKind::Set, name, &arguments)
}

/// The line of the slot of a method.
pub(crate) fn plain_line(
    alloc: Global,
    ifaces: &List<ScopeIface>,
    slot: u16,
    name: &[u8],
    marks: Marks,
    gives: &Option<Meant>,
    params: &[ScopeParam],
) -> Result<Bytes, Memory>
    ensures { IfOk result (λ line. line ≡ header.slot_line ifaces.now (
      slot,
      slots.method name.now
          marks.hidden marks.notxpcom marks.argc marks.context gives.now params.now,
    )) }
{
    if is_reserved(marks, has_opaque(gives, params)) {
        return reserved_line(alloc, slot);
    }
    let arguments = method_arguments(alloc, ifaces, marks.argc, marks.context, gives, params)?;
    method_line(alloc, MemberKind::Plain, name, &arguments)
}
