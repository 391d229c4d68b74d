//! The members of an interface: the first code of each, and what it declares.

ghost use Rattle.std.specs.Prelude.{◌≡◌, ◌<◌, ◌^◌, length, IfOk, OnOk, Some};
ghost use Rattle.std.specs.Option.{option_copied};
ghost use Rattle.idl_grammar.specs.declared.tree.MemberBody.TheVariants as member;
ghost use Rattle.idl_meaning.specs.Constants.{is_outside};
ghost use Rattle.idl_meaning.specs.Meaning.{nothing};
ghost use Rattle.idl_meaning.specs.Scopes as scopes;
ghost use Rattle.idl_meaning.specs.Faults as spec;
ghost use Rattle.idl_names.specs.Bindings.{sense_of};
ghost use Rattle.idl_meaning.specs.Counted.{IsCountedMember};
ghost use Rattle.idl_names.specs.Parameters.{params_of};
ghost use Rattle.idl_names.specs.Tables.{known};
ghost use Rattle.idl_names.specs.Views.{inside_of};

use crate::attributes::has;
use crate::bindings::{Reading, read_type};
use crate::expressions::{any_unknown_name, value};
use crate::here::Here;
use crate::numbers::in_range;
use crate::parameters::{
    Numbered, all_made, any_gap, any_misdirected, any_mismeasured, any_misnamed, any_open_native,
    any_repeated, any_void, any_wrong_array, any_wrong_retval, by_name, is_void_name, stands_for,
};
use crate::table::Table;
use idl_grammar::{Attr, Expr, MemberBody, ParamDecl, TypeName};
use idl_meaning::{Meant, ScopeBody, ScopeMember};
use std::alloc::Global;
use xp_base::{Bytes, ConstKind, List, Memory};

/// Whether a member of these attributes is neither `noscript` nor `notxpcom`, in a scriptable
/// interface.
fn is_shown(here: &Here<'_, '_>, attrs: &[Attr]) -> bool
    ensures { result ≡ spec.is_shown (inside_of here.now) attrs.now }
{
    here.scriptable && !has(b"noscript", attrs) && !has(b"notxpcom", attrs)
}

/// Whether an earlier member has this name.
fn is_known_member(here: &Here<'_, '_>, name: &Bytes) -> bool
    ensures { result ≡ spec.is_known_member (inside_of here.now).own (Some name.now) }
{
    here.own.find(name.as_slice()).is_some()
}

/// Whether there is no value, or it is not in the range of the kind.
fn is_outside(kind: Option<ConstKind>, value: Option<i64>) -> bool
    ensures { result ≡ is_outside kind value }
{
    match (kind, value) {
        (_, None) => true,
        (None, Some(_)) => false,
        (Some(kind), Some(value)) => !in_range(kind, value),
    }
}

/// The first code of a constant. The one error is want of memory.
fn constant_code(
    alloc: Global,
    here: &Here<'_, '_>,
    of: &TypeName,
    name: &Bytes,
    expr: &Expr,
) -> Result<Option<u8>, Memory>
    ensures { IfOk result (λ code. code
        ≡ spec.first (spec.codes_at (spec.Within (inside_of here.now)
        (member.Constant of.now name.now expr.now)))) }
{
    let read = read_type(here.names, of);
    if is_known_member(here, name) {
        return Ok(Some(1));
    }
    if read.is_unknown() || any_unknown_name(here, expr.steps.as_slice()) {
        return Ok(Some(2));
    }
    if is_void_name(of) {
        return Ok(Some(6));
    }
    if read.is_no_const_type() {
        return Ok(Some(10));
    }
    if is_outside(read.kind(), value(alloc, here, expr.steps.as_slice())?) {
        return Ok(Some(11));
    }
    Ok(None)
}

/// The first code of an attribute.
fn attribute_code(
    here: &Here<'_, '_>,
    attrs: &List<Attr>,
    readonly: bool,
    of: &TypeName,
    name: &Bytes,
) -> Option<u8>
    ensures { result
        ≡ spec.first (spec.codes_at (spec.Within (inside_of here.now)
        (member.Attribute attrs.now readonly of.now name.now))) }
{
    let _kept = readonly;
    let read = read_type(here.names, of);
    if is_known_member(here, name) {
        return Some(1);
    }
    if read.is_unknown() {
        return Some(2);
    }
    if is_void_name(of) {
        return Some(6);
    }
    if read.is_iid_ref() {
        return Some(7);
    }
    if is_shown(here, attrs.as_slice()) && read.is_native() {
        return Some(14);
    }
    None
}

/// The first code of a method, whose parameters have these names, and no name twice unless
/// `repeated`.
fn first_code(
    here: &Here<'_, '_>,
    repeated: bool,
    named: &Table<'_, Numbered<'_>>,
    attrs: &List<Attr>,
    of: &TypeName,
    name: &Bytes,
    params: &List<ParamDecl>,
) -> Option<u8>
    requires twice { repeated ≡ spec.any_repeated nothing params.now }
    requires names { params_of named.now ≡ spec.param_of params.now }
    ensures { result
        ≡ spec.first (spec.codes_at (spec.Within (inside_of here.now)
        (member.Method attrs.now of.now name.now params.now))) }
{
    let read = read_type(here.names, of);
    let all = params.as_slice();
    if is_known_member(here, name) || repeated {
        return Some(1);
    }
    if read.is_unknown() || any_misnamed(here.names, all) {
        return Some(2);
    }
    if any_void(all) {
        return Some(6);
    }
    if read.is_iid_ref() || any_misdirected(here.names, all) {
        return Some(7);
    }
    if any_mismeasured(here.names, named, all) {
        return Some(8);
    }
    if any_wrong_array(here.names, all) {
        return Some(9);
    }
    if any_wrong_retval(!is_void_name(of), all) {
        return Some(12);
    }
    if any_gap(all) {
        return Some(13);
    }
    if is_shown(here, attrs.as_slice()) && (read.is_native() || any_open_native(here.names, all)) {
        return Some(14);
    }
    None
}

/// The first code of a method. The one error is want of memory.
fn method_code(
    alloc: Global,
    here: &Here<'_, '_>,
    attrs: &List<Attr>,
    of: &TypeName,
    name: &Bytes,
    params: &List<ParamDecl>,
) -> Result<Option<u8>, Memory>
    requires { length params.now < 2 ^ 32 }
    ensures { IfOk result (λ code. code
        ≡ spec.first (spec.codes_at (spec.Within (inside_of here.now)
        (member.Method attrs.now of.now name.now params.now)))) }
{
    let repeated = any_repeated(alloc, params.as_slice())?;
    let named = by_name(alloc, params.as_slice())?;
    Ok(first_code(here, repeated, &named, attrs, of, name, params))
}

/// The first code of a member. The one error is want of memory.
pub fn member_code(
    alloc: Global,
    here: &Here<'_, '_>,
    body: &MemberBody,
) -> Result<Option<u8>, Memory>
    requires { IsCountedMember body.now }
    ensures { IfOk result (λ code. code
        ≡ spec.first (spec.codes_at (spec.Within (inside_of here.now) body.now))) }
{
    match body {
        MemberBody::Code => Ok(None),
        MemberBody::Constant { of, name, value } => constant_code(alloc, here, of, name, value),
        MemberBody::Attribute {
            attrs,
            readonly,
            of,
            name,
        } => Ok(attribute_code(here, attrs, *readonly, of, name)),
        MemberBody::Method {
            attrs,
            of,
            name,
            params,
        } => method_code(alloc, here, attrs, of, name, params),
    }
}

// ---- what a member declares

/// A constant of this kind and value, where it has no fault.
fn constant_made(kind: Option<ConstKind>, value: Option<i64>) -> Option<ScopeBody>
    ensures { result ≡ scopes.constant_made kind value }
{
    let kind = kind?;
    let value = value?;
    if in_range(kind, value) {
        Some(ScopeBody::Constant { kind, value })
    } else {
        None
    }
}

/// The type of a value that is given back. The one error is want of memory.
fn result_of(alloc: Global, read: Reading<'_>) -> Result<Option<Meant>, Memory>
    ensures { IfOk result (λ meant. meant ≡ scopes.result_of (sense_of read.entry)) }
{
    match read {
        Reading::Nothing => Ok(None),
        Reading::Unknown => Ok(Some(Meant::JsVal)),
        Reading::Means(lent) => Ok(Some(lent.copied(alloc)?)),
    }
}

/// What a method declares. The one error is want of memory.
fn method_made(
    alloc: Global,
    here: &Here<'_, '_>,
    attrs: &List<Attr>,
    of: &TypeName,
    name: &Bytes,
    params: &List<ParamDecl>,
) -> Result<Option<ScopeBody>, Memory>
    requires { length params.now < 2 ^ 32 }
    ensures { IfOk result (λ made. made
        ≡ scopes.body_made (inside_of here.now)
        (member.Method attrs.now of.now name.now params.now)) }
{
    let _kept = name.as_slice();
    let read = read_type(here.names, of);
    let named = by_name(alloc, params.as_slice())?;
    Ok(Some(ScopeBody::Method {
        hidden: has(b"noscript", attrs.as_slice()),
        notxpcom: has(b"notxpcom", attrs.as_slice()),
        argc: has(b"optional_argc", attrs.as_slice()),
        context: has(b"implicit_jscontext", attrs.as_slice()),
        result: result_of(alloc, read)?,
        params: all_made(alloc, here.names, &named, params.as_slice())?,
    }))
}

/// What a member declares; None for a block of code. The one error is want of memory.
pub fn body_made(
    alloc: Global,
    here: &Here<'_, '_>,
    body: &MemberBody,
) -> Result<Option<ScopeBody>, Memory>
    requires { IsCountedMember body.now }
    ensures { IfOk result (λ made. made ≡ scopes.body_made (inside_of here.now) body.now) }
{
    match body {
        MemberBody::Code => Ok(None),
        MemberBody::Constant {
            of,
            value: expr,
            ..
        } => {
            let read = read_type(here.names, of);
            Ok(constant_made(read.kind(), value(alloc, here, expr.steps.as_slice())?))
        }
        MemberBody::Attribute {
            attrs,
            readonly,
            of,
            ..
        } => Ok(Some(ScopeBody::Attribute {
            hidden: has(b"noscript", attrs.as_slice()),
            notxpcom: has(b"notxpcom", attrs.as_slice()),
            context: has(b"implicit_jscontext", attrs.as_slice()),
            readonly: *readonly,
            ty: stands_for(alloc, read_type(here.names, of))?,
        })),
        MemberBody::Method {
            attrs,
            of,
            name,
            params,
        } => method_made(alloc, here, attrs, of, name, params),
    }
}

/// The name of a member.
fn member_name(body: &MemberBody) -> Option<&Bytes>
    ensures { option_copied result ≡ scopes.member_name body.now }
{
    match body {
        MemberBody::Code => None,
        MemberBody::Constant { name, .. } => Some(name),
        MemberBody::Attribute { name, .. } => Some(name),
        MemberBody::Method { name, .. } => Some(name),
    }
}

/// The value of a constant.
fn value_in(made: &Option<ScopeBody>) -> Option<i64>
    ensures { result ≡ scopes.value_in made.now }
{
    match made {
        Some(ScopeBody::Constant { value, .. }) => Some(*value),
        _ => None,
    }
}

/// Adds a member to those of its interface. The one error is want of memory.
pub fn learn<'a>(
    own: &mut Table<'a, Option<i64>>,
    body: &'a MemberBody,
    made: &Option<ScopeBody>,
) -> Result<(), Memory>
    ensures { OnOk result (known own.new
        ≡ scopes.learns_member (known own.old) (scopes.member_name body.now)
        (scopes.value_in made.now)) }
{
    match member_name(body) {
        Some(name) => own.put(name.as_slice(), value_in(made)),
        None => Ok(()),
    }
}

/// A member of this number; None for a block of code. The one error is want of memory.
pub fn member_made(
    alloc: Global,
    number: u32,
    body: &MemberBody,
    made: Option<ScopeBody>,
) -> Result<Option<ScopeMember>, Memory>
    ensures { IfOk result (λ member. member
        ≡ scopes.member_made (scopes.member_name body.now) number made) }
{
    let (Some(name), Some(body)) = (member_name(body), made) else {
        return Ok(None);
    };
    let name = Bytes::copy(alloc, name.as_slice())?;
    Ok(Some(ScopeMember {
        name,
        member: number,
        body,
    }))
}
