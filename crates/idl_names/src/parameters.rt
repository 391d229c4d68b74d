//! The parameters of a method: their numbers by name, and what can be wrong with one.

ghost use Rattle.std.specs.Prelude.{◌≡◌, ◌<◌, ◌^◌, length, option_and_then, option_map, IfOk};
ghost use Rattle.std.specs.List.{list_any};
ghost use Rattle.idl_meaning.specs.Meaning.{is_iid, is_integer, nothing};
ghost use Rattle.idl_meaning.specs.Scopes as scopes;
ghost use Rattle.idl_meaning.specs.Scopes.{number_in, param_made, params_made};
ghost use Rattle.idl_meaning.specs.Faults as spec;
ghost use Rattle.idl_names.specs.Bindings.{names_of, sense_of};
ghost use Rattle.idl_names.specs.Parameters.{numbers_of, params_of};

use crate::attributes::{has, word_of};
use crate::bindings::{Binding, Reading, read_type};
use crate::table::Table;
use idl_grammar::{ParamDecl, TypeName};
use idl_meaning::{Meant, ScopeParam};
use std::alloc::Global;
use xp_base::{Bytes, Dir, List, Memory};

/// A parameter, with its number in the method.
#[derive(Clone, Copy)]
pub struct Numbered<'a> {
    pub number: u32,
    pub param: &'a ParamDecl,
}

/// The parameters of a method by name; of several with one name the first. The one error is want
/// of memory.
pub fn by_name<'a>(
    alloc: Global,
    params: &'a [ParamDecl],
) -> Result<Table<'a, Numbered<'a>>, Memory>
    requires { length params.now < 2 ^ 32 }
    ensures numbers { IfOk result (λ named. numbers_of named ≡ number_in params.now) }
    ensures params { IfOk result (λ named. params_of named ≡ spec.param_of params.now) }
{
    let mut named = Table::new(alloc);
    let mut left = params.len();
    'back: while 0 < left {
        left -= 1;
        let param = &params[left];
        let number = left as u32;
        named.put(param.name.as_slice(), Numbered { number, param })?;
    }
    Ok(named)
}

/// Whether two of the parameters have one name. The one error is want of memory.
pub fn any_repeated(alloc: Global, params: &[ParamDecl]) -> Result<bool, Memory>
    ensures { IfOk result (λ any. any ≡ spec.any_repeated nothing params.now) }
{
    let mut before = Table::new(alloc);
    for param in params {
        if before.find(param.name.as_slice()).is_some() {
            return Ok(true);
        }
        before.put(param.name.as_slice(), 0usize)?;
    }
    Ok(false)
}

// ---- one parameter

/// Whether it has the attribute `array`.
pub fn is_array(param: &ParamDecl) -> bool
    ensures { result ≡ spec.is_array param.now }
{
    has(b"array", param.attrs.as_slice())
}

/// Whether it has the attribute `retval`.
pub fn is_retval(param: &ParamDecl) -> bool
    ensures { result ≡ spec.is_retval param.now }
{
    has(b"retval", param.attrs.as_slice())
}

/// Whether it has the attribute `optional`.
pub fn is_optional(param: &ParamDecl) -> bool
    ensures { result ≡ spec.is_optional param.now }
{
    has(b"optional", param.attrs.as_slice())
}

/// The name that `size_is` gives.
pub fn size_name(param: &ParamDecl) -> Option<&[u8]>
    ensures { option_map (λ name. name.now) result ≡ spec.size_name param.now }
{
    word_of(b"size_is", param.attrs.as_slice())
}

/// The name that `length_is` gives.
pub fn length_name(param: &ParamDecl) -> Option<&[u8]>
    ensures { option_map (λ name. name.now) result ≡ spec.length_name param.now }
{
    word_of(b"length_is", param.attrs.as_slice())
}

/// The name that `iid_is` gives.
pub fn iid_name(param: &ParamDecl) -> Option<&[u8]>
    ensures { option_map (λ name. name.now) result ≡ spec.iid_name param.now }
{
    word_of(b"iid_is", param.attrs.as_slice())
}

/// Whether its type is a name that is not declared.
fn is_misnamed(names: &Table<'_, Binding<'_>>, param: &ParamDecl) -> bool
    ensures { result ≡ spec.is_misnamed (names_of names.now) param.now }
{
    let read = read_type(names, &param.of);
    read.is_unknown()
}

/// Whether a type is `void`.
pub fn is_void_name(of: &TypeName) -> bool
    ensures { result ≡ spec.is_void_name of.now }
{
    matches!(of, TypeName::Void)
}

fn is_void_param(param: &ParamDecl) -> bool
    ensures { result ≡ spec.is_void_param param.now }
{
    is_void_name(&param.of)
}

/// Whether it is a reference to an identifier and not `in`, or a class of strings and `inout`.
fn is_misdirected(names: &Table<'_, Binding<'_>>, param: &ParamDecl) -> bool
    ensures { result ≡ spec.is_misdirected (names_of names.now) param.now }
{
    let read = read_type(names, &param.of);
    match param.dir {
        Dir::Inward => false,
        Dir::Outward => read.is_iid_ref(),
        Dir::Both => read.is_iid_ref() || read.is_class(),
    }
}

/// Whether no parameter of this name is an integer and no array.
fn is_no_count(names: &Table<'_, Binding<'_>>, named: &Table<'_, Numbered<'_>>, name: &[u8]) -> bool
    ensures { result ≡ spec.is_no_param is_integer (names_of names.now)
        (params_of named.now name.now) }
{
    match named.find(name) {
        Some(found) => {
            let read = read_type(names, &found.param.of);
            is_array(found.param) || read.is_no_integer()
        }
        None => true,
    }
}

/// Whether no parameter of this name is an identifier and no array.
fn is_no_iid(names: &Table<'_, Binding<'_>>, named: &Table<'_, Numbered<'_>>, name: &[u8]) -> bool
    ensures { result ≡ spec.is_no_param is_iid (names_of names.now) (params_of named.now name.now) }
{
    match named.find(name) {
        Some(found) => {
            let read = read_type(names, &found.param.of);
            is_array(found.param) || read.is_no_iid()
        }
        None => true,
    }
}

/// Whether a size or length of this name is wrong.
fn is_wrong_count(
    names: &Table<'_, Binding<'_>>,
    named: &Table<'_, Numbered<'_>>,
    param: &ParamDecl,
    name: Option<&[u8]>,
) -> bool
    ensures { result ≡ spec.is_wrong_count (names_of names.now) (params_of named.now) param.now
        (option_map (λ word. word.now) name.entry) }
{
    let Some(name) = name else {
        return false;
    };
    let read = read_type(names, &param.of);
    (!is_array(param) && read.is_no_string()) || is_no_count(names, named, name)
}

/// Whether an identifier of this name is wrong.
fn is_wrong_iid(
    names: &Table<'_, Binding<'_>>,
    named: &Table<'_, Numbered<'_>>,
    param: &ParamDecl,
) -> bool
    ensures { result ≡ spec.is_wrong_iid (names_of names.now) (params_of named.now) param.now
        (spec.iid_name param.now) }
{
    let Some(name) = iid_name(param) else {
        return false;
    };
    let read = read_type(names, &param.of);
    read.is_no_object() || is_no_iid(names, named, name)
}

/// Whether its `size_is`, `length_is` or `iid_is` is wrong.
fn is_mismeasured(
    names: &Table<'_, Binding<'_>>,
    named: &Table<'_, Numbered<'_>>,
    param: &ParamDecl,
) -> bool
    ensures { result ≡ spec.is_mismeasured (names_of names.now) (params_of named.now) param.now }
{
    is_wrong_count(names, named, param, size_name(param))
        || is_wrong_count(names, named, param, length_name(param))
        || (length_name(param).is_some() && size_name(param).is_none())
        || is_wrong_iid(names, named, param)
}

/// Whether it is an array without a size, or of a class of strings or a reference to an identifier.
fn is_wrong_array(names: &Table<'_, Binding<'_>>, param: &ParamDecl) -> bool
    ensures { result ≡ spec.is_wrong_array (names_of names.now) param.now }
{
    let read = read_type(names, &param.of);
    is_array(param) && (size_name(param).is_none() || read.is_class() || read.is_iid_ref())
}

/// Whether it is a plain native without `iid_is`.
fn is_open_native(names: &Table<'_, Binding<'_>>, param: &ParamDecl) -> bool
    ensures { result ≡ spec.is_open_native (names_of names.now) param.now }
{
    let read = read_type(names, &param.of);
    read.is_native() && iid_name(param).is_none()
}

// ---- all parameters

/// Whether the type of one of them is a name that is not declared.
pub fn any_misnamed(names: &Table<'_, Binding<'_>>, params: &[ParamDecl]) -> bool
    ensures { result ≡ list_any (spec.is_misnamed (names_of names.now)) params.now }
{
    params.iter().any(|param| is_misnamed(names, param))
}

/// Whether one of them is of type `void`.
pub fn any_void(params: &[ParamDecl]) -> bool
    ensures { result ≡ list_any spec.is_void_param params.now }
{
    params.iter().any(|param| is_void_param(param))
}

/// Whether one of them is a reference to an identifier and not `in`, or a class of strings and
/// `inout`.
pub fn any_misdirected(names: &Table<'_, Binding<'_>>, params: &[ParamDecl]) -> bool
    ensures { result ≡ list_any (spec.is_misdirected (names_of names.now)) params.now }
{
    params.iter().any(|param| is_misdirected(names, param))
}

/// Whether the `size_is`, `length_is` or `iid_is` of one of them is wrong.
pub fn any_mismeasured(
    names: &Table<'_, Binding<'_>>,
    named: &Table<'_, Numbered<'_>>,
    params: &[ParamDecl],
) -> bool
    ensures { result ≡ list_any (spec.is_mismeasured (names_of names.now) (params_of named.now))
        params.now }
{
    params
        .iter()
        .any(|param| is_mismeasured(names, named, param))
}

/// Whether one of them is an array without a size, or of a class of strings or a reference to an
/// identifier.
pub fn any_wrong_array(names: &Table<'_, Binding<'_>>, params: &[ParamDecl]) -> bool
    ensures { result ≡ list_any (spec.is_wrong_array (names_of names.now)) params.now }
{
    params.iter().any(|param| is_wrong_array(names, param))
}

/// Whether one of them is a plain native without `iid_is`.
pub fn any_open_native(names: &Table<'_, Binding<'_>>, params: &[ParamDecl]) -> bool
    ensures { result ≡ list_any (spec.is_open_native (names_of names.now)) params.now }
{
    params.iter().any(|param| is_open_native(names, param))
}

/// Whether the direction is `out`.
fn is_out(dir: Dir) -> bool
    ensures { result ≡ spec.is_out dir }
{
    matches!(dir, Dir::Outward)
}

/// Whether a `retval` is not last or not `out`, or stands where the method gives a value.
pub fn any_wrong_retval(gives: bool, params: &[ParamDecl]) -> bool
    ensures { result ≡ spec.any_wrong_retval gives params.now }
{
    let mut rest = params;
    'turns: while let [param, more @ ..] = rest {
        if is_retval(param) && (gives || !is_out(param.dir) || !more.is_empty()) {
            return true;
        }
        rest = more;
    }
    false
}

/// Whether the next parameter is neither `optional` nor `retval`.
fn is_needed(params: &[ParamDecl]) -> bool
    ensures { result ≡ spec.is_needed params.now }
{
    match params {
        [param, ..] => !is_optional(param) && !is_retval(param),
        [] => false,
    }
}

/// Whether an `optional` parameter is followed by one that is neither `optional` nor `retval`.
pub fn any_gap(params: &[ParamDecl]) -> bool
    ensures { result ≡ spec.any_gap params.now }
{
    let mut rest = params;
    'turns: while let [param, more @ ..] = rest {
        if is_optional(param) && is_needed(more) {
            return true;
        }
        rest = more;
    }
    false
}

// ---- what is made of parameters

/// The meaning of a type; one that means nothing has a fault, and what is given makes no
/// difference.
pub fn stands_for(alloc: Global, read: Reading<'_>) -> Result<Meant, Memory>
    ensures { IfOk result (λ meant. meant ≡ scopes.stands_for (sense_of read.entry)) }
{
    match read {
        Reading::Means(lent) => lent.copied(alloc),
        _ => Ok(Meant::JsVal),
    }
}

/// The number of the parameter of this name.
fn number(named: &Table<'_, Numbered<'_>>, name: Option<&[u8]>) -> Option<u32>
    ensures { result ≡ option_and_then (numbers_of named.now)
        (option_map (λ word. word.now) name.entry) }
{
    let found = named.find(name?)?;
    Some(found.number)
}

fn made(
    alloc: Global,
    names: &Table<'_, Binding<'_>>,
    named: &Table<'_, Numbered<'_>>,
    param: &ParamDecl,
) -> Result<ScopeParam, Memory>
    ensures { IfOk result (λ made. made
        ≡ param_made (names_of names.now) (numbers_of named.now) param.now) }
{
    let read = read_type(names, &param.of);
    let attrs = param.attrs.as_slice();
    Ok(ScopeParam {
        name: Bytes::copy(alloc, param.name.as_slice())?,
        dir: param.dir,
        ty: stands_for(alloc, read)?,
        array: is_array(param),
        size: number(named, size_name(param)),
        length: number(named, length_name(param)),
        iid: number(named, iid_name(param)),
        retval: is_retval(param),
        shared: has(b"shared", attrs),
        optional: is_optional(param),
    })
}

/// What the parameters of a method declare. The one error is want of memory.
pub fn all_made(
    alloc: Global,
    names: &Table<'_, Binding<'_>>,
    named: &Table<'_, Numbered<'_>>,
    params: &[ParamDecl],
) -> Result<List<ScopeParam>, Memory>
    ensures { IfOk result (λ made. made
        ≡ params_made (names_of names.now) (numbers_of named.now) params.now) }
{
    let mut all = List::new(alloc);
    for param in params {
        all.push(made(alloc, names, named, param)?)?;
    }
    Ok(all)
}
