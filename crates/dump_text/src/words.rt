//! The words for what a typelib says by flags and tags.

ghost use Rattle.std.specs.Prelude.{◌≡◌, [], ◌∷◌, ◌++◌, IfOk, codes};
ghost use Rattle.dump_text.specs.Words as words;

use crate::lines::{Marked, marked_words};
use bitflags::Flags;
use call_model::MemberKind;
use lib_model::{Elem, IfaceFlags, MethodFlags, Param, ParamFlags, XType, tags};
use std::alloc::Global;
use xp_base::{Bytes, ConstKind, Memory, dec_text};

/// What stands between two flags of an interface or a method, and between two arguments of a type.
const COMMA: u8 = b',';

/// What stands between two flags of a parameter.
const PLUS: u8 = b'+';

/// What stands between the flags of a parameter and its type.
const COLON: u8 = b':';

/// The flags of an interface, as a word. The one error is want of memory.
pub(crate) fn iface_word(alloc: Global, flags: IfaceFlags) -> Result<Bytes, Memory>
    ensures { IfOk result (λ word. word ≡ words.iface_word flags) }
{
    let words = [
        Marked {
            set: flags.contains(IfaceFlags::SCRIPTABLE),
            word: b"scriptable",
        },
        Marked {
            set: flags.contains(IfaceFlags::FUNCTION),
            word: b"function",
        },
        Marked {
            set: flags.contains(IfaceFlags::BUILTINCLASS),
            word: b"builtinclass",
        },
    ];
    marked_words(alloc, COMMA, &words)
}

/// The flags of a method, as a word: without those that tell the kind of its slot. The one error is
/// want of memory.
pub(crate) fn method_word(alloc: Global, flags: MethodFlags) -> Result<Bytes, Memory>
    ensures { IfOk result (λ word. word ≡ words.method_word flags) }
{
    let words = [
        Marked {
            set: flags.contains(MethodFlags::NOTXPCOM),
            word: b"notxpcom",
        },
        Marked {
            set: flags.contains(MethodFlags::CONSTRUCTOR),
            word: b"constructor",
        },
        Marked {
            set: flags.contains(MethodFlags::HIDDEN),
            word: b"hidden",
        },
        Marked {
            set: flags.contains(MethodFlags::OPTIONAL_ARGC),
            word: b"optional_argc",
        },
        Marked {
            set: flags.contains(MethodFlags::IMPLICIT_JSCONTEXT),
            word: b"implicit_jscontext",
        },
    ];
    marked_words(alloc, COMMA, &words)
}

/// The flags of a parameter, as a word. The one error is want of memory.
fn direction_word(alloc: Global, flags: ParamFlags) -> Result<Bytes, Memory>
    ensures { IfOk result (λ word. word ≡ words.direction_word flags) }
{
    let words = [
        Marked {
            set: flags.contains(ParamFlags::IN),
            word: b"in",
        },
        Marked {
            set: flags.contains(ParamFlags::OUT),
            word: b"out",
        },
        Marked {
            set: flags.contains(ParamFlags::RETVAL),
            word: b"retval",
        },
        Marked {
            set: flags.contains(ParamFlags::SHARED),
            word: b"shared",
        },
        Marked {
            set: flags.contains(ParamFlags::DIPPER),
            word: b"dipper",
        },
        Marked {
            set: flags.contains(ParamFlags::OPTIONAL),
            word: b"optional",
        },
    ];
    marked_words(alloc, PLUS, &words)
}

/// What the slot of a member is, as a word.
pub(crate) fn kind_word(kind: MemberKind) -> &'static [u8]
    ensures { result.now ≡ words.kind_word kind }
{
    match kind {
        MemberKind::Plain => b"method",
        MemberKind::Get => b"get",
        MemberKind::Set => b"set",
    }
}

/// The type of a constant, as a word.
pub(crate) fn const_word(kind: ConstKind) -> &'static [u8]
    ensures { result.now ≡ words.const_word kind }
{
    match kind {
        ConstKind::I16 => b"int16",
        ConstKind::U16 => b"uint16",
        ConstKind::I32 => b"int32",
        ConstKind::U32 => b"uint32",
    }
}

/// The word of a tag; no word for a number that is no tag.
pub(crate) fn tag_word(tag: u8) -> &'static [u8]
    ensures { result.now ≡ words.tag_word tag }
{
    match tag {
        tags::INT8 => b"int8",
        tags::INT16 => b"int16",
        tags::INT32 => b"int32",
        tags::INT64 => b"int64",
        tags::UINT8 => b"uint8",
        tags::UINT16 => b"uint16",
        tags::UINT32 => b"uint32",
        tags::UINT64 => b"uint64",
        tags::FLOAT => b"float",
        tags::DOUBLE => b"double",
        tags::BOOLEAN => b"boolean",
        tags::CHAR => b"char",
        tags::WCHAR => b"wchar",
        tags::VOID => b"void",
        tags::NSID => b"nsid",
        tags::DOMSTRING => b"domstring",
        tags::STRING => b"string",
        tags::WSTRING => b"wstring",
        tags::INTERFACE => b"interface",
        tags::INTERFACE_IS => b"iid_is",
        tags::ARRAY => b"array",
        tags::SIZED_STRING => b"sized_string",
        tags::SIZED_WSTRING => b"sized_wstring",
        tags::UTF8STRING => b"utf8string",
        tags::CSTRING => b"cstring",
        tags::ASTRING => b"astring",
        tags::JSVAL => b"jsval",
        _ => b"",
    }
}

/// The word of a tag, and in parentheses a number and other words that tell more of the type. The
/// one error is want of memory.
fn applied(alloc: Global, tag: u8, first: u16, others: &[Bytes]) -> Result<Bytes, Memory>
    ensures { IfOk result (λ word. word
        ≡ words.applied (words.tag_word tag) (words.number first ∷ others.now)) }
{
    let mut word = Bytes::copy(alloc, tag_word(tag))?;
    word.append(b"(")?;
    word.append(dec_text(alloc, i128::from(first))?.as_slice())?;
    for other in others {
        word.append(&[COMMA])?;
        word.append(other.as_slice())?;
    }
    word.append(b")")?;
    Ok(word)
}

/// The type of an element, as a word. The one error is want of memory.
fn elem_word(alloc: Global, elem: Elem) -> Result<Bytes, Memory>
    ensures { IfOk result (λ word. word ≡ words.elem_word elem) }
{
    match elem {
        Elem::Plain(tag) => Bytes::copy(alloc, tag_word(tag)),
        Elem::Iface(iface) => applied(alloc, tags::INTERFACE, iface, &[]),
        Elem::IidIs(param) => applied(alloc, tags::INTERFACE_IS, u16::from(param), &[]),
    }
}

/// The type of a parameter, as a word. The one error is want of memory.
fn type_word(alloc: Global, ty: XType) -> Result<Bytes, Memory>
    ensures { IfOk result (λ word. word ≡ words.type_word ty) }
{
    let number = |number: u8| dec_text(alloc, i128::from(number));
    match ty {
        XType::Plain(tag) => Bytes::copy(alloc, tag_word(tag)),
        XType::Iface(iface) => applied(alloc, tags::INTERFACE, iface, &[]),
        XType::IidIs(param) => applied(alloc, tags::INTERFACE_IS, u16::from(param), &[]),
        XType::Array { size, len, elem } => {
            let others = [number(len)?, elem_word(alloc, elem)?];
            applied(alloc, tags::ARRAY, u16::from(size), &others)
        }
        XType::SizedString { size, len } => {
            applied(alloc, tags::SIZED_STRING, u16::from(size), &[number(len)?])
        }
        XType::SizedWString { size, len } => {
            applied(alloc, tags::SIZED_WSTRING, u16::from(size), &[number(len)?])
        }
    }
}

/// A parameter, as a word: its flags and its type. The one error is want of memory.
pub(crate) fn param_word(alloc: Global, param: Param) -> Result<Bytes, Memory>
    ensures { IfOk result (λ word. word ≡ words.param_word param) }
{
    let mut word = direction_word(alloc, param.flags)?;
    word.append(&[COLON])?;
    word.append(type_word(alloc, param.ty)?.as_slice())?;
    Ok(word)
}
