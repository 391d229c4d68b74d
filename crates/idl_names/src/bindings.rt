//! What names are bound to, as the code keeps it: by numbers, and by texts that the files lend.

ghost use Rattle.std.specs.Prelude.{◌≡◌, IfOk, option_map};
ghost use Rattle.idl_meaning.specs.Meaning as spec;
ghost use Rattle.idl_meaning.specs.Constants.{is_const_type, kind_by};
ghost use Rattle.idl_names.specs.Bindings.{bound_of, meant_of, names_of, sense_of};

use crate::attributes::{has, is_plain};
use crate::table::Table;
use idl_grammar::{Attr, TypeName};
use idl_meaning::Meant;
use std::alloc::Global;
use xp_base::{Bytes, ConstKind, Memory};

/// What a type means; `Meant`, with its text lent.
#[derive(Clone, Copy)]
pub enum Lent<'a> {
    Basic(u8),
    Iface(u32),
    NsidRef,
    NsidPtr,
    StringClass(u8),
    JsVal,
    Native(&'a [u8]),
}

impl Lent<'_> {
    /// The same, with a copy of its text. The one error is want of memory.
    pub fn copied(&self, alloc: Global) -> Result<Meant, Memory>
        ensures { IfOk result (λ meant. meant ≡ meant_of self.now) }
    {
        Ok(match self {
            Lent::Basic(tag) => Meant::Basic(*tag),
            Lent::Iface(number) => Meant::Iface(*number),
            Lent::NsidRef => Meant::NsidRef,
            Lent::NsidPtr => Meant::NsidPtr,
            Lent::StringClass(tag) => Meant::StringClass(*tag),
            Lent::JsVal => Meant::JsVal,
            Lent::Native(name) => Meant::Native(Bytes::copy(alloc, name)?),
        })
    }
}

/// What the name of a type is bound to.
#[derive(Clone, Copy)]
pub enum Binding<'a> {
    /// A typedef or a native.
    Typed(Lent<'a>),
    /// An interface that is only named so far, by its number.
    Forward(u32),
    /// An interface that is defined, with the number of those that were defined before it.
    Defined { number: u32, rank: usize },
}

/// What a type is at a place.
#[derive(Clone, Copy)]
pub enum Reading<'a> {
    /// A name that is not declared.
    Unknown,
    /// `void`.
    Nothing,
    /// A type with a meaning.
    Means(Lent<'a>),
}

impl Reading<'_> {
    /// Whether it is a name that is not declared.
    pub fn is_unknown(&self) -> bool
        ensures { result ≡ spec.is_unknown (sense_of self.now) }
    {
        matches!(self, Reading::Unknown)
    }

    /// Whether it is known, and no integer.
    pub fn is_no_integer(&self) -> bool
        ensures { result ≡ spec.is_no spec.is_integer (sense_of self.now) }
    {
        match self {
            Reading::Unknown => false,
            Reading::Means(Lent::Basic(tag)) => !(1 <= *tag && *tag <= 7),
            _ => true,
        }
    }

    /// Whether it is known, and neither `string` nor `wstring`.
    pub fn is_no_string(&self) -> bool
        ensures { result ≡ spec.is_no spec.is_string (sense_of self.now) }
    {
        match self {
            Reading::Unknown => false,
            Reading::Means(Lent::Basic(tag)) => !(*tag == 16 || *tag == 17),
            _ => true,
        }
    }

    /// Whether it is known, and neither a reference nor a pointer to an identifier.
    pub fn is_no_iid(&self) -> bool
        ensures { result ≡ spec.is_no spec.is_iid (sense_of self.now) }
    {
        !matches!(
            self,
            Reading::Unknown | Reading::Means(Lent::NsidRef) | Reading::Means(Lent::NsidPtr)
        )
    }

    /// Whether it is known, and neither a plain native nor an interface.
    pub fn is_no_object(&self) -> bool
        ensures { result ≡ spec.is_no spec.is_object (sense_of self.now) }
    {
        !matches!(
            self,
            Reading::Unknown | Reading::Means(Lent::Native(_)) | Reading::Means(Lent::Iface(_))
        )
    }

    /// Whether it is known, and no constant can have it.
    pub fn is_no_const_type(&self) -> bool
        ensures { result ≡ spec.is_no is_const_type (sense_of self.now) }
    {
        !matches!(self, Reading::Unknown) && self.kind().is_none()
    }

    /// The kind of a constant of this type, where one can have it.
    pub fn kind(&self) -> Option<ConstKind>
        ensures { result ≡ kind_by (sense_of self.now) }
    {
        match self {
            Reading::Means(Lent::Basic(1)) => Some(ConstKind::I16),
            Reading::Means(Lent::Basic(5)) => Some(ConstKind::U16),
            Reading::Means(Lent::Basic(2)) => Some(ConstKind::I32),
            Reading::Means(Lent::Basic(6)) => Some(ConstKind::U32),
            _ => None,
        }
    }

    /// Whether it is a reference to an identifier.
    pub fn is_iid_ref(&self) -> bool
        ensures { result ≡ spec.is_a spec.is_iid_ref (sense_of self.now) }
    {
        matches!(self, Reading::Means(Lent::NsidRef))
    }

    /// Whether it is a class of strings.
    pub fn is_class(&self) -> bool
        ensures { result ≡ spec.is_a spec.is_class (sense_of self.now) }
    {
        matches!(self, Reading::Means(Lent::StringClass(_)))
    }

    /// Whether it is a plain native.
    pub fn is_native(&self) -> bool
        ensures { result ≡ spec.is_a spec.is_native (sense_of self.now) }
    {
        matches!(self, Reading::Means(Lent::Native(_)))
    }
}

/// What a declared name means as a type.
fn meaning(binding: Binding<'_>) -> Lent<'_>
    ensures { meant_of result ≡ spec.meaning_of (bound_of binding.entry) }
{
    match binding {
        Binding::Typed(lent) => lent,
        Binding::Forward(number) => Lent::Iface(number),
        Binding::Defined { number, .. } => Lent::Iface(number),
    }
}

/// What a name means as a type.
fn named<'a>(names: &Table<'a, Binding<'a>>, name: &[u8]) -> Reading<'a>
    ensures { sense_of result ≡ spec.bound_sense (names_of names.now name.now) }
{
    match names.find(name) {
        Some(binding) => Reading::Means(meaning(binding)),
        None => Reading::Unknown,
    }
}

/// What a type means, among the names that are known.
pub fn read_type<'a>(names: &Table<'a, Binding<'a>>, of: &TypeName) -> Reading<'a>
    ensures { sense_of result ≡ spec.sense (names_of names.now) of.now }
{
    let tag = match of {
        TypeName::Void => return Reading::Nothing,
        TypeName::Named(name) => return named(names, name.as_slice()),
        TypeName::Boolean => 10,
        TypeName::Octet => 4,
        TypeName::Short => 1,
        TypeName::Long => 2,
        TypeName::LongLong => 3,
        TypeName::UShort => 5,
        TypeName::ULong => 6,
        TypeName::ULongLong => 7,
        TypeName::Float => 8,
        TypeName::Double => 9,
        TypeName::Char => 11,
        TypeName::WChar => 12,
        TypeName::CString => 16,
        TypeName::WString => 17,
    };
    Reading::Means(Lent::Basic(tag))
}

/// What a native with `nsid` means.
fn nsid<'a>(name: &'a [u8], attrs: &[Attr]) -> Lent<'a>
    ensures { meant_of result ≡ spec.nsid_meaning name.now attrs.now }
{
    if has(b"ref", attrs) {
        Lent::NsidRef
    } else if has(b"ptr", attrs) {
        Lent::NsidPtr
    } else {
        Lent::Native(name)
    }
}

/// What an attribute says that a native is, where `nsid` says this.
fn said_by<'a>(nsid: Lent<'a>, attr: &Attr) -> Option<Lent<'a>>
    ensures { option_map meant_of result ≡ spec.said_by (meant_of nsid.entry) attr.now }
{
    if is_plain(b"nsid", attr) {
        Some(nsid)
    } else if is_plain(b"domstring", attr) {
        Some(Lent::StringClass(15))
    } else if is_plain(b"utf8string", attr) {
        Some(Lent::StringClass(23))
    } else if is_plain(b"cstring", attr) {
        Some(Lent::StringClass(24))
    } else if is_plain(b"astring", attr) {
        Some(Lent::StringClass(25))
    } else if is_plain(b"jsval", attr) {
        Some(Lent::JsVal)
    } else {
        None
    }
}

/// What a native means: what the first of its attributes says that says what it is, else a plain
/// native.
pub fn native<'a>(name: &'a [u8], attrs: &[Attr]) -> Lent<'a>
    ensures { meant_of result ≡ spec.native_meaning name.now attrs.now }
{
    let nsid = nsid(name, attrs);
    for attr in attrs {
        if let Some(lent) = said_by(nsid, attr) {
            return lent;
        }
    }
    Lent::Native(name)
}
