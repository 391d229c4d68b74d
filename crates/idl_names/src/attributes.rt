//! What attributes say.

ghost use Rattle.std.specs.Prelude.{◌≡◌, option_map, codes};
ghost use Rattle.idl_meaning.specs.Attributes as spec;
ghost use Rattle.uuid.specs.Text.{parsed};

use idl_grammar::{Attr, AttrValue};
use uuid::Uuid;

/// Whether the attribute is this name, without parentheses.
pub fn is_plain(name: &[u8], attr: &Attr) -> bool
    ensures { result ≡ spec.is_plain name.now attr.now }
{
    attr.name.as_slice() == name && matches!(attr.value, AttrValue::Absent)
}

/// Whether this name, without parentheses, is among the attributes.
pub fn has(name: &[u8], attrs: &[Attr]) -> bool
    ensures { result ≡ spec.has name.now attrs.now }
{
    attrs.iter().any(|attr| is_plain(name, attr))
}

/// The word in the parentheses of an attribute of this name.
fn given_word<'a>(name: &[u8], attr: &'a Attr) -> Option<&'a [u8]>
    ensures { option_map (λ word. word.now) result ≡ spec.given spec.word_in name.now attr.now }
{
    match &attr.value {
        AttrValue::Word(word) if attr.name.as_slice() == name => Some(word.as_slice()),
        _ => None,
    }
}

/// The word that the first attribute of this name with a word gives.
pub fn word_of<'a>(name: &[u8], attrs: &'a [Attr]) -> Option<&'a [u8]>
    ensures { option_map (λ word. word.now) result ≡ spec.word_of name.now attrs.now }
{
    for attr in attrs {
        if let Some(word) = given_word(name, attr) {
            return Some(word);
        }
    }
    None
}

/// The bytes of an identifier, from its text.
fn iid_bytes(text: &[u8]) -> Option<[u8; 16]>
    ensures { result ≡ parsed text.now }
{
    match Uuid::try_parse_ascii(text) {
        Ok(iid) => Some(iid.into_bytes()),
        Err(_) => None,
    }
}

/// The identifier that an attribute gives.
fn given_iid(attr: &Attr) -> Option<[u8; 16]>
    ensures { result ≡ spec.given spec.iid_in (codes "uuid") attr.now }
{
    match &attr.value {
        AttrValue::Iid(text) if attr.name.as_slice() == b"uuid".as_slice() => {
            iid_bytes(text.as_slice())
        }
        _ => None,
    }
}

/// The identifier of an interface, by the first `uuid` that has one.
pub fn uuid_of(attrs: &[Attr]) -> Option<[u8; 16]>
    ensures { result ≡ spec.uuid_of attrs.now }
{
    for attr in attrs {
        if let Some(iid) = given_iid(attr) {
            return Some(iid);
        }
    }
    None
}

/// The bit, where the attribute is there.
fn bit(bit: u8, name: &[u8], attrs: &[Attr]) -> u8
    ensures { result ≡ spec.bit bit (spec.has name.now attrs.now) }
{
    if has(name, attrs) { bit } else { 0 }
}

/// The bits of an interface in a typelib.
pub fn iface_bits(attrs: &[Attr]) -> u8
    ensures { result ≡ spec.iface_bits attrs.now }
{
    bit(0x80, b"scriptable", attrs)
        + bit(0x40, b"function", attrs)
        + bit(0x20, b"builtinclass", attrs)
}
