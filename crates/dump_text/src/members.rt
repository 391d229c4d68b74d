//! The lines of a listing.

ghost use Rattle.std.specs.Prelude.{◌≡◌, ◌++◌, IfOk, OnOk, Some};
ghost use Rattle.lib_model.specs.declared.contents.Iface.{Iface};
ghost use Rattle.descriptor_reader.specs.Views.{iface_of};
ghost use Rattle.dump_text.specs.Listing as listing;
ghost use Rattle.dump_text.specs.Lines.{spaced};

use crate::lines::Line;
use crate::words::{const_word, iface_word, kind_word, method_word, param_word};
use descriptor_reader::{ConstView, IfaceView, MethodView};
use std::alloc::Global;
use uuid::Uuid;
use xp_base::{Bytes, Memory};

/// The first line: the version of the format, and the number of interfaces. The one error is want
/// of memory.
#[tactic(auto, unfolding(crate::specs::Listing::heading))]
pub(crate) fn heading(alloc: Global, count: u16) -> Result<Bytes, Memory>
    ensures { IfOk result (λ line. line ≡ listing.heading count) }
{
    let mut line = Line::new(alloc, b"typelib")?;
    line.word(b"1.2")?;
    line.number(count)?;
    line.ended()
}

/// Adds what is said of the body of an interface: its parent, its slots and its flags, or that it
/// is not resolved. The one error is want of memory.
fn push_body(alloc: Global, line: &mut Line, iface: &IfaceView<'_>) -> Result<(), Memory>
    ensures { (i : Iface) → iface_of iface.now ≡ Some i → OnOk result (line.new ≡ line.old
        ++ spaced (listing.body_words iface.now.library iface.now.number i.body)) }
{
    if !iface.resolved() {
        return line.word(b"unresolved");
    }
    line.word(b"parent")?;
    line.number(iface.parent())?;
    line.word(b"slots")?;
    line.number(iface.first_slot())?;
    line.number(iface.end_slot())?;
    line.word(b"flags")?;
    line.word(iface_word(alloc, iface.flags())?.as_slice())
}

/// The line of an interface of this number. The one error is want of memory.
pub(crate) fn iface_line(alloc: Global, number: u16, iface: &IfaceView<'_>) -> Result<Bytes, Memory>
    requires { number ≡ iface.now.number }
    ensures { (i : Iface) → iface_of iface.now ≡ Some i → IfOk result
        (λ line. line ≡ listing.iface_line iface.now.library number i) }
{
    let mut line = Line::new(alloc, b"interface")?;
    line.number(number)?;
    line.name(iface.name())?;
    let mut buffer = Uuid::encode_buffer();
    let iid = Uuid::from_bytes(iface.iid()).hyphenated();
    line.word(iid.encode_lower(&mut buffer).as_bytes())?;
    push_body(alloc, &mut line, iface)?;
    line.ended()
}

/// The line of a method: its slot, its kind, its name, its flags, and its parameters. The one error
/// is want of memory.
pub(crate) fn method_line(alloc: Global, method: &MethodView<'_>) -> Result<Bytes, Memory>
    ensures { IfOk result
        (λ line. line ≡ listing.method_line method.now.slot method.now.method) }
{
    let mut line = Line::new(alloc, b"slot")?;
    line.number(method.slot())?;
    line.word(kind_word(method.kind()))?;
    line.name(method.name())?;
    line.word(method_word(alloc, method.flags())?.as_slice())?;
    for param in method.params() {
        line.word(param_word(alloc, param)?.as_slice())?;
    }
    line.ended()
}

/// The line of a constant: its name, its type and its value. The one error is want of memory.
pub(crate) fn constant_line(alloc: Global, constant: &ConstView<'_>) -> Result<Bytes, Memory>
    ensures { IfOk result (λ line. line ≡ listing.constant_line constant.now) }
{
    let mut line = Line::new(alloc, b"const")?;
    line.name(constant.name())?;
    line.word(const_word(constant.kind()))?;
    line.value(constant.value())?;
    line.ended()
}
