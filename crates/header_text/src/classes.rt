//! The classes of a header.

ghost use Rattle.std.specs.Prelude.{◌≡◌, ◌<◌, ◌≤◌, ◌++◌, All, IfOk, IsErrOf, OnOk, length};
ghost use Rattle.vtable_layout.specs.Layout.{AreSlotsOf};
ghost use Rattle.header_text.specs.Header as header;
ghost use Rattle.header_text.specs.Parts.{class_text, classes_text};

use crate::errors::HeaderWriteError;
use crate::lengths::within;
use crate::members::{push_line, push_members};
use crate::types::name_at;
use header_model::MAX_HEADER;
use idl_meaning::ScopeIface;
use std::alloc::Global;
use vtable_layout::Slots;
use xp_base::{Bytes, List, Memory};

/// The first line of a class.
fn class_line(
    alloc: Global,
    ifaces: &List<ScopeIface>,
    name: &[u8],
    parent: Option<u32>,
) -> Result<Bytes, Memory>
    ensures { IfOk result (λ line. line ≡ header.class_line ifaces.now name.now parent) }
{
    let mut line = Bytes::copy(alloc, b"class ")?;
    line.append(name)?;
    match parent {
        None => {
            line.append(b" {")?;
            Ok(line)
        }
        Some(parent) => {
            line.append(b" : public ")?;
            line.append(name_at(ifaces, parent))?;
            line.append(b" {")?;
            Ok(line)
        }
    }
}

/// Adds the class of the interface of this number.
fn push_class(
    alloc: Global,
    text: &mut Bytes,
    ifaces: &List<ScopeIface>,
    slots: &Slots,
    number: u32,
) -> Result<(), Memory>
    requires within { number < length ifaces.now }
    requires slots { AreSlotsOf ifaces.now slots.now }
    ensures { OnOk result (text.new ≡ text.old ++ class_text ifaces.now number) }
{
    let iface = &ifaces.as_slice()[number as usize];
    let first = slots.first.as_slice()[number as usize];
    push_line(
        text,
        class_line(alloc, ifaces, iface.name.as_slice(), iface.parent)?,
    )?;
    text.append(b" public:\n")?;
    push_members(alloc, text, ifaces, first, iface.members.as_slice())?;
    text.append(b"};\n")
}

/// Adds the classes of the interfaces of these numbers. A text of more than `MAX_HEADER` bytes gets
/// `TooLong`; the other error is want of memory.
pub(crate) fn push_classes(
    alloc: Global,
    text: &mut Bytes,
    ifaces: &List<ScopeIface>,
    slots: &Slots,
    order: &[u32],
) -> Result<(), HeaderWriteError>
    requires within { All (λ number. number < length ifaces.now) order.now }
    requires slots { AreSlotsOf ifaces.now slots.now }
    requires short { length text.old ≤ MAX_HEADER }
    ensures text { OnOk result (text.new ≡ text.old ++ classes_text ifaces.now order.now) }
    ensures fits { OnOk result (length text.new ≤ MAX_HEADER) }
    ensures too_long { IsErrOf result HeaderWriteError.TooLong
        → MAX_HEADER < length (text.old ++ classes_text ifaces.now order.now) }
{
    for number in order {
        push_class(alloc, text, ifaces, slots, *number)?;
        within(text)?;
    }
    Ok(())
}
