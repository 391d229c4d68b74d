//! Where the arguments of declared functions are passed, as a text.

ghost use Rattle.std.specs.Prelude.{◌≡◌, ◌+◌, ◌≤◌, ℕ, List as Values, [], ◌∷◌, ◌++◌, All, IfOk, OnOk, codes, length};
ghost use Rattle.std.specs.Fmt.{decimal};
ghost use Rattle.std.specs.List.{enumerate_from, flat_map};
ghost use Rattle.call_model.specs.declared.ctypes.CType.TheVariants.{Ptr};
ghost use Rattle.header_model.specs.Declares.{Declares};
ghost use Rattle.header_model.specs.declared.limits.TheConstants.{MAX_ARGUMENTS};
ghost use Rattle.header_text.specs.Header.{ended};
ghost use Rattle.header_text.specs.Placeable.{IsNarrow, IsPlaceable};
ghost use Rattle.header_text.specs.PlacesText.{decl_text, place_word, place_words, places_text, slot_places, slot_words};

use call_model::{CType, Conv, Convention, Loc};
use header_model::{Decl, DeclSlot};
use std::alloc::Global;
use xp_base::{Bytes, List, Memory, dec_text};

/// Where a convention passes the arguments of each function of some classes.
///
/// A class has a line with its name, `class NAME`, and then a line for each of its own slots:
/// `slot NUMBER NAME PLACE ..`, or `slot NUMBER -` for a reserved one. The first place is that of
/// the object. A place is `gN` or `fN`, the general or the float register of that number, or `sN`,
/// byte N of the stack.
///
/// The classes are those that some text declares.
pub fn places(alloc: Global, conv: Conv, decls: &List<Decl>) -> Result<Bytes, Memory>
    requires { (text : Values ℕ) × Declares text decls.now }
    ensures { IfOk result (λ text. text ≡ places_text conv decls.now) }
{
    let decls = decls.as_slice();
    match conv {
        Conv::SysV64 => places_by::<sysv_x86_64::Walk>(alloc, decls),
        Conv::I386 => places_by::<cdecl_i386::Walk>(alloc, decls),
        Conv::Aapcs64 => places_by::<aapcs64::Walk>(alloc, decls),
        Conv::Ms64 => places_by::<ms_x64::Walk>(alloc, decls),
        Conv::Aapcs32 => places_by::<aapcs32::Walk>(alloc, decls),
    }
}

/// The places under the convention of a walk.
#[tactic(auto, unfolding(crate::specs::PlacesText::places_text))]
fn places_by<C: Convention>(alloc: Global, decls: &[Decl]) -> Result<Bytes, Memory>
    requires { All IsPlaceable decls.now }
    ensures { IfOk result (λ text. text ≡ places_text C.CONV decls.now) }
{
    let mut text = Bytes::new(alloc);
    for decl in decls {
        push_decl::<C>(alloc, &mut text, decl)?;
    }
    Ok(text)
}

/// Adds the lines of a class.
#[tactic(auto, unfolding(crate::specs::PlacesText::decl_text))]
fn push_decl<C: Convention>(alloc: Global, text: &mut Bytes, decl: &Decl) -> Result<(), Memory>
    requires { IsPlaceable decl.now }
    ensures { OnOk result (text.new ≡ text.old ++ decl_text C.CONV decl.now) }
{
    let mut lines = class_line(alloc, decl.name.as_slice())?;
    push_slots::<C>(alloc, &mut lines, decl.first, decl.slots.as_slice())?;
    text.append(lines.as_slice())
}

/// The line with the name of a class.
fn class_line(alloc: Global, name: &[u8]) -> Result<Bytes, Memory>
    ensures { IfOk result (λ line. line ≡ ended (codes "class " ++ name.now)) }
{
    let mut line = Bytes::copy(alloc, b"class ")?;
    line.append(name)?;
    line.append(b"\n")?;
    Ok(line)
}

/// Adds a line for each slot, numbered from `first` on.
fn push_slots<C: Convention>(
    alloc: Global,
    text: &mut Bytes,
    first: u16,
    slots: &[DeclSlot],
) -> Result<(), Memory>
    requires room { first + length slots.now ≤ 250 }
    requires narrow { All IsNarrow slots.now }
    ensures { OnOk result (text.new ≡ text.old
        ++ flat_map (λ s. ended (slot_places C.CONV s)) (enumerate_from first slots.now)) }
{
    let mut number = first;
    for slot in slots {
        let line = slot_line::<C>(alloc, number, slot)?;
        text.append(line.as_slice())?;
        number += 1;
    }
    Ok(())
}

/// The line of a slot.
fn slot_line<C: Convention>(alloc: Global, number: u16, slot: &DeclSlot) -> Result<Bytes, Memory>
    requires { IsNarrow slot.now }
    ensures { IfOk result (λ line. line ≡ ended (slot_places C.CONV (number, slot.now))) }
{
    let words = slot_words::<C>(alloc, slot)?;
    let mut line = numbered(alloc, b"slot ", u32::from(number))?;
    line.append(b" ")?;
    line.append(words.as_slice())?;
    line.append(b"\n")?;
    Ok(line)
}

/// The name of a function and its places, and `-` for a reserved slot.
fn slot_words<C: Convention>(alloc: Global, slot: &DeclSlot) -> Result<Bytes, Memory>
    requires { IsNarrow slot.now }
    ensures { IfOk result (λ words. words ≡ slot_words C.CONV slot.now) }
{
    match slot {
        DeclSlot::Reserved => Bytes::copy(alloc, b"-"),
        DeclSlot::Method { name, types } => method_words::<C>(alloc, name, types),
    }
}

/// The name of a function and its places.
fn method_words<C: Convention>(
    alloc: Global,
    name: &Bytes,
    types: &List<CType>,
) -> Result<Bytes, Memory>
    requires { length types.now ≤ MAX_ARGUMENTS }
    ensures { IfOk result (λ words. words ≡ name.now ++ place_words C.CONV [] (Ptr ∷ types.now)) }
{
    let mut words = Bytes::copy(alloc, name.as_slice())?;
    push_places::<C>(alloc, &mut words, types.as_slice())?;
    Ok(words)
}

/// Adds the place of the object, and those of arguments of these types behind it.
fn push_places<C: Convention>(
    alloc: Global,
    text: &mut Bytes,
    types: &[CType],
) -> Result<(), Memory>
    requires { length types.now ≤ MAX_ARGUMENTS }
    ensures { OnOk result (text.new ≡ text.old ++ place_words C.CONV [] (Ptr ∷ types.now)) }
{
    let mut walk = C::begin();
    let object = place_word(alloc, walk.next(CType::Ptr))?;
    text.append(object.as_slice())?;
    for ty in types {
        let word = place_word(alloc, walk.next(*ty))?;
        text.append(word.as_slice())?;
    }
    Ok(())
}

/// A place, behind a space.
fn place_word(alloc: Global, at: Loc) -> Result<Bytes, Memory>
    ensures { IfOk result (λ word. word ≡ codes " " ++ place_word at) }
{
    match at {
        Loc::Gpr(number) => numbered(alloc, b" g", u32::from(number)),
        Loc::Fpr(number) => numbered(alloc, b" f", u32::from(number)),
        Loc::Stack(byte) => numbered(alloc, b" s", byte),
    }
}

/// A text with a number in decimal behind it.
fn numbered(alloc: Global, text: &[u8], number: u32) -> Result<Bytes, Memory>
    ensures { IfOk result (λ words. words ≡ text.now ++ decimal number) }
{
    let mut words = Bytes::copy(alloc, text)?;
    words.append(dec_text(alloc, i128::from(number))?.as_slice())?;
    Ok(words)
}
