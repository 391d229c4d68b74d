ghost use Rattle.std.specs.Prelude.{◌≡◌, ◌+◌, MatchOption, None, false, true};
ghost use Rattle.lib_model.specs.Denotes.{value_len};
ghost use Rattle.typelib_faults.specs.Faults.{Gives, constant_fault, constant_next, is_kind_tag, past};
ghost use Rattle.typelib_faults.specs.Places.{kind_at, kind_by_tag};
ghost use Rattle.typelib_faults.specs.Walk.{reach, walk};

use crate::fields::{half, word};
use crate::file::File;
use crate::items::count_item;
use crate::names::name;
use crate::type_forms::{TAG_COUNT, bad_tag, tag};
use lib_model::tags;
use typelib_faults::{BadTypelib, Cursor};
use xp_base::ConstKind;

/// The kind of constant that has this tag.
fn kind_of_tag(tag: u8) -> Option<ConstKind>
    ensures { MatchOption result (is_kind_tag tag ≡ false)
        (λ kind. (is_kind_tag tag ≡ true) × (kind ≡ kind_by_tag tag)) }
{
    match tag {
        tags::INT16 => Some(ConstKind::I16),
        tags::INT32 => Some(ConstKind::I32),
        tags::UINT16 => Some(ConstKind::U16),
        tags::UINT32 => Some(ConstKind::U32),
        _ => None,
    }
}

/// The end of a value of this kind that begins at `place`.
fn value_end(file: &File<'_>, kind: ConstKind, place: usize) -> Result<usize, BadTypelib>
    ensures { Gives (λ v. v) result (past file.now.bytes.now place (value_len kind))
        (place + value_len kind) }
{
    match kind {
        ConstKind::I16 | ConstKind::U16 => {
            half(file, place)?;
            Ok(place + 2)
        }
        ConstKind::I32 | ConstKind::U32 => {
            word(file, place)?;
            Ok(place + 4)
        }
    }
}

/// The cursor behind the constant at a cursor.
#[tactic(auto, unfolding(typelib_faults::specs::Faults::constant_fault, typelib_faults::specs::Places::constant_end))]
pub fn constant(file: &File<'_>, at: Cursor) -> Result<Cursor, BadTypelib>
    ensures { Gives (λ v. v) result (constant_fault file.now.bytes.now at)
        (constant_next file.now.bytes.now at) }
{
    count_item(at)?;
    word(file, at.place)?;
    name(file, at.place)?;
    let tag = tag(file, at.place + 4)?;
    match kind_of_tag(tag) {
        Some(kind) => {
            let end = value_end(file, kind, at.place + 5)?;
            Ok(Cursor {
                place: end,
                items: at.items + 1,
            })
        }
        None => Err(bad_tag(at.place + 4)),
    }
}

/// The cursor behind so many constants, which begin at a cursor.
pub fn constants(file: &File<'_>, from: Cursor, count: u16) -> Result<Cursor, BadTypelib>
    ensures { Gives (λ v. v) result
        (walk (constant_fault file.now.bytes.now) (constant_next file.now.bytes.now) from count)
        (reach (constant_next file.now.bytes.now) from count) }
{
    let mut at = from;
    for _ in 0..count {
        let next = constant(file, at)?;
        at = next;
    }
    Ok(at)
}

/// The type of the value of the constant at a cursor, which has no fault.
#[tactic(auto, using(crate::proofs::PartLaws::constant_inside, crate::proofs::PartLaws::constant_kind))]
pub fn known_kind(file: &File<'_>, at: Cursor) -> ConstKind
    requires { constant_fault file.now.bytes.now at ≡ None }
    ensures { result ≡ kind_at file.now.bytes.now (at.place + 4) }
{
    let tag = file.bytes[at.place + 4] % TAG_COUNT;
    match kind_of_tag(tag) {
        Some(kind) => kind,
        None => unreachable!(),
    }
}
