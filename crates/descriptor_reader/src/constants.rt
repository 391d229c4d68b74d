ghost use Rattle.std.specs.Prelude.{◌≡◌, ◌+◌, ◌≤◌, IfSome, None, length, option_map, slice_get};
ghost use Rattle.lib_model.specs.declared.contents.Constant.{Constant};
ghost use Rattle.lib_model.specs.Denotes.{value_at, value_len};
ghost use Rattle.typelib_faults.specs.declared.cursor.Cursor.{Cursor};
ghost use Rattle.typelib_faults.specs.Faults.{constant_fault};
ghost use Rattle.typelib_faults.specs.Places.{constant_at};
ghost use Rattle.typelib_check.specs.Parts.{AreFineConstants, constants_of};

use typelib_check::constants::known_kind;
use typelib_check::lengths::constant_behind;
use typelib_check::numbers::{half, word};
use typelib_check::{Constants, File};
use typelib_faults::Cursor;
use xp_base::ConstKind;

/// The cursor of the constant of this number among these constants, counted from 0; None where
/// there are not as many.
pub(crate) fn constant_by_number(
    file: &File<'_>,
    constants: Constants,
    number: u16,
) -> Option<Cursor>
    requires { AreFineConstants file.now.bytes.now constants }
    ensures constant { option_map (λ (c : Cursor). constant_at file.now.bytes.now c.place) result
        ≡ slice_get (constants_of file.now.bytes.now constants) number }
    ensures fine { IfSome result (λ c. constant_fault file.now.bytes.now c ≡ None) }
{
    if number >= constants.count {
        return None;
    }
    let mut at = constants.from;
    for _ in 0..number {
        at = constant_behind(file, at);
    }
    Some(at)
}

/// The value of this kind that begins at `place`.
fn value_of_kind(bytes: &[u8], kind: ConstKind, place: usize) -> i64
    requires { place + value_len kind ≤ length bytes.now }
    ensures { result ≡ value_at bytes.now kind place }
{
    match kind {
        ConstKind::I16 => i64::from(half(bytes, place).cast_signed()),
        ConstKind::U16 => i64::from(half(bytes, place)),
        ConstKind::I32 => i64::from(word(bytes, place).cast_signed()),
        ConstKind::U32 => i64::from(word(bytes, place)),
    }
}

/// The value of the constant at a cursor, which has no fault.
#[tactic(auto, using(typelib_check::proofs::PartLaws::constant_inside, typelib_check::proofs::PartLaws::constant_value), unfolding(typelib_faults::specs::Places::constant_at))]
pub(crate) fn value_of_constant(file: &File<'_>, at: Cursor) -> i64
    requires { constant_fault file.now.bytes.now at ≡ None }
    ensures { result ≡ (constant_at file.now.bytes.now at.place).value }
{
    value_of_kind(file.bytes, known_kind(file, at), at.place + 5)
}
