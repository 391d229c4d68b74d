ghost use Rattle.std.specs.Prelude.{◌≡◌};
ghost use Rattle.lib_model.specs.Valid.{IsConstant};

use crate::constants::value_of_constant;
use std::marker::Model;
use typelib_check::CheckedFile;
use typelib_check::constants::known_kind;
use typelib_check::names::known_name;
use typelib_faults::Cursor;
use xp_base::ConstKind;

/// A constant of a typelib that has been checked.
#[derive(Drop)]
pub struct ConstView<'a> {
    pub(crate) checked: CheckedFile<'a>,
    pub(crate) at: Cursor,
}

impl<'a> Model for ConstView<'a> {
    ghost use Rattle.std.specs.Prelude.{◌≡◌, None};
    ghost use Rattle.lib_model.specs.declared.contents.Constant.{Constant};
    ghost use Rattle.typelib_faults.specs.Faults.{constant_fault};
    ghost use Rattle.typelib_faults.specs.Places.{constant_at};

    ghost Value = { Constant };

    ghost view = { λ v. constant_at v.checked.file.bytes.now v.at.place };

    ghost invariant = { λ v. constant_fault v.checked.file.bytes.now v.at ≡ None };
}

impl<'a> ConstView<'a> {
    /// Its name.
    #[tactic(auto, using(typelib_check::proofs::PartLaws::constant_inside, typelib_check::proofs::PartLaws::constant_name), unfolding(typelib_faults::specs::Places::constant_at))]
    pub fn name(&self) -> &'a [u8]
        ensures { result.now ≡ self.now.name }
    {
        known_name(&self.checked.file, self.at.place)
    }

    /// The type of its value.
    #[tactic(auto, using(typelib_check::proofs::PartLaws::constant_inside), unfolding(typelib_faults::specs::Places::constant_at))]
    pub fn kind(&self) -> ConstKind
        ensures { result ≡ self.now.kind }
    {
        known_kind(&self.checked.file, self.at)
    }

    /// Its value, which lies in the range of its type.
    pub fn value(&self) -> i64
        ensures value { result ≡ self.now.value }
        ensures valid { IsConstant self.now }
    {
        value_of_constant(&self.checked.file, self.at)
    }
}
