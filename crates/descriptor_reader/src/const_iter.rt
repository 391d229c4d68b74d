ghost use Rattle.std.specs.Iterator.{YieldsFirst, item_count};
ghost use Rattle.lib_model.specs.declared.contents.Constant.{Constant};

use crate::const_views::ConstView;
use std::marker::Model;
use typelib_check::CheckedFile;
use typelib_check::lengths::constant_behind;
use typelib_faults::Cursor;

/// The own constants of an interface, in order. It takes no memory of its own, and stands for
/// those that are still to come.
#[derive(Drop)]
pub struct ConstIter<'a> {
    pub(crate) checked: CheckedFile<'a>,
    pub(crate) at: Cursor,
    pub(crate) left: u16,
}

impl<'a> Model for ConstIter<'a> {
    ghost use Rattle.std.specs.Prelude.{◌≡◌, List, None};
    ghost use Rattle.lib_model.specs.declared.contents.Constant.{Constant};
    ghost use Rattle.typelib_faults.specs.Faults.{constant_fault, constant_next};
    ghost use Rattle.typelib_faults.specs.Places.{constant_at, constant_end};
    ghost use Rattle.typelib_faults.specs.Walk.{values, walk};

    ghost Value = { List Constant };

    ghost view = { λ s. values (constant_at s.checked.file.bytes.now)
        (constant_end s.checked.file.bytes.now) s.at.place s.left };

    ghost invariant = { λ s. walk (constant_fault s.checked.file.bytes.now)
        (constant_next s.checked.file.bytes.now) s.at s.left ≡ None };
}

impl<'a> Iterator for ConstIter<'a> {
    type Item = ConstView<'a>;

    ghost next_gives = { YieldsFirst (λ s. s) };

    ghost remaining = { item_count (λ s. s) };

    fn next(&mut self) -> Option<ConstView<'a>> {
        if self.left == 0 {
            return None;
        }
        let found = ConstView {
            checked: self.checked,
            at: self.at,
        };
        self.at = constant_behind(&self.checked.file, self.at);
        self.left -= 1;
        Some(found)
    }
}
