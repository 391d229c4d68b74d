ghost use Rattle.std.specs.Prelude.{List};
ghost use Rattle.std.specs.Iterator.{YieldsFirst, item_count};
ghost use Rattle.lib_model.specs.declared.param_types.Param.{Param};

use lib_model::Param;
use std::marker::Model;
use typelib_check::File;
use typelib_check::arguments::known_param;
use typelib_faults::Cursor;

/// The parameters of a method, in order, a return value among them. It takes no memory of its own,
/// and stands for those that are still to come.
#[derive(Drop)]
pub struct ParamIter<'a> {
    pub(crate) file: File<'a>,
    pub(crate) at: Cursor,
    pub(crate) left: u8,
}

impl<'a> Model for ParamIter<'a> {
    ghost use Rattle.std.specs.Prelude.{◌≡◌, List, None};
    ghost use Rattle.lib_model.specs.declared.param_types.Param.{Param};
    ghost use Rattle.typelib_faults.specs.Faults.{param_fault, param_next};
    ghost use Rattle.typelib_faults.specs.Places.{param_at, param_end};
    ghost use Rattle.typelib_faults.specs.Walk.{values, walk};

    ghost Value = { List Param };

    ghost view = { λ s. values (param_at s.file.bytes.now) (param_end s.file.bytes.now) s.at.place
        s.left };

    ghost invariant = { λ s. walk (param_fault s.file.bytes.now) (param_next s.file.bytes.now) s.at
        s.left ≡ None };
}

impl<'a> Iterator for ParamIter<'a> {
    type Item = Param;

    ghost next_gives = { YieldsFirst (λ s. s) };

    ghost remaining = { item_count (λ s. s) };

    fn next(&mut self) -> Option<Param> {
        if self.left == 0 {
            return None;
        }
        let (found, next) = known_param(&self.file, self.at);
        self.at = next;
        self.left -= 1;
        Some(found)
    }
}
