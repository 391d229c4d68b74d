ghost use Rattle.std.specs.Iterator.{YieldsFirst, item_count};
ghost use Rattle.descriptor_reader.specs.Views.{MethodOf};

use crate::method_views::MethodView;
use std::marker::Model;
use typelib_check::CheckedFile;
use typelib_check::lengths::method_behind;
use typelib_faults::Cursor;

/// The own methods of an interface, in the order of their slots. It takes no memory of its own,
/// and stands for those that are still to come.
#[derive(Drop)]
pub struct MethodIter<'a> {
    pub(crate) checked: CheckedFile<'a>,
    pub(crate) at: Cursor,
    pub(crate) slot: u16,
    pub(crate) left: u16,
}

impl<'a> Model for MethodIter<'a> {
    ghost use Rattle.std.specs.Prelude.{◌≡◌, ◌+◌, ◌≤◌, List, None};
    ghost use Rattle.typelib_faults.specs.Faults.{method_fault, method_next};
    ghost use Rattle.typelib_faults.specs.Places.{library_of, method_at, method_end};
    ghost use Rattle.typelib_faults.specs.Walk.{values, walk};
    ghost use Rattle.descriptor_reader.specs.Views.{MethodOf, in_slots};

    ghost Value = { List MethodOf };

    ghost view = { λ s. in_slots (library_of s.checked.file.bytes.now) s.slot
        (values (method_at s.checked.file.bytes.now) (method_end s.checked.file.bytes.now)
        s.at.place s.left) };

    ghost invariant = { λ s. (walk (method_fault s.checked.file.bytes.now)
        (method_next s.checked.file.bytes.now) s.at s.left ≡ None) × (s.slot + s.left ≤ 500) };
}

impl<'a> Iterator for MethodIter<'a> {
    type Item = MethodView<'a>;

    ghost next_gives = { YieldsFirst (λ s. s) };

    ghost remaining = { item_count (λ s. s) };

    fn next(&mut self) -> Option<MethodView<'a>> {
        if self.left == 0 {
            return None;
        }
        let found = MethodView {
            checked: self.checked,
            at: self.at,
            slot: self.slot,
        };
        self.at = method_behind(&self.checked.file, self.at);
        self.slot += 1;
        self.left -= 1;
        Some(found)
    }
}
