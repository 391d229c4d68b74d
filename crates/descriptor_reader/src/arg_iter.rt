ghost use Rattle.std.specs.Prelude.{◌≡◌, ◌+◌, ◌<◌, Some, length, slice_get};
ghost use Rattle.std.specs.Iterator.{YieldsFirst, item_count};
ghost use Rattle.call_model.specs.declared.prototypes.ProtoArg.{ProtoArg};
ghost use Rattle.lib_model.specs.Table.{proto_of};
ghost use Rattle.typelib_faults.specs.Places.{method_at, param_end};
ghost use Rattle.typelib_faults.specs.Walk.{reach};
ghost use Rattle.descriptor_reader.specs.Shapes.{IsAtArg, params_before};

use crate::proto_args::{arg_of, context_arg, count_arg};
use crate::shapes::{Part, Shape, part_at};
use call_model::ProtoArg;
use std::marker::Model;
use typelib_check::File;
use typelib_check::arguments::param_value;
use typelib_check::lengths::param_behind;
use typelib_faults::Cursor;

/// The arguments of the prototype of a method, in order, those that are added among them, without
/// the object's address. It takes no memory of its own, and stands for those that are still to
/// come.
#[derive(Drop)]
pub struct ArgIter<'a> {
    pub(crate) file: File<'a>,
    /// Where the method is.
    pub(crate) method: Cursor,
    pub(crate) shape: Shape,
    /// The position of the next argument, and one past the last.
    pub(crate) position: u32,
    pub(crate) end: u32,
    /// The place of the next parameter.
    pub(crate) place: usize,
}

impl<'a> Model for ArgIter<'a> {
    ghost use Rattle.std.specs.Prelude.{List, drop};
    ghost use Rattle.call_model.specs.declared.prototypes.ProtoArg.{ProtoArg};
    ghost use Rattle.lib_model.specs.Table.{slot_of};
    ghost use Rattle.typelib_faults.specs.Places.{method_at};
    ghost use Rattle.descriptor_reader.specs.Shapes.{IsArgIter};

    ghost Value = { List ProtoArg };

    ghost view = { λ s. drop s.position
        (slot_of (method_at s.file.bytes.now s.method.place)).proto };

    ghost invariant = { λ s. IsArgIter s.file.bytes.now s.method s.shape s.position s.end s.place };
}

/// The argument at this position, and the place of the parameter behind it.
fn next_arg(
    file: &File<'_>,
    method: Cursor,
    shape: Shape,
    position: u32,
    place: usize,
) -> (ProtoArg, usize)
    requires at { IsAtArg file.now.bytes.now method shape position place }
    requires low { position < length (proto_of (method_at file.now.bytes.now method.place)) }
    ensures arg { slice_get (proto_of (method_at file.now.bytes.now method.place)) position
        ≡ Some result.0 }
    ensures place { IsAtArg file.now.bytes.now method shape (position + 1) result.1 }
{
    match part_at(shape, position) {
        Part::Context => (context_arg(), place),
        Part::Count => (count_arg(), place),
        Part::OfParam(_) => {
            let param = param_value(file, place);
            (arg_of(shape, param), param_behind(file, place))
        }
    }
}

impl<'a> Iterator for ArgIter<'a> {
    type Item = ProtoArg;

    ghost next_gives = { YieldsFirst (λ s. s) };

    ghost remaining = { item_count (λ s. s) };

    fn next(&mut self) -> Option<ProtoArg> {
        if self.position >= self.end {
            return None;
        }
        let (arg, place) = next_arg(
            &self.file,
            self.method,
            self.shape,
            self.position,
            self.place,
        );
        self.position += 1;
        self.place = place;
        Some(arg)
    }
}
