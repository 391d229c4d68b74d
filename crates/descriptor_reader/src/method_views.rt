ghost use Rattle.std.specs.Prelude.{◌≡◌, ◌≤◌, length, slice_get};
ghost use Rattle.lib_model.specs.Table.{kind_of, slot_of, status_of};
ghost use Rattle.lib_model.specs.Valid.{IsMethod};
ghost use Rattle.descriptor_reader.specs.Shapes.{position_of_param};

use crate::arg_iter::ArgIter;
use crate::method_fields::{flags_of_method, kind_of_method, name_of_method, params_of_method};
use crate::param_iter::ParamIter;
use crate::proto_args::arg_of_method;
use crate::shapes::{position, shape_of_method};
use crate::statuses::status_of_method;
use call_model::{MemberKind, ProtoArg, Status};
use lib_model::MethodFlags;
use std::marker::Model;
use typelib_check::CheckedFile;
use typelib_faults::Cursor;

/// A method of a typelib that has been checked, with its slot.
#[derive(Drop)]
pub struct MethodView<'a> {
    pub(crate) checked: CheckedFile<'a>,
    pub(crate) at: Cursor,
    pub(crate) slot: u16,
}

impl<'a> Model for MethodView<'a> {
    ghost use Rattle.std.specs.Prelude.{◌≡◌, None};
    ghost use Rattle.typelib_faults.specs.Faults.{method_fault};
    ghost use Rattle.typelib_faults.specs.Places.{library_of, method_at};
    ghost use Rattle.descriptor_reader.specs.Views.{MethodOf};

    ghost Value = { MethodOf };

    ghost view = { λ v. record {
      library = library_of v.checked.file.bytes.now;
      method = method_at v.checked.file.bytes.now v.at.place;
      slot = v.slot;
    } };

    ghost invariant = { λ v. method_fault v.checked.file.bytes.now v.at ≡ None };
}

impl<'a> MethodView<'a> {
    /// Its slot, counted from 0 through its interface's ancestors.
    pub fn slot(&self) -> u16
        ensures { result ≡ self.now.slot }
    {
        self.slot
    }

    /// Its name.
    pub fn name(&self) -> &'a [u8]
        ensures { result.now ≡ self.now.method.name }
    {
        name_of_method(&self.checked.file, self.at)
    }

    /// What it is: a method, or the reading or the writing half of an attribute.
    pub fn kind(&self) -> MemberKind
        ensures { result ≡ kind_of self.now.method }
    {
        kind_of_method(&self.checked.file, self.at)
    }

    /// What else the typelib says of it.
    pub fn flags(&self) -> MethodFlags
        ensures { result ≡ self.now.method.flags }
    {
        flags_of_method(&self.checked.file, self.at)
    }

    /// Whether it may be called, and if not, why.
    pub fn status(&self) -> Status
        ensures { result ≡ status_of self.now.method }
    {
        status_of_method(&self.checked.file, self.at)
    }

    /// The number of its parameters, a return value among them. It is a method of a valid library.
    pub fn param_count(&self) -> u32
        ensures count { result ≡ length self.now.method.params }
        ensures valid { IsMethod (length self.now.library.ifaces) self.now.method }
        ensures few { result ≤ 255 }
    {
        u32::from(params_of_method(&self.checked.file, self.at).count)
    }

    /// How many arguments its prototype has, without the object's address: one for each parameter,
    /// and those that are added. A method that may not be called has none.
    pub fn positions(&self) -> u32
        ensures length { result ≡ length (slot_of self.now.method).proto }
        ensures few { result ≤ 257 }
    {
        match self.status() {
            Status::Callable => {
                let shape = shape_of_method(&self.checked.file, self.at);
                u32::from(shape.first) + self.param_count() + u32::from(shape.middle)
            }
            Status::Hidden | Status::NotXpcom | Status::Opaque => 0,
        }
    }

    /// Its parameters in order, a return value among them.
    pub fn params(&self) -> ParamIter<'a>
        ensures items { result ≡ self.now.method.params }
        ensures few { length result ≤ 255 }
    {
        let params = params_of_method(&self.checked.file, self.at);
        ParamIter {
            file: self.checked.file,
            at: params.from,
            left: params.count,
        }
    }

    /// The position in its prototype of the parameter of this number, counted from 0. None where
    /// there are not as many parameters, or it may not be called.
    pub fn position_of(&self, param: u32) -> Option<u32>
        ensures { result ≡ position_of_param self.now.method param }
    {
        if param >= self.param_count() {
            return None;
        }
        match self.status() {
            Status::Callable => {
                let shape = shape_of_method(&self.checked.file, self.at);
                Some(u32::from(position(shape, param as u8)))
            }
            Status::Hidden | Status::NotXpcom | Status::Opaque => None,
        }
    }

    /// The argument at a position of its prototype, counted from 0 behind the object's address:
    /// that of a parameter, or one that is added. None where there are not as many, as in a method
    /// that may not be called.
    pub fn arg(&self, position: u32) -> Option<ProtoArg>
        ensures { result ≡ slice_get (slot_of self.now.method).proto position }
    {
        match self.status() {
            Status::Callable => arg_of_method(&self.checked.file, self.at, position),
            Status::Hidden | Status::NotXpcom | Status::Opaque => None,
        }
    }

    /// The arguments of its prototype in order, without the object's address: those of parameters,
    /// and those that are added. A method that may not be called has none.
    #[tactic(auto, using(typelib_check::proofs::PartLaws::method_inside))]
    pub fn args(&self) -> ArgIter<'a>
        ensures items { result ≡ (slot_of self.now.method).proto }
        ensures few { length result ≤ 257 }
    {
        ArgIter {
            file: self.checked.file,
            method: self.at,
            shape: shape_of_method(&self.checked.file, self.at),
            position: 0,
            end: self.positions(),
            place: self.at.place + 6,
        }
    }
}
