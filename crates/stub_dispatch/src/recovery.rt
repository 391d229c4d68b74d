//! The values of a call, read back from its frame.

ghost use Rattle.std.specs.Prelude.{◌≡◌, ◌*◌, ◌<◌, ◌≤◌, ◌^◌, length, MatchResult, OnErr, OnOk};
ghost use Rattle.call_model.specs.Placement as places;
ghost use Rattle.call_model.specs.Prototype.{types_of};
ghost use Rattle.call_model.specs.Values as values;
ghost use Rattle.invoke_by_index.specs.Methods.{prototype};
ghost use Rattle.object_memory.specs.Frames.{IsPlace};
ghost use Rattle.stub_dispatch.specs.Calls.{AreCanonical};
ghost use Rattle.stub_dispatch.specs.Cells.{GivesCanonical, IsShort, received_cells};

use call_model::{CType, Conv, Convention, Loc, canonical, own_len};
use descriptor_reader::MethodView;
use invoke_by_index::stack_len;
use object_memory::Frame;
use thiserror::Error;

/// The stack of a frame is shorter than the arguments need.
#[derive(Clone, Copy, Debug, PartialEq, Eq, Error)]
#[error("the stack has {has} bytes, and the arguments need {needs}")]
pub struct FrameShort {
    pub needs: u32,
    pub has: u32,
}

/// Takes the values of a call back from its frame.
///
/// Each cell becomes the canonical pattern of the own bytes that stand at the place of its
/// argument, whatever stands in the bits and bytes that the convention leaves free. For a value in
/// a cell that is the cell's address. There is a cell for each argument of the prototype.
/// `FrameShort` comes exactly where the frame has a shorter stack than the arguments need; the
/// cells are then as before.
pub fn recover<C: Convention>(
    frame: &Frame,
    method: &MethodView<'_>,
    cells: &mut [u64],
) -> Result<(), FrameShort>
    requires { length cells.old ≡ length (prototype method.now) }
    ensures short { MatchResult
        result
        (λ _. places.stack_len_of C.CONV (types_of (prototype method.now)) ≤ length frame.now.stack)
        (λ short. IsShort C.CONV (types_of (prototype method.now)) frame.now short) }
    ensures received { OnOk
        result
        (cells.new ≡ received_cells C.CONV (prototype method.now) frame.now) }
    ensures canonical { OnOk
        result
        (GivesCanonical C.CONV (prototype method.now) frame.now cells.new) }
    ensures patterns { OnOk result (AreCanonical C.CONV (prototype method.now) cells.new) }
    ensures err { OnErr result (cells.new ≡ cells.old) }
{
    let needs = stack_len::<C>(method);
    let has = frame.stack_len();
    if has < needs {
        return Err(FrameShort { needs, has });
    }
    recover_each::<C>(frame, method, cells);
    Ok(())
}

/// Takes each value from its place. The stack has the bytes that the arguments need.
fn recover_each<C: Convention>(frame: &Frame, method: &MethodView<'_>, cells: &mut [u64])
    requires paired { length cells.old ≡ length (prototype method.now) }
    requires enough { places.stack_len_of C.CONV (types_of (prototype method.now))
        ≤ length frame.now.stack }
    ensures received { cells.new ≡ received_cells C.CONV (prototype method.now) frame.now }
    ensures patterns { AreCanonical C.CONV (prototype method.now) cells.new }
{
    let conv = C::CONV;
    let mut walk = C::begin();
    walk.next(CType::Ptr);
    let mut i = 0;
    for arg in method.args() {
        let ty = arg.passed_type();
        let at = walk.next(ty);
        cells[i] = value_at(frame, conv, ty, at);
        i += 1;
    }
}

/// The value at the place of an argument: the canonical pattern of its own bytes there.
fn value_at(frame: &Frame, conv: Conv, ty: CType, at: Loc) -> u64
    requires { IsPlace frame.now at (values.own_len conv ty) }
    ensures value { result
        ≡ values.canon conv ty (values.own_at frame.now (values.own_len conv ty) at) }
    ensures own { values.own_at frame.now (values.own_len conv ty) at
        < 2 ^ (8 * values.own_len conv ty) }
    ensures stays { values.canon conv ty result ≡ result }
{
    canonical(conv, ty, frame.own(at, own_len(conv, ty)))
}
