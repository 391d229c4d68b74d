ghost use Rattle.std.specs.Prelude.{◌≡◌, List, [], ◌<◌, length};
ghost use Rattle.call_model.specs.declared.ctypes.CType.{CType as Ty};
ghost use Rattle.call_model.specs.Walks.{GoesPast, HasCounted};
ghost use Rattle.call_model.specs.Placement.{overflow_bytes, place_by_class};
ghost use Rattle.call_model.specs.Types.{floats, integers, is_float};

use crate::ctypes::CType;
use crate::places::Loc;

/// A walk along the arguments of a call where each class has its own registers: `GPRS` general ones
/// for integers and pointers, and `FPRS` float ones. It counts the arguments of either class.
#[derive(Debug, Drop)]
pub struct ClassWalk<const GPRS: u8, const FPRS: u8> {
    integers: u16,
    floats: u16,
}

impl<const GPRS: u8, const FPRS: u8> ClassWalk<GPRS, FPRS> {
    /// The walk before the first argument.
    pub fn begin() -> Self
        ensures { HasCounted result [] }
    {
        ClassWalk {
            integers: 0,
            floats: 0,
        }
    }

    /// Where the next argument goes, which has this type: the next register of its class, or else
    /// the stack, behind the arguments that stand there. The walk goes past it.
    ///
    /// The walk has counted fewer than 512 arguments.
    pub fn next(&mut self, ty: CType) -> Loc
        requires { (types : List Ty) × HasCounted self.old types × (length types < 512) }
        ensures at { (types : List Ty) → HasCounted self.old types
            → result ≡ place_by_class GPRS FPRS (integers types) (floats types) (is_float ty) }
        ensures longer { GoesPast HasCounted self.old self.new ty }
    {
        let behind = Loc::Stack(self.stack_len());
        if ty.is_float() {
            let before = self.floats;
            self.floats += 1;
            if before < u16::from(FPRS) {
                Loc::Fpr(before as u8)
            } else {
                behind
            }
        } else {
            let before = self.integers;
            self.integers += 1;
            if before < u16::from(GPRS) {
                Loc::Gpr(before as u8)
            } else {
                behind
            }
        }
    }

    /// How many bytes of stack the arguments so far need: 8 for each that found no register of its
    /// class left.
    pub fn stack_len(&self) -> u32
        ensures { result ≡ overflow_bytes GPRS FPRS self.now.integers self.now.floats }
    {
        let without_gpr = u32::from(self.integers.saturating_sub(u16::from(GPRS)));
        let without_fpr = u32::from(self.floats.saturating_sub(u16::from(FPRS)));
        8 * (without_gpr + without_fpr)
    }
}
