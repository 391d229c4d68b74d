//! Where the System V ABI for i386 passes arguments: all on the stack, one after the other, 64-bit
//! values in 8 bytes at any word and all others in 4.
#![tactic(auto)]

ghost use Rattle.std.specs.Prelude.{◌≡◌, sum_by};
ghost use Rattle.call_model.specs.declared.places.Conv.TheVariants.{I386};
ghost use Rattle.call_model.specs.Placement.{four_or_eight};
ghost use Rattle.call_model.specs.Laws.{fills-stack, places-apart, places-within, stack-grows, stack-is-bounded};

use call_model::{CType, Conv, Convention, Loc, space_of};

/// A walk along the arguments of a call under the System V ABI for i386. It adds up their bytes.
#[derive(Debug, Drop)]
pub struct Walk {
    bytes: u32,
}

impl Convention for Walk {
    ghost CONV = { I386 };

    const CONV: Conv = Conv::I386;

    ghost WORD = { 4 };

    const WORD: u32 = 4;

    ghost stands_for = { λ walk types. walk.bytes ≡ sum_by four_or_eight types };

    fn begin() -> Self {
        Walk { bytes: 0 }
    }

    fn next(&mut self, ty: CType) -> Loc {
        let at = self.bytes;
        self.bytes += space_of(Conv::I386, ty);
        Loc::Stack(at)
    }

    fn stack_len(&self) -> u32 {
        self.bytes
    }

    ghost apart = { places-apart I386 };

    ghost within = { places-within I386 };

    ghost fills = { fills-stack I386 };

    ghost grows = { stack-grows I386 };

    ghost bounded = { stack-is-bounded I386 };
}
