//! Where the procedure call standard for the Arm 64-bit architecture passes arguments: integers and
//! pointers in x0 to x7, floats in v0 to v7, and on the stack, 8 bytes each, those that find no
//! register of their class left.
#![tactic(auto)]

ghost use Rattle.call_model.specs.Walks.{HasCounted};
ghost use Rattle.call_model.specs.declared.places.Conv.TheVariants.{Aapcs64};
ghost use Rattle.call_model.specs.Laws.{fills-stack, places-apart, places-within, stack-grows, stack-is-bounded};

use call_model::{CType, ClassWalk, Conv, Convention, Loc};

// x0 to x7
const GPRS: u8 = 8;
// v0 to v7
const FPRS: u8 = 8;

/// A walk along the arguments of a call under AAPCS64.
#[derive(Debug, Drop)]
pub struct Walk {
    counts: ClassWalk<GPRS, FPRS>,
}

impl Convention for Walk {
    ghost CONV = { Aapcs64 };

    const CONV: Conv = Conv::Aapcs64;

    ghost WORD = { 8 };

    const WORD: u32 = 8;

    ghost stands_for = { λ walk types. HasCounted walk.counts types };

    fn begin() -> Self {
        let counts = ClassWalk::begin();
        Walk { counts }
    }

    fn next(&mut self, ty: CType) -> Loc {
        self.counts.next(ty)
    }

    fn stack_len(&self) -> u32 {
        self.counts.stack_len()
    }

    ghost apart = { places-apart Aapcs64 };

    ghost within = { places-within Aapcs64 };

    ghost fills = { fills-stack Aapcs64 };

    ghost grows = { stack-grows Aapcs64 };

    ghost bounded = { stack-is-bounded Aapcs64 };
}
