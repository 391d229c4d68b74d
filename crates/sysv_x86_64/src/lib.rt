//! Where the System V ABI for x86-64 passes arguments: integers and pointers in rdi, rsi, rdx,
//! rcx, r8 and r9, floats in xmm0 to xmm7, and on the stack, 8 bytes each, those that find no
//! register of their class left.
#![tactic(auto)]

ghost use Rattle.call_model.specs.Walks.{HasCounted};
ghost use Rattle.call_model.specs.declared.places.Conv.TheVariants.{SysV64};
ghost use Rattle.call_model.specs.Laws.{fills-stack, places-apart, places-within, stack-grows, stack-is-bounded};

use call_model::{CType, ClassWalk, Conv, Convention, Loc};

// rdi, rsi, rdx, rcx, r8, r9
const GPRS: u8 = 6;
// xmm0 to xmm7
const FPRS: u8 = 8;

/// A walk along the arguments of a call under the System V ABI for x86-64.
#[derive(Debug, Drop)]
pub struct Walk {
    counts: ClassWalk<GPRS, FPRS>,
}

impl Convention for Walk {
    ghost CONV = { SysV64 };

    const CONV: Conv = Conv::SysV64;

    ghost WORD = { 8 };

    const WORD: u32 = 8;

    ghost stands_for = { λ walk types. HasCounted walk.counts types };

    fn begin() -> Self {
        let counts = ClassWalk::begin();
        Walk { counts }
    }

    fn next(&mut self, ty: CType) -> Loc {
        self.counts.next(ty)
    }

    fn stack_len(&self) -> u32 {
        self.counts.stack_len()
    }

    ghost apart = { places-apart SysV64 };

    ghost within = { places-within SysV64 };

    ghost fills = { fills-stack SysV64 };

    ghost grows = { stack-grows SysV64 };

    ghost bounded = { stack-is-bounded SysV64 };
}
