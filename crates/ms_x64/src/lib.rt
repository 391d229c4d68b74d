//! Where the Microsoft x64 convention passes arguments: the first four in rcx, rdx, r8 and r9, or
//! in xmm0 to xmm3 where they are floats, each by its position, and the others on the stack, 8
//! bytes each, after a home of 32 bytes that is always there.
#![tactic(auto)]

ghost use Rattle.std.specs.Prelude.{◌≡◌, length};
ghost use Rattle.call_model.specs.declared.places.Conv.TheVariants.{Ms64};
ghost use Rattle.call_model.specs.Laws.{fills-stack, places-apart, places-within, stack-grows, stack-is-bounded};

use call_model::{CType, Conv, Convention, Loc};

// how many positions have a register of each class
const REGISTERS: u16 = 4;
// the bytes of the home area
const HOME: u32 = 32;

/// A walk along the arguments of a call under the Microsoft x64 convention. It counts them.
#[derive(Debug, Drop)]
pub struct Walk {
    passed: u16,
}

impl Convention for Walk {
    ghost CONV = { Ms64 };

    const CONV: Conv = Conv::Ms64;

    ghost WORD = { 8 };

    const WORD: u32 = 8;

    ghost stands_for = { λ walk types. walk.passed ≡ length types };

    fn begin() -> Self {
        Walk { passed: 0 }
    }

    fn next(&mut self, ty: CType) -> Loc {
        let position = self.passed;
        self.passed += 1;
        if position >= REGISTERS {
            Loc::Stack(HOME + 8 * u32::from(position - REGISTERS))
        } else if ty.is_float() {
            Loc::Fpr(position as u8)
        } else {
            Loc::Gpr(position as u8)
        }
    }

    fn stack_len(&self) -> u32 {
        HOME + 8 * u32::from(self.passed.saturating_sub(REGISTERS))
    }

    ghost apart = { places-apart Ms64 };

    ghost within = { places-within Ms64 };

    ghost fills = { fills-stack Ms64 };

    ghost grows = { stack-grows Ms64 };

    ghost bounded = { stack-is-bounded Ms64 };
}
