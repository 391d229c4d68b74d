//! Where the base procedure call standard for the Arm 32-bit architecture, with soft float, passes
//! arguments.
//!
//! A 64-bit value begins at an even register or at a multiple of 8 on the stack, every other value
//! at any word, and after one argument on the stack none is in a register. So r0 to r3 and the
//! stack after them are one area, which is shown here as the stack: its bytes 0 to 15 are r0 to
//! r3, and the real stack follows. `call_model::laws` says these rules in the words of the
//! standard.
#![tactic(auto)]

ghost use Rattle.std.specs.Prelude.{◌≡◌};
ghost use Rattle.call_model.specs.declared.places.Conv.TheVariants.{Aapcs32};
ghost use Rattle.call_model.specs.Placement.{area_end};
ghost use Rattle.call_model.specs.Laws.{fills-stack, places-apart, places-within, stack-grows, stack-is-bounded};

use call_model::{CType, Conv, Convention, Loc, space_of};

// the bytes of r0 to r3
const REGISTERS: u32 = 16;

/// A walk along the arguments of a call under AAPCS32. It keeps the end of the last one in the
/// area.
#[derive(Debug, Drop)]
pub struct Walk {
    end: u32,
}

impl Convention for Walk {
    ghost CONV = { Aapcs32 };

    const CONV: Conv = Conv::Aapcs32;

    ghost WORD = { 4 };

    const WORD: u32 = 4;

    ghost stands_for = { λ walk types. walk.end ≡ area_end types };

    fn begin() -> Self {
        Walk { end: 0 }
    }

    fn next(&mut self, ty: CType) -> Loc {
        let at = if ty.is_wide() {
            (self.end + 7) / 8 * 8
        } else {
            self.end
        };
        self.end = at + space_of(Conv::Aapcs32, ty);
        Loc::Stack(at)
    }

    fn stack_len(&self) -> u32 {
        self.end.max(REGISTERS)
    }

    ghost apart = { places-apart Aapcs32 };

    ghost within = { places-within Aapcs32 };

    ghost fills = { fills-stack Aapcs32 };

    ghost grows = { stack-grows Aapcs32 };

    ghost bounded = { stack-is-bounded Aapcs32 };
}
