ghost use Rattle.std.specs.Prelude.{◌≡◌, ℕ, List, [], ◌<◌, length};
ghost use Rattle.call_model.specs.declared.ctypes.CType.{CType as Ty};
ghost use Rattle.call_model.specs.declared.places.Conv.{Conv as Standard};
ghost use Rattle.call_model.specs.Walks.{GoesPast};
ghost use Rattle.call_model.specs.Placement.{word_of, place, stack_len_of, PlacesApart, PlacesWithin, FillsStack, StackGrows, StackIsBounded};

use crate::ctypes::CType;
use crate::places::{Conv, Loc};

/// A walk along the arguments of a call, which says of each where the convention passes it.
///
/// A value stands for lists of types: those whose arguments it has passed by. It keeps counters and
/// not the list, and takes no memory. It may be let go at any point.
pub trait Convention: Drop {
    ghost CONV: { Standard };

    /// The convention.
    const CONV: Conv;

    ghost WORD: { ℕ };

    /// The bytes of a word: `word_of(Self::CONV)`.
    const WORD: u32;

    /// The value has passed by arguments of these types.
    ghost stands_for: { Self → List Ty → Type 0 };

    /// The walk before the first argument.
    fn begin() -> Self
        ensures empty { stands_for result [] }
        ensures word { WORD ≡ word_of CONV };

    /// Where the next argument goes, which has this type. The walk goes past it.
    ///
    /// The walk has passed by fewer than 512 arguments.
    fn next(&mut self, ty: CType) -> Loc
        requires { (types : List Ty) × stands_for self.old types × (length types < 512) }
        ensures at { (types : List Ty) → stands_for self.old types → result ≡ place CONV types ty }
        ensures longer { GoesPast stands_for self.old self.new ty };

    /// How many bytes of stack the arguments so far need.
    fn stack_len(&self) -> u32
        requires { (types : List Ty) × stands_for self.now types }
        ensures { (ts : List Ty) → stands_for self.now ts → result ≡ stack_len_of CONV ts };

    /// No two locations of one list of types overlap.
    ghost apart: { PlacesApart CONV };

    /// Each location is a register that the convention has, or lies within the stack.
    ghost within: { PlacesWithin CONV };

    /// The spaces of the arguments follow each other on the stack, and what they leave is what the
    /// convention says.
    ghost fills: { FillsStack CONV };

    /// More arguments never need a shorter stack.
    ghost grows: { StackGrows CONV };

    /// The stack of any prototype has at most 2,064 bytes.
    ghost bounded: { StackIsBounded CONV };
}
