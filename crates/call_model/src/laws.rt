//! Laws of the definitions that the contracts of calls cite. Each function states its law as its
//! contract and does nothing.

ghost use Rattle.std.specs.Prelude.{ℕ};
ghost use Rattle.call_model.specs.declared.places.Conv.{Conv};
ghost use Rattle.call_model.specs.declared.places.Conv.TheVariants.{SysV64, Aapcs64};
ghost use Rattle.call_model.specs.declared.tables.Table.{Table};
ghost use Rattle.call_model.specs.Placement.{CountsOverflow, FollowsAapcs32};
ghost use Rattle.call_model.specs.Tables.{DescendsByParents, HasShortLineage, HasSlotsOfParent};
ghost use Rattle.call_model.specs.Values.{IsTheFrame, PlacedConforms, ReceivesCanonical};

/// Where each class has its own registers, the stack has 8 bytes for each argument of the whole
/// list before which its class has used up its registers.
pub fn the_stack_is_counted()
    ensures sysv64 { CountsOverflow SysV64 }
    ensures aapcs64 { CountsOverflow Aapcs64 }
{}

/// Under AAPCS32 a wide value begins at an even core register or at a multiple of 8 on the stack,
/// and each other one at any register or word; no value is split between registers and stack; and
/// none is in a register after one on the stack.
///
/// The places are those of the standard: the first 16 bytes of the area that the walk shows are r0
/// to r3, and the stack begins behind them.
pub fn the_core_registers_are_filled_as_aapcs32_says()
    ensures { FollowsAapcs32 }
{}

/// The frame of patterns has each of them at the place of its type, in the whole register or in its
/// whole space on the stack, and zero in each register and each byte of the stack that belongs to
/// no argument; and no other frame has.
pub fn the_frame_of_a_call_is_the_one_that_holds_its_arguments()
    ensures { (conv : Conv) → IsTheFrame conv }
{}

/// The frame of a call conforms to the values of the call.
pub fn the_frame_of_a_call_conforms()
    ensures { (conv : Conv) → PlacedConforms conv }
{}

/// Every frame that conforms to values gives the canonical pattern of each, whoever made it and
/// whatever stands in the bits and bytes that the convention leaves free.
pub fn a_conforming_frame_gives_canonical_values()
    ensures { (conv : Conv) → ReceivesCanonical conv }
{}

/// Where the ancestors of an interface end, as in every valid library, its slots are its parent's
/// and then its own.
pub fn the_slots_are_the_parents_and_then_the_own()
    ensures { (table : Table) (k : ℕ) → HasShortLineage table k → HasSlotsOfParent table k }
{}

/// An interface descends from itself and from all that its parent descends from, and none descends
/// from 0.
pub fn an_interface_descends_by_its_parents()
    ensures { (table : Table) (k : ℕ) → DescendsByParents table k }
{}
