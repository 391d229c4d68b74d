//! The law of the definition of first faults. The function states it as its contract and does
//! nothing.

ghost use Rattle.std.specs.Prelude.{ℕ, List};
ghost use Rattle.typelib_faults.specs.declared.faults.BadTypelib.{BadTypelib};
ghost use Rattle.typelib_faults.specs.Causes.{FaultKind, IsFault, IsFaultAt, code_of};
ghost use Rattle.typelib_faults.specs.Laws.{FirstFault};

/// The first fault of a file is what it is named: its code is that of a kind of fault, and at its
/// place stands what such a fault blames, in the words of what a typelib's bytes denote.
///
/// So what is wrong follows from the code and the place alone.
pub fn each_first_fault_has_its_cause()
    ensures cause { (x : List ℕ) (fault : BadTypelib) → FirstFault x fault → IsFault x fault }
    ensures each { (x : List ℕ) (kind : FaultKind) (place : ℕ)
        → FirstFault x (record { code = code_of kind; at = place })
        → IsFaultAt x kind place }
{}
