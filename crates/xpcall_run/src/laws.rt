//! Laws of the definitions that the contracts cite. Each function states its law as its contract
//! and does nothing.

ghost use Rattle.std.specs.Prelude.{◌≡◌, ℕ, List};
ghost use Rattle.call_model.specs.declared.places.Conv.{Conv};
ghost use Rattle.lib_model.specs.declared.contents.Library.{Library};
ghost use Rattle.lib_model.specs.Denotes.{Denotes};
ghost use Rattle.xpcall_run.specs.CallWork.{WritesCalls};
ghost use Rattle.xpcall_run.specs.Sides.{Given};

/// Over two typelibs that denote one library the calls of a script come to one transcript, and show
/// a bench the same, however the bytes of the typelibs are laid out.
pub fn one_library_has_one_transcript()
    ensures { (conv : Conv) (lib : Library) (one other script : List ℕ) (given given_other : Given)
        → Denotes one lib → Denotes other lib → WritesCalls conv one script given
        → WritesCalls conv other script given_other → given ≡ given_other }
{}
