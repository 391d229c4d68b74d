//! Laws of the definitions that the contracts cite. Each function states its law as its contract
//! and does nothing.

ghost use Rattle.std.specs.Prelude.{◌≡◌, ℕ, List};
ghost use Rattle.lib_model.specs.declared.contents.Library.{Library};
ghost use Rattle.lib_model.specs.Denotes.{Denotes};
ghost use Rattle.dump_text.specs.Listing.{IsListing};

/// Two typelibs that denote one library have one listing, however their bytes are laid out.
pub fn one_library_has_one_listing()
    ensures { (lib : Library) (one other listed listed_other : List ℕ) → Denotes one lib
        → Denotes other lib → IsListing one listed → IsListing other listed_other
        → listed ≡ listed_other }
{}
