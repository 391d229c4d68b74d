//! Laws of the definitions that the contracts cite. Each function states its law as its contract
//! and does nothing.

ghost use Rattle.idl_meaning.specs.declared.scope.Scope.{Scope};
ghost use Rattle.idl_meaning.specs.Accepted.{IsAcceptedScope};
ghost use Rattle.lib_model.specs.Valid.{IsValid};
ghost use Rattle.prototype_lowering.specs.Limits.{HasTableOf, KeepsLimits};
ghost use Rattle.prototype_lowering.specs.Lowering.{library_of};

/// The table that the flags and tags of the library of a scope give is the table that its members
/// mean as they are written.
pub fn the_table_of_the_library_is_the_scopes()
    ensures { (scope : Scope) → IsAcceptedScope scope → HasTableOf scope (library_of scope) }
{}

/// The library of a scope that keeps the limits of a typelib is valid.
pub fn the_library_is_valid()
    ensures { (scope : Scope) → IsAcceptedScope scope → KeepsLimits scope
        → IsValid (library_of scope) }
{}
