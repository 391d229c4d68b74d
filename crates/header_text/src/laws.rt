//! The law of headers, as the clause of a function that does nothing.

ghost use Rattle.std.specs.Prelude.{◌<◌, ◌^◌, List};
ghost use Rattle.idl_grammar.specs.declared.tree.ClosedFile.{ClosedFile};
ghost use Rattle.idl_grammar.specs.ClosedFiles.{AreLawfulFiles, items_of};
ghost use Rattle.idl_meaning.specs.declared.scope.Scope.{Scope};
ghost use Rattle.idl_meaning.specs.Accepted.{IsAcceptedScope};
ghost use Rattle.idl_meaning.specs.Scopes.{scope_of};
ghost use Rattle.prototype_lowering.specs.Accepted.{IsFaultless};
ghost use Rattle.prototype_lowering.specs.Limits.{KeepsLimits};
ghost use Rattle.header_model.specs.Declares.{Declares};
ghost use Rattle.header_text.specs.Header.{header_text};
ghost use Rattle.header_text.specs.Meaning.{declared};

/// The header of an accepted scope within its limits declares, for each defined interface in the
/// order of their definitions, its name, its parent and its own slots: a function with the types of
/// its prototype where it is callable, and a reserved slot where it is not. So does the header of
/// lawful files without faults within their limits.
pub fn a_header_declares_its_scope()
    ensures scope { (s : Scope) → IsAcceptedScope s → KeepsLimits s
        → Declares (header_text s) (declared s) }
    ensures files { (files : List ClosedFile) → AreLawfulFiles files → items_of files < 2 ^ 32
        → IsFaultless files → KeepsLimits (scope_of files)
        → Declares (header_text (scope_of files)) (declared (scope_of files)) }
{}
