//! The laws of what files mean, each as the clause of a function that does nothing.

ghost use Rattle.std.specs.Prelude.{◌≡◌, ◌<◌, ◌^◌, [], List};
ghost use Rattle.idl_grammar.specs.declared.tree.ClosedFile.{ClosedFile};
ghost use Rattle.idl_meaning.specs.Accepted.{IsAcceptedScope};
ghost use Rattle.idl_grammar.specs.ClosedFiles.{AreLawfulFiles, items_of};
ghost use Rattle.idl_meaning.specs.Counted.{AreCountedFiles};
ghost use Rattle.idl_meaning.specs.Faults.{faults_of};
ghost use Rattle.idl_meaning.specs.Order.{Ascending, Before, HasEachFault};
ghost use Rattle.idl_meaning.specs.Scopes.{scope_of};

/// The list of all faults has each fault, and nothing else: a quadruple is in it exactly where the
/// condition of its code holds at its place, among what the declarations before it make known.
pub fn faults_are_exact()
    ensures { (files : List ClosedFile) → HasEachFault files }
{}

/// The list of all faults is in ascending order: by file, declaration, member and code.
pub fn faults_are_ascending()
    ensures { (files : List ClosedFile) → Ascending Before (faults_of files) }
{}

/// The scope of lawful files without faults is accepted, so that the stages above can rely on it,
/// where the files have fewer than 2^32 items together.
pub fn a_scope_without_faults_is_accepted()
    ensures { (files : List ClosedFile) → AreLawfulFiles files → items_of files < 2 ^ 32
        → faults_of files ≡ [] → IsAcceptedScope (scope_of files) }
{}

/// The parts of lawful files are few enough to be numbered in 32 bits.
pub fn lawful_files_are_counted()
    ensures { (files : List ClosedFile) → AreLawfulFiles files → AreCountedFiles files }
{}
