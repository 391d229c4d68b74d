//! The laws of what texts declare, each as the clause of a function that does nothing.

ghost use Rattle.std.specs.Prelude.{◌≡◌, ◌⊎◌, ℕ, List};
ghost use Rattle.header_model.specs.declared.decls.Decl.{Decl};
ghost use Rattle.header_model.specs.Declares.{Declares};
ghost use Rattle.header_reader.specs.Refused.{IsRefused};

/// Each text declares one list of classes, or has one first line that no header has there, and not
/// both.
pub fn each_text_declares_one_list_or_is_refused_at_one_line()
    ensures either { (text : List ℕ)
        → ((decls : List Decl) × Declares text decls) ⊎ ((line : ℕ) × IsRefused text line) }
    ensures one_list { (text : List ℕ) (one other : List Decl)
        → Declares text one → Declares text other → one ≡ other }
    ensures one_line { (text : List ℕ) (one other : ℕ)
        → IsRefused text one → IsRefused text other → one ≡ other }
    ensures not_both { (text : List ℕ) (decls : List Decl) (line : ℕ)
        → Declares text decls → IsRefused text line → ⊥ }
{}
