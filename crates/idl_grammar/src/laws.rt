//! Laws of the definitions that the contracts of crates above cite. Each function states its law as
//! its contract and does nothing.

ghost use Rattle.std.specs.Prelude.{ℕ, IsTrue, List, length};
ghost use Rattle.idl_lexer.specs.Parts.{is_key};
ghost use Rattle.idl_lexer.specs.Spelling.{is_mark};
ghost use Rattle.idl_grammar.specs.declared.terminal.Key.{Key};
ghost use Rattle.idl_grammar.specs.declared.terminal.Mark.{Mark};
ghost use Rattle.idl_grammar.specs.declared.tree.IdlFile.{IdlFile};
ghost use Rattle.idl_grammar.specs.Spellings.{IsReadOnce};
ghost use Rattle.idl_grammar.specs.Terminals.{IsKeyText, IsMarkText, key_spelling, mark_spelling};
ghost use Rattle.idl_grammar.specs.Texts.{HasTree, IsLawfulFile, IsReadable};
ghost use Rattle.idl_grammar.specs.Trees.{IsFile};

/// Each text says one thing: its tree, or the line at which it has no token, or the line at which
/// its tokens have no tree.
pub fn each_text_says_one_thing()
    ensures { (bytes : List ℕ) → IsReadable bytes }
{}

/// The parts of a lawful tree are as the language has them. Every name is a word of 1 to 255 bytes
/// other than 0, an identifier is one that `uuid` reads, a number is spelled as one, the steps of
/// an expression find their operands and leave one value, and no list is longer than that of the
/// tokens.
pub fn a_lawful_file_is_well_formed()
    ensures { (tree : IdlFile) (lawful : IsLawfulFile tree)
        → IsFile (length lawful.has.tokens) tree }
{}

/// The same of the tree of a text.
pub fn the_tree_of_a_text_is_well_formed()
    ensures { (bytes : List ℕ) (tree : IdlFile) (has : HasTree bytes tree)
        → IsFile (length has.tokens) tree }
{}

/// The spelling of a native has one name and one text.
pub fn a_native_has_one_name_and_one_text()
    ensures { (spelling : List ℕ) → IsReadOnce spelling }
{}

/// The keywords and the marks of the grammar are those of the tokens; `native` alone is no symbol.
pub fn symbols_are_the_keywords_and_the_marks()
    ensures keys { (k : Key) → IsTrue (is_key (key_spelling k)) }
    ensures no_other_key { (text : List ℕ) → IsTrue (is_key text) → IsKeyText text }
    ensures marks { (m : Mark) → IsTrue (is_mark (mark_spelling m)) }
    ensures no_other_mark { (text : List ℕ) → IsTrue (is_mark text) → IsMarkText text }
{}
