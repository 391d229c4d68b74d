//! Laws of the definitions that the contracts of typelibs cite. Each function states its law as its
//! contract and does nothing.

ghost use Rattle.std.specs.Prelude.{ℕ};
ghost use Rattle.call_model.specs.Tables.{HasShortLineage};
ghost use Rattle.lib_model.specs.declared.contents.Library.{Library};
ghost use Rattle.lib_model.specs.declared.contents.Method.{Method};
ghost use Rattle.lib_model.specs.Table.{HasPositions, table_of};
ghost use Rattle.lib_model.specs.Valid.{IsValid};

/// The argument at the position of a parameter is that parameter's, whatever arguments are added to
/// the prototype, and the positions lie below the prototype's length.
pub fn each_parameter_has_its_position()
    ensures { (m : Method) → HasPositions m }
{}

/// In the table of a valid library each interface has at most 250 in its lineage, itself counted;
/// so its slots and its ancestors are those of its parent and its own.
pub fn each_lineage_is_short()
    ensures { (lib : Library) → IsValid lib
        → (number : ℕ) → HasShortLineage (table_of lib) number }
{}
