//! The cells of calls, as the clauses of functions that do nothing.

ghost use Rattle.made_calls.specs.Laws.{CallsHaveCells, EntersHaveNoCells};

/// A call with arguments has a cell for each value that it passes.
pub fn calls_have_cells()
    ensures { CallsHaveCells }
{}

/// An enter has no cells.
pub fn enters_have_no_cells()
    ensures { EntersHaveNoCells }
{}
