//! Laws of replies. These functions do nothing: what they ensure is the law.

ghost use Rattle.call_replies.specs.Laws.{ArePlanned, FindsCells, HoldsBeside, SparesOthers, WritesReply};

/// On a machine that holds blocks, the writes of a rule that suits a call leave the blocks and the
/// cells of the reply.
pub fn writes_reply()
    ensures { WritesReply }
{}

/// The writes of a rule are those that its items plan, for some values.
pub fn are_planned()
    ensures { ArePlanned }
{}

/// What a rule plans changes no byte but those of its targets, and nothing else of a machine.
pub fn spares_others()
    ensures { SparesOthers }
{}

/// A call that begins from pushed cells is received with a pushed cell for each value in a cell.
pub fn finds_cells()
    ensures { FindsCells }
{}

/// The blocks of a machine are held whatever its cells and its frame are.
pub fn holds_beside()
    ensures { HoldsBeside }
{}
