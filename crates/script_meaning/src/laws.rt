//! The laws of what scripts mean, each as the clause of a function that does nothing.

ghost use Rattle.script_meaning.specs.Laws.{ChainsEnd, EndsAreLawful, EntersAlike, RefusedChangesNothing, StepsKeepLawful};

/// A refused line leaves the state as it was, blocks, rules, variables, context and forwarders
/// alike; it writes its words and why; and the next lines run from this state.
pub fn a_refused_line_changes_nothing()
    ensures { RefusedChangesNothing }
{}

/// In the states that scripts leave each block stands behind the one before it, all within the room
/// of the heap; objects are numbered from 0; each forwarder hands its calls to an object of a
/// smaller number; and the context is an address. Each line keeps this.
pub fn states_are_lawful()
    ensures kept { StepsKeepLawful }
    ensures at_the_end { EndsAreLawful }
{}

/// Two `enter` lines for one object and one member, that have no item of wrong form and whose
/// frames conform to the same values, write the same behind their own words and leave the same
/// state, whatever stands in the bits and bytes that the convention leaves free.
pub fn frames_of_the_same_values_have_one_outcome()
    ensures { EntersAlike }
{}

/// Every call reaches the object that answers: the way from an object ends after as many steps as
/// its number at most, and more steps change nothing.
pub fn ways_through_forwarders_end()
    ensures { ChainsEnd }
{}
