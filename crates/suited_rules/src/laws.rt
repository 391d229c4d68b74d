//! The laws of rules, each as the clause of a function that does nothing.

ghost use Rattle.suited_rules.specs.Laws.{AnswersSuit, StartsSuited, StepsKeepSuited};

/// In the states of scripts over a valid library each rule is one of an object that was made, and
/// suits the method in its slot of the object's interface; and a forwarder has the interface of its
/// target. Each line keeps this.
pub fn lines_keep_rules_suited()
    ensures start { StartsSuited }
    ensures kept { StepsKeepSuited }
{}

/// So the rule by which a call is answered suits the member that is called, whatever forwarders
/// stand on the way and whichever ancestor's name the line uses.
pub fn the_rule_that_answers_suits()
    ensures { AnswersSuit }
{}
