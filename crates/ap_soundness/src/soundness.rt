//! What the search of a query finds has ground proofs.

ghost use Rattle.ap_soundness.specs.StatementsOnSoundness.{AnswersAreSound, AnswersAreSoundAndTyped, FoundStatesAreDerivable, ShownAnswersAreSound};

/// Ground terms that agree with the bindings of a state that was found, meet its conditions and have the
/// types of the variables of its derivation, make a ground proof of the query, no higher than the depth of
/// the search.
pub fn found_states_are_derivable()
    ensures { FoundStatesAreDerivable }
{}

/// In each instance of an answer, with ground terms of the types of its variables that meet its conditions,
/// the query has a ground proof, no higher than the depth of the search. The instances of the bindings have
/// the types of the query's free variables.
pub fn answers_are_sound()
    ensures derivable { AnswersAreSound }
    ensures typed { AnswersAreSoundAndTyped }
{}

/// In each instance of what is shown of an answer there are ground terms for the query's free variables,
/// with those that are shown among them, for which the query has a ground proof.
pub fn shown_answers_are_sound()
    ensures { ShownAnswersAreSound }
{}
