//! Search and answers do not see how permutations are listed, nor in which order variables were bound.

ghost use Rattle.ap_search.specs.StatementsOnSameStates.{AnswerWithRespectsEqualStates, CallsRespectEqualStates, EqualOutputsHaveEqualAnswers, EqualStatesHaveOneAnswer, OutputsRespectEqualStates, SearchRespectsEqualStates};

/// From states that count as equal, goals that count as equal have the same outputs, place by
/// place, up to states that count as equal.
pub fn search_respects_equal_states()
    ensures outputs { OutputsRespectEqualStates }
    ensures calls { CallsRespectEqualStates }
    ensures search { SearchRespectsEqualStates }
{}

/// States that count as equal have one answer.
pub fn equal_states_have_one_answer()
    ensures one { EqualStatesHaveOneAnswer }
    ensures with { AnswerWithRespectsEqualStates }
    ensures lists { EqualOutputsHaveEqualAnswers }
{}
