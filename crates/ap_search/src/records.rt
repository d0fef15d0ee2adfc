//! Answers by the variables that clauses and `exists` brought.

ghost use Rattle.ap_search.specs.StatementsOnRecords.{AnswerSeesASet, AnswerSeesVariables};

/// Of a derivation an answer sees the set of its variables alone.
pub fn answer_sees_variables()
    ensures derivation { AnswerSeesVariables }
    ensures set { AnswerSeesASet }
{}
