//! Search in continuation form: goals that wait on a stack.

ghost use Rattle.ap_search.specs.StatementsOnContinuations.{StackIsQuery};

/// The outputs of a stack that has the one goal of a query are those of the query.
pub fn stack_is_query()
    ensures { StackIsQuery }
{}
