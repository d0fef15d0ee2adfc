//! Laws of what unification gives.

ghost use Rattle.ap_theory.specs.StatementsOnResults.{BoundStaysBound, IdempotentTwiceIsOnce, NoResultWhereHeadsDiffer, ResultConditionsAreASet, ResultEquates, ResultExtends, ResultIsIdempotent, ResultKeeps, ResultMeets};

/// From idempotent bindings unification gives idempotent bindings that extend them, and conditions
/// on unbound variables.
pub fn result_is_idempotent()
    ensures twice { IdempotentTwiceIsOnce }
    ensures idempotent { ResultIsIdempotent }
    ensures extends { ResultExtends }
    ensures bound { BoundStaysBound }
{}

/// Under the bindings and the conditions of the result, the two sides of each equation are equal
/// and the first conditions follow, for terms with variables. The conditions are a set.
pub fn result_is_a_solution()
    ensures equates { ResultEquates }
    ensures meets { ResultMeets }
    ensures set { ResultConditionsAreASet }
{}

/// Terms that begin differently do not unify, whatever stands at the other places.
pub fn no_result_where_heads_differ()
    ensures { NoResultWhereHeadsDiffer }
{}

/// Unification brings no variable of its own.
pub fn result_brings_no_variable()
    ensures { ResultKeeps }
{}
