//! The states of a search: bindings carried out, conditions on unbound variables, numbers below the next.

ghost use Rattle.ap_search.specs.StatementsOnFitStates.{QueryFindsFitStates, SearchFindsFitStates, UnifiedIsBelow};

/// Unification brings no number of a name or a variable of its own.
pub fn unified_is_below()
    ensures { UnifiedIsBelow }
{}

/// In a program whose clauses have no numbers but those of their identifiers, a search finds only
/// states in which bindings are carried out, conditions are on unbound variables, and every number is
/// below the next one.
pub fn search_finds_fit_states()
    ensures search { SearchFindsFitStates }
    ensures query { QueryFindsFitStates }
{}
