//! The types of states and answers.

ghost use Rattle.ap_search.specs.StatementsOnTypes.{AnswersAreTyped, AnswersHaveBindings, SearchFindsTypedStates, TypedIsFit, TypedQueryIsFit, UnificationKeepsTypes};

/// Unification of terms that have the same types keeps types.
pub fn unification_keeps_types()
    ensures { UnificationKeepsTypes }
{}

/// The search of a typed query of a typed program finds typed states, and its answers are typed.
pub fn answers_are_typed()
    ensures states { SearchFindsTypedStates }
    ensures answers { AnswersAreTyped }
    ensures bindings { AnswersHaveBindings }
{}

/// The numbers of a typed program and of a typed query are those of their identifiers.
pub fn typed_items_are_fit()
    ensures program { TypedIsFit }
    ensures query { TypedQueryIsFit }
{}
