//! Derivations that check.

ghost use Rattle.ap_checks.specs.StatementsOnChecks.{CheckedIsDerivable, CheckedIsDerivableAsShown, DerivableIsDerivableAsShown, FoundDerivationsCheck, TypesAreTested};

/// The test of types, by which a checker decides, is true just where a term is typed.
pub fn types_are_tested()
    ensures { TypesAreTested }
{}

/// The derivation of each state that the search of a query finds checks against its answer.
pub fn found_derivations_check()
    ensures { FoundDerivationsCheck }
{}

/// Where a derivation checks, whoever made it, its query is derivable in each instance of its
/// answer, no higher than the derivation. So it is in each instance of what is shown of the
/// answer, where each of its variables has an inhabited type.
pub fn checked_is_derivable()
    ensures derivable { CheckedIsDerivable }
    ensures shown { CheckedIsDerivableAsShown }
{}

/// What is shown of an answer keeps what the answer says, whoever made it: where its query is
/// derivable in each instance of the answer, it is in each instance of what is shown, if each of the
/// answer's variables has one type, and that is inhabited.
pub fn shown_is_derivable()
    ensures { DerivableIsDerivableAsShown }
{}
