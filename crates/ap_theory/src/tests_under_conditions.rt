//! Laws of the tests of freshness and equality under a list of conditions.

ghost use Rattle.ap_theory.specs.StatementsOnTests.{AlphaUnderIsEquivariant, AlphaUnderIsReflexive, AlphaUnderIsSymmetric, AlphaUnderIsTransitive, AlphaUnderKeepsFreshness, AlphaUnderRespectsEqualPermutations, DisagreementUnder, EqualityIsTested, FreshNamesSwapUnder, FreshUnderIsEquivariant, FreshnessIsTested, ReductionIsLeastSet};

/// The tests are true just where what they test follows from the list.
pub fn tests_are_true()
    ensures fresh { FreshnessIsTested }
    ensures equal { EqualityIsTested }
{}

/// Equality under conditions is an equivalence, and does not see how permutations are listed.
pub fn alpha_under_is_equivalence()
    ensures reflexive { AlphaUnderIsReflexive }
    ensures symmetric { AlphaUnderIsSymmetric }
    ensures transitive { AlphaUnderIsTransitive }
    ensures same { AlphaUnderRespectsEqualPermutations }
{}

/// Freshness and equality under conditions are equivariant, and equal terms have the same fresh names.
pub fn alpha_under_is_equivariant()
    ensures equal { AlphaUnderIsEquivariant }
    ensures fresh { FreshUnderIsEquivariant }
    ensures kept { AlphaUnderKeepsFreshness }
{}

/// The names on which two permutations differ decide whether they make equal terms of one term.
pub fn disagreement_under_conditions()
    ensures differ { DisagreementUnder }
    ensures swap { FreshNamesSwapUnder }
{}

/// A freshness problem reduces to the least set of conditions from which it follows.
pub fn reduction_is_least_set()
    ensures { ReductionIsLeastSet }
{}
