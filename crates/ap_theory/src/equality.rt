//! Laws of freshness and equality of terms with variables, under any set of conditions.

ghost use Rattle.ap_theory.specs.StatementsOnEquality.{CanonicalTermIsSame, DisagreementDecides, EqualityIsDecided, EqualityIsEquivariant, EqualityIsReflexive, EqualityIsSymmetric, EqualityIsTransitive, EqualityKeepsFreshness, EqualityRespectsEqualPermutations, EqualityWeakens, FreshNamesSwap, FreshnessIsDecided, FreshnessIsEquivariant, FreshnessOfTheMoved, FreshnessRespectsEqualPermutations, FreshnessWeakens, PermutationsMoveAcross, SameWhereCanonicalIsOne};

use crate::contexts::Conditions;

/// A permutation changes no freshness, and is carried over to the name. More conditions keep it.
pub fn freshness_is_equivariant<D: Conditions>()
    ensures both { FreshnessIsEquivariant D.holds }
    ensures moved { FreshnessOfTheMoved D.holds }
    ensures same { FreshnessRespectsEqualPermutations D.holds }
{}

/// Equality is an equivalence.
pub fn equality_is_equivalence<D: Conditions>()
    ensures reflexive { EqualityIsReflexive D.holds }
    ensures symmetric { EqualityIsSymmetric D.holds }
    ensures transitive { EqualityIsTransitive D.holds }
{}

/// Equality is equivariant, does not see how permutations are listed, and keeps freshness.
pub fn equality_is_equivariant<D: Conditions>()
    ensures both { EqualityIsEquivariant D.holds }
    ensures across { PermutationsMoveAcross D.holds }
    ensures same { EqualityRespectsEqualPermutations D.holds }
    ensures fresh { EqualityKeepsFreshness D.holds }
{}

/// What two permutations make of a term is equal just where the names on which they differ are
/// fresh for it. So swapping two fresh names changes nothing up to equality.
pub fn disagreement_decides_equality<D: Conditions>()
    ensures differ { DisagreementDecides D.holds }
    ensures swap { FreshNamesSwap D.holds }
{}

/// Where each condition is decided, so are freshness and equality.
pub fn decided_conditions<D: Conditions>()
    ensures fresh { FreshnessIsDecided D.holds }
    ensures equal { EqualityIsDecided D.holds }
{}

/// What follows from some conditions follows from more.
pub fn more_conditions<D: Conditions, E: Conditions>()
    ensures fresh { FreshnessWeakens D.holds E.holds }
    ensures equal { EqualityWeakens D.holds E.holds }
{}

/// Terms that differ only in how permutations are listed are those with one canonical form.
pub fn canonical_terms()
    ensures one { SameWhereCanonicalIsOne }
    ensures same { CanonicalTermIsSame }
{}
