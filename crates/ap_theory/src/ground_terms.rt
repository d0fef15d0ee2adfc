//! Laws of ground terms: freshness, and equality up to renaming of binders.

ghost use Rattle.ap_theory.specs.StatementsOnGroundTerms.{AlphaIsEquivariant, AlphaIsReflexive, AlphaIsSymmetric, AlphaIsTransitive, AlphaKeepsFreshness, GroundDisagreement, GroundFreshNamesSwap, GroundFreshnessIsEquivariant};

/// Equality up to renaming of binders is an equivalence.
pub fn alpha_is_equivalence()
    ensures reflexive { AlphaIsReflexive }
    ensures symmetric { AlphaIsSymmetric }
    ensures transitive { AlphaIsTransitive }
{}

/// A permutation changes neither freshness nor equality, and equal terms have the same fresh names.
pub fn alpha_is_equivariant()
    ensures equal { AlphaIsEquivariant }
    ensures fresh { GroundFreshnessIsEquivariant }
    ensures kept { AlphaKeepsFreshness }
{}

/// The names on which two permutations differ decide whether they make equal terms of one term.
pub fn ground_disagreement()
    ensures differ { GroundDisagreement }
    ensures swap { GroundFreshNamesSwap }
{}
