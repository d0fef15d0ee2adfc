//! Laws of groundings.

ghost use Rattle.ap_theory.specs.StatementsOnGroundings.{EqualityIsSound, FreshnessIsSound, GroundingCommutes, GroundingKeepsMeaning, GroundingMeetsTheAdded, GroundingMeetsTheReduced};

/// Grounding commutes with permutations, and up to equality with bindings with which it agrees.
pub fn grounding_commutes()
    ensures permutations { GroundingCommutes }
    ensures bindings { GroundingKeepsMeaning }
{}

/// A grounding meets what freshness problems reduce to just where they hold, and all that follows
/// from what it meets.
pub fn grounding_meets_conditions()
    ensures reduced { GroundingMeetsTheReduced }
    ensures added { GroundingMeetsTheAdded }
    ensures fresh { FreshnessIsSound }
    ensures equal { EqualityIsSound }
{}
