//! The search beside a ground proof.

ghost use Rattle.ap_complete.specs.StatementsOnSimulation.{SearchFollowsProofs};

/// From a state that a grounding solves, a search comes to the path of each ground proof that has the names
/// of the search and the terms of the grounding: it finds a state there that the grounding solves, or is
/// stuck at a beginning of the path.
pub fn search_follows_ground_proofs()
    ensures { SearchFollowsProofs }
{}
