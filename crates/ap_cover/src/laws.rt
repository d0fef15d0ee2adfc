//! The law that ground proofs are covered.

ghost use Rattle.ap_cover.specs.Laws.{GroundProofsAreCovered};

/// In a program that keeps the name restriction, the output that is found for a ground proof that checks, no
/// higher than the depth, covers it: it is an answer at the path of the proof, of which what it proves is an
/// instance, or a branch that is stuck at a beginning of this path.
pub fn ground_proofs_are_covered()
    ensures { GroundProofsAreCovered }
{}
