//! Ground proofs, their environments, and permutations.

ghost use Rattle.ap_ground.specs.StatementsOnGroundProofs.{HeightIsEquivariant, InstancesSeeIdentifiers, ProofsAreEquivariant, ProofsSeeFreeIdentifiers};

/// The instance of a term, and a ground proof of a goal, depend only on what the environment gives
/// the names and variables that stand in the term or are free in the goal, up to renaming of binders.
pub fn proofs_see_free_identifiers()
    ensures instances { InstancesSeeIdentifiers }
    ensures proofs { ProofsSeeFreeIdentifiers }
{}

/// Where a permutation acts on the environment and on every name and term of a ground proof, a ground
/// proof of the same goal comes out, of the same height.
pub fn proofs_are_equivariant()
    ensures proofs { ProofsAreEquivariant }
    ensures height { HeightIsEquivariant }
{}
