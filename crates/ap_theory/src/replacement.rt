//! Laws of replacing each name by its image, in the lists of suspensions too.

ghost use Rattle.ap_theory.specs.StatementsOnReplacement.{AbsentNamesAreFresh, ReplacedPermutation, ReplacementAndGrounding, ReplacementOfTheFixed, UnmovedGroundTermIsFixed};

/// Replacing names is the action on what a term stands for. It leaves a term whose names stay.
pub fn replacement_and_action()
    ensures permutations { ReplacedPermutation }
    ensures groundings { ReplacementAndGrounding }
    ensures fixed { ReplacementOfTheFixed }
{}

/// A name that a ground term does not have is fresh for it, and a permutation of such names leaves it.
pub fn names_of_ground_terms()
    ensures absent { AbsentNamesAreFresh }
    ensures fixed { UnmovedGroundTermIsFixed }
{}
