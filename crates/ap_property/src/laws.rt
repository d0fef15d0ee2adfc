//! Laws of properties.

ghost use Rattle.ap_property.specs.StatementsOnProperties.{AnsweredConclusionsAreDerivable, AnswersHaveTypes, ConclusionsAreTyped, CountersHaveNoProof, PartsAreTyped, StatedInstancesAreDerivable, StatedInstancesFit};

/// The hypothesis and the conclusion of a typed query are typed, and so is the conclusion with the stated
/// instance of an answer of the hypothesis put in.
pub fn parts_are_typed()
    ensures parts { PartsAreTyped }
    ensures put_in { ConclusionsAreTyped }
{}

/// A typed query is derivable, no higher than the depth, for the stated instance of each of its answers; the
/// terms have the types of its free variables, and no other names than its own and those that are numbered on.
/// There is one, since each variable of an answer has an inhabited type.
pub fn stated_instances_are_derivable()
    ensures exist { AnswersHaveTypes }
    ensures fit { StatedInstancesFit }
    ensures derivable { StatedInstancesAreDerivable }
{}

/// Where the conclusion comes to nothing, not even to a cut, with the stated instance of an answer of the
/// hypothesis put in, it has no ground proof under that instance, of any height.
pub fn counters_have_no_proof()
    ensures { CountersHaveNoProof }
{}

/// For each answer that the conclusion has with the stated instance of an answer of the hypothesis put in, it is
/// derivable for that instance, no higher than the depth.
pub fn answered_conclusions_are_derivable()
    ensures { AnsweredConclusionsAreDerivable }
{}
