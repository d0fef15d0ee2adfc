//! Laws of nominal unification (Urban, Pitts and Gabbay, "Nominal unification").

ghost use Rattle.ap_theory.specs.StatementsOnUnification.{EndingAfterAStep, EndingByAnyBound, EndingOfAFailure, EndingOfTheDone, MoreStepsChangeNothing, UnificationEnds, UnificationHasTheInstances, UnificationIsMostGeneral, UnificationRespectsEqualPermutations, UnificationSeesTheSubstitution};

use crate::contexts::Conditions;

/// Unification ends: the steps that it allows itself suffice, and more give the same.
pub fn unification_ends()
    ensures ends { UnificationEnds }
    ensures more { MoreStepsChangeNothing }
    ensures any { EndingByAnyBound }
{}

/// Unification unrolls by one step. This is the invariant of a loop that takes the steps.
pub fn unification_unrolls()
    ensures after { EndingAfterAStep }
    ensures failure { EndingOfAFailure }
    ensures finished { EndingOfTheDone }
{}

/// What unification gives has as its groundings just those that solve the equations.
pub fn unification_is_most_general()
    ensures { UnificationHasTheInstances }
{}

/// Inputs whose lists of swappings are equal as permutations give such results, and the same
/// conditions. The order of the bindings does not matter.
pub fn unification_respects_equal_permutations()
    ensures same { UnificationRespectsEqualPermutations }
    ensures order { UnificationSeesTheSubstitution }
{}

/// What unification gives has as its instances just the substitutions that solve the equations,
/// under any set of conditions and into terms with variables.
pub fn unification_is_most_general_on_terms<D: Conditions>()
    ensures { UnificationIsMostGeneral D.holds }
{}
