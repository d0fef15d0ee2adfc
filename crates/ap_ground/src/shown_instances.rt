//! Instances of what is shown of an answer.

ghost use Rattle.ap_ground.specs.StatementsOnShownInstances.{DerivabilityIsEquivariant, ShownInstancesAreDerivable, ShownInstancesAreTyped};

/// A permutation that leaves the free names of a query keeps its derivability, at each height.
pub fn derivability_is_equivariant()
    ensures { DerivabilityIsEquivariant }
{}

/// Where a query is derivable in each instance of an answer, it is in each instance of what is shown:
/// for each grounding of the variables of the shown bindings that meets the shown conditions, there are
/// terms for the other variables for which it is derivable.
pub fn shown_instances_are_derivable()
    ensures derivable { ShownInstancesAreDerivable }
    ensures typed { ShownInstancesAreTyped }
{}
