//! Ground terms that have types.

ghost use Rattle.ap_ground.specs.StatementsOnTypedTerms.{InhabitedAvoidsNames, InstancesHaveTypes, InstancesHaveTypesEach, TypesAreEquivariant};

/// A permutation keeps the type of a ground term.
pub fn types_are_equivariant()
    ensures { TypesAreEquivariant }
{}

/// An inhabited type has a ground term for which any given names are fresh.
pub fn inhabited_avoids_names()
    ensures { InhabitedAvoidsNames }
{}

/// A term that has a type has an instance of that type for each grounding that gives the variables
/// that stand in it ground terms of their types; and so have terms that have types, one each.
pub fn instances_have_types()
    ensures term { InstancesHaveTypes }
    ensures terms { InstancesHaveTypesEach }
{}
