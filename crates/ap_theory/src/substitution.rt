//! Laws of substitutions. A binder may capture.

ghost use Rattle.ap_theory.specs.StatementsOnSubstitution.{BindingsAreASubstitution, BindingsCommute, BindingsKeepEquality, BindingsKeepFreshness, OccurringIsNoLonger, PuttingCommutes, PuttingIsASubstitution, PuttingLeavesTheAbsent, SubstitutionCommutes, SubstitutionIsCongruent, SubstitutionIsLocal, SubstitutionKeepsEquality, SubstitutionKeepsFreshness, SubstitutionsCompose, VariablesAreIdentity};

use crate::contexts::Conditions;

/// A substitution commutes with permutations, and two in a row are one. The variables alone are
/// the identity.
pub fn substitution_composes()
    ensures commutes { SubstitutionCommutes }
    ensures composes { SubstitutionsCompose }
    ensures identity { VariablesAreIdentity }
{}

/// Only the variables that occur in a term matter, and none is longer than the term.
pub fn substitution_is_local()
    ensures occurring { SubstitutionIsLocal }
    ensures size { OccurringIsNoLonger }
{}

/// A list of bindings is a substitution, as is one term put for one variable. Both commute with
/// permutations.
pub fn bindings_are_substitutions()
    ensures under { BindingsAreASubstitution }
    ensures put { PuttingIsASubstitution }
    ensures absent { PuttingLeavesTheAbsent }
    ensures under_commutes { BindingsCommute }
    ensures put_commutes { PuttingCommutes }
{}

/// Bindings whose terms meet what was said of the variables keep freshness and equality.
pub fn bindings_keep_conditions<D: Conditions, E: Conditions>()
    ensures fresh { BindingsKeepFreshness D.holds E.holds }
    ensures equal { BindingsKeepEquality D.holds E.holds }
{}

/// A substitution whose terms meet what was said of the variables keeps freshness and equality.
pub fn substitution_keeps_conditions<D: Conditions, E: Conditions>()
    ensures fresh { SubstitutionKeepsFreshness D.holds E.holds }
    ensures equal { SubstitutionKeepsEquality D.holds E.holds }
{}

/// Substitutions that are equal on the variables of a term make equal terms of it.
pub fn substitution_is_congruent<D: Conditions>()
    ensures { SubstitutionIsCongruent D.holds }
{}
