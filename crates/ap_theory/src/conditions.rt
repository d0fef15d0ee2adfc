//! Laws of sets of conditions, and of reducing freshness problems to them.

ghost use Rattle.ap_theory.specs.StatementsOnConditions.{AddedConditionsAreIn, CollectingInParts, ConditionsAreASet, EarlyReductionSuffices, ReductionCommutesWithBindings, ReductionIsLeast, ReductionIsLeastOfAll, ReductionMovesAcross, RefutedWhereFree};

use crate::contexts::Conditions;

/// A set of conditions is determined by its members, in whatever order they are collected.
pub fn conditions_are_a_set()
    ensures added { AddedConditionsAreIn }
    ensures set { ConditionsAreASet }
{}

/// A freshness problem reduces to the least set of conditions from which it follows, also under
/// any substitution. Where it does not reduce it never follows.
pub fn reduction_is_least<D: Conditions>()
    ensures under { ReductionIsLeast D.holds }
    ensures least { ReductionIsLeastOfAll D.holds }
{}

/// Problems may be reduced as soon as they arise, and only the set of conditions kept.
pub fn early_reduction()
    ensures suffices { EarlyReductionSuffices }
    ensures parts { CollectingInParts }
{}

/// A problem is refuted just where its name is free in the term. Reducing commutes with permutations
/// and with bindings.
pub fn reduction_refutes()
    ensures free { RefutedWhereFree }
    ensures moves { ReductionMovesAcross }
    ensures bindings { ReductionCommutesWithBindings }
{}
