//! Ground proofs and the answers of a search.

ghost use Rattle.ap_complete.specs.StatementsOnCompleteness.{AnswersAreComplete, DerivableIsAnswered, EachExchangeCovers, InstancesAreDerivable, KeptProgramsAreComplete, OutputsStandAlone, ProgramsAreComplete, ProofsAreCovered, RestrictionIsNeeded, WholeAnswersAreAll};

/// In a program that keeps the name restriction every ground proof of a query, no higher than the depth of
/// the search, is covered: at its path stands an answer of which the proof's terms are an instance, up to
/// names that are none of the query's, or a branch is stuck at a beginning of the path; and only one of the
/// two, since an output stands alone at its path. It is an instance whatever the answer's names that are none
/// of the query's are exchanged for, as long as those are fresh for the terms.
pub fn proofs_are_covered()
    ensures covered { ProofsAreCovered }
    ensures each { EachExchangeCovers }
    ensures alone { OutputsStandAlone }
{}

/// So each derivable instance of a query, no higher than the depth, is an instance of an answer, or a branch
/// is stuck. Where nothing was cut and nothing is stuck it is an instance of an answer, at any height. And
/// the other way round: what is an instance of an answer is derivable, no higher than the depth.
pub fn derivable_is_answered()
    ensures to_a_depth { DerivableIsAnswered }
    ensures whole { WholeAnswersAreAll }
    ensures derivable { InstancesAreDerivable }
{}

/// The same in the terms of what is shown, of a query, of each query of a program, and of each query of the
/// program of items: the converse of what `ap_soundness` has of shown answers.
pub fn answers_are_complete()
    ensures query { AnswersAreComplete }
    ensures program { ProgramsAreComplete }
    ensures items { KeptProgramsAreComplete }
{}

/// Without the name restriction the answers of a typed program need not be complete.
pub fn restriction_is_needed()
    ensures { RestrictionIsNeeded }
{}
