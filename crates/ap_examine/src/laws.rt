//! The laws on counterexamples, on what is held and on totals.

ghost use Rattle.ap_examine.specs.Clearances.{ClearIsNoProof, ClearSays};
ghost use Rattle.ap_examine.specs.Counterexamples.{CounterexamplesRefute, HeldAnswersAreDerivable};

/// For the instance of each counterexample the hypothesis is derivable to the depth, and the conclusion has no
/// ground proof of any height.
pub fn counterexamples_refute()
    ensures { CounterexamplesRefute }
{}

/// Where an answer of the hypothesis is held, the conclusion is derivable to the depth for its stated instance.
pub fn held_is_derivable()
    ensures { HeldAnswersAreDerivable }
{}

/// Totals without a counterexample say that each answer of the hypothesis is held or unsettled, and that where none is
/// unsettled the conclusion has an answer for the stated instance of each. They are no proof of the property: there is one
/// with totals of one held answer and nothing unsettled, cut or stuck, and with an instance that refutes it.
pub fn totals_are_no_proof()
    ensures says { ClearSays }
    ensures no_proof { ClearIsNoProof }
{}
