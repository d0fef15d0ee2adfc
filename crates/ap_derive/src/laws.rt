//! Laws of branches that stand at answers.

ghost use Rattle.ap_derive.specs.Laws.{AnswersHaveDerivations, DerivationsAreUnique};

/// A branch that stands at an answer has one derivation: that of the state which the search found at its
/// path.
pub fn answers_have_derivations()
    ensures some { AnswersHaveDerivations }
    ensures one { DerivationsAreUnique }
{}
