//! Laws of derivations that check.

ghost use Rattle.ap_verdicts.specs.Soundness.{CheckedIsSound, LimitedProofsCheck, NoneIsRefused, ProofsCheck};

/// What checks is sound, whoever made it.
pub fn what_checks_is_sound()
    ensures { CheckedIsSound }
{}

/// Each derivation of an answer that the search of a program finds checks.
pub fn proofs_check()
    ensures { ProofsCheck }
{}

/// So does each of those that are wanted, where fewer than all may be.
pub fn limited_proofs_check()
    ensures { LimitedProofsCheck }
{}

/// None of some derivations is refused just where each of them checks.
pub fn none_is_refused()
    ensures { NoneIsRefused }
{}
