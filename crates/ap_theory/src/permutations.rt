//! Laws of permutations, given as lists of swappings of which the last acts first.

ghost use Rattle.ap_theory.specs.StatementsOnPermutations.{ActionComposes, ActionIsInjective, ActionKeepsSorts, CanonicalListIsEqual, CanonicalListIsItsOwn, CanonicalListMentionsTheMoved, DisagreementIsWhole, EqualsDisagreeAlike, EqualsDoNotDisagree, EqualsHaveOneCanonicalList, InverseIsUndone, InverseUndoes, InversesOfEqualsAreEqual, SwappingFlips, SwappingIsConjugated, SwappingOfOneName, SwappingUndoesItself, UnmentionedIsFixed, WhatDoesNotDisagreeIsEqual};

/// Two lists in a row act one after the other.
pub fn composition()
    ensures { ActionComposes }
{}

/// A permutation is a bijection that keeps sorts, and its inverse undoes it on either side.
pub fn bijection()
    ensures injective { ActionIsInjective }
    ensures sorts { ActionKeepsSorts }
    ensures undoes { InverseUndoes }
    ensures undone { InverseIsUndone }
    ensures inverses { InversesOfEqualsAreEqual }
    ensures fixed { UnmentionedIsFixed }
{}

/// A swapping undoes itself, may be written either way round, and with one name does nothing.
pub fn swapping()
    ensures undoes { SwappingUndoesItself }
    ensures flips { SwappingFlips }
    ensures one { SwappingOfOneName }
{}

/// A permutation carries a swapping over to the images of its names.
pub fn conjugation()
    ensures { SwappingIsConjugated }
{}

/// Two permutations are equal as functions just where no name is in their disagreement set, which
/// depends on the functions alone.
pub fn disagreement_set()
    ensures whole { DisagreementIsWhole }
    ensures none { EqualsDoNotDisagree }
    ensures equal { WhatDoesNotDisagreeIsEqual }
    ensures alike { EqualsDisagreeAlike }
{}

/// Each permutation has one canonical list, which is equal to it and names only what it moves.
pub fn canonical_list()
    ensures equal { CanonicalListIsEqual }
    ensures one { EqualsHaveOneCanonicalList }
    ensures own { CanonicalListIsItsOwn }
    ensures moved { CanonicalListMentionsTheMoved }
{}
