//! The inhabited types and those that may hold names of a sort are least, and are told by ground terms.

ghost use Rattle.ap_types.specs.StatementsOnInhabited.{InhabitedIsClosed, InhabitedIsLeast, InhabitedIsHavingTerms, HoldingIsClosed, HoldingIsLeast, FreeNamesAreHeld, HoldingIsHavingNames, HoldingMayBeEmpty};

/// The inhabited types are the least set that is closed under the rules.
pub fn inhabited_is_least()
    ensures closed { InhabitedIsClosed }
    ensures least { InhabitedIsLeast }
{}

/// A type is inhabited exactly where it has a ground term.
pub fn inhabited_has_terms()
    ensures { InhabitedIsHavingTerms }
{}

/// The types that may hold names of a sort are the least set that is closed under the rules.
pub fn holding_is_least()
    ensures closed { HoldingIsClosed }
    ensures least { HoldingIsLeast }
{}

/// A type may hold the sort of each name that is free in a ground term of it; and where all data types that stand in types are inhabited,
/// of no other. That premise is needed.
pub fn holding_has_names()
    ensures free { FreeNamesAreHeld }
    ensures exact { HoldingIsHavingNames }
    ensures premise { HoldingMayBeEmpty }
{}
