//! Laws of new names, of exchanges of two lists of names, and of extensions of finite injections.

ghost use Rattle.ap_theory.specs.StatementsOnExchanges.{ExchangeComesBack, ExchangeFixesTheRest, ExchangeGoes, ExchangeUndoesItself, ExtensionFixesTheRest, InjectionExtends, NewNamesAreDifferent, NewNamesAreHigh, NewNamesAreNew, NewNamesHaveSorts};

/// There are new names: of any sorts, with numbers from any on, none of them twice and none of a given
/// list.
pub fn new_names_are_new()
    ensures sorts { NewNamesHaveSorts }
    ensures different { NewNamesAreDifferent }
    ensures new { NewNamesAreNew }
    ensures high { NewNamesAreHigh }
{}

/// Two lists of names without a common one can be exchanged. The exchange leaves every other name and
/// undoes itself.
pub fn exchange_is_an_involution()
    ensures goes { ExchangeGoes }
    ensures back { ExchangeComesBack }
    ensures rest { ExchangeFixesTheRest }
    ensures itself { ExchangeUndoesItself }
{}

/// A finite injection that keeps sorts extends to a permutation that leaves every other name below
/// a given number.
pub fn injection_extends()
    ensures goes { InjectionExtends }
    ensures rest { ExtensionFixesTheRest }
{}
