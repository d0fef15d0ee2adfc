//! Names that are fresh: by types, and where a clause is used.

ghost use Rattle.ap_complete.specs.StatementsOnFreshness.{ClauseNamesAreFresh, SortsNotHeldAreFresh};

/// A ground term of a type that can't hold names of a sort has no free name of that sort.
pub fn sorts_not_held()
    ensures { SortsNotHeldAreFresh }
{}

/// The name restriction at work: where the head of a clause is equal to an atom's arguments and its body
/// has a ground proof, the names with which the clause is used are fresh for these arguments.
pub fn clause_names_are_fresh()
    ensures { ClauseNamesAreFresh }
{}
