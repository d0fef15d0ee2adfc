//! The paths of what a stack has.

ghost use Rattle.ap_search.specs.StatementsOnPrefixes.{ClausesHaveTheirWays, MarkedStackBegins, MarkedStackIsQuery, MarksAmongStack, StackBegins};

/// All that a stack has from a path on begins with that path, and without the choices its marks
/// are its outputs.
pub fn stacks_go_on()
    ensures outputs { StackBegins }
    ensures marks { MarkedStackBegins }
    ensures among { MarksAmongStack }
{}

/// A stack that has the one goal of a query has its marks, which are those of its tree of paths.
pub fn marked_stack_is_query()
    ensures { MarkedStackIsQuery }
{}

/// Below each clause of an atom there is what that clause has.
pub fn clauses_have_their_ways()
    ensures { ClausesHaveTheirWays }
{}
