//! The outcomes of a search, where something is told of the places where it chooses.

ghost use Rattle.ap_search.specs.StatementsOnOutcomes.{OutputsAmongMarks};

/// The outputs among the marks of a goal are those of its search.
pub fn outputs_stand_among_marks()
    ensures { OutputsAmongMarks }
{}
