//! The tree of paths of a query.

ghost use Rattle.ap_search.specs.StatementsOnTrees.{ChoicesAreATree, KeptAreKids, LeftOutHasNothing, MarksHaveChoices, OneMarkAtAPath, OutputsAreInPathOrder, TreeOfChoices};

/// What is below a choice is what is below each of its ways, in order.
pub fn choices_are_a_tree()
    ensures tree { ChoicesAreATree }
    ensures widths { MarksHaveChoices }
    ensures paths { TreeOfChoices }
{}

/// Outputs stand in path order, and none begins with another. There is one mark at most at a path.
pub fn outputs_are_in_path_order()
    ensures order { OutputsAreInPathOrder }
    ensures one { OneMarkAtAPath }
{}

/// Of a choice those ways are kept whose head key agrees. They ascend, and below the others there is
/// nothing.
pub fn left_out_has_nothing()
    ensures nothing { LeftOutHasNothing }
    ensures kids { KeptAreKids }
{}
