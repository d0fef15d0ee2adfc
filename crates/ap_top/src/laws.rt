//! The law on the program that runs texts, and does nothing else.
ghost use Rattle.ap_top.specs.Laws.{RunsAreTheSame};

/// Where the words ask for a run, the report of that program is the report of the program of all commands.
pub fn runs_are_the_same()
    ensures { RunsAreTheSame }
{}
