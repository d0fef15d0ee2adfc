//! A law of counts.
ghost use Rattle.ap_text_commands.specs.Laws.{DeeperCountsAreTheSame};

/// Where no branch of a program's queries was cut at a depth, its clauses are used as often at each greater
/// depth: so a clause without a use is dead at all of these.
pub fn deeper_counts_are_the_same()
    ensures { DeeperCountsAreTheSame }
{}
