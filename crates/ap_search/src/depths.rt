//! Greater depths.

ghost use Rattle.ap_search.specs.StatementsOnDepths.{DeeperIsTheSame, DeeperQueryIsTheSame};

/// Where nothing was cut at a depth, each greater depth gives the same outputs.
pub fn deeper_is_the_same()
    ensures goals { DeeperIsTheSame }
    ensures queries { DeeperQueryIsTheSame }
{}
