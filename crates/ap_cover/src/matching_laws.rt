//! The law that matching gives a covering.

ghost use Rattle.ap_cover.specs.StatementsOnMatching.{MatchedTermsCover};

/// In a program that keeps the name restriction, the answer at the path of a ground proof covers it by what its
/// terms match, whatever its names that are none of the query's are exchanged for, as long as those are fresh for
/// the terms.
pub fn matched_terms_cover()
    ensures { MatchedTermsCover }
{}
