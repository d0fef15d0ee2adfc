//! A law of terms that are picked.

ghost use Rattle.ap_picks.specs.StatementsOnPicks.{PicksAreTyped};

/// What is picked for an inhabited type has that type, and no names but the new ones, each with its sort.
pub fn picks_are_typed()
    ensures { PicksAreTyped }
{}
