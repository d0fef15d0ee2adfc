//! Resolution along a path.

ghost use Rattle.ap_checks.specs.StatementsOnTraces.{PathsLeadToFoundStates};

/// A path leads to a state, with a derivation, just where the search finds them at the part of the
/// path that was taken.
pub fn paths_lead_to_found_states()
    ensures { PathsLeadToFoundStates }
{}
