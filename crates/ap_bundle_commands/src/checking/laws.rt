//! Laws of bundles that are checked.

ghost use Rattle.ap_bundle_commands.specs.CheckLaws.{ProofsAreChecked, VersionsAreCheckedAlike};

/// The bundle that is written, in either version, of a text and of all answers of its program, with their
/// derivations, is read again, and each of its derivations checks; and whatever a bundle holds, the report
/// on it is the same in both versions.
pub fn proofs_are_checked()
    ensures whole { ProofsAreChecked }
    ensures alike { VersionsAreCheckedAlike }
{}
