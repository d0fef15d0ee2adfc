//! Names in ground proofs.

ghost use Rattle.ap_complete.specs.StatementsOnRenaming.{ProofsAreRenamed};

/// In a program that keeps the name restriction each ground proof has one of the same path and height in
/// which every clause is used, and every `new` is met, with the names that a search takes there.
pub fn proofs_are_renamed()
    ensures { ProofsAreRenamed }
{}
