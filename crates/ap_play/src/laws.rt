//! Laws of permitted lists of events.

ghost use Rattle.std.specs.Prelude.{ℕ, ◌<◌};
ghost use Rattle.ap_tools.specs.Laws.{StaysWhole, ArePermitted, AreInOrder};

use ap_paths::Tree;

/// After each permitted list of events the pending paths are those in hands and deques, each once,
/// and no path that is pending or has ended begins another. The outputs that were recorded and
/// those below the pending paths, in path order, are all of the tree; where nothing is pending, the
/// recorded ones alone are.
pub fn stays_whole<T: Tree>(tree: &T)
    ensures { (n : ℕ) → 0 < n → StaysWhole (T.choices tree.now) (T.at tree.now) n }
{
    let _tree = tree;
}

/// For two workers or more each legal and true history without a stop, whose seats are workers, is
/// that of some permitted list of events.
pub fn are_permitted<T: Tree>(tree: &T)
    ensures { (n : ℕ) → 1 < n → ArePermitted (T.choices tree.now) (T.at tree.now) n }
{
    let _tree = tree;
}

/// For one worker the histories of permitted lists of events are exactly those in the order of the
/// least open paths.
pub fn are_in_order<T: Tree>(tree: &T)
    ensures { AreInOrder (T.choices tree.now) (T.at tree.now) }
{
    let _tree = tree;
}
