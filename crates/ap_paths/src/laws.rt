//! Laws of trees and histories, for whoever cites a contract.

ghost use Rattle.ap_paths.specs.Laws.{MergesWhole};

use crate::tree::Tree;

/// The outputs of a legal and true history with nothing open, in path order, are those of the tree, as
/// far as they are wanted: where no path was left out, all.
pub fn merges_whole<T: Tree>(tree: &T)
    ensures { MergesWhole (T.choices tree.now) (T.at tree.now) }
{
    let _tree = tree;
}
